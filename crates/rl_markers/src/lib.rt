//! The markers of hoisted variables: a variable that an inner function names before its declaration is declared in front of the
//! statement in which the function stands.
#![tactic(auto)]

pub mod kinds;
pub mod lists;
pub mod marker_table;
pub mod marking;
pub mod named;
pub mod node_symbols;
pub mod parts;
pub mod uses;

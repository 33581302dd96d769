//! The rows of names, of function declarations without a body, of the order of evaluation and of chains.
#![tactic(auto)]

pub mod bodiless;
pub mod chains;
pub mod facts;
pub mod names;
pub mod order;
pub mod parameters;

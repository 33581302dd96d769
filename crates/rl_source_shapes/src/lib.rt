//! Runs of functions by their source: names, operators, literals, and what the syntax alone says of events.
#![tactic(auto)]

pub mod events;
pub mod keys;
pub mod names;
pub mod operators;
pub mod pieces;
pub mod shapes;
pub mod tests;

//! The lowered functions of a unit by their nodes, and the world of one: the variables that it shares with the others.
#![tactic(auto)]

pub mod function_at;
pub mod world;

//! The rows of refusals, stops and skips: whether one applies in a lowered function.
#![tactic(auto)]

pub mod itself;
pub mod plan;
pub mod supported;
pub mod tags;
pub mod walk;

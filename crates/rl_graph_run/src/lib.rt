//! Runs of the graphs of a result.
#![tactic(auto)]

pub mod numbers;
pub mod others;
pub mod run;
pub mod world;

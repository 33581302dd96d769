//! Runs of functions by their source: expressions.
#![tactic(auto)]

pub mod assignment;
pub mod calls;
pub mod evaluate;
pub mod properties;
pub mod take;
pub mod targets;

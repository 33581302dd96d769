//! Runs of functions by their source.
#![tactic(auto)]

pub mod drive;
pub mod source;
pub mod unit;

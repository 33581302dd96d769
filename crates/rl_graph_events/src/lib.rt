//! The events of instructions.
#![tactic(auto)]

pub mod building;
pub mod event;

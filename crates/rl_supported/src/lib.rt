//! Supported units: those to whose lowered functions no row applies.
#![tactic(auto)]

pub mod known;
pub mod supported;

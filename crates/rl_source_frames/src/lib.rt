//! Steps of a run of a function by its source with the innermost frame of what waits.
#![tactic(auto)]

pub mod through;

//! The walks over a function that look for its first stop, and for declarations for which its unit is skipped.
#![tactic(auto)]

mod around;
pub mod body_stops;
mod caught;
pub mod found_stop;
pub mod skips;
pub mod stops;

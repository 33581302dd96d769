//! The places that the instructions of a result name, mark, share and assign.
#![tactic(auto)]

pub mod places;
pub mod role;
pub mod tables;
pub mod value;

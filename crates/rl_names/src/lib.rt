//! The meanings of the names of a unit in the lowering of one of its functions.
#![tactic(auto)]

pub mod names;
pub mod parameters;

//! The entities, symbols and texts that the run of a function by its source depends on, made of its unit.
#![tactic(auto)]

pub mod elements;
pub mod entities;
pub mod functions;
pub mod shared;
pub mod spaced;

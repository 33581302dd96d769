//! The dead parts of a function: statements that are never run, whatever its tests come to, and the functions inside them.
#![tactic(auto)]

pub mod flow;
pub mod functions;
pub mod jumps;
pub mod parts;
pub mod ranges;
pub mod walk;

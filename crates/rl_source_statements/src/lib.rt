//! Runs of functions by their source: statements.
#![tactic(auto)]

pub mod bind;
pub mod cases;
pub mod declare;
pub mod execute;
pub mod finish;
pub mod leave;
pub mod loops;
pub mod parameters;
pub mod take;

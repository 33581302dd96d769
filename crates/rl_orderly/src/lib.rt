//! Orderly functions: those that the compiler's own order of evaluation runs as their source does.
#![tactic(auto)]

pub mod items;
pub mod node;
pub mod orderly;
pub mod pattern;
pub mod patterns;
pub mod steady;

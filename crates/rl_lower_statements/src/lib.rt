//! Statements to blocks: the walk over them, with declarations, binding patterns, loops, jumps, `switch`, `throw` and `try`.
#![tactic(auto)]

mod case_test;
pub mod declaration;
mod heads;
mod jumps;
mod loops;
pub mod pattern;
mod pattern_items;
pub mod statement;
mod switch;
mod throw;
mod try_statement;

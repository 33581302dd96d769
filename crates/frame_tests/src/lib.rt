//! A language of formulas, which is lowered with the frames of `rl_frames`, and tests of its blocks.
#![tactic(auto)]

pub mod formula;
pub mod graph;
pub mod lower;
#[cfg(test)]
mod tests;

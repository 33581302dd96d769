//! The nodes of a function that the lowering covers.
#![tactic(auto)]

mod conditions;
pub mod covered;
mod covered_words;

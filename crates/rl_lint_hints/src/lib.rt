//! Hints for the linter: the functions that nodes stand in, the last declarations of symbols, and the paths to declarations that are in
//! force before they stand. No contract says that they are right. The linter tests each one that it uses, and where a test fails it walks
//! over the tree.
#![tactic(auto)]

pub mod checks;
pub mod hints;
pub mod words;

//! The grammar of units: one table, the test of a tree by it, and typed trees.
#![tactic(auto)]

mod expression_rules;
pub mod fits;
pub mod kind;
pub mod parts;
pub mod rules;
pub mod sort;
pub mod tree;

//! Nodes by the forms of their parts: parts that have a form, nodes of which a row leaves out a part, patterns, and the types of
//! expressions in diagnostics.
#![tactic(auto)]

pub mod moved;
pub mod outs;
pub mod part_forms;
pub mod patterns;

//! The machine that runs a graph, step by step.
#![tactic(auto)]

pub mod act;
pub mod ask;
pub mod execute;
pub mod fuel;
pub mod graph;
pub mod leave;
pub mod machine;
pub mod note;
pub mod run;

//! The order of blocks, and the passes that are made over a graph.
#![tactic(auto)]

pub mod checks;
pub mod indices;
pub mod numbering;
pub mod order;
pub mod predecessors;
pub mod prune;
pub mod removals;
mod room;
mod step;
pub mod tasks;
pub mod tries;
mod walked;

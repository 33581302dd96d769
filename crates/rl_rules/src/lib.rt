//! Rules of units that do not speak of names. Most are a test of every node, in the context that the nodes above it make.
#![tactic(auto)]

mod both;
pub mod chains;
pub mod declarations;
pub mod following;
pub mod forms;
pub mod marks;
pub mod pieces;
pub mod variables;
mod walk;

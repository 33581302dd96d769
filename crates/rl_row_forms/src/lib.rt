//! Forms and words of nodes that rows ask for, and the rows of statements, targets and texts, which need no names.
#![tactic(auto)]

pub mod above;
pub mod forms;
pub mod labels;
pub mod statements;
pub mod targets;
pub mod templates;
pub mod words;

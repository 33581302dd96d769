//! Syntax trees of units: words of nodes, numbered trees, their reader from bytes and their writer.
#![tactic(auto)]

pub mod nodes;
pub mod numbered;
pub mod parts;
pub mod reader;
pub mod word;
mod word_table;
pub mod write;

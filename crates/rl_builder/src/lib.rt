//! Graphs of functions under construction: the builder, its blocks and jumps, the names of identifiers, and the order of blocks.
#![tactic(auto)]

pub mod blocks;
pub mod builder;
pub mod closures;
pub mod copies;
pub mod graph;
pub mod jumps;
pub mod resolve;
pub mod unit_tables;

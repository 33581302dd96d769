//! The calls that users make: a unit from its bytes to its graph, the program `lower` over any source and sink, and what other commands
//! share with it: a unit from a source, the line of a trace.
#![tactic(auto)]

pub mod lines;
pub mod read;
pub mod run;
pub mod unit;

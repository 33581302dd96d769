//! Traces as text: the trees of traces and of their parts in the notation, the writer of traces, and the reader of the words that a
//! function is run with.
#![tactic(auto)]

mod from_tree;
mod raws;
mod read;
mod spelled;
pub mod words;
pub mod write;

//! The notation that units and listings are written in: trees of six forms, each with one spelling.
#![tactic(auto)]

pub mod measure;
pub mod measurement;
pub mod number;
pub mod quoted;
pub mod raw;
pub mod read;
pub mod scan;
mod span;
pub mod write;
pub mod written;

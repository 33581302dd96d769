//! The parts that runs of a source and runs of its graphs share: values that own no text, variables by number, answers, and the
//! events that were asked.
#![tactic(auto)]

pub mod error;
pub mod event;
pub mod progress;
pub mod shared;
pub mod value;
pub mod variables;

//! Runs of functions by their source: the next step, and the frames that wait for it.
#![tactic(auto)]

pub mod apart;
pub mod asking;
pub mod behind;
pub mod control;
pub mod events;
pub mod gather;
pub mod property;
pub mod run;
pub mod stack;
pub mod texts;

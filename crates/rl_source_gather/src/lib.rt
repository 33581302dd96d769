//! Runs of functions by their source: parts whose values one construct takes together, elements of JSX among them.
#![tactic(auto)]

pub mod gather;
pub mod jsx;
pub mod jsx_item;

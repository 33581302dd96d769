//! The names that identifiers of symbols get: which symbol has which name and which identifier, and the words that are no names.
#![tactic(auto)]

pub mod names;
pub mod reserved;

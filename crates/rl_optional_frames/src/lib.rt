//! Opening and closing of defaults and of links of optional chains.
#![tactic(auto)]

pub mod chain_link;
pub mod default_value;
mod ends;

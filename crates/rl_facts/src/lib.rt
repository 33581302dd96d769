//! The properties of a unit's names that rows ask for.
#![tactic(auto)]

pub mod facts;
pub mod kinds;
pub mod lookups;
pub mod unit_facts;

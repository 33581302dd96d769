//! Identifiers of the function to lower: where they stand, and which of its variables inner functions share.
#![tactic(auto)]

pub mod context;
pub mod index;
mod role;
pub mod site;
mod walk;
mod wrapped;

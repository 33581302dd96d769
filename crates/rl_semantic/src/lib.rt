//! Semantic tables of a unit: its names, its imports and its functions, or the least binding rule that it breaks.
#![tactic(auto)]

pub mod buckets;
pub mod functions;
pub mod imports;
pub mod semantic;

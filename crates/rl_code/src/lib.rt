//! Walks over the code of a unit's functions: which functions are lowered, what stands in their code, which variables they assign and
//! name, and which of them they share.
#![tactic(auto)]

pub mod assigned;
pub mod code;
pub mod lowered;
pub mod named;
pub mod numbers;
pub mod parts;
pub mod pattern;
pub mod role;
pub mod variables;

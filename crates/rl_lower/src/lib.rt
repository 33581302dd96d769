//! Functions to graphs: parameters, and the walk over a whole function.
#![tactic(auto)]

pub mod function;
mod params;

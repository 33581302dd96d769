//! Names of a unit by number: the look-up of scopes, symbols and references.
#![tactic(auto)]

mod children;
mod imported;
mod inside;
pub mod iterators;
pub mod kinds;
mod lookups;
pub mod resolver;
mod tables;

//! Expressions to instructions: the walk over them, and what statements share with it, as temporaries, names and properties.
#![tactic(auto)]

pub mod access;
mod assignment;
mod chain;
pub mod expression;
pub mod member;
mod operator;
mod parts;
pub mod target;

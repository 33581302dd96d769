//! Function declarations whose name is also that of another symbol around them.
#![tactic(auto)]

pub mod shadowed;

//! Names of a unit: its scopes, the symbols that it declares, and the symbols that its references resolve to.
#![tactic(auto)]

pub mod bindings;
pub mod event;
pub mod names;
pub mod quiet;
pub mod resolve;
pub mod role;
pub mod rules;
pub mod symbol_kind;
pub mod symbol_table;
pub mod walk;

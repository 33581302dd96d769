//! Values that the notation spells in one way, each read from bytes and written to them; options and lists of them; the table of
//! entities.
#![tactic(auto)]

pub mod atom;
pub mod entity;
pub mod entity_table;
mod flag;
pub mod list;
mod number;
mod operator;
mod text;

//! The base of the front end: spans, ids, texts and lists that contracts see as plain data, operators and kinds by
//! their texts, rows, diagnostics, and byte streams.
#![tactic(auto)]

pub mod boxed;
pub mod closed_text;
mod copy;
pub mod decimal;
pub mod diagnostic;
pub mod error;
pub mod ids;
pub mod infallible_io;
pub mod io;
pub mod list;
pub mod memory;
pub mod name_table;
pub mod number;
pub mod operator;
pub mod row;
pub mod scalar;
pub mod slots;
pub mod span;
pub mod steps;
pub mod stop;
pub mod streams;
mod template;
pub mod text;
pub mod type_kind;
pub mod variable_kind;

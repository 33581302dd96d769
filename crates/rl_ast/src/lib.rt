//! Units as syntax trees: their reader and writer, and typed views of every kind of node.
#![tactic(auto)]

pub mod binding;
pub mod class;
pub mod expression;
pub mod expression_part;
pub mod function;
pub mod function_node;
pub mod jsx;
pub mod marked;
pub mod program;
pub mod read;
pub mod statement;
pub mod statement_part;
pub mod target;
pub mod unit;
pub mod write;

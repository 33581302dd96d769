//! Control-flow graphs: tables of instructions, blocks that list them, terminals that lead from block to block, the tables
//! that the functions of a unit share, and the listing of results.
#![tactic(auto)]

pub mod binding;
pub mod block_sets;
pub mod blocks;
pub mod dense_blocks;
mod ends;
pub mod environment;
pub mod function;
pub mod instruction;
pub mod listing;
pub mod pieces;
pub mod symbol_set;
pub mod terminal;
mod terminal_table;
mod values;

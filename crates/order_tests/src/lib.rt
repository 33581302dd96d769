//! Tests of the order of blocks and of the passes behind it, over each table of blocks: on small graphs, and on many blocks in a row.
#![tactic(auto)]

#[cfg(test)]
mod graphs;
#[cfg(test)]
mod listing;
#[cfg(test)]
mod passes;

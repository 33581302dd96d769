//! Tests of `run` over sources and sinks that fail, move a few bytes a call, or are interrupted. What it answers of a unit is told by
//! the cases of tests/ at the top, which the program runs.
#![tactic(auto)]

#[cfg(test)]
mod faults;
#[cfg(test)]
mod interrupted;

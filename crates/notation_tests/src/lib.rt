//! Tests of the crates below the names of units: rows, operators and streams over memory, values with one spelling, trees, units.
#![tactic(auto)]

#[cfg(test)]
mod atoms;
#[cfg(test)]
mod base;
#[cfg(test)]
mod jsx;
#[cfg(test)]
mod text;
#[cfg(test)]
mod units;

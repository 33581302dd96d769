//! Tests of the names of units: the binding rules, and what the resolver tells of scopes, symbols, references and functions.
#![tactic(auto)]

#[cfg(test)]
mod calling;
#[cfg(test)]
mod functions;
#[cfg(test)]
mod imports;
#[cfg(test)]
mod listing;
#[cfg(test)]
mod names;
#[cfg(test)]
mod rules;

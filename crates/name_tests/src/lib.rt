//! Tests of the builder's calls about names, and of the tables that it stands on: identifiers, renames and refusals of symbols,
//! uses, context identifiers, spans, merges of an inner function's names, the readers, the environment and both tables of blocks.
#![tactic(auto)]

#[cfg(test)]
mod calls;
#[cfg(test)]
mod environments;
#[cfg(test)]
mod resolving;
#[cfg(test)]
mod tests;
#[cfg(test)]
mod texts;

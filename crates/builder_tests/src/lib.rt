//! Constructs that are built by the calls of the builder, and tests of the calls that build blocks, scopes, handlers and inner
//! functions.
#![tactic(auto)]

#[cfg(test)]
pub mod branch;
#[cfg(test)]
mod calls;
#[cfg(test)]
pub mod captures;
#[cfg(test)]
pub mod inner;
#[cfg(test)]
mod moves;
#[cfg(test)]
mod nested;
#[cfg(test)]
mod tests;
#[cfg(test)]
pub mod texts;

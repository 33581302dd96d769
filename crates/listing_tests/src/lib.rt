//! Tests of listings: each value and each terminal once, in the result of a function that is made here. Tests of calls on single
//! values, which no listing makes.
#![tactic(auto)]

#[cfg(test)]
mod blocks;
#[cfg(test)]
mod calls;
#[cfg(test)]
mod function;
#[cfg(test)]
mod parts;
#[cfg(test)]
mod values;

//! A linter over scopes: four rules on names and labels that the compiler does not ask for. Its findings are exactly those of the
//! definition in `specs/Rules.antt`.
#![tactic(auto)]

mod clear;
mod early;
pub mod finding;
mod labels;
mod late;
pub mod lint;
mod names;
mod role;
mod shadowing;
mod site;
mod stems;
mod taken;
mod walk;

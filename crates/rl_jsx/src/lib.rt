//! Texts of JSX: their lines, the trim of text between tags, and the entities in texts and attributes.
#![tactic(auto)]

mod cuts;
pub mod entities;
pub mod lines;
pub mod trim;

//! Calls that the walks over expressions and statements share, and that call neither: temporaries, spans, names, shapes of expressions,
//! texts of templates, expressions that move, and the items of targets that are patterns.
#![tactic(auto)]

pub mod graph_builder;
pub mod moved;
pub mod name;
pub mod pattern_parts;
pub mod promoted;
pub mod shape;
pub mod span;
pub mod target_items;
pub mod template;
pub mod temporary;

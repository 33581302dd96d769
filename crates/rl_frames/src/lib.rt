//! Opening and closing of structured constructs.
#![tactic(auto)]

pub mod do_while_frame;
mod ends;
pub mod for_frame;
pub mod for_in_frame;
pub mod for_of_frame;
pub mod if_frame;
pub mod label_frame;
pub mod logical;
mod loop_parts;
mod round_parts;
pub mod sequence;
pub mod switch_frame;
pub mod ternary;
pub mod try_frame;
pub mod while_frame;

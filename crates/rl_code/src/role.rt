//! Roles of the nodes of targets and of binding patterns: in which parts of a node its names stand.

ghost use Rattle.std.specs.Prelude.{◌≡◌, map, option_map};
ghost use Rattle.rl_code.specs.Roles as spec;
ghost use Rattle.rl_syntax.specs.Syntax.{pieces_of, syntax};

use crate::parts::{first, only, third_of_three};
use rl_syntax::numbered::Numbered;
use rl_syntax::word::Word;

/// Part of a node.
#[derive(Clone, Copy)]
pub enum Part {
    /// The first.
    First,
    /// The last of three.
    Last,
    /// The only one.
    Only,
}

/// Role of a node of a target or of a binding pattern.
#[derive(Clone, Copy)]
pub enum Role {
    /// A name itself.
    Name,
    /// Items, and a rest.
    Items,
    /// Its names stand in one part.
    Part(Part),
    /// It has no names.
    Nothing,
}

/// The role of a node of a target, by its word.
pub fn target_role(word: Word) -> Role
    ensures { result ≡ spec.target_role word }
{
    match word {
        Word::Id => Role::Name,
        Word::Arraytarget => Role::Items,
        Word::Objecttarget => Role::Items,
        Word::Default => Role::Part(Part::First),
        Word::Short => Role::Part(Part::First),
        Word::Keyed => Role::Part(Part::Last),
        Word::Rest => Role::Part(Part::Only),
        _ => Role::Nothing,
    }
}

/// The role of a node of a binding pattern, by its word.
pub fn pattern_role(word: Word) -> Role
    ensures { result ≡ spec.pattern_role word }
{
    match word {
        Word::Bind => Role::Name,
        Word::Arraypat => Role::Items,
        Word::Objectpat => Role::Items,
        Word::Defaultpat => Role::Part(Part::First),
        Word::Keyedpat => Role::Part(Part::Last),
        Word::Rest => Role::Part(Part::Only),
        _ => Role::Nothing,
    }
}

/// A part of a node. `None` where the node has no such part.
pub fn part_at(part: Part, parts: &[Numbered]) -> Option<&Numbered>
    ensures { option_map (λ t. syntax t.now) result ≡ spec.part_at part (pieces_of (map syntax parts.now)) }
{
    match part {
        Part::First => first(parts),
        Part::Last => third_of_three(parts),
        Part::Only => only(parts),
    }
}

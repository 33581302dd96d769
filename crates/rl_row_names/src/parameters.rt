//! Parameters that are named `this`.

ghost use Rattle.std.specs.Prelude.{◌≡◌, map};
ghost use Rattle.rl_model.specs.Applied as model;
ghost use Rattle.rl_row_names.specs.Parameters as spec;
ghost use Rattle.rl_syntax.specs.Syntax.{pieces_of, syntax};

use rl_code::role::{Part, Role, part_at, pattern_role};
use rl_row_forms::forms::first_said;
use rl_syntax::numbered::Numbered;
use rl_syntax::word::Word;

/// The role of a node of parameters, by its word.
fn parameter_role(word: Word) -> Role
    ensures { result ≡ spec.parameter_role word }
{
    match word {
        Word::Param => Role::Part(Part::First),
        _ => pattern_role(word),
    }
}

/// True of parts whose first is the name `this`.
#[tactic(auto, using(rl_row_forms::proofs::Shaped::by_item))]
fn says_this(parts: &[Numbered]) -> bool
    ensures { result ≡ spec.has_this_as Role.Name (pieces_of (map syntax parts.now)) }
{
    match first_said(parts) {
        Some(name) => name.as_str() == "this",
        None => false,
    }
}

/// True of parameters with a name `this`, in patterns too.
#[cycle(finding)]
#[tactic(auto, using(crate::proofs::ThisNames::by_form, rl_syntax::proofs::Layers::by_layer))]
fn has_this(tree: &Numbered) -> bool
    ensures { result ≡ model.has_this (syntax tree.now) }
{
    match tree {
        Numbered::Node(_, word, parts) => has_this_as(parameter_role(*word), parts.as_slice()),
        Numbered::List(items) => has_this_among(items.as_slice()),
        Numbered::Text(_) => false,
        Numbered::Number(_) => false,
        Numbered::Flag(_) => false,
        Numbered::Absent => false,
    }
}

/// As `has_this`, of a node by its role.
#[cycle(finding)]
#[tactic(auto, using(rl_row_forms::proofs::Shaped::by_item, rl_code::proofs::Smaller::smaller))]
fn has_this_as(role: Role, parts: &[Numbered]) -> bool
    ensures { result ≡ spec.has_this_as role (pieces_of (map syntax parts.now)) }
{
    match role {
        Role::Name => says_this(parts),
        Role::Items => has_this_among(parts),
        Role::Part(part) => match part_at(part, parts) {
            Some(part) => has_this(part),
            None => false,
        },
        Role::Nothing => false,
    }
}

/// As `has_this`, for trees in a row.
#[cycle(finding)]
pub fn has_this_among(trees: &[Numbered]) -> bool
    ensures { result ≡ model.has_this_among (pieces_of (map syntax trees.now)) }
{
    'trees: for tree in trees {
        if has_this(tree) {
            return true;
        }
    }
    false
}

//! The rows in function declarations without a body.

ghost use Rattle.std.specs.Prelude.{◌≡◌, map};
ghost use Rattle.rl_row_names.specs.Bodiless as spec;
ghost use Rattle.rl_syntax.specs.Syntax.{pieces_of, syntax};

use crate::facts::RowFacts;
use crate::names::{local_is_clear, used_is_clear};
use crate::parameters::has_this_among;
use rl_base::ids::ReferenceId;
use rl_code::parts::said_only;
use rl_row_forms::forms::first_said;
use rl_row_forms::words::{is_class, is_fundecl};
use rl_syntax::numbered::{At, Numbered};
use rl_syntax::word::Word;

/// True if no row applies to a `bind` node.
#[tactic(auto, using(rl_row_forms::proofs::Shaped::by_item))]
fn declared_name_is_clear(parts: &[Numbered]) -> bool
    ensures { result ≡ spec.clear_declared_name (pieces_of (map syntax parts.now)) }
{
    match first_said(parts) {
        Some(name) => local_is_clear(name),
        None => true,
    }
}

/// True if no row applies to an `id` node.
#[tactic(auto, using(rl_row_forms::proofs::Shaped::by_item))]
fn used_name_is_clear<F: RowFacts>(facts: &F, reference: ReferenceId, parts: &[Numbered]) -> bool
    ensures { result ≡ spec.clear_used_name (F.facts facts.now) reference.0 (pieces_of (map syntax parts.now)) }
{
    match said_only(parts) {
        Some(name) => used_is_clear(facts, reference, name),
        None => true,
    }
}

/// True if no row applies to a node by itself.
fn declared_is_clear<F: RowFacts>(facts: &F, at: At, word: Word, parts: &[Numbered]) -> bool
    ensures { result ≡ spec.clear_declared (F.facts facts.now) at word (pieces_of (map syntax parts.now)) }
{
    match word {
        Word::Bind => declared_name_is_clear(parts),
        Word::Id => used_name_is_clear(facts, at.reference, parts),
        Word::Params => !has_this_among(parts),
        _ => true,
    }
}

/// True if no row applies in a part of a function declaration without a body.
#[cycle(declaring)]
#[tactic(auto, using(rl_syntax::proofs::Layers::by_layer))]
fn is_bodiless_clear<F: RowFacts>(facts: &F, tree: &Numbered) -> bool
    ensures { result ≡ spec.clear_bodiless (F.facts facts.now) (syntax tree.now) }
{
    match tree {
        Numbered::Node(at, word, parts) => {
            is_class(*word)
                || (declared_is_clear(facts, *at, *word, parts.as_slice())
                    && are_bodiless_clear(facts, parts.as_slice()))
        }
        Numbered::List(items) => are_bodiless_clear(facts, items.as_slice()),
        Numbered::Text(_) => true,
        Numbered::Number(_) => true,
        Numbered::Flag(_) => true,
        Numbered::Absent => true,
    }
}

/// As `is_bodiless_clear`, for trees in a row.
#[cycle(declaring)]
fn are_bodiless_clear<F: RowFacts>(facts: &F, trees: &[Numbered]) -> bool
    ensures { result ≡ spec.clear_bodiless_among (F.facts facts.now) (pieces_of (map syntax trees.now)) }
{
    'trees: for tree in trees {
        if !is_bodiless_clear(facts, tree) {
            return false;
        }
    }
    true
}

/// True if no row applies in the parts of a node that is no code: a type, a class or a function declaration without a body.
pub fn no_code_is_clear<F: RowFacts>(facts: &F, word: Word, parts: &[Numbered]) -> bool
    ensures { result ≡ spec.clear_no_code (F.facts facts.now) word (pieces_of (map syntax parts.now)) }
{
    if is_fundecl(word) {
        are_bodiless_clear(facts, parts)
    } else {
        true
    }
}

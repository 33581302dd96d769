//! The names that a statement uses, each with whether it stands in a function inside the statement.

ghost use Rattle.std.specs.Prelude.{◌≡◌, ◌++◌, ◌∷◌, [], map, OnOk};
ghost use Rattle.rl_markers.specs.Uses as spec;
ghost use Rattle.rl_model.specs.Hoisting as model;
ghost use Rattle.rl_syntax.specs.Syntax.{pieces_of, syntax};

use crate::kinds::{is_class, is_id, is_opening, makes_function};
use rl_base::error::OutOfMemory;
use rl_base::ids::ReferenceId;
use rl_syntax::numbered::{At, Numbered};
use rl_syntax::parts::split_first;
use rl_syntax::word::Word;

/// A use of a name in a statement.
#[derive(Clone, Copy)]
pub struct Use {
    /// The reference.
    pub reference: ReferenceId,
    /// True of a use in a function inside the statement.
    pub inner: bool,
}

/// Appends a use. On `OutOfMemory`, an allocation failed.
fn push_use(out: &mut Vec<Use>, reference: ReferenceId, inner: bool) -> Result<(), OutOfMemory>
    ensures { OnOk result (map spec.seen out.new.items ≡ map spec.seen out.old.items ++ record { reference = reference.0; inner = inner } ∷ []) }
{
    out.push(Use { reference, inner })?;
    Ok(())
}

/// Appends the uses in a tree; `inner` is true in a function inside the statement. On `OutOfMemory`, an allocation failed.
#[cycle(collecting)]
#[tactic(auto, using(crate::proofs::Using::by_form, rl_syntax::proofs::Layers::by_layer))]
pub fn push_uses(out: &mut Vec<Use>, inner: bool, tree: &Numbered) -> Result<(), OutOfMemory>
    ensures { OnOk result (map spec.seen out.new.items ≡ map spec.seen out.old.items ++ model.uses_in inner (syntax tree.now)) }
{
    match tree {
        Numbered::Node(at, word, parts) => {
            push_as(out, inner, *at, *word, parts.as_slice())?;
            Ok(())
        }
        Numbered::List(parts) => {
            push_among(out, inner, parts.as_slice())?;
            Ok(())
        }
        Numbered::Text(_) => Ok(()),
        Numbered::Number(_) => Ok(()),
        Numbered::Flag(_) => Ok(()),
        Numbered::Absent => Ok(()),
    }
}

/// Appends the uses in a node, by its word. On `OutOfMemory`, an allocation failed.
#[cycle(collecting)]
#[tactic(auto, using(crate::proofs::Using::by_word))]
fn push_as(
    out: &mut Vec<Use>,
    inner: bool,
    at: At,
    word: Word,
    parts: &[Numbered],
) -> Result<(), OutOfMemory>
    ensures { OnOk result (map spec.seen out.new.items ≡ map spec.seen out.old.items ++ spec.uses_as inner at word (pieces_of (map syntax parts.now))) }
{
    if is_id(word) {
        push_use(out, at.reference, inner)?;
        return Ok(());
    }
    if is_class(word) {
        return Ok(());
    }
    if is_opening(word) {
        return match split_first(parts) {
            Some((_tag, parts)) => {
                push_among(out, inner, parts)?;
                Ok(())
            }
            None => Ok(()),
        };
    }
    push_among(out, inner || makes_function(word), parts)?;
    Ok(())
}

/// As `push_uses`, for trees in a row. On `OutOfMemory`, an allocation failed.
#[cycle(collecting)]
fn push_among(out: &mut Vec<Use>, inner: bool, trees: &[Numbered]) -> Result<(), OutOfMemory>
    ensures { OnOk result (map spec.seen out.new.items ≡ map spec.seen out.old.items ++ model.uses_among inner (pieces_of (map syntax trees.now))) }
{
    'trees: for tree in trees {
        push_uses(out, inner, tree)?;
    }
    Ok(())
}

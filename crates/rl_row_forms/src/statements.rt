//! The rows of statements.

ghost use Rattle.std.specs.Prelude.{◌≡◌, is_some, map};
ghost use Rattle.rl_model.specs.Applied as model;
ghost use Rattle.rl_row_forms.specs.Labels.{labels_of};
ghost use Rattle.rl_row_forms.specs.Statements as spec;
ghost use Rattle.rl_syntax.specs.Syntax.{pieces_of, syntax};

use crate::above::Above;
use crate::forms::{first_said, first_two, flag_is_clear};
use crate::labels::{Labels, label_found};
use crate::words::{is_plain_name, is_var};
use rl_base::text::Text;
use rl_code::parts::{first, only, second, third_of_three};
use rl_syntax::numbered::Numbered;
use rl_syntax::parts::is_absent;
use rl_syntax::word::Word;

/// True if no row applies to the start and the test of a `for` loop.
fn for_head_is_clear(init: &Numbered, condition: &Numbered) -> bool
    ensures { result ≡ spec.clear_for_head (syntax init.now) (syntax condition.now) }
{
    !(!is_absent(init) && !is_var(init)) && !is_absent(condition)
}

/// True if no row applies to a `for` node.
#[tactic(auto, using(crate::proofs::Shaped::by_item))]
fn for_is_clear(parts: &[Numbered]) -> bool
    ensures { result ≡ spec.clear_for (pieces_of (map syntax parts.now)) }
{
    match first_two(parts) {
        Some((init, condition)) => for_head_is_clear(init, condition),
        None => true,
    }
}

/// True of parts without a finalizer.
#[tactic(auto, using(crate::proofs::Shaped::by_item))]
fn has_no_finalizer(parts: &[Numbered]) -> bool
    ensures { result ≡ spec.clear_finalizer (pieces_of (map syntax parts.now)) }
{
    match third_of_three(parts) {
        Some(finalizer) => is_absent(finalizer),
        None => true,
    }
}

/// True if no row applies to a `try` node with the handler.
fn handler_is_clear(handler: &Numbered, parts: &[Numbered]) -> bool
    ensures { result ≡ spec.clear_handler (syntax handler.now) (pieces_of (map syntax parts.now)) }
{
    !is_absent(handler) && has_no_finalizer(parts)
}

/// True if no row applies to a `try` node.
#[tactic(auto, using(crate::proofs::Shaped::by_item))]
fn try_is_clear(parts: &[Numbered]) -> bool
    ensures { result ≡ spec.clear_try (pieces_of (map syntax parts.now)) }
{
    match second(parts) {
        Some(handler) => handler_is_clear(handler, parts),
        None => true,
    }
}

/// True if no row applies to a class declaration.
#[tactic(auto, using(crate::proofs::Shaped::by_item))]
fn classdecl_is_clear(parts: &[Numbered]) -> bool
    ensures { result ≡ spec.clear_classdecl (pieces_of (map syntax parts.now)) }
{
    match first(parts) {
        Some(_name) => false,
        None => true,
    }
}

/// True if no row applies to a declaration of variables of the kind; `head` is true in the head of a loop.
fn kind_is_clear(head: bool, kind: &Text) -> bool
    ensures { result ≡ spec.clear_kind head kind.now }
{
    !(kind.as_str() == "var" && !head) && kind.as_str() != "using" && kind.as_str() != "await using"
}

/// True if no row applies to a declaration of variables.
#[tactic(auto, using(crate::proofs::Shaped::by_item))]
fn var_is_clear(head: bool, parts: &[Numbered]) -> bool
    ensures { result ≡ spec.clear_var head (pieces_of (map syntax parts.now)) }
{
    match first_said(parts) {
        Some(kind) => kind_is_clear(head, kind),
        None => true,
    }
}

/// True if no row applies to the parameter of a `catch`.
fn param_is_clear(param: &Numbered) -> bool
    ensures { result ≡ spec.clear_param (syntax param.now) }
{
    !(!is_absent(param) && !is_plain_name(param))
}

/// True if no row applies to a `catch` node.
#[tactic(auto, using(crate::proofs::Shaped::by_item))]
fn catch_is_clear(parts: &[Numbered]) -> bool
    ensures { result ≡ spec.clear_catch (pieces_of (map syntax parts.now)) }
{
    match first(parts) {
        Some(param) => param_is_clear(param),
        None => true,
    }
}

/// True if a `break` with the label, or without one, leaves a statement around.
#[tactic(auto, using(rl_syntax::proofs::Layers::by_layer))]
fn break_label_is_clear(breaks: bool, labels: &Labels<'_>, label: &Numbered) -> bool
    ensures { result ≡ spec.clear_break_label breaks (labels_of labels.now) (syntax label.now) }
{
    match label {
        Numbered::Absent => breaks,
        Numbered::Text(label) => has_label(labels, label),
        Numbered::Node(_, _, _) => true,
        Numbered::List(_) => true,
        Numbered::Number(_) => true,
        Numbered::Flag(_) => true,
    }
}

/// True of a label that stands around.
fn has_label(labels: &Labels<'_>, label: &Text) -> bool
    ensures { result ≡ is_some (model.label_found (labels_of labels.now) label.now) }
{
    match label_found(labels, label) {
        Some(_) => true,
        None => false,
    }
}

/// True of a label that stands around, the innermost of the name right in front of a loop.
fn has_loop_label(labels: &Labels<'_>, label: &Text) -> bool
    ensures { result ≡ model.is_true (model.label_found (labels_of labels.now) label.now) }
{
    match label_found(labels, label) {
        Some(is_loop) => is_loop,
        None => false,
    }
}

/// True if no row applies to a `break` node.
#[tactic(auto, using(crate::proofs::Leaving::breaks))]
fn break_is_clear(breaks: bool, labels: &Labels<'_>, parts: &[Numbered]) -> bool
    ensures { result ≡ spec.clear_break breaks (labels_of labels.now) (pieces_of (map syntax parts.now)) }
{
    match only(parts) {
        Some(label) => break_label_is_clear(breaks, labels, label),
        None => true,
    }
}

/// True if a `continue` with the label, or without one, goes on with a loop around.
#[tactic(auto, using(rl_syntax::proofs::Layers::by_layer))]
fn continue_label_is_clear(continues: bool, labels: &Labels<'_>, label: &Numbered) -> bool
    ensures { result ≡ spec.clear_continue_label continues (labels_of labels.now) (syntax label.now) }
{
    match label {
        Numbered::Absent => continues,
        Numbered::Text(label) => has_loop_label(labels, label),
        Numbered::Node(_, _, _) => true,
        Numbered::List(_) => true,
        Numbered::Number(_) => true,
        Numbered::Flag(_) => true,
    }
}

/// True if no row applies to a `continue` node.
#[tactic(auto, using(crate::proofs::Leaving::continues))]
fn continue_is_clear(continues: bool, labels: &Labels<'_>, parts: &[Numbered]) -> bool
    ensures { result ≡ spec.clear_continue continues (labels_of labels.now) (pieces_of (map syntax parts.now)) }
{
    match only(parts) {
        Some(label) => continue_label_is_clear(continues, labels, label),
        None => true,
    }
}

/// True if no row applies to a statement by itself.
pub fn statement_is_clear(
    above: &Above,
    labels: &Labels<'_>,
    word: Word,
    parts: &[Numbered],
) -> bool
    ensures { result ≡ spec.clear_statement above.now (labels_of labels.now) word (pieces_of (map syntax parts.now)) }
{
    match word {
        Word::Throw => !above.tried,
        Word::For => for_is_clear(parts),
        Word::Forof => flag_is_clear(parts),
        Word::Try => try_is_clear(parts),
        Word::Classdecl => classdecl_is_clear(parts),
        Word::Var => var_is_clear(above.head, parts),
        Word::Catch => catch_is_clear(parts),
        Word::Break => break_is_clear(above.breaks, labels, parts),
        Word::Continue => continue_is_clear(above.continues, labels, parts),
        _ => true,
    }
}

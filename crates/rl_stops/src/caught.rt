//! The stop at a pattern that a `catch` binds, at the first name of the pattern.

ghost use Rattle.std.specs.Prelude.{◌≡◌, map, option_map};
ghost use Rattle.rl_names.specs.Seen.{seen};
ghost use Rattle.rl_promises.specs.PatternForms as forms;
ghost use Rattle.rl_promises.specs.Patterns as spec;
ghost use Rattle.rl_stops.specs.SeenStops.{seen_stop};
ghost use Rattle.rl_syntax.specs.Syntax.{pieces_of, syntax};

use crate::found_stop::FoundStop;
use rl_base::span::Span;
use rl_forms::part_forms::{one, three};
use rl_names::names::FunctionNames;
use rl_syntax::numbered::Numbered;
use rl_syntax::word::Word;

/// As `first_name`, of a property by its parts.
#[cycle(first_name)]
#[tactic(auto, using(crate::proofs::Catching::firsts))]
fn name_under(parts: &[Numbered]) -> Option<Span>
    ensures { result ≡ forms.name_under (pieces_of (map syntax parts.now)) }
{
    match three(parts) {
        Some((_computed, _key, pattern)) => first_name(pattern),
        None => None,
    }
}

/// As `first_name`, of the rest by its parts.
#[cycle(first_name)]
#[tactic(auto, using(crate::proofs::Catching::firsts))]
fn name_of_rest(parts: &[Numbered]) -> Option<Span>
    ensures { result ≡ forms.name_of_rest (pieces_of (map syntax parts.now)) }
{
    match one(parts) {
        Some(pattern) => first_name(pattern),
        None => None,
    }
}

/// As `first_name`, of a node.
#[cycle(first_name)]
fn first_name_in(span: Span, word: Word, parts: &[Numbered]) -> Option<Span>
    ensures { result ≡ forms.first_name_in span word (pieces_of (map syntax parts.now)) }
{
    match word {
        Word::Bind => Some(span),
        Word::Arraypat => first_name_among(parts),
        Word::Objectpat => first_name_among(parts),
        Word::Rest => name_of_rest(parts),
        Word::Keyedpat => name_under(parts),
        _ => None,
    }
}

/// The span of the first name in a binding pattern. Parts with a default are passed over.
#[cycle(first_name)]
#[tactic(auto, using(crate::proofs::Catching::first_nodes, rl_syntax::proofs::Layers::by_layer))]
fn first_name(tree: &Numbered) -> Option<Span>
    ensures { result ≡ spec.first_name (syntax tree.now) }
{
    match tree {
        Numbered::Node(at, word, parts) => first_name_in(at.span, *word, parts.as_slice()),
        Numbered::List(parts) => first_name_among(parts.as_slice()),
        Numbered::Text(_) => None,
        Numbered::Number(_) => None,
        Numbered::Flag(_) => None,
        Numbered::Absent => None,
    }
}

/// As `first_name`, of the first of some parts that has one.
#[cycle(first_name)]
#[tactic(auto, using(crate::proofs::Catching::first_in_order))]
fn first_name_among(parts: &[Numbered]) -> Option<Span>
    ensures { result ≡ spec.first_name_among (pieces_of (map syntax parts.now)) }
{
    'parts: for part in parts {
        if let Some(at) = first_name(part) {
            return Some(at);
        }
    }
    None
}

/// The stop at a pattern that a `catch` binds, at its first name if it has one.
#[tactic(auto, using(crate::proofs::Catching::catches))]
fn stop_of_pattern(names: &FunctionNames<'_>, span: Span, parts: &[Numbered]) -> Option<FoundStop>
    ensures { option_map (seen_stop (seen names.now)) result ≡ forms.stop_of_pattern span (pieces_of (map syntax parts.now)) }
{
    match first_name_among(parts) {
        Some(span) => Some(FoundStop::CaughtPattern { span }),
        None => Some(FoundStop::CaughtPattern { span }),
    }
}

/// The stop at the parameter of a `catch`, by its word and parts.
fn stop_of_caught_node(
    names: &FunctionNames<'_>,
    span: Span,
    word: Word,
    parts: &[Numbered],
) -> Option<FoundStop>
    ensures { option_map (seen_stop (seen names.now)) result ≡ forms.stop_of_caught_node span word (pieces_of (map syntax parts.now)) }
{
    match word {
        Word::Arraypat => stop_of_pattern(names, span, parts),
        Word::Objectpat => stop_of_pattern(names, span, parts),
        _ => None,
    }
}

/// The stop at the parameter of a `catch`, if it is a pattern.
#[tactic(auto, using(crate::proofs::Catching::caught_nodes, rl_syntax::proofs::Layers::by_layer))]
pub(crate) fn stop_of_caught(names: &FunctionNames<'_>, param: &Numbered) -> Option<FoundStop>
    ensures { option_map (seen_stop (seen names.now)) result ≡ spec.stop_of_caught (syntax param.now) }
{
    match param {
        Numbered::Node(at, word, parts) => {
            stop_of_caught_node(names, at.span, *word, parts.as_slice())
        }
        Numbered::List(_) => None,
        Numbered::Text(_) => None,
        Numbered::Number(_) => None,
        Numbered::Flag(_) => None,
        Numbered::Absent => None,
    }
}

//! Binding patterns, and targets that are patterns: which of their parts the lowering leaves out, and which come first.

ghost use Rattle.std.specs.Prelude.{◌≡◌, map};
ghost use Rattle.rl_model.specs.Patterns as turns;
ghost use Rattle.rl_model.specs.Shapes as shapes;
ghost use Rattle.rl_names.specs.Seen.{seen};
ghost use Rattle.rl_promises.specs.PatternForms as forms;
ghost use Rattle.rl_promises.specs.Patterns as spec;
ghost use Rattle.rl_syntax.specs.Syntax.{pieces_of, syntax};

use crate::outs::is_known_key;
use crate::part_forms::{as_flag, one, text_ahead, text_alone, three, two};
use rl_ast::binding::IdentifierReference;
use rl_base::ids::SymbolId;
use rl_base::span::Span;
use rl_names::names::FunctionNames;
use rl_syntax::numbered::{At, Numbered};
use rl_syntax::parts::{is_absent, split_first};
use rl_syntax::word::Word;

/// True of the word of a target that takes a value apart.
fn takes(word: Word) -> bool
    ensures { result ≡ forms.takes word }
{
    match word {
        Word::Arraytarget => true,
        Word::Objecttarget => true,
        _ => false,
    }
}

/// True of a target that takes a value apart.
#[tactic(auto, using(crate::proofs::PatternForms::targets, rl_syntax::proofs::Layers::by_layer))]
pub fn is_pattern(tree: &Numbered) -> bool
    ensures { result ≡ spec.is_pattern (syntax tree.now) }
{
    match tree {
        Numbered::Node(_, word, _) => takes(*word),
        Numbered::List(_) => false,
        Numbered::Text(_) => false,
        Numbered::Number(_) => false,
        Numbered::Flag(_) => false,
        Numbered::Absent => false,
    }
}

/// True of a property of a pattern that is left out, by the flag in front of its key, and the key.
#[tactic(auto, using(crate::proofs::PatternForms::losses))]
pub fn loses_item(computed: &Numbered, key: &Numbered) -> bool
    ensures { result ≡ spec.loses_item (syntax computed.now) (syntax key.now) }
{
    match as_flag(computed) {
        Some(flag) => flag || !is_known_key(false, key),
        None => false,
    }
}

/// As `is_ahead`, of a property or a parameter by its parts: by the last of three.
#[cycle(ahead)]
#[tactic(auto, using(crate::proofs::PatternForms::aheads))]
fn ahead_under(parts: &[Numbered]) -> bool
    ensures { result ≡ forms.ahead_under (pieces_of (map syntax parts.now)) }
{
    match three(parts) {
        Some((_computed, _key, pattern)) => is_ahead(pattern),
        None => false,
    }
}

/// As `is_ahead`, of the rest by its parts.
#[cycle(ahead)]
#[tactic(auto, using(crate::proofs::PatternForms::aheads))]
fn ahead_alone(parts: &[Numbered]) -> bool
    ensures { result ≡ forms.ahead_alone (pieces_of (map syntax parts.now)) }
{
    match one(parts) {
        Some(pattern) => is_ahead(pattern),
        None => false,
    }
}

/// As `is_ahead`, of a node by its word.
#[cycle(ahead)]
fn node_ahead(word: Word, parts: &[Numbered]) -> bool
    ensures { result ≡ forms.node_ahead word (pieces_of (map syntax parts.now)) }
{
    match word {
        Word::Bind => true,
        Word::Keyedpat => ahead_under(parts),
        Word::Rest => ahead_alone(parts),
        _ => false,
    }
}

/// True of a part of a binding pattern that is met before all defaults and nested patterns of it: a name, under a key and as the rest too.
#[cycle(ahead)]
#[tactic(auto, using(crate::proofs::PatternForms::ahead_nodes, rl_syntax::proofs::Layers::by_layer))]
pub fn is_ahead(tree: &Numbered) -> bool
    ensures { result ≡ spec.is_ahead (syntax tree.now) }
{
    match tree {
        Numbered::Node(_, word, parts) => node_ahead(*word, parts.as_slice()),
        Numbered::List(_) => false,
        Numbered::Text(_) => false,
        Numbered::Number(_) => false,
        Numbered::Flag(_) => false,
        Numbered::Absent => false,
    }
}

/// True of an item of a binding pattern that is met in the round: with the names in front of all others where `ahead` is true, and else
/// behind these.
pub fn is_turn(ahead: bool, item: &Numbered) -> bool
    ensures { result ≡ turns.is_turn ahead (spec.is_ahead (syntax item.now)) }
{
    if ahead {
        is_ahead(item)
    } else {
        !is_ahead(item)
    }
}

/// True of the word of a name.
fn is_name_word(word: Word) -> bool
    ensures { result ≡ forms.is_name_word word }
{
    match word {
        Word::Bind => true,
        Word::Id => true,
        _ => false,
    }
}

/// True of a name.
#[tactic(auto, using(rl_syntax::proofs::Layers::by_layer))]
fn is_name(tree: &Numbered) -> bool
    ensures { result ≡ forms.is_name (syntax tree.now) }
{
    match tree {
        Numbered::Node(_, word, _) => is_name_word(*word),
        Numbered::List(_) => false,
        Numbered::Text(_) => false,
        Numbered::Number(_) => false,
        Numbered::Flag(_) => false,
        Numbered::Absent => false,
    }
}

/// True of a rest that is a plain name, by its parts.
#[tactic(auto, using(crate::proofs::PatternForms::rests))]
fn name_alone(parts: &[Numbered]) -> bool
    ensures { result ≡ forms.name_alone (pieces_of (map syntax parts.now)) }
{
    match one(parts) {
        Some(name) => is_name(name),
        None => false,
    }
}

/// True of a rest that is a plain name, by its word and parts.
fn plain_node(word: Word, parts: &[Numbered]) -> bool
    ensures { result ≡ forms.plain_node word (pieces_of (map syntax parts.now)) }
{
    match word {
        Word::Rest => name_alone(parts),
        _ => false,
    }
}

/// True of a rest that is a plain name, and where there is none.
#[tactic(auto, using(crate::proofs::PatternForms::plain_rests, rl_syntax::proofs::Layers::by_layer))]
pub fn is_plain_rest(tree: &Numbered) -> bool
    ensures { result ≡ shapes.is_plain_rest (syntax tree.now) }
{
    match tree {
        Numbered::Absent => true,
        Numbered::Node(_, word, parts) => plain_node(*word, parts.as_slice()),
        Numbered::List(_) => false,
        Numbered::Text(_) => false,
        Numbered::Number(_) => false,
        Numbered::Flag(_) => false,
    }
}

/// True where there is no rest.
#[tactic(auto, using(crate::proofs::PatternForms::absences))]
pub fn has_no_rest(rest: &Numbered) -> bool
    ensures { result ≡ shapes.is_absent (syntax rest.now) }
{
    is_absent(rest)
}

/// The local variable that a name is, by its parts, and its span.
#[tactic(auto, using(crate::proofs::PatternForms::locals))]
fn local_name(names: &FunctionNames<'_>, at: At, parts: &[Numbered]) -> Option<(SymbolId, Span)>
    ensures { result ≡ forms.local_name (seen names.now) at (pieces_of (map syntax parts.now)) }
{
    match text_alone(parts) {
        Some(name) => match names.local(&IdentifierReference { at, name }) {
            Some(symbol) => Some((symbol, at.span)),
            None => None,
        },
        None => None,
    }
}

/// The local variable that a target is, by its word and parts, and the span of its name.
fn local_node(
    names: &FunctionNames<'_>,
    at: At,
    word: Word,
    parts: &[Numbered],
) -> Option<(SymbolId, Span)>
    ensures { result ≡ forms.local_node (seen names.now) at word (pieces_of (map syntax parts.now)) }
{
    match word {
        Word::Id => local_name(names, at, parts),
        _ => None,
    }
}

/// The local variable that a target is, and the span of its name. `None` of any other.
#[tactic(auto, using(rl_syntax::proofs::Layers::by_layer))]
fn local_target(names: &FunctionNames<'_>, target: &Numbered) -> Option<(SymbolId, Span)>
    ensures { result ≡ forms.local_target (seen names.now) (syntax target.now) }
{
    match target {
        Numbered::Node(at, word, parts) => local_node(names, *at, *word, parts.as_slice()),
        Numbered::List(_) => None,
        Numbered::Text(_) => None,
        Numbered::Number(_) => None,
        Numbered::Flag(_) => None,
        Numbered::Absent => None,
    }
}

/// As `local_target`, of the target of a property by its parts.
#[tactic(auto, using(crate::proofs::PatternForms::locals))]
fn local_keyed(names: &FunctionNames<'_>, parts: &[Numbered]) -> Option<(SymbolId, Span)>
    ensures { result ≡ forms.local_keyed (seen names.now) (pieces_of (map syntax parts.now)) }
{
    match three(parts) {
        Some((_computed, _key, target)) => local_target(names, target),
        None => None,
    }
}

/// As `local_target`, of a property without a key by its parts: it has no default.
#[tactic(auto, using(crate::proofs::PatternForms::locals))]
fn local_short(names: &FunctionNames<'_>, parts: &[Numbered]) -> Option<(SymbolId, Span)>
    ensures { result ≡ forms.local_short (seen names.now) (pieces_of (map syntax parts.now)) }
{
    match two(parts) {
        Some((name, default)) => {
            if has_no_rest(default) {
                local_target(names, name)
            } else {
                None
            }
        }
        None => None,
    }
}

/// As `local_item`, of a node.
fn local_in(
    names: &FunctionNames<'_>,
    at: At,
    word: Word,
    parts: &[Numbered],
) -> Option<(SymbolId, Span)>
    ensures { result ≡ forms.local_in (seen names.now) at word (pieces_of (map syntax parts.now)) }
{
    match word {
        Word::Id => local_name(names, at, parts),
        Word::Keyed => local_keyed(names, parts),
        Word::Short => local_short(names, parts),
        _ => None,
    }
}

/// The local variable that an item of a target is, and the span of its name. `None` of any other item.
#[tactic(auto, using(rl_syntax::proofs::Layers::by_layer))]
pub fn local_item(names: &FunctionNames<'_>, item: &Numbered) -> Option<(SymbolId, Span)>
    ensures { result ≡ forms.local_item (seen names.now) (syntax item.now) }
{
    match item {
        Numbered::Node(at, word, parts) => local_in(names, *at, *word, parts.as_slice()),
        Numbered::List(_) => None,
        Numbered::Text(_) => None,
        Numbered::Number(_) => None,
        Numbered::Flag(_) => None,
        Numbered::Absent => None,
    }
}

/// The span of a name, if it is `this`, by its parts.
#[tactic(auto, using(crate::proofs::PatternForms::these))]
fn this_named(span: Span, parts: &[Numbered]) -> Option<Span>
    ensures { result ≡ forms.this_named span (pieces_of (map syntax parts.now)) }
{
    match text_ahead(parts) {
        Some((name, _type)) => {
            if name.as_str() == "this" {
                Some(span)
            } else {
                None
            }
        }
        None => None,
    }
}

/// As `this_in`, of the first of some parts.
#[cycle(this)]
#[tactic(auto, using(crate::proofs::PatternForms::these))]
fn this_ahead(parts: &[Numbered]) -> Option<Span>
    ensures { result ≡ forms.this_ahead (pieces_of (map syntax parts.now)) }
{
    match split_first(parts) {
        Some((pattern, _more)) => this_in(pattern),
        None => None,
    }
}

/// As `this_in`, of a property by its parts.
#[cycle(this)]
#[tactic(auto, using(crate::proofs::PatternForms::these))]
fn this_under(parts: &[Numbered]) -> Option<Span>
    ensures { result ≡ forms.this_under (pieces_of (map syntax parts.now)) }
{
    match three(parts) {
        Some((_computed, _key, pattern)) => this_in(pattern),
        None => None,
    }
}

/// As `this_in`, of the rest by its parts.
#[cycle(this)]
#[tactic(auto, using(crate::proofs::PatternForms::these))]
fn this_alone(parts: &[Numbered]) -> Option<Span>
    ensures { result ≡ forms.this_alone (pieces_of (map syntax parts.now)) }
{
    match one(parts) {
        Some(pattern) => this_in(pattern),
        None => None,
    }
}

/// As `this_in`, of a node.
#[cycle(this)]
fn this_in_node(span: Span, word: Word, parts: &[Numbered]) -> Option<Span>
    ensures { result ≡ forms.this_in_node span word (pieces_of (map syntax parts.now)) }
{
    match word {
        Word::Bind => this_named(span, parts),
        Word::Params => this_among(parts),
        Word::Arraypat => this_among(parts),
        Word::Objectpat => this_among(parts),
        Word::Param => this_ahead(parts),
        Word::Defaultpat => this_ahead(parts),
        Word::Rest => this_alone(parts),
        Word::Keyedpat => this_under(parts),
        _ => None,
    }
}

/// The span of a parameter's name `this`, in patterns too.
#[cycle(this)]
#[tactic(auto, using(crate::proofs::PatternForms::this_nodes, rl_syntax::proofs::Layers::by_layer))]
pub fn this_in(tree: &Numbered) -> Option<Span>
    ensures { result ≡ spec.this_in (syntax tree.now) }
{
    match tree {
        Numbered::Node(at, word, parts) => this_in_node(at.span, *word, parts.as_slice()),
        Numbered::List(parts) => this_among(parts.as_slice()),
        Numbered::Text(_) => None,
        Numbered::Number(_) => None,
        Numbered::Flag(_) => None,
        Numbered::Absent => None,
    }
}

/// As `this_in`, of the first of some parts that has one.
#[cycle(this)]
#[tactic(auto, using(crate::proofs::PatternForms::this_in_order))]
fn this_among(parts: &[Numbered]) -> Option<Span>
    ensures { result ≡ spec.this_among (pieces_of (map syntax parts.now)) }
{
    'parts: for part in parts {
        if let Some(at) = this_in(part) {
            return Some(at);
        }
    }
    None
}

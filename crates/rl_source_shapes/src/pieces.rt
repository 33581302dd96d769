//! Parts of patterns and of targets, as the events that take values apart say them.

ghost use Rattle.std.specs.Prelude.{◌≡◌, ◌++◌, IfOk, MatchOption, OnOk, ◌∷◌, [], codes, map};
ghost use Rattle.rl_grammar.specs.Fields.{maybe};
ghost use Rattle.rl_model.specs.Events as events;
ghost use Rattle.rl_model.specs.Shapes as spec;
ghost use Rattle.rl_source_shapes.specs.Keys as keys;
ghost use Rattle.rl_trace.specs.Values.{shown};
ghost use Rattle.rl_syntax.specs.Syntax.{pieces_of, syntax};

use crate::keys::{flag_and_key, key_text, only_text, push_keyed, push_text, said};
use rl_base::error::OutOfMemory;
use rl_base::list::List;
use rl_base::text::Text;
use rl_grammar::tree::{Sort, Tree};
use rl_machine::trace::Event;
use rl_source_stack::events::one_operand;
use rl_syntax::numbered::Numbered;
use rl_syntax::parts::split_first;
use rl_syntax::word::Word;
use rl_trace::value::Val;
use std::alloc::Global;

/// True of a part of a pattern whose key has a meaning.
#[tactic(auto, using(rl_syntax::proofs::Layers::by_layer))]
fn has_key(part: &Numbered) -> bool
    ensures { result ≡ spec.has_key (syntax part.now) }
{
    match part {
        Numbered::Node(_, word, parts) => match word {
            Word::Keyedpat => keyed_has_key(parts.as_slice()),
            Word::Keyed => keyed_has_key(parts.as_slice()),
            _ => true,
        },
        Numbered::List(_) => true,
        Numbered::Text(_) => true,
        Numbered::Number(_) => true,
        Numbered::Flag(_) => true,
        Numbered::Absent => true,
    }
}

/// True of the parts of a keyed part of a pattern whose key has a meaning, and of parts without a flag and a key.
fn keyed_has_key(parts: &[Numbered]) -> bool
    ensures { result ≡ keys.keyed_has_key (pieces_of (map syntax parts.now)) }
{
    match flag_and_key(parts) {
        Some((computed, key, _behind)) => {
            if computed {
                return false;
            }
            match key_text(computed, key) {
                Some(_) => true,
                None => false,
            }
        }
        None => true,
    }
}

/// True of parts of a pattern whose keys have a meaning.
pub fn have_keys(parts: &[Numbered]) -> bool
    ensures { result ≡ spec.have_keys (pieces_of (map syntax parts.now)) }
{
    let mut left = parts;
    'parts: while let Some((part, behind)) = split_first(left) {
        if !has_key(part) {
            return false;
        }
        left = behind;
    }
    true
}

/// True of the parts of a rest that is a plain name.
#[tactic(auto, using(rl_syntax::proofs::Layers::by_layer))]
fn is_name(parts: &[Numbered]) -> bool
    ensures { result ≡ keys.is_name (pieces_of (map syntax parts.now)) }
{
    let Some((first, behind)) = split_first(parts) else {
        return false;
    };
    match first {
        Numbered::Node(_, word, _) => match word {
            Word::Bind => match split_first(behind) {
                Some(_) => false,
                None => true,
            },
            Word::Id => match split_first(behind) {
                Some(_) => false,
                None => true,
            },
            _ => false,
        },
        Numbered::List(_) => false,
        Numbered::Text(_) => false,
        Numbered::Number(_) => false,
        Numbered::Flag(_) => false,
        Numbered::Absent => false,
    }
}

/// True of a tree that is a rest with a plain name, and of `-`.
#[tactic(auto, using(rl_syntax::proofs::Layers::by_layer))]
fn is_name_rest(rest: &Numbered) -> bool
    ensures { result ≡ spec.is_plain_rest (syntax rest.now) }
{
    match rest {
        Numbered::Node(_, word, parts) => match word {
            Word::Rest => is_name(parts.as_slice()),
            _ => false,
        },
        Numbered::Absent => true,
        Numbered::List(_) => false,
        Numbered::Text(_) => false,
        Numbered::Number(_) => false,
        Numbered::Flag(_) => false,
    }
}

/// True of a rest that is a plain name, and of none.
pub fn is_plain_rest<K: Sort>(rest: Option<Tree<'_, K>>) -> bool
    ensures { result ≡ spec.is_plain_rest (maybe rest.entry (λ t. syntax t.tree.now)) }
{
    match rest {
        Some(rest) => is_name_rest(rest.tree),
        None => true,
    }
}

/// The name that comes first among the parts of a node. `None` of other parts.
#[tactic(auto, using(rl_syntax::proofs::Layers::by_layer, crate::proofs::Named::unnamed))]
fn short_name(parts: &[Numbered]) -> Option<&Text>
    ensures { MatchOption result (keys.short_shape (pieces_of (map syntax parts.now)) ≡ codes "place" ∷ []) (λ name. keys.short_shape (pieces_of (map syntax parts.now)) ≡ spec.said name.now ∷ codes "place" ∷ []) }
{
    let Some((first, _behind)) = split_first(parts) else {
        return None;
    };
    match first {
        Numbered::Node(_, word, names) => match word {
            Word::Id => match only_text(names.as_slice()) {
                Some(name) => Some(name),
                None => None,
            },
            _ => None,
        },
        Numbered::List(_) => None,
        Numbered::Text(_) => None,
        Numbered::Number(_) => None,
        Numbered::Flag(_) => None,
        Numbered::Absent => None,
    }
}

/// Appends the shape of a name in a pattern with these parts. On `OutOfMemory`, an allocation failed.
fn push_short(alloc: Global, parts: &[Numbered], texts: &mut List<Text>) -> Result<(), OutOfMemory>
    ensures { OnOk result (texts.new ≡ texts.old ++ keys.short_shape (pieces_of (map syntax parts.now))) }
{
    match short_name(parts) {
        Some(name) => {
            texts.push(said(alloc, name.as_str())?)?;
            push_text(alloc, "place", texts)?;
            Ok(())
        }
        None => push_text(alloc, "place", texts),
    }
}

/// Appends the shape of a part of a pattern: its key, and then its place. On `OutOfMemory`, an allocation failed.
#[tactic(auto, using(rl_syntax::proofs::Layers::by_layer))]
fn push_piece_shape(
    alloc: Global,
    part: &Numbered,
    texts: &mut List<Text>,
) -> Result<(), OutOfMemory>
    ensures { OnOk result (texts.new ≡ texts.old ++ spec.piece_shape (syntax part.now)) }
{
    match part {
        Numbered::Node(_, word, parts) => match word {
            Word::Hole => push_text(alloc, "hole", texts),
            Word::Keyedpat => push_keyed(alloc, parts.as_slice(), "", texts),
            Word::Keyed => push_keyed(alloc, parts.as_slice(), "", texts),
            Word::Short => push_short(alloc, parts.as_slice(), texts),
            _ => push_text(alloc, "place", texts),
        },
        Numbered::List(_) => push_text(alloc, "place", texts),
        Numbered::Text(_) => push_text(alloc, "place", texts),
        Numbered::Number(_) => push_text(alloc, "place", texts),
        Numbered::Flag(_) => push_text(alloc, "place", texts),
        Numbered::Absent => push_text(alloc, "place", texts),
    }
}

/// Appends the shapes of parts of a pattern. On `OutOfMemory`, an allocation failed.
fn push_piece_shapes(
    alloc: Global,
    parts: &[Numbered],
    texts: &mut List<Text>,
) -> Result<(), OutOfMemory>
    ensures { OnOk result (texts.new ≡ texts.old ++ spec.piece_shapes (pieces_of (map syntax parts.now))) }
{
    let mut left = parts;
    'parts: while let Some((part, behind)) = split_first(left) {
        push_piece_shape(alloc, part, texts)?;
        left = behind;
    }
    Ok(())
}

/// Appends the shape of a rest. On `OutOfMemory`, an allocation failed.
fn push_rest<K: Sort>(
    alloc: Global,
    rest: Option<Tree<'_, K>>,
    texts: &mut List<Text>,
) -> Result<(), OutOfMemory>
    ensures { OnOk result (texts.new ≡ texts.old ++ spec.rest_shape (maybe rest.entry (λ t. syntax t.tree.now))) }
{
    match rest {
        Some(_rest) => push_text(alloc, "spread", texts),
        None => Ok(()),
    }
}

/// The event that takes a value apart, by the word of its form, its parts and its rest. On `OutOfMemory`, an allocation failed.
fn destructure_event<K: Sort>(
    alloc: Global,
    form: &str,
    parts: &[Numbered],
    rest: Option<Tree<'_, K>>,
    value: Val<'_>,
) -> Result<Event, OutOfMemory>
    ensures { IfOk result (λ e. e ≡ events.destructure (form.now ∷ spec.piece_shapes (pieces_of (map syntax parts.now)) ++ spec.rest_shape (maybe rest.entry (λ t. syntax t.tree.now))) (shown value.entry)) }
{
    let mut texts = List::new(alloc);
    push_text(alloc, form, &mut texts)?;
    push_piece_shapes(alloc, parts, &mut texts)?;
    push_rest(alloc, rest, &mut texts)?;
    Ok(Event {
        kind: Text::from_str(alloc, "destructure")?,
        texts,
        operands: one_operand(alloc, value)?,
    })
}

/// The event that takes a value apart by an array pattern or an array target. On `OutOfMemory`, an allocation failed.
pub fn array_event<K: Sort>(
    alloc: Global,
    items: &[Numbered],
    rest: Option<Tree<'_, K>>,
    value: Val<'_>,
) -> Result<Event, OutOfMemory>
    ensures { IfOk result (λ e. e ≡ events.destructure (codes "array" ∷ spec.piece_shapes (pieces_of (map syntax items.now)) ++ spec.rest_shape (maybe rest.entry (λ t. syntax t.tree.now))) (shown value.entry)) }
{
    destructure_event(alloc, "array", items, rest, value)
}

/// The event that takes a value apart by an object pattern or an object target. On `OutOfMemory`, an allocation failed.
pub fn object_event<K: Sort>(
    alloc: Global,
    properties: &[Numbered],
    rest: Option<Tree<'_, K>>,
    value: Val<'_>,
) -> Result<Event, OutOfMemory>
    ensures { IfOk result (λ e. e ≡ events.destructure (codes "object" ∷ spec.piece_shapes (pieces_of (map syntax properties.now)) ++ spec.rest_shape (maybe rest.entry (λ t. syntax t.tree.now))) (shown value.entry)) }
{
    destructure_event(alloc, "object", properties, rest, value)
}

//! Parts of nodes, by forms that rows ask for.

ghost use Rattle.std.specs.Prelude.{◌≡◌, map, option_map};
ghost use Rattle.rl_row_forms.specs.Shaped as spec;
ghost use Rattle.rl_syntax.specs.Shapes as shapes;
ghost use Rattle.rl_syntax.specs.Syntax.{pieces_of, syntax};

use rl_base::text::Text;
use rl_code::parts::{both, first, three};
use rl_syntax::numbered::{At, Numbered};
use rl_syntax::parts::split_first;
use rl_syntax::word::Word;

/// The value of a text. `None` of any other tree.
#[tactic(auto, using(rl_syntax::proofs::Layers::by_layer))]
pub fn said_in(tree: &Numbered) -> Option<&Text>
    ensures { option_map (λ t. t.now) result ≡ spec.said_in (syntax tree.now) }
{
    match tree {
        Numbered::Text(text) => Some(text),
        Numbered::Node(_, _, _) => None,
        Numbered::List(_) => None,
        Numbered::Number(_) => None,
        Numbered::Flag(_) => None,
        Numbered::Absent => None,
    }
}

/// The value of a flag. `None` of any other tree.
#[tactic(auto, using(rl_syntax::proofs::Layers::by_layer))]
pub fn flag_in(tree: &Numbered) -> Option<bool>
    ensures { result ≡ spec.flag_in (syntax tree.now) }
{
    match tree {
        Numbered::Flag(flag) => Some(*flag),
        Numbered::Node(_, _, _) => None,
        Numbered::List(_) => None,
        Numbered::Text(_) => None,
        Numbered::Number(_) => None,
        Numbered::Absent => None,
    }
}

/// The items of a list. `None` of any other tree.
#[tactic(auto, using(rl_syntax::proofs::Layers::by_layer))]
pub fn items_in(tree: &Numbered) -> Option<&[Numbered]>
    ensures { option_map (λ items. pieces_of (map syntax items.now)) result ≡ spec.items_in (syntax tree.now) }
{
    match tree {
        Numbered::List(items) => Some(items.as_slice()),
        Numbered::Node(_, _, _) => None,
        Numbered::Text(_) => None,
        Numbered::Number(_) => None,
        Numbered::Flag(_) => None,
        Numbered::Absent => None,
    }
}

/// Ids and span, the word and the parts of a node. `None` of any other tree.
#[tactic(auto, using(rl_syntax::proofs::Layers::by_layer))]
pub fn node_in(tree: &Numbered) -> Option<(At, Word, &[Numbered])>
    ensures { option_map (λ n. (n.0, (n.1, pieces_of (map syntax n.2.now)))) result ≡ spec.node_in (syntax tree.now) }
{
    match tree {
        Numbered::Node(at, word, parts) => Some((*at, *word, parts.as_slice())),
        Numbered::List(_) => None,
        Numbered::Text(_) => None,
        Numbered::Number(_) => None,
        Numbered::Flag(_) => None,
        Numbered::Absent => None,
    }
}

/// The first part, if it is a text.
#[tactic(auto, using(crate::proofs::Shaped::by_item))]
pub fn first_said(parts: &[Numbered]) -> Option<&Text>
    ensures { option_map (λ t. t.now) result ≡ spec.first_said (pieces_of (map syntax parts.now)) }
{
    match first(parts) {
        Some(part) => said_in(part),
        None => None,
    }
}

/// The first part, if it is a flag.
#[tactic(auto, using(crate::proofs::Shaped::by_item))]
pub fn first_flag(parts: &[Numbered]) -> Option<bool>
    ensures { result ≡ spec.first_flag (pieces_of (map syntax parts.now)) }
{
    match first(parts) {
        Some(part) => flag_in(part),
        None => None,
    }
}

/// The first of three parts, if it is a flag.
#[tactic(auto, using(crate::proofs::Shaped::by_flag))]
pub fn flag_of_three(parts: &[Numbered]) -> Option<bool>
    ensures { result ≡ spec.flag_of_three (pieces_of (map syntax parts.now)) }
{
    match three(parts) {
        Some((part, _, _)) => flag_in(part),
        None => None,
    }
}

/// The first of three parts, if it is a text.
#[tactic(auto, using(crate::proofs::Shaped::by_text))]
pub fn said_of_three(parts: &[Numbered]) -> Option<&Text>
    ensures { option_map (λ t. t.now) result ≡ spec.said_of_three (pieces_of (map syntax parts.now)) }
{
    match three(parts) {
        Some((part, _, _)) => said_in(part),
        None => None,
    }
}

/// Two trees, if the first is a text.
#[tactic(auto, using(crate::proofs::Shaped::by_item))]
fn with_said<'t>(first: &'t Numbered, second: &'t Numbered) -> Option<(&'t Text, &'t Numbered)>
    ensures { option_map (λ p. (p.0.now, syntax p.1.now)) result ≡ spec.with_said (syntax first.now) (syntax second.now) }
{
    match said_in(first) {
        Some(text) => Some((text, second)),
        None => None,
    }
}

/// The two parts, if the first is a text.
#[tactic(auto, using(crate::proofs::Shaped::by_pair))]
pub fn said_pair(parts: &[Numbered]) -> Option<(&Text, &Numbered)>
    ensures { option_map (λ p. (p.0.now, syntax p.1.now)) result ≡ spec.said_pair (pieces_of (map syntax parts.now)) }
{
    match both(parts) {
        Some((first, second)) => with_said(first, second),
        None => None,
    }
}

/// The first two parts. `None` where there are fewer.
pub fn first_two(parts: &[Numbered]) -> Option<(&Numbered, &Numbered)>
    ensures { option_map (λ p. (syntax p.0.now, syntax p.1.now)) result ≡ spec.first_two (pieces_of (map syntax parts.now)) }
{
    let (first, parts) = split_first(parts)?;
    let (second, _parts) = split_first(parts)?;
    Some((first, second))
}

/// True of parts whose first is not the flag `y`.
#[tactic(auto, using(crate::proofs::Shaped::by_item))]
pub fn flag_is_clear(parts: &[Numbered]) -> bool
    ensures { result ≡ spec.clear_flag (pieces_of (map syntax parts.now)) }
{
    match first_flag(parts) {
        Some(flag) => !flag,
        None => true,
    }
}

/// The last of four parts. `None` where there are more or fewer.
pub fn fourth(parts: &[Numbered]) -> Option<&Numbered>
    ensures { option_map (λ t. syntax t.now) result ≡ spec.fourth (pieces_of (map syntax parts.now)) }
{
    let (_first, parts) = split_first(parts)?;
    let (_second, parts) = split_first(parts)?;
    let (_third, parts) = split_first(parts)?;
    let (fourth, parts) = split_first(parts)?;
    match split_first(parts) {
        Some(_) => None,
        None => Some(fourth),
    }
}

/// True of no parts.
fn has_none(parts: &[Numbered]) -> bool
    ensures { result ≡ shapes.is_none (pieces_of (map syntax parts.now)) }
{
    match parts {
        [] => true,
        [_first, _rest @ ..] => false,
    }
}

/// True of an empty list.
#[tactic(auto, using(rl_syntax::proofs::Layers::by_layer))]
pub fn is_empty_list(tree: &Numbered) -> bool
    ensures { result ≡ spec.is_empty_list (syntax tree.now) }
{
    match tree {
        Numbered::List(items) => has_none(items.as_slice()),
        Numbered::Node(_, _, _) => false,
        Numbered::Text(_) => false,
        Numbered::Number(_) => false,
        Numbered::Flag(_) => false,
        Numbered::Absent => false,
    }
}

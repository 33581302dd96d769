//! Parts of nodes with lists of statements.

ghost use Rattle.std.specs.Prelude.{◌≡◌, map, option_map};
ghost use Rattle.rl_markers.specs.Parts as spec;
ghost use Rattle.rl_syntax.specs.Syntax.{pieces_of, syntax};

use rl_syntax::numbered::Numbered;
use rl_syntax::parts::{as_items, split_first};
use rl_syntax::word::Word;

/// The only part, a list. `None` of parts of another form.
#[tactic(auto, using(crate::proofs::Shaping::no_list))]
fn only_list(parts: &[Numbered]) -> Option<&[Numbered]>
    ensures { option_map (λ s. pieces_of (map syntax s.now)) result ≡ spec.only_list (pieces_of (map syntax parts.now)) }
{
    let (list, parts) = split_first(parts)?;
    match split_first(parts) {
        Some(_) => None,
        None => match as_items(list) {
            Some(items) => Some(items),
            None => None,
        },
    }
}

/// The second of two parts, a list. `None` of parts of another form.
pub fn second_list(parts: &[Numbered]) -> Option<&[Numbered]>
    ensures { option_map (λ s. pieces_of (map syntax s.now)) result ≡ spec.second_list (pieces_of (map syntax parts.now)) }
{
    let (_first, parts) = split_first(parts)?;
    only_list(parts)
}

/// The statements of a block, by its word and parts. `None` of any other node.
pub fn block_list(word: Word, parts: &[Numbered]) -> Option<&[Numbered]>
    ensures { option_map (λ s. pieces_of (map syntax s.now)) result ≡ spec.block_list word (pieces_of (map syntax parts.now)) }
{
    match word {
        Word::Block => only_list(parts),
        _ => None,
    }
}

/// The statements of the body of a function, by its word and parts. `None` of any other node.
fn body_list(word: Word, parts: &[Numbered]) -> Option<&[Numbered]>
    ensures { option_map (λ s. pieces_of (map syntax s.now)) result ≡ spec.body_list word (pieces_of (map syntax parts.now)) }
{
    match word {
        Word::Body => second_list(parts),
        _ => None,
    }
}

/// The statements of a block. `None` of any other tree.
#[tactic(auto, using(rl_syntax::proofs::Layers::by_layer))]
fn block_statements(tree: &Numbered) -> Option<&[Numbered]>
    ensures { option_map (λ s. pieces_of (map syntax s.now)) result ≡ spec.block_statements (syntax tree.now) }
{
    match tree {
        Numbered::Node(_, word, parts) => block_list(*word, parts.as_slice()),
        Numbered::List(_) => None,
        Numbered::Text(_) => None,
        Numbered::Number(_) => None,
        Numbered::Flag(_) => None,
        Numbered::Absent => None,
    }
}

/// The statements of the body of a function. `None` of any other tree.
#[tactic(auto, using(rl_syntax::proofs::Layers::by_layer))]
pub fn body_statements(tree: &Numbered) -> Option<&[Numbered]>
    ensures { option_map (λ s. pieces_of (map syntax s.now)) result ≡ spec.body_statements (syntax tree.now) }
{
    match tree {
        Numbered::Node(_, word, parts) => body_list(*word, parts.as_slice()),
        Numbered::List(_) => None,
        Numbered::Text(_) => None,
        Numbered::Number(_) => None,
        Numbered::Flag(_) => None,
        Numbered::Absent => None,
    }
}

/// The parameter of a `catch` and the statements of its body, by the parts. `None` of parts of another form.
fn catch_parts(parts: &[Numbered]) -> Option<(&Numbered, &[Numbered])>
    ensures { option_map (λ p. (syntax p.0.now, pieces_of (map syntax p.1.now))) result ≡ spec.catch_parts (pieces_of (map syntax parts.now)) }
{
    let (param, parts) = split_first(parts)?;
    let (body, parts) = split_first(parts)?;
    match split_first(parts) {
        Some(_) => None,
        None => match block_statements(body) {
            Some(statements) => Some((param, statements)),
            None => None,
        },
    }
}

/// The parameter of a `catch` and the statements of its body, by its word and parts. `None` of any other node.
pub fn catch_list(word: Word, parts: &[Numbered]) -> Option<(&Numbered, &[Numbered])>
    ensures { option_map (λ p. (syntax p.0.now, pieces_of (map syntax p.1.now))) result ≡ spec.catch_list word (pieces_of (map syntax parts.now)) }
{
    match word {
        Word::Catch => catch_parts(parts),
        _ => None,
    }
}

/// The fourth part. `None` where there are fewer.
pub fn fourth(parts: &[Numbered]) -> Option<&Numbered>
    ensures { option_map (λ t. syntax t.now) result ≡ spec.fourth (pieces_of (map syntax parts.now)) }
{
    let (_first, parts) = split_first(parts)?;
    let (_second, parts) = split_first(parts)?;
    let (_third, parts) = split_first(parts)?;
    let (fourth, _parts) = split_first(parts)?;
    Some(fourth)
}

/// The first part of a declarator. `None` of any other tree.
#[tactic(auto, using(rl_syntax::proofs::Layers::by_layer))]
pub fn declarator_pattern(tree: &Numbered) -> Option<&Numbered>
    ensures { option_map (λ t. syntax t.now) result ≡ spec.declarator_pattern (syntax tree.now) }
{
    match tree {
        Numbered::Node(_, word, parts) => declarator_part(*word, parts.as_slice()),
        Numbered::List(_) => None,
        Numbered::Text(_) => None,
        Numbered::Number(_) => None,
        Numbered::Flag(_) => None,
        Numbered::Absent => None,
    }
}

/// As `declarator_pattern`, by the word and the parts of a node.
fn declarator_part(word: Word, parts: &[Numbered]) -> Option<&Numbered>
    ensures { option_map (λ t. syntax t.now) result ≡ spec.declarator_part word (pieces_of (map syntax parts.now)) }
{
    match word {
        Word::Declarator => first(parts),
        _ => None,
    }
}

/// The first part. `None` where there is none.
pub fn first(parts: &[Numbered]) -> Option<&Numbered>
    ensures { option_map (λ t. syntax t.now) result ≡ spec.first (pieces_of (map syntax parts.now)) }
{
    let (first, _parts) = split_first(parts)?;
    Some(first)
}

//! Rule B1: one function is marked, and it has a body.

ghost use Rattle.std.specs.Prelude.{◌≡◌, map};
ghost use Rattle.rl_rules.specs.Finding.{found_behind};
ghost use Rattle.rl_rules.specs.Marks as spec;
ghost use Rattle.rl_syntax.specs.Syntax.{pieces_of, syntax};

use crate::pieces::{behind, first_is_absent, first_is_yes};
use rl_syntax::numbered::Numbered;
use rl_syntax::word::Word;

/// True of the words of functions.
#[inline(always)]
fn is_function(word: Word) -> bool
    ensures { result ≡ spec.is_function word }
{
    match word {
        Word::Arrow => true,
        Word::Fundecl => true,
        Word::Funexpr => true,
        _ => false,
    }
}

/// True of a function that is marked, by its word and its parts.
#[inline(always)]
fn is_marked(word: Word, parts: &[Numbered]) -> bool
    ensures { result ≡ spec.is_marked word (pieces_of (map syntax parts.now)) }
{
    is_function(word) && first_is_yes(parts)
}

/// True of a function with a body, by its word and its parts.
fn has_body(word: Word, parts: &[Numbered]) -> bool
    ensures { result ≡ spec.has_body word (pieces_of (map syntax parts.now)) }
{
    match word {
        Word::Fundecl => !first_is_absent(behind(behind(behind(behind(behind(parts)))))),
        _ => true,
    }
}

/// Looks for the marked function at one node, if `found` says that one was found before. Gives true if one is found by then.
/// `None` if the node is a second one, or lacks a body.
#[inline(always)]
pub(crate) fn find_at(found: bool, word: Word, parts: &[Numbered]) -> Option<bool>
    ensures { result ≡ found_behind found (spec.body_of word (pieces_of (map syntax parts.now))) }
{
    if !is_marked(word, parts) {
        return Some(found);
    }
    if !found && has_body(word, parts) {
        Some(true)
    } else {
        None
    }
}

/// Looks for the marked function in a tree, if `found` says that one was found before. Gives true if one is found by then.
/// `None` if there are two by then, or one without a body.
#[cycle(finding)]
#[tactic(auto, using(rl_syntax::proofs::Layers::by_layer, crate::proofs::Found::found_on, crate::proofs::Found::found_none))]
fn find_in(found: bool, tree: &Numbered) -> Option<bool>
    ensures { result ≡ found_behind found (spec.bodies (syntax tree.now)) }
{
    match tree {
        Numbered::Node(_, word, parts) => match find_at(found, *word, parts.as_slice()) {
            Some(found) => find_among(found, parts.as_slice()),
            None => None,
        },
        Numbered::List(items) => find_among(found, items.as_slice()),
        Numbered::Text(_) => Some(found),
        Numbered::Number(_) => Some(found),
        Numbered::Flag(_) => Some(found),
        Numbered::Absent => Some(found),
    }
}

/// As `find_in`, for parts in a row.
#[cycle(finding)]
#[tactic(auto, using(crate::proofs::Found::found_on, crate::proofs::Found::found_none))]
fn find_among(found: bool, parts: &[Numbered]) -> Option<bool>
    ensures { result ≡ found_behind found (spec.bodies_among (pieces_of (map syntax parts.now))) }
{
    let mut by_then = found;
    'parts: for part in parts {
        match find_in(by_then, part) {
            Some(found) => by_then = found,
            None => return None,
        }
    }
    Some(by_then)
}

/// Rule B1: true of a tree with exactly one function that is marked, if that has a body. Functions are the nodes of the words
/// `arrow`, `fundecl` and `funexpr`; the mark is their first part. Only a `fundecl` may lack a body.
#[tactic(auto, using(crate::proofs::Found::found_one, crate::proofs::Found::found_no_one))]
pub fn keeps_mark(tree: &Numbered) -> bool
    ensures { result ≡ spec.keeps_mark (syntax tree.now) }
{
    match find_in(false, tree) {
        Some(found) => found,
        None => false,
    }
}

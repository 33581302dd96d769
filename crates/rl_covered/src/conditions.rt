//! The conditions under which the lowering covers a node, by its parts.

ghost use Rattle.std.specs.Prelude.{◌≡◌, map};
ghost use Rattle.rl_promises.specs.Conditions as spec;
ghost use Rattle.rl_syntax.specs.Syntax.{pieces_of, syntax};

use rl_forms::part_forms::{as_flag, one, second_list, three};
use rl_forms::patterns::is_pattern;
use rl_syntax::numbered::Numbered;
use rl_syntax::parts::{as_items, is_absent, split_first};
use rl_syntax::word::Word;

/// True of the parts of a declarator without an initializer.
fn no_default(parts: &[Numbered]) -> bool
    ensures { result ≡ spec.no_default (pieces_of (map syntax parts.now)) }
{
    let Some((_pattern, more)) = split_first(parts) else {
        return false;
    };
    let Some((default, rest)) = split_first(more) else {
        return false;
    };
    match split_first(rest) {
        Some(_) => false,
        None => is_absent(default),
    }
}

/// True of the parts of an update whose target is no pattern.
pub(crate) fn no_pattern(parts: &[Numbered]) -> bool
    ensures { result ≡ spec.no_pattern (pieces_of (map syntax parts.now)) }
{
    match three(parts) {
        Some((_operator, _prefix, target)) => !is_pattern(target),
        None => false,
    }
}

/// True of the parts of a sequence that holds an expression.
pub(crate) fn not_empty(parts: &[Numbered]) -> bool
    ensures { result ≡ spec.not_empty (pieces_of (map syntax parts.now)) }
{
    let Some((expressions, rest)) = split_first(parts) else {
        return false;
    };
    match split_first(rest) {
        Some(_) => false,
        None => match as_items(expressions) {
            Some(expressions) => split_first(expressions).is_some(),
            None => false,
        },
    }
}

/// True of a declarator without an initializer, by its word and parts.
fn bare_node(word: Word, parts: &[Numbered]) -> bool
    ensures { result ≡ spec.bare_node word (pieces_of (map syntax parts.now)) }
{
    match word {
        Word::Declarator => no_default(parts),
        _ => false,
    }
}

/// True of a declarator without an initializer.
#[tactic(auto, using(rl_syntax::proofs::Layers::by_layer))]
fn is_bare(tree: &Numbered) -> bool
    ensures { result ≡ spec.is_bare (syntax tree.now) }
{
    match tree {
        Numbered::Node(_, word, parts) => bare_node(*word, parts.as_slice()),
        Numbered::List(_) => false,
        Numbered::Text(_) => false,
        Numbered::Number(_) => false,
        Numbered::Flag(_) => false,
        Numbered::Absent => false,
    }
}

/// True of the parts of a declaration with one declarator, which has no initializer.
#[tactic(auto, using(rl_promises::proofs::LoopHeads::heads))]
fn declares_one(parts: &[Numbered]) -> bool
    ensures { result ≡ spec.declares_one (pieces_of (map syntax parts.now)) }
{
    match second_list(parts) {
        Some(declarators) => match one(declarators) {
            Some(declarator) => is_bare(declarator),
            None => false,
        },
        None => false,
    }
}

/// As `declares_one`, of a declaration by its word and parts. True of any other node.
fn plain_node(word: Word, parts: &[Numbered]) -> bool
    ensures { result ≡ spec.plain_node word (pieces_of (map syntax parts.now)) }
{
    match word {
        Word::Var => declares_one(parts),
        _ => true,
    }
}

/// True of the head of a `for`-`in` or `for`-`of` loop that declares one variable without an initializer, or is a target.
#[tactic(auto, using(rl_syntax::proofs::Layers::by_layer))]
fn is_plain_head(head: &Numbered) -> bool
    ensures { result ≡ spec.is_plain_head (syntax head.now) }
{
    match head {
        Numbered::Node(_, word, parts) => plain_node(*word, parts.as_slice()),
        Numbered::List(_) => true,
        Numbered::Text(_) => true,
        Numbered::Number(_) => true,
        Numbered::Flag(_) => true,
        Numbered::Absent => true,
    }
}

/// True of the parts of a `for`-`in` or `for`-`of` loop with such a head.
#[tactic(auto, using(rl_promises::proofs::LoopHeads::heads))]
pub(crate) fn plain_head(parts: &[Numbered]) -> bool
    ensures { result ≡ spec.plain_head (pieces_of (map syntax parts.now)) }
{
    let Some((first, rest)) = split_first(parts) else {
        return false;
    };
    match as_flag(first) {
        Some(_) => match split_first(rest) {
            Some((head, _rest)) => is_plain_head(head),
            None => false,
        },
        None => is_plain_head(first),
    }
}

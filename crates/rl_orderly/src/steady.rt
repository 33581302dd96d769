//! Steady expressions, and properties in parentheses and under types.

ghost use Rattle.std.specs.Prelude.{◌≡◌, ℕ, List, map, option_map};
ghost use Rattle.rl_model.specs.Orderly as orderly;
ghost use Rattle.rl_names.specs.Seen.{seen};
ghost use Rattle.rl_orderly.specs.Steady as spec;
ghost use Rattle.rl_syntax.specs.Syntax.{pieces_of, syntax};
ghost use Rattle.rl_syntax.specs.declared.word.Word.TheVariants as words;

use rl_base::ids::ReferenceId;
use rl_code::numbers::Numbers;
use rl_code::parts::{both, first, only, said_only};
use rl_code::variables::Variables;
use rl_syntax::numbered::{At, Numbered};
use rl_syntax::word::Word;

/// The second of two parts. `None` where there are more or fewer.
#[tactic(auto, using(crate::proofs::Steadiness::no_second))]
fn second_of_two(parts: &[Numbered]) -> Option<&Numbered>
    ensures { option_map (λ t. syntax t.now) result ≡ spec.wrapped words.Assert (pieces_of (map syntax parts.now)) }
{
    match both(parts) {
        Some((_type, expression)) => Some(expression),
        None => None,
    }
}

/// The only part. `None` where there are more or none.
#[tactic(auto, using(crate::proofs::Steadiness::no_single))]
fn single(parts: &[Numbered]) -> Option<&Numbered>
    ensures { option_map (λ t. syntax t.now) result ≡ spec.wrapped words.Paren (pieces_of (map syntax parts.now)) }
{
    match only(parts) {
        Some(part) => Some(part),
        None => None,
    }
}

/// The expression in parentheses or under a type. `None` of any other node.
fn wrapped(word: Word, parts: &[Numbered]) -> Option<&Numbered>
    ensures { option_map (λ t. syntax t.now) result ≡ spec.wrapped word (pieces_of (map syntax parts.now)) }
{
    match word {
        Word::Paren => single(parts),
        Word::As => first(parts),
        Word::Satisfies => first(parts),
        Word::Assert => second_of_two(parts),
        Word::Nonnull => single(parts),
        Word::Instantiate => first(parts),
        _ => None,
    }
}

/// True of a reference to a local variable that is not one of `assigned`.
#[tactic(auto, using(crate::proofs::Steadiness::unassigned))]
fn is_steady_reference(
    variables: &Variables<'_>,
    assigned: &Numbers,
    reference: ReferenceId,
) -> bool
    ensures { (name : List ℕ) → result ≡ orderly.is_steady_name assigned.now.list.items ((seen variables.now.names).meaning reference.0 name) }
{
    match variables.local(reference) {
        Some(symbol) => !assigned.has(symbol.0),
        None => false,
    }
}

/// True of an `id` node of a local variable that is not one of `assigned`.
#[tactic(auto, using(crate::proofs::Steadiness::steady_id))]
fn is_steady_id(variables: &Variables<'_>, assigned: &Numbers, at: At, parts: &[Numbered]) -> bool
    ensures { result ≡ spec.steady_leaf (seen variables.now.names) assigned.now.list.items at words.Id (pieces_of (map syntax parts.now)) }
{
    match said_only(parts) {
        Some(_name) => is_steady_reference(variables, assigned, at.reference),
        None => false,
    }
}

/// True of a literal, and of a local variable that is not one of `assigned`.
fn is_steady_leaf(
    variables: &Variables<'_>,
    assigned: &Numbers,
    at: At,
    word: Word,
    parts: &[Numbered],
) -> bool
    ensures { result ≡ spec.steady_leaf (seen variables.now.names) assigned.now.list.items at word (pieces_of (map syntax parts.now)) }
{
    match word {
        Word::Null => true,
        Word::Bool => true,
        Word::Num => true,
        Word::Str => true,
        Word::Id => is_steady_id(variables, assigned, at, parts),
        _ => false,
    }
}

/// True of an expression that may be evaluated at another time: a literal or a local variable that is not one of `assigned`, also in
/// parentheses and under a type.
#[cycle(steadying)]
#[tactic(auto, using(crate::proofs::Steadiness::by_form, rl_syntax::proofs::Layers::by_layer))]
pub fn is_steady(variables: &Variables<'_>, assigned: &Numbers, tree: &Numbered) -> bool
    ensures { result ≡ orderly.is_steady (seen variables.now.names) assigned.now.list.items (syntax tree.now) }
{
    match tree {
        Numbered::Node(at, word, parts) => {
            is_steady_node(variables, assigned, *at, *word, parts.as_slice())
        }
        Numbered::List(_) => false,
        Numbered::Text(_) => false,
        Numbered::Number(_) => false,
        Numbered::Flag(_) => false,
        Numbered::Absent => false,
    }
}

/// As `is_steady`, of a node.
#[cycle(steadying)]
#[tactic(auto, using(crate::proofs::Steadiness::by_wrap))]
fn is_steady_node(
    variables: &Variables<'_>,
    assigned: &Numbers,
    at: At,
    word: Word,
    parts: &[Numbered],
) -> bool
    ensures { result ≡ spec.steady_as (seen variables.now.names) assigned.now.list.items at word (pieces_of (map syntax parts.now)) }
{
    match wrapped(word, parts) {
        Some(inside) => is_steady(variables, assigned, inside),
        None => is_steady_leaf(variables, assigned, at, word, parts),
    }
}

/// True of the words of properties and chains.
fn is_chain_or_link(word: Word) -> bool
    ensures { result ≡ spec.is_chain_or_link word }
{
    match word {
        Word::Chain => true,
        Word::Member => true,
        Word::Index => true,
        Word::Privatemember => true,
        _ => false,
    }
}

/// True of a property or a chain, also in parentheses and under a type.
#[cycle(linking)]
#[tactic(auto, using(crate::proofs::Steadiness::link_form, rl_syntax::proofs::Layers::by_layer))]
pub fn is_link_inside(tree: &Numbered) -> bool
    ensures { result ≡ orderly.is_link_inside (syntax tree.now) }
{
    match tree {
        Numbered::Node(_, word, parts) => is_link_node(*word, parts.as_slice()),
        Numbered::List(_) => false,
        Numbered::Text(_) => false,
        Numbered::Number(_) => false,
        Numbered::Flag(_) => false,
        Numbered::Absent => false,
    }
}

/// As `is_link_inside`, of a node.
#[cycle(linking)]
#[tactic(auto, using(crate::proofs::Steadiness::by_wrap))]
fn is_link_node(word: Word, parts: &[Numbered]) -> bool
    ensures { result ≡ spec.link_as word (pieces_of (map syntax parts.now)) }
{
    match wrapped(word, parts) {
        Some(inside) => is_link_inside(inside),
        None => is_chain_or_link(word),
    }
}

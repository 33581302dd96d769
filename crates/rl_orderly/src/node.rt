//! Nodes that are evaluated in the order in which they are written: assignments to properties, cases, calls and tagged templates.

ghost use Rattle.std.specs.Prelude.{◌≡◌, ◌&&◌, ℕ, List, true, codes, map, option_map};
ghost use Rattle.std.specs.Str.{bytes_eq};
ghost use Rattle.rl_model.specs.Orderly as orderly;
ghost use Rattle.rl_model.specs.Shapes as shapes;
ghost use Rattle.rl_names.specs.Names.{Names};
ghost use Rattle.rl_names.specs.Seen.{seen};
ghost use Rattle.rl_orderly.specs.Nodes as spec;
ghost use Rattle.rl_semantic.specs.Items.{of_item};
ghost use Rattle.rl_syntax.specs.Syntax.{pieces_of, syntax};
ghost use Rattle.rl_syntax.specs.declared.word.Word.TheVariants as words;

use crate::steady::{is_link_inside, is_steady};
use rl_base::text::Text;
use rl_code::numbers::Numbers;
use rl_code::parts::{as_text, first, second, three};
use rl_code::variables::Variables;
use rl_syntax::numbered::Numbered;
use rl_syntax::parts::is_absent;
use rl_syntax::word::Word;

/// The object of a property by a fixed key. `None` of any other node.
fn object_of(word: Word, parts: &[Numbered]) -> Option<&Numbered>
    ensures { option_map (λ t. syntax t.now) result ≡ spec.object_of word (pieces_of (map syntax parts.now)) }
{
    match word {
        Word::Member => second(parts),
        Word::Privatemember => second(parts),
        _ => None,
    }
}

/// Object and key of a property. `None` where the parts are not three.
#[tactic(auto, using(crate::proofs::Orderliness::no_key))]
fn object_and_key(parts: &[Numbered]) -> Option<(&Numbered, &Numbered)>
    ensures { option_map (λ p. (syntax p.0.now, syntax p.1.now)) result ≡ spec.object_and_key (pieces_of (map syntax parts.now)) }
{
    match three(parts) {
        Some((_optional, object, key)) => Some((object, key)),
        None => None,
    }
}

/// Object and key of a property by a key that is evaluated. `None` of any other node.
fn index_parts(word: Word, parts: &[Numbered]) -> Option<(&Numbered, &Numbered)>
    ensures { option_map (λ p. (syntax p.0.now, syntax p.1.now)) result ≡ spec.index_parts word (pieces_of (map syntax parts.now)) }
{
    match word {
        Word::Index => object_and_key(parts),
        _ => None,
    }
}

/// True if the object of a property by a fixed key is steady; true of any other node too.
#[tactic(auto, using(crate::proofs::Orderliness::object))]
fn is_object_steady(
    variables: &Variables<'_>,
    assigned: &Numbers,
    word: Word,
    parts: &[Numbered],
) -> bool
    ensures { result ≡ of_item true (orderly.is_steady (seen variables.now.names) assigned.now.list.items) (spec.object_of word (pieces_of (map syntax parts.now))) }
{
    match object_of(word, parts) {
        Some(object) => is_steady(variables, assigned, object),
        None => true,
    }
}

/// True if object and key of a property by a key that is evaluated are steady; true of any other node too.
#[tactic(auto, using(crate::proofs::Orderliness::index))]
fn is_index_steady(
    variables: &Variables<'_>,
    assigned: &Numbers,
    word: Word,
    parts: &[Numbered],
) -> bool
    ensures { result ≡ of_item true (λ p. orderly.is_steady (seen variables.now.names) assigned.now.list.items p.0 && orderly.is_steady (seen variables.now.names) assigned.now.list.items p.1) (spec.index_parts word (pieces_of (map syntax parts.now))) }
{
    match index_parts(word, parts) {
        Some((object, key)) => {
            is_steady(variables, assigned, object) && is_steady(variables, assigned, key)
        }
        None => true,
    }
}

/// True of the parts of a target whose object and key are steady.
fn is_steady_target_node(
    variables: &Variables<'_>,
    assigned: &Numbers,
    word: Word,
    parts: &[Numbered],
) -> bool
    ensures { result ≡ spec.target_as (seen variables.now.names) assigned.now.list.items word (pieces_of (map syntax parts.now)) }
{
    is_object_steady(variables, assigned, word, parts)
        && is_index_steady(variables, assigned, word, parts)
}

/// True of a target that is no property, or whose object and key are steady.
#[tactic(auto, using(crate::proofs::Orderliness::target_form))]
fn is_steady_target(variables: &Variables<'_>, assigned: &Numbers, target: &Numbered) -> bool
    ensures { result ≡ orderly.is_steady_target (seen variables.now.names) assigned.now.list.items (syntax target.now) }
{
    match target {
        Numbered::Node(_, word, parts) => {
            is_steady_target_node(variables, assigned, *word, parts.as_slice())
        }
        Numbered::List(_) => true,
        Numbered::Text(_) => true,
        Numbered::Number(_) => true,
        Numbered::Flag(_) => true,
        Numbered::Absent => true,
    }
}

/// True of the operator `=`.
fn is_plain(operator: &Text) -> bool
    ensures { result ≡ bytes_eq operator.now (codes "=") }
{
    operator.as_str() == "="
}

/// Operator, target and right side of an assignment, by its parts. `None` where the parts have another form.
#[tactic(auto, using(crate::proofs::Orderliness::no_assignment))]
fn assignment(parts: &[Numbered]) -> Option<(&Text, &Numbered, &Numbered)>
    ensures { option_map (λ p. (p.0.now, (syntax p.1.now, syntax p.2.now))) result ≡ spec.assignment (pieces_of (map syntax parts.now)) }
{
    match three(parts) {
        Some((operator, target, right)) => match as_text(operator) {
            Some(operator) => Some((operator, target, right)),
            None => None,
        },
        None => None,
    }
}

/// True of an assignment whose right side is steady, or object and key of its target are.
#[tactic(auto, using(crate::proofs::Orderliness::assigns))]
fn is_orderly_assignment(variables: &Variables<'_>, assigned: &Numbers, parts: &[Numbered]) -> bool
    ensures { result ≡ spec.orderly_as (seen variables.now.names) assigned.now.list.items words.Assign (pieces_of (map syntax parts.now)) }
{
    match assignment(parts) {
        Some((operator, target, right)) => {
            !is_plain(operator)
                || is_steady(variables, assigned, right)
                || is_steady_target(variables, assigned, target)
        }
        None => true,
    }
}

/// True of a case whose test is steady.
#[tactic(auto, using(crate::proofs::Orderliness::cases))]
fn is_orderly_case(variables: &Variables<'_>, assigned: &Numbers, parts: &[Numbered]) -> bool
    ensures { result ≡ spec.orderly_as (seen variables.now.names) assigned.now.list.items words.Case (pieces_of (map syntax parts.now)) }
{
    match first(parts) {
        Some(condition) => is_absent(condition) || is_steady(variables, assigned, condition),
        None => true,
    }
}

/// True of a property itself.
#[tactic(auto, using(crate::proofs::Orderliness::link_form))]
fn is_link(tree: &Numbered) -> bool
    ensures { result ≡ shapes.is_link (syntax tree.now) }
{
    match tree {
        Numbered::Node(_, word, _) => is_link_word(*word),
        Numbered::List(_) => false,
        Numbered::Text(_) => false,
        Numbered::Number(_) => false,
        Numbered::Flag(_) => false,
        Numbered::Absent => false,
    }
}

/// True of the words of properties.
fn is_link_word(word: Word) -> bool
    ensures { result ≡ spec.is_link_word word }
{
    match word {
        Word::Member => true,
        Word::Index => true,
        Word::Privatemember => true,
        _ => false,
    }
}

/// True of a call whose callee lends its object as it is written: a property itself, or none in parentheses or under a type.
#[tactic(auto, using(crate::proofs::Orderliness::calls))]
fn is_orderly_call(parts: &[Numbered]) -> bool
    ensures { (n : Names) (assigned : List ℕ) → result ≡ spec.orderly_as n assigned words.Call (pieces_of (map syntax parts.now)) }
{
    match second(parts) {
        Some(callee) => is_link(callee) || !is_link_inside(callee),
        None => true,
    }
}

/// True of a tagged template whose tag lends no object.
#[tactic(auto, using(crate::proofs::Orderliness::tags))]
fn is_orderly_tagged(parts: &[Numbered]) -> bool
    ensures { (n : Names) (assigned : List ℕ) → result ≡ spec.orderly_as n assigned words.Tagged (pieces_of (map syntax parts.now)) }
{
    match first(parts) {
        Some(tag) => !is_link_inside(tag),
        None => true,
    }
}

/// True of a node of the word `word` that is evaluated in the order in which it is written.
fn is_orderly_as(
    variables: &Variables<'_>,
    assigned: &Numbers,
    word: Word,
    parts: &[Numbered],
) -> bool
    ensures { result ≡ spec.orderly_as (seen variables.now.names) assigned.now.list.items word (pieces_of (map syntax parts.now)) }
{
    match word {
        Word::Assign => is_orderly_assignment(variables, assigned, parts),
        Word::Case => is_orderly_case(variables, assigned, parts),
        Word::Call => is_orderly_call(parts),
        Word::Tagged => is_orderly_tagged(parts),
        _ => true,
    }
}

/// True of a node that is evaluated in the order in which it is written, if `assigned` are the variables that lowered functions assign.
#[tactic(auto, using(crate::proofs::Orderliness::orderly_form))]
pub fn is_orderly_node(variables: &Variables<'_>, assigned: &Numbers, node: &Numbered) -> bool
    ensures { result ≡ orderly.is_orderly_node (seen variables.now.names) assigned.now.list.items (syntax node.now) }
{
    match node {
        Numbered::Node(_, word, parts) => {
            is_orderly_as(variables, assigned, *word, parts.as_slice())
        }
        Numbered::List(_) => true,
        Numbered::Text(_) => true,
        Numbered::Number(_) => true,
        Numbered::Flag(_) => true,
        Numbered::Absent => true,
    }
}

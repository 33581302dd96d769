//! Nodes of which a row leaves out a part.

ghost use Rattle.std.specs.Prelude.{◌≡◌, true, false, codes, map, option_map};
ghost use Rattle.std.specs.Str.{bytes_eq};
ghost use Rattle.rl_model.specs.Applied as rows;
ghost use Rattle.rl_model.specs.Shapes as shapes;
ghost use Rattle.rl_promises.specs.Outs as spec;
ghost use Rattle.rl_promises.specs.PartForms as forms;
ghost use Rattle.rl_syntax.specs.Syntax.{pieces_of, syntax};
ghost use Rattle.rl_syntax.specs.declared.word.Word.TheVariants as words;

use crate::part_forms::text_and_tree;
use rl_base::text::Text;
use rl_syntax::numbered::Numbered;
use rl_syntax::parts::split_first;
use rl_syntax::word::Word;

/// True of the word of a wrapper.
fn wraps(word: Word) -> bool
    ensures { result ≡ forms.wraps word }
{
    match word {
        Word::As => true,
        Word::Satisfies => true,
        Word::Assert => true,
        Word::Nonnull => true,
        _ => false,
    }
}

/// True of the word of a target that is left out in the head of a loop.
fn loses_head(word: Word) -> bool
    ensures { result ≡ forms.loses_head word }
{
    match word {
        Word::Privatemember => true,
        _ => wraps(word),
    }
}

/// True of a target under a wrapper.
#[tactic(auto, using(crate::proofs::LeavingOut::wrapped, rl_syntax::proofs::Layers::by_layer))]
pub fn is_wrapped(tree: &Numbered) -> bool
    ensures { result ≡ spec.is_wrapped (syntax tree.now) }
{
    match tree {
        Numbered::Node(_, word, _) => wraps(*word),
        Numbered::List(_) => false,
        Numbered::Text(_) => false,
        Numbered::Number(_) => false,
        Numbered::Flag(_) => false,
        Numbered::Absent => false,
    }
}

/// True of a target that is left out in the head of a `for`-`in` or `for`-`of` loop: a private property, or one under a wrapper.
#[tactic(auto, using(crate::proofs::LeavingOut::wrapped, rl_syntax::proofs::Layers::by_layer))]
pub fn is_lost_head(head: &Numbered) -> bool
    ensures { result ≡ spec.is_lost_head (syntax head.now) }
{
    match head {
        Numbered::Node(_, word, _) => loses_head(*word),
        Numbered::List(_) => false,
        Numbered::Text(_) => false,
        Numbered::Number(_) => false,
        Numbered::Flag(_) => false,
        Numbered::Absent => false,
    }
}

/// True of the word of a name, a text or a number.
fn names_key(word: Word) -> bool
    ensures { result ≡ forms.names_key word }
{
    match word {
        Word::Name => true,
        Word::Str => true,
        Word::Num => true,
        _ => false,
    }
}

/// True of the word of a node that may stand in brackets: an expression.
fn fits_brackets(word: Word) -> bool
    ensures { result ≡ forms.fits_brackets word }
{
    match word {
        Word::Name => false,
        Word::Private => false,
        _ => true,
    }
}

/// True of a key of an object literal in brackets that is an expression.
#[tactic(auto, using(crate::proofs::LeavingOut::keys, rl_syntax::proofs::Layers::by_layer))]
fn is_computed_key(key: &Numbered) -> bool
    ensures { result ≡ spec.is_known_key true (syntax key.now) }
{
    match key {
        Numbered::Node(_, word, _) => fits_brackets(*word),
        Numbered::List(_) => true,
        Numbered::Text(_) => true,
        Numbered::Number(_) => true,
        Numbered::Flag(_) => true,
        Numbered::Absent => true,
    }
}

/// True of a key of an object literal without brackets that is a name, a text or a number.
#[tactic(auto, using(crate::proofs::LeavingOut::keys, rl_syntax::proofs::Layers::by_layer))]
fn is_plain_key(key: &Numbered) -> bool
    ensures { result ≡ spec.is_known_key false (syntax key.now) }
{
    match key {
        Numbered::Node(_, word, _) => names_key(*word),
        Numbered::List(_) => false,
        Numbered::Text(_) => false,
        Numbered::Number(_) => false,
        Numbered::Flag(_) => false,
        Numbered::Absent => false,
    }
}

/// True of a key of an object literal that is an expression in brackets, or is a name, a text or a number without them.
pub fn is_known_key(computed: bool, key: &Numbered) -> bool
    ensures { result ≡ spec.is_known_key computed (syntax key.now) }
{
    if computed {
        is_computed_key(key)
    } else {
        is_plain_key(key)
    }
}

/// True of a property, in parentheses too.
#[cycle(deleting)]
#[tactic(auto, using(crate::proofs::LeavingOut::deleted, rl_syntax::proofs::Layers::by_layer))]
fn deletes(tree: &Numbered) -> bool
    ensures { result ≡ rows.deletes (syntax tree.now) }
{
    match tree {
        Numbered::Node(_, word, parts) => node_deletes(*word, parts.as_slice()),
        Numbered::List(_) => false,
        Numbered::Text(_) => false,
        Numbered::Number(_) => false,
        Numbered::Flag(_) => false,
        Numbered::Absent => false,
    }
}

/// As `deletes`, of a node by its word.
#[cycle(deleting)]
fn node_deletes(word: Word, parts: &[Numbered]) -> bool
    ensures { result ≡ forms.node_deletes word (pieces_of (map syntax parts.now)) }
{
    match word {
        Word::Paren => paren_deletes(parts),
        Word::Member => true,
        Word::Index => true,
        Word::Privatemember => true,
        _ => false,
    }
}

/// As `deletes`, of parentheses by their parts.
#[cycle(deleting)]
#[tactic(auto, using(crate::proofs::LeavingOut::paren))]
fn paren_deletes(parts: &[Numbered]) -> bool
    ensures { result ≡ forms.node_deletes words.Paren (pieces_of (map syntax parts.now)) }
{
    match split_first(parts) {
        Some((expression, parts)) => match split_first(parts) {
            Some(_) => false,
            None => deletes(expression),
        },
        None => false,
    }
}

/// True of the operator `=`.
pub fn is_equals(operator: &Text) -> bool
    ensures { result ≡ bytes_eq operator.now (codes "=") }
{
    operator.as_str() == "="
}

/// True of the operator of a logical assignment.
pub fn is_logical(operator: &Text) -> bool
    ensures { result ≡ shapes.is_logical operator.now }
{
    operator.as_str() == "&&=" || operator.as_str() == "||=" || operator.as_str() == "??="
}

/// True of a `delete` of what is no property.
pub fn is_lost_delete(operator: &Text, argument: &Numbered) -> bool
    ensures { result ≡ spec.is_lost_delete operator.now (syntax argument.now) }
{
    operator.as_str() == "delete" && !deletes(argument)
}

/// True of a text that is cooked as it is written.
#[tactic(auto, using(rl_syntax::proofs::Layers::by_layer))]
fn is_same_text(raw: &Text, cooked: &Numbered) -> bool
    ensures { result ≡ shapes.is_same_text raw.now (syntax cooked.now) }
{
    match cooked {
        Numbered::Text(text) => raw.as_str() == text.as_str(),
        Numbered::Node(_, _, _) => raw.as_str() == "",
        Numbered::List(_) => raw.as_str() == "",
        Numbered::Number(_) => raw.as_str() == "",
        Numbered::Flag(_) => raw.as_str() == "",
        Numbered::Absent => raw.as_str() == "",
    }
}

/// The raw text of a quasi, and the cooked one, by its word and parts. `None` of any other node.
#[tactic(auto, using(crate::proofs::LeavingOut::quasis))]
fn quasi_parts(word: Word, parts: &[Numbered]) -> Option<(&Text, &Numbered)>
    ensures { option_map (λ p. (p.0.now, syntax p.1.now)) result ≡ forms.quasi_parts word (pieces_of (map syntax parts.now)) }
{
    match word {
        Word::Quasi => match text_and_tree(parts) {
            Some((raw, cooked)) => Some((raw, cooked)),
            None => None,
        },
        _ => None,
    }
}

/// The raw text of a quasi, and the cooked one. `None` of any other tree.
#[tactic(auto, using(rl_syntax::proofs::Layers::by_layer))]
fn quasi_in(part: &Numbered) -> Option<(&Text, &Numbered)>
    ensures { option_map (λ p. (p.0.now, syntax p.1.now)) result ≡ forms.quasi_in (syntax part.now) }
{
    match part {
        Numbered::Node(_, word, parts) => quasi_parts(*word, parts.as_slice()),
        Numbered::List(_) => None,
        Numbered::Text(_) => None,
        Numbered::Number(_) => None,
        Numbered::Flag(_) => None,
        Numbered::Absent => None,
    }
}

/// True if the quasis, up to the first part that is none, are cooked as they are written.
#[tactic(auto, using(crate::proofs::LeavingOut::raws))]
pub fn are_raw(parts: &[Numbered]) -> bool
    ensures { result ≡ shapes.are_raw (pieces_of (map syntax parts.now)) }
{
    'parts: for part in parts {
        let Some((raw, cooked)) = quasi_in(part) else {
            return true;
        };
        if !is_same_text(raw, cooked) {
            return false;
        }
    }
    true
}

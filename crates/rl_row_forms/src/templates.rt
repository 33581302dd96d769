//! The texts of a template that a tag takes.

ghost use Rattle.std.specs.Prelude.{◌≡◌, map, option_map};
ghost use Rattle.rl_model.specs.Shapes as shapes;
ghost use Rattle.rl_row_forms.specs.Quasis as spec;
ghost use Rattle.rl_syntax.specs.Syntax.{pieces_of, syntax};

use crate::forms::{node_in, said_pair};
use rl_base::text::Text;
use rl_syntax::numbered::Numbered;
use rl_syntax::word::Word;

/// True of a text that is cooked as it is written.
#[tactic(auto, using(rl_syntax::proofs::Layers::by_layer))]
fn is_same_text(raw: &Text, cooked: &Numbered) -> bool
    ensures { result ≡ shapes.is_same_text raw.now (syntax cooked.now) }
{
    match cooked {
        Numbered::Text(text) => raw.as_str() == text.as_str(),
        Numbered::Node(_, _, _) => raw.as_str() == "",
        Numbered::List(_) => raw.as_str() == "",
        Numbered::Number(_) => raw.as_str() == "",
        Numbered::Flag(_) => raw.as_str() == "",
        Numbered::Absent => raw.as_str() == "",
    }
}

/// The raw text of a quasi, and the cooked one, by its word and parts. `None` of any other node.
fn quasi_of(word: Word, parts: &[Numbered]) -> Option<(&Text, &Numbered)>
    ensures { option_map (λ p. (p.0.now, syntax p.1.now)) result ≡ spec.quasi_of word (pieces_of (map syntax parts.now)) }
{
    match word {
        Word::Quasi => said_pair(parts),
        _ => None,
    }
}

/// The raw text of a quasi, and the cooked one. `None` of any other tree.
#[tactic(auto, using(crate::proofs::Shaped::by_item))]
fn quasi_in(part: &Numbered) -> Option<(&Text, &Numbered)>
    ensures { option_map (λ p. (p.0.now, syntax p.1.now)) result ≡ spec.quasi_in (syntax part.now) }
{
    match node_in(part) {
        Some((_, word, parts)) => quasi_of(word, parts),
        None => None,
    }
}

/// True of a quasi.
#[tactic(auto, using(crate::proofs::Shaped::by_item))]
fn is_quasi(part: &Numbered) -> bool
    ensures { result ≡ spec.is_quasi (syntax part.now) }
{
    match quasi_in(part) {
        Some(_) => true,
        None => false,
    }
}

/// True of a quasi that is cooked as it is written, and of any other tree.
#[tactic(auto, using(crate::proofs::Shaped::by_item))]
fn is_raw(part: &Numbered) -> bool
    ensures { result ≡ spec.is_raw (syntax part.now) }
{
    match quasi_in(part) {
        Some((raw, cooked)) => is_same_text(raw, cooked),
        None => true,
    }
}

/// True if the quasis, up to the first part that is none, are cooked as they are written.
pub fn are_raw(parts: &[Numbered]) -> bool
    ensures { result ≡ spec.are_raw_among (pieces_of (map syntax parts.now)) }
{
    'parts: for part in parts {
        if !is_quasi(part) {
            return true;
        }
        if !is_raw(part) {
            return false;
        }
    }
    true
}

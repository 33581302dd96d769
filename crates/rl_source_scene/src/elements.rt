//! Elements of JSX by their parts.

ghost use Rattle.std.specs.Prelude.{◌≡◌, map, option_map, MatchOption};
ghost use Rattle.rl_model.specs.JsxText.{is_fbt, is_fbt_tag};
ghost use Rattle.rl_source_scene.specs.Elements as spec;
ghost use Rattle.rl_syntax.specs.Syntax.{pieces_of, syntax};

use rl_base::text::Text;
use rl_code::parts::{both, said_only};
use rl_syntax::numbered::Numbered;
use rl_syntax::parts::split_first;
use rl_syntax::word::Word;

/// Tag and attributes of the node of an element's beginning, by its word and its parts. `None` of any other node.
fn opening_by(word: Word, parts: &[Numbered]) -> Option<(&Numbered, &Numbered)>
    ensures { option_map (λ p. (syntax p.0.now, syntax p.1.now)) result ≡ spec.opening_by word (pieces_of (map syntax parts.now)) }
{
    match word {
        Word::Opening => both(parts),
        _ => None,
    }
}

/// Tag and attributes of an element's beginning. `None` of any other tree.
#[tactic(auto, using(rl_syntax::proofs::Layers::by_layer))]
fn opening_parts(tree: &Numbered) -> Option<(&Numbered, &Numbered)>
    ensures { option_map (λ p. (syntax p.0.now, syntax p.1.now)) result ≡ spec.opening_parts (syntax tree.now) }
{
    match tree {
        Numbered::Node(_, word, parts) => opening_by(*word, parts.as_slice()),
        Numbered::List(_) => None,
        Numbered::Text(_) => None,
        Numbered::Number(_) => None,
        Numbered::Flag(_) => None,
        Numbered::Absent => None,
    }
}

/// The parts of an element that hold texts.
#[derive(Clone, Copy)]
pub struct ElementParts<'b> {
    /// The tag.
    pub tag: &'b Numbered,
    /// The list of its attributes.
    pub attributes: &'b Numbered,
    /// The list of its children.
    pub children: &'b Numbered,
}

/// Tag, attributes and children of an element, by the word and the parts of its node. `None` of any other node.
pub fn element_parts(word: Word, parts: &[Numbered]) -> Option<ElementParts<'_>>
    ensures { option_map spec.seen_parts result ≡ spec.element_parts word (pieces_of (map syntax parts.now)) }
{
    match word {
        Word::Element => {
            let (opening, parts) = split_first(parts)?;
            let (children, _closing) = split_first(parts)?;
            match opening_parts(opening) {
                Some((tag, attributes)) => Some(ElementParts {
                    tag,
                    attributes,
                    children,
                }),
                None => None,
            }
        }
        _ => None,
    }
}

/// True of the names of the elements whose texts keep their spaces.
fn is_fbt(name: &Text) -> bool
    ensures { result ≡ is_fbt name.now }
{
    name.as_str() == "fbt" || name.as_str() == "fbs"
}

/// True of the only part of a tag, if it is the name of such an element.
fn says_fbt(parts: &[Numbered]) -> bool
    ensures { result ≡ spec.says_fbt (pieces_of (map syntax parts.now)) }
{
    match said_only(parts) {
        Some(name) => is_fbt(name),
        None => false,
    }
}

/// True of the word of a tag that is a name.
fn is_named(word: Word) -> bool
    ensures { result ≡ spec.is_named word }
{
    match word {
        Word::Tag => true,
        Word::Id => true,
        _ => false,
    }
}

/// True of the tag of an element whose texts keep their spaces, by its word and its parts.
fn is_fbt_by(word: Word, parts: &[Numbered]) -> bool
    ensures { result ≡ spec.is_fbt_by word (pieces_of (map syntax parts.now)) }
{
    is_named(word) && says_fbt(parts)
}

/// True of the tag of an element whose texts keep their spaces.
#[tactic(auto, using(rl_syntax::proofs::Layers::by_layer, crate::proofs::ElementParts::fbt_by_parts))]
pub fn is_fbt_tag(tree: &Numbered) -> bool
    ensures { result ≡ is_fbt_tag (syntax tree.now) }
{
    match tree {
        Numbered::Node(_, word, parts) => is_fbt_by(*word, parts.as_slice()),
        Numbered::List(_) => false,
        Numbered::Text(_) => false,
        Numbered::Number(_) => false,
        Numbered::Flag(_) => false,
        Numbered::Absent => false,
    }
}

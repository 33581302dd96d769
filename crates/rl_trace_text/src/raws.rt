//! The content of a tree, by its form.

ghost use Rattle.std.specs.Prelude.{◌≡◌, ℕ, Bool, List, map, IfSome, IfNone, IsTrue, ◌↔◌};
ghost use Rattle.rl_text.specs.Notation.{Node, Listed, Said, Count, Flag, Absent, Parts};
ghost use Rattle.rl_text.specs.Raw.{tree, parts_of};

use rl_base::text::Text;
use rl_text::raw::Raw;

/// The text of a tree that is one.
#[tactic(auto, using(rl_text::proofs::Trees::tree_forms))]
pub fn text_in(raw: &Raw) -> Option<&Text>
    ensures found { IfSome result (λ text. tree raw.now ≡ Said text.now) }
    ensures none { IfNone result ((text : List ℕ) → Said text ≡ tree raw.now → ⊥) }
{
    match raw {
        Raw::Node(_, _) => None,
        Raw::List(_) => None,
        Raw::Text(text) => Some(text),
        Raw::Number(_) => None,
        Raw::Flag(_) => None,
        Raw::Absent => None,
    }
}

/// The number of a tree that is one.
#[tactic(auto, using(rl_text::proofs::Trees::tree_forms))]
pub fn number_in(raw: &Raw) -> Option<u64>
    ensures found { IfSome result (λ number. tree raw.now ≡ Count number) }
    ensures none { IfNone result ((number : ℕ) → Count number ≡ tree raw.now → ⊥) }
{
    match raw {
        Raw::Node(_, _) => None,
        Raw::List(_) => None,
        Raw::Text(_) => None,
        Raw::Number(number) => Some(*number),
        Raw::Flag(_) => None,
        Raw::Absent => None,
    }
}

/// The flag of a tree that is one.
#[tactic(auto, using(rl_text::proofs::Trees::tree_forms))]
pub fn flag_in(raw: &Raw) -> Option<bool>
    ensures found { IfSome result (λ flag. tree raw.now ≡ Flag flag) }
    ensures none { IfNone result ((flag : Bool) → Flag flag ≡ tree raw.now → ⊥) }
{
    match raw {
        Raw::Node(_, _) => None,
        Raw::List(_) => None,
        Raw::Text(_) => None,
        Raw::Number(_) => None,
        Raw::Flag(flag) => Some(*flag),
        Raw::Absent => None,
    }
}

/// True if the tree is the sign of what is absent.
#[tactic(auto, using(rl_text::proofs::Trees::tree_forms))]
pub fn is_absent(raw: &Raw) -> bool
    ensures { IsTrue result ↔ (Absent ≡ tree raw.now) }
{
    match raw {
        Raw::Node(_, _) => false,
        Raw::List(_) => false,
        Raw::Text(_) => false,
        Raw::Number(_) => false,
        Raw::Flag(_) => false,
        Raw::Absent => true,
    }
}

/// The parts of a tree that is a list.
#[tactic(auto, using(rl_text::proofs::Trees::tree_forms))]
pub fn items_in(raw: &Raw) -> Option<&[Raw]>
    ensures found { IfSome result (λ items. tree raw.now ≡ Listed (parts_of (map tree items.now))) }
    ensures none { IfNone result ((items : Parts) → Listed items ≡ tree raw.now → ⊥) }
{
    match raw {
        Raw::Node(_, _) => None,
        Raw::List(items) => Some(items.as_slice()),
        Raw::Text(_) => None,
        Raw::Number(_) => None,
        Raw::Flag(_) => None,
        Raw::Absent => None,
    }
}

/// The word and the parts of a tree that is a node.
#[tactic(auto, using(rl_text::proofs::Trees::tree_forms))]
fn node_in(raw: &Raw) -> Option<(&[u8], &[Raw])>
    ensures found { IfSome result (λ node. tree raw.now ≡ Node node.0.now (parts_of (map tree node.1.now))) }
    ensures none { IfNone result ((word : List ℕ) (parts : Parts) → Node word parts ≡ tree raw.now → ⊥) }
{
    match raw {
        Raw::Node(word, parts) => Some((word.as_bytes(), parts.as_slice())),
        Raw::List(_) => None,
        Raw::Text(_) => None,
        Raw::Number(_) => None,
        Raw::Flag(_) => None,
        Raw::Absent => None,
    }
}

/// The parts of a tree that is a node with the word.
#[tactic(auto, using(crate::proofs::Nodes::node_word))]
pub fn parts_in<'a>(raw: &'a Raw, word: &str) -> Option<&'a [Raw]>
    ensures found { IfSome result (λ parts. tree raw.now ≡ Node word.now (parts_of (map tree parts.now))) }
    ensures none { IfNone result ((parts : Parts) → Node word.now parts ≡ tree raw.now → ⊥) }
{
    let Some((found, parts)) = node_in(raw) else {
        return None;
    };
    if found != word.as_bytes() {
        return None;
    }
    Some(parts)
}

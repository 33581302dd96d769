//! Parts of nodes by their form.

ghost use Rattle.std.specs.Prelude.{◌≡◌, Bool, map};
ghost use Rattle.rl_rules.specs.Pieces as spec;
ghost use Rattle.rl_syntax.specs.Forms as forms;
ghost use Rattle.rl_syntax.specs.Syntax.{pieces_of, syntax};
ghost use Rattle.rl_syntax.specs.declared.word.Word as words;

use rl_syntax::numbered::Numbered;
use rl_syntax::parts::is_absent;
use rl_syntax::word::Word;

/// A set of words.
pub(crate) trait Words {
    ghost test: { words.Word → Bool };

    /// True if the word is in the set.
    fn contain(word: Word) -> bool
        ensures { result ≡ test word };
}

/// True of a node whose word is in the set `W`.
#[tactic(auto, using(rl_syntax::proofs::Layers::by_layer))]
fn is_node_of<W: Words>(tree: &Numbered) -> bool
    ensures { result ≡ spec.is_node_of W.test (syntax tree.now) }
{
    match tree {
        Numbered::Node(_, word, _) => W::contain(*word),
        Numbered::List(_) => false,
        Numbered::Text(_) => false,
        Numbered::Number(_) => false,
        Numbered::Flag(_) => false,
        Numbered::Absent => false,
    }
}

/// True of parts whose first is a node whose word is in the set `W`.
pub(crate) fn first_is_node_of<W: Words>(parts: &[Numbered]) -> bool
    ensures { result ≡ spec.first_is (spec.is_node_of W.test) (pieces_of (map syntax parts.now)) }
{
    match parts {
        [] => false,
        [part, _parts @ ..] => is_node_of::<W>(part),
    }
}

/// True of the flag `y`.
#[tactic(auto, using(rl_syntax::proofs::Layers::by_layer))]
pub(crate) fn is_yes(tree: &Numbered) -> bool
    ensures { result ≡ spec.is_yes (syntax tree.now) }
{
    match tree {
        Numbered::Flag(flag) => *flag,
        Numbered::Node(_, _, _) => false,
        Numbered::List(_) => false,
        Numbered::Text(_) => false,
        Numbered::Number(_) => false,
        Numbered::Absent => false,
    }
}

/// True of parts whose first is the flag `y`.
pub(crate) fn first_is_yes(parts: &[Numbered]) -> bool
    ensures { result ≡ spec.first_is spec.is_yes (pieces_of (map syntax parts.now)) }
{
    match parts {
        [] => false,
        [part, _parts @ ..] => is_yes(part),
    }
}

/// True of parts whose first is `-`.
pub(crate) fn first_is_absent(parts: &[Numbered]) -> bool
    ensures { result ≡ spec.first_is forms.is_absent (pieces_of (map syntax parts.now)) }
{
    match parts {
        [] => false,
        [part, _parts @ ..] => is_absent(part),
    }
}

/// The parts of a node; none of any other tree.
#[tactic(auto, using(rl_syntax::proofs::Layers::by_layer))]
pub(crate) fn parts_of(tree: &Numbered) -> &[Numbered]
    ensures { pieces_of (map syntax result.now) ≡ spec.parts_of (syntax tree.now) }
{
    match tree {
        Numbered::Node(_, _, parts) => parts.as_slice(),
        Numbered::List(_) => &[],
        Numbered::Text(_) => &[],
        Numbered::Number(_) => &[],
        Numbered::Flag(_) => &[],
        Numbered::Absent => &[],
    }
}

/// The items of a list; none of any other tree.
#[tactic(auto, using(rl_syntax::proofs::Layers::by_layer))]
fn items_of(tree: &Numbered) -> &[Numbered]
    ensures { pieces_of (map syntax result.now) ≡ spec.items_of (syntax tree.now) }
{
    match tree {
        Numbered::List(items) => items.as_slice(),
        Numbered::Node(_, _, _) => &[],
        Numbered::Text(_) => &[],
        Numbered::Number(_) => &[],
        Numbered::Flag(_) => &[],
        Numbered::Absent => &[],
    }
}

/// The items of the first part, if that is a list; none if it is not, or if there is no part.
pub fn first_items(parts: &[Numbered]) -> &[Numbered]
    ensures { pieces_of (map syntax result.now) ≡ spec.first_items (pieces_of (map syntax parts.now)) }
{
    match parts {
        [] => &[],
        [part, _parts @ ..] => items_of(part),
    }
}

/// True if there is a part.
pub(crate) fn has_some(parts: &[Numbered]) -> bool
    ensures { result ≡ spec.has_some (pieces_of (map syntax parts.now)) }
{
    match parts {
        [] => false,
        [_part, _parts @ ..] => true,
    }
}

/// The parts behind the first.
pub fn behind(parts: &[Numbered]) -> &[Numbered]
    ensures { pieces_of (map syntax result.now) ≡ spec.behind (pieces_of (map syntax parts.now)) }
{
    match parts {
        [] => parts,
        [_part, parts @ ..] => parts,
    }
}

//! The walk over a tree that tests every node.

ghost use Rattle.std.specs.Prelude.{◌≡◌, ℕ, Bool, map};
ghost use Rattle.rl_rules.specs.Walks.{passes, parts_pass, items_pass};
ghost use Rattle.rl_syntax.specs.Syntax.{Pieces, pieces_of, syntax};
ghost use Rattle.rl_syntax.specs.declared.word.Word as words;

use rl_syntax::numbered::Numbered;
use rl_syntax::word::Word;

/// A rule that tests each node in the context that the nodes above it make.
pub(crate) trait Rule {
    /// The context of a node: the facts on the nodes above it that the test asks for.
    type Above: Copy;

    /// The test of a node: by its context, its word and its parts.
    ghost test: { Self.Above → words.Word → Pieces → Bool };

    /// The context of the part at an index of a node, by the node's context and its word.
    ghost below: { Self.Above → words.Word → ℕ → Self.Above };

    /// True of a node that passes the test.
    fn test(above: Self::Above, word: Word, parts: &[Numbered]) -> bool
        ensures { result ≡ test above word (pieces_of (map syntax parts.now)) };

    /// The context of the part at the index `index` of a node.
    fn below(above: Self::Above, word: Word, index: usize) -> Self::Above
        ensures { result ≡ below above word index };
}

/// True if every node of the tree passes the test of the rule `R`. The items of a list have the context of the list.
#[cycle(walking)]
#[tactic(auto, using(rl_syntax::proofs::Layers::by_layer))]
pub(crate) fn passes<R: Rule>(above: R::Above, tree: &Numbered) -> bool
    ensures { result ≡ passes R.test R.below above (syntax tree.now) }
{
    match tree {
        Numbered::Node(_, word, parts) => {
            R::test(above, *word, parts.as_slice())
                && parts_pass::<R>(above, *word, parts.as_slice())
        }
        Numbered::List(items) => items_pass::<R>(above, items.as_slice()),
        Numbered::Text(_) => true,
        Numbered::Number(_) => true,
        Numbered::Flag(_) => true,
        Numbered::Absent => true,
    }
}

/// As `passes`, for the parts of a node of the word `word`.
#[cycle(walking)]
fn parts_pass<R: Rule>(above: R::Above, word: Word, parts: &[Numbered]) -> bool
    ensures { result ≡ parts_pass R.test R.below above word 0 (pieces_of (map syntax parts.now)) }
{
    'parts: for (index, part) in parts.iter().enumerate() {
        if !passes::<R>(R::below(above, word, index), part) {
            return false;
        }
    }
    true
}

/// As `passes`, for the items of a list.
#[cycle(walking)]
fn items_pass<R: Rule>(above: R::Above, items: &[Numbered]) -> bool
    ensures { result ≡ items_pass R.test R.below above (pieces_of (map syntax items.now)) }
{
    'items: for item in items {
        if !passes::<R>(above, item) {
            return false;
        }
    }
    true
}

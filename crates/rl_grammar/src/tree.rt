//! Trees by their sorts: the compiler tells an expression's tree from a statement's.

ghost use Rattle.std.specs.Prelude.{⊤, ◌≡◌, true, map, MatchOption};
ghost use Rattle.rl_grammar.specs.Grammar.{fits, every};
ghost use Rattle.rl_grammar.specs.Fields.{maybe};
ghost use Rattle.rl_syntax.specs.Syntax.{End, Then, pieces_of, syntax};
ghost use Rattle.rl_grammar.specs.declared.kind.Field.{Field};
ghost use Rattle.rl_grammar.specs.declared.kind.Field.TheVariants as field;
ghost use Rattle.rl_grammar.specs.declared.kind.Kind.{Kind};

use rl_syntax::numbered::Numbered;
use rl_syntax::parts::{is_absent, split_first};
use std::alloc::AllocError;
use std::marker::PhantomData;

/// A sort of trees: those of one kind of the grammar.
pub trait Sort {
    ghost kind: { Kind };
}

/// A tree of a sort.
pub struct Tree<'b, K: Sort> {
    /// The tree, of any form that the sort has.
    pub tree: &'b Numbered,
    sort: PhantomData<K>,
    ghost fit: { fits (field.One K.kind) (syntax tree.now) ≡ true },
}

impl<'b, K: Sort> Clone for Tree<'b, K> {
    ghost is_clone = { λ x y. y ≡ x };

    ghost is_infallible = { λ _. ⊤ };

    fn clone(&self) -> Result<Self, AllocError> {
        Ok(*self)
    }
}

impl<'b, K: Sort> Copy for Tree<'b, K> {}

impl<'b, K: Sort> Tree<'b, K> {
    /// The tree as one of the sort.
    pub fn new(tree: &'b Numbered) -> Self
        requires { fits (field.One K.kind) (syntax tree.now) ≡ true }
        ensures { syntax result.tree.now ≡ syntax tree.now }
    {
        Tree {
            tree,
            sort: PhantomData,
        }
    }

    /// The tree as one of the sort. `None` at `-`.
    #[tactic(auto, using(crate::proofs::Viewing::optional))]
    pub fn optional(tree: &'b Numbered) -> Option<Self>
        requires { fits (field.Maybe K.kind) (syntax tree.now) ≡ true }
        ensures { maybe result (λ t. syntax t.tree.now) ≡ syntax tree.now }
    {
        if is_absent(tree) {
            None
        } else {
            Some(Tree::new(tree))
        }
    }
}

/// Trees of a sort, as the items of a list.
pub struct Trees<'b, K: Sort> {
    /// The trees, in order.
    pub trees: &'b [Numbered],
    sort: PhantomData<K>,
    ghost fit: { every K.kind (pieces_of (map syntax trees.now)) ≡ true },
}

impl<'b, K: Sort> Clone for Trees<'b, K> {
    ghost is_clone = { λ x y. y ≡ x };

    ghost is_infallible = { λ _. ⊤ };

    fn clone(&self) -> Result<Self, AllocError> {
        Ok(*self)
    }
}

impl<'b, K: Sort> Copy for Trees<'b, K> {}

impl<'b, K: Sort> Trees<'b, K> {
    /// The items as ones of the sort.
    pub fn new(trees: &'b [Numbered]) -> Self
        requires { every K.kind (pieces_of (map syntax trees.now)) ≡ true }
        ensures { result.trees.now ≡ trees.now }
    {
        Trees {
            trees,
            sort: PhantomData,
        }
    }

    /// The first tree and the others. `None` if there is none.
    #[tactic(auto, using(crate::proofs::Viewing::items))]
    pub fn split_first(self) -> Option<(Tree<'b, K>, Trees<'b, K>)>
        ensures { MatchOption result (pieces_of (map syntax self.entry.trees.now) ≡ End) (λ p. pieces_of (map syntax self.entry.trees.now) ≡ Then (syntax p.0.tree.now) (pieces_of (map syntax p.1.trees.now))) }
    {
        let (first, rest) = split_first(self.trees)?;
        Some((Tree::new(first), Trees::new(rest)))
    }
}

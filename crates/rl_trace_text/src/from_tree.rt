//! Values that are read from trees.

ghost use Rattle.std.specs.Prelude.{ℕ, List, map, All, IfOk, IfSome, IfNone};
ghost use Rattle.rl_text.specs.Notation.{Tree, Node, Listed, Said, Count, Flag, Parts, End, Then};
ghost use Rattle.rl_text.specs.Raw.{tree, parts_of};
ghost use Rattle.rl_trace_text.specs.Reading.{IsShown, NoneIsShown, AreShown, NoneAreShown, Always, IsNarrow};

use crate::raws::{flag_in, items_in, number_in, parts_in, text_in};
use rl_base::error::OutOfMemory;
use rl_base::list::List;
use rl_base::text::Text;
use rl_text::raw::Raw;
use std::alloc::Global;

/// A value that is read from its tree.
pub trait FromTree: Drop {
    /// The tree of a value.
    ghost shown: { Self → Tree };

    /// The values that can be read: those whose numbers a field of their type holds.
    ghost fits: { Self → Type 0 };

    /// The value with this tree. `None` if it is the tree of none. On `OutOfMemory` an allocation failed.
    fn from_tree(alloc: Global, raw: &Raw) -> Result<Option<Self>, OutOfMemory>
        ensures found { IfOk result (λ r. IfSome r (IsShown shown fits (tree raw.now))) }
        ensures none { IfOk result (λ r. IfNone r (NoneIsShown shown fits (tree raw.now))) };
}

/// Values that are read from parts in a row.
pub trait FromRow: Drop {
    /// The trees of the values, in order.
    ghost trees: { Self → Parts };

    /// The values that can be read.
    ghost fits: { Self → Type 0 };

    /// The values with these parts. `None` if they are the parts of none. On `OutOfMemory` an allocation failed.
    fn from_row(alloc: Global, parts: &[Raw]) -> Result<Option<Self>, OutOfMemory>
        ensures found { IfOk result (λ r. IfSome r (AreShown trees fits (parts_of (map tree parts.now)))) }
        ensures none { IfOk result (λ r. IfNone r (NoneAreShown trees fits (parts_of (map tree parts.now)))) };
}

impl FromRow for () {
    ghost trees = { λ _. End };

    ghost fits = { Always };

    #[tactic(auto, using(crate::proofs::Nodes::row_forms))]
    fn from_row(_alloc: Global, parts: &[Raw]) -> Result<Option<()>, OutOfMemory> {
        if !parts.is_empty() {
            return Ok(None);
        }
        Ok(Some(()))
    }
}

impl<A: FromTree, P: FromRow> FromRow for (A, P) {
    ghost trees = { λ p. Then (A.shown p.0) (P.trees p.1) };

    ghost fits = { λ p. A.fits p.0 × P.fits p.1 };

    #[tactic(auto, using(crate::proofs::Nodes::row_forms))]
    fn from_row(alloc: Global, parts: &[Raw]) -> Result<Option<(A, P)>, OutOfMemory> {
        let Some((first, rest)) = parts.split_first() else {
            return Ok(None);
        };
        let Some(value) = A::from_tree(alloc, first)? else {
            return Ok(None);
        };
        let Some(values) = P::from_row(alloc, rest)? else {
            return Ok(None);
        };
        Ok(Some((value, values)))
    }
}

/// The values whose trees are the parts of a node with the word. `None` if the tree is no such node. On `OutOfMemory` an allocation
/// failed.
#[tactic(auto, using(crate::proofs::Nodes::node_forms))]
pub fn from_node<P: FromRow>(alloc: Global, raw: &Raw, word: &str) -> Result<Option<P>, OutOfMemory>
    ensures found { IfOk result (λ r. IfSome r (IsShown (λ p. Node word.now (P.trees p)) P.fits (tree raw.now))) }
    ensures none { IfOk result (λ r. IfNone r (NoneIsShown (λ p. Node word.now (P.trees p)) P.fits (tree raw.now))) }
{
    let Some(parts) = parts_in(raw, word) else {
        return Ok(None);
    };
    P::from_row(alloc, parts)
}

impl FromTree for bool {
    ghost shown = { Flag };

    ghost fits = { Always };

    fn from_tree(_alloc: Global, raw: &Raw) -> Result<Option<bool>, OutOfMemory> {
        Ok(flag_in(raw))
    }
}

impl FromTree for u64 {
    ghost shown = { Count };

    ghost fits = { Always };

    fn from_tree(_alloc: Global, raw: &Raw) -> Result<Option<u64>, OutOfMemory> {
        Ok(number_in(raw))
    }
}

impl FromTree for u32 {
    ghost shown = { Count };

    ghost fits = { IsNarrow };

    #[tactic(auto, using(crate::proofs::Nodes::not_narrow))]
    fn from_tree(_alloc: Global, raw: &Raw) -> Result<Option<u32>, OutOfMemory> {
        let Some(number) = number_in(raw) else {
            return Ok(None);
        };
        if number > 4294967295 {
            return Ok(None);
        }
        Ok(Some(number as u32))
    }
}

impl FromTree for Text {
    ghost shown = { Said };

    ghost fits = { Always };

    fn from_tree(alloc: Global, raw: &Raw) -> Result<Option<Text>, OutOfMemory> {
        let Some(text) = text_in(raw) else {
            return Ok(None);
        };
        let copy = text.copy(alloc)?;
        Ok(Some(copy))
    }
}

/// The values of trees in a row. `None` if one is the tree of none.
fn from_items<T: FromTree>(alloc: Global, items: &[Raw]) -> Result<Option<List<T>>, OutOfMemory>
    ensures found { IfOk result (λ r. IfSome r (AreShown (λ l. parts_of (map T.shown l)) (All T.fits) (parts_of (map tree items.now)))) }
    ensures none { IfOk result (λ r. IfNone r (NoneAreShown (λ l. parts_of (map T.shown l)) (All T.fits) (parts_of (map tree items.now)))) }
{
    let mut values = List::new(alloc);
    'items: for item in items {
        let Some(value) = T::from_tree(alloc, item)? else {
            return Ok(None);
        };
        values.push(value)?;
    }
    Ok(Some(values))
}

impl<T: FromTree> FromTree for List<T> {
    ghost shown = { λ items. Listed (parts_of (map T.shown items)) };

    ghost fits = { All T.fits };

    #[tactic(auto, using(crate::proofs::Nodes::list_forms))]
    fn from_tree(alloc: Global, raw: &Raw) -> Result<Option<List<T>>, OutOfMemory> {
        let Some(items) = items_in(raw) else {
            return Ok(None);
        };
        from_items(alloc, items)
    }
}

//! Copies of the maps and sets that the builder of an inner function takes over from the builder around it.

ghost use Rattle.std.specs.Prelude.{◌≡◌, IfOk};

use indexmap::IndexMap;
use rl_base::error::OutOfMemory;
use rl_base::ids::SymbolId;
use rl_base::span::Span;
use std::collections::BTreeSet;

/// A copy of captures (`HirBuilder::context`), with the symbols in their order, in memory of its own. On `OutOfMemory` an
/// allocation failed.
#[tactic(auto, using(crate::proofs::Clones::spans_cloned))]
pub fn copy_context(
    context: &IndexMap<SymbolId, Span>,
) -> Result<IndexMap<SymbolId, Span>, OutOfMemory>
    ensures { IfOk result (λ copy. copy.entries ≡ context.now.entries) }
{
    Ok(context.clone()?)
}

/// A copy of a set of symbols (`HirBuilder::context_identifiers`), in memory of its own. On `OutOfMemory` an allocation failed.
#[tactic(auto, using(crate::proofs::Clones::symbols_cloned))]
pub fn copy_symbols(symbols: &BTreeSet<SymbolId>) -> Result<BTreeSet<SymbolId>, OutOfMemory>
    ensures { IfOk result (λ copy. copy.keys ≡ symbols.now.keys) }
{
    Ok(symbols.clone()?)
}

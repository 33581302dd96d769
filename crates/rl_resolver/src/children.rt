//! The symbols of a scope and of the blocks right inside it.

ghost use Rattle.std.specs.Prelude.{◌≡◌, ◌++◌, length, IfOk, OnOk};
ghost use Rattle.rl_semantic.specs.Buckets.{AreBuckets};
ghost use Rattle.rl_resolver.specs.Children as spec;
ghost use Rattle.rl_resolver.specs.Listed.{bound_from};

use rl_base::error::OutOfMemory;
use rl_base::ids::SymbolId;
use rl_base::list::List;
use rl_bindings::event::{ScopeEntry, ScopeKind};
use rl_bindings::symbol_table::SymbolTable;
use rl_semantic::buckets::bucket;
use std::alloc::Global;

/// True of the scope of a block.
fn is_block(kind: ScopeKind) -> bool
    ensures { result ≡ spec.is_block kind }
{
    match kind {
        ScopeKind::Block => true,
        _ => false,
    }
}

/// True of a block that stands right inside a scope.
fn is_child_block(scope: usize, entry: ScopeEntry) -> bool
    ensures { result ≡ spec.is_child_block scope entry }
{
    if !is_block(entry.kind) {
        return false;
    }
    match entry.parent {
        Some(parent) => parent.0 as usize == scope,
        None => false,
    }
}

/// Appends symbols. On `OutOfMemory`, an allocation failed.
fn append(found: &mut List<SymbolId>, symbols: &[SymbolId]) -> Result<(), OutOfMemory>
    ensures { OnOk result (found.new ≡ found.old ++ symbols.now) }
{
    for symbol in symbols {
        found.push(*symbol)?;
    }
    Ok(())
}

/// Appends the symbols of a scope, if it is a block right inside `scope`. On `OutOfMemory`, an allocation failed.
fn append_child(
    found: &mut List<SymbolId>,
    scopes: &[ScopeEntry],
    symbols: &SymbolTable,
    bindings: &List<List<SymbolId>>,
    scope: usize,
    number: usize,
    entry: ScopeEntry,
) -> Result<(), OutOfMemory>
    requires { AreBuckets bindings.now (length scopes.now) (bound_from symbols.now 0 symbols.now) }
    ensures { OnOk result (found.new ≡ found.old ++ spec.child_bindings scopes.now symbols.now scope number entry) }
{
    if is_child_block(scope, entry) {
        append(found, bucket(bindings, number))?;
    }
    Ok(())
}

/// The symbols of a scope, and behind them those of each block right inside it, in the order of the scopes' numbers. On
/// `OutOfMemory`, an allocation failed.
pub(crate) fn bindings_with_child_blocks(
    alloc: Global,
    scopes: &[ScopeEntry],
    symbols: &SymbolTable,
    bindings: &List<List<SymbolId>>,
    scope: usize,
) -> Result<List<SymbolId>, OutOfMemory>
    requires { AreBuckets bindings.now (length scopes.now) (bound_from symbols.now 0 symbols.now) }
    ensures { IfOk result (λ found. found ≡ spec.bindings_with_child_blocks scopes.now symbols.now scope) }
{
    let mut found = List::new(alloc);
    append(&mut found, bucket(bindings, scope))?;
    let mut number = 0;
    for entry in scopes {
        append_child(&mut found, scopes, symbols, bindings, scope, number, *entry)?;
        number += 1;
    }
    Ok(found)
}

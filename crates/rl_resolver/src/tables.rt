//! Tables by number: the references of each symbol, the symbols of each scope, the symbol of each first declaration, and the first
//! reference of each name that resolves to none.

ghost use Rattle.std.specs.Prelude.{◌≡◌, ◌++◌, ◌∷◌, [], if◌then◌else◌, map, IfOk, OnOk};
ghost use Rattle.rl_semantic.specs.Buckets.{AreBuckets, AreFirsts};
ghost use Rattle.rl_resolver.specs.Listed as spec;
ghost use Rattle.rl_resolver.specs.Lookups.{is_number};

use crate::kinds::has_identifier;
use crate::lookups::symbol_id;
use rl_base::error::OutOfMemory;
use rl_base::ids::{NodeId, ReferenceId, ScopeId, SymbolId};
use rl_base::list::List;
use rl_bindings::event::Bound;
use rl_bindings::resolve::{Declaration, Reference};
use rl_bindings::symbol_table::SymbolTable;
use rl_semantic::buckets::{buckets, firsts};
use std::alloc::Global;

/// Appends a reference with its id, at the symbol that it resolves to; nothing for a global. On `OutOfMemory`, an allocation
/// failed.
fn push_resolved(
    pairs: &mut List<(usize, ReferenceId)>,
    number: u32,
    reference: Reference,
) -> Result<(), OutOfMemory>
    ensures { OnOk result (pairs.new ≡ pairs.old ++ spec.resolved_pair number reference) }
{
    match reference.symbol {
        Some(symbol) => {
            pairs.push((symbol, ReferenceId(number)))?;
            Ok(())
        }
        None => Ok(()),
    }
}

/// The references that resolve, each at its symbol. On `OutOfMemory`, an allocation failed, or there are more references than
/// ids, which no unit has.
fn resolved(
    alloc: Global,
    references: &[Reference],
) -> Result<List<(usize, ReferenceId)>, OutOfMemory>
    ensures { IfOk result (λ pairs. pairs ≡ spec.resolved_from 0 references.now) }
{
    let mut pairs = List::new(alloc);
    let mut number = 0;
    for reference in references {
        if number == 4_294_967_295 {
            return Err(OutOfMemory);
        }
        push_resolved(&mut pairs, number, *reference)?;
        number += 1;
    }
    Ok(pairs)
}

/// The references of each of `count` symbols. On `OutOfMemory`, an allocation failed, or there are more references than ids,
/// which no unit has.
pub(crate) fn references_by_symbol(
    alloc: Global,
    count: usize,
    references: &[Reference],
) -> Result<List<List<ReferenceId>>, OutOfMemory>
    ensures { IfOk result (λ table. AreBuckets table count (spec.resolved_from 0 references.now)) }
{
    let pairs = resolved(alloc, references)?;
    let table = buckets(alloc, count, pairs.as_slice())?;
    Ok(table)
}

/// Appends a symbol at its scope, if `found` is its number: the symbol that the scope binds its name to. On `OutOfMemory`, an
/// allocation failed.
fn push_found(
    pairs: &mut List<(usize, SymbolId)>,
    found: Option<usize>,
    number: u32,
    scope: ScopeId,
) -> Result<(), OutOfMemory>
    ensures { OnOk result (pairs.new ≡ pairs.old ++ (if is_number number found then (scope.0, record { 0 = number }) ∷ [] else [])) }
{
    match found {
        Some(found) => {
            if found == number as usize {
                pairs.push((scope.0 as usize, SymbolId(number)))?;
            }
            Ok(())
        }
        None => Ok(()),
    }
}

/// The symbols that scopes bind names to, each at its scope: all but the own names that another name of the scope shadows. On
/// `OutOfMemory`, an allocation failed, or there are more symbols than ids, which no unit has.
fn bound(alloc: Global, symbols: &SymbolTable) -> Result<List<(usize, SymbolId)>, OutOfMemory>
    ensures { IfOk result (λ pairs. pairs ≡ spec.bound_from symbols.now 0 symbols.now) }
{
    let mut pairs = List::with_capacity(alloc, symbols.as_slice().len())?;
    let mut number = 0;
    for symbol in symbols.as_slice() {
        if number == 4_294_967_295 {
            return Err(OutOfMemory);
        }
        let found = symbols.binding_of(number as usize, symbol);
        push_found(&mut pairs, found, number, symbol.scope)?;
        number += 1;
    }
    Ok(pairs)
}

/// The symbols of each of `count` scopes. On `OutOfMemory`, an allocation failed, or there are more symbols than ids, which no
/// unit has.
pub(crate) fn symbols_by_scope(
    alloc: Global,
    count: usize,
    symbols: &SymbolTable,
) -> Result<List<List<SymbolId>>, OutOfMemory>
    ensures { IfOk result (λ table. AreBuckets table count (spec.bound_from symbols.now 0 symbols.now)) }
{
    let pairs = bound(alloc, symbols)?;
    let table = buckets(alloc, count, pairs.as_slice())?;
    Ok(table)
}

/// Appends a symbol at the node of its first declaration; nothing for an interface. On `OutOfMemory`, an allocation failed.
fn push_declared(
    pairs: &mut List<(usize, SymbolId)>,
    number: u32,
    bound: Bound,
) -> Result<(), OutOfMemory>
    ensures { OnOk result (pairs.new ≡ pairs.old ++ spec.declared_pair number bound) }
{
    if has_identifier(bound.kind) {
        pairs.push((bound.node.0 as usize, SymbolId(number)))?;
    }
    Ok(())
}

/// The symbols, interfaces aside, each at the node of its first declaration. On `OutOfMemory`, an allocation failed, or there are
/// more symbols than ids, which no unit has.
fn declared(alloc: Global, symbols: &[Bound]) -> Result<List<(usize, SymbolId)>, OutOfMemory>
    ensures { IfOk result (λ pairs. pairs ≡ spec.declared_from 0 symbols.now) }
{
    let mut pairs = List::with_capacity(alloc, symbols.len())?;
    let mut number = 0;
    for symbol in symbols {
        if number == 4_294_967_295 {
            return Err(OutOfMemory);
        }
        push_declared(&mut pairs, number, *symbol)?;
        number += 1;
    }
    Ok(pairs)
}

/// The symbol that each of `count` nodes declares first. On `OutOfMemory`, an allocation failed, or there are more symbols than
/// ids, which no unit has.
pub(crate) fn symbols_by_node(
    alloc: Global,
    count: usize,
    symbols: &[Bound],
) -> Result<List<Option<SymbolId>>, OutOfMemory>
    ensures { IfOk result (λ table. AreFirsts table count (spec.declared_from 0 symbols.now)) }
{
    let pairs = declared(alloc, symbols)?;
    let table = firsts(alloc, count, pairs.as_slice())?;
    Ok(table)
}

/// Appends the node of a reference, at the number of its name; nothing for one that resolves. On `OutOfMemory`, an allocation
/// failed.
fn push_unresolved(
    pairs: &mut List<(usize, NodeId)>,
    reference: Reference,
) -> Result<(), OutOfMemory>
    ensures { OnOk result (pairs.new ≡ pairs.old ++ spec.unresolved_pair reference) }
{
    match reference.symbol {
        Some(_) => Ok(()),
        None => {
            pairs.push((reference.name as usize, reference.node))?;
            Ok(())
        }
    }
}

/// The nodes of the references that resolve to no symbol, each at the number of its name. On `OutOfMemory`, an allocation failed.
fn unresolved(alloc: Global, references: &[Reference]) -> Result<List<(usize, NodeId)>, OutOfMemory>
    ensures { IfOk result (λ pairs. pairs ≡ spec.unresolved_in references.now) }
{
    let mut pairs = List::new(alloc);
    for reference in references {
        push_unresolved(&mut pairs, *reference)?;
    }
    Ok(pairs)
}

/// The node of the first reference of each of `count` names that resolves to no symbol. On `OutOfMemory`, an allocation failed.
pub(crate) fn unresolved_by_name(
    alloc: Global,
    count: usize,
    references: &[Reference],
) -> Result<List<Option<NodeId>>, OutOfMemory>
    ensures { IfOk result (λ table. AreFirsts table count (spec.unresolved_in references.now)) }
{
    let pairs = unresolved(alloc, references)?;
    let table = firsts(alloc, count, pairs.as_slice())?;
    Ok(table)
}

/// The declarations, each at its node, with the symbol that it declares. On `OutOfMemory`, an allocation failed.
fn declaring(
    alloc: Global,
    declarations: &[Declaration],
) -> Result<List<(usize, Option<SymbolId>)>, OutOfMemory>
    ensures { IfOk result (λ pairs. pairs ≡ map spec.declaration_pair declarations.now) }
{
    let mut pairs = List::with_capacity(alloc, declarations.len())?;
    for declaration in declarations {
        pairs.push((declaration.node.0 as usize, symbol_id(declaration.symbol)))?;
    }
    Ok(pairs)
}

/// The symbol that each of `count` nodes declares, be the node the first to declare it or a later one. On `OutOfMemory`, an
/// allocation failed.
pub(crate) fn declarations_by_node(
    alloc: Global,
    count: usize,
    declarations: &[Declaration],
) -> Result<List<Option<Option<SymbolId>>>, OutOfMemory>
    ensures { IfOk result (λ table. AreFirsts table count (map spec.declaration_pair declarations.now)) }
{
    let pairs = declaring(alloc, declarations)?;
    let table = firsts(alloc, count, pairs.as_slice())?;
    Ok(table)
}

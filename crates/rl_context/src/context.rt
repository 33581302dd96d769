//! Context identifiers: the variables that the function to lower shares with its inner functions.

ghost use Rattle.std.specs.Prelude.{◌≡◌, ◌&&◌, ◌||◌, nat_eq, Some, None, IfOk, IfErr, OnOk};
ghost use Rattle.std.specs.List.{list_any};
ghost use Rattle.rl_ast.specs.FunctionNodes.{seen_function_node};
ghost use Rattle.rl_base.specs.declared.diagnostic.Diagnostic.{Diagnostic};
ghost use Rattle.rl_base.specs.declared.ids.SymbolId.{SymbolId};
ghost use Rattle.rl_context.specs.Context as spec;
ghost use Rattle.rl_context.specs.Sites.{sites_in};
ghost use Rattle.rl_context.specs.Wrapped.{stop_among};

use crate::index::IdentifierLocIndex;
use crate::site::{NodeRange, Site};
use crate::wrapped::{first_wrapped, wrapper_name};
use rl_ast::function_node::FunctionNode;
use rl_base::diagnostic::Diagnostic;
use rl_base::error::OutOfMemory;
use rl_base::ids::{NodeId, SymbolId};
use rl_base::row::Row;
use rl_base::stop::Stop;
use rl_resolver::resolver::ScopeResolver;
use std::alloc::Global;
use std::collections::BTreeSet;

/// The node that makes the scope of a symbol. The unit's node for a scope that the unit does not have.
fn scope_node(scope: &ScopeResolver<'_>, symbol: SymbolId) -> NodeId
    ensures { result ≡ spec.scope_node scope.now.semantic.now.bindings symbol.0 }
{
    let number = scope.symbol_scope(symbol).0 as usize;
    match scope.semantic.bindings.scopes.get(number) {
        Some(entry) => entry.node,
        None => NodeId(0),
    }
}

/// True of a node in the range.
fn holds(range: NodeRange, node: NodeId) -> bool
    ensures { result ≡ spec.holds range node }
{
    range.start.0 <= node.0 && node.0 < range.end.0
}

/// True in an inner function that does not declare the symbol, by the innermost function.
fn is_outside(scope: &ScopeResolver<'_>, innermost: Option<NodeRange>, symbol: SymbolId) -> bool
    ensures { result ≡ spec.is_outside scope.now.semantic.now.bindings innermost symbol }
{
    match innermost {
        Some(range) => !holds(range, scope_node(scope, symbol)),
        None => false,
    }
}

/// The symbol that a site assigns. `None` at a site that assigns none.
fn assigned_at(scope: &ScopeResolver<'_>, site: &Site) -> Option<SymbolId>
    ensures { result ≡ spec.assigned_at scope.now.semantic.now.bindings site.now }
{
    match site {
        Site::Reference(found) => {
            if found.assigned {
                scope.symbol_of_reference(found.reference)
            } else {
                None
            }
        }
        Site::Declaration(_) => None,
        Site::Wrapped(_) => None,
    }
}

/// The symbol that a site names in an inner function that does not declare it. `None` at any other site.
fn captured_at(scope: &ScopeResolver<'_>, site: &Site) -> Option<SymbolId>
    ensures { result ≡ spec.captured_at scope.now.semantic.now.bindings site.now }
{
    match site {
        Site::Reference(found) => {
            if found.function.is_none() {
                return None;
            }
            let symbol = scope.symbol_of_reference(found.reference)?;
            if is_outside(scope, found.function, symbol) {
                Some(symbol)
            } else {
                None
            }
        }
        Site::Declaration(_) => None,
        Site::Wrapped(_) => None,
    }
}

/// Adds a symbol. On `OutOfMemory`, an allocation failed.
fn add(symbols: &mut BTreeSet<SymbolId>, symbol: SymbolId) -> Result<(), OutOfMemory>
    ensures { OnOk result ((other : SymbolId) → spec.has symbols.new other ≡ (spec.has symbols.old other || nat_eq symbol.0 other.0)) }
{
    symbols.insert(symbol)?;
    Ok(())
}

/// The symbols that sites assign. On `OutOfMemory`, an allocation failed.
fn assigned(
    alloc: Global,
    scope: &ScopeResolver<'_>,
    sites: &[Site],
) -> Result<BTreeSet<SymbolId>, OutOfMemory>
    ensures { IfOk result (λ found. (symbol : SymbolId) → spec.has found symbol ≡ list_any (spec.assigns scope.now.semantic.now.bindings symbol.0) sites.now) }
{
    let mut found = BTreeSet::new(alloc);
    for site in sites {
        if let Some(symbol) = assigned_at(scope, site) {
            add(&mut found, symbol)?;
        }
    }
    Ok(found)
}

/// Those of `symbols` that sites name in inner functions that do not declare them. On `OutOfMemory`, an allocation failed.
fn captured(
    alloc: Global,
    scope: &ScopeResolver<'_>,
    symbols: &BTreeSet<SymbolId>,
    sites: &[Site],
) -> Result<BTreeSet<SymbolId>, OutOfMemory>
    ensures { IfOk result (λ found. (symbol : SymbolId) → spec.has found symbol ≡ (spec.has symbols.now symbol && list_any (spec.captures scope.now.semantic.now.bindings symbol.0) sites.now)) }
{
    let mut found = BTreeSet::new(alloc);
    for site in sites {
        if let Some(symbol) = captured_at(scope, site) {
            if symbols.contains(&symbol) {
                add(&mut found, symbol)?;
            }
        }
    }
    Ok(found)
}

/// Context identifiers of the function to lower: `find_context_identifiers` of the original. `index` is the index of `func`.
///
/// A variable is one if an inner function assigns it, or if something in the function assigns it and an inner function names
/// it. Assignments are `assign` and `update` expressions, with each name that a pattern assigns; the left side of a `for`-`in`
/// or `for`-`of` loop is none. Inner functions are those inside the function; one that declares the variable itself does not
/// count. A method, a getter or a setter of an object counts as its function from its key on. What stands in classes is left
/// out.
///
/// On `Diagnostic`, the row S3 applies: the target of an `assign` holds a wrapped target. Its label is the first of these in the
/// first such `assign`. On `OutOfMemory`, an allocation failed. It takes time that is linear in the sites of the function, up to
/// the logarithms of the look-ups.
pub fn find_context_identifiers(
    alloc: Global,
    func: &FunctionNode<'_>,
    scope: &ScopeResolver<'_>,
    index: &IdentifierLocIndex,
) -> Result<BTreeSet<SymbolId>, Stop>
    requires { index.now ≡ sites_in (seen_function_node func.now) }
    ensures found { IfOk result (λ found. (symbol : SymbolId) → spec.has found symbol ≡ spec.is_context scope.now.semantic.now.bindings (sites_in (seen_function_node func.now)) symbol.0) }
    ensures unwrapped { IfOk result (λ found. stop_among (sites_in (seen_function_node func.now)) ≡ None) }
    ensures stopped { IfErr result (λ e. (diagnostic : Diagnostic) → e ≡ Stop.Diagnostic diagnostic → stop_among (sites_in (seen_function_node func.now)) ≡ Some diagnostic) }
{
    let sites = index.sites();
    if let Some(wrapped) = first_wrapped(sites) {
        let name = wrapper_name(wrapped.wrapper);
        let diagnostic = Diagnostic::at(alloc, Row::S3, name, wrapped.span)?;
        return Err(Stop::Diagnostic(diagnostic));
    }
    let assigned = assigned(alloc, scope, sites)?;
    let found = captured(alloc, scope, &assigned, sites)?;
    Ok(found)
}

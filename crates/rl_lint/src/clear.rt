//! Units in which L1 and L4 find nothing, as their tables tell: most units, and no walk over their trees is needed. Where a name is used
//! before its `var`, a walk comes to the declarations of such kinds alone.

ghost use Rattle.std.specs.Prelude.{◌≡◌, true, IfOk};
ghost use Rattle.rl_lint.specs.Clear as spec;
ghost use Rattle.rl_lint.specs.Tables.{tables};
ghost use Rattle.rl_syntax.specs.Syntax.{syntax};

use crate::late::has_late;
use crate::names::{name_text, symbol_at, used};
use crate::role::Place;
use crate::taken::taken_by;
use rl_ast::unit::Unit;
use rl_base::error::OutOfMemory;
use rl_base::ids::{NodeId, ScopeId};
use rl_bindings::bindings::Bindings;
use rl_bindings::resolve::Declaration;
use rl_lint_hints::checks::{is_behind_last, is_hinted, is_known, is_on_path};
use rl_lint_hints::hints::{Hints, named_scope, paths_of};
use rl_syntax::nodes::NodeEntry;
use rl_syntax::numbered::{At, is_reference};
use std::alloc::Global;

/// True of a symbol whose name, declared by a function that makes a scope, is that of no other symbol around, nor its stem.
fn is_clear_name(bindings: &Bindings, own: usize, scope: ScopeId) -> bool
    ensures { result ≡ spec.is_clear_name (tables bindings.now) own scope }
{
    match symbol_at(bindings, own) {
        Some(first) => taken_by(bindings, own, scope, name_text(bindings, first.name)).is_none(),
        None => true,
    }
}

/// True of a declaration of a symbol that L4 finds nothing at, or that the hints know.
fn is_clear_bind(
    nodes: &[NodeEntry],
    hints: &Hints,
    bindings: &Bindings,
    node: NodeId,
    symbol: usize,
) -> bool
    ensures { result ≡ spec.is_clear_bind nodes.now hints.now (tables bindings.now) node.0 symbol }
{
    match named_scope(nodes, node) {
        Some(scope) => is_clear_name(bindings, symbol, scope),
        None => is_hinted(hints, node, symbol),
    }
}

/// True of a declaration that L4 finds nothing at, or that the hints know.
fn is_clear_declaration(
    nodes: &[NodeEntry],
    hints: &Hints,
    bindings: &Bindings,
    declaration: &Declaration,
) -> bool
    ensures { result ≡ spec.is_clear_declaration nodes.now hints.now (tables bindings.now) declaration.now }
{
    match declaration.symbol {
        Some(symbol) => is_clear_bind(nodes, hints, bindings, declaration.node, symbol),
        None => true,
    }
}

/// True of declarations that are all clear.
fn are_clear_declarations(nodes: &[NodeEntry], hints: &Hints, bindings: &Bindings) -> bool
    ensures { result ≡ spec.are_clear_declarations nodes.now hints.now (tables bindings.now) bindings.now.declarations }
{
    'declarations: for declaration in bindings.declarations.as_slice() {
        if !is_clear_declaration(nodes, hints, bindings, declaration) {
            return false;
        }
    }
    true
}

/// True of a use that L1 finds nothing at.
fn is_clear_use(hints: &Hints, bindings: &Bindings, at: &At) -> bool
    ensures { result ≡ spec.is_clear_use hints.now (tables bindings.now) at.now }
{
    match used(bindings, at.reference) {
        Some(symbol) => is_behind_last(hints, at.id, symbol),
        None => true,
    }
}

/// True of a node that the hints know, and that is no use or one that L1 finds nothing at.
fn is_clear_node(hints: &Hints, bindings: &Bindings, node: &NodeEntry) -> bool
    ensures { result ≡ spec.is_clear_node hints.now (tables bindings.now) node.now }
{
    is_known(hints, node) && (!is_reference(node.word) || is_clear_use(hints, bindings, &node.at))
}

/// True of nodes that are all clear, each with its index as its id.
fn are_clear_nodes(nodes: &[NodeEntry], hints: &Hints, bindings: &Bindings) -> bool
    ensures { result ≡ spec.are_clear_from hints.now (tables bindings.now) 0 nodes.now }
{
    'nodes: for (index, node) in nodes.iter().enumerate() {
        if node.at.id.0 as usize != index {
            return false;
        }
        if !is_clear_node(hints, bindings, node) {
            return false;
        }
    }
    true
}

/// True of a unit in which L1 and L4 find nothing, as its tables tell with these hints, and its tree where nodes are on paths.
fn is_clear_by(unit: &Unit, bindings: &Bindings, hints: &Hints) -> bool
    ensures { result ≡ true → spec.FindsNone (tables bindings.now) (syntax unit.now.tree) }
{
    let nodes = unit.nodes.as_slice();
    if are_clear_declarations(nodes, hints, bindings) {
        if are_clear_nodes(nodes, hints, bindings) {
            return !has_late(hints.paths.as_slice(), Place::Elsewhere, &unit.tree);
        }
    }
    false
}

/// True of a unit in which L1 and L4 find nothing, as its tables tell with hints that were made for it. Where a name is used before its
/// `var`, declarations of such kinds get paths, and a walk along these tells that they are not late. False where there may be findings, or
/// none. On `OutOfMemory`, an allocation failed.
pub(crate) fn is_clear(
    alloc: Global,
    unit: &Unit,
    bindings: &Bindings,
    hints: &mut Hints,
) -> Result<bool, OutOfMemory>
    ensures { IfOk result (λ clear. clear ≡ true → spec.FindsNone (tables bindings.now) (syntax unit.now.tree)) }
{
    if is_clear_by(unit, bindings, hints) {
        return Ok(true);
    }
    hints.paths = paths_of(alloc, unit.nodes.as_slice(), bindings)?;
    if is_on_path(hints.paths.as_slice(), NodeId(0)) {
        return Ok(is_clear_by(unit, bindings, hints));
    }
    Ok(false)
}

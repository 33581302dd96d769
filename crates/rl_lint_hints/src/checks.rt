//! The tests of hints.

ghost use Rattle.std.specs.Prelude.{◌≡◌};
ghost use Rattle.rl_lint_hints.specs.Hints as spec;

use crate::hints::{Hints, LastBind, function_at, function_inside};
use rl_base::ids::NodeId;
use rl_syntax::nodes::NodeEntry;

/// True of a node on a path.
pub fn is_on_path(paths: &[bool], node: NodeId) -> bool
    ensures { result ≡ spec.is_on_path paths.now node.0 }
{
    match paths.get(node.0 as usize) {
        Some(on) => *on,
        None => false,
    }
}

/// True of a declaration that is not behind the last one of its symbol, nor in another function, if that one is on no path.
fn is_up_to(hints: &Hints, node: NodeId, last: &LastBind) -> bool
    ensures { result ≡ spec.is_up_to hints.now node.0 last.now }
{
    node.0 <= last.node.0
        && !is_on_path(hints.paths.as_slice(), last.node)
        && function_at(hints.functions.as_slice(), node).0 == last.function.0
}

/// True of a declaration of a symbol that is not behind the last one that the hints know, if there is one.
fn is_up_to_last(hints: &Hints, node: NodeId, symbol: usize) -> bool
    ensures { result ≡ spec.is_up_to_last hints.now node.0 symbol }
{
    match hints.lasts.get(symbol) {
        Some(last) => is_up_to(hints, node, last),
        None => true,
    }
}

/// True of a declaration of a symbol that is on a path, or that the hints know.
pub fn is_hinted(hints: &Hints, node: NodeId, symbol: usize) -> bool
    ensures { result ≡ spec.is_hinted hints.now node.0 symbol }
{
    is_on_path(hints.paths.as_slice(), node) || is_up_to_last(hints, node, symbol)
}

/// True of a use before the last declaration of its symbol, in the same function, if that one is on no path.
fn is_before(hints: &Hints, node: NodeId, last: &LastBind) -> bool
    ensures { result ≡ spec.is_before hints.now node.0 last.now }
{
    node.0 < last.node.0
        && !is_on_path(hints.paths.as_slice(), last.node)
        && function_at(hints.functions.as_slice(), node).0 == last.function.0
}

/// True of a use of a symbol that stands behind all declarations in its function, as far as the hints know them.
pub fn is_behind_last(hints: &Hints, node: NodeId, symbol: usize) -> bool
    ensures { result ≡ spec.is_behind_last hints.now node.0 symbol }
{
    match hints.lasts.get(symbol) {
        Some(last) => !is_before(hints, node, last),
        None => false,
    }
}

/// True of a node whose parent, if it has one, has a smaller id.
fn is_inside(parent: Option<NodeId>, node: NodeId) -> bool
    ensures { result ≡ spec.is_inside parent node.0 }
{
    match parent {
        Some(parent) => parent.0 < node.0,
        None => true,
    }
}

/// True if the node around a node is on a path, or there is none around it.
fn is_path_around(paths: &[bool], parent: Option<NodeId>) -> bool
    ensures { result ≡ spec.is_path_around paths.now parent }
{
    match parent {
        Some(parent) => is_on_path(paths, parent),
        None => true,
    }
}

/// True of a node that is on no path, or to which the path comes from the node around it.
fn is_closed(paths: &[bool], node: &NodeEntry) -> bool
    ensures { result ≡ spec.is_closed paths.now node.now }
{
    !is_on_path(paths, node.at.id) || is_path_around(paths, node.parent)
}

/// True of a node for which the hints have the right function, and which is on no path, or on one from the node around it.
pub fn is_known(hints: &Hints, node: &NodeEntry) -> bool
    ensures { result ≡ spec.is_known hints.now node.now }
{
    let functions = hints.functions.as_slice();
    is_inside(node.parent, node.at.id)
        && function_at(functions, node.at.id).0 == function_inside(functions, node).0
        && is_closed(hints.paths.as_slice(), node)
}

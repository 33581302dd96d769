//! The functions of a unit: their scopes, the properties of objects that they make, and the ranges of text that they take.

ghost use Rattle.std.specs.Prelude.{◌≡◌, ◌++◌, slice_get, IfOk, OnOk};
ghost use Rattle.std.specs.Option.{option_copied};
ghost use Rattle.rl_semantic.specs.Functions as spec;

use rl_base::error::OutOfMemory;
use rl_base::ids::{NodeId, ScopeId};
use rl_base::list::List;
use rl_bindings::event::{ScopeEntry, ScopeKind};
use rl_syntax::nodes::NodeEntry;
use rl_syntax::word::Word;
use std::alloc::Global;

/// True of the scope of a function.
fn is_function(kind: ScopeKind) -> bool
    ensures { result ≡ spec.is_function kind }
{
    match kind {
        ScopeKind::Function => true,
        _ => false,
    }
}

/// True of the words of methods, getters and setters.
fn is_accessor(word: Word) -> bool
    ensures { result ≡ spec.is_accessor word }
{
    match word {
        Word::Method => true,
        Word::Get => true,
        Word::Set => true,
        _ => false,
    }
}

/// True of the word of objects.
fn is_object(word: Word) -> bool
    ensures { result ≡ spec.is_object word }
{
    match word {
        Word::Object => true,
        _ => false,
    }
}

/// True of the word of function expressions.
#[inline(always)]
pub fn is_function_expression(word: Word) -> bool
    ensures { result ≡ spec.is_function_expression word }
{
    match word {
        Word::Funexpr => true,
        _ => false,
    }
}

/// The entry of a node. `None` of no node, and past the end of the table.
pub fn entry_at(nodes: &[NodeEntry], node: Option<NodeId>) -> Option<NodeEntry>
    ensures { result ≡ spec.entry_at nodes.now node }
{
    match node {
        Some(node) => nodes.get(node.0 as usize).copied(),
        None => None,
    }
}

/// The node around a node. `None` around the unit.
fn around(nodes: &[NodeEntry], entry: NodeEntry) -> Option<NodeEntry>
    ensures { result ≡ spec.around nodes.now entry }
{
    entry_at(nodes, entry.parent)
}

/// True of a method, a getter or a setter of an object.
pub fn is_property(nodes: &[NodeEntry], entry: NodeEntry) -> bool
    ensures { result ≡ spec.is_property nodes.now entry }
{
    if !is_accessor(entry.word) {
        return false;
    }
    match around(nodes, entry) {
        Some(object) => is_object(object.word),
        None => false,
    }
}

/// The method, getter or setter of an object that a function expression is a part of: the function of the property, or its
/// computed key. `None` for any other node, as an arrow function, or a function expression deeper in a key.
pub fn property_around(nodes: &[NodeEntry], entry: NodeEntry) -> Option<NodeEntry>
    ensures { result ≡ spec.property_around nodes.now entry }
{
    if !is_function_expression(entry.word) {
        return None;
    }
    match around(nodes, entry) {
        Some(property) => {
            if is_property(nodes, property) {
                Some(property)
            } else {
                None
            }
        }
        None => None,
    }
}

/// The method, getter or setter of an object that a function expression is the function of: its last part, so that both end with
/// the same node. `None` for any other node, and for the computed key of a property.
pub fn property_of(nodes: &[NodeEntry], entry: NodeEntry) -> Option<NodeEntry>
    ensures { result ≡ spec.property_of nodes.now entry }
{
    match property_around(nodes, entry) {
        Some(property) => {
            if entry.at.end.0 == property.at.end.0 {
                Some(property)
            } else {
                None
            }
        }
        None => None,
    }
}

/// The node that captures of a scope count from: the property that its node is a part of (`property_around`), if there is one,
/// else its node. The unit's node for a number that is no scope's.
pub fn capture_root_node(nodes: &[NodeEntry], scopes: &[ScopeEntry], scope: ScopeId) -> NodeId
    ensures { result ≡ spec.capture_root_node nodes.now scopes.now scope.0 }
{
    match scopes.get(scope.0 as usize) {
        Some(found) => match nodes.get(found.node.0 as usize) {
            Some(entry) => match property_around(nodes, *entry) {
                Some(property) => property.at.id,
                None => entry.at.id,
            },
            None => found.node,
        },
        None => NodeId(0),
    }
}

/// The scopes of functions, in order. On `OutOfMemory`, an allocation failed, or there are more scopes than ids of scopes, which
/// no unit has.
pub fn function_scopes(alloc: Global, scopes: &[ScopeEntry]) -> Result<List<ScopeId>, OutOfMemory>
    ensures { IfOk result (λ found. found ≡ spec.function_scopes scopes.now) }
{
    let mut found = List::new(alloc);
    let mut number = 0;
    for scope in scopes {
        if number == 4_294_967_295 {
            return Err(OutOfMemory);
        }
        if is_function(scope.kind) {
            found.push(ScopeId(number))?;
        }
        number += 1;
    }
    Ok(found)
}

/// Appends the ranges of text of a function: its own, and that from the start of the property that it is a part of
/// (`property_around`). On `OutOfMemory`, an allocation failed.
fn push_ranges(
    found: &mut List<(u32, u32)>,
    nodes: &[NodeEntry],
    entry: NodeEntry,
) -> Result<(), OutOfMemory>
    ensures { OnOk result (found.new ≡ found.old ++ spec.function_ranges nodes.now entry) }
{
    found.push((entry.at.span.start, entry.at.span.end))?;
    if let Some(property) = property_around(nodes, entry) {
        found.push((property.at.span.start, entry.at.span.end))?;
    }
    Ok(())
}

/// The node of a function's scope. `None` for any other scope.
fn function_node(nodes: &[NodeEntry], scope: ScopeEntry) -> Option<NodeEntry>
    ensures { result ≡ spec.function_node nodes.now scope }
{
    if is_function(scope.kind) {
        nodes.get(scope.node.0 as usize).copied()
    } else {
        None
    }
}

/// Appends the ranges of text of a scope's function; none for any other scope. On `OutOfMemory`, an allocation failed.
fn push_scope(
    found: &mut List<(u32, u32)>,
    nodes: &[NodeEntry],
    scope: ScopeEntry,
) -> Result<(), OutOfMemory>
    ensures { OnOk result (found.new ≡ found.old ++ spec.scope_ranges nodes.now scope) }
{
    match function_node(nodes, scope) {
        Some(entry) => {
            push_ranges(found, nodes, entry)?;
            Ok(())
        }
        None => Ok(()),
    }
}

/// The ranges of text of all functions, in the order of their scopes. On `OutOfMemory`, an allocation failed.
pub fn function_scope_ranges(
    alloc: Global,
    nodes: &[NodeEntry],
    scopes: &[ScopeEntry],
) -> Result<List<(u32, u32)>, OutOfMemory>
    ensures { IfOk result (λ found. found ≡ spec.function_scope_ranges nodes.now scopes.now) }
{
    let mut found = List::new(alloc);
    for scope in scopes {
        push_scope(&mut found, nodes, *scope)?;
    }
    Ok(found)
}

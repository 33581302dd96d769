//! The symbol that a name is bound to inside a scope, and the functions that a node stands in.

ghost use Rattle.std.specs.Prelude.{◌≡◌, ◌<◌, ◌^◌, ◌++◌, ◌∷◌, [], drop, length, IfOk, OnOk, MatchOption};
ghost use Rattle.rl_semantic.specs.Buckets.{AreBuckets};
ghost use Rattle.rl_resolver.specs.Containing as containing;
ghost use Rattle.rl_resolver.specs.Inside as spec;

use crate::iterators::Ancestors;
use rl_base::error::OutOfMemory;
use rl_base::ids::{NodeId, ScopeId};
use rl_base::list::List;
use rl_bindings::event::ScopeEntry;
use rl_bindings::symbol_table::SymbolTable;
use rl_semantic::buckets::{bucket, buckets};
use rl_semantic::functions::{entry_at, is_function_expression, is_property, property_of};
use rl_syntax::nodes::NodeEntry;
use rl_syntax::word::Word;
use std::alloc::Global;

/// True of a scope that is `ancestor` or stands inside it. False for a number that is no scope's.
fn descends(scopes: &[ScopeEntry], ancestor: ScopeId, scope: ScopeId) -> bool
    ensures { result ≡ spec.descends scopes.now ancestor scope }
{
    let mut outward = Ancestors::of(scopes, scope);
    'outward: while let Some(around) = outward.next() {
        if around.0 == ancestor.0 {
            return true;
        }
    }
    false
}

/// The index of the symbol that a scope binds a name to, if it is `ancestor` or stands inside it. `None` if it is not, or does
/// not bind the name.
fn bound_inside(
    scopes: &[ScopeEntry],
    symbols: &SymbolTable,
    ancestor: ScopeId,
    name: usize,
    scope: ScopeId,
) -> Option<usize>
    ensures { result ≡ spec.bound_inside scopes.now symbols.now ancestor name scope.0 }
{
    match symbols.binding(scope, name) {
        Some(number) => {
            if descends(scopes, ancestor, scope) {
                Some(number)
            } else {
                None
            }
        }
        None => None,
    }
}

/// The index of the symbol that a name is bound to in a scope or in one inside it: in that with the least number, if several bind
/// it. `None` if none does, and for a number that is no scope's.
#[tactic(auto, using(crate::proofs::Stepping::found_step))]
pub(crate) fn found_inside(
    scopes: &[ScopeEntry],
    symbols: &SymbolTable,
    ancestor: ScopeId,
    name: usize,
) -> Option<usize>
    requires { length scopes.now < 2 ^ 32 }
    ensures { result ≡ spec.found_from scopes.now symbols.now ancestor name ancestor.0 (drop ancestor.0 scopes.now) }
{
    let mut scope = ancestor;
    'scopes: while (scope.0 as usize) < scopes.len() {
        if let Some(number) = bound_inside(scopes, symbols, ancestor, name, scope) {
            return Some(number);
        }
        scope = ScopeId(scope.0 + 1);
    }
    None
}

/// True of the words of functions.
fn is_function_word(word: Word) -> bool
    ensures { result ≡ spec.is_function_word word }
{
    match word {
        Word::Arrow => true,
        Word::Fundecl => true,
        Word::Funexpr => true,
        _ => false,
    }
}

/// Appends the scope of a function expression, at the method, getter or setter of an object that it is the function of; nothing
/// for any other node. On `OutOfMemory`, an allocation failed.
fn push_method(
    pairs: &mut List<(usize, ScopeId)>,
    nodes: &[NodeEntry],
    entry: NodeEntry,
) -> Result<(), OutOfMemory>
    ensures { OnOk result (pairs.new ≡ pairs.old ++ containing.method_pair nodes.now entry) }
{
    match property_of(nodes, entry) {
        Some(property) => {
            pairs.push((property.at.id.0 as usize, entry.at.scope))?;
            Ok(())
        }
        None => Ok(()),
    }
}

/// The scopes of the functions of properties, each at the node of its property. On `OutOfMemory`, an allocation failed.
fn methods(alloc: Global, nodes: &[NodeEntry]) -> Result<List<(usize, ScopeId)>, OutOfMemory>
    ensures { IfOk result (λ pairs. pairs ≡ containing.methods_in nodes.now nodes.now) }
{
    let mut pairs = List::new(alloc);
    for entry in nodes {
        if is_function_expression(entry.word) {
            push_method(&mut pairs, nodes, *entry)?;
        }
    }
    Ok(pairs)
}

/// The scopes of the functions of each property. On `OutOfMemory`, an allocation failed.
pub(crate) fn methods_by_node(
    alloc: Global,
    nodes: &[NodeEntry],
) -> Result<List<List<ScopeId>>, OutOfMemory>
    ensures { IfOk result (λ table. AreBuckets table (length nodes.now) (containing.methods_in nodes.now nodes.now)) }
{
    let pairs = methods(alloc, nodes)?;
    let table = buckets(alloc, nodes.len(), pairs.as_slice())?;
    Ok(table)
}

/// The scope of the function of a property. `None` of any other node.
fn function_of(
    nodes: &[NodeEntry],
    methods: &List<List<ScopeId>>,
    entry: NodeEntry,
) -> Option<ScopeId>
    requires { AreBuckets methods.now (length nodes.now) (containing.methods_in nodes.now nodes.now) }
    ensures { result ≡ containing.function_of nodes.now entry }
{
    bucket(methods, entry.at.id.0 as usize).first().copied()
}

/// The scope of the function that a node is, or whose property it is: a method, a getter or a setter of an object. `None` of any
/// other node.
fn function_scope(
    nodes: &[NodeEntry],
    methods: &List<List<ScopeId>>,
    entry: NodeEntry,
) -> Option<ScopeId>
    requires { AreBuckets methods.now (length nodes.now) (containing.methods_in nodes.now nodes.now) }
    ensures { result ≡ containing.function_scope nodes.now entry }
{
    if is_function_word(entry.word) {
        Some(entry.at.scope)
    } else if is_property(nodes, entry) {
        function_of(nodes, methods, entry)
    } else {
        None
    }
}

/// The scope of the nearest function at a node, the one around it and so on, at most `most` nodes, with what is left behind it:
/// the most nodes, and the next node. `None` if there is no such function.
pub(crate) fn advance(
    nodes: &[NodeEntry],
    methods: &List<List<ScopeId>>,
    most: usize,
    node: Option<NodeId>,
) -> Option<(ScopeId, usize, Option<NodeId>)>
    requires { AreBuckets methods.now (length nodes.now) (containing.methods_in nodes.now nodes.now) }
    ensures { MatchOption result (containing.functions_out nodes.now most node ≡ []) (λ r. containing.functions_out nodes.now most node ≡ r.0 ∷ containing.functions_out nodes.now r.1 r.2) }
{
    let mut left = most;
    let mut at = node;
    'out: while left > 0 {
        match entry_at(nodes, at) {
            Some(entry) => match function_scope(nodes, methods, entry) {
                Some(scope) => return Some((scope, left - 1, entry.parent)),
                None => {
                    left -= 1;
                    at = entry.parent;
                }
            },
            None => return None,
        }
    }
    None
}

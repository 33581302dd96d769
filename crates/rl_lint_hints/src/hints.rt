//! The tables of hints, and how they are made.

ghost use Rattle.std.specs.Prelude.{◌≡◌, IfOk};
ghost use Rattle.rl_lint_hints.specs.Hints as spec;

use crate::words::{is_declaration, is_function, is_hoisted, is_labeled, is_lexical};
use rl_base::error::OutOfMemory;
use rl_base::ids::{NodeId, ScopeId};
use rl_base::list::List;
use rl_bindings::bindings::Bindings;
use rl_bindings::event::BindKind;
use rl_bindings::resolve::Declaration;
use rl_syntax::nodes::NodeEntry;
use std::alloc::Global;

/// The last declaration of a symbol.
#[derive(Clone, Copy)]
pub struct LastBind {
    /// The `bind` node with the largest id, the names of function declarations aside.
    pub node: NodeId,
    /// The innermost function around it. The unit's node outside functions.
    pub function: NodeId,
}

/// Tables by node and by symbol.
#[derive(Drop)]
pub struct Hints {
    /// For each node the innermost function around its parts.
    pub functions: List<NodeId>,
    /// For each symbol its last declaration.
    pub lasts: List<LastBind>,
    /// For each node true if it is on a path: it is a declaration that is in force before it stands, or it is around one. Empty where no
    /// node is.
    pub paths: List<bool>,
    /// True if a node is a labelled statement. This is no hint: `hints_of` says it of its nodes.
    pub labeled: bool,
}

/// The innermost function around the parts of a node, by a table of these. The unit's node where the table has none.
pub fn function_at(functions: &[NodeId], node: NodeId) -> NodeId
    ensures { result ≡ spec.function_at functions.now node.0 }
{
    match functions.get(node.0 as usize) {
        Some(function) => *function,
        None => NodeId(0),
    }
}

/// The innermost function around a node with this parent. The unit's node without a parent.
fn function_around(functions: &[NodeId], parent: Option<NodeId>) -> NodeId
    ensures { result ≡ spec.function_around functions.now parent }
{
    match parent {
        Some(parent) => function_at(functions, parent),
        None => NodeId(0),
    }
}

/// The innermost function around the parts of a node: the node itself, if it is a function, or the one around it.
pub fn function_inside(functions: &[NodeId], node: &NodeEntry) -> NodeId
    ensures { result ≡ spec.function_inside functions.now node.now }
{
    if is_function(node.word) {
        node.at.id
    } else {
        function_around(functions, node.parent)
    }
}

/// The scope that a function declaration makes. `None` of any other node.
fn declared_scope(node: &NodeEntry) -> Option<ScopeId>
    ensures { result ≡ spec.declared_scope node.now }
{
    if is_declaration(node.word) {
        Some(node.at.scope)
    } else {
        None
    }
}

/// The scope that the parent of a node makes, if that is a function declaration.
fn parent_scope(nodes: &[NodeEntry], parent: Option<NodeId>) -> Option<ScopeId>
    ensures { result ≡ spec.parent_scope nodes.now parent }
{
    match parent {
        Some(parent) => match nodes.get(parent.0 as usize) {
            Some(node) => declared_scope(node),
            None => None,
        },
        None => None,
    }
}

/// The scope of the function declaration whose name a node is. `None` of any other node.
pub fn named_scope(nodes: &[NodeEntry], node: NodeId) -> Option<ScopeId>
    ensures { result ≡ spec.named_scope nodes.now node.0 }
{
    match nodes.get(node.0 as usize) {
        Some(node) => parent_scope(nodes, node.parent),
        None => None,
    }
}

/// The innermost functions around the parts of nodes, and true if one of these is a labelled statement: a walk over the nodes tells both.
/// On `OutOfMemory`, an allocation failed.
fn functions_of(alloc: Global, nodes: &[NodeEntry]) -> Result<(List<NodeId>, bool), OutOfMemory>
    ensures { IfOk result (λ found. found.1 ≡ spec.any_labeled nodes.now) }
{
    let mut functions = List::with_capacity(alloc, nodes.len())?;
    let mut labeled = false;
    'nodes: for node in nodes {
        let function = function_inside(functions.as_slice(), node);
        functions.push(function)?;
        labeled = labeled || is_labeled(node.word);
    }
    Ok((functions, labeled))
}

/// Makes a declaration the last one of its symbol, if none with a larger id is.
fn put_last(lasts: &mut [LastBind], symbol: usize, last: LastBind) {
    if symbol < lasts.len() {
        if lasts[symbol].node.0 <= last.node.0 {
            lasts[symbol] = last;
        }
    }
}

/// The kind of the first declaration of a symbol. `None` of a number that is no symbol's.
fn kind_of(bindings: &Bindings, symbol: usize) -> Option<BindKind> {
    match bindings.symbols.as_slice().get(symbol) {
        Some(first) => Some(first.kind),
        None => None,
    }
}

/// True of a declaration of a symbol that is the name of a function declaration. The nodes are not asked of symbols of most kinds.
fn is_function_name(nodes: &[NodeEntry], bindings: &Bindings, node: NodeId, symbol: usize) -> bool {
    match kind_of(bindings, symbol) {
        Some(kind) => !is_lexical(kind) && named_scope(nodes, node).is_some(),
        None => false,
    }
}

/// Makes a declaration the last one of its symbol, unless it is the name of a function declaration.
fn put_declaration(
    lasts: &mut [LastBind],
    nodes: &[NodeEntry],
    functions: &[NodeId],
    bindings: &Bindings,
    declaration: &Declaration,
) {
    let node = declaration.node;
    if let Some(symbol) = declaration.symbol {
        if !is_function_name(nodes, bindings, node, symbol) {
            let function = function_at(functions, node);
            put_last(lasts, symbol, LastBind { node, function });
        }
    }
}

/// The last declarations of symbols. On `OutOfMemory`, an allocation failed.
fn lasts_of(
    alloc: Global,
    nodes: &[NodeEntry],
    functions: &[NodeId],
    bindings: &Bindings,
) -> Result<List<LastBind>, OutOfMemory> {
    let none = LastBind {
        node: NodeId(0),
        function: NodeId(0),
    };
    let mut lasts = Vec::new(alloc);
    lasts.resize(bindings.symbols.as_slice().len(), none)?;
    for declaration in bindings.declarations.as_slice() {
        put_declaration(&mut lasts, nodes, functions, bindings, declaration);
    }
    Ok(List::from_vec(lasts))
}

/// Hints for a unit with these nodes, of which none is on a path. On `OutOfMemory`, an allocation failed.
pub fn hints_of(
    alloc: Global,
    nodes: &[NodeEntry],
    bindings: &Bindings,
) -> Result<Hints, OutOfMemory>
    ensures { IfOk result (λ hints. hints.labeled ≡ spec.any_labeled nodes.now) }
{
    let (functions, labeled) = functions_of(alloc, nodes)?;
    let lasts = lasts_of(alloc, nodes, functions.as_slice(), bindings)?;
    Ok(Hints {
        functions,
        lasts,
        paths: List::new(alloc),
        labeled,
    })
}

/// True of a symbol whose first declaration is in force before it stands.
fn is_hoisted_symbol(bindings: &Bindings, symbol: Option<usize>) -> bool {
    match symbol {
        Some(symbol) => match kind_of(bindings, symbol) {
            Some(kind) => is_hoisted(kind),
            None => false,
        },
        None => false,
    }
}

/// Puts a node and those around it on a path, up to the first that is on one.
fn put_path(paths: &mut [bool], nodes: &[NodeEntry], node: NodeId) {
    let mut next = node.0 as usize;
    'around: while next < paths.len() && next < nodes.len() {
        if paths[next] {
            return;
        }
        paths[next] = true;
        let Some(parent) = nodes[next].parent else {
            return;
        };
        if next <= parent.0 as usize {
            return;
        }
        next = parent.0 as usize;
    }
}

/// The nodes on the paths to the declarations that are in force before they stand: for each node true if it is such a declaration, or is
/// around one. On `OutOfMemory`, an allocation failed.
pub fn paths_of(
    alloc: Global,
    nodes: &[NodeEntry],
    bindings: &Bindings,
) -> Result<List<bool>, OutOfMemory> {
    let mut paths = Vec::new(alloc);
    paths.resize(nodes.len(), false)?;
    for declaration in bindings.declarations.as_slice() {
        if is_hoisted_symbol(bindings, declaration.symbol) {
            put_path(&mut paths, nodes, declaration.node);
        }
    }
    Ok(List::from_vec(paths))
}

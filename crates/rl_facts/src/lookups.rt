//! Properties of names that the tables of a unit alone tell.

ghost use Rattle.std.specs.Prelude.{◌≡◌, is_some};
ghost use Rattle.rl_context.specs.Context as context;
ghost use Rattle.rl_markers.specs.Named.{tables};
ghost use Rattle.rl_model.specs.Facts as model;
ghost use Rattle.rl_names.specs.Names as names;
ghost use Rattle.rl_names.specs.Seen.{seen};
ghost use Rattle.rl_resolver.specs.Inside.{find_binding_in_descendants};
ghost use Rattle.rl_resolver.specs.Lookups.{symbol_scope};

use crate::kinds::{is_for_in_or_of, is_variable, is_variable_kind};
use rl_base::ids::{NodeId, ReferenceId, ScopeId, SymbolId};
use rl_base::span::Span;
use rl_base::text::Text;
use rl_code::variables::Variables;
use rl_markers::named::first_declaration;
use rl_names::names::is_const_kind;
use rl_syntax::numbered::At;

/// True of a symbol whose first declaration is a constant's.
pub fn is_const(variables: &Variables<'_>, symbol: SymbolId) -> bool
    ensures { result ≡ model.has_kind (tables variables.now) names.is_const_kind symbol.0 }
{
    match first_declaration(variables, symbol.0) {
        Some(bound) => is_const_kind(bound.kind),
        None => false,
    }
}

/// True of a symbol whose first declaration is a variable's.
fn is_value(variables: &Variables<'_>, symbol: SymbolId) -> bool
    ensures { result ≡ model.has_kind (tables variables.now) names.is_variable symbol.0 }
{
    match first_declaration(variables, symbol.0) {
        Some(bound) => is_variable(bound.kind),
        None => false,
    }
}

/// True of a symbol whose first declaration is a parameter's, or that of a variable that gets markers.
fn is_parameter_or_variable(variables: &Variables<'_>, symbol: SymbolId) -> bool
    ensures { result ≡ model.has_kind (tables variables.now) model.is_variable_kind symbol.0 }
{
    match first_declaration(variables, symbol.0) {
        Some(bound) => is_variable_kind(bound.kind),
        None => false,
    }
}

/// The node that makes the scope of a symbol. The unit's node for a scope that the unit does not have.
fn scope_node(variables: &Variables<'_>, symbol: SymbolId) -> NodeId
    ensures { result ≡ context.scope_node (tables variables.now) symbol.0 }
{
    let resolver = variables.names.resolver;
    let number = resolver.symbol_scope(symbol).0 as usize;
    match resolver.semantic.bindings.scopes.get(number) {
        Some(entry) => entry.node,
        None => NodeId(0),
    }
}

/// True of a symbol that the head of a `for`-`in` or `for`-`of` loop declares.
pub fn is_of_head(variables: &Variables<'_>, symbol: SymbolId) -> bool
    ensures { result ≡ model.is_of_head variables.now.names.resolver.now.semantic.now.nodes.now (tables variables.now) symbol.0 }
{
    let node = scope_node(variables, symbol);
    match variables.names.resolver.semantic.nodes.get(node.0 as usize) {
        Some(entry) => is_for_in_or_of(entry.word),
        None => false,
    }
}

/// True of a reference to no symbol, or to an alias, an enum or a namespace.
pub fn is_global(variables: &Variables<'_>, reference: ReferenceId) -> bool
    ensures { result ≡ model.is_global_in (tables variables.now) reference.0 }
{
    match variables.names.resolver.symbol_of_reference(reference) {
        Some(symbol) => !is_value(variables, symbol),
        None => true,
    }
}

/// True of a reference that names nothing below the program's scope.
pub fn is_module(variables: &Variables<'_>, reference: ReferenceId) -> bool
    ensures { result ≡ model.is_module_in (tables variables.now) reference.0 }
{
    let resolver = variables.names.resolver;
    match resolver.symbol_of_reference(reference) {
        Some(symbol) => resolver.symbol_scope(symbol).0 == 0,
        None => true,
    }
}

/// True of a name that a scope binds, or one inside it. It takes a look-up for each scope behind the scope.
pub fn is_bound(variables: &Variables<'_>, scope: ScopeId, name: &Text) -> bool
    ensures { result ≡ is_some (find_binding_in_descendants (tables variables.now).names (tables variables.now).symbols (tables variables.now).scopes name.now scope) }
{
    variables
        .names
        .resolver
        .find_binding_in_descendants(name.as_str(), scope)
        .is_some()
}

/// The symbol that a `bind` node declares, by the id of the node. `None` of any other node.
pub fn declared(variables: &Variables<'_>, bind: NodeId) -> Option<SymbolId>
    ensures { result ≡ (seen variables.now.names).declared bind.0 }
{
    variables.declared(At {
        id: bind,
        end: bind,
        scope: ScopeId(0),
        reference: ReferenceId(0),
        span: Span { start: 0, end: 0 },
    })
}

/// True of a `bind` node that declares a variable: a name in a pattern, or that of a function declaration.
pub fn declares_variable(variables: &Variables<'_>, bind: NodeId) -> bool
    ensures { result ≡ model.of_declared (seen variables.now.names) (model.has_kind (tables variables.now) model.is_variable_kind) bind.0 }
{
    match declared(variables, bind) {
        Some(symbol) => is_parameter_or_variable(variables, symbol),
        None => false,
    }
}

//! The meanings of the names of a unit in the lowering of one of its functions.

ghost use Rattle.std.specs.Prelude.{◌≡◌, [], IfOk, map, option_map, slice_get, unwrap_or};
ghost use Rattle.rl_ast.specs.FunctionNodes.{seen_function_node};
ghost use Rattle.rl_names.specs.Names as spec;
ghost use Rattle.rl_names.specs.Seen.{seen};
ghost use Rattle.rl_resolver.specs.Imported.{import_data};
ghost use Rattle.rl_resolver.specs.Lookups.{symbol_scope};
ghost use Rattle.rl_semantic.specs.Imports.{data_of, seen as seen_import};

use rl_ast::binding::{BindingIdentifier, IdentifierReference};
use rl_ast::function_node::FunctionNode;
use rl_base::boxed::Boxed;
use rl_base::error::OutOfMemory;
use rl_base::ids::{NodeId, ReferenceId, ScopeId, SymbolId};
use rl_base::span::Span;
use rl_base::text::Text;
use rl_bindings::event::{BindKind, Bound};
use rl_hir::instruction::{ImportSpecifier, NonLocalBinding};
use rl_resolver::resolver::ScopeResolver;
use rl_semantic::imports::{ImportBindingKind, ImportEntry};
use rl_syntax::nodes::NodeEntry;
use rl_syntax::numbered::At;
use std::alloc::Global;

/// The meaning of a name, a local variable by its symbol (`VariableBinding` of the compiler has the identifier in its place).
#[derive(Drop)]
pub enum Meaning {
    /// A local variable of the function that is lowered.
    Local(SymbolId),
    /// A name that no local variable has.
    Outer(NonLocalBinding),
}

/// The names of a unit, in the lowering of one of its functions.
#[derive(Clone, Copy)]
pub struct FunctionNames<'s> {
    /// The names of the unit by number.
    pub resolver: &'s ScopeResolver<'s>,
    /// Ids and span of the function.
    pub function: At,
}

/// True of a node that is the one with these ids, or stands inside it.
fn is_inside(at: At, node: NodeId) -> bool
    ensures { result ≡ spec.is_inside at node }
{
    at.id.0 <= node.0 && node.0 < at.end.0
}

/// True of a declaration of a variable. A type alias, an enum and a namespace are none.
fn is_variable(kind: BindKind) -> bool
    ensures { result ≡ spec.is_variable kind }
{
    match kind {
        BindKind::TypeAlias => false,
        BindKind::Enum => false,
        BindKind::Namespace => false,
        _ => true,
    }
}

/// True of a declaration of a constant: by `const`, `using` or `await using`.
pub fn is_const_kind(kind: BindKind) -> bool
    ensures { result ≡ spec.is_const_kind kind }
{
    matches!(kind, BindKind::Const)
}

/// The text, or the empty text where there is none. On `OutOfMemory`, an allocation failed.
fn copy_or_empty(alloc: Global, text: Option<&Text>) -> Result<Text, OutOfMemory>
    ensures { IfOk result (λ copy. copy ≡ unwrap_or (option_map (λ t. t.now) text.entry) []) }
{
    match text {
        Some(text) => text.copy(alloc),
        None => Text::from_str(alloc, ""),
    }
}

/// The binding of a name that an import makes. On `OutOfMemory`, an allocation failed.
fn import_binding(
    alloc: Global,
    name: Text,
    import: ImportEntry<'_>,
) -> Result<NonLocalBinding, OutOfMemory>
    ensures { IfOk result (λ b. b ≡ spec.import_binding name (data_of import.entry)) }
{
    let module = import.source.copy(alloc)?;
    match import.kind {
        ImportBindingKind::Default => Ok(NonLocalBinding::ImportDefault {
            name,
            module: Boxed::new(alloc, module)?,
        }),
        ImportBindingKind::Namespace => Ok(NonLocalBinding::ImportNamespace {
            name,
            module: Boxed::new(alloc, module)?,
        }),
        ImportBindingKind::Named => {
            let imported = copy_or_empty(alloc, import.imported)?;
            let import = Boxed::new(alloc, ImportSpecifier { module, imported })?;
            Ok(NonLocalBinding::ImportSpecifier { name, import })
        }
    }
}

/// The ids of no node.
const NO_NODE: At = At {
    id: NodeId(0),
    end: NodeId(0),
    scope: ScopeId(0),
    reference: ReferenceId(0),
    span: Span { start: 0, end: 0 },
};

/// Ids and span of a node. Those of no node for an id that is no node's.
fn at_in(nodes: &[NodeEntry], node: NodeId) -> At
    ensures { result ≡ spec.at_in nodes.now node }
{
    match nodes.get(node.0 as usize) {
        Some(entry) => entry.at,
        None => NO_NODE,
    }
}

impl<'s> FunctionNames<'s> {
    /// The names of the unit that `resolver` is of, in the lowering of the function.
    pub fn of(resolver: &'s ScopeResolver<'s>, function: FunctionNode<'_>) -> FunctionNames<'s>
        ensures resolver { result.resolver.now ≡ resolver.now }
        ensures function { result.function ≡ spec.at_of (seen_function_node function.entry) }
    {
        let function = match function {
            FunctionNode::Function(function) => function.at,
            FunctionNode::Arrow(arrow) => arrow.at,
        };
        FunctionNames { resolver, function }
    }

    /// The names of the unit that `resolver` is of, in the lowering of the function that makes the scope.
    pub fn in_scope(resolver: &'s ScopeResolver<'s>, scope: ScopeId) -> FunctionNames<'s>
        ensures resolver { result.resolver.now ≡ resolver.now }
        ensures function { result.function ≡ spec.scope_at resolver.now.semantic.now.nodes.now resolver.now.semantic.now.bindings.scopes scope.0 }
    {
        let nodes = resolver.semantic.nodes;
        let function = match resolver.semantic.bindings.scopes.get(scope.0 as usize) {
            Some(entry) => at_in(nodes, entry.node),
            None => NO_NODE,
        };
        FunctionNames { resolver, function }
    }

    /// The first declaration of a symbol. `None` for a number that is no symbol's.
    fn first_declaration(&self, symbol: SymbolId) -> Option<Bound>
        ensures { result ≡ slice_get self.now.resolver.now.semantic.now.bindings.symbols symbol.0 }
    {
        self.resolver
            .semantic
            .bindings
            .symbols
            .as_slice()
            .get(symbol.0 as usize)
            .copied()
    }

    /// True of a scope that the function makes, or a node inside it.
    fn is_scope_inside(&self, scope: ScopeId) -> bool
        ensures { result ≡ spec.is_scope_inside self.now.function self.now.resolver.now.semantic.now.bindings.scopes scope.0 }
    {
        match self.resolver.semantic.bindings.scopes.get(scope.0 as usize) {
            Some(entry) => is_inside(self.function, entry.node),
            None => false,
        }
    }

    /// True of a local variable of the function.
    fn is_local(&self, symbol: SymbolId) -> bool
        ensures { result ≡ spec.is_local self.now.function self.now.resolver.now.semantic.now.bindings.scopes self.now.resolver.now.semantic.now.bindings.symbols symbol.0 }
    {
        match self.first_declaration(symbol) {
            Some(bound) => {
                is_variable(bound.kind) && self.is_scope_inside(self.resolver.symbol_scope(symbol))
            }
            None => false,
        }
    }

    /// The binding of a name of the module: that of its import, or else of another declaration. On `OutOfMemory`, an allocation
    /// failed.
    fn module_binding(
        &self,
        alloc: Global,
        symbol: SymbolId,
        name: Text,
    ) -> Result<NonLocalBinding, OutOfMemory>
        ensures { IfOk result (λ b. b ≡ spec.module_binding (import_data self.now.resolver.now.semantic.now.nodes.now (map seen_import self.now.resolver.now.semantic.now.imports) self.now.resolver.now.semantic.now.bindings.symbols symbol.0) (symbol_scope self.now.resolver.now.semantic.now.bindings.symbols symbol.0) name) }
    {
        if self.resolver.symbol_scope(symbol).0 != 0 {
            return Ok(NonLocalBinding::ModuleLocal { name });
        }
        match self.resolver.import_entry(symbol) {
            Some(entry) => import_binding(alloc, name, entry),
            None => Ok(NonLocalBinding::ModuleLocal { name }),
        }
    }

    /// The binding of a name that stands for a symbol which is no local. On `OutOfMemory`, an allocation failed.
    fn symbol_binding(
        &self,
        alloc: Global,
        symbol: SymbolId,
        name: &Text,
    ) -> Result<NonLocalBinding, OutOfMemory>
        ensures { IfOk result (λ b. b ≡ spec.symbol_binding (λ symbol. import_data self.now.resolver.now.semantic.now.nodes.now (map seen_import self.now.resolver.now.semantic.now.imports) self.now.resolver.now.semantic.now.bindings.symbols symbol) self.now.resolver.now.semantic.now.bindings.symbols symbol.0 name.now) }
    {
        let name = name.copy(alloc)?;
        match self.first_declaration(symbol) {
            Some(bound) => {
                if is_variable(bound.kind) {
                    self.module_binding(alloc, symbol, name)
                } else {
                    Ok(NonLocalBinding::Global { name })
                }
            }
            None => Ok(NonLocalBinding::Global { name }),
        }
    }

    /// The meaning of an identifier (`resolveIdentifier`). On `OutOfMemory`, an allocation failed.
    pub fn meaning(
        &self,
        alloc: Global,
        identifier: &IdentifierReference<'_>,
    ) -> Result<Meaning, OutOfMemory>
        ensures { IfOk result (λ m. m ≡ (seen self.now).meaning identifier.now.at.reference.0 identifier.now.name.now) }
    {
        match self.resolver.resolve_reference(identifier) {
            Some(symbol) => {
                if self.is_local(symbol) {
                    Ok(Meaning::Local(symbol))
                } else {
                    Ok(Meaning::Outer(self.symbol_binding(alloc, symbol, identifier.name)?))
                }
            }
            None => Ok(Meaning::Outer(NonLocalBinding::Global {
                name: identifier.name.copy(alloc)?,
            })),
        }
    }

    /// The local variable of the function that an identifier names. `None` of any other name.
    pub fn local(&self, identifier: &IdentifierReference<'_>) -> Option<SymbolId>
        ensures { result ≡ spec.local_of ((seen self.now).meaning identifier.now.at.reference.0 identifier.now.name.now) }
    {
        match self.resolver.resolve_reference(identifier) {
            Some(symbol) => {
                if self.is_local(symbol) {
                    Some(symbol)
                } else {
                    None
                }
            }
            None => None,
        }
    }

    /// The symbol that a `bind` node declares. `None` for a node that is no `bind` node of the unit.
    pub fn declared(&self, identifier: &BindingIdentifier<'_>) -> Option<SymbolId>
        ensures { result ≡ (seen self.now).declared identifier.now.at.id.0 }
    {
        self.resolver.declared_symbol(identifier)
    }

    /// True of a symbol that is declared as a constant. False for a number that is no symbol's.
    pub fn is_const(&self, symbol: SymbolId) -> bool
        ensures { result ≡ (seen self.now).is_const symbol.0 }
    {
        match self.first_declaration(symbol) {
            Some(bound) => is_const_kind(bound.kind),
            None => false,
        }
    }

    /// True of a reference to no symbol, or to one of the program's scope.
    pub fn is_module(&self, reference: ReferenceId) -> bool
        ensures { result ≡ (seen self.now).is_module reference.0 }
    {
        match self.resolver.symbol_of_reference(reference) {
            Some(symbol) => self.resolver.symbol_scope(symbol).0 == 0,
            None => true,
        }
    }

    /// The name of a symbol. Empty for a number that is no symbol's.
    pub fn name(&self, symbol: SymbolId) -> &'s str
        ensures { result.now ≡ (seen self.now).name symbol.0 }
    {
        self.resolver.symbol_name(symbol)
    }
}

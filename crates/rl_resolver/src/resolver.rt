//! Look-ups of scopes, symbols and references by number, after the original's `ScopeResolver`.

ghost use Rattle.std.specs.Prelude.{◌≡◌, ◌-◌, ◌<◌, ◌^◌, drop, length, map, option_map, slice_get, IfOk};
ghost use Rattle.std.specs.Option.{option_copied};
ghost use Rattle.rl_bindings.specs.Symbols.{resolve};
ghost use Rattle.rl_resolver.specs.Around as around;
ghost use Rattle.rl_resolver.specs.Children as children;
ghost use Rattle.rl_semantic.specs.Functions as made;
ghost use Rattle.rl_semantic.specs.Buckets.{AreBuckets, AreFirsts};
ghost use Rattle.rl_resolver.specs.Imported.{import_data, import_entry, import_pair};
ghost use Rattle.rl_resolver.specs.Containing as containing;
ghost use Rattle.rl_resolver.specs.Inside as within;
ghost use Rattle.rl_resolver.specs.Listed as listed;
ghost use Rattle.rl_resolver.specs.Lookups as spec;
ghost use Rattle.rl_resolver.specs.SymbolKinds as kinds;
ghost use Rattle.rl_semantic.specs.Imports.{data_of, seen};

use crate::children::bindings_with_child_blocks;
use crate::imported::{import_at, imports_by_node};
use crate::inside::{found_inside, methods_by_node};
use crate::iterators::{Ancestors, Bindings, ContainingFunctionScopes, FunctionScopes, Symbols};
use crate::kinds::{has_identifier, is_type_only};
use crate::lookups::{id_count, scope_parent, symbol_id};
use crate::tables::{
    declarations_by_node, references_by_symbol, symbols_by_node, symbols_by_scope,
    unresolved_by_name,
};
use rl_ast::binding::{BindingIdentifier, IdentifierReference};
use rl_base::error::OutOfMemory;
use rl_base::ids::{NodeId, ReferenceId, ScopeId, SymbolId};
use rl_base::list::List;
use rl_base::span::Span;
use rl_base::text::Text;
use rl_bindings::event::{Bound, ScopeKind};
use rl_bindings::symbol_kind::{BindingKind, DeclKind};
use rl_semantic::buckets::{bucket, first_at};
use rl_semantic::functions::{capture_root_node, function_scope_ranges, function_scopes};
use rl_semantic::imports::{ImportBindingData, ImportEntry};
use rl_semantic::semantic::Semantic;
use std::alloc::Global;

/// Look-ups by number in the semantic tables of a unit: `ScopeResolver` of the original. Calls that take an allocator take
/// memory, no others do.
#[derive(Drop)]
pub struct ScopeResolver<'s> {
    /// The semantic tables of the unit.
    pub semantic: &'s Semantic<'s>,
    functions: List<ScopeId>,
    ranges: List<(u32, u32)>,
    references: List<List<ReferenceId>>,
    bindings: List<List<SymbolId>>,
    declarations: List<Option<SymbolId>>,
    unresolved: List<Option<NodeId>>,
    methods: List<List<ScopeId>>,
    declared: List<Option<Option<SymbolId>>>,
    imports: List<List<ImportEntry<'s>>>,
    ghost imports_are: { AreBuckets imports (length semantic.now.nodes.now) (map import_pair semantic.now.imports) },
    ghost declared_are: { AreFirsts declared (length semantic.now.nodes.now) (map listed.declaration_pair semantic.now.bindings.declarations) },
    ghost functions_are: { functions ≡ made.function_scopes semantic.now.bindings.scopes },
    ghost ranges_are: { ranges ≡ made.function_scope_ranges semantic.now.nodes.now semantic.now.bindings.scopes },
    ghost methods_are: { AreBuckets methods (length semantic.now.nodes.now) (containing.methods_in semantic.now.nodes.now semantic.now.nodes.now) },
    ghost few_scopes: { length semantic.now.bindings.scopes < 2 ^ 32 },
    ghost references_are: { AreBuckets references (length semantic.now.bindings.symbols) (listed.resolved_from 0 semantic.now.bindings.references) },
    ghost bindings_are: { AreBuckets bindings (length semantic.now.bindings.scopes) (listed.bound_from semantic.now.bindings.symbols 0 semantic.now.bindings.symbols) },
    ghost declarations_are: { AreFirsts declarations (length semantic.now.nodes.now) (listed.declared_from 0 semantic.now.bindings.symbols) },
    ghost unresolved_are: { AreFirsts unresolved (length semantic.now.bindings.names) (listed.unresolved_in semantic.now.bindings.references) },
}

impl<'s> ScopeResolver<'s> {
    /// The look-ups in the semantic tables of a unit, in time that is linear in these. On `OutOfMemory`, an allocation failed, or
    /// there are more scopes, symbols or references than ids, which no unit has.
    pub fn new(alloc: Global, semantic: &'s Semantic<'s>) -> Result<ScopeResolver<'s>, OutOfMemory>
        ensures { IfOk result (λ resolver. resolver.semantic.now ≡ semantic.now) }
    {
        let bindings = &semantic.bindings;
        let scopes = bindings.scopes.as_slice();
        let nodes = semantic.nodes;
        let symbols = bindings.symbols.as_slice();
        let references = bindings.references.as_slice();
        if 4_294_967_295 < scopes.len() {
            return Err(OutOfMemory);
        }
        Ok(ScopeResolver {
            semantic,
            functions: function_scopes(alloc, scopes)?,
            ranges: function_scope_ranges(alloc, nodes, scopes)?,
            references: references_by_symbol(alloc, symbols.len(), references)?,
            bindings: symbols_by_scope(alloc, scopes.len(), &bindings.symbols)?,
            declarations: symbols_by_node(alloc, nodes.len(), symbols)?,
            unresolved: unresolved_by_name(alloc, bindings.names.len(), references)?,
            methods: methods_by_node(alloc, nodes)?,
            declared: declarations_by_node(alloc, nodes.len(), bindings.declarations.as_slice())?,
            imports: imports_by_node(alloc, nodes.len(), semantic.imports.as_slice())?,
        })
    }

    /// The symbol that a reference resolves to. `None` for a global, and for a number that is no reference's.
    pub fn symbol_of_reference(&self, reference: ReferenceId) -> Option<SymbolId>
        ensures { result ≡ spec.symbol_of_reference self.now.semantic.now.bindings.references reference.0 }
    {
        match self.semantic.bindings.references.get(reference.0 as usize) {
            Some(found) => symbol_id(found.symbol),
            None => None,
        }
    }

    /// The symbol that an identifier resolves to: `resolve_reference` of the original. `None` for a global.
    pub fn resolve_reference(&self, identifier: &IdentifierReference<'_>) -> Option<SymbolId>
        ensures { result ≡ spec.symbol_of_reference self.now.semantic.now.bindings.references identifier.now.at.reference.0 }
    {
        self.symbol_of_reference(identifier.at.reference)
    }

    /// The node of a reference. The unit's node for a number that is no reference's.
    pub fn reference_node_id(&self, reference: ReferenceId) -> NodeId
        ensures { result ≡ spec.reference_node_id self.now.semantic.now.bindings.references reference.0 }
    {
        match self.semantic.bindings.references.get(reference.0 as usize) {
            Some(found) => found.node,
            None => NodeId(0),
        }
    }

    /// The kind of a scope. `Program` for a number that is no scope's.
    pub fn scope_kind(&self, scope: ScopeId) -> ScopeKind
        ensures { result ≡ spec.scope_kind self.now.semantic.now.bindings.scopes scope.0 }
    {
        match self.semantic.bindings.scopes.get(scope.0 as usize) {
            Some(entry) => entry.kind,
            None => ScopeKind::Program,
        }
    }

    /// The scope around a scope. `None` for the program's scope, and for a number that is no scope's.
    pub fn scope_parent(&self, scope: ScopeId) -> Option<ScopeId>
        ensures { result ≡ spec.scope_parent self.now.semantic.now.bindings.scopes scope.0 }
    {
        scope_parent(self.semantic.bindings.scopes.as_slice(), scope)
    }

    /// The scope of the program.
    pub fn program_scope(&self) -> ScopeId
        ensures { result ≡ record { 0 = 0 } }
    {
        ScopeId(0)
    }

    /// The declaration of a symbol that comes first.
    fn symbol(&self, symbol: SymbolId) -> Option<&'s Bound>
        ensures { option_copied result ≡ slice_get self.now.semantic.now.bindings.symbols symbol.0 }
    {
        self.semantic
            .bindings
            .symbols
            .as_slice()
            .get(symbol.0 as usize)
    }

    /// The name of a symbol. Empty for a number that is no symbol's.
    pub fn symbol_name(&self, symbol: SymbolId) -> &'s str
        ensures { result.now ≡ spec.symbol_name self.now.semantic.now.bindings.names self.now.semantic.now.bindings.symbols symbol.0 }
    {
        match self.symbol(symbol) {
            Some(bound) => match self
                .semantic
                .bindings
                .names
                .as_slice()
                .get(bound.name as usize)
            {
                Some(name) => name.text.as_str(),
                None => "",
            },
            None => "",
        }
    }

    /// The kind of a symbol's binding. `Unknown` for an interface, and for a number that is no symbol's.
    pub fn binding_kind(&self, symbol: SymbolId) -> BindingKind
        ensures { result ≡ kinds.binding_kind self.now.semantic.now.bindings.symbols symbol.0 }
    {
        match self.symbol(symbol) {
            Some(bound) => bound.kind.binding_kind(),
            None => BindingKind::Unknown,
        }
    }

    /// The kind of a symbol's first declaration. `Unknown` for an interface, and for a number that is no symbol's.
    pub fn decl_kind(&self, symbol: SymbolId) -> DeclKind
        ensures { result ≡ kinds.decl_kind self.now.semantic.now.bindings.symbols symbol.0 }
    {
        match self.symbol(symbol) {
            Some(bound) => bound.kind.decl_kind(),
            None => DeclKind::Unknown,
        }
    }

    /// True of a symbol that is a type alone: a type alias or an interface. False for a number that is no symbol's.
    pub fn is_type_only_binding(&self, symbol: SymbolId) -> bool
        ensures { result ≡ spec.is_type_only_binding self.now.semantic.now.bindings.symbols symbol.0 }
    {
        match self.symbol(symbol) {
            Some(bound) => is_type_only(bound.kind),
            None => false,
        }
    }

    /// The first declaration of a symbol. `None` for an interface, and for a number that is no symbol's.
    pub fn declaration_ident(&self, symbol: SymbolId) -> Option<Bound>
        ensures { result ≡ spec.declaration_ident self.now.semantic.now.bindings.symbols symbol.0 }
    {
        match self.symbol(symbol) {
            Some(bound) => {
                if has_identifier(bound.kind) {
                    Some(*bound)
                } else {
                    None
                }
            }
            None => None,
        }
    }

    /// The span of the first `bind` node of a symbol, a half-open byte range in the unit's text. Empty at offset 0 for a number
    /// that is no symbol's.
    pub fn first_bind(&self, symbol: SymbolId) -> Span
        ensures { result ≡ spec.first_bind self.now.semantic.now.bindings.symbols symbol.0 }
    {
        match self.symbol(symbol) {
            Some(bound) => bound.span,
            None => Span { start: 0, end: 0 },
        }
    }

    /// The scope that a symbol counts for: the one that its declaration binds in, if the name is bound to that symbol there. The
    /// program's scope for the own name of a function or class expression that another name shadows, and for a number that is no
    /// symbol's.
    pub fn symbol_scope(&self, symbol: SymbolId) -> ScopeId
        ensures { result ≡ spec.symbol_scope self.now.semantic.now.bindings.symbols symbol.0 }
    {
        match self.symbol(symbol) {
            Some(bound) => match self
                .semantic
                .bindings
                .symbols
                .binding_of(symbol.0 as usize, bound)
            {
                Some(number) => {
                    if number == symbol.0 as usize {
                        bound.scope
                    } else {
                        ScopeId(0)
                    }
                }
                None => ScopeId(0),
            },
            None => ScopeId(0),
        }
    }

    /// True of a node that is `root` or stands inside it. False where `root` is no node of the unit.
    pub fn node_within(&self, node: NodeId, root: NodeId) -> bool
        ensures { result ≡ spec.node_within self.now.semantic.now.nodes.now node.0 root.0 }
    {
        match self.semantic.nodes.get(root.0 as usize) {
            Some(entry) => root.0 <= node.0 && node.0 < entry.at.end.0,
            None => false,
        }
    }

    /// The symbol that a scope itself binds a name to: one that is no own name of a function or class expression, if there is
    /// one, else the own name. `None` for a name that it does not bind, and for a number that is no scope's.
    pub fn get_binding(&self, scope: ScopeId, name: &str) -> Option<SymbolId>
        ensures { result ≡ spec.get_binding self.now.semantic.now.bindings.names self.now.semantic.now.bindings.symbols scope.0 name.now }
    {
        match self.semantic.bindings.names.find(name) {
            Some(number) => symbol_id(self.semantic.bindings.symbols.binding(scope, number)),
            None => None,
        }
    }

    /// The scopes around a scope, itself first. Empty for a number that is no scope's.
    pub fn ancestors(&self, scope: ScopeId) -> Ancestors<'s>
        ensures { around.outward result.scopes.now result.most result.next ≡ around.ancestors self.now.semantic.now.bindings.scopes scope }
    {
        Ancestors::of(self.semantic.bindings.scopes.as_slice(), scope)
    }

    /// The index of the symbol that the nearest scope around a scope binds a name to. `None` if none binds it, and for a number
    /// that is no scope's.
    fn resolve(&self, scope: ScopeId, name: usize) -> Option<usize>
        ensures { result ≡ resolve self.now.semantic.now.bindings.symbols (around.ancestors self.now.semantic.now.bindings.scopes scope) name }
    {
        let mut scopes = self.ancestors(scope);
        'scopes: while let Some(scope) = scopes.next() {
            if let Some(number) = self.semantic.bindings.symbols.binding(scope, name) {
                return Some(number);
            }
        }
        None
    }

    /// The symbol that a name stands for in a scope: that of the nearest scope around it that binds the name. `None` for a
    /// global, and for a number that is no scope's.
    pub fn find_binding(&self, scope: ScopeId, name: &str) -> Option<SymbolId>
        ensures { result ≡ around.find_binding self.now.semantic.now.bindings.names self.now.semantic.now.bindings.symbols self.now.semantic.now.bindings.scopes scope name.now }
    {
        match self.semantic.bindings.names.find(name) {
            Some(number) => symbol_id(self.resolve(scope, number)),
            None => None,
        }
    }

    /// All symbols, in the order of their numbers.
    pub fn symbols(&self) -> Symbols
        ensures { around.ids_from result.next (result.end - result.next) ≡ around.symbol_ids self.now.semantic.now.bindings.symbols }
    {
        Symbols {
            next: 0,
            end: id_count(self.semantic.bindings.symbols.as_slice().len()),
        }
    }

    /// The node that captures of a scope's function count from: the method, getter or setter of an object, where the function is
    /// the function of this property, or a function expression that is its computed key; else the node of the scope. The unit's
    /// node for a number that is no scope's.
    pub fn capture_root_node(&self, scope: ScopeId) -> NodeId
        ensures { result ≡ made.capture_root_node self.now.semantic.now.nodes.now self.now.semantic.now.bindings.scopes scope.0 }
    {
        capture_root_node(
            self.semantic.nodes,
            self.semantic.bindings.scopes.as_slice(),
            scope,
        )
    }

    /// The half-open byte ranges of all functions in the unit's text, in the order of their scopes: the function's own; and for
    /// the function of a method, getter or setter of an object, and a function expression that is its computed key, also the range
    /// from the start of this property to the end of the function.
    pub fn function_scope_ranges(&self) -> &[(u32, u32)]
        ensures { result.now ≡ made.function_scope_ranges self.now.semantic.now.nodes.now self.now.semantic.now.bindings.scopes }
    {
        self.ranges.as_slice()
    }

    /// The scopes of functions, in order.
    pub fn function_scopes(&self) -> FunctionScopes<'_>
        ensures { result.left.now ≡ made.function_scopes self.now.semantic.now.bindings.scopes }
    {
        FunctionScopes {
            left: self.functions.as_slice(),
        }
    }

    /// The references that resolve to a symbol, in order. None for a number that is no symbol's.
    pub fn reference_ids(&self, symbol: SymbolId) -> &[ReferenceId]
        ensures { result.now ≡ listed.reference_ids self.now.semantic.now.bindings.symbols self.now.semantic.now.bindings.references symbol.0 }
    {
        bucket(&self.references, symbol.0 as usize)
    }

    /// The symbols that a scope binds names to, in order: an own name of a function or class expression that another name of the
    /// scope shadows is not among them. None for a number that is no scope's.
    pub fn bindings_in(&self, scope: ScopeId) -> Bindings<'_>
        ensures { result.left.now ≡ listed.bindings_in self.now.semantic.now.bindings.scopes self.now.semantic.now.bindings.symbols scope.0 }
    {
        Bindings {
            left: bucket(&self.bindings, scope.0 as usize),
        }
    }

    /// The symbol that a `bind` node declares first. `None` for an interface, for a later declaration of a symbol, and for a node
    /// that is no `bind` node of the unit.
    pub fn resolve_binding_identifier(&self, identifier: &BindingIdentifier<'_>) -> Option<SymbolId>
        ensures { result ≡ listed.symbol_declared self.now.semantic.now.nodes.now self.now.semantic.now.bindings.symbols identifier.now.at.id.0 }
    {
        first_at(&self.declarations, identifier.at.id.0 as usize)
    }

    /// True of a name that some reference has that resolves to no symbol: a global that the unit uses.
    #[tactic(auto, using(crate::proofs::Declaring::some_first, crate::proofs::Declaring::none_first))]
    pub fn has_unresolved_reference(&self, name: &str) -> bool
        ensures { result ≡ listed.has_unresolved_reference self.now.semantic.now.bindings.names self.now.semantic.now.bindings.references name.now }
    {
        match self.semantic.bindings.names.find(name) {
            Some(number) => match first_at(&self.unresolved, number) {
                Some(_) => true,
                None => false,
            },
            None => false,
        }
    }

    /// The symbol that a name is bound to in a scope or in one inside it: in that with the least number, if several bind it.
    /// `None` if none does, and for a number that is no scope's. It takes a look-up for each scope behind the scope, and a walk
    /// outwards for each that binds the name.
    pub fn find_binding_in_descendants(&self, name: &str, ancestor: ScopeId) -> Option<SymbolId>
        ensures { result ≡ within.find_binding_in_descendants self.now.semantic.now.bindings.names self.now.semantic.now.bindings.symbols self.now.semantic.now.bindings.scopes name.now ancestor }
    {
        let bindings = &self.semantic.bindings;
        match bindings.names.find(name) {
            Some(number) => symbol_id(found_inside(
                bindings.scopes.as_slice(),
                &bindings.symbols,
                ancestor,
                number,
            )),
            None => None,
        }
    }

    /// The scopes of the functions that a node stands inside of, the innermost first. The function of a method, getter or setter
    /// of an object counts once for itself and once for its property: it is there twice for a node inside the function, and once
    /// for one in the property's key. None for a number that is no node's.
    pub fn containing_function_scopes(&self, node: NodeId) -> ContainingFunctionScopes<'_>
        ensures { containing.functions_out result.nodes.now result.most result.next ≡ containing.containing_function_scopes self.now.semantic.now.nodes.now node.0 }
    {
        ContainingFunctionScopes::of(self.semantic.nodes, &self.methods, node)
    }

    /// A copy of the name of a symbol. Empty for a number that is no symbol's. On `OutOfMemory`, an allocation failed.
    pub fn symbol_ident(&self, alloc: Global, symbol: SymbolId) -> Result<Text, OutOfMemory>
        ensures { IfOk result (λ text. text ≡ spec.symbol_name self.now.semantic.now.bindings.names self.now.semantic.now.bindings.symbols symbol.0) }
    {
        Text::from_str(alloc, self.symbol_name(symbol))
    }

    /// The symbols that a scope binds names to, and behind them those of each block right inside it, in the order of the scopes'
    /// numbers. It takes a step for each scope of the unit. On `OutOfMemory`, an allocation failed.
    pub fn bindings_with_child_blocks(
        &self,
        alloc: Global,
        scope: ScopeId,
    ) -> Result<List<SymbolId>, OutOfMemory>
        ensures { IfOk result (λ found. found ≡ children.bindings_with_child_blocks self.now.semantic.now.bindings.scopes self.now.semantic.now.bindings.symbols scope.0) }
    {
        bindings_with_child_blocks(
            alloc,
            self.semantic.bindings.scopes.as_slice(),
            &self.semantic.bindings.symbols,
            &self.bindings,
            scope.0 as usize,
        )
    }

    /// The symbol that a `bind` node declares, be it the first to declare it or a later one. `None` for a node that is no `bind`
    /// node of the unit.
    #[tactic(auto, using(crate::proofs::Declaring::first_symbol, crate::proofs::Declaring::no_symbol))]
    pub fn declared_symbol(&self, identifier: &BindingIdentifier<'_>) -> Option<SymbolId>
        ensures { result ≡ listed.declared_symbol self.now.semantic.now.nodes.now self.now.semantic.now.bindings.declarations identifier.now.at.id.0 }
    {
        match first_at(&self.declared, identifier.at.id.0 as usize) {
            Some(symbol) => symbol,
            None => None,
        }
    }

    /// The entry of the import specifier that is a symbol's first declaration. `None` of any other symbol, and for a number
    /// that is no symbol's.
    fn imported(&self, symbol: SymbolId) -> Option<ImportEntry<'s>>
        ensures { result ≡ import_entry self.now.semantic.now.nodes.now self.now.semantic.now.imports self.now.semantic.now.bindings.symbols symbol.0 }
    {
        match self.symbol(symbol) {
            Some(bound) => import_at(&self.imports, bound.node),
            None => None,
        }
    }

    /// The binding that a symbol's first declaration makes as an import specifier, in the texts of the unit. `None` of a symbol
    /// whose first declaration is no import specifier, and for a number that is no symbol's.
    #[tactic(auto, using(crate::proofs::Importing::entry_shown))]
    pub fn import_entry(&self, symbol: SymbolId) -> Option<ImportEntry<'s>>
        ensures entry { result ≡ import_entry self.now.semantic.now.nodes.now self.now.semantic.now.imports self.now.semantic.now.bindings.symbols symbol.0 }
        ensures shown { option_map data_of result ≡ import_data self.now.semantic.now.nodes.now (map seen self.now.semantic.now.imports) self.now.semantic.now.bindings.symbols symbol.0 }
    {
        self.imported(symbol)
    }

    /// A copy of the binding that a symbol's first declaration makes as an import specifier. `None` of a symbol whose first
    /// declaration is no import specifier, and for a number that is no symbol's. On `OutOfMemory`, an allocation failed.
    pub fn import_data(
        &self,
        alloc: Global,
        symbol: SymbolId,
    ) -> Result<Option<ImportBindingData>, OutOfMemory>
        ensures { IfOk result (λ found. found ≡ import_data self.now.semantic.now.nodes.now (map seen self.now.semantic.now.imports) self.now.semantic.now.bindings.symbols symbol.0) }
    {
        match self.import_entry(symbol) {
            Some(entry) => Ok(Some(entry.to_data(alloc)?)),
            None => Ok(None),
        }
    }
}

//! The identifiers that symbols get and their names, and look-ups of names.

ghost use Rattle.std.specs.Prelude.{◌≡◌, ◌+◌, ◌++◌, ◌<◌, ◌^◌, None, Some, OnOk, IfOk, IfErr, OnErr, length, map};
ghost use Rattle.std.specs.Option.{option_map};
ghost use Rattle.rl_base.specs.declared.diagnostic.Diagnostic.{Diagnostic};
ghost use Rattle.rl_builder.specs.Builder.{state_of, names_of, with_context_identifier};
ghost use Rattle.rl_builder.specs.Closures.{KeepsStacks};
ghost use Rattle.rl_builder.specs.FunctionNames as spec;
ghost use Rattle.rl_builder.specs.Meanings.{converted, has_local_binding, is_context, is_of_program, outer_variable, symbol_at, variable_of, with_variable, IsAllowedAt, IsStoppedAt};
ghost use Rattle.rl_builder.specs.Names.{fbt_label, reserved_label, new_span, renamed, renames_among, with_refused, with_binding, NamesAgree, Resolves};
ghost use Rattle.rl_context.specs.Index.{declaration_span};
ghost use Rattle.rl_hir.specs.Identifiers.{changed_at, with_span};
ghost use Rattle.rl_hir.specs.Pairs.{identifier_of};
ghost use Rattle.rl_names.specs.Names.{is_scope_inside};
ghost use Rattle.rl_resolver.specs.Around.{ancestors};
ghost use Rattle.rl_resolver.specs.Listed.{bindings_in};
ghost use Rattle.rl_resolver.specs.Lookups.{get_binding};
ghost use Rattle.rl_used_names.specs.IdentifierNames.{AreNamed};
ghost use Rattle.rl_used_names.specs.Merged.{merged_bindings, merged_names};

use crate::builder::{Over, Work, new_temporary};
use crate::unit_tables::ReadsUnit;
use rl_ast::binding::IdentifierReference;
use rl_base::error::OutOfMemory;
use rl_base::ids::{IdentifierId, ReferenceId, ScopeId, SymbolId};
use rl_base::span::Span;
use rl_base::stop::Stop;
use rl_base::text::Text;
use rl_bindings::symbol_kind::{BindingKind as SymbolKind, DeclKind};
use rl_hir::binding::{BindingKind, VariableBinding};
use rl_hir::environment::Environment;
use rl_hir::function::IdentifierName;
use rl_hir::instruction::NonLocalBinding;
use rl_names::names::{FunctionNames, Meaning};
use rl_used_names::names::{
    Bindings, UsedNames, fbt_diagnostic, is_fbt, is_named, reserved_identifier_diagnostic,
};
use rl_used_names::reserved::is_always_reserved_word;
use std::alloc::Global;

/// The kind of a variable, by that of its binding: the one of the same name.
pub fn convert_binding_kind(kind: &SymbolKind) -> BindingKind
    ensures { result ≡ converted kind.now }
{
    match kind {
        SymbolKind::Var => BindingKind::Var,
        SymbolKind::Let => BindingKind::Let,
        SymbolKind::Const => BindingKind::Const,
        SymbolKind::Param => BindingKind::Param,
        SymbolKind::Module => BindingKind::Module,
        SymbolKind::Hoisted => BindingKind::Hoisted,
        SymbolKind::Local => BindingKind::Local,
        SymbolKind::Unknown => BindingKind::Unknown,
    }
}

/// The variable of a name that no local variable has. On `OutOfMemory` an allocation failed.
fn outer_variable(alloc: Global, binding: NonLocalBinding) -> Result<VariableBinding, OutOfMemory>
    ensures { IfOk result (λ variable. variable ≡ outer_variable binding) }
{
    match binding {
        NonLocalBinding::Global { name } => Ok(VariableBinding::Global { name }),
        NonLocalBinding::ModuleLocal { name } => Ok(VariableBinding::ModuleLocal { name }),
        NonLocalBinding::ImportDefault { name, module } => {
            let module = module.get().copy(alloc)?;
            Ok(VariableBinding::ImportDefault { name, module })
        }
        NonLocalBinding::ImportNamespace { name, module } => {
            let module = module.get().copy(alloc)?;
            Ok(VariableBinding::ImportNamespace { name, module })
        }
        NonLocalBinding::ImportSpecifier { name, import } => {
            let module = import.get().module.copy(alloc)?;
            let imported = import.get().imported.copy(alloc)?;
            Ok(VariableBinding::ImportSpecifier {
                name,
                module,
                imported,
            })
        }
    }
}

/// Appends the name `free` for each reference, in order. On `OutOfMemory` an allocation failed, and some may have been appended.
fn rename_all(
    alloc: Global,
    env: &mut Environment,
    references: &[ReferenceId],
    free: &Text,
) -> Result<(), OutOfMemory>
    ensures { OnOk result (env.new ≡ record env.old { renames = env.old.renames ++ map (renamed free.now) references.now }) }
{
    for reference in references {
        let name = free.copy(alloc)?;
        env.add_rename(*reference, name)?;
    }
    Ok(())
}

/// Appends the name `free` for each reference, in order, unless it is `name`, that in the source. On `OutOfMemory` an allocation
/// failed, and some may have been appended.
fn add_renames(
    alloc: Global,
    env: &mut Environment,
    references: &[ReferenceId],
    name: &str,
    free: &Text,
) -> Result<(), OutOfMemory>
    ensures { OnOk result (env.new ≡ record env.old { renames = env.old.renames ++ renames_among references.now name.now free.now }) }
{
    if free.as_str() == name {
        return Ok(());
    }
    rename_all(alloc, env, references, free)
}

impl<'e, U: ReadsUnit, B> Over<'e, Work<U, B>> {
    /// The span of the declaration identifier of a symbol, a half-open byte range in the unit's text (`declarationSpan`). `None`
    /// for a symbol without one, and for one whose declaration identifier stands outside the marked function.
    pub fn declaration_span(&self, symbol: SymbolId) -> Option<Span>
        ensures { result ≡ declaration_span (state_of U.tables self.now).sites (state_of U.tables self.now).semantic.bindings.symbols symbol.0 }
    {
        let unit = &self.work.unit;
        unit.identifier_spans()
            .declaration_span(symbol, unit.resolver())
    }

    /// The span of a symbol's new identifier: that of its declaration, else the given one.
    fn new_span(&self, symbol: SymbolId, given: Option<Span>) -> Option<Span>
        ensures { result ≡ new_span (state_of U.tables self.now) symbol.0 given }
    {
        match self.declaration_span(symbol) {
            Some(span) => Some(span),
            None => given,
        }
    }

    /// The label of row S1: the given span, else that of the symbol's first `bind` node.
    fn reserved_label(&self, symbol: SymbolId, given: Option<Span>) -> Span
        ensures { result ≡ reserved_label (state_of U.tables self.now) symbol.0 given }
    {
        match given {
            Some(span) => span,
            None => self.work.unit.resolver().first_bind(symbol),
        }
    }

    /// The label of row F40: the span of the symbol's declaration identifier, where it has one.
    fn fbt_label(&self, symbol: SymbolId, given: Option<Span>) -> Span
        ensures { result ≡ fbt_label (state_of U.tables self.now) symbol.0 given }
    {
        match self.work.unit.resolver().declaration_ident(symbol) {
            Some(declaration) => declaration.span,
            None => self.reserved_label(symbol, given),
        }
    }

    /// The identifier of `symbol`, whose name is `name` (`resolveBinding`). A symbol without an identifier gets a fresh one,
    /// with the span of its declaration, under the first name of `name`, `name_0`, `name_1` .. that no other symbol of this
    /// builder has; a name that is not `name` is recorded for each reference of the symbol. Row F40 is recorded where the name
    /// is `fbt` and the symbol has no identifier of another name. On `Stop::Diagnostic` the symbol has no identifier and its
    /// name is reserved (row S1): nothing changed. On `Stop::OutOfMemory` an allocation failed, and the state is unspecified.
    pub fn resolve_binding(&mut self, name: &str, symbol: SymbolId) -> Result<IdentifierId, Stop>
        requires identifiers { length self.old.env.now.identifiers < 2 ^ 32 }
        requires types { self.old.env.now.next_type + 1 < 2 ^ 32 }
        ensures same_reference { self.new.env.ghost_name ≡ self.old.env.ghost_name }
        ensures kept { KeepsStacks self.old result self.new }
        ensures resolves { Resolves (state_of U.tables self.old) (state_of U.tables self.new) name.now symbol.0 None result }
    {
        self.resolve(name, symbol, None)
    }

    /// As `resolve_binding`, at a node that has the span. The identifier gets that span where the marked function does not hold
    /// the symbol's declaration, and the label of row S1 is that span.
    pub fn resolve_binding_with_span(
        &mut self,
        name: &str,
        symbol: SymbolId,
        span: Span,
    ) -> Result<IdentifierId, Stop>
        requires identifiers { length self.old.env.now.identifiers < 2 ^ 32 }
        requires types { self.old.env.now.next_type + 1 < 2 ^ 32 }
        ensures same_reference { self.new.env.ghost_name ≡ self.old.env.ghost_name }
        ensures kept { KeepsStacks self.old result self.new }
        ensures resolves { Resolves (state_of U.tables self.old) (state_of U.tables self.new) name.now symbol.0 (Some span) result }
    {
        self.resolve(name, symbol, Some(span))
    }

    /// The identifier of `symbol`, as `resolve_binding` and `resolve_binding_with_span` answer it.
    fn resolve(
        &mut self,
        name: &str,
        symbol: SymbolId,
        given: Option<Span>,
    ) -> Result<IdentifierId, Stop>
        requires identifiers { length self.old.env.now.identifiers < 2 ^ 32 }
        requires types { self.old.env.now.next_type + 1 < 2 ^ 32 }
        ensures same_reference { self.new.env.ghost_name ≡ self.old.env.ghost_name }
        ensures kept { KeepsStacks self.old result self.new }
        ensures resolves { Resolves (state_of U.tables self.old) (state_of U.tables self.new) name.now symbol.0 given result }
    {
        let known = self.work.bindings.get(symbol);
        self.refuse_fbt(name, known, symbol, given)?;
        if let Some(identifier) = known {
            return Ok(identifier);
        }
        if is_always_reserved_word(name) {
            let alloc = self.work.alloc;
            let label = self.reserved_label(symbol, given);
            let name = Text::from_str(alloc, name)?;
            let diagnostic = reserved_identifier_diagnostic(alloc, &name, label)?;
            return Err(Stop::Diagnostic(diagnostic));
        }
        Ok(self.add_binding(name, symbol, given)?)
    }

    /// Records row F40 where the name is `fbt` and `known`, the symbol's identifier, is none or still has that name.
    fn refuse_fbt(
        &mut self,
        name: &str,
        known: Option<IdentifierId>,
        symbol: SymbolId,
        given: Option<Span>,
    ) -> Result<(), OutOfMemory>
        ensures same_reference { self.new.env.ghost_name ≡ self.old.env.ghost_name }
        ensures kept { KeepsStacks self.old result self.new }
        ensures state { OnOk result (state_of U.tables self.new ≡ with_refused (option_map (λ i. i.0) known) (state_of U.tables self.old) name.now (fbt_label (state_of U.tables self.old) symbol.0 given)) }
    {
        if name == "fbt" && is_fbt(self.env.identifiers(), known) {
            let label = self.fbt_label(symbol, given);
            let diagnostic = fbt_diagnostic(self.work.alloc, label)?;
            return self.record_diagnostic(diagnostic);
        }
        Ok(())
    }

    /// Gives a symbol a fresh identifier, under the first candidate that is free. On `OutOfMemory` the state is
    /// unspecified.
    fn add_binding(
        &mut self,
        name: &str,
        symbol: SymbolId,
        given: Option<Span>,
    ) -> Result<IdentifierId, OutOfMemory>
        requires identifiers { length self.old.env.now.identifiers < 2 ^ 32 }
        requires types { self.old.env.now.next_type + 1 < 2 ^ 32 }
        requires fresh { identifier_of self.old.work.bindings symbol.0 ≡ None }
        ensures same_reference { self.new.env.ghost_name ≡ self.old.env.ghost_name }
        ensures kept { KeepsStacks self.old result self.new }
        ensures state { OnOk result (state_of U.tables self.new ≡ with_binding (state_of U.tables self.old) name.now symbol.0 given) }
        ensures identifier { IfOk result (λ i. identifier_of self.new.work.bindings symbol.0 ≡ Some i.0) }
        ensures names { OnOk result (NamesAgree (state_of U.tables self.old) → NamesAgree (state_of U.tables self.new)) }
    {
        let alloc = self.work.alloc;
        let span = self.new_span(symbol, given);
        let free = self.work.used_names.claim(alloc, name, symbol)?;
        let references = self.work.unit.resolver().reference_ids(symbol);
        add_renames(alloc, self.env, references, name, &free)?;
        let identifier = new_temporary(self.env, span)?;
        self.work.bindings.insert(symbol, identifier)?;
        self.env.add_pair(symbol, identifier)?;
        self.env.set_name(identifier, IdentifierName::Named(free));
        Ok(identifier)
    }
}

impl<'e, U: ReadsUnit, B> Over<'e, Work<U, B>> {
    /// The meaning of an identifier: a local variable by its symbol, or what another name stands for. On `OutOfMemory` an
    /// allocation failed.
    fn meaning(&self, identifier: &IdentifierReference<'_>) -> Result<Meaning, OutOfMemory>
        ensures { IfOk result (λ meaning. meaning ≡ (names_of (state_of U.tables self.now)).meaning identifier.now.at.reference.0 identifier.now.name.now) }
    {
        let names = FunctionNames {
            resolver: self.work.unit.resolver(),
            function: self.work.function,
        };
        names.meaning(self.work.alloc, identifier)
    }

    /// The variable that an identifier stands for (`resolveIdentifier`): a local variable of the marked function with its
    /// identifier, which it gets as by `resolve_binding_with_span` if it has none, or what another name stands for; that changes
    /// nothing. On `Stop::Diagnostic` the name is that of a local variable that has no identifier, and reserved (row S1):
    /// nothing changed. On `Stop::OutOfMemory` an allocation failed, and the state is unspecified.
    pub fn resolve_identifier(
        &mut self,
        identifier: &IdentifierReference<'_>,
    ) -> Result<VariableBinding, Stop>
        requires identifiers { length self.old.env.now.identifiers < 2 ^ 32 }
        requires types { self.old.env.now.next_type + 1 < 2 ^ 32 }
        ensures same_reference { self.new.env.ghost_name ≡ self.old.env.ghost_name }
        ensures kept { KeepsStacks self.old result self.new }
        ensures state { OnOk result (state_of U.tables self.new ≡ with_variable (state_of U.tables self.old) ((names_of (state_of U.tables self.old)).meaning identifier.now.at.reference.0 identifier.now.name.now) identifier.now.name.now identifier.now.at.span) }
        ensures binding { IfOk result (λ variable. variable ≡ variable_of (state_of U.tables self.old) ((names_of (state_of U.tables self.old)).meaning identifier.now.at.reference.0 identifier.now.name.now)) }
        ensures names { OnOk result (NamesAgree (state_of U.tables self.old) → NamesAgree (state_of U.tables self.new)) }
        ensures allowed { OnOk result (IsAllowedAt (state_of U.tables self.old) ((names_of (state_of U.tables self.old)).meaning identifier.now.at.reference.0 identifier.now.name.now) identifier.now.name.now) }
        ensures stopped { IfErr result (λ e. (d : Diagnostic) → e ≡ Stop.Diagnostic d → IsStoppedAt (state_of U.tables self.old) ((names_of (state_of U.tables self.old)).meaning identifier.now.at.reference.0 identifier.now.name.now) identifier.now.name.now identifier.now.at.span d) }
        ensures unchanged { IfErr result (λ e. (d : Diagnostic) → e ≡ Stop.Diagnostic d → state_of U.tables self.new ≡ state_of U.tables self.old) }
    {
        let alloc = self.work.alloc;
        let resolver = self.work.unit.resolver();
        match self.meaning(identifier)? {
            Meaning::Local(symbol) => {
                let kind = resolver.binding_kind(symbol);
                let name = identifier.name.as_str();
                match self.resolve_binding_with_span(name, symbol, identifier.at.span) {
                    Ok(id) => Ok(VariableBinding::Identifier {
                        identifier: id,
                        binding_kind: convert_binding_kind(&kind),
                    }),
                    Err(stop) => Err(stop),
                }
            }
            Meaning::Outer(binding) => Ok(outer_variable(alloc, binding)?),
        }
    }

    /// Gives an identifier its span, in place of the one that it had (`setIdentifierDeclarationSpan`).
    pub fn set_identifier_declaration_span(&mut self, id: IdentifierId, span: Span)
        requires { id.0 < length self.old.env.now.identifiers }
        ensures same_reference { self.new.env.ghost_name ≡ self.old.env.ghost_name }
        ensures state { state_of U.tables self.new ≡ record (state_of U.tables self.old) { env = record (state_of U.tables self.old).env { identifiers = changed_at (with_span span) id.0 (state_of U.tables self.old).env.identifiers } } }
        ensures names { NamesAgree (state_of U.tables self.old) → NamesAgree (state_of U.tables self.new) }
    {
        self.env.set_span(id, span);
    }

    /// True of a symbol that counts for the program's scope.
    fn is_of_program(&self, symbol: SymbolId) -> bool
        ensures { result ≡ is_of_program (state_of U.tables self.now) symbol }
    {
        self.work.unit.resolver().symbol_scope(symbol).0 == 0
    }

    /// True of a context identifier, by its symbol. False where there is none, and for a symbol of the program's scope.
    #[tactic(auto, using(rl_hir::proofs::Symbols::found_members))]
    pub fn is_context_binding(&self, symbol: Option<SymbolId>) -> bool
        ensures { result ≡ is_context (state_of U.tables self.now) symbol }
    {
        match symbol {
            Some(symbol) => {
                if self.is_of_program(symbol) {
                    return false;
                }
                self.work.context_identifiers.contains(&symbol)
            }
            None => false,
        }
    }

    /// True of an identifier that resolves to a context identifier (`isContextIdentifier`). False for a global, and for a symbol
    /// of the program's scope.
    pub fn is_context_identifier(&self, id: &IdentifierReference<'_>) -> bool
        ensures { result ≡ is_context (state_of U.tables self.now) (symbol_at (state_of U.tables self.now) id.now.at.reference.0) }
    {
        self.is_context_binding(self.work.unit.resolver().resolve_reference(id))
    }

    /// True of a name that the marked function, or a scope in it, binds to a symbol which is not of the program's scope.
    pub fn has_local_binding(&self, name: &str) -> bool
        ensures { result ≡ has_local_binding (state_of U.tables self.now) name.now }
    {
        let resolver = self.work.unit.resolver();
        match resolver.find_binding_in_descendants(name, self.work.component_scope) {
            Some(symbol) => !self.is_of_program(symbol),
            None => false,
        }
    }

    /// Adds a symbol to the context identifiers. On `OutOfMemory` an allocation failed, and nothing changed.
    pub fn add_context_identifier(&mut self, symbol: SymbolId) -> Result<(), OutOfMemory>
        ensures same_reference { self.new.env.ghost_name ≡ self.old.env.ghost_name }
        ensures kept { KeepsStacks self.old result self.new }
        ensures state { OnOk result (state_of U.tables self.new ≡ with_context_identifier (state_of U.tables self.old) symbol) }
        ensures unchanged { OnErr result (state_of U.tables self.new ≡ state_of U.tables self.old) }
    {
        self.work.context_identifiers.insert(symbol)?;
        Ok(())
    }

    /// Adds the names of an inner function's builder that are not used yet, each with its symbol (`mergeUsedNames`). On
    /// `OutOfMemory` an allocation failed, and the state is unspecified.
    pub fn merge_used_names(&mut self, child: UsedNames) -> Result<(), OutOfMemory>
        ensures same_reference { self.new.env.ghost_name ≡ self.old.env.ghost_name }
        ensures kept { KeepsStacks self.old result self.new }
        ensures state { OnOk result (state_of U.tables self.new ≡ record (state_of U.tables self.old) { used_names = merged_names (state_of U.tables self.old).used_names child }) }
        ensures names { OnOk result (NamesAgree (state_of U.tables self.old) → NamesAgree (state_of U.tables self.new)) }
    {
        self.work.used_names.merge(self.work.alloc, &child)?;
        Ok(())
    }

    /// Gives the symbols of an inner function's builder that have no identifier here their identifiers there (`mergeBindings`).
    /// On `OutOfMemory` an allocation failed, and the state is unspecified.
    pub fn merge_bindings(&mut self, child: Bindings) -> Result<(), OutOfMemory>
        ensures same_reference { self.new.env.ghost_name ≡ self.old.env.ghost_name }
        ensures kept { KeepsStacks self.old result self.new }
        ensures state { OnOk result (state_of U.tables self.new ≡ record (state_of U.tables self.old) { bindings = merged_bindings (state_of U.tables self.old).bindings child }) }
        ensures names { OnOk result (AreNamed child (state_of U.tables self.old).used_names (state_of U.tables self.old).env.identifiers → NamesAgree (state_of U.tables self.old) → NamesAgree (state_of U.tables self.new)) }
    {
        self.work.bindings.merge(&child)?;
        Ok(())
    }
}

impl<'e, U: ReadsUnit, B> Over<'e, Work<U, B>> {
    /// True of a symbol whose identifier is named `name`.
    fn has_name(&self, name: &str, symbol: SymbolId) -> bool
        ensures { result ≡ spec.has_name (state_of U.tables self.now) name.now symbol }
    {
        match self.work.bindings.get(symbol) {
            Some(identifier) => is_named(self.env.identifiers(), identifier, name),
            None => false,
        }
    }

    /// True of a type alone, and of an enum.
    fn is_passed_over(&self, symbol: SymbolId) -> bool
        ensures { result ≡ spec.is_passed_over (state_of U.tables self.now).semantic.bindings.symbols symbol }
    {
        let resolver = self.work.unit.resolver();
        resolver.is_type_only_binding(symbol)
            || matches!(resolver.decl_kind(symbol), DeclKind::TSEnumDeclaration)
    }

    /// The first symbol that a scope binds whose identifier is named `name`, types alone and enums passed over.
    fn first_named(&self, name: &str, scope: ScopeId) -> Option<SymbolId>
        ensures { result ≡ spec.first_named (state_of U.tables self.now) name.now (bindings_in (state_of U.tables self.now).semantic.bindings.scopes (state_of U.tables self.now).semantic.bindings.symbols scope.0) }
    {
        let mut symbols = self.work.unit.resolver().bindings_in(scope);
        'symbols: while let Some(symbol) = symbols.next() {
            if self.has_name(name, symbol) && !self.is_passed_over(symbol) {
                return Some(symbol);
            }
        }
        None
    }

    /// The symbol that a scope binds a name to, if it has no identifier yet and is no type alone and no enum.
    fn without_identifier(&self, name: &str, scope: ScopeId) -> Option<SymbolId>
        ensures { result ≡ spec.without_identifier (state_of U.tables self.now) (get_binding (state_of U.tables self.now).semantic.bindings.names (state_of U.tables self.now).semantic.bindings.symbols scope.0 name.now) }
    {
        match self.work.unit.resolver().get_binding(scope, name) {
            Some(symbol) => {
                if self.work.bindings.get(symbol).is_some() || self.is_passed_over(symbol) {
                    None
                } else {
                    Some(symbol)
                }
            }
            None => None,
        }
    }

    /// The symbol that a name stands for in a scope alone.
    fn found_in(&self, name: &str, scope: ScopeId) -> Option<SymbolId>
        ensures { result ≡ spec.found_in (state_of U.tables self.now) name.now scope }
    {
        match self.first_named(name, scope) {
            Some(symbol) => Some(symbol),
            None => self.without_identifier(name, scope),
        }
    }

    /// The symbol that a name stands for in the nearest scope around a scope in which it stands for one.
    fn found_around(&self, name: &str, scope: ScopeId) -> Option<SymbolId>
        ensures { result ≡ spec.found_among (state_of U.tables self.now) name.now (ancestors (state_of U.tables self.now).semantic.bindings.scopes scope) }
    {
        let mut scopes = self.work.unit.resolver().ancestors(scope);
        'scopes: while let Some(around) = scopes.next() {
            if let Some(symbol) = self.found_in(name, around) {
                return Some(symbol);
            }
        }
        None
    }

    /// True of a scope that the marked function makes, or a node inside it.
    fn is_scope_inside(&self, scope: ScopeId) -> bool
        ensures { result ≡ is_scope_inside (state_of U.tables self.now).function (state_of U.tables self.now).semantic.bindings.scopes scope.0 }
    {
        let function = self.work.function;
        let scopes = &self.work.unit.resolver().semantic.bindings.scopes;
        match scopes.get(scope.0 as usize) {
            Some(entry) => function.id.0 <= entry.node.0 && entry.node.0 < function.end.0,
            None => false,
        }
    }

    /// The symbol that the name of a function declaration stands for, from a scope outwards, as names are after symbols got their
    /// identifiers. `None` if it is not of the marked function.
    pub fn get_function_declaration_binding(&self, scope: ScopeId, name: &str) -> Option<SymbolId>
        ensures { result ≡ spec.function_binding (state_of U.tables self.now) scope name.now }
    {
        let symbol = self.found_around(name, scope)?;
        if self.is_scope_inside(self.work.unit.resolver().symbol_scope(symbol)) {
            Some(symbol)
        } else {
            None
        }
    }
}

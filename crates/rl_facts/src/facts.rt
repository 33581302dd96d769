//! The properties of a unit's names that rows ask for.

ghost use Rattle.std.specs.Prelude.{◌≡◌, true, map, IfErr, IfOk};
ghost use Rattle.rl_ast.specs.FunctionNodes.{seen_function_node};
ghost use Rattle.rl_base.specs.declared.diagnostic.Diagnostic.{Diagnostic as Made};
ghost use Rattle.rl_base.specs.declared.ids.SymbolId.{SymbolId as Symbol};
ghost use Rattle.rl_base.specs.declared.stop.Stop.TheVariants as stop;
ghost use Rattle.rl_context.specs.Context as context;
ghost use Rattle.rl_context.specs.Sites.{sites_in};
ghost use Rattle.rl_facts.specs.Facts as spec;
ghost use Rattle.rl_markers.specs.Named.{tables};
ghost use Rattle.rl_model.specs.Code.{lowered_functions};
ghost use Rattle.rl_model.specs.Facts as model;
ghost use Rattle.rl_model.specs.Hoisting as hoisting;
ghost use Rattle.rl_model.specs.Supported.{has_wrapped_target};
ghost use Rattle.rl_names.specs.Seen.{seen};
ghost use Rattle.rl_syntax.specs.Syntax.{syntax};

use crate::lookups::{
    declared, declares_variable, is_bound, is_const, is_global, is_module, is_of_head,
};
use crate::unit_facts::UnitFacts;
use rl_ast::function_node::FunctionNode;
use rl_base::ids::{NodeId, ReferenceId, SymbolId};
use rl_base::stop::Stop;
use rl_base::text::Text;
use rl_code::code::at_of;
use rl_code::numbers::flag_at;
use rl_code::variables::Variables;
use rl_context::context::find_context_identifiers;
use rl_context::index::IdentifierLocIndex;
use rl_dead::functions::dead_flags;
use rl_markers::marker_table::MarkerTable;
use rl_resolver::resolver::ScopeResolver;
use rl_syntax::numbered::Numbered;
use std::alloc::Global;
use std::collections::BTreeSet;

/// The variables that a function shares with its inner functions. On `Diagnostic`, the row S3 applies: a target of an assignment is
/// wrapped. On `OutOfMemory`, an allocation failed.
#[tactic(auto, using(crate::proofs::Shared::wrapped))]
fn contexts_of(
    alloc: Global,
    resolver: &ScopeResolver<'_>,
    function: &FunctionNode<'_>,
) -> Result<BTreeSet<SymbolId>, Stop>
    ensures found { IfOk result (λ found. (symbol : Symbol) → context.has found symbol ≡ context.is_context resolver.now.semantic.now.bindings (sites_in (seen_function_node function.now)) symbol.0) }
    ensures wrapped { IfErr result (λ e. (diagnostic : Made) → e ≡ stop.Diagnostic diagnostic → has_wrapped_target (seen_function_node function.now) ≡ true) }
{
    let index = IdentifierLocIndex::of(alloc, function)?;
    find_context_identifiers(alloc, function, resolver, &index)
}

impl<'s> UnitFacts<'s> {
    /// The properties of the names of a unit, in the lowering of its marked function `marked`, which `function` is too. `functions` are
    /// all lowered functions, `variables` the names of the unit. On `Diagnostic`, the row S3 applies: a target of an assignment in the
    /// function is wrapped. On `OutOfMemory`, an allocation failed, or there are more symbols than ids, which no unit has.
    #[tactic(auto, using(crate::proofs::Shared::context_bare))]
    pub fn of(
        alloc: Global,
        variables: Variables<'s>,
        function: &FunctionNode<'_>,
        marked: &'s Numbered,
        functions: &[&Numbered],
    ) -> Result<UnitFacts<'s>, Stop>
        requires marked { seen_function_node function.now ≡ syntax marked.now }
        requires functions { map (λ t. syntax t.now) functions.now ≡ lowered_functions (syntax marked.now) }
        ensures facts { IfOk result (λ facts. spec.facts_in facts ≡ spec.facts_by (tables variables.entry) variables.entry.names.resolver.now.semantic.now.nodes.now (seen variables.entry.names) (syntax marked.now)) }
        ensures wrapped { IfErr result (λ e. (diagnostic : Made) → e ≡ stop.Diagnostic diagnostic → has_wrapped_target (syntax marked.now) ≡ true) }
    {
        let contexts = contexts_of(alloc, variables.names.resolver, function)?;
        let markers = MarkerTable::of(alloc, &variables, marked)?;
        let dead = dead_flags(alloc, functions)?;
        Ok(UnitFacts {
            variables,
            marked,
            contexts,
            markers,
            dead,
        })
    }
}

impl UnitFacts<'_> {
    /// True of a local variable that is declared as a constant.
    pub fn is_const(&self, symbol: SymbolId) -> bool
        ensures { result ≡ (spec.facts_in self.now).is_const symbol.0 }
    {
        is_const(&self.variables, symbol)
    }

    /// True of a symbol with a marker in front of a node or of a statement around it.
    fn is_marked_before(&self, node: NodeId, symbol: SymbolId) -> bool
        ensures { result ≡ hoisting.is_marked_before (tables self.now.variables) (seen self.now.variables.names) (syntax self.now.marked.now) node.0 symbol.0 }
    {
        self.markers
            .is_marked_before(&self.variables, node.0, symbol.0)
    }

    /// True of a variable that the marked function shares with its inner functions.
    fn is_shared(&self, symbol: SymbolId) -> bool
        ensures { result ≡ context.is_context (tables self.now.variables) (sites_in (syntax self.now.marked.now)) symbol.0 }
    {
        self.contexts.contains(&symbol)
    }

    /// True of a symbol that is a context identifier where the node stands.
    pub fn is_context(&self, node: NodeId, symbol: SymbolId) -> bool
        ensures { result ≡ (spec.facts_in self.now).is_context node.0 symbol.0 }
    {
        self.is_shared(symbol) || self.is_marked_before(node, symbol)
    }

    /// True of a reference that resolves to no symbol, or to an alias, an enum or a namespace.
    pub fn is_global(&self, reference: ReferenceId) -> bool
        ensures { result ≡ (spec.facts_in self.now).is_global reference.0 }
    {
        is_global(&self.variables, reference)
    }

    /// True of a `bind` node that declares a variable: a name in a pattern, or that of a function declaration.
    pub fn is_variable(&self, bind: NodeId) -> bool
        ensures { result ≡ (spec.facts_in self.now).is_variable bind.0 }
    {
        declares_variable(&self.variables, bind)
    }

    /// True of the declaration, at the node `bind`, of a constant that is a context identifier, outside heads of loops, without a
    /// marker.
    fn is_lost_symbol(&self, bind: NodeId, symbol: SymbolId) -> bool
        ensures { result ≡ model.is_lost_at self.now.variables.names.resolver.now.semantic.now.nodes.now (tables self.now.variables) (seen self.now.variables.names) (syntax self.now.marked.now) bind.0 symbol.0 }
    {
        is_const(&self.variables, symbol)
            && !is_of_head(&self.variables, symbol)
            && self.is_shared(symbol)
            && !self.is_marked_before(bind, symbol)
    }

    /// True of a `bind` node of a constant that is a context identifier and that no marker hoists.
    pub fn is_lost(&self, bind: NodeId) -> bool
        ensures { result ≡ (spec.facts_in self.now).is_lost bind.0 }
    {
        match declared(&self.variables, bind) {
            Some(symbol) => self.is_lost_symbol(bind, symbol),
            None => false,
        }
    }

    /// True of a name that a scope of the marked function binds. It takes a look-up for each scope behind that of the function.
    pub fn is_bound(&self, name: &Text) -> bool
        ensures { result ≡ (spec.facts_in self.now).is_bound name.now }
    {
        is_bound(&self.variables, at_of(self.marked).scope, name)
    }

    /// True of a reference to a variable that is not below the program's scope.
    pub fn is_module(&self, reference: ReferenceId) -> bool
        ensures { result ≡ (spec.facts_in self.now).is_module reference.0 }
    {
        is_module(&self.variables, reference)
    }

    /// True of an inner function in a dead part of its function.
    pub fn is_dead(&self, node: NodeId) -> bool
        ensures { result ≡ (spec.facts_in self.now).is_dead node.0 }
    {
        flag_at(self.dead.as_slice(), node.0 as usize)
    }
}

//! An inner function, built by a second builder over the environment of the first.

ghost use Rattle.std.specs.Prelude.{◌≡◌, ◌+◌, ◌<◌, ◌^◌, IfOk, OnOk, length};
ghost use Rattle.builder_tests.specs.Inner.{HasInner, IsInner};
ghost use Rattle.rl_builder.specs.Builder.{state_of};

use indexmap::IndexMap;
use rl_base::error::OutOfMemory;
use rl_base::ids::{EvaluationOrder, FunctionId, NodeId, ScopeId, SymbolId};
use rl_base::list::List;
use rl_base::span::Span;
use rl_builder::builder::{Bindings, HirBuilder, UsedNames, create_temporary_place};
use rl_builder::copies::{copy_context, copy_symbols};
use rl_builder::unit_tables::ReadsUnit;
use rl_hir::blocks::GraphBlocks;
use rl_hir::environment::Environment;
use rl_hir::function::{HirFunction, ReactFunctionType};
use rl_hir::instruction::{Instruction, InstructionValue, PrimitiveValue};
use rl_hir::terminal::{ReturnVariant, Terminal, TerminalKind};
use std::alloc::Global;
use std::collections::BTreeSet;

/// A function with its graph, and the names and identifiers of its builder.
#[derive(Drop)]
pub struct Inner {
    /// The function.
    pub function: HirFunction<GraphBlocks>,
    /// The names of identifiers, each with its symbol.
    pub used_names: UsedNames,
    /// The identifiers of symbols.
    pub bindings: Bindings,
}

/// A function that returns undefined, built by a builder of its own over `env`. On `OutOfMemory` an allocation failed.
#[allow(clippy::too_many_arguments)]
pub fn build_inner<U: ReadsUnit>(
    alloc: Global,
    env: &mut Environment,
    unit: U,
    scope: ScopeId,
    component: ScopeId,
    context_identifiers: BTreeSet<SymbolId>,
    bindings: Bindings,
    context: IndexMap<SymbolId, Span>,
    used_names: UsedNames,
) -> Result<Inner, OutOfMemory>
    requires blocks { env.old.next_block + 2 < 2 ^ 32 }
    requires identifiers { length env.old.identifiers + 1 < 2 ^ 32 }
    requires types { env.old.next_type + 2 < 2 ^ 32 }
    ensures made { IfOk result (λ inner. IsInner env.old (record {
      semantic = (U.tables unit).semantic;
      sites = (U.tables unit).sites;
      function_scope = scope;
      component_scope = component;
      context_identifiers = context_identifiers.keys;
      bindings = bindings;
      context = context.entries;
      used_names = used_names;
    }) (record { blocks = inner.function.body.blocks; table = inner.function.instructions; entry = inner.function.body.entry }) env.new) }
    ensures bindings { IfOk result (λ inner. inner.bindings ≡ bindings) }
    ensures used_names { IfOk result (λ inner. inner.used_names ≡ used_names) }
{
    let mut builder = HirBuilder::<U, GraphBlocks>::over(
        alloc,
        &mut *env,
        unit,
        scope,
        component,
        context_identifiers,
        Some(bindings),
        Some(context),
        None,
        Some(used_names),
    )?;
    let test = builder.create_temporary_place(None)?;
    builder.push(Instruction {
        order: EvaluationOrder(0),
        lvalue: test,
        value: InstructionValue::Primitive(PrimitiveValue::Undefined),
        span: None,
    })?;
    let end = Terminal {
        order: EvaluationOrder(0),
        span: None,
        kind: TerminalKind::Return {
            variant: ReturnVariant::Explicit,
            value: test,
        },
    };
    builder.terminate(end, None)?;
    let built = builder.build()?;
    let returns = create_temporary_place(env, None)?;
    Ok(Inner {
        function: HirFunction {
            span: None,
            name: None,
            fn_type: ReactFunctionType::Other,
            generator: false,
            is_async: false,
            directives: List::new(alloc),
            params: List::new(alloc),
            context: List::new(alloc),
            returns,
            body: built.hir,
            instructions: built.instructions,
        },
        used_names: built.used_names,
        bindings: built.bindings,
    })
}

/// Adds an inner function, the graph of `node`, whose scope is `scope`, to the environment of `parent`, by a builder that
/// begins with copies of the parent's names, identifiers and captures. Returns its id. On `OutOfMemory` an allocation failed.
pub fn lower_inner<U: ReadsUnit>(
    alloc: Global,
    parent: &mut HirBuilder<'_, U, GraphBlocks>,
    node: NodeId,
    scope: ScopeId,
) -> Result<FunctionId, OutOfMemory>
    requires blocks { parent.old.env.now.next_block + 2 < 2 ^ 32 }
    requires identifiers { length parent.old.env.now.identifiers + 1 < 2 ^ 32 }
    requires types { parent.old.env.now.next_type + 2 < 2 ^ 32 }
    requires functions { length parent.old.env.now.functions < 2 ^ 32 }
    ensures same_reference { parent.new.env.ghost_name ≡ parent.old.env.ghost_name }
    ensures id { IfOk result (λ id. id.0 ≡ length parent.old.env.now.functions) }
    ensures inner { OnOk result (HasInner (state_of U.tables parent.old) (state_of U.tables parent.new) node scope) }
{
    let unit = parent.unit();
    let component = parent.component_scope();
    let context_identifiers = copy_symbols(parent.context_identifiers())?;
    let bindings = parent.bindings().copy()?;
    let context = copy_context(parent.context())?;
    let used_names = parent.used_names().copy(alloc)?;
    let env = parent.environment_mut();
    let inner = build_inner(
        alloc,
        env,
        unit,
        scope,
        component,
        context_identifiers,
        bindings,
        context,
        used_names,
    )?;
    let id = parent.environment_mut().add_function(inner.function, node)?;
    parent.merge_used_names(inner.used_names)?;
    parent.merge_bindings(inner.bindings)?;
    Ok(id)
}

/// Makes `depth` builders, each over the environment of the builder around it, and lets go of them: fewer where that has
/// handed out more than 1000 block ids. On `OutOfMemory` an allocation failed.
pub fn nest<U: ReadsUnit>(
    alloc: Global,
    parent: &mut HirBuilder<'_, U, GraphBlocks>,
    scope: ScopeId,
    depth: u32,
) -> Result<(), OutOfMemory>
    ensures same_reference { parent.new.env.ghost_name ≡ parent.old.env.ghost_name }
    ensures own { parent.new.work ≡ parent.old.work }
{
    if depth == 0 || parent.environment().next_block() > 1000 {
        return Ok(());
    }
    let unit = parent.unit();
    let component = parent.component_scope();
    let bindings = parent.bindings().copy()?;
    let used_names = parent.used_names().copy(alloc)?;
    let mut child = HirBuilder::<U, GraphBlocks>::over(
        alloc,
        parent.environment_mut(),
        unit,
        scope,
        component,
        BTreeSet::new(alloc),
        Some(bindings),
        None,
        None,
        Some(used_names),
    )?;
    nest(alloc, &mut child, scope, depth - 1)
}

//! A builder of an inner function that captures a variable: its entry has a kind of its own, and it resolves a name.

ghost use Rattle.std.specs.Prelude.{◌+◌, ◌<◌, ◌^◌};

use crate::texts::ready;
use indexmap::IndexMap;
use rl_base::ids::{EvaluationOrder, ScopeId, SymbolId};
use rl_base::span::Span;
use rl_base::stop::Stop;
use rl_builder::builder::{Bindings, HirBuilder, UsedNames};
use rl_builder::copies::copy_context;
use rl_builder::graph::Built;
use rl_builder::unit_tables::ReadsUnit;
use rl_hir::blocks::GraphBlocks;
use rl_hir::environment::Environment;
use rl_hir::function::BlockKind;
use rl_hir::terminal::{Terminal, TerminalKind};
use std::alloc::Global;
use std::collections::BTreeSet;

/// A graph, and the captures of its builder.
#[derive(Drop)]
pub struct Capturing {
    /// The graph.
    pub built: Built<GraphBlocks>,
    /// The captured symbols.
    pub context: IndexMap<SymbolId, Span>,
}

/// A graph of one block of the kind `Sequence` that never ends, by a builder over `env` that captures `context`. The builder resolves
/// `name`, that of `symbol`, behind the block. On a diagnostic the name is reserved; on `OutOfMemory` an allocation failed.
#[allow(clippy::too_many_arguments)]
pub fn build_capturing<U: ReadsUnit>(
    alloc: Global,
    env: &mut Environment,
    unit: U,
    scope: ScopeId,
    component: ScopeId,
    bindings: Bindings,
    context: IndexMap<SymbolId, Span>,
    used_names: UsedNames,
    name: &str,
    symbol: SymbolId,
) -> Result<Capturing, Stop>
    requires { env.old.next_block + 1 < 2 ^ 32 }
{
    let mut builder = HirBuilder::<U, GraphBlocks>::over(
        alloc,
        &mut *env,
        unit,
        scope,
        component,
        BTreeSet::new(alloc),
        Some(bindings),
        Some(context),
        Some(BlockKind::Sequence),
        Some(used_names),
    )?;
    let context = copy_context(builder.context())?;
    let end = Terminal {
        order: EvaluationOrder(0),
        span: None,
        kind: TerminalKind::Unreachable,
    };
    ready(&builder)?;
    builder.terminate(end, None)?;
    ready(&builder)?;
    builder.resolve_binding(name, symbol)?;
    let built = builder.build()?;
    Ok(Capturing { built, context })
}

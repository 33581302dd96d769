//! An `if` statement, by a closure and by single moves, and a graph with one.

ghost use Rattle.std.specs.Prelude.{◌≡◌, ◌+◌, ◌<◌, ◌^◌, IfOk, OnOk, length};
ghost use Rattle.builder_tests.specs.Branch as spec;
ghost use Rattle.rl_builder.specs.Builder.{state_of};
ghost use Rattle.rl_builder.specs.Closures.{KeepsStacks};
ghost use Rattle.rl_order.specs.Predecessors.{PredecessorsReached};

use rl_atoms::entity_table::EntityTable;
use rl_base::error::OutOfMemory;
use rl_base::ids::{BlockId, EvaluationOrder, ScopeId};
use rl_base::stop::Stop;
use rl_builder::builder::HirBuilder;
use rl_builder::graph::Built;
use rl_builder::unit_tables::ReadsUnit;
use rl_hir::blocks::Blocks;
use rl_hir::environment::Environment;
use rl_hir::function::{BlockKind, ReactFunctionType};
use rl_hir::instruction::{Instruction, InstructionValue, Place, PrimitiveValue};
use rl_hir::terminal::{GotoVariant, ReturnVariant, Terminal, TerminalKind};
use std::alloc::Global;
use std::collections::BTreeSet;

/// A terminal that goes on in the block behind a construct.
pub fn goto(block: BlockId) -> Terminal
    ensures { result ≡ spec.goto block.0 }
{
    Terminal {
        order: EvaluationOrder(0),
        span: None,
        kind: TerminalKind::Goto {
            block,
            variant: GotoVariant::Break,
        },
    }
}

/// A terminal that goes to `consequent` or to `after`, and on in `after`.
fn branch(test: Place, consequent: BlockId, after: BlockId) -> Terminal
    ensures { result ≡ spec.branch test consequent.0 after.0 }
{
    Terminal {
        order: EvaluationOrder(0),
        span: None,
        kind: TerminalKind::If {
            test,
            consequent,
            alternate: after,
            fallthrough: after,
        },
    }
}

/// Ends the current block by an `if` whose branch is one instruction, and goes on behind it. On `Stop::OutOfMemory` an allocation
/// failed: handlers and scopes are kept.
pub fn build_if<U: ReadsUnit, B>(
    builder: &mut HirBuilder<'_, U, B>,
    test: Place,
    instruction: Instruction,
) -> Result<(), Stop>
    requires instructions { length (state_of U.tables builder.old).table < 2 ^ 32 }
    requires blocks { builder.old.env.now.next_block + 3 < 2 ^ 32 }
    ensures kept { KeepsStacks builder.old result builder.new }
{
    let behind = builder.reserve(BlockKind::Block)?;
    let after = behind.id;
    let consequent = builder.try_enter(BlockKind::Block, |builder, _id| {
        builder.push(instruction)?;
        Ok(goto(after))
    })?;
    builder.terminate_with_continuation(branch(test, consequent, after), behind)?;
    Ok(())
}

/// Ends the current block by an `if` whose branch is empty, and goes on behind it, in a block of the first fresh id. On
/// `OutOfMemory` an allocation failed.
pub fn build_empty_if<U: ReadsUnit, B>(
    builder: &mut HirBuilder<'_, U, B>,
    test: Place,
) -> Result<(), OutOfMemory>
    requires { builder.old.env.now.next_block + 2 < 2 ^ 32 }
    ensures same_reference { builder.new.env.ghost_name ≡ builder.old.env.ghost_name }
    ensures state { OnOk result (state_of U.tables builder.new ≡ spec.with_empty_if (state_of U.tables builder.old) test) }
{
    let behind = builder.reserve(BlockKind::Block)?;
    let after = behind.id;
    let inner = builder.reserve(BlockKind::Block)?;
    let consequent = inner.id;
    let outer = builder.enter(inner);
    builder.leave(outer, goto(after))?;
    builder.terminate_with_continuation(branch(test, consequent, after), behind)
}

/// The graph of a function that tests undefined in an `if` with an empty branch, and returns it. It has three blocks. On
/// `OutOfMemory` an allocation failed.
pub fn graph_of_if<U: ReadsUnit, B: Blocks>(
    alloc: Global,
    unit: U,
    scope: ScopeId,
) -> Result<Built<B>, OutOfMemory>
    ensures entry { IfOk result (λ built. built.hir.entry.0 ≡ 0) }
    ensures predecessors { IfOk result (λ built. PredecessorsReached (B.pairs built.hir.blocks) built.hir.entry (B.pairs built.hir.blocks)) }
{
    let mut env = Environment::new(alloc, ReactFunctionType::Other, EntityTable::new(alloc))?;
    let mut builder = HirBuilder::<U, B>::over(
        alloc,
        &mut env,
        unit,
        scope,
        scope,
        BTreeSet::new(alloc),
        None,
        None,
        None,
        None,
    )?;
    let test = builder.create_temporary_place(None)?;
    builder.push(Instruction {
        order: EvaluationOrder(0),
        lvalue: test,
        value: InstructionValue::Primitive(PrimitiveValue::Undefined),
        span: None,
    })?;
    build_empty_if(&mut builder, test)?;
    let end = Terminal {
        order: EvaluationOrder(0),
        span: None,
        kind: TerminalKind::Return {
            variant: ReturnVariant::Explicit,
            value: test,
        },
    };
    builder.terminate(end, None)?;
    builder.build()
}

//! The graph of completed blocks.

ghost use Rattle.std.specs.Prelude.{◌≡◌, ◌++◌, ◌<◌, None, OnOk, OnErr, IfOk, option_copied, slice_get};
ghost use Rattle.rl_builder.specs.Build.{table_of};
ghost use Rattle.rl_builder.specs.Dropped as dropped;

use rl_base::diagnostic::Diagnostic;
use rl_base::error::OutOfMemory;
use rl_base::ids::{BlockId, InstructionId};
use rl_base::list::List;
use rl_base::row::Row;
use rl_base::span::Span;
use rl_hir::blocks::Blocks;
use rl_hir::environment::Environment;
use rl_hir::function::{BasicBlock, Hir};
use rl_hir::instruction::{Instruction, InstructionValue};
use rl_used_names::names::{Bindings, UsedNames};
use std::alloc::Global;

/// A finished graph, its instruction table, and the names that were given.
#[derive(Drop)]
pub struct Built<B> {
    /// The entry, and the blocks in their order.
    pub hir: Hir<B>,
    /// The instruction table, indexed by instruction id.
    pub instructions: List<Instruction>,
    /// The names of identifiers, each with its symbol.
    pub used_names: UsedNames,
    /// The identifiers of symbols.
    pub bindings: Bindings,
}

/// A table of the blocks, each under its id, in order. On `OutOfMemory` an allocation failed, and nothing is kept.
pub(crate) fn table_of<B: Blocks>(
    alloc: Global,
    completed: Vec<(BlockId, BasicBlock)>,
) -> Result<B, OutOfMemory>
    ensures { IfOk result (λ blocks. B.pairs blocks ≡ table_of completed.items) }
{
    let mut blocks = B::empty(alloc);
    for (id, block) in completed {
        blocks.put(id, block)?;
    }
    Ok(blocks)
}

/// True of an instruction that makes a function. One that makes a method does not.
fn makes_function(instruction: &Instruction) -> bool
    ensures { result ≡ dropped.is_function_expression instruction.now.value }
{
    match instruction.value {
        InstructionValue::FunctionExpression(_) => true,
        _ => false,
    }
}

/// The instruction with this id, if it makes a function.
fn function_at(table: &[Instruction], id: InstructionId) -> Option<&Instruction>
    ensures { option_copied result ≡ dropped.function_or (slice_get table.now id.0) None }
{
    let instruction = table.get(id.0 as usize)?;
    if makes_function(instruction) {
        Some(instruction)
    } else {
        None
    }
}

/// The first of the listed instructions that makes a function.
fn first_function<'t>(table: &'t [Instruction], listed: &[InstructionId]) -> Option<&'t Instruction>
    ensures { option_copied result ≡ dropped.first_function table.now listed.now }
{
    for id in listed {
        if let Some(function) = function_at(table, *id) {
            return Some(function);
        }
    }
    None
}

/// Records row F41 for a block that is not in its order although it makes a function, at the first function. On `OutOfMemory` an
/// allocation failed, and nothing changed.
fn refuse_if_dropped<B: Blocks>(
    alloc: Global,
    env: &mut Environment,
    table: &[Instruction],
    ordered: &B,
    id: BlockId,
    block: &BasicBlock,
) -> Result<(), OutOfMemory>
    ensures refused { OnOk result (env.new ≡ record env.old { diagnostics = env.old.diagnostics ++ dropped.refused_block table.now (B.pairs ordered.now) (id, block.now) }) }
    ensures unchanged { OnErr result (env.new ≡ env.old) }
{
    if ordered.get(id).is_some() {
        return Ok(());
    }
    match first_function(table, block.instructions.as_slice()) {
        Some(function) => {
            let span = function.span.unwrap_or(Span { start: 0, end: 0 });
            env.record_diagnostic(Diagnostic::at(alloc, Row::F41, "", span)?)
        }
        None => Ok(()),
    }
}

/// Records row F41 for each block that is not in its order although it makes a function, in the order in which the blocks were
/// completed. On `OutOfMemory` an allocation failed, and some may be recorded.
pub(crate) fn refuse_dropped<B: Blocks>(
    alloc: Global,
    env: &mut Environment,
    table: &[Instruction],
    blocks: &B,
    ordered: &B,
) -> Result<(), OutOfMemory>
    ensures { OnOk result (env.new ≡ record env.old { diagnostics = env.old.diagnostics ++ dropped.refused_blocks table.now (B.pairs ordered.now) (B.pairs blocks.now) }) }
{
    for place in 0..blocks.len() {
        let (id, block) = blocks.at(place);
        refuse_if_dropped(alloc, env, table, ordered, id, block)?;
    }
    Ok(())
}

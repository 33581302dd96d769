//! Calls of a builder that build blocks, and the graph that they make, as one text each.

ghost use Rattle.std.specs.Prelude.{◌<◌, ◌^◌, length};
ghost use Rattle.rl_builder.specs.Builder.{state_of};

use crate::branch::{build_empty_if, build_if, goto, graph_of_if};
use crate::texts::{Builder, push_kind, push_number, push_target, push_truth, ready};
use rl_base::error::OutOfMemory;
use rl_base::ids::{BlockId, EvaluationOrder, IdentifierId, ScopeId};
use rl_base::stop::Stop;
use rl_builder::jumps::JumpScope;
use rl_builder::unit_tables::ReadsUnit;
use rl_hir::blocks::Blocks;
use rl_hir::function::BlockKind;
use rl_hir::instruction::{Instruction, InstructionValue, Place, PrimitiveValue};
use std::alloc::Global;

/// An instruction that puts undefined into the identifier 0.
pub fn undefined() -> Instruction {
    Instruction {
        order: EvaluationOrder(0),
        lvalue: Place {
            identifier: IdentifierId(0),
            span: None,
        },
        value: InstructionValue::Primitive(PrimitiveValue::Undefined),
        span: None,
    }
}

/// The kind of the current block in and behind a block that is reserved, entered and left, and behind the two ways to end a
/// block.
pub fn blocks<U: ReadsUnit>(alloc: Global, builder: &mut Builder<'_, U>) -> Result<String, Stop> {
    let mut text = String::new(alloc);
    ready(builder)?;
    let inner = builder.reserve(BlockKind::Value)?;
    let target = goto(inner.id);
    let outer = builder.enter(inner);
    push_kind(alloc, &mut text, builder.current_block_kind())?;
    builder.leave(outer, target)?;
    push_kind(alloc, &mut text, builder.current_block_kind())?;
    ready(builder)?;
    let ended = builder.terminate(goto(BlockId(1)), Some(BlockKind::Loop))?;
    push_number(alloc, &mut text, Some(ended.0))?;
    push_kind(alloc, &mut text, builder.current_block_kind())?;
    ready(builder)?;
    let behind = builder.reserve(BlockKind::Sequence)?;
    builder.terminate_with_continuation(goto(BlockId(2)), behind)?;
    push_kind(alloc, &mut text, builder.current_block_kind())?;
    Ok(text)
}

/// The kind of the current block behind a closure that succeeds in a block, and the id of the block of another one.
fn push_entered<U: ReadsUnit>(
    alloc: Global,
    text: &mut String,
    builder: &mut Builder<'_, U>,
) -> Result<(), Stop> {
    ready(builder)?;
    let reserved = builder.reserve(BlockKind::Loop)?;
    builder.try_enter_reserved(reserved, |_builder| Ok(goto(BlockId(1))))?;
    push_kind(alloc, text, builder.current_block_kind())?;
    ready(builder)?;
    let entered = builder.try_enter(BlockKind::Loop, |_builder, id| Ok(goto(id)))?;
    push_number(alloc, text, Some(entered.0))?;
    Ok(())
}

/// True, and the kind of the current block, behind a closure that stops in a block of the kind `Loop`.
fn push_stopped<U: ReadsUnit>(
    alloc: Global,
    text: &mut String,
    builder: &mut Builder<'_, U>,
) -> Result<(), Stop> {
    ready(builder)?;
    let stopped = builder.try_enter(BlockKind::Loop, |_builder, _id| Err(Stop::OutOfMemory));
    push_truth(alloc, text, stopped.is_err())?;
    push_kind(alloc, text, builder.current_block_kind())?;
    Ok(())
}

/// The block that throws go to behind closures that succeed and that stop under a handler.
fn push_caught<U: ReadsUnit>(
    alloc: Global,
    text: &mut String,
    builder: &mut Builder<'_, U>,
) -> Result<(), Stop> {
    builder.try_enter_try_catch(BlockId(7), |_builder| Ok(()))?;
    push_number(alloc, text, builder.resolve_throw_handler().map(|id| id.0))?;
    let stopped = builder.try_enter_try_catch(BlockId(7), |_builder| Err(Stop::OutOfMemory));
    push_truth(alloc, text, stopped.is_err())?;
    push_number(alloc, text, builder.resolve_throw_handler().map(|id| id.0))?;
    Ok(())
}

/// The current block and the handler behind closures.
pub fn closures<U: ReadsUnit>(alloc: Global, builder: &mut Builder<'_, U>) -> Result<String, Stop> {
    let mut text = String::new(alloc);
    push_entered(alloc, &mut text, builder)?;
    push_stopped(alloc, &mut text, builder)?;
    push_caught(alloc, &mut text, builder)?;
    Ok(text)
}

/// The target of a `break` in a `switch`, and behind it.
pub fn openings<U: ReadsUnit>(alloc: Global, builder: &mut Builder<'_, U>) -> Result<String, Stop> {
    let mut text = String::new(alloc);
    let inside = builder.switch_scope(None, BlockId(2), |builder| Ok(builder.lookup_break(None)))?;
    push_target(alloc, &mut text, inside)?;
    push_target(alloc, &mut text, builder.lookup_break(None))?;
    Ok(text)
}

/// The block that throws go to behind a handler that was closed, and the target of a `break` in and behind a scope that was.
pub fn closings<U: ReadsUnit>(alloc: Global, builder: &mut Builder<'_, U>) -> Result<String, Stop> {
    let mut text = String::new(alloc);
    builder.open_handler(BlockId(7))?;
    builder.close_handler();
    push_number(
        alloc,
        &mut text,
        builder.resolve_throw_handler().map(|id| id.0),
    )?;
    builder.open_scope(JumpScope::Switch {
        label: None,
        break_block: BlockId(2),
    })?;
    push_target(alloc, &mut text, builder.lookup_break(None))?;
    builder.close_scope();
    push_target(alloc, &mut text, builder.lookup_break(None))?;
    Ok(text)
}

/// The kind of the block behind an `if` with one instruction, and behind an empty one.
pub fn branches<U: ReadsUnit>(alloc: Global, builder: &mut Builder<'_, U>) -> Result<String, Stop>
    requires { length (state_of U.tables builder.old).table < 2 ^ 32 }
{
    let mut text = String::new(alloc);
    ready(builder)?;
    let test = undefined().lvalue;
    build_if(builder, test, undefined())?;
    push_kind(alloc, &mut text, builder.current_block_kind())?;
    ready(builder)?;
    build_empty_if(builder, test)?;
    push_kind(alloc, &mut text, builder.current_block_kind())?;
    Ok(text)
}

/// Appends the ids of blocks, each behind those of the blocks that lead to it.
fn push_blocks<B: Blocks>(alloc: Global, text: &mut String, blocks: &B) -> Result<(), OutOfMemory> {
    for index in 0..blocks.len() {
        let (id, block) = blocks.at(index);
        for predecessor in block.preds.as_slice() {
            push_number(alloc, text, Some(predecessor.0))?;
        }
        text.push_str("> ")?;
        push_number(alloc, text, Some(id.0))?;
    }
    Ok(())
}

/// The blocks of a graph with an `if`, in a table `B`: its id behind those of the blocks that lead to it.
pub fn graph<U: ReadsUnit, B: Blocks>(
    alloc: Global,
    unit: U,
    scope: ScopeId,
) -> Result<String, Stop> {
    let built = graph_of_if::<U, B>(alloc, unit, scope)?;
    let mut text = String::new(alloc);
    push_blocks(alloc, &mut text, &built.hir.blocks)?;
    Ok(text)
}

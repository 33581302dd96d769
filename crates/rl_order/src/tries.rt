//! The removal of each `try` whose handler was dropped.

ghost use Rattle.std.specs.Prelude.{◌≡◌, ◌<◌, ◌++◌, [], IfOk, IfSome, OnErr, OnOk, Some, None, filter, fold, if◌then◌else◌, length, not};
ghost use Rattle.std.specs.Map.{keys_of};
ghost use Rattle.std.specs.Option.{option_to_list};
ghost use Rattle.indexmap.specs.IndexSet.{insert_key};
ghost use Rattle.rl_hir.specs.Blocks.{HaveOwnIds, block_at, kept, same_id};
ghost use Rattle.rl_order.specs.Kept.{changed_at};
ghost use Rattle.rl_order.specs.Removals.{dead_tries, dead_try, ended_by_goto, is_alone, is_there, without_dead_tries, without_predecessor, without_try};
ghost use Rattle.rl_order.specs.TrySteps.{has_alone};

use crate::indices::{index_by_id, take_block};
use crate::removals::is_there;
use rl_base::error::OutOfMemory;
use rl_base::ids::{BlockId, EvaluationOrder};
use rl_base::list::List;
use rl_hir::block_sets::{BlockSet, new_set};
use rl_hir::blocks::Blocks;
use rl_hir::function::Hir;
use rl_hir::terminal::{GotoVariant, Terminal, TerminalKind};
use std::alloc::Global;

/// A `try` whose handler is missing.
#[derive(Clone, Copy)]
pub struct DeadTry {
    /// The block that ends with it.
    pub id: BlockId,
    /// The first block of its body.
    pub block: BlockId,
    /// The missing handler.
    pub handler: BlockId,
    /// The block behind it.
    pub fallthrough: BlockId,
}

/// The `try` that ends a block, if its handler is missing.
pub(crate) fn dead_try<B: Blocks>(blocks: &B, id: BlockId, kind: &TerminalKind) -> Option<DeadTry>
    ensures { result ≡ dead_try (is_there (B.pairs blocks.now)) id kind.now }
{
    match kind {
        TerminalKind::Try {
            block,
            handler,
            fallthrough,
            ..
        } => {
            if is_there(blocks, *handler) {
                return None;
            }
            Some(DeadTry {
                id,
                block: *block,
                handler: *handler,
                fallthrough: *fallthrough,
            })
        }
        _ => None,
    }
}

/// Lists a `try` behind others, if there is one. On `OutOfMemory`, an allocation failed.
pub(crate) fn note_dead(tries: &mut Vec<DeadTry>, dead: Option<DeadTry>) -> Result<(), OutOfMemory>
    ensures { OnOk result (tries.new.items ≡ tries.old.items ++ option_to_list dead) }
{
    if let Some(dead) = dead {
        tries.push(dead)?;
    }
    Ok(())
}

/// The `try`s whose handlers are missing, in block order. On `OutOfMemory`, an allocation failed.
fn dead_tries<B: Blocks>(alloc: Global, blocks: &B) -> Result<Vec<DeadTry>, OutOfMemory>
    ensures { IfOk result (λ tries. tries.items ≡ dead_tries (is_there (B.pairs blocks.now)) (B.pairs blocks.now)) }
{
    let mut tries = Vec::new(alloc);
    for index in 0..blocks.len() {
        let (id, block) = blocks.at(index);
        let dead = dead_try(blocks, id, &block.terminal.kind);
        note_dead(&mut tries, dead)?;
    }
    Ok(tries)
}

/// Makes a goto of the terminal at an index, if there is one, with order 0 and the old span.
fn end_by_goto<B: Blocks>(blocks: &mut B, index: Option<usize>, target: BlockId)
    requires { IfSome index (λ p. p < length (B.pairs blocks.old)) }
    ensures { B.pairs blocks.new ≡ changed_at index (ended_by_goto target) (B.pairs blocks.old) }
{
    let Some(index) = index else {
        return;
    };
    let mut block = take_block(blocks, index);
    block.terminal = Terminal {
        order: EvaluationOrder(0),
        span: block.terminal.span,
        kind: TerminalKind::Goto {
            block: target,
            variant: GotoVariant::Break,
        },
    };
    let _ = blocks.set_at(index, block);
}

/// The ids but one, in order. On `OutOfMemory`, an allocation failed.
fn without_id(alloc: Global, ids: &[BlockId], id: BlockId) -> Result<List<BlockId>, OutOfMemory>
    ensures { IfOk result (λ rest. rest ≡ filter (λ other. not (same_id id other)) ids.now) }
{
    let rest = ids
        .iter()
        .copied()
        .filter(|other| id.0 != other.0)
        .collect(alloc)?;
    Ok(List::from_vec(rest))
}

/// Takes an id from the predecessors of the block at an index, if there is one. On `OutOfMemory`, an allocation failed, and nothing
/// has changed.
fn drop_predecessor<B: Blocks>(
    alloc: Global,
    blocks: &mut B,
    index: Option<usize>,
    id: BlockId,
) -> Result<(), OutOfMemory>
    requires { IfSome index (λ p. p < length (B.pairs blocks.old)) }
    ensures ok { OnOk result (B.pairs blocks.new ≡ changed_at index (without_predecessor id) (B.pairs blocks.old)) }
    ensures err { OnErr result (B.pairs blocks.new ≡ B.pairs blocks.old) }
{
    let Some(index) = index else {
        return Ok(());
    };
    let (_, old) = blocks.at(index);
    let preds = without_id(alloc, old.preds.as_slice(), id)?;
    let mut block = take_block(blocks, index);
    block.preds = preds;
    let _ = blocks.set_at(index, block);
    Ok(())
}

/// True of a list of this id alone.
fn is_alone(ids: &[BlockId], id: BlockId) -> bool
    ensures { result ≡ is_alone id ids.now }
{
    match ids {
        [other] => id.0 == other.0,
        _ => false,
    }
}

/// True if a block is there and has this one predecessor.
fn has_alone<B: Blocks>(blocks: &B, id: BlockId, only: BlockId) -> bool
    ensures { result ≡ has_alone (block_at (B.pairs blocks.now) id) only }
{
    match blocks.get(id) {
        Some(block) => is_alone(block.preds.as_slice(), only),
        None => false,
    }
}

/// Lists an id, once, if it is lost. On `OutOfMemory`, an allocation failed.
fn note_lost(lost: &mut BlockSet, id: BlockId, is_lost: bool) -> Result<(), OutOfMemory>
    ensures { OnOk result (lost.new.keys ≡ (if is_lost then insert_key same_id lost.old.keys id else lost.old.keys)) }
{
    if is_lost {
        lost.insert(id)?;
    }
    Ok(())
}

/// Drops a `try` from the blocks: its block ends with a goto, and its handler is taken from the predecessors of the fallthrough, which
/// is listed as lost if it had no other. On `OutOfMemory`, an allocation failed, and its block may end with the goto already.
fn drop_try<B: Blocks>(
    alloc: Global,
    blocks: &mut B,
    indices: &BlockSet,
    lost: &mut BlockSet,
    dead: DeadTry,
) -> Result<(), OutOfMemory>
    requires indices { indices.now.keys ≡ keys_of (B.pairs blocks.old) }
    requires distinct { HaveOwnIds (B.pairs blocks.old) }
    ensures kept { OnOk result (kept lost.new.keys (B.pairs blocks.new) ≡ without_try dead (kept lost.old.keys (B.pairs blocks.old))) }
    ensures keys { keys_of (B.pairs blocks.new) ≡ keys_of (B.pairs blocks.old) }
{
    end_by_goto(blocks, indices.get_index_of(&dead.id), dead.block);
    let is_lost = has_alone(blocks, dead.fallthrough, dead.handler);
    note_lost(lost, dead.fallthrough, is_lost)?;
    drop_predecessor(
        alloc,
        blocks,
        indices.get_index_of(&dead.fallthrough),
        dead.handler,
    )?;
    Ok(())
}

/// Takes out the blocks that are listed as lost, if there are any.
fn remove_lost<B: Blocks>(blocks: &mut B, lost: &BlockSet)
    ensures { B.pairs blocks.new ≡ kept lost.now.keys (B.pairs blocks.old) }
{
    if lost.is_empty() {
        return;
    }
    blocks.remove_all(lost);
}

/// Drops `try`s from the blocks, one after the other. On `OutOfMemory`, an allocation failed, no block is removed, and some of them
/// may be gotos already.
pub(crate) fn drop_tries<B: Blocks>(
    alloc: Global,
    blocks: &mut B,
    tries: &[DeadTry],
) -> Result<(), OutOfMemory>
    ensures ok { OnOk result (B.pairs blocks.new ≡ fold (λ now dead. without_try dead now) (B.pairs blocks.old) tries.now) }
    ensures err { OnErr result (keys_of (B.pairs blocks.new) ≡ keys_of (B.pairs blocks.old)) }
{
    if tries.is_empty() {
        return Ok(());
    }
    let indices = index_by_id(alloc, blocks)?;
    let mut lost = new_set(alloc);
    for dead in tries {
        drop_try(alloc, blocks, &indices, &mut lost, *dead)?;
    }
    remove_lost(blocks, &lost);
    Ok(())
}

/// Makes a goto to its block of each `try` whose handler is missing (`removeUnnecessaryTryCatch`), with order 0 and its span. A
/// fallthrough with the handler as its only predecessor is removed; from the predecessors of others the handler is taken. On
/// `OutOfMemory`, an allocation failed: the ids of the blocks are as before, in order, and some of these `try`s may be gotos already,
/// with the handler taken from the predecessors of the fallthrough.
pub fn remove_unnecessary_try_catch<B: Blocks>(
    alloc: Global,
    hir: &mut Hir<B>,
) -> Result<(), OutOfMemory>
    ensures entry { hir.new.entry ≡ hir.old.entry }
    ensures blocks { OnOk result (B.pairs hir.new.blocks ≡ without_dead_tries (B.pairs hir.old.blocks)) }
    ensures err { OnErr result (keys_of (B.pairs hir.new.blocks) ≡ keys_of (B.pairs hir.old.blocks)) }
{
    let tries = dead_tries(alloc, &hir.blocks)?;
    drop_tries(alloc, &mut hir.blocks, tries.as_slice())?;
    Ok(())
}

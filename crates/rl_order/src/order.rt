//! The order of the blocks of a graph.

ghost use Rattle.std.specs.Prelude.{◌≡◌, ◌+◌, ◌*◌, ◌<◌, ◌≤◌, ◌++◌, [], ◌∷◌, None, IfOk, OnOk, length, reverse};
ghost use Rattle.rl_hir.specs.Blocks.{block_at};
ghost use Rattle.rl_order.specs.Forward.{GoesForward};
ghost use Rattle.rl_order.specs.Own.{AreOwn};
ghost use Rattle.rl_order.specs.Walk.{IsOrdered, IsWhole, KeepsReached, WalksFrom, emptied, expansions, kept};

use crate::step::do_task;
use crate::tasks::{Task, Visit};
use crate::walked::Walked;
use rl_base::error::OutOfMemory;
use rl_base::ids::BlockId;
use rl_base::list::List;
use rl_base::steps::Steps;
use rl_hir::blocks::Blocks;
use rl_hir::function::{BasicBlock, Hir};
use std::alloc::Global;
use std::marker::Brand;
use std::sync::ledger::{Blank, Ledger};

/// Walks over the graph of `blocks` from the entry, with a stack of tasks in a vector and without recursion. Counts a step for each
/// block that is expanded. On `OutOfMemory` an allocation failed.
fn walk<B: Blocks, L: Ledger>(
    alloc: Global,
    blocks: &B,
    entry: BlockId,
    steps: &mut Steps<L>,
) -> Result<Walked, OutOfMemory>
    requires { IsWhole (B.pairs blocks.now) entry }
    ensures walk { IfOk result (λ walked. WalksFrom (B.pairs blocks.now) entry walked) }
    ensures steps { IfOk result (λ walked. (walk : WalksFrom (B.pairs blocks.now) entry walked) × (steps.new ≡ steps.old + expansions walk)) }
    ensures cost { steps.new ≤ steps.old + 2 * length (B.pairs blocks.now) }
{
    let mut walked = Walked::new(alloc, blocks.len())?;
    let mut tasks = Vec::new(alloc);
    tasks.push(Task::Enter(Visit {
        id: entry,
        used: true,
    }))?;
    while let Some(task) = tasks.pop() {
        do_task(alloc, blocks, task, &mut walked, &mut tasks, steps)?;
    }
    Ok(walked)
}

/// The block without its instructions, ended as unreachable. On `OutOfMemory` an allocation failed.
fn emptied(alloc: Global, block: &BasicBlock) -> Result<BasicBlock, OutOfMemory>
    ensures { IfOk result (λ copy. copy ≡ emptied block.now) }
{
    Ok(BasicBlock {
        kind: block.kind,
        instructions: List::new(alloc),
        terminal: block.terminal.unreachable(),
        preds: block.preds.copy(alloc)?,
    })
}

/// Puts what is kept of a block of the graph last: a used block whole, another one that is noted empty. On `OutOfMemory` an
/// allocation failed.
fn keep_block<B: Blocks>(
    alloc: Global,
    blocks: &B,
    walked: &Walked,
    id: BlockId,
    ordered: &mut B,
) -> Result<(), OutOfMemory>
    requires { block_at (B.pairs ordered.old) id ≡ None }
    ensures { OnOk result (B.pairs ordered.new ≡ B.pairs ordered.old ++ kept (B.pairs blocks.now) walked.now (id ∷ [])) }
{
    let block = match blocks.get(id) {
        Some(block) => block,
        None => return Ok(()),
    };
    if walked.is_used(id) {
        return ordered.put(id, block.copy(alloc)?);
    }
    if walked.is_noted(id) {
        return ordered.put(id, emptied(alloc, block)?);
    }
    Ok(())
}

/// The blocks of the graph that are kept after a walk, the one that was appended last first. On `OutOfMemory` an allocation
/// failed.
fn keep_blocks<B: Blocks>(alloc: Global, blocks: &B, mut walked: Walked) -> Result<B, OutOfMemory>
    requires { AreOwn (reverse walked.appended) }
    ensures { IfOk result (λ ordered. B.pairs ordered ≡ kept (B.pairs blocks.now) walked (reverse walked.appended)) }
{
    let mut ordered = B::empty(alloc);
    while let Some(id) = walked.pop() {
        keep_block(alloc, blocks, &walked, id, &mut ordered)?;
    }
    Ok(ordered)
}

/// The blocks of a graph in their order (`getReversePostorderedBlocks`). Blocks to which successors lead from the entry are
/// used and kept; of the others, the fallthroughs of used blocks are kept without instructions, and the rest are dropped.
/// The walk has its stack in a vector, without recursion. It counts a step for each block that it expands, and none else: at most two
/// for each block of the graph. On `OutOfMemory` an allocation failed, and nothing is left behind but the steps counted so far.
pub fn get_reverse_postordered_blocks<B: Blocks, L: Ledger>(
    alloc: Global,
    hir: &Hir<B>,
    steps: &mut Steps<L>,
) -> Result<B, OutOfMemory>
    requires { IsWhole (B.pairs hir.now.blocks) hir.now.entry }
    ensures ordered { IfOk result (λ ordered. IsOrdered (B.pairs hir.now.blocks) hir.now.entry (B.pairs ordered)) }
    ensures forward { IfOk result (λ ordered. GoesForward (B.pairs hir.now.blocks) (B.pairs ordered)) }
    ensures reached { IfOk result (λ ordered. KeepsReached (B.pairs hir.now.blocks) hir.now.entry (B.pairs ordered)) }
    ensures steps { IfOk result (λ ordered. (order : IsOrdered (B.pairs hir.now.blocks) hir.now.entry (B.pairs ordered)) × (steps.new ≡ steps.old + expansions order.walk)) }
    ensures cost { steps.new ≤ steps.old + 2 * length (B.pairs hir.now.blocks) }
{
    let walked = walk(alloc, &hir.blocks, hir.entry, steps)?;
    keep_blocks(alloc, &hir.blocks, walked)
}

/// As `order_blocks`. Opens the ledger from `blank`, in which the steps are counted.
fn order_counted<B: Blocks, L: Ledger>(
    alloc: Global,
    hir: &Hir<B>,
    blank: Blank,
) -> Result<B, OutOfMemory>
    requires name { blank.name ≡ L.name }
    requires parts { blank.parts ≡ L.parts }
    requires shared { 0 < blank.parts }
    requires whole { IsWhole (B.pairs hir.now.blocks) hir.now.entry }
    ensures ordered { IfOk result (λ ordered. IsOrdered (B.pairs hir.now.blocks) hir.now.entry (B.pairs ordered)) }
    ensures forward { IfOk result (λ ordered. GoesForward (B.pairs hir.now.blocks) (B.pairs ordered)) }
    ensures reached { IfOk result (λ ordered. KeepsReached (B.pairs hir.now.blocks) hir.now.entry (B.pairs ordered)) }
{
    let mut steps = Steps::<L>::new(blank);
    get_reverse_postordered_blocks(alloc, hir, &mut steps)
}

/// The blocks of a graph in their order, as `get_reverse_postordered_blocks` gives them, for a caller that counts no steps. On
/// `OutOfMemory` an allocation failed, and nothing is left behind.
pub fn order_blocks<B: Blocks>(alloc: Global, hir: &Hir<B>) -> Result<B, OutOfMemory>
    requires { IsWhole (B.pairs hir.now.blocks) hir.now.entry }
    ensures ordered { IfOk result (λ ordered. IsOrdered (B.pairs hir.now.blocks) hir.now.entry (B.pairs ordered)) }
    ensures forward { IfOk result (λ ordered. GoesForward (B.pairs hir.now.blocks) (B.pairs ordered)) }
    ensures reached { IfOk result (λ ordered. KeepsReached (B.pairs hir.now.blocks) hir.now.entry (B.pairs ordered)) }
{
    order_counted::<B, Brand>(alloc, hir, Blank::new(1))
}

//! A step of the walk over a graph.

ghost use Rattle.std.specs.Prelude.{◌≡◌, ◌+◌, ◌≤◌, ◌++◌, IfOk, OnOk, map, true, if◌then◌else◌};
ghost use Rattle.rl_hir.specs.Blocks.{block_at};
ghost use Rattle.rl_order.specs.Tasks.{is_expanding, is_known, tasks_after, tasks_from, walk_after};
ghost use Rattle.rl_order.specs.Walk.{visit};
ghost use Rattle.rl_order.specs.declared.tasks.Task.TheVariants as tasks_of;

use crate::tasks::{Task, Visit};
use crate::walked::Walked;
use rl_base::error::OutOfMemory;
use rl_base::ids::BlockId;
use rl_base::steps::Steps;
use rl_hir::blocks::Blocks;
use rl_hir::function::BasicBlock;
use rl_hir::terminal::{each_terminal_successor, terminal_fallthrough};
use std::alloc::Global;
use std::sync::ledger::Ledger;

/// Adds a visit of each block, the last one to be done first. On `OutOfMemory` an allocation failed.
fn push_visits(ids: &[BlockId], used: bool, tasks: &mut Vec<Task>) -> Result<(), OutOfMemory>
    ensures { OnOk result (tasks.new.items ≡ tasks.old.items ++ map (λ id. tasks_of.Enter (visit used id)) ids.now) }
{
    for id in ids {
        tasks.push(Task::Enter(Visit { id: *id, used }))?;
    }
    Ok(())
}

/// Adds the tasks of a visit that expands a block. `first` is true if it is the first visit of the block. On `OutOfMemory` an
/// allocation failed.
fn push_tasks(
    alloc: Global,
    first: bool,
    visit: Visit,
    block: &BasicBlock,
    tasks: &mut Vec<Task>,
) -> Result<(), OutOfMemory>
    ensures { OnOk result (tasks.new.items ≡ tasks.old.items ++ tasks_from first visit block.now) }
{
    if first {
        tasks.push(Task::Append(visit.id))?;
    }
    let successors = each_terminal_successor(alloc, &block.terminal)?;
    push_visits(successors.as_slice(), visit.used, tasks)?;
    if let Some(id) = terminal_fallthrough(&block.terminal) {
        tasks.push(Task::Enter(Visit { id, used: false }))?;
    }
    Ok(())
}

/// Does a task of a walk over the graph of `blocks`: changes the state of the walk, and adds the tasks that follow. Counts a
/// step if it expands a block. On `OutOfMemory` an allocation failed.
pub(crate) fn do_task<B: Blocks, L: Ledger>(
    alloc: Global,
    blocks: &B,
    task: Task,
    walked: &mut Walked,
    tasks: &mut Vec<Task>,
    steps: &mut Steps<L>,
) -> Result<(), OutOfMemory>
    requires { is_known (B.pairs blocks.now) task ≡ true }
    ensures walked { OnOk result (walked.new ≡ walk_after (B.pairs blocks.now) walked.old task) }
    ensures tasks { OnOk result (tasks.new.items ≡ tasks.old.items ++ tasks_after (B.pairs blocks.now) walked.old task) }
    ensures cost { steps.new ≡ steps.old + (if is_expanding walked.old task then 1 else 0) }
{
    let visit = match task {
        Task::Append(id) => return walked.append(id),
        Task::Enter(visit) => visit,
    };
    if walked.is_passed(visit) {
        return Ok(());
    }
    steps.tick();
    let block = match blocks.get(visit.id) {
        Some(block) => block,
        None => unreachable!(),
    };
    push_tasks(alloc, walked.is_first(visit.id), visit, block, tasks)?;
    walked.enter(visit, terminal_fallthrough(&block.terminal))
}

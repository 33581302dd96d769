//! The ordering and all passes over the graph of a function, one after the other.

ghost use Rattle.std.specs.Prelude.{◌≡◌, ◌+◌, ◌*◌, ◌<◌, ◌≤◌, ◌^◌, All, IfOk, OnErr, OnOk, length};
ghost use Rattle.std.specs.Map.{keys_of};
ghost use Rattle.rl_base.specs.Distinct.{AreDistinct};
ghost use Rattle.rl_hir.specs.Blocks.{HaveOwnIds};
ghost use Rattle.rl_hir.specs.Numbered.{IsNumbered, listed_in};
ghost use Rattle.rl_order.specs.Numbering.{ordered_blocks, ordered_table, orders_of};
ghost use Rattle.rl_order.specs.PredecessorWalk.{IsMarked};
ghost use Rattle.rl_order.specs.Predecessors.{PredecessorsReached};
ghost use Rattle.rl_order.specs.Prune.{IsPart, IsPruned, cleaned};
ghost use Rattle.rl_order.specs.Removals.{dead_tries, is_there, without_dead_do_whiles, without_unreachable_updates};
ghost use Rattle.rl_order.specs.Walk.{IsWhole, expansions};

use crate::numbering::mark_instruction_ids;
use crate::order::get_reverse_postordered_blocks;
use crate::predecessors::mark_predecessors;
use crate::removals::{change_kind, live_kind};
use crate::tries::{DeadTry, dead_try, drop_tries, note_dead};
use rl_base::error::OutOfMemory;
use rl_base::steps::Steps;
use rl_hir::blocks::Blocks;
use rl_hir::function::Hir;
use rl_hir::instruction::Instruction;
use std::alloc::Global;
use std::sync::ledger::Ledger;

/// Tells that the ids of blocks are distinct.
fn tell_own_ids<B: Blocks>(blocks: &B)
    ensures { HaveOwnIds (B.pairs blocks.now) }
{
    let _ = blocks.len();
}

/// Gives the terminals that name a missing update or test another kind, and lists the `try`s whose handlers are missing, in block
/// order. The ids stay, in order. On `OutOfMemory`, an allocation failed, and some of the kinds may have changed.
fn drop_dead_ends<B: Blocks>(alloc: Global, blocks: &mut B) -> Result<Vec<DeadTry>, OutOfMemory>
    ensures blocks { OnOk result (B.pairs blocks.new ≡ without_dead_do_whiles (without_unreachable_updates (B.pairs blocks.old))) }
    ensures tries { IfOk result (λ tries. tries.items ≡ dead_tries (is_there (B.pairs blocks.new)) (B.pairs blocks.new)) }
    ensures keys { keys_of (B.pairs blocks.new) ≡ keys_of (B.pairs blocks.old) }
{
    let mut tries = Vec::new(alloc);
    for index in 0..blocks.len() {
        let (id, block) = blocks.at(index);
        let dead = dead_try(blocks, id, &block.terminal.kind);
        let kind = live_kind(blocks, &block.terminal.kind);
        note_dead(&mut tries, dead)?;
        change_kind(blocks, index, kind);
    }
    Ok(tries)
}

/// Makes the three removals in one walk over the blocks: `remove_unreachable_for_updates`, `remove_dead_do_while_statements` and
/// `remove_unnecessary_try_catch`. On `OutOfMemory`, an allocation failed: the ids of the blocks are as before, in order, and some of
/// the terminals and predecessors may have changed.
pub fn remove_dead_ends<B: Blocks>(alloc: Global, hir: &mut Hir<B>) -> Result<(), OutOfMemory>
    ensures entry { hir.new.entry ≡ hir.old.entry }
    ensures blocks { OnOk result (B.pairs hir.new.blocks ≡ cleaned (B.pairs hir.old.blocks)) }
    ensures err { OnErr result (keys_of (B.pairs hir.new.blocks) ≡ keys_of (B.pairs hir.old.blocks)) }
{
    let tries = drop_dead_ends(alloc, &mut hir.blocks)?;
    drop_tries(alloc, &mut hir.blocks, tries.as_slice())?;
    Ok(())
}

/// The passes behind the ordering: takes out what names missing blocks, gives evaluation orders from 1 to terminals and to the
/// instructions of `table`, and marks the predecessors of blocks. On `OutOfMemory` an allocation failed, and some of the passes
/// may be made: the ids of the blocks are a part of those before, in order.
pub fn clean<B: Blocks>(
    alloc: Global,
    hir: &mut Hir<B>,
    table: &mut [Instruction],
) -> Result<(), OutOfMemory>
    requires within { All (λ p. All (λ id. id.0 < length table.old) p.1.instructions) (B.pairs hir.old.blocks) }
    requires room { orders_of (B.pairs hir.old.blocks) < 2 ^ 32 }
    ensures entry { hir.new.entry ≡ hir.old.entry }
    ensures marked { OnOk result (IsMarked (ordered_blocks 1 (cleaned (B.pairs hir.old.blocks))) hir.old.entry (B.pairs hir.new.blocks)) }
    ensures orders { OnOk result (table.new ≡ ordered_table 1 (cleaned (B.pairs hir.old.blocks)) table.old) }
    ensures distinct { OnOk result (HaveOwnIds (B.pairs hir.new.blocks)) }
    ensures numbered { OnOk result (AreDistinct (listed_in (B.pairs hir.old.blocks)) → All (λ i. i.order.0 ≡ 0) table.old → IsNumbered table.new (B.pairs hir.new.blocks)) }
    ensures predecessors { OnOk result (PredecessorsReached (B.pairs hir.new.blocks) hir.new.entry (B.pairs hir.new.blocks)) }
    ensures length { length table.new ≡ length table.old }
    ensures err { OnErr result (IsPart (keys_of (B.pairs hir.new.blocks)) (keys_of (B.pairs hir.old.blocks))) }
{
    remove_dead_ends(alloc, hir)?;
    mark_instruction_ids(hir, table);
    mark_predecessors(alloc, hir)?;
    tell_own_ids(&hir.blocks);
    Ok(())
}

/// A graph in its order, without what names dropped blocks, with evaluation orders from 1 for its terminals and for the
/// instructions of `table`, and with the predecessors of its blocks. Counts a step for each block that the ordering expands, and none
/// else. On `OutOfMemory` an allocation failed, and instructions may have got orders.
pub fn prune<B: Blocks, L: Ledger>(
    alloc: Global,
    hir: &Hir<B>,
    table: &mut [Instruction],
    steps: &mut Steps<L>,
) -> Result<Hir<B>, OutOfMemory>
    requires whole { IsWhole (B.pairs hir.now.blocks) hir.now.entry }
    requires within { All (λ p. All (λ id. id.0 < length table.old) p.1.instructions) (B.pairs hir.now.blocks) }
    requires room { orders_of (B.pairs hir.now.blocks) < 2 ^ 32 }
    ensures entry { IfOk result (λ pruned. pruned.entry ≡ hir.now.entry) }
    ensures pruned { IfOk result (λ pruned. IsPruned (B.pairs hir.now.blocks) hir.now.entry table.old (B.pairs pruned.blocks) table.new) }
    ensures distinct { IfOk result (λ pruned. HaveOwnIds (B.pairs pruned.blocks)) }
    ensures numbered { IfOk result (λ pruned. AreDistinct (listed_in (B.pairs hir.now.blocks)) → All (λ i. i.order.0 ≡ 0) table.old → IsNumbered table.new (B.pairs pruned.blocks)) }
    ensures predecessors { IfOk result (λ pruned. PredecessorsReached (B.pairs pruned.blocks) pruned.entry (B.pairs pruned.blocks)) }
    ensures length { OnOk result (length table.new ≡ length table.old) }
    ensures steps { IfOk result (λ pruned. (made : IsPruned (B.pairs hir.now.blocks) hir.now.entry table.old (B.pairs pruned.blocks) table.new) × (steps.new ≡ steps.old + expansions made.order.walk)) }
    ensures cost { steps.new ≤ steps.old + 2 * length (B.pairs hir.now.blocks) }
{
    let blocks = get_reverse_postordered_blocks(alloc, hir, steps)?;
    let mut pruned = Hir {
        entry: hir.entry,
        blocks,
    };
    clean(alloc, &mut pruned, table)?;
    Ok(pruned)
}

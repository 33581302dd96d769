//! The evaluation orders of instructions and terminals.

ghost use Rattle.std.specs.Prelude.{◌≡◌, ◌+◌, ◌<◌, ◌^◌, All, length};
ghost use Rattle.rl_base.specs.Distinct.{AreDistinct};
ghost use Rattle.rl_hir.specs.Numbered.{IsCounted, IsNumbered, listed_in};
ghost use Rattle.rl_hir.specs.Terminals.{with_order};
ghost use Rattle.rl_order.specs.Numbering.{ordered_list, ordered_blocks, ordered_table, orders_of};

use crate::indices::take_block;
use rl_base::ids::{EvaluationOrder, InstructionId};
use rl_hir::blocks::Blocks;
use rl_hir::function::{BasicBlock, Hir};
use rl_hir::instruction::Instruction;

/// Gives the instructions that are listed consecutive orders, which follow the order `last`. Returns the last order given, or `last` if
/// none is listed.
fn mark_listed(listed: &[InstructionId], table: &mut [Instruction], last: u32) -> u32
    requires within { All (λ id. id.0 < length table.old) listed.now }
    requires room { last + length listed.now < 2 ^ 32 }
    ensures table { table.new ≡ ordered_list (last + 1) listed.now table.old }
    ensures last { result ≡ last + length listed.now }
{
    let mut order = last;
    for id in listed {
        order += 1;
        table[id.0 as usize].order = EvaluationOrder(order);
    }
    order
}

/// Gives a block's instructions and then its terminal consecutive orders, which follow the order `last`. Returns the terminal's.
fn mark_block(block: &mut BasicBlock, table: &mut [Instruction], last: u32) -> u32
    requires within { All (λ id. id.0 < length table.old) block.old.instructions }
    requires room { last + length block.old.instructions + 1 < 2 ^ 32 }
    ensures block { block.new ≡ record block.old { terminal = with_order (last + length block.old.instructions + 1) block.old.terminal } }
    ensures table { table.new ≡ ordered_list (last + 1) block.old.instructions table.old }
    ensures last { result ≡ last + length block.old.instructions + 1 }
{
    let order = mark_listed(block.instructions.as_slice(), table, last) + 1;
    block.terminal.order = EvaluationOrder(order);
    order
}

/// Sets the evaluation orders of instructions and terminals, from 1 in block order (`markInstructionIds`). An instruction
/// that no block lists keeps its order.
pub fn mark_instruction_ids<B: Blocks>(hir: &mut Hir<B>, table: &mut [Instruction])
    requires within { All (λ p. All (λ id. id.0 < length table.old) p.1.instructions) (B.pairs hir.old.blocks) }
    requires room { orders_of (B.pairs hir.old.blocks) < 2 ^ 32 }
    ensures entry { hir.new.entry ≡ hir.old.entry }
    ensures blocks { B.pairs hir.new.blocks ≡ ordered_blocks 1 (B.pairs hir.old.blocks) }
    ensures table { table.new ≡ ordered_table 1 (B.pairs hir.old.blocks) table.old }
    ensures counted { AreDistinct (listed_in (B.pairs hir.old.blocks)) → IsCounted table.new (B.pairs hir.new.blocks) }
    ensures numbered { AreDistinct (listed_in (B.pairs hir.old.blocks)) → All (λ i. i.order.0 ≡ 0) table.old → IsNumbered table.new (B.pairs hir.new.blocks) }
{
    let mut last = 0;
    for index in 0..hir.blocks.len() {
        let mut block = take_block(&mut hir.blocks, index);
        last = mark_block(&mut block, table, last);
        let _ = hir.blocks.set_at(index, block);
    }
}

//! Changes of the block at an index.

ghost use Rattle.std.specs.Prelude.{◌≡◌, ◌<◌, length, slice_get, IfOk, Some};
ghost use Rattle.std.specs.Map.{keys_of, values_of};
ghost use Rattle.rl_hir.specs.Blocks.{HaveOwnIds, with_block_at};
ghost use Rattle.rl_hir.specs.declared.function.BasicBlock.{BasicBlock};

use crate::room::set_with_room;
use rl_base::error::OutOfMemory;
use rl_base::ids::BlockId;
use rl_hir::block_sets::BlockSet;
use rl_hir::blocks::Blocks;
use rl_hir::function::BasicBlock;
use std::alloc::Global;

/// Takes out the block at an index, which a blank one keeps free. Another block can be put there by `set_at`.
#[tactic(auto, using(crate::proofs::TakenBlocks::put_back, crate::proofs::TakenBlocks::same_count))]
pub fn take_block<B: Blocks>(blocks: &mut B, index: usize) -> BasicBlock
    requires { index < length (B.pairs blocks.old) }
    ensures value { slice_get (values_of (B.pairs blocks.old)) index ≡ Some result }
    ensures count { length (B.pairs blocks.new) ≡ length (B.pairs blocks.old) }
    ensures free { (block : BasicBlock) → with_block_at (B.pairs blocks.new) index block ≡ with_block_at (B.pairs blocks.old) index block }
{
    let (_, block) = blocks.at(index);
    let blank = block.blank_beside();
    blocks.set_at(index, blank)
}

/// The ids of the blocks, in block order, so that a look-up by id gives an index. On `OutOfMemory`, an allocation failed.
pub fn index_by_id<B: Blocks>(alloc: Global, blocks: &B) -> Result<BlockSet, OutOfMemory>
    ensures keys { IfOk result (λ indices. indices.keys ≡ keys_of (B.pairs blocks.now)) }
    ensures distinct { HaveOwnIds (B.pairs blocks.now) }
{
    let mut indices = set_with_room(alloc, blocks.len())?;
    for index in 0..blocks.len() {
        let (id, _) = blocks.at(index);
        indices.insert(id)?;
    }
    Ok(indices)
}

//! The blocks of a graph, by id and in order.

ghost use Rattle.std.specs.Prelude.{◌≡◌, ◌<◌, [], List, Some, length, not, OnOk, OnErr, option_copied, slice_get};
ghost use Rattle.std.specs.List.{list_any};
ghost use Rattle.std.specs.Map.{values_of};
ghost use Rattle.rl_base.specs.declared.ids.BlockId.{BlockId};
ghost use Rattle.rl_hir.specs.Blocks.{HaveOwnIds, block_at, kept, same_id, with_block, with_block_at, without_block};
ghost use Rattle.rl_hir.specs.declared.function.BasicBlock.{BasicBlock};

use crate::block_sets::{BlockMap, BlockSet, new_map};
use crate::dense_blocks::DenseBlocks;
use crate::function::BasicBlock;
use rl_base::error::OutOfMemory;
use rl_base::ids::BlockId;
use std::alloc::Global;
use std::marker::Model;
use std::mem;

/// Blocks as a list of pairs of an id and a block. No two pairs have one id.
pub trait Blocks: Drop {
    ghost pairs: { Self → List (BlockId × BasicBlock) };

    /// No pairs. Allocates nothing.
    fn empty(alloc: Global) -> Self
        ensures { pairs result ≡ [] };

    /// The block with this id. `None` if no pair has it.
    fn get(&self, id: BlockId) -> Option<&BasicBlock>
        ensures { option_copied result ≡ block_at (pairs self.now) id };

    /// Puts a block under an id: in the place of the block that has the id, else as the last pair. On `OutOfMemory`, an allocation
    /// failed, nothing has changed, and the block is dropped.
    fn put(&mut self, id: BlockId, block: BasicBlock) -> Result<(), OutOfMemory>
        ensures ok { OnOk result (pairs self.new ≡ with_block (pairs self.old) id block) }
        ensures err { OnErr result (pairs self.new ≡ pairs self.old) };

    /// Takes out the pair with this id and returns its block; the pairs behind it move up. `None` if no pair has the id.
    fn remove(&mut self, id: BlockId) -> Option<BasicBlock>
        ensures value { result ≡ block_at (pairs self.old) id }
        ensures removed { pairs self.new ≡ without_block (pairs self.old) id };

    /// Takes out the pairs with the ids `ids`; the others stay, in order. The body here removes them one by one; a table that moves
    /// pairs in `remove` does better to move each once.
    fn remove_all(&mut self, ids: &BlockSet)
        ensures { pairs self.new ≡ kept ids.now.keys (pairs self.old) }
    {
        if self.len() == 0 {
            return;
        }
        for id in ids.as_slice() {
            let _ = self.remove(*id);
        }
    }

    /// The number of pairs.
    fn len(&self) -> usize
        ensures count { result ≡ length (pairs self.now) }
        ensures distinct { HaveOwnIds (pairs self.now) };

    /// The pair at an index, from 0.
    fn at(&self, index: usize) -> (BlockId, &BasicBlock)
        requires { index < length (pairs self.now) }
        ensures { slice_get (pairs self.now) index ≡ Some (result.0, result.1.now) };

    /// Puts a block in the pair at an index, and returns the block that was in it.
    fn set_at(&mut self, index: usize, block: BasicBlock) -> BasicBlock
        requires { index < length (pairs self.old) }
        ensures old { slice_get (values_of (pairs self.old)) index ≡ Some result }
        ensures new { pairs self.new ≡ with_block_at (pairs self.old) index block };
}

/// The table that the functions of a result hold their blocks in.
pub type GraphBlocks = DenseBlocks;

/// Blocks in a hash map that keeps their order. A look-up by id takes a constant number of steps on average; `remove` moves the pairs
/// behind it.
#[derive(Drop)]
pub struct MapBlocks {
    map: BlockMap<BasicBlock>,
}

impl Model for MapBlocks {
    ghost use Rattle.std.specs.Prelude.{List};
    ghost use Rattle.rl_base.specs.declared.ids.BlockId.{BlockId};
    ghost use Rattle.rl_hir.specs.Blocks.{HaveOwnIds};
    ghost use Rattle.rl_hir.specs.declared.function.BasicBlock.{BasicBlock};

    ghost Value = { List (BlockId × BasicBlock) };

    ghost view = { λ blocks. blocks.map.entries };

    ghost invariant = { λ blocks. HaveOwnIds blocks.map.entries };
}

impl Blocks for MapBlocks {
    ghost pairs = { λ blocks. blocks };

    #[tactic(auto, using(crate::proofs::OwnIds::none))]
    fn empty(alloc: Global) -> MapBlocks {
        MapBlocks {
            map: new_map(alloc),
        }
    }

    fn get(&self, id: BlockId) -> Option<&BasicBlock> {
        self.map.get(&id)
    }

    fn put(&mut self, id: BlockId, block: BasicBlock) -> Result<(), OutOfMemory> {
        self.map.insert(id, block)?;
        Ok(())
    }

    fn remove(&mut self, id: BlockId) -> Option<BasicBlock> {
        self.map.shift_remove(&id)
    }

    fn remove_all(&mut self, ids: &BlockSet) {
        self.map.retain(
            |id: &BlockId, block: &mut BasicBlock| -> bool
                ensures { (result ≡ not (list_any (same_id id.now) ids.entry.now.keys)) × (block.new ≡ block.old) }
            { !ids.contains(id) },
        );
    }

    fn len(&self) -> usize {
        self.map.len()
    }

    fn at(&self, index: usize) -> (BlockId, &BasicBlock) {
        match self.map.get_index(index) {
            Some((id, block)) => (*id, block),
            None => unreachable!(),
        }
    }

    #[tactic(auto, using(crate::proofs::OwnIds::replaced))]
    fn set_at(&mut self, index: usize, block: BasicBlock) -> BasicBlock {
        match self.map.get_index_mut(index) {
            Some(slot) => mem::replace(slot, block),
            None => unreachable!(),
        }
    }
}

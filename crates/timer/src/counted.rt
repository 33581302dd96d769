//! Blocks whose look-ups are counted.

ghost use Rattle.std.specs.Prelude.{◌≡◌};

use rl_base::error::OutOfMemory;
use rl_base::ids::BlockId;
use rl_hir::blocks::{Blocks, MapBlocks};
use rl_hir::function::BasicBlock;
use std::alloc::Global;
use std::cell::Cell;

/// Blocks in a hash map, and the number of look-ups by id.
#[derive(Drop)]
pub struct CountedBlocks {
    map: MapBlocks,
    found: Cell<u64>,
}

impl CountedBlocks {
    /// The number of calls of `get`.
    pub fn looked_up(&self) -> u64 {
        self.found.get()
    }
}

impl Blocks for CountedBlocks {
    ghost pairs = { λ blocks. blocks.map };

    fn empty(alloc: Global) -> CountedBlocks {
        CountedBlocks {
            map: MapBlocks::empty(alloc),
            found: Cell::new(0),
        }
    }

    fn get(&self, id: BlockId) -> Option<&BasicBlock> {
        self.found.set(self.found.get().saturating_add(1));
        self.map.get(id)
    }

    fn put(&mut self, id: BlockId, block: BasicBlock) -> Result<(), OutOfMemory> {
        self.map.put(id, block)
    }

    fn remove(&mut self, id: BlockId) -> Option<BasicBlock> {
        self.map.remove(id)
    }

    fn len(&self) -> usize {
        self.map.len()
    }

    fn at(&self, index: usize) -> (BlockId, &BasicBlock) {
        self.map.at(index)
    }

    fn set_at(&mut self, index: usize, block: BasicBlock) -> BasicBlock {
        self.map.set_at(index, block)
    }
}

//! Blocks in a vector, each found by its id in one step.

ghost use Rattle.std.specs.Prelude.{◌≡◌, ℕ, ◌+◌, ◌<◌, ◌≤◌, ◌++◌, ◌∷◌, [], None, length, nat_eq, not, if◌then◌else◌, OnOk, OnErr};
ghost use Rattle.std.specs.List.{list_any};
ghost use Rattle.rl_base.specs.declared.ids.BlockId.{BlockId};
ghost use Rattle.rl_hir.specs.Blocks.{Pair, block_at, same_id};
ghost use Rattle.rl_hir.specs.Indexed.{HasEntry, IsIndexed, IsIndexedBelow, index_of};
ghost use Rattle.rl_hir.specs.declared.function.BasicBlock.{BasicBlock};

use crate::block_sets::BlockSet;
use crate::blocks::Blocks;
use crate::function::BasicBlock;
use rl_base::error::OutOfMemory;
use rl_base::ids::BlockId;
use std::alloc::Global;
use std::marker::Model;
use std::{cmp, mem};

/// The index of each block's pair, by the block's id: an entry for each id from `first` on. An id without an entry has no pair.
#[derive(Drop)]
struct PairIndices {
    first: u32,
    entries: Vec<Option<usize>>,
}

impl PairIndices {
    /// A table without entries. Allocates nothing.
    fn new(alloc: Global) -> PairIndices
        ensures { (id : ℕ) → index_of result id ≡ None }
    {
        PairIndices {
            first: 0,
            entries: Vec::new(alloc),
        }
    }

    /// The index of the pair with this id. `None` if no pair has it.
    fn get(&self, id: BlockId) -> Option<usize>
        ensures { result ≡ index_of self.now id.0 }
    {
        if id.0 < self.first {
            return None;
        }
        match self.entries.get((id.0 - self.first) as usize) {
            Some(index) => *index,
            None => None,
        }
    }

    /// Makes `more` entries in front of the first one. On `OutOfMemory` an allocation failed, and nothing changed.
    fn add_in_front(&mut self, more: u32) -> Result<(), OutOfMemory>
        requires { more ≤ self.old.first }
        ensures same { (other : ℕ) → index_of self.new other ≡ index_of self.old other }
        ensures room { OnOk result ((other : ℕ) → self.old.first ≤ other + more → other < self.old.first → HasEntry self.new other) }
    {
        let mut entries = Vec::from_elem(*self.entries.allocator(), None, more as usize)?;
        entries.extend_from_slice(self.entries.as_slice())?;
        self.entries = entries;
        self.first -= more;
        Ok(())
    }

    /// Makes an entry for an id in front of the first one. The entries at least double in number, down to the id 0 at most, so that
    /// ids that fall one by one take a constant time each on average. On `OutOfMemory` an allocation failed, and nothing changed.
    fn make_room_in_front(&mut self, id: BlockId) -> Result<(), OutOfMemory>
        requires { id.0 < self.old.first }
        ensures same { (other : ℕ) → index_of self.new other ≡ index_of self.old other }
        ensures room { OnOk result (HasEntry self.new id.0) }
    {
        let wanted = self.first - id.0;
        let entries = self.entries.len();
        if entries < self.first as usize && wanted < entries as u32 {
            return self.add_in_front(entries as u32);
        }
        self.add_in_front(wanted)
    }

    /// Makes an entry for an id that is at least the first one. On `OutOfMemory` an allocation failed, and nothing changed.
    fn make_room_behind(&mut self, id: BlockId) -> Result<(), OutOfMemory>
        requires { self.old.first ≤ id.0 }
        ensures same { (other : ℕ) → index_of self.new other ≡ index_of self.old other }
        ensures room { OnOk result (HasEntry self.new id.0) }
    {
        let wanted = (id.0 - self.first) as usize + 1;
        if wanted <= self.entries.len() {
            return Ok(());
        }
        self.entries.resize(wanted, None)?;
        Ok(())
    }

    /// Makes the only entry, of an id. On `OutOfMemory` an allocation failed, and nothing changed.
    fn begin(&mut self, id: BlockId) -> Result<(), OutOfMemory>
        requires { length self.old.entries.items ≡ 0 }
        ensures same { (other : ℕ) → index_of self.new other ≡ index_of self.old other }
        ensures room { OnOk result (HasEntry self.new id.0) }
    {
        self.entries.push(None)?;
        self.first = id.0;
        Ok(())
    }

    /// Makes an entry for an id. On `OutOfMemory` an allocation failed, and nothing changed.
    fn make_room(&mut self, id: BlockId) -> Result<(), OutOfMemory>
        ensures same { (other : ℕ) → index_of self.new other ≡ index_of self.old other }
        ensures room { OnOk result (HasEntry self.new id.0) }
    {
        if self.entries.is_empty() {
            return self.begin(id);
        }
        if id.0 < self.first {
            return self.make_room_in_front(id);
        }
        self.make_room_behind(id)
    }

    /// Puts an index into the entry of an id.
    fn set(&mut self, id: BlockId, index: Option<usize>)
        requires { HasEntry self.old id.0 }
        ensures indices { (other : ℕ) → index_of self.new other ≡ (if nat_eq other id.0 then index else index_of self.old other) }
        ensures entries { (other : ℕ) → HasEntry self.old other → HasEntry self.new other }
    {
        self.entries[(id.0 - self.first) as usize] = index;
    }

    /// Takes the index out of each entry. The entries stay.
    fn clear(&mut self)
        ensures indices { (id : ℕ) → index_of self.new id ≡ None }
        ensures entries { (id : ℕ) → HasEntry self.old id → HasEntry self.new id }
    {
        self.entries.fill(None);
    }

    /// Puts the index of each pair from the index `from` on into the entry of the pair's id.
    fn renumber(&mut self, from: usize, pairs: &[(BlockId, BasicBlock)])
        requires { IsIndexedBelow self.old from pairs.now }
        ensures { IsIndexed self.new pairs.now }
    {
        for index in from..pairs.len() {
            let pair = &pairs[index];
            self.set(pair.0, Some(index));
        }
    }
}

/// Blocks in a vector, with the index of each block's pair in another, by the block's id. A look-up by id looks at one entry. `remove`
/// moves the pairs behind it. The ids should lie close together: there is an entry for each id between the least and the greatest.
#[derive(Drop)]
pub struct DenseBlocks {
    pairs: Vec<(BlockId, BasicBlock)>,
    indices: PairIndices,
}

impl Model for DenseBlocks {
    ghost use Rattle.std.specs.Prelude.{List};
    ghost use Rattle.rl_base.specs.declared.ids.BlockId.{BlockId};
    ghost use Rattle.rl_hir.specs.Indexed.{IsIndexed};
    ghost use Rattle.rl_hir.specs.declared.function.BasicBlock.{BasicBlock};

    ghost Value = { List (BlockId × BasicBlock) };

    ghost view = { λ blocks. blocks.pairs.items };

    ghost invariant = { λ blocks. IsIndexed blocks.indices blocks.pairs.items };
}

impl DenseBlocks {
    /// Appends the pair of an id that no pair has. On `OutOfMemory`, an allocation failed, nothing has changed, and the block is
    /// dropped.
    fn append(&mut self, id: BlockId, block: BasicBlock) -> Result<(), OutOfMemory>
        requires { block_at self.old id ≡ None }
        ensures ok { OnOk result (self.new ≡ self.old ++ (id, block) ∷ []) }
        ensures err { OnErr result (self.new ≡ self.old) }
    {
        let index = self.pairs.len();
        self.indices.make_room(id)?;
        self.pairs.push((id, block))?;
        self.indices.set(id, Some(index));
        Ok(())
    }
}

impl Blocks for DenseBlocks {
    ghost pairs = { λ blocks. blocks };

    fn empty(alloc: Global) -> DenseBlocks {
        DenseBlocks {
            pairs: Vec::new(alloc),
            indices: PairIndices::new(alloc),
        }
    }

    fn get(&self, id: BlockId) -> Option<&BasicBlock> {
        let index = self.indices.get(id)?;
        Some(&self.pairs[index].1)
    }

    fn put(&mut self, id: BlockId, block: BasicBlock) -> Result<(), OutOfMemory> {
        match self.indices.get(id) {
            Some(index) => {
                let _ = self.set_at(index, block);
                Ok(())
            }
            None => self.append(id, block),
        }
    }

    fn remove(&mut self, id: BlockId) -> Option<BasicBlock> {
        let index = self.indices.get(id)?;
        let pair = self.pairs.remove(index);
        self.indices.set(id, None);
        self.indices.renumber(index, self.pairs.as_slice());
        Some(pair.1)
    }

    fn remove_all(&mut self, ids: &BlockSet) {
        self.pairs.retain(
            |pair: &(BlockId, BasicBlock)| -> bool
                ensures { result ≡ not (list_any (same_id pair.now.0) ids.entry.now.keys) }
            { !ids.contains(&pair.0) },
        );
        self.indices.clear();
        self.indices.renumber(0, self.pairs.as_slice());
    }

    fn len(&self) -> usize {
        self.pairs.len()
    }

    fn at(&self, index: usize) -> (BlockId, &BasicBlock) {
        let (id, block) = &self.pairs[index];
        (*id, block)
    }

    fn set_at(&mut self, index: usize, block: BasicBlock) -> BasicBlock {
        mem::replace(&mut self.pairs[index].1, block)
    }
}

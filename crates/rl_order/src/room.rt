//! Tables by the ids of blocks, with room from the start.

ghost use Rattle.std.specs.Prelude.{◌≡◌, [], IfOk, IsOk};

use indexmap::{IndexMap, IndexSet};
use rl_base::error::OutOfMemory;
use rl_hir::block_sets::{BlockMap, BlockSet};
use std::alloc::Global;
use std::hash::BuildHasherDefault;

/// No values, with room for `count`, a number of blocks. On `OutOfMemory` an allocation failed; none is made for no blocks.
pub(crate) fn map_with_room<V>(alloc: Global, count: usize) -> Result<BlockMap<V>, OutOfMemory>
    ensures entries { IfOk result (λ map. map.entries ≡ []) }
    ensures succeeds { count ≡ 0 → IsOk result }
{
    let hashers = BuildHasherDefault::new();
    Ok(IndexMap::with_capacity_and_hasher(alloc, count, hashers)?)
}

/// No ids, with room for `count`, a number of blocks. On `OutOfMemory` an allocation failed; none is made for no blocks.
pub(crate) fn set_with_room(alloc: Global, count: usize) -> Result<BlockSet, OutOfMemory>
    ensures keys { IfOk result (λ set. set.keys ≡ []) }
    ensures succeeds { count ≡ 0 → IsOk result }
{
    let hashers = BuildHasherDefault::new();
    Ok(IndexSet::with_capacity_and_hasher(alloc, count, hashers)?)
}

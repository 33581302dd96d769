//! Tables by the ids of blocks, under a hash that puts ids in a row side by side.

ghost use Rattle.std.specs.Prelude.{◌≡◌, []};

use indexmap::{IndexMap, IndexSet};
use rl_base::ids::BlockId;
use std::alloc::Global;
use std::hash::{BuildHasherDefault, Hasher};

/// A hasher of one id. Three ids in a row have one hash but for its highest byte, and the next three have the next hash, so that an
/// index table has them in groups side by side.
#[derive(Clone, Copy)]
pub struct IdHasher {
    /// The four bytes that were written last, the first of them the highest.
    state: u32,
}

impl Default for IdHasher {
    ghost use Rattle.std.specs.Prelude.{◌≡◌};

    ghost is_default = { λ hasher. hasher.state ≡ 0 };

    fn default() -> IdHasher {
        IdHasher { state: 0 }
    }
}

impl Hasher for IdHasher {
    ghost use Rattle.rl_hir.specs.IdHashes.{hash_of, written};

    ghost write = { written };

    ghost finish = { hash_of };

    // The bytes of an id are written from the lowest on, so `low` is the id modulo 256. The highest byte of a hash tells ids in one
    // group apart.
    fn finish(&self) -> u64 {
        let low = self.state / 0x100_0000;
        let rest = self.state / 0x1_0000 % 256
            + self.state / 256 % 256 * 256
            + self.state % 256 * 0x1_0000;
        let id = low + rest * 256;
        (id % 251 + 1) as u64 * 0x100_0000 + (id / 3 + id / 0x1_0000) as u64 % 0x100_0000
    }

    fn write(&mut self, bytes: &[u8]) {
        for byte in bytes {
            self.state = self.state % 0x100_0000 * 256 + *byte as u32;
        }
    }
}

/// Values by the ids of blocks, in the order in which they were put.
pub type BlockMap<V> = IndexMap<BlockId, V, BuildHasherDefault<IdHasher>>;

/// Ids of blocks, each once, in the order in which they were put.
pub type BlockSet = IndexSet<BlockId, BuildHasherDefault<IdHasher>>;

/// No values. Allocates nothing.
pub fn new_map<V>(alloc: Global) -> BlockMap<V>
    ensures { result.entries ≡ [] }
{
    IndexMap::with_hasher(alloc, BuildHasherDefault::new())
}

/// No ids. Allocates nothing.
pub fn new_set(alloc: Global) -> BlockSet
    ensures { result.keys ≡ [] }
{
    IndexSet::with_hasher(alloc, BuildHasherDefault::new())
}

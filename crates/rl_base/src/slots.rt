//! Slots of keys. Each key has one of them, by its hash, and the slot says if the key is the only one that has it. Most look-ups are
//! one comparison then; keys that share a slot, also those that are made to, are left to an ordered map.

ghost use Rattle.std.specs.Prelude.{◌≡◌, ◌<◌, false, length, replicate, IfOk};
ghost use Rattle.rl_base.specs.declared.slots.Slot.TheVariants as Slot;
ghost use Rattle.rl_base.specs.Slots.{hash_from, slot_index_of, is_many, slot_at};

use crate::error::OutOfMemory;
use std::alloc::Global;

/// The keys that have a slot: none, one, or many.
#[derive(Clone, Copy)]
pub enum Slot {
    /// There is no key.
    Empty,
    /// There is one key, with this number.
    One(usize),
    /// There may be many keys.
    Many,
}

/// Number above all hashes.
const HASHES: u64 = 4_294_967_296;

/// A hash of a text.
fn hash_of(text: &str) -> u64
    ensures value { result ≡ hash_from 0 text.now }
    ensures small { result < 4294967296 }
{
    let mut hash = 0;
    let bytes = text.as_bytes();
    for byte in bytes {
        hash = (hash * 16_777_619 + u64::from(*byte)) % HASHES;
    }
    hash
}

/// The index of the slot that a text has among `count` slots. 0 if there are none.
pub fn slot_index_of(count: usize, text: &str) -> usize
    ensures { result ≡ slot_index_of count text.now }
{
    if count == 0 {
        return 0;
    }
    (hash_of(text) % count as u64) as usize
}

/// The slot at an index. An index past the end gives a slot of many keys.
pub fn slot_at(slots: &[Slot], index: usize) -> Slot
    ensures slot { result ≡ slot_at slots.now index }
    ensures within { is_many result ≡ false → index < length slots.now }
{
    match slots.get(index) {
        Some(slot) => *slot,
        None => Slot::Many,
    }
}

/// `count` empty slots. On `OutOfMemory`, an allocation failed.
pub fn empty_slots(alloc: Global, count: usize) -> Result<Vec<Slot>, OutOfMemory>
    ensures { IfOk result (λ slots. slots.items ≡ replicate count Slot.Empty) }
{
    let mut slots = Vec::new(alloc);
    slots.resize(count, Slot::Empty)?;
    Ok(slots)
}

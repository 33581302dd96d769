//! Lists of items with names, and look-up by name.

ghost use Rattle.std.specs.Prelude.{◌≡◌, ◌<◌, ◌++◌, ◌∷◌, [], ℕ, List, true, false, not, if◌then◌else◌, Some, None, is_some, length, map, slice_get, IfSome, IfOk, OnOk, OnErr};
ghost use Rattle.std.specs.BTreeMap.{Updates, IsUnchanged, get_by_text};
ghost use Rattle.std.specs.Option.{option_copied};
ghost use Rattle.std.specs.String.{string_cmp, string_bytes};
ghost use Rattle.std.specs.Str.{bytes_eq};
ghost use Rattle.rl_base.specs.NameTables.{index_named, item_named};
ghost use Rattle.rl_base.specs.Slots.{is_key};

use crate::error::OutOfMemory;
use crate::slots::{Slot, empty_slots, slot_at, slot_index_of};
use std::alloc::Global;
use std::collections::BTreeMap;
use std::collections::btree_map::Entry;
use std::marker::Model;

/// A value with a name.
pub trait Named: Drop {
    /// The bytes of the name.
    ghost name: { Self → List ℕ };

    /// The name.
    fn name(&self) -> &str
        ensures { result.now ≡ name self.now };
}

/// Items with an index by name. A look-up takes a number of comparisons that is at most logarithmic in the number of items, and a
/// single comparison for most names in a table with slots. Contracts see the items, in the order in which their names came. No two
/// have the same name.
#[derive(Drop)]
pub struct NameTable<T: Named> {
    items: Vec<T>,
    /// For each slot, the names that have it: none, one by its index, or many.
    slots: Vec<Slot>,
    /// The indices of the names that share a slot.
    indices: BTreeMap<String, usize>,
}

impl<T: Named> Model for NameTable<T> {
    ghost use Rattle.std.specs.Prelude.{List};
    ghost use Rattle.std.specs.Coded.{coded_list};
    ghost use Rattle.rl_base.specs.NameIndex.{IsIndex};

    ghost Value = { List T };

    ghost coded = { coded_list T.code };

    ghost view = { λ table. table.items.items };

    ghost invariant = { λ table. IsIndex T.name table.slots.items table.indices table.items.items };
}

impl<T: Named> NameTable<T> {
    /// The empty table, without slots. Allocates nothing.
    #[tactic(auto, using(crate::proofs::NameTables::none_slotted))]
    pub fn new(alloc: Global) -> NameTable<T>
        ensures { result ≡ [] }
    {
        NameTable {
            items: Vec::new(alloc),
            slots: Vec::new(alloc),
            indices: BTreeMap::new(alloc),
        }
    }

    /// The empty table, with `count` slots: for about half as many names. On `OutOfMemory`, an allocation failed.
    #[tactic(auto, using(crate::proofs::NameTables::empty_slotted))]
    pub fn with_slots(alloc: Global, count: usize) -> Result<NameTable<T>, OutOfMemory>
        ensures { IfOk result (λ table. table ≡ []) }
    {
        let slots = empty_slots(alloc, count)?;
        Ok(NameTable {
            items: Vec::new(alloc),
            slots,
            indices: BTreeMap::new(alloc),
        })
    }

    /// A table of `items`, which have the names of the items here, in order. On `OutOfMemory`, an allocation failed.
    pub fn with_items(&self, alloc: Global, items: Vec<T>) -> Result<NameTable<T>, OutOfMemory>
        requires { map T.name items.items ≡ map T.name self.now }
        ensures { IfOk result (λ table. table ≡ items.items) }
    {
        let slots = Vec::from_slice(alloc, self.slots.as_slice())?;
        let indices = self.indices.clone()?;
        Ok(NameTable {
            items,
            slots,
            indices,
        })
    }

    /// The items, in the order in which their names came.
    pub fn as_slice(&self) -> &[T]
        ensures { result.now ≡ self.now }
    {
        self.items.as_slice()
    }

    /// Number of items.
    pub fn len(&self) -> usize
        ensures { result ≡ length self.now }
    {
        self.items.len()
    }

    /// The index of the item named `name`. `None` if there is none.
    pub fn find(&self, name: &str) -> Option<usize>
        ensures found { result ≡ index_named T.name self.now name.now }
        ensures within { IfSome result (λ index. index < length self.now) }
    {
        match slot_at(self.slots.as_slice(), slot_index_of(self.slots.len(), name)) {
            Slot::Empty => None,
            Slot::One(index) => {
                if is_named(self.items.as_slice(), index, name) {
                    Some(index)
                } else {
                    None
                }
            }
            Slot::Many => self.indices.get(name).copied(),
        }
    }

    /// The item named `name`. `None` if there is none.
    pub fn get(&self, name: &str) -> Option<&T>
        ensures { option_copied result ≡ item_named T.name self.now name.now }
    {
        match self.find(name) {
            Some(index) => Some(&self.items[index]),
            None => None,
        }
    }

    /// Appends an item whose name is new and returns true, or returns false if its name is taken, and changes nothing. It takes a
    /// single look-up. On `OutOfMemory`, an allocation failed, and nothing has changed. An item that is not appended is dropped.
    pub fn insert_new(&mut self, alloc: Global, item: T) -> Result<bool, OutOfMemory>
        ensures is_new { IfOk result (λ is_new. is_new ≡ not (is_some (index_named T.name self.old (T.name item)))) }
        ensures items { IfOk result (λ is_new. self.new ≡ (if is_new then self.old ++ item ∷ [] else self.old)) }
        ensures err { OnErr result (self.new ≡ self.old) }
    {
        let (_, is_new) = self.find_or_insert(alloc, item)?;
        Ok(is_new)
    }

    /// The index of the item that has the name of `item`, and true if that is `item`, which is appended where its name is new. An
    /// item that is not appended is dropped, and nothing has changed then. It takes one look-up. On `OutOfMemory`, an allocation
    /// failed, and nothing has changed.
    pub fn find_or_insert(&mut self, alloc: Global, item: T) -> Result<(usize, bool), OutOfMemory>
        ensures index { IfOk result (λ found. index_named T.name self.new (T.name item) ≡ Some found.0) }
        ensures is_new { IfOk result (λ found. found.1 ≡ not (is_some (index_named T.name self.old (T.name item)))) }
        ensures items { IfOk result (λ found. self.new ≡ (if found.1 then self.old ++ item ∷ [] else self.old)) }
        ensures within { IfOk result (λ found. found.0 < length self.new) }
        ensures last { IfOk result (λ found. found.1 ≡ true → found.0 ≡ length self.old) }
        ensures err { OnErr result (self.new ≡ self.old) }
    {
        let slot_index = slot_index_of(self.slots.len(), item.name());
        match slot_at(self.slots.as_slice(), slot_index) {
            Slot::Empty => {
                let index = self.items.len();
                self.items.push(item)?;
                self.slots[slot_index] = Slot::One(index);
                Ok((index, true))
            }
            Slot::One(other) => {
                if is_named(self.items.as_slice(), other, item.name()) {
                    return Ok((other, false));
                }
                add_other(alloc, self.items.as_slice(), &mut self.indices, other)?;
                self.slots[slot_index] = Slot::Many;
                insert_among(alloc, &mut self.items, &mut self.indices, item)
            }
            Slot::Many => insert_among(alloc, &mut self.items, &mut self.indices, item),
        }
    }
}

/// True if the item at an index has this name.
fn is_named<T: Named>(items: &[T], index: usize, name: &str) -> bool
    ensures { result ≡ is_key bytes_eq (slice_get (map T.name items.now) index) name.now }
{
    match items.get(index) {
        Some(item) => item.name() == name,
        None => false,
    }
}

/// Gives the map the index of the item there, whose name it does not have. On `OutOfMemory`, an allocation failed, and nothing
/// has changed.
fn add_other<T: Named>(
    alloc: Global,
    items: &[T],
    indices: &mut BTreeMap<String, usize>,
    index: usize,
) -> Result<(), OutOfMemory>
    requires within { index < length items.now }
    ensures added { OnOk result ((name : List ℕ) → get_by_text indices.new name ≡ (if is_key bytes_eq (slice_get (map T.name items.now) index) name then Some index else get_by_text indices.old name)) }
    ensures err { OnErr result (IsUnchanged indices.old indices.new) }
{
    let name = String::from_str(alloc, items[index].name())?;
    indices.insert(name, index)?;
    Ok(())
}

/// Appends an item and gives its index to the map, unless the map has its name. Returns the index of the item that has the name,
/// and true if that is the new one. On `OutOfMemory`, an allocation failed, and nothing has changed.
fn insert_among<T: Named>(
    alloc: Global,
    items: &mut Vec<T>,
    indices: &mut BTreeMap<String, usize>,
    item: T,
) -> Result<(usize, bool), OutOfMemory>
    ensures index { IfOk result (λ found. Some found.0 ≡ (if found.1 then Some (length items.old.items) else get_by_text indices.old (T.name item))) }
    ensures is_new { IfOk result (λ found. found.1 ≡ not (is_some (get_by_text indices.old (T.name item)))) }
    ensures items { IfOk result (λ found. items.new.items ≡ (if found.1 then items.old.items ++ item ∷ [] else items.old.items)) }
    ensures added { IfOk result (λ found. found.1 ≡ true → (name : List ℕ) → get_by_text indices.new name ≡ (if bytes_eq (T.name item) name then Some (length items.old.items) else get_by_text indices.old name)) }
    ensures stays { IfOk result (λ found. found.1 ≡ false → IsUnchanged indices.old indices.new) }
    ensures err_items { OnErr result (items.new.items ≡ items.old.items) }
    ensures err { OnErr result (IsUnchanged indices.old indices.new) }
{
    let name = String::from_str(alloc, item.name())?;
    let index = items.len();
    // With room for the item, nothing fails once its name is in the index.
    items.reserve(1)?;
    match insert_if_new(indices, name, index)? {
        Some(known) => Ok((known, false)),
        None => {
            items.push(item)?;
            Ok((index, true))
        }
    }
}

/// Gives `index` to a name that has no index yet. Returns the index that it has already, which stays. On `OutOfMemory`, an
/// allocation failed, and nothing has changed.
fn insert_if_new(
    indices: &mut BTreeMap<String, usize>,
    name: String,
    index: usize,
) -> Result<Option<usize>, OutOfMemory>
    ensures known { IfOk result (λ known. known ≡ get_by_text indices.old (string_bytes name)) }
    ensures added { IfOk result (λ known. known ≡ None → Updates string_cmp indices.old indices.new name (Some index)) }
    ensures stays { IfOk result (λ known. is_some known ≡ true → IsUnchanged indices.old indices.new) }
    ensures err { OnErr result (IsUnchanged indices.old indices.new) }
{
    match indices.entry(name)? {
        Entry::Vacant(entry) => {
            entry.insert(index);
            Ok(None)
        }
        Entry::Occupied(entry) => Ok(Some(*entry.get())),
    }
}

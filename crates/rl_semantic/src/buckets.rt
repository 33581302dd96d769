//! Items by keys that are numbers: the items of each key, in order, or the first of them alone.

ghost use Rattle.std.specs.Prelude.{◌≡◌, [], None, replicate, IfOk, OnOk};
ghost use Rattle.rl_semantic.specs.Buckets as spec;

use rl_base::error::OutOfMemory;
use rl_base::list::List;
use std::alloc::Global;

/// `count` keys without items. On `OutOfMemory`, an allocation failed.
fn blank<T: Copy>(alloc: Global, count: usize) -> Result<Vec<List<T>>, OutOfMemory>
    ensures { IfOk result (λ table. table.items ≡ replicate count []) }
{
    let mut table = Vec::with_capacity(alloc, count)?;
    for _key in 0..count {
        table.push(List::new(alloc))?;
    }
    Ok(table)
}

/// Adds an item at its key. A key past the end of the table changes nothing. On `OutOfMemory`, an allocation failed.
fn put<T: Copy>(table: &mut [List<T>], key: usize, item: T) -> Result<(), OutOfMemory>
    ensures { OnOk result (table.new ≡ spec.put table.old (key, item)) }
{
    if key < table.len() {
        table[key].push(item)?;
    }
    Ok(())
}

/// The table of pairs of a key and an item for `count` keys. On `OutOfMemory`, an allocation failed.
fn tabled<T: Copy>(
    alloc: Global,
    count: usize,
    pairs: &[(usize, T)],
) -> Result<List<List<T>>, OutOfMemory>
    ensures { IfOk result (λ table. table ≡ spec.tabled count pairs.now) }
{
    let mut table = blank(alloc, count)?;
    for pair in pairs {
        put(&mut table, pair.0, pair.1)?;
    }
    Ok(List::from_vec(table))
}

/// Number above the keys of pairs that are below `count`; 0 if there are none.
fn keys_used<T: Copy>(count: usize, pairs: &[(usize, T)]) -> usize
    ensures { result ≡ spec.keys_used 0 count pairs.now }
{
    let mut most = 0;
    for pair in pairs {
        if pair.0 < count {
            let next = pair.0 + 1;
            if most < next {
                most = next;
            }
        }
    }
    most
}

/// The table that has for each key below `count` the items of that key. It takes memory for the keys up to the largest of the
/// pairs alone. On `OutOfMemory`, an allocation failed.
#[tactic(auto, using(crate::proofs::Filling::are_buckets))]
pub fn buckets<T: Copy>(
    alloc: Global,
    count: usize,
    pairs: &[(usize, T)],
) -> Result<List<List<T>>, OutOfMemory>
    ensures { IfOk result (λ table. spec.AreBuckets table count pairs.now) }
{
    let table = tabled(alloc, keys_used(count, pairs), pairs)?;
    Ok(table)
}

/// The items that a table has for a key. None past its end.
pub fn bucket<T>(table: &List<List<T>>, key: usize) -> &[T]
    ensures { result.now ≡ spec.bucket table.now key }
{
    match table.get(key) {
        Some(items) => items.as_slice(),
        None => &[],
    }
}

/// `count` keys without a first item. On `OutOfMemory`, an allocation failed.
fn blank_firsts<T: Copy>(alloc: Global, count: usize) -> Result<Vec<Option<T>>, OutOfMemory>
    ensures { IfOk result (λ table. table.items ≡ replicate count None) }
{
    let mut table = Vec::with_capacity(alloc, count)?;
    for _key in 0..count {
        table.push(None)?;
    }
    Ok(table)
}

/// Puts an item at its key, unless the key has one. A key past the end of the table changes nothing.
fn put_first<T: Copy>(table: &mut [Option<T>], key: usize, item: T)
    ensures { table.new ≡ spec.put_first table.old (key, item) }
{
    if key < table.len() {
        match table[key] {
            Some(_) => {}
            None => table[key] = Some(item),
        }
    }
}

/// The table of the first items of pairs of a key and an item for `count` keys. On `OutOfMemory`, an allocation failed.
fn firsts_tabled<T: Copy>(
    alloc: Global,
    count: usize,
    pairs: &[(usize, T)],
) -> Result<List<Option<T>>, OutOfMemory>
    ensures { IfOk result (λ table. table ≡ spec.firsts_tabled count pairs.now) }
{
    let mut table = blank_firsts(alloc, count)?;
    for pair in pairs {
        put_first(&mut table, pair.0, pair.1);
    }
    Ok(List::from_vec(table))
}

/// The table that has for each key below `count` the first item of that key. It takes memory for the keys up to the largest of
/// the pairs alone, and no more for the items. On `OutOfMemory`, an allocation failed.
#[tactic(auto, using(crate::proofs::Filling::are_firsts))]
pub fn firsts<T: Copy>(
    alloc: Global,
    count: usize,
    pairs: &[(usize, T)],
) -> Result<List<Option<T>>, OutOfMemory>
    ensures { IfOk result (λ table. spec.AreFirsts table count pairs.now) }
{
    let table = firsts_tabled(alloc, keys_used(count, pairs), pairs)?;
    Ok(table)
}

/// The item that a table of first items has for a key. `None` past its end, and for a key without items.
pub fn first_at<T: Copy>(table: &List<Option<T>>, key: usize) -> Option<T>
    ensures { result ≡ spec.first_at table.now key }
{
    match table.get(key) {
        Some(item) => *item,
        None => None,
    }
}

//! Numbers in a row, with look-ups.

ghost use Rattle.std.specs.Prelude.{◌≡◌, ◌||◌, ℕ, ◌<◌, IfOk, OnOk, length, nat_eq};
ghost use Rattle.std.specs.BTreeSet.{contains_by};
ghost use Rattle.std.specs.Ordering.{nat_cmp};
ghost use Rattle.rl_code.specs.Flags.{flag_at};
ghost use Rattle.rl_model.specs.Code.{contains};

use rl_base::error::OutOfMemory;
use std::alloc::Global;
use std::collections::BTreeSet;

/// Numbers in a row, and the set of them.
#[derive(Drop)]
pub struct Numbers {
    /// The numbers.
    pub list: Vec<u32>,
    set: BTreeSet<u32>,
    ghost same: { (n : ℕ) → contains_by (nat_cmp n) set ≡ contains list.items n },
}

/// Puts a number into a set. On `OutOfMemory`, an allocation failed.
fn put(set: &mut BTreeSet<u32>, number: u32) -> Result<(), OutOfMemory>
    ensures { OnOk result ((n : ℕ) → contains_by (nat_cmp n) set.new ≡ (contains_by (nat_cmp n) set.old || nat_eq number n)) }
{
    set.insert(number)?;
    Ok(())
}

/// Puts a number into a set. On `OutOfMemory`, an allocation failed.
pub fn add(set: &mut BTreeSet<u32>, number: u32) -> Result<(), OutOfMemory>
    ensures { OnOk result ((n : ℕ) → contains_by (nat_cmp n) set.new ≡ (contains_by (nat_cmp n) set.old || nat_eq n number)) }
{
    put(set, number)?;
    Ok(())
}

/// The set of some numbers. On `OutOfMemory`, an allocation failed.
fn set_of(alloc: Global, numbers: &[u32]) -> Result<BTreeSet<u32>, OutOfMemory>
    ensures { IfOk result (λ set. (n : ℕ) → contains_by (nat_cmp n) set ≡ contains numbers.now n) }
{
    let mut set = BTreeSet::new(alloc);
    'numbers: for number in numbers {
        add(&mut set, *number)?;
    }
    Ok(set)
}

impl Numbers {
    /// Some numbers, with their set. On `OutOfMemory`, an allocation failed.
    pub fn of(alloc: Global, list: Vec<u32>) -> Result<Numbers, OutOfMemory>
        ensures { IfOk result (λ numbers. numbers.list.items ≡ list.items) }
    {
        let set = set_of(alloc, list.as_slice())?;
        Ok(Numbers { list, set })
    }

    /// True of one of the numbers.
    pub fn has(&self, number: u32) -> bool
        ensures { result ≡ contains self.now.list.items number }
    {
        self.set.contains(&number)
    }
}

/// The flag of a number. False past the end.
pub fn flag_at(flags: &[bool], number: usize) -> bool
    ensures { result ≡ flag_at flags.now number }
{
    match flags.get(number) {
        Some(flag) => *flag,
        None => false,
    }
}

/// Lengthens flags so that a number has one, and sets none. On `OutOfMemory`, an allocation failed.
#[tactic(auto, using(crate::proofs::Flagging::flag_added))]
fn make_place(flags: &mut Vec<bool>, number: usize) -> Result<(), OutOfMemory>
    ensures place { OnOk result (number < length flags.new.items) }
    ensures same { OnOk result ((n : ℕ) → flag_at flags.new.items n ≡ flag_at flags.old.items n) }
{
    while flags.len() <= number {
        flags.push(false)?;
    }
    Ok(())
}

/// Sets the flag of a number. On `OutOfMemory`, an allocation failed.
fn set_flag(flags: &mut Vec<bool>, number: usize) -> Result<(), OutOfMemory>
    ensures { OnOk result ((n : ℕ) → flag_at flags.new.items n ≡ (flag_at flags.old.items n || nat_eq n number)) }
{
    make_place(flags, number)?;
    flags[number] = true;
    Ok(())
}

/// As `flags_of`, for a slice. On `OutOfMemory`, an allocation failed.
fn flags_among(alloc: Global, numbers: &[u32]) -> Result<Vec<bool>, OutOfMemory>
    ensures { IfOk result (λ flags. (n : ℕ) → flag_at flags.items n ≡ contains numbers.now n) }
{
    let mut flags = Vec::new(alloc);
    'numbers: for number in numbers {
        set_flag(&mut flags, *number as usize)?;
    }
    Ok(flags)
}

/// Flags that are set at some numbers alone. On `OutOfMemory`, an allocation failed.
pub fn flags_of(alloc: Global, numbers: &Vec<u32>) -> Result<Vec<bool>, OutOfMemory>
    ensures { IfOk result (λ flags. (n : ℕ) → flag_at flags.items n ≡ contains numbers.now.items n) }
{
    flags_among(alloc, numbers.as_slice())
}

//! Tables by symbol.

ghost use Rattle.std.specs.Prelude.{◌≡◌, ◌++◌, ◌∷◌, ◌<◌, ◌≤◌, [], ℕ, false, suc, if◌then◌else◌, filter, length, map, nat_eq, nat_le, IfOk, OnOk, Some};
ghost use Rattle.std.specs.Option.{option_map_or};
ghost use Rattle.rl_code.specs.Flags.{flag_at};
ghost use Rattle.rl_hir.specs.Pairs.{identifier_of};
ghost use Rattle.rl_model.specs.Code.{below, contains};
ghost use Rattle.rl_model.specs.Worlds.{symbol_bound};
ghost use Rattle.rl_graph_run.specs.Symbols.{has_flag, identifier_at, symbol_flag};

use rl_base::error::OutOfMemory;
use rl_base::ids::{IdentifierId, SymbolId};
use rl_code::numbers::{flag_at, flags_of};
use rl_hir::function::Pair;
use std::alloc::Global;

/// A bound of symbols, raised above one more.
fn raised(bound: usize, symbol: SymbolId) -> usize
    ensures bound { result ≡ (if nat_le bound symbol.0 then suc symbol.0 else bound) }
    ensures fits { bound ≤ 4294967296 → result ≤ 4294967296 }
{
    let number = symbol.0 as usize;
    if bound <= number {
        return number + 1;
    }
    bound
}

/// The largest number of a symbol that has a pair, and 1 more; 0 without pairs.
pub fn symbol_bound(pairs: &[Pair]) -> usize
    ensures bound { result ≡ symbol_bound pairs.now }
    ensures fits { result ≤ 4294967296 }
{
    let mut bound = 0;
    let mut left = pairs;
    'pairs: while let Some((pair, rest)) = left.split_last() {
        bound = raised(bound, pair.symbol);
        left = rest;
    }
    bound
}

/// Lengthens a table so that a symbol has an entry, and sets none. On `OutOfMemory` an allocation failed.
#[tactic(auto, using(crate::proofs::Tables::entry_more))]
fn make_entry(table: &mut Vec<Option<IdentifierId>>, symbol: usize) -> Result<(), OutOfMemory>
    ensures place { OnOk result (symbol < length table.new.items) }
    ensures same { OnOk result ((n : ℕ) → identifier_at table.new.items n ≡ identifier_at table.old.items n) }
{
    'room: while table.len() <= symbol {
        table.push(None)?;
    }
    Ok(())
}

/// Puts a pair into a table. On `OutOfMemory` an allocation failed.
fn put_pair(table: &mut Vec<Option<IdentifierId>>, pair: Pair) -> Result<(), OutOfMemory>
    ensures { OnOk result ((n : ℕ) → identifier_at table.new.items n
        ≡ (if nat_eq pair.symbol.0 n then Some pair.identifier.0 else identifier_at table.old.items n)) }
{
    let symbol = pair.symbol.0 as usize;
    make_entry(table, symbol)?;
    table[symbol] = Some(pair.identifier);
    Ok(())
}

/// The identifiers of symbols, by symbol. On `OutOfMemory` an allocation failed.
pub fn identifiers_of(
    alloc: Global,
    pairs: &[Pair],
) -> Result<Vec<Option<IdentifierId>>, OutOfMemory>
    ensures { IfOk result (λ table. (n : ℕ) → identifier_at table.items n ≡ identifier_of pairs.now n) }
{
    let mut table = Vec::new(alloc);
    let mut left = pairs;
    'pairs: while let Some((pair, rest)) = left.split_last() {
        put_pair(&mut table, *pair)?;
        left = rest;
    }
    Ok(table)
}

/// The flag of an identifier, if there is one.
fn has_flag(flags: &[bool], identifier: Option<IdentifierId>) -> bool
    ensures { result ≡ has_flag flags.now identifier }
{
    match identifier {
        Some(identifier) => flag_at(flags, identifier.0 as usize),
        None => false,
    }
}

/// The flags of identifiers, by symbol. On `OutOfMemory` an allocation failed.
fn flags_by_symbol(
    alloc: Global,
    table: &[Option<IdentifierId>],
    flags: &[bool],
) -> Result<Vec<bool>, OutOfMemory>
    ensures { IfOk result (λ symbols. symbols.items ≡ map (has_flag flags.now) table.now) }
{
    let mut symbols = Vec::with_capacity(alloc, table.len())?;
    'entries: for identifier in table {
        symbols.push(has_flag(flags, *identifier))?;
    }
    Ok(symbols)
}

/// Flags of the symbols whose identifiers are among some. On `OutOfMemory` an allocation failed.
pub fn symbols_of(
    alloc: Global,
    table: &[Option<IdentifierId>],
    identifiers: &Vec<u32>,
) -> Result<Vec<bool>, OutOfMemory>
    ensures { IfOk result (λ symbols. (n : ℕ) → symbol_flag symbols.items n
        ≡ option_map_or (contains identifiers.now.items) (identifier_at table.now n) false) }
{
    let flags = flags_of(alloc, identifiers)?;
    let symbols = flags_by_symbol(alloc, table, flags.as_slice())?;
    Ok(symbols)
}

/// Appends a number, if a flag is set. On `OutOfMemory` an allocation failed.
fn push_if(out: &mut Vec<u32>, flag: bool, number: u32) -> Result<(), OutOfMemory>
    ensures { OnOk result (out.new.items ≡ out.old.items ++ (if flag then number ∷ [] else [])) }
{
    if flag {
        out.push(number)?;
        return Ok(());
    }
    Ok(())
}

/// The numbers that have a flag. On `OutOfMemory` an allocation failed.
pub fn flagged(alloc: Global, numbers: &[u32], flags: &[bool]) -> Result<Vec<u32>, OutOfMemory>
    ensures { IfOk result (λ found. found.items ≡ filter (flag_at flags.now) numbers.now) }
{
    let mut found = Vec::new(alloc);
    'numbers: for number in numbers {
        push_if(&mut found, flag_at(flags, *number as usize), *number)?;
    }
    Ok(found)
}

/// Appends a symbol, if a flag is set. On `OutOfMemory` an allocation failed.
fn push_symbol(out: &mut Vec<SymbolId>, flag: bool, number: u32) -> Result<(), OutOfMemory>
    ensures { OnOk result (map (λ s. s.0) out.new.items ≡ map (λ s. s.0) out.old.items ++ (if flag then number ∷ [] else [])) }
{
    if flag {
        out.push(SymbolId(number))?;
        return Ok(());
    }
    Ok(())
}

/// The flag of a symbol; false past the end.
fn symbol_flag(flags: &[bool], symbol: usize) -> bool
    ensures { result ≡ symbol_flag flags.now symbol }
{
    match flags.get(symbol) {
        Some(flag) => *flag,
        None => false,
    }
}

/// The symbols below a bound that have a flag, in order. On `OutOfMemory` an allocation failed.
#[tactic(auto, using(rl_worlds::proofs::Shared::further))]
pub fn symbols_below(
    alloc: Global,
    bound: usize,
    flags: &[bool],
) -> Result<Vec<SymbolId>, OutOfMemory>
    requires { bound ≤ 4294967296 }
    ensures { IfOk result (λ found. map (λ s. s.0) found.items ≡ filter (symbol_flag flags.now) (below bound)) }
{
    let mut found = Vec::new(alloc);
    'numbers: for number in 0..bound {
        push_symbol(&mut found, symbol_flag(flags, number), number as u32)?;
    }
    Ok(found)
}

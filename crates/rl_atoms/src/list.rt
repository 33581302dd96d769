//! Options and lists of atoms.

ghost use Rattle.std.specs.Prelude.{◌≡◌, ℕ, ◌≤◌, Option, List, true, false, length, drop, IfOk, IfSome, IfNone};
ghost use Rattle.rl_text.specs.Atoms.{ends, StandsAt, NoneStandsAt};
ghost use Rattle.rl_atoms.specs.Lists.{SpellsOption, SpellsList, AddsRow, NoRow};

use crate::atom::{Atom, ends_at};
use rl_base::error::OutOfMemory;
use rl_base::list::List;
use rl_text::scan::has_byte;
use std::alloc::Global;

/// Reads `-`, the sign of what is absent, or the value whose spelling stands at the byte offset `at`. Returns it and the offset
/// behind it. `None` if neither stands there. On `OutOfMemory`, an allocation failed.
pub fn read_option<A: Atom>(
    alloc: Global,
    bytes: &[u8],
    at: usize,
) -> Result<Option<(Option<A>, usize)>, OutOfMemory>
    requires { at ≤ length bytes.now }
    ensures found { IfOk result (λ r. IfSome r (λ f. StandsAt (SpellsOption A.spells) bytes.now at f.0 f.1)) }
    ensures none { IfOk result (λ r. IfNone r (NoneStandsAt (SpellsOption A.spells) bytes.now at)) }
    ensures unique { IfOk result (λ r. IfSome r (λ f. (value : Option A) (next : ℕ) → StandsAt (SpellsOption A.spells) bytes.now at value next → (value ≡ f.0) × (next ≡ f.1))) }
{
    if has_byte(bytes, at, b'-') {
        if !ends_at(bytes, at + 1) {
            return Ok(None);
        }
        return Ok(Some((None, at + 1)));
    }
    let Some((value, next)) = A::read(alloc, bytes, at)? else {
        return Ok(None);
    };
    Ok(Some((Some(value), next)))
}

/// Reads the list that stands at the byte offset `at`: `[`, values with a space between, and `]`. Returns the values and the
/// offset behind the list. `None` if no list of values stands there. On `OutOfMemory`, an allocation failed.
pub fn read_list<A: Atom>(
    alloc: Global,
    bytes: &[u8],
    at: usize,
) -> Result<Option<(List<A>, usize)>, OutOfMemory>
    requires { at ≤ length bytes.now }
    ensures found { IfOk result (λ r. IfSome r (λ f. StandsAt (SpellsList A.spells) bytes.now at f.0 f.1)) }
    ensures none { IfOk result (λ r. IfNone r (NoneStandsAt (SpellsList A.spells) bytes.now at)) }
    ensures unique { IfOk result (λ r. IfSome r (λ f. (value : List A) (next : ℕ) → StandsAt (SpellsList A.spells) bytes.now at value next → (value ≡ f.0) × (next ≡ f.1))) }
{
    if !has_byte(bytes, at, b'[') {
        return Ok(None);
    }
    let mut values = List::new(alloc);
    let Some(next) = read_first(alloc, bytes, at + 1, &mut values)? else {
        return Ok(None);
    };
    if !ends_at(bytes, next) {
        return Ok(None);
    }
    Ok(Some((values, next)))
}

/// Reads values from the byte offset `at` on, a space between them, up to `]`. Appends them to `values`, and returns the offset
/// behind the bracket.
fn read_first<A: Atom>(
    alloc: Global,
    bytes: &[u8],
    at: usize,
    values: &mut List<A>,
) -> Result<Option<usize>, OutOfMemory>
    requires { at ≤ length bytes.now }
    ensures found { IfOk result (λ r. IfSome r (λ next. AddsRow A.spells false bytes.now at next values.old values.new)) }
    ensures none { IfOk result (λ r. IfNone r (NoRow A.spells false bytes.now at)) }
{
    if has_byte(bytes, at, b']') {
        return Ok(Some(at + 1));
    }
    let Some((value, after)) = A::read(alloc, bytes, at)? else {
        return Ok(None);
    };
    values.push(value)?;
    let Some(next) = read_more(alloc, bytes, after, values)? else {
        return Ok(None);
    };
    Ok(Some(next))
}

/// Reads values from the byte offset `at` on, each behind a space, up to `]`. Appends them to `values`, and returns the offset
/// behind the bracket.
fn read_more<A: Atom>(
    alloc: Global,
    bytes: &[u8],
    at: usize,
    values: &mut List<A>,
) -> Result<Option<usize>, OutOfMemory>
    requires within { at ≤ length bytes.now }
    requires ended { ends (drop at bytes.now) ≡ true }
    ensures found { IfOk result (λ r. IfSome r (λ next. AddsRow A.spells true bytes.now at next values.old values.new)) }
    ensures none { IfOk result (λ r. IfNone r (NoRow A.spells true bytes.now at)) }
{
    let mut place = at;
    'values: while has_byte(bytes, place, b' ') {
        let Some((value, after)) = A::read(alloc, bytes, place + 1)? else {
            return Ok(None);
        };
        values.push(value)?;
        place = after;
    }
    if has_byte(bytes, place, b']') {
        Ok(Some(place + 1))
    } else {
        Ok(None)
    }
}

//! The reader of numbered trees, in one pass over the bytes. It is exact: bytes are read as the one tree that they spell.

ghost use Rattle.std.specs.Prelude.{◌≡◌, ℕ, ◌+◌, ◌^◌, ◌<◌, ◌≤◌, ◌==◌, ◌∷◌, List as Items, length, drop, slice_index, true, false, IsTrue, IfOk, IfSome, IfNone};
ghost use Rattle.std.specs.Char.{is_ascii_digit};
ghost use Rattle.rl_text.specs.Notation.{height};
ghost use Rattle.rl_text.specs.Notation as notation;
ghost use Rattle.rl_text.specs.Places.{Begins, IsBracket};
ghost use Rattle.rl_syntax.specs.Syntax.{Syntax, syntax, plain, is_shaped, outset, IsPlaced};
ghost use Rattle.rl_syntax.specs.Reads.{IsLow, IsRead, NoneIsRead, AddsRead, NoneAdds, may_stand, may_hold};

use crate::numbered::{Numbered, Position};
use crate::word::Word;
use rl_base::error::OutOfMemory;
use rl_base::list::List;
use rl_text::read::{read_number_at, read_text_at};
use rl_text::scan::{has_byte, word_end};
use std::alloc::Global;

/// The largest number of parts that a node of the language has.
const MOST_PARTS: usize = 8;

/// Reads the shaped tree that the whole of `bytes` spells, if at most `depth` nodes and lists are open at once in it. Nodes,
/// scopes and references have the ids from 0 on. `None` if the bytes spell no such tree. On `OutOfMemory`, an allocation
/// failed. The recursion is at most `depth` deep.
pub fn read_numbered(
    alloc: Global,
    depth: usize,
    bytes: &[u8],
) -> Result<Option<Numbered>, OutOfMemory>
    requires { length bytes.now < 2 ^ 32 }
    ensures found { IfOk result (λ r. IfSome r (λ n. notation.Spells bytes.now (plain (syntax n)) × IsPlaced outset (syntax n) × (is_shaped (syntax n) ≡ true))) }
    ensures unique { IfOk result (λ r. IfSome r (λ n. (s : Syntax) → notation.Spells bytes.now (plain s) → IsPlaced outset s → s ≡ syntax n)) }
    ensures none { IfOk result (λ r. IfNone r ((s : Syntax) → is_shaped s ≡ true → height (plain s) ≤ depth → notation.Spells bytes.now (plain s) → ⊥)) }
{
    let mut at = Position {
        byte: 0,
        node: 0,
        scope: 0,
        reference: 0,
    };
    let Some(tree) = read_at(alloc, depth, bytes, &mut at)? else {
        return Ok(None);
    };
    if at.byte < bytes.len() {
        return Ok(None);
    }
    Ok(Some(tree))
}

/// Reads a shaped tree at the position `at`, with at most `depth` nodes and lists open at once, and moves `at` behind it. `None`
/// if no such tree begins there. On `None` and `OutOfMemory`, `at` may be anywhere.
#[cycle(reading)]
fn read_at(
    alloc: Global,
    depth: usize,
    bytes: &[u8],
    at: &mut Position,
) -> Result<Option<Numbered>, OutOfMemory>
    requires within { at.old.byte ≤ length bytes.now }
    requires short { length bytes.now < 2 ^ 32 }
    requires low { IsLow at.old }
    ensures found { IfOk result (λ r. IfSome r (λ n. IsRead depth at.old bytes.now (syntax n) at.new)) }
    ensures none { IfOk result (λ r. IfNone r (NoneIsRead depth (drop at.old.byte bytes.now))) }
{
    if at.byte >= bytes.len() {
        return Ok(None);
    }
    let byte = bytes[at.byte];
    if byte.is_ascii_digit() {
        return Ok(read_number(bytes, at));
    }
    match byte {
        b'(' => read_node(alloc, depth, bytes, at),
        b'[' => read_list(alloc, depth, bytes, at),
        b'"' => read_text(alloc, bytes, at),
        b'y' => {
            at.byte += 1;
            Ok(Some(Numbered::Flag(true)))
        }
        b'n' => {
            at.byte += 1;
            Ok(Some(Numbered::Flag(false)))
        }
        b'-' => {
            at.byte += 1;
            Ok(Some(Numbered::Absent))
        }
        _ => Ok(None),
    }
}

/// Reads a node whose `(` stands at the position `at`, as `read_at`.
#[cycle(reading)]
fn read_node(
    alloc: Global,
    depth: usize,
    bytes: &[u8],
    at: &mut Position,
) -> Result<Option<Numbered>, OutOfMemory>
    requires within { at.old.byte < length bytes.now }
    requires short { length bytes.now < 2 ^ 32 }
    requires low { IsLow at.old }
    requires opened { drop at.old.byte bytes.now ≡ 40 ∷ drop (at.old.byte + 1) bytes.now }
    ensures found { IfOk result (λ r. IfSome r (λ n. IsRead depth at.old bytes.now (syntax n) at.new)) }
    ensures none { IfOk result (λ r. IfNone r (NoneIsRead depth (drop at.old.byte bytes.now))) }
{
    if depth == 0 {
        return Ok(None);
    }
    let from = *at;
    let start = from.byte + 1;
    let end = word_end(bytes, start);
    if end == start {
        return Ok(None);
    }
    let Some(word) = Word::from_text(&bytes[start..end]) else {
        return Ok(None);
    };
    at.enter(word, end);
    let mut parts = List::with_capacity(alloc, word.usual_parts())?;
    let found = read_parts(alloc, depth - 1, bytes, at, b')', &mut parts)?;
    if found {
        Ok(Some(Numbered::Node(from.up_to(*at), word, parts)))
    } else {
        Ok(None)
    }
}

/// Reads a list whose `[` stands at the position `at`, as `read_at`. Its parts are nodes and texts.
#[cycle(reading)]
fn read_list(
    alloc: Global,
    depth: usize,
    bytes: &[u8],
    at: &mut Position,
) -> Result<Option<Numbered>, OutOfMemory>
    requires within { at.old.byte < length bytes.now }
    requires short { length bytes.now < 2 ^ 32 }
    requires low { IsLow at.old }
    requires opened { drop at.old.byte bytes.now ≡ 91 ∷ drop (at.old.byte + 1) bytes.now }
    ensures found { IfOk result (λ r. IfSome r (λ n. IsRead depth at.old bytes.now (syntax n) at.new)) }
    ensures none { IfOk result (λ r. IfNone r (NoneIsRead depth (drop at.old.byte bytes.now))) }
{
    if depth == 0 {
        return Ok(None);
    }
    at.byte += 1;
    if has_byte(bytes, at.byte, b']') {
        at.byte += 1;
        let parts = List::new(alloc);
        return Ok(Some(Numbered::List(parts)));
    }
    if !is_part(bytes, at.byte, b']') {
        return Ok(None);
    }
    let Some(first) = read_at(alloc, depth - 1, bytes, at)? else {
        return Ok(None);
    };
    let mut parts = List::with_capacity(alloc, usual_items(bytes, at.byte))?;
    parts.push(first)?;
    let found = read_parts(alloc, depth - 1, bytes, at, b']', &mut parts)?;
    if found {
        Ok(Some(Numbered::List(parts)))
    } else {
        Ok(None)
    }
}

/// Number of items for which the reader makes room in a list whose first item ends at the byte offset `end`. A list of one item
/// has room for no more: a tree has many of these.
fn usual_items(bytes: &[u8], end: usize) -> usize
    requires { end ≤ length bytes.now }
{
    if has_byte(bytes, end, b']') { 1 } else { 2 }
}

/// Reads parts from the position `at` on, each behind a space, up to the bracket `close`. Appends them to `parts`, and moves
/// `at` behind the bracket. Parts before `]` are nodes and texts; before `)` there are at most `MOST_PARTS`. False if no such
/// parts stand there. On false and `OutOfMemory`, `at` may be anywhere, and `parts` may hold some of them.
#[cycle(reading)]
fn read_parts(
    alloc: Global,
    depth: usize,
    bytes: &[u8],
    at: &mut Position,
    close: u8,
    parts: &mut List<Numbered>,
) -> Result<bool, OutOfMemory>
    requires within { at.old.byte ≤ length bytes.now }
    requires short { length bytes.now < 2 ^ 32 }
    requires low { IsLow at.old }
    requires bracket { IsBracket close }
    ensures found { IfOk result (λ r. r ≡ true → AddsRead close depth at.old bytes.now parts.old parts.new at.new) }
    ensures none { IfOk result (λ r. r ≡ false → NoneAdds close depth (drop at.old.byte bytes.now)) }
{
    let mut count = 0;
    'parts: while has_byte(bytes, at.byte, b' ') {
        count += 1;
        if !may_hold(close, count) {
            return Ok(false);
        }
        at.byte += 1;
        if !is_part(bytes, at.byte, close) {
            return Ok(false);
        }
        let Some(part) = read_at(alloc, depth, bytes, at)? else {
            return Ok(false);
        };
        parts.push(part)?;
    }
    if has_byte(bytes, at.byte, close) {
        at.byte += 1;
        Ok(true)
    } else {
        Ok(false)
    }
}

/// True if what `close` closes may have `count` parts: a node at most `MOST_PARTS`, a list any number.
fn may_hold(close: u8, count: usize) -> bool
    ensures { result ≡ may_hold (close == 93) count }
{
    close == b']' || count <= MOST_PARTS
}

/// True if a tree that begins at the byte offset `at` may be a part of what `close` closes: any tree of a node, and a node or
/// a text of a list. Its first byte tells.
fn is_part(bytes: &[u8], at: usize, close: u8) -> bool
    requires { at ≤ length bytes.now }
    ensures yes { IsTrue result → (s : Syntax) (depth : ℕ) (rest : Items ℕ) → Begins depth (plain s) (drop at bytes.now) rest → may_stand (close == 93) s ≡ true }
    ensures no { (s : Syntax) (depth : ℕ) (rest : Items ℕ) → Begins depth (plain s) (drop at bytes.now) rest → may_stand (close == 93) s ≡ true → IsTrue result }
{
    if close != b']' {
        return true;
    }
    if has_byte(bytes, at, b'(') {
        return true;
    }
    has_byte(bytes, at, b'"')
}

/// Reads a text whose opening quote stands at the position `at`, as `read_at`.
fn read_text(
    alloc: Global,
    bytes: &[u8],
    at: &mut Position,
) -> Result<Option<Numbered>, OutOfMemory>
    requires within { at.old.byte < length bytes.now }
    requires low { IsLow at.old }
    requires opened { drop at.old.byte bytes.now ≡ 34 ∷ drop (at.old.byte + 1) bytes.now }
    ensures found { (depth : ℕ) → IfOk result (λ r. IfSome r (λ n. IsRead depth at.old bytes.now (syntax n) at.new)) }
    ensures none { (depth : ℕ) → IfOk result (λ r. IfNone r (NoneIsRead depth (drop at.old.byte bytes.now))) }
{
    let Some((text, end)) = read_text_at(alloc, bytes, at.byte)? else {
        return Ok(None);
    };
    at.byte = end;
    Ok(Some(Numbered::Text(text)))
}

/// Reads a number whose first digit stands at the position `at`, as `read_at`.
fn read_number(bytes: &[u8], at: &mut Position) -> Option<Numbered>
    requires within { at.old.byte < length bytes.now }
    requires low { IsLow at.old }
    requires digit { is_ascii_digit (slice_index bytes.now at.old.byte) ≡ true }
    ensures found { (depth : ℕ) → IfSome result (λ n. IsRead depth at.old bytes.now (syntax n) at.new) }
    ensures none { (depth : ℕ) → IfNone result (NoneIsRead depth (drop at.old.byte bytes.now)) }
{
    let Some((number, end)) = read_number_at(bytes, at.byte) else {
        return None;
    };
    at.byte = end;
    Some(Numbered::Number(number))
}

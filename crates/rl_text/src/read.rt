//! The reader of trees. It is exact: bytes are read as the one tree that they spell.

ghost use Rattle.std.specs.Prelude.{◌≡◌, ℕ, ◌+◌, ◌<◌, ◌≤◌, ◌∷◌, length, drop, slice_index, true, IfOk, IfSome, IfNone, IsErrOf};
ghost use Rattle.std.specs.Char.{is_ascii_digit};
ghost use Rattle.std.specs.Str.{IsUtf8};
ghost use Rattle.rl_text.specs.Notation.{Tree, Said, Count, Spells, height};
ghost use Rattle.rl_text.specs.Raw.{tree};
ghost use Rattle.rl_text.specs.Places.{Begins, NoneBegins, NoneGoesOn, IsBracket, Adds};

use crate::number::parse_number;
use crate::quoted::read_quoted;
use crate::raw::Raw;
use crate::scan::{digits_end, has_byte, word_end};
use rl_base::error::OutOfMemory;
use rl_base::list::List;
use rl_base::text::Text;
use std::alloc::{AllocError, Global};
use thiserror::Error;

/// An error of the reader. It leaves nothing behind.
#[derive(Debug, Drop, Clone, Copy, PartialEq, Eq, Error)]
pub enum TextError {
    /// The bytes spell no tree, or none within the depth that was allowed.
    #[error("Malformed")]
    Malformed,
    /// An allocation failed.
    #[error("OutOfMemory")]
    OutOfMemory,
}

impl From<OutOfMemory> for TextError {
    ghost use Rattle.rl_text.specs.declared.read.TextError.TheVariants.{OutOfMemory};
    ghost use Rattle.std.specs.Prelude.{◌≡◌};

    ghost from_gives = { λ _ e. e ≡ OutOfMemory };

    fn from(_e: OutOfMemory) -> TextError {
        TextError::OutOfMemory
    }
}

impl From<AllocError> for TextError {
    ghost use Rattle.rl_text.specs.declared.read.TextError.TheVariants.{OutOfMemory};
    ghost use Rattle.std.specs.Prelude.{◌≡◌};

    ghost from_gives = { λ _ e. e ≡ OutOfMemory };

    fn from(_e: AllocError) -> TextError {
        TextError::OutOfMemory
    }
}

/// A tree, and the byte offset behind its text.
type Found = Option<(Raw, usize)>;

/// Reads the tree that the whole of `bytes` spells. On `Malformed`, they spell none. The recursion is as deep as nodes and
/// lists are open at once: `read_raw_within` bounds that for bytes from outside.
pub fn read_raw(alloc: Global, bytes: &[u8]) -> Result<Raw, TextError>
    ensures found { IfOk result (λ r. Spells bytes.now (tree r)) }
    ensures malformed { IsErrOf result TextError.Malformed → (t : Tree) → Spells bytes.now t → ⊥ }
    ensures only { IfOk result (λ r. (t : Tree) → Spells bytes.now t → t ≡ tree r) }
{
    read_raw_within(alloc, bytes.len(), bytes)
}

/// Reads the tree that the whole of `bytes` spells, if at most `depth` nodes and lists are open at once in it. On
/// `Malformed`, they spell none such. The recursion is at most `depth` deep.
pub fn read_raw_within(alloc: Global, depth: usize, bytes: &[u8]) -> Result<Raw, TextError>
    ensures found { IfOk result (λ r. Spells bytes.now (tree r)) }
    ensures low { IfOk result (λ r. height (tree r) ≤ depth) }
    ensures malformed { IsErrOf result TextError.Malformed → (t : Tree) → Spells bytes.now t → height t ≤ depth → ⊥ }
    ensures only { IfOk result (λ r. (t : Tree) → Spells bytes.now t → t ≡ tree r) }
{
    let Some((raw, next)) = read_part(alloc, depth, bytes, 0)? else {
        return Err(TextError::Malformed);
    };
    if next < bytes.len() {
        return Err(TextError::Malformed);
    }
    Ok(raw)
}

/// Reads a tree at the byte offset `at`, with at most `depth` nodes and lists open at once. `None` if none begins there.
#[cycle(reading)]
pub(crate) fn read_part(
    alloc: Global,
    depth: usize,
    bytes: &[u8],
    at: usize,
) -> Result<Found, OutOfMemory>
    requires { at ≤ length bytes.now }
    ensures found { IfOk result (λ r. IfSome r (λ f. (at < f.1) × (f.1 ≤ length bytes.now) × Begins depth (tree f.0) (drop at bytes.now) (drop f.1 bytes.now))) }
    ensures none { IfOk result (λ r. IfNone r (NoneBegins depth (drop at bytes.now))) }
{
    if at >= bytes.len() {
        return Ok(None);
    }
    let byte = bytes[at];
    if byte.is_ascii_digit() {
        return Ok(read_number(bytes, at));
    }
    match byte {
        b'(' => read_node(alloc, depth, bytes, at),
        b'[' => read_list(alloc, depth, bytes, at),
        b'"' => read_text(alloc, bytes, at),
        b'y' => Ok(Some((Raw::Flag(true), at + 1))),
        b'n' => Ok(Some((Raw::Flag(false), at + 1))),
        b'-' => Ok(Some((Raw::Absent, at + 1))),
        _ => Ok(None),
    }
}

/// Reads a node whose `(` stands at the byte offset `at`.
#[cycle(reading)]
fn read_node(alloc: Global, depth: usize, bytes: &[u8], at: usize) -> Result<Found, OutOfMemory>
    requires within { at < length bytes.now }
    requires opened { drop at bytes.now ≡ 40 ∷ drop (at + 1) bytes.now }
    ensures found { IfOk result (λ r. IfSome r (λ f. (at < f.1) × (f.1 ≤ length bytes.now) × Begins depth (tree f.0) (drop at bytes.now) (drop f.1 bytes.now))) }
    ensures none { IfOk result (λ r. IfNone r (NoneBegins depth (drop at bytes.now))) }
{
    if depth == 0 {
        return Ok(None);
    }
    let start = at + 1;
    let end = word_end(bytes, start);
    if end == start {
        return Ok(None);
    }
    let Some(word) = text_of(alloc, &bytes[start..end])? else {
        return Ok(None);
    };
    let mut parts = List::new(alloc);
    let Some(next) = read_parts(alloc, depth - 1, bytes, end, b')', &mut parts)? else {
        return Ok(None);
    };
    Ok(Some((Raw::Node(word, parts), next)))
}

/// Reads a list whose `[` stands at the byte offset `at`.
#[cycle(reading)]
fn read_list(alloc: Global, depth: usize, bytes: &[u8], at: usize) -> Result<Found, OutOfMemory>
    requires within { at < length bytes.now }
    requires opened { drop at bytes.now ≡ 91 ∷ drop (at + 1) bytes.now }
    ensures found { IfOk result (λ r. IfSome r (λ f. (at < f.1) × (f.1 ≤ length bytes.now) × Begins depth (tree f.0) (drop at bytes.now) (drop f.1 bytes.now))) }
    ensures none { IfOk result (λ r. IfNone r (NoneBegins depth (drop at bytes.now))) }
{
    if depth == 0 {
        return Ok(None);
    }
    let mut parts = List::new(alloc);
    if has_byte(bytes, at + 1, b']') {
        return Ok(Some((Raw::List(parts), at + 2)));
    }
    let Some((first, after)) = read_part(alloc, depth - 1, bytes, at + 1)? else {
        return Ok(None);
    };
    parts.push(first)?;
    let Some(next) = read_parts(alloc, depth - 1, bytes, after, b']', &mut parts)? else {
        return Ok(None);
    };
    Ok(Some((Raw::List(parts), next)))
}

/// Reads parts from the byte offset `at` on, each behind a space, up to the bracket `close`. Appends them to `parts`, and
/// returns the offset behind the bracket.
#[cycle(reading)]
fn read_parts(
    alloc: Global,
    depth: usize,
    bytes: &[u8],
    at: usize,
    close: u8,
    parts: &mut List<Raw>,
) -> Result<Option<usize>, OutOfMemory>
    requires within { at ≤ length bytes.now }
    requires bracket { IsBracket close }
    ensures found { IfOk result (λ r. IfSome r (λ next. Adds close depth bytes.now at next parts.old parts.new)) }
    ensures none { IfOk result (λ r. IfNone r (NoneGoesOn close depth (drop at bytes.now))) }
{
    let mut place = at;
    'parts: while has_byte(bytes, place, b' ') {
        let Some((part, after)) = read_part(alloc, depth, bytes, place + 1)? else {
            return Ok(None);
        };
        parts.push(part)?;
        place = after;
    }
    if has_byte(bytes, place, close) {
        Ok(Some(place + 1))
    } else {
        Ok(None)
    }
}

/// Reads a text whose opening quote stands at the byte offset `at`, as a tree.
#[tactic(auto, using(crate::proofs::Trees::tree_forms))]
fn read_text(alloc: Global, bytes: &[u8], at: usize) -> Result<Found, OutOfMemory>
    requires within { at < length bytes.now }
    requires opened { drop at bytes.now ≡ 34 ∷ drop (at + 1) bytes.now }
    ensures found { IfOk result (λ r. IfSome r (λ f. (at < f.1) × (f.1 ≤ length bytes.now) × Begins 0 (tree f.0) (drop at bytes.now) (drop f.1 bytes.now))) }
    ensures none { IfOk result (λ r. IfNone r ((depth : ℕ) → NoneBegins depth (drop at bytes.now))) }
{
    let Some((text, next)) = read_text_at(alloc, bytes, at)? else {
        return Ok(None);
    };
    Ok(Some((Raw::Text(text), next)))
}

/// Reads the text whose opening quote stands at the byte offset `at`. Returns the decoded text and the offset behind the
/// closing quote. `None` if no text of the notation closes, or its bytes are not UTF-8. On `OutOfMemory`, an allocation
/// failed.
pub fn read_text_at(
    alloc: Global,
    bytes: &[u8],
    at: usize,
) -> Result<Option<(Text, usize)>, OutOfMemory>
    requires within { at < length bytes.now }
    requires opened { drop at bytes.now ≡ 34 ∷ drop (at + 1) bytes.now }
    ensures found { IfOk result (λ r. IfSome r (λ f. (at < f.1) × (f.1 ≤ length bytes.now) × Begins 0 (Said f.0) (drop at bytes.now) (drop f.1 bytes.now))) }
    ensures none { IfOk result (λ r. IfNone r ((depth : ℕ) → NoneBegins depth (drop at bytes.now))) }
{
    let Some((text, next)) = read_quoted(alloc, bytes, at + 1)? else {
        return Ok(None);
    };
    match String::from_utf8(text) {
        Ok(inner) => Ok(Some((Text::new(inner), next))),
        Err(_) => Ok(None),
    }
}

/// Reads a number whose first digit stands at the byte offset `at`, as a tree.
#[tactic(auto, using(crate::proofs::Trees::tree_forms))]
fn read_number(bytes: &[u8], at: usize) -> Found
    requires within { at < length bytes.now }
    requires digit { is_ascii_digit (slice_index bytes.now at) ≡ true }
    ensures found { IfSome result (λ f. (at < f.1) × (f.1 ≤ length bytes.now) × Begins 0 (tree f.0) (drop at bytes.now) (drop f.1 bytes.now)) }
    ensures none { IfNone result ((depth : ℕ) → NoneBegins depth (drop at bytes.now)) }
{
    let Some((number, next)) = read_number_at(bytes, at) else {
        return None;
    };
    Some((Raw::Number(number), next))
}

/// Reads the number whose first digit stands at the byte offset `at`. Returns its value and the offset behind its last
/// digit. `None` if the digits are no number of the notation: one with a leading zero, or above `LARGEST`.
pub fn read_number_at(bytes: &[u8], at: usize) -> Option<(u64, usize)>
    requires within { at < length bytes.now }
    requires digit { is_ascii_digit (slice_index bytes.now at) ≡ true }
    ensures found { IfSome result (λ f. (at < f.1) × (f.1 ≤ length bytes.now) × Begins 0 (Count f.0) (drop at bytes.now) (drop f.1 bytes.now)) }
    ensures none { IfNone result ((depth : ℕ) → NoneBegins depth (drop at bytes.now)) }
{
    let end = digits_end(bytes, at);
    let number = parse_number(&bytes[at..end])?;
    Some((number, end))
}

/// An owned copy of `bytes` as a text. `None` if they are not UTF-8.
fn text_of(alloc: Global, bytes: &[u8]) -> Result<Option<Text>, OutOfMemory>
    ensures some { IfOk result (λ r. IfSome r (λ text. text ≡ bytes.now)) }
    ensures none { IfOk result (λ r. IfNone r (IsUtf8 bytes.now → ⊥)) }
{
    match std::str::from_utf8(bytes) {
        Ok(text) => Ok(Some(Text::from_str(alloc, text)?)),
        Err(_) => Ok(None),
    }
}

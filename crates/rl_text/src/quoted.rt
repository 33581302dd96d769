//! Texts in quotes, with their escapes: a backslash and two hexadecimal digits in lower case.

ghost use Rattle.std.specs.Prelude.{◌≡◌, ℕ, ◌+◌, ◌-◌, ◌<◌, ◌≤◌, true, List, ◌∷◌, ◌++◌, take, drop, length, IfSome, IfNone, IfOk, OnOk};
ghost use Rattle.rl_text.specs.Quoted.{hexadecimal, is_escaped, escape, quoted_rest, quoted};
ghost use Rattle.rl_text.specs.ByteClasses.{is_plain};
ghost use Rattle.rl_text.specs.Places.{StopsAt, IsRun};

use crate::scan::{ByteClass, has_byte, long_run_end};
use rl_base::error::OutOfMemory;
use std::alloc::Global;

/// True of a byte that is escaped in a quoted text: one below 32, a quote or a backslash.
fn needs_escape(byte: u8) -> bool
    ensures { result ≡ is_escaped byte }
{
    byte < 32 || byte == b'"' || byte == b'\\'
}

/// The ASCII byte of a digit below 16, in lower case.
fn hexadecimal_digit(digit: u8) -> u8
    requires { digit < 16 }
    ensures { result ≡ hexadecimal digit }
{
    if digit < 10 {
        b'0' + digit
    } else {
        b'a' + (digit - 10)
    }
}

/// The value of an ASCII hexadecimal digit in lower case. `None` at any other byte.
fn hexadecimal_value(byte: u8) -> Option<u8>
    ensures some { IfSome result (λ digit. (digit < 16) × (hexadecimal digit ≡ byte)) }
    ensures none { IfNone result ((digit : ℕ) → digit < 16 → hexadecimal digit ≡ byte → ⊥) }
{
    match byte {
        b'0'..=b'9' => Some(byte - b'0'),
        b'a'..=b'f' => Some(byte - b'a' + 10),
        _ => None,
    }
}

/// The bytes that need no escape.
struct Plain;

impl ByteClass for Plain {
    ghost test = { is_plain };

    #[inline(always)]
    fn contains(byte: u8) -> bool {
        !needs_escape(byte)
    }
}

/// The byte offset at which the bytes from `at` on that need no escape end.
pub fn plain_end(bytes: &[u8], at: usize) -> usize
    requires { at ≤ length bytes.now }
    ensures { IsRun is_plain bytes.now at result }
{
    long_run_end::<Plain>(bytes, at)
}

/// Appends the bytes from `at` on that need no escape to `out`, and returns the byte offset at which they end.
fn push_run(bytes: &[u8], at: usize, out: &mut Vec<u8>) -> Result<usize, OutOfMemory>
    requires { at ≤ length bytes.now }
    ensures run { IfOk result (λ end. IsRun is_plain bytes.now at end) }
    ensures appended { IfOk result (λ end. out.new.items ≡ out.old.items ++ take (end - at) (drop at bytes.now)) }
{
    let end = plain_end(bytes, at);
    out.extend_from_slice(&bytes[at..end])?;
    Ok(end)
}

/// Decodes the escape that stands at the start of `bytes`, of three bytes. `None` if none of the notation stands there.
fn first_escape(bytes: &[u8]) -> Option<u8>
    requires { StopsAt is_plain bytes.now }
    ensures some { IfSome result (λ byte. (3 ≤ length bytes.now) × (bytes.now ≡ escape byte ++ drop 3 bytes.now)) }
    ensures none { IfNone result ((byte : ℕ) (rest : List ℕ) → bytes.now ≡ escape byte ++ rest → ⊥) }
{
    if bytes.len() < 3 || bytes[0] != b'\\' {
        return None;
    }
    let high = hexadecimal_value(bytes[1])?;
    let low = hexadecimal_value(bytes[2])?;
    let byte = 16 * high + low;
    if needs_escape(byte) { Some(byte) } else { None }
}

/// Reads the text behind an opening quote, from the byte offset `at` on. Returns the decoded bytes and the offset behind
/// the closing quote. `None` if no text of the notation closes. On `OutOfMemory`, an allocation failed.
pub fn read_quoted(
    alloc: Global,
    bytes: &[u8],
    at: usize,
) -> Result<Option<(Vec<u8>, usize)>, OutOfMemory>
    requires { at ≤ length bytes.now }
    ensures found { IfOk result (λ r. IfSome r (λ f. (at < f.1) × (f.1 ≤ length bytes.now) × (drop at bytes.now ≡ quoted_rest f.0.items ++ drop f.1 bytes.now))) }
    ensures none { IfOk result (λ r. IfNone r ((text rest : List ℕ) → drop at bytes.now ≡ quoted_rest text ++ rest → ⊥)) }
{
    let mut end = plain_end(bytes, at);
    // Room for the first run and one escape behind it, so that most texts take one allocation.
    let mut text = Vec::with_capacity(alloc, end - at + 1)?;
    text.extend_from_slice(&bytes[at..end])?;
    'reading: while !has_byte(bytes, end, b'"') {
        let Some(byte) = first_escape(&bytes[end..]) else {
            return Ok(None);
        };
        text.push(byte)?;
        end = push_run(bytes, end + 3, &mut text)?;
    }
    Ok(Some((text, end + 1)))
}

/// Appends the escape of `byte` to `out`.
fn push_escape(byte: u8, out: &mut Vec<u8>) -> Result<(), OutOfMemory>
    requires { is_escaped byte ≡ true }
    ensures { OnOk result (out.new.items ≡ out.old.items ++ escape byte) }
{
    let high = hexadecimal_digit(byte / 16);
    let low = hexadecimal_digit(byte % 16);
    out.extend_from_slice(&[b'\\', high, low])?;
    Ok(())
}

/// Appends the bytes of `text` behind its opening quote, the closing quote included. On `OutOfMemory`, an allocation failed, and
/// `out` may hold a part of them.
fn write_rest(text: &[u8], out: &mut Vec<u8>) -> Result<(), OutOfMemory>
    ensures { OnOk result (out.new.items ≡ out.old.items ++ quoted_rest text.now) }
{
    let mut end = push_run(text, 0, out)?;
    'writing: while end < text.len() {
        push_escape(text[end], out)?;
        end = push_run(text, end + 1, out)?;
    }
    out.push(b'"')?;
    Ok(())
}

/// Appends `text` in quotes to `out`. On `OutOfMemory`, an allocation failed, and `out` may hold a part of it.
pub fn write_quoted(text: &[u8], out: &mut Vec<u8>) -> Result<(), OutOfMemory>
    ensures { OnOk result (out.new.items ≡ out.old.items ++ quoted text.now) }
{
    out.push(b'"')?;
    write_rest(text, out)
}

/// Appends a dot and `text`, in quotes, to `out`. On `OutOfMemory`, an allocation failed, and `out` may hold a part of it.
pub fn write_dotted(text: &[u8], out: &mut Vec<u8>) -> Result<(), OutOfMemory>
    ensures { OnOk result (out.new.items ≡ out.old.items ++ quoted (46 ∷ text.now)) }
{
    out.extend_from_slice(b"\".")?;
    write_rest(text, out)
}

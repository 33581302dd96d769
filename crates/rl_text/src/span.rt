//! The writer of spans: from their last byte to their first, into a buffer of fixed length.

ghost use Rattle.std.specs.Prelude.{◌≡◌, ◌+◌, ◌<◌, ◌≤◌, ◌∷◌, length, drop};
ghost use Rattle.rl_text.specs.Notation.{IsWritable, spelling};
ghost use Rattle.rl_text.specs.Spaced as spec;

use itoa::write_digits;
use rl_base::span::Span;

/// Number of bytes of the longest spelling of a span: `(at 4294967295 4294967295)`.
pub(crate) const LONGEST_SPAN: usize = 26;

/// Puts `byte` in front of the text that begins at `start`, and returns the index at which the text begins then.
fn put_before(byte: u8, buffer: &mut [u8], start: usize) -> usize
    requires room { 0 < start }
    requires within { start ≤ length buffer.old }
    ensures start { result + 1 ≡ start }
    ensures written { drop result buffer.new ≡ byte ∷ drop start buffer.old }
{
    buffer[start - 1] = byte;
    start - 1
}

/// Writes the spelling of a span so that it ends where `buffer` ends, and returns the index at which it begins.
#[tactic(auto, using(crate::proofs::Digits::decimal_short))]
pub(crate) fn write_span(span: Span, buffer: &mut [u8; LONGEST_SPAN]) -> usize
    ensures within { result ≤ LONGEST_SPAN }
    ensures written { drop result buffer.new ≡ spelling (spec.span span) }
    ensures writable { IsWritable (spec.span span) }
{
    let mut start = put_before(b')', buffer, LONGEST_SPAN);
    start = write_digits(u64::from(span.end), buffer, start);
    start = put_before(b' ', buffer, start);
    start = write_digits(u64::from(span.start), buffer, start);
    start = put_before(b' ', buffer, start);
    start = put_before(b't', buffer, start);
    start = put_before(b'a', buffer, start);
    put_before(b'(', buffer, start)
}

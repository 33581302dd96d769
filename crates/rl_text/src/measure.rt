//! The measure of bytes, in one pass and with no allocation.

ghost use Rattle.std.specs.Prelude.{◌≡◌, ◌≤◌, true, false, length, drop};
ghost use Rattle.rl_text.specs.Measure.{outside, nodes_in, deepest_in};
ghost use Rattle.rl_text.specs.ByteClasses.{is_inside};

use crate::measurement::Measure;
use crate::scan::{ByteClass, long_run_end};

/// Measures bytes of any form, also those that spell no tree. Each `"` opens or closes a text, and parentheses count
/// outside texts alone: `nodes` is the number of `(`, and `deepest` the greatest number of them that are open at once.
/// A stray `)` closes nothing.
#[tactic(auto, using(crate::proofs::Measuring::measured_other))]
pub fn measure(bytes: &[u8]) -> Measure
    ensures bytes { result.bytes ≡ length bytes.now }
    ensures nodes { result.nodes ≡ nodes_in bytes.now }
    ensures deepest { result.deepest ≡ deepest_in bytes.now }
{
    let mut at = 0usize;
    let mut depth = 0usize;
    let mut nodes = 0;
    let mut deepest = 0;
    'measuring: while at < bytes.len() {
        let byte = bytes[at];
        at += 1;
        if byte == b'"' {
            at = text_end(bytes, at);
        } else if byte == b'(' {
            nodes += 1;
            depth += 1;
            deepest = deepest.max(depth);
        } else if byte == b')' {
            depth = depth.saturating_sub(1);
        }
    }
    Measure {
        bytes: bytes.len(),
        nodes,
        deepest,
    }
}

/// The bytes that do not close a text.
struct Inside;

impl ByteClass for Inside {
    ghost test = { is_inside };

    #[inline(always)]
    fn contains(byte: u8) -> bool {
        byte != b'"'
    }
}

/// The byte offset behind the quote that closes the text which holds the bytes from `at` on. The number of bytes if no
/// quote follows.
#[tactic(auto, using(crate::proofs::Measuring::text_closed, crate::proofs::Measuring::text_open))]
fn text_end(bytes: &[u8], at: usize) -> usize
    requires { at ≤ length bytes.now }
    ensures forward { at ≤ result }
    ensures within { result ≤ length bytes.now }
    ensures behind { outside true (drop at bytes.now) ≡ outside false (drop result bytes.now) }
{
    let end = long_run_end::<Inside>(bytes, at);
    if end < bytes.len() { end + 1 } else { end }
}

//! Runs of bytes of one class.

ghost use Rattle.std.specs.Prelude.{◌≡◌, ℕ, ◌+◌, ◌<◌, ◌≤◌, Bool, ◌∷◌, List, length, drop, IsTrue};
ghost use Rattle.std.specs.List.{list_all};
ghost use Rattle.std.specs.Char.{is_ascii_digit};
ghost use Rattle.rl_text.specs.Places.{is_letter, IsRun};

/// A class of bytes.
pub(crate) trait ByteClass {
    ghost test: { ℕ → Bool };

    /// True if `byte` is of the class.
    fn contains(byte: u8) -> bool
        ensures { result ≡ test byte };
}

/// The letters a to z.
struct Letter;

impl ByteClass for Letter {
    ghost test = { is_letter };

    #[inline(always)]
    fn contains(byte: u8) -> bool {
        byte.is_ascii_lowercase()
    }
}

/// The ASCII digits.
struct Digit;

impl ByteClass for Digit {
    ghost test = { is_ascii_digit };

    #[inline(always)]
    fn contains(byte: u8) -> bool {
        byte.is_ascii_digit()
    }
}

/// The byte offset at which the letters a to z from `at` on end.
pub fn word_end(bytes: &[u8], at: usize) -> usize
    requires { at ≤ length bytes.now }
    ensures { IsRun is_letter bytes.now at result }
{
    run_end::<Letter>(bytes, at)
}

/// The byte offset at which the ASCII digits from `at` on end.
pub fn digits_end(bytes: &[u8], at: usize) -> usize
    requires { at ≤ length bytes.now }
    ensures { IsRun is_ascii_digit bytes.now at result }
{
    run_end::<Digit>(bytes, at)
}

/// The byte offset at which the bytes of the class `C` from `at` on end.
#[inline(always)]
fn run_end<C: ByteClass>(bytes: &[u8], at: usize) -> usize
    requires { at ≤ length bytes.now }
    ensures { IsRun C.test bytes.now at result }
{
    let mut end = at;
    'running: while end < bytes.len() && C::contains(bytes[end]) {
        end += 1;
    }
    end
}

/// Number of bytes that `long_run_end` tests at once.
const BLOCK: usize = 16;

/// The byte offset at which the bytes of the class `C` from `at` on end. Fast where they are many.
#[inline(always)]
#[tactic(auto, using(crate::proofs::Runs::passed_run))]
pub(crate) fn long_run_end<C: ByteClass>(bytes: &[u8], at: usize) -> usize
    requires { at ≤ length bytes.now }
    ensures { IsRun C.test bytes.now at result }
{
    let mut end = at;
    'skipping: while bytes.len() - end >= BLOCK && all_in::<C>(&bytes[end..end + BLOCK]) {
        end += BLOCK;
    }
    run_end::<C>(bytes, end)
}

/// True if each byte of `block` is of the class `C`. Tests all of them, with no branch between.
#[inline(always)]
fn all_in<C: ByteClass>(block: &[u8]) -> bool
    ensures { result ≡ list_all C.test block.now }
{
    let mut all = true;
    'testing: for byte in block {
        all &= C::contains(*byte);
    }
    all
}

/// True if `byte` stands at the byte offset `at`.
pub fn has_byte(bytes: &[u8], at: usize, byte: u8) -> bool
    requires { at ≤ length bytes.now }
    ensures yes { IsTrue result → (at < length bytes.now) × (drop at bytes.now ≡ byte ∷ drop (at + 1) bytes.now) }
    ensures no { (rest : List ℕ) → drop at bytes.now ≡ byte ∷ rest → IsTrue result }
{
    at < bytes.len() && bytes[at] == byte
}

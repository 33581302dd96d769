//! Numbers of the notation: decimal digits, with no leading zero, up to 2^53.

ghost use Rattle.std.specs.Prelude.{◌≡◌, ℕ, IfSome, IfNone, Some, None, if◌then◌else◌};
ghost use Rattle.rl_text.specs.WrittenNumbers.{IsNumeral};
ghost use Rattle.rl_text.specs.Numeral.{is_numeral, number_of};

/// The largest number of the notation, 2^53. Each integer up to it is a value of the Number type (ECMA-262, 6.1.6.1).
pub const LARGEST: u64 = 9007199254740992;

/// The value of a decimal numeral. `None` if `text` is empty, holds a byte that is no ASCII digit, has a leading zero
/// before another digit, or stands for a number above `LARGEST`.
pub fn parse_number(text: &[u8]) -> Option<u64>
    ensures { result ≡ (if is_numeral text.now then Some (number_of text.now) else None) }
{
    read_digits(text)
}

/// The value of a decimal numeral, by one pass over its digits.
fn read_digits(text: &[u8]) -> Option<u64>
    ensures some { IfSome result (λ n. IsNumeral text.now n) }
    ensures none { IfNone result ((n : ℕ) → IsNumeral text.now n → ⊥) }
{
    if text.is_empty() {
        return None;
    }
    if text.len() > 1 && text[0] == b'0' {
        return None;
    }
    let mut value = 0u64;
    'read: for digit in text {
        if !digit.is_ascii_digit() {
            return None;
        }
        value = 10 * value + u64::from(*digit - b'0');
        if value > LARGEST {
            return None;
        }
    }
    Some(value)
}

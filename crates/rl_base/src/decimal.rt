//! Numbers as decimal digits.

ghost use Rattle.std.specs.Prelude.{◌≡◌, ◌++◌, OnOk, OnErr};
ghost use Rattle.std.specs.Fmt.{decimal};

use crate::error::OutOfMemory;
use itoa::Buffer;

/// Appends the decimal digits of a number, without leading zeros. Allocates for `out` alone. On `OutOfMemory` an allocation
/// failed, and `out` is unchanged.
#[tactic(auto, using(std::proofs::lemmas::Fmt::decimal_digit))]
pub fn write_decimal(number: u64, out: &mut Vec<u8>) -> Result<(), OutOfMemory>
    ensures ok { OnOk result (out.new.items ≡ out.old.items ++ decimal number) }
    ensures err { OnErr result (out.new.items ≡ out.old.items) }
{
    if number < 10 {
        out.push(b'0' + number as u8)?;
        return Ok(());
    }
    let mut digits = Buffer::new();
    out.extend_from_slice(digits.format(number).as_bytes())?;
    Ok(())
}

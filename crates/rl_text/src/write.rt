//! The writer of trees.

ghost use Rattle.std.specs.Prelude.{◌≡◌, [], ◌∷◌, ◌++◌, map, IfOk, OnOk};
ghost use Rattle.rl_text.specs.Notation.{spelling};
ghost use Rattle.rl_text.specs.Number.{numeral};
ghost use Rattle.rl_text.specs.Raw.{tree, parts_of};
ghost use Rattle.rl_text.specs.Places.{spelled_parts};

use crate::quoted::write_quoted;
use crate::raw::Raw;
use itoa::Buffer;
use rl_base::error::OutOfMemory;
use std::alloc::Global;

/// The spelling of a tree. A tree that the notation does not have gets bytes too, which `read_raw` refuses or reads as
/// another tree. On `OutOfMemory`, an allocation failed.
pub fn write_raw(alloc: Global, raw: &Raw) -> Result<Vec<u8>, OutOfMemory>
    ensures { IfOk result (λ bytes. bytes.items ≡ spelling (tree raw.now)) }
{
    let mut out = Vec::new(alloc);
    write_part(raw, &mut out)?;
    Ok(out)
}

/// Appends the spelling of a tree to `out`. On `OutOfMemory`, an allocation failed, and `out` may hold a part of it.
#[cycle(writing)]
#[tactic(auto, using(crate::proofs::Trees::tree_forms))]
pub(crate) fn write_part(raw: &Raw, out: &mut Vec<u8>) -> Result<(), OutOfMemory>
    ensures { OnOk result (out.new.items ≡ out.old.items ++ spelling (tree raw.now)) }
{
    match raw {
        Raw::Node(word, parts) => {
            out.push(b'(')?;
            out.extend_from_slice(word.as_bytes())?;
            write_parts(parts.as_slice(), true, b')', out)
        }
        Raw::List(parts) => {
            out.push(b'[')?;
            write_parts(parts.as_slice(), false, b']', out)
        }
        Raw::Text(text) => write_quoted(text.as_bytes(), out),
        Raw::Number(number) => write_number(*number, out),
        Raw::Flag(flag) => write_byte(if *flag { b'y' } else { b'n' }, out),
        Raw::Absent => write_byte(b'-', out),
    }
}

/// Appends parts with a space between them, and a space before the first if `apart`, and then the bracket `close`.
#[cycle(writing)]
fn write_parts(parts: &[Raw], apart: bool, close: u8, out: &mut Vec<u8>) -> Result<(), OutOfMemory>
    ensures { OnOk result (out.new.items ≡ out.old.items ++ spelled_parts apart close (parts_of (map tree parts.now))) }
{
    let mut spaced = apart;
    'parts: for part in parts {
        if spaced {
            out.push(b' ')?;
        }
        spaced = true;
        write_part(part, out)?;
    }
    write_byte(close, out)
}

/// Appends the decimal digits of `number` to `out`. On `OutOfMemory`, an allocation failed, and `out` may hold a part of it.
#[tactic(auto, using(crate::proofs::Digits::numerals))]
pub fn write_number(number: u64, out: &mut Vec<u8>) -> Result<(), OutOfMemory>
    ensures { OnOk result (out.new.items ≡ out.old.items ++ numeral number) }
{
    if number < 10 {
        out.push(b'0' + number as u8)?;
        return Ok(());
    }
    let mut digits = Buffer::new();
    out.extend_from_slice(digits.format(number).as_bytes())?;
    Ok(())
}

/// Appends one byte.
pub fn write_byte(byte: u8, out: &mut Vec<u8>) -> Result<(), OutOfMemory>
    ensures { OnOk result (out.new.items ≡ out.old.items ++ byte ∷ []) }
{
    out.push(byte)?;
    Ok(())
}

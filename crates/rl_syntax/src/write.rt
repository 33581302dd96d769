//! The writer of numbered trees.

ghost use Rattle.std.specs.Prelude.{◌≡◌, ◌++◌, map, OnOk};
ghost use Rattle.rl_text.specs.Notation.{spelling};
ghost use Rattle.rl_text.specs.Places.{spelled_parts};
ghost use Rattle.rl_syntax.specs.Syntax.{pieces_of, plain, plain_parts, syntax};

use crate::numbered::Numbered;
use rl_base::error::OutOfMemory;
use rl_text::quoted::write_quoted;
use rl_text::write::{write_byte, write_number};

/// Appends the spelling of a tree. On `OutOfMemory`, an allocation failed, and `out` may hold a part of it.
#[cycle(writing)]
#[tactic(auto, using(crate::proofs::Written::by_form, crate::proofs::Layers::by_layer))]
pub fn write_numbered(tree: &Numbered, out: &mut Vec<u8>) -> Result<(), OutOfMemory>
    ensures { OnOk result (out.new.items ≡ out.old.items ++ spelling (plain (syntax tree.now))) }
{
    match tree {
        Numbered::Node(_, word, parts) => {
            out.push(b'(')?;
            out.extend_from_slice(word.text().as_bytes())?;
            write_pieces(parts.as_slice(), true, b')', out)
        }
        Numbered::List(parts) => {
            out.push(b'[')?;
            write_pieces(parts.as_slice(), false, b']', out)
        }
        Numbered::Text(text) => write_quoted(text.as_bytes(), out),
        Numbered::Number(number) => write_number(*number, out),
        Numbered::Flag(flag) => write_byte(if *flag { b'y' } else { b'n' }, out),
        Numbered::Absent => write_byte(b'-', out),
    }
}

/// Appends parts with a space between them, and a space before the first if `apart`, and then the bracket `close`.
#[cycle(writing)]
fn write_pieces(
    parts: &[Numbered],
    apart: bool,
    close: u8,
    out: &mut Vec<u8>,
) -> Result<(), OutOfMemory>
    ensures { OnOk result (out.new.items ≡ out.old.items ++ spelled_parts apart close (plain_parts (pieces_of (map syntax parts.now)))) }
{
    let mut spaced = apart;
    'parts: for part in parts {
        if spaced {
            out.push(b' ')?;
        }
        spaced = true;
        write_numbered(part, out)?;
    }
    write_byte(close, out)
}

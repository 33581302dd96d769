//! Values that the notation spells, appended to bytes. Their numbers may be of any size, in contrast to those of `Written`.

ghost use Rattle.std.specs.Prelude.{◌≡◌, ◌∷◌, ◌++◌, false, map, OnOk};
ghost use Rattle.rl_text.specs.Notation.{Tree, Node, Listed, Said, Count, Flag, Parts, End, Then, spelling};
ghost use Rattle.rl_text.specs.Raw.{parts_of};
ghost use Rattle.rl_text.specs.Spaced.{spaced, separated};

use rl_base::error::OutOfMemory;
use rl_base::list::List;
use rl_base::text::Text;
use rl_text::quoted::write_quoted;
use rl_text::write::{write_byte, write_number};

/// A value that the notation spells as one tree.
pub trait Spelled {
    /// The tree of a value.
    ghost shown: { Self → Tree };

    /// Appends the spelling of the value's tree. On `OutOfMemory` an allocation failed, and `out` may hold a part of it.
    fn spell(&self, out: &mut Vec<u8>) -> Result<(), OutOfMemory>
        ensures { OnOk result (out.new.items ≡ out.old.items ++ spelling (shown self.now)) };
}

/// Values that the notation spells as trees in a row.
pub trait SpelledRow {
    /// The trees of the values, in order.
    ghost parts: { Self → Parts };

    /// Appends each tree behind a space. On `OutOfMemory` an allocation failed, and `out` may hold a part of them.
    fn spell_row(&self, out: &mut Vec<u8>) -> Result<(), OutOfMemory>
        ensures { OnOk result (out.new.items ≡ out.old.items ++ spaced (parts self.now)) };
}

/// Appends a node: its word, and its parts. On `OutOfMemory` an allocation failed, and `out` may hold a part of it.
#[tactic(auto, using(rl_text::proofs::Tails::node_written))]
pub fn spell_node<P: SpelledRow>(
    word: &str,
    parts: &P,
    out: &mut Vec<u8>,
) -> Result<(), OutOfMemory>
    ensures { OnOk result (out.new.items ≡ out.old.items ++ spelling (Node word.now (P.parts parts.now))) }
{
    out.push(b'(')?;
    out.extend_from_slice(word.as_bytes())?;
    parts.spell_row(out)?;
    out.push(b')')?;
    Ok(())
}

/// Appends a part behind a space. On `OutOfMemory` an allocation failed, and `out` may hold a part of it.
fn spell_part<T: Spelled>(item: &T, out: &mut Vec<u8>) -> Result<(), OutOfMemory>
    ensures { OnOk result (out.new.items ≡ out.old.items ++ 32 ∷ spelling (T.shown item.now)) }
{
    out.push(b' ')?;
    item.spell(out)
}

impl SpelledRow for () {
    ghost parts = { λ _. End };

    fn spell_row(&self, _out: &mut Vec<u8>) -> Result<(), OutOfMemory> {
        Ok(())
    }
}

impl<A: Spelled> SpelledRow for (A,) {
    ghost parts = { λ p. Then (A.shown p.0) End };

    fn spell_row(&self, out: &mut Vec<u8>) -> Result<(), OutOfMemory> {
        spell_part(&self.0, out)
    }
}

impl<A: Spelled, B: Spelled> SpelledRow for (A, B) {
    ghost parts = { λ p. Then (A.shown p.0) (Then (B.shown p.1) End) };

    fn spell_row(&self, out: &mut Vec<u8>) -> Result<(), OutOfMemory> {
        spell_part(&self.0, out)?;
        spell_part(&self.1, out)
    }
}

impl<A: Spelled, B: Spelled, C: Spelled> SpelledRow for (A, B, C) {
    ghost parts = { λ p. Then (A.shown p.0) (Then (B.shown p.1) (Then (C.shown p.2) End)) };

    fn spell_row(&self, out: &mut Vec<u8>) -> Result<(), OutOfMemory> {
        spell_part(&self.0, out)?;
        spell_part(&self.1, out)?;
        spell_part(&self.2, out)
    }
}

impl<T: Spelled> Spelled for &T {
    ghost shown = { λ item. T.shown item.now };

    fn spell(&self, out: &mut Vec<u8>) -> Result<(), OutOfMemory> {
        (**self).spell(out)
    }
}

impl Spelled for u64 {
    ghost shown = { λ number. Count number };

    fn spell(&self, out: &mut Vec<u8>) -> Result<(), OutOfMemory> {
        write_number(*self, out)
    }
}

impl Spelled for bool {
    ghost shown = { λ flag. Flag flag };

    fn spell(&self, out: &mut Vec<u8>) -> Result<(), OutOfMemory> {
        write_byte(if *self { b'y' } else { b'n' }, out)
    }
}

impl Spelled for Text {
    ghost shown = { λ text. Said text };

    fn spell(&self, out: &mut Vec<u8>) -> Result<(), OutOfMemory> {
        write_quoted(self.as_bytes(), out)
    }
}

/// A text of the program's own, in quotes.
#[derive(Drop)]
pub struct Literal<'a>(pub &'a str);

impl<'a> Spelled for Literal<'a> {
    ghost shown = { λ literal. Said literal.0.now };

    fn spell(&self, out: &mut Vec<u8>) -> Result<(), OutOfMemory> {
        write_quoted(self.0.as_bytes(), out)
    }
}

/// Appends items with a space between.
fn spell_items<T: Spelled>(items: &[T], out: &mut Vec<u8>) -> Result<(), OutOfMemory>
    ensures { OnOk result (out.new.items ≡ out.old.items ++ separated false (parts_of (map T.shown items.now))) }
{
    let mut apart = false;
    'items: for item in items {
        if apart {
            out.push(b' ')?;
        }
        apart = true;
        item.spell(out)?;
    }
    Ok(())
}

impl<T: Spelled> Spelled for List<T> {
    ghost shown = { λ items. Listed (parts_of (map T.shown items)) };

    #[tactic(auto, using(rl_text::proofs::Tails::items_written))]
    fn spell(&self, out: &mut Vec<u8>) -> Result<(), OutOfMemory> {
        out.push(b'[')?;
        spell_items(self.as_slice(), out)?;
        out.push(b']')?;
        Ok(())
    }
}

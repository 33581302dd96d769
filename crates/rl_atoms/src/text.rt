ghost use Rattle.rl_text.specs.Notation.{Said};
ghost use Rattle.rl_text.specs.Atoms.{SpelledAs};
ghost use Rattle.rl_text.proofs.Atoms.{one_of_tree, apart_of_tree, closing_of_tree, absent_of_tree, back_of_tree, said_one, said_present};

use crate::atom::{Atom, ends_at};
use rl_base::error::OutOfMemory;
use rl_base::text::Text;
use rl_text::read::read_text_at;
use rl_text::scan::has_byte;
use rl_text::written::Written;
use std::alloc::Global;

impl Atom for Text {
    ghost spells = { SpelledAs Said };

    ghost one_spelling = { one_of_tree Said };

    ghost apart = { apart_of_tree Said said_one };

    ghost not_closing = { closing_of_tree Said };

    ghost not_absent = { absent_of_tree Said said_present };

    ghost reads_back = { back_of_tree Said said_one };

    fn read(alloc: Global, bytes: &[u8], at: usize) -> Result<Option<(Text, usize)>, OutOfMemory> {
        if !has_byte(bytes, at, b'"') {
            return Ok(None);
        }
        let Some((text, next)) = read_text_at(alloc, bytes, at)? else {
            return Ok(None);
        };
        if !ends_at(bytes, next) {
            return Ok(None);
        }
        Ok(Some((text, next)))
    }

    fn write(&self, out: &mut Vec<u8>) -> Result<(), OutOfMemory> {
        Written::write(self, out)
    }
}

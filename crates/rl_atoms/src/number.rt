ghost use Rattle.rl_text.specs.Notation.{Count};
ghost use Rattle.rl_text.specs.Atoms.{SpelledAs};
ghost use Rattle.rl_text.proofs.Atoms.{one_of_tree, apart_of_tree, closing_of_tree, absent_of_tree, back_of_tree, count_one, count_present};

use crate::atom::{Atom, ends_at};
use rl_base::error::OutOfMemory;
use rl_text::read::read_number_at;
use rl_text::write::write_number;
use std::alloc::Global;

impl Atom for u64 {
    ghost spells = { SpelledAs Count };

    ghost one_spelling = { one_of_tree Count };

    ghost apart = { apart_of_tree Count count_one };

    ghost not_closing = { closing_of_tree Count };

    ghost not_absent = { absent_of_tree Count count_present };

    ghost reads_back = { back_of_tree Count count_one };

    fn read(_alloc: Global, bytes: &[u8], at: usize) -> Result<Option<(u64, usize)>, OutOfMemory> {
        if at >= bytes.len() || !bytes[at].is_ascii_digit() {
            return Ok(None);
        }
        let Some((number, next)) = read_number_at(bytes, at) else {
            return Ok(None);
        };
        if !ends_at(bytes, next) {
            return Ok(None);
        }
        Ok(Some((number, next)))
    }

    fn write(&self, out: &mut Vec<u8>) -> Result<(), OutOfMemory> {
        write_number(*self, out)
    }
}

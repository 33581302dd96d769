ghost use Rattle.rl_text.specs.Notation.{Flag};
ghost use Rattle.rl_text.specs.Atoms.{SpelledAs};
ghost use Rattle.rl_text.proofs.Atoms.{one_of_tree, apart_of_tree, closing_of_tree, absent_of_tree, back_of_tree, flag_one, flag_present};

use crate::atom::{Atom, ends_at};
use rl_base::error::OutOfMemory;
use rl_text::scan::has_byte;
use rl_text::written::Written;
use std::alloc::Global;

impl Atom for bool {
    ghost spells = { SpelledAs Flag };

    ghost one_spelling = { one_of_tree Flag };

    ghost apart = { apart_of_tree Flag flag_one };

    ghost not_closing = { closing_of_tree Flag };

    ghost not_absent = { absent_of_tree Flag flag_present };

    ghost reads_back = { back_of_tree Flag flag_one };

    fn read(_alloc: Global, bytes: &[u8], at: usize) -> Result<Option<(bool, usize)>, OutOfMemory> {
        let flag = has_byte(bytes, at, b'y');
        if !flag && !has_byte(bytes, at, b'n') {
            return Ok(None);
        }
        if !ends_at(bytes, at + 1) {
            return Ok(None);
        }
        Ok(Some((flag, at + 1)))
    }

    fn write(&self, out: &mut Vec<u8>) -> Result<(), OutOfMemory> {
        Written::write(self, out)
    }
}

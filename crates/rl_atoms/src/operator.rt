//! Operators as atoms: each is spelled as its text, in quotes.

ghost use Rattle.std.specs.Prelude.{◌≡◌, ◌≤◌, length, IfOk, OnOk, IfSome, IfNone};
ghost use Rattle.rl_base.specs.Operators.{operator_text, logical_text, unary_text, update_text, assignment_text, operators, logical_operators, unary_operators, update_operators, assignment_operators};
ghost use Rattle.rl_base.specs.FoundOperators.{operators_found, logical_operators_found, unary_operators_found, update_operators_found, assignment_operators_found};
ghost use Rattle.rl_text.specs.Atoms.{StandsAt, NoneStandsAt, HasSpelling, AppendsSpelling, SpelledAs, text_tree};
ghost use Rattle.rl_text.proofs.Atoms.{one_of_tree, apart_of_tree, closing_of_tree, absent_of_tree, back_of_tree, text_one, text_present};

use crate::atom::Atom;
use rl_base::closed_text::ClosedText;
use rl_base::error::OutOfMemory;
use rl_base::operator::{
    AssignmentOperator, BinaryOperator, LogicalOperator, UnaryOperator, UpdateOperator,
};
use rl_base::text::Text;
use rl_text::written::{Literal, Written};
use std::alloc::Global;

/// Reads the value whose text stands in quotes at the byte offset `at`. Returns it and the offset behind its spelling. `None` if
/// the text of no value stands there. On `OutOfMemory`, an allocation failed.
fn read_closed<O: ClosedText>(
    alloc: Global,
    bytes: &[u8],
    at: usize,
) -> Result<Option<(O, usize)>, OutOfMemory>
    requires { at ≤ length bytes.now }
    ensures found { IfOk result (λ r. IfSome r (λ f. StandsAt (SpelledAs (text_tree O.text)) bytes.now at f.0 f.1)) }
    ensures none { IfOk result (λ r. IfNone r (NoneStandsAt (SpelledAs (text_tree O.text)) bytes.now at)) }
{
    let Some((text, next)) = Text::read(alloc, bytes, at)? else {
        return Ok(None);
    };
    match O::from_text(text.as_str()) {
        Some(value) => Ok(Some((value, next))),
        None => Ok(None),
    }
}

/// Appends the text of a value, in quotes. On `OutOfMemory`, an allocation failed, and `out` may hold a part of it.
fn write_closed<O: ClosedText>(value: O, out: &mut Vec<u8>) -> Result<(), OutOfMemory>
    ensures { OnOk result (AppendsSpelling (SpelledAs (text_tree O.text)) out.old.items out.new.items value) }
{
    Literal(value.as_str()).write(out)
}

impl Atom for BinaryOperator {
    ghost spells = { SpelledAs (text_tree operator_text) };

    ghost one_spelling = { one_of_tree (text_tree operator_text) };

    ghost apart = { apart_of_tree (text_tree operator_text) (text_one operator_text operators operators_found) };

    ghost not_closing = { closing_of_tree (text_tree operator_text) };

    ghost not_absent = { absent_of_tree (text_tree operator_text) (text_present operator_text) };

    ghost reads_back = { back_of_tree (text_tree operator_text) (text_one operator_text operators operators_found) };

    fn read(
        alloc: Global,
        bytes: &[u8],
        at: usize,
    ) -> Result<Option<(BinaryOperator, usize)>, OutOfMemory> {
        read_closed(alloc, bytes, at)
    }

    fn write(&self, out: &mut Vec<u8>) -> Result<(), OutOfMemory> {
        write_closed(*self, out)
    }
}

impl Atom for LogicalOperator {
    ghost spells = { SpelledAs (text_tree logical_text) };

    ghost one_spelling = { one_of_tree (text_tree logical_text) };

    ghost apart = { apart_of_tree (text_tree logical_text) (text_one logical_text logical_operators logical_operators_found) };

    ghost not_closing = { closing_of_tree (text_tree logical_text) };

    ghost not_absent = { absent_of_tree (text_tree logical_text) (text_present logical_text) };

    ghost reads_back = { back_of_tree (text_tree logical_text) (text_one logical_text logical_operators logical_operators_found) };

    fn read(
        alloc: Global,
        bytes: &[u8],
        at: usize,
    ) -> Result<Option<(LogicalOperator, usize)>, OutOfMemory> {
        read_closed(alloc, bytes, at)
    }

    fn write(&self, out: &mut Vec<u8>) -> Result<(), OutOfMemory> {
        write_closed(*self, out)
    }
}

impl Atom for UnaryOperator {
    ghost spells = { SpelledAs (text_tree unary_text) };

    ghost one_spelling = { one_of_tree (text_tree unary_text) };

    ghost apart = { apart_of_tree (text_tree unary_text) (text_one unary_text unary_operators unary_operators_found) };

    ghost not_closing = { closing_of_tree (text_tree unary_text) };

    ghost not_absent = { absent_of_tree (text_tree unary_text) (text_present unary_text) };

    ghost reads_back = { back_of_tree (text_tree unary_text) (text_one unary_text unary_operators unary_operators_found) };

    fn read(
        alloc: Global,
        bytes: &[u8],
        at: usize,
    ) -> Result<Option<(UnaryOperator, usize)>, OutOfMemory> {
        read_closed(alloc, bytes, at)
    }

    fn write(&self, out: &mut Vec<u8>) -> Result<(), OutOfMemory> {
        write_closed(*self, out)
    }
}

impl Atom for UpdateOperator {
    ghost spells = { SpelledAs (text_tree update_text) };

    ghost one_spelling = { one_of_tree (text_tree update_text) };

    ghost apart = { apart_of_tree (text_tree update_text) (text_one update_text update_operators update_operators_found) };

    ghost not_closing = { closing_of_tree (text_tree update_text) };

    ghost not_absent = { absent_of_tree (text_tree update_text) (text_present update_text) };

    ghost reads_back = { back_of_tree (text_tree update_text) (text_one update_text update_operators update_operators_found) };

    fn read(
        alloc: Global,
        bytes: &[u8],
        at: usize,
    ) -> Result<Option<(UpdateOperator, usize)>, OutOfMemory> {
        read_closed(alloc, bytes, at)
    }

    fn write(&self, out: &mut Vec<u8>) -> Result<(), OutOfMemory> {
        write_closed(*self, out)
    }
}

impl Atom for AssignmentOperator {
    ghost spells = { SpelledAs (text_tree assignment_text) };

    ghost one_spelling = { one_of_tree (text_tree assignment_text) };

    ghost apart = { apart_of_tree (text_tree assignment_text) (text_one assignment_text assignment_operators assignment_operators_found) };

    ghost not_closing = { closing_of_tree (text_tree assignment_text) };

    ghost not_absent = { absent_of_tree (text_tree assignment_text) (text_present assignment_text) };

    ghost reads_back = { back_of_tree (text_tree assignment_text) (text_one assignment_text assignment_operators assignment_operators_found) };

    fn read(
        alloc: Global,
        bytes: &[u8],
        at: usize,
    ) -> Result<Option<(AssignmentOperator, usize)>, OutOfMemory> {
        read_closed(alloc, bytes, at)
    }

    fn write(&self, out: &mut Vec<u8>) -> Result<(), OutOfMemory> {
        write_closed(*self, out)
    }
}

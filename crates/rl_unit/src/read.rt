//! Units that a program reads.

ghost use Rattle.std.specs.Prelude.{IfErr, IfOk, IsErrOf, MatchResult, Some};
ghost use Rattle.rl_base.specs.Faults.{Rose};
ghost use Rattle.rl_unit.specs.Known.{IsKnown};
ghost use Rattle.rl_syntax.specs.Syntax.{syntax};
ghost use Rattle.rl_unit.specs.Answers.{HasRead, ReadsWhole, RefusesKnown};
ghost use Rattle.rl_unit.specs.Functions.{IsRead};

use crate::run::Status;
use rl_ast::read::{LARGEST_INPUT, TreeError, read_tree};
use rl_ast::unit::Unit;
use rl_base::io::{ReadError, Source, read_up_to};
use std::alloc::Global;

/// The unit that bytes spell. An error is the status of a program that has nothing to write: `Malformed`, `TooLarge` or `OutOfMemory`.
fn unit_of(alloc: Global, bytes: &[u8]) -> Result<Unit, Status>
    ensures read { IfOk result (λ unit. IsRead (syntax unit.tree)) }
    ensures known { IfOk result (λ unit. IsKnown (Some bytes.now) (syntax unit.tree)) }
    ensures status { IfErr result (RefusesKnown (Some bytes.now)) }
    ensures unread { IsErrOf result Status.ReadFault → ⊥ }
{
    match read_tree(alloc, bytes) {
        Ok(unit) => Ok(unit),
        Err(TreeError::TooLarge) => Err(Status::TooLarge),
        Err(TreeError::Malformed) => Err(Status::Malformed),
        Err(TreeError::OutOfMemory) => Err(Status::OutOfMemory),
    }
}

/// Reads the unit that the source has left. An error is the status of a program that has nothing to write: `Malformed` where the bytes
/// spell no unit, `TooLarge`, `ReadFault` or `OutOfMemory`. What was read is gone from the source, on an error too.
pub fn read_unit<S: Source>(alloc: Global, source: &mut S) -> Result<Unit, Status>
    ensures read { IfOk result (λ unit. IsRead (syntax unit.tree)) }
    ensures known { IfOk result (λ unit. IsKnown (S.left source.old) (syntax unit.tree)) }
    ensures status { IfErr result (RefusesKnown (S.left source.old)) }
    ensures whole { MatchResult result (λ _. ReadsWhole (S.left source.old) (S.left source.new))
        (λ status. HasRead status → ReadsWhole (S.left source.old) (S.left source.new)) }
    ensures cause { IsErrOf result Status.ReadFault → Rose (S.faults source.old) (S.faults source.new) }
{
    let bytes = match read_up_to(alloc, source, LARGEST_INPUT + 1) {
        Ok(bytes) => bytes,
        Err(ReadError::Fault) => return Err(Status::ReadFault),
        Err(ReadError::OutOfMemory) => return Err(Status::OutOfMemory),
    };
    match unit_of(alloc, bytes.as_slice()) {
        Ok(unit) => Ok(unit),
        Err(status) => Err(status),
    }
}

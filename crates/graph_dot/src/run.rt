ghost use Rattle.std.specs.Prelude.{◌≡◌, ◌≢◌, ◌↔◌, []};
ghost use Rattle.std.specs.Io.KnownBytes.{Keeps};
ghost use Rattle.rl_base.specs.Faults.{Rose};
ghost use Rattle.rl_unit.specs.Answers.{HasRead, IsComplete, ReadsWhole};
ghost use Rattle.graph_dot.specs.Answers.{Explains};

use crate::draw::draw;
use rl_base::io::{Sink, Source, write_all};
use rl_unit::run::{Outcome, Status, lower_from};
use std::alloc::Global;

/// Runs the program: without arguments, reads the unit that the source has left, and writes its graph in DOT, or the report, to
/// the sink. All memory is allocated before the first byte is written.
pub fn run_dot<S: Source, K: Sink>(
    alloc: Global,
    words: &[String],
    source: &mut S,
    sink: &mut K,
) -> Status
    ensures usage { (result ≡ Status.Usage) ↔ (words.now ≢ []) }
    ensures explained { Explains result (S.left source.old) (K.held sink.old) (K.held sink.new) }

    // A unit within the limits is drawn or reported, unless a fault or want of memory ends the run.
    ensures complete { words.now ≡ [] → IsComplete (S.left source.old) result }

    // The bytes that were read.
    ensures read { HasRead result → ReadsWhole (S.left source.old) (S.left source.new) }
    ensures unread { result ≡ Status.Usage → Keeps (S.left source.old) (S.left source.new) }

    // A fault ends the run only where one was counted.
    ensures read_cause { result ≡ Status.ReadFault → Rose (S.faults source.old) (S.faults source.new) }
    ensures write_cause { result ≡ Status.WriteFault → Rose (K.faults sink.old) (K.faults sink.new) }
{
    if !words.is_empty() {
        return Status::Usage;
    }
    let outcome = match lower_from(alloc, source) {
        Ok(outcome) => outcome,
        Err(status) => return status,
    };
    match outcome {
        Outcome::Lowered(lowered) => match draw(alloc, &lowered) {
            Ok(text) => match write_all(sink, text.as_bytes()) {
                Ok(()) => Status::Done,
                Err(_) => Status::WriteFault,
            },
            Err(_) => Status::OutOfMemory,
        },
        Outcome::Reported(text) => match write_all(sink, text.as_slice()) {
            Ok(()) => Status::Reported,
            Err(_) => Status::WriteFault,
        },
    }
}

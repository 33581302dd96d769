//! The program `react_lower` over any source and sink.

ghost use Rattle.std.specs.Prelude.{◌≡◌, ◌⊎◌, ◌↔◌, [], ◌∷◌, IfOk, IfNone, IfSome, IsTrue, map, string_bytes, codes};
ghost use Rattle.std.specs.Io.KnownBytes.{Keeps};
ghost use Rattle.react_lower.specs.Linted.{IsLintAnswer, IsLintOutput};
ghost use Rattle.react_lower.specs.Traced.{AreWords, IsCommand, IsTraceAnswer, IsTraceOutput};
ghost use Rattle.rl_base.specs.Faults.{Rose};
ghost use Rattle.rl_unit.specs.Known.{ExplainsBy, IsCompleteBy};
ghost use Rattle.rl_trace_text.specs.declared.words.Arguments.{Arguments as Args};
ghost use Rattle.rl_unit.specs.Answers.{Explains, HasRead, IsComplete, ReadsWhole};

use crate::lint::lint_unit;
use crate::trace::trace;
use rl_base::error::OutOfMemory;
use rl_base::io::{Sink, Source};
use rl_trace_text::words::{Arguments, read_words};
use rl_unit::run::{Status, is_command, run as lower};
use std::alloc::Global;

/// True of the word `trace`.
fn is_trace(word: &String) -> bool
    ensures { IsTrue result ↔ (string_bytes word.now ≡ codes "trace") }
{
    word.as_str() == "trace"
}

/// True if `lint` is the one argument.
fn is_lint(words: &[String]) -> bool
    ensures { IsTrue result ↔ (map string_bytes words.now ≡ codes "lint" ∷ []) }
{
    match words {
        [word] => word.as_str() == "lint",
        _ => false,
    }
}

/// The arguments that the words `trace F START ARGS ANSWERS` spell. `None` if they spell none. On `OutOfMemory`, an allocation failed.
fn arguments_of(alloc: Global, words: &[String]) -> Result<Option<Arguments>, OutOfMemory>
    ensures found { IfOk result (λ r. IfSome r (AreWords (map string_bytes words.now))) }
    ensures only { IfOk result (λ r. IfSome r (λ a. (other : Args) → AreWords (map string_bytes words.now) other → other ≡ a)) }
    ensures none { IfOk result (λ r. IfNone r ((a : Args) → AreWords (map string_bytes words.now) a → ⊥)) }
{
    match words {
        [command, function, start, args, answers] => {
            if !is_trace(command) {
                return Ok(None);
            }
            read_words(
                alloc,
                function.as_bytes(),
                start.as_bytes(),
                args.as_bytes(),
                answers.as_bytes(),
            )
        }
        _ => Ok(None),
    }
}

/// Runs the program: `lower` lowers the unit that the source has left and writes the listing or the report; `trace F START ARGS ANSWERS`
/// runs a function of it, by the source and by the graph; `lint` writes the findings of the linter in it.
pub fn run<S: Source, K: Sink>(
    alloc: Global,
    words: &[String],
    source: &mut S,
    sink: &mut K,
) -> Status
    // `Usage` comes of words that are no command, unless an allocation fails before that is known. Of such words nothing is read, and
    // nothing is written.
    ensures usage { result ≡ Status.Usage → IsCommand (map string_bytes words.now) → ⊥ }
    ensures others { (IsCommand (map string_bytes words.now) → ⊥) → (result ≡ Status.Usage) ⊎ (result ≡ Status.OutOfMemory) }
    ensures unread { (IsCommand (map string_bytes words.now) → ⊥)
        → Keeps (S.left source.old) (S.left source.new) × Keeps (K.held sink.old) (K.held sink.new) }

    // Each other status, by the command, the bytes that were left and the bytes that were written.
    ensures lowers { map string_bytes words.now ≡ codes "lower" ∷ []
        → Explains result (S.left source.old) (K.held sink.old) (K.held sink.new) × IsComplete (S.left source.old) result }
    ensures traces { (a : Args) → AreWords (map string_bytes words.now) a
        → ExplainsBy (IsTraceOutput a) result (S.left source.old) (K.held sink.old) (K.held sink.new)
        × IsCompleteBy (IsTraceAnswer a) (S.left source.old) result }
    ensures lints { map string_bytes words.now ≡ codes "lint" ∷ []
        → ExplainsBy IsLintOutput result (S.left source.old) (K.held sink.old) (K.held sink.new)
        × IsCompleteBy IsLintAnswer (S.left source.old) result }

    // The bytes that were read.
    ensures read { HasRead result → ReadsWhole (S.left source.old) (S.left source.new) }

    // A fault ends the run only where one was counted.
    ensures read_cause { result ≡ Status.ReadFault → Rose (S.faults source.old) (S.faults source.new) }
    ensures write_cause { result ≡ Status.WriteFault → Rose (K.faults sink.old) (K.faults sink.new) }
{
    if is_command(words) {
        return lower(alloc, words, source, sink);
    }
    if is_lint(words) {
        return lint_unit(alloc, source, sink);
    }
    let found = match arguments_of(alloc, words) {
        Ok(found) => found,
        Err(OutOfMemory) => return Status::OutOfMemory,
    };
    match found {
        Some(arguments) => trace(alloc, &arguments, source, sink),
        None => Status::Usage,
    }
}

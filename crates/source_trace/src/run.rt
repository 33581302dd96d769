//! The command `source_trace`: runs a function of any well-formed unit by its source, whatever the lowering covers.

ghost use Rattle.std.specs.Prelude.{◌≡◌, ◌≢◌, ◌++◌, ◌⊎◌, IfErr, IfOk, IfNone, IfSome, IsErrOf, MatchResult, OnOk, map, string_bytes};
ghost use Rattle.std.specs.Option.{option_map};
ghost use Rattle.std.specs.Io.KnownBytes.{Keeps};
ghost use Rattle.rl_base.specs.declared.ids.NodeId.{NodeId as Id};
ghost use Rattle.rl_base.specs.Faults.{Rose};
ghost use Rattle.rl_unit.specs.Known.{ExplainsBy, IsCompleteBy, RefusesUnit, WritesBy};
ghost use Rattle.rl_syntax.specs.Syntax.{syntax};
ghost use Rattle.rl_trace_text.specs.declared.words.Arguments.{Arguments as Args};
ghost use Rattle.rl_unit.specs.Answers.{HasRead, ReadsWhole, RefusesKnown};
ghost use Rattle.rl_worlds.specs.Units.{IsSemanticOf};
ghost use Rattle.source_trace.specs.SourceTraced as traced;
ghost use Rattle.source_trace.specs.SourceTraced.{flag_line};

use rl_ast::unit::Unit;
use rl_base::error::OutOfMemory;
use rl_base::ids::NodeId;
use rl_base::io::{Sink, Source, write_all};
use rl_machine::trace::Trace;
use rl_orderly::orderly::is_orderly;
use rl_semantic::semantic::{RuleError, Semantic};
use rl_source_run::unit::run_source;
use rl_supported::supported::is_supported;
use rl_trace::error::RunError;
use rl_trace_text::words::{Arguments, read_words};
use rl_unit::lines::{no_function, trace_line};
use rl_unit::read::read_unit;
use rl_unit::run::{Output, Status};
use std::alloc::Global;

/// Appends the line of a name with `y` or `n`. On `OutOfMemory`, an allocation failed.
fn push_flag(name: &[u8], flag: bool, text: &mut Vec<u8>) -> Result<(), OutOfMemory>
    ensures { OnOk result (text.new.items ≡ text.old.items ++ flag_line name.now flag) }
{
    text.extend_from_slice(name)?;
    if flag {
        text.extend_from_slice(b" y\n")?;
        return Ok(());
    }
    text.extend_from_slice(b" n\n")?;
    Ok(())
}

/// The arguments that the words `F START ARGS ANSWERS` spell. `None` if they spell none. On `OutOfMemory`, an allocation failed.
fn arguments_of(alloc: Global, words: &[String]) -> Result<Option<Arguments>, OutOfMemory>
    ensures found { IfOk result (λ r. IfSome r (traced.AreSourceWords (map string_bytes words.now))) }
    ensures only { IfOk result (λ r. IfSome r (λ a. (other : Args)
        → traced.AreSourceWords (map string_bytes words.now) other → other ≡ a)) }
    ensures none { IfOk result (λ r. IfNone r ((a : Args) → traced.AreSourceWords (map string_bytes words.now) a → ⊥)) }
{
    match words {
        [function, start, args, answers] => read_words(
            alloc,
            function.as_bytes(),
            start.as_bytes(),
            args.as_bytes(),
            answers.as_bytes(),
        ),
        _ => Ok(None),
    }
}

/// The node of a number.
fn node_of(function: Option<u32>) -> Option<NodeId>
    ensures { option_map (λ (n : Id). n.0) result ≡ function }
{
    match function {
        Some(number) => Some(NodeId(number)),
        None => None,
    }
}

/// The lines of a function that was run. On `OutOfMemory`, an allocation failed.
fn lines(
    alloc: Global,
    unit: &Unit,
    semantic: &Semantic<'_>,
    function: Option<NodeId>,
    trace: &Trace,
) -> Result<Vec<u8>, OutOfMemory>
    requires tables { IsSemanticOf semantic.now (syntax unit.now.tree) }
    ensures { IfOk result (λ text. text.items
        ≡ traced.lines (syntax unit.now.tree) (option_map (λ (n : Id). n.0) function) trace.now) }
{
    let mut text = trace_line(alloc, trace)?;
    let orderly = is_orderly(alloc, unit, semantic, function)?;
    push_flag(b"orderly", orderly, &mut text)?;
    let supported = is_supported(alloc, unit, semantic)?;
    push_flag(b"supported", supported, &mut text)?;
    Ok(text)
}

/// The output for a unit with its tables: the three lines, or that the number names no function. On `OutOfMemory`, an allocation failed.
fn output_of(
    alloc: Global,
    unit: &Unit,
    semantic: &Semantic<'_>,
    arguments: &Arguments,
) -> Result<Output, OutOfMemory>
    requires tables { IsSemanticOf semantic.now (syntax unit.now.tree) }
    ensures { IfOk result (λ o. traced.IsSourceOutput arguments.now o.status (syntax unit.now.tree) o.text.items) }
{
    let function = node_of(arguments.function);
    match run_source(
        alloc,
        unit,
        semantic,
        function,
        arguments.start.as_slice(),
        arguments.args.as_slice(),
        arguments.answers.as_slice(),
    ) {
        Ok(trace) => Ok(Output {
            status: Status::Done,
            text: lines(alloc, unit, semantic, function, &trace)?,
        }),
        Err(RunError::NoFunction) => Ok(Output {
            status: Status::Reported,
            text: no_function(alloc)?,
        }),
        Err(RunError::OutOfMemory) => Err(OutOfMemory),
    }
}

/// The output for a unit that was read. An error is `Malformed`, of a unit that breaks a rule, or `OutOfMemory`.
fn unit_output(alloc: Global, unit: &Unit, arguments: &Arguments) -> Result<Output, Status>
    ensures output { IfOk result (λ o. traced.IsSourceOutput arguments.now o.status (syntax unit.now.tree) o.text.items) }
    ensures status { IfErr result (RefusesUnit (syntax unit.now.tree)) }
{
    let semantic = match Semantic::of(alloc, unit) {
        Ok(semantic) => semantic,
        Err(RuleError::Malformed(_)) => return Err(Status::Malformed),
        Err(RuleError::OutOfMemory) => return Err(Status::OutOfMemory),
    };
    match output_of(alloc, unit, &semantic, arguments) {
        Ok(output) => Ok(output),
        Err(OutOfMemory) => Err(Status::OutOfMemory),
    }
}

/// Reads the unit that the source has left. The result is the output for it, or the status of a run without output.
fn answer<S: Source>(alloc: Global, source: &mut S, arguments: &Arguments) -> Result<Output, Status>
    ensures writes { IfOk result (λ o. WritesBy (traced.IsSourceOutput arguments.now) (S.left source.old) o.status o.text.items) }
    ensures status { IfErr result (RefusesKnown (S.left source.old)) }
    ensures read { MatchResult result (λ _. ReadsWhole (S.left source.old) (S.left source.new))
        (λ status. HasRead status → ReadsWhole (S.left source.old) (S.left source.new)) }
    ensures cause { IsErrOf result Status.ReadFault → Rose (S.faults source.old) (S.faults source.new) }
{
    let unit = match read_unit(alloc, source) {
        Ok(unit) => unit,
        Err(status) => return Err(status),
    };
    match unit_output(alloc, &unit, arguments) {
        Ok(output) => Ok(output),
        Err(status) => Err(status),
    }
}

/// Runs a function of the unit that the source has left, and writes the three lines to the sink, or that there is no such function. All
/// memory is allocated before the first byte is written.
fn run_unit<S: Source, K: Sink>(
    alloc: Global,
    arguments: &Arguments,
    source: &mut S,
    sink: &mut K,
) -> Status
    ensures explained { ExplainsBy (traced.IsSourceOutput arguments.now) result (S.left source.old) (K.held sink.old) (K.held sink.new) }
    ensures complete { IsCompleteBy (traced.IsSourceAnswer arguments.now) (S.left source.old) result }
    ensures command { result ≢ Status.Usage }
    ensures read { HasRead result → ReadsWhole (S.left source.old) (S.left source.new) }
    ensures read_cause { result ≡ Status.ReadFault → Rose (S.faults source.old) (S.faults source.new) }
    ensures write_cause { result ≡ Status.WriteFault → Rose (K.faults sink.old) (K.faults sink.new) }
{
    let output = match answer(alloc, source, arguments) {
        Ok(output) => output,
        Err(status) => return status,
    };
    match write_all(sink, output.text.as_slice()) {
        Ok(()) => output.status,
        Err(_) => Status::WriteFault,
    }
}

/// Runs the program `source_trace`: with the words `F START ARGS ANSWERS`, runs a function of the unit that the source has left, and writes
/// to the sink its trace, whether it is orderly, and whether the unit is supported; or that there is no such function.
pub fn source_trace<S: Source, K: Sink>(
    alloc: Global,
    words: &[String],
    source: &mut S,
    sink: &mut K,
) -> Status
    // `Usage` comes of words that spell no arguments, unless an allocation fails before that is known. Of such words nothing is read, and
    // nothing is written.
    ensures usage { result ≡ Status.Usage → (a : Args) → traced.AreSourceWords (map string_bytes words.now) a → ⊥ }
    ensures others { ((a : Args) → traced.AreSourceWords (map string_bytes words.now) a → ⊥)
        → (result ≡ Status.Usage) ⊎ (result ≡ Status.OutOfMemory) }
    ensures unread { ((a : Args) → traced.AreSourceWords (map string_bytes words.now) a → ⊥)
        → Keeps (S.left source.old) (S.left source.new) × Keeps (K.held sink.old) (K.held sink.new) }

    // Each other status, by the arguments, the bytes that were left and the bytes that were written.
    ensures explained { (a : Args) → traced.AreSourceWords (map string_bytes words.now) a
        → ExplainsBy (traced.IsSourceOutput a) result (S.left source.old) (K.held sink.old) (K.held sink.new) }
    ensures complete { (a : Args) → traced.AreSourceWords (map string_bytes words.now) a
        → IsCompleteBy (traced.IsSourceAnswer a) (S.left source.old) result }

    // The bytes that were read.
    ensures read { HasRead result → ReadsWhole (S.left source.old) (S.left source.new) }

    // A fault ends the run only where one was counted.
    ensures read_cause { result ≡ Status.ReadFault → Rose (S.faults source.old) (S.faults source.new) }
    ensures write_cause { result ≡ Status.WriteFault → Rose (K.faults sink.old) (K.faults sink.new) }
{
    let found = match arguments_of(alloc, words) {
        Ok(found) => found,
        Err(OutOfMemory) => return Status::OutOfMemory,
    };
    match found {
        Some(arguments) => run_unit(alloc, &arguments, source, sink),
        None => Status::Usage,
    }
}

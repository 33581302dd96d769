//! The program `lower` over any source and sink, and the parts that other programs share with it.

ghost use Rattle.std.specs.Prelude.{◌≡◌, ◌≢◌, ◌<◌, ◌↔◌, ◌⊎◌, [], ◌∷◌, map, IfOk, IfErr, MatchResult, IsTrue, IsErrOf, string_bytes, codes};
ghost use Rattle.std.specs.Io.KnownBytes.{Keeps};
ghost use Rattle.rl_base.specs.Faults.{Rose};
ghost use Rattle.rl_base.specs.Diagnostics.{line_of};
ghost use Rattle.rl_syntax.specs.Syntax.{syntax};
ghost use Rattle.rl_unit.specs.Functions.{IsRead};
ghost use Rattle.rl_unit.specs.Known.{RefusesUnit};
ghost use Rattle.rl_unit.specs.Outcomes.{ComesToKnown, IsOutcome, IsStatusOf, outcome_status, outcome_text, reported};
ghost use Rattle.rl_unit.specs.Answers.{AnswersSteadily, Explains, HasRead, IsComplete, ReadsWhole, RefusesKnown, WritesKnown, exit_code, lines, output, pending_line, skipped_line};

use crate::read::read_unit;
use crate::unit::{LowerError, lower_tree};
use rl_ast::unit::Unit;
use rl_base::decimal::write_decimal;
use rl_base::diagnostic::Diagnostic;
use rl_base::error::OutOfMemory;
use rl_base::ids::NodeId;
use rl_base::infallible_io::{SteadySink, SteadySource};
use rl_base::io::{Sink, Source, write_all};
use rl_hir::blocks::Blocks;
use rl_hir::function::Lowered;
use rl_hir::instruction::{InstructionValue, PrimitiveValue};
use rl_hir::listing::write_listing;
use std::alloc::Global;
use std::{env, io};

/// The end of a program's run.
#[derive(Clone, Copy, Debug, PartialEq, Eq)]
pub enum Status {
    /// The listing of the result was written.
    Done,
    /// The lowering does not cover a node of the marked function, a row applies to that, or it is skipped. The report was
    /// written.
    Reported,
    /// The bytes are within the limits and spell no unit, or one that breaks a rule. Nothing was written.
    Malformed,
    /// The bytes pass a limit. Nothing was written.
    TooLarge,
    /// The source failed. Nothing was written.
    ReadFault,
    /// The sink failed. A prefix of the output was written.
    WriteFault,
    /// An allocation failed.
    OutOfMemory,
    /// The arguments are no command.
    Usage,
}

impl Status {
    /// The exit status of the process, 0 to 7.
    pub fn code(self) -> u8
        ensures { result ≡ exit_code self }
    {
        match self {
            Status::Done => 0,
            Status::Reported => 1,
            Status::Malformed => 2,
            Status::TooLarge => 3,
            Status::ReadFault => 4,
            Status::WriteFault => 5,
            Status::OutOfMemory => 6,
            Status::Usage => 7,
        }
    }
}

impl From<OutOfMemory> for Status {
    ghost use Rattle.rl_unit.specs.declared.run.Status.TheVariants.{OutOfMemory};
    ghost use Rattle.std.specs.Prelude.{◌≡◌};

    ghost from_gives = { λ _ status. status ≡ OutOfMemory };

    fn from(_e: OutOfMemory) -> Status {
        Status::OutOfMemory
    }
}

/// The arguments of the process, without the program's name. An argument that is not UTF-8 is no command of these programs:
/// on one the error is `Usage`, and where an allocation failed `OutOfMemory`.
pub fn arguments(rt: &HostRuntime) -> Result<Vec<String>, Status>
    ensures { IfErr result (λ status. (status ≡ Status.Usage) ⊎ (status ≡ Status.OutOfMemory)) }
{
    let all = env::args(rt).map_err(|e| {
        if e.kind() == io::ErrorKind::OutOfMemory {
            Status::OutOfMemory
        } else {
            Status::Usage
        }
    })?;
    let mut words = Vec::new(rt.alloc());
    for word in all.skip(1) {
        words.push(word).map_err(|_| Status::OutOfMemory)?;
    }
    Ok(words)
}

/// True if `lower` is the one argument.
pub fn is_command(words: &[String]) -> bool
    ensures { IsTrue result ↔ (map string_bytes words.now ≡ codes "lower" ∷ []) }
{
    match words {
        [word] => word.as_str() == "lower",
        _ => false,
    }
}

/// A unit that was read and lowered.
#[derive(Drop)]
pub enum Outcome {
    /// No row applies to the marked function, and it is not skipped: its result.
    Lowered(Lowered),
    /// The lowering does not cover a node of the marked function, a row applies to that, or it is skipped: the lines of the
    /// report, as the program writes them.
    Reported(Vec<u8>),
}

/// The bytes that a program writes of a unit, with the status that says so.
#[derive(Drop)]
pub struct Output {
    /// Done or Reported.
    pub status: Status,
    /// The bytes.
    pub text: Vec<u8>,
}

/// The lines of diagnostics, in order.
fn report(alloc: Global, said: &[Diagnostic]) -> Result<Vec<u8>, OutOfMemory>
    ensures { IfOk result (λ text. text.items ≡ lines said.now) }
{
    let mut text = Vec::new(alloc);
    for diagnostic in said {
        diagnostic.write_line(&mut text)?;
    }
    Ok(text)
}

/// The line of a stop.
fn stop_line(alloc: Global, stop: &Diagnostic) -> Result<Vec<u8>, OutOfMemory>
    ensures { IfOk result (λ text. text.items ≡ line_of stop.now) }
{
    let mut text = Vec::new(alloc);
    stop.write_line(&mut text)?;
    Ok(text)
}

/// The line of a unit that the lowering does not cover, by the least id of a node that it does not.
fn pending_line(alloc: Global, node: NodeId) -> Result<Vec<u8>, OutOfMemory>
    ensures { IfOk result (λ text. text.items ≡ pending_line node.0) }
{
    let mut text = Vec::new(alloc);
    text.extend_from_slice(b"Pending ")?;
    write_decimal(u64::from(node.0), &mut text)?;
    text.push(b'\n')?;
    Ok(text)
}

/// The line of a unit that is skipped.
fn skipped_line(alloc: Global) -> Result<Vec<u8>, OutOfMemory>
    ensures { IfOk result (λ text. text.items ≡ skipped_line) }
{
    let mut text = Vec::new(alloc);
    text.extend_from_slice(b"Skipped: an enum or a using declaration\n")?;
    Ok(text)
}

/// Number of bytes that a listing has for an instruction without its operands and texts, with its entries in the tables: about as
/// many as where offsets have six digits and ids five.
const BYTES_OF_INSTRUCTION: usize = 124;

/// Number of bytes that a listing has for an operand, of the same digits.
const BYTES_OF_OPERAND: usize = 29;

/// Number of bytes that a listing has for a block without its instructions, of the same digits.
const BYTES_OF_BLOCK: usize = 108;

/// Number of bytes that the tables of a listing have for a symbol, of the same digits.
const BYTES_OF_SYMBOL: usize = 56;

/// Number of bytes that a listing has for a parameter beside those of its symbol, of the same digits.
const BYTES_OF_PARAMETER: usize = 62;

/// Number of bytes that a listing has for the operands or the text of an instruction.
fn room_for_parts(value: &InstructionValue) -> usize {
    match value {
        InstructionValue::Primitive(PrimitiveValue::String(text)) => text.as_bytes().len(),
        InstructionValue::LoadLocal(_) | InstructionValue::DeclareLocal { .. } => BYTES_OF_OPERAND,
        InstructionValue::StoreLocal { .. } => 2 * BYTES_OF_OPERAND,
        InstructionValue::BinaryExpression { .. } => 2 * BYTES_OF_OPERAND,
        InstructionValue::CallExpression { arguments, .. } => {
            BYTES_OF_OPERAND.saturating_mul(arguments.len().saturating_add(1))
        }
        _ => 0,
    }
}

/// Number of bytes that a listing has for the blocks, symbols and parameters of a result.
fn room_around(lowered: &Lowered) -> usize {
    let function = &lowered.function;
    let blocks = BYTES_OF_BLOCK.saturating_mul(function.body.blocks.len());
    let symbols = BYTES_OF_SYMBOL.saturating_mul(lowered.pairs.len());
    let parameters = BYTES_OF_PARAMETER.saturating_mul(function.params.len());
    blocks.saturating_add(symbols).saturating_add(parameters)
}

/// Number of bytes for which `listed` makes room at once: about as many as the listing has.
fn room_for(lowered: &Lowered) -> usize {
    let mut room = room_around(lowered);
    for instruction in lowered.function.instructions.as_slice() {
        let parts = room_for_parts(&instruction.value);
        room = room
            .saturating_add(BYTES_OF_INSTRUCTION)
            .saturating_add(parts);
    }
    room
}

/// The text of a result, and a line feed.
fn listed(alloc: Global, lowered: &Lowered) -> Result<Vec<u8>, OutOfMemory>
    ensures { IfOk result (λ text. text.items ≡ output lowered.now) }
{
    let room = room_for(lowered);
    let mut text = Vec::with_capacity(alloc, room)?;
    write_listing(lowered, &mut text)?;
    text.push(b'\n')?;
    Ok(text)
}

/// The lines of the report on a unit that has no result: the line of a stop, those of the refusals, that of a unit which is skipped,
/// or that of the least node which the lowering does not cover. An error is the exit status of a program that has nothing to write:
/// `Malformed`, `TooLarge` or `OutOfMemory`.
pub fn report_of(alloc: Global, error: LowerError) -> Result<Vec<u8>, Status>
    ensures reported { IfOk result (λ text. reported error ≡ Some text.items) }
    ensures status { IfErr result (λ status. IsStatusOf error status) }
{
    match error {
        LowerError::Pending(node) => Ok(pending_line(alloc, node)?),
        LowerError::Stopped(stop) => Ok(stop_line(alloc, &stop)?),
        LowerError::Refused(said) => Ok(report(alloc, said.as_slice())?),
        LowerError::Skipped => Ok(skipped_line(alloc)?),
        LowerError::TooLarge => Err(Status::TooLarge),
        LowerError::Malformed => Err(Status::Malformed),
        LowerError::OutOfMemory => Err(Status::OutOfMemory),
    }
}

/// Lowers the marked function of a unit that was read. An error is `Malformed`, of a unit that breaks a rule, or `OutOfMemory`.
fn outcome_of(alloc: Global, unit: &Unit) -> Result<Outcome, Status>
    requires read { IsRead (syntax unit.now.tree) }
    ensures outcome { IfOk result (λ outcome. IsOutcome outcome (syntax unit.now.tree)) }
    ensures status { IfErr result (RefusesUnit (syntax unit.now.tree)) }
{
    match lower_tree(alloc, unit) {
        Ok(lowered) => Ok(Outcome::Lowered(lowered)),
        Err(error) => match report_of(alloc, error) {
            Ok(text) => Ok(Outcome::Reported(text)),
            Err(status) => Err(status),
        },
    }
}

/// Reads the unit that the source has left, and lowers it: the call of a program that writes another form of the result than
/// the listing. An error is the exit status of a program that has nothing to write: `Malformed`, `TooLarge`, `ReadFault` or
/// `OutOfMemory`. What was read is gone from the source, on an error too.
pub fn lower_from<S: Source>(alloc: Global, source: &mut S) -> Result<Outcome, Status>
    ensures comes { IfOk result (λ outcome. ComesToKnown (S.left source.old) outcome) }
    ensures status { IfErr result (RefusesKnown (S.left source.old)) }
    ensures read { MatchResult result (λ _. ReadsWhole (S.left source.old) (S.left source.new)) (λ status. HasRead status → ReadsWhole (S.left source.old) (S.left source.new)) }
    ensures cause { IsErrOf result Status.ReadFault → Rose (S.faults source.old) (S.faults source.new) }
{
    let unit = match read_unit(alloc, source) {
        Ok(unit) => unit,
        Err(status) => return Err(status),
    };
    match outcome_of(alloc, &unit) {
        Ok(outcome) => Ok(outcome),
        Err(status) => Err(status),
    }
}

/// The output for an outcome: the listing of a result, or the report.
fn output_of(alloc: Global, outcome: Outcome) -> Result<Output, OutOfMemory>
    ensures status { IfOk result (λ output. output.status ≡ outcome_status outcome) }
    ensures text { IfOk result (λ output. output.text.items ≡ outcome_text outcome) }
{
    match outcome {
        Outcome::Lowered(lowered) => Ok(Output {
            status: Status::Done,
            text: listed(alloc, &lowered)?,
        }),
        Outcome::Reported(text) => Ok(Output {
            status: Status::Reported,
            text,
        }),
    }
}

/// Reads the unit that the source has left. The result is the output for it, or the status of a run without output. The unit is let go
/// behind its listing: where room for the listing is asked for right behind a tree's memory, an allocator first joins all its pieces.
fn answer<S: Source>(alloc: Global, source: &mut S) -> Result<Output, Status>
    ensures writes { IfOk result (λ output. WritesKnown (S.left source.old) output.status output.text.items) }
    ensures status { IfErr result (RefusesKnown (S.left source.old)) }
    ensures read { MatchResult result (λ _. ReadsWhole (S.left source.old) (S.left source.new)) (λ status. HasRead status → ReadsWhole (S.left source.old) (S.left source.new)) }
    ensures cause { IsErrOf result Status.ReadFault → Rose (S.faults source.old) (S.faults source.new) }
{
    let unit = match read_unit(alloc, source) {
        Ok(unit) => unit,
        Err(status) => return Err(status),
    };
    let outcome = match outcome_of(alloc, &unit) {
        Ok(outcome) => outcome,
        Err(status) => return Err(status),
    };
    match output_of(alloc, outcome) {
        Ok(output) => Ok(output),
        Err(OutOfMemory) => Err(Status::OutOfMemory),
    }
}

/// Runs the program: with `lower` as its one argument, lowers the unit that the source has left, and writes the listing or the
/// report to the sink. All memory is allocated before the first byte is written.
pub fn run<S: Source, K: Sink>(
    alloc: Global,
    words: &[String],
    source: &mut S,
    sink: &mut K,
) -> Status
    // Each status, by the arguments, the bytes that were left and the bytes that were written.
    ensures usage { (result ≢ Status.Usage) ↔ (map string_bytes words.now ≡ codes "lower" ∷ []) }
    ensures explained { Explains result (S.left source.old) (K.held sink.old) (K.held sink.new) }

    // A unit within the limits is lowered or reported, unless a fault or want of memory ends the run.
    ensures complete { map string_bytes words.now ≡ codes "lower" ∷ [] → IsComplete (S.left source.old) result }

    // The bytes that were read.
    ensures read { HasRead result → ReadsWhole (S.left source.old) (S.left source.new) }
    ensures unread { result ≡ Status.Usage → Keeps (S.left source.old) (S.left source.new) }

    // A fault ends the run only where one was counted.
    ensures read_cause { result ≡ Status.ReadFault → Rose (S.faults source.old) (S.faults source.new) }
    ensures write_cause { result ≡ Status.WriteFault → Rose (K.faults sink.old) (K.faults sink.new) }
{
    if !is_command(words) {
        return Status::Usage;
    }
    let output = match answer(alloc, source) {
        Ok(output) => output,
        Err(status) => return status,
    };
    match write_all(sink, output.text.as_slice()) {
        Ok(()) => output.status,
        Err(_) => Status::WriteFault,
    }
}

/// Runs the program over bytes in memory, and drops the output. Only allocations can fail, so each status but `OutOfMemory`
/// determines the bytes.
pub fn run_steady(alloc: Global, words: &[String], bytes: Vec<u8>) -> Status
    requires { map string_bytes words.now ≡ codes "lower" ∷ [] }
    ensures { AnswersSteadily bytes.items result }
{
    let mut source = SteadySource::new(bytes);
    let mut sink = SteadySink;
    run(alloc, words, &mut source, &mut sink)
}

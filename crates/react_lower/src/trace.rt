//! The command `trace`: runs a function of a unit by its source and by its graph, and compares the traces.

ghost use Rattle.std.specs.Prelude.{◌≡◌, ◌≢◌, ◌<◌, IfErr, IfOk, IsErrOf, MatchResult, None, Some};
ghost use Rattle.std.specs.Option.{option_map};
ghost use Rattle.react_lower.specs.Traced as traced;
ghost use Rattle.react_lower.specs.Traced.{IsCompared};
ghost use Rattle.rl_base.specs.declared.ids.NodeId.{NodeId as Id};
ghost use Rattle.rl_base.specs.Faults.{Rose};
ghost use Rattle.rl_unit.specs.Known.{ExplainsBy, IsCompleteBy, RefusesUnit, WritesBy};
ghost use Rattle.rl_model.specs.Source.{source_trace_of};
ghost use Rattle.rl_model.specs.Worlds.{function_in, graph_trace_of};
ghost use Rattle.rl_syntax.specs.Syntax.{syntax};
ghost use Rattle.rl_unit.specs.Answers.{HasRead, ReadsWhole, RefusesKnown};
ghost use Rattle.rl_unit.specs.Functions.{IsRead, IsUnitResult};

use rl_ast::unit::Unit;
use rl_base::error::OutOfMemory;
use rl_base::ids::{FunctionId, NodeId};
use rl_base::io::{Sink, Source, write_all};
use rl_base::steps::Steps;
use rl_graph_run::run::run_graph;
use rl_hir::function::Lowered;
use rl_machine::trace::Trace;
use rl_semantic::semantic::{RuleError, Semantic};
use rl_source_run::unit::run_source;
use rl_trace::error::RunError;
use rl_trace_text::words::Arguments;
use rl_unit::lines::{no_function, trace_line};
use rl_unit::read::read_unit;
use rl_unit::run::{Output, Status, report_of};
use rl_unit::unit::lower_tree;
use std::alloc::Global;
use std::marker::Brand;
use std::sync::ledger::{Blank, Ledger};

/// The traces of a function: by its source, and by its graph.
#[derive(Drop)]
pub struct Traces {
    /// The trace by the source.
    pub source: Trace,
    /// The trace by the graph.
    pub graph: Trace,
}

/// The lines of two traces, and whether they are equal: no two traces have one line. On `OutOfMemory`, an allocation failed.
fn compared(alloc: Global, source: &Trace, graph: &Trace) -> Result<Vec<u8>, OutOfMemory>
    ensures { IfOk result (λ text. IsCompared source.now graph.now text.items) }
{
    let mut text = trace_line(alloc, source)?;
    let line = trace_line(alloc, graph)?;
    let same = text.as_slice() == line.as_slice();
    text.extend_from_slice(line.as_slice())?;
    if same {
        text.extend_from_slice(b"same\n")?;
        return Ok(text);
    }
    text.extend_from_slice(b"differ\n")?;
    Ok(text)
}

/// The id of a function, by its number.
fn id_of(function: Option<u32>) -> Option<FunctionId>
    ensures { result ≡ traced.id_of function }
{
    match function {
        Some(number) => Some(FunctionId(number)),
        None => None,
    }
}

/// The trace of a function's graph, whose steps the ledger that `blank` becomes counts.
fn graph_trace_by<L: Ledger>(
    alloc: Global,
    lowered: &Lowered,
    arguments: &Arguments,
    blank: Blank,
) -> Result<Trace, RunError>
    requires name { blank.name ≡ L.name }
    requires parts { blank.parts ≡ L.parts }
    requires shared { 0 < blank.parts }
    ensures trace { IfOk result (λ t. graph_trace_of lowered.now (traced.id_of arguments.now.function) arguments.now.start
        arguments.now.args arguments.now.answers ≡ Some t) }
    ensures none { IsErrOf result RunError.NoFunction → function_in lowered.now (traced.id_of arguments.now.function) ≡ None }
{
    let mut steps = Steps::<L>::new(blank);
    run_graph(
        alloc,
        lowered,
        id_of(arguments.function),
        arguments.start.as_slice(),
        arguments.args.as_slice(),
        arguments.answers.as_slice(),
        &mut steps,
    )
}

/// The trace of a function's graph. On `NoFunction` the number names no function of the result, on `OutOfMemory` an allocation failed.
fn graph_trace(alloc: Global, lowered: &Lowered, arguments: &Arguments) -> Result<Trace, RunError>
    ensures trace { IfOk result (λ t. graph_trace_of lowered.now (traced.id_of arguments.now.function) arguments.now.start
        arguments.now.args arguments.now.answers ≡ Some t) }
    ensures none { IsErrOf result RunError.NoFunction → function_in lowered.now (traced.id_of arguments.now.function) ≡ None }
{
    graph_trace_by::<Brand>(alloc, lowered, arguments, Blank::new(1))
}

/// The node of a function of a result, by its number; none for the marked function, and none where there is no such function.
fn node_of(lowered: &Lowered, function: Option<u32>) -> Option<NodeId>
    ensures { option_map (λ (n : Id). n.0) result ≡ traced.node_of lowered.now function }
{
    match function {
        None => None,
        Some(number) => match lowered.inner.as_slice().get(number as usize) {
            Some(inner) => Some(inner.node),
            None => None,
        },
    }
}

/// The traces of a function of a unit that was lowered. On `NoFunction` the number names no function of the result, on `OutOfMemory` an
/// allocation failed.
fn traces_of(
    alloc: Global,
    unit: &Unit,
    lowered: &Lowered,
    arguments: &Arguments,
) -> Result<Traces, RunError>
    requires lowers { IsUnitResult (syntax unit.now.tree) lowered.now }
    ensures source { IfOk result (λ t. source_trace_of (syntax unit.now.tree) (traced.node_of lowered.now arguments.now.function)
        arguments.now.start arguments.now.args arguments.now.answers ≡ Some t.source) }
    ensures graph { IfOk result (λ t. graph_trace_of lowered.now (traced.id_of arguments.now.function) arguments.now.start
        arguments.now.args arguments.now.answers ≡ Some t.graph) }
    ensures none { IsErrOf result RunError.NoFunction → function_in lowered.now (traced.id_of arguments.now.function) ≡ None }
{
    let graph = match graph_trace(alloc, lowered, arguments) {
        Ok(graph) => graph,
        Err(error) => return Err(error),
    };
    let semantic = match Semantic::of(alloc, unit) {
        Ok(semantic) => semantic,
        Err(RuleError::Malformed(_)) => unreachable!(),
        Err(RuleError::OutOfMemory) => return Err(RunError::OutOfMemory),
    };
    match run_source(
        alloc,
        unit,
        &semantic,
        node_of(lowered, arguments.function),
        arguments.start.as_slice(),
        arguments.args.as_slice(),
        arguments.answers.as_slice(),
    ) {
        Ok(source) => Ok(Traces { source, graph }),
        Err(RunError::NoFunction) => unreachable!(),
        Err(RunError::OutOfMemory) => Err(RunError::OutOfMemory),
    }
}

/// The output for a unit that was lowered: the three lines, or that the number names no function. On `OutOfMemory`, an allocation failed.
fn output_of(
    alloc: Global,
    unit: &Unit,
    lowered: &Lowered,
    arguments: &Arguments,
) -> Result<Output, OutOfMemory>
    requires lowers { IsUnitResult (syntax unit.now.tree) lowered.now }
    ensures { IfOk result (λ o. traced.IsTraceOutput arguments.now o.status (syntax unit.now.tree) o.text.items) }
{
    match traces_of(alloc, unit, lowered, arguments) {
        Ok(traces) => Ok(Output {
            status: Status::Done,
            text: compared(alloc, &traces.source, &traces.graph)?,
        }),
        Err(RunError::NoFunction) => Ok(Output {
            status: Status::Reported,
            text: no_function(alloc)?,
        }),
        Err(RunError::OutOfMemory) => Err(OutOfMemory),
    }
}

/// The output for a unit that was read. An error is `Malformed`, of a unit that breaks a rule, or `OutOfMemory`.
fn unit_output(alloc: Global, unit: &Unit, arguments: &Arguments) -> Result<Output, Status>
    requires read { IsRead (syntax unit.now.tree) }
    ensures output { IfOk result (λ o. traced.IsTraceOutput arguments.now o.status (syntax unit.now.tree) o.text.items) }
    ensures status { IfErr result (RefusesUnit (syntax unit.now.tree)) }
{
    match lower_tree(alloc, unit) {
        Ok(lowered) => match output_of(alloc, unit, &lowered, arguments) {
            Ok(output) => Ok(output),
            Err(OutOfMemory) => Err(Status::OutOfMemory),
        },
        Err(error) => match report_of(alloc, error) {
            Ok(text) => Ok(Output {
                status: Status::Reported,
                text,
            }),
            Err(status) => Err(status),
        },
    }
}

/// Reads the unit that the source has left. The result is the output for it, or the status of a run without output.
fn answer<S: Source>(alloc: Global, source: &mut S, arguments: &Arguments) -> Result<Output, Status>
    ensures writes { IfOk result (λ o. WritesBy (traced.IsTraceOutput arguments.now) (S.left source.old) o.status o.text.items) }
    ensures status { IfErr result (RefusesKnown (S.left source.old)) }
    ensures read { MatchResult result (λ _. ReadsWhole (S.left source.old) (S.left source.new))
        (λ status. HasRead status → ReadsWhole (S.left source.old) (S.left source.new)) }
    ensures cause { IsErrOf result Status.ReadFault → Rose (S.faults source.old) (S.faults source.new) }
{
    let unit = match read_unit(alloc, source) {
        Ok(unit) => unit,
        Err(status) => return Err(status),
    };
    match unit_output(alloc, &unit, arguments) {
        Ok(output) => Ok(output),
        Err(status) => Err(status),
    }
}

/// Runs the command `trace`: lowers the unit that the source has left as `lower` does, and writes to the sink the trace of a function by
/// its source, that by its graph, and whether they are the same; or the report. All memory is allocated before the first byte is written.
pub fn trace<S: Source, K: Sink>(
    alloc: Global,
    arguments: &Arguments,
    source: &mut S,
    sink: &mut K,
) -> Status
    ensures explained { ExplainsBy (traced.IsTraceOutput arguments.now) result (S.left source.old) (K.held sink.old) (K.held sink.new) }
    ensures complete { IsCompleteBy (traced.IsTraceAnswer arguments.now) (S.left source.old) result }
    ensures command { result ≢ Status.Usage }
    ensures read { HasRead result → ReadsWhole (S.left source.old) (S.left source.new) }
    ensures read_cause { result ≡ Status.ReadFault → Rose (S.faults source.old) (S.faults source.new) }
    ensures write_cause { result ≡ Status.WriteFault → Rose (K.faults sink.old) (K.faults sink.new) }
{
    let output = match answer(alloc, source, arguments) {
        Ok(output) => output,
        Err(status) => return status,
    };
    match write_all(sink, output.text.as_slice()) {
        Ok(()) => output.status,
        Err(_) => Status::WriteFault,
    }
}

//! Runs of the functions of a result.

ghost use Rattle.std.specs.Prelude.{◌≡◌, ◌+◌, ◌↔◌, IfOk, Some, None, IsErrOf};
ghost use Rattle.rl_hir.specs.Pairs.{identifier_of};
ghost use Rattle.rl_model.specs.Runs.{function_trace};
ghost use Rattle.rl_model.specs.Worlds.{function_in, graph_trace_of, others_in};
ghost use Rattle.rl_model.specs.Worlds as worlds;
ghost use Rattle.rl_graph_run.specs.Steps.{graph_steps_of};
ghost use Rattle.rl_graph_steps.specs.Graphs.{steps_in};

use crate::others::function_of;
use crate::world::world_in;
use rl_base::error::OutOfMemory;
use rl_base::ids::FunctionId;
use rl_base::steps::Steps;
use rl_graph_steps::graph::run_function;
use rl_hir::blocks::GraphBlocks;
use rl_hir::function::{HirFunction, Lowered};
use rl_machine::trace::{Answer, Assignment, Trace, Value};
use rl_trace::error::RunError;
use rl_trace::shared::{Numbers, Shared};
use std::alloc::Global;
use std::sync::ledger::Ledger;

/// Runs a function of a result, and counts the steps. On `OutOfMemory` an allocation failed.
fn run_found<L: Ledger>(
    alloc: Global,
    lowered: &Lowered,
    function: Option<FunctionId>,
    graph: &HirFunction<GraphBlocks>,
    start: &[Assignment],
    arguments: &[Value],
    answers: &[Answer],
    steps: &mut Steps<L>,
) -> Result<Trace, OutOfMemory>
    ensures trace { IfOk result (λ trace. trace
        ≡ function_trace (worlds.world_in lowered.now graph.now (others_in lowered.now function)) graph.now lowered.now.pairs start.now
        arguments.now answers.now) }
    ensures steps { IfOk result (λ trace. steps.new
        ≡ steps.old + steps_in graph.now (identifier_of lowered.now.pairs) (worlds.world_in lowered.now graph.now (others_in
        lowered.now function)) start.now arguments.now answers.now) }
{
    let world = world_in(alloc, lowered, function, graph)?;
    let identifiers = world.numbers.as_slice();
    let opens = world.opens.as_slice();
    let kept = world.keeps.as_slice();
    let shared = Shared {
        numbers: Numbers::Identifiers(identifiers),
        open: opens,
        kept,
    };
    let count = lowered.identifiers.len();
    let trace = run_function(
        alloc, graph, shared, count, start, arguments, answers, steps,
    )?;
    Ok(trace)
}

/// Runs the graph of a function of a result: that of the inner function with an id, or of the marked function. `start` are the values
/// of variables before the run, `arguments` those of the parameters, and `answers` what the outside gives to the events that the run
/// asks, in order. Each step of the machine is counted. On `NoFunction` the id is that of no inner function; on `OutOfMemory` an
/// allocation failed.
pub fn run_graph<L: Ledger>(
    alloc: Global,
    lowered: &Lowered,
    function: Option<FunctionId>,
    start: &[Assignment],
    arguments: &[Value],
    answers: &[Answer],
    steps: &mut Steps<L>,
) -> Result<Trace, RunError>
    ensures trace { IfOk result (λ trace. graph_trace_of lowered.now function start.now arguments.now answers.now ≡ Some trace) }
    ensures steps { IfOk result (λ trace. steps.new ≡ steps.old + graph_steps_of lowered.now function start.now arguments.now answers.now) }
    ensures none { IsErrOf result RunError.NoFunction ↔ (function_in lowered.now function ≡ None) }
{
    match function_of(lowered, function) {
        Some(graph) => match run_found(
            alloc, lowered, function, graph, start, arguments, answers, steps,
        ) {
            Ok(trace) => Ok(trace),
            Err(_) => Err(RunError::OutOfMemory),
        },
        None => Err(RunError::NoFunction),
    }
}

//! Runs of functions.

ghost use Rattle.std.specs.Prelude.{◌≡◌, ◌+◌, ◌<◌, ◌≤◌, IfOk, length, map};
ghost use Rattle.rl_machine.specs.Machine.{positions, steps_for};
ghost use Rattle.rl_machine.specs.Traces as traces;
ghost use Rattle.rl_graph_steps.specs.Graphs.{begins, parameter, steps_in, trace_of};
ghost use Rattle.rl_graph_steps.specs.Runs.{steps_of};
ghost use Rattle.rl_graph_steps.specs.States.{ended, state_of, takes, took};
ghost use Rattle.rl_trace.specs.Progress.{after};
ghost use Rattle.rl_trace.specs.Shared.{ident_of, world_of};

use crate::fuel::Fuel;
use crate::machine::{Goes, Machine, Run};
use crate::note::Notes;
use rl_base::error::OutOfMemory;
use rl_base::steps::Steps;
use rl_hir::blocks::{Blocks, GraphBlocks};
use rl_hir::function::{BasicBlock, HirFunction, Param};
use rl_hir::instruction::Place;
use rl_machine::trace::{Answer, Assignment, Ending, Trace, Value};
use rl_trace::progress::Progress;
use rl_trace::shared::Shared;
use std::alloc::Global;
use std::sync::ledger::Ledger;

/// The positions of a block: its instructions and its end.
fn positions_in(block: &BasicBlock) -> u128
    ensures count { result ≡ 1 + length block.now.instructions }
    ensures fits { result ≤ 18446744073709551616 }
{
    1 + block.instructions.len() as u128
}

/// The number of blocks and of the instructions that they list.
fn positions(blocks: &GraphBlocks) -> u128
    ensures count { result ≡ positions blocks.now }
    ensures fits { result < 340282366920938463463374607431768211455 }
{
    let mut count = 0u128;
    for index in 0..blocks.len() {
        let (_, block) = blocks.at(index);
        let more = positions_in(block);
        count += more;
    }
    count
}

/// The place that takes the argument of a parameter.
fn place_of(param: &Param) -> Place
    ensures { result.identifier.0 ≡ parameter param.now }
{
    match param {
        Param::Place(place) => *place,
        Param::Spread(place) => *place,
    }
}

/// The machine of a function.
fn machine_of<'b>(function: &'b HirFunction<GraphBlocks>) -> Machine<'b>
    ensures blocks { result.blocks.now ≡ function.entry.now.body.blocks }
    ensures table { result.table.now ≡ function.entry.now.instructions }
{
    Machine {
        blocks: &function.body.blocks,
        table: function.instructions.as_slice(),
    }
}

/// All steps that a run of these blocks with these answers may make.
#[tactic(auto, using(crate::proofs::Functions::fuel_steps))]
fn fuel_for(blocks: &GraphBlocks, answers: &[Answer]) -> Fuel
    ensures most { result.most ≡ positions blocks.now }
    ensures steps { steps_of result ≡ steps_for answers.now (positions blocks.now) }
    ensures quiet { result.quiet ≡ positions blocks.now }
{
    let most = positions(blocks);
    Fuel {
        most,
        rounds: answers.len(),
        within: most + 1,
        quiet: most,
    }
}

impl<'b> Machine<'b> {
    /// Gives parameters their arguments, from left to right. On `OutOfMemory` an allocation failed.
    fn take_arguments(
        &self,
        run: &mut Run<'b>,
        params: &[Param],
        arguments: &'b [Value],
    ) -> Result<&'b [Value], OutOfMemory>
        ensures { IfOk result (λ rest. took rest.now (state_of self.now run.new)
            ≡ takes (map parameter params.now) (took arguments.entry.now (state_of self.now run.old))) }
    {
        let mut left = arguments;
        for param in params {
            left = self.take(run, place_of(param), left)?;
        }
        Ok(left)
    }

    /// A run that begins, with entries for the variables below `count`: the start values are set, and the parameters have their
    /// arguments. On `OutOfMemory` an allocation failed.
    fn begin(
        &self,
        alloc: Global,
        shared: Shared<'b>,
        count: usize,
        params: &[Param],
        start: &'b [Assignment],
        arguments: &'b [Value],
        answers: &'b [Answer],
    ) -> Result<Run<'b>, OutOfMemory>
        ensures { IfOk result (λ run. state_of self.now run
            ≡ begins self.now.blocks.now self.now.table.now shared.entry (map parameter params.now) start.entry.now arguments.entry.now answers.entry.now) }
    {
        let notes = Notes::new(alloc);
        let mut progress = Progress::new(alloc, shared, answers, count)?;
        progress.begin(start)?;
        let mut run = Run { notes, progress };
        self.take_arguments(&mut run, params, arguments)?;
        Ok(run)
    }

    /// The ending of a run that went so. On `OutOfMemory` an allocation failed.
    fn ending(&self, run: &Run<'b>, goes: Goes<'b>) -> Result<Ending, OutOfMemory>
        ensures { IfOk result (λ ending. after (state_of self.now run.now).seen.events (traces.ended ending)
            ≡ ended goes.entry (state_of self.now run.now)) }
    {
        match goes {
            Goes::Returned(variant, value) => {
                let kept = run.progress.kept()?;
                let value = value.copy(run.progress.alloc)?;
                Ok(Ending::Returned {
                    variant,
                    value,
                    kept,
                })
            }
            Goes::Threw(value) => Ok(Ending::Threw(value.copy(run.progress.alloc)?)),
            Goes::Silently(_, _) => Ok(Ending::Waiting),
            Goes::Loudly(_, _) => Ok(Ending::Waiting),
            Goes::Waiting => Ok(Ending::Waiting),
        }
    }

    /// The trace of a run that went so. On `OutOfMemory` an allocation failed.
    fn end(&self, run: Run<'b>, goes: Goes<'b>) -> Result<Trace, OutOfMemory>
        ensures { IfOk result (λ trace. trace ≡ ended goes.entry (state_of self.now run.entry)) }
    {
        let ending = self.ending(&run, goes)?;
        Ok(run.progress.end(ending))
    }
}

/// Runs the graph of a function in a world, from start values, arguments and answers, and counts its steps. `count` is the number of
/// identifiers of the unit. On `OutOfMemory` an allocation failed.
pub fn run_function<'b, L: Ledger>(
    alloc: Global,
    function: &'b HirFunction<GraphBlocks>,
    shared: Shared<'b>,
    count: usize,
    start: &'b [Assignment],
    arguments: &'b [Value],
    answers: &'b [Answer],
    steps: &mut Steps<L>,
) -> Result<Trace, OutOfMemory>
    ensures trace { IfOk result (λ trace. trace
        ≡ trace_of function.entry.now (ident_of shared.entry.numbers) (world_of shared.entry) start.entry.now arguments.entry.now
        answers.entry.now) }
    ensures steps { IfOk result (λ trace. steps.new
        ≡ steps.old + steps_in function.entry.now (ident_of shared.entry.numbers) (world_of shared.entry) start.entry.now
        arguments.entry.now answers.entry.now) }
{
    let machine = machine_of(function);
    let fuel = fuel_for(&function.body.blocks, answers);
    let params = function.params.as_slice();
    let mut begun = machine.begin(alloc, shared, count, params, start, arguments, answers)?;
    let goes = machine.run(&mut begun, function.body.entry, fuel, steps)?;
    let trace = machine.end(begun, goes)?;
    Ok(trace)
}

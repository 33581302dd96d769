//! Runs of the source of `while (n < n) g();`.

ghost use Rattle.rl_syntax.specs.Syntax.{syntax};
ghost use Rattle.rl_worlds.specs.Units.{IsSemanticOf};

use crate::loop_answers::answers_of;
use crate::loop_times::LoopTimes;
use anyhow::Result;
use rl_ast::read::read_tree;
use rl_ast::unit::Unit;
use rl_base::list::List;
use rl_machine::trace::{Trace, Value};
use rl_semantic::semantic::Semantic;
use rl_source_run::unit::run_source;
use rl_trace::error::RunError;
use std::alloc::Global;
use std::time::{Duration, Instant};

/// The unit whose marked function is the loop.
const UNIT: &str =
    "(unit [] (program [(fundecl y n n (bind \"f\" -) (params [(param (bind \"n\" -) -)] -) \
    (body [] [(while (binary \"<\" (id \"n\") (id \"n\")) (expr (call n (id \"g\") [])))]))]))";

/// A run of the loop from the argument 7.
fn run(alloc: Global, unit: &Unit, semantic: &Semantic<'_>, turns: u32) -> Result<Trace, RunError>
    requires { IsSemanticOf semantic.now (syntax unit.now.tree) }
{
    let answers = answers_of(alloc, turns)?;
    let mut arguments = List::new(alloc);
    arguments.push(Value::Given(7))?;
    run_source(
        alloc,
        unit,
        semantic,
        None,
        &[],
        arguments.as_slice(),
        answers.as_slice(),
    )
}

/// The trace of so many turns.
pub fn trace_of(alloc: Global, turns: u32) -> Result<Trace> {
    let unit = read_tree(alloc, UNIT.as_bytes())?;
    let semantic = Semantic::of(alloc, &unit)?;
    Ok(run(alloc, &unit, &semantic, turns)?)
}

/// The number of events of so many turns, and of the shortest of `runs` runs the nanoseconds, with the time to make the answers. The
/// longest duration without a run.
pub fn times_of(rt: &HostRuntime, turns: u32, runs: u32) -> Result<LoopTimes> {
    let unit = read_tree(rt.alloc(), UNIT.as_bytes())?;
    let semantic = Semantic::of(rt.alloc(), &unit)?;
    let mut least = Duration::MAX;
    let mut events = 0;
    for _run in 0..runs {
        let start = Instant::now(rt)?;
        let trace = run(rt.alloc(), &unit, &semantic, turns)?;
        least = least.min(start.elapsed(rt)?);
        events = trace.events.len();
    }
    Ok(LoopTimes { events, least })
}

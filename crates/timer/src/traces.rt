//! A loop, `while (n < n) g();`, that runs by its graph and by its source.

use crate::loop_times::LoopTimes;
use crate::{loop_graph, loop_source};
use anyhow::Result;
use rl_machine::trace::Trace;
use rl_trace::error::RunError;
use rl_trace_text::write::write_trace;
use std::alloc::Global;

/// Number of turns of the loop whose traces are written.
const FEW: u32 = 2;

/// The text of a trace. On `OutOfMemory` an allocation failed.
fn text_of(alloc: Global, trace: &Trace) -> Result<Vec<u8>, RunError> {
    let mut text = Vec::new(alloc);
    write_trace(trace, &mut text)?;
    Ok(text)
}

/// Writes a trace.
fn print_trace(rt: &HostRuntime, trace: &Trace) -> Result<()> {
    let text = text_of(rt.alloc(), trace)?;
    let text = String::from_utf8(text)?;
    println!(rt; "{text}")?;
    Ok(())
}

/// Writes the traces of a few turns, by the graph and by the source.
pub fn print_traces(rt: &HostRuntime) -> Result<()> {
    print_trace(rt, &loop_graph::trace_of(rt.alloc(), FEW)?)?;
    print_trace(rt, &loop_source::trace_of(rt.alloc(), FEW)?)
}

/// Writes the number of events of a run, and the nanoseconds of the shortest.
fn print_run(rt: &HostRuntime, times: &LoopTimes) -> Result<()> {
    let events = times.events;
    let least = times.least.as_nanos();
    println!(rt; "{events} {least}")?;
    Ok(())
}

/// Writes a line for the runs by the graph, and one for those by the source.
pub fn print_times(rt: &HostRuntime, turns: u32, runs: u32) -> Result<()> {
    print_run(rt, &loop_graph::times_of(rt, turns, runs)?)?;
    print_run(rt, &loop_source::times_of(rt, turns, runs)?)
}

//! The ordering of blocks and the passes behind it, timed on made graphs.

use crate::sequence::{Times, least_times, steps_of};
use crate::shapes::{SHAPES, Shape};
use crate::tables::Table;
use anyhow::Result;
use rl_hir::blocks::MapBlocks;
use rl_hir::dense_blocks::DenseBlocks;

/// Number of blocks of the small graphs.
const FEW: u32 = 400;

/// The table and the shape of a graph, its number of blocks, and the number of calls.
#[derive(Clone, Copy)]
pub struct MadeGraph {
    pub table: Table,
    pub shape: Shape,
    pub size: u32,
    pub calls: u32,
}

/// Writes for a small graph of each shape its name, its blocks, those that the ordering keeps, and the steps that it takes.
pub fn print_steps(rt: &HostRuntime) -> Result<()> {
    for shape in SHAPES {
        let counts = steps_of(rt.alloc(), shape, FEW)?;
        let name = shape.name();
        println!(rt; "{name} {} {} {}", counts.blocks, counts.kept, counts.steps)?;
    }
    Ok(())
}

/// The shortest times of a graph, in its table.
fn times_of(rt: &HostRuntime, wanted: &MadeGraph) -> Result<Times> {
    let times = match wanted.table {
        Table::Map => least_times::<MapBlocks>(rt, wanted.shape, wanted.size, wanted.calls)?,
        Table::Dense => least_times::<DenseBlocks>(rt, wanted.shape, wanted.size, wanted.calls)?,
    };
    Ok(times)
}

/// Writes the number of blocks and of steps, and of the shortest calls the nanoseconds of the ordering, of the three removals, of the
/// numbering, of the predecessors and of the whole sequence.
pub fn print_times(rt: &HostRuntime, wanted: &MadeGraph) -> Result<()> {
    let counts = steps_of(rt.alloc(), wanted.shape, wanted.size)?;
    let least = times_of(rt, wanted)?;
    println!(rt;
        "{} {} {} {} {} {} {}",
        counts.blocks,
        counts.steps,
        least.ordering.as_nanos(),
        least.removals.as_nanos(),
        least.numbering.as_nanos(),
        least.predecessors.as_nanos(),
        least.whole.as_nanos()
    )?;
    Ok(())
}

//! The ordering of a graph and the passes behind it, timed and counted.

ghost use Rattle.std.specs.Prelude.{◌≡◌, ◌<◌};

use crate::counted::CountedBlocks;
use crate::graph::Graph;
use crate::shapes::{Shape, make};
use rl_base::error::OutOfMemory;
use rl_base::steps::Steps;
use rl_hir::blocks::Blocks;
use rl_hir::function::Hir;
use rl_order::checks::{has_orders, is_whole};
use rl_order::numbering::mark_instruction_ids;
use rl_order::order::get_reverse_postordered_blocks;
use rl_order::predecessors::mark_predecessors;
use rl_order::prune::remove_dead_ends;
use std::alloc::Global;
use std::io;
use std::marker::Brand;
use std::sync::ledger::{Blank, Ledger};
use std::time::{Duration, Instant};
use thiserror::Error;

/// A cause for which nothing is timed.
#[derive(Debug, Drop, Clone, Copy, PartialEq, Eq, Error)]
pub enum SequenceError {
    /// An allocation failed.
    #[error("an allocation failed")]
    OutOfMemory,
    /// A block leads to one that the graph does not have.
    #[error("a block is missing")]
    Missing,
    /// The graph has more instructions than there are orders.
    #[error("there are too many instructions")]
    TooMany,
    /// The clock was not read.
    #[error("the clock was not read")]
    Clock,
}

impl From<OutOfMemory> for SequenceError {
    fn from(_e: OutOfMemory) -> SequenceError {
        SequenceError::OutOfMemory
    }
}

impl From<io::Error> for SequenceError {
    fn from(_e: io::Error) -> SequenceError {
        SequenceError::Clock
    }
}

/// Durations of the parts of the sequence, and of all of it.
#[derive(Clone, Copy)]
pub struct Times {
    pub whole: Duration,
    pub ordering: Duration,
    pub removals: Duration,
    pub numbering: Duration,
    pub predecessors: Duration,
}

impl Times {
    /// The longest durations.
    fn longest() -> Times {
        Times {
            whole: Duration::MAX,
            ordering: Duration::MAX,
            removals: Duration::MAX,
            numbering: Duration::MAX,
            predecessors: Duration::MAX,
        }
    }

    /// The shorter one of each duration.
    fn least(self, other: Times) -> Times {
        Times {
            whole: self.whole.min(other.whole),
            ordering: self.ordering.min(other.ordering),
            removals: self.removals.min(other.removals),
            numbering: self.numbering.min(other.numbering),
            predecessors: self.predecessors.min(other.predecessors),
        }
    }
}

/// Numbers of the blocks of a graph, of those that the ordering keeps, and of the steps that it takes.
#[derive(Clone, Copy)]
pub struct Counts {
    pub blocks: usize,
    pub kept: usize,
    pub steps: u64,
}

/// Runs the sequence on a graph, with a ledger for its steps.
fn times_by<B: Blocks, L: Ledger>(
    rt: &HostRuntime,
    graph: &mut Graph<B>,
    blank: Blank,
) -> Result<Times, SequenceError>
    requires name { blank.name ≡ L.name }
    requires parts { blank.parts ≡ L.parts }
    requires shared { 0 < blank.parts }
{
    let alloc = rt.alloc();
    if !is_whole(alloc, &graph.hir)? {
        return Err(SequenceError::Missing);
    }
    let mut steps = Steps::<L>::new(blank);
    let start = Instant::now(rt)?;
    let blocks = get_reverse_postordered_blocks(alloc, &graph.hir, &mut steps)?;
    let ordering = start.elapsed(rt)?;
    let mut ordered = Hir {
        entry: graph.hir.entry,
        blocks,
    };
    let start = Instant::now(rt)?;
    remove_dead_ends(alloc, &mut ordered)?;
    let removals = start.elapsed(rt)?;
    if !has_orders(&ordered, graph.table.len()) {
        return Err(SequenceError::TooMany);
    }
    let start = Instant::now(rt)?;
    mark_instruction_ids(&mut ordered, graph.table.as_mut_slice());
    let numbering = start.elapsed(rt)?;
    let start = Instant::now(rt)?;
    mark_predecessors(alloc, &mut ordered)?;
    let predecessors = start.elapsed(rt)?;
    let whole = ordering
        .saturating_add(removals)
        .saturating_add(numbering)
        .saturating_add(predecessors);
    Ok(Times {
        whole,
        ordering,
        removals,
        numbering,
        predecessors,
    })
}

/// Runs the sequence on a graph, and tells how long it took.
fn time_once<B: Blocks>(rt: &HostRuntime, graph: &mut Graph<B>) -> Result<Times, SequenceError> {
    times_by::<B, Brand>(rt, graph, Blank::new(1))
}

/// Runs the sequence on a graph of a shape as often as there are calls, and tells how long it took at least. The longest durations
/// without a call.
pub fn least_times<B: Blocks>(
    rt: &HostRuntime,
    shape: Shape,
    size: u32,
    calls: u32,
) -> Result<Times, SequenceError> {
    let mut graph = make::<B>(rt.alloc(), shape, size)?;
    let mut least = Times::longest();
    for _call in 0..calls {
        least = least.least(time_once(rt, &mut graph)?);
    }
    Ok(least)
}

/// Orders a graph of a shape, with a ledger for its steps.
fn steps_by<L: Ledger>(
    alloc: Global,
    shape: Shape,
    size: u32,
    blank: Blank,
) -> Result<Counts, SequenceError>
    requires name { blank.name ≡ L.name }
    requires parts { blank.parts ≡ L.parts }
    requires shared { 0 < blank.parts }
{
    let graph = make::<CountedBlocks>(alloc, shape, size)?;
    if !is_whole(alloc, &graph.hir)? {
        return Err(SequenceError::Missing);
    }
    let before = graph.hir.blocks.looked_up();
    let mut steps = Steps::<L>::new(blank);
    let ordered = get_reverse_postordered_blocks(alloc, &graph.hir, &mut steps)?;
    let kept = ordered.len();
    let looked_up = graph.hir.blocks.looked_up().saturating_sub(before);
    Ok(Counts {
        blocks: graph.hir.blocks.len(),
        kept,
        steps: looked_up.saturating_sub(kept as u64),
    })
}

/// Orders a graph of a shape, and counts its steps. At each step the ordering looks up one block, and each block that was visited
/// once more; in these graphs those are the blocks that are kept.
pub fn steps_of(alloc: Global, shape: Shape, size: u32) -> Result<Counts, SequenceError> {
    steps_by::<Brand>(alloc, shape, size, Blank::new(1))
}

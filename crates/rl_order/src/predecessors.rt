//! The predecessors of blocks.

ghost use Rattle.std.specs.Prelude.{◌≡◌, ◌≤◌, ◌++◌, ◌∷◌, [], IfOk, IsTrue, OnOk, OnErr, length, reverse, vec_len};
ghost use Rattle.indexmap.specs.IndexSet.{insert_all};
ghost use Rattle.rl_hir.specs.Blocks.{same_id};
ghost use Rattle.rl_order.specs.PredecessorWalk.{IsMarked, WalksAlong, distinct_ids, edges_from, source_lists};
ghost use Rattle.rl_order.specs.Predecessors.{PredecessorsReached};
ghost use Rattle.rl_order.specs.Walked.{Goes, left_of, trail_of, with_lists, with_source, worklist};

use crate::indices::{index_by_id, take_block};
use crate::room::set_with_room;
use rl_base::error::OutOfMemory;
use rl_base::ids::BlockId;
use rl_base::list::List;
use rl_hir::block_sets::{BlockSet, new_set};
use rl_hir::blocks::Blocks;
use rl_hir::function::{BasicBlock, Hir};
use rl_hir::terminal::{Terminal, each_terminal_successor};
use std::alloc::Global;

/// A block, and a block to which its terminal may lead.
#[derive(Clone, Copy)]
pub struct Edge {
    /// The block that leads on.
    pub from: BlockId,
    /// A successor of it.
    pub to: BlockId,
}

/// The state of a walk along the edges of a graph, depth first.
#[derive(Drop)]
struct Walk {
    /// The blocks that were visited.
    seen: BlockSet,
    /// The edges that were followed, in this order.
    edges: Vec<Edge>,
    /// The edges that are left; the last one is followed next.
    left: Vec<Edge>,
}

/// True of at most two ids, none of them twice.
fn are_few(ids: &[BlockId]) -> bool
    ensures { IsTrue result → insert_all same_id [] ids.now ≡ ids.now }
{
    match ids {
        [] => true,
        [_] => true,
        [first, second] => first.0 != second.0,
        _ => false,
    }
}

/// The ids, each once, in order. On `OutOfMemory`, an allocation failed.
fn each_once(alloc: Global, ids: &[BlockId]) -> Result<Vec<BlockId>, OutOfMemory>
    ensures { IfOk result (λ once. once.items ≡ insert_all same_id [] ids.now) }
{
    let mut distinct = new_set(alloc);
    for id in ids {
        distinct.insert(*id)?;
    }
    Ok(Vec::from_slice(alloc, distinct.as_slice())?)
}

/// The successors of a terminal, each once, in order. On `OutOfMemory`, an allocation failed.
fn distinct_successors(alloc: Global, terminal: &Terminal) -> Result<Vec<BlockId>, OutOfMemory>
    ensures { IfOk result (λ ids. ids.items ≡ distinct_ids terminal.now) }
{
    let successors = each_terminal_successor(alloc, terminal)?;
    if are_few(successors.as_slice()) {
        return Ok(successors);
    }
    each_once(alloc, successors.as_slice())
}

/// Leaves the edges from a block to be followed next. On `OutOfMemory`, an allocation failed.
fn leave_edges(
    alloc: Global,
    left: &mut Vec<Edge>,
    from: BlockId,
    block: &BasicBlock,
) -> Result<(), OutOfMemory>
    ensures { OnOk result (reverse left.new.items ≡ edges_from from block.now ++ reverse left.old.items) }
{
    let distinct = distinct_successors(alloc, &block.terminal)?;
    let successors = distinct.as_slice();
    for back in 0..successors.len() {
        let to = successors[successors.len() - 1 - back];
        left.push(Edge { from, to })?;
    }
    Ok(())
}

/// Follows an edge. On `OutOfMemory`, an allocation failed.
fn follow<B: Blocks>(
    alloc: Global,
    blocks: &B,
    walk: &mut Walk,
    edge: Edge,
) -> Result<(), OutOfMemory>
    ensures goes { OnOk result (Goes (B.pairs blocks.now) (edge ∷ worklist walk.old) (trail_of walk.old) (worklist walk.new) (trail_of walk.new)) }
    ensures falls { OnOk result (left_of (B.pairs blocks.now) walk.new ≤ left_of (B.pairs blocks.now) walk.old) }
{
    if let Some(block) = blocks.get(edge.to) {
        walk.edges.push(edge)?;
        if walk.seen.insert(edge.to)? {
            leave_edges(alloc, &mut walk.left, edge.to, block)?;
        }
    }
    Ok(())
}

/// The edges that the walk from the entry follows, found with a stack of edges in a vector and without recursion. On `OutOfMemory`, an
/// allocation failed.
fn walk_along<B: Blocks>(
    alloc: Global,
    blocks: &B,
    entry: BlockId,
) -> Result<Vec<Edge>, OutOfMemory>
    ensures { IfOk result (λ edges. WalksAlong (B.pairs blocks.now) entry edges.items) }
{
    let mut walk = Walk {
        seen: set_with_room(alloc, blocks.len())?,
        edges: Vec::with_capacity(alloc, blocks.len())?,
        left: Vec::new(alloc),
    };
    walk.seen.insert(entry)?;
    if let Some(block) = blocks.get(entry) {
        leave_edges(alloc, &mut walk.left, entry, block)?;
    }
    while let Some(edge) = walk.left.pop() {
        follow(alloc, blocks, &mut walk, edge)?;
    }
    Ok(walk.edges)
}

/// As many empty lists as there are blocks. On `OutOfMemory`, an allocation failed.
fn empty_lists<B: Blocks>(alloc: Global, blocks: &B) -> Result<Vec<List<BlockId>>, OutOfMemory>
    ensures { IfOk result (λ lists. lists.items ≡ source_lists [] (B.pairs blocks.now)) }
{
    let mut lists = Vec::with_capacity(alloc, blocks.len())?;
    for _ in 0..blocks.len() {
        lists.push(List::new(alloc))?;
    }
    Ok(lists)
}

/// Appends a source to the list at an index, if there is one. On `OutOfMemory`, an allocation failed.
fn add_source(
    lists: &mut Vec<List<BlockId>>,
    index: Option<usize>,
    from: BlockId,
) -> Result<(), OutOfMemory>
    ensures { OnOk result (lists.new.items ≡ with_source index from lists.old.items) }
{
    if let Some(index) = index
        && index < lists.len()
    {
        lists[index].push(from)?;
    }
    Ok(())
}

/// The sources of the edges to each block, in block order. On `OutOfMemory`, an allocation failed.
fn predecessor_lists<B: Blocks>(
    alloc: Global,
    blocks: &B,
    edges: &[Edge],
) -> Result<Vec<List<BlockId>>, OutOfMemory>
    ensures { IfOk result (λ lists. lists.items ≡ source_lists edges.now (B.pairs blocks.now)) }
{
    let indices = index_by_id(alloc, blocks)?;
    let mut lists = empty_lists(alloc, blocks)?;
    for edge in edges {
        add_source(&mut lists, indices.get_index_of(&edge.to), edge.from)?;
    }
    Ok(lists)
}

/// Makes the lists the predecessors of the first blocks.
fn set_predecessors<B: Blocks>(blocks: &mut B, lists: Vec<List<BlockId>>)
    requires { vec_len lists ≤ length (B.pairs blocks.old) }
    ensures { B.pairs blocks.new ≡ with_lists (B.pairs blocks.old) lists.items }
{
    let mut lists = lists;
    while let Some(list) = lists.pop() {
        let index = lists.len();
        let mut block = take_block(blocks, index);
        block.preds = list;
        let _ = blocks.set_at(index, block);
    }
}

/// Gives each block its predecessors (`markPredecessors`): those that a walk over successors comes from, depth first from the entry, in
/// the order in which it comes from them. The walk has its stack in a vector, without recursion. Fallthroughs count only where they are
/// successors too. On `OutOfMemory`, an allocation failed, and nothing has changed.
pub fn mark_predecessors<B: Blocks>(alloc: Global, hir: &mut Hir<B>) -> Result<(), OutOfMemory>
    ensures entry { hir.new.entry ≡ hir.old.entry }
    ensures walked { OnOk result (IsMarked (B.pairs hir.old.blocks) hir.old.entry (B.pairs hir.new.blocks)) }
    ensures reached { OnOk result (PredecessorsReached (B.pairs hir.old.blocks) hir.old.entry (B.pairs hir.new.blocks)) }
    ensures err { OnErr result (B.pairs hir.new.blocks ≡ B.pairs hir.old.blocks) }
{
    let edges = walk_along(alloc, &hir.blocks, hir.entry)?;
    let lists = predecessor_lists(alloc, &hir.blocks, edges.as_slice())?;
    set_predecessors(&mut hir.blocks, lists);
    Ok(())
}

//! Tests of what the ordering and the numbering ask of a graph.

ghost use Rattle.std.specs.Prelude.{◌≡◌, ◌<◌, ◌↔◌, IsTrue, IfOk, All};
ghost use Rattle.std.specs.List.{list_all};
ghost use Rattle.rl_hir.specs.Terminals.{fallthrough, listed_id};
ghost use Rattle.rl_order.specs.Numbering.{HaveOrders};
ghost use Rattle.rl_order.specs.Walk.{IsWhole, has_block, leads_to};

use crate::removals::is_there;
use rl_base::error::OutOfMemory;
use rl_base::ids::{BlockId, InstructionId};
use rl_hir::blocks::Blocks;
use rl_hir::function::{BasicBlock, Hir};
use rl_hir::terminal::{Terminal, each_terminal_successor, terminal_fallthrough};
use std::alloc::Global;

/// True if all of these are blocks of the graph.
fn are_there<B: Blocks>(blocks: &B, ids: &[BlockId]) -> bool
    ensures { result ≡ list_all (has_block (B.pairs blocks.now)) ids.now }
{
    ids.iter().all(|id| is_there(blocks, *id))
}

/// True if the fallthrough of a terminal, if it has one, is a block of the graph.
fn is_fallthrough_there<B: Blocks>(blocks: &B, terminal: &Terminal) -> bool
    ensures { result ≡ list_all (has_block (B.pairs blocks.now)) (listed_id (fallthrough terminal.now)) }
{
    match terminal_fallthrough(terminal) {
        Some(id) => is_there(blocks, id),
        None => true,
    }
}

/// True if each block to which a block leads is there. On `OutOfMemory` an allocation failed.
#[tactic(auto, using(crate::proofs::WholeGraphs::both_parts))]
fn leads_inside<B: Blocks>(
    alloc: Global,
    blocks: &B,
    block: &BasicBlock,
) -> Result<bool, OutOfMemory>
    ensures { IfOk result (λ inside. inside ≡ list_all (has_block (B.pairs blocks.now)) (leads_to block.now)) }
{
    let successors = each_terminal_successor(alloc, &block.terminal)?;
    let ahead = are_there(blocks, successors.as_slice());
    let behind = is_fallthrough_there(blocks, &block.terminal);
    Ok(behind && ahead)
}

/// True if the entry is a block of the graph, and so are the successors and the fallthrough of each block. On `OutOfMemory` an
/// allocation failed.
pub fn is_whole<B: Blocks>(alloc: Global, hir: &Hir<B>) -> Result<bool, OutOfMemory>
    ensures { IfOk result (λ whole. IsTrue whole ↔ IsWhole (B.pairs hir.now.blocks) hir.now.entry) }
{
    for index in 0..hir.blocks.len() {
        let (_, block) = hir.blocks.at(index);
        if !leads_inside(alloc, &hir.blocks, block)? {
            return Ok(false);
        }
    }
    Ok(is_there(&hir.blocks, hir.entry))
}

/// True if these are indices into a table of this length.
fn are_within(listed: &[InstructionId], table: usize) -> bool
    ensures { IsTrue result ↔ All (λ id. id.0 < table) listed.now }
{
    for id in listed {
        if id.0 as usize >= table {
            return false;
        }
    }
    true
}

/// True if listed instructions lie in a table of this length, and blocks and listed instructions together are fewer than 2^32, as
/// `mark_instruction_ids` asks.
pub fn has_orders<B: Blocks>(hir: &Hir<B>, table: usize) -> bool
    ensures { IsTrue result ↔ HaveOrders table (B.pairs hir.now.blocks) }
{
    let mut count: u32 = 0;
    for index in 0..hir.blocks.len() {
        let (_, block) = hir.blocks.at(index);
        let listed = block.instructions.as_slice();
        if !are_within(listed, table) {
            return false;
        }
        if listed.len() >= (u32::MAX - count) as usize {
            return false;
        }
        count += listed.len() as u32 + 1;
    }
    true
}

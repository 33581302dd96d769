//! Graphs in Graphviz's DOT.

ghost use Rattle.std.specs.Prelude.{IfOk, string_bytes};
ghost use Rattle.graph_dot.specs.Answers.{IsWhole};

use crate::label::{push_instruction, push_line, push_terminal};
use rl_base::error::OutOfMemory;
use rl_base::ids::BlockId;
use rl_hir::blocks::{Blocks, GraphBlocks};
use rl_hir::function::{BasicBlock, BlockKind, Hir, Lowered};
use rl_hir::instruction::Instruction;
use rl_hir::terminal::{each_terminal_successor, terminal_fallthrough};
use std::alloc::Global;
use std::collections::HashSet;
use std::fmt::Write;

/// The drawing of the marked function's graph: a record for each block that the entry reaches, an edge to each successor,
/// and a dashed edge to the fallthrough of a terminal that has one.
pub fn draw(alloc: Global, lowered: &Lowered) -> Result<String, OutOfMemory>
    ensures { IfOk result (λ text. IsWhole (string_bytes text)) }
{
    let function = &lowered.function;
    let reached = reached_blocks(alloc, &function.body)?;
    let mut out = String::from_str(alloc, "digraph hir {\n  node [shape=record];\n")?;
    for index in 0..function.body.blocks.len() {
        let (id, block) = function.body.blocks.at(index);
        if reached.contains(&id) {
            push_block(alloc, id, block, function.instructions.as_slice(), &mut out)?;
            push_edges(alloc, id, block, &reached, &mut out)?;
        }
    }
    out.push_str("}\n")?;
    Ok(out)
}

/// The ids of the blocks that the entry reaches: its own, and those of the blocks with a predecessor (`IsLinked`).
fn reached_blocks(alloc: Global, body: &Hir<GraphBlocks>) -> Result<HashSet<BlockId>, OutOfMemory> {
    let mut reached = HashSet::new(alloc);
    for index in 0..body.blocks.len() {
        let (id, block) = body.blocks.at(index);
        if id == body.entry || !block.preds.is_empty() {
            reached.insert(id)?;
        }
    }
    Ok(reached)
}

fn kind_word(kind: BlockKind) -> &'static str {
    match kind {
        BlockKind::Block => "block",
        BlockKind::Value => "value",
        BlockKind::Loop => "loop",
        BlockKind::Sequence => "sequence",
        BlockKind::Catch => "catch",
    }
}

/// Appends a block's node: its id and kind, its instructions in order, its terminal.
fn push_block(
    alloc: Global,
    id: BlockId,
    block: &BasicBlock,
    table: &[Instruction],
    out: &mut String,
) -> Result<(), OutOfMemory> {
    let id = id.0;
    let kind = kind_word(block.kind);
    write!(out, "  bb{id} [label=\"{{bb{id} ({kind})|")?;
    for index in block.instructions.as_slice() {
        // Each index that a block lists is one of the table's (`IsLinked`).
        if let Some(instruction) = table.get(index.0 as usize) {
            let mut line = String::new(alloc);
            push_instruction(alloc, instruction, &mut line)?;
            push_line(line.as_str(), out)?;
        }
    }
    out.push('|')?;
    let mut line = String::new(alloc);
    push_terminal(alloc, &block.terminal, &mut line)?;
    push_line(line.as_str(), out)?;
    out.push_str("}\"];\n")?;
    Ok(())
}

/// Appends the edges from a block to its terminal's successors, and to its fallthrough where the entry reaches that.
fn push_edges(
    alloc: Global,
    id: BlockId,
    block: &BasicBlock,
    reached: &HashSet<BlockId>,
    out: &mut String,
) -> Result<(), OutOfMemory> {
    let id = id.0;
    let terminal = &block.terminal;
    for successor in each_terminal_successor(alloc, terminal)?.as_slice() {
        let to = successor.0;
        writeln!(out, "  bb{id} -> bb{to};")?;
    }
    if let Some(fallthrough) = terminal_fallthrough(terminal)
        && reached.contains(&fallthrough)
    {
        let to = fallthrough.0;
        writeln!(out, "  bb{id} -> bb{to} [style=dashed];")?;
    }
    Ok(())
}

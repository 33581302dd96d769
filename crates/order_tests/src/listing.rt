//! Blocks as one text.

use rl_base::ids::{BlockId, InstructionId};
use rl_hir::blocks::Blocks;
use rl_hir::function::BasicBlock;
use rl_hir::instruction::Instruction;
use rl_text::written::Written;
use std::alloc::{AllocError, Global};
use std::process::Abort;
use std::str;
use std::test::Fail;

/// Appends the index and the order of each instruction that a block lists.
fn push_instructions(
    alloc: Global,
    text: &mut String,
    listed: &[InstructionId],
    table: &[Instruction],
) -> Result<(), AllocError> {
    let mut separator = "";
    for id in listed {
        if let Some(instruction) = table.get(id.0 as usize) {
            let order = instruction.order.0;
            text.push_str(format!(in alloc; "{separator}{}@{order}", id.0)?.as_str())?;
            separator = " ";
        }
    }
    Ok(())
}

/// Appends the ids of blocks.
fn push_ids(alloc: Global, text: &mut String, ids: &[BlockId]) -> Result<(), AllocError> {
    let mut separator = "";
    for id in ids {
        text.push_str(format!(in alloc; "{separator}{}", id.0)?.as_str())?;
        separator = " ";
    }
    Ok(())
}

/// Appends a block: its id, its instructions, its terminal as it is listed, and its predecessors.
fn push_block(
    alloc: Global,
    text: &mut String,
    id: BlockId,
    block: &BasicBlock,
    table: &[Instruction],
) -> Result<(), Fail> {
    text.push_str(format!(in alloc; "{} [", id.0)?.as_str())?;
    push_instructions(alloc, text, block.instructions.as_slice(), table)?;
    text.push_str("] ")?;
    let mut listed = Vec::new(alloc);
    block.terminal.write(&mut listed)?;
    text.push_str(str::from_utf8(listed.as_slice())?)?;
    text.push_str(" [")?;
    push_ids(alloc, text, block.preds.as_slice())?;
    text.push_str("]")?;
    Ok(())
}

/// The blocks, in order.
fn text_of<B: Blocks>(alloc: Global, blocks: &B, table: &[Instruction]) -> Result<String, Fail> {
    let mut text = String::new(alloc);
    for index in 0..blocks.len() {
        if index > 0 {
            text.push_str("; ")?;
        }
        let (id, block) = blocks.at(index);
        push_block(alloc, &mut text, id, block, table)?;
    }
    Ok(text)
}

/// Checks the text of blocks.
pub fn check<B: Blocks>(
    rt: &impl Abort,
    alloc: Global,
    blocks: &B,
    table: &[Instruction],
    wanted: &str,
) -> Result<(), Fail> {
    let text = text_of(alloc, blocks, table)?;
    assert_eq!(rt; text.as_str(), wanted);
    Ok(())
}

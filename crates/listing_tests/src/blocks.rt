//! The blocks of the function: each terminal once.

use crate::parts::{place, span};
use rl_base::error::OutOfMemory;
use rl_base::ids::{BlockId, EvaluationOrder, InstructionId};
use rl_base::list::List;
use rl_base::operator::LogicalOperator;
use rl_hir::blocks::{Blocks, GraphBlocks};
use rl_hir::function::{BasicBlock, BlockKind};
use rl_hir::terminal::{Case, GotoVariant, ReturnVariant, Terminal, TerminalKind};
use std::alloc::Global;

/// The listings of the blocks, in order.
pub(crate) const BLOCKS: [&str; 19] = [
    r#"(block 0 "block" [0 1] (goto 9 (at 2 5) 1 "break") [2 3])"#,
    r#"(block 1 "value" [] (if 9 - (p 1 -) 1 2 3) [])"#,
    r#"(block 2 "loop" [] (branch 9 - (p 1 -) 1 2 3) [])"#,
    r#"(block 3 "sequence" [] (switch 9 - (p 1 -) [(case (p 2 -) 1) (case - 2)] 3) [])"#,
    r#"(block 4 "catch" [] (logical 9 - "&&" 1 2) [])"#,
    r#"(block 5 "block" [] (ternary 9 - 1 2) [])"#,
    r#"(block 6 "block" [] (optional 9 - y 1 2) [])"#,
    r#"(block 7 "block" [] (sequence 9 - 1 2) [])"#,
    r#"(block 8 "block" [] (label 9 - 1 2) [])"#,
    r#"(block 9 "block" [] (try 9 - 1 (p 1 -) 2 3) [])"#,
    r#"(block 10 "block" [] (while 9 - 1 2 3) [])"#,
    r#"(block 11 "block" [] (dowhile 9 - 1 2 3) [])"#,
    r#"(block 12 "block" [] (for 9 - 1 2 3 4 5) [])"#,
    r#"(block 13 "block" [] (forin 9 - 1 2 3) [])"#,
    r#"(block 14 "block" [] (forof 9 - 1 2 3 4) [])"#,
    r#"(block 15 "block" [] (maybethrow 9 - 1 2) [])"#,
    r#"(block 16 "block" [] (return 9 - "explicit" (p 1 -)) [])"#,
    r#"(block 17 "block" [] (throw 9 - (p 1 -)) [])"#,
    r#"(block 18 "block" [] (unreachable 9 -) [])"#,
];

/// Puts a block without instructions and predecessors, whose terminal has order 9, as the last one.
fn add(
    alloc: Global,
    blocks: &mut GraphBlocks,
    kind: BlockKind,
    end: TerminalKind,
) -> Result<(), OutOfMemory> {
    let id = BlockId(u32::try_from(blocks.len()).unwrap_or(u32::MAX));
    let terminal = Terminal {
        order: EvaluationOrder(9),
        span: None,
        kind: end,
    };
    let block = BasicBlock {
        kind,
        instructions: List::new(alloc),
        terminal,
        preds: List::new(alloc),
    };
    blocks.put(id, block)
}

/// Puts a block with instructions and predecessors.
fn add_first(alloc: Global, blocks: &mut GraphBlocks) -> Result<(), OutOfMemory> {
    let mut instructions = List::new(alloc);
    instructions.push(InstructionId(0))?;
    instructions.push(InstructionId(1))?;
    let mut preds = List::new(alloc);
    preds.push(BlockId(2))?;
    preds.push(BlockId(3))?;
    let terminal = Terminal {
        order: EvaluationOrder(9),
        span: Some(span()),
        kind: TerminalKind::Goto {
            block: BlockId(1),
            variant: GotoVariant::Break,
        },
    };
    let block = BasicBlock {
        kind: BlockKind::Block,
        instructions,
        terminal,
        preds,
    };
    blocks.put(BlockId(0), block)
}

fn add_branches(alloc: Global, blocks: &mut GraphBlocks) -> Result<(), OutOfMemory> {
    let test = place(1);
    let (consequent, alternate, fallthrough) = (BlockId(1), BlockId(2), BlockId(3));
    let end = TerminalKind::If {
        test,
        consequent,
        alternate,
        fallthrough,
    };
    add(alloc, blocks, BlockKind::Value, end)?;
    let end = TerminalKind::Branch {
        test,
        consequent,
        alternate,
        fallthrough,
    };
    add(alloc, blocks, BlockKind::Loop, end)?;
    let mut cases = List::new(alloc);
    cases.push(Case {
        test: Some(place(2)),
        block: consequent,
    })?;
    cases.push(Case {
        test: None,
        block: alternate,
    })?;
    let end = TerminalKind::Switch {
        test,
        cases,
        fallthrough,
    };
    add(alloc, blocks, BlockKind::Sequence, end)
}

fn add_expressions(alloc: Global, blocks: &mut GraphBlocks) -> Result<(), OutOfMemory> {
    let (test, fallthrough) = (BlockId(1), BlockId(2));
    let end = TerminalKind::Logical {
        operator: LogicalOperator::And,
        test,
        fallthrough,
    };
    add(alloc, blocks, BlockKind::Catch, end)?;
    let end = TerminalKind::Ternary { test, fallthrough };
    add(alloc, blocks, BlockKind::Block, end)?;
    let end = TerminalKind::Optional {
        optional: true,
        test,
        fallthrough,
    };
    add(alloc, blocks, BlockKind::Block, end)
}

fn add_constructs(alloc: Global, blocks: &mut GraphBlocks) -> Result<(), OutOfMemory> {
    let (block, fallthrough) = (BlockId(1), BlockId(2));
    let end = TerminalKind::Sequence { block, fallthrough };
    add(alloc, blocks, BlockKind::Block, end)?;
    let end = TerminalKind::Label { block, fallthrough };
    add(alloc, blocks, BlockKind::Block, end)?;
    let end = TerminalKind::Try {
        block,
        handler_binding: Some(place(1)),
        handler: BlockId(2),
        fallthrough: BlockId(3),
    };
    add(alloc, blocks, BlockKind::Block, end)
}

fn add_while_loops(alloc: Global, blocks: &mut GraphBlocks) -> Result<(), OutOfMemory> {
    let fallthrough = BlockId(3);
    let end = TerminalKind::While {
        test: BlockId(1),
        loop_block: BlockId(2),
        fallthrough,
    };
    add(alloc, blocks, BlockKind::Block, end)?;
    let end = TerminalKind::DoWhile {
        loop_block: BlockId(1),
        test: BlockId(2),
        fallthrough,
    };
    add(alloc, blocks, BlockKind::Block, end)
}

fn add_for_loops(alloc: Global, blocks: &mut GraphBlocks) -> Result<(), OutOfMemory> {
    let init = BlockId(1);
    let end = TerminalKind::For {
        init,
        test: BlockId(2),
        update: Some(BlockId(3)),
        loop_block: BlockId(4),
        fallthrough: BlockId(5),
    };
    add(alloc, blocks, BlockKind::Block, end)?;
    let end = TerminalKind::ForIn {
        init,
        loop_block: BlockId(2),
        fallthrough: BlockId(3),
    };
    add(alloc, blocks, BlockKind::Block, end)?;
    let end = TerminalKind::ForOf {
        init,
        test: BlockId(2),
        loop_block: BlockId(3),
        fallthrough: BlockId(4),
    };
    add(alloc, blocks, BlockKind::Block, end)
}

fn add_exits(alloc: Global, blocks: &mut GraphBlocks) -> Result<(), OutOfMemory> {
    let value = place(1);
    let end = TerminalKind::MaybeThrow {
        continuation: BlockId(1),
        handler: Some(BlockId(2)),
    };
    add(alloc, blocks, BlockKind::Block, end)?;
    let end = TerminalKind::Return {
        variant: ReturnVariant::Explicit,
        value,
    };
    add(alloc, blocks, BlockKind::Block, end)?;
    add(
        alloc,
        blocks,
        BlockKind::Block,
        TerminalKind::Throw { value },
    )?;
    add(alloc, blocks, BlockKind::Block, TerminalKind::Unreachable)
}

/// The blocks.
pub(crate) fn blocks(alloc: Global) -> Result<GraphBlocks, OutOfMemory> {
    let mut blocks = GraphBlocks::empty(alloc);
    add_first(alloc, &mut blocks)?;
    add_branches(alloc, &mut blocks)?;
    add_expressions(alloc, &mut blocks)?;
    add_constructs(alloc, &mut blocks)?;
    add_while_loops(alloc, &mut blocks)?;
    add_for_loops(alloc, &mut blocks)?;
    add_exits(alloc, &mut blocks)?;
    Ok(blocks)
}

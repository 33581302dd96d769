//! Graphs in the making.

use rl_base::error::OutOfMemory;
use rl_base::ids::{BlockId, EvaluationOrder, IdentifierId, InstructionId};
use rl_base::list::List;
use rl_hir::blocks::Blocks;
use rl_hir::function::{BasicBlock, BlockKind, Hir};
use rl_hir::instruction::{Instruction, InstructionValue, Place};
use rl_hir::terminal::{GotoVariant, ReturnVariant, Terminal, TerminalKind};
use std::alloc::Global;

/// Number of instructions of each block.
const LISTED: u32 = 3;

/// A graph, whose entry is block 0, and its table of instructions.
#[derive(Drop)]
pub struct Graph<B> {
    pub hir: Hir<B>,
    pub table: Vec<Instruction>,
    next: u32,
}

/// The place of an identifier.
pub fn place(identifier: u32) -> Place {
    Place {
        identifier: IdentifierId(identifier),
        span: None,
    }
}

/// A goto, which leaves a construct.
pub fn leave_to(block: u32) -> TerminalKind {
    TerminalKind::Goto {
        block: BlockId(block),
        variant: GotoVariant::Break,
    }
}

/// A goto back to a loop.
pub fn back_to(block: u32) -> TerminalKind {
    TerminalKind::Goto {
        block: BlockId(block),
        variant: GotoVariant::Continue,
    }
}

/// A return of nothing.
pub fn end() -> TerminalKind {
    TerminalKind::Return {
        variant: ReturnVariant::Void,
        value: place(0),
    }
}

impl<B: Blocks> Graph<B> {
    /// A graph without blocks. Allocates nothing.
    pub fn new(alloc: Global) -> Graph<B> {
        Graph {
            hir: Hir {
                entry: BlockId(0),
                blocks: B::empty(alloc),
            },
            table: Vec::new(alloc),
            next: 0,
        }
    }

    /// Appends instructions to the table, and returns their indices. On `OutOfMemory` an allocation failed.
    fn instructions(&mut self, alloc: Global) -> Result<List<InstructionId>, OutOfMemory> {
        let mut listed = List::new(alloc);
        for _number in 0..LISTED {
            listed.push(InstructionId(self.next))?;
            self.table.push(Instruction {
                order: EvaluationOrder(0),
                lvalue: place(self.next),
                value: InstructionValue::LoadLocal(place(0)),
                span: None,
            })?;
            self.next = self.next.saturating_add(1);
        }
        Ok(listed)
    }

    /// Puts a block with some instructions and with these predecessors. On `OutOfMemory` an allocation failed.
    pub fn put_with(
        &mut self,
        alloc: Global,
        id: u32,
        kind: TerminalKind,
        preds: List<BlockId>,
    ) -> Result<(), OutOfMemory> {
        let block = BasicBlock {
            kind: BlockKind::Block,
            instructions: self.instructions(alloc)?,
            terminal: Terminal {
                order: EvaluationOrder(0),
                span: None,
                kind,
            },
            preds,
        };
        self.hir.blocks.put(BlockId(id), block)
    }

    /// Puts a block with some instructions. On `OutOfMemory` an allocation failed.
    pub fn put(&mut self, alloc: Global, id: u32, kind: TerminalKind) -> Result<(), OutOfMemory> {
        self.put_with(alloc, id, kind, List::new(alloc))
    }
}

//! Small graphs, by hand.

use rl_base::error::OutOfMemory;
use rl_base::ids::{BlockId, EvaluationOrder, IdentifierId, InstructionId};
use rl_base::list::List;
use rl_hir::blocks::Blocks;
use rl_hir::function::{BasicBlock, BlockKind, Hir};
use rl_hir::instruction::{Instruction, InstructionValue, Place};
use rl_hir::terminal::{GotoVariant, ReturnVariant, Terminal, TerminalKind};
use std::alloc::Global;

/// A graph with the table `B` of blocks, whose entry is block 0, and its table of instructions.
#[derive(Drop)]
pub struct Graph<B> {
    pub hir: Hir<B>,
    pub table: Vec<Instruction>,
}

/// A small graph.
#[derive(Clone, Copy, Debug)]
pub enum Source {
    /// `if (c) { f() }`
    If,
    /// `do { return 1 } while (f())`
    DoWhile,
    /// `for (;c;f()) { return 1 }`
    For,
    /// `while (c) { f() }`
    While,
    /// `try { 1 } catch { 2 }`
    Try,
    /// `try { return 1 } catch { 2 }`, where the block behind has the handler as its predecessor.
    TryReturn,
}

/// The place of an identifier.
fn place(identifier: u32) -> Place {
    Place {
        identifier: IdentifierId(identifier),
        span: None,
    }
}

/// The end of a block that goes on in another.
pub fn goto(block: u32, variant: GotoVariant) -> TerminalKind {
    TerminalKind::Goto {
        block: BlockId(block),
        variant,
    }
}

/// The end of a block that returns what an instruction computes.
pub fn returns(variant: ReturnVariant, instruction: u32) -> TerminalKind {
    TerminalKind::Return {
        variant,
        value: place(instruction),
    }
}

/// The branch on what an instruction computes.
fn branch(instruction: u32, consequent: u32, alternate: u32, fallthrough: u32) -> TerminalKind {
    TerminalKind::Branch {
        test: place(instruction),
        consequent: BlockId(consequent),
        alternate: BlockId(alternate),
        fallthrough: BlockId(fallthrough),
    }
}

/// A `try` statement, with the block 1, the handler 2, and the block 3 behind it.
fn tries() -> TerminalKind {
    TerminalKind::Try {
        block: BlockId(1),
        handler_binding: None,
        handler: BlockId(2),
        fallthrough: BlockId(3),
    }
}

/// A table of `count` instructions, each into an identifier of its own.
fn instructions(alloc: Global, count: u32) -> Result<Vec<Instruction>, OutOfMemory> {
    let mut table = Vec::new(alloc);
    for number in 0..count {
        table.push(Instruction {
            order: EvaluationOrder(0),
            lvalue: place(number),
            value: InstructionValue::Debugger,
            span: None,
        })?;
    }
    Ok(table)
}

impl<B: Blocks> Graph<B> {
    /// A graph without blocks, and with a table of `count` instructions. On `OutOfMemory` an allocation failed.
    pub fn new(alloc: Global, count: u32) -> Result<Graph<B>, OutOfMemory> {
        Ok(Graph {
            hir: Hir {
                entry: BlockId(0),
                blocks: B::empty(alloc),
            },
            table: instructions(alloc, count)?,
        })
    }

    /// Puts a block with these instructions and predecessors. On `OutOfMemory` an allocation failed.
    fn put_with(
        &mut self,
        alloc: Global,
        id: u32,
        instructions: &[InstructionId],
        kind: TerminalKind,
        preds: List<BlockId>,
    ) -> Result<(), OutOfMemory> {
        let block = BasicBlock {
            kind: BlockKind::Block,
            instructions: List::from_vec(Vec::from_slice(alloc, instructions)?),
            terminal: Terminal {
                order: EvaluationOrder(0),
                span: None,
                kind,
            },
            preds,
        };
        self.hir.blocks.put(BlockId(id), block)
    }

    /// Puts a block with these instructions. On `OutOfMemory` an allocation failed.
    pub fn put(
        &mut self,
        alloc: Global,
        id: u32,
        instructions: &[InstructionId],
        kind: TerminalKind,
    ) -> Result<(), OutOfMemory> {
        self.put_with(alloc, id, instructions, kind, List::new(alloc))
    }

    /// Puts the blocks of an `if` statement.
    fn put_if(&mut self, alloc: Global) -> Result<(), OutOfMemory> {
        let tested = TerminalKind::If {
            test: place(0),
            consequent: BlockId(2),
            alternate: BlockId(1),
            fallthrough: BlockId(1),
        };
        self.put(
            alloc,
            2,
            &[InstructionId(1), InstructionId(2)],
            goto(1, GotoVariant::Break),
        )?;
        self.put(alloc, 0, &[InstructionId(0)], tested)?;
        self.put(
            alloc,
            1,
            &[InstructionId(3)],
            returns(ReturnVariant::Void, 3),
        )
    }

    /// Puts the blocks of a `do`-`while` loop whose body returns.
    fn put_do_while(&mut self, alloc: Global) -> Result<(), OutOfMemory> {
        let opened = TerminalKind::DoWhile {
            loop_block: BlockId(3),
            test: BlockId(1),
            fallthrough: BlockId(2),
        };
        self.put(
            alloc,
            3,
            &[InstructionId(0)],
            returns(ReturnVariant::Explicit, 0),
        )?;
        self.put(alloc, 0, &[], opened)?;
        self.put(
            alloc,
            1,
            &[InstructionId(1), InstructionId(2)],
            branch(2, 3, 2, 1),
        )?;
        self.put(
            alloc,
            2,
            &[InstructionId(3)],
            returns(ReturnVariant::Void, 3),
        )
    }

    /// Puts the blocks of a `for` loop whose body returns.
    fn put_for(&mut self, alloc: Global) -> Result<(), OutOfMemory> {
        let opened = TerminalKind::For {
            init: BlockId(1),
            test: BlockId(2),
            update: Some(BlockId(3)),
            loop_block: BlockId(4),
            fallthrough: BlockId(5),
        };
        self.put(alloc, 1, &[], goto(2, GotoVariant::Break))?;
        self.put(alloc, 3, &[InstructionId(1)], goto(2, GotoVariant::Break))?;
        self.put(
            alloc,
            4,
            &[InstructionId(2)],
            returns(ReturnVariant::Explicit, 2),
        )?;
        self.put(alloc, 0, &[], opened)?;
        self.put(alloc, 2, &[InstructionId(0)], branch(0, 4, 5, 5))?;
        self.put(
            alloc,
            5,
            &[InstructionId(3)],
            returns(ReturnVariant::Void, 3),
        )
    }

    /// Puts the blocks of a `while` loop.
    fn put_while(&mut self, alloc: Global) -> Result<(), OutOfMemory> {
        let opened = TerminalKind::While {
            test: BlockId(1),
            loop_block: BlockId(2),
            fallthrough: BlockId(3),
        };
        self.put(
            alloc,
            2,
            &[InstructionId(1)],
            goto(1, GotoVariant::Continue),
        )?;
        self.put(alloc, 0, &[], opened)?;
        self.put(alloc, 1, &[InstructionId(0)], branch(0, 2, 3, 1))?;
        self.put(
            alloc,
            3,
            &[InstructionId(2)],
            returns(ReturnVariant::Void, 2),
        )
    }

    /// Puts the blocks of a `try` statement, whose body ends in this way, and the predecessors of the block behind it.
    fn put_try(
        &mut self,
        alloc: Global,
        body: TerminalKind,
        preds: List<BlockId>,
    ) -> Result<(), OutOfMemory> {
        self.put(alloc, 1, &[InstructionId(1)], body)?;
        self.put(alloc, 2, &[InstructionId(2)], goto(3, GotoVariant::Break))?;
        self.put(alloc, 0, &[InstructionId(0)], tries())?;
        self.put_with(
            alloc,
            3,
            &[InstructionId(3)],
            returns(ReturnVariant::Void, 3),
            preds,
        )
    }
}

/// The graph of a source. On `OutOfMemory` an allocation failed.
pub fn graph_of<B: Blocks>(alloc: Global, source: Source) -> Result<Graph<B>, OutOfMemory> {
    let mut graph = Graph::<B>::new(alloc, 4)?;
    match source {
        Source::If => graph.put_if(alloc)?,
        Source::DoWhile => graph.put_do_while(alloc)?,
        Source::For => graph.put_for(alloc)?,
        Source::While => graph.put_while(alloc)?,
        Source::Try => graph.put_try(alloc, goto(3, GotoVariant::Try), List::new(alloc))?,
        Source::TryReturn => {
            let mut preds = List::new(alloc);
            preds.push(BlockId(2))?;
            graph.put_try(alloc, returns(ReturnVariant::Explicit, 1), preds)?;
        }
    }
    Ok(graph)
}

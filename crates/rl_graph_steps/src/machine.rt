//! The machine: a graph that runs, and the changing part of its run.

ghost use Rattle.std.specs.Prelude.{◌≡◌, OnOk};
ghost use Rattle.std.specs.Option.{option_map};
ghost use Rattle.rl_machine.specs.Machine.{block_of, catcher_at, item_at};
ghost use Rattle.rl_graph_steps.specs.States.{item_of, noted_in, state_of};
ghost use Rattle.rl_trace.specs.Values.{shown};

use crate::note::{Note, Notes};
use rl_base::error::OutOfMemory;
use rl_base::ids::{BlockId, IdentifierId};
use rl_hir::blocks::{Blocks, GraphBlocks};
use rl_hir::instruction::Instruction;
use rl_hir::terminal::{ReturnVariant, Terminal, TerminalKind};
use rl_trace::progress::Progress;
use rl_trace::value::Val;

/// The way in which a run goes on behind a step.
#[derive(Clone, Copy)]
pub enum Goes<'b> {
    /// From a block and an index in it, without an event.
    Silently(BlockId, usize),
    /// From a block and an index in it, behind an event.
    Loudly(BlockId, usize),
    /// The run returns.
    Returned(ReturnVariant, Val<'b>),
    /// The run throws.
    Threw(Val<'b>),
    /// The run waits: no answer is left, or it cannot go on.
    Waiting,
}

/// The item at a program point.
#[derive(Clone, Copy)]
pub enum Found<'b> {
    /// An instruction that runs.
    Runs(&'b Instruction),
    /// The terminal that ends the block.
    Ends(&'b Terminal),
}

/// A graph that runs.
#[derive(Clone, Copy)]
pub struct Machine<'b> {
    /// The blocks.
    pub blocks: &'b GraphBlocks,
    /// The instructions.
    pub table: &'b [Instruction],
}

/// The changing part of a run.
#[derive(Drop)]
pub struct Run<'b> {
    /// The notes, by block.
    pub notes: Notes,
    /// The variables, answers and events.
    pub progress: Progress<'b>,
}

impl<'b> Machine<'b> {
    /// The value of an identifier.
    pub fn read(&self, run: &Run<'b>, identifier: IdentifierId) -> Val<'b>
        ensures { shown result ≡ (state_of self.now run.now).seen.store identifier.0 }
    {
        run.progress.read(identifier.0)
    }

    /// Notes a construct at a block. On `OutOfMemory` an allocation failed.
    pub fn note(&self, run: &mut Run<'b>, block: BlockId, note: Note) -> Result<(), OutOfMemory>
        ensures { OnOk result (state_of self.now run.new ≡ noted_in block note (state_of self.now run.old)) }
    {
        run.notes.set(block, note)?;
        Ok(())
    }

    /// The handler to which the instructions of a block throw.
    pub fn catcher(&self, block: BlockId) -> Option<BlockId>
        ensures { option_map (λ id. id.0) result ≡ catcher_at (block_of self.now.blocks.now block.0) }
    {
        match self.blocks.get(block) {
            Some(found) => match found.terminal.kind {
                TerminalKind::MaybeThrow {
                    continuation: _,
                    handler,
                } => handler,
                TerminalKind::Goto { .. } => None,
                TerminalKind::If { .. } => None,
                TerminalKind::Branch { .. } => None,
                TerminalKind::Switch { .. } => None,
                TerminalKind::Logical { .. } => None,
                TerminalKind::Ternary { .. } => None,
                TerminalKind::Optional { .. } => None,
                TerminalKind::Sequence { .. } => None,
                TerminalKind::Label { .. } => None,
                TerminalKind::Try { .. } => None,
                TerminalKind::While { .. } => None,
                TerminalKind::DoWhile { .. } => None,
                TerminalKind::For { .. } => None,
                TerminalKind::ForIn { .. } => None,
                TerminalKind::ForOf { .. } => None,
                TerminalKind::Return { .. } => None,
                TerminalKind::Throw { .. } => None,
                TerminalKind::Unreachable => None,
            },
            None => None,
        }
    }

    /// The item at an index of a block.
    pub fn item(&self, block: BlockId, index: usize) -> Option<Found<'b>>
        ensures { item_of result ≡ item_at self.now.table.now (block_of self.now.blocks.now block.0) index }
    {
        match self.blocks.get(block) {
            Some(found) => match found.instructions.get(index) {
                Some(number) => match self.table.get(number.0 as usize) {
                    Some(instruction) => Some(Found::Runs(instruction)),
                    None => None,
                },
                None => {
                    if index == found.instructions.len() {
                        return Some(Found::Ends(&found.terminal));
                    }
                    None
                }
            },
            None => None,
        }
    }
}

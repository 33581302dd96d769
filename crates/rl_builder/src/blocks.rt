//! Blocks under construction, and the ends of blocks.

ghost use Rattle.std.specs.Prelude.{◌≡◌, ◌+◌, ◌<◌, ◌^◌, OnOk, OnErr, IfOk, Ok, length, option_map};
ghost use Rattle.rl_base.specs.declared.ids.BlockId.{BlockId as Block};
ghost use Rattle.rl_builder.specs.Builder.{state_of, new_block, reserved, pushed, plainly_pushed, ended_by_throw, completed_by, terminated, entered, with_handler, with_scope, innermost};
ghost use Rattle.rl_builder.specs.Closures.{KeepsStacks};
ghost use Rattle.rl_builder.specs.Jumps as jumps;
ghost use Rattle.rl_builder.specs.declared.jumps.JumpScope.{JumpScope as Scope};

use crate::builder::{Over, Work};
use crate::jumps::{JumpError, JumpScope, lookup_break, lookup_continue};
use crate::unit_tables::ReadsUnit;
use rl_base::error::OutOfMemory;
use rl_base::ids::{BlockId, EvaluationOrder, InstructionId};
use rl_base::list::List;
use rl_base::span::Span;
use rl_hir::function::{BasicBlock, BlockKind};
use rl_hir::instruction::Instruction;
use rl_hir::terminal::{Terminal, TerminalKind};
use std::alloc::Global;
use std::mem;

/// A block that has no terminal yet.
#[derive(Drop)]
pub struct WipBlock {
    /// An id that no other block of the unit has.
    pub id: BlockId,
    /// Indices into the builder's instruction table, in the order of evaluation.
    pub instructions: List<InstructionId>,
    /// The construct that it belongs to.
    pub kind: BlockKind,
}

/// A block that was set aside while another one is built. `leave` makes it the current block again.
#[derive(Drop)]
pub struct Outer {
    pub(crate) block: WipBlock,
}

/// An empty block.
pub(crate) fn new_block(alloc: Global, id: BlockId, kind: BlockKind) -> WipBlock
    ensures { result ≡ new_block id.0 kind }
{
    WipBlock {
        id,
        instructions: List::new(alloc),
        kind,
    }
}

impl<'e, U: ReadsUnit, B> Over<'e, Work<U, B>> {
    /// The kind of the current block (`currentBlockKind`).
    pub fn current_block_kind(&self) -> BlockKind
        ensures { result ≡ (state_of U.tables self.now).current.kind }
    {
        self.work.current.kind
    }

    /// The block to which instructions throw that are appended now, or `None` outside handlers (`resolveThrowHandler`).
    pub fn resolve_throw_handler(&self) -> Option<BlockId>
        ensures { result ≡ innermost (state_of U.tables self.now).handlers }
    {
        self.work.handlers.last().copied()
    }

    /// An empty block of a fresh id, so that terminals can name it before it is built (`reserve`). It always succeeds: an empty
    /// block takes no memory.
    pub fn reserve(&mut self, kind: BlockKind) -> Result<WipBlock, OutOfMemory>
        requires { self.old.env.now.next_block + 1 < 2 ^ 32 }
        ensures same_reference { self.new.env.ghost_name ≡ self.old.env.ghost_name }
        ensures state { state_of U.tables self.new ≡ reserved (state_of U.tables self.old) }
        ensures block { result ≡ Ok (new_block self.old.env.now.next_block kind) }
    {
        let id = self.env.next_block_id();
        Ok(new_block(self.work.alloc, id, kind))
    }

    /// Appends an instruction to the table, and its id to the current block. On `OutOfMemory` an allocation failed: handlers
    /// and scopes are kept, and the rest of the state is unspecified.
    fn push_plainly(&mut self, instruction: Instruction) -> Result<(), OutOfMemory>
        requires { length (state_of U.tables self.old).table < 2 ^ 32 }
        ensures same_reference { self.new.env.ghost_name ≡ self.old.env.ghost_name }
        ensures state { OnOk result (state_of U.tables self.new ≡ plainly_pushed (state_of U.tables self.old) instruction) }
        ensures kept { KeepsStacks self.old result self.new }
    {
        let id = InstructionId(self.work.instructions.len() as u32);
        self.work.instructions.push(instruction)?;
        self.work.current.instructions.push(id)
    }

    /// Appends an instruction to the current block (`push`). Under a handler the block ends behind it, since it may throw, and
    /// a fresh block of the same kind goes on. On `OutOfMemory` an allocation failed: handlers and scopes are kept, and the
    /// rest of the state is unspecified.
    pub fn push(&mut self, instruction: Instruction) -> Result<(), OutOfMemory>
        requires instructions { length (state_of U.tables self.old).table < 2 ^ 32 }
        requires blocks { self.old.env.now.next_block + 1 < 2 ^ 32 }
        ensures same_reference { self.new.env.ghost_name ≡ self.old.env.ghost_name }
        ensures state { OnOk result (state_of U.tables self.new ≡ pushed (state_of U.tables self.old) instruction) }
        ensures kept { KeepsStacks self.old result self.new }
    {
        let span = instruction.span;
        self.push_plainly(instruction)?;
        match self.resolve_throw_handler() {
            Some(handler) => self.end_by_throw(handler, span),
            None => Ok(()),
        }
    }

    /// Ends the current block, whose instructions throw to `handler`, and goes on in a fresh block of its kind. On
    /// `OutOfMemory` an allocation failed: handlers and scopes are kept, and the rest of the state is unspecified.
    fn end_by_throw(&mut self, handler: BlockId, span: Option<Span>) -> Result<(), OutOfMemory>
        requires { self.old.env.now.next_block + 1 < 2 ^ 32 }
        ensures same_reference { self.new.env.ghost_name ≡ self.old.env.ghost_name }
        ensures state { OnOk result (state_of U.tables self.new ≡ ended_by_throw (state_of U.tables self.old) handler span) }
        ensures kept { KeepsStacks self.old result self.new }
    {
        let kind = self.current_block_kind();
        let continuation = self.reserve(kind)?;
        let terminal = Terminal {
            order: EvaluationOrder(0),
            span,
            kind: TerminalKind::MaybeThrow {
                continuation: continuation.id,
                handler: Some(handler),
            },
        };
        self.terminate_with_continuation(terminal, continuation)
    }

    /// Completes the current block with `terminal`, and makes `next` the current one (`terminateWithContinuation`). On
    /// `OutOfMemory` an allocation failed: the current block is lost, and `next` is the current one all the same.
    pub fn terminate_with_continuation(
        &mut self,
        terminal: Terminal,
        next: WipBlock,
    ) -> Result<(), OutOfMemory>
        ensures same_reference { self.new.env.ghost_name ≡ self.old.env.ghost_name }
        ensures state { OnOk result (state_of U.tables self.new ≡ completed_by (state_of U.tables self.old) terminal next) }
        ensures lost { OnErr result (state_of U.tables self.new ≡ entered (state_of U.tables self.old) next) }
        ensures kept { KeepsStacks self.old result self.new }
    {
        let last = mem::replace(&mut self.work.current, next);
        let block = BasicBlock {
            kind: last.kind,
            instructions: last.instructions,
            terminal,
            preds: List::new(self.work.alloc),
        };
        self.work.completed.push((last.id, block))?;
        Ok(())
    }

    /// Completes the current block with `terminal`, and goes on in a fresh block of the kind `next` (`terminate`). Without a
    /// kind the terminal is the last one: an empty block that is in no graph becomes the current one. Returns the id of the
    /// block that was completed. On `OutOfMemory` an allocation failed: handlers and scopes are kept, and the rest of the state
    /// is unspecified.
    pub fn terminate(
        &mut self,
        terminal: Terminal,
        next: Option<BlockKind>,
    ) -> Result<BlockId, OutOfMemory>
        requires { self.old.env.now.next_block + 1 < 2 ^ 32 }
        ensures same_reference { self.new.env.ghost_name ≡ self.old.env.ghost_name }
        ensures state { OnOk result (state_of U.tables self.new ≡ terminated (state_of U.tables self.old) terminal next) }
        ensures kept { KeepsStacks self.old result self.new }
        ensures block { IfOk result (λ id. id ≡ (state_of U.tables self.old).current.id) }
    {
        let id = self.work.current.id;
        let next = match next {
            Some(kind) => self.reserve(kind)?,
            None => new_block(self.work.alloc, BlockId(u32::MAX), BlockKind::Block),
        };
        self.terminate_with_continuation(terminal, next)?;
        Ok(id)
    }

    /// Makes `block` the current one, and returns the block that was current, for `leave`.
    pub fn enter(&mut self, block: WipBlock) -> Outer
        ensures same_reference { self.new.env.ghost_name ≡ self.old.env.ghost_name }
        ensures state { state_of U.tables self.new ≡ entered (state_of U.tables self.old) block }
        ensures outer { result.block ≡ (state_of U.tables self.old).current }
    {
        Outer {
            block: mem::replace(&mut self.work.current, block),
        }
    }

    /// Completes the current block with `terminal`, and goes on in the block that `enter` set aside. On `OutOfMemory` an
    /// allocation failed: the current block is lost, and the one that was set aside is current all the same.
    pub fn leave(&mut self, outer: Outer, terminal: Terminal) -> Result<(), OutOfMemory>
        ensures same_reference { self.new.env.ghost_name ≡ self.old.env.ghost_name }
        ensures state { OnOk result (state_of U.tables self.new ≡ completed_by (state_of U.tables self.old) terminal outer.block) }
        ensures lost { OnErr result (state_of U.tables self.new ≡ entered (state_of U.tables self.old) outer.block) }
        ensures kept { KeepsStacks self.old result self.new }
    {
        self.terminate_with_continuation(terminal, outer.block)
    }

    /// Opens a handler: until `close_handler`, instructions that are appended throw to the block. On `OutOfMemory` an allocation
    /// failed, and nothing changed.
    pub fn open_handler(&mut self, handler: BlockId) -> Result<(), OutOfMemory>
        ensures same_reference { self.new.env.ghost_name ≡ self.old.env.ghost_name }
        ensures state { OnOk result (state_of U.tables self.new ≡ with_handler (state_of U.tables self.old) handler) }
        ensures unchanged { OnErr result (state_of U.tables self.new ≡ state_of U.tables self.old) }
    {
        self.work.handlers.push(handler)?;
        Ok(())
    }

    /// Closes the innermost handler.
    pub fn close_handler(&mut self)
        requires { 0 < length (state_of U.tables self.old).handlers }
        ensures same_reference { self.new.env.ghost_name ≡ self.old.env.ghost_name }
        ensures state { (handler : Block) × (state_of U.tables self.old ≡ with_handler (state_of U.tables self.new) handler) }
    {
        let _ = self.work.handlers.pop();
    }

    /// Opens the scope of a loop, a labelled statement or a `switch`, which jumps may go to until `close_scope`. On
    /// `OutOfMemory` an allocation failed, and nothing changed.
    pub fn open_scope(&mut self, scope: JumpScope) -> Result<(), OutOfMemory>
        ensures same_reference { self.new.env.ghost_name ≡ self.old.env.ghost_name }
        ensures state { OnOk result (state_of U.tables self.new ≡ with_scope (state_of U.tables self.old) scope) }
        ensures unchanged { OnErr result (state_of U.tables self.new ≡ state_of U.tables self.old) }
    {
        self.work.scopes.push(scope)?;
        Ok(())
    }

    /// Closes the innermost scope.
    pub fn close_scope(&mut self)
        requires { 0 < length (state_of U.tables self.old).scopes }
        ensures same_reference { self.new.env.ghost_name ≡ self.old.env.ghost_name }
        ensures state { (scope : Scope) × (state_of U.tables self.old ≡ with_scope (state_of U.tables self.new) scope) }
    {
        let _ = self.work.scopes.pop();
    }

    /// The block that a `break` goes to, with this label or without one (`lookupBreak`). On `NoBreak` no scope takes it.
    pub fn lookup_break(&self, label: Option<&str>) -> Result<BlockId, JumpError>
        ensures { result ≡ jumps.lookup_break (state_of U.tables self.now).scopes (option_map (λ l. l.now) label.entry) }
    {
        lookup_break(self.work.scopes.as_slice(), label)
    }

    /// The block that a `continue` goes to, with this label or without one (`lookupContinue`). On `NotALoop` the innermost
    /// scope of the label is no loop's; on `NoContinue` no scope takes it.
    pub fn lookup_continue(&self, label: Option<&str>) -> Result<BlockId, JumpError>
        ensures { result ≡ jumps.lookup_continue (state_of U.tables self.now).scopes (option_map (λ l. l.now) label.entry) }
    {
        lookup_continue(self.work.scopes.as_slice(), label)
    }
}

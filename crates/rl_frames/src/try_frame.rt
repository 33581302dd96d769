//! `try` statements.

ghost use Rattle.std.specs.Prelude.{◌≡◌, ◌+◌, ◌<◌, ◌≤◌, ◌^◌, length, OnOk, IfOk};
ghost use Rattle.rl_builder.specs.Builder.{state_of};
ghost use Rattle.rl_frames.specs.Frames.{try_of, try_at, try_caught, try_after, try_ended, TryComposes};
ghost use Rattle.rl_frames.specs.Parts as spec;

use crate::ends::goto;
use rl_base::error::OutOfMemory;
use rl_base::ids::{BlockId, EvaluationOrder};
use rl_base::span::Span;
use rl_builder::blocks::{Outer, WipBlock};
use rl_builder::builder::HirBuilder;
use rl_builder::unit_tables::ReadsUnit;
use rl_hir::function::BlockKind;
use rl_hir::instruction::{Instruction, InstructionKind, InstructionValue, Place};
use rl_hir::terminal::{GotoVariant, Terminal, TerminalKind};

/// A `try` statement whose holes are lowered by the caller: the handler, and then the block.
#[derive(Drop)]
pub struct TryFrame {
    span: Span,
    /// The block behind the statement.
    behind: WipBlock,
    /// The place that takes the value of a throw, if there is one.
    binding: Option<Place>,
    handler: BlockId,
    /// The block of the `try`; the handler's, until that has ended.
    body: BlockId,
    /// The block that was set aside.
    outer: Outer,
}

/// Declares the place that takes the value of a throw. On `OutOfMemory` an allocation failed.
fn declare<U: ReadsUnit, B>(
    b: &mut HirBuilder<'_, U, B>,
    binding: Option<Place>,
) -> Result<(), OutOfMemory>
    requires instructions { length (state_of U.tables b.old).table < 2 ^ 32 }
    requires blocks { b.old.env.now.next_block + 1 < 2 ^ 32 }
    requires identifiers { length b.old.env.now.identifiers < 2 ^ 32 }
    requires types { b.old.env.now.next_type + 1 < 2 ^ 32 }
    ensures same_reference { b.new.env.ghost_name ≡ b.old.env.ghost_name }
    ensures state { OnOk result (state_of U.tables b.new ≡ spec.try_bound (state_of U.tables b.old) binding) }
    ensures grown { OnOk result ((state_of U.tables b.new).env.next_block ≤ (state_of U.tables b.old).env.next_block + 1) }
{
    match binding {
        Some(place) => {
            let temporary = b.create_temporary_place(place.span)?;
            b.push(Instruction {
                order: EvaluationOrder(0),
                lvalue: temporary,
                value: InstructionValue::DeclareLocal {
                    kind: InstructionKind::Catch,
                    place,
                },
                span: place.span,
            })?;
            Ok(())
        }
        None => Ok(()),
    }
}

impl TryFrame {
    /// Opens the hole of the handler. `binding` is a fresh place. On `OutOfMemory` an allocation failed.
    pub fn begin<U: ReadsUnit, B>(
        b: &mut HirBuilder<'_, U, B>,
        span: Span,
        binding: Option<Place>,
    ) -> Result<Self, OutOfMemory>
        requires instructions { length (state_of U.tables b.old).table < 2 ^ 32 }
        requires blocks { b.old.env.now.next_block + 3 < 2 ^ 32 }
        requires identifiers { length b.old.env.now.identifiers < 2 ^ 32 }
        requires types { b.old.env.now.next_type + 1 < 2 ^ 32 }
        ensures same_reference { b.new.env.ghost_name ≡ b.old.env.ghost_name }
        ensures state { OnOk result (state_of U.tables b.new ≡ spec.try_started (state_of U.tables b.old) binding) }
        ensures frame { IfOk result (λ f. try_of f ≡ try_at (state_of U.tables b.old) span binding) }
    {
        let behind = b.reserve(BlockKind::Block)?;
        declare(b, binding)?;
        let first = b.reserve(BlockKind::Catch)?;
        let handler = first.id;
        let outer = b.enter(first);
        Ok(TryFrame {
            span,
            behind,
            binding,
            handler,
            body: handler,
            outer,
        })
    }

    /// Ends the hole of the handler, and opens that of the block. `part` is the span of the handler's body. On `OutOfMemory` an
    /// allocation failed.
    pub fn catch<U: ReadsUnit, B>(
        &mut self,
        b: &mut HirBuilder<'_, U, B>,
        part: Span,
    ) -> Result<(), OutOfMemory>
        requires blocks { b.old.env.now.next_block + 1 < 2 ^ 32 }
        ensures same_reference { b.new.env.ghost_name ≡ b.old.env.ghost_name }
        ensures state { OnOk result (state_of U.tables b.new ≡ try_caught (try_of self.old) (state_of U.tables b.old) part) }
        ensures frame { OnOk result (try_of self.new ≡ try_after (try_of self.old) (state_of U.tables b.old)) }
    {
        let end = goto(self.behind.id, GotoVariant::Break, part);
        let next = b.reserve(BlockKind::Block)?;
        self.body = next.id;
        b.terminate_with_continuation(end, next)?;
        b.open_handler(self.handler)?;
        Ok(())
    }

    /// Ends the hole of the block, and goes on behind the statement. `part` is the span of the block. On `OutOfMemory` an allocation
    /// failed.
    pub fn finish<U: ReadsUnit, B>(
        self,
        b: &mut HirBuilder<'_, U, B>,
        part: Span,
    ) -> Result<(), OutOfMemory>
        requires handler { 0 < length (state_of U.tables b.old).handlers }
        ensures same_reference { b.new.env.ghost_name ≡ b.old.env.ghost_name }
        ensures state { OnOk result (state_of U.tables b.new ≡ try_ended (try_of self) (state_of U.tables b.old) part) }
        ensures composes { OnOk result (TryComposes (try_of self) (state_of U.tables b.old) (state_of U.tables b.new)) }
    {
        let TryFrame {
            span,
            behind,
            binding,
            handler,
            body,
            outer,
        } = self;
        b.close_handler();
        let end = goto(behind.id, GotoVariant::Try, part);
        b.leave(outer, end)?;
        let fallthrough = behind.id;
        let terminal = Terminal {
            order: EvaluationOrder(0),
            span: Some(span),
            kind: TerminalKind::Try {
                block: body,
                handler_binding: binding,
                handler,
                fallthrough,
            },
        };
        b.terminate_with_continuation(terminal, behind)?;
        Ok(())
    }
}

//! Sequences of expressions.

ghost use Rattle.std.specs.Prelude.{◌≡◌, ◌+◌, ◌<◌, ◌^◌, length, OnOk, IfOk};
ghost use Rattle.rl_builder.specs.Builder.{state_of};
ghost use Rattle.rl_frames.specs.Frames.{sequence_of, sequence_at, sequence_ended, SequenceComposes};
ghost use Rattle.rl_frames.specs.Parts as spec;

use crate::ends::{goto, store_in};
use rl_base::error::OutOfMemory;
use rl_base::ids::{BlockId, EvaluationOrder};
use rl_base::span::Span;
use rl_builder::blocks::{Outer, WipBlock};
use rl_builder::builder::HirBuilder;
use rl_builder::unit_tables::ReadsUnit;
use rl_hir::function::BlockKind;
use rl_hir::instruction::Place;
use rl_hir::terminal::{GotoVariant, Terminal, TerminalKind};

/// A sequence of expressions, which the caller lowers in one hole.
#[derive(Drop)]
pub struct SequenceFrame {
    span: Span,
    /// The place of the value.
    place: Place,
    /// The block behind the expression.
    behind: WipBlock,
    /// The block of the expressions.
    block: BlockId,
    /// The block that was set aside.
    outer: Outer,
}

impl SequenceFrame {
    /// Opens the hole of the expressions. On `OutOfMemory` an allocation failed.
    pub fn begin<U: ReadsUnit, B>(
        b: &mut HirBuilder<'_, U, B>,
        span: Span,
    ) -> Result<Self, OutOfMemory>
        requires blocks { b.old.env.now.next_block + 2 < 2 ^ 32 }
        requires identifiers { length b.old.env.now.identifiers < 2 ^ 32 }
        requires types { b.old.env.now.next_type + 1 < 2 ^ 32 }
        ensures same_reference { b.new.env.ghost_name ≡ b.old.env.ghost_name }
        ensures state { OnOk result (state_of U.tables b.new ≡ spec.sequence_begun (state_of U.tables b.old) span) }
        ensures frame { IfOk result (λ f. sequence_of f ≡ sequence_at (state_of U.tables b.old) span) }
    {
        let kind = b.current_block_kind();
        let behind = b.reserve(kind)?;
        let place = b.create_temporary_place(Some(span))?;
        let first = b.reserve(BlockKind::Sequence)?;
        let block = first.id;
        let outer = b.enter(first);
        Ok(SequenceFrame {
            span,
            place,
            behind,
            block,
            outer,
        })
    }

    /// Ends the hole with the value of the last expression, and goes on behind the sequence, whose place it returns. `part` is
    /// the span of the last expression. On `OutOfMemory` an allocation failed.
    pub fn finish<U: ReadsUnit, B>(
        self,
        b: &mut HirBuilder<'_, U, B>,
        part: Span,
        value: Place,
    ) -> Result<Place, OutOfMemory>
        requires instructions { length (state_of U.tables b.old).table < 2 ^ 32 }
        requires blocks { b.old.env.now.next_block + 1 < 2 ^ 32 }
        requires identifiers { length b.old.env.now.identifiers < 2 ^ 32 }
        requires types { b.old.env.now.next_type + 1 < 2 ^ 32 }
        ensures same_reference { b.new.env.ghost_name ≡ b.old.env.ghost_name }
        ensures state { OnOk result (state_of U.tables b.new ≡ sequence_ended (sequence_of self) (state_of U.tables b.old) value part) }
        ensures composes { OnOk result (SequenceComposes (sequence_of self) (state_of U.tables b.old) (state_of U.tables b.new) value) }
        ensures place { IfOk result (λ p. p ≡ self.place) }
    {
        let SequenceFrame {
            span,
            place,
            behind,
            block,
            outer,
        } = self;
        store_in(b, place, value, part)?;
        let end = goto(behind.id, GotoVariant::Break, part);
        b.leave(outer, end)?;
        let fallthrough = behind.id;
        let terminal = Terminal {
            order: EvaluationOrder(0),
            span: Some(span),
            kind: TerminalKind::Sequence { block, fallthrough },
        };
        b.terminate_with_continuation(terminal, behind)?;
        Ok(place)
    }
}

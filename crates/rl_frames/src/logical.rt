//! Logical expressions.

ghost use Rattle.std.specs.Prelude.{◌≡◌, ◌+◌, ◌<◌, ◌^◌, true, is_some, length, OnOk, IfOk};
ghost use Rattle.rl_builder.specs.Builder.{state_of};
ghost use Rattle.rl_frames.specs.Frames.{logical_of, logical_at, logical_righted as joined, logical_after, logical_ended, LogicalComposes};
ghost use Rattle.rl_frames.specs.Parts as spec;

use crate::ends::{goto, store_in};
use rl_base::error::OutOfMemory;
use rl_base::ids::{BlockId, EvaluationOrder};
use rl_base::operator::LogicalOperator;
use rl_base::span::Span;
use rl_builder::blocks::{Outer, WipBlock};
use rl_builder::builder::HirBuilder;
use rl_builder::unit_tables::ReadsUnit;
use rl_hir::function::BlockKind;
use rl_hir::instruction::{Instruction, InstructionValue, Place};
use rl_hir::terminal::{GotoVariant, Terminal, TerminalKind};

/// A logical expression whose holes are lowered by the caller: the right part, and then the left part.
#[derive(Drop)]
pub struct Logical {
    span: Span,
    operator: LogicalOperator,
    /// The place of the value.
    place: Place,
    /// The place of the left part's value, which is tested.
    left: Place,
    /// The block behind the expression.
    behind: WipBlock,
    consequent: BlockId,
    alternate: BlockId,
    /// The block that was set aside and that of the test, until the right part has ended.
    aside: Option<(Outer, WipBlock)>,
}

impl Logical {
    /// Opens the hole of the right part. `left` is the span of the left part. On `OutOfMemory` an allocation failed.
    pub fn begin<U: ReadsUnit, B>(
        b: &mut HirBuilder<'_, U, B>,
        span: Span,
        operator: LogicalOperator,
        left: Span,
    ) -> Result<Self, OutOfMemory>
        requires instructions { length (state_of U.tables b.old).table < 2 ^ 32 }
        requires blocks { b.old.env.now.next_block + 6 < 2 ^ 32 }
        requires identifiers { length b.old.env.now.identifiers + 3 < 2 ^ 32 }
        requires types { b.old.env.now.next_type + 4 < 2 ^ 32 }
        ensures same_reference { b.new.env.ghost_name ≡ b.old.env.ghost_name }
        ensures state { OnOk result (state_of U.tables b.new ≡ spec.logical_begun (state_of U.tables b.old) span left) }
        ensures frame { IfOk result (λ f. logical_of f ≡ logical_at (state_of U.tables b.old) span operator left) }
    {
        let kind = b.current_block_kind();
        let behind = b.reserve(kind)?;
        let test = b.reserve(BlockKind::Value)?;
        let place = b.create_temporary_place(Some(span))?;
        let tested = b.create_temporary_place(Some(left))?;
        let first = b.reserve(BlockKind::Value)?;
        let consequent = first.id;
        let outer = b.enter(first);
        store_in(b, place, tested, left)?;
        let next = b.reserve(BlockKind::Value)?;
        let alternate = next.id;
        b.terminate_with_continuation(goto(behind.id, GotoVariant::Break, left), next)?;
        Ok(Logical {
            span,
            operator,
            place,
            left: tested,
            behind,
            consequent,
            alternate,
            aside: Some((outer, test)),
        })
    }

    /// Ends the hole of the right part with its value, and opens that of the left part. On `OutOfMemory` an allocation failed.
    pub fn right<U: ReadsUnit, B>(
        &mut self,
        b: &mut HirBuilder<'_, U, B>,
        part: Span,
        value: Place,
    ) -> Result<(), OutOfMemory>
        requires open { is_some (logical_of self.old).aside ≡ true }
        requires instructions { length (state_of U.tables b.old).table < 2 ^ 32 }
        requires blocks { b.old.env.now.next_block + 1 < 2 ^ 32 }
        requires identifiers { length b.old.env.now.identifiers < 2 ^ 32 }
        requires types { b.old.env.now.next_type + 1 < 2 ^ 32 }
        ensures same_reference { b.new.env.ghost_name ≡ b.old.env.ghost_name }
        ensures state { OnOk result (state_of U.tables b.new ≡ joined (logical_of self.old) (state_of U.tables b.old) value part) }
        ensures frame { OnOk result (logical_of self.new ≡ logical_after (logical_of self.old)) }
    {
        store_in(b, self.place, value, part)?;
        let end = goto(self.behind.id, GotoVariant::Break, part);
        match self.aside.take() {
            Some((outer, test)) => {
                b.leave(outer, end)?;
                let terminal = Terminal {
                    order: EvaluationOrder(0),
                    span: Some(self.span),
                    kind: TerminalKind::Logical {
                        operator: self.operator,
                        test: test.id,
                        fallthrough: self.behind.id,
                    },
                };
                b.terminate_with_continuation(terminal, test)?;
            }
            None => unreachable!(),
        }
        Ok(())
    }

    /// Ends the hole of the left part with its value, and goes on behind the expression, whose place it returns. On `OutOfMemory` an
    /// allocation failed.
    pub fn finish<U: ReadsUnit, B>(
        self,
        b: &mut HirBuilder<'_, U, B>,
        value: Place,
    ) -> Result<Place, OutOfMemory>
        requires instructions { length (state_of U.tables b.old).table < 2 ^ 32 }
        requires blocks { b.old.env.now.next_block + 1 < 2 ^ 32 }
        ensures same_reference { b.new.env.ghost_name ≡ b.old.env.ghost_name }
        ensures state { OnOk result (state_of U.tables b.new ≡ logical_ended (logical_of self) (state_of U.tables b.old) value) }
        ensures composes { OnOk result (LogicalComposes (logical_of self) (state_of U.tables b.old) (state_of U.tables b.new) value) }
        ensures place { IfOk result (λ p. p ≡ self.place) }
    {
        let Logical {
            span,
            operator: _,
            place,
            left,
            behind,
            consequent,
            alternate,
            aside: _,
        } = self;
        b.push(Instruction {
            order: EvaluationOrder(0),
            lvalue: left,
            value: InstructionValue::LoadLocal(value),
            span: Some(span),
        })?;
        let fallthrough = behind.id;
        let terminal = Terminal {
            order: EvaluationOrder(0),
            span: Some(span),
            kind: TerminalKind::Branch {
                test: left,
                consequent,
                alternate,
                fallthrough,
            },
        };
        b.terminate_with_continuation(terminal, behind)?;
        Ok(place)
    }
}

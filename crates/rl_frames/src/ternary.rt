//! Conditional expressions.

ghost use Rattle.std.specs.Prelude.{◌≡◌, ◌+◌, ◌<◌, ◌^◌, true, is_some, length, OnOk, IfOk};
ghost use Rattle.rl_builder.specs.Builder.{state_of};
ghost use Rattle.rl_frames.specs.Frames.{ternary_of, ternary_at, ternary_consequent as branched, ternary_parted, ternary_after};
ghost use Rattle.rl_frames.specs.Frames.{ternary_alternated as joined, ternary_ended, TernaryComposes};
ghost use Rattle.rl_frames.specs.Parts as spec;

use crate::ends::{goto, store_in};
use rl_base::error::OutOfMemory;
use rl_base::ids::{BlockId, EvaluationOrder};
use rl_base::span::Span;
use rl_builder::blocks::{Outer, WipBlock};
use rl_builder::builder::HirBuilder;
use rl_builder::unit_tables::ReadsUnit;
use rl_hir::function::BlockKind;
use rl_hir::instruction::Place;
use rl_hir::terminal::{GotoVariant, Terminal, TerminalKind};

/// A conditional expression whose holes are lowered by the caller: the consequent, the alternate, and then the test.
#[derive(Drop)]
pub struct Ternary {
    span: Span,
    /// The place of the value.
    place: Place,
    /// The block behind the expression.
    behind: WipBlock,
    consequent: BlockId,
    /// The block behind the expression, until that of the alternate is numbered.
    alternate: BlockId,
    /// The block that was set aside and that of the test, until the alternate has ended.
    aside: Option<(Outer, WipBlock)>,
}

impl Ternary {
    /// Opens the hole of the consequent. On `OutOfMemory` an allocation failed.
    pub fn begin<U: ReadsUnit, B>(
        b: &mut HirBuilder<'_, U, B>,
        span: Span,
    ) -> Result<Self, OutOfMemory>
        requires blocks { b.old.env.now.next_block + 3 < 2 ^ 32 }
        requires identifiers { length b.old.env.now.identifiers < 2 ^ 32 }
        requires types { b.old.env.now.next_type + 1 < 2 ^ 32 }
        ensures same_reference { b.new.env.ghost_name ≡ b.old.env.ghost_name }
        ensures state { OnOk result (state_of U.tables b.new ≡ spec.ternary_begun (state_of U.tables b.old) span) }
        ensures frame { IfOk result (λ f. ternary_of f ≡ ternary_at (state_of U.tables b.old) span) }
    {
        let kind = b.current_block_kind();
        let behind = b.reserve(kind)?;
        let test = b.reserve(BlockKind::Value)?;
        let place = b.create_temporary_place(Some(span))?;
        let first = b.reserve(BlockKind::Value)?;
        let alternate = behind.id;
        let consequent = first.id;
        let outer = b.enter(first);
        Ok(Ternary {
            span,
            place,
            behind,
            consequent,
            alternate,
            aside: Some((outer, test)),
        })
    }

    /// Ends the hole of the consequent, whose span is `part`, with its value, and opens that of the alternate. On `OutOfMemory` an
    /// allocation failed.
    pub fn consequent<U: ReadsUnit, B>(
        &mut self,
        b: &mut HirBuilder<'_, U, B>,
        part: Span,
        value: Place,
    ) -> Result<(), OutOfMemory>
        requires instructions { length (state_of U.tables b.old).table < 2 ^ 32 }
        requires blocks { b.old.env.now.next_block + 2 < 2 ^ 32 }
        requires identifiers { length b.old.env.now.identifiers < 2 ^ 32 }
        requires types { b.old.env.now.next_type + 1 < 2 ^ 32 }
        ensures same_reference { b.new.env.ghost_name ≡ b.old.env.ghost_name }
        ensures state { OnOk result (state_of U.tables b.new ≡ branched (ternary_of self.old) (state_of U.tables b.old) value part) }
        ensures frame { OnOk result (ternary_of self.new ≡ ternary_parted (ternary_of self.old) (state_of U.tables b.old) value part) }
    {
        store_in(b, self.place, value, self.span)?;
        let next = b.reserve(BlockKind::Value)?;
        self.alternate = next.id;
        b.terminate_with_continuation(goto(self.behind.id, GotoVariant::Break, part), next)?;
        Ok(())
    }

    /// Ends the hole of the alternate, whose span is `part`, with its value, and opens that of the test. On `OutOfMemory` an
    /// allocation failed.
    pub fn alternate<U: ReadsUnit, B>(
        &mut self,
        b: &mut HirBuilder<'_, U, B>,
        part: Span,
        value: Place,
    ) -> Result<(), OutOfMemory>
        requires open { is_some (ternary_of self.old).aside ≡ true }
        requires instructions { length (state_of U.tables b.old).table < 2 ^ 32 }
        requires blocks { b.old.env.now.next_block + 1 < 2 ^ 32 }
        requires identifiers { length b.old.env.now.identifiers < 2 ^ 32 }
        requires types { b.old.env.now.next_type + 1 < 2 ^ 32 }
        ensures same_reference { b.new.env.ghost_name ≡ b.old.env.ghost_name }
        ensures state { OnOk result (state_of U.tables b.new ≡ joined (ternary_of self.old) (state_of U.tables b.old) value part) }
        ensures frame { OnOk result (ternary_of self.new ≡ ternary_after (ternary_of self.old)) }
    {
        store_in(b, self.place, value, self.span)?;
        let end = goto(self.behind.id, GotoVariant::Break, part);
        match self.aside.take() {
            Some((outer, test)) => {
                b.leave(outer, end)?;
                let terminal = Terminal {
                    order: EvaluationOrder(0),
                    span: Some(self.span),
                    kind: TerminalKind::Ternary {
                        test: test.id,
                        fallthrough: self.behind.id,
                    },
                };
                b.terminate_with_continuation(terminal, test)?;
            }
            None => unreachable!(),
        }
        Ok(())
    }

    /// Ends the hole of the test, and goes on behind the expression, whose place it returns. On `OutOfMemory` an allocation
    /// failed.
    pub fn finish<U: ReadsUnit, B>(
        self,
        b: &mut HirBuilder<'_, U, B>,
        test: Place,
    ) -> Result<Place, OutOfMemory>
        ensures same_reference { b.new.env.ghost_name ≡ b.old.env.ghost_name }
        ensures state { OnOk result (state_of U.tables b.new ≡ ternary_ended (ternary_of self) (state_of U.tables b.old) test) }
        ensures composes { OnOk result (TernaryComposes (ternary_of self) (state_of U.tables b.old) (state_of U.tables b.new) test) }
        ensures place { IfOk result (λ p. p ≡ self.place) }
    {
        let Ternary {
            span,
            place,
            behind,
            consequent,
            alternate,
            aside: _,
        } = self;
        let fallthrough = behind.id;
        let terminal = Terminal {
            order: EvaluationOrder(0),
            span: Some(span),
            kind: TerminalKind::Branch {
                test,
                consequent,
                alternate,
                fallthrough,
            },
        };
        b.terminate_with_continuation(terminal, behind)?;
        Ok(place)
    }
}

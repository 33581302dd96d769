//! Parts that the frames of `for`-`in` and `for`-`of` loops hold.

ghost use Rattle.std.specs.Prelude.{◌≡◌, ◌+◌, ◌<◌, ◌^◌, true, is_some, length, OnOk, IfOk};
ghost use Rattle.rl_builder.specs.Builder.{state_of};
ghost use Rattle.rl_frames.specs.Rounds.{rounds_of, rounds_entered, rounds_parted, rounds_bodied, rounds_shut, rounds_headed};
ghost use Rattle.rl_frames.specs.Rounds.{rounds_opened, rounds_ended};

use crate::ends::goto;
use rl_base::error::OutOfMemory;
use rl_base::ids::{BlockId, EvaluationOrder};
use rl_base::span::Span;
use rl_base::text::Text;
use rl_builder::blocks::{Outer, WipBlock};
use rl_builder::builder::HirBuilder;
use rl_builder::jumps::JumpScope;
use rl_builder::unit_tables::ReadsUnit;
use rl_hir::function::BlockKind;
use rl_hir::instruction::Place;
use rl_hir::terminal::{GotoVariant, Terminal, TerminalKind};

/// A loop over keys or values between the calls of its frame.
#[derive(Drop)]
pub(crate) struct RoundParts {
    pub(crate) span: Span,
    /// The block behind the loop.
    pub(crate) behind: WipBlock,
    pub(crate) init: BlockId,
    pub(crate) body: BlockId,
    /// The block that was set aside, until the body has ended.
    outer: Option<Outer>,
    /// The block of the init, until the right side has ended.
    head: Option<WipBlock>,
}

impl RoundParts {
    /// Numbers the block of the body and opens its hole. On `OutOfMemory` an allocation failed.
    pub(crate) fn begin<U: ReadsUnit, B>(
        b: &mut HirBuilder<'_, U, B>,
        span: Span,
        label: Option<Text>,
        behind: WipBlock,
        head: WipBlock,
    ) -> Result<Self, OutOfMemory>
        requires { b.old.env.now.next_block + 1 < 2 ^ 32 }
        ensures same_reference { b.new.env.ghost_name ≡ b.old.env.ghost_name }
        ensures state { OnOk result (state_of U.tables b.new ≡ rounds_entered (state_of U.tables b.old) label behind head) }
        ensures frame { IfOk result (λ f. rounds_of f ≡ rounds_parted (state_of U.tables b.old) span behind head) }
    {
        let first = b.reserve(BlockKind::Block)?;
        let body = first.id;
        let init = head.id;
        let outer = b.enter(first);
        b.open_scope(JumpScope::Loop {
            label,
            continue_block: init,
            break_block: behind.id,
        })?;
        Ok(RoundParts {
            span,
            behind,
            init,
            body,
            outer: Some(outer),
            head: Some(head),
        })
    }

    /// Ends the hole of the body, whose span is `part`, and opens that of the right side. On `OutOfMemory` an allocation failed.
    pub(crate) fn body<U: ReadsUnit, B>(
        &mut self,
        b: &mut HirBuilder<'_, U, B>,
        part: Span,
    ) -> Result<(), OutOfMemory>
        requires open { is_some (rounds_of self.old).outer ≡ true }
        requires scope { 0 < length (state_of U.tables b.old).scopes }
        ensures same_reference { b.new.env.ghost_name ≡ b.old.env.ghost_name }
        ensures state { OnOk result (state_of U.tables b.new ≡ rounds_bodied (rounds_of self.old) (state_of U.tables b.old) part) }
        ensures frame { OnOk result (rounds_of self.new ≡ rounds_shut (rounds_of self.old)) }
    {
        b.close_scope();
        let end = goto(self.init, GotoVariant::Continue, part);
        match self.outer.take() {
            Some(outer) => b.leave(outer, end)?,
            None => unreachable!(),
        }
        Ok(())
    }

    /// Ends the hole of the right side by a terminal of kind `kind`, and begins the init. On `OutOfMemory` an allocation failed.
    pub(crate) fn begin_init<U: ReadsUnit, B>(
        &mut self,
        b: &mut HirBuilder<'_, U, B>,
        kind: TerminalKind,
    ) -> Result<(), OutOfMemory>
        requires open { is_some (rounds_of self.old).head ≡ true }
        ensures same_reference { b.new.env.ghost_name ≡ b.old.env.ghost_name }
        ensures state { OnOk result (state_of U.tables b.new ≡ rounds_headed (rounds_of self.old) kind (state_of U.tables b.old)) }
        ensures frame { OnOk result (rounds_of self.new ≡ rounds_opened (rounds_of self.old)) }
    {
        let terminal = Terminal {
            order: EvaluationOrder(0),
            span: Some(self.span),
            kind,
        };
        match self.head.take() {
            Some(head) => b.terminate_with_continuation(terminal, head)?,
            None => unreachable!(),
        }
        Ok(())
    }

    /// Ends the hole of the assignment, and goes on behind the loop. On `OutOfMemory` an allocation failed.
    pub(crate) fn finish<U: ReadsUnit, B>(
        self,
        b: &mut HirBuilder<'_, U, B>,
        test: Place,
    ) -> Result<(), OutOfMemory>
        ensures same_reference { b.new.env.ghost_name ≡ b.old.env.ghost_name }
        ensures state { OnOk result (state_of U.tables b.new ≡ rounds_ended (rounds_of self) (state_of U.tables b.old) test) }
    {
        let RoundParts {
            span,
            behind,
            init: _,
            body,
            outer: _,
            head: _,
        } = self;
        let alternate = behind.id;
        let terminal = Terminal {
            order: EvaluationOrder(0),
            span: Some(span),
            kind: TerminalKind::Branch {
                test,
                consequent: body,
                alternate,
                fallthrough: alternate,
            },
        };
        b.terminate_with_continuation(terminal, behind)?;
        Ok(())
    }
}

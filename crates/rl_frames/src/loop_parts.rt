//! Parts that the frames of `while` and `do`-`while` loops hold, which differ by one terminal alone.

ghost use Rattle.std.specs.Prelude.{◌≡◌, ◌+◌, ◌<◌, ◌^◌, true, is_some, length, OnOk, IfOk};
ghost use Rattle.rl_builder.specs.Builder.{state_of};
ghost use Rattle.rl_frames.specs.Frames.{loop_of, loop_bodied, while_at, while_after, while_ended};
ghost use Rattle.rl_frames.specs.Parts as spec;

use crate::ends::goto;
use rl_base::error::OutOfMemory;
use rl_base::ids::{BlockId, EvaluationOrder};
use rl_base::span::Span;
use rl_base::text::Text;
use rl_builder::blocks::{Outer, WipBlock};
use rl_builder::builder::HirBuilder;
use rl_builder::jumps::JumpScope;
use rl_builder::unit_tables::ReadsUnit;
use rl_hir::function::BlockKind;
use rl_hir::instruction::Place;
use rl_hir::terminal::{GotoVariant, Terminal, TerminalKind};

/// A loop between the calls of its frame.
#[derive(Drop)]
pub(crate) struct LoopParts {
    span: Span,
    /// The block behind the loop.
    pub(crate) behind: WipBlock,
    pub(crate) test: BlockId,
    pub(crate) body: BlockId,
    /// The block that was set aside and that of the test, until the body has ended.
    aside: Option<(Outer, WipBlock)>,
}

impl LoopParts {
    /// Opens the hole of the body. On `OutOfMemory` an allocation failed.
    pub(crate) fn begin<U: ReadsUnit, B>(
        b: &mut HirBuilder<'_, U, B>,
        span: Span,
        label: Option<Text>,
    ) -> Result<Self, OutOfMemory>
        requires { b.old.env.now.next_block + 3 < 2 ^ 32 }
        ensures same_reference { b.new.env.ghost_name ≡ b.old.env.ghost_name }
        ensures state { OnOk result (state_of U.tables b.new ≡ spec.while_begun (state_of U.tables b.old) label) }
        ensures frame { IfOk result (λ f. loop_of f ≡ while_at (state_of U.tables b.old) span) }
    {
        let test = b.reserve(BlockKind::Loop)?;
        let behind = b.reserve(BlockKind::Block)?;
        let first = b.reserve(BlockKind::Block)?;
        let body = first.id;
        let again = test.id;
        let outer = b.enter(first);
        b.open_scope(JumpScope::Loop {
            label,
            continue_block: again,
            break_block: behind.id,
        })?;
        Ok(LoopParts {
            span,
            behind,
            test: again,
            body,
            aside: Some((outer, test)),
        })
    }

    /// Ends the hole of the body, whose span is `part`, and opens that of the test behind a terminal of kind `kind`. On
    /// `OutOfMemory` an allocation failed.
    pub(crate) fn body<U: ReadsUnit, B>(
        &mut self,
        b: &mut HirBuilder<'_, U, B>,
        part: Span,
        kind: TerminalKind,
    ) -> Result<(), OutOfMemory>
        requires open { is_some (loop_of self.old).aside ≡ true }
        requires scope { 0 < length (state_of U.tables b.old).scopes }
        ensures same_reference { b.new.env.ghost_name ≡ b.old.env.ghost_name }
        ensures state { OnOk result (state_of U.tables b.new ≡ loop_bodied (loop_of self.old) kind (state_of U.tables b.old) part) }
        ensures frame { OnOk result (loop_of self.new ≡ while_after (loop_of self.old)) }
    {
        b.close_scope();
        let end = goto(self.test, GotoVariant::Continue, part);
        match self.aside.take() {
            Some((outer, test)) => {
                b.leave(outer, end)?;
                let terminal = Terminal {
                    order: EvaluationOrder(0),
                    span: Some(self.span),
                    kind,
                };
                b.terminate_with_continuation(terminal, test)?;
            }
            None => unreachable!(),
        }
        Ok(())
    }

    /// Ends the hole of the test, and goes on behind the loop. On `OutOfMemory` an allocation failed.
    pub(crate) fn finish<U: ReadsUnit, B>(
        self,
        b: &mut HirBuilder<'_, U, B>,
        value: Place,
    ) -> Result<(), OutOfMemory>
        ensures same_reference { b.new.env.ghost_name ≡ b.old.env.ghost_name }
        ensures state { OnOk result (state_of U.tables b.new ≡ while_ended (loop_of self) (state_of U.tables b.old) value) }
    {
        let LoopParts {
            span,
            behind,
            test,
            body,
            aside: _,
        } = self;
        let alternate = behind.id;
        let terminal = Terminal {
            order: EvaluationOrder(0),
            span: Some(span),
            kind: TerminalKind::Branch {
                test: value,
                consequent: body,
                alternate,
                fallthrough: test,
            },
        };
        b.terminate_with_continuation(terminal, behind)?;
        Ok(())
    }
}

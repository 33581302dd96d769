//! Labelled statements that are no loops.

ghost use Rattle.std.specs.Prelude.{◌≡◌, ◌+◌, ◌<◌, ◌^◌, length, OnOk, IfOk};
ghost use Rattle.rl_builder.specs.Builder.{state_of};
ghost use Rattle.rl_frames.specs.Frames.{label_of, label_at, label_ended, LabelComposes};
ghost use Rattle.rl_frames.specs.Parts as spec;

use crate::ends::goto;
use rl_base::error::OutOfMemory;
use rl_base::ids::{BlockId, EvaluationOrder};
use rl_base::span::Span;
use rl_base::text::Text;
use rl_builder::blocks::{Outer, WipBlock};
use rl_builder::builder::HirBuilder;
use rl_builder::jumps::JumpScope;
use rl_builder::unit_tables::ReadsUnit;
use rl_hir::function::BlockKind;
use rl_hir::terminal::{GotoVariant, Terminal, TerminalKind};

/// A labelled statement whose body the caller lowers in one hole.
#[derive(Drop)]
pub struct LabelFrame {
    span: Span,
    /// The block behind the statement.
    behind: WipBlock,
    block: BlockId,
    /// The block that was set aside.
    outer: Outer,
}

impl LabelFrame {
    /// Opens the hole of the body. On `OutOfMemory` an allocation failed.
    pub fn begin<U: ReadsUnit, B>(
        b: &mut HirBuilder<'_, U, B>,
        span: Span,
        label: Text,
    ) -> Result<Self, OutOfMemory>
        requires { b.old.env.now.next_block + 2 < 2 ^ 32 }
        ensures same_reference { b.new.env.ghost_name ≡ b.old.env.ghost_name }
        ensures state { OnOk result (state_of U.tables b.new ≡ spec.label_begun (state_of U.tables b.old) label) }
        ensures frame { IfOk result (λ f. label_of f ≡ label_at (state_of U.tables b.old) span) }
    {
        let behind = b.reserve(BlockKind::Block)?;
        let first = b.reserve(BlockKind::Block)?;
        let block = first.id;
        let outer = b.enter(first);
        b.open_scope(JumpScope::Label {
            label,
            break_block: behind.id,
        })?;
        Ok(LabelFrame {
            span,
            behind,
            block,
            outer,
        })
    }

    /// Ends the hole of the body, and goes on behind the statement. `part` is the span of the body. On `OutOfMemory` an allocation
    /// failed.
    pub fn finish<U: ReadsUnit, B>(
        self,
        b: &mut HirBuilder<'_, U, B>,
        part: Span,
    ) -> Result<(), OutOfMemory>
        requires scope { 0 < length (state_of U.tables b.old).scopes }
        ensures same_reference { b.new.env.ghost_name ≡ b.old.env.ghost_name }
        ensures state { OnOk result (state_of U.tables b.new ≡ label_ended (label_of self) (state_of U.tables b.old) part) }
        ensures composes { OnOk result (LabelComposes (label_of self) (state_of U.tables b.old) (state_of U.tables b.new)) }
    {
        let LabelFrame {
            span,
            behind,
            block,
            outer,
        } = self;
        b.close_scope();
        let end = goto(behind.id, GotoVariant::Break, part);
        b.leave(outer, end)?;
        let fallthrough = behind.id;
        let terminal = Terminal {
            order: EvaluationOrder(0),
            span: Some(span),
            kind: TerminalKind::Label { block, fallthrough },
        };
        b.terminate_with_continuation(terminal, behind)?;
        Ok(())
    }
}

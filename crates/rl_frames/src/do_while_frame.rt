//! `do`-`while` loops.

ghost use Rattle.std.specs.Prelude.{◌≡◌, ◌+◌, ◌<◌, ◌^◌, true, is_some, length, OnOk, IfOk};
ghost use Rattle.rl_builder.specs.Builder.{state_of};
ghost use Rattle.rl_frames.specs.Frames.{do_while_of, do_while_bodied, while_at, while_after, while_ended, DoWhileComposes};
ghost use Rattle.rl_frames.specs.Parts as spec;

use crate::loop_parts::LoopParts;
use rl_base::error::OutOfMemory;
use rl_base::span::Span;
use rl_base::text::Text;
use rl_builder::builder::HirBuilder;
use rl_builder::unit_tables::ReadsUnit;
use rl_hir::instruction::Place;
use rl_hir::terminal::TerminalKind;

/// A `do`-`while` loop whose holes are lowered by the caller: the body, and then the test.
#[derive(Drop)]
pub struct DoWhileFrame {
    parts: LoopParts,
}

impl DoWhileFrame {
    /// Opens the hole of the body. On `OutOfMemory` an allocation failed.
    pub fn begin<U: ReadsUnit, B>(
        b: &mut HirBuilder<'_, U, B>,
        span: Span,
        label: Option<Text>,
    ) -> Result<Self, OutOfMemory>
        requires { b.old.env.now.next_block + 3 < 2 ^ 32 }
        ensures same_reference { b.new.env.ghost_name ≡ b.old.env.ghost_name }
        ensures state { OnOk result (state_of U.tables b.new ≡ spec.while_begun (state_of U.tables b.old) label) }
        ensures frame { IfOk result (λ f. do_while_of f ≡ while_at (state_of U.tables b.old) span) }
    {
        let parts = LoopParts::begin(b, span, label)?;
        Ok(DoWhileFrame { parts })
    }

    /// Ends the hole of the body, and opens that of the test. On `OutOfMemory` an allocation failed.
    pub fn body<U: ReadsUnit, B>(
        &mut self,
        b: &mut HirBuilder<'_, U, B>,
        part: Span,
    ) -> Result<(), OutOfMemory>
        requires open { is_some (do_while_of self.old).aside ≡ true }
        requires scope { 0 < length (state_of U.tables b.old).scopes }
        ensures same_reference { b.new.env.ghost_name ≡ b.old.env.ghost_name }
        ensures state { OnOk result (state_of U.tables b.new ≡ do_while_bodied (do_while_of self.old) (state_of U.tables b.old) part) }
        ensures frame { OnOk result (do_while_of self.new ≡ while_after (do_while_of self.old)) }
    {
        let kind = TerminalKind::DoWhile {
            loop_block: self.parts.body,
            test: self.parts.test,
            fallthrough: self.parts.behind.id,
        };
        self.parts.body(b, part, kind)
    }

    /// Ends the hole of the test, and goes on behind the loop. On `OutOfMemory` an allocation failed.
    pub fn finish<U: ReadsUnit, B>(
        self,
        b: &mut HirBuilder<'_, U, B>,
        value: Place,
    ) -> Result<(), OutOfMemory>
        ensures same_reference { b.new.env.ghost_name ≡ b.old.env.ghost_name }
        ensures state { OnOk result (state_of U.tables b.new ≡ while_ended (do_while_of self) (state_of U.tables b.old) value) }
        ensures composes { OnOk result (DoWhileComposes (do_while_of self) (state_of U.tables b.old) (state_of U.tables b.new) value) }
    {
        self.parts.finish(b, value)?;
        Ok(())
    }
}

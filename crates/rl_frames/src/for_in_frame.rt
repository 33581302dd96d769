//! `for`-`in` loops.

ghost use Rattle.std.specs.Prelude.{◌≡◌, ◌+◌, ◌<◌, ◌^◌, true, is_some, length, OnOk, IfOk};
ghost use Rattle.rl_builder.specs.Builder.{state_of};
ghost use Rattle.rl_frames.specs.Parts as spec;
ghost use Rattle.rl_frames.specs.Rounds.{forin_of, forin_at, forin_righted, forin_key, ForInComposes};
ghost use Rattle.rl_frames.specs.Rounds.{rounds_bodied, rounds_shut, rounds_opened, rounds_ended};
ghost use Rattle.rl_runs.specs.Blocks.{size_of};

use crate::ends::put_value;
use crate::round_parts::RoundParts;
use rl_base::error::OutOfMemory;
use rl_base::span::Span;
use rl_base::text::Text;
use rl_builder::builder::HirBuilder;
use rl_builder::unit_tables::ReadsUnit;
use rl_hir::function::BlockKind;
use rl_hir::instruction::{InstructionValue, Place};
use rl_hir::terminal::TerminalKind;

/// A `for`-`in` loop whose holes are lowered by the caller: the body, the right side, and then the assignment of the next key.
#[derive(Drop)]
pub struct ForInFrame {
    parts: RoundParts,
}

impl ForInFrame {
    /// Opens the hole of the body. On `OutOfMemory` an allocation failed.
    pub fn begin<U: ReadsUnit, B>(
        b: &mut HirBuilder<'_, U, B>,
        span: Span,
        label: Option<Text>,
    ) -> Result<Self, OutOfMemory>
        requires { b.old.env.now.next_block + 3 < 2 ^ 32 }
        ensures same_reference { b.new.env.ghost_name ≡ b.old.env.ghost_name }
        ensures state { OnOk result (state_of U.tables b.new ≡ spec.forin_begun (state_of U.tables b.old) label) }
        ensures frame { IfOk result (λ f. forin_of f ≡ forin_at (state_of U.tables b.old) span) }
    {
        let behind = b.reserve(BlockKind::Block)?;
        let init = b.reserve(BlockKind::Loop)?;
        let parts = RoundParts::begin(b, span, label, behind, init)?;
        Ok(ForInFrame { parts })
    }

    /// Ends the hole of the body, and opens that of the right side. On `OutOfMemory` an allocation failed.
    pub fn body<U: ReadsUnit, B>(
        &mut self,
        b: &mut HirBuilder<'_, U, B>,
        part: Span,
    ) -> Result<(), OutOfMemory>
        requires open { is_some (forin_of self.old).outer ≡ true }
        requires scope { 0 < length (state_of U.tables b.old).scopes }
        ensures same_reference { b.new.env.ghost_name ≡ b.old.env.ghost_name }
        ensures state { OnOk result (state_of U.tables b.new ≡ rounds_bodied (forin_of self.old) (state_of U.tables b.old) part) }
        ensures frame { OnOk result (forin_of self.new ≡ rounds_shut (forin_of self.old)) }
    {
        self.parts.body(b, part)
    }

    /// Ends the hole of the right side, whose value is the object, and opens that of the assignment. `part` is the span of the head.
    /// Returns the key to assign. On `OutOfMemory` an allocation failed.
    pub fn right<U: ReadsUnit, B>(
        &mut self,
        b: &mut HirBuilder<'_, U, B>,
        part: Span,
        value: Place,
    ) -> Result<Place, OutOfMemory>
        requires open { is_some (forin_of self.old).head ≡ true }
        requires room { size_of (state_of U.tables b.old) + 4 < 2 ^ 32 }
        ensures same_reference { b.new.env.ghost_name ≡ b.old.env.ghost_name }
        ensures state { OnOk result (state_of U.tables b.new ≡ forin_righted (forin_of self.old) (state_of U.tables b.old) part value) }
        ensures frame { OnOk result (forin_of self.new ≡ rounds_opened (forin_of self.old)) }
        ensures place { IfOk result (λ p. p ≡ forin_key (forin_of self.old) (state_of U.tables b.old) part) }
    {
        let kind = TerminalKind::ForIn {
            init: self.parts.init,
            loop_block: self.parts.body,
            fallthrough: self.parts.behind.id,
        };
        self.parts.begin_init(b, kind)?;
        let key = put_value(b, InstructionValue::NextPropertyOf(value), Some(part))?;
        Ok(key)
    }

    /// Ends the hole of the assignment, and goes on behind the loop. `test` is the place that the assignment left. On `OutOfMemory`
    /// an allocation failed.
    pub fn finish<U: ReadsUnit, B>(
        self,
        b: &mut HirBuilder<'_, U, B>,
        test: Place,
    ) -> Result<(), OutOfMemory>
        ensures same_reference { b.new.env.ghost_name ≡ b.old.env.ghost_name }
        ensures state { OnOk result (state_of U.tables b.new ≡ rounds_ended (forin_of self) (state_of U.tables b.old) test) }
        ensures composes { OnOk result (ForInComposes (forin_of self) (state_of U.tables b.old) (state_of U.tables b.new) test) }
    {
        self.parts.finish(b, test)?;
        Ok(())
    }
}

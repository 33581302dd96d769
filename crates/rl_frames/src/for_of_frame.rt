//! `for`-`of` loops.

ghost use Rattle.std.specs.Prelude.{◌≡◌, ◌+◌, ◌<◌, ◌^◌, true, is_some, length, OnOk, IfOk};
ghost use Rattle.rl_builder.specs.Builder.{state_of};
ghost use Rattle.rl_frames.specs.Parts as spec;
ghost use Rattle.rl_frames.specs.Rounds.{forof_of, forof_at, forof_bodied, forof_shut, forof_righted, forof_item, forof_after, forof_ended};
ghost use Rattle.rl_frames.specs.Rounds.{ForOfComposes};
ghost use Rattle.rl_runs.specs.Blocks.{size_of};

use crate::ends::{goto, put_value};
use crate::round_parts::RoundParts;
use rl_base::error::OutOfMemory;
use rl_base::span::Span;
use rl_base::text::Text;
use rl_builder::blocks::WipBlock;
use rl_builder::builder::HirBuilder;
use rl_builder::unit_tables::ReadsUnit;
use rl_hir::function::BlockKind;
use rl_hir::instruction::{InstructionValue, Place};
use rl_hir::terminal::{GotoVariant, TerminalKind};

/// A `for`-`of` loop whose holes are lowered by the caller: the body, the right side, and then the assignment of the next value.
#[derive(Drop)]
pub struct ForOfFrame {
    parts: RoundParts,
    /// The block of the test, until the right side has ended.
    test: Option<WipBlock>,
}

impl ForOfFrame {
    /// Opens the hole of the body. On `OutOfMemory` an allocation failed.
    pub fn begin<U: ReadsUnit, B>(
        b: &mut HirBuilder<'_, U, B>,
        span: Span,
        label: Option<Text>,
    ) -> Result<Self, OutOfMemory>
        requires { b.old.env.now.next_block + 4 < 2 ^ 32 }
        ensures same_reference { b.new.env.ghost_name ≡ b.old.env.ghost_name }
        ensures state { OnOk result (state_of U.tables b.new ≡ spec.forof_begun (state_of U.tables b.old) label) }
        ensures frame { IfOk result (λ f. forof_of f ≡ forof_at (state_of U.tables b.old) span) }
    {
        let behind = b.reserve(BlockKind::Block)?;
        let init = b.reserve(BlockKind::Loop)?;
        let test = b.reserve(BlockKind::Loop)?;
        let parts = RoundParts::begin(b, span, label, behind, init)?;
        Ok(ForOfFrame {
            parts,
            test: Some(test),
        })
    }

    /// Ends the hole of the body, and opens that of the right side. On `OutOfMemory` an allocation failed.
    pub fn body<U: ReadsUnit, B>(
        &mut self,
        b: &mut HirBuilder<'_, U, B>,
        part: Span,
    ) -> Result<(), OutOfMemory>
        requires open { is_some (forof_of self.old).rounds.outer ≡ true }
        requires scope { 0 < length (state_of U.tables b.old).scopes }
        ensures same_reference { b.new.env.ghost_name ≡ b.old.env.ghost_name }
        ensures state { OnOk result (state_of U.tables b.new ≡ forof_bodied (forof_of self.old) (state_of U.tables b.old) part) }
        ensures frame { OnOk result (forof_of self.new ≡ forof_shut (forof_of self.old)) }
    {
        self.parts.body(b, part)
    }

    /// Ends the hole of the right side, whose value is the collection, and opens that of the assignment. `part` is the span of the
    /// head. Returns the value to assign. On `OutOfMemory` an allocation failed.
    pub fn right<U: ReadsUnit, B>(
        &mut self,
        b: &mut HirBuilder<'_, U, B>,
        part: Span,
        value: Place,
    ) -> Result<Place, OutOfMemory>
        requires open { is_some (forof_of self.old).rounds.head ≡ true }
        requires tests { is_some (forof_of self.old).test ≡ true }
        requires room { size_of (state_of U.tables b.old) + 8 < 2 ^ 32 }
        ensures same_reference { b.new.env.ghost_name ≡ b.old.env.ghost_name }
        ensures state { OnOk result (state_of U.tables b.new ≡ forof_righted (forof_of self.old) (state_of U.tables b.old) part value) }
        ensures frame { OnOk result (forof_of self.new ≡ forof_after (forof_of self.old)) }
        ensures place { IfOk result (λ p. p ≡ forof_item (forof_of self.old) (state_of U.tables b.old) part value) }
    {
        match self.test.take() {
            Some(test) => {
                let again = test.id;
                let kind = TerminalKind::ForOf {
                    init: self.parts.init,
                    test: again,
                    loop_block: self.parts.body,
                    fallthrough: self.parts.behind.id,
                };
                self.parts.begin_init(b, kind)?;
                let iterator = put_value(b, InstructionValue::GetIterator(value), value.span)?;
                let end = goto(again, GotoVariant::Break, self.parts.span);
                b.terminate_with_continuation(end, test)?;
                let next = InstructionValue::IteratorNext {
                    iterator,
                    collection: value,
                };
                let item = put_value(b, next, Some(part))?;
                Ok(item)
            }
            None => unreachable!(),
        }
    }

    /// Ends the hole of the assignment, and goes on behind the loop. `test` is the place that the assignment left. On `OutOfMemory`
    /// an allocation failed.
    pub fn finish<U: ReadsUnit, B>(
        self,
        b: &mut HirBuilder<'_, U, B>,
        test: Place,
    ) -> Result<(), OutOfMemory>
        ensures same_reference { b.new.env.ghost_name ≡ b.old.env.ghost_name }
        ensures state { OnOk result (state_of U.tables b.new ≡ forof_ended (forof_of self) (state_of U.tables b.old) test) }
        ensures composes { OnOk result (ForOfComposes (forof_of self) (state_of U.tables b.old) (state_of U.tables b.new) test) }
    {
        let ForOfFrame { parts, test: _ } = self;
        parts.finish(b, test)?;
        Ok(())
    }
}

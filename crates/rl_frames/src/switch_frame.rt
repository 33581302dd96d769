//! `switch` statements.

ghost use Rattle.std.specs.Prelude.{◌≡◌, ◌+◌, ◌<◌, ◌^◌, [], true, is_some, length, reverse, OnOk, IfOk};
ghost use Rattle.rl_builder.specs.Builder.{state_of};
ghost use Rattle.rl_frames.specs.SwitchParts as spec;
ghost use Rattle.rl_frames.specs.SwitchParts.{switch_of};
ghost use Rattle.rl_frames.specs.SwitchCases.{SwitchComposes};

use crate::ends::goto;
use rl_base::error::OutOfMemory;
use rl_base::ids::{BlockId, EvaluationOrder};
use rl_base::list::List;
use rl_base::span::Span;
use rl_base::text::Text;
use rl_builder::blocks::{Outer, WipBlock};
use rl_builder::builder::HirBuilder;
use rl_builder::jumps::JumpScope;
use rl_builder::unit_tables::ReadsUnit;
use rl_hir::function::BlockKind;
use rl_hir::instruction::Place;
use rl_hir::terminal::{Case, GotoVariant, Terminal, TerminalKind};

/// A `switch` statement whose holes are lowered by the caller: of each case from the last to the first the statements and then the
/// test, and at last the value that is compared.
#[derive(Drop)]
pub struct SwitchFrame {
    span: Span,
    label: Option<Text>,
    /// The block behind the statement.
    behind: WipBlock,
    /// The cases, the last one first.
    cases: Vec<Case>,
    has_default: bool,
    /// The block to which the next case falls through.
    fall: BlockId,
    /// The block of the case whose hole was opened last.
    block: BlockId,
    /// The block that was set aside, while the hole of a case's statements is open.
    outer: Option<Outer>,
}

/// The cases from the first to the last, with one more that goes to the block `behind` if none is the default. On `OutOfMemory` an
/// allocation failed.
fn in_order(
    mut cases: Vec<Case>,
    has_default: bool,
    behind: BlockId,
) -> Result<List<Case>, OutOfMemory>
    ensures { IfOk result (λ list. list ≡ spec.with_default has_default (reverse cases.items) behind.0) }
{
    cases.reverse();
    if !has_default {
        cases.push(Case {
            test: None,
            block: behind,
        })?;
    }
    Ok(List::from_vec(cases))
}

impl SwitchFrame {
    /// Numbers the block behind the statement. On `OutOfMemory` an allocation failed.
    pub fn begin<U: ReadsUnit, B>(
        b: &mut HirBuilder<'_, U, B>,
        span: Span,
        label: Option<Text>,
    ) -> Result<Self, OutOfMemory>
        requires { b.old.env.now.next_block + 1 < 2 ^ 32 }
        ensures same_reference { b.new.env.ghost_name ≡ b.old.env.ghost_name }
        ensures state { OnOk result (state_of U.tables b.new ≡ spec.switch_begun (state_of U.tables b.old)) }
        ensures frame { IfOk result (λ f. switch_of f ≡ spec.switch_at (state_of U.tables b.old) span label []) }
    {
        let behind = b.reserve(BlockKind::Block)?;
        let fall = behind.id;
        let marks = behind.instructions.empty_beside().into_vec();
        Ok(SwitchFrame {
            span,
            label,
            behind,
            cases: Vec::new(*marks.allocator()),
            has_default: false,
            fall,
            block: fall,
            outer: None,
        })
    }

    /// A copy of the label. On `OutOfMemory` an allocation failed.
    fn own_label(&self) -> Result<Option<Text>, OutOfMemory>
        ensures { IfOk result (λ label. label ≡ (switch_of self.now).label) }
    {
        match &self.label {
            Some(label) => Ok(Some(label.copy(*self.cases.allocator())?)),
            None => Ok(None),
        }
    }

    /// Opens the hole of a case's statements, of the last case first. On `OutOfMemory` an allocation failed.
    pub fn enter<U: ReadsUnit, B>(
        &mut self,
        b: &mut HirBuilder<'_, U, B>,
    ) -> Result<(), OutOfMemory>
        requires { b.old.env.now.next_block + 1 < 2 ^ 32 }
        ensures same_reference { b.new.env.ghost_name ≡ b.old.env.ghost_name }
        ensures state { OnOk result (state_of U.tables b.new ≡ spec.switch_entered (switch_of self.old) (state_of U.tables b.old)) }
        ensures frame { OnOk result (switch_of self.new ≡ spec.switch_after_enter (switch_of self.old) (state_of U.tables b.old)) }
    {
        let label = self.own_label()?;
        let first = b.reserve(BlockKind::Block)?;
        let break_block = self.behind.id;
        self.block = first.id;
        self.outer = Some(b.enter(first));
        b.open_scope(JumpScope::Switch { label, break_block })
    }

    /// Ends the hole of a case's statements; the hole of its test opens, if it has one. `part` is the span of the case. On `OutOfMemory`
    /// an allocation failed.
    pub fn leave<U: ReadsUnit, B>(
        &mut self,
        b: &mut HirBuilder<'_, U, B>,
        part: Span,
    ) -> Result<(), OutOfMemory>
        requires open { is_some (switch_of self.old).outer ≡ true }
        requires scope { 0 < length (state_of U.tables b.old).scopes }
        ensures same_reference { b.new.env.ghost_name ≡ b.old.env.ghost_name }
        ensures state { OnOk result (state_of U.tables b.new ≡ spec.switch_left (switch_of self.old) (state_of U.tables b.old) part) }
        ensures frame { OnOk result (switch_of self.new ≡ spec.switch_after_leave (switch_of self.old)) }
    {
        b.close_scope();
        let end = goto(self.fall, GotoVariant::Break, part);
        match self.outer.take() {
            Some(outer) => {
                b.leave(outer, end)?;
            }
            None => unreachable!(),
        }
        Ok(())
    }

    /// Takes the value of a case's test, which a default has not; the hole of the next case may open, or that of the value. On
    /// `OutOfMemory` an allocation failed.
    pub fn done(&mut self, test: Option<Place>) -> Result<(), OutOfMemory>
        ensures { OnOk result (switch_of self.new ≡ spec.switch_after_done (switch_of self.old) test) }
    {
        let block = self.block;
        self.cases.push(Case { test, block })?;
        self.fall = block;
        match test {
            Some(_) => {}
            None => self.has_default = true,
        }
        Ok(())
    }

    /// Ends the hole of the value, and goes on behind the statement. On `OutOfMemory` an allocation failed.
    pub fn finish<U: ReadsUnit, B>(
        self,
        b: &mut HirBuilder<'_, U, B>,
        discriminant: Place,
    ) -> Result<(), OutOfMemory>
        ensures same_reference { b.new.env.ghost_name ≡ b.old.env.ghost_name }
        ensures state { OnOk result (state_of U.tables b.new ≡ spec.switch_ended (switch_of self) (state_of U.tables b.old) discriminant) }
        ensures composes { OnOk result (SwitchComposes (switch_of self) (state_of U.tables b.old) (state_of U.tables b.new) discriminant) }
    {
        let SwitchFrame {
            span,
            label: _,
            behind,
            cases,
            has_default,
            fall: _,
            block: _,
            outer: _,
        } = self;
        let fallthrough = behind.id;
        let cases = in_order(cases, has_default, fallthrough)?;
        let terminal = Terminal {
            order: EvaluationOrder(0),
            span: Some(span),
            kind: TerminalKind::Switch {
                test: discriminant,
                cases,
                fallthrough,
            },
        };
        b.terminate_with_continuation(terminal, behind)?;
        Ok(())
    }
}

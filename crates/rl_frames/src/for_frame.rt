//! `for` loops with a test.

ghost use Rattle.std.specs.Prelude.{◌≡◌, ◌+◌, ◌<◌, ◌^◌, true, is_some, length, OnOk, IfOk};
ghost use Rattle.rl_builder.specs.Builder.{state_of};
ghost use Rattle.rl_frames.specs.Frames.{for_of, for_at, for_inited, for_after_init, for_updated, for_after_update};
ghost use Rattle.rl_frames.specs.Frames.{for_again, for_opened, for_entered, for_shut, for_bodied, for_after, for_ended, ForComposes};
ghost use Rattle.rl_frames.specs.Parts as spec;

use crate::ends::goto;
use rl_base::error::OutOfMemory;
use rl_base::ids::{BlockId, EvaluationOrder};
use rl_base::span::Span;
use rl_base::text::Text;
use rl_builder::blocks::{Outer, WipBlock};
use rl_builder::builder::HirBuilder;
use rl_builder::jumps::JumpScope;
use rl_builder::unit_tables::ReadsUnit;
use rl_hir::function::BlockKind;
use rl_hir::instruction::Place;
use rl_hir::terminal::{GotoVariant, Terminal, TerminalKind};

/// A `for` loop whose holes are lowered by the caller: the init, the update where there is one, the body, and then the test.
#[derive(Drop)]
pub struct ForFrame {
    span: Span,
    /// The label, until the body's hole has opened.
    label: Option<Text>,
    /// The block behind the loop.
    behind: WipBlock,
    test: BlockId,
    init: BlockId,
    update: Option<BlockId>,
    /// The block of the init, until the body's hole has opened.
    body: BlockId,
    has_update: bool,
    /// The block that was set aside and that of the test, until the body has ended.
    aside: Option<(Outer, WipBlock)>,
}

impl ForFrame {
    /// Opens the hole of the init. On `OutOfMemory` an allocation failed.
    pub fn begin<U: ReadsUnit, B>(
        b: &mut HirBuilder<'_, U, B>,
        span: Span,
        label: Option<Text>,
        has_update: bool,
    ) -> Result<Self, OutOfMemory>
        requires { b.old.env.now.next_block + 3 < 2 ^ 32 }
        ensures same_reference { b.new.env.ghost_name ≡ b.old.env.ghost_name }
        ensures state { OnOk result (state_of U.tables b.new ≡ spec.for_begun (state_of U.tables b.old)) }
        ensures frame { IfOk result (λ f. for_of f ≡ for_at (state_of U.tables b.old) span label has_update) }
    {
        let test = b.reserve(BlockKind::Loop)?;
        let behind = b.reserve(BlockKind::Block)?;
        let first = b.reserve(BlockKind::Loop)?;
        let init = first.id;
        let again = test.id;
        let outer = b.enter(first);
        Ok(ForFrame {
            span,
            label,
            behind,
            test: again,
            init,
            update: None,
            body: init,
            has_update,
            aside: Some((outer, test)),
        })
    }

    /// The block to which a `continue` goes: that of the update, or that of the test if there is none.
    fn again(&self) -> BlockId
        ensures { result ≡ for_again (for_of self.now) }
    {
        match self.update {
            Some(update) => update,
            None => self.test,
        }
    }

    /// Ends the hole in front of the body, whose span is `part`, and opens that of the body. On `OutOfMemory` an allocation failed.
    fn begin_body<U: ReadsUnit, B>(
        &mut self,
        b: &mut HirBuilder<'_, U, B>,
        part: Span,
    ) -> Result<(), OutOfMemory>
        requires { b.old.env.now.next_block + 1 < 2 ^ 32 }
        ensures same_reference { b.new.env.ghost_name ≡ b.old.env.ghost_name }
        ensures state { OnOk result (state_of U.tables b.new ≡ for_opened (for_of self.old) (state_of U.tables b.old) part) }
        ensures frame { OnOk result (for_of self.new ≡ for_entered (for_of self.old) (state_of U.tables b.old)) }
    {
        let next = b.reserve(BlockKind::Block)?;
        let continue_block = self.again();
        let break_block = self.behind.id;
        let label = self.label.take();
        self.body = next.id;
        b.terminate_with_continuation(goto(self.test, GotoVariant::Break, part), next)?;
        b.open_scope(JumpScope::Loop {
            label,
            continue_block,
            break_block,
        })
    }

    /// Ends the hole of the init, and opens that of the update, or of the body if there is none. On `OutOfMemory` an allocation
    /// failed.
    pub fn init<U: ReadsUnit, B>(
        &mut self,
        b: &mut HirBuilder<'_, U, B>,
        part: Span,
    ) -> Result<(), OutOfMemory>
        requires { b.old.env.now.next_block + 1 < 2 ^ 32 }
        ensures same_reference { b.new.env.ghost_name ≡ b.old.env.ghost_name }
        ensures state { OnOk result (state_of U.tables b.new ≡ for_inited (for_of self.old) (state_of U.tables b.old) part) }
        ensures frame { OnOk result (for_of self.new ≡ for_after_init (for_of self.old) (state_of U.tables b.old)) }
    {
        if self.has_update {
            let next = b.reserve(BlockKind::Loop)?;
            self.update = Some(next.id);
            return b.terminate_with_continuation(goto(self.test, GotoVariant::Break, part), next);
        }
        self.begin_body(b, part)
    }

    /// Ends the hole of the update, and opens that of the body. On `OutOfMemory` an allocation failed.
    pub fn update<U: ReadsUnit, B>(
        &mut self,
        b: &mut HirBuilder<'_, U, B>,
        part: Span,
    ) -> Result<(), OutOfMemory>
        requires { b.old.env.now.next_block + 1 < 2 ^ 32 }
        ensures same_reference { b.new.env.ghost_name ≡ b.old.env.ghost_name }
        ensures state { OnOk result (state_of U.tables b.new ≡ for_updated (for_of self.old) (state_of U.tables b.old) part) }
        ensures frame { OnOk result (for_of self.new ≡ for_after_update (for_of self.old) (state_of U.tables b.old)) }
    {
        self.begin_body(b, part)
    }

    /// Closes the body's scope and ends its hole by `end`, and opens the hole of the test behind a terminal of kind `kind`. On
    /// `OutOfMemory` an allocation failed.
    fn shut<U: ReadsUnit, B>(
        &mut self,
        b: &mut HirBuilder<'_, U, B>,
        end: Terminal,
        kind: TerminalKind,
    ) -> Result<(), OutOfMemory>
        requires open { is_some (for_of self.old).aside ≡ true }
        requires scope { 0 < length (state_of U.tables b.old).scopes }
        ensures same_reference { b.new.env.ghost_name ≡ b.old.env.ghost_name }
        ensures state { OnOk result (state_of U.tables b.new ≡ for_shut (for_of self.old) end kind (state_of U.tables b.old)) }
        ensures frame { OnOk result (for_of self.new ≡ for_after (for_of self.old)) }
    {
        b.close_scope();
        match self.aside.take() {
            Some((outer, test)) => {
                b.leave(outer, end)?;
                let terminal = Terminal {
                    order: EvaluationOrder(0),
                    span: Some(self.span),
                    kind,
                };
                b.terminate_with_continuation(terminal, test)?;
            }
            None => unreachable!(),
        }
        Ok(())
    }

    /// Ends the hole of the body, and opens that of the test. On `OutOfMemory` an allocation failed.
    pub fn body<U: ReadsUnit, B>(
        &mut self,
        b: &mut HirBuilder<'_, U, B>,
        part: Span,
    ) -> Result<(), OutOfMemory>
        requires open { is_some (for_of self.old).aside ≡ true }
        requires scope { 0 < length (state_of U.tables b.old).scopes }
        ensures same_reference { b.new.env.ghost_name ≡ b.old.env.ghost_name }
        ensures state { OnOk result (state_of U.tables b.new ≡ for_bodied (for_of self.old) (state_of U.tables b.old) part) }
        ensures frame { OnOk result (for_of self.new ≡ for_after (for_of self.old)) }
    {
        let kind = TerminalKind::For {
            init: self.init,
            test: self.test,
            update: self.update,
            loop_block: self.body,
            fallthrough: self.behind.id,
        };
        let end = goto(self.again(), GotoVariant::Continue, part);
        self.shut(b, end, kind)
    }

    /// Ends the hole of the test, and goes on behind the loop. On `OutOfMemory` an allocation failed.
    pub fn finish<U: ReadsUnit, B>(
        self,
        b: &mut HirBuilder<'_, U, B>,
        value: Place,
    ) -> Result<(), OutOfMemory>
        ensures same_reference { b.new.env.ghost_name ≡ b.old.env.ghost_name }
        ensures state { OnOk result (state_of U.tables b.new ≡ for_ended (for_of self) (state_of U.tables b.old) value) }
        ensures composes { OnOk result (ForComposes (for_of self) (state_of U.tables b.old) (state_of U.tables b.new) value) }
    {
        let ForFrame {
            span,
            label: _,
            behind,
            test: _,
            init: _,
            update: _,
            body,
            has_update: _,
            aside: _,
        } = self;
        let alternate = behind.id;
        let terminal = Terminal {
            order: EvaluationOrder(0),
            span: Some(span),
            kind: TerminalKind::Branch {
                test: value,
                consequent: body,
                alternate,
                fallthrough: alternate,
            },
        };
        b.terminate_with_continuation(terminal, behind)?;
        Ok(())
    }
}

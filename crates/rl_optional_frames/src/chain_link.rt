//! Links of optional chains.

ghost use Rattle.std.specs.Prelude.{◌≡◌, ◌+◌, ◌<◌, ◌≤◌, ◌^◌, true, is_some, OnOk, IfOk};
ghost use Rattle.rl_builder.specs.Builder.{state_of};
ghost use Rattle.rl_optional_frames.specs.Frames.{link_of, link_at, link_objected, link_after, link_ended, LinkComposes};
ghost use Rattle.rl_optional_frames.specs.Parts as spec;
ghost use Rattle.rl_runs.specs.Blocks.{size_of};
ghost use Rattle.rl_runs.specs.Moves.{block_id};

use crate::ends::{ends_by, goes_behind, put_value, store_in};
use rl_base::error::OutOfMemory;
use rl_base::ids::BlockId;
use rl_base::span::Span;
use rl_builder::blocks::{Outer, WipBlock};
use rl_builder::builder::HirBuilder;
use rl_builder::unit_tables::ReadsUnit;
use rl_hir::function::BlockKind;
use rl_hir::instruction::{InstructionValue, Place, PrimitiveValue};
use rl_hir::terminal::TerminalKind;

/// A link of an optional chain whose holes are lowered by the caller: the object or callee, and then the link behind it. All links of
/// a chain share the block in which the chain ends early (`lowerOptionalMemberExpression`, `lowerOptionalCallExpression`).
#[derive(Drop)]
pub struct ChainLink {
    span: Span,
    /// True of a link at which the chain ends early where its object or callee is null or undefined.
    optional: bool,
    /// The place of the value.
    place: Place,
    /// The block behind the link.
    behind: WipBlock,
    /// The block in which the chain ends early.
    alternate: BlockId,
    test: BlockId,
    /// The block of the link, until the object or callee has ended.
    link: Option<WipBlock>,
    /// The block that was set aside.
    outer: Outer,
}

impl ChainLink {
    /// Opens the hole of the object or callee. `alternate` is the block in which the chain ends early, as a link around this one gives
    /// it; the outermost link is given none and makes that block. On `OutOfMemory` an allocation failed.
    pub fn begin<U: ReadsUnit, B>(
        b: &mut HirBuilder<'_, U, B>,
        span: Span,
        optional: bool,
        alternate: Option<BlockId>,
    ) -> Result<Self, OutOfMemory>
        requires room { size_of (state_of U.tables b.old) + 14 < 2 ^ 32 }
        ensures same_reference { b.new.env.ghost_name ≡ b.old.env.ghost_name }
        ensures state { OnOk result (state_of U.tables b.new ≡ spec.link_opened alternate (state_of U.tables b.old) span) }
        ensures frame { IfOk result (λ f. link_of f ≡ link_at (state_of U.tables b.old) span optional alternate) }
    {
        let kind = b.current_block_kind();
        let behind = b.reserve(kind)?;
        let link = b.reserve(BlockKind::Value)?;
        let place = b.create_temporary_place(Some(span))?;
        let alternate = early_end(b, alternate, place, behind.id, span)?;
        let first = b.reserve(BlockKind::Value)?;
        let test = first.id;
        let outer = b.enter(first);
        Ok(ChainLink {
            span,
            optional,
            place,
            behind,
            alternate,
            test,
            link: Some(link),
            outer,
        })
    }

    /// The block in which the chain ends early, for the links inside this one.
    pub fn alternate(&self) -> BlockId
        ensures { result ≡ (link_of self.now).alternate }
    {
        self.alternate
    }

    /// Ends the hole of the object or callee with its value, and opens that of the link. On `OutOfMemory` an allocation failed.
    pub fn object<U: ReadsUnit, B>(
        &mut self,
        b: &mut HirBuilder<'_, U, B>,
        object: Place,
    ) -> Result<(), OutOfMemory>
        requires open { is_some (link_of self.old).link ≡ true }
        ensures same_reference { b.new.env.ghost_name ≡ b.old.env.ghost_name }
        ensures state { OnOk result (state_of U.tables b.new ≡ link_objected (link_of self.old) (state_of U.tables b.old) object) }
        ensures frame { OnOk result (link_of self.new ≡ link_after (link_of self.old)) }
    {
        match self.link.take() {
            Some(link) => {
                let branch = TerminalKind::Branch {
                    test: object,
                    consequent: link.id,
                    alternate: self.alternate,
                    fallthrough: self.behind.id,
                };
                b.terminate_with_continuation(ends_by(branch, self.span), link)?;
            }
            None => unreachable!(),
        }
        Ok(())
    }

    /// Ends the hole of the link with its value, and goes on behind the link, whose place it returns. On `OutOfMemory` an allocation
    /// failed.
    pub fn finish<U: ReadsUnit, B>(
        self,
        b: &mut HirBuilder<'_, U, B>,
        value: Place,
    ) -> Result<Place, OutOfMemory>
        requires room { size_of (state_of U.tables b.old) + 4 < 2 ^ 32 }
        ensures same_reference { b.new.env.ghost_name ≡ b.old.env.ghost_name }
        ensures state { OnOk result (state_of U.tables b.new ≡ link_ended (link_of self) (state_of U.tables b.old) value) }
        ensures composes { OnOk result (LinkComposes (link_of self) (state_of U.tables b.old) (state_of U.tables b.new) value) }
        ensures place { IfOk result (λ p. p ≡ self.place) }
    {
        let place = self.close(b, value)?;
        Ok(place)
    }

    /// The moves of `finish`.
    fn close<U: ReadsUnit, B>(
        self,
        b: &mut HirBuilder<'_, U, B>,
        value: Place,
    ) -> Result<Place, OutOfMemory>
        requires room { size_of (state_of U.tables b.old) + 4 < 2 ^ 32 }
        ensures same_reference { b.new.env.ghost_name ≡ b.old.env.ghost_name }
        ensures state { OnOk result (state_of U.tables b.new ≡ link_ended (link_of self) (state_of U.tables b.old) value) }
        ensures place { IfOk result (λ p. p ≡ self.place) }
    {
        let ChainLink {
            span,
            optional,
            place,
            behind,
            alternate: _,
            test,
            link: _,
            outer,
        } = self;
        let fallthrough = behind.id;
        store_in(b, place, value, span)?;
        b.leave(outer, goes_behind(fallthrough, span))?;
        let chains = TerminalKind::Optional {
            optional,
            test,
            fallthrough,
        };
        b.terminate_with_continuation(ends_by(chains, span), behind)?;
        Ok(place)
    }
}

/// The block in which the chain ends early: the one that is given, or else a new one, in which `place` takes undefined and the run goes on
/// behind the chain. On `OutOfMemory` an allocation failed.
fn early_end<U: ReadsUnit, B>(
    b: &mut HirBuilder<'_, U, B>,
    alternate: Option<BlockId>,
    place: Place,
    behind: BlockId,
    span: Span,
) -> Result<BlockId, OutOfMemory>
    requires room { size_of (state_of U.tables b.old) + 9 < 2 ^ 32 }
    ensures same_reference { b.new.env.ghost_name ≡ b.old.env.ghost_name }
    ensures state { OnOk result (state_of U.tables b.new ≡ spec.early_ended alternate (state_of U.tables b.old) place behind.0 span) }
    ensures grown { OnOk result (size_of (state_of U.tables b.new) ≤ size_of (state_of U.tables b.old) + 9) }
    ensures current { OnOk result ((state_of U.tables b.new).current ≡ (state_of U.tables b.old).current) }
    ensures block { IfOk result (λ a. a ≡ spec.early_block alternate (state_of U.tables b.old)) }
{
    match alternate {
        Some(given) => Ok(given),
        None => make_early_end(b, place, behind, span),
    }
}

/// The block of a chain's early end, as `early_end` makes it. On `OutOfMemory` an allocation failed.
fn make_early_end<U: ReadsUnit, B>(
    b: &mut HirBuilder<'_, U, B>,
    place: Place,
    behind: BlockId,
    span: Span,
) -> Result<BlockId, OutOfMemory>
    requires room { size_of (state_of U.tables b.old) + 9 < 2 ^ 32 }
    ensures same_reference { b.new.env.ghost_name ≡ b.old.env.ghost_name }
    ensures state { OnOk result (state_of U.tables b.new ≡ spec.made_early_end (state_of U.tables b.old) place behind.0 span) }
    ensures grown { OnOk result (size_of (state_of U.tables b.new) ≤ size_of (state_of U.tables b.old) + 9) }
    ensures current { OnOk result ((state_of U.tables b.new).current ≡ (state_of U.tables b.old).current) }
    ensures block { IfOk result (λ a. a ≡ block_id (state_of U.tables b.old).env.next_block) }
{
    let first = b.reserve(BlockKind::Value)?;
    let block = first.id;
    let outer = b.enter(first);
    let undefined = put_value(
        b,
        InstructionValue::Primitive(PrimitiveValue::Undefined),
        span,
    )?;
    store_in(b, place, undefined, span)?;
    b.leave(outer, goes_behind(behind, span))?;
    Ok(block)
}

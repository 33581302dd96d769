//! Defaults.

ghost use Rattle.std.specs.Prelude.{◌≡◌, ◌+◌, ◌<◌, ◌≤◌, ◌^◌, length, OnOk, IfOk};
ghost use Rattle.rl_builder.specs.Builder.{state_of};
ghost use Rattle.rl_optional_frames.specs.Frames.{default_of, default_at, default_ended, DefaultComposes};
ghost use Rattle.rl_optional_frames.specs.Parts as spec;
ghost use Rattle.rl_optional_frames.specs.Parts.{default_begins as begins};
ghost use Rattle.rl_runs.specs.Blocks.{size_of};
ghost use Rattle.rl_runs.specs.Moves.{block_id};

use crate::ends::{ends_by, goes_behind, put_value, store_in};
use rl_base::error::OutOfMemory;
use rl_base::ids::BlockId;
use rl_base::operator::BinaryOperator;
use rl_base::span::Span;
use rl_builder::blocks::{Outer, WipBlock};
use rl_builder::builder::HirBuilder;
use rl_builder::unit_tables::ReadsUnit;
use rl_hir::function::BlockKind;
use rl_hir::instruction::{InstructionValue, Place, PrimitiveValue};
use rl_hir::terminal::TerminalKind;

/// A value, or a default where it is undefined. The caller lowers the default in one hole.
#[derive(Drop)]
pub struct DefaultValue {
    span: Span,
    /// The value that may be undefined.
    value: Place,
    /// The place of that value, or of the default's.
    place: Place,
    test: WipBlock,
    /// The block behind the whole.
    behind: WipBlock,
    /// The block of the default.
    consequent: BlockId,
    /// The block that was set aside.
    outer: Outer,
}

impl DefaultValue {
    /// Opens the hole of the default. On `OutOfMemory` an allocation failed.
    pub fn begin<U: ReadsUnit, B>(
        b: &mut HirBuilder<'_, U, B>,
        span: Span,
        value: Place,
    ) -> Result<Self, OutOfMemory>
        requires blocks { b.old.env.now.next_block + 3 < 2 ^ 32 }
        requires identifiers { length b.old.env.now.identifiers < 2 ^ 32 }
        requires types { b.old.env.now.next_type + 1 < 2 ^ 32 }
        ensures same_reference { b.new.env.ghost_name ≡ b.old.env.ghost_name }
        ensures state { OnOk result (state_of U.tables b.new ≡ spec.default_begun (state_of U.tables b.old) span) }
        ensures frame { IfOk result (λ f. default_of f ≡ default_at (state_of U.tables b.old) span value) }
    {
        let kind = b.current_block_kind();
        let place = b.create_temporary_place(Some(span))?;
        let test = b.reserve(BlockKind::Value)?;
        let behind = b.reserve(kind)?;
        let first = b.reserve(BlockKind::Value)?;
        let consequent = first.id;
        let outer = b.enter(first);
        Ok(DefaultValue {
            span,
            value,
            place,
            test,
            behind,
            consequent,
            outer,
        })
    }

    /// Ends the hole with the default's value, compares the value with undefined, and goes on behind the whole, whose place it
    /// returns. On `OutOfMemory` an allocation failed.
    pub fn finish<U: ReadsUnit, B>(
        self,
        b: &mut HirBuilder<'_, U, B>,
        default: Place,
    ) -> Result<Place, OutOfMemory>
        requires room { size_of (state_of U.tables b.old) + 17 < 2 ^ 32 }
        ensures same_reference { b.new.env.ghost_name ≡ b.old.env.ghost_name }
        ensures state { OnOk result (state_of U.tables b.new ≡ default_ended (default_of self) (state_of U.tables b.old) default) }
        ensures composes { OnOk result (DefaultComposes (default_of self) (state_of U.tables b.old) (state_of U.tables b.new) default) }
        ensures place { IfOk result (λ p. p ≡ self.place) }
    {
        let place = self.close(b, default)?;
        Ok(place)
    }

    /// The moves of `finish`.
    fn close<U: ReadsUnit, B>(
        self,
        b: &mut HirBuilder<'_, U, B>,
        default: Place,
    ) -> Result<Place, OutOfMemory>
        requires room { size_of (state_of U.tables b.old) + 17 < 2 ^ 32 }
        ensures same_reference { b.new.env.ghost_name ≡ b.old.env.ghost_name }
        ensures state { OnOk result (state_of U.tables b.new ≡ default_ended (default_of self) (state_of U.tables b.old) default) }
        ensures place { IfOk result (λ p. p ≡ self.place) }
    {
        let DefaultValue {
            span,
            value,
            place,
            test,
            behind,
            consequent,
            outer,
        } = self;
        let fallthrough = behind.id;
        let alternate = give_value(b, place, default, fallthrough, span)?;
        begin_test(b, place, value, outer, test, fallthrough, span)?;
        let test = compare(b, value, span)?;
        let branch = TerminalKind::Branch {
            test,
            consequent,
            alternate,
            fallthrough,
        };
        b.terminate_with_continuation(ends_by(branch, span), behind)?;
        Ok(place)
    }
}

/// Ends the hole of a default with its value, and opens the other block, which it returns. On `OutOfMemory` an allocation failed.
fn give_value<U: ReadsUnit, B>(
    b: &mut HirBuilder<'_, U, B>,
    place: Place,
    default: Place,
    behind: BlockId,
    span: Span,
) -> Result<BlockId, OutOfMemory>
    requires room { size_of (state_of U.tables b.old) + 5 < 2 ^ 32 }
    ensures same_reference { b.new.env.ghost_name ≡ b.old.env.ghost_name }
    ensures state { OnOk result (state_of U.tables b.new ≡ spec.default_given (state_of U.tables b.old) behind.0 place default span) }
    ensures grown { OnOk result (size_of (state_of U.tables b.new) ≤ size_of (state_of U.tables b.old) + 5) }
    ensures block { IfOk result (λ a. a ≡ block_id (spec.default_other (state_of U.tables b.old) place default span)) }
{
    store_in(b, place, default, span)?;
    let next = b.reserve(BlockKind::Value)?;
    let block = next.id;
    b.terminate_with_continuation(goes_behind(behind, span), next)?;
    Ok(block)
}

/// Stores the value itself in the other block, and opens that of the test. On `OutOfMemory` an allocation failed.
fn begin_test<U: ReadsUnit, B>(
    b: &mut HirBuilder<'_, U, B>,
    place: Place,
    value: Place,
    outer: Outer,
    test: WipBlock,
    behind: BlockId,
    span: Span,
) -> Result<(), OutOfMemory>
    requires room { size_of (state_of U.tables b.old) + 4 < 2 ^ 32 }
    ensures same_reference { b.new.env.ghost_name ≡ b.old.env.ghost_name }
    ensures state { OnOk result (state_of U.tables b.new ≡ begins (state_of U.tables b.old) test behind.0 place value span outer.block) }
    ensures grown { OnOk result (size_of (state_of U.tables b.new) ≤ size_of (state_of U.tables b.old) + 4) }
{
    store_in(b, place, value, span)?;
    b.leave(outer, goes_behind(behind, span))?;
    let chooses = TerminalKind::Ternary {
        test: test.id,
        fallthrough: behind,
    };
    b.terminate_with_continuation(ends_by(chooses, span), test)?;
    Ok(())
}

/// Compares a value with undefined, and returns the place of the answer. On `OutOfMemory` an allocation failed.
fn compare<U: ReadsUnit, B>(
    b: &mut HirBuilder<'_, U, B>,
    value: Place,
    span: Span,
) -> Result<Place, OutOfMemory>
    requires room { size_of (state_of U.tables b.old) + 8 < 2 ^ 32 }
    ensures same_reference { b.new.env.ghost_name ≡ b.old.env.ghost_name }
    ensures state { OnOk result (state_of U.tables b.new ≡ spec.compared (state_of U.tables b.old) value span) }
    ensures place { IfOk result (λ p. p ≡ spec.comparison (state_of U.tables b.old) span) }
{
    let undefined = PrimitiveValue::Undefined;
    let right = put_value(b, InstructionValue::Primitive(undefined), span)?;
    let comparison = InstructionValue::BinaryExpression {
        operator: BinaryOperator::StrictEquality,
        left: value,
        right,
    };
    put_value(b, comparison, span)
}

//! Ends of the holes of constructs, and values that go into places.

ghost use Rattle.std.specs.Prelude.{◌≡◌, ◌+◌, ◌<◌, ◌≤◌, ◌^◌, OnOk, IfOk};
ghost use Rattle.rl_builder.specs.Builder.{state_of};
ghost use Rattle.rl_builder.specs.Temporaries.{temporary, with_value};
ghost use Rattle.rl_hir.specs.declared.terminal.GotoVariant.TheVariants as gotos;
ghost use Rattle.rl_runs.specs.Blocks.{size_of};
ghost use Rattle.rl_runs.specs.Moves as spec;

use rl_base::error::OutOfMemory;
use rl_base::ids::{BlockId, EvaluationOrder};
use rl_base::span::Span;
use rl_builder::builder::HirBuilder;
use rl_builder::unit_tables::ReadsUnit;
use rl_hir::instruction::{Instruction, InstructionKind, InstructionValue, Place};
use rl_hir::terminal::{GotoVariant, Terminal, TerminalKind};

/// A terminal of kind `kind`.
pub(crate) fn ends_by(kind: TerminalKind, span: Span) -> Terminal
    ensures { result ≡ spec.ends_by kind (Some span) }
{
    Terminal {
        order: EvaluationOrder(0),
        span: Some(span),
        kind,
    }
}

/// A terminal that goes on in the block behind a construct.
pub(crate) fn goes_behind(block: BlockId, span: Span) -> Terminal
    ensures { result ≡ spec.goto block.0 gotos.Break span }
{
    ends_by(
        TerminalKind::Goto {
            block,
            variant: GotoVariant::Break,
        },
        span,
    )
}

/// Appends an instruction that puts a value into a fresh temporary, whose place it returns. On `OutOfMemory` an allocation failed.
pub(crate) fn put_value<U: ReadsUnit, B>(
    b: &mut HirBuilder<'_, U, B>,
    value: InstructionValue,
    span: Span,
) -> Result<Place, OutOfMemory>
    requires room { size_of (state_of U.tables b.old) + 4 < 2 ^ 32 }
    ensures same_reference { b.new.env.ghost_name ≡ b.old.env.ghost_name }
    ensures state { OnOk result (state_of U.tables b.new ≡ with_value (state_of U.tables b.old) value (Some span)) }
    ensures grown { OnOk result (size_of (state_of U.tables b.new) ≤ size_of (state_of U.tables b.old) + 4) }
    ensures place { IfOk result (λ p. p ≡ temporary (state_of U.tables b.old) (Some span)) }
{
    let place = b.create_temporary_place(Some(span))?;
    b.push(Instruction {
        order: EvaluationOrder(0),
        lvalue: place,
        value,
        span: Some(span),
    })?;
    Ok(place)
}

/// Stores a value in a place, for one of several ways on which it is computed. On `OutOfMemory` an allocation failed.
pub(crate) fn store_in<U: ReadsUnit, B>(
    b: &mut HirBuilder<'_, U, B>,
    place: Place,
    value: Place,
    span: Span,
) -> Result<(), OutOfMemory>
    requires room { size_of (state_of U.tables b.old) + 4 < 2 ^ 32 }
    ensures same_reference { b.new.env.ghost_name ≡ b.old.env.ghost_name }
    ensures state { OnOk result (state_of U.tables b.new ≡ spec.stored_in (state_of U.tables b.old) place value span) }
    ensures grown { OnOk result (size_of (state_of U.tables b.new) ≤ size_of (state_of U.tables b.old) + 4) }
{
    let kind = InstructionKind::Const;
    put_value(b, InstructionValue::StoreLocal { kind, place, value }, span)?;
    Ok(())
}

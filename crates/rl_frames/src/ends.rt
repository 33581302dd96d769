//! Ends of the holes of constructs, and values that go into places that were made before.

ghost use Rattle.std.specs.Prelude.{◌≡◌, ◌+◌, ◌<◌, ◌≤◌, ◌^◌, length, OnOk, IfOk};
ghost use Rattle.rl_builder.specs.Builder.{state_of};
ghost use Rattle.rl_builder.specs.Temporaries.{temporary, with_value};
ghost use Rattle.rl_runs.specs.Blocks.{size_of};
ghost use Rattle.rl_runs.specs.Moves as spec;

use rl_base::error::OutOfMemory;
use rl_base::ids::{BlockId, EvaluationOrder};
use rl_base::span::Span;
use rl_builder::builder::HirBuilder;
use rl_builder::unit_tables::ReadsUnit;
use rl_hir::instruction::{Instruction, InstructionKind, InstructionValue, Place};
use rl_hir::terminal::{GotoVariant, Terminal, TerminalKind};

/// A terminal that goes on in a block.
pub(crate) fn goto(block: BlockId, variant: GotoVariant, span: Span) -> Terminal
    ensures { result ≡ spec.goto block.0 variant span }
{
    Terminal {
        order: EvaluationOrder(0),
        span: Some(span),
        kind: TerminalKind::Goto { block, variant },
    }
}

/// Stores a value in a place, for one of several ways on which it is computed. On `OutOfMemory` an allocation failed.
pub(crate) fn store_in<U: ReadsUnit, B>(
    b: &mut HirBuilder<'_, U, B>,
    place: Place,
    value: Place,
    span: Span,
) -> Result<(), OutOfMemory>
    requires instructions { length (state_of U.tables b.old).table < 2 ^ 32 }
    requires blocks { b.old.env.now.next_block + 1 < 2 ^ 32 }
    requires identifiers { length b.old.env.now.identifiers < 2 ^ 32 }
    requires types { b.old.env.now.next_type + 1 < 2 ^ 32 }
    ensures same_reference { b.new.env.ghost_name ≡ b.old.env.ghost_name }
    ensures state { OnOk result (state_of U.tables b.new ≡ spec.stored_in (state_of U.tables b.old) place value span) }
    ensures grown { OnOk result ((state_of U.tables b.new).env.next_block ≤ (state_of U.tables b.old).env.next_block + 1) }
{
    let temporary = b.create_temporary_place(Some(span))?;
    b.push(Instruction {
        order: EvaluationOrder(0),
        lvalue: temporary,
        value: InstructionValue::StoreLocal {
            kind: InstructionKind::Const,
            place,
            value,
        },
        span: Some(span),
    })?;
    Ok(())
}

/// Appends an instruction that puts a value into a fresh temporary, whose place it returns. On `OutOfMemory` an allocation failed.
pub(crate) fn put_value<U: ReadsUnit, B>(
    b: &mut HirBuilder<'_, U, B>,
    value: InstructionValue,
    span: Option<Span>,
) -> Result<Place, OutOfMemory>
    requires room { size_of (state_of U.tables b.old) + 4 < 2 ^ 32 }
    ensures same_reference { b.new.env.ghost_name ≡ b.old.env.ghost_name }
    ensures state { OnOk result (state_of U.tables b.new ≡ with_value (state_of U.tables b.old) value span) }
    ensures grown { OnOk result (size_of (state_of U.tables b.new) ≤ size_of (state_of U.tables b.old) + 4) }
    ensures place { IfOk result (λ p. p ≡ temporary (state_of U.tables b.old) span) }
{
    let place = b.create_temporary_place(span)?;
    b.push(Instruction {
        order: EvaluationOrder(0),
        lvalue: place,
        value,
        span,
    })?;
    Ok(place)
}

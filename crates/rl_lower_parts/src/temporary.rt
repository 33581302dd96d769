//! Values of expressions in temporaries, and nodes that are refused.

ghost use Rattle.std.specs.Prelude.{◌≡◌, OnOk, IfOk, IfErr, Some};
ghost use Rattle.rl_builder.specs.Builder.{state_of, recorded};
ghost use Rattle.rl_builder.specs.Temporaries.{temporary, with_value};
ghost use Rattle.rl_hir.specs.declared.instruction.InstructionValue.TheVariants as values;
ghost use Rattle.rl_hir.specs.declared.instruction.PrimitiveValue.TheVariants as primitives;
ghost use Rattle.rl_lowered.specs.Promised.{HasRoom};
ghost use Rattle.rl_promises.specs.Rows.{refusal};

use crate::graph_builder::GraphBuilder;
use rl_base::diagnostic::Diagnostic;
use rl_base::error::OutOfMemory;
use rl_base::ids::EvaluationOrder;
use rl_base::row::Row;
use rl_base::span::Span;
use rl_base::stop::Stop;
use rl_builder::unit_tables::ReadsUnit;
use rl_hir::instruction::{Instruction, InstructionValue, Place, PrimitiveValue};
use rl_syntax::numbered::At;
use std::alloc::Global;

/// Appends an instruction that puts a value into a fresh temporary (`lowerValueToTemporary`). On `Stop::OutOfMemory` an
/// allocation failed; no other stop comes, here and in the functions that lower expressions.
pub fn lower_value_to_temporary<U: ReadsUnit>(
    builder: &mut GraphBuilder<'_, U>,
    value: InstructionValue,
    span: Option<Span>,
) -> Result<Place, Stop>
    requires room { HasRoom (state_of U.tables builder.old) 4 }
    ensures same_reference { builder.new.env.ghost_name ≡ builder.old.env.ghost_name }
    ensures state { OnOk result (state_of U.tables builder.new ≡ with_value (state_of U.tables builder.old) value span) }
    ensures place { IfOk result (λ place. place ≡ temporary (state_of U.tables builder.old) span) }
    ensures memory { IfErr result (λ e. e ≡ Stop.OutOfMemory) }
{
    let place = builder.create_temporary_place(span)?;
    builder.push(Instruction {
        order: EvaluationOrder(0),
        lvalue: place,
        value,
        span,
    })?;
    Ok(place)
}

/// Undefined, in a temporary with the span. On `Stop::OutOfMemory` an allocation failed; no other stop comes.
pub fn lower_undefined<U: ReadsUnit>(
    builder: &mut GraphBuilder<'_, U>,
    span: Option<Span>,
) -> Result<Place, Stop>
    requires room { HasRoom (state_of U.tables builder.old) 4 }
    ensures same_reference { builder.new.env.ghost_name ≡ builder.old.env.ghost_name }
    ensures state { OnOk result (state_of U.tables builder.new ≡ with_value (state_of U.tables builder.old) (values.Primitive primitives.Undefined) span) }
    ensures place { IfOk result (λ place. place ≡ temporary (state_of U.tables builder.old) span) }
    ensures memory { IfErr result (λ e. e ≡ Stop.OutOfMemory) }
{
    lower_value_to_temporary(
        builder,
        InstructionValue::Primitive(PrimitiveValue::Undefined),
        span,
    )
}

/// Records the diagnostic of a row that refuses a node; its label is the span. On `OutOfMemory` an allocation failed.
pub fn refuse<U: ReadsUnit>(
    alloc: Global,
    builder: &mut GraphBuilder<'_, U>,
    row: Row,
    span: Span,
) -> Result<(), OutOfMemory>
    ensures same_reference { builder.new.env.ghost_name ≡ builder.old.env.ghost_name }
    ensures state { OnOk result (state_of U.tables builder.new ≡ recorded (state_of U.tables builder.old) (refusal row span)) }
{
    builder.record_diagnostic(Diagnostic::at(alloc, row, "", span)?)
}

/// Refuses a node by a row; undefined stands for it.
pub fn refuse_as_undefined<U: ReadsUnit>(
    alloc: Global,
    builder: &mut GraphBuilder<'_, U>,
    row: Row,
    at: At,
) -> Result<Place, Stop>
    requires room { HasRoom (state_of U.tables builder.old) 4 }
    ensures same_reference { builder.new.env.ghost_name ≡ builder.old.env.ghost_name }
    ensures state { OnOk result (state_of U.tables builder.new ≡ with_value (recorded (state_of U.tables builder.old) (refusal row at.span)) (values.Primitive primitives.Undefined) (Some at.span)) }
    ensures place { IfOk result (λ place. place ≡ temporary (recorded (state_of U.tables builder.old) (refusal row at.span)) (Some at.span)) }
    ensures memory { IfErr result (λ e. e ≡ Stop.OutOfMemory) }
{
    refuse(alloc, builder, row, at.span)?;
    lower_undefined(builder, Some(at.span))
}

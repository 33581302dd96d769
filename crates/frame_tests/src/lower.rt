//! The lowering of formulas.

ghost use Rattle.std.specs.Prelude.{◌≡◌, ◌≤◌, ◌+◌, ◌*◌, OnOk, IfOk};
ghost use Rattle.frame_tests.specs.Formulas.{HasRoom, nodes, share, span_of};
ghost use Rattle.frame_tests.specs.Lowering.{connected, lowered, selected};
ghost use Rattle.rl_builder.specs.Builder.{state_of};
ghost use Rattle.rl_builder.specs.Temporaries.{temporary, with_value};
ghost use Rattle.rl_runs.specs.Blocks.{size_of};

use crate::formula::Formula;
use rl_base::error::OutOfMemory;
use rl_base::ids::EvaluationOrder;
use rl_base::operator::{LogicalOperator, UnaryOperator};
use rl_base::span::Span;
use rl_builder::builder::HirBuilder;
use rl_builder::unit_tables::ReadsUnit;
use rl_frames::logical::Logical;
use rl_frames::ternary::Ternary;
use rl_hir::instruction::{Instruction, InstructionValue, Place, PrimitiveValue};

/// Puts a value into a fresh temporary. On `OutOfMemory` an allocation failed, here and in the functions below.
fn put<U: ReadsUnit, B>(
    builder: &mut HirBuilder<'_, U, B>,
    value: InstructionValue,
    span: Span,
) -> Result<Place, OutOfMemory>
    requires room { HasRoom (state_of U.tables builder.old) 4 }
    ensures same_reference { builder.new.env.ghost_name ≡ builder.old.env.ghost_name }
    ensures state { OnOk result (state_of U.tables builder.new ≡ with_value (state_of U.tables builder.old) value (Some span)) }
    ensures place { IfOk result (λ place. place ≡ temporary (state_of U.tables builder.old) (Some span)) }
{
    let place = builder.create_temporary_place(Some(span))?;
    builder.push(Instruction {
        order: EvaluationOrder(0),
        lvalue: place,
        value,
        span: Some(span),
    })?;
    Ok(place)
}

/// Lowers a logical expression: its right part, and then its left part.
#[cycle(formulas)]
fn lower_connected<U: ReadsUnit, B>(
    builder: &mut HirBuilder<'_, U, B>,
    span: Span,
    operator: LogicalOperator,
    left: &Formula,
    right: &Formula,
) -> Result<Place, OutOfMemory>
    requires room { HasRoom (state_of U.tables builder.old) (64 * (nodes left.now + nodes right.now + 1)) }
    ensures same_reference { builder.new.env.ghost_name ≡ builder.old.env.ghost_name }
    ensures state { OnOk result (state_of U.tables builder.new ≡ (connected operator span (span_of left.now) (span_of right.now) (lowered left.now) (lowered right.now) (state_of U.tables builder.old)).state) }
    ensures place { IfOk result (λ place. place ≡ (connected operator span (span_of left.now) (span_of right.now) (lowered left.now) (lowered right.now) (state_of U.tables builder.old)).place) }
{
    let mut frame = Logical::begin(builder, span, operator, left.span())?;
    let value = lower_formula(builder, right)?;
    frame.right(builder, right.span(), value)?;
    let value = lower_formula(builder, left)?;
    let place = frame.finish(builder, value)?;
    Ok(place)
}

/// Lowers a conditional expression: its consequent, its alternate, and then its test.
#[cycle(formulas)]
fn lower_selected<U: ReadsUnit, B>(
    builder: &mut HirBuilder<'_, U, B>,
    span: Span,
    test: &Formula,
    consequent: &Formula,
    alternate: &Formula,
) -> Result<Place, OutOfMemory>
    requires room { HasRoom (state_of U.tables builder.old) (64 * (nodes test.now + nodes consequent.now + nodes alternate.now + 1)) }
    ensures same_reference { builder.new.env.ghost_name ≡ builder.old.env.ghost_name }
    ensures state { OnOk result (state_of U.tables builder.new ≡ (selected span (span_of consequent.now) (span_of alternate.now) (lowered test.now) (lowered consequent.now) (lowered alternate.now) (state_of U.tables builder.old)).state) }
    ensures place { IfOk result (λ place. place ≡ (selected span (span_of consequent.now) (span_of alternate.now) (lowered test.now) (lowered consequent.now) (lowered alternate.now) (state_of U.tables builder.old)).place) }
{
    let mut frame = Ternary::begin(builder, span)?;
    let value = lower_formula(builder, consequent)?;
    frame.consequent(builder, consequent.span(), value)?;
    let value = lower_formula(builder, alternate)?;
    frame.alternate(builder, alternate.span(), value)?;
    let value = lower_formula(builder, test)?;
    let place = frame.finish(builder, value)?;
    Ok(place)
}

/// Lowers a formula; its value is in the place.
#[cycle(formulas)]
pub fn lower_formula<U: ReadsUnit, B>(
    builder: &mut HirBuilder<'_, U, B>,
    formula: &Formula,
) -> Result<Place, OutOfMemory>
    requires room { HasRoom (state_of U.tables builder.old) (share formula.now) }
    ensures same_reference { builder.new.env.ghost_name ≡ builder.old.env.ghost_name }
    ensures state { OnOk result (state_of U.tables builder.new ≡ (lowered formula.now (state_of U.tables builder.old)).state) }
    ensures place { IfOk result (λ place. place ≡ (lowered formula.now (state_of U.tables builder.old)).place) }
    ensures grown { OnOk result (size_of (state_of U.tables builder.new) ≤ size_of (state_of U.tables builder.old) + share formula.now) }
{
    match formula {
        Formula::Truth { span, holds } => {
            let value = InstructionValue::Primitive(PrimitiveValue::Boolean(*holds));
            let place = put(builder, value, *span)?;
            Ok(place)
        }
        Formula::Not { span, part } => {
            let operator = UnaryOperator::LogicalNot;
            let value = lower_formula(builder, part)?;
            let place = put(
                builder,
                InstructionValue::UnaryExpression { operator, value },
                *span,
            )?;
            Ok(place)
        }
        Formula::Both { span, left, right } => {
            let place = lower_connected(builder, *span, LogicalOperator::And, left, right)?;
            Ok(place)
        }
        Formula::Either { span, left, right } => {
            let place = lower_connected(builder, *span, LogicalOperator::Or, left, right)?;
            Ok(place)
        }
        Formula::Choice {
            span,
            test,
            consequent,
            alternate,
        } => {
            let place = lower_selected(builder, *span, test, consequent, alternate)?;
            Ok(place)
        }
    }
}

//! Lowering of expressions: each leaves its value in a temporary.

ghost use Rattle.std.specs.Prelude.{◌≡◌, ◌+◌, true, map, IfOk, IfErr};
ghost use Rattle.rl_syntax.specs.Syntax.{nodes, pieces_of, syntax};
ghost use Rattle.rl_builder.specs.Builder.{state_of};
ghost use Rattle.rl_lowered.specs.Named.{IsNamed};
ghost use Rattle.rl_lowered.specs.Promised.{HasRoom, LowersExpression, share};
ghost use Rattle.rl_lower_expressions.specs.Groups.{is_access, is_composite, is_operation, is_refused};
ghost use Rattle.rl_promises.specs.Lowerable.{IsLowerable};
ghost use Rattle.rl_names.specs.Seen.{seen};
ghost use Rattle.rl_ast.specs.ExpressionViews.{seen_expression};

use crate::access::{lower_call, lower_computed, lower_static, lower_tagged, lower_template};
use crate::assignment::lower_assignment;
use crate::chain::lower_spine;
use crate::member::load_value;
use crate::operator::{lower_cast, lower_private, lower_unary, lower_update};
use crate::parts::{lower_arguments, lower_elements, lower_last, lower_properties};
use rl_ast::binding::identifier_reference_view;
use rl_ast::expression::{Expression, expression_view};
use rl_base::boxed::Boxed;
use rl_base::operator::LogicalOperator;
use rl_base::row::Row;
use rl_base::stop::Stop;
use rl_builder::unit_tables::ReadsUnit;
use rl_frames::logical::Logical;
use rl_frames::sequence::SequenceFrame;
use rl_frames::ternary::Ternary;
use rl_grammar::sort::{ExpressionTree, ExpressionTrees};
use rl_hir::instruction::{InstructionValue, Place, PrimitiveValue, RegExpLiteral};
use rl_lower_parts::graph_builder::GraphBuilder;
use rl_lower_parts::name::{lower_identifier, lower_number};
use rl_lower_parts::span::span_of;
use rl_lower_parts::temporary::{
    lower_undefined, lower_value_to_temporary, refuse, refuse_as_undefined,
};
use rl_names::names::FunctionNames;
use rl_syntax::numbered::At;
use std::alloc::Global;

/// Lowers a logical expression: its right part, and then its left part.
#[cycle(expressions)]
fn lower_logical<U: ReadsUnit>(
    alloc: Global,
    builder: &mut GraphBuilder<'_, U>,
    names: &FunctionNames<'_>,
    at: At,
    operator: LogicalOperator,
    left: ExpressionTree<'_>,
    right: ExpressionTree<'_>,
) -> Result<Place, Stop>
    requires names { IsNamed (seen names.now) (state_of U.tables builder.old) }
    requires may { IsLowerable (seen names.now) (seen_expression (Expression.Logical at operator left right)) }
    requires room { HasRoom (state_of U.tables builder.old) (share (nodes (seen_expression (Expression.Logical at operator left right)))) }
    ensures same_reference { builder.new.env.ghost_name ≡ builder.old.env.ghost_name }
    ensures lowered { IfOk result (λ place. LowersExpression (seen names.now) (seen_expression (Expression.Logical at operator left.entry right.entry)) (state_of U.tables builder.old) (state_of U.tables builder.new) place) }
    ensures memory { IfErr result (λ e. e ≡ Stop.OutOfMemory) }
{
    let mut frame = Logical::begin(builder, at.span, operator, span_of(left.tree))?;
    let value = lower_expression(alloc, builder, names, right)?;
    let part = value.span.unwrap_or(span_of(right.tree));
    frame.right(builder, part, value)?;
    let value = lower_expression(alloc, builder, names, left)?;
    Ok(frame.finish(builder, value)?)
}

/// Lowers a conditional expression: its consequent, its alternate, and then its test.
#[cycle(expressions)]
fn lower_conditional<U: ReadsUnit>(
    alloc: Global,
    builder: &mut GraphBuilder<'_, U>,
    names: &FunctionNames<'_>,
    at: At,
    test: ExpressionTree<'_>,
    consequent: ExpressionTree<'_>,
    alternate: ExpressionTree<'_>,
) -> Result<Place, Stop>
    requires names { IsNamed (seen names.now) (state_of U.tables builder.old) }
    requires may { IsLowerable (seen names.now) (seen_expression (Expression.Conditional at test consequent alternate)) }
    requires room { HasRoom (state_of U.tables builder.old) (share (nodes (seen_expression (Expression.Conditional at test consequent alternate)))) }
    ensures same_reference { builder.new.env.ghost_name ≡ builder.old.env.ghost_name }
    ensures lowered { IfOk result (λ place. LowersExpression (seen names.now) (seen_expression (Expression.Conditional at test.entry consequent.entry alternate.entry)) (state_of U.tables builder.old) (state_of U.tables builder.new) place) }
    ensures memory { IfErr result (λ e. e ≡ Stop.OutOfMemory) }
{
    let mut frame = Ternary::begin(builder, at.span)?;
    let value = lower_expression(alloc, builder, names, consequent)?;
    frame.consequent(builder, span_of(consequent.tree), value)?;
    let value = lower_expression(alloc, builder, names, alternate)?;
    frame.alternate(builder, span_of(alternate.tree), value)?;
    let value = lower_expression(alloc, builder, names, test)?;
    Ok(frame.finish(builder, value)?)
}

/// Lowers a sequence of expressions.
#[cycle(expressions)]
fn lower_sequence<U: ReadsUnit>(
    alloc: Global,
    builder: &mut GraphBuilder<'_, U>,
    names: &FunctionNames<'_>,
    at: At,
    expressions: ExpressionTrees<'_>,
) -> Result<Place, Stop>
    requires names { IsNamed (seen names.now) (state_of U.tables builder.old) }
    requires may { IsLowerable (seen names.now) (seen_expression (Expression.Sequence at expressions)) }
    requires room { HasRoom (state_of U.tables builder.old) (share (nodes (seen_expression (Expression.Sequence at expressions)))) }
    ensures same_reference { builder.new.env.ghost_name ≡ builder.old.env.ghost_name }
    ensures lowered { IfOk result (λ place. LowersExpression (seen names.now) (seen_expression (Expression.Sequence at expressions.entry)) (state_of U.tables builder.old) (state_of U.tables builder.new) place) }
    ensures memory { IfErr result (λ e. e ≡ Stop.OutOfMemory) }
{
    let frame = SequenceFrame::begin(builder, at.span)?;
    let value = lower_last(alloc, builder, names, expressions)?;
    Ok(frame.finish(builder, at.span, value)?)
}

/// Lowers a dynamic import, which is refused before its parts are lowered.
#[cycle(expressions)]
fn lower_import<U: ReadsUnit>(
    alloc: Global,
    builder: &mut GraphBuilder<'_, U>,
    names: &FunctionNames<'_>,
    at: At,
    source: ExpressionTree<'_>,
    options: Option<ExpressionTree<'_>>,
) -> Result<Place, Stop>
    requires names { IsNamed (seen names.now) (state_of U.tables builder.old) }
    requires may { IsLowerable (seen names.now) (seen_expression (Expression.ImportCall at source options)) }
    requires room { HasRoom (state_of U.tables builder.old) (share (nodes (seen_expression (Expression.ImportCall at source options)))) }
    ensures same_reference { builder.new.env.ghost_name ≡ builder.old.env.ghost_name }
    ensures lowered { IfOk result (λ place. LowersExpression (seen names.now) (seen_expression (Expression.ImportCall at source.entry options.entry)) (state_of U.tables builder.old) (state_of U.tables builder.new) place) }
    ensures memory { IfErr result (λ e. e ≡ Stop.OutOfMemory) }
{
    refuse(alloc, builder, Row::F4, at.span)?;
    lower_expression(alloc, builder, names, source)?;
    match options {
        Some(options) => {
            lower_expression(alloc, builder, names, options)?;
            lower_undefined(builder, Some(at.span))
        }
        None => lower_undefined(builder, Some(at.span)),
    }
}

/// As `lower_expression`, of what is refused, before its parts are lowered or without them.
#[cycle(expressions)]
fn lower_refused<U: ReadsUnit>(
    alloc: Global,
    builder: &mut GraphBuilder<'_, U>,
    names: &FunctionNames<'_>,
    expression: ExpressionTree<'_>,
) -> Result<Place, Stop>
    requires names { IsNamed (seen names.now) (state_of U.tables builder.old) }
    requires group { is_refused (syntax expression.tree.now) ≡ true }
    requires may { IsLowerable (seen names.now) (syntax expression.tree.now) }
    requires room { HasRoom (state_of U.tables builder.old) (share (nodes (syntax expression.tree.now))) }
    ensures same_reference { builder.new.env.ghost_name ≡ builder.old.env.ghost_name }
    ensures lowered { IfOk result (λ place. LowersExpression (seen names.now) (syntax expression.entry.tree.now) (state_of U.tables builder.old) (state_of U.tables builder.new) place) }
    ensures memory { IfErr result (λ e. e ≡ Stop.OutOfMemory) }
{
    match expression_view(expression) {
        Expression::BigInt { at, text: _ } => refuse_as_undefined(alloc, builder, Row::F42, at),
        Expression::NewTarget { at } => refuse_as_undefined(alloc, builder, Row::F15, at),
        Expression::Super { at } => refuse_as_undefined(alloc, builder, Row::F17, at),
        Expression::This { at } => refuse_as_undefined(alloc, builder, Row::F18, at),
        Expression::Yield { at, .. } => refuse_as_undefined(alloc, builder, Row::F14, at),
        Expression::PrivateIn { at, name: _, right } => {
            refuse(alloc, builder, Row::F5, at.span)?;
            lower_expression(alloc, builder, names, right)?;
            lower_undefined(builder, Some(at.span))
        }
        Expression::ImportCall {
            at,
            source,
            options,
        } => lower_import(alloc, builder, names, at, source, options),
        _ => unreachable!(),
    }
}

/// As `lower_expression`, of arrays, object literals, templates, regular expressions and `import.meta`, and of what
/// `lower_refused` lowers.
#[cycle(expressions)]
fn lower_composite<U: ReadsUnit>(
    alloc: Global,
    builder: &mut GraphBuilder<'_, U>,
    names: &FunctionNames<'_>,
    expression: ExpressionTree<'_>,
) -> Result<Place, Stop>
    requires names { IsNamed (seen names.now) (state_of U.tables builder.old) }
    requires group { is_composite (syntax expression.tree.now) ≡ true }
    requires may { IsLowerable (seen names.now) (syntax expression.tree.now) }
    requires room { HasRoom (state_of U.tables builder.old) (share (nodes (syntax expression.tree.now))) }
    ensures same_reference { builder.new.env.ghost_name ≡ builder.old.env.ghost_name }
    ensures lowered { IfOk result (λ place. LowersExpression (seen names.now) (syntax expression.entry.tree.now) (state_of U.tables builder.old) (state_of U.tables builder.new) place) }
    ensures memory { IfErr result (λ e. e ≡ Stop.OutOfMemory) }
{
    match expression_view(expression) {
        Expression::Array { at, items } => {
            let items = lower_elements(alloc, builder, names, items)?;
            let value = InstructionValue::ArrayExpression(items);
            lower_value_to_temporary(builder, value, Some(at.span))
        }
        Expression::Object { at, properties } => {
            let properties = lower_properties(alloc, builder, names, properties)?;
            let value = InstructionValue::ObjectExpression(properties);
            lower_value_to_temporary(builder, value, Some(at.span))
        }
        Expression::Template(template) => lower_template(alloc, builder, names, template),
        Expression::Tagged { at, tag, quasi } => {
            lower_tagged(alloc, builder, names, at, tag, quasi)
        }
        Expression::RegExp { at, pattern, flags } => {
            let pattern = pattern.copy(alloc)?;
            let flags = flags.copy(alloc)?;
            let literal = Boxed::new(alloc, RegExpLiteral { pattern, flags })?;
            let value = InstructionValue::RegExpLiteral(literal);
            lower_value_to_temporary(builder, value, Some(at.span))
        }
        Expression::ImportMeta { at } => {
            let value = InstructionValue::MetaProperty;
            lower_value_to_temporary(builder, value, Some(at.span))
        }
        _ => lower_refused(alloc, builder, names, expression),
    }
}

/// As `lower_expression`, of calls, constructions and properties, and of what `lower_composite` lowers.
#[cycle(expressions)]
fn lower_access<U: ReadsUnit>(
    alloc: Global,
    builder: &mut GraphBuilder<'_, U>,
    names: &FunctionNames<'_>,
    expression: ExpressionTree<'_>,
) -> Result<Place, Stop>
    requires names { IsNamed (seen names.now) (state_of U.tables builder.old) }
    requires group { is_access (syntax expression.tree.now) ≡ true }
    requires may { IsLowerable (seen names.now) (syntax expression.tree.now) }
    requires room { HasRoom (state_of U.tables builder.old) (share (nodes (syntax expression.tree.now))) }
    ensures same_reference { builder.new.env.ghost_name ≡ builder.old.env.ghost_name }
    ensures lowered { IfOk result (λ place. LowersExpression (seen names.now) (syntax expression.entry.tree.now) (state_of U.tables builder.old) (state_of U.tables builder.new) place) }
    ensures memory { IfErr result (λ e. e ≡ Stop.OutOfMemory) }
{
    match expression_view(expression) {
        Expression::Call {
            at,
            optional: _,
            callee,
            arguments,
        } => lower_call(alloc, builder, names, at, callee, arguments),
        Expression::New {
            at,
            callee,
            arguments,
        } => {
            let callee = lower_expression(alloc, builder, names, callee)?;
            let arguments = lower_arguments(alloc, builder, names, arguments)?;
            let value = InstructionValue::NewExpression { callee, arguments };
            lower_value_to_temporary(builder, value, Some(at.span))
        }
        Expression::Member {
            at,
            optional: _,
            object,
            property,
        } => {
            let member = lower_static(alloc, builder, names, object, property)?;
            let value = load_value(alloc, member)?;
            lower_value_to_temporary(builder, value, Some(at.span))
        }
        Expression::Index {
            at,
            optional: _,
            object,
            property,
        } => {
            let member = lower_computed(alloc, builder, names, object, property)?;
            let value = load_value(alloc, member)?;
            lower_value_to_temporary(builder, value, Some(at.span))
        }
        Expression::PrivateMember { at, object, .. } => {
            lower_private(alloc, builder, names, at, object)
        }
        _ => lower_composite(alloc, builder, names, expression),
    }
}

/// As `lower_expression`, of operators, casts, `await`, chains, conditional expressions and sequences, and of what `lower_access`
/// lowers.
#[cycle(expressions)]
fn lower_operation<U: ReadsUnit>(
    alloc: Global,
    builder: &mut GraphBuilder<'_, U>,
    names: &FunctionNames<'_>,
    expression: ExpressionTree<'_>,
) -> Result<Place, Stop>
    requires names { IsNamed (seen names.now) (state_of U.tables builder.old) }
    requires group { is_operation (syntax expression.tree.now) ≡ true }
    requires may { IsLowerable (seen names.now) (syntax expression.tree.now) }
    requires room { HasRoom (state_of U.tables builder.old) (share (nodes (syntax expression.tree.now))) }
    ensures same_reference { builder.new.env.ghost_name ≡ builder.old.env.ghost_name }
    ensures lowered { IfOk result (λ place. LowersExpression (seen names.now) (syntax expression.entry.tree.now) (state_of U.tables builder.old) (state_of U.tables builder.new) place) }
    ensures memory { IfErr result (λ e. e ≡ Stop.OutOfMemory) }
{
    match expression_view(expression) {
        Expression::Binary {
            at,
            operator,
            left,
            right,
        } => {
            let left = lower_expression(alloc, builder, names, left)?;
            let right = lower_expression(alloc, builder, names, right)?;
            let value = InstructionValue::BinaryExpression {
                operator,
                left,
                right,
            };
            lower_value_to_temporary(builder, value, Some(at.span))
        }
        Expression::Unary {
            at,
            operator,
            argument,
        } => lower_unary(alloc, builder, names, at, operator, argument),
        Expression::Update {
            at,
            operator,
            prefix,
            argument,
        } => lower_update(alloc, builder, names, at, operator, prefix, argument),
        Expression::Assignment {
            at,
            operator,
            left,
            right,
        } => lower_assignment(alloc, builder, names, at, operator, left, right),
        Expression::Await { at, argument } => {
            let value = lower_expression(alloc, builder, names, argument)?;
            let value = InstructionValue::Await(value);
            lower_value_to_temporary(builder, value, Some(at.span))
        }
        Expression::Logical {
            at,
            operator,
            left,
            right,
        } => lower_logical(alloc, builder, names, at, operator, left, right),
        Expression::Conditional {
            at,
            test,
            consequent,
            alternate,
        } => lower_conditional(alloc, builder, names, at, test, consequent, alternate),
        Expression::Sequence { at, expressions } => {
            lower_sequence(alloc, builder, names, at, expressions)
        }
        Expression::Chain { at: _, expression } => {
            lower_spine(alloc, builder, names, false, expression)
        }
        Expression::As {
            at,
            expression,
            annotation,
        } => lower_cast(alloc, builder, names, at, expression, annotation),
        Expression::Satisfies {
            at,
            expression,
            annotation,
        } => lower_cast(alloc, builder, names, at, expression, annotation),
        Expression::Assert {
            at,
            annotation,
            expression,
        } => lower_cast(alloc, builder, names, at, expression, annotation),
        _ => lower_access(alloc, builder, names, expression),
    }
}

/// Lowers an expression (`lowerExpression`), and returns the place of its value. A refused one is lowered to other code, in a graph that
/// no caller is given. On `Stop::OutOfMemory` an allocation failed; no other stop comes.
#[cycle(expressions)]
pub fn lower_expression<U: ReadsUnit>(
    alloc: Global,
    builder: &mut GraphBuilder<'_, U>,
    names: &FunctionNames<'_>,
    expression: ExpressionTree<'_>,
) -> Result<Place, Stop>
    requires names { IsNamed (seen names.now) (state_of U.tables builder.old) }
    requires may { IsLowerable (seen names.now) (syntax expression.tree.now) }
    requires room { HasRoom (state_of U.tables builder.old) (share (nodes (syntax expression.tree.now))) }
    ensures same_reference { builder.new.env.ghost_name ≡ builder.old.env.ghost_name }
    ensures lowered { IfOk result (λ place. LowersExpression (seen names.now) (syntax expression.entry.tree.now) (state_of U.tables builder.old) (state_of U.tables builder.new) place) }
    ensures memory { IfErr result (λ e. e ≡ Stop.OutOfMemory) }
{
    match expression_view(expression) {
        Expression::Null { at } => {
            let value = InstructionValue::Primitive(PrimitiveValue::Null);
            lower_value_to_temporary(builder, value, Some(at.span))
        }
        Expression::Boolean { at, value } => {
            let value = InstructionValue::Primitive(PrimitiveValue::Boolean(value));
            lower_value_to_temporary(builder, value, Some(at.span))
        }
        Expression::Number { at, text } => lower_number(alloc, builder, at, text),
        Expression::String { at, text } => {
            let value = InstructionValue::Primitive(PrimitiveValue::String(text.copy(alloc)?));
            lower_value_to_temporary(builder, value, Some(at.span))
        }
        Expression::Parenthesized { at: _, expression } => {
            lower_expression(alloc, builder, names, expression)
        }
        Expression::NonNull { at: _, expression } => {
            lower_expression(alloc, builder, names, expression)
        }
        Expression::Instantiate {
            at: _,
            expression,
            names: _,
        } => lower_expression(alloc, builder, names, expression),
        Expression::Identifier(identifier) => {
            let identifier = identifier_reference_view(identifier);
            lower_identifier(alloc, builder, names, &identifier)
        }
        _ => lower_operation(alloc, builder, names, expression),
    }
}

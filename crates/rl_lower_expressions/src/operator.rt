//! Lowering of unary operators, updates and casts.

ghost use Rattle.std.specs.Prelude.{◌≡◌, ◌+◌, ℕ, List, false, true, codes, IfOk, IfErr};
ghost use Rattle.std.specs.Str.{bytes_eq};
ghost use Rattle.rl_syntax.specs.Syntax.{Node, Said, Flag, End, Then, Pieces, nodes, syntax};
ghost use Rattle.rl_base.specs.Operators.{unary_text};
ghost use Rattle.rl_builder.specs.Builder.{state_of};
ghost use Rattle.rl_lowered.specs.Forms.{IsCast, type_of, typed};
ghost use Rattle.rl_lowered.specs.Named.{IsNamed};
ghost use Rattle.rl_lowered.specs.Promised.{HasRoom, LowersExpression, share};
ghost use Rattle.rl_promises.specs.Lowerable.{IsLowerable};
ghost use Rattle.rl_names.specs.Seen.{seen};
ghost use Rattle.rl_ast.specs.ExpressionViews.{seen_expression};

use crate::access::{lower_computed, lower_static};
use crate::expression::lower_expression;
use crate::member::{delete_value, update_member};
use rl_ast::binding::{identifier_reference_view, type_annotation_view};
use rl_ast::expression::{Expression, expression_view};
use rl_ast::target::{AssignmentTarget, assignment_target_view};
use rl_base::operator::{UnaryOperator, UpdateOperator};
use rl_base::row::Row;
use rl_base::stop::Stop;
use rl_base::type_kind::TypeKind;
use rl_builder::unit_tables::ReadsUnit;
use rl_grammar::sort::{AssignmentTargetTree, ExpressionTree, TypeAnnotationTree};
use rl_hir::instruction::{HirType, InstructionValue, Place};
use rl_lower_parts::graph_builder::GraphBuilder;
use rl_lower_parts::name::update_name;
use rl_lower_parts::shape::{is_delete, is_link, without_parentheses};
use rl_lower_parts::temporary::{lower_value_to_temporary, refuse_as_undefined};
use rl_names::names::FunctionNames;
use rl_syntax::numbered::At;
use rl_syntax::word::Word;
use std::alloc::Global;

/// The type of a cast (`lowerType`): a type variable of its own, if it is neither primitive nor an array.
fn lower_type<U: ReadsUnit>(builder: &mut GraphBuilder<'_, U>, kind: TypeKind) -> HirType
    requires room { HasRoom (state_of U.tables builder.old) 2 }
    ensures same_reference { builder.new.env.ghost_name ≡ builder.old.env.ghost_name }
    ensures state { state_of U.tables builder.new ≡ typed (state_of U.tables builder.old) kind }
    ensures cast { result ≡ type_of (state_of U.tables builder.old) kind }
{
    match kind {
        TypeKind::Array => HirType::Array,
        TypeKind::Primitive => HirType::Primitive,
        TypeKind::Other => builder.make_type(),
    }
}

/// Lowers the object of a property by a private name, which is refused; undefined stands for it.
#[cycle(expressions)]
pub(crate) fn lower_private<U: ReadsUnit>(
    alloc: Global,
    builder: &mut GraphBuilder<'_, U>,
    names: &FunctionNames<'_>,
    at: At,
    object: ExpressionTree<'_>,
) -> Result<Place, Stop>
    requires names { IsNamed (seen names.now) (state_of U.tables builder.old) }
    requires may { IsLowerable (seen names.now) (syntax object.tree.now) }
    requires room { HasRoom (state_of U.tables builder.old) (share (nodes (syntax object.tree.now) + 1)) }
    ensures same_reference { builder.new.env.ghost_name ≡ builder.old.env.ghost_name }
    ensures lowered { IfOk result (λ place. (name : List ℕ) → LowersExpression (seen names.now) (Node at Word.Privatemember (Then (Flag false) (Then (syntax object.entry.tree.now) (Then (Said name) End)))) (state_of U.tables builder.old) (state_of U.tables builder.new) place) }
    ensures memory { IfErr result (λ e. e ≡ Stop.OutOfMemory) }
{
    lower_expression(alloc, builder, names, object)?;
    refuse_as_undefined(alloc, builder, Row::F3, at)
}

/// Lowers `delete` of a property, also in parentheses. Of anything else it is refused without its operand.
#[cycle(expressions)]
fn lower_delete<U: ReadsUnit>(
    alloc: Global,
    builder: &mut GraphBuilder<'_, U>,
    names: &FunctionNames<'_>,
    at: At,
    operator: UnaryOperator,
    argument: ExpressionTree<'_>,
) -> Result<Place, Stop>
    requires names { IsNamed (seen names.now) (state_of U.tables builder.old) }
    requires deletes { bytes_eq (unary_text operator) (codes "delete") ≡ true }
    requires may { IsLowerable (seen names.now) (seen_expression (Expression.Unary at operator argument)) }
    requires room { HasRoom (state_of U.tables builder.old) (share (nodes (seen_expression (Expression.Unary at operator argument)))) }
    ensures same_reference { builder.new.env.ghost_name ≡ builder.old.env.ghost_name }
    ensures lowered { IfOk result (λ place. LowersExpression (seen names.now) (seen_expression (Expression.Unary at operator argument.entry)) (state_of U.tables builder.old) (state_of U.tables builder.new) place) }
    ensures memory { IfErr result (λ e. e ≡ Stop.OutOfMemory) }
{
    let inner = without_parentheses(argument);
    if !is_link(inner.tree) {
        return refuse_as_undefined(alloc, builder, Row::F12, at);
    }
    match expression_view(inner) {
        Expression::Member {
            at: _,
            optional: _,
            object,
            property,
        } => {
            let member = lower_static(alloc, builder, names, object, property)?;
            let value = delete_value(alloc, member)?;
            lower_value_to_temporary(builder, value, Some(at.span))
        }
        Expression::Index {
            at: _,
            optional: _,
            object,
            property,
        } => {
            let member = lower_computed(alloc, builder, names, object, property)?;
            let value = delete_value(alloc, member)?;
            lower_value_to_temporary(builder, value, Some(at.span))
        }
        Expression::PrivateMember {
            at: there,
            optional: _,
            object,
            property: _,
        } => lower_private(alloc, builder, names, there, object),
        _ => unreachable!(),
    }
}

/// Lowers a unary operation.
#[cycle(expressions)]
pub(crate) fn lower_unary<U: ReadsUnit>(
    alloc: Global,
    builder: &mut GraphBuilder<'_, U>,
    names: &FunctionNames<'_>,
    at: At,
    operator: UnaryOperator,
    argument: ExpressionTree<'_>,
) -> Result<Place, Stop>
    requires names { IsNamed (seen names.now) (state_of U.tables builder.old) }
    requires may { IsLowerable (seen names.now) (seen_expression (Expression.Unary at operator argument)) }
    requires room { HasRoom (state_of U.tables builder.old) (share (nodes (seen_expression (Expression.Unary at operator argument)))) }
    ensures same_reference { builder.new.env.ghost_name ≡ builder.old.env.ghost_name }
    ensures lowered { IfOk result (λ place. LowersExpression (seen names.now) (seen_expression (Expression.Unary at operator argument.entry)) (state_of U.tables builder.old) (state_of U.tables builder.new) place) }
    ensures memory { IfErr result (λ e. e ≡ Stop.OutOfMemory) }
{
    if is_delete(operator) {
        return lower_delete(alloc, builder, names, at, operator, argument);
    }
    let value = lower_expression(alloc, builder, names, argument)?;
    let value = InstructionValue::UnaryExpression { operator, value };
    lower_value_to_temporary(builder, value, Some(at.span))
}

/// Lowers `++` or `--`. Of a target under a wrapper it is refused without its target.
#[cycle(expressions)]
pub(crate) fn lower_update<U: ReadsUnit>(
    alloc: Global,
    builder: &mut GraphBuilder<'_, U>,
    names: &FunctionNames<'_>,
    at: At,
    operator: UpdateOperator,
    prefix: bool,
    target: AssignmentTargetTree<'_>,
) -> Result<Place, Stop>
    requires names { IsNamed (seen names.now) (state_of U.tables builder.old) }
    requires may { IsLowerable (seen names.now) (seen_expression (Expression.Update at operator prefix target)) }
    requires room { HasRoom (state_of U.tables builder.old) (share (nodes (seen_expression (Expression.Update at operator prefix target)))) }
    ensures same_reference { builder.new.env.ghost_name ≡ builder.old.env.ghost_name }
    ensures lowered { IfOk result (λ place. LowersExpression (seen names.now) (seen_expression (Expression.Update at operator prefix target.entry)) (state_of U.tables builder.old) (state_of U.tables builder.new) place) }
    ensures memory { IfErr result (λ e. e ≡ Stop.OutOfMemory) }
{
    match assignment_target_view(target) {
        AssignmentTarget::Identifier(identifier) => {
            let identifier = identifier_reference_view(identifier);
            update_name(alloc, builder, names, at, operator, prefix, &identifier)
        }
        AssignmentTarget::Member {
            at: there,
            optional: _,
            object,
            property,
        } => {
            let member = lower_static(alloc, builder, names, object, property)?;
            update_member(alloc, builder, there, operator, prefix, member)
        }
        AssignmentTarget::Index {
            at: there,
            optional: _,
            object,
            property,
        } => {
            let member = lower_computed(alloc, builder, names, object, property)?;
            update_member(alloc, builder, there, operator, prefix, member)
        }
        AssignmentTarget::PrivateMember {
            at: there,
            optional: _,
            object,
            property: _,
        } => lower_private(alloc, builder, names, there, object),
        AssignmentTarget::As { .. } => refuse_as_undefined(alloc, builder, Row::F22, at),
        AssignmentTarget::Satisfies { .. } => refuse_as_undefined(alloc, builder, Row::F22, at),
        AssignmentTarget::Assert { .. } => refuse_as_undefined(alloc, builder, Row::F22, at),
        AssignmentTarget::NonNull { .. } => refuse_as_undefined(alloc, builder, Row::F22, at),
        AssignmentTarget::Array { .. } => unreachable!(),
        AssignmentTarget::Object { .. } => unreachable!(),
    }
}

/// Lowers an expression under a type, which is made behind it.
#[cycle(expressions)]
pub(crate) fn lower_cast<U: ReadsUnit>(
    alloc: Global,
    builder: &mut GraphBuilder<'_, U>,
    names: &FunctionNames<'_>,
    at: At,
    expression: ExpressionTree<'_>,
    annotation: TypeAnnotationTree<'_>,
) -> Result<Place, Stop>
    requires names { IsNamed (seen names.now) (state_of U.tables builder.old) }
    requires may { IsLowerable (seen names.now) (syntax expression.tree.now) }
    requires room { HasRoom (state_of U.tables builder.old) (share (nodes (syntax expression.tree.now) + 1)) }
    ensures same_reference { builder.new.env.ghost_name ≡ builder.old.env.ghost_name }
    ensures lowered { IfOk result (λ place. (w : Word) (fields : Pieces) → IsCast w fields (syntax expression.entry.tree.now) (syntax annotation.entry.tree.now) → LowersExpression (seen names.now) (Node at w fields) (state_of U.tables builder.old) (state_of U.tables builder.new) place) }
    ensures memory { IfErr result (λ e. e ≡ Stop.OutOfMemory) }
{
    let value = lower_expression(alloc, builder, names, expression)?;
    let annotation = type_annotation_view(annotation);
    let cast = lower_type(builder, annotation.kind);
    let value = InstructionValue::TypeCastExpression {
        value,
        cast,
        span: Some(annotation.at.span),
    };
    lower_value_to_temporary(builder, value, Some(at.span))
}

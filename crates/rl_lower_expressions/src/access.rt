//! Lowering of properties, calls and templates.

ghost use Rattle.std.specs.Prelude.{◌≡◌, ◌+◌, false, map, IfOk, IfErr};
ghost use Rattle.rl_syntax.specs.Syntax.{Node, Listed, Said, Flag, End, Then, Pieces, nodes, nodes_of, pieces_of, syntax};
ghost use Rattle.rl_builder.specs.Builder.{State, state_of};
ghost use Rattle.rl_lowered.specs.Named.{IsNamed};
ghost use Rattle.rl_lowered.specs.Promised.{HasRoom, LowersExpression, share};
ghost use Rattle.rl_lower_expressions.specs.Links.{LowersKey};
ghost use Rattle.rl_lower_expressions.specs.Members.{LowersMember};
ghost use Rattle.rl_promises.specs.Lowerable.{AreLowerable, IsLowerable};
ghost use Rattle.rl_names.specs.Seen.{seen};
ghost use Rattle.rl_ast.specs.ExpressionViews.{seen_expression};

use crate::expression::lower_expression;
use crate::member::{LoweredMember, MemberProperty, key_number, load_value};
use crate::parts::{lower_arguments, lower_expressions};
use rl_ast::expression::{Expression, expression_view};
use rl_ast::expression_part::template_literal_view;
use rl_base::boxed::Boxed;
use rl_base::number::WholeNumber;
use rl_base::row::Row;
use rl_base::stop::Stop;
use rl_base::text::Text;
use rl_builder::unit_tables::ReadsUnit;
use rl_grammar::sort::{ArgumentTrees, ExpressionTree, TemplateLiteralTree};
use rl_hir::instruction::{InstructionValue, MethodCall, Place, PropertyLiteral, TemplateLiteral};
use rl_lower_parts::graph_builder::GraphBuilder;
use rl_lower_parts::shape::is_property;
use rl_lower_parts::template::{are_raw, copy_quasis};
use rl_lower_parts::temporary::{lower_value_to_temporary, refuse_as_undefined};
use rl_names::names::FunctionNames;
use rl_syntax::numbered::At;
use rl_syntax::word::Word;
use std::alloc::Global;

/// Lowers the object of a property by its name (`lowerMemberExpression`). On `Stop::OutOfMemory` an allocation failed; no other stop comes.
#[cycle(expressions)]
pub fn lower_static<U: ReadsUnit>(
    alloc: Global,
    builder: &mut GraphBuilder<'_, U>,
    names: &FunctionNames<'_>,
    object: ExpressionTree<'_>,
    property: &Text,
) -> Result<LoweredMember, Stop>
    requires names { IsNamed (seen names.now) (state_of U.tables builder.old) }
    requires may { IsLowerable (seen names.now) (syntax object.tree.now) }
    requires room { HasRoom (state_of U.tables builder.old) (share (nodes (syntax object.tree.now))) }
    ensures same_reference { builder.new.env.ghost_name ≡ builder.old.env.ghost_name }
    ensures lowered { IfOk result (λ member. LowersMember (seen names.now) Word.Member (Then (Flag false) (Then (syntax object.entry.tree.now) (Then (Said property.now) End))) (state_of U.tables builder.old) (state_of U.tables builder.new) member) }
    ensures memory { IfErr result (λ e. e ≡ Stop.OutOfMemory) }
{
    let object = lower_expression(alloc, builder, names, object)?;
    let key = PropertyLiteral::String(property.copy(alloc)?);
    Ok(LoweredMember {
        object,
        property: MemberProperty::Literal(key),
    })
}

/// Lowers a key in brackets. A numeral is no expression of its own, but a fixed key.
#[cycle(expressions)]
pub(crate) fn lower_key<U: ReadsUnit>(
    alloc: Global,
    builder: &mut GraphBuilder<'_, U>,
    names: &FunctionNames<'_>,
    key: ExpressionTree<'_>,
) -> Result<MemberProperty, Stop>
    requires names { IsNamed (seen names.now) (state_of U.tables builder.old) }
    requires may { IsLowerable (seen names.now) (syntax key.tree.now) }
    requires room { HasRoom (state_of U.tables builder.old) (share (nodes (syntax key.tree.now))) }
    ensures same_reference { builder.new.env.ghost_name ≡ builder.old.env.ghost_name }
    ensures lowered { IfOk result (λ lowered. LowersKey (seen names.now) Word.Index (Then (syntax key.entry.tree.now) End) (state_of U.tables builder.old) (state_of U.tables builder.new) lowered) }
    ensures memory { IfErr result (λ e. e ≡ Stop.OutOfMemory) }
{
    match key_number(key) {
        Some(number) => {
            let key = PropertyLiteral::Number(WholeNumber::new(number));
            Ok(MemberProperty::Literal(key))
        }
        None => {
            let place = lower_expression(alloc, builder, names, key)?;
            Ok(MemberProperty::Computed(place))
        }
    }
}

/// Lowers the object and the key of a property in brackets (`lowerMemberExpression`). On `Stop::OutOfMemory` an
/// allocation failed; no other stop comes.
#[cycle(expressions)]
pub fn lower_computed<U: ReadsUnit>(
    alloc: Global,
    builder: &mut GraphBuilder<'_, U>,
    names: &FunctionNames<'_>,
    object: ExpressionTree<'_>,
    property: ExpressionTree<'_>,
) -> Result<LoweredMember, Stop>
    requires names { IsNamed (seen names.now) (state_of U.tables builder.old) }
    requires may { IsLowerable (seen names.now) (syntax object.tree.now) × IsLowerable (seen names.now) (syntax property.tree.now) }
    requires room { HasRoom (state_of U.tables builder.old) (share (nodes (syntax object.tree.now) + nodes (syntax property.tree.now))) }
    ensures same_reference { builder.new.env.ghost_name ≡ builder.old.env.ghost_name }
    ensures lowered { IfOk result (λ member. LowersMember (seen names.now) Word.Index (Then (Flag false) (Then (syntax object.entry.tree.now) (Then (syntax property.entry.tree.now) End))) (state_of U.tables builder.old) (state_of U.tables builder.new) member) }
    ensures memory { IfErr result (λ e. e ≡ Stop.OutOfMemory) }
{
    let object = lower_expression(alloc, builder, names, object)?;
    let property = lower_key(alloc, builder, names, property)?;
    Ok(LoweredMember { object, property })
}

/// Lowers a call of a method, whose object and key were lowered for the node `there`: the function is loaded before the arguments
/// are lowered.
#[cycle(expressions)]
fn lower_method<U: ReadsUnit>(
    alloc: Global,
    builder: &mut GraphBuilder<'_, U>,
    names: &FunctionNames<'_>,
    at: At,
    there: At,
    member: LoweredMember,
    arguments: ArgumentTrees<'_>,
) -> Result<Place, Stop>
    requires names { IsNamed (seen names.now) (state_of U.tables builder.old) }
    requires may { AreLowerable (seen names.now) (pieces_of (map syntax arguments.trees.now)) }
    requires room { HasRoom (state_of U.tables builder.old) (share (nodes_of (pieces_of (map syntax arguments.trees.now)) + 1)) }
    ensures same_reference { builder.new.env.ghost_name ≡ builder.old.env.ghost_name }
    ensures lowered { IfOk result (λ place. (w : Word) (fields : Pieces) (old : State) → LowersMember (seen names.now) w fields old (state_of U.tables builder.old) member → LowersExpression (seen names.now) (Node at Word.Call (Then (Flag false) (Then (Node there w fields) (Then (Listed (pieces_of (map syntax arguments.entry.trees.now))) End)))) old (state_of U.tables builder.new) place) }
    ensures memory { IfErr result (λ e. e ≡ Stop.OutOfMemory) }
{
    let receiver = member.object;
    let value = load_value(alloc, member)?;
    let property = lower_value_to_temporary(builder, value, Some(there.span))?;
    let arguments = lower_arguments(alloc, builder, names, arguments)?;
    let call = MethodCall {
        receiver,
        property,
        arguments,
    };
    let value = InstructionValue::MethodCall(Boxed::new(alloc, call)?);
    lower_value_to_temporary(builder, value, Some(at.span))
}

/// Lowers a call. The callee that is a property is called as a method of its object.
#[cycle(expressions)]
pub(crate) fn lower_call<U: ReadsUnit>(
    alloc: Global,
    builder: &mut GraphBuilder<'_, U>,
    names: &FunctionNames<'_>,
    at: At,
    callee: ExpressionTree<'_>,
    arguments: ArgumentTrees<'_>,
) -> Result<Place, Stop>
    requires names { IsNamed (seen names.now) (state_of U.tables builder.old) }
    requires may { IsLowerable (seen names.now) (seen_expression (Expression.Call at false callee arguments)) }
    requires room { HasRoom (state_of U.tables builder.old) (share (nodes (seen_expression (Expression.Call at false callee arguments)))) }
    ensures same_reference { builder.new.env.ghost_name ≡ builder.old.env.ghost_name }
    ensures lowered { IfOk result (λ place. LowersExpression (seen names.now) (seen_expression (Expression.Call at false callee.entry arguments.entry)) (state_of U.tables builder.old) (state_of U.tables builder.new) place) }
    ensures memory { IfErr result (λ e. e ≡ Stop.OutOfMemory) }
{
    if !is_property(callee.tree) {
        let callee = lower_expression(alloc, builder, names, callee)?;
        let arguments = lower_arguments(alloc, builder, names, arguments)?;
        let value = InstructionValue::CallExpression { callee, arguments };
        return lower_value_to_temporary(builder, value, Some(at.span));
    }
    match expression_view(callee) {
        Expression::Member {
            at: there,
            optional: _,
            object,
            property,
        } => {
            let member = lower_static(alloc, builder, names, object, property)?;
            lower_method(alloc, builder, names, at, there, member, arguments)
        }
        Expression::Index {
            at: there,
            optional: _,
            object,
            property,
        } => {
            let member = lower_computed(alloc, builder, names, object, property)?;
            lower_method(alloc, builder, names, at, there, member, arguments)
        }
        _ => unreachable!(),
    }
}

/// Lowers a template.
#[cycle(expressions)]
pub(crate) fn lower_template<U: ReadsUnit>(
    alloc: Global,
    builder: &mut GraphBuilder<'_, U>,
    names: &FunctionNames<'_>,
    template: TemplateLiteralTree<'_>,
) -> Result<Place, Stop>
    requires names { IsNamed (seen names.now) (state_of U.tables builder.old) }
    requires may { IsLowerable (seen names.now) (syntax template.tree.now) }
    requires room { HasRoom (state_of U.tables builder.old) (share (nodes (syntax template.tree.now))) }
    ensures same_reference { builder.new.env.ghost_name ≡ builder.old.env.ghost_name }
    ensures lowered { IfOk result (λ place. LowersExpression (seen names.now) (syntax template.entry.tree.now) (state_of U.tables builder.old) (state_of U.tables builder.new) place) }
    ensures memory { IfErr result (λ e. e ≡ Stop.OutOfMemory) }
{
    let template = template_literal_view(template);
    let quasis = copy_quasis(alloc, template.quasis)?;
    let subexpressions = lower_expressions(alloc, builder, names, template.expressions)?;
    let literal = Boxed::new(
        alloc,
        TemplateLiteral {
            quasis,
            subexpressions,
        },
    )?;
    let value = InstructionValue::TemplateLiteral(literal);
    lower_value_to_temporary(builder, value, Some(template.at.span))
}

/// Lowers a tagged template. One that is cooked otherwise than it is written is refused without its parts.
#[cycle(expressions)]
pub(crate) fn lower_tagged<U: ReadsUnit>(
    alloc: Global,
    builder: &mut GraphBuilder<'_, U>,
    names: &FunctionNames<'_>,
    at: At,
    tag: ExpressionTree<'_>,
    quasi: TemplateLiteralTree<'_>,
) -> Result<Place, Stop>
    requires names { IsNamed (seen names.now) (state_of U.tables builder.old) }
    requires may { IsLowerable (seen names.now) (seen_expression (Expression.Tagged at tag quasi)) }
    requires room { HasRoom (state_of U.tables builder.old) (share (nodes (seen_expression (Expression.Tagged at tag quasi)))) }
    ensures same_reference { builder.new.env.ghost_name ≡ builder.old.env.ghost_name }
    ensures lowered { IfOk result (λ place. LowersExpression (seen names.now) (seen_expression (Expression.Tagged at tag.entry quasi.entry)) (state_of U.tables builder.old) (state_of U.tables builder.new) place) }
    ensures memory { IfErr result (λ e. e ≡ Stop.OutOfMemory) }
{
    let template = template_literal_view(quasi);
    if !are_raw(template.quasis) {
        return refuse_as_undefined(alloc, builder, Row::F13, at);
    }
    let tag = lower_expression(alloc, builder, names, tag)?;
    let quasis = copy_quasis(alloc, template.quasis)?;
    let subexpressions = lower_expressions(alloc, builder, names, template.expressions)?;
    let template = Boxed::new(
        alloc,
        TemplateLiteral {
            quasis,
            subexpressions,
        },
    )?;
    let value = InstructionValue::TaggedTemplateExpression { tag, template };
    lower_value_to_temporary(builder, value, Some(at.span))
}

//! Lowering of optional chains. All links of a chain end early in one block, which its outermost link makes.

ghost use Rattle.std.specs.Prelude.{◌≡◌, ◌+◌, ◌&&◌, map, true, Some, OnOk, IfOk, IfErr};
ghost use Rattle.rl_syntax.specs.Syntax.{nodes, syntax};
ghost use Rattle.rl_ast.specs.ExpressionViews.{seen_expression};
ghost use Rattle.rl_base.specs.declared.ids.BlockId.{BlockId};
ghost use Rattle.rl_builder.specs.Builder.{state_of};
ghost use Rattle.rl_builder.specs.Temporaries.{temporary, with_value};
ghost use Rattle.rl_lowered.specs.Forms.{call_of, handed_on, is_property, load_of, tested_front};
ghost use Rattle.rl_lowered.specs.Named.{IsNamed};
ghost use Rattle.rl_lowered.specs.Promised.{HasRoom, LowersFront, LowersLink, LowersSpine, share};
ghost use Rattle.rl_lower_expressions.specs.Groups.{is_linked};
ghost use Rattle.rl_lower_expressions.specs.Links as spec;
ghost use Rattle.rl_lower_expressions.specs.Links.{OpensLink, front_of};
ghost use Rattle.rl_lower_expressions.specs.Members.{key_of};
ghost use Rattle.rl_names.specs.Seen.{seen};
ghost use Rattle.rl_optional_frames.specs.Frames.{link_ended, link_of};
ghost use Rattle.rl_promises.specs.Chains.{Below};
ghost use Rattle.rl_promises.specs.Lowerable.{IsLowerable, IsLowerableAt};
ghost use Rattle.rl_rules.specs.Chains.{has_optional};

use crate::access::{lower_computed, lower_key, lower_static};
use crate::expression::lower_expression;
use crate::member::{LoweredMember, MemberProperty, load_value};
use crate::parts::lower_arguments;
use rl_ast::expression::{Expression, expression_view};
use rl_base::boxed::Boxed;
use rl_base::error::OutOfMemory;
use rl_base::ids::BlockId;
use rl_base::list::List;
use rl_base::row::Row;
use rl_base::stop::Stop;
use rl_base::text::Text;
use rl_builder::unit_tables::ReadsUnit;
use rl_grammar::sort::{ArgumentTrees, ExpressionTree};
use rl_hir::instruction::{InstructionValue, MethodCall, Place, PlaceOrSpread, PropertyLiteral};
use rl_lower_parts::graph_builder::GraphBuilder;
use rl_lower_parts::shape::{has_optional, is_assertion, lends};
use rl_lower_parts::temporary::{lower_value_to_temporary, refuse, refuse_as_undefined};
use rl_names::names::FunctionNames;
use rl_optional_frames::chain_link::ChainLink;
use rl_syntax::numbered::At;
use std::alloc::Global;

/// The object of a link of a chain, or its callee (`CalleeInfo` of the compiler).
#[derive(Clone, Copy)]
enum Front {
    /// A value.
    Alone(Place),
    /// A function, and the receiver of its call.
    Method { receiver: Place, property: Place },
}

/// A link whose object or callee was lowered.
#[derive(Drop)]
struct OpenLink {
    /// The frame, in the hole of the link.
    link: ChainLink,
    /// The object or callee.
    front: Front,
}

/// A link that was lowered.
#[derive(Clone, Copy)]
struct LoweredLink {
    /// The object or callee.
    front: Front,
    /// The place of the value.
    place: Place,
}

/// The place that a link tests.
fn tested(front: Front) -> Place
    ensures { result ≡ tested_front (front_of front) }
{
    match front {
        Front::Alone(place) => place,
        Front::Method {
            receiver: _,
            property,
        } => property,
    }
}

/// The value of a link as the object or callee of the link around it: as a function with its object as the receiver, if it lends that.
fn handed_on(lends: bool, link: LoweredLink) -> Front
    ensures { front_of result ≡ handed_on lends (front_of link.front) link.place }
{
    if lends {
        Front::Method {
            receiver: tested(link.front),
            property: link.place,
        }
    } else {
        Front::Alone(link.place)
    }
}

/// The value of a call behind its callee.
fn call_value(
    alloc: Global,
    front: Front,
    arguments: List<PlaceOrSpread>,
) -> Result<InstructionValue, OutOfMemory>
    ensures { IfOk result (λ value. value ≡ call_of (front_of front) arguments) }
{
    match front {
        Front::Alone(callee) => Ok(InstructionValue::CallExpression { callee, arguments }),
        Front::Method { receiver, property } => {
            let call = MethodCall {
                receiver,
                property,
                arguments,
            };
            Ok(InstructionValue::MethodCall(Boxed::new(alloc, call)?))
        }
    }
}

/// Ends a link with its value.
fn close_link<U: ReadsUnit>(
    builder: &mut GraphBuilder<'_, U>,
    opened: OpenLink,
    value: Place,
) -> Result<LoweredLink, Stop>
    requires room { HasRoom (state_of U.tables builder.old) 4 }
    ensures same_reference { builder.new.env.ghost_name ≡ builder.old.env.ghost_name }
    ensures state { OnOk result (state_of U.tables builder.new ≡ link_ended (link_of opened.link) (state_of U.tables builder.old) value) }
    ensures front { IfOk result (λ link. link.front ≡ opened.front) }
    ensures place { IfOk result (λ link. link.place ≡ (link_of opened.link).place) }
    ensures memory { IfErr result (λ e. e ≡ Stop.OutOfMemory) }
{
    let OpenLink { link, front } = opened;
    let place = link.finish(builder, value)?;
    Ok(LoweredLink { front, place })
}

/// Loads a property from the object of a link, which ends so.
fn load_link<U: ReadsUnit>(
    alloc: Global,
    builder: &mut GraphBuilder<'_, U>,
    at: At,
    opened: OpenLink,
    property: MemberProperty,
) -> Result<LoweredLink, Stop>
    requires room { HasRoom (state_of U.tables builder.old) 8 }
    ensures same_reference { builder.new.env.ghost_name ≡ builder.old.env.ghost_name }
    ensures state { OnOk result (state_of U.tables builder.new ≡ link_ended (link_of opened.link) (with_value (state_of U.tables builder.old) (load_of (tested_front (front_of opened.front)) (key_of property)) (Some at.span)) (temporary (state_of U.tables builder.old) (Some at.span))) }
    ensures front { IfOk result (λ link. link.front ≡ opened.front) }
    ensures place { IfOk result (λ link. link.place ≡ (link_of opened.link).place) }
    ensures memory { IfErr result (λ e. e ≡ Stop.OutOfMemory) }
{
    let object = tested(opened.front);
    let value = load_value(alloc, LoweredMember { object, property })?;
    let value = lower_value_to_temporary(builder, value, Some(at.span))?;
    close_link(builder, opened, value)
}

/// Loads a function from the object that it is called on.
fn lend<U: ReadsUnit>(
    alloc: Global,
    builder: &mut GraphBuilder<'_, U>,
    at: At,
    member: LoweredMember,
) -> Result<Front, Stop>
    requires room { HasRoom (state_of U.tables builder.old) 4 }
    ensures same_reference { builder.new.env.ghost_name ≡ builder.old.env.ghost_name }
    ensures state { OnOk result (state_of U.tables builder.new ≡ with_value (state_of U.tables builder.old) (load_of member.object (key_of member.property)) (Some at.span)) }
    ensures front { IfOk result (λ front. front ≡ Front.Method member.object (temporary (state_of U.tables builder.old) (Some at.span))) }
    ensures memory { IfErr result (λ e. e ≡ Stop.OutOfMemory) }
{
    let receiver = member.object;
    let value = load_value(alloc, member)?;
    let property = lower_value_to_temporary(builder, value, Some(at.span))?;
    Ok(Front::Method { receiver, property })
}

/// Refuses `!` below a link of a chain.
fn refuse_below<U: ReadsUnit>(
    alloc: Global,
    builder: &mut GraphBuilder<'_, U>,
    below: bool,
    at: At,
) -> Result<(), OutOfMemory>
    ensures same_reference { builder.new.env.ghost_name ≡ builder.old.env.ghost_name }
    ensures state { OnOk result (state_of U.tables builder.new ≡ spec.refused_below below (state_of U.tables builder.old) at.span) }
{
    if below {
        return refuse(alloc, builder, Row::F44, at.span);
    }
    Ok(())
}

/// Lowers the object or callee of a link with the ids `at`.
#[cycle(expressions)]
fn open_link<U: ReadsUnit>(
    alloc: Global,
    builder: &mut GraphBuilder<'_, U>,
    names: &FunctionNames<'_>,
    alternate: Option<BlockId>,
    at: At,
    optional: bool,
    called: bool,
    expression: ExpressionTree<'_>,
) -> Result<OpenLink, Stop>
    requires names { IsNamed (seen names.now) (state_of U.tables builder.old) }
    requires may { IsLowerableAt (seen names.now) Below (syntax expression.tree.now) }
    requires room { HasRoom (state_of U.tables builder.old) (share (nodes (syntax expression.tree.now) + 1)) }
    ensures same_reference { builder.new.env.ghost_name ≡ builder.old.env.ghost_name }
    ensures lowered { IfOk result (λ opened. OpensLink (seen names.now) alternate at.span optional called (syntax expression.entry.tree.now) (state_of U.tables builder.old) (state_of U.tables builder.new) opened) }
    ensures memory { IfErr result (λ e. e ≡ Stop.OutOfMemory) }
{
    let mut link = ChainLink::begin(builder, at.span, optional, alternate)?;
    let early = link.alternate();
    let front = lower_front(alloc, builder, names, early, called, expression)?;
    link.object(builder, tested(front))?;
    Ok(OpenLink { link, front })
}

/// Lowers a property by its name as a link of a chain.
#[cycle(expressions)]
fn lower_static_link<U: ReadsUnit>(
    alloc: Global,
    builder: &mut GraphBuilder<'_, U>,
    names: &FunctionNames<'_>,
    alternate: Option<BlockId>,
    at: At,
    optional: bool,
    object: ExpressionTree<'_>,
    property: &Text,
) -> Result<LoweredLink, Stop>
    requires names { IsNamed (seen names.now) (state_of U.tables builder.old) }
    requires may { IsLowerableAt (seen names.now) Below (seen_expression (Expression.Member at optional object property)) }
    requires room { HasRoom (state_of U.tables builder.old) (share (nodes (seen_expression (Expression.Member at optional object property)))) }
    ensures same_reference { builder.new.env.ghost_name ≡ builder.old.env.ghost_name }
    ensures lowered { IfOk result (λ link. LowersLink (seen names.now) alternate (seen_expression (Expression.Member at optional object.entry property.entry)) (state_of U.tables builder.old) (state_of U.tables builder.new) (front_of link.front) link.place) }
    ensures memory { IfErr result (λ e. e ≡ Stop.OutOfMemory) }
{
    let opened = open_link(
        alloc, builder, names, alternate, at, optional, false, object,
    )?;
    let key = PropertyLiteral::String(property.copy(alloc)?);
    load_link(alloc, builder, at, opened, MemberProperty::Literal(key))
}

/// Lowers a property in brackets as a link of a chain.
#[cycle(expressions)]
fn lower_computed_link<U: ReadsUnit>(
    alloc: Global,
    builder: &mut GraphBuilder<'_, U>,
    names: &FunctionNames<'_>,
    alternate: Option<BlockId>,
    at: At,
    optional: bool,
    object: ExpressionTree<'_>,
    property: ExpressionTree<'_>,
) -> Result<LoweredLink, Stop>
    requires names { IsNamed (seen names.now) (state_of U.tables builder.old) }
    requires may { IsLowerableAt (seen names.now) Below (seen_expression (Expression.Index at optional object property)) }
    requires room { HasRoom (state_of U.tables builder.old) (share (nodes (seen_expression (Expression.Index at optional object property)))) }
    ensures same_reference { builder.new.env.ghost_name ≡ builder.old.env.ghost_name }
    ensures lowered { IfOk result (λ link. LowersLink (seen names.now) alternate (seen_expression (Expression.Index at optional object.entry property.entry)) (state_of U.tables builder.old) (state_of U.tables builder.new) (front_of link.front) link.place) }
    ensures memory { IfErr result (λ e. e ≡ Stop.OutOfMemory) }
{
    let opened = open_link(
        alloc, builder, names, alternate, at, optional, false, object,
    )?;
    let key = lower_key(alloc, builder, names, property)?;
    load_link(alloc, builder, at, opened, key)
}

/// Lowers a property by a private name as a link of a chain, which is refused behind its object; undefined stands for it.
#[cycle(expressions)]
fn lower_private_link<U: ReadsUnit>(
    alloc: Global,
    builder: &mut GraphBuilder<'_, U>,
    names: &FunctionNames<'_>,
    alternate: Option<BlockId>,
    at: At,
    optional: bool,
    object: ExpressionTree<'_>,
    property: &Text,
) -> Result<LoweredLink, Stop>
    requires names { IsNamed (seen names.now) (state_of U.tables builder.old) }
    requires may { IsLowerableAt (seen names.now) Below (seen_expression (Expression.PrivateMember at optional object property)) }
    requires room { HasRoom (state_of U.tables builder.old) (share (nodes (seen_expression (Expression.PrivateMember at optional object property)))) }
    ensures same_reference { builder.new.env.ghost_name ≡ builder.old.env.ghost_name }
    ensures lowered { IfOk result (λ link. LowersLink (seen names.now) alternate (seen_expression (Expression.PrivateMember at optional object.entry property.entry)) (state_of U.tables builder.old) (state_of U.tables builder.new) (front_of link.front) link.place) }
    ensures memory { IfErr result (λ e. e ≡ Stop.OutOfMemory) }
{
    let opened = open_link(
        alloc, builder, names, alternate, at, optional, false, object,
    )?;
    let value = refuse_as_undefined(alloc, builder, Row::F3, at)?;
    close_link(builder, opened, value)
}

/// Lowers a call as a link of a chain.
#[cycle(expressions)]
fn lower_called_link<U: ReadsUnit>(
    alloc: Global,
    builder: &mut GraphBuilder<'_, U>,
    names: &FunctionNames<'_>,
    alternate: Option<BlockId>,
    at: At,
    optional: bool,
    callee: ExpressionTree<'_>,
    arguments: ArgumentTrees<'_>,
) -> Result<LoweredLink, Stop>
    requires names { IsNamed (seen names.now) (state_of U.tables builder.old) }
    requires may { IsLowerableAt (seen names.now) Below (seen_expression (Expression.Call at optional callee arguments)) }
    requires room { HasRoom (state_of U.tables builder.old) (share (nodes (seen_expression (Expression.Call at optional callee arguments)))) }
    ensures same_reference { builder.new.env.ghost_name ≡ builder.old.env.ghost_name }
    ensures lowered { IfOk result (λ link. LowersLink (seen names.now) alternate (seen_expression (Expression.Call at optional callee.entry arguments.entry)) (state_of U.tables builder.old) (state_of U.tables builder.new) (front_of link.front) link.place) }
    ensures memory { IfErr result (λ e. e ≡ Stop.OutOfMemory) }
{
    let opened = open_link(alloc, builder, names, alternate, at, optional, true, callee)?;
    let arguments = lower_arguments(alloc, builder, names, arguments)?;
    let value = call_value(alloc, opened.front, arguments)?;
    let value = lower_value_to_temporary(builder, value, Some(at.span))?;
    close_link(builder, opened, value)
}

/// Lowers a link of a chain that ends early in block `alternate`. The outermost link is given none.
#[cycle(expressions)]
fn lower_link<U: ReadsUnit>(
    alloc: Global,
    builder: &mut GraphBuilder<'_, U>,
    names: &FunctionNames<'_>,
    alternate: Option<BlockId>,
    expression: ExpressionTree<'_>,
) -> Result<LoweredLink, Stop>
    requires names { IsNamed (seen names.now) (state_of U.tables builder.old) }
    requires linked { is_linked (syntax expression.tree.now) ≡ true }
    requires may { IsLowerableAt (seen names.now) Below (syntax expression.tree.now) }
    requires room { HasRoom (state_of U.tables builder.old) (share (nodes (syntax expression.tree.now))) }
    ensures same_reference { builder.new.env.ghost_name ≡ builder.old.env.ghost_name }
    ensures lowered { IfOk result (λ link. LowersLink (seen names.now) alternate (syntax expression.entry.tree.now) (state_of U.tables builder.old) (state_of U.tables builder.new) (front_of link.front) link.place) }
    ensures memory { IfErr result (λ e. e ≡ Stop.OutOfMemory) }
{
    match expression_view(expression) {
        Expression::Member {
            at,
            optional,
            object,
            property,
        } => lower_static_link(
            alloc, builder, names, alternate, at, optional, object, property,
        ),
        Expression::Index {
            at,
            optional,
            object,
            property,
        } => lower_computed_link(
            alloc, builder, names, alternate, at, optional, object, property,
        ),
        Expression::PrivateMember {
            at,
            optional,
            object,
            property,
        } => lower_private_link(
            alloc, builder, names, alternate, at, optional, object, property,
        ),
        Expression::Call {
            at,
            optional,
            callee,
            arguments,
        } => lower_called_link(
            alloc, builder, names, alternate, at, optional, callee, arguments,
        ),
        _ => unreachable!(),
    }
}

/// Lowers the spine of a chain from its outermost link. `below` is true of one below a link of another chain, where `!` is refused.
#[cycle(expressions)]
pub(crate) fn lower_spine<U: ReadsUnit>(
    alloc: Global,
    builder: &mut GraphBuilder<'_, U>,
    names: &FunctionNames<'_>,
    below: bool,
    expression: ExpressionTree<'_>,
) -> Result<Place, Stop>
    requires names { IsNamed (seen names.now) (state_of U.tables builder.old) }
    requires optional { has_optional (syntax expression.tree.now) ≡ true }
    requires may { IsLowerableAt (seen names.now) (spec.spine_of below) (syntax expression.tree.now) }
    requires room { HasRoom (state_of U.tables builder.old) (share (nodes (syntax expression.tree.now))) }
    ensures same_reference { builder.new.env.ghost_name ≡ builder.old.env.ghost_name }
    ensures lowered { IfOk result (λ place. LowersSpine (seen names.now) below (syntax expression.entry.tree.now) (state_of U.tables builder.old) (state_of U.tables builder.new) place) }
    ensures memory { IfErr result (λ e. e ≡ Stop.OutOfMemory) }
{
    if !is_assertion(expression.tree) {
        let link = lower_link(alloc, builder, names, None, expression)?;
        return Ok(link.place);
    }
    match expression_view(expression) {
        Expression::NonNull { at, expression } => {
            refuse_below(alloc, builder, below, at)?;
            lower_spine(alloc, builder, names, below, expression)
        }
        _ => unreachable!(),
    }
}

/// Lowers a callee in front of a chain that is a property: it lends its object to the call.
#[cycle(expressions)]
fn lower_lent<U: ReadsUnit>(
    alloc: Global,
    builder: &mut GraphBuilder<'_, U>,
    names: &FunctionNames<'_>,
    callee: ExpressionTree<'_>,
) -> Result<Front, Stop>
    requires names { IsNamed (seen names.now) (state_of U.tables builder.old) }
    requires property { is_property (syntax callee.tree.now) ≡ true }
    requires may { IsLowerable (seen names.now) (syntax callee.tree.now) }
    requires room { HasRoom (state_of U.tables builder.old) (share (nodes (syntax callee.tree.now))) }
    ensures same_reference { builder.new.env.ghost_name ≡ builder.old.env.ghost_name }
    ensures lowered { IfOk result (λ front. (alternate : BlockId) → LowersFront (seen names.now) alternate true (syntax callee.entry.tree.now) (state_of U.tables builder.old) (state_of U.tables builder.new) (front_of front)) }
    ensures memory { IfErr result (λ e. e ≡ Stop.OutOfMemory) }
{
    match expression_view(callee) {
        Expression::Member {
            at,
            optional: _,
            object,
            property,
        } => {
            let member = lower_static(alloc, builder, names, object, property)?;
            lend(alloc, builder, at, member)
        }
        Expression::Index {
            at,
            optional: _,
            object,
            property,
        } => {
            let member = lower_computed(alloc, builder, names, object, property)?;
            lend(alloc, builder, at, member)
        }
        _ => unreachable!(),
    }
}

/// Lowers the object or callee of a link that is itself a link of the chain, or `!` around one.
#[cycle(expressions)]
fn lower_inner<U: ReadsUnit>(
    alloc: Global,
    builder: &mut GraphBuilder<'_, U>,
    names: &FunctionNames<'_>,
    alternate: BlockId,
    called: bool,
    expression: ExpressionTree<'_>,
) -> Result<Front, Stop>
    requires names { IsNamed (seen names.now) (state_of U.tables builder.old) }
    requires optional { has_optional (syntax expression.tree.now) ≡ true }
    requires may { IsLowerableAt (seen names.now) Below (syntax expression.tree.now) }
    requires room { HasRoom (state_of U.tables builder.old) (share (nodes (syntax expression.tree.now))) }
    ensures same_reference { builder.new.env.ghost_name ≡ builder.old.env.ghost_name }
    ensures lowered { IfOk result (λ front. LowersFront (seen names.now) alternate called (syntax expression.entry.tree.now) (state_of U.tables builder.old) (state_of U.tables builder.new) (front_of front)) }
    ensures memory { IfErr result (λ e. e ≡ Stop.OutOfMemory) }
{
    if is_assertion(expression.tree) {
        let place = lower_spine(alloc, builder, names, true, expression)?;
        return Ok(Front::Alone(place));
    }
    let lends = lends(called, expression.tree);
    let link = lower_link(alloc, builder, names, Some(alternate), expression)?;
    Ok(handed_on(lends, link))
}

/// Lowers the object of a link, or, where `called` is true, its callee, in a chain that ends early in block `alternate`.
#[cycle(expressions)]
fn lower_front<U: ReadsUnit>(
    alloc: Global,
    builder: &mut GraphBuilder<'_, U>,
    names: &FunctionNames<'_>,
    alternate: BlockId,
    called: bool,
    expression: ExpressionTree<'_>,
) -> Result<Front, Stop>
    requires names { IsNamed (seen names.now) (state_of U.tables builder.old) }
    requires may { IsLowerableAt (seen names.now) Below (syntax expression.tree.now) }
    requires room { HasRoom (state_of U.tables builder.old) (share (nodes (syntax expression.tree.now))) }
    ensures same_reference { builder.new.env.ghost_name ≡ builder.old.env.ghost_name }
    ensures lowered { IfOk result (λ front. LowersFront (seen names.now) alternate called (syntax expression.entry.tree.now) (state_of U.tables builder.old) (state_of U.tables builder.new) (front_of front)) }
    ensures memory { IfErr result (λ e. e ≡ Stop.OutOfMemory) }
{
    if has_optional(expression.tree) {
        return lower_inner(alloc, builder, names, alternate, called, expression);
    }
    if lends(called, expression.tree) {
        return lower_lent(alloc, builder, names, expression);
    }
    let place = lower_expression(alloc, builder, names, expression)?;
    Ok(Front::Alone(place))
}

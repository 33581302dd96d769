//! Lowering of the parts of expressions from left to right: arguments, elements, properties and expressions.

ghost use Rattle.std.specs.Prelude.{◌≡◌, ◌+◌, ◌++◌, true, false, map, IfOk, IfErr, OnOk};
ghost use Rattle.rl_syntax.specs.Syntax.{Node, Flag, End, Then, nodes, nodes_of, pieces_of, syntax};
ghost use Rattle.rl_builder.specs.Builder.{state_of};
ghost use Rattle.rl_hir.specs.Pieces.{argument_pieces, element_pieces, gathered, property_pieces, value_pieces};
ghost use Rattle.rl_lowered.specs.Named.{IsNamed};
ghost use Rattle.rl_lowered.specs.Promised.{HasRoom, LowersAll, LowersLast, LowersProperties, share};
ghost use Rattle.rl_lower_expressions.specs.Groups.{has_parts};
ghost use Rattle.rl_lower_expressions.specs.Keys.{IsKeyOf, found_list, where_pieces};
ghost use Rattle.rl_promises.specs.Lowerable.{AreLowerable, IsLowerable};
ghost use Rattle.rl_promises.specs.Outs.{is_known_key};
ghost use Rattle.rl_model.specs.Shapes.{is_computed};
ghost use Rattle.rl_names.specs.Seen.{seen};

use crate::expression::lower_expression;
use rl_ast::binding::{PropertyKey, property_key_view};
use rl_ast::expression::{Expression, expression_view};
use rl_ast::expression_part::{
    Argument, ArrayElement as ElementView, ObjectProperty as ObjectPropertyView, argument_view,
    array_element_view, object_property_view,
};
use rl_base::error::OutOfMemory;
use rl_base::list::List;
use rl_base::row::Row;
use rl_base::stop::Stop;
use rl_base::text::Text;
use rl_builder::unit_tables::ReadsUnit;
use rl_forms::outs::is_known_key;
use rl_grammar::sort::{
    ArgumentTree, ArgumentTrees, ArrayElementTree, ArrayElementTrees, ExpressionTree,
    ExpressionTrees, ObjectPropertyTree, ObjectPropertyTrees, PropertyKeyTree,
};
use rl_hir::instruction::{ArrayElement, ObjectProperty, Place, PlaceOrSpread};
use rl_lower_parts::graph_builder::GraphBuilder;
use rl_lower_parts::shape::is_computed;
use rl_lower_parts::span::span_of;
use rl_lower_parts::temporary::refuse;
use rl_names::names::FunctionNames;
use rl_syntax::numbered::At;
use rl_syntax::word::Word;
use rl_text::number::parse_number;
use std::alloc::Global;

/// A key of an object literal.
#[derive(Clone, Copy)]
enum Key<'b> {
    /// A text that is known before.
    Fixed(&'b Text),
    /// An expression, whose value is the key.
    Computed(ExpressionTree<'b>),
    /// A number that is no numeral.
    Fraction(At),
}

/// The key of a property that is known before.
fn fixed_key(computed: bool, key: PropertyKeyTree<'_>) -> Key<'_>
    requires known { is_known_key computed (syntax key.tree.now) ≡ true }
    requires fixed { is_computed computed (syntax key.tree.now) ≡ false }
    ensures { IsKeyOf computed (syntax key.entry.tree.now) result }
{
    match property_key_view(key) {
        PropertyKey::Name { at: _, name } => Key::Fixed(name),
        PropertyKey::Private { .. } => unreachable!(),
        PropertyKey::Expression(expression) => match expression_view(expression) {
            Expression::String { at: _, text } => Key::Fixed(text),
            Expression::Number { at, text } => match parse_number(text.as_bytes()) {
                Some(_) => Key::Fixed(text),
                None => Key::Fraction(at),
            },
            _ => unreachable!(),
        },
    }
}

/// The key of a property that is the value of an expression.
fn computed_key(computed: bool, key: PropertyKeyTree<'_>) -> Key<'_>
    requires known { is_known_key computed (syntax key.tree.now) ≡ true }
    requires computed { is_computed computed (syntax key.tree.now) ≡ true }
    ensures { IsKeyOf computed (syntax key.entry.tree.now) result }
{
    match property_key_view(key) {
        PropertyKey::Name { .. } => unreachable!(),
        PropertyKey::Private { .. } => unreachable!(),
        PropertyKey::Expression(expression) => Key::Computed(expression),
    }
}

/// The key of a property, which is known before or a value.
fn key_of(computed: bool, key: PropertyKeyTree<'_>) -> Key<'_>
    requires { is_known_key computed (syntax key.tree.now) ≡ true }
    ensures { IsKeyOf computed (syntax key.entry.tree.now) result }
{
    if is_computed(computed, key.tree) {
        computed_key(computed, key)
    } else {
        fixed_key(computed, key)
    }
}

/// Appends a property, if there is one. On `OutOfMemory` an allocation failed.
fn push_where(
    given: &mut List<ObjectProperty>,
    property: Option<ObjectProperty>,
) -> Result<(), OutOfMemory>
    ensures pushed { OnOk result (given.new ≡ given.old ++ found_list property) }
{
    match property {
        Some(property) => given.push(property),
        None => Ok(()),
    }
}

/// Lowers an argument: an expression, or one whose value is spread.
#[cycle(expressions)]
fn lower_argument<U: ReadsUnit>(
    alloc: Global,
    builder: &mut GraphBuilder<'_, U>,
    names: &FunctionNames<'_>,
    argument: ArgumentTree<'_>,
) -> Result<PlaceOrSpread, Stop>
    requires names { IsNamed (seen names.now) (state_of U.tables builder.old) }
    requires may { IsLowerable (seen names.now) (syntax argument.tree.now) }
    requires room { HasRoom (state_of U.tables builder.old) (share (nodes (syntax argument.tree.now))) }
    ensures same_reference { builder.new.env.ghost_name ≡ builder.old.env.ghost_name }
    ensures lowered { IfOk result (λ given. LowersAll (seen names.now) (Then (syntax argument.entry.tree.now) End) (state_of U.tables builder.old) (state_of U.tables builder.new) (argument_pieces given)) }
    ensures memory { IfErr result (λ e. e ≡ Stop.OutOfMemory) }
{
    match argument_view(argument) {
        Argument::Expression(expression) => {
            let place = lower_expression(alloc, builder, names, expression)?;
            Ok(PlaceOrSpread::Place(place))
        }
        Argument::Spread { at: _, argument } => {
            let place = lower_expression(alloc, builder, names, argument)?;
            Ok(PlaceOrSpread::Spread(place))
        }
    }
}

/// Lowers an element of an array: an expression, one whose value is spread, or a hole.
#[cycle(expressions)]
fn lower_element<U: ReadsUnit>(
    alloc: Global,
    builder: &mut GraphBuilder<'_, U>,
    names: &FunctionNames<'_>,
    element: ArrayElementTree<'_>,
) -> Result<ArrayElement, Stop>
    requires names { IsNamed (seen names.now) (state_of U.tables builder.old) }
    requires may { IsLowerable (seen names.now) (syntax element.tree.now) }
    requires room { HasRoom (state_of U.tables builder.old) (share (nodes (syntax element.tree.now))) }
    ensures same_reference { builder.new.env.ghost_name ≡ builder.old.env.ghost_name }
    ensures lowered { IfOk result (λ given. LowersAll (seen names.now) (Then (syntax element.entry.tree.now) End) (state_of U.tables builder.old) (state_of U.tables builder.new) (element_pieces given)) }
    ensures memory { IfErr result (λ e. e ≡ Stop.OutOfMemory) }
{
    match array_element_view(element) {
        ElementView::Expression(expression) => {
            let place = lower_expression(alloc, builder, names, expression)?;
            Ok(ArrayElement::Place(place))
        }
        ElementView::Spread { at: _, argument } => {
            let place = lower_expression(alloc, builder, names, argument)?;
            Ok(ArrayElement::Spread(place))
        }
        ElementView::Hole { at: _ } => Ok(ArrayElement::Hole),
    }
}

/// Lowers arguments from left to right (`lowerArguments`).
#[cycle(expressions)]
pub(crate) fn lower_arguments<U: ReadsUnit>(
    alloc: Global,
    builder: &mut GraphBuilder<'_, U>,
    names: &FunctionNames<'_>,
    arguments: ArgumentTrees<'_>,
) -> Result<List<PlaceOrSpread>, Stop>
    requires names { IsNamed (seen names.now) (state_of U.tables builder.old) }
    requires may { AreLowerable (seen names.now) (pieces_of (map syntax arguments.trees.now)) }
    requires room { HasRoom (state_of U.tables builder.old) (share (nodes_of (pieces_of (map syntax arguments.trees.now)))) }
    ensures same_reference { builder.new.env.ghost_name ≡ builder.old.env.ghost_name }
    ensures lowered { IfOk result (λ given. LowersAll (seen names.now) (pieces_of (map syntax arguments.entry.trees.now)) (state_of U.tables builder.old) (state_of U.tables builder.new) (gathered argument_pieces given)) }
    ensures memory { IfErr result (λ e. e ≡ Stop.OutOfMemory) }
{
    let mut given = List::with_capacity(alloc, arguments.trees.len())?;
    let mut left = arguments;
    'arguments: while let Some((argument, rest)) = left.split_first() {
        given.push(lower_argument(alloc, builder, names, argument)?)?;
        left = rest;
    }
    Ok(given)
}

/// Lowers the elements of an array from left to right.
#[cycle(expressions)]
pub(crate) fn lower_elements<U: ReadsUnit>(
    alloc: Global,
    builder: &mut GraphBuilder<'_, U>,
    names: &FunctionNames<'_>,
    elements: ArrayElementTrees<'_>,
) -> Result<List<ArrayElement>, Stop>
    requires names { IsNamed (seen names.now) (state_of U.tables builder.old) }
    requires may { AreLowerable (seen names.now) (pieces_of (map syntax elements.trees.now)) }
    requires room { HasRoom (state_of U.tables builder.old) (share (nodes_of (pieces_of (map syntax elements.trees.now)))) }
    ensures same_reference { builder.new.env.ghost_name ≡ builder.old.env.ghost_name }
    ensures lowered { IfOk result (λ given. LowersAll (seen names.now) (pieces_of (map syntax elements.entry.trees.now)) (state_of U.tables builder.old) (state_of U.tables builder.new) (gathered element_pieces given)) }
    ensures memory { IfErr result (λ e. e ≡ Stop.OutOfMemory) }
{
    let mut given = List::with_capacity(alloc, elements.trees.len())?;
    let mut left = elements;
    'elements: while let Some((element, rest)) = left.split_first() {
        given.push(lower_element(alloc, builder, names, element)?)?;
        left = rest;
    }
    Ok(given)
}

/// Lowers expressions from left to right.
#[cycle(expressions)]
pub(crate) fn lower_expressions<U: ReadsUnit>(
    alloc: Global,
    builder: &mut GraphBuilder<'_, U>,
    names: &FunctionNames<'_>,
    expressions: ExpressionTrees<'_>,
) -> Result<List<Place>, Stop>
    requires names { IsNamed (seen names.now) (state_of U.tables builder.old) }
    requires may { AreLowerable (seen names.now) (pieces_of (map syntax expressions.trees.now)) }
    requires room { HasRoom (state_of U.tables builder.old) (share (nodes_of (pieces_of (map syntax expressions.trees.now)))) }
    ensures same_reference { builder.new.env.ghost_name ≡ builder.old.env.ghost_name }
    ensures lowered { IfOk result (λ given. LowersAll (seen names.now) (pieces_of (map syntax expressions.entry.trees.now)) (state_of U.tables builder.old) (state_of U.tables builder.new) (gathered value_pieces given)) }
    ensures memory { IfErr result (λ e. e ≡ Stop.OutOfMemory) }
{
    let mut given = List::with_capacity(alloc, expressions.trees.len())?;
    let mut left = expressions;
    'expressions: while let Some((expression, rest)) = left.split_first() {
        given.push(lower_expression(alloc, builder, names, expression)?)?;
        left = rest;
    }
    Ok(given)
}

/// Lowers expressions from left to right, of which there is one at least. Returns the place of the last value.
#[cycle(expressions)]
pub(crate) fn lower_last<U: ReadsUnit>(
    alloc: Global,
    builder: &mut GraphBuilder<'_, U>,
    names: &FunctionNames<'_>,
    expressions: ExpressionTrees<'_>,
) -> Result<Place, Stop>
    requires names { IsNamed (seen names.now) (state_of U.tables builder.old) }
    requires some { has_parts (pieces_of (map syntax expressions.trees.now)) ≡ true }
    requires may { AreLowerable (seen names.now) (pieces_of (map syntax expressions.trees.now)) }
    requires room { HasRoom (state_of U.tables builder.old) (share (nodes_of (pieces_of (map syntax expressions.trees.now)))) }
    ensures same_reference { builder.new.env.ghost_name ≡ builder.old.env.ghost_name }
    ensures lowered { IfOk result (λ place. LowersLast (seen names.now) (pieces_of (map syntax expressions.entry.trees.now)) (state_of U.tables builder.old) (state_of U.tables builder.new) place) }
    ensures memory { IfErr result (λ e. e ≡ Stop.OutOfMemory) }
{
    match expressions.split_first() {
        Some((first, rest)) => {
            let mut last = first;
            let mut left = rest;
            'expressions: while let Some((next, rest)) = left.split_first() {
                lower_expression(alloc, builder, names, last)?;
                last = next;
                left = rest;
            }
            let place = lower_expression(alloc, builder, names, last)?;
            Ok(place)
        }
        None => unreachable!(),
    }
}

/// Lowers a property `key: value` of an object literal, if its key is known before or a value: its key where that is computed,
/// and its value. A key that is a number and no numeral is refused, and its value is lowered all the same. `None` of one that is
/// refused.
#[cycle(expressions)]
fn lower_keyed<U: ReadsUnit>(
    alloc: Global,
    builder: &mut GraphBuilder<'_, U>,
    names: &FunctionNames<'_>,
    computed: bool,
    key: PropertyKeyTree<'_>,
    value: ExpressionTree<'_>,
) -> Result<Option<ObjectProperty>, Stop>
    requires names { IsNamed (seen names.now) (state_of U.tables builder.old) }
    requires known { is_known_key computed (syntax key.tree.now) ≡ true }
    requires may { IsLowerable (seen names.now) (syntax key.tree.now) × IsLowerable (seen names.now) (syntax value.tree.now) }
    requires room { HasRoom (state_of U.tables builder.old) (share (nodes (syntax key.tree.now) + nodes (syntax value.tree.now))) }
    ensures same_reference { builder.new.env.ghost_name ≡ builder.old.env.ghost_name }
    ensures lowered { IfOk result (λ given. (at : At) → LowersProperties (seen names.now) (Then (Node at Word.Prop (Then (Flag computed) (Then (syntax key.entry.tree.now) (Then (syntax value.entry.tree.now) End)))) End) (state_of U.tables builder.old) (state_of U.tables builder.new) (where_pieces given)) }
    ensures memory { IfErr result (λ e. e ≡ Stop.OutOfMemory) }
{
    match key_of(computed, key) {
        Key::Fixed(text) => {
            let key = text.copy(alloc)?;
            let place = lower_expression(alloc, builder, names, value)?;
            Ok(Some(ObjectProperty::Property { key, place }))
        }
        Key::Computed(expression) => {
            let key = lower_expression(alloc, builder, names, expression)?;
            let place = lower_expression(alloc, builder, names, value)?;
            Ok(Some(ObjectProperty::Computed { key, place }))
        }
        Key::Fraction(at) => {
            refuse(alloc, builder, Row::F43, at.span)?;
            lower_expression(alloc, builder, names, value)?;
            Ok(None)
        }
    }
}

/// Lowers a property of an object literal: one with a key, or one whose value is spread. `None` of one that is refused.
#[cycle(expressions)]
fn lower_property<U: ReadsUnit>(
    alloc: Global,
    builder: &mut GraphBuilder<'_, U>,
    names: &FunctionNames<'_>,
    property: ObjectPropertyTree<'_>,
) -> Result<Option<ObjectProperty>, Stop>
    requires names { IsNamed (seen names.now) (state_of U.tables builder.old) }
    requires may { IsLowerable (seen names.now) (syntax property.tree.now) }
    requires room { HasRoom (state_of U.tables builder.old) (share (nodes (syntax property.tree.now))) }
    ensures same_reference { builder.new.env.ghost_name ≡ builder.old.env.ghost_name }
    ensures lowered { IfOk result (λ given. LowersProperties (seen names.now) (Then (syntax property.entry.tree.now) End) (state_of U.tables builder.old) (state_of U.tables builder.new) (where_pieces given)) }
    ensures memory { IfErr result (λ e. e ≡ Stop.OutOfMemory) }
{
    match object_property_view(property) {
        ObjectPropertyView::Value {
            at: _,
            computed,
            key,
            value,
        } => {
            if !is_known_key(computed, key.tree) {
                refuse(alloc, builder, Row::F9, span_of(key.tree))?;
                return Ok(None);
            }
            lower_keyed(alloc, builder, names, computed, key, value)
        }
        ObjectPropertyView::Spread { at: _, argument } => {
            let place = lower_expression(alloc, builder, names, argument)?;
            Ok(Some(ObjectProperty::Spread(place)))
        }
        _ => unreachable!(),
    }
}

/// Lowers the properties of an object literal from left to right.
#[cycle(expressions)]
pub(crate) fn lower_properties<U: ReadsUnit>(
    alloc: Global,
    builder: &mut GraphBuilder<'_, U>,
    names: &FunctionNames<'_>,
    properties: ObjectPropertyTrees<'_>,
) -> Result<List<ObjectProperty>, Stop>
    requires names { IsNamed (seen names.now) (state_of U.tables builder.old) }
    requires may { AreLowerable (seen names.now) (pieces_of (map syntax properties.trees.now)) }
    requires room { HasRoom (state_of U.tables builder.old) (share (nodes_of (pieces_of (map syntax properties.trees.now)))) }
    ensures same_reference { builder.new.env.ghost_name ≡ builder.old.env.ghost_name }
    ensures lowered { IfOk result (λ given. LowersProperties (seen names.now) (pieces_of (map syntax properties.entry.trees.now)) (state_of U.tables builder.old) (state_of U.tables builder.new) (gathered property_pieces given)) }
    ensures memory { IfErr result (λ e. e ≡ Stop.OutOfMemory) }
{
    let mut given = List::with_capacity(alloc, properties.trees.len())?;
    let mut left = properties;
    'properties: while let Some((property, rest)) = left.split_first() {
        let property = lower_property(alloc, builder, names, property)?;
        push_where(&mut given, property)?;
        left = rest;
    }
    Ok(given)
}

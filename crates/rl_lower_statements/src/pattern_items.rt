//! The items of binding patterns: the places of names, and the parts that take their pieces later.

ghost use Rattle.std.specs.Prelude.{◌≡◌, ◌+◌, ◌*◌, ◌++◌, ◌∷◌, List, [], true, false, OnOk, IfOk, IfErr, map};
ghost use Rattle.rl_builder.specs.Builder.{state_of};
ghost use Rattle.rl_grammar.specs.Fields.{maybe};
ghost use Rattle.rl_hir.specs.Pieces.{element_pieces, gathered, taken_pieces};
ghost use Rattle.rl_lower_statements.specs.Patterns.{BindsItem, BindsPart, BindsRest, IsPatternName, IsPlainName, PlacesName};
ghost use Rattle.rl_lower_statements.specs.Patterns.{all_left, seen_part};
ghost use Rattle.rl_lower_parts.specs.Patterns.{taken_list};
ghost use Rattle.rl_lowered.specs.Items.{BoundItems, caught, promoted};
ghost use Rattle.rl_lowered.specs.Named.{IsNamed};
ghost use Rattle.rl_lowered.specs.Promised.{HasRoom};
ghost use Rattle.rl_model.specs.Shapes.{is_plain_rest};
ghost use Rattle.rl_names.specs.Seen.{seen};
ghost use Rattle.rl_promises.specs.Lowerable.{AreLowerable, DeclaresFree, IsLowerable, Where};
ghost use Rattle.rl_promises.specs.Patterns.{rest_type};
ghost use Rattle.rl_syntax.specs.Syntax.{nodes_of, pieces_of, span_of, syntax};

use crate::declaration::meet_declared;
use rl_ast::binding::{
    BindingIdentifier, BindingPattern, BindingPatternElement, BindingPatternMaybeDefault,
    binding_identifier_view, binding_pattern_element_view, binding_pattern_maybe_default_view,
    binding_pattern_view, binding_property_view,
};
use rl_ast::function::binding_rest_element_view;
use rl_base::error::OutOfMemory;
use rl_base::list::List;
use rl_base::span::Span;
use rl_base::stop::Stop;
use rl_builder::unit_tables::ReadsUnit;
use rl_grammar::sort::{
    BindingPatternElementTree, BindingPatternElementTrees, BindingPatternMaybeDefaultTree,
    BindingPatternTree, BindingPropertyTree, BindingPropertyTrees, BindingRestElementTree,
};
use rl_hir::instruction::{ArrayElement, ObjectPatternProperty, Place};
use rl_lower_parts::graph_builder::GraphBuilder;
use rl_lower_parts::pattern_parts::{lose_rest, meet_key};
use rl_lower_parts::promoted::make_promoted;
use rl_lower_parts::span::span_of;
use rl_names::names::FunctionNames;
use std::alloc::Global;

/// A part of a binding pattern that is left for later.
#[derive(Clone, Copy)]
pub enum PatternPart<'b> {
    /// A pattern, with a default or without.
    MaybeDefault(BindingPatternMaybeDefaultTree<'b>),
    /// A pattern without a default, which takes a rest.
    Pattern(BindingPatternTree<'b>),
}

/// A part of a binding pattern that is left for later, and the temporary that has its piece.
#[derive(Clone, Copy)]
pub struct LeftPattern<'b> {
    /// The temporary.
    pub value: Place,
    /// The part.
    pub part: PatternPart<'b>,
}

/// The elements of an array pattern that got their places.
#[derive(Drop)]
pub(crate) struct BoundElements<'b> {
    pub(crate) items: List<ArrayElement>,
    pub(crate) left: List<LeftPattern<'b>>,
}

/// The properties of an object pattern that got their places.
#[derive(Drop)]
pub(crate) struct BoundProperties<'b> {
    pub(crate) properties: List<ObjectPatternProperty>,
    pub(crate) left: List<LeftPattern<'b>>,
}

/// The span of a part.
pub(crate) fn part_span(part: PatternPart<'_>) -> Span
    ensures { result ≡ span_of (seen_part part.entry) }
{
    match part {
        PatternPart::MaybeDefault(pattern) => span_of(pattern.tree),
        PatternPart::Pattern(pattern) => span_of(pattern.tree),
    }
}

/// The name that a pattern is.
fn pattern_name(pattern: BindingPatternTree<'_>) -> Option<BindingIdentifier<'_>>
    ensures name { IsPatternName result (syntax pattern.entry.tree.now) }
{
    match binding_pattern_view(pattern) {
        BindingPattern::Identifier(identifier) => Some(binding_identifier_view(identifier)),
        BindingPattern::Array { .. } => None,
        BindingPattern::Object { .. } => None,
    }
}

/// The name that a pattern without a default is.
fn plain_name(pattern: BindingPatternMaybeDefaultTree<'_>) -> Option<BindingIdentifier<'_>>
    ensures name { IsPlainName result (syntax pattern.entry.tree.now) }
{
    match binding_pattern_maybe_default_view(pattern) {
        BindingPatternMaybeDefault::Pattern(pattern) => pattern_name(pattern),
        BindingPatternMaybeDefault::Default { .. } => None,
    }
}

/// The place of a name, with the span `at`. In the head of a loop, where `again` is true, the variable's identifier gets the span of its
/// name there.
fn name_place<U: ReadsUnit>(
    builder: &mut GraphBuilder<'_, U>,
    names: &FunctionNames<'_>,
    again: bool,
    bind: &BindingIdentifier<'_>,
    at: Span,
) -> Result<Place, Stop>
    requires names { IsNamed (seen names.now) (state_of U.tables builder.old) }
    requires free { DeclaresFree (seen names.now) ((seen names.now).declared bind.now.at.id.0) }
    requires room { HasRoom (state_of U.tables builder.old) 2 }
    ensures same_reference { builder.new.env.ghost_name ≡ builder.old.env.ghost_name }
    ensures placed { IfOk result (λ place. PlacesName (seen names.now) again bind.now.at at
        (state_of U.tables builder.old) (state_of U.tables builder.new) place) }
    ensures memory { IfErr result (λ e. e ≡ Stop.OutOfMemory) }
{
    let identifier = meet_declared(builder, names, again, bind)?;
    Ok(Place {
        identifier,
        span: Some(at),
    })
}

/// A temporary for a part that is left for later.
fn leave<'b, U: ReadsUnit>(
    alloc: Global,
    builder: &mut GraphBuilder<'_, U>,
    part: PatternPart<'b>,
    span: Span,
    left: &mut List<LeftPattern<'b>>,
) -> Result<Place, Stop>
    requires room { HasRoom (state_of U.tables builder.old) 2 }
    ensures same_reference { builder.new.env.ghost_name ≡ builder.old.env.ghost_name }
    ensures state { OnOk result ((state_of U.tables builder.new) ≡ promoted (state_of U.tables builder.old) span) }
    ensures place { IfOk result (λ place. place ≡ caught (state_of U.tables builder.old) span) }
    ensures left { IfOk result (λ place. left.new ≡ left.old ++ record { value = place; part = part.entry } ∷ []) }
    ensures memory { IfErr result (λ e. e ≡ Stop.OutOfMemory) }
{
    let value = make_promoted(alloc, builder, span)?;
    left.push(LeftPattern { value, part })?;
    Ok(value)
}

/// The place of a part of an item: that of a name, or a temporary.
fn bind_part<'b, U: ReadsUnit>(
    alloc: Global,
    builder: &mut GraphBuilder<'_, U>,
    names: &FunctionNames<'_>,
    again: bool,
    pattern: BindingPatternMaybeDefaultTree<'b>,
    left: &mut List<LeftPattern<'b>>,
) -> Result<Place, Stop>
    requires names { IsNamed (seen names.now) (state_of U.tables builder.old) }
    requires may { IsLowerable (seen names.now) (syntax pattern.tree.now) }
    requires room { HasRoom (state_of U.tables builder.old) 2 }
    ensures same_reference { builder.new.env.ghost_name ≡ builder.old.env.ghost_name }
    ensures bound { IfOk result (λ place. BindsPart (seen names.now) again (syntax pattern.entry.tree.now) left.old left.new
        (state_of U.tables builder.old) (state_of U.tables builder.new) place) }
    ensures memory { IfErr result (λ e. e ≡ Stop.OutOfMemory) }
{
    match plain_name(pattern) {
        Some(name) => name_place(builder, names, again, &name, name.at.span),
        None => {
            let part = PatternPart::MaybeDefault(pattern);
            leave(alloc, builder, part, part_span(part), left)
        }
    }
}

/// Gives an element its place.
fn bind_element<'b, U: ReadsUnit>(
    alloc: Global,
    builder: &mut GraphBuilder<'_, U>,
    names: &FunctionNames<'_>,
    again: bool,
    item: BindingPatternElementTree<'b>,
    left: &mut List<LeftPattern<'b>>,
) -> Result<ArrayElement, Stop>
    requires names { IsNamed (seen names.now) (state_of U.tables builder.old) }
    requires may { IsLowerable (seen names.now) (syntax item.tree.now) }
    requires room { HasRoom (state_of U.tables builder.old) 4 }
    ensures same_reference { builder.new.env.ghost_name ≡ builder.old.env.ghost_name }
    ensures bound { IfOk result (λ element. BindsItem (seen names.now) again false (syntax item.entry.tree.now) (element_pieces element)
        left.old left.new (state_of U.tables builder.old) (state_of U.tables builder.new)) }
    ensures memory { IfErr result (λ e. e ≡ Stop.OutOfMemory) }
{
    match binding_pattern_element_view(item) {
        BindingPatternElement::Pattern(pattern) => {
            let place = bind_part(alloc, builder, names, again, pattern, left)?;
            Ok(ArrayElement::Place(place))
        }
        BindingPatternElement::Hole { at: _ } => Ok(ArrayElement::Hole),
    }
}

/// The place of what takes the rest of an array, whose span is `at`.
fn bind_rest<'b, U: ReadsUnit>(
    alloc: Global,
    builder: &mut GraphBuilder<'_, U>,
    names: &FunctionNames<'_>,
    again: bool,
    at: Span,
    pattern: BindingPatternTree<'b>,
    left: &mut List<LeftPattern<'b>>,
) -> Result<Place, Stop>
    requires names { IsNamed (seen names.now) (state_of U.tables builder.old) }
    requires may { IsLowerable (seen names.now) (syntax pattern.tree.now) }
    requires room { HasRoom (state_of U.tables builder.old) 2 }
    ensures same_reference { builder.new.env.ghost_name ≡ builder.old.env.ghost_name }
    ensures bound { IfOk result (λ place. BindsRest (seen names.now) again at (syntax pattern.entry.tree.now) left.old left.new
        (state_of U.tables builder.old) (state_of U.tables builder.new) place) }
    ensures memory { IfErr result (λ e. e ≡ Stop.OutOfMemory) }
{
    match pattern_name(pattern) {
        Some(name) => name_place(builder, names, again, &name, at),
        None => {
            let part = PatternPart::Pattern(pattern);
            leave(alloc, builder, part, at, left)
        }
    }
}

/// Gives the names in an array pattern their places, and the other elements temporaries.
pub(crate) fn bind_elements<'b, U: ReadsUnit>(
    alloc: Global,
    builder: &mut GraphBuilder<'_, U>,
    names: &FunctionNames<'_>,
    again: bool,
    items: BindingPatternElementTrees<'b>,
    rest: Option<BindingRestElementTree<'b>>,
) -> Result<BoundElements<'b>, Stop>
    requires names { IsNamed (seen names.now) (state_of U.tables builder.old) }
    requires may { AreLowerable (seen names.now) (pieces_of (map syntax items.trees.now)) }
    requires may_rest { IsLowerable (seen names.now) (maybe rest (λ t. syntax t.tree.now)) }
    requires room { HasRoom (state_of U.tables builder.old) (4 * nodes_of (pieces_of (map syntax items.trees.now)) + 4) }
    ensures same_reference { builder.new.env.ghost_name ≡ builder.old.env.ghost_name }
    ensures bound { IfOk result (λ bound. BoundItems (seen names.now) again false (pieces_of (map syntax items.entry.trees.now))
        (maybe rest.entry (λ t. syntax t.tree.now)) (state_of U.tables builder.old) (state_of U.tables builder.new)
        (gathered element_pieces bound.items) (all_left bound.left)) }
    ensures memory { IfErr result (λ e. e ≡ Stop.OutOfMemory) }
{
    let mut bound = List::new(alloc);
    let mut later = List::new(alloc);
    let mut left = items;
    'items: while let Some((item, more)) = left.split_first() {
        let element = bind_element(alloc, builder, names, again, item, &mut later)?;
        bound.push(element)?;
        left = more;
    }
    match rest {
        Some(rest) => {
            let rest = binding_rest_element_view(rest);
            let (span, pattern) = (rest.at.span, rest.pattern);
            let place = bind_rest(alloc, builder, names, again, span, pattern, &mut later)?;
            bound.push(ArrayElement::Spread(place))?;
            Ok(BoundElements {
                items: bound,
                left: later,
            })
        }
        None => Ok(BoundElements {
            items: bound,
            left: later,
        }),
    }
}

/// Gives a property its place, if it has one.
fn bind_property<'b, U: ReadsUnit>(
    alloc: Global,
    builder: &mut GraphBuilder<'_, U>,
    names: &FunctionNames<'_>,
    again: bool,
    property: BindingPropertyTree<'b>,
    left: &mut List<LeftPattern<'b>>,
) -> Result<Option<ObjectPatternProperty>, Stop>
    requires names { IsNamed (seen names.now) (state_of U.tables builder.old) }
    requires may { IsLowerable (seen names.now) (syntax property.tree.now) }
    requires room { HasRoom (state_of U.tables builder.old) 4 }
    ensures same_reference { builder.new.env.ghost_name ≡ builder.old.env.ghost_name }
    ensures bound { IfOk result (λ bound. BindsItem (seen names.now) again true (syntax property.entry.tree.now)
        (gathered taken_pieces (taken_list bound)) left.old left.new (state_of U.tables builder.old) (state_of U.tables builder.new)) }
    ensures memory { IfErr result (λ e. e ≡ Stop.OutOfMemory) }
{
    let property = binding_property_view(property);
    let span = property.at.span;
    let key = meet_key(alloc, builder, span, property.computed, property.key)?;
    match key {
        Some(key) => {
            let place = bind_part(alloc, builder, names, again, property.value, left)?;
            Ok(Some(ObjectPatternProperty::Property { key, place }))
        }
        None => Ok(None),
    }
}

/// The type of a pattern, as row F10 names it.
fn rest_type(pattern: BindingPatternTree<'_>) -> &'static str
    ensures { result.now ≡ rest_type (syntax pattern.entry.tree.now) }
{
    match binding_pattern_view(pattern) {
        BindingPattern::Identifier(_) => "unknown",
        BindingPattern::Array { .. } => "ArrayPattern",
        BindingPattern::Object { .. } => "ObjectPattern",
    }
}

/// Appends a property, if it is there. On `OutOfMemory` an allocation failed.
fn push_property(
    bound: &mut List<ObjectPatternProperty>,
    property: Option<ObjectPatternProperty>,
) -> Result<(), OutOfMemory>
    ensures pushed { OnOk result (bound.new ≡ bound.old ++ taken_list property) }
{
    match property {
        Some(property) => bound.push(property),
        None => Ok(()),
    }
}

/// As `bind_elements`, for an object pattern.
pub(crate) fn bind_properties<'b, U: ReadsUnit>(
    alloc: Global,
    builder: &mut GraphBuilder<'_, U>,
    names: &FunctionNames<'_>,
    again: bool,
    properties: BindingPropertyTrees<'b>,
    rest: Option<BindingRestElementTree<'b>>,
) -> Result<BoundProperties<'b>, Stop>
    requires names { IsNamed (seen names.now) (state_of U.tables builder.old) }
    requires may { AreLowerable (seen names.now) (pieces_of (map syntax properties.trees.now)) }
    requires may_rest { Where (is_plain_rest (maybe rest (λ t. syntax t.tree.now)))
        (IsLowerable (seen names.now) (maybe rest (λ t. syntax t.tree.now))) }
    requires room { HasRoom (state_of U.tables builder.old) (4 * nodes_of (pieces_of (map syntax properties.trees.now)) + 4) }
    ensures same_reference { builder.new.env.ghost_name ≡ builder.old.env.ghost_name }
    ensures bound { IfOk result (λ bound. BoundItems (seen names.now) again true (pieces_of (map syntax properties.entry.trees.now))
        (maybe rest.entry (λ t. syntax t.tree.now)) (state_of U.tables builder.old) (state_of U.tables builder.new)
        (gathered taken_pieces bound.properties) (all_left bound.left)) }
    ensures memory { IfErr result (λ e. e ≡ Stop.OutOfMemory) }
{
    let mut bound = List::new(alloc);
    let mut later = List::new(alloc);
    let mut left = properties;
    'properties: while let Some((property, more)) = left.split_first() {
        let property = bind_property(alloc, builder, names, again, property, &mut later)?;
        push_property(&mut bound, property)?;
        left = more;
    }
    match rest {
        Some(rest) => {
            let rest = binding_rest_element_view(rest);
            let (span, pattern) = (rest.at.span, rest.pattern);
            match pattern_name(pattern) {
                Some(name) => {
                    let place = name_place(builder, names, again, &name, span)?;
                    bound.push(ObjectPatternProperty::Spread(place))?;
                    Ok(BoundProperties {
                        properties: bound,
                        left: later,
                    })
                }
                None => {
                    lose_rest(alloc, builder, rest_type(pattern), span)?;
                    Ok(BoundProperties {
                        properties: bound,
                        left: later,
                    })
                }
            }
        }
        None => Ok(BoundProperties {
            properties: bound,
            left: later,
        }),
    }
}

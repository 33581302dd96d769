//! The items of targets that are patterns: their places, and the parts that take their pieces later.

ghost use Rattle.std.specs.Prelude.{◌≡◌, ◌+◌, ◌*◌, ◌++◌, ◌∷◌, [], Some, IfOk, IfErr, OnOk, true, false, map, option_map};
ghost use Rattle.rl_ast.specs.BindingViews.{seen_identifier_reference};
ghost use Rattle.rl_base.specs.Reserved.{is_reserved};
ghost use Rattle.rl_builder.specs.Builder.{state_of};
ghost use Rattle.rl_grammar.specs.Fields.{maybe};
ghost use Rattle.rl_hir.specs.Pieces.{element_pieces, gathered, taken_pieces};
ghost use Rattle.rl_lower_parts.specs.Patterns.{GivesPlace, IsDirect, IsFreeName, IsLocalName, IsTakenPart, LooksUp, TakesItem, TakesPart};
ghost use Rattle.rl_lower_parts.specs.Patterns.{all_left, named, seen_part, taken_list};
ghost use Rattle.rl_lowered.specs.Items.{LoweredAhead, TakenItems, caught, promoted};
ghost use Rattle.rl_model.specs.Shapes.{is_absent};
ghost use Rattle.rl_lowered.specs.Named.{IsNamed};
ghost use Rattle.rl_lowered.specs.Promised.{HasRoom, share};
ghost use Rattle.rl_names.specs.Seen.{seen};
ghost use Rattle.rl_promises.specs.Locals.{IsVariable};
ghost use Rattle.rl_promises.specs.Lowerable.{AreFreeAhead, AreLowerableTo, Where};
ghost use Rattle.rl_promises.specs.Patterns.{is_forced, is_lost_item, local_at, loses_item, rest_type, target_under};
ghost use Rattle.rl_syntax.specs.Syntax.{Syntax, Node, Flag, Then, End, nodes_of, pieces_of, span_of, syntax};

use crate::graph_builder::GraphBuilder;
use crate::name::{refuse_constant, resolve_variable};
use crate::pattern_parts::{lose_rest, meet_key};
use crate::promoted::make_promoted;
use crate::span::span_of;
use rl_ast::binding::{IdentifierReference, identifier_reference_view};
use rl_ast::target::{
    AssignmentTarget, AssignmentTargetElement, AssignmentTargetMaybeDefault,
    AssignmentTargetProperty, assignment_target_element_view, assignment_target_maybe_default_view,
    assignment_target_property_view, assignment_target_rest_view, assignment_target_view,
};
use rl_base::error::OutOfMemory;
use rl_base::ids::SymbolId;
use rl_base::list::List;
use rl_base::span::Span;
use rl_base::stop::Stop;
use rl_builder::unit_tables::ReadsUnit;
use rl_grammar::sort::{
    AssignmentTargetElementTree, AssignmentTargetElementTrees, AssignmentTargetMaybeDefaultTree,
    AssignmentTargetPropertyTree, AssignmentTargetPropertyTrees, AssignmentTargetRestTree,
    AssignmentTargetTree, ExpressionTree, IdentifierReferenceTree, PropertyKeyTree,
};
use rl_hir::instruction::{ArrayElement, ObjectPatternProperty, Place};
use rl_names::names::FunctionNames;
use rl_syntax::numbered::At;
use rl_syntax::word::Word;
use std::alloc::Global;

/// A part of a target that is left for later.
#[derive(Clone, Copy)]
pub enum TargetPart<'b> {
    /// A target, with a default or without.
    MaybeDefault(AssignmentTargetMaybeDefaultTree<'b>),
    /// A target without a default, which takes a rest.
    Target(AssignmentTargetTree<'b>),
    /// A name that is its own key.
    Name(IdentifierReferenceTree<'b>),
    /// A name that is its own key, with a default.
    Short {
        /// Ids and span of the node.
        at: At,
        /// The name.
        name: IdentifierReferenceTree<'b>,
        /// The default.
        default: ExpressionTree<'b>,
    },
}

/// A part of a target that is left for later, and the temporary that has its piece.
#[derive(Clone, Copy)]
pub struct LeftTarget<'b> {
    /// The temporary.
    pub value: Place,
    /// The part.
    pub part: TargetPart<'b>,
}

/// The elements of an array of targets that got their places.
#[derive(Drop)]
pub struct TakenElements<'b> {
    pub items: List<ArrayElement>,
    pub left: List<LeftTarget<'b>>,
}

/// The properties of an object of targets that got their places.
#[derive(Drop)]
pub struct TakenProperties<'b> {
    pub properties: List<ObjectPatternProperty>,
    pub left: List<LeftTarget<'b>>,
}

/// The span of a part.
pub fn part_span(part: TargetPart<'_>) -> Span
    ensures { result ≡ span_of (seen_part part.entry) }
{
    match part {
        TargetPart::MaybeDefault(target) => span_of(target.tree),
        TargetPart::Target(target) => span_of(target.tree),
        TargetPart::Name(name) => span_of(name.tree),
        TargetPart::Short { at, .. } => at.span,
    }
}

/// The name that a target is.
fn target_name(target: AssignmentTargetTree<'_>) -> Option<IdentifierReference<'_>>
    ensures { option_map seen_identifier_reference result ≡ named (syntax target.entry.tree.now) }
{
    match assignment_target_view(target) {
        AssignmentTarget::Identifier(identifier) => Some(identifier_reference_view(identifier)),
        _ => None,
    }
}

/// The name that a target without a default is.
fn plain_name(target: AssignmentTargetMaybeDefaultTree<'_>) -> Option<IdentifierReference<'_>>
    ensures { option_map seen_identifier_reference result ≡ named (syntax target.entry.tree.now) }
{
    match assignment_target_maybe_default_view(target) {
        AssignmentTargetMaybeDefault::Target(target) => target_name(target),
        AssignmentTargetMaybeDefault::Default { .. } => None,
    }
}

/// The name that an element is.
fn element_name(element: AssignmentTargetElementTree<'_>) -> Option<IdentifierReference<'_>>
    ensures { option_map seen_identifier_reference result ≡ named (target_under (syntax element.entry.tree.now)) }
{
    match assignment_target_element_view(element) {
        AssignmentTargetElement::Target(target) => plain_name(target),
        AssignmentTargetElement::Hole { .. } => None,
    }
}

/// The name that takes the value of a property, if it has no default.
fn property_name(property: AssignmentTargetPropertyTree<'_>) -> Option<IdentifierReference<'_>>
    ensures { option_map seen_identifier_reference result ≡ named (target_under (syntax property.entry.tree.now)) }
{
    match assignment_target_property_view(property) {
        AssignmentTargetProperty::Short { name, default, .. } => match default {
            Some(_) => None,
            None => Some(identifier_reference_view(name)),
        },
        AssignmentTargetProperty::Keyed { value, .. } => plain_name(value),
    }
}

/// Looks up a name, if it is a local variable. False of any other.
fn look_up<U: ReadsUnit>(
    builder: &mut GraphBuilder<'_, U>,
    names: &FunctionNames<'_>,
    name: Option<IdentifierReference<'_>>,
) -> Result<bool, Stop>
    requires names { IsNamed (seen names.now) (state_of U.tables builder.old) }
    requires free { IsFreeName (seen names.now) (option_map seen_identifier_reference name) }
    requires room { HasRoom (state_of U.tables builder.old) 2 }
    ensures same_reference { builder.new.env.ghost_name ≡ builder.old.env.ghost_name }
    ensures looked { IfOk result (λ found. LooksUp (seen names.now) (option_map seen_identifier_reference name.entry) (state_of U.tables builder.old) (state_of U.tables builder.new) found) }
    ensures memory { IfErr result (λ e. e ≡ Stop.OutOfMemory) }
{
    match name {
        Some(identifier) => match names.local(&identifier) {
            Some(symbol) => {
                resolve_variable(builder, names, symbol, identifier.at.span)?;
                Ok(true)
            }
            None => Ok(false),
        },
        None => Ok(false),
    }
}

/// Looks at the names among elements, up to the first element that is no local variable. True if all elements take their pieces from
/// temporaries.
pub fn look_at_elements<U: ReadsUnit>(
    builder: &mut GraphBuilder<'_, U>,
    names: &FunctionNames<'_>,
    items: AssignmentTargetElementTrees<'_>,
    rest: Option<AssignmentTargetRestTree<'_>>,
) -> Result<bool, Stop>
    requires names { IsNamed (seen names.now) (state_of U.tables builder.old) }
    requires may { Where (is_absent (maybe rest (λ t. syntax t.tree.now))) (AreFreeAhead (seen names.now) (pieces_of (map syntax items.trees.now))) }
    requires room { HasRoom (state_of U.tables builder.old) (share (nodes_of (pieces_of (map syntax items.trees.now)))) }
    ensures same_reference { builder.new.env.ghost_name ≡ builder.old.env.ghost_name }
    ensures looked { IfOk result (λ forced. LoweredAhead (seen names.now) (pieces_of (map syntax items.entry.trees.now)) (maybe rest.entry (λ t. syntax t.tree.now)) (state_of U.tables builder.old) (state_of U.tables builder.new) forced) }
    ensures forced { IfOk result (λ forced. forced ≡ is_forced (seen names.now) (pieces_of (map syntax items.entry.trees.now)) (maybe rest.entry (λ t. syntax t.tree.now))) }
    ensures memory { IfErr result (λ e. e ≡ Stop.OutOfMemory) }
{
    if rest.is_some() {
        return Ok(true);
    }
    let mut left = items;
    'items: while let Some((item, more)) = left.split_first() {
        let is_local = look_up(builder, names, element_name(item))?;
        if !is_local {
            return Ok(true);
        }
        left = more;
    }
    Ok(false)
}

/// As `look_at_elements`, for properties.
pub fn look_at_properties<U: ReadsUnit>(
    builder: &mut GraphBuilder<'_, U>,
    names: &FunctionNames<'_>,
    properties: AssignmentTargetPropertyTrees<'_>,
    rest: Option<AssignmentTargetRestTree<'_>>,
) -> Result<bool, Stop>
    requires names { IsNamed (seen names.now) (state_of U.tables builder.old) }
    requires may { Where (is_absent (maybe rest (λ t. syntax t.tree.now))) (AreFreeAhead (seen names.now) (pieces_of (map syntax properties.trees.now))) }
    requires room { HasRoom (state_of U.tables builder.old) (share (nodes_of (pieces_of (map syntax properties.trees.now)))) }
    ensures same_reference { builder.new.env.ghost_name ≡ builder.old.env.ghost_name }
    ensures looked { IfOk result (λ forced. LoweredAhead (seen names.now) (pieces_of (map syntax properties.entry.trees.now)) (maybe rest.entry (λ t. syntax t.tree.now)) (state_of U.tables builder.old) (state_of U.tables builder.new) forced) }
    ensures forced { IfOk result (λ forced. forced ≡ is_forced (seen names.now) (pieces_of (map syntax properties.entry.trees.now)) (maybe rest.entry (λ t. syntax t.tree.now))) }
    ensures memory { IfErr result (λ e. e ≡ Stop.OutOfMemory) }
{
    if rest.is_some() {
        return Ok(true);
    }
    let mut left = properties;
    'properties: while let Some((property, more)) = left.split_first() {
        let is_local = look_up(builder, names, property_name(property))?;
        if !is_local {
            return Ok(true);
        }
        left = more;
    }
    Ok(false)
}

/// The place of a local variable at a name with the span. `None` of a constant, which is refused.
fn variable_place<U: ReadsUnit>(
    alloc: Global,
    builder: &mut GraphBuilder<'_, U>,
    names: &FunctionNames<'_>,
    symbol: SymbolId,
    span: Span,
) -> Result<Option<Place>, Stop>
    requires names { IsNamed (seen names.now) (state_of U.tables builder.old) }
    requires variable { IsVariable (seen names.now) symbol }
    requires free { is_reserved ((seen names.now).name symbol.0) ≡ false }
    requires room { HasRoom (state_of U.tables builder.old) 2 }
    ensures same_reference { builder.new.env.ghost_name ≡ builder.old.env.ghost_name }
    ensures given { IfOk result (λ place. (tree : Syntax) → local_at (seen names.now) tree ≡ Some symbol → span_of tree ≡ span → GivesPlace (seen names.now) tree (state_of U.tables builder.old) (state_of U.tables builder.new) place) }
    ensures memory { IfErr result (λ e. e ≡ Stop.OutOfMemory) }
{
    let identifier = resolve_variable(builder, names, symbol, span)?;
    if names.is_const(symbol) {
        refuse_constant(alloc, builder, names, symbol, span)?;
        return Ok(None);
    }
    Ok(Some(Place {
        identifier,
        span: Some(span),
    }))
}

/// The place of a local variable among items that take their pieces themselves. `None` of a constant, which is refused.
fn direct_place<U: ReadsUnit>(
    alloc: Global,
    builder: &mut GraphBuilder<'_, U>,
    names: &FunctionNames<'_>,
    name: Option<IdentifierReference<'_>>,
) -> Result<Option<Place>, Stop>
    requires names { IsNamed (seen names.now) (state_of U.tables builder.old) }
    requires local { IsLocalName (seen names.now) (option_map seen_identifier_reference name) }
    requires room { HasRoom (state_of U.tables builder.old) 2 }
    ensures same_reference { builder.new.env.ghost_name ≡ builder.old.env.ghost_name }
    ensures given { IfOk result (λ place. (tree : Syntax) → option_map seen_identifier_reference name.entry ≡ Some tree → GivesPlace (seen names.now) tree (state_of U.tables builder.old) (state_of U.tables builder.new) place) }
    ensures memory { IfErr result (λ e. e ≡ Stop.OutOfMemory) }
{
    match name {
        Some(identifier) => match names.local(&identifier) {
            Some(symbol) => variable_place(alloc, builder, names, symbol, identifier.at.span),
            None => unreachable!(),
        },
        None => unreachable!(),
    }
}

/// A temporary for a part that is left for later.
fn leave<'b, U: ReadsUnit>(
    alloc: Global,
    builder: &mut GraphBuilder<'_, U>,
    part: TargetPart<'b>,
    span: Span,
    left: &mut List<LeftTarget<'b>>,
) -> Result<Place, Stop>
    requires room { HasRoom (state_of U.tables builder.old) 2 }
    ensures same_reference { builder.new.env.ghost_name ≡ builder.old.env.ghost_name }
    ensures state { OnOk result ((state_of U.tables builder.new) ≡ promoted (state_of U.tables builder.old) span) }
    ensures place { IfOk result (λ place. place ≡ caught (state_of U.tables builder.old) span) }
    ensures left { IfOk result (λ place. left.new ≡ left.old ++ record { value = place; part = part.entry } ∷ []) }
    ensures memory { IfErr result (λ e. e ≡ Stop.OutOfMemory) }
{
    let value = make_promoted(alloc, builder, span)?;
    left.push(LeftTarget { value, part })?;
    Ok(value)
}

/// Gives an element its place. `forced` is true where it takes its piece from a temporary.
fn take_element<'b, U: ReadsUnit>(
    alloc: Global,
    builder: &mut GraphBuilder<'_, U>,
    names: &FunctionNames<'_>,
    forced: bool,
    item: AssignmentTargetElementTree<'b>,
    left: &mut List<LeftTarget<'b>>,
) -> Result<ArrayElement, Stop>
    requires names { IsNamed (seen names.now) (state_of U.tables builder.old) }
    requires direct { IsDirect (seen names.now) forced (named (target_under (syntax item.tree.now))) }
    requires room { HasRoom (state_of U.tables builder.old) 4 }
    ensures same_reference { builder.new.env.ghost_name ≡ builder.old.env.ghost_name }
    ensures taken { IfOk result (λ element. TakesItem (seen names.now) false forced (syntax item.entry.tree.now) (element_pieces element) left.old left.new (state_of U.tables builder.old) (state_of U.tables builder.new)) }
    ensures memory { IfErr result (λ e. e ≡ Stop.OutOfMemory) }
{
    match assignment_target_element_view(item) {
        AssignmentTargetElement::Target(target) => {
            let part = TargetPart::MaybeDefault(target);
            match take_part(
                alloc,
                builder,
                names,
                forced,
                part,
                plain_name(target),
                left,
            )? {
                Some(place) => Ok(ArrayElement::Place(place)),
                None => Ok(ArrayElement::Hole),
            }
        }
        AssignmentTargetElement::Hole { at: _ } => Ok(ArrayElement::Hole),
    }
}

/// Gives the elements of an array of targets their places. `forced` is true where they all take their pieces from temporaries.
pub fn take_elements<'b, U: ReadsUnit>(
    alloc: Global,
    builder: &mut GraphBuilder<'_, U>,
    names: &FunctionNames<'_>,
    forced: bool,
    items: AssignmentTargetElementTrees<'b>,
    rest: Option<AssignmentTargetRestTree<'b>>,
) -> Result<TakenElements<'b>, Stop>
    requires names { IsNamed (seen names.now) (state_of U.tables builder.old) }
    requires forced { is_forced (seen names.now) (pieces_of (map syntax items.trees.now)) (maybe rest (λ t. syntax t.tree.now)) ≡ forced }
    requires may { AreLowerableTo (seen names.now) (pieces_of (map syntax items.trees.now)) }
    requires room { HasRoom (state_of U.tables builder.old) (4 * nodes_of (pieces_of (map syntax items.trees.now)) + 4) }
    ensures same_reference { builder.new.env.ghost_name ≡ builder.old.env.ghost_name }
    ensures taken { IfOk result (λ taken. TakenItems (seen names.now) false forced (pieces_of (map syntax items.entry.trees.now)) (maybe rest.entry (λ t. syntax t.tree.now)) (state_of U.tables builder.old) (state_of U.tables builder.new) (gathered element_pieces taken.items) (all_left taken.left)) }
    ensures memory { IfErr result (λ e. e ≡ Stop.OutOfMemory) }
{
    let mut taken = List::new(alloc);
    let mut later = List::new(alloc);
    let mut left = items;
    'items: while let Some((item, more)) = left.split_first() {
        let element = take_element(alloc, builder, names, forced, item, &mut later)?;
        taken.push(element)?;
        left = more;
    }
    match rest {
        Some(rest) => {
            let rest = assignment_target_rest_view(rest);
            let part = TargetPart::Target(rest.target);
            let place = leave(alloc, builder, part, rest.at.span, &mut later)?;
            taken.push(ArrayElement::Spread(place))?;
            Ok(TakenElements {
                items: taken,
                left: later,
            })
        }
        None => Ok(TakenElements {
            items: taken,
            left: later,
        }),
    }
}

/// The type of a target, as row F10 names it.
fn rest_type(target: AssignmentTargetTree<'_>) -> &'static str
    ensures { result.now ≡ rest_type (syntax target.entry.tree.now) }
{
    match assignment_target_view(target) {
        AssignmentTarget::Member { .. } => "MemberExpression",
        AssignmentTarget::Index { .. } => "MemberExpression",
        AssignmentTarget::PrivateMember { .. } => "MemberExpression",
        AssignmentTarget::Array { .. } => "ArrayPattern",
        AssignmentTarget::Object { .. } => "ObjectPattern",
        _ => "unknown",
    }
}

/// The place of the part that takes the value of a property. `None` of a constant.
fn take_part<'b, U: ReadsUnit>(
    alloc: Global,
    builder: &mut GraphBuilder<'_, U>,
    names: &FunctionNames<'_>,
    forced: bool,
    part: TargetPart<'b>,
    name: Option<IdentifierReference<'_>>,
    left: &mut List<LeftTarget<'b>>,
) -> Result<Option<Place>, Stop>
    requires names { IsNamed (seen names.now) (state_of U.tables builder.old) }
    requires direct { IsDirect (seen names.now) forced (option_map seen_identifier_reference name) }
    requires room { HasRoom (state_of U.tables builder.old) 2 }
    ensures same_reference { builder.new.env.ghost_name ≡ builder.old.env.ghost_name }
    ensures taken { IfOk result (λ place. (tree : Syntax) → IsTakenPart forced (seen_part part.entry) (option_map seen_identifier_reference name.entry) tree → TakesPart (seen names.now) forced tree left.old left.new (state_of U.tables builder.old) (state_of U.tables builder.new) place) }
    ensures memory { IfErr result (λ e. e ≡ Stop.OutOfMemory) }
{
    if forced {
        let place = leave(alloc, builder, part, part_span(part), left)?;
        return Ok(Some(place));
    }
    direct_place(alloc, builder, names, name)
}

/// Gives a property with a key its place, if it has one.
fn take_keyed<'b, U: ReadsUnit>(
    alloc: Global,
    builder: &mut GraphBuilder<'_, U>,
    names: &FunctionNames<'_>,
    forced: bool,
    at: At,
    computed: bool,
    key: PropertyKeyTree<'b>,
    value: AssignmentTargetMaybeDefaultTree<'b>,
    left: &mut List<LeftTarget<'b>>,
) -> Result<Option<ObjectPatternProperty>, Stop>
    requires names { IsNamed (seen names.now) (state_of U.tables builder.old) }
    requires direct { loses_item (Flag computed) (syntax key.tree.now) ≡ false → IsDirect (seen names.now) forced (named (syntax value.tree.now)) }
    requires room { HasRoom (state_of U.tables builder.old) 4 }
    ensures same_reference { builder.new.env.ghost_name ≡ builder.old.env.ghost_name }
    ensures taken { IfOk result (λ property. TakesItem (seen names.now) true forced (Node at Word.Keyed (Then (Flag computed) (Then (syntax key.entry.tree.now) (Then (syntax value.entry.tree.now) End)))) (gathered taken_pieces (taken_list property)) left.old left.new (state_of U.tables builder.old) (state_of U.tables builder.new)) }
    ensures memory { IfErr result (λ e. e ≡ Stop.OutOfMemory) }
{
    let Some(key) = meet_key(alloc, builder, at.span, computed, key)? else {
        return Ok(None);
    };
    let part = TargetPart::MaybeDefault(value);
    match take_part(alloc, builder, names, forced, part, plain_name(value), left)? {
        Some(place) => Ok(Some(ObjectPatternProperty::Property { key, place })),
        None => Ok(None),
    }
}

/// The part that takes the value of a property whose name is its own key.
fn short_part<'b>(
    at: At,
    name: IdentifierReferenceTree<'b>,
    default: Option<ExpressionTree<'b>>,
) -> TargetPart<'b>
    ensures { seen_part result ≡ target_under (Node at Word.Short (Then (syntax name.entry.tree.now) (Then (maybe default.entry (λ t. syntax t.tree.now)) End))) }
{
    match default {
        Some(default) => TargetPart::Short { at, name, default },
        None => TargetPart::Name(name),
    }
}

/// Gives a name that is its own key its place, if it has one.
fn take_short<'b, U: ReadsUnit>(
    alloc: Global,
    builder: &mut GraphBuilder<'_, U>,
    names: &FunctionNames<'_>,
    forced: bool,
    at: At,
    name: IdentifierReferenceTree<'b>,
    default: Option<ExpressionTree<'b>>,
    left: &mut List<LeftTarget<'b>>,
) -> Result<Option<ObjectPatternProperty>, Stop>
    requires names { IsNamed (seen names.now) (state_of U.tables builder.old) }
    requires direct { IsDirect (seen names.now) forced (named (target_under (Node at Word.Short (Then (syntax name.tree.now) (Then (maybe default (λ t. syntax t.tree.now)) End))))) }
    requires room { HasRoom (state_of U.tables builder.old) 4 }
    ensures same_reference { builder.new.env.ghost_name ≡ builder.old.env.ghost_name }
    ensures taken { IfOk result (λ property. TakesItem (seen names.now) true forced (Node at Word.Short (Then (syntax name.entry.tree.now) (Then (maybe default.entry (λ t. syntax t.tree.now)) End))) (gathered taken_pieces (taken_list property)) left.old left.new (state_of U.tables builder.old) (state_of U.tables builder.new)) }
    ensures memory { IfErr result (λ e. e ≡ Stop.OutOfMemory) }
{
    let identifier = identifier_reference_view(name);
    let key = identifier.name.copy(alloc)?;
    let part = short_part(at, name, default);
    match take_part(alloc, builder, names, forced, part, Some(identifier), left)? {
        Some(place) => Ok(Some(ObjectPatternProperty::Property { key, place })),
        None => Ok(None),
    }
}

/// Gives a property its place, if it has one.
fn take_property<'b, U: ReadsUnit>(
    alloc: Global,
    builder: &mut GraphBuilder<'_, U>,
    names: &FunctionNames<'_>,
    forced: bool,
    property: AssignmentTargetPropertyTree<'b>,
    left: &mut List<LeftTarget<'b>>,
) -> Result<Option<ObjectPatternProperty>, Stop>
    requires names { IsNamed (seen names.now) (state_of U.tables builder.old) }
    requires direct { is_lost_item (syntax property.tree.now) ≡ false → IsDirect (seen names.now) forced (named (target_under (syntax property.tree.now))) }
    requires room { HasRoom (state_of U.tables builder.old) 4 }
    ensures same_reference { builder.new.env.ghost_name ≡ builder.old.env.ghost_name }
    ensures taken { IfOk result (λ taken. TakesItem (seen names.now) true forced (syntax property.entry.tree.now) (gathered taken_pieces (taken_list taken)) left.old left.new (state_of U.tables builder.old) (state_of U.tables builder.new)) }
    ensures memory { IfErr result (λ e. e ≡ Stop.OutOfMemory) }
{
    match assignment_target_property_view(property) {
        AssignmentTargetProperty::Short { at, name, default } => {
            take_short(alloc, builder, names, forced, at, name, default, left)
        }
        AssignmentTargetProperty::Keyed {
            at,
            computed,
            key,
            value,
        } => take_keyed(
            alloc, builder, names, forced, at, computed, key, value, left,
        ),
    }
}

/// Adds a property, if there is one.
fn push_property(
    properties: &mut List<ObjectPatternProperty>,
    property: Option<ObjectPatternProperty>,
) -> Result<(), OutOfMemory>
    ensures pushed { OnOk result (properties.new ≡ properties.old ++ taken_list property) }
{
    match property {
        Some(property) => properties.push(property),
        None => Ok(()),
    }
}

/// As `take_elements`, for the properties of an object of targets.
pub fn take_properties<'b, U: ReadsUnit>(
    alloc: Global,
    builder: &mut GraphBuilder<'_, U>,
    names: &FunctionNames<'_>,
    forced: bool,
    properties: AssignmentTargetPropertyTrees<'b>,
    rest: Option<AssignmentTargetRestTree<'b>>,
) -> Result<TakenProperties<'b>, Stop>
    requires names { IsNamed (seen names.now) (state_of U.tables builder.old) }
    requires forced { is_forced (seen names.now) (pieces_of (map syntax properties.trees.now)) (maybe rest (λ t. syntax t.tree.now)) ≡ forced }
    requires may { AreLowerableTo (seen names.now) (pieces_of (map syntax properties.trees.now)) }
    requires room { HasRoom (state_of U.tables builder.old) (4 * nodes_of (pieces_of (map syntax properties.trees.now)) + 4) }
    ensures same_reference { builder.new.env.ghost_name ≡ builder.old.env.ghost_name }
    ensures taken { IfOk result (λ taken. TakenItems (seen names.now) true forced (pieces_of (map syntax properties.entry.trees.now)) (maybe rest.entry (λ t. syntax t.tree.now)) (state_of U.tables builder.old) (state_of U.tables builder.new) (gathered taken_pieces taken.properties) (all_left taken.left)) }
    ensures memory { IfErr result (λ e. e ≡ Stop.OutOfMemory) }
{
    let mut taken = List::new(alloc);
    let mut later = List::new(alloc);
    let mut left = properties;
    'properties: while let Some((property, more)) = left.split_first() {
        let property = take_property(alloc, builder, names, forced, property, &mut later)?;
        push_property(&mut taken, property)?;
        left = more;
    }
    let Some(rest) = rest else {
        return Ok(TakenProperties {
            properties: taken,
            left: later,
        });
    };
    let rest = assignment_target_rest_view(rest);
    match target_name(rest.target) {
        Some(_) => {
            let part = TargetPart::Target(rest.target);
            let place = leave(alloc, builder, part, rest.at.span, &mut later)?;
            taken.push(ObjectPatternProperty::Spread(place))?;
            Ok(TakenProperties {
                properties: taken,
                left: later,
            })
        }
        None => {
            lose_rest(alloc, builder, rest_type(rest.target), rest.at.span)?;
            Ok(TakenProperties {
                properties: taken,
                left: later,
            })
        }
    }
}

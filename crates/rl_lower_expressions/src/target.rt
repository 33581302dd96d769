//! Lowering of targets that take a piece of a value, and of the patterns that they stand in.

ghost use Rattle.std.specs.Prelude.{◌≡◌, ◌+◌, ℕ, List, OnOk, IfOk, IfErr, false, map};
ghost use Rattle.rl_ast.specs.BindingViews.{seen_identifier_reference};
ghost use Rattle.rl_base.specs.Reserved.{is_reserved};
ghost use Rattle.rl_builder.specs.Builder.{recorded, state_of};
ghost use Rattle.rl_grammar.specs.Fields.{maybe};
ghost use Rattle.rl_lower_parts.specs.Patterns.{AreLowerableLeft, HasLeftRoom, HasTargetRoom, TakesDefault, all_left, seen_part};
ghost use Rattle.rl_lowered.specs.Named.{IsNamed};
ghost use Rattle.rl_lowered.specs.Promised.{HasRoom, LowersLater, LowersTarget, share};
ghost use Rattle.rl_names.specs.Names.{local_of};
ghost use Rattle.rl_names.specs.Seen.{seen};
ghost use Rattle.rl_names.specs.declared.names.Meaning.TheVariants.{Local};
ghost use Rattle.rl_promises.specs.Locals.{IsVariable};
ghost use Rattle.rl_promises.specs.Lowerable.{IsFree, IsLowerable, IsLowerableTo};
ghost use Rattle.rl_promises.specs.Rows.{refusal};
ghost use Rattle.rl_syntax.specs.Syntax.{Node, Listed, Said, Then, End, nodes, pieces_of, span_of, syntax};

use crate::access::{lower_computed, lower_static};
use crate::assignment::assigned_to;
use crate::expression::lower_expression;
use crate::member::store_member;
use rl_ast::binding::{IdentifierReference, identifier_reference_view};
use rl_ast::target::{
    AssignmentTarget, AssignmentTargetMaybeDefault, assignment_target_maybe_default_view,
    assignment_target_view,
};
use rl_base::ids::SymbolId;
use rl_base::row::Row;
use rl_base::span::Span;
use rl_base::stop::Stop;
use rl_builder::unit_tables::ReadsUnit;
use rl_grammar::sort::{
    AssignmentTargetElementTrees, AssignmentTargetMaybeDefaultTree, AssignmentTargetPropertyTrees,
    AssignmentTargetRestTree, AssignmentTargetTree, ExpressionTree,
};
use rl_hir::instruction::{InstructionKind, InstructionValue, Pattern, Place};
use rl_lower_parts::graph_builder::GraphBuilder;
use rl_lower_parts::moved::note_moved;
use rl_lower_parts::name::{refuse_constant, resolve_variable};
use rl_lower_parts::pattern_parts::take_apart;
use rl_lower_parts::target_items::{
    LeftTarget, TargetPart, look_at_elements, look_at_properties, part_span, take_elements,
    take_properties,
};
use rl_lower_parts::temporary::{lower_value_to_temporary, refuse};
use rl_names::names::{FunctionNames, Meaning};
use rl_optional_frames::default_value::DefaultValue;
use rl_syntax::numbered::At;
use rl_syntax::word::Word;
use std::alloc::Global;

/// Lowers a default of `value`, where that is undefined; the place of the one that is taken. `at` is the span of what has the default.
#[cycle(expressions)]
pub fn lower_default<U: ReadsUnit>(
    alloc: Global,
    builder: &mut GraphBuilder<'_, U>,
    names: &FunctionNames<'_>,
    at: Span,
    default: ExpressionTree<'_>,
    value: Place,
) -> Result<Place, Stop>
    requires names { IsNamed (seen names.now) (state_of U.tables builder.old) }
    requires may { IsLowerable (seen names.now) (syntax default.tree.now) }
    requires room { HasRoom (state_of U.tables builder.old) (share (nodes (syntax default.tree.now) + 1)) }
    ensures same_reference { builder.new.env.ghost_name ≡ builder.old.env.ghost_name }
    ensures defaulted { IfOk result (λ place. TakesDefault (seen names.now) at (syntax default.entry.tree.now) value (state_of U.tables builder.old) (state_of U.tables builder.new) place) }
    ensures memory { IfErr result (λ e. e ≡ Stop.OutOfMemory) }
{
    let frame = DefaultValue::begin(builder, at, value)?;
    note_moved(alloc, builder, names, default.tree)?;
    let default = lower_expression(alloc, builder, names, default)?;
    let place = frame.finish(builder, default)?;
    Ok(place)
}

/// Stores `value` in a local variable at `there`. A constant is refused.
fn store_local<U: ReadsUnit>(
    alloc: Global,
    builder: &mut GraphBuilder<'_, U>,
    names: &FunctionNames<'_>,
    at: Span,
    there: At,
    symbol: SymbolId,
    value: Place,
) -> Result<Place, Stop>
    requires names { IsNamed (seen names.now) (state_of U.tables builder.old) }
    requires variable { IsVariable (seen names.now) symbol }
    requires free { is_reserved ((seen names.now).name symbol.0) ≡ false }
    requires room { HasRoom (state_of U.tables builder.old) 6 }
    ensures same_reference { builder.new.env.ghost_name ≡ builder.old.env.ghost_name }
    ensures lowered { IfOk result (λ place. (name : List ℕ) → (seen names.now).meaning there.reference.0 name ≡ Local symbol → LowersTarget (seen names.now) at value (Node there Word.Id (Then (Said name) End)) (state_of U.tables builder.old) (state_of U.tables builder.new) place) }
    ensures memory { IfErr result (λ e. e ≡ Stop.OutOfMemory) }
{
    let identifier = resolve_variable(builder, names, symbol, there.span)?;
    if names.is_const(symbol) {
        refuse_constant(alloc, builder, names, symbol, there.span)?;
        return Ok(value);
    }
    let variable = Place {
        identifier,
        span: Some(at),
    };
    let store = assigned_to(variable, value);
    lower_value_to_temporary(builder, store, Some(at))
}

/// Stores `value` in a name. One that is no local is stored as a global.
fn store_name<U: ReadsUnit>(
    alloc: Global,
    builder: &mut GraphBuilder<'_, U>,
    names: &FunctionNames<'_>,
    at: Span,
    identifier: &IdentifierReference<'_>,
    value: Place,
) -> Result<Place, Stop>
    requires names { IsNamed (seen names.now) (state_of U.tables builder.old) }
    requires free { IsFree (seen names.now) (local_of ((seen names.now).meaning identifier.now.at.reference.0 identifier.now.name.now)) }
    requires room { HasRoom (state_of U.tables builder.old) 6 }
    ensures same_reference { builder.new.env.ghost_name ≡ builder.old.env.ghost_name }
    ensures lowered { IfOk result (λ place. LowersTarget (seen names.now) at value (seen_identifier_reference identifier.now) (state_of U.tables builder.old) (state_of U.tables builder.new) place) }
    ensures memory { IfErr result (λ e. e ≡ Stop.OutOfMemory) }
{
    match names.meaning(alloc, identifier)? {
        Meaning::Local(symbol) => {
            store_local(alloc, builder, names, at, identifier.at, symbol, value)
        }
        Meaning::Outer(_binding) => {
            let name = identifier.name.copy(alloc)?;
            let store = InstructionValue::StoreGlobal { name, value };
            lower_value_to_temporary(builder, store, Some(at))
        }
    }
}

/// Refuses a target by a row, and stores nothing.
fn lose_target<U: ReadsUnit>(
    alloc: Global,
    builder: &mut GraphBuilder<'_, U>,
    row: Row,
    there: Span,
    value: Place,
) -> Result<Place, Stop>
    ensures same_reference { builder.new.env.ghost_name ≡ builder.old.env.ghost_name }
    ensures state { OnOk result ((state_of U.tables builder.new) ≡ recorded (state_of U.tables builder.old) (refusal row there)) }
    ensures place { IfOk result (λ place. place ≡ value) }
    ensures memory { IfErr result (λ e. e ≡ Stop.OutOfMemory) }
{
    refuse(alloc, builder, row, there)?;
    Ok(value)
}

/// Lowers an array of targets that takes `value`.
#[cycle(expressions)]
fn lower_array_target<U: ReadsUnit>(
    alloc: Global,
    builder: &mut GraphBuilder<'_, U>,
    names: &FunctionNames<'_>,
    at: Span,
    items: AssignmentTargetElementTrees<'_>,
    rest: Option<AssignmentTargetRestTree<'_>>,
    value: Place,
) -> Result<Place, Stop>
    requires names { IsNamed (seen names.now) (state_of U.tables builder.old) }
    requires may { (there : At) → IsLowerableTo (seen names.now) (Node there Word.Arraytarget (Then (Listed (pieces_of (map syntax items.trees.now))) (Then (maybe rest (λ t. syntax t.tree.now)) End))) }
    requires room { (there : At) → HasTargetRoom (state_of U.tables builder.old) (Node there Word.Arraytarget (Then (Listed (pieces_of (map syntax items.trees.now))) (Then (maybe rest (λ t. syntax t.tree.now)) End))) }
    ensures same_reference { builder.new.env.ghost_name ≡ builder.old.env.ghost_name }
    ensures lowered { IfOk result (λ place. (there : At) → LowersTarget (seen names.now) at value (Node there Word.Arraytarget (Then (Listed (pieces_of (map syntax items.entry.trees.now))) (Then (maybe rest.entry (λ t. syntax t.tree.now)) End))) (state_of U.tables builder.old) (state_of U.tables builder.new) place) }
    ensures memory { IfErr result (λ e. e ≡ Stop.OutOfMemory) }
{
    let forced = look_at_elements(builder, names, items, rest)?;
    let taken = take_elements(alloc, builder, names, forced, items, rest)?;
    let pattern = Pattern::Array(taken.items);
    let place = take_apart(
        alloc,
        builder,
        at,
        InstructionKind::Reassign,
        pattern,
        value,
    )?;
    lower_left(alloc, builder, names, taken.left.as_slice())?;
    Ok(place)
}

/// Lowers an object of targets that takes `value`.
#[cycle(expressions)]
fn lower_object_target<U: ReadsUnit>(
    alloc: Global,
    builder: &mut GraphBuilder<'_, U>,
    names: &FunctionNames<'_>,
    at: Span,
    properties: AssignmentTargetPropertyTrees<'_>,
    rest: Option<AssignmentTargetRestTree<'_>>,
    value: Place,
) -> Result<Place, Stop>
    requires names { IsNamed (seen names.now) (state_of U.tables builder.old) }
    requires may { (there : At) → IsLowerableTo (seen names.now) (Node there Word.Objecttarget (Then (Listed (pieces_of (map syntax properties.trees.now))) (Then (maybe rest (λ t. syntax t.tree.now)) End))) }
    requires room { (there : At) → HasTargetRoom (state_of U.tables builder.old) (Node there Word.Objecttarget (Then (Listed (pieces_of (map syntax properties.trees.now))) (Then (maybe rest (λ t. syntax t.tree.now)) End))) }
    ensures same_reference { builder.new.env.ghost_name ≡ builder.old.env.ghost_name }
    ensures lowered { IfOk result (λ place. (there : At) → LowersTarget (seen names.now) at value (Node there Word.Objecttarget (Then (Listed (pieces_of (map syntax properties.entry.trees.now))) (Then (maybe rest.entry (λ t. syntax t.tree.now)) End))) (state_of U.tables builder.old) (state_of U.tables builder.new) place) }
    ensures memory { IfErr result (λ e. e ≡ Stop.OutOfMemory) }
{
    let forced = look_at_properties(builder, names, properties, rest)?;
    let taken = take_properties(alloc, builder, names, forced, properties, rest)?;
    let pattern = Pattern::Object(taken.properties);
    let place = take_apart(
        alloc,
        builder,
        at,
        InstructionKind::Reassign,
        pattern,
        value,
    )?;
    lower_left(alloc, builder, names, taken.left.as_slice())?;
    Ok(place)
}

/// Lowers a target that takes `value` (`lowerAssignment`), by an instruction with the span `at`. Private properties and targets under
/// wrappers are refused without their parts.
#[cycle(expressions)]
pub fn lower_target<U: ReadsUnit>(
    alloc: Global,
    builder: &mut GraphBuilder<'_, U>,
    names: &FunctionNames<'_>,
    at: Span,
    target: AssignmentTargetTree<'_>,
    value: Place,
) -> Result<Place, Stop>
    requires names { IsNamed (seen names.now) (state_of U.tables builder.old) }
    requires may { IsLowerableTo (seen names.now) (syntax target.tree.now) }
    requires room { HasTargetRoom (state_of U.tables builder.old) (syntax target.tree.now) }
    ensures same_reference { builder.new.env.ghost_name ≡ builder.old.env.ghost_name }
    ensures lowered { IfOk result (λ place. LowersTarget (seen names.now) at value (syntax target.entry.tree.now) (state_of U.tables builder.old) (state_of U.tables builder.new) place) }
    ensures memory { IfErr result (λ e. e ≡ Stop.OutOfMemory) }
{
    match assignment_target_view(target) {
        AssignmentTarget::Identifier(identifier) => {
            let identifier = identifier_reference_view(identifier);
            store_name(alloc, builder, names, at, &identifier, value)
        }
        AssignmentTarget::Member {
            object,
            property,
            ..
        } => {
            let member = lower_static(alloc, builder, names, object, property)?;
            store_member(alloc, builder, at, member, value)
        }
        AssignmentTarget::Index {
            object,
            property,
            ..
        } => {
            let member = lower_computed(alloc, builder, names, object, property)?;
            store_member(alloc, builder, at, member, value)
        }
        AssignmentTarget::PrivateMember { at: there, .. } => {
            lose_target(alloc, builder, Row::F11, there.span, value)
        }
        AssignmentTarget::Array { at: _, items, rest } => {
            lower_array_target(alloc, builder, names, at, items, rest, value)
        }
        AssignmentTarget::Object {
            at: _,
            properties,
            rest,
        } => lower_object_target(alloc, builder, names, at, properties, rest, value),
        AssignmentTarget::As { at: there, .. } => {
            lose_target(alloc, builder, Row::F45, there.span, value)
        }
        AssignmentTarget::Satisfies { at: there, .. } => {
            lose_target(alloc, builder, Row::F45, there.span, value)
        }
        AssignmentTarget::Assert { at: there, .. } => {
            lose_target(alloc, builder, Row::F45, there.span, value)
        }
        AssignmentTarget::NonNull { at: there, .. } => {
            lose_target(alloc, builder, Row::F45, there.span, value)
        }
    }
}

/// As `lower_target`, for a target that may have a default; its instruction has its own span.
#[cycle(expressions)]
fn lower_maybe_default<U: ReadsUnit>(
    alloc: Global,
    builder: &mut GraphBuilder<'_, U>,
    names: &FunctionNames<'_>,
    target: AssignmentTargetMaybeDefaultTree<'_>,
    at: Span,
    value: Place,
) -> Result<Place, Stop>
    requires names { IsNamed (seen names.now) (state_of U.tables builder.old) }
    requires may { IsLowerableTo (seen names.now) (syntax target.tree.now) }
    requires own { at ≡ span_of (syntax target.tree.now) }
    requires room { HasTargetRoom (state_of U.tables builder.old) (syntax target.tree.now) }
    ensures same_reference { builder.new.env.ghost_name ≡ builder.old.env.ghost_name }
    ensures lowered { IfOk result (λ place. LowersTarget (seen names.now) at value (syntax target.entry.tree.now) (state_of U.tables builder.old) (state_of U.tables builder.new) place) }
    ensures memory { IfErr result (λ e. e ≡ Stop.OutOfMemory) }
{
    match assignment_target_maybe_default_view(target) {
        AssignmentTargetMaybeDefault::Target(target) => {
            lower_target(alloc, builder, names, at, target, value)
        }
        AssignmentTargetMaybeDefault::Default {
            at: there,
            target,
            default,
        } => {
            let value = lower_default(alloc, builder, names, there.span, default, value)?;
            lower_target(alloc, builder, names, there.span, target, value)
        }
    }
}

/// As `lower_target`, for a part that was left for later.
#[cycle(expressions)]
fn lower_left_part<U: ReadsUnit>(
    alloc: Global,
    builder: &mut GraphBuilder<'_, U>,
    names: &FunctionNames<'_>,
    left: LeftTarget<'_>,
) -> Result<Place, Stop>
    requires names { IsNamed (seen names.now) (state_of U.tables builder.old) }
    requires may { IsLowerableTo (seen names.now) (seen_part left.part) }
    requires room { HasTargetRoom (state_of U.tables builder.old) (seen_part left.part) }
    ensures same_reference { builder.new.env.ghost_name ≡ builder.old.env.ghost_name }
    ensures lowered { IfOk result (λ place. LowersTarget (seen names.now) (span_of (seen_part left.entry.part)) left.entry.value (seen_part left.entry.part) (state_of U.tables builder.old) (state_of U.tables builder.new) place) }
    ensures memory { IfErr result (λ e. e ≡ Stop.OutOfMemory) }
{
    let span = part_span(left.part);
    match left.part {
        TargetPart::MaybeDefault(target) => {
            lower_maybe_default(alloc, builder, names, target, span, left.value)
        }
        TargetPart::Target(target) => {
            lower_target(alloc, builder, names, span, target, left.value)
        }
        TargetPart::Name(name) => {
            let identifier = identifier_reference_view(name);
            store_name(alloc, builder, names, span, &identifier, left.value)
        }
        TargetPart::Short { at, name, default } => {
            let value = lower_default(alloc, builder, names, at.span, default, left.value)?;
            let identifier = identifier_reference_view(name);
            store_name(alloc, builder, names, at.span, &identifier, value)
        }
    }
}

/// Lowers the parts that were left for later, in order.
#[cycle(expressions)]
fn lower_left<U: ReadsUnit>(
    alloc: Global,
    builder: &mut GraphBuilder<'_, U>,
    names: &FunctionNames<'_>,
    left: &[LeftTarget<'_>],
) -> Result<(), Stop>
    requires names { IsNamed (seen names.now) (state_of U.tables builder.old) }
    requires may { AreLowerableLeft (seen names.now) (all_left left.now) }
    requires room { HasLeftRoom (state_of U.tables builder.old) (all_left left.now) }
    ensures same_reference { builder.new.env.ghost_name ≡ builder.old.env.ghost_name }
    ensures lowered { OnOk result (LowersLater (seen names.now) (all_left left.now) (state_of U.tables builder.old) (state_of U.tables builder.new)) }
    ensures memory { IfErr result (λ e. e ≡ Stop.OutOfMemory) }
{
    'parts: for part in left {
        lower_left_part(alloc, builder, names, *part)?;
    }
    Ok(())
}

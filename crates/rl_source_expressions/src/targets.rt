//! Targets that take values.

ghost use Rattle.std.specs.Prelude.{◌≡◌, IfOk};
ghost use Rattle.rl_grammar.specs.Fields.{maybe};
ghost use Rattle.rl_ast.specs.TargetViews.{seen_assignment_target_property};
ghost use Rattle.rl_model.specs.Expressions.{assign_to as to_target};
ghost use Rattle.rl_source_expressions.specs.Targets.{array_assigned, defaulted, object_assigned};
ghost use Rattle.rl_source_stack.specs.Controls.{from_normal, trace_of};
ghost use Rattle.rl_source_stack.specs.Frames.{assign_rest};
ghost use Rattle.rl_source_stack.specs.Parts.{among, targets_among};
ghost use Rattle.rl_source_stack.specs.States.{pushed, state_of};
ghost use Rattle.rl_trace.specs.Values.{shown};
ghost use Rattle.rl_syntax.specs.Syntax.{End, syntax};

use crate::evaluate::evaluate_property;
use crate::take::ask_binary;
use rl_ast::binding::identifier_reference_view;
use rl_ast::target::{
    AssignmentTarget, AssignmentTargetElement, AssignmentTargetMaybeDefault,
    AssignmentTargetProperty, assignment_target_element_view, assignment_target_maybe_default_view,
    assignment_target_property_view, assignment_target_rest_view, assignment_target_view,
};
use rl_base::error::OutOfMemory;
use rl_base::operator::BinaryOperator;
use rl_grammar::sort::{
    AssignmentTargetElementTrees, AssignmentTargetMaybeDefaultTree, AssignmentTargetPropertyTrees,
    AssignmentTargetRestTree, AssignmentTargetTree, ExpressionTree, IdentifierReferenceTree,
};
use rl_machine::trace::Value;
use rl_names::names::Meaning;
use rl_source_shapes::names::store_global_event;
use rl_source_shapes::pieces::{array_event, have_keys, is_plain_rest, object_event};
use rl_source_stack::apart::{Apart, Target, Targets, first_piece, later_pieces};
use rl_source_stack::behind::Behind;
use rl_source_stack::control::Control;
use rl_source_stack::property::{Property, Use};
use rl_source_stack::run::Run;
use rl_source_stack::stack::{Frame, Receiving};
use rl_trace::value::Val;

/// Stores a value in a name, and goes on behind a target. On `OutOfMemory`, an allocation failed.
fn assign_name<'b>(
    run: &mut Run<'b>,
    tree: IdentifierReferenceTree<'b>,
    value: Val<'b>,
) -> Result<Control<'b>, OutOfMemory>
    ensures { IfOk result (λ c. trace_of c (state_of run.new)
        ≡ trace_of (Control.AssignTo (Target.Name tree.entry) value.entry) (state_of run.old)) }
{
    let name = identifier_reference_view(tree);
    let meaning = run.names.meaning(run.progress.alloc, &name)?;
    let Meaning::Local(symbol) = meaning else {
        let event = store_global_event(run.progress.alloc, name.name, value)?;
        return run.ask_then(event, Control::Normal);
    };
    run.assign(symbol, value)?;
    Ok(Control::Normal)
}

/// Asks if a value is undefined, and gives the target the value or its default. On `OutOfMemory`, an allocation failed.
fn assign_default<'b>(
    run: &mut Run<'b>,
    target: Target<'b>,
    default: ExpressionTree<'b>,
    value: Val<'b>,
) -> Result<Control<'b>, OutOfMemory>
    ensures { IfOk result (λ c. trace_of c (state_of run.new)
        ≡ defaulted target.entry (syntax default.entry.tree.now) (shown value.entry) (state_of run.old)) }
{
    run.push(Frame::Value(Behind::AssignTo { target }))?;
    run.push(Frame::Value(Behind::Same { value, default }))?;
    ask_binary(run, BinaryOperator::StrictEquality, value, Val::Undefined)
}

/// Gives an array target a value. On `OutOfMemory`, an allocation failed.
fn assign_array<'b>(
    run: &mut Run<'b>,
    items: AssignmentTargetElementTrees<'b>,
    rest: Option<AssignmentTargetRestTree<'b>>,
    value: Val<'b>,
) -> Result<Control<'b>, OutOfMemory>
    ensures { IfOk result (λ c. trace_of c (state_of run.new)
        ≡ from_normal (array_assigned (state_of run.old).scene (among items.entry.trees.now) (maybe rest.entry (λ t. syntax t.tree.now))
        (shown value.entry)) (state_of run.old)) }
{
    let items_of = Targets::Elements(items);
    run.push(Frame::Pieces(Apart::Assign {
        items: items_of,
        rest,
    }))?;
    let event = array_event(run.progress.alloc, items.trees, rest, value)?;
    run.ask_pieces(event)
}

/// Gives an object target a value. On `OutOfMemory`, an allocation failed.
fn assign_object<'b>(
    run: &mut Run<'b>,
    properties: AssignmentTargetPropertyTrees<'b>,
    rest: Option<AssignmentTargetRestTree<'b>>,
    value: Val<'b>,
) -> Result<Control<'b>, OutOfMemory>
    ensures { IfOk result (λ c. trace_of c (state_of run.new)
        ≡ from_normal (object_assigned (state_of run.old).scene (among properties.entry.trees.now)
        (maybe rest.entry (λ t. syntax t.tree.now)) (shown value.entry)) (state_of run.old)) }
{
    if !have_keys(properties.trees) {
        return Ok(Control::Waiting);
    }
    if !is_plain_rest(rest) {
        return Ok(Control::Waiting);
    }
    run.push(Frame::Pieces(Apart::Assign {
        items: Targets::Properties(properties),
        rest,
    }))?;
    let event = object_event(run.progress.alloc, properties.trees, rest, value)?;
    run.ask_pieces(event)
}

/// Gives a target a value. On `OutOfMemory`, an allocation failed.
fn assign_whole<'b>(
    run: &mut Run<'b>,
    tree: AssignmentTargetTree<'b>,
    value: Val<'b>,
) -> Result<Control<'b>, OutOfMemory>
    ensures { IfOk result (λ c. trace_of c (state_of run.new)
        ≡ trace_of (Control.AssignTo (Target.Whole tree.entry) value.entry) (state_of run.old)) }
{
    match assignment_target_view(tree) {
        AssignmentTarget::Identifier(name) => assign_name(run, name, value),
        AssignmentTarget::Member {
            at: _,
            optional: _,
            object,
            property,
        } => {
            let property = Property::Named(property);
            evaluate_property(run, false, object, property, Use::Store { value })
        }
        AssignmentTarget::Index {
            at: _,
            optional: _,
            object,
            property,
        } => {
            let property = Property::Computed(property);
            evaluate_property(run, false, object, property, Use::Store { value })
        }
        AssignmentTarget::PrivateMember { .. } => Ok(Control::Waiting),
        AssignmentTarget::Array { at: _, items, rest } => assign_array(run, items, rest, value),
        AssignmentTarget::Object {
            at: _,
            properties,
            rest,
        } => assign_object(run, properties, rest, value),
        AssignmentTarget::As { .. } => Ok(Control::Waiting),
        AssignmentTarget::Satisfies { .. } => Ok(Control::Waiting),
        AssignmentTarget::Assert { .. } => Ok(Control::Waiting),
        AssignmentTarget::NonNull { .. } => Ok(Control::Waiting),
    }
}

/// Gives a target that may have a default a value. On `OutOfMemory`, an allocation failed.
fn assign_maybe_default<'b>(
    run: &mut Run<'b>,
    tree: AssignmentTargetMaybeDefaultTree<'b>,
    value: Val<'b>,
) -> Result<Control<'b>, OutOfMemory>
    ensures { IfOk result (λ c. trace_of c (state_of run.new)
        ≡ trace_of (Control.AssignTo (Target.MaybeDefault tree.entry) value.entry) (state_of run.old)) }
{
    match assignment_target_maybe_default_view(tree) {
        AssignmentTargetMaybeDefault::Target(target) => {
            Ok(Control::AssignTo(Target::Whole(target), value))
        }
        AssignmentTargetMaybeDefault::Default {
            at: _,
            target,
            default,
        } => assign_default(run, Target::Whole(target), default, value),
    }
}

/// Gives a target a value. On `OutOfMemory`, an allocation failed.
pub fn assign_to<'b>(
    run: &mut Run<'b>,
    target: Target<'b>,
    value: Val<'b>,
) -> Result<Control<'b>, OutOfMemory>
    ensures { IfOk result (λ c. trace_of c (state_of run.new)
        ≡ trace_of (Control.AssignTo target.entry value.entry) (state_of run.old)) }
{
    match target {
        Target::Whole(tree) => assign_whole(run, tree, value),
        Target::MaybeDefault(tree) => assign_maybe_default(run, tree, value),
        Target::Name(tree) => assign_name(run, tree, value),
        Target::Rest(tree) => {
            let rest = assignment_target_rest_view(tree);
            Ok(Control::AssignTo(Target::Whole(rest.target), value))
        }
    }
}

/// Gives the rest of a target its piece.
fn assign_last<'b>(
    run: &mut Run<'b>,
    pieces: &'b [Value],
    rest: Option<AssignmentTargetRestTree<'b>>,
) -> Control<'b>
    ensures { trace_of result (state_of run.new)
        ≡ from_normal (assign_rest (state_of run.old).scene End pieces.entry.now (maybe rest.entry (λ t. syntax t.tree.now)))
        (state_of run.old) }
{
    match rest {
        None => Control::Normal,
        Some(rest) => Control::AssignTo(Target::Rest(rest), first_piece(pieces)),
    }
}

/// Gives the items of an array target their pieces, and then the rest. On `OutOfMemory`, an allocation failed.
fn assign_elements<'b>(
    run: &mut Run<'b>,
    items: AssignmentTargetElementTrees<'b>,
    pieces: &'b [Value],
    rest: Option<AssignmentTargetRestTree<'b>>,
) -> Result<Control<'b>, OutOfMemory>
    ensures { IfOk result (λ c. trace_of c (state_of run.new)
        ≡ from_normal (assign_rest (state_of run.old).scene (among items.entry.trees.now) pieces.entry.now
        (maybe rest.entry (λ t. syntax t.tree.now))) (state_of run.old)) }
{
    let mut left = items;
    'items: while let Some((first, behind)) = left.split_first() {
        match assignment_target_element_view(first) {
            AssignmentTargetElement::Hole { .. } => left = behind,
            AssignmentTargetElement::Target(target) => {
                run.push(Frame::Target(Receiving::Targets {
                    items: Targets::Elements(behind),
                    pieces: later_pieces(pieces),
                    rest,
                }))?;
                let piece = first_piece(pieces);
                return Ok(Control::AssignTo(Target::MaybeDefault(target), piece));
            }
        }
    }
    Ok(assign_last(run, pieces, rest))
}

/// Gives a property of an object target a value. On `OutOfMemory`, an allocation failed.
fn assign_property<'b>(
    run: &mut Run<'b>,
    property: AssignmentTargetProperty<'b>,
    value: Val<'b>,
) -> Result<Control<'b>, OutOfMemory>
    ensures { IfOk result (λ c. trace_of c (state_of run.new)
        ≡ from_normal (to_target (state_of run.old).scene (seen_assignment_target_property property.entry) (shown value.entry))
        (state_of run.old)) }
{
    match property {
        AssignmentTargetProperty::Short {
            at: _,
            name,
            default,
        } => match default {
            None => Ok(Control::AssignTo(Target::Name(name), value)),
            Some(default) => assign_default(run, Target::Name(name), default, value),
        },
        AssignmentTargetProperty::Keyed {
            at: _,
            computed: _,
            key: _,
            value: target,
        } => Ok(Control::AssignTo(Target::MaybeDefault(target), value)),
    }
}

/// Gives the properties of an object target their pieces, and then the rest. On `OutOfMemory`, an allocation failed.
fn assign_properties<'b>(
    run: &mut Run<'b>,
    properties: AssignmentTargetPropertyTrees<'b>,
    pieces: &'b [Value],
    rest: Option<AssignmentTargetRestTree<'b>>,
) -> Result<Control<'b>, OutOfMemory>
    ensures { IfOk result (λ c. trace_of c (state_of run.new)
        ≡ from_normal (assign_rest (state_of run.old).scene (among properties.entry.trees.now) pieces.entry.now
        (maybe rest.entry (λ t. syntax t.tree.now))) (state_of run.old)) }
{
    match properties.split_first() {
        None => Ok(assign_last(run, pieces, rest)),
        Some((first, behind)) => {
            run.push(Frame::Target(Receiving::Targets {
                items: Targets::Properties(behind),
                pieces: later_pieces(pieces),
                rest,
            }))?;
            let piece = first_piece(pieces);
            assign_property(run, assignment_target_property_view(first), piece)
        }
    }
}

/// Gives the parts of a target their pieces, and then the rest. On `OutOfMemory`, an allocation failed.
pub fn assign_parts<'b>(
    run: &mut Run<'b>,
    items: Targets<'b>,
    pieces: &'b [Value],
    rest: Option<AssignmentTargetRestTree<'b>>,
) -> Result<Control<'b>, OutOfMemory>
    ensures { IfOk result (λ c. trace_of c (state_of run.new)
        ≡ from_normal (assign_rest (state_of run.old).scene (targets_among items.entry) pieces.entry.now
        (maybe rest.entry (λ t. syntax t.tree.now))) (state_of run.old)) }
{
    match items {
        Targets::Elements(items) => assign_elements(run, items, pieces, rest),
        Targets::Properties(properties) => assign_properties(run, properties, pieces, rest),
    }
}

/// Goes on behind a target that has its value. On `OutOfMemory`, an allocation failed.
pub fn receive<'b>(run: &mut Run<'b>, receiving: Receiving<'b>) -> Result<Control<'b>, OutOfMemory>
    ensures { IfOk result (λ c. trace_of c (state_of run.new)
        ≡ trace_of Control.Normal (pushed (Frame.Target receiving.entry) (state_of run.old))) }
{
    match receiving {
        Receiving::Targets {
            items,
            pieces,
            rest,
        } => assign_parts(run, items, pieces, rest),
        Receiving::Give { value } => Ok(Control::Value(value)),
    }
}

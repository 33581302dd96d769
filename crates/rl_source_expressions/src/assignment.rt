//! Assignments and updates, down to their first parts.

ghost use Rattle.std.specs.Prelude.{◌≡◌, IfOk, codes, if◌then◌else◌};
ghost use Rattle.std.specs.Str.{bytes_eq};
ghost use Rattle.rl_base.specs.Operators.{assignment_text, operator_text, update_text};
ghost use Rattle.rl_model.specs.Actions.{no_meaning};
ghost use Rattle.rl_model.specs.Expressions.{assign_to, assignment, compound, eval, place, update_name};
ghost use Rattle.rl_model.specs.Shapes.{is_logical, operator_in};
ghost use Rattle.rl_source_expressions.specs.Places.{IsPlace};
ghost use Rattle.rl_source_stack.specs.Controls.{from, trace_of};
ghost use Rattle.rl_source_stack.specs.States.{state_of};
ghost use Rattle.rl_syntax.specs.declared.word.Word.TheVariants as word;
ghost use Rattle.rl_syntax.specs.Syntax.{Flag, Node, Said, Then, End, syntax};

use crate::evaluate::evaluate_property;
use rl_ast::binding::{IdentifierReference, identifier_reference_view};
use rl_ast::target::{AssignmentTarget, assignment_target_view};
use rl_base::error::OutOfMemory;
use rl_base::operator::{AssignmentOperator, BinaryOperator, UpdateOperator};
use rl_grammar::sort::{AssignmentTargetTree, ExpressionTree};
use rl_names::names::Meaning;
use rl_source_shapes::events::update_event;
use rl_source_shapes::names::read_name;
use rl_source_shapes::operators::{Change, change_of};
use rl_source_stack::apart::Target;
use rl_source_stack::behind::Behind;
use rl_source_stack::control::Control;
use rl_source_stack::property::{Property, Use};
use rl_source_stack::run::Run;
use rl_source_stack::stack::Frame;
use rl_syntax::numbered::At;

/// The target of an assignment, by its form.
#[derive(Clone, Copy)]
pub enum Place<'b> {
    /// A name.
    Name(IdentifierReference<'b>),
    /// A property.
    Property {
        /// Ids and span of the node.
        at: At,
        /// True of an optional link.
        optional: bool,
        /// The object.
        object: ExpressionTree<'b>,
        /// The key.
        property: Property<'b>,
    },
    /// A private property.
    Private,
    /// A pattern, or an expression that is no place.
    Pattern,
}

/// The form of a target.
fn place_of(target: AssignmentTargetTree<'_>) -> Place<'_>
    ensures { IsPlace result (syntax target.entry.tree.now) }
{
    match assignment_target_view(target) {
        AssignmentTarget::Identifier(name) => Place::Name(identifier_reference_view(name)),
        AssignmentTarget::Member {
            at,
            optional,
            object,
            property,
        } => Place::Property {
            at,
            optional,
            object,
            property: Property::Named(property),
        },
        AssignmentTarget::Index {
            at,
            optional,
            object,
            property,
        } => Place::Property {
            at,
            optional,
            object,
            property: Property::Computed(property),
        },
        AssignmentTarget::PrivateMember { .. } => Place::Private,
        AssignmentTarget::Array { .. } => Place::Pattern,
        AssignmentTarget::Object { .. } => Place::Pattern,
        AssignmentTarget::As { .. } => Place::Pattern,
        AssignmentTarget::Satisfies { .. } => Place::Pattern,
        AssignmentTarget::Assert { .. } => Place::Pattern,
        AssignmentTarget::NonNull { .. } => Place::Pattern,
    }
}

/// Evaluates `=`, down to its first part. On `OutOfMemory`, an allocation failed.
fn assign_plain<'b>(
    run: &mut Run<'b>,
    left: AssignmentTargetTree<'b>,
    right: ExpressionTree<'b>,
) -> Result<Control<'b>, OutOfMemory>
    ensures { IfOk result (λ c. trace_of c (state_of run.new)
        ≡ from (assignment (state_of run.old).scene (syntax left.entry.tree.now)
        (place (state_of run.old).scene (syntax left.entry.tree.now)) (assign_to (state_of run.old).scene (syntax left.entry.tree.now))
        (eval (state_of run.old).scene (syntax right.entry.tree.now))) (state_of run.old)) }
{
    match place_of(left) {
        Place::Name(name) => {
            run.push(Frame::Value(Behind::AssignName { name }))?;
            Ok(Control::Evaluate(right))
        }
        Place::Property {
            at: _,
            optional: _,
            object,
            property,
        } => evaluate_property(run, false, object, property, Use::Assign { right }),
        Place::Private => Ok(Control::Waiting),
        Place::Pattern => {
            let target = Target::Whole(left);
            run.push(Frame::Value(Behind::AssignPattern { target }))?;
            Ok(Control::Evaluate(right))
        }
    }
}

/// Evaluates a compound assignment, down to its first part. On `OutOfMemory`, an allocation failed.
fn assign_compound<'b>(
    run: &mut Run<'b>,
    operator: BinaryOperator,
    left: AssignmentTargetTree<'b>,
    right: ExpressionTree<'b>,
) -> Result<Control<'b>, OutOfMemory>
    ensures { IfOk result (λ c. trace_of c (state_of run.new)
        ≡ from (compound (state_of run.old).scene (operator_text operator) (syntax left.entry.tree.now)
        (place (state_of run.old).scene (syntax left.entry.tree.now)) (eval (state_of run.old).scene (syntax right.entry.tree.now)))
        (state_of run.old)) }
{
    match place_of(left) {
        Place::Name(name) => {
            run.push(Frame::Value(Behind::CompoundName {
                name,
                operator,
                right,
            }))?;
            read_name(run, name)
        }
        Place::Property {
            at: _,
            optional: _,
            object,
            property,
        } => evaluate_property(
            run,
            false,
            object,
            property,
            Use::Compound { operator, right },
        ),
        Place::Private => Ok(Control::Waiting),
        Place::Pattern => Ok(Control::Waiting),
    }
}

/// Evaluates an assignment, down to its first part. On `OutOfMemory`, an allocation failed.
pub fn evaluate_assignment<'b>(
    run: &mut Run<'b>,
    operator: AssignmentOperator,
    left: AssignmentTargetTree<'b>,
    right: ExpressionTree<'b>,
) -> Result<Control<'b>, OutOfMemory>
    ensures { IfOk result (λ c. trace_of c (state_of run.new)
        ≡ from (if bytes_eq (assignment_text operator) (codes "=") then assignment (state_of run.old).scene (syntax left.entry.tree.now)
        (place (state_of run.old).scene (syntax left.entry.tree.now)) (assign_to (state_of run.old).scene (syntax left.entry.tree.now))
        (eval (state_of run.old).scene (syntax right.entry.tree.now)) else if is_logical (assignment_text operator) then no_meaning
        else compound (state_of run.old).scene (operator_in (assignment_text operator)) (syntax left.entry.tree.now)
        (place (state_of run.old).scene (syntax left.entry.tree.now)) (eval (state_of run.old).scene (syntax right.entry.tree.now)))
        (state_of run.old)) }
{
    match change_of(operator) {
        Change::Plain => assign_plain(run, left, right),
        Change::Logical => Ok(Control::Waiting),
        Change::Compound(operator) => assign_compound(run, operator, left, right),
    }
}

/// Applies `++` or `--` to a name. On `OutOfMemory`, an allocation failed.
fn update_variable<'b>(
    run: &mut Run<'b>,
    operator: UpdateOperator,
    prefix: bool,
    name: IdentifierReference<'b>,
) -> Result<Control<'b>, OutOfMemory>
    ensures { IfOk result (λ c. trace_of c (state_of run.new)
        ≡ from (update_name (state_of run.old).scene prefix (update_text operator)
        ((state_of run.old).scene.names.meaning name.entry.at.reference.0 name.entry.name.now)) (state_of run.old)) }
{
    let meaning = run.names.meaning(run.progress.alloc, &name)?;
    let Meaning::Local(symbol) = meaning else {
        return Ok(Control::Waiting);
    };
    let old = run.read(symbol);
    run.push(Frame::Value(Behind::UpdateName {
        symbol,
        prefix,
        old,
    }))?;
    let event = update_event(run.progress.alloc, prefix, operator, old)?;
    run.ask_value(event)
}

/// Evaluates `++` or `--`, down to its first part. On `OutOfMemory`, an allocation failed.
pub fn evaluate_update<'b>(
    run: &mut Run<'b>,
    at: At,
    operator: UpdateOperator,
    prefix: bool,
    argument: AssignmentTargetTree<'b>,
) -> Result<Control<'b>, OutOfMemory>
    ensures { IfOk result (λ c. trace_of c (state_of run.new)
        ≡ from (eval (state_of run.old).scene (Node at word.Update (Then (Said (update_text operator))
        (Then (Flag prefix) (Then (syntax argument.entry.tree.now) End))))) (state_of run.old)) }
{
    match place_of(argument) {
        Place::Name(name) => update_variable(run, operator, prefix, name),
        Place::Property {
            at: _,
            optional: _,
            object,
            property,
        } => evaluate_property(
            run,
            false,
            object,
            property,
            Use::Update { operator, prefix },
        ),
        Place::Private => Ok(Control::Waiting),
        Place::Pattern => Ok(Control::Waiting),
    }
}

//! Expressions, down to their first parts.

ghost use Rattle.std.specs.Prelude.{◌≡◌, ◌∷◌, [], IfOk, codes};
ghost use Rattle.rl_base.specs.Operators.{unary_text};
ghost use Rattle.rl_model.specs.Actions.{ask};
ghost use Rattle.rl_model.specs.Events as events;
ghost use Rattle.rl_model.specs.Expressions.{eval, eval_last};
ghost use Rattle.rl_source_expressions.specs.Operations.{unary_value};
ghost use Rattle.rl_source_stack.specs.Controls.{from, trace_of};
ghost use Rattle.rl_source_stack.specs.Parts.{among};
ghost use Rattle.rl_source_stack.specs.States.{pushed, state_of};
ghost use Rattle.rl_syntax.specs.Syntax.{syntax};

use crate::assignment::{evaluate_assignment, evaluate_update};
use crate::calls::{evaluate_call, evaluate_tagged};
use rl_ast::binding::identifier_reference_view;
use rl_ast::expression::{Expression, expression_view};
use rl_ast::expression_part::template_literal_view;
use rl_ast::function::arrow_view;
use rl_ast::function_node::function_expression_view;
use rl_base::error::OutOfMemory;
use rl_base::ids::NodeId;
use rl_base::list::List;
use rl_base::operator::UnaryOperator;
use rl_base::text::Text;
use rl_grammar::sort::{ExpressionTree, ExpressionTrees, TemplateLiteralTree};
use rl_source_gather::gather::gather;
use rl_source_gather::jsx::{evaluate_element, evaluate_fragment};
use rl_source_shapes::events::{bare_event, function_event, regexp_event};
use rl_source_shapes::names::read_name;
use rl_source_shapes::operators::is_delete;
use rl_source_shapes::tests::number;
use rl_source_stack::behind::Behind;
use rl_source_stack::control::Control;
use rl_source_stack::gather::{Gather, Parts};
use rl_source_stack::property::{Property, Use};
use rl_source_stack::run::Run;
use rl_source_stack::stack::Frame;
use rl_trace::value::Val;

/// Evaluates a regular expression. On `OutOfMemory`, an allocation failed.
fn evaluate_regexp<'b>(
    run: &mut Run<'b>,
    pattern: &Text,
    flags: &Text,
) -> Result<Control<'b>, OutOfMemory>
    ensures { IfOk result (λ c. trace_of c (state_of run.new)
        ≡ from (ask (state_of run.old).scene (events.event (codes "regexp") (pattern.now ∷ flags.now ∷ []) [])) (state_of run.old)) }
{
    let event = regexp_event(run.progress.alloc, pattern, flags)?;
    run.ask_value(event)
}

/// Evaluates `import.meta`. On `OutOfMemory`, an allocation failed.
fn evaluate_meta<'b>(run: &mut Run<'b>) -> Result<Control<'b>, OutOfMemory>
    ensures { IfOk result (λ c. trace_of c (state_of run.new)
        ≡ from (ask (state_of run.old).scene (events.event (codes "metaproperty") [] [])) (state_of run.old)) }
{
    let event = bare_event(run.progress.alloc, "metaproperty")?;
    run.ask_value(event)
}

/// Makes the function of a node. On `OutOfMemory`, an allocation failed.
fn evaluate_function<'b>(run: &mut Run<'b>, node: NodeId) -> Result<Control<'b>, OutOfMemory>
    ensures { IfOk result (λ c. trace_of c (state_of run.new)
        ≡ from (ask (state_of run.old).scene (events.function node.0)) (state_of run.old)) }
{
    let event = function_event(run.progress.alloc, node)?;
    run.ask_value(event)
}

/// Evaluates a unary operation. On `OutOfMemory`, an allocation failed.
fn evaluate_unary<'b>(
    run: &mut Run<'b>,
    operator: UnaryOperator,
    argument: ExpressionTree<'b>,
) -> Result<Control<'b>, OutOfMemory>
    ensures { IfOk result (λ c. trace_of c (state_of run.new)
        ≡ from (unary_value (state_of run.old).scene (unary_text operator) (syntax argument.entry.tree.now)) (state_of run.old)) }
{
    if is_delete(operator) {
        Ok(Control::Delete(argument))
    } else {
        run.push(Frame::Value(Behind::Unary { operator }))?;
        Ok(Control::Evaluate(argument))
    }
}

/// Evaluates expressions in a row, down to the last one. On `OutOfMemory`, an allocation failed.
pub fn evaluate_last<'b>(
    run: &mut Run<'b>,
    expressions: ExpressionTrees<'b>,
) -> Result<Control<'b>, OutOfMemory>
    ensures { IfOk result (λ c. trace_of c (state_of run.new)
        ≡ from (eval_last (state_of run.old).scene (among expressions.entry.trees.now)) (state_of run.old)) }
{
    match expressions.split_first() {
        None => Ok(Control::Waiting),
        Some((first, rest)) => match rest.split_first() {
            None => Ok(Control::Evaluate(first)),
            Some(_) => {
                run.push(Frame::Value(Behind::Sequence { expressions: rest }))?;
                Ok(Control::Evaluate(first))
            }
        },
    }
}

/// Evaluates a template. On `OutOfMemory`, an allocation failed.
fn evaluate_template<'b>(
    run: &mut Run<'b>,
    template: TemplateLiteralTree<'b>,
) -> Result<Control<'b>, OutOfMemory>
    ensures { IfOk result (λ c. trace_of c (state_of run.new)
        ≡ from (eval (state_of run.old).scene (syntax template.entry.tree.now)) (state_of run.old)) }
{
    let template = template_literal_view(template);
    let what = Gather::Template {
        quasis: template.quasis,
        expressions: template.expressions,
    };
    let given = List::new(run.progress.alloc);
    gather(run, what, Parts::Expressions(template.expressions), given)
}

/// Evaluates a property down to its object. On `OutOfMemory`, an allocation failed.
pub fn evaluate_property<'b>(
    run: &mut Run<'b>,
    optional: bool,
    object: ExpressionTree<'b>,
    property: Property<'b>,
    then: Use<'b>,
) -> Result<Control<'b>, OutOfMemory>
    ensures { IfOk result (λ c. trace_of c (state_of run.new)
        ≡ trace_of (Control.Evaluate object.entry) (pushed (Frame.Value (Behind.Object optional property.entry then.entry))
        (state_of run.old))) }
{
    run.push(Frame::Value(Behind::Object {
        optional,
        property,
        then,
    }))?;
    Ok(Control::Evaluate(object))
}

/// Evaluates an expression, down to its first part. On `OutOfMemory`, an allocation failed.
pub fn evaluate<'b>(run: &mut Run<'b>, tree: ExpressionTree<'b>) -> Result<Control<'b>, OutOfMemory>
    ensures { IfOk result (λ c. trace_of c (state_of run.new) ≡ trace_of (Control.Evaluate tree.entry) (state_of run.old)) }
{
    match expression_view(tree) {
        Expression::Identifier(identifier) => {
            let identifier = identifier_reference_view(identifier);
            read_name(run, identifier)
        }
        Expression::Null { .. } => Ok(Control::Value(Val::Null)),
        Expression::Boolean { at: _, value } => Ok(Control::Value(Val::Bool(value))),
        Expression::Number { at: _, text } => Ok(number(run, text)),
        Expression::String { at: _, text } => Ok(Control::Value(Val::Text(text))),
        Expression::BigInt { .. } => Ok(Control::Waiting),
        Expression::RegExp {
            at: _,
            pattern,
            flags,
        } => evaluate_regexp(run, pattern, flags),
        Expression::Template(template) => evaluate_template(run, template),
        Expression::Tagged { at, tag, quasi } => evaluate_tagged(run, at, tag, quasi),
        Expression::Array { at: _, items } => {
            let given = List::new(run.progress.alloc);
            gather(run, Gather::Array { items }, Parts::Elements(items), given)
        }
        Expression::Object { at: _, properties } => {
            let given = List::new(run.progress.alloc);
            let what = Gather::Object { properties };
            gather(run, what, Parts::Properties(properties), given)
        }
        Expression::Unary {
            at: _,
            operator,
            argument,
        } => evaluate_unary(run, operator, argument),
        Expression::Update {
            at,
            operator,
            prefix,
            argument,
        } => evaluate_update(run, at, operator, prefix, argument),
        Expression::Binary {
            at: _,
            operator,
            left,
            right,
        } => {
            run.push(Frame::Value(Behind::BinaryRight { operator, right }))?;
            Ok(Control::Evaluate(left))
        }
        Expression::PrivateIn { .. } => Ok(Control::Waiting),
        Expression::Logical {
            at: _,
            operator,
            left,
            right,
        } => {
            run.push(Frame::Value(Behind::LogicalRight { operator, right }))?;
            Ok(Control::Evaluate(left))
        }
        Expression::Conditional {
            at: _,
            test,
            consequent,
            alternate,
        } => {
            run.push(Frame::Value(Behind::Conditional {
                consequent,
                alternate,
            }))?;
            Ok(Control::Evaluate(test))
        }
        Expression::Assignment {
            at: _,
            operator,
            left,
            right,
        } => evaluate_assignment(run, operator, left, right),
        Expression::Sequence { at: _, expressions } => evaluate_last(run, expressions),
        Expression::New {
            at: _,
            callee,
            arguments,
        } => {
            run.push(Frame::Value(Behind::New { arguments }))?;
            Ok(Control::Evaluate(callee))
        }
        Expression::Await { at: _, argument } => {
            run.push(Frame::Value(Behind::Await))?;
            Ok(Control::Evaluate(argument))
        }
        Expression::Yield { .. } => Ok(Control::Waiting),
        Expression::ImportMeta { .. } => evaluate_meta(run),
        Expression::NewTarget { .. } => Ok(Control::Waiting),
        Expression::Super { .. } => Ok(Control::Waiting),
        Expression::This { .. } => Ok(Control::Waiting),
        Expression::ImportCall { .. } => Ok(Control::Waiting),
        Expression::Parenthesized { at: _, expression } => Ok(Control::Evaluate(expression)),
        Expression::As {
            at: _,
            expression,
            ..
        } => Ok(Control::Evaluate(expression)),
        Expression::Satisfies {
            at: _,
            expression,
            ..
        } => Ok(Control::Evaluate(expression)),
        Expression::Assert {
            at: _,
            expression,
            ..
        } => Ok(Control::Evaluate(expression)),
        Expression::NonNull { at: _, expression } => Ok(Control::Evaluate(expression)),
        Expression::Instantiate {
            at: _,
            expression,
            ..
        } => Ok(Control::Evaluate(expression)),
        Expression::Arrow(function) => {
            let function = arrow_view(function);
            evaluate_function(run, function.at.id)
        }
        Expression::Function(function) => {
            let function = function_expression_view(function);
            evaluate_function(run, function.at.id)
        }
        Expression::Class { .. } => Ok(Control::Waiting),
        Expression::Element(element) => evaluate_element(run, element),
        Expression::Fragment(fragment) => evaluate_fragment(run, fragment),
        Expression::Member {
            at: _,
            optional,
            object,
            property,
        } => evaluate_property(run, optional, object, Property::Named(property), Use::Load),
        Expression::Index {
            at: _,
            optional,
            object,
            property,
        } => {
            let property = Property::Computed(property);
            evaluate_property(run, optional, object, property, Use::Load)
        }
        Expression::PrivateMember { .. } => Ok(Control::Waiting),
        Expression::Call {
            at,
            optional,
            callee,
            arguments,
        } => evaluate_call(run, at, optional, callee, arguments),
        Expression::Chain { at: _, expression } => {
            run.push(Frame::Chained { lends: false })?;
            Ok(Control::Evaluate(expression))
        }
    }
}

//! Calls, chains and the callees that lend their objects.

ghost use Rattle.std.specs.Prelude.{◌≡◌, IfOk, map};
ghost use Rattle.rl_model.specs.Shapes as shapes;
ghost use Rattle.rl_model.specs.Expressions.{eval};
ghost use Rattle.rl_source_expressions.specs.Callees as callees;
ghost use Rattle.rl_source_expressions.specs.Tests as spec;
ghost use Rattle.rl_source_stack.specs.Controls.{from, runs, trace_of};
ghost use Rattle.rl_source_stack.specs.Frames.{cut_short as cut};
ghost use Rattle.rl_source_stack.specs.Parts.{among};
ghost use Rattle.rl_source_stack.specs.States.{pushed, state_of};
ghost use Rattle.rl_syntax.specs.Syntax.{End, Flag, Listed, Node, Then, pieces_of, syntax};
ghost use Rattle.rl_syntax.specs.declared.word.Word.TheVariants as word;

use crate::evaluate::evaluate_property;
use rl_ast::expression_part::template_literal_view;
use rl_base::error::OutOfMemory;
use rl_grammar::parts::{one, three, two};
use rl_grammar::sort::{ArgumentTrees, ExpressionTree, TemplateLiteralTree};
use rl_grammar::tree::Tree;
use rl_source_gather::gather::{gather_one, gather_two};
use rl_source_shapes::shapes::are_raw;
use rl_source_stack::control::Control;
use rl_source_stack::gather::{Gather, Parts};
use rl_source_stack::property::{Property, Use};
use rl_source_stack::run::Run;
use rl_source_stack::stack::{Frame, Heading};
use rl_syntax::numbered::{At, Numbered};
use rl_syntax::parts::{flag_of, node_of, text_of};
use rl_syntax::word::Word;
use rl_trace::value::Val;

/// True of a callee that lends the object of its last link.
#[cycle(lending)]
#[tactic(auto, using(rl_syntax::proofs::Layers::by_layer))]
pub fn lends(tree: &Numbered) -> bool
    ensures { result ≡ shapes.lends (syntax tree.now) }
{
    match tree {
        Numbered::Node(_, word, parts) => match word {
            Word::Member => true,
            Word::Index => true,
            Word::Privatemember => true,
            Word::Chain => only_lends(parts.as_slice()),
            Word::Paren => only_lends(parts.as_slice()),
            Word::Nonnull => only_lends(parts.as_slice()),
            Word::As => first_lends(parts.as_slice()),
            Word::Satisfies => first_lends(parts.as_slice()),
            Word::Instantiate => first_lends(parts.as_slice()),
            Word::Assert => second_lends(parts.as_slice()),
            _ => false,
        },
        Numbered::List(_) => false,
        Numbered::Text(_) => false,
        Numbered::Number(_) => false,
        Numbered::Flag(_) => false,
        Numbered::Absent => false,
    }
}

/// True of one part that lends its object.
#[cycle(lending)]
fn only_lends(parts: &[Numbered]) -> bool
    ensures { result ≡ spec.only_lends (pieces_of (map syntax parts.now)) }
{
    match parts {
        [] => false,
        [expression] => lends(expression),
        [_first, _second, _parts @ ..] => false,
    }
}

/// True of parts whose first lends its object.
#[cycle(lending)]
fn first_lends(parts: &[Numbered]) -> bool
    ensures { result ≡ spec.first_lends (pieces_of (map syntax parts.now)) }
{
    match parts {
        [expression, _parts @ ..] => lends(expression),
        [] => false,
    }
}

/// True of two parts whose second lends its object.
#[cycle(lending)]
fn second_lends(parts: &[Numbered]) -> bool
    ensures { result ≡ spec.second_lends (pieces_of (map syntax parts.now)) }
{
    match parts {
        [] => false,
        [_type] => false,
        [_type, expression] => lends(expression),
        [_first, _second, _third, _parts @ ..] => false,
    }
}

/// Evaluates a construct with a callee, down to the callee. On `OutOfMemory`, an allocation failed.
fn evaluate_heading<'b>(
    run: &mut Run<'b>,
    heading: Heading<'b>,
    callee: ExpressionTree<'b>,
) -> Result<Control<'b>, OutOfMemory>
    ensures { IfOk result (λ c. trace_of c (state_of run.new)
        ≡ from (callees.heading_value (state_of run.old).scene heading.entry (syntax callee.entry.tree.now)) (state_of run.old)) }
{
    run.push(Frame::Head(heading))?;
    if lends(callee.tree) {
        Ok(Control::Callee(callee))
    } else {
        Ok(Control::Evaluate(callee))
    }
}

/// Evaluates a call, down to its callee. On `OutOfMemory`, an allocation failed.
pub fn evaluate_call<'b>(
    run: &mut Run<'b>,
    at: At,
    optional: bool,
    callee: ExpressionTree<'b>,
    arguments: ArgumentTrees<'b>,
) -> Result<Control<'b>, OutOfMemory>
    ensures { IfOk result (λ c. trace_of c (state_of run.new)
        ≡ from (eval (state_of run.old).scene (Node at word.Call (Then (Flag optional)
        (Then (syntax callee.entry.tree.now) (Then (Listed (among arguments.entry.trees.now)) End))))) (state_of run.old)) }
{
    let heading = Heading::Call {
        optional,
        arguments,
    };
    evaluate_heading(run, heading, callee)
}

/// Evaluates a tagged template, down to its tag. On `OutOfMemory`, an allocation failed.
pub fn evaluate_tagged<'b>(
    run: &mut Run<'b>,
    at: At,
    tag: ExpressionTree<'b>,
    template: TemplateLiteralTree<'b>,
) -> Result<Control<'b>, OutOfMemory>
    ensures { IfOk result (λ c. trace_of c (state_of run.new)
        ≡ from (eval (state_of run.old).scene (Node at word.Tagged (Then (syntax tag.entry.tree.now)
        (Then (syntax template.entry.tree.now) End)))) (state_of run.old)) }
{
    let template = template_literal_view(template);
    if !are_raw(template.quasis) {
        return Ok(Control::Waiting);
    }
    let heading = Heading::Tagged {
        quasis: template.quasis,
        expressions: template.expressions,
    };
    evaluate_heading(run, heading, tag)
}

/// Evaluates a callee that lends its object. On `OutOfMemory`, an allocation failed.
#[tactic(auto, using(rl_grammar::proofs::Viewing::viewing))]
pub fn evaluate_callee<'b>(
    run: &mut Run<'b>,
    tree: ExpressionTree<'b>,
) -> Result<Control<'b>, OutOfMemory>
    ensures { IfOk result (λ c. trace_of c (state_of run.new) ≡ trace_of (Control.Callee tree.entry) (state_of run.old)) }
{
    let (_at, word, parts) = node_of(tree.tree);
    match word {
        Word::Paren => Ok(Control::Callee(Tree::new(one(parts)))),
        Word::Nonnull => Ok(Control::Callee(Tree::new(one(parts)))),
        Word::As => Ok(Control::Callee(Tree::new(two(parts).0))),
        Word::Satisfies => Ok(Control::Callee(Tree::new(two(parts).0))),
        Word::Assert => Ok(Control::Callee(Tree::new(two(parts).1))),
        Word::Instantiate => Ok(Control::Callee(Tree::new(two(parts).0))),
        Word::Chain => {
            run.push(Frame::Chained { lends: true })?;
            Ok(Control::Callee(Tree::new(one(parts))))
        }
        Word::Member => {
            let (optional, object, property) = three(parts);
            let property = Property::Named(text_of(property));
            let optional = flag_of(optional);
            evaluate_property(run, optional, Tree::new(object), property, Use::Lend)
        }
        Word::Index => {
            let (optional, object, property) = three(parts);
            let property = Property::Computed(Tree::new(property));
            let optional = flag_of(optional);
            evaluate_property(run, optional, Tree::new(object), property, Use::Lend)
        }
        _ => Ok(Control::Waiting),
    }
}

/// Deletes a property. On `OutOfMemory`, an allocation failed.
#[tactic(auto, using(rl_grammar::proofs::Viewing::viewing))]
pub fn delete_property<'b>(
    run: &mut Run<'b>,
    tree: ExpressionTree<'b>,
) -> Result<Control<'b>, OutOfMemory>
    ensures { IfOk result (λ c. trace_of c (state_of run.new) ≡ trace_of (Control.Delete tree.entry) (state_of run.old)) }
{
    let (_at, word, parts) = node_of(tree.tree);
    match word {
        Word::Paren => Ok(Control::Delete(Tree::new(one(parts)))),
        Word::Member => {
            let (_optional, object, property) = three(parts);
            let property = Property::Named(text_of(property));
            evaluate_property(run, false, Tree::new(object), property, Use::Delete)
        }
        Word::Index => {
            let (_optional, object, property) = three(parts);
            let property = Property::Computed(Tree::new(property));
            evaluate_property(run, false, Tree::new(object), property, Use::Delete)
        }
        _ => Ok(Control::Waiting),
    }
}

/// Evaluates the arguments of a call of a function. On `OutOfMemory`, an allocation failed.
pub fn call<'b>(
    run: &mut Run<'b>,
    function: Val<'b>,
    arguments: ArgumentTrees<'b>,
) -> Result<Control<'b>, OutOfMemory>
    ensures { IfOk result (λ c. trace_of c (state_of run.new)
        ≡ trace_of (Control.Call function.entry arguments.entry) (state_of run.old)) }
{
    let what = Gather::Call {
        lent: false,
        arguments,
    };
    gather_one(run, what, Parts::Arguments(arguments), function)
}

/// Evaluates the arguments of a call of a function that an object lends itself to. On `OutOfMemory`, an allocation failed.
pub fn call_of<'b>(
    run: &mut Run<'b>,
    object: Val<'b>,
    function: Val<'b>,
    arguments: ArgumentTrees<'b>,
) -> Result<Control<'b>, OutOfMemory>
    ensures { IfOk result (λ c. trace_of c (state_of run.new)
        ≡ trace_of (Control.CallOf object.entry function.entry arguments.entry) (state_of run.old)) }
{
    let what = Gather::Call {
        lent: true,
        arguments,
    };
    gather_two(run, what, Parts::Arguments(arguments), object, function)
}

/// Goes on with a function that is called. On `OutOfMemory`, an allocation failed.
pub fn take_callee<'b>(
    run: &mut Run<'b>,
    heading: Heading<'b>,
    function: Val<'b>,
) -> Result<Control<'b>, OutOfMemory>
    ensures { IfOk result (λ c. trace_of c (state_of run.new)
        ≡ trace_of (Control.Value function.entry) (pushed (Frame.Head heading.entry) (state_of run.old))) }
{
    match heading {
        Heading::Call {
            optional,
            arguments,
        } => {
            let next = Control::Call {
                function,
                arguments,
            };
            if optional {
                run.choose_nullish(function, Control::Short, next)
            } else {
                Ok(next)
            }
        }
        Heading::Tagged {
            quasis,
            expressions,
        } => {
            let what = Gather::Tagged {
                quasis,
                expressions,
            };
            gather_one(run, what, Parts::Expressions(expressions), function)
        }
    }
}

/// Goes on with a function that is called, and with the object that lends itself to it. On `OutOfMemory`, an allocation failed.
pub fn take_pair<'b>(
    run: &mut Run<'b>,
    heading: Heading<'b>,
    object: Val<'b>,
    function: Val<'b>,
) -> Result<Control<'b>, OutOfMemory>
    ensures { IfOk result (λ c. trace_of c (state_of run.new)
        ≡ trace_of (Control.Pair object.entry function.entry) (pushed (Frame.Head heading.entry) (state_of run.old))) }
{
    match heading {
        Heading::Call {
            optional,
            arguments,
        } => {
            let next = Control::CallOf {
                object,
                function,
                arguments,
            };
            if optional {
                run.choose_nullish(function, Control::Short, next)
            } else {
                Ok(next)
            }
        }
        Heading::Tagged {
            quasis,
            expressions,
        } => {
            let what = Gather::Tagged {
                quasis,
                expressions,
            };
            gather_two(run, what, Parts::Expressions(expressions), object, function)
        }
    }
}

/// Ends a chain early.
pub fn cut_short<'b>(run: &mut Run<'b>, lends: bool) -> Control<'b>
    ensures { trace_of result (state_of run.new) ≡ runs (cut lends (state_of run.old).konts) (state_of run.old) }
{
    if lends {
        Control::Pair(Val::Undefined, Val::Undefined)
    } else {
        Control::Value(Val::Undefined)
    }
}

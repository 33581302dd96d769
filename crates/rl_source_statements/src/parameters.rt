//! The parameters and the body of a function.

ghost use Rattle.std.specs.Prelude.{◌≡◌, IfOk};
ghost use Rattle.rl_grammar.specs.Fields.{maybe};
ghost use Rattle.rl_model.specs.Functions as functions;
ghost use Rattle.rl_source_stack.specs.Controls.{from_normal, trace_of};
ghost use Rattle.rl_source_stack.specs.Frames.{take_rest};
ghost use Rattle.rl_source_stack.specs.Parts.{among, code_syntax};
ghost use Rattle.rl_source_stack.specs.States.{state_of};
ghost use Rattle.rl_trace.specs.Values.{shown};
ghost use Rattle.rl_source_statements.specs.Starts.{called};
ghost use Rattle.rl_syntax.specs.Syntax.{syntax};

use crate::bind::{bind_the_rest, value_or_default};
use crate::execute::evaluate_for;
use rl_ast::function::{
    ArrowBody, arrow_body_view, formal_parameter_view, formal_parameters_view, function_body_view,
};
use rl_base::error::OutOfMemory;
use rl_grammar::sort::{
    BindingRestElementTree, FormalParameterTree, FormalParameterTrees, FormalParametersTree,
    FunctionBodyTree,
};
use rl_hir::terminal::ReturnVariant;
use rl_machine::trace::Value;
use rl_source_stack::apart::{Binding, first_piece, later_pieces};
use rl_source_stack::behind::Following;
use rl_source_stack::control::Control;
use rl_source_stack::run::Run;
use rl_source_stack::stack::{Around, Code, Frame};
use rl_trace::value::Val;

/// Gives a parameter its argument, or its default. On `OutOfMemory`, an allocation failed.
fn take_argument<'b>(
    run: &mut Run<'b>,
    tree: FormalParameterTree<'b>,
    value: Val<'b>,
) -> Result<Control<'b>, OutOfMemory>
    ensures { IfOk result (λ c. trace_of c (state_of run.new)
        ≡ from_normal (functions.take_argument (state_of run.old).scene (syntax tree.entry.tree.now) (shown value.entry))
        (state_of run.old)) }
{
    let parameter = formal_parameter_view(tree);
    let pattern = Binding::Pattern(parameter.pattern);
    match parameter.default {
        None => Ok(Control::Bind(true, pattern, value)),
        Some(default) => {
            run.push(Frame::Following(Following::Bind {
                everywhere: true,
                pattern,
            }))?;
            value_or_default(run, value, default)
        }
    }
}

/// Gives the arguments that are left to the parameters that are left. On `OutOfMemory`, an allocation failed.
pub fn take_parameters<'b>(
    run: &mut Run<'b>,
    params: FormalParameterTrees<'b>,
    arguments: &'b [Value],
    rest: Option<BindingRestElementTree<'b>>,
) -> Result<Control<'b>, OutOfMemory>
    ensures { IfOk result (λ c. trace_of c (state_of run.new)
        ≡ from_normal (take_rest (state_of run.old).scene (among params.entry.trees.now) arguments.now
        (maybe rest.entry (λ t. syntax t.tree.now))) (state_of run.old)) }
{
    match params.split_first() {
        None => Ok(bind_the_rest(run, true, rest, first_piece(arguments))),
        Some((first, left)) => {
            run.push(Frame::Statement(Around::Parameters {
                params: left,
                arguments: later_pieces(arguments),
                rest,
            }))?;
            take_argument(run, first, first_piece(arguments))
        }
    }
}

/// Runs the statements of a body, whose end returns Undefined. On `OutOfMemory`, an allocation failed.
fn run_statements<'b>(
    run: &mut Run<'b>,
    tree: FunctionBodyTree<'b>,
) -> Result<Control<'b>, OutOfMemory>
    ensures { IfOk result (λ c. trace_of c (state_of run.new)
        ≡ from_normal (functions.run_body (state_of run.old).scene (syntax tree.entry.tree.now)) (state_of run.old)) }
{
    let body = function_body_view(tree);
    run.push(Frame::Statement(Around::End))?;
    run.push(Frame::Statement(Around::Statements {
        statements: body.statements,
    }))?;
    Ok(Control::Normal)
}

/// Runs the body of a function. On `OutOfMemory`, an allocation failed.
pub fn run_body<'b>(run: &mut Run<'b>, body: Code<'b>) -> Result<Control<'b>, OutOfMemory>
    ensures { IfOk result (λ c. trace_of c (state_of run.new)
        ≡ from_normal (functions.run_body (state_of run.old).scene (code_syntax body.entry)) (state_of run.old)) }
{
    match body {
        Code::Function(tree) => run_statements(run, tree),
        Code::Arrow(tree) => match arrow_body_view(tree) {
            ArrowBody::Body(tree) => run_statements(run, tree),
            ArrowBody::Expression(expression) => {
                let variant = ReturnVariant::Implicit;
                evaluate_for(run, Following::Return { variant }, expression)
            }
        },
    }
}

/// Starts a function: its parameters take the arguments, and then its body runs. On `OutOfMemory`, an allocation failed.
pub fn start_function<'b>(
    run: &mut Run<'b>,
    params: FormalParametersTree<'b>,
    arguments: &'b [Value],
    body: Code<'b>,
) -> Result<Control<'b>, OutOfMemory>
    ensures { IfOk result (λ c. trace_of c (state_of run.new)
        ≡ from_normal (called (state_of run.old).scene (syntax params.entry.tree.now) arguments.now (code_syntax body.entry))
        (state_of run.old)) }
{
    let params = formal_parameters_view(params);
    run.push(Frame::Statement(Around::Function { body }))?;
    run.push(Frame::Statement(Around::Parameters {
        params: params.items,
        arguments,
        rest: params.rest,
    }))?;
    Ok(Control::Normal)
}

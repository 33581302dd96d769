//! The run of a function by its source, over names, texts of JSX and a world that are given.

ghost use Rattle.std.specs.Prelude.{◌≡◌, IfOk};
ghost use Rattle.rl_ast.specs.FunctionNodes.{seen_function_node};
ghost use Rattle.rl_model.specs.Functions.{run_function, take_params};
ghost use Rattle.rl_names.specs.Functions.{body_in, params_in};
ghost use Rattle.rl_source_run.specs.Ends.{begun, ending_in, last_of};
ghost use Rattle.rl_source_stack.specs.Controls.{from_normal, trace_of};
ghost use Rattle.rl_source_stack.specs.Konts.{outermost};
ghost use Rattle.rl_source_stack.specs.Scenes.{scene_of};
ghost use Rattle.rl_source_stack.specs.States.{state_of};
ghost use Rattle.rl_source_statements.specs.Starts.{called};
ghost use Rattle.rl_syntax.specs.Syntax.{syntax};
ghost use Rattle.rl_trace.specs.Progress.{seen};
ghost use Rattle.rl_trace.specs.Shared.{world_of};

use crate::drive::{Ended, drive};
use rl_ast::function::formal_parameters_view;
use rl_ast::function_node::FunctionNode;
use rl_base::error::OutOfMemory;
use rl_grammar::sort::FormalParametersTree;
use rl_machine::trace::{Answer, Assignment, Ending, Trace, Value};
use rl_names::names::FunctionNames;
use rl_source_stack::control::Control;
use rl_source_stack::run::Run;
use rl_source_stack::stack::{Around, Code, Frame};
use rl_source_stack::texts::JsxTexts;
use rl_source_statements::parameters::start_function;
use rl_trace::progress::Progress;
use rl_trace::shared::{Numbers, Shared};
use std::alloc::Global;

/// Surroundings of a run: all that it depends on beside the function and its inputs.
#[derive(Clone, Copy)]
pub struct Surroundings<'b> {
    /// The names of the unit.
    pub names: FunctionNames<'b>,
    /// The entities and nodes by which the texts of JSX in the function are read.
    pub texts: JsxTexts<'b>,
    /// The variables that the function shares with others. Variables are symbols, whatever its numbers of symbols are.
    pub shared: Shared<'b>,
}

/// Inputs of a run.
#[derive(Clone, Copy)]
pub struct Inputs<'b> {
    /// The values of variables before the run. Later ones count, and variables without one are Undefined.
    pub start: &'b [Assignment],
    /// The arguments of the function. Those that are missing are Undefined.
    pub arguments: &'b [Value],
    /// The answers of the outside to the events of the run, in order.
    pub answers: &'b [Answer],
}

/// A run that begins. On `OutOfMemory`, an allocation failed.
fn begin<'b>(
    alloc: Global,
    around: Surroundings<'b>,
    inputs: Inputs<'b>,
) -> Result<Run<'b>, OutOfMemory>
    ensures { IfOk result (λ r. state_of r ≡ begun around.entry inputs.entry) }
{
    let shared = Shared {
        numbers: Numbers::Own,
        open: around.shared.open,
        kept: around.shared.kept,
    };
    // Each variable has an entry, so that a look-up takes constant time.
    let variables = around.names.resolver.semantic.bindings.symbols.as_slice();
    let mut progress = Progress::new(alloc, shared, inputs.answers, variables.len())?;
    progress.begin(inputs.start)?;
    Ok(Run {
        names: around.names,
        texts: around.texts,
        progress,
        stack: Vec::new(alloc),
    })
}

/// Gives the arguments to the parameters of a function without a body. On `OutOfMemory`, an allocation failed.
fn start_bodiless<'b>(
    run: &mut Run<'b>,
    params: FormalParametersTree<'b>,
    arguments: &'b [Value],
) -> Result<Control<'b>, OutOfMemory>
    ensures { IfOk result (λ c. trace_of c (state_of run.new) ≡ from_normal (take_params (state_of run.old).scene (syntax params.entry.tree.now) arguments.now) (state_of run.old)) }
{
    let params = formal_parameters_view(params);
    run.push(Frame::Statement(Around::Parameters {
        params: params.items,
        arguments,
        rest: params.rest,
    }))?;
    Ok(Control::Normal)
}

/// Starts a function. One without a body waits behind its parameters. On `OutOfMemory`, an allocation failed.
fn start_node<'b>(
    run: &mut Run<'b>,
    function: FunctionNode<'b>,
    arguments: &'b [Value],
) -> Result<Control<'b>, OutOfMemory>
    requires { (state_of run.now).konts ≡ outermost }
    ensures { IfOk result (λ c. trace_of c (state_of run.new) ≡ from_normal (called (state_of run.old).scene (params_in (seen_function_node function.entry)) arguments.now (body_in (seen_function_node function.entry))) (state_of run.old)) }
{
    match function {
        FunctionNode::Arrow(arrow) => {
            start_function(run, arrow.params, arguments, Code::Arrow(arrow.body))
        }
        FunctionNode::Function(function) => match function.body {
            Some(body) => start_function(run, function.params, arguments, Code::Function(body)),
            None => start_bodiless(run, function.params, arguments),
        },
    }
}

/// The ending of a run. On `OutOfMemory`, an allocation failed.
fn ending_of<'b>(progress: &Progress<'b>, ended: Ended<'b>) -> Result<Ending, OutOfMemory>
    ensures { IfOk result (λ e. e ≡ ending_in (seen progress.now) ended.entry) }
{
    match ended {
        Ended::Returned(variant, value) => Ok(Ending::Returned {
            variant,
            value: value.copy(progress.alloc)?,
            kept: progress.kept()?,
        }),
        Ended::Threw(value) => Ok(Ending::Threw(value.copy(progress.alloc)?)),
        Ended::Waiting => Ok(Ending::Waiting),
    }
}

/// The trace of a run that has ended. On `OutOfMemory`, an allocation failed.
fn end<'b>(run: Run<'b>, ended: Ended<'b>) -> Result<Trace, OutOfMemory>
    ensures { IfOk result (λ t. t ≡ trace_of (last_of ended.entry) (state_of run.entry)) }
{
    let mut progress = run.progress;
    progress.shared = Shared {
        numbers: Numbers::Own,
        open: progress.shared.open,
        kept: progress.shared.kept,
    };
    let ending = ending_of(&progress, ended)?;
    Ok(progress.end(ending))
}

/// The trace of a function: the start store, the parameters, and then the body. On `OutOfMemory` an allocation failed, or the run did
/// not end within 2^64 steps.
pub fn run_in<'b>(
    alloc: Global,
    around: Surroundings<'b>,
    function: FunctionNode<'b>,
    inputs: Inputs<'b>,
) -> Result<Trace, OutOfMemory>
    ensures { IfOk result (λ t. t ≡ run_function (scene_of around.entry.names around.entry.texts (world_of around.entry.shared)) (seen_function_node function.entry) inputs.entry.start.now inputs.entry.arguments.now inputs.entry.answers.now) }
{
    let mut run = begin(alloc, around, inputs)?;
    let control = start_node(&mut run, function, inputs.arguments)?;
    let ended = drive(&mut run, control)?;
    end(run, ended)
}

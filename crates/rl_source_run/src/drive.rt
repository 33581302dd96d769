//! The loop of a run: one step after the other, over a stack of frames.

ghost use Rattle.std.specs.Prelude.{◌≡◌, IfOk};
ghost use Rattle.rl_source_run.specs.Ends.{last_of};
ghost use Rattle.rl_source_stack.specs.Controls.{trace_of};
ghost use Rattle.rl_source_stack.specs.States.{state_of};

use rl_base::error::OutOfMemory;
use rl_hir::terminal::ReturnVariant;
use rl_source_expressions::calls::{call, call_of, delete_property, evaluate_callee};
use rl_source_expressions::evaluate::evaluate;
use rl_source_expressions::properties::link;
use rl_source_expressions::targets::assign_to;
use rl_source_frames::through::{
    with_break, with_continue, with_normal, with_pair, with_pieces, with_short, with_throw,
    with_value,
};
use rl_source_gather::jsx::{evaluate_element, evaluate_fragment};
use rl_source_stack::control::Control;
use rl_source_stack::run::Run;
use rl_source_statements::bind::bind;
use rl_source_statements::cases::{execute_case, find_default, try_case};
use rl_source_statements::declare::declare_variables;
use rl_source_statements::execute::{execute, execute_block};
use rl_source_statements::loops::{make_turn, run_body_of_loop, take_head};
use rl_trace::value::Val;

/// Endings of a run.
#[derive(Clone, Copy)]
pub enum Ended<'b> {
    /// The function has returned.
    Returned(ReturnVariant, Val<'b>),
    /// The function has thrown.
    Threw(Val<'b>),
    /// No answer is left, or a part has no meaning.
    Waiting,
}

/// Makes one step of a run. On `OutOfMemory`, an allocation failed.
fn advance<'b>(run: &mut Run<'b>, control: Control<'b>) -> Result<Control<'b>, OutOfMemory>
    ensures { IfOk result (λ c. trace_of c (state_of run.new) ≡ trace_of control.entry (state_of run.old)) }
{
    match control {
        Control::Evaluate(tree) => evaluate(run, tree),
        Control::Element(tree) => evaluate_element(run, tree),
        Control::Fragment(tree) => evaluate_fragment(run, tree),
        Control::Callee(tree) => evaluate_callee(run, tree),
        Control::Delete(tree) => delete_property(run, tree),
        Control::Link {
            property,
            then,
            object,
        } => link(run, property, then, object),
        Control::Call {
            function,
            arguments,
        } => call(run, function, arguments),
        Control::CallOf {
            object,
            function,
            arguments,
        } => call_of(run, object, function, arguments),
        Control::Execute(label, tree) => execute(run, label, tree),
        Control::Block(tree) => execute_block(run, tree),
        Control::Variables(tree) => declare_variables(run, tree),
        Control::Turn(turns) => make_turn(run, turns),
        Control::Body(turns) => run_body_of_loop(run, turns),
        Control::Bind(everywhere, binding, value) => bind(run, everywhere, binding, value),
        Control::AssignTo(target, value) => assign_to(run, target, value),
        Control::TakeHead(head, value) => Ok(take_head(run, head, value)),
        Control::Cases(value, left, all) => try_case(run, value, left, all),
        Control::Case(statements, cases) => execute_case(run, statements, cases),
        Control::Default(cases) => Ok(find_default(run, cases)),
        Control::Value(value) => with_value(run, value),
        Control::Pair(object, function) => with_pair(run, object, function),
        Control::Pieces(pieces) => with_pieces(run, pieces),
        Control::Normal => with_normal(run),
        Control::Throw(value) => with_throw(run, value),
        Control::Break(label) => Ok(with_break(run, label)),
        Control::Continue(label) => with_continue(run, label),
        Control::Short => Ok(with_short(run)),
        Control::Returned(variant, value) => Ok(Control::Returned(variant, value)),
        Control::Threw(value) => Ok(Control::Threw(value)),
        Control::Waiting => Ok(Control::Waiting),
    }
}

/// Runs to the end. On `OutOfMemory` an allocation failed, or the run has 2^64 steps.
pub fn drive<'b>(run: &mut Run<'b>, control: Control<'b>) -> Result<Ended<'b>, OutOfMemory>
    ensures { IfOk result (λ e. trace_of (last_of e) (state_of run.new) ≡ trace_of control.entry (state_of run.old)) }
{
    let mut now = control;
    'steps: for _ in 0..u64::MAX {
        match now {
            Control::Returned(variant, value) => return Ok(Ended::Returned(variant, value)),
            Control::Threw(value) => return Ok(Ended::Threw(value)),
            Control::Waiting => return Ok(Ended::Waiting),
            _ => {
                now = advance(run, now)?;
            }
        }
    }
    Err(OutOfMemory)
}

//! Steps of a run in its innermost frame: with a value, with the pieces of one, behind a statement, and with what leaves it.

ghost use Rattle.std.specs.Prelude.{◌≡◌, IfOk};
ghost use Rattle.rl_source_stack.specs.Controls.{trace_of};
ghost use Rattle.rl_source_stack.specs.States.{state_of};

use rl_base::error::OutOfMemory;
use rl_base::text::Text;
use rl_machine::trace::Value;
use rl_source_expressions::calls::{cut_short, take_callee, take_pair};
use rl_source_expressions::take::take_value;
use rl_source_expressions::targets::{assign_parts, receive};
use rl_source_gather::gather::take_given;
use rl_source_stack::apart::Apart;
use rl_source_stack::control::Control;
use rl_source_stack::run::Run;
use rl_source_stack::stack::Frame;
use rl_source_statements::bind::bind_parts;
use rl_source_statements::finish::finish;
use rl_source_statements::leave::{leave_broken, leave_continued, leave_thrown};
use rl_source_statements::take::take_in_statement;
use rl_trace::value::Val;

/// Goes on with a value, in the innermost frame. On `OutOfMemory`, an allocation failed.
pub fn with_value<'b>(run: &mut Run<'b>, value: Val<'b>) -> Result<Control<'b>, OutOfMemory>
    ensures { IfOk result (λ c. trace_of c (state_of run.new) ≡ trace_of (Control.Value value.entry) (state_of run.old)) }
{
    match run.pop() {
        Some(Frame::Value(behind)) => take_value(run, behind, value),
        Some(Frame::Following(following)) => take_in_statement(run, following, value),
        Some(Frame::Head(heading)) => take_callee(run, heading, value),
        Some(
            Frame::Given {
                gather,
                pending,
                left,
                given,
            },
        ) => take_given(run, gather, pending, left, given, value),
        Some(Frame::Statement(_)) => Ok(Control::Value(value)),
        Some(Frame::Target(_)) => Ok(Control::Value(value)),
        Some(Frame::Pieces(_)) => Ok(Control::Value(value)),
        Some(Frame::Chained { .. }) => Ok(Control::Value(value)),
        None => Ok(Control::Waiting),
    }
}

/// Goes on with a function, behind the object that lends itself to it. On `OutOfMemory`, an allocation failed.
pub fn with_pair<'b>(
    run: &mut Run<'b>,
    object: Val<'b>,
    function: Val<'b>,
) -> Result<Control<'b>, OutOfMemory>
    ensures { IfOk result (λ c. trace_of c (state_of run.new) ≡ trace_of (Control.Pair object.entry function.entry) (state_of run.old)) }
{
    match run.pop() {
        Some(Frame::Head(heading)) => take_pair(run, heading, object, function),
        Some(Frame::Value(_)) => Ok(Control::Pair(object, function)),
        Some(Frame::Following(_)) => Ok(Control::Pair(object, function)),
        Some(Frame::Given { .. }) => Ok(Control::Pair(object, function)),
        Some(Frame::Statement(_)) => Ok(Control::Pair(object, function)),
        Some(Frame::Target(_)) => Ok(Control::Pair(object, function)),
        Some(Frame::Pieces(_)) => Ok(Control::Pair(object, function)),
        Some(Frame::Chained { .. }) => Ok(Control::Pair(object, function)),
        None => Ok(Control::Waiting),
    }
}

/// Goes on with the pieces of a value. On `OutOfMemory`, an allocation failed.
pub fn with_pieces<'b>(run: &mut Run<'b>, pieces: &'b [Value]) -> Result<Control<'b>, OutOfMemory>
    ensures { IfOk result (λ c. trace_of c (state_of run.new) ≡ trace_of (Control.Pieces pieces.entry) (state_of run.old)) }
{
    match run.pop() {
        Some(
            Frame::Pieces(
                Apart::Bind {
                    everywhere,
                    items,
                    rest,
                },
            ),
        ) => bind_parts(run, everywhere, items, pieces, rest),
        Some(Frame::Pieces(Apart::Assign { items, rest })) => {
            assign_parts(run, items, pieces, rest)
        }
        Some(Frame::Value(_)) => Ok(Control::Pieces(pieces)),
        Some(Frame::Following(_)) => Ok(Control::Pieces(pieces)),
        Some(Frame::Head(_)) => Ok(Control::Pieces(pieces)),
        Some(Frame::Given { .. }) => Ok(Control::Pieces(pieces)),
        Some(Frame::Statement(_)) => Ok(Control::Pieces(pieces)),
        Some(Frame::Target(_)) => Ok(Control::Pieces(pieces)),
        Some(Frame::Chained { .. }) => Ok(Control::Pieces(pieces)),
        None => Ok(Control::Waiting),
    }
}

/// Goes on behind a part that has completed normally. On `OutOfMemory`, an allocation failed.
pub fn with_normal<'b>(run: &mut Run<'b>) -> Result<Control<'b>, OutOfMemory>
    ensures { IfOk result (λ c. trace_of c (state_of run.new) ≡ trace_of Control.Normal (state_of run.old)) }
{
    match run.pop() {
        Some(Frame::Statement(around)) => finish(run, around),
        Some(Frame::Target(receiving)) => receive(run, receiving),
        Some(Frame::Value(_)) => Ok(Control::Normal),
        Some(Frame::Following(_)) => Ok(Control::Normal),
        Some(Frame::Head(_)) => Ok(Control::Normal),
        Some(Frame::Given { .. }) => Ok(Control::Normal),
        Some(Frame::Pieces(_)) => Ok(Control::Normal),
        Some(Frame::Chained { .. }) => Ok(Control::Normal),
        None => Ok(Control::Waiting),
    }
}

/// Throws a value through the innermost frame. On `OutOfMemory`, an allocation failed.
pub fn with_throw<'b>(run: &mut Run<'b>, value: Val<'b>) -> Result<Control<'b>, OutOfMemory>
    ensures { IfOk result (λ c. trace_of c (state_of run.new) ≡ trace_of (Control.Throw value.entry) (state_of run.old)) }
{
    match run.pop() {
        Some(Frame::Statement(around)) => leave_thrown(run, around, value),
        Some(Frame::Value(_)) => Ok(Control::Throw(value)),
        Some(Frame::Following(_)) => Ok(Control::Throw(value)),
        Some(Frame::Target(_)) => Ok(Control::Throw(value)),
        Some(Frame::Pieces(_)) => Ok(Control::Throw(value)),
        Some(Frame::Head(_)) => Ok(Control::Throw(value)),
        Some(Frame::Given { .. }) => Ok(Control::Throw(value)),
        Some(Frame::Chained { .. }) => Ok(Control::Throw(value)),
        None => Ok(Control::Threw(value)),
    }
}

/// Breaks out through the innermost frame.
pub fn with_break<'b>(run: &mut Run<'b>, jump: Option<&'b Text>) -> Control<'b>
    ensures { trace_of result (state_of run.new) ≡ trace_of (Control.Break jump.entry) (state_of run.old) }
{
    match run.pop() {
        Some(Frame::Statement(around)) => leave_broken(run, around, jump),
        Some(Frame::Value(_)) => Control::Break(jump),
        Some(Frame::Following(_)) => Control::Break(jump),
        Some(Frame::Target(_)) => Control::Break(jump),
        Some(Frame::Pieces(_)) => Control::Break(jump),
        Some(Frame::Head(_)) => Control::Break(jump),
        Some(Frame::Given { .. }) => Control::Break(jump),
        Some(Frame::Chained { .. }) => Control::Break(jump),
        None => Control::Waiting,
    }
}

/// Continues a loop through the innermost frame. On `OutOfMemory`, an allocation failed.
pub fn with_continue<'b>(
    run: &mut Run<'b>,
    jump: Option<&'b Text>,
) -> Result<Control<'b>, OutOfMemory>
    ensures { IfOk result (λ c. trace_of c (state_of run.new) ≡ trace_of (Control.Continue jump.entry) (state_of run.old)) }
{
    match run.pop() {
        Some(Frame::Statement(around)) => leave_continued(run, around, jump),
        Some(Frame::Value(_)) => Ok(Control::Continue(jump)),
        Some(Frame::Following(_)) => Ok(Control::Continue(jump)),
        Some(Frame::Target(_)) => Ok(Control::Continue(jump)),
        Some(Frame::Pieces(_)) => Ok(Control::Continue(jump)),
        Some(Frame::Head(_)) => Ok(Control::Continue(jump)),
        Some(Frame::Given { .. }) => Ok(Control::Continue(jump)),
        Some(Frame::Chained { .. }) => Ok(Control::Continue(jump)),
        None => Ok(Control::Waiting),
    }
}

/// Ends a chain early, through the innermost frame.
pub fn with_short<'b>(run: &mut Run<'b>) -> Control<'b>
    ensures { trace_of result (state_of run.new) ≡ trace_of Control.Short (state_of run.old) }
{
    match run.pop() {
        Some(Frame::Chained { lends }) => cut_short(run, lends),
        Some(Frame::Value(_)) => Control::Short,
        Some(Frame::Following(_)) => Control::Short,
        Some(Frame::Statement(_)) => Control::Short,
        Some(Frame::Target(_)) => Control::Short,
        Some(Frame::Pieces(_)) => Control::Short,
        Some(Frame::Head(_)) => Control::Short,
        Some(Frame::Given { .. }) => Control::Short,
        None => Control::Waiting,
    }
}

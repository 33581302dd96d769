//! Jumps and throws through what stands around a statement.

ghost use Rattle.std.specs.Prelude.{◌≡◌, IfOk};
ghost use Rattle.rl_model.specs.Actions as actions;
ghost use Rattle.rl_source_stack.specs.Controls.{trace_of};
ghost use Rattle.rl_source_stack.specs.Parts.{label_of};
ghost use Rattle.rl_source_stack.specs.States.{pushed, state_of};

use crate::loops::go_on_with_loop;
use rl_base::error::OutOfMemory;
use rl_base::text::Text;
use rl_source_stack::apart::Binding;
use rl_source_stack::control::Control;
use rl_source_stack::run::Run;
use rl_source_stack::stack::{Around, Frame};
use rl_trace::value::Val;

/// Goes on around a statement that throws. On `OutOfMemory`, an allocation failed.
pub fn leave_thrown<'b>(
    run: &mut Run<'b>,
    around: Around<'b>,
    value: Val<'b>,
) -> Result<Control<'b>, OutOfMemory>
    ensures { IfOk result (λ c. trace_of c (state_of run.new)
        ≡ trace_of (Control.Throw value.entry) (pushed (Frame.Statement around.entry) (state_of run.old))) }
{
    match around {
        Around::Try { param, body } => match param {
            Some(param) => {
                run.push(Frame::Statement(Around::Catch { body }))?;
                Ok(Control::Bind(true, Binding::Pattern(param), value))
            }
            None => Ok(Control::Block(body)),
        },
        Around::Statements { .. } => Ok(Control::Throw(value)),
        Around::Declarators { .. } => Ok(Control::Throw(value)),
        Around::Body { .. } => Ok(Control::Throw(value)),
        Around::Head { .. } => Ok(Control::Throw(value)),
        Around::For { .. } => Ok(Control::Throw(value)),
        Around::Catch { .. } => Ok(Control::Throw(value)),
        Around::Breakable => Ok(Control::Throw(value)),
        Around::Labeled { .. } => Ok(Control::Throw(value)),
        Around::Cases { .. } => Ok(Control::Throw(value)),
        Around::Bindings { .. } => Ok(Control::Throw(value)),
        Around::Parameters { .. } => Ok(Control::Throw(value)),
        Around::Function { .. } => Ok(Control::Throw(value)),
        Around::End => Ok(Control::Throw(value)),
    }
}

/// Goes on around a statement that breaks out.
pub fn leave_broken<'b>(run: &Run<'b>, around: Around<'b>, jump: Option<&'b Text>) -> Control<'b>
    ensures { trace_of result (state_of run.now)
        ≡ trace_of (Control.Break jump.entry) (pushed (Frame.Statement around.entry) (state_of run.now)) }
{
    match around {
        Around::Breakable => match jump {
            Some(label) => Control::Break(Some(label)),
            None => Control::Normal,
        },
        Around::Labeled { label } => match jump {
            Some(jump) => {
                if label.as_str() == jump.as_str() {
                    return Control::Normal;
                }
                Control::Break(Some(jump))
            }
            None => Control::Break(None),
        },
        Around::Statements { .. } => Control::Break(jump),
        Around::Declarators { .. } => Control::Break(jump),
        Around::Body { .. } => Control::Break(jump),
        Around::Head { .. } => Control::Break(jump),
        Around::For { .. } => Control::Break(jump),
        Around::Try { .. } => Control::Break(jump),
        Around::Catch { .. } => Control::Break(jump),
        Around::Cases { .. } => Control::Break(jump),
        Around::Bindings { .. } => Control::Break(jump),
        Around::Parameters { .. } => Control::Break(jump),
        Around::Function { .. } => Control::Break(jump),
        Around::End => Control::Break(jump),
    }
}

/// True of a `continue` without a label, or to the label of the loop.
fn is_own(own: Option<&Text>, jump: Option<&Text>) -> bool
    ensures { result ≡ actions.is_own (label_of own.entry) (label_of jump.entry) }
{
    match jump {
        None => true,
        Some(jump) => match own {
            None => false,
            Some(own) => own.as_str() == jump.as_str(),
        },
    }
}

/// Goes on around a statement that continues a loop. On `OutOfMemory`, an allocation failed.
pub fn leave_continued<'b>(
    run: &mut Run<'b>,
    around: Around<'b>,
    jump: Option<&'b Text>,
) -> Result<Control<'b>, OutOfMemory>
    ensures { IfOk result (λ c. trace_of c (state_of run.new)
        ≡ trace_of (Control.Continue jump.entry) (pushed (Frame.Statement around.entry) (state_of run.old))) }
{
    match around {
        Around::Body { turns } => {
            if is_own(turns.own, jump) {
                return go_on_with_loop(run, turns);
            }
            Ok(Control::Continue(jump))
        }
        Around::Labeled { label } => match jump {
            Some(jump) => {
                if label.as_str() == jump.as_str() {
                    return Ok(Control::Waiting);
                }
                Ok(Control::Continue(Some(jump)))
            }
            None => Ok(Control::Continue(None)),
        },
        Around::Statements { .. } => Ok(Control::Continue(jump)),
        Around::Declarators { .. } => Ok(Control::Continue(jump)),
        Around::Head { .. } => Ok(Control::Continue(jump)),
        Around::For { .. } => Ok(Control::Continue(jump)),
        Around::Try { .. } => Ok(Control::Continue(jump)),
        Around::Catch { .. } => Ok(Control::Continue(jump)),
        Around::Breakable => Ok(Control::Continue(jump)),
        Around::Cases { .. } => Ok(Control::Continue(jump)),
        Around::Bindings { .. } => Ok(Control::Continue(jump)),
        Around::Parameters { .. } => Ok(Control::Continue(jump)),
        Around::Function { .. } => Ok(Control::Continue(jump)),
        Around::End => Ok(Control::Continue(jump)),
    }
}

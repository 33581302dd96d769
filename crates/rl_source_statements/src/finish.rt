//! Continuations behind a part of a statement that has completed normally.

ghost use Rattle.std.specs.Prelude.{◌≡◌, IfOk};
ghost use Rattle.rl_source_stack.specs.Controls.{trace_of};
ghost use Rattle.rl_source_stack.specs.States.{pushed, state_of};

use crate::bind::bind_parts;
use crate::cases::{next_case, next_statement};
use crate::declare::declare_next;
use crate::loops::{go_on_with_loop, start_loop};
use crate::parameters::{run_body, take_parameters};
use rl_base::error::OutOfMemory;
use rl_hir::terminal::ReturnVariant;
use rl_source_stack::behind::Loop;
use rl_source_stack::control::Control;
use rl_source_stack::run::Run;
use rl_source_stack::stack::{Around, Frame};
use rl_trace::value::Val;

/// Goes on around a statement that has completed normally. On `OutOfMemory`, an allocation failed.
pub fn finish<'b>(run: &mut Run<'b>, around: Around<'b>) -> Result<Control<'b>, OutOfMemory>
    ensures { IfOk result (λ c. trace_of c (state_of run.new)
        ≡ trace_of Control.Normal (pushed (Frame.Statement around.entry) (state_of run.old))) }
{
    match around {
        Around::Statements { statements } => next_statement(run, statements),
        Around::Declarators { declarators } => declare_next(run, declarators),
        Around::Body { turns } => go_on_with_loop(run, turns),
        Around::Head { turns } => Ok(Control::Body(turns)),
        Around::For {
            own,
            condition,
            update,
            body,
        } => {
            let parts = Loop::For {
                condition,
                update,
                body,
            };
            start_loop(run, own, parts)
        }
        Around::Try { .. } => Ok(Control::Normal),
        Around::Catch { body } => Ok(Control::Block(body)),
        Around::Breakable => Ok(Control::Normal),
        Around::Labeled { .. } => Ok(Control::Normal),
        Around::Cases { cases } => Ok(next_case(run, cases)),
        Around::Bindings {
            everywhere,
            items,
            pieces,
            rest,
        } => bind_parts(run, everywhere, items, pieces, rest),
        Around::Parameters {
            params,
            arguments,
            rest,
        } => take_parameters(run, params, arguments, rest),
        Around::Function { body } => run_body(run, body),
        Around::End => Ok(Control::Returned(ReturnVariant::Void, Val::Undefined)),
    }
}

//! Continuations of values in statements.

ghost use Rattle.std.specs.Prelude.{◌≡◌, IfOk};
ghost use Rattle.rl_source_stack.specs.Controls.{trace_of};
ghost use Rattle.rl_source_stack.specs.States.{pushed, state_of};

use crate::cases::start_switch;
use crate::loops::{start_loop, take_item};
use rl_base::error::OutOfMemory;
use rl_base::text::Text;
use rl_grammar::sort::{ForHeadTree, StatementTree};
use rl_source_shapes::events::get_iterator_event;
use rl_source_stack::behind::{Following, Loop, Turns};
use rl_source_stack::control::Control;
use rl_source_stack::run::Run;
use rl_source_stack::stack::Frame;
use rl_trace::value::Val;

/// Goes on behind the test of an `if`. On `OutOfMemory`, an allocation failed.
fn take_condition<'b>(
    run: &mut Run<'b>,
    consequent: StatementTree<'b>,
    alternate: Option<StatementTree<'b>>,
    value: Val<'b>,
) -> Result<Control<'b>, OutOfMemory>
    ensures { IfOk result (λ c. trace_of c (state_of run.new)
        ≡ trace_of (Control.Value value.entry) (pushed (Frame.Following (Following.If consequent.entry alternate.entry))
        (state_of run.old))) }
{
    let yes = Control::Execute(None, consequent);
    match alternate {
        Some(alternate) => run.choose_truthy(value, yes, Control::Execute(None, alternate)),
        None => run.choose_truthy(value, yes, Control::Normal),
    }
}

/// Goes on behind the test of a loop. On `OutOfMemory`, an allocation failed.
fn take_test<'b>(
    run: &mut Run<'b>,
    turns: Turns<'b>,
    value: Val<'b>,
) -> Result<Control<'b>, OutOfMemory>
    ensures { IfOk result (λ c. trace_of c (state_of run.new)
        ≡ trace_of (Control.Value value.entry) (pushed (Frame.Following (Following.Test turns.entry)) (state_of run.old))) }
{
    match turns.parts {
        Loop::DoWhile { .. } => run.choose_truthy(value, Control::Turn(turns), Control::Normal),
        Loop::While { .. } => run.choose_truthy(value, Control::Body(turns), Control::Normal),
        Loop::For { .. } => run.choose_truthy(value, Control::Body(turns), Control::Normal),
        Loop::ForIn { .. } => run.choose_truthy(value, Control::Body(turns), Control::Normal),
        Loop::ForOf { .. } => run.choose_truthy(value, Control::Body(turns), Control::Normal),
    }
}

/// Asks for the iterator of the value whose items a `for`-`of` loop takes. On `OutOfMemory`, an allocation failed.
fn take_collection<'b>(
    run: &mut Run<'b>,
    own: Option<&'b Text>,
    head: ForHeadTree<'b>,
    body: StatementTree<'b>,
    collection: Val<'b>,
) -> Result<Control<'b>, OutOfMemory>
    ensures { IfOk result (λ c. trace_of c (state_of run.new)
        ≡ trace_of (Control.Value collection.entry) (pushed (Frame.Following (Following.ForOf own.entry head.entry body.entry))
        (state_of run.old))) }
{
    run.push(Frame::Following(Following::Iterator {
        own,
        head,
        collection,
        body,
    }))?;
    let event = get_iterator_event(run.progress.alloc, collection)?;
    run.ask_value(event)
}

/// Goes on with a value in a statement. On `OutOfMemory`, an allocation failed.
pub fn take_in_statement<'b>(
    run: &mut Run<'b>,
    behind: Following<'b>,
    value: Val<'b>,
) -> Result<Control<'b>, OutOfMemory>
    ensures { IfOk result (λ c. trace_of c (state_of run.new)
        ≡ trace_of (Control.Value value.entry) (pushed (Frame.Following behind.entry) (state_of run.old))) }
{
    match behind {
        Following::Ignore => Ok(Control::Normal),
        Following::Return { variant } => Ok(Control::Returned(variant, value)),
        Following::Throw => Ok(Control::Throw(value)),
        Following::Bind {
            everywhere,
            pattern,
        } => Ok(Control::Bind(everywhere, pattern, value)),
        Following::If {
            consequent,
            alternate,
        } => take_condition(run, consequent, alternate, value),
        Following::Test { turns } => take_test(run, turns, value),
        Following::Update { turns } => Ok(Control::Turn(turns)),
        Following::Item { turns } => take_item(run, turns, value),
        Following::ForIn { own, head, body } => {
            let parts = Loop::ForIn {
                head,
                collection: value,
                body,
            };
            start_loop(run, own, parts)
        }
        Following::ForOf { own, head, body } => take_collection(run, own, head, body, value),
        Following::Iterator {
            own,
            head,
            collection,
            body,
        } => {
            let parts = Loop::ForOf {
                head,
                iterator: value,
                collection,
                body,
            };
            start_loop(run, own, parts)
        }
        Following::Switch { cases } => start_switch(run, cases, value),
        Following::Case {
            value: compared,
            statements,
            cases,
            all,
        } => run.choose_match(
            compared,
            value,
            Control::Case(statements, cases),
            Control::Cases(compared, cases, all),
        ),
    }
}

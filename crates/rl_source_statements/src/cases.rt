//! The cases of a `switch`.

ghost use Rattle.std.specs.Prelude.{◌≡◌, IfOk};
ghost use Rattle.rl_model.specs.Statements.{exec_all, exec_cases};
ghost use Rattle.rl_source_stack.specs.Controls.{from_normal, trace_of};
ghost use Rattle.rl_source_stack.specs.Parts.{among};
ghost use Rattle.rl_source_stack.specs.States.{pushed, state_of};

use crate::execute::evaluate_for;
use rl_ast::statement_part::switch_case_view;
use rl_base::error::OutOfMemory;
use rl_grammar::sort::{StatementTrees, SwitchCaseTrees};
use rl_source_stack::behind::Following;
use rl_source_stack::control::Control;
use rl_source_stack::run::Run;
use rl_source_stack::stack::{Around, Frame};
use rl_trace::value::Val;

/// Starts the cases of a `switch`, with the value of its discriminant. On `OutOfMemory`, an allocation failed.
pub fn start_switch<'b>(
    run: &mut Run<'b>,
    cases: SwitchCaseTrees<'b>,
    value: Val<'b>,
) -> Result<Control<'b>, OutOfMemory>
    ensures { IfOk result (λ c. trace_of c (state_of run.new)
        ≡ trace_of (Control.Value value.entry) (pushed (Frame.Following (Following.Switch cases.entry)) (state_of run.old))) }
{
    run.push(Frame::Statement(Around::Breakable))?;
    Ok(Control::Cases(value, cases, cases))
}

/// Compares a value with the test of the first of the cases that are left. On `OutOfMemory`, an allocation failed.
pub fn try_case<'b>(
    run: &mut Run<'b>,
    value: Val<'b>,
    left: SwitchCaseTrees<'b>,
    all: SwitchCaseTrees<'b>,
) -> Result<Control<'b>, OutOfMemory>
    ensures { IfOk result (λ c. trace_of c (state_of run.new)
        ≡ trace_of (Control.Cases value.entry left.entry all.entry) (state_of run.old)) }
{
    match left.split_first() {
        None => Ok(Control::Default(all)),
        Some((first, cases)) => {
            let case = switch_case_view(first);
            match case.test {
                None => Ok(Control::Cases(value, cases, all)),
                Some(test) => {
                    let following = Following::Case {
                        value,
                        statements: case.consequent,
                        cases,
                        all,
                    };
                    evaluate_for(run, following, test)
                }
            }
        }
    }
}

/// Looks for the case without a test.
pub fn find_default<'b>(run: &Run<'b>, cases: SwitchCaseTrees<'b>) -> Control<'b>
    ensures { trace_of result (state_of run.now) ≡ trace_of (Control.Default cases.entry) (state_of run.now) }
{
    match cases.split_first() {
        None => Control::Normal,
        Some((first, left)) => {
            let case = switch_case_view(first);
            match case.test {
                None => Control::Case(case.consequent, left),
                Some(_test) => Control::Default(left),
            }
        }
    }
}

/// Executes the statements of a case, and of all behind it. On `OutOfMemory`, an allocation failed.
pub fn execute_case<'b>(
    run: &mut Run<'b>,
    statements: StatementTrees<'b>,
    cases: SwitchCaseTrees<'b>,
) -> Result<Control<'b>, OutOfMemory>
    ensures { IfOk result (λ c. trace_of c (state_of run.new) ≡ trace_of (Control.Case statements.entry cases.entry) (state_of run.old)) }
{
    run.push(Frame::Statement(Around::Cases { cases }))?;
    run.push(Frame::Statement(Around::Statements { statements }))?;
    Ok(Control::Normal)
}

/// Goes on behind the statements of a case.
pub fn next_case<'b>(run: &Run<'b>, cases: SwitchCaseTrees<'b>) -> Control<'b>
    ensures { trace_of result (state_of run.now)
        ≡ from_normal (exec_cases (state_of run.now).scene (among cases.entry.trees.now)) (state_of run.now) }
{
    match cases.split_first() {
        None => Control::Normal,
        Some((first, left)) => {
            let case = switch_case_view(first);
            Control::Case(case.consequent, left)
        }
    }
}

/// Goes on with the statements that are left. On `OutOfMemory`, an allocation failed.
pub fn next_statement<'b>(
    run: &mut Run<'b>,
    statements: StatementTrees<'b>,
) -> Result<Control<'b>, OutOfMemory>
    ensures { IfOk result (λ c. trace_of c (state_of run.new)
        ≡ from_normal (exec_all (state_of run.old).scene (among statements.entry.trees.now)) (state_of run.old)) }
{
    match statements.split_first() {
        None => Ok(Control::Normal),
        Some((first, left)) => {
            run.push(Frame::Statement(Around::Statements { statements: left }))?;
            Ok(Control::Execute(None, first))
        }
    }
}

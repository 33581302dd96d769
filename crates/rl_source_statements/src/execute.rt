//! Statements, down to their first parts.

ghost use Rattle.std.specs.Prelude.{◌≡◌, IfOk, Some, [], codes};
ghost use Rattle.rl_grammar.specs.Fields.{maybe};
ghost use Rattle.rl_model.specs.Actions.{ask};
ghost use Rattle.rl_model.specs.Events as events;
ghost use Rattle.rl_source_stack.specs.Controls.{from, from_normal, trace_of};
ghost use Rattle.rl_source_stack.specs.Parts.{label_of};
ghost use Rattle.rl_source_stack.specs.States.{pushed, state_of};
ghost use Rattle.rl_source_statements.specs.Starts.{iterating, returning, trying};
ghost use Rattle.rl_syntax.specs.Syntax.{syntax};

use crate::declare::declare_function;
use crate::loops::{start_for, start_loop};
use rl_ast::function_node::function_declaration_view;
use rl_ast::statement::{Statement, statement_view};
use rl_ast::statement_part::{block_statement_view, catch_clause_view};
use rl_base::error::OutOfMemory;
use rl_base::text::Text;
use rl_grammar::sort::{
    BlockStatementTree, CatchClauseTree, ExpressionTree, ForHeadTree, StatementTree,
};
use rl_hir::terminal::ReturnVariant;
use rl_source_shapes::events::bare_event;
use rl_source_stack::behind::{Following, Loop};
use rl_source_stack::control::Control;
use rl_source_stack::run::Run;
use rl_source_stack::stack::{Around, Frame};
use rl_trace::value::Val;

/// Evaluates an expression, of whose value a statement makes something. On `OutOfMemory`, an allocation failed.
pub fn evaluate_for<'b>(
    run: &mut Run<'b>,
    following: Following<'b>,
    expression: ExpressionTree<'b>,
) -> Result<Control<'b>, OutOfMemory>
    ensures { IfOk result (λ c. trace_of c (state_of run.new)
        ≡ trace_of (Control.Evaluate expression.entry) (pushed (Frame.Following following.entry) (state_of run.old))) }
{
    run.push(Frame::Following(following))?;
    Ok(Control::Evaluate(expression))
}

/// Returns the value of an expression, or Undefined. On `OutOfMemory`, an allocation failed.
fn execute_return<'b>(
    run: &mut Run<'b>,
    argument: Option<ExpressionTree<'b>>,
) -> Result<Control<'b>, OutOfMemory>
    ensures { IfOk result (λ c. trace_of c (state_of run.new)
        ≡ from_normal (returning (state_of run.old).scene (maybe argument.entry (λ t. syntax t.tree.now))) (state_of run.old)) }
{
    let variant = ReturnVariant::Explicit;
    match argument {
        Some(argument) => evaluate_for(run, Following::Return { variant }, argument),
        None => Ok(Control::Returned(variant, Val::Undefined)),
    }
}

/// Executes a `try`. One with `finally`, or without `catch`, has no meaning. On `OutOfMemory`, an allocation failed.
fn execute_try<'b>(
    run: &mut Run<'b>,
    block: BlockStatementTree<'b>,
    handler: Option<CatchClauseTree<'b>>,
    finalizer: Option<BlockStatementTree<'b>>,
) -> Result<Control<'b>, OutOfMemory>
    ensures { IfOk result (λ c. trace_of c (state_of run.new)
        ≡ from_normal (trying (state_of run.old).scene (syntax block.entry.tree.now) (maybe handler.entry (λ t. syntax t.tree.now))
        (maybe finalizer.entry (λ t. syntax t.tree.now))) (state_of run.old)) }
{
    match handler {
        Some(handler) => match finalizer {
            Some(_) => Ok(Control::Waiting),
            None => {
                let handler = catch_clause_view(handler);
                run.push(Frame::Statement(Around::Try {
                    param: handler.param,
                    body: handler.body,
                }))?;
                Ok(Control::Block(block))
            }
        },
        None => Ok(Control::Waiting),
    }
}

/// Executes the statements of a block. On `OutOfMemory`, an allocation failed.
pub fn execute_block<'b>(
    run: &mut Run<'b>,
    tree: BlockStatementTree<'b>,
) -> Result<Control<'b>, OutOfMemory>
    ensures { IfOk result (λ c. trace_of c (state_of run.new) ≡ trace_of (Control.Block tree.entry) (state_of run.old)) }
{
    let block = block_statement_view(tree);
    run.push(Frame::Statement(Around::Statements {
        statements: block.body,
    }))?;
    Ok(Control::Normal)
}

/// Executes a statement under a label. On `OutOfMemory`, an allocation failed.
fn execute_labeled<'b>(
    run: &mut Run<'b>,
    label: &'b Text,
    body: StatementTree<'b>,
) -> Result<Control<'b>, OutOfMemory>
    ensures { IfOk result (λ c. trace_of c (state_of run.new)
        ≡ trace_of (Control.Execute (Some label.entry) body.entry)
        (pushed (Frame.Statement (Around.Labeled label.entry)) (state_of run.old))) }
{
    run.push(Frame::Statement(Around::Labeled { label }))?;
    Ok(Control::Execute(Some(label), body))
}

/// Asks the event of a `debugger` statement. On `OutOfMemory`, an allocation failed.
fn execute_debugger<'b>(run: &mut Run<'b>) -> Result<Control<'b>, OutOfMemory>
    ensures { IfOk result (λ c. trace_of c (state_of run.new)
        ≡ from (ask (state_of run.old).scene (events.event (codes "debugger") [] []))
        (pushed (Frame.Following Following.Ignore) (state_of run.old))) }
{
    run.push(Frame::Following(Following::Ignore))?;
    let event = bare_event(run.progress.alloc, "debugger")?;
    run.ask_value(event)
}

/// Executes a `for`-`of` loop, up to the value whose items it takes. `for`-`await` has no meaning. On `OutOfMemory`, an allocation
/// failed.
fn execute_for_of<'b>(
    run: &mut Run<'b>,
    own: Option<&'b Text>,
    is_await: bool,
    head: ForHeadTree<'b>,
    right: ExpressionTree<'b>,
    body: StatementTree<'b>,
) -> Result<Control<'b>, OutOfMemory>
    ensures { IfOk result (λ c. trace_of c (state_of run.new)
        ≡ from_normal (iterating (state_of run.old).scene (label_of own.entry) is_await (syntax head.entry.tree.now)
        (syntax right.entry.tree.now) (syntax body.entry.tree.now)) (state_of run.old)) }
{
    if is_await {
        return Ok(Control::Waiting);
    }
    evaluate_for(run, Following::ForOf { own, head, body }, right)
}

/// Executes a statement, down to its first part. On `OutOfMemory`, an allocation failed.
pub fn execute<'b>(
    run: &mut Run<'b>,
    label: Option<&'b Text>,
    tree: StatementTree<'b>,
) -> Result<Control<'b>, OutOfMemory>
    ensures { IfOk result (λ c. trace_of c (state_of run.new) ≡ trace_of (Control.Execute label.entry tree.entry) (state_of run.old)) }
{
    let own = label;
    match statement_view(tree) {
        Statement::Empty { .. } => Ok(Control::Normal),
        Statement::TypeAlias { .. } => Ok(Control::Normal),
        Statement::Interface { .. } => Ok(Control::Normal),
        Statement::Namespace { .. } => Ok(Control::Normal),
        Statement::Debugger { .. } => execute_debugger(run),
        Statement::Expression { at: _, expression } => {
            evaluate_for(run, Following::Ignore, expression)
        }
        Statement::Return { at: _, argument } => execute_return(run, argument),
        Statement::Throw { at: _, argument } => evaluate_for(run, Following::Throw, argument),
        Statement::Block(block) => Ok(Control::Block(block)),
        Statement::If {
            at: _,
            test,
            consequent,
            alternate,
        } => {
            let following = Following::If {
                consequent,
                alternate,
            };
            evaluate_for(run, following, test)
        }
        Statement::For {
            at: _,
            init,
            test,
            update,
            body,
        } => start_for(run, own, init, test, update, body),
        Statement::While { at: _, test, body } => {
            let condition = test;
            start_loop(run, own, Loop::While { condition, body })
        }
        Statement::DoWhile { at: _, body, test } => {
            let condition = test;
            start_loop(run, own, Loop::DoWhile { body, condition })
        }
        Statement::ForIn {
            at: _,
            left: head,
            right,
            body,
        } => evaluate_for(run, Following::ForIn { own, head, body }, right),
        Statement::ForOf {
            at: _,
            is_await,
            left: head,
            right,
            body,
        } => execute_for_of(run, own, is_await, head, right, body),
        Statement::Switch {
            at: _,
            discriminant,
            cases,
        } => evaluate_for(run, Following::Switch { cases }, discriminant),
        Statement::Try {
            at: _,
            block,
            handler,
            finalizer,
        } => execute_try(run, block, handler, finalizer),
        Statement::Break { at: _, label } => Ok(Control::Break(label)),
        Statement::Continue { at: _, label } => Ok(Control::Continue(label)),
        Statement::Labeled { at: _, label, body } => execute_labeled(run, label, body),
        Statement::Variables(variables) => Ok(Control::Variables(variables)),
        Statement::Function(function) => {
            declare_function(run, function_declaration_view(function))
        }
        Statement::With { .. } => Ok(Control::Waiting),
        Statement::Class { .. } => Ok(Control::Waiting),
        Statement::Enum { .. } => Ok(Control::Waiting),
        Statement::Import { .. } => Ok(Control::Waiting),
        Statement::Export { .. } => Ok(Control::Waiting),
        Statement::ExportDefault { .. } => Ok(Control::Waiting),
        Statement::ExportList { .. } => Ok(Control::Waiting),
        Statement::ExportFrom { .. } => Ok(Control::Waiting),
    }
}

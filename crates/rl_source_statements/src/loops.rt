//! Loops: their turns, their bodies and their heads.

ghost use Rattle.std.specs.Prelude.{◌≡◌, IfOk};
ghost use Rattle.rl_grammar.specs.Fields.{maybe};
ghost use Rattle.rl_source_stack.specs.Controls.{from_normal, trace_of};
ghost use Rattle.rl_source_stack.specs.Loops as loops;
ghost use Rattle.rl_source_stack.specs.Parts.{label_of};
ghost use Rattle.rl_source_stack.specs.States.{pushed, state_of};
ghost use Rattle.rl_source_statements.specs.Starts.{IsHeadPattern, for_loop, looping};
ghost use Rattle.rl_syntax.specs.Syntax.{syntax};

use crate::declare::is_using;
use crate::execute::evaluate_for;
use rl_ast::statement_part::{
    ForHead, ForInit, for_head_view, for_init_view, variable_declaration_view,
    variable_declarator_view,
};
use rl_base::error::OutOfMemory;
use rl_base::text::Text;
use rl_grammar::sort::{
    ExpressionTree, ForHeadTree, ForInitTree, StatementTree, VariableDeclarationTree,
};
use rl_source_shapes::events::{next_event, next_key_event};
use rl_source_stack::apart::{Binding, Target};
use rl_source_stack::behind::{Following, Loop, Turns};
use rl_source_stack::control::Control;
use rl_source_stack::run::Run;
use rl_source_stack::stack::{Around, Frame};
use rl_trace::value::Val;

/// Starts a loop: it makes at most one turn more than there are answers. On `OutOfMemory`, an allocation failed.
pub fn start_loop<'b>(
    run: &mut Run<'b>,
    own: Option<&'b Text>,
    parts: Loop<'b>,
) -> Result<Control<'b>, OutOfMemory>
    ensures { IfOk result (λ c. trace_of c (state_of run.new)
        ≡ from_normal (looping (state_of run.old).scene (label_of own.entry) parts.entry) (state_of run.old)) }
{
    let most = run.progress.answers.len() + 1;
    run.push(Frame::Statement(Around::Breakable))?;
    Ok(Control::Turn(Turns { most, own, parts }))
}

/// Starts a `for` loop. One without a test, or with an expression in front, has no meaning. On `OutOfMemory`, an allocation failed.
pub fn start_for<'b>(
    run: &mut Run<'b>,
    own: Option<&'b Text>,
    init: Option<ForInitTree<'b>>,
    test: Option<ExpressionTree<'b>>,
    update: Option<ExpressionTree<'b>>,
    body: StatementTree<'b>,
) -> Result<Control<'b>, OutOfMemory>
    ensures { IfOk result (λ c. trace_of c (state_of run.new)
        ≡ from_normal (for_loop (state_of run.old).scene (label_of own.entry) (maybe init.entry (λ t. syntax t.tree.now))
        (maybe test.entry (λ t. syntax t.tree.now)) (maybe update.entry (λ t. syntax t.tree.now)) (syntax body.entry.tree.now))
        (state_of run.old)) }
{
    match test {
        None => Ok(Control::Waiting),
        Some(condition) => match init {
            None => {
                let parts = Loop::For {
                    condition,
                    update,
                    body,
                };
                start_loop(run, own, parts)
            }
            Some(init) => match for_init_view(init) {
                ForInit::Variables(variables) => {
                    run.push(Frame::Statement(Around::For {
                        own,
                        condition,
                        update,
                        body,
                    }))?;
                    Ok(Control::Variables(variables))
                }
                ForInit::Expression(_expression) => Ok(Control::Waiting),
            },
        },
    }
}

/// Makes the next turn of a loop, up to its first part. On `OutOfMemory`, an allocation failed.
pub fn make_turn<'b>(run: &mut Run<'b>, turns: Turns<'b>) -> Result<Control<'b>, OutOfMemory>
    ensures { IfOk result (λ c. trace_of c (state_of run.new) ≡ trace_of (Control.Turn turns.entry) (state_of run.old)) }
{
    let most = turns.most;
    if most == 0 {
        return Ok(Control::Waiting);
    }
    let own = turns.own;
    let parts = turns.parts;
    let left = Turns {
        most: most - 1,
        own,
        parts,
    };
    match parts {
        Loop::While { condition, body: _ } => {
            evaluate_for(run, Following::Test { turns: left }, condition)
        }
        Loop::DoWhile { .. } => Ok(Control::Body(left)),
        Loop::For {
            condition,
            update: _,
            body: _,
        } => evaluate_for(run, Following::Test { turns: left }, condition),
        Loop::ForIn {
            head: _,
            collection,
            body: _,
        } => {
            run.push(Frame::Following(Following::Item { turns: left }))?;
            let event = next_key_event(run.progress.alloc, collection)?;
            run.ask_next(event)
        }
        Loop::ForOf {
            head: _,
            iterator,
            collection,
            body: _,
        } => {
            run.push(Frame::Following(Following::Item { turns: left }))?;
            let event = next_event(run.progress.alloc, iterator, collection)?;
            run.ask_next(event)
        }
    }
}

/// The body of a loop.
fn body_of(parts: Loop<'_>) -> StatementTree<'_>
    ensures { syntax result.tree.now ≡ loops.body_in parts.entry }
{
    match parts {
        Loop::While { condition: _, body } => body,
        Loop::DoWhile { body, condition: _ } => body,
        Loop::For {
            condition: _,
            update: _,
            body,
        } => body,
        Loop::ForIn {
            head: _,
            collection: _,
            body,
        } => body,
        Loop::ForOf {
            head: _,
            iterator: _,
            collection: _,
            body,
        } => body,
    }
}

/// Runs the body of a turn. On `OutOfMemory`, an allocation failed.
pub fn run_body_of_loop<'b>(run: &mut Run<'b>, turns: Turns<'b>) -> Result<Control<'b>, OutOfMemory>
    ensures { IfOk result (λ c. trace_of c (state_of run.new) ≡ trace_of (Control.Body turns.entry) (state_of run.old)) }
{
    run.push(Frame::Statement(Around::Body { turns }))?;
    Ok(Control::Execute(None, body_of(turns.parts)))
}

/// Goes on behind the body of a turn. On `OutOfMemory`, an allocation failed.
pub fn go_on_with_loop<'b>(run: &mut Run<'b>, turns: Turns<'b>) -> Result<Control<'b>, OutOfMemory>
    ensures { IfOk result (λ c. trace_of c (state_of run.new)
        ≡ from_normal (loops.rest_of_loop (state_of run.old).scene turns.entry) (state_of run.old)) }
{
    match turns.parts {
        Loop::While { .. } => Ok(Control::Turn(turns)),
        Loop::DoWhile { body: _, condition } => {
            evaluate_for(run, Following::Test { turns }, condition)
        }
        Loop::For {
            condition: _,
            update,
            body: _,
        } => match update {
            Some(update) => evaluate_for(run, Following::Update { turns }, update),
            None => Ok(Control::Turn(turns)),
        },
        Loop::ForIn { .. } => Ok(Control::Turn(turns)),
        Loop::ForOf { .. } => Ok(Control::Turn(turns)),
    }
}

/// Gives the next key or item of a loop to its head. On `OutOfMemory`, an allocation failed.
pub fn take_item<'b>(
    run: &mut Run<'b>,
    turns: Turns<'b>,
    value: Val<'b>,
) -> Result<Control<'b>, OutOfMemory>
    ensures { IfOk result (λ c. trace_of c (state_of run.new)
        ≡ trace_of (Control.Value value.entry) (pushed (Frame.Following (Following.Item turns.entry)) (state_of run.old))) }
{
    match turns.parts {
        Loop::ForIn {
            head,
            collection: _,
            body: _,
        } => {
            run.push(Frame::Statement(Around::Head { turns }))?;
            Ok(Control::TakeHead(head, value))
        }
        Loop::ForOf {
            head,
            iterator: _,
            collection: _,
            body: _,
        } => {
            run.push(Frame::Statement(Around::Head { turns }))?;
            Ok(Control::TakeHead(head, value))
        }
        Loop::While { .. } => Ok(Control::Body(turns)),
        Loop::DoWhile { .. } => Ok(Control::Body(turns)),
        Loop::For { .. } => Ok(Control::Body(turns)),
    }
}

/// The pattern of a head's declaration. `None` where the declaration is no head: it has not one declarator, or is a `using`.
fn declared_in_head(tree: VariableDeclarationTree<'_>) -> Option<Binding<'_>>
    ensures { IsHeadPattern result (syntax tree.entry.tree.now) }
{
    let declaration = variable_declaration_view(tree);
    let (first, rest) = declaration.declarators.split_first()?;
    match rest.split_first() {
        Some(_) => None,
        None => {
            if is_using(declaration.kind) {
                return None;
            }
            let declarator = variable_declarator_view(first);
            Some(Binding::Pattern(declarator.pattern))
        }
    }
}

/// Gives a value to the head of a loop.
pub fn take_head<'b>(run: &Run<'b>, head: ForHeadTree<'b>, value: Val<'b>) -> Control<'b>
    ensures { trace_of result (state_of run.now) ≡ trace_of (Control.TakeHead head.entry value.entry) (state_of run.now) }
{
    match for_head_view(head) {
        ForHead::Variables(variables) => match declared_in_head(variables) {
            Some(pattern) => Control::Bind(true, pattern, value),
            None => Control::Waiting,
        },
        ForHead::Target(target) => Control::AssignTo(Target::Whole(target), value),
    }
}

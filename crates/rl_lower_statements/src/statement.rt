//! Lowering of statements, and of lists of them.

ghost use Rattle.std.specs.Prelude.{◌≡◌, map, OnOk, IfErr, None, Some};
ghost use Rattle.rl_syntax.specs.Syntax.{nodes, nodes_of, pieces_of, syntax};
ghost use Rattle.rl_ast.specs.StatementViews.{seen_statement};
ghost use Rattle.rl_builder.specs.Builder.{state_of};
ghost use Rattle.rl_lowered.specs.Arounds.{arounds};
ghost use Rattle.rl_lowered.specs.Named.{IsNamed};
ghost use Rattle.rl_lowered.specs.Promised.{HasRoom, LowersStatement, LowersStatements, share};
ghost use Rattle.rl_promises.specs.Lowerable.{AreLowerableIn, IsLowerable, IsLowerableIn};
ghost use Rattle.rl_names.specs.Seen.{seen};
ghost use Rattle.rl_runs.specs.Moves.{returned_from};

use crate::declaration::lower_variables;
use crate::jumps::{lower_break, lower_continue};
use crate::loops::{lower_labeled, lower_loop};
use crate::switch::lower_switch;
use crate::throw::lower_throw;
use crate::try_statement::lower_try;
use rl_ast::statement::{Statement, statement_view};
use rl_ast::statement_part::block_statement_view;
use rl_base::ids::EvaluationOrder;
use rl_base::row::Row;
use rl_base::span::Span;
use rl_base::stop::Stop;
use rl_builder::unit_tables::ReadsUnit;
use rl_frames::if_frame::IfFrame;
use rl_grammar::sort::{BlockStatementTree, ExpressionTree, StatementTree, StatementTrees};
use rl_hir::function::BlockKind;
use rl_hir::instruction::{InstructionValue, Place};
use rl_hir::terminal::{ReturnVariant, Terminal, TerminalKind};
use rl_lower_expressions::expression::lower_expression;
use rl_lower_parts::graph_builder::GraphBuilder;
use rl_lower_parts::span::span_of;
use rl_lower_parts::temporary::{lower_undefined, lower_value_to_temporary, refuse};
use rl_names::names::FunctionNames;
use rl_syntax::numbered::At;
use std::alloc::Global;

/// Ends the block by a return of a value, and goes on in a fresh block, which is unreachable.
fn end_by_return<U: ReadsUnit>(
    builder: &mut GraphBuilder<'_, U>,
    span: Span,
    value: Place,
) -> Result<(), Stop>
    requires { HasRoom (state_of U.tables builder.old) 1 }
    ensures same_reference { builder.new.env.ghost_name ≡ builder.old.env.ghost_name }
    ensures state { OnOk result (state_of U.tables builder.new ≡ returned_from (state_of U.tables builder.old) (Some span)
        ReturnVariant.Explicit value BlockKind.Block) }
    ensures memory { IfErr result (λ e. e ≡ Stop.OutOfMemory) }
{
    let next = builder.reserve(BlockKind::Block)?;
    builder.terminate_with_continuation(
        Terminal {
            order: EvaluationOrder(0),
            span: Some(span),
            kind: TerminalKind::Return {
                variant: ReturnVariant::Explicit,
                value,
            },
        },
        next,
    )?;
    Ok(())
}

/// Lowers a `return` statement.
fn lower_return<U: ReadsUnit>(
    alloc: Global,
    builder: &mut GraphBuilder<'_, U>,
    names: &FunctionNames<'_>,
    at: At,
    argument: Option<ExpressionTree<'_>>,
) -> Result<(), Stop>
    requires names { IsNamed (seen names.now) (state_of U.tables builder.old) }
    requires may { IsLowerable (seen names.now) (seen_statement (Statement.Return at argument)) }
    requires room { HasRoom (state_of U.tables builder.old) (share (nodes (seen_statement (Statement.Return at argument)))) }
    ensures same_reference { builder.new.env.ghost_name ≡ builder.old.env.ghost_name }
    ensures lowered { OnOk result (LowersStatement (seen names.now) (seen_statement (Statement.Return at argument.entry))
        (state_of U.tables builder.old) (state_of U.tables builder.new)) }
    ensures memory { IfErr result (λ e. e ≡ Stop.OutOfMemory) }
{
    match argument {
        Some(argument) => {
            let value = lower_expression(alloc, builder, names, argument)?;
            end_by_return(builder, at.span, value)
        }
        None => {
            let value = lower_undefined(builder, None)?;
            end_by_return(builder, at.span, value)
        }
    }
}

/// Lowers an `if` statement without an alternate: its consequent, and then its test.
#[cycle(statements)]
fn lower_if_then<U: ReadsUnit>(
    alloc: Global,
    builder: &mut GraphBuilder<'_, U>,
    names: &FunctionNames<'_>,
    at: At,
    test: ExpressionTree<'_>,
    consequent: StatementTree<'_>,
) -> Result<(), Stop>
    requires names { IsNamed (seen names.now) (state_of U.tables builder.old) }
    requires may { IsLowerableIn (seen names.now) (arounds (state_of U.tables builder.old)) None
        (seen_statement (Statement.If at test consequent None)) }
    requires room { HasRoom (state_of U.tables builder.old) (share (nodes (seen_statement (Statement.If at test consequent None)))) }
    ensures same_reference { builder.new.env.ghost_name ≡ builder.old.env.ghost_name }
    ensures lowered { OnOk result (LowersStatement (seen names.now) (seen_statement (Statement.If at test.entry consequent.entry None))
        (state_of U.tables builder.old) (state_of U.tables builder.new)) }
    ensures memory { IfErr result (λ e. e ≡ Stop.OutOfMemory) }
{
    let mut frame = IfFrame::begin(builder, at.span, false)?;
    lower_statement(alloc, builder, names, consequent)?;
    frame.consequent(builder, span_of(consequent.tree))?;
    let test = lower_expression(alloc, builder, names, test)?;
    frame.finish(builder, test)?;
    Ok(())
}

/// Lowers an `if` statement with an alternate: its consequent, its alternate, and then its test.
#[cycle(statements)]
fn lower_if_else<U: ReadsUnit>(
    alloc: Global,
    builder: &mut GraphBuilder<'_, U>,
    names: &FunctionNames<'_>,
    at: At,
    test: ExpressionTree<'_>,
    consequent: StatementTree<'_>,
    alternate: StatementTree<'_>,
) -> Result<(), Stop>
    requires names { IsNamed (seen names.now) (state_of U.tables builder.old) }
    requires may { IsLowerableIn (seen names.now) (arounds (state_of U.tables builder.old)) None
        (seen_statement (Statement.If at test consequent (Some alternate))) }
    requires room { HasRoom (state_of U.tables builder.old)
        (share (nodes (seen_statement (Statement.If at test consequent (Some alternate))))) }
    ensures same_reference { builder.new.env.ghost_name ≡ builder.old.env.ghost_name }
    ensures lowered { OnOk result (LowersStatement (seen names.now)
        (seen_statement (Statement.If at test.entry consequent.entry (Some alternate.entry)))
        (state_of U.tables builder.old) (state_of U.tables builder.new)) }
    ensures memory { IfErr result (λ e. e ≡ Stop.OutOfMemory) }
{
    let mut frame = IfFrame::begin(builder, at.span, true)?;
    lower_statement(alloc, builder, names, consequent)?;
    frame.consequent(builder, span_of(consequent.tree))?;
    lower_statement(alloc, builder, names, alternate)?;
    frame.alternate(builder, span_of(alternate.tree))?;
    let test = lower_expression(alloc, builder, names, test)?;
    frame.finish(builder, test)?;
    Ok(())
}

/// Lowers the statements of a block.
#[cycle(statements)]
pub(crate) fn lower_block<U: ReadsUnit>(
    alloc: Global,
    builder: &mut GraphBuilder<'_, U>,
    names: &FunctionNames<'_>,
    block: BlockStatementTree<'_>,
) -> Result<(), Stop>
    requires names { IsNamed (seen names.now) (state_of U.tables builder.old) }
    requires may { IsLowerableIn (seen names.now) (arounds (state_of U.tables builder.old)) None (syntax block.tree.now) }
    requires room { HasRoom (state_of U.tables builder.old) (share (nodes (syntax block.tree.now))) }
    ensures same_reference { builder.new.env.ghost_name ≡ builder.old.env.ghost_name }
    ensures lowered { OnOk result (LowersStatement (seen names.now) (syntax block.entry.tree.now)
        (state_of U.tables builder.old) (state_of U.tables builder.new)) }
    ensures memory { IfErr result (λ e. e ≡ Stop.OutOfMemory) }
{
    let block = block_statement_view(block);
    lower_statements(alloc, builder, names, block.body)
}

/// Lowers a statement (`lowerStatement`).
#[cycle(statements)]
pub(crate) fn lower_statement<U: ReadsUnit>(
    alloc: Global,
    builder: &mut GraphBuilder<'_, U>,
    names: &FunctionNames<'_>,
    statement: StatementTree<'_>,
) -> Result<(), Stop>
    requires names { IsNamed (seen names.now) (state_of U.tables builder.old) }
    requires may { IsLowerableIn (seen names.now) (arounds (state_of U.tables builder.old)) None (syntax statement.tree.now) }
    requires room { HasRoom (state_of U.tables builder.old) (share (nodes (syntax statement.tree.now))) }
    ensures same_reference { builder.new.env.ghost_name ≡ builder.old.env.ghost_name }
    ensures lowered { OnOk result (LowersStatement (seen names.now) (syntax statement.entry.tree.now)
        (state_of U.tables builder.old) (state_of U.tables builder.new)) }
    ensures memory { IfErr result (λ e. e ≡ Stop.OutOfMemory) }
{
    match statement_view(statement) {
        Statement::Empty { at: _ } => Ok(()),
        Statement::Expression { at: _, expression } => {
            lower_expression(alloc, builder, names, expression)?;
            Ok(())
        }
        Statement::Debugger { at } => {
            lower_value_to_temporary(builder, InstructionValue::Debugger, Some(at.span))?;
            Ok(())
        }
        Statement::Variables(declaration) => lower_variables(alloc, builder, names, declaration),
        Statement::Return { at, argument } => lower_return(alloc, builder, names, at, argument),
        Statement::Throw { at, argument } => lower_throw(alloc, builder, names, at, argument),
        Statement::Block(block) => lower_block(alloc, builder, names, block),
        Statement::If {
            at,
            test,
            consequent,
            alternate,
        } => match alternate {
            Some(alternate) => {
                lower_if_else(alloc, builder, names, at, test, consequent, alternate)
            }
            None => lower_if_then(alloc, builder, names, at, test, consequent),
        },
        Statement::While { .. } => lower_loop(alloc, builder, names, None, statement),
        Statement::DoWhile { .. } => lower_loop(alloc, builder, names, None, statement),
        Statement::For { .. } => lower_loop(alloc, builder, names, None, statement),
        Statement::ForIn { .. } => lower_loop(alloc, builder, names, None, statement),
        Statement::ForOf { .. } => lower_loop(alloc, builder, names, None, statement),
        Statement::Labeled { at, label, body } => {
            lower_labeled(alloc, builder, names, at, label, body)
        }
        Statement::Break { at, label } => lower_break(builder, at, label),
        Statement::Continue { at, label } => lower_continue(builder, at, label),
        Statement::Switch {
            at,
            discriminant,
            cases,
        } => lower_switch(alloc, builder, names, at, discriminant, cases),
        Statement::Try {
            at,
            block,
            handler,
            finalizer,
        } => lower_try(alloc, builder, names, at, block, handler, finalizer),
        Statement::With { at, .. } => {
            refuse(alloc, builder, Row::F36, at.span)?;
            Ok(())
        }
        _ => unreachable!(),
    }
}

/// Lowers statements in order (`lowerStatement` of each). Those behind a return stand in an unreachable block. On `Stop::OutOfMemory` an
/// allocation failed; no other stop comes.
#[cycle(statements)]
pub fn lower_statements<U: ReadsUnit>(
    alloc: Global,
    builder: &mut GraphBuilder<'_, U>,
    names: &FunctionNames<'_>,
    statements: StatementTrees<'_>,
) -> Result<(), Stop>
    requires names { IsNamed (seen names.now) (state_of U.tables builder.old) }
    requires may { AreLowerableIn (seen names.now) (arounds (state_of U.tables builder.old)) (pieces_of (map syntax statements.trees.now)) }
    requires room { HasRoom (state_of U.tables builder.old) (share (nodes_of (pieces_of (map syntax statements.trees.now)))) }
    ensures same_reference { builder.new.env.ghost_name ≡ builder.old.env.ghost_name }
    ensures lowered { OnOk result (LowersStatements (seen names.now) (pieces_of (map syntax statements.entry.trees.now))
        (state_of U.tables builder.old) (state_of U.tables builder.new)) }
    ensures memory { IfErr result (λ e. e ≡ Stop.OutOfMemory) }
{
    let mut left = statements;
    'statements: while let Some((statement, rest)) = left.split_first() {
        lower_statement(alloc, builder, names, statement)?;
        left = rest;
    }
    Ok(())
}

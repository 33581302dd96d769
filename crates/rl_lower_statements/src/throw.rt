//! Lowering of `throw`.

ghost use Rattle.std.specs.Prelude.{◌≡◌, OnOk, IfErr};
ghost use Rattle.rl_ast.specs.StatementViews.{seen_statement};
ghost use Rattle.rl_builder.specs.Builder.{state_of};
ghost use Rattle.rl_lowered.specs.Lowered.{throwing};
ghost use Rattle.rl_lowered.specs.Named.{IsNamed};
ghost use Rattle.rl_lowered.specs.Promised.{HasRoom, LowersStatement, share};
ghost use Rattle.rl_names.specs.Seen.{seen};
ghost use Rattle.rl_promises.specs.Lowerable.{IsLowerable};
ghost use Rattle.rl_runs.specs.Moves.{threw_from};
ghost use Rattle.rl_syntax.specs.Syntax.{nodes};

use rl_ast::statement::Statement;
use rl_base::error::OutOfMemory;
use rl_base::ids::EvaluationOrder;
use rl_base::row::Row;
use rl_base::span::Span;
use rl_base::stop::Stop;
use rl_builder::unit_tables::ReadsUnit;
use rl_grammar::sort::ExpressionTree;
use rl_hir::function::BlockKind;
use rl_hir::instruction::Place;
use rl_hir::terminal::{Terminal, TerminalKind};
use rl_lower_expressions::expression::lower_expression;
use rl_lower_parts::graph_builder::GraphBuilder;
use rl_lower_parts::temporary::refuse;
use rl_names::names::FunctionNames;
use rl_syntax::numbered::At;
use std::alloc::Global;

/// Records row F30 of a `throw` under a handler.
fn note_handler<U: ReadsUnit>(
    alloc: Global,
    builder: &mut GraphBuilder<'_, U>,
    span: Span,
) -> Result<(), OutOfMemory>
    ensures same_reference { builder.new.env.ghost_name ≡ builder.old.env.ghost_name }
    ensures state { OnOk result (state_of U.tables builder.new ≡ throwing (state_of U.tables builder.old) span) }
{
    match builder.resolve_throw_handler() {
        Some(_) => refuse(alloc, builder, Row::F30, span),
        None => Ok(()),
    }
}

/// Ends the block by a throw of a value, and goes on in a fresh block, which is unreachable.
fn end_by_throw<U: ReadsUnit>(
    builder: &mut GraphBuilder<'_, U>,
    span: Span,
    value: Place,
) -> Result<(), Stop>
    requires { HasRoom (state_of U.tables builder.old) 1 }
    ensures same_reference { builder.new.env.ghost_name ≡ builder.old.env.ghost_name }
    ensures state { OnOk result (state_of U.tables builder.new ≡ threw_from (state_of U.tables builder.old) span value BlockKind.Block) }
    ensures memory { IfErr result (λ e. e ≡ Stop.OutOfMemory) }
{
    let next = builder.reserve(BlockKind::Block)?;
    builder.terminate_with_continuation(
        Terminal {
            order: EvaluationOrder(0),
            span: Some(span),
            kind: TerminalKind::Throw { value },
        },
        next,
    )?;
    Ok(())
}

/// Lowers a `throw` statement. One under a handler is refused, and lowered all the same.
pub(crate) fn lower_throw<U: ReadsUnit>(
    alloc: Global,
    builder: &mut GraphBuilder<'_, U>,
    names: &FunctionNames<'_>,
    at: At,
    argument: ExpressionTree<'_>,
) -> Result<(), Stop>
    requires names { IsNamed (seen names.now) (state_of U.tables builder.old) }
    requires may { IsLowerable (seen names.now) (seen_statement (Statement.Throw at argument)) }
    requires room { HasRoom (state_of U.tables builder.old) (share (nodes (seen_statement (Statement.Throw at argument)))) }
    ensures same_reference { builder.new.env.ghost_name ≡ builder.old.env.ghost_name }
    ensures lowered { OnOk result (LowersStatement (seen names.now) (seen_statement (Statement.Throw at argument.entry))
        (state_of U.tables builder.old) (state_of U.tables builder.new)) }
    ensures memory { IfErr result (λ e. e ≡ Stop.OutOfMemory) }
{
    let value = lower_expression(alloc, builder, names, argument)?;
    note_handler(alloc, builder, at.span)?;
    end_by_throw(builder, at.span, value)
}

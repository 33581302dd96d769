//! Lowering of `try` statements.

ghost use Rattle.std.specs.Prelude.{◌≡◌, None, map, OnOk, IfErr};
ghost use Rattle.rl_ast.specs.BindingViews.{seen_binding_identifier};
ghost use Rattle.rl_ast.specs.StatementViews.{seen_statement};
ghost use Rattle.rl_builder.specs.Builder.{state_of};
ghost use Rattle.rl_grammar.specs.Fields.{maybe};
ghost use Rattle.rl_lower_statements.specs.Tries.{IsStored, caught_try, noted_finalizer};
ghost use Rattle.rl_lowered.specs.Arounds.{arounds};
ghost use Rattle.rl_lowered.specs.Named.{IsNamed};
ghost use Rattle.rl_lowered.specs.Promised.{HasRoom, LowersStatement, share};
ghost use Rattle.rl_names.specs.Seen.{seen};
ghost use Rattle.rl_promises.specs.Lowerable.{DeclaresFree, IsLowerableIn};
ghost use Rattle.rl_syntax.specs.Syntax.{Absent, nodes, syntax};

use crate::declaration::resolve_declared;
use crate::statement::lower_block;
use rl_ast::binding::{
    BindingIdentifier, BindingPattern, binding_identifier_view, binding_pattern_view,
};
use rl_ast::statement::Statement;
use rl_ast::statement_part::{CatchClause, catch_clause_view};
use rl_base::error::OutOfMemory;
use rl_base::row::Row;
use rl_base::span::Span;
use rl_base::stop::Stop;
use rl_builder::unit_tables::ReadsUnit;
use rl_frames::try_frame::TryFrame;
use rl_grammar::sort::{BlockStatementTree, CatchClauseTree};
use rl_hir::instruction::{InstructionKind, InstructionValue, Place};
use rl_lower_parts::graph_builder::GraphBuilder;
use rl_lower_parts::promoted::make_promoted;
use rl_lower_parts::span::span_of;
use rl_lower_parts::temporary::{lower_value_to_temporary, refuse};
use rl_names::names::FunctionNames;
use rl_syntax::numbered::At;
use std::alloc::Global;

/// Gives the caught value to the variable that a `catch` declares.
fn store_caught<U: ReadsUnit>(
    builder: &mut GraphBuilder<'_, U>,
    names: &FunctionNames<'_>,
    bind: &BindingIdentifier<'_>,
    value: Place,
) -> Result<(), Stop>
    requires names { IsNamed (seen names.now) (state_of U.tables builder.old) }
    requires free { DeclaresFree (seen names.now) ((seen names.now).declared bind.now.at.id.0) }
    requires room { HasRoom (state_of U.tables builder.old) 6 }
    ensures same_reference { builder.new.env.ghost_name ≡ builder.old.env.ghost_name }
    ensures stored { OnOk result (IsStored (seen names.now) bind.now.at value
        (state_of U.tables builder.old) (state_of U.tables builder.new)) }
    ensures memory { IfErr result (λ e. e ≡ Stop.OutOfMemory) }
{
    let identifier = resolve_declared(builder, names, bind)?;
    let span = Some(bind.at.span);
    let store = InstructionValue::StoreLocal {
        kind: InstructionKind::Catch,
        place: Place { identifier, span },
        value,
    };
    lower_value_to_temporary(builder, store, span)?;
    Ok(())
}

/// Lowers a `try` statement whose `catch`, at `there`, has no parameter: its handler, and then its block.
#[cycle(statements)]
fn lower_try_plain<U: ReadsUnit>(
    alloc: Global,
    builder: &mut GraphBuilder<'_, U>,
    names: &FunctionNames<'_>,
    at: At,
    block: BlockStatementTree<'_>,
    there: At,
    body: BlockStatementTree<'_>,
) -> Result<(), Stop>
    requires names { IsNamed (seen names.now) (state_of U.tables builder.old) }
    requires may { IsLowerableIn (seen names.now) (arounds (state_of U.tables builder.old)) None
        (caught_try at there (syntax block.tree.now) Absent (syntax body.tree.now)) }
    requires room { HasRoom (state_of U.tables builder.old)
        (share (nodes (caught_try at there (syntax block.tree.now) Absent (syntax body.tree.now)))) }
    ensures same_reference { builder.new.env.ghost_name ≡ builder.old.env.ghost_name }
    ensures lowered { OnOk result (LowersStatement (seen names.now)
        (caught_try at there (syntax block.entry.tree.now) Absent (syntax body.entry.tree.now))
        (state_of U.tables builder.old) (state_of U.tables builder.new)) }
    ensures memory { IfErr result (λ e. e ≡ Stop.OutOfMemory) }
{
    let mut frame = TryFrame::begin(builder, at.span, None)?;
    lower_block(alloc, builder, names, body)?;
    frame.catch(builder, there.span)?;
    lower_block(alloc, builder, names, block)?;
    frame.finish(builder, span_of(block.tree))?;
    Ok(())
}

/// Lowers a `try` statement whose `catch`, at `there`, has a name as its parameter: its handler, and then its block.
#[cycle(statements)]
fn lower_try_bound<U: ReadsUnit>(
    alloc: Global,
    builder: &mut GraphBuilder<'_, U>,
    names: &FunctionNames<'_>,
    at: At,
    block: BlockStatementTree<'_>,
    there: At,
    bind: &BindingIdentifier<'_>,
    body: BlockStatementTree<'_>,
) -> Result<(), Stop>
    requires names { IsNamed (seen names.now) (state_of U.tables builder.old) }
    requires may { IsLowerableIn (seen names.now) (arounds (state_of U.tables builder.old)) None
        (caught_try at there (syntax block.tree.now) (seen_binding_identifier bind.now) (syntax body.tree.now)) }
    requires room { HasRoom (state_of U.tables builder.old)
        (share (nodes (caught_try at there (syntax block.tree.now) (seen_binding_identifier bind.now) (syntax body.tree.now)))) }
    ensures same_reference { builder.new.env.ghost_name ≡ builder.old.env.ghost_name }
    ensures lowered { OnOk result (LowersStatement (seen names.now)
        (caught_try at there (syntax block.entry.tree.now) (seen_binding_identifier bind.now) (syntax body.entry.tree.now))
        (state_of U.tables builder.old) (state_of U.tables builder.new)) }
    ensures memory { IfErr result (λ e. e ≡ Stop.OutOfMemory) }
{
    let value = make_promoted(alloc, builder, bind.at.span)?;
    let mut frame = TryFrame::begin(builder, at.span, Some(value))?;
    store_caught(builder, names, bind, value)?;
    lower_block(alloc, builder, names, body)?;
    frame.catch(builder, there.span)?;
    lower_block(alloc, builder, names, block)?;
    frame.finish(builder, span_of(block.tree))?;
    Ok(())
}

/// Lowers a `try` statement with a `catch`, as if it had no finalizer.
#[cycle(statements)]
fn lower_caught<U: ReadsUnit>(
    alloc: Global,
    builder: &mut GraphBuilder<'_, U>,
    names: &FunctionNames<'_>,
    at: At,
    block: BlockStatementTree<'_>,
    clause: CatchClause<'_>,
) -> Result<(), Stop>
    requires names { IsNamed (seen names.now) (state_of U.tables builder.old) }
    requires may { IsLowerableIn (seen names.now) (arounds (state_of U.tables builder.old)) None
        (caught_try at clause.at (syntax block.tree.now) (maybe clause.param (λ t. syntax t.tree.now)) (syntax clause.body.tree.now)) }
    requires room { HasRoom (state_of U.tables builder.old)
        (share (nodes (caught_try at clause.at (syntax block.tree.now) (maybe clause.param (λ t. syntax t.tree.now))
        (syntax clause.body.tree.now)))) }
    ensures same_reference { builder.new.env.ghost_name ≡ builder.old.env.ghost_name }
    ensures lowered { OnOk result (LowersStatement (seen names.now)
        (caught_try at clause.entry.at (syntax block.entry.tree.now) (maybe clause.entry.param (λ t. syntax t.tree.now))
        (syntax clause.entry.body.tree.now)) (state_of U.tables builder.old) (state_of U.tables builder.new)) }
    ensures memory { IfErr result (λ e. e ≡ Stop.OutOfMemory) }
{
    match clause.param {
        Some(param) => match binding_pattern_view(param) {
            BindingPattern::Identifier(bind) => {
                let bind = binding_identifier_view(bind);
                lower_try_bound(
                    alloc,
                    builder,
                    names,
                    at,
                    block,
                    clause.at,
                    &bind,
                    clause.body,
                )
            }
            BindingPattern::Array { .. } => unreachable!(),
            BindingPattern::Object { .. } => unreachable!(),
        },
        None => lower_try_plain(alloc, builder, names, at, block, clause.at, clause.body),
    }
}

/// Records row F35 of a finalizer.
fn note_finalizer<U: ReadsUnit>(
    alloc: Global,
    builder: &mut GraphBuilder<'_, U>,
    span: Span,
    finalizer: Option<BlockStatementTree<'_>>,
) -> Result<(), OutOfMemory>
    ensures same_reference { builder.new.env.ghost_name ≡ builder.old.env.ghost_name }
    ensures state { OnOk result (state_of U.tables builder.new ≡ noted_finalizer (state_of U.tables builder.old) span
        (maybe finalizer.entry (λ t. syntax t.tree.now))) }
{
    match finalizer {
        Some(_) => refuse(alloc, builder, Row::F35, span),
        None => Ok(()),
    }
}

/// Lowers a `try` statement. One without a `catch` is refused without its parts, and a finalizer is refused and left out.
#[cycle(statements)]
pub(crate) fn lower_try<U: ReadsUnit>(
    alloc: Global,
    builder: &mut GraphBuilder<'_, U>,
    names: &FunctionNames<'_>,
    at: At,
    block: BlockStatementTree<'_>,
    handler: Option<CatchClauseTree<'_>>,
    finalizer: Option<BlockStatementTree<'_>>,
) -> Result<(), Stop>
    requires names { IsNamed (seen names.now) (state_of U.tables builder.old) }
    requires may { IsLowerableIn (seen names.now) (arounds (state_of U.tables builder.old)) None
        (seen_statement (Statement.Try at block handler finalizer)) }
    requires room { HasRoom (state_of U.tables builder.old) (share (nodes (seen_statement (Statement.Try at block handler finalizer)))) }
    ensures same_reference { builder.new.env.ghost_name ≡ builder.old.env.ghost_name }
    ensures lowered { OnOk result (LowersStatement (seen names.now)
        (seen_statement (Statement.Try at block.entry handler.entry finalizer.entry))
        (state_of U.tables builder.old) (state_of U.tables builder.new)) }
    ensures memory { IfErr result (λ e. e ≡ Stop.OutOfMemory) }
{
    match handler {
        Some(handler) => {
            note_finalizer(alloc, builder, at.span, finalizer)?;
            let clause = catch_clause_view(handler);
            lower_caught(alloc, builder, names, at, block, clause)
        }
        None => {
            refuse(alloc, builder, Row::F34, at.span)?;
            Ok(())
        }
    }
}

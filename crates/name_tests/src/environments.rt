//! Calls of an environment, of a table of blocks and of the readers of a builder, as one text each.

ghost use Rattle.std.specs.Prelude.{◌+◌, ◌<◌, ◌^◌, length};

use crate::texts::{Builder, push_kind, push_number, push_truth, push_word, ready};
use rl_atoms::entity_table::EntityTable;
use rl_base::diagnostic::Diagnostic;
use rl_base::error::OutOfMemory;
use rl_base::ids::{BlockId, EvaluationOrder, IdentifierId, ReferenceId, SymbolId};
use rl_base::list::List;
use rl_base::row::Row;
use rl_base::span::Span;
use rl_base::stop::Stop;
use rl_base::text::Text;
use rl_builder::builder::create_temporary_place;
use rl_builder::unit_tables::ReadsUnit;
use rl_hir::block_sets::{BlockSet, new_set};
use rl_hir::blocks::Blocks;
use rl_hir::environment::Environment;
use rl_hir::function::{BasicBlock, BlockKind, ReactFunctionType};
use rl_hir::instruction::HirType;
use rl_hir::terminal::{Terminal, TerminalKind};
use std::alloc::Global;

/// A diagnostic of a row, without a word.
fn diagnostic(alloc: Global, row: Row) -> Result<Diagnostic, OutOfMemory> {
    Diagnostic::at(alloc, row, "", Span { start: 0, end: 1 })
}

/// Appends the ids that an environment hands out, and true if its identifier has a name.
fn push_ids(alloc: Global, text: &mut String, env: &mut Environment) -> Result<(), OutOfMemory>
    requires blocks { env.old.next_block + 1 < 2 ^ 32 }
    requires types { env.old.next_type + 2 < 2 ^ 32 }
    requires identifiers { length env.old.identifiers < 2 ^ 32 }
{
    push_number(alloc, text, Some(env.next_block_id().0))?;
    push_number(alloc, text, Some(env.make_type().0))?;
    let identifier = env.next_identifier_id()?;
    if (identifier.0 as usize) < env.identifiers().len() {
        push_truth(alloc, text, env.identifier(identifier).name.is_some())?;
    }
    Ok(())
}

/// Appends the symbols and references that an environment keeps, its mark and its type.
fn push_marks(alloc: Global, text: &mut String, env: &mut Environment) -> Result<(), OutOfMemory> {
    env.add_hoisted_identifier(SymbolId(4))?;
    push_truth(alloc, text, env.is_hoisted_identifier(SymbolId(4)))?;
    push_truth(alloc, text, env.is_hoisted_identifier(SymbolId(5)))?;
    env.add_rename(ReferenceId(6), Text::from_str(alloc, "y")?)?;
    for rename in env.renames() {
        push_number(alloc, text, Some(rename.reference.0))?;
    }
    env.add_pair(SymbolId(2), IdentifierId(0))?;
    for pair in env.pairs() {
        push_number(alloc, text, Some(pair.symbol.0))?;
    }
    push_truth(alloc, text, env.skip_compilation())?;
    env.mark_skip();
    push_truth(alloc, text, env.skip_compilation())?;
    push_truth(alloc, text, env.entities().get("amp").is_some())?;
    push_truth(alloc, text, env.fn_type() == ReactFunctionType::Hook)
}

/// Ids, marks, and the rows of the diagnostics of a fresh environment.
pub fn environment(alloc: Global) -> Result<String, Stop> {
    let mut text = String::new(alloc);
    let mut env = Environment::new(alloc, ReactFunctionType::Hook, EntityTable::new(alloc))?;
    push_ids(alloc, &mut text, &mut env)?;
    push_marks(alloc, &mut text, &mut env)?;
    env.record_diagnostic(diagnostic(alloc, Row::S4)?)?;
    env.record_error(diagnostic(alloc, Row::F1)?)?;
    for recorded in env.into_diagnostics().as_slice() {
        push_word(alloc, &mut text, recorded.row.name())?;
    }
    Ok(text)
}

/// An empty block of a kind that goes nowhere.
fn block(alloc: Global, kind: BlockKind) -> BasicBlock {
    BasicBlock {
        kind,
        instructions: List::new(alloc),
        terminal: Terminal {
            order: EvaluationOrder(0),
            span: None,
            kind: TerminalKind::Unreachable,
        },
        preds: List::new(alloc),
    }
}

/// Appends the id and the kind of each block, in order.
fn push_table<B: Blocks>(alloc: Global, text: &mut String, blocks: &B) -> Result<(), OutOfMemory> {
    for index in 0..blocks.len() {
        let (id, block) = blocks.at(index);
        push_number(alloc, text, Some(id.0))?;
        push_kind(alloc, text, block.kind)?;
    }
    Ok(())
}

/// The ids 9 and 3.
fn two_ids(alloc: Global) -> Result<BlockSet, OutOfMemory> {
    let mut ids = new_set(alloc);
    ids.insert(BlockId(9))?;
    ids.insert(BlockId(3))?;
    Ok(ids)
}

/// Puts blocks of the ids 5, 3, 9 and 7 into a table, another one at the index 1, and takes 3 out, and then 9 and an id that
/// it does not have: the blocks behind each.
pub fn table<B: Blocks>(alloc: Global) -> Result<String, Stop> {
    let mut text = String::new(alloc);
    let mut blocks = B::empty(alloc);
    for id in [5, 3, 9, 7] {
        blocks.put(BlockId(id), block(alloc, BlockKind::Block))?;
    }
    if 1 < blocks.len() {
        let _ = blocks.set_at(1, block(alloc, BlockKind::Loop));
    }
    push_table(alloc, &mut text, &blocks)?;
    push_truth(alloc, &mut text, blocks.remove(BlockId(3)).is_some())?;
    push_truth(alloc, &mut text, blocks.get(BlockId(3)).is_some())?;
    blocks.remove_all(&two_ids(alloc)?);
    push_table(alloc, &mut text, &blocks)?;
    Ok(text)
}

/// Scopes and numbers of entries that a builder of the marked function begins with.
pub fn readers<U: ReadsUnit>(alloc: Global, builder: &mut Builder<'_, U>) -> Result<String, Stop> {
    let mut text = String::new(alloc);
    push_number(alloc, &mut text, Some(builder.function_scope().0))?;
    push_number(alloc, &mut text, Some(builder.component_scope().0))?;
    push_truth(alloc, &mut text, builder.context().is_empty())?;
    push_truth(alloc, &mut text, builder.context_identifiers().is_empty())?;
    push_truth(
        alloc,
        &mut text,
        builder.identifier_spans().sites().is_empty(),
    )?;
    push_truth(
        alloc,
        &mut text,
        builder
            .scope()
            .semantic
            .bindings
            .symbols
            .as_slice()
            .is_empty(),
    )?;
    push_number(alloc, &mut text, Some(builder.fbt_depth))?;
    Ok(text)
}

/// Type variables and identifiers that a builder hands out, and the rows of the diagnostics that it records, a row that stops
/// last.
pub fn records<U: ReadsUnit>(alloc: Global, builder: &mut Builder<'_, U>) -> Result<String, Stop> {
    let mut text = String::new(alloc);
    ready(builder)?;
    if let HirType::Var(variable) = builder.make_type() {
        push_number(alloc, &mut text, Some(variable.0))?;
    }
    ready(builder)?;
    push_number(alloc, &mut text, Some(builder.make_temporary(None)?.0))?;
    ready(builder)?;
    push_number(
        alloc,
        &mut text,
        Some(builder.create_temporary_place(None)?.identifier.0),
    )?;
    ready(builder)?;
    let place = create_temporary_place(builder.environment_mut(), None)?;
    push_number(alloc, &mut text, Some(place.identifier.0))?;
    builder.record_diagnostic(diagnostic(alloc, Row::S4)?)?;
    builder.record_error(diagnostic(alloc, Row::F1)?)?;
    for recorded in builder.environment().diagnostics() {
        push_word(alloc, &mut text, recorded.row.name())?;
    }
    let stopped = builder.record_error(diagnostic(alloc, Row::S4)?);
    push_truth(alloc, &mut text, stopped.is_err())?;
    Ok(text)
}

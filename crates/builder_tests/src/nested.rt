//! An inner function and builders in one another, as one text.

use crate::captures::build_capturing;
use crate::inner::{lower_inner, nest};
use crate::texts::{Builder, push_kind, push_number, push_truth, push_word, ready};
use indexmap::IndexMap;
use rl_base::error::OutOfMemory;
use rl_base::ids::{IdentifierId, NodeId, ScopeId, SymbolId};
use rl_base::span::Span;
use rl_base::stop::Stop;
use rl_builder::copies::copy_context;
use rl_builder::unit_tables::ReadsUnit;
use rl_hir::blocks::{Blocks, GraphBlocks};
use rl_hir::environment::Environment;
use rl_hir::function::IdentifierName;
use std::alloc::Global;

/// The symbol of `x` in the unit of these tests, behind an import and a parameter.
const X: SymbolId = SymbolId(2);

/// Appends the name of an identifier.
fn push_identifier(
    alloc: Global,
    text: &mut String,
    env: &Environment,
    identifier: IdentifierId,
) -> Result<(), OutOfMemory> {
    let Some(entry) = env.identifiers().get(identifier.0 as usize) else {
        return Ok(());
    };
    match &entry.name {
        Some(IdentifierName::Named(name)) => push_word(alloc, text, name.as_str()),
        Some(IdentifierName::Promoted(_)) => Ok(()),
        None => Ok(()),
    }
}

/// Gives a symbol its identifier, and appends its name, or the row that refuses it.
fn push_name<U: ReadsUnit>(
    alloc: Global,
    text: &mut String,
    builder: &mut Builder<'_, U>,
    name: &str,
    symbol: SymbolId,
) -> Result<(), OutOfMemory> {
    ready(builder)?;
    match builder.resolve_binding(name, symbol) {
        Ok(identifier) => push_identifier(alloc, text, builder.environment(), identifier),
        Err(Stop::Diagnostic(diagnostic)) => push_word(alloc, text, diagnostic.row.name()),
        Err(Stop::OutOfMemory) => Err(OutOfMemory),
    }
}

/// The id of an inner function, true if the environment has it alone, and the name of `x` behind it and behind builders in
/// one another.
pub fn inner<U: ReadsUnit>(alloc: Global, builder: &mut Builder<'_, U>) -> Result<String, Stop> {
    let mut text = String::new(alloc);
    builder.add_context_identifier(X)?;
    ready(builder)?;
    let id = lower_inner(alloc, builder, NodeId(1), ScopeId(1))?;
    push_number(alloc, &mut text, Some(id.0))?;
    push_truth(
        alloc,
        &mut text,
        builder.environment().functions().len() == 1,
    )?;
    nest(alloc, builder, ScopeId(1), 3)?;
    push_name(alloc, &mut text, builder, "x", X)?;
    Ok(text)
}

/// Appends the kinds of blocks.
fn push_kinds(alloc: Global, text: &mut String, blocks: &GraphBlocks) -> Result<(), OutOfMemory> {
    for index in 0..blocks.len() {
        let (_, block) = blocks.at(index);
        push_kind(alloc, text, block.kind)?;
    }
    Ok(())
}

/// Captures of `x` alone, of the offset 5.
fn only_x(alloc: Global) -> Result<IndexMap<SymbolId, Span>, OutOfMemory> {
    let mut context = IndexMap::new(alloc);
    context.insert(X, Span { start: 5, end: 6 })?;
    Ok(context)
}

/// The captures of a builder that captures `x`.
fn context_of_x(alloc: Global) -> Result<IndexMap<SymbolId, Span>, OutOfMemory> {
    let context = only_x(alloc)?;
    copy_context(&context)
}

/// The kinds of the blocks of an inner function that captures `x`, the offset of that in the captures of its builder, and the identifier
/// and the name of `x` behind it, which its builder resolved first.
pub fn captures<U: ReadsUnit>(alloc: Global, builder: &mut Builder<'_, U>) -> Result<String, Stop> {
    let mut text = String::new(alloc);
    let unit = builder.unit();
    let scope = builder.component_scope();
    let bindings = builder.bindings().copy()?;
    let used_names = builder.used_names().copy(alloc)?;
    let context = context_of_x(alloc)?;
    ready(builder)?;
    let env = builder.environment_mut();
    let made = build_capturing(
        alloc,
        env,
        unit,
        ScopeId(1),
        scope,
        bindings,
        context,
        used_names,
        "x",
        X,
    )?;
    let built = made.built;
    let context = made.context;
    push_kinds(alloc, &mut text, &built.hir.blocks)?;
    push_number(alloc, &mut text, context.get(&X).map(|span| span.start))?;
    builder.merge_used_names(built.used_names)?;
    builder.merge_bindings(built.bindings)?;
    push_number(
        alloc,
        &mut text,
        builder.bindings().get(X).map(|found| found.0),
    )?;
    push_name(alloc, &mut text, builder, "x", X)?;
    Ok(text)
}

/// The name of `x` by the tables of a builder's unit, and true where the index of the marked function holds identifiers.
pub fn tables<U: ReadsUnit>(alloc: Global, builder: &mut Builder<'_, U>) -> Result<String, Stop> {
    let mut text = String::new(alloc);
    let unit = builder.unit();
    push_word(alloc, &mut text, unit.resolver().symbol_name(X))?;
    push_truth(
        alloc,
        &mut text,
        !unit.identifier_spans().sites().is_empty(),
    )?;
    Ok(text)
}

//! Calls of the builder of a small unit's marked function, and their answers as one text each.

use crate::environments::{environment, readers, records, table};
use crate::resolving::{captures, contexts, push_name, spans, uses};
use crate::texts::{Builder, push_number};
use rl_ast::function_node::FunctionNode;
use rl_ast::read::read_tree;
use rl_ast::unit::Unit;
use rl_atoms::entity_table::EntityTable;
use rl_base::error::OutOfMemory;
use rl_base::ids::{IdentifierId, ScopeId, SymbolId};
use rl_base::stop::Stop;
use rl_builder::builder::{Bindings, UsedNames};
use rl_builder::unit_tables::{ReadsUnit, UnitTables};
use rl_context::index::IdentifierLocIndex;
use rl_hir::blocks::MapBlocks;
use rl_hir::dense_blocks::DenseBlocks;
use rl_hir::environment::Environment;
use rl_hir::function::ReactFunctionType;
use rl_resolver::resolver::ScopeResolver;
use rl_semantic::semantic::Semantic;
use std::alloc::Global;
use std::collections::BTreeSet;
use std::process::Abort;
use std::test::Fail;

/// Calls of a builder.
#[derive(Clone, Copy)]
pub enum Calls {
    /// The name that each symbol gets, or the row that refuses it; then the diagnostics and the renames.
    Names,
    /// The symbol of the function declaration `f` from each scope, before and after the symbols got their identifiers.
    Functions,
    /// The names that the first two symbols get, where the names of another builder are merged between them; then the
    /// identifiers of both, where other ones of both are merged behind the first.
    Merges,
    /// Uses of names (`uses`).
    Uses,
    /// Context identifiers and local names (`contexts`).
    Contexts,
    /// Spans of a declaration and of its identifier (`spans`).
    Spans,
    /// Names of an inner function's builder, merged into this one (`captures`).
    Captures,
    /// The tables that the builder begins with (`readers`).
    Readers,
    /// Ids that the builder hands out, and diagnostics (`records`).
    Records,
    /// Calls of an environment without a builder (`environment`).
    Environment,
    /// Calls of a `MapBlocks` without a builder (`table`).
    Table,
    /// As `Table`, of a `DenseBlocks`.
    DenseTable,
}

/// Gives each symbol an identifier under its own name, and appends the names that they get, or the rows that refuse them.
fn push_names<U: ReadsUnit>(
    alloc: Global,
    text: &mut String,
    builder: &mut Builder<'_, U>,
    resolver: &ScopeResolver<'_>,
) -> Result<(), OutOfMemory> {
    for symbol in resolver.symbols() {
        push_name(alloc, text, builder, resolver.symbol_name(symbol), symbol)?;
    }
    Ok(())
}

/// Appends the diagnostics and the renames.
fn push_records(alloc: Global, text: &mut String, env: &Environment) -> Result<(), OutOfMemory> {
    for diagnostic in env.diagnostics() {
        let row = diagnostic.row.name();
        text.push_str(format!(in alloc; "{row}! ")?.as_str())?;
    }
    for rename in env.renames() {
        let reference = rename.reference.0;
        let name = rename.name.as_str();
        text.push_str(format!(in alloc; "{reference}:{name} ")?.as_str())?;
    }
    Ok(())
}

fn names<U: ReadsUnit>(
    alloc: Global,
    builder: &mut Builder<'_, U>,
    resolver: &ScopeResolver<'_>,
) -> Result<String, Stop> {
    let mut text = String::new(alloc);
    push_names(alloc, &mut text, builder, resolver)?;
    push_records(alloc, &mut text, builder.environment())?;
    Ok(text)
}

/// Appends the symbol of the function declaration `f` from each scope, or `-`.
fn push_functions<U: ReadsUnit>(
    alloc: Global,
    text: &mut String,
    builder: &Builder<'_, U>,
    resolver: &ScopeResolver<'_>,
) -> Result<(), OutOfMemory> {
    let mut scope = 0;
    for _ in resolver.semantic.bindings.scopes.as_slice() {
        let symbol = builder.get_function_declaration_binding(ScopeId(scope), "f");
        push_number(alloc, text, symbol.map(|symbol| symbol.0))?;
        scope = scope.saturating_add(1);
    }
    Ok(())
}

fn functions<U: ReadsUnit>(
    alloc: Global,
    builder: &mut Builder<'_, U>,
    resolver: &ScopeResolver<'_>,
) -> Result<String, Stop> {
    let mut text = String::new(alloc);
    push_functions(alloc, &mut text, builder, resolver)?;
    push_names(alloc, &mut text, builder, resolver)?;
    push_functions(alloc, &mut text, builder, resolver)?;
    Ok(text)
}

/// Appends the identifier of a symbol, or `-`.
fn push_binding<U: ReadsUnit>(
    alloc: Global,
    text: &mut String,
    builder: &Builder<'_, U>,
    symbol: SymbolId,
) -> Result<(), OutOfMemory> {
    let identifier = builder.bindings().get(symbol);
    push_number(alloc, text, identifier.map(|identifier| identifier.0))
}

fn merges<U: ReadsUnit>(alloc: Global, builder: &mut Builder<'_, U>) -> Result<String, Stop> {
    let mut text = String::new(alloc);
    push_name(alloc, &mut text, builder, "x", SymbolId(0))?;
    let mut child = UsedNames::new(alloc);
    child.claim(alloc, "x", SymbolId(7))?;
    child.claim(alloc, "x_0", SymbolId(8))?;
    builder.merge_used_names(child)?;
    push_name(alloc, &mut text, builder, "x", SymbolId(1))?;
    let mut child = Bindings::new(alloc);
    child.insert(SymbolId(0), IdentifierId(5))?;
    child.insert(SymbolId(2), IdentifierId(6))?;
    builder.merge_bindings(child)?;
    push_binding(alloc, &mut text, builder, SymbolId(0))?;
    push_binding(alloc, &mut text, builder, SymbolId(2))?;
    Ok(text)
}

/// The answers of `calls`, as one text.
fn answer<U: ReadsUnit>(
    alloc: Global,
    builder: &mut Builder<'_, U>,
    resolver: &ScopeResolver<'_>,
    calls: Calls,
) -> Result<String, Stop> {
    match calls {
        Calls::Names => names(alloc, builder, resolver),
        Calls::Functions => functions(alloc, builder, resolver),
        Calls::Merges => merges(alloc, builder),
        Calls::Uses => uses(alloc, builder),
        Calls::Contexts => contexts(alloc, builder),
        Calls::Spans => spans(alloc, builder),
        Calls::Captures => captures(alloc, builder),
        Calls::Readers => readers(alloc, builder),
        Calls::Records => records(alloc, builder),
        Calls::Environment => environment(alloc),
        Calls::Table => table::<MapBlocks>(alloc),
        Calls::DenseTable => table::<DenseBlocks>(alloc),
    }
}

/// As `answer`, in a fresh builder of the marked function, whose scope is `scope`.
fn answer_in<U: ReadsUnit>(
    alloc: Global,
    unit: U,
    resolver: &ScopeResolver<'_>,
    scope: ScopeId,
    calls: Calls,
) -> Result<String, Stop> {
    let mut env = Environment::new(alloc, ReactFunctionType::Other, EntityTable::new(alloc))?;
    let mut builder = Builder::over(
        alloc,
        &mut env,
        unit,
        scope,
        scope,
        BTreeSet::new(alloc),
        None,
        None,
        None,
        None,
    )?;
    answer(alloc, &mut builder, resolver, calls)
}

/// As `answer`, in a fresh builder of `function`.
fn answer_of(
    alloc: Global,
    resolver: &ScopeResolver<'_>,
    function: &FunctionNode<'_>,
    calls: Calls,
) -> Result<String, Stop> {
    let index = IdentifierLocIndex::of(alloc, function)?;
    let Some(scope) = function.scope_id() else {
        return Ok(String::new(alloc));
    };
    let unit = UnitTables {
        resolver,
        identifier_spans: &index,
    };
    answer_in(alloc, unit, resolver, scope, calls)
}

/// Checks what calls answer in the builder of the marked function.
fn check_resolver(
    rt: &impl Abort,
    alloc: Global,
    unit: &Unit,
    resolver: &ScopeResolver<'_>,
    calls: Calls,
    wanted: &str,
) -> Result<(), Fail> {
    if let Some(function) = unit.marked_function() {
        let text = answer_of(alloc, resolver, &function, calls)?;
        assert_eq!(rt; text.as_str(), wanted);
    }
    Ok(())
}

/// Checks what calls answer, under semantic tables.
fn check_semantic(
    rt: &impl Abort,
    alloc: Global,
    unit: &Unit,
    semantic: &Semantic<'_>,
    calls: Calls,
    wanted: &str,
) -> Result<(), Fail> {
    let resolver = ScopeResolver::new(alloc, semantic)?;
    check_resolver(rt, alloc, unit, &resolver, calls, wanted)
}

/// Checks what calls answer, of a unit that was read.
fn check_unit(
    rt: &impl Abort,
    alloc: Global,
    unit: &Unit,
    calls: Calls,
    wanted: &str,
) -> Result<(), Fail> {
    let semantic = Semantic::of(alloc, unit)?;
    check_semantic(rt, alloc, unit, &semantic, calls, wanted)
}

/// The unit of these statements.
fn read(alloc: Global, statements: &str) -> Result<Unit, Fail> {
    let text = format!(in alloc; "(unit [] (program [{statements}]))")?;
    Ok(read_tree(alloc, text.as_bytes())?)
}

/// Checks what calls answer in the builder of the marked function of a unit. Each answer ends with a space.
pub fn check(
    rt: &impl Abort,
    alloc: Global,
    statements: &str,
    calls: Calls,
    wanted: &str,
) -> Result<(), Fail> {
    let unit = read(alloc, statements)?;
    check_unit(rt, alloc, &unit, calls, wanted)
}

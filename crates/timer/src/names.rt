//! The names that a builder gives to the symbols of a unit, timed.

ghost use Rattle.std.specs.Prelude.{◌+◌, ◌<◌, ◌^◌, IsTrue, length};
ghost use Rattle.rl_builder.specs.Builder.{state_of};

use anyhow::{Result, bail};
use rl_ast::function_node::FunctionNode;
use rl_ast::read::read_tree;
use rl_ast::unit::Unit;
use rl_atoms::entity_table::EntityTable;
use rl_base::error::OutOfMemory;
use rl_base::ids::ScopeId;
use rl_base::stop::Stop;
use rl_builder::builder::HirBuilder;
use rl_builder::unit_tables::{ReadsUnit, UnitTables};
use rl_context::index::IdentifierLocIndex;
use rl_hir::blocks::GraphBlocks;
use rl_hir::environment::Environment;
use rl_hir::function::ReactFunctionType;
use rl_resolver::resolver::ScopeResolver;
use rl_semantic::semantic::Semantic;
use std::alloc::Global;
use std::collections::BTreeSet;
use std::time::{Duration, Instant};

/// The most identifiers that a builder is asked for.
const MOST: u32 = 1_000_000;

/// The value, unless an allocation failed.
fn enough<T>(answer: Result<T, OutOfMemory>) -> Result<T> {
    match answer {
        Ok(value) => Ok(value),
        Err(_) => bail!("an allocation failed"),
    }
}

/// True while the builder may hand out another identifier.
fn has_room<U: ReadsUnit>(builder: &HirBuilder<'_, U, GraphBlocks>) -> bool
    ensures identifiers { IsTrue result → length (state_of U.tables builder.now).env.identifiers < 2 ^ 32 }
    ensures types { IsTrue result → (state_of U.tables builder.now).env.next_type + 1 < 2 ^ 32 }
{
    let env = builder.environment();
    env.identifiers().len() < MOST as usize && env.next_type() < MOST
}

/// Gives all symbols their identifiers, in order. A symbol with a reserved name gets none.
fn name_all<U: ReadsUnit>(
    builder: &mut HirBuilder<'_, U, GraphBlocks>,
    resolver: &ScopeResolver<'_>,
) -> Result<(), OutOfMemory> {
    for symbol in resolver.symbols() {
        if !has_room(builder) {
            return Ok(());
        }
        match builder.resolve_binding(resolver.symbol_name(symbol), symbol) {
            Ok(_) => {}
            Err(Stop::Diagnostic(_)) => {}
            Err(Stop::OutOfMemory) => return Err(OutOfMemory),
        }
    }
    Ok(())
}

/// Names all symbols in a fresh builder over the environment.
fn name_in<U: ReadsUnit>(
    alloc: Global,
    env: &mut Environment,
    unit: U,
    resolver: &ScopeResolver<'_>,
    scope: ScopeId,
) -> Result<(), OutOfMemory> {
    if env.next_block() >= MOST {
        return Ok(());
    }
    let mut builder = HirBuilder::<U, GraphBlocks>::over(
        alloc,
        env,
        unit,
        scope,
        scope,
        BTreeSet::new(alloc),
        None,
        None,
        None,
        None,
    )?;
    name_all(&mut builder, resolver)
}

/// As `name_in`, in the lowering of the function that has the index.
fn name_function(
    alloc: Global,
    env: &mut Environment,
    resolver: &ScopeResolver<'_>,
    index: &IdentifierLocIndex,
    scope: ScopeId,
) -> Result<(), OutOfMemory> {
    let unit = UnitTables {
        resolver,
        identifier_spans: index,
    };
    name_in(alloc, env, unit, resolver, scope)
}

/// An environment without identifiers.
fn fresh_environment(alloc: Global) -> Result<Environment, OutOfMemory> {
    Environment::new(alloc, ReactFunctionType::Other, EntityTable::new(alloc))
}

/// The shortest of `times` durations in which all symbols are named. The longest duration for none.
fn shortest(
    rt: &HostRuntime,
    resolver: &ScopeResolver<'_>,
    index: &IdentifierLocIndex,
    scope: ScopeId,
    times: u32,
) -> Result<Duration> {
    let mut least = Duration::MAX;
    for _time in 0..times {
        let mut env = enough(fresh_environment(rt.alloc()))?;
        let start = Instant::now(rt)?;
        enough(name_function(rt.alloc(), &mut env, resolver, index, scope))?;
        least = least.min(start.elapsed(rt)?);
    }
    Ok(least)
}

/// Writes the number of symbols and the nanoseconds of the shortest of `calls` times, of the marked function that has the index; for
/// no time the numbers of symbols and of renamed references.
fn report_names(
    rt: &HostRuntime,
    resolver: &ScopeResolver<'_>,
    index: &IdentifierLocIndex,
    scope: ScopeId,
    calls: u32,
) -> Result<()> {
    let symbols = resolver.semantic.bindings.symbols.as_slice().len();
    if calls > 0 {
        let naming = shortest(rt, resolver, index, scope, calls)?.as_nanos();
        println!(rt; "{symbols} {naming}")?;
        return Ok(());
    }
    let mut env = enough(fresh_environment(rt.alloc()))?;
    enough(name_function(rt.alloc(), &mut env, resolver, index, scope))?;
    let renames = env.renames().len();
    println!(rt; "{symbols} {renames}")?;
    Ok(())
}

/// As `report_names`, of a function.
fn report_function(
    rt: &HostRuntime,
    resolver: &ScopeResolver<'_>,
    function: FunctionNode<'_>,
    calls: u32,
) -> Result<()> {
    let Some(scope) = function.scope_id() else {
        bail!("the function has no scope");
    };
    let index = enough(IdentifierLocIndex::of(rt.alloc(), &function))?;
    report_names(rt, resolver, &index, scope, calls)
}

/// As `report_names`, of the marked function of a unit.
fn report_unit(rt: &HostRuntime, unit: &Unit, semantic: &Semantic<'_>, calls: u32) -> Result<()> {
    let resolver = enough(ScopeResolver::new(rt.alloc(), semantic))?;
    let Some(function) = unit.marked_function() else {
        bail!("no function is marked");
    };
    report_function(rt, &resolver, function, calls)
}

/// As `report_names`, of the marked function of a unit that was read.
fn report_read(rt: &HostRuntime, unit: &Unit, calls: u32) -> Result<()> {
    let semantic = Semantic::of(rt.alloc(), unit)?;
    report_unit(rt, unit, &semantic, calls)
}

/// As `report_names`, of the marked function of the unit that the bytes spell.
pub fn report(rt: &HostRuntime, bytes: &[u8], calls: u32) -> Result<()> {
    let unit = read_tree(rt.alloc(), bytes)?;
    report_read(rt, &unit, calls)
}

//! Calls of the builder of a small unit's marked function, and their answers as one text each.

ghost use Rattle.std.specs.Prelude.{◌<◌, ◌^◌, length};
ghost use Rattle.rl_builder.specs.Builder.{state_of};

use crate::moves::{blocks, branches, closings, closures, graph, openings, undefined};
use crate::nested::{captures, inner, tables};
use crate::texts::{Builder, push_target, ready};
use rl_ast::function_node::FunctionNode;
use rl_ast::read::read_tree;
use rl_ast::unit::Unit;
use rl_atoms::entity_table::EntityTable;
use rl_base::error::OutOfMemory;
use rl_base::ids::{BlockId, ScopeId};
use rl_base::stop::Stop;
use rl_base::text::Text;
use rl_builder::jumps::JumpScope;
use rl_builder::unit_tables::{ReadsUnit, UnitTables};
use rl_context::index::IdentifierLocIndex;
use rl_hir::blocks::MapBlocks;
use rl_hir::dense_blocks::DenseBlocks;
use rl_hir::environment::Environment;
use rl_hir::function::ReactFunctionType;
use rl_resolver::resolver::ScopeResolver;
use rl_semantic::semantic::Semantic;
use std::alloc::Global;
use std::collections::BTreeSet;
use std::process::Abort;
use std::test::Fail;

/// Calls of a builder.
#[derive(Clone, Copy)]
pub enum Calls {
    /// Jumps in a `switch` without a label (break 2) in a loop `outer` (continue 0, break 1).
    JumpsInSwitch,
    /// Jumps in a statement labelled `L` (break 5) that is no loop.
    JumpsInLabel,
    /// Jumps behind two scopes, a loop's (continue 0, break 1) and a labelled statement's (`L`, break 5), where a closure
    /// stopped in the inner one.
    JumpsBehindStop,
    /// Jumps behind the same scopes, where the closure succeeded.
    JumpsBehindScopes,
    /// The fresh block ids before and behind an instruction under the handler 7, and that handler.
    Handler,
    /// Blocks that single moves build (`blocks`).
    Blocks,
    /// Blocks that closures build, and handlers behind them (`closures`).
    Closures,
    /// The scope of a `switch`, and what is behind it (`openings`).
    Openings,
    /// A handler and a scope that single moves open and close (`closings`).
    Closings,
    /// Two `if` statements (`branches`).
    Branches,
    /// The blocks of the graph of an `if`, in a `MapBlocks` (`graph`).
    Graph,
    /// As `Graph`, in a `DenseBlocks`.
    DenseGraph,
    /// An inner function's graph (`inner`).
    Inner,
    /// The graph of an inner function that captures a variable (`captures`).
    Captures,
    /// The tables of the unit (`tables`).
    Tables,
}

/// The targets of `break` without a label and with `label`, and then those of `continue`.
fn jumps<U: ReadsUnit>(
    alloc: Global,
    builder: &Builder<'_, U>,
    label: &str,
) -> Result<String, Stop> {
    let mut text = String::new(alloc);
    push_target(alloc, &mut text, builder.lookup_break(None))?;
    push_target(alloc, &mut text, builder.lookup_break(Some(label)))?;
    push_target(alloc, &mut text, builder.lookup_continue(None))?;
    push_target(alloc, &mut text, builder.lookup_continue(Some(label)))?;
    Ok(text)
}

fn jumps_in_switch<U: ReadsUnit>(
    alloc: Global,
    builder: &mut Builder<'_, U>,
) -> Result<String, Stop> {
    let outer = Text::from_str(alloc, "outer")?;
    builder.open_scope(JumpScope::Loop {
        label: Some(outer),
        continue_block: BlockId(0),
        break_block: BlockId(1),
    })?;
    builder.open_scope(JumpScope::Switch {
        label: None,
        break_block: BlockId(2),
    })?;
    jumps(alloc, builder, "outer")
}

fn jumps_in_label<U: ReadsUnit>(
    alloc: Global,
    builder: &mut Builder<'_, U>,
) -> Result<String, Stop> {
    let label = Text::from_str(alloc, "L")?;
    builder.label_scope(label, BlockId(5), |builder| jumps(alloc, builder, "L"))
}

/// Opens a loop and a labelled statement, and stops in it or not.
fn in_two_scopes<U: ReadsUnit>(
    builder: &mut Builder<'_, U>,
    label: Text,
    stops: bool,
) -> Result<(), Stop> {
    builder.loop_scope(None, BlockId(0), BlockId(1), |builder| {
        builder.label_scope(label, BlockId(5), |_builder| {
            if stops {
                Err(Stop::OutOfMemory)
            } else {
                Ok(())
            }
        })
    })
}

fn jumps_behind<U: ReadsUnit>(
    alloc: Global,
    builder: &mut Builder<'_, U>,
    stops: bool,
) -> Result<String, Stop> {
    let label = Text::from_str(alloc, "L")?;
    match in_two_scopes(builder, label, stops) {
        Ok(()) => jumps(alloc, builder, "L"),
        Err(_) => jumps(alloc, builder, "L"),
    }
}

/// The block ids that were handed out between two moments, and the block that throws go to, or `-`.
fn handed_out(
    alloc: Global,
    before: u32,
    after: u32,
    handler: Option<BlockId>,
) -> Result<String, OutOfMemory> {
    match handler {
        Some(block) => {
            let number = block.0;
            Ok(format!(in alloc; "{before} {after} {number} ")?)
        }
        None => Ok(format!(in alloc; "{before} {after} - ")?),
    }
}

fn handler<U: ReadsUnit>(alloc: Global, builder: &mut Builder<'_, U>) -> Result<String, Stop>
    requires { length (state_of U.tables builder.old).table < 2 ^ 32 }
{
    ready(builder)?;
    let before = builder.environment().next_block();
    builder.open_handler(BlockId(7))?;
    builder.push(undefined())?;
    let after = builder.environment().next_block();
    Ok(handed_out(alloc, before, after, builder.resolve_throw_handler())?)
}

/// The answers of `calls`, as one text.
fn answer<U: ReadsUnit>(
    alloc: Global,
    builder: &mut Builder<'_, U>,
    calls: Calls,
) -> Result<String, Stop>
    requires { length (state_of U.tables builder.old).table < 2 ^ 32 }
{
    match calls {
        Calls::JumpsInSwitch => jumps_in_switch(alloc, builder),
        Calls::JumpsInLabel => jumps_in_label(alloc, builder),
        Calls::JumpsBehindStop => jumps_behind(alloc, builder, true),
        Calls::JumpsBehindScopes => jumps_behind(alloc, builder, false),
        Calls::Handler => handler(alloc, builder),
        Calls::Blocks => blocks(alloc, builder),
        Calls::Closures => closures(alloc, builder),
        Calls::Openings => openings(alloc, builder),
        Calls::Closings => closings(alloc, builder),
        Calls::Branches => branches(alloc, builder),
        Calls::Graph => graph::<U, MapBlocks>(alloc, builder.unit(), builder.function_scope()),
        Calls::DenseGraph => {
            graph::<U, DenseBlocks>(alloc, builder.unit(), builder.function_scope())
        }
        Calls::Inner => inner(alloc, builder),
        Calls::Captures => captures(alloc, builder),
        Calls::Tables => tables(alloc, builder),
    }
}

/// As `answer`, in a fresh builder of the marked function, whose scope is `scope`.
fn answer_in<U: ReadsUnit>(
    alloc: Global,
    unit: U,
    scope: ScopeId,
    calls: Calls,
) -> Result<String, Stop> {
    let mut env = Environment::new(alloc, ReactFunctionType::Other, EntityTable::new(alloc))?;
    let mut builder = Builder::over(
        alloc,
        &mut env,
        unit,
        scope,
        scope,
        BTreeSet::new(alloc),
        None,
        None,
        None,
        None,
    )?;
    answer(alloc, &mut builder, calls)
}

/// As `answer`, in a fresh builder of `function`.
fn answer_of(
    alloc: Global,
    resolver: &ScopeResolver<'_>,
    function: &FunctionNode<'_>,
    calls: Calls,
) -> Result<String, Stop> {
    let index = IdentifierLocIndex::of(alloc, function)?;
    let Some(scope) = function.scope_id() else {
        return Ok(String::new(alloc));
    };
    let unit = UnitTables {
        resolver,
        identifier_spans: &index,
    };
    answer_in(alloc, unit, scope, calls)
}

/// Checks what calls answer in the builder of the marked function.
fn check_resolver(
    rt: &impl Abort,
    alloc: Global,
    unit: &Unit,
    resolver: &ScopeResolver<'_>,
    calls: Calls,
    wanted: &str,
) -> Result<(), Fail> {
    if let Some(function) = unit.marked_function() {
        let text = answer_of(alloc, resolver, &function, calls)?;
        assert_eq!(rt; text.as_str(), wanted);
    }
    Ok(())
}

/// Checks what calls answer, under semantic tables.
fn check_semantic(
    rt: &impl Abort,
    alloc: Global,
    unit: &Unit,
    semantic: &Semantic<'_>,
    calls: Calls,
    wanted: &str,
) -> Result<(), Fail> {
    let resolver = ScopeResolver::new(alloc, semantic)?;
    check_resolver(rt, alloc, unit, &resolver, calls, wanted)
}

/// Checks what calls answer, of a unit that was read.
fn check_unit(
    rt: &impl Abort,
    alloc: Global,
    unit: &Unit,
    calls: Calls,
    wanted: &str,
) -> Result<(), Fail> {
    let semantic = Semantic::of(alloc, unit)?;
    check_semantic(rt, alloc, unit, &semantic, calls, wanted)
}

/// The unit of these statements.
fn read(alloc: Global, statements: &str) -> Result<Unit, Fail> {
    let text = format!(in alloc; "(unit [] (program [{statements}]))")?;
    Ok(read_tree(alloc, text.as_bytes())?)
}

/// Checks what calls answer in the builder of the marked function of a unit. Each answer ends with a space.
pub fn check(
    rt: &impl Abort,
    alloc: Global,
    statements: &str,
    calls: Calls,
    wanted: &str,
) -> Result<(), Fail> {
    let unit = read(alloc, statements)?;
    check_unit(rt, alloc, &unit, calls, wanted)
}

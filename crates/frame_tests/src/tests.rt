//! Tests of the blocks of lowered formulas, on the tables of a small unit.

use crate::graph::{graph_of_both, graph_of_choice};
use rl_ast::function_node::FunctionNode;
use rl_ast::read::read_tree;
use rl_ast::unit::Unit;
use rl_base::error::OutOfMemory;
use rl_base::ids::ScopeId;
use rl_builder::unit_tables::{ReadsUnit, UnitTables};
use rl_context::index::IdentifierLocIndex;
use rl_hir::blocks::{Blocks, MapBlocks};
use rl_resolver::resolver::ScopeResolver;
use rl_semantic::semantic::Semantic;
use std::alloc::Global;
use std::process::Abort;
use std::test::Fail;

/// A unit with a marked function, `() => null`.
const MARKED: &[u8] = b"(unit [] (program [(expr (arrow y n (params [] -) (null)))]))";

/// The ids of blocks, each behind those of the blocks that lead to it.
fn listing<B: Blocks>(alloc: Global, blocks: &B) -> Result<String, OutOfMemory> {
    let mut text = String::new(alloc);
    for index in 0..blocks.len() {
        let (id, block) = blocks.at(index);
        for predecessor in block.preds.as_slice() {
            let number = predecessor.0;
            text.push_str(format!(in alloc; "{number} ")?.as_str())?;
        }
        let number = id.0;
        text.push_str(format!(in alloc; "> {number}, ")?.as_str())?;
    }
    Ok(text)
}

/// Checks the blocks of both formulas.
fn check_blocks<U: ReadsUnit>(
    rt: &impl Abort,
    alloc: Global,
    unit: U,
    scope: ScopeId,
) -> Result<(), Fail> {
    let other = unit.share();
    let both = graph_of_both::<U, MapBlocks>(alloc, unit, scope)?;
    let text = listing(alloc, &both.hir.blocks)?;
    assert_eq!(rt; text.as_str(), "> 0, 0 > 2, 2 > 3, 2 > 4, 3 4 > 1, ");
    let choice = graph_of_choice::<U, MapBlocks>(alloc, other, scope)?;
    let text = listing(alloc, &choice.hir.blocks)?;
    assert_eq!(rt;
        text.as_str(),
        "> 0, 0 > 2, 2 > 3, 3 > 5, 5 > 6, 5 > 7, 6 7 > 4, 2 > 8, 4 8 > 1, "
    );
    Ok(())
}

fn check_function(
    rt: &impl Abort,
    alloc: Global,
    resolver: &ScopeResolver<'_>,
    function: &FunctionNode<'_>,
) -> Result<(), Fail> {
    let index = IdentifierLocIndex::of(alloc, function)?;
    let unit = UnitTables {
        resolver,
        identifier_spans: &index,
    };
    match function.scope_id() {
        Some(scope) => check_blocks(rt, alloc, unit, scope),
        None => Ok(()),
    }
}

fn check_resolver(
    rt: &impl Abort,
    alloc: Global,
    unit: &Unit,
    resolver: &ScopeResolver<'_>,
) -> Result<(), Fail> {
    match unit.marked_function() {
        Some(function) => check_function(rt, alloc, resolver, &function),
        None => Ok(()),
    }
}

fn check_semantic(
    rt: &impl Abort,
    alloc: Global,
    unit: &Unit,
    semantic: &Semantic<'_>,
) -> Result<(), Fail> {
    let resolver = ScopeResolver::new(alloc, semantic)?;
    check_resolver(rt, alloc, unit, &resolver)
}

fn check_unit(rt: &impl Abort, alloc: Global, unit: &Unit) -> Result<(), Fail> {
    let semantic = Semantic::of(alloc, unit)?;
    check_semantic(rt, alloc, unit, &semantic)
}

#[test]
fn formulas_have_these_blocks(rt: HostRuntime) -> Result<(), Fail> {
    let alloc = rt.alloc();
    let unit = read_tree(alloc, MARKED)?;
    check_unit(&rt, alloc, &unit)
}

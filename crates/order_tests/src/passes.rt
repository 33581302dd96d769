//! Graphs before and after the ordering and the passes.

ghost use Rattle.std.specs.Prelude.{◌≡◌, ◌<◌};

use crate::graphs::{Graph, Source, goto, graph_of, returns};
use crate::listing::check;
use rl_base::ids::BlockId;
use rl_base::steps::Steps;
use rl_hir::blocks::{Blocks, MapBlocks};
use rl_hir::dense_blocks::DenseBlocks;
use rl_hir::function::Hir;
use rl_hir::instruction::Instruction;
use rl_hir::terminal::{GotoVariant, ReturnVariant};
use rl_order::checks::{has_orders, is_whole};
use rl_order::numbering::mark_instruction_ids;
use rl_order::order::get_reverse_postordered_blocks;
use rl_order::predecessors::mark_predecessors;
use rl_order::prune::prune;
use rl_order::removals::{remove_dead_do_while_statements, remove_unreachable_for_updates};
use rl_order::tries::remove_unnecessary_try_catch;
use std::alloc::Global;
use std::marker::Brand;
use std::process::Abort;
use std::sync::ledger::{Blank, Ledger};
use std::test::Fail;

/// A graph in its order, with a ledger for the steps.
fn ordered_by<B: Blocks, L: Ledger>(
    rt: &impl Abort,
    alloc: Global,
    hir: &Hir<B>,
    blank: Blank,
) -> Result<Hir<B>, Fail>
    requires name { blank.name ≡ L.name }
    requires parts { blank.parts ≡ L.parts }
    requires shared { 0 < blank.parts }
{
    assert!(rt; is_whole(alloc, hir)?);
    let mut steps = Steps::<L>::new(blank);
    let blocks = get_reverse_postordered_blocks(alloc, hir, &mut steps)?;
    Ok(Hir {
        entry: hir.entry,
        blocks,
    })
}

/// A graph in its order.
fn ordered<B: Blocks>(rt: &impl Abort, alloc: Global, hir: &Hir<B>) -> Result<Hir<B>, Fail> {
    ordered_by::<B, Brand>(rt, alloc, hir, Blank::new(1))
}

/// Makes all passes over an ordered graph.
fn pass_over<B: Blocks>(
    rt: &impl Abort,
    alloc: Global,
    hir: &mut Hir<B>,
    table: &mut [Instruction],
) -> Result<(), Fail> {
    remove_unreachable_for_updates(hir);
    remove_dead_do_while_statements(hir);
    remove_unnecessary_try_catch(alloc, hir)?;
    assert!(rt; has_orders(hir, table.len()));
    mark_instruction_ids(hir, table);
    mark_predecessors(alloc, hir)?;
    Ok(())
}

/// A graph after the ordering and all passes in a row, with a ledger for the steps.
fn pruned_by<B: Blocks, L: Ledger>(
    rt: &impl Abort,
    alloc: Global,
    graph: &mut Graph<B>,
    blank: Blank,
) -> Result<Hir<B>, Fail>
    requires name { blank.name ≡ L.name }
    requires parts { blank.parts ≡ L.parts }
    requires shared { 0 < blank.parts }
{
    assert!(rt; is_whole(alloc, &graph.hir)?);
    assert!(rt; has_orders(&graph.hir, graph.table.len()));
    let mut steps = Steps::<L>::new(blank);
    Ok(prune(alloc, &graph.hir, graph.table.as_mut_slice(), &mut steps)?)
}

/// A graph after the ordering and all passes in a row.
fn pruned<B: Blocks>(rt: &impl Abort, alloc: Global, graph: &mut Graph<B>) -> Result<Hir<B>, Fail> {
    pruned_by::<B, Brand>(rt, alloc, graph, Blank::new(1))
}

/// Checks a graph in its order, before the passes and after them.
fn check_passes<B: Blocks>(
    rt: &impl Abort,
    alloc: Global,
    graph: &mut Graph<B>,
    before: &str,
    after: &str,
) -> Result<(), Fail> {
    let mut hir = ordered(rt, alloc, &graph.hir)?;
    check(rt, alloc, &hir.blocks, graph.table.as_slice(), before)?;
    pass_over(rt, alloc, &mut hir, graph.table.as_mut_slice())?;
    check(rt, alloc, &hir.blocks, graph.table.as_slice(), after)
}

/// Checks a graph after the ordering and all passes in a row.
fn check_pruned<B: Blocks>(
    rt: &impl Abort,
    alloc: Global,
    source: Source,
    after: &str,
) -> Result<(), Fail> {
    let mut graph = graph_of::<B>(alloc, source)?;
    let hir = pruned(rt, alloc, &mut graph)?;
    check(rt, alloc, &hir.blocks, graph.table.as_slice(), after)
}

/// Checks the graph of a source, before the passes and after them.
fn check_source<B: Blocks>(
    rt: &impl Abort,
    alloc: Global,
    source: Source,
    before: &str,
    after: &str,
) -> Result<(), Fail> {
    let mut graph = graph_of::<B>(alloc, source)?;
    check_passes(rt, alloc, &mut graph, before, after)
}

/// Checks the graph of each source, over the table `B`.
fn check_sources<B: Blocks>(rt: &impl Abort, alloc: Global) -> Result<(), Fail> {
    let rows = [
        (
            Source::If,
            r#"0 [0@0] (if 0 - (p 0 -) 2 1 1) []; 2 [1@0 2@0] (goto 0 - 1 "break") []; 1 [3@0] (return 0 - "void" (p 3 -)) []"#,
            r#"0 [0@1] (if 2 - (p 0 -) 2 1 1) []; 2 [1@3 2@4] (goto 5 - 1 "break") [0]; 1 [3@6] (return 7 - "void" (p 3 -)) [2 0]"#,
        ),
        (
            Source::DoWhile,
            r#"0 [] (dowhile 0 - 3 1 2) []; 3 [0@0] (return 0 - "explicit" (p 0 -)) []; 2 [] (unreachable 0 -) []"#,
            r#"0 [] (goto 1 - 3 "break") []; 3 [0@2] (return 3 - "explicit" (p 0 -)) [0]; 2 [] (unreachable 4 -) []"#,
        ),
        (
            Source::For,
            r#"0 [] (for 0 - 1 2 3 4 5) []; 1 [] (goto 0 - 2 "break") []; 2 [0@0] (branch 0 - (p 0 -) 4 5 5) []; 4 [2@0] (return 0 - "explicit" (p 2 -)) []; 5 [3@0] (return 0 - "void" (p 3 -)) []"#,
            r#"0 [] (for 1 - 1 2 - 4 5) []; 1 [] (goto 2 - 2 "break") [0]; 2 [0@3] (branch 4 - (p 0 -) 4 5 5) [1]; 4 [2@5] (return 6 - "explicit" (p 2 -)) [2]; 5 [3@7] (return 8 - "void" (p 3 -)) [2]"#,
        ),
        (
            Source::While,
            r#"0 [] (while 0 - 1 2 3) []; 1 [0@0] (branch 0 - (p 0 -) 2 3 1) []; 2 [1@0] (goto 0 - 1 "continue") []; 3 [2@0] (return 0 - "void" (p 2 -)) []"#,
            r#"0 [] (while 1 - 1 2 3) []; 1 [0@2] (branch 3 - (p 0 -) 2 3 1) [0 2]; 2 [1@4] (goto 5 - 1 "continue") [1]; 3 [2@6] (return 7 - "void" (p 2 -)) [1]"#,
        ),
        (
            Source::Try,
            r#"0 [0@0] (try 0 - 1 - 2 3) []; 1 [1@0] (goto 0 - 3 "try") []; 3 [3@0] (return 0 - "void" (p 3 -)) []"#,
            r#"0 [0@1] (goto 2 - 1 "break") []; 1 [1@3] (goto 4 - 3 "try") [0]; 3 [3@5] (return 6 - "void" (p 3 -)) [1]"#,
        ),
        (
            Source::TryReturn,
            r#"0 [0@0] (try 0 - 1 - 2 3) []; 1 [1@0] (return 0 - "explicit" (p 1 -)) []; 3 [] (unreachable 0 -) [2]"#,
            r#"0 [0@1] (goto 2 - 1 "break") []; 1 [1@3] (return 4 - "explicit" (p 1 -)) [0]"#,
        ),
    ];
    for (source, before, after) in rows {
        check_source::<B>(rt, alloc, source, before, after)?;
        check_pruned::<B>(rt, alloc, source, after)?;
    }
    Ok(())
}

/// Checks that a block which is put under the id of another takes its place.
fn check_place<B: Blocks>(rt: &impl Abort, alloc: Global) -> Result<(), Fail> {
    let mut graph = Graph::<B>::new(alloc, 0)?;
    for (id, to) in [(5, 3), (3, 5), (5, 5)] {
        graph.put(alloc, id, &[], goto(to, GotoVariant::Break))?;
    }
    let wanted = r#"5 [] (goto 0 - 5 "break") []; 3 [] (goto 0 - 5 "break") []"#;
    check(rt, alloc, &graph.hir.blocks, graph.table.as_slice(), wanted)
}

/// Number of blocks of a graph whose walk is as deep as it has blocks.
const MANY: u32 = 131_072;

/// A chain of `MANY` blocks.
fn chain<B: Blocks>(alloc: Global) -> Result<Graph<B>, Fail> {
    let mut graph = Graph::<B>::new(alloc, 0)?;
    for id in 1..MANY {
        graph.put(alloc, id - 1, &[], goto(id, GotoVariant::Break))?;
    }
    graph.put(alloc, MANY - 1, &[], returns(ReturnVariant::Void, 0))?;
    Ok(graph)
}

/// Checks that a long chain is ordered and passed over within a small stack.
fn check_chain<B: Blocks>(rt: &impl Abort, alloc: Global) -> Result<(), Fail> {
    let mut graph = chain::<B>(alloc)?;
    let hir = pruned(rt, alloc, &mut graph)?;
    assert_eq!(rt; hir.blocks.len(), MANY as usize);
    let last = hir
        .blocks
        .get(BlockId(MANY - 1))
        .ok_or("the last block is lost")?;
    assert_eq!(rt; last.preds.as_slice(), [BlockId(MANY - 2)].as_slice());
    assert_eq!(rt; last.terminal.order.0, MANY);
    Ok(())
}

#[test]
fn graphs_in_map_blocks_are_ordered_and_passed_over(rt: HostRuntime) -> Result<(), Fail> {
    check_sources::<MapBlocks>(&rt, rt.alloc())
}

#[test]
fn a_block_that_is_in_map_blocks_keeps_its_place(rt: HostRuntime) -> Result<(), Fail> {
    check_place::<MapBlocks>(&rt, rt.alloc())
}

#[test]
fn many_map_blocks_in_a_row_take_no_stack(rt: HostRuntime) -> Result<(), Fail> {
    check_chain::<MapBlocks>(&rt, rt.alloc())
}

#[test]
fn graphs_in_dense_blocks_are_ordered_and_passed_over(rt: HostRuntime) -> Result<(), Fail> {
    check_sources::<DenseBlocks>(&rt, rt.alloc())
}

#[test]
fn a_block_that_is_in_dense_blocks_keeps_its_place(rt: HostRuntime) -> Result<(), Fail> {
    check_place::<DenseBlocks>(&rt, rt.alloc())
}

#[test]
fn many_dense_blocks_in_a_row_take_no_stack(rt: HostRuntime) -> Result<(), Fail> {
    check_chain::<DenseBlocks>(&rt, rt.alloc())
}

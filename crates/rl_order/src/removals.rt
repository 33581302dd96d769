//! The removals: terminals that name blocks which the ordering dropped.

ghost use Rattle.std.specs.Prelude.{◌≡◌, ◌<◌, length, unwrap_or, slice_get, Some};
ghost use Rattle.std.specs.Map.{values_of};
ghost use Rattle.rl_hir.specs.Blocks.{with_block_at};
ghost use Rattle.rl_hir.specs.declared.function.BasicBlock.{BasicBlock};
ghost use Rattle.rl_order.specs.Removals.{is_there, live_do_while, live_for, with_kind, without_dead_do_whiles, without_unreachable_updates};

use crate::indices::take_block;
use rl_base::ids::BlockId;
use rl_hir::blocks::Blocks;
use rl_hir::function::Hir;
use rl_hir::terminal::{GotoVariant, TerminalKind};

/// True of a block of the graph.
pub fn is_there<B: Blocks>(blocks: &B, id: BlockId) -> bool
    ensures { result ≡ is_there (B.pairs blocks.now) id }
{
    blocks.get(id).is_some()
}

/// Gives the terminal of the block at an index another kind, if there is one.
#[tactic(auto, using(crate::proofs::RemovalSteps::unchanged))]
pub(crate) fn change_kind<B: Blocks>(blocks: &mut B, index: usize, kind: Option<TerminalKind>)
    requires { index < length (B.pairs blocks.old) }
    ensures { (block : BasicBlock) → slice_get (values_of (B.pairs blocks.old)) index ≡ Some block → B.pairs blocks.new ≡ with_block_at (B.pairs blocks.old) index (with_kind block (unwrap_or kind block.terminal.kind)) }
{
    match kind {
        Some(kind) => {
            let mut block = take_block(blocks, index);
            block.terminal.kind = kind;
            let _ = blocks.set_at(index, block);
        }
        None => {}
    }
}

/// The kind in place of that of a `for` loop whose update is missing.
fn without_update<B: Blocks>(blocks: &B, kind: &TerminalKind) -> Option<TerminalKind>
    ensures { unwrap_or result kind.now ≡ live_for (is_there (B.pairs blocks.now)) kind.now }
{
    match kind {
        TerminalKind::For {
            init,
            test,
            update,
            loop_block,
            fallthrough,
        } => {
            if is_there(blocks, (*update)?) {
                return None;
            }
            Some(TerminalKind::For {
                init: *init,
                test: *test,
                update: None,
                loop_block: *loop_block,
                fallthrough: *fallthrough,
            })
        }
        _ => None,
    }
}

/// The kind in place of that of a `do`-`while` loop whose test is missing.
fn without_test<B: Blocks>(blocks: &B, kind: &TerminalKind) -> Option<TerminalKind>
    ensures { unwrap_or result kind.now ≡ live_do_while (is_there (B.pairs blocks.now)) kind.now }
{
    match kind {
        TerminalKind::DoWhile {
            loop_block,
            test,
            ..
        } => {
            if is_there(blocks, *test) {
                return None;
            }
            Some(TerminalKind::Goto {
                block: *loop_block,
                variant: GotoVariant::Break,
            })
        }
        _ => None,
    }
}

/// The kind in place of that of a loop whose update or test is missing.
pub(crate) fn live_kind<B: Blocks>(blocks: &B, kind: &TerminalKind) -> Option<TerminalKind>
    ensures { unwrap_or result kind.now ≡ live_do_while (is_there (B.pairs blocks.now)) (live_for (is_there (B.pairs blocks.now)) kind.now) }
{
    match kind {
        TerminalKind::For { .. } => without_update(blocks, kind),
        TerminalKind::DoWhile { .. } => without_test(blocks, kind),
        _ => None,
    }
}

/// As `remove_unreachable_for_updates`, of the blocks of a graph.
fn drop_updates<B: Blocks>(blocks: &mut B)
    ensures { B.pairs blocks.new ≡ without_unreachable_updates (B.pairs blocks.old) }
{
    for index in 0..blocks.len() {
        let (_, block) = blocks.at(index);
        let kind = without_update(blocks, &block.terminal.kind);
        change_kind(blocks, index, kind);
    }
}

/// As `remove_dead_do_while_statements`, of the blocks of a graph.
fn drop_tests<B: Blocks>(blocks: &mut B)
    ensures { B.pairs blocks.new ≡ without_dead_do_whiles (B.pairs blocks.old) }
{
    for index in 0..blocks.len() {
        let (_, block) = blocks.at(index);
        let kind = without_test(blocks, &block.terminal.kind);
        change_kind(blocks, index, kind);
    }
}

/// Takes the update from each `for` loop whose update is missing (`removeUnreachableForUpdates`).
pub fn remove_unreachable_for_updates<B: Blocks>(hir: &mut Hir<B>)
    ensures entry { hir.new.entry ≡ hir.old.entry }
    ensures blocks { B.pairs hir.new.blocks ≡ without_unreachable_updates (B.pairs hir.old.blocks) }
{
    drop_updates(&mut hir.blocks);
}

/// Makes a goto to its block of each `do`-`while` loop whose test is missing (`removeDeadDoWhileStatements`).
pub fn remove_dead_do_while_statements<B: Blocks>(hir: &mut Hir<B>)
    ensures entry { hir.new.entry ≡ hir.old.entry }
    ensures blocks { B.pairs hir.new.blocks ≡ without_dead_do_whiles (B.pairs hir.old.blocks) }
{
    drop_tests(&mut hir.blocks);
}

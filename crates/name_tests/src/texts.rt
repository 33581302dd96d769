//! Texts that tests compare, and the room that calls of a builder ask for.

ghost use Rattle.std.specs.Prelude.{◌+◌, ◌<◌, ◌^◌, IsTrue, OnOk, length};
ghost use Rattle.rl_builder.specs.Builder.{state_of};

use rl_base::error::OutOfMemory;
use rl_builder::builder::HirBuilder;
use rl_builder::unit_tables::ReadsUnit;
use rl_hir::blocks::GraphBlocks;
use rl_hir::function::BlockKind;
use std::alloc::Global;

/// A builder of tests.
pub type Builder<'e, U> = HirBuilder<'e, U, GraphBlocks>;

/// Appends a word.
pub fn push_word(alloc: Global, text: &mut String, word: &str) -> Result<(), OutOfMemory> {
    text.push_str(format!(in alloc; "{word} ")?.as_str())?;
    Ok(())
}

/// Appends a number, or `-`.
pub fn push_number(
    alloc: Global,
    text: &mut String,
    number: Option<u32>,
) -> Result<(), OutOfMemory> {
    match number {
        Some(number) => text.push_str(format!(in alloc; "{number} ")?.as_str())?,
        None => text.push_str("- ")?,
    }
    Ok(())
}

/// Appends `yes` or `no`.
pub fn push_truth(alloc: Global, text: &mut String, holds: bool) -> Result<(), OutOfMemory> {
    push_word(alloc, text, if holds { "yes" } else { "no" })
}

/// Appends the kind of a block.
pub fn push_kind(alloc: Global, text: &mut String, kind: BlockKind) -> Result<(), OutOfMemory> {
    text.push_str(format!(in alloc; "{kind:?} ")?.as_str())?;
    Ok(())
}

/// True while a builder may hand out many more ids.
pub fn has_room<U: ReadsUnit>(builder: &Builder<'_, U>) -> bool
    ensures identifiers { IsTrue result → length (state_of U.tables builder.now).env.identifiers + 1 < 2 ^ 32 }
    ensures types { IsTrue result → (state_of U.tables builder.now).env.next_type + 2 < 2 ^ 32 }
    ensures blocks { IsTrue result → (state_of U.tables builder.now).env.next_block + 3 < 2 ^ 32 }
{
    let env = builder.environment();
    env.identifiers().len() < 1000 && env.next_type() < 1000 && env.next_block() < 1000
}

/// On `OutOfMemory` a builder has handed out too many ids for a test.
pub fn ready<U: ReadsUnit>(builder: &Builder<'_, U>) -> Result<(), OutOfMemory>
    ensures identifiers { OnOk result (length (state_of U.tables builder.now).env.identifiers + 1 < 2 ^ 32) }
    ensures types { OnOk result ((state_of U.tables builder.now).env.next_type + 2 < 2 ^ 32) }
    ensures blocks { OnOk result ((state_of U.tables builder.now).env.next_block + 3 < 2 ^ 32) }
{
    if has_room(builder) {
        Ok(())
    } else {
        Err(OutOfMemory)
    }
}

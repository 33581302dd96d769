//! Notes at blocks.

ghost use Rattle.std.specs.Prelude.{◌≡◌, ◌<◌, OnOk, Some, length};
ghost use Rattle.rl_machine.specs.Ends.{no_notes, noted};
ghost use Rattle.rl_graph_steps.specs.Notes.{note_at, note_of, notes_of};

use rl_base::error::OutOfMemory;
use rl_base::ids::{BlockId, IdentifierId};
use rl_base::operator::LogicalOperator;
use std::alloc::Global;

/// A note at a block: the construct that was last run of those that name the block as their fallthrough, test, init or handler.
#[derive(Clone, Copy)]
pub enum Note {
    /// A logical expression.
    Connects(LogicalOperator),
    /// A conditional expression.
    Chooses,
    /// A link of an optional chain; true where the source has `?.`.
    Chains(bool),
    /// A `for`, `while` or `do`-`while` loop, with the block behind it.
    Loops(BlockId),
    /// A `for`-`in` loop, with the block behind it.
    Enumerates(BlockId),
    /// A `for`-`of` loop, with the block behind it; true if the block has asked for its iterator since.
    Iterates(BlockId, bool),
    /// A `try`, with the identifier that takes the value of a throw.
    Catches(Option<IdentifierId>),
    /// Any other construct.
    Passes,
}

/// The notes of a run, by block id.
#[derive(Drop)]
pub struct Notes {
    entries: Vec<Option<Note>>,
}

impl Notes {
    /// No notes. Allocates nothing.
    pub fn new(alloc: Global) -> Notes
        ensures { notes_of result ≡ no_notes }
    {
        Notes {
            entries: Vec::new(alloc),
        }
    }

    /// The note at a block.
    pub fn get(&self, block: BlockId) -> Option<Note>
        ensures { note_at (Some result) ≡ notes_of self.now block.0 }
    {
        match self.entries.as_slice().get(block.0 as usize) {
            Some(note) => *note,
            None => None,
        }
    }

    /// Makes entries for the blocks up to `index`. On `OutOfMemory` an allocation failed.
    fn make_room(&mut self, index: usize) -> Result<(), OutOfMemory>
        ensures same { OnOk result (notes_of self.new ≡ notes_of self.old) }
        ensures room { OnOk result (index < length self.new.entries.items) }
    {
        'room: while self.entries.len() <= index {
            self.entries.push(None)?;
        }
        Ok(())
    }

    /// Notes a construct at a block. On `OutOfMemory` an allocation failed.
    pub fn set(&mut self, block: BlockId, note: Note) -> Result<(), OutOfMemory>
        ensures { OnOk result (notes_of self.new ≡ noted (notes_of self.old) block (note_of note)) }
    {
        let index = block.0 as usize;
        self.make_room(index)?;
        self.entries[index] = Some(note);
        Ok(())
    }
}

//! The tasks of a walk over a graph.

use rl_base::ids::BlockId;

/// A visit of a block.
#[derive(Clone, Copy)]
pub struct Visit {
    /// The block that is visited.
    pub id: BlockId,
    /// True if successors lead to the block from the entry, as far as the walk knows.
    pub used: bool,
}

/// A task that a walk has still to do.
#[derive(Clone, Copy)]
pub enum Task {
    /// Visits a block.
    Enter(Visit),
    /// Appends a block, whose first visit ends.
    Append(BlockId),
}

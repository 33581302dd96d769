//! The state of a walk over a graph.

ghost use Rattle.std.specs.Prelude.{◌≡◌, ◌++◌, [], IfNone, IfOk, OnOk, option_to_list};
ghost use Rattle.rl_order.specs.Walk.{appended, entered, is_first, is_noted, is_passed, is_used, nothing};

use crate::room::map_with_room;
use crate::tasks::Visit;
use rl_base::error::OutOfMemory;
use rl_base::ids::BlockId;
use rl_hir::block_sets::{BlockMap, BlockSet, new_set};
use std::alloc::Global;
use std::marker::Model;

/// The blocks that a walk has visited, each with true if it is used; the fallthroughs of used blocks; and the blocks whose first
/// visit has ended, in the order of these ends.
#[derive(Drop)]
pub(crate) struct Walked {
    seen: BlockMap<bool>,
    noted: BlockSet,
    appended: Vec<BlockId>,
}

impl Model for Walked {
    ghost use Rattle.rl_order.specs.Walk.{Walk};

    ghost Value = { Walk };

    ghost view = { λ walked. record { seen = walked.seen.entries; noted = walked.noted.keys; appended = walked.appended.items } };
}

impl Walked {
    /// A walk that has visited nothing, with room for `count` blocks. On `OutOfMemory` an allocation failed.
    pub(crate) fn new(alloc: Global, count: usize) -> Result<Walked, OutOfMemory>
        ensures { IfOk result (λ walked. walked ≡ nothing) }
    {
        Ok(Walked {
            seen: map_with_room(alloc, count)?,
            noted: new_set(alloc),
            appended: Vec::with_capacity(alloc, count)?,
        })
    }

    /// True of a visit that is passed over: the block was visited before, and it is used already or this visit is not used.
    pub(crate) fn is_passed(&self, visit: Visit) -> bool
        ensures { result ≡ is_passed self.now visit }
    {
        match self.seen.get(&visit.id) {
            Some(used) => *used || !visit.used,
            None => false,
        }
    }

    /// True if the block was not visited yet.
    pub(crate) fn is_first(&self, id: BlockId) -> bool
        ensures { result ≡ is_first self.now id }
    {
        self.seen.get(&id).is_none()
    }

    /// True of a block that is used.
    pub(crate) fn is_used(&self, id: BlockId) -> bool
        ensures { result ≡ is_used self.now id }
    {
        match self.seen.get(&id) {
            Some(used) => *used,
            None => false,
        }
    }

    /// True of the fallthrough of a used block.
    pub(crate) fn is_noted(&self, id: BlockId) -> bool
        ensures { result ≡ is_noted self.now id }
    {
        self.noted.contains(&id)
    }

    /// Begins a visit of a block whose terminal has the fallthrough `behind`. On `OutOfMemory` an allocation failed.
    pub(crate) fn enter(&mut self, visit: Visit, behind: Option<BlockId>) -> Result<(), OutOfMemory>
        ensures { OnOk result (self.new ≡ entered self.old visit behind) }
    {
        self.seen.insert(visit.id, visit.used)?;
        if let Some(id) = behind {
            if visit.used {
                self.noted.insert(id)?;
            }
        }
        Ok(())
    }

    /// Appends a block. On `OutOfMemory` an allocation failed.
    pub(crate) fn append(&mut self, id: BlockId) -> Result<(), OutOfMemory>
        ensures { OnOk result (self.new ≡ appended self.old id) }
    {
        self.appended.push(id)?;
        Ok(())
    }

    /// Takes away the block that was appended last, and returns it. `None` if there is none.
    pub(crate) fn pop(&mut self) -> Option<BlockId>
        ensures appended { self.old.appended ≡ self.new.appended ++ option_to_list result }
        ensures none { IfNone result (self.old.appended ≡ []) }
        ensures rest { self.new ≡ record self.old { appended = self.new.appended } }
    {
        self.appended.pop()
    }
}

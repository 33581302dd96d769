//! Sets of symbols.

ghost use Rattle.std.specs.Prelude.{◌≡◌, ◌||◌, [], nat_eq, OnOk, OnErr};
ghost use Rattle.rl_base.specs.declared.ids.SymbolId.{SymbolId as Symbol};
ghost use Rattle.rl_hir.specs.Symbols.{added, has};

use rl_base::error::OutOfMemory;
use rl_base::ids::SymbolId;
use std::alloc::Global;
use std::collections::BTreeSet;
use std::marker::Model;

/// A set of symbols. Contracts see the members, in the order of their ids. A call takes a number of comparisons that is at most
/// logarithmic in the number of members.
#[derive(Drop)]
pub struct SymbolSet {
    members: BTreeSet<SymbolId>,
}

impl Model for SymbolSet {
    ghost use Rattle.std.specs.Prelude.{List};
    ghost use Rattle.rl_base.specs.declared.ids.SymbolId.{SymbolId};

    ghost Value = { List SymbolId };

    ghost view = { λ set. set.members.keys };
}

impl SymbolSet {
    /// The empty set. It takes no memory.
    pub fn new(alloc: Global) -> SymbolSet
        ensures { result ≡ [] }
    {
        SymbolSet {
            members: BTreeSet::new(alloc),
        }
    }

    /// True of a member.
    #[tactic(auto, using(crate::proofs::Symbols::found_members))]
    pub fn contains(&self, symbol: SymbolId) -> bool
        ensures { result ≡ has self.now symbol }
    {
        self.members.contains(&symbol)
    }

    /// Adds a symbol. On `OutOfMemory` an allocation failed, and nothing changed.
    pub fn insert(&mut self, symbol: SymbolId) -> Result<(), OutOfMemory>
        ensures ok { OnOk result (self.new ≡ added self.old symbol) }
        ensures members { OnOk result ((other : Symbol) → has self.new other ≡ (has self.old other || nat_eq other.0 symbol.0)) }
        ensures err { OnErr result (self.new ≡ self.old) }
    {
        self.members.insert(symbol)?;
        Ok(())
    }
}

//! The properties of a unit's names, as rows ask for them.

use rl_base::ids::{NodeId, ReferenceId, SymbolId};
use rl_base::text::Text;
use rl_facts::unit_facts::UnitFacts;
use rl_row_names::facts::RowFacts;

/// The properties of the names of a unit, as rows ask for them.
#[derive(Drop)]
pub struct KnownFacts<'s> {
    /// The properties.
    pub facts: UnitFacts<'s>,
}

impl RowFacts for KnownFacts<'_> {
    ghost use Rattle.rl_facts.specs.Facts.{facts_in};

    ghost facts = { λ known. facts_in known.facts };

    fn local(&self, reference: ReferenceId, name: &Text) -> Option<SymbolId> {
        // The clause names both parts of the reference; a local variable is found by its number alone.
        let _name = name;
        self.facts.variables.local(reference)
    }

    fn is_const(&self, symbol: SymbolId) -> bool {
        self.facts.is_const(symbol)
    }

    fn is_context(&self, node: NodeId, symbol: SymbolId) -> bool {
        self.facts.is_context(node, symbol)
    }

    fn is_global(&self, reference: ReferenceId) -> bool {
        self.facts.is_global(reference)
    }

    fn is_variable(&self, bind: NodeId) -> bool {
        self.facts.is_variable(bind)
    }

    fn is_lost(&self, bind: NodeId) -> bool {
        self.facts.is_lost(bind)
    }

    fn is_bound(&self, name: &Text) -> bool {
        self.facts.is_bound(name)
    }

    fn is_module(&self, reference: ReferenceId) -> bool {
        self.facts.is_module(reference)
    }

    fn is_dead(&self, node: NodeId) -> bool {
        self.facts.is_dead(node)
    }
}

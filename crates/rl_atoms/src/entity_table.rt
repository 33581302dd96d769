//! The table of entities of a unit.

ghost use Rattle.std.specs.Prelude.{◌≡◌, ◌++◌, [], ◌∷◌, true, ℕ, List, IfSome, OnOk, OnErr};
ghost use Rattle.rl_base.specs.Scalars.{is_scalar_value};
ghost use Rattle.rl_atoms.specs.Entities.{entity_value};

use crate::entity::Entity;
use rl_base::error::OutOfMemory;
use rl_base::name_table::NameTable;
use std::alloc::Global;
use std::marker::Model;

/// Entities with an index by name. Contracts see the list of entities, in the order in which their names came. No two have one
/// name, and each value is a Unicode scalar value.
#[derive(Drop)]
pub struct EntityTable {
    table: NameTable<Entity>,
}

impl Model for EntityTable {
    ghost use Rattle.std.specs.Prelude.{◌≡◌, true, List as Items};
    ghost use Rattle.rl_atoms.specs.declared.entity.Entity.{Entity};
    ghost use Rattle.rl_atoms.specs.Entities.{are_scalar};

    ghost Value = { Items Entity };

    ghost view = { λ entities. entities.table };

    ghost invariant = { λ entities. are_scalar entities.table ≡ true };
}

impl EntityTable {
    /// The table without entities. Allocates nothing.
    pub fn new(alloc: Global) -> EntityTable
        ensures { result ≡ [] }
    {
        EntityTable {
            table: NameTable::new(alloc),
        }
    }

    /// Adds an entity behind those that are there. Where one has its name, that one counts, and the entity is dropped. On
    /// `OutOfMemory`, an allocation failed, and nothing has changed.
    #[tactic(auto, using(crate::proofs::Entities::entity_added))]
    pub fn push(&mut self, alloc: Global, entity: Entity) -> Result<(), OutOfMemory>
        requires { is_scalar_value entity.value ≡ true }
        ensures added { OnOk result ((name : List ℕ) → entity_value self.new name ≡ entity_value (self.old ++ entity ∷ []) name) }
        ensures err { OnErr result (self.new ≡ self.old) }
    {
        self.table.insert_new(alloc, entity)?;
        Ok(())
    }

    /// The value of the first entity named `name`. `None` if there is none.
    pub fn get(&self, name: &str) -> Option<u32>
        ensures first { result ≡ entity_value self.now name.now }
        ensures scalar { IfSome result (λ value. is_scalar_value value ≡ true) }
    {
        match self.table.get(name) {
            Some(entity) => Some(entity.value),
            None => None,
        }
    }
}

//! The entities of a unit by their names.

ghost use Rattle.std.specs.Prelude.{◌≡◌, ℕ, List, IfOk, OnOk};
ghost use Rattle.rl_atoms.specs.Entities.{entity_value};
ghost use Rattle.rl_model.specs.JsxText.{entity_of};
ghost use Rattle.rl_source_scene.specs.Entities.{IsAdded};
ghost use Rattle.rl_syntax.specs.Syntax.{syntax};

use rl_ast::program::entity_view;
use rl_ast::unit::Unit;
use rl_atoms::entity::Entity;
use rl_atoms::entity_table::EntityTable;
use rl_base::error::OutOfMemory;
use rl_grammar::sort::EntityTree;
use std::alloc::Global;

/// Adds an entity of a unit. On `OutOfMemory`, an allocation failed.
fn push_entity(
    alloc: Global,
    table: &mut EntityTable,
    tree: EntityTree<'_>,
) -> Result<(), OutOfMemory>
    ensures { OnOk result (IsAdded table.old (syntax tree.entry.tree.now) table.new) }
{
    let entity = entity_view(tree);
    let name = entity.name.copy(alloc)?;
    let value = entity.value;
    table.push(alloc, Entity { name, value })?;
    Ok(())
}

/// The entities of JSX texts that a unit brings. On `OutOfMemory`, an allocation failed.
#[tactic(auto, using(crate::proofs::EntityLists::listing))]
pub fn entities_of(alloc: Global, unit: &Unit) -> Result<EntityTable, OutOfMemory>
    ensures { IfOk result (λ table. (name : List ℕ) → entity_value table name ≡ entity_of (syntax unit.now.tree) name) }
{
    let mut table = EntityTable::new(alloc);
    let mut left = unit.view().entities;
    'entities: while let Some((first, rest)) = left.split_first() {
        push_entity(alloc, &mut table, first)?;
        left = rest;
    }
    Ok(table)
}

//! The tables that tell the properties of a unit's names.

ghost use Rattle.std.specs.Prelude.{◌≡◌, ℕ};
ghost use Rattle.rl_base.specs.declared.ids.SymbolId.{SymbolId as Symbol};
ghost use Rattle.rl_code.specs.Flags.{flag_at};
ghost use Rattle.rl_context.specs.Context.{has, is_context};
ghost use Rattle.rl_context.specs.Sites.{sites_in};
ghost use Rattle.rl_markers.specs.Named.{tables};
ghost use Rattle.rl_markers.specs.Tables.{AreMarkers};
ghost use Rattle.rl_model.specs.Supported.{is_dead_function};
ghost use Rattle.rl_names.specs.Seen.{seen};
ghost use Rattle.rl_syntax.specs.Syntax.{syntax};

use rl_base::ids::SymbolId;
use rl_code::variables::Variables;
use rl_markers::marker_table::MarkerTable;
use rl_syntax::numbered::Numbered;
use std::collections::BTreeSet;

/// The properties of the names of a unit that rows ask for, in the lowering of its marked function. No method allocates.
#[derive(Drop)]
pub struct UnitFacts<'s> {
    /// The names of the unit.
    pub variables: Variables<'s>,
    /// The marked function.
    pub marked: &'s Numbered,
    pub(crate) contexts: BTreeSet<SymbolId>,
    pub(crate) markers: MarkerTable,
    pub(crate) dead: Vec<bool>,
    ghost contexts_are: { (symbol : Symbol) → has contexts symbol ≡ is_context (tables variables) (sites_in (syntax marked.now)) symbol.0 },
    ghost markers_are: { AreMarkers (tables variables) (seen variables.names) (syntax marked.now) markers },
    ghost dead_are: { (node : ℕ) → flag_at dead.items node ≡ is_dead_function (syntax marked.now) node },
}

//! Look-ups in the lists of a unit's names.

ghost use Rattle.std.specs.Prelude.{◌≡◌};
ghost use Rattle.rl_resolver.specs.Around as around;
ghost use Rattle.rl_resolver.specs.Lookups as spec;

use rl_base::ids::{ScopeId, SymbolId};
use rl_bindings::event::ScopeEntry;

/// The id of a symbol with an index. `None` above the largest id, which no symbol's index is.
pub(crate) fn symbol_id(number: Option<usize>) -> Option<SymbolId>
    ensures { result ≡ spec.symbol_id number }
{
    match number {
        Some(number) => {
            if number <= 4_294_967_295 {
                Some(SymbolId(number as u32))
            } else {
                None
            }
        }
        None => None,
    }
}

/// The number of ids that items have by their indices: no more than there are ids.
pub(crate) fn id_count(items: usize) -> u32
    ensures { result ≡ around.id_count items }
{
    if items <= 4_294_967_295 {
        items as u32
    } else {
        4_294_967_295
    }
}

/// The scope around a scope. `None` for the program's scope, and for a number that is no scope's.
pub(crate) fn scope_parent(scopes: &[ScopeEntry], scope: ScopeId) -> Option<ScopeId>
    ensures { result ≡ spec.scope_parent scopes.now scope.0 }
{
    match scopes.get(scope.0 as usize) {
        Some(entry) => entry.parent,
        None => None,
    }
}

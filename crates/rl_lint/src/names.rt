//! Look-ups in the tables of a unit's names.

ghost use Rattle.std.specs.Prelude.{◌≡◌, Some, slice_get};
ghost use Rattle.std.specs.Option.{option_copied};
ghost use Rattle.rl_lint.specs.Lates as lists;
ghost use Rattle.rl_lint.specs.Rules as spec;
ghost use Rattle.rl_resolver.specs.Around.{ancestors, outward};
ghost use Rattle.rl_resolver.specs.Lookups as lookups;

use rl_base::ids::{NodeId, ReferenceId, ScopeId};
use rl_bindings::bindings::Bindings;
use rl_bindings::event::{Bound, ScopeEntry};
use rl_bindings::resolve::Declaration;

/// True of declarations whose nodes have larger and larger ids.
fn are_ordered(declarations: &[Declaration]) -> bool
    ensures { result ≡ lists.are_ordered 0 declarations.now }
{
    let mut least = 0;
    'declarations: for declaration in declarations {
        let node = declaration.node.0 as usize;
        if node < least {
            return false;
        }
        least = node + 1;
    }
    true
}

/// Index of the first declaration from an index on whose node has no smaller id. The number of declarations if there is none.
fn next_row(declarations: &[Declaration], start: usize, node: NodeId) -> usize {
    let mut row = start;
    'rows: while row < declarations.len() {
        if node.0 <= declarations[row].node.0 {
            return row;
        }
        row += 1;
    }
    row
}

/// The number of the symbol that a `bind` node declares, by the first of declarations of that node. `None` without one.
fn declared_among(declarations: &[Declaration], node: NodeId) -> Option<usize>
    ensures { result ≡ spec.declared declarations.now node.0 }
{
    'declarations: for declaration in declarations {
        if declaration.node.0 == node.0 {
            return declaration.symbol;
        }
    }
    None
}

/// The tables of a unit's names, and what is known of the order of its declarations.
#[derive(Drop)]
pub(crate) struct UnitNames<'s> {
    /// The tables.
    pub(crate) bindings: &'s Bindings,
    /// True of declarations whose nodes have larger and larger ids.
    in_order: bool,
    ghost ordered: { in_order ≡ lists.are_ordered 0 bindings.now.declarations },
}

impl<'s> UnitNames<'s> {
    /// The tables of a unit's names.
    pub(crate) fn new(bindings: &'s Bindings) -> UnitNames<'s>
        ensures { result.bindings.now ≡ bindings.now }
    {
        let in_order = are_ordered(bindings.declarations.as_slice());
        UnitNames { bindings, in_order }
    }

    /// The number of the symbol that a `bind` node declares. `None` at any other node. The search begins at the index `row` of the
    /// declarations and moves it on: for nodes in order, it takes time that is linear in the declarations for all of them together.
    pub(crate) fn declared(&self, row: &mut usize, node: NodeId) -> Option<usize>
        ensures { result ≡ spec.declared self.now.bindings.now.declarations node.0 }
    {
        let declarations = self.bindings.declarations.as_slice();
        *row = next_row(declarations, *row, node);
        if self.in_order {
            if let Some(declaration) = self.bindings.declarations.get(*row) {
                if declaration.node.0 == node.0 {
                    return declaration.symbol;
                }
            }
        }
        declared_among(declarations, node)
    }
}

/// The number of the symbol that a reference resolves to. `None` of a global.
pub(crate) fn used(bindings: &Bindings, reference: ReferenceId) -> Option<usize>
    ensures { result ≡ spec.used bindings.now.references reference.0 }
{
    match bindings.references.get(reference.0 as usize) {
        Some(found) => found.symbol,
        None => None,
    }
}

/// The first declaration of the symbol with a number. `None` of a number that is no symbol's.
pub(crate) fn symbol_at(bindings: &Bindings, number: usize) -> Option<&Bound>
    ensures { option_copied result ≡ slice_get bindings.now.symbols number }
{
    bindings.symbols.as_slice().get(number)
}

/// The text of a name. Empty for a number that is no name's.
pub(crate) fn name_text(bindings: &Bindings, name: u32) -> &str
    ensures { result.now ≡ lookups.name_text bindings.now.names name }
{
    match bindings.names.as_slice().get(name as usize) {
        Some(found) => found.text.as_str(),
        None => "",
    }
}

/// The scope around a scope. `None` for the program's scope.
pub(crate) fn scope_parent(scopes: &[ScopeEntry], scope: ScopeId) -> Option<ScopeId>
    ensures { result ≡ lookups.scope_parent scopes.now scope.0 }
{
    match scopes.get(scope.0 as usize) {
        Some(entry) => entry.parent,
        None => None,
    }
}

/// The number of scopes around a scope, itself included, that a walk outwards may find: its number and one, and none for a number that
/// is no scope's.
pub(crate) fn scopes_left(scopes: &[ScopeEntry], scope: ScopeId) -> usize
    ensures { outward scopes.now result (Some scope) ≡ ancestors scopes.now scope }
{
    match scopes.get(scope.0 as usize) {
        Some(_) => scope.0 as usize + 1,
        None => 0,
    }
}

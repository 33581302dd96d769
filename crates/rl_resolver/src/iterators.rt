//! Iterators over scopes and symbols, after those of the original's `ScopeResolver`.

ghost use Rattle.std.specs.Prelude.{◌≡◌, ◌≤◌, ◌-◌, length};
ghost use Rattle.std.specs.Iterator.{YieldsFirst, item_count};
ghost use Rattle.rl_semantic.specs.Buckets.{AreBuckets};
ghost use Rattle.rl_resolver.specs.Containing.{containing_function_scopes, functions_out, methods_in};
ghost use Rattle.rl_resolver.specs.Around.{ancestors, outward, ids_from};

use crate::inside::advance;
use crate::lookups::scope_parent;
use rl_base::ids::{NodeId, ScopeId, SymbolId};
use rl_base::list::List;
use rl_bindings::event::ScopeEntry;
use rl_syntax::nodes::NodeEntry;

/// The scopes around a scope, itself first: `ancestors` of the original.
#[derive(Clone, Copy)]
pub struct Ancestors<'s> {
    /// The scopes of the unit.
    pub(crate) scopes: &'s [ScopeEntry],
    /// The most that are left to come.
    pub(crate) most: usize,
    /// The scope that comes next. `None` past the program's.
    pub(crate) next: Option<ScopeId>,
}

impl<'s> Ancestors<'s> {
    /// The scopes around a scope. Empty for a number that is no scope's.
    pub(crate) fn of(scopes: &'s [ScopeEntry], scope: ScopeId) -> Ancestors<'s>
        ensures { outward result.scopes.now result.most result.next ≡ ancestors scopes.now scope }
    {
        match scopes.get(scope.0 as usize) {
            Some(_) => Ancestors {
                scopes,
                most: scope.0 as usize + 1,
                next: Some(scope),
            },
            None => Ancestors {
                scopes,
                most: 0,
                next: None,
            },
        }
    }
}

impl<'s> Iterator for Ancestors<'s> {
    type Item = ScopeId;

    ghost next_gives = { YieldsFirst (λ s. outward s.scopes.now s.most s.next) };

    ghost remaining = { item_count (λ s. outward s.scopes.now s.most s.next) };

    fn next(&mut self) -> Option<ScopeId> {
        if self.most == 0 {
            return None;
        }
        match self.next {
            Some(scope) => {
                self.most -= 1;
                self.next = scope_parent(self.scopes, scope);
                Some(scope)
            }
            None => None,
        }
    }
}

/// Symbols in the order of their numbers: `symbols` of the original.
#[derive(Clone, Copy, Drop)]
pub struct Symbols {
    /// The number of the symbol that comes next.
    pub(crate) next: u32,
    /// The number of symbols.
    pub(crate) end: u32,
    ghost bounded: { next ≤ end },
}

impl Iterator for Symbols {
    type Item = SymbolId;

    ghost next_gives = { YieldsFirst (λ s. ids_from s.next (s.end - s.next)) };

    ghost remaining = { item_count (λ s. ids_from s.next (s.end - s.next)) };

    fn next(&mut self) -> Option<SymbolId> {
        if self.next == self.end {
            return None;
        }
        let symbol = SymbolId(self.next);
        self.next += 1;
        Some(symbol)
    }
}

/// Scopes of functions: `function_scopes` of the original.
#[derive(Clone, Copy)]
pub struct FunctionScopes<'s> {
    /// The scopes that are left to come.
    pub(crate) left: &'s [ScopeId],
}

impl<'s> Iterator for FunctionScopes<'s> {
    type Item = ScopeId;

    ghost next_gives = { YieldsFirst (λ s. s.left.now) };

    ghost remaining = { item_count (λ s. s.left.now) };

    fn next(&mut self) -> Option<ScopeId> {
        let (first, rest) = self.left.split_first()?;
        self.left = rest;
        Some(*first)
    }
}

/// Symbols that a scope binds names to: `bindings_in` of the original.
#[derive(Clone, Copy)]
pub struct Bindings<'s> {
    /// The symbols that are left to come.
    pub(crate) left: &'s [SymbolId],
}

impl<'s> Iterator for Bindings<'s> {
    type Item = SymbolId;

    ghost next_gives = { YieldsFirst (λ s. s.left.now) };

    ghost remaining = { item_count (λ s. s.left.now) };

    fn next(&mut self) -> Option<SymbolId> {
        let (first, rest) = self.left.split_first()?;
        self.left = rest;
        Some(*first)
    }
}

/// Scopes of the functions that a node stands inside of, the innermost first: `containing_function_scopes` of the original.
#[derive(Drop)]
pub struct ContainingFunctionScopes<'s> {
    /// The nodes of the unit.
    pub(crate) nodes: &'s [NodeEntry],
    /// The scopes of the functions of each property.
    pub(crate) methods: &'s List<List<ScopeId>>,
    /// The most nodes that are left to come.
    pub(crate) most: usize,
    /// The node that comes next. `None` past the unit.
    pub(crate) next: Option<NodeId>,
    ghost methods_are: { AreBuckets methods.now (length nodes.now) (methods_in nodes.now nodes.now) },
}

impl<'s> ContainingFunctionScopes<'s> {
    /// The scopes of the functions that a node stands inside of. Empty for a number that is no node's.
    pub(crate) fn of(
        nodes: &'s [NodeEntry],
        methods: &'s List<List<ScopeId>>,
        node: NodeId,
    ) -> ContainingFunctionScopes<'s>
        requires { AreBuckets methods.now (length nodes.now) (methods_in nodes.now nodes.now) }
        ensures { functions_out result.nodes.now result.most result.next ≡ containing_function_scopes nodes.now node.0 }
    {
        match nodes.get(node.0 as usize) {
            Some(entry) => ContainingFunctionScopes {
                nodes,
                methods,
                most: node.0 as usize,
                next: entry.parent,
            },
            None => ContainingFunctionScopes {
                nodes,
                methods,
                most: 0,
                next: None,
            },
        }
    }
}

impl<'s> Iterator for ContainingFunctionScopes<'s> {
    type Item = ScopeId;

    ghost next_gives = { YieldsFirst (λ s. functions_out s.nodes.now s.most s.next) };

    ghost remaining = { item_count (λ s. functions_out s.nodes.now s.most s.next) };

    fn next(&mut self) -> Option<ScopeId> {
        match advance(self.nodes, self.methods, self.most, self.next) {
            Some((scope, most, next)) => {
                self.most = most;
                self.next = next;
                Some(scope)
            }
            None => {
                self.most = 0;
                None
            }
        }
    }
}

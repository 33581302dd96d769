//! L2: names of symbols that are also those of symbols outside.

ghost use Rattle.std.specs.Prelude.{◌≡◌, ◌++◌, OnOk};
ghost use Rattle.rl_bindings.specs.Symbols.{resolve};
ghost use Rattle.rl_lint.specs.Rules as spec;
ghost use Rattle.rl_lint.specs.Tables.{tables};
ghost use Rattle.rl_resolver.specs.Around.{ancestors};

use crate::finding::{Finding, LintRule, push_finding};
use crate::names::{name_text, scope_parent, scopes_left, symbol_at};
use rl_base::error::OutOfMemory;
use rl_base::ids::ScopeId;
use rl_bindings::bindings::Bindings;
use rl_bindings::event::Bound;
use std::alloc::Global;

/// The number of the symbol that a name stands for in a scope.
#[tactic(auto, using(crate::proofs::Outward::steps))]
fn resolve(bindings: &Bindings, scope: ScopeId, name: u32) -> Option<usize>
    ensures { result ≡ resolve bindings.now.symbols (ancestors bindings.now.scopes scope) name }
{
    let mut left = scopes_left(bindings.scopes.as_slice(), scope);
    let mut next = Some(scope);
    'scopes: while 0 < left {
        match next {
            Some(here) => {
                if let Some(symbol) = bindings.symbols.binding(here, name as usize) {
                    return Some(symbol);
                }
                next = scope_parent(bindings.scopes.as_slice(), here);
                left -= 1;
            }
            None => return None,
        }
    }
    None
}

/// The number of the symbol that a name stands for around a scope, that scope aside.
fn outer(bindings: &Bindings, scope: ScopeId, name: u32) -> Option<usize>
    ensures { result ≡ spec.outer (tables bindings.now) scope name }
{
    match scope_parent(bindings.scopes.as_slice(), scope) {
        Some(around) => resolve(bindings, around, name),
        None => None,
    }
}

/// Appends the finding of L2 at a symbol, by its first declaration. On `OutOfMemory`, an allocation failed.
fn push_shadowing(
    alloc: Global,
    found: &mut Vec<Finding>,
    bindings: &Bindings,
    first: &Bound,
) -> Result<(), OutOfMemory>
    ensures { OnOk result (found.new.items ≡ found.old.items ++ spec.shadowing_of (tables bindings.now) first.now) }
{
    match outer(bindings, first.scope, first.name) {
        Some(symbol) => match symbol_at(bindings, symbol) {
            Some(other) => {
                let name = name_text(bindings, first.name);
                push_finding(
                    alloc,
                    found,
                    LintRule::L2,
                    first.span,
                    name,
                    Some(other.span),
                )?;
                Ok(())
            }
            None => Ok(()),
        },
        None => Ok(()),
    }
}

/// Appends the findings of L2. It takes time that is linear in the symbols, each with the scopes around it. On `OutOfMemory`, an
/// allocation failed.
pub(crate) fn push_all_shadowing(
    alloc: Global,
    found: &mut Vec<Finding>,
    bindings: &Bindings,
) -> Result<(), OutOfMemory>
    ensures { OnOk result (found.new.items ≡ found.old.items ++ spec.shadowing (tables bindings.now) bindings.now.symbols) }
{
    'symbols: for first in bindings.symbols.as_slice() {
        push_shadowing(alloc, found, bindings, first)?;
    }
    Ok(())
}

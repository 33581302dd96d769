//! L4: function declarations whose names are also those of symbols around them.

ghost use Rattle.std.specs.Prelude.{◌≡◌, ◌++◌, OnOk};
ghost use Rattle.rl_lint.specs.Rules as spec;
ghost use Rattle.rl_lint.specs.Tables.{tables};
ghost use Rattle.rl_resolver.specs.Around.{ancestors};

use crate::finding::{Finding, LintRule, push_finding};
use crate::names::{UnitNames, name_text, scope_parent, scopes_left, symbol_at};
use crate::site::{NamedSite, Site};
use crate::stems::stem;
use rl_base::error::OutOfMemory;
use rl_base::ids::ScopeId;
use rl_bindings::bindings::Bindings;
use rl_bindings::event::Bound;
use rl_bindings::symbol_table::SymbolTable;
use std::alloc::Global;

/// A number, if it is not `own`.
fn other_than(own: usize, number: Option<usize>) -> Option<usize>
    ensures { result ≡ spec.other_than own number }
{
    match number {
        Some(number) => { if number == own { None } else { Some(number) } }
        None => None,
    }
}

/// The smaller of two numbers, if there are two.
fn least(first: Option<usize>, second: Option<usize>) -> Option<usize>
    ensures { result ≡ spec.least first second }
{
    match first {
        Some(number) => match second {
            Some(other) => {
                if number <= other {
                    Some(number)
                } else {
                    Some(other)
                }
            }
            None => Some(number),
        },
        None => second,
    }
}

/// The least number of a symbol of the name in a scope, `own` aside.
fn other_at(symbols: &SymbolTable, own: usize, name: usize, scope: ScopeId) -> Option<usize>
    ensures { result ≡ spec.other_at symbols.now own name scope }
{
    let other = other_than(own, symbols.find(false, scope, name));
    let itself = other_than(own, symbols.find(true, scope, name));
    least(other, itself)
}

/// The least number of a symbol of the name in a scope or in one around it, `own` aside.
#[tactic(auto, using(crate::proofs::Outward::least_steps))]
fn other_around(bindings: &Bindings, own: usize, name: usize, scope: ScopeId) -> Option<usize>
    ensures { result ≡ spec.other_among bindings.now.symbols own name (ancestors bindings.now.scopes scope) }
{
    let mut left = scopes_left(bindings.scopes.as_slice(), scope);
    let mut next = Some(scope);
    let mut found = None;
    'scopes: while 0 < left {
        match next {
            Some(here) => {
                found = least(found, other_at(&bindings.symbols, own, name, here));
                next = scope_parent(bindings.scopes.as_slice(), here);
                left -= 1;
            }
            None => return found,
        }
    }
    found
}

/// The least number of a symbol with this text as its name in a scope or in one around it, `own` aside.
fn other_named(bindings: &Bindings, own: usize, scope: ScopeId, text: &str) -> Option<usize>
    ensures { result ≡ spec.other_named (tables bindings.now) own (ancestors bindings.now.scopes scope) text.now }
{
    match bindings.names.find(text) {
        Some(name) => other_around(bindings, own, name, scope),
        None => None,
    }
}

/// The least number of a symbol with this text or its stem as its name in a scope or in one around it, `own` aside.
#[tactic(auto, using(crate::proofs::Outward::by_stem))]
pub(crate) fn taken_by(bindings: &Bindings, own: usize, scope: ScopeId, text: &str) -> Option<usize>
    ensures { result ≡ spec.taken_by (tables bindings.now) own scope text.now }
{
    let named = other_named(bindings, own, scope, text);
    if stem(text) == text {
        return named;
    }
    let stemmed = other_named(bindings, own, scope, stem(text));
    least(named, stemmed)
}

/// Appends the finding of L4 at a function declaration, by its symbol's first declaration. On `OutOfMemory`, an allocation failed.
fn push_taken(
    alloc: Global,
    found: &mut Vec<Finding>,
    bindings: &Bindings,
    site: &NamedSite,
    own: usize,
    first: &Bound,
) -> Result<(), OutOfMemory>
    ensures { OnOk result (found.new.items ≡ found.old.items ++ spec.taken_of (tables bindings.now) site.now own first.now) }
{
    let name = name_text(bindings, first.name);
    match taken_by(bindings, own, site.scope, name) {
        Some(symbol) => match symbol_at(bindings, symbol) {
            Some(other) => {
                push_finding(
                    alloc,
                    found,
                    LintRule::L4,
                    site.bind.span,
                    name,
                    Some(other.span),
                )?;
                Ok(())
            }
            None => Ok(()),
        },
        None => Ok(()),
    }
}

/// Appends the finding of L4 at a function declaration, whose symbol is looked for from the index `row` on. On `OutOfMemory`, an allocation
/// failed.
fn push_name(
    alloc: Global,
    found: &mut Vec<Finding>,
    names: &UnitNames<'_>,
    row: &mut usize,
    site: &NamedSite,
) -> Result<(), OutOfMemory>
    ensures { OnOk result (found.new.items ≡ found.old.items ++ spec.taken_name (tables names.now.bindings.now) site.now) }
{
    let bindings = names.bindings;
    match names.declared(row, site.bind.id) {
        Some(own) => match symbol_at(bindings, own) {
            Some(first) => {
                push_taken(alloc, found, bindings, site, own, first)?;
                Ok(())
            }
            None => Ok(()),
        },
        None => Ok(()),
    }
}

/// Appends the findings of L4 at the sites of a unit. It takes time that is linear in these, each with the scopes around it. On
/// `OutOfMemory`, an allocation failed.
pub(crate) fn push_all_taken(
    alloc: Global,
    found: &mut Vec<Finding>,
    names: &UnitNames<'_>,
    sites: &[Site],
) -> Result<(), OutOfMemory>
    ensures { OnOk result (found.new.items ≡ found.old.items ++ spec.taken (tables names.now.bindings.now) sites.now) }
{
    let mut row = 0;
    'sites: for site in sites {
        if let Site::Named(site) = site {
            push_name(alloc, found, names, &mut row, site)?;
        }
    }
    Ok(())
}

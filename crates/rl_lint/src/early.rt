//! L1: names that are used before their declarations.

ghost use Rattle.std.specs.Prelude.{◌≡◌, ◌<◌, ◌++◌, length, IfOk, OnOk};
ghost use Rattle.std.specs.List.{list_any};
ghost use Rattle.rl_lint.specs.Lates.{late_pair, late_pairs};
ghost use Rattle.rl_lint.specs.Rules as spec;
ghost use Rattle.rl_lint.specs.Tables.{tables};
ghost use Rattle.rl_semantic.specs.Buckets.{AreBuckets};

use crate::finding::{Finding, LintRule, push_finding};
use crate::names::{UnitNames, name_text, symbol_at, used};
use crate::site::{LateSite, Site, UseSite};
use rl_base::error::OutOfMemory;
use rl_base::list::List;
use rl_bindings::event::Bound;
use rl_semantic::buckets::{bucket, buckets};
use std::alloc::Global;

/// Appends a late declaration at the symbol that it declares, which is looked for from the index `row` on; nothing at any other site. On
/// `OutOfMemory`, an allocation failed.
fn push_late(
    pairs: &mut List<(usize, LateSite)>,
    names: &UnitNames<'_>,
    row: &mut usize,
    site: &Site,
) -> Result<(), OutOfMemory>
    ensures { OnOk result (pairs.new ≡ pairs.old ++ late_pair (tables names.now.bindings.now) site.now) }
{
    match site {
        Site::Late(late) => match names.declared(row, late.bind) {
            Some(symbol) => {
                pairs.push((symbol, *late))?;
                Ok(())
            }
            None => Ok(()),
        },
        Site::Use(_) => Ok(()),
        Site::Named(_) => Ok(()),
    }
}

/// The late declarations among sites, each at the symbol that it declares. On `OutOfMemory`, an allocation failed.
fn late_pairs(
    alloc: Global,
    names: &UnitNames<'_>,
    sites: &[Site],
) -> Result<List<(usize, LateSite)>, OutOfMemory>
    ensures { IfOk result (λ pairs. pairs ≡ late_pairs (tables names.now.bindings.now) sites.now) }
{
    let mut pairs = List::new(alloc);
    let mut row = 0;
    'sites: for site in sites {
        push_late(&mut pairs, names, &mut row, site)?;
    }
    Ok(pairs)
}

/// The late declarations of a unit, by the symbols that they declare.
#[derive(Drop)]
struct Lates<'s> {
    names: &'s UnitNames<'s>,
    sites: &'s [Site],
    by_symbol: List<List<LateSite>>,
    ghost late_are: { AreBuckets by_symbol (length names.now.bindings.now.symbols) (late_pairs (tables names.now.bindings.now) sites.now) },
}

/// The late declarations among the sites of a unit, by the symbols that they declare. On `OutOfMemory`, an allocation failed.
fn lates_of<'s>(
    alloc: Global,
    names: &'s UnitNames<'s>,
    sites: &'s [Site],
) -> Result<Lates<'s>, OutOfMemory>
    ensures names { IfOk result (λ lates. lates.names.now ≡ names.now) }
    ensures sites { IfOk result (λ lates. lates.sites.now ≡ sites.now) }
{
    let pairs = late_pairs(alloc, names, sites)?;
    let by_symbol = buckets(
        alloc,
        names.bindings.symbols.as_slice().len(),
        pairs.as_slice(),
    )?;
    Ok(Lates {
        names,
        sites,
        by_symbol,
    })
}

/// True of a use before a declaration in its list of statements, in no function between.
fn stands_before(site: &UseSite, late: &LateSite) -> bool
    ensures { result ≡ spec.stands_before site.now late.now }
{
    late.first.0 <= site.at.id.0
        && site.at.id.0 < late.statement.0
        && late.function.0 == site.function.0
}

/// True of a use before one of some declarations.
fn stands_before_any(site: &UseSite, lates: &[LateSite]) -> bool
    ensures { result ≡ list_any (spec.stands_before site.now) lates.now }
{
    'lates: for late in lates {
        if stands_before(site, late) {
            return true;
        }
    }
    false
}

/// Appends the finding of L1 at a use of a symbol, by the symbol's first declaration. On `OutOfMemory`, an allocation failed.
fn push_early(
    alloc: Global,
    found: &mut Vec<Finding>,
    lates: &Lates<'_>,
    site: &UseSite,
    symbol: usize,
    first: &Bound,
) -> Result<(), OutOfMemory>
    requires { symbol < length lates.now.names.now.bindings.now.symbols }
    ensures { OnOk result (found.new.items ≡ found.old.items
        ++ spec.early_of (tables lates.now.names.now.bindings.now) lates.now.sites.now site.now symbol first.now) }
{
    if stands_before_any(site, bucket(&lates.by_symbol, symbol)) {
        let name = name_text(lates.names.bindings, first.name);
        push_finding(
            alloc,
            found,
            LintRule::L1,
            site.at.span,
            name,
            Some(first.span),
        )?;
        return Ok(());
    }
    Ok(())
}

/// Appends the finding of L1 at a use. On `OutOfMemory`, an allocation failed.
fn push_use(
    alloc: Global,
    found: &mut Vec<Finding>,
    lates: &Lates<'_>,
    site: &UseSite,
) -> Result<(), OutOfMemory>
    ensures { OnOk result (found.new.items ≡ found.old.items
        ++ spec.early_use (tables lates.now.names.now.bindings.now) lates.now.sites.now site.now) }
{
    let bindings = lates.names.bindings;
    match used(bindings, site.at.reference) {
        Some(symbol) => match symbol_at(bindings, symbol) {
            Some(first) => {
                push_early(alloc, found, lates, site, symbol, first)?;
                Ok(())
            }
            None => Ok(()),
        },
        None => Ok(()),
    }
}

/// Appends the findings of L1 at sites of a unit. On `OutOfMemory`, an allocation failed.
fn push_uses(
    alloc: Global,
    found: &mut Vec<Finding>,
    lates: &Lates<'_>,
    sites: &[Site],
) -> Result<(), OutOfMemory>
    ensures { OnOk result (found.new.items ≡ found.old.items
        ++ spec.early (tables lates.now.names.now.bindings.now) lates.now.sites.now sites.now) }
{
    'sites: for site in sites {
        if let Site::Use(site) = site {
            push_use(alloc, found, lates, site)?;
        }
    }
    Ok(())
}

/// Appends the findings of L1 at the sites of a unit. It takes time that is linear in the sites, where each symbol has at most one late
/// declaration, as in each unit that keeps the binding rules. On `OutOfMemory`, an allocation failed.
pub(crate) fn push_all_early(
    alloc: Global,
    found: &mut Vec<Finding>,
    names: &UnitNames<'_>,
    sites: &[Site],
) -> Result<(), OutOfMemory>
    ensures { OnOk result (found.new.items ≡ found.old.items ++ spec.early (tables names.now.bindings.now) sites.now sites.now) }
{
    let lates = lates_of(alloc, names, sites)?;
    push_uses(alloc, found, &lates, sites)?;
    Ok(())
}

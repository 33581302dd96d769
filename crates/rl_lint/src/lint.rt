//! The linter.

ghost use Rattle.std.specs.Prelude.{◌≡◌, ◌++◌, OnOk, IfOk};
ghost use Rattle.rl_lint.specs.Findings as spec;
ghost use Rattle.rl_lint.specs.Rules.{findings};
ghost use Rattle.rl_lint.specs.Tables.{tables};
ghost use Rattle.rl_syntax.specs.Syntax.{syntax};

use crate::clear::is_clear;
use crate::early::push_all_early;
use crate::finding::{Finding, place_of};
use crate::labels::push_unused_labels;
use crate::names::UnitNames;
use crate::shadowing::push_all_shadowing;
use crate::taken::push_all_taken;
use crate::walk::sites_of;
use rl_ast::unit::Unit;
use rl_base::error::OutOfMemory;
use rl_bindings::bindings::Bindings;
use rl_lint_hints::hints::hints_of;
use rl_semantic::semantic::Semantic;
use std::alloc::Global;

/// The findings of all rules in a unit, one rule behind the other. On `OutOfMemory`, an allocation failed.
#[tactic(auto, using(crate::proofs::Unlabeled::in_clear))]
fn find_all(alloc: Global, unit: &Unit, bindings: &Bindings) -> Result<Vec<Finding>, OutOfMemory>
    ensures { IfOk result (λ found. found.items ≡ findings (tables bindings.now) (syntax unit.now.tree)) }
{
    let mut found = Vec::new(alloc);
    let mut hints = hints_of(alloc, unit.nodes.as_slice(), bindings)?;
    let labeled = hints.labeled;
    if is_clear(alloc, unit, bindings, &mut hints)? {
        push_all_shadowing(alloc, &mut found, bindings)?;
        push_unused_labels(alloc, &mut found, unit, labeled)?;
        return Ok(found);
    }
    let sites = sites_of(alloc, &unit.tree)?;
    let names = UnitNames::new(bindings);
    push_all_early(alloc, &mut found, &names, sites.as_slice())?;
    push_all_shadowing(alloc, &mut found, bindings)?;
    push_unused_labels(alloc, &mut found, unit, labeled)?;
    push_all_taken(alloc, &mut found, &names, sites.as_slice())?;
    Ok(found)
}

/// Sorts findings by start and end of the span, then by rule. On `OutOfMemory`, an allocation failed.
fn sort(found: &mut Vec<Finding>) -> Result<(), OutOfMemory>
    ensures { OnOk result (spec.Lists found.old.items found.new.items) }
{
    found.sort_by_key(|finding| place_of(finding))?;
    Ok(())
}

/// The findings of the linter in a unit, by the tables of its names, sorted by start and end of the span, then by rule. It takes time that
/// is linear in the nodes, but that findings are sorted, and that L2 and L4 go through the scopes around a symbol. On `OutOfMemory`, an
/// allocation failed.
pub fn lint(
    alloc: Global,
    unit: &Unit,
    semantic: &Semantic<'_>,
) -> Result<Vec<Finding>, OutOfMemory>
    ensures { IfOk result (λ listed. spec.Lists (findings (tables semantic.now.bindings) (syntax unit.now.tree)) listed.items) }
{
    let mut found = find_all(alloc, unit, &semantic.bindings)?;
    sort(&mut found)?;
    Ok(found)
}

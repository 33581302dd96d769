//! The names of a unit that keeps the binding rules, after `oxc_semantic`.

ghost use Rattle.std.specs.Prelude.{◌≡◌, ℕ, true, None, Some, map, IfOk, IfErr};
ghost use Rattle.rl_bindings.specs.Names.{names_in};
ghost use Rattle.rl_bindings.specs.Tables.{declarations_in, references_in, scopes_in, symbols_in};
ghost use Rattle.rl_rules.specs.Following.{keeps_all};
ghost use Rattle.rl_rules.specs.Marks as marks;
ghost use Rattle.rl_semantic.specs.Imports.{imports_in, seen};
ghost use Rattle.rl_semantic.specs.Rules as spec;
ghost use Rattle.rl_syntax.specs.Nodes.{entries};
ghost use Rattle.rl_syntax.specs.Syntax.{syntax};

use crate::imports::{ImportEntry, imports_of};
use rl_ast::unit::Unit;
use rl_base::error::OutOfMemory;
use rl_base::list::List;
use rl_bindings::bindings::Bindings;
use rl_rules::chains::keeps_chains;
use rl_rules::declarations::keeps_declarations;
use rl_rules::forms::keeps_forms;
use rl_rules::marks::keeps_mark;
use rl_rules::variables::keeps_variables;
use rl_syntax::nodes::NodeEntry;
use rl_syntax::numbered::Numbered;
use std::alloc::Global;
use thiserror::Error;

/// An error of `Semantic::of`. It leaves nothing behind.
#[derive(Debug, Drop, Clone, Copy, PartialEq, Eq, Error)]
pub enum RuleError {
    /// The unit breaks a binding rule. The value is the rule's number in B1 to B9, the least of those that are broken.
    #[error("B{0}")]
    Malformed(u8),
    /// An allocation failed.
    #[error("OutOfMemory")]
    OutOfMemory,
}

impl From<OutOfMemory> for RuleError {
    ghost use Rattle.rl_semantic.specs.declared.semantic.RuleError.TheVariants.{OutOfMemory};
    ghost use Rattle.std.specs.Prelude.{◌≡◌};

    ghost from_gives = { λ _ e. e ≡ OutOfMemory };

    fn from(_e: OutOfMemory) -> RuleError {
        RuleError::OutOfMemory
    }
}

/// The least of the rules B6 to B9 that a tree breaks. `None` if it keeps them all.
fn least_broken_form(tree: &Numbered) -> Option<u8>
    ensures { result ≡ spec.least_broken_form (syntax tree.now) }
{
    if !keeps_chains(tree) {
        Some(6)
    } else if !keeps_variables(tree) {
        Some(7)
    } else if !keeps_declarations(tree) {
        Some(8)
    } else if !keeps_forms(tree) {
        Some(9)
    } else {
        None
    }
}

/// The least rule that is broken: B1 if it is not kept as `marked` says, else the rule `named`, else the rule `formed`.
fn least(marked: bool, named: Option<u8>, formed: Option<u8>) -> Option<u8>
    ensures { result ≡ spec.least marked named formed }
{
    if !marked {
        return Some(1);
    }
    match named {
        Some(rule) => Some(rule),
        None => formed,
    }
}

/// The least of the rules B1 to B9 that a tree breaks, if `named` is the least rule on names that it breaks, and `kept` says that
/// it keeps B1 and B6 to B9. A walk for each of these finds the least only if one is not kept.
#[tactic(auto, using(crate::proofs::Kept::all_kept))]
fn least_broken(tree: &Numbered, named: Option<u8>, kept: bool) -> Option<u8>
    requires { kept ≡ keeps_all (syntax tree.now) }
    ensures { result ≡ spec.least (marks.keeps_mark (syntax tree.now)) named (spec.least_broken_form (syntax tree.now)) }
{
    if kept {
        return named;
    }
    least(keeps_mark(tree), named, least_broken_form(tree))
}

/// Semantic tables of a unit that keeps the binding rules: `Semantic` of the original.
#[derive(Drop)]
pub struct Semantic<'u> {
    /// The names of the unit: its scopes, symbols and references.
    pub bindings: Bindings,
    /// The bindings that the imports of the unit make, in the order of the nodes.
    pub imports: List<ImportEntry<'u>>,
    /// The nodes of the unit, by their ids: the unit's own table.
    pub nodes: &'u [NodeEntry],
}

impl<'u> Semantic<'u> {
    /// The semantic tables of a unit, in time that is linear in its nodes, up to the logarithms of the look-ups. On
    /// `Malformed(rule)`, the unit breaks that rule of B1 to B9 and none with a lower number; on `OutOfMemory`, an allocation
    /// failed.
    #[tactic(auto, using(crate::proofs::Kept::none_named, crate::proofs::Kept::others_kept))]
    pub fn of(alloc: Global, unit: &'u Unit) -> Result<Semantic<'u>, RuleError>
        ensures kept { IfOk result (λ semantic. spec.least_broken (syntax unit.now.tree) ≡ None) }
        ensures malformed { IfErr result (λ e. (rule : ℕ) → e ≡ RuleError.Malformed rule → spec.least_broken (syntax unit.now.tree) ≡ Some rule) }
        ensures names { IfOk result (λ semantic. semantic.bindings.names ≡ names_in (syntax unit.now.tree)) }
        ensures scopes { IfOk result (λ semantic. semantic.bindings.scopes ≡ scopes_in (syntax unit.now.tree)) }
        ensures symbols { IfOk result (λ semantic. semantic.bindings.symbols ≡ symbols_in (syntax unit.now.tree)) }
        ensures declarations { IfOk result (λ semantic. semantic.bindings.declarations ≡ declarations_in (syntax unit.now.tree)) }
        ensures references { IfOk result (λ semantic. semantic.bindings.references ≡ references_in (syntax unit.now.tree)) }
        ensures imports { IfOk result (λ semantic. map seen semantic.imports ≡ imports_in (syntax unit.now.tree)) }
        ensures nodes { IfOk result (λ semantic. semantic.nodes.now ≡ entries (syntax unit.now.tree)) }
        ensures no_name_rule { IfOk result (λ semantic. semantic.bindings.least_broken_name_rule ≡ None) }
        ensures other_rules { IfOk result (λ semantic. semantic.bindings.keeps_other_rules ≡ true) }
    {
        let bindings = Bindings::of(alloc, unit)?;
        let named = bindings.least_broken_name_rule;
        if let Some(rule) = least_broken(&unit.tree, named, bindings.keeps_other_rules) {
            return Err(RuleError::Malformed(rule));
        }
        let imports = imports_of(alloc, unit)?;
        Ok(Semantic {
            bindings,
            imports,
            nodes: unit.nodes.as_slice(),
        })
    }
}

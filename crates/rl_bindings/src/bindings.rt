//! The names of a unit: its scopes and symbols, the symbol of each reference, and the least rule on names that it breaks.

ghost use Rattle.std.specs.Prelude.{◌≡◌, ◌<◌, [], true, is_some, length, All, IfOk, IfSome};
ghost use Rattle.rl_bindings.specs.Checks as check;
ghost use Rattle.rl_bindings.specs.Machines as machine;
ghost use Rattle.rl_bindings.specs.NameRules.{is_passing};
ghost use Rattle.rl_bindings.specs.NameRules as rules;
ghost use Rattle.rl_bindings.specs.Tables as tables;
ghost use Rattle.rl_bindings.specs.Names.{names_in};
ghost use Rattle.rl_rules.specs.Following.{keeps_all};
ghost use Rattle.rl_syntax.specs.Syntax.{syntax};
ghost use Rattle.std.specs.List.{list_any};

use crate::event::{Event, ScopeEntry};
use crate::names::Name;
use crate::resolve::{Declaration, Reference, resolve_all};
use crate::rules::{check_all, is_var, lexical_of};
use crate::symbol_table::SymbolTable;
use crate::walk::walk;
use rl_ast::unit::Unit;
use rl_base::error::OutOfMemory;
use rl_base::list::List;
use rl_base::name_table::NameTable;
use std::alloc::Global;

/// The scopes among events, in order. On `OutOfMemory`, an allocation failed.
fn scopes_of(alloc: Global, events: &[Event]) -> Result<List<ScopeEntry>, OutOfMemory>
    ensures { IfOk result (λ found. found ≡ tables.scopes_of events.now) }
{
    let mut found = List::new(alloc);
    for event in events {
        if let Event::Scope(scope) = event {
            found.push(*scope)?;
        }
    }
    Ok(found)
}

/// True if a `var` declaration is among events.
fn any_var(events: &[Event]) -> bool
    ensures { result ≡ machine.any_var events.now }
{
    for event in events {
        if let Event::Bind(bound) = event {
            if is_var(bound.kind) {
                return true;
            }
        }
    }
    false
}

/// True if B3 is broken by the declarations among events. Names are resolved by the lexical symbols alone, and only if there are
/// such symbols and a `var` declaration. On `OutOfMemory`, an allocation failed.
#[tactic(auto, using(crate::proofs::NameRules::none_passes))]
fn passes(alloc: Global, events: &[Event]) -> Result<bool, OutOfMemory>
    ensures { IfOk result (λ b. b ≡ list_any (is_passing (check.lexical_steps [] events.now)) (machine.resolved (check.lexical_steps [] events.now) events.now)) }
{
    if !any_var(events) {
        return Ok(false);
    }
    let lexical = lexical_of(alloc, events)?;
    if lexical.as_slice().is_empty() {
        return Ok(false);
    }
    let resolved = resolve_all(alloc, &lexical, events)?;
    Ok(resolved.passing)
}

/// The least of the rules B2 to B5 that is broken, if each is broken or not as the arguments say.
fn least(clashed: bool, passing: bool, repeated: bool, shared: bool) -> Option<u8>
    ensures { result ≡ rules.least clashed passing repeated shared }
{
    if clashed {
        Some(2)
    } else if passing {
        Some(3)
    } else if repeated {
        Some(4)
    } else if shared {
        Some(5)
    } else {
        None
    }
}

/// The names of a unit. Names, scopes, symbols and references are numbered from 0, each by its place in the list.
#[derive(Drop)]
pub struct Bindings {
    /// The names that the unit declares or uses, each once, in the order in which they come first.
    pub names: NameTable<Name>,
    /// The scopes, in the order of the nodes that make them. The index of a scope is its `ScopeId`.
    pub scopes: List<ScopeEntry>,
    /// The symbols, each by its first declaration, in the order of these. The index of a symbol is its `SymbolId`.
    pub symbols: SymbolTable,
    /// The `bind` nodes, in order, each with the symbol that it declares.
    pub declarations: List<Declaration>,
    /// The `id` nodes, in order, each with the symbol that it resolves to. The index of a reference is its `ReferenceId`.
    pub references: List<Reference>,
    /// The least of the rules B2 to B5 that the unit breaks. `None` if it breaks none of them.
    pub least_broken_name_rule: Option<u8>,
    /// True if the unit keeps the rules B1 and B6 to B9.
    pub keeps_other_rules: bool,
}

impl Bindings {
    /// The names of a unit, in time that is linear in its nodes, up to the logarithms of the look-ups. On `OutOfMemory`, an
    /// allocation failed.
    pub fn of(alloc: Global, unit: &Unit) -> Result<Bindings, OutOfMemory>
        ensures names { IfOk result (λ b. b.names ≡ names_in (syntax unit.now.tree)) }
        ensures scopes { IfOk result (λ b. b.scopes ≡ tables.scopes_in (syntax unit.now.tree)) }
        ensures symbols { IfOk result (λ b. b.symbols ≡ tables.symbols_in (syntax unit.now.tree)) }
        ensures declarations { IfOk result (λ b. b.declarations ≡ tables.declarations_in (syntax unit.now.tree)) }
        ensures declared { IfOk result (λ b. All (λ d. is_some d.symbol ≡ true) b.declarations) }
        ensures references { IfOk result (λ b. b.references ≡ tables.references_in (syntax unit.now.tree)) }
        ensures declarations_within { IfOk result (λ b. All (λ d. IfSome d.symbol (λ k. k < length b.symbols)) b.declarations) }
        ensures references_within { IfOk result (λ b. All (λ r. IfSome r.symbol (λ k. k < length b.symbols)) b.references) }
        ensures kept { IfOk result (λ b. b.keeps_other_rules ≡ keeps_all (syntax unit.now.tree)) }
        ensures least_broken { IfOk result (λ b. b.least_broken_name_rule ≡ tables.least_broken (syntax unit.now.tree)) }
    {
        let walked = walk(alloc, unit.nodes.len(), &unit.tree)?;
        let events = walked.events;
        let found = check_all(alloc, &events)?;
        let passing = passes(alloc, &events)?;
        let broken = least(found.clashed, passing, found.repeated, found.shared);
        let resolved = resolve_all(alloc, &found.symbols, &events)?;
        let scopes = scopes_of(alloc, &events)?;
        Ok(Bindings {
            names: walked.names,
            scopes,
            symbols: found.symbols,
            declarations: found.declarations,
            references: resolved.references,
            least_broken_name_rule: broken,
            keeps_other_rules: walked.kept,
        })
    }
}

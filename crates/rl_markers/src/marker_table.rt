//! The markers of a function by their symbols.

ghost use Rattle.std.specs.Prelude.{◌≡◌, ◌&&◌, ◌||◌, ◌<◌, ℕ, length, nat_eq, nat_le, IfOk, OnOk};
ghost use Rattle.rl_markers.specs.Named as named;
ghost use Rattle.rl_markers.specs.Tables as spec;
ghost use Rattle.rl_model.specs.Hoisting as model;
ghost use Rattle.rl_names.specs.Seen.{seen};
ghost use Rattle.rl_syntax.specs.Syntax.{Syntax, syntax};

use crate::lists::lists_of;
use crate::marking::{Mark, marks_of};
use crate::named::first_declaration;
use crate::node_symbols::NodeSymbols;
use rl_base::error::OutOfMemory;
use rl_code::variables::Variables;
use rl_syntax::numbered::Numbered;
use std::alloc::Global;

/// The least marker of each symbol of a function.
#[derive(Drop)]
pub struct MarkerTable {
    least: Vec<Option<u32>>,
}

/// The lesser of a number and another, if there is another.
#[tactic(auto, using(crate::proofs::Least::lesser))]
fn lesser(known: Option<u32>, number: u32) -> u32
    ensures { (node : ℕ) → nat_le result node ≡ (spec.is_before node known || nat_le number node) }
{
    match known {
        Some(known) => { if known <= number { known } else { number } }
        None => number,
    }
}

/// Lengthens a table so that a symbol has an entry. On `OutOfMemory`, an allocation failed.
#[tactic(auto, using(crate::proofs::Least::added))]
fn make_place(least: &mut Vec<Option<u32>>, symbol: usize) -> Result<(), OutOfMemory>
    ensures place { OnOk result (symbol < length least.new.items) }
    ensures same { OnOk result ((n node : ℕ) → spec.before least.new.items n node ≡ spec.before least.old.items n node) }
{
    while least.len() <= symbol {
        least.push(None)?;
    }
    Ok(())
}

/// The least marker of a symbol, the node of a statement. `None` of a symbol without a marker.
fn least_at(least: &[Option<u32>], symbol: usize) -> Option<u32>
    ensures { result ≡ spec.least_at least.now symbol }
{
    match least.get(symbol) {
        Some(marker) => *marker,
        None => None,
    }
}

/// Gives a symbol one more marker. On `OutOfMemory`, an allocation failed.
#[tactic(auto, using(crate::proofs::Least::lowered_at))]
fn lower(least: &mut Vec<Option<u32>>, mark: Mark) -> Result<(), OutOfMemory>
    ensures { OnOk result ((symbol node : ℕ) → spec.before least.new.items symbol node ≡ (spec.before least.old.items symbol node || (nat_eq symbol mark.symbol && nat_le mark.node node))) }
{
    let symbol = mark.symbol as usize;
    make_place(least, symbol)?;
    let known = least_at(least.as_slice(), symbol);
    least[symbol] = Some(lesser(known, mark.node));
    Ok(())
}

/// The least marker of each symbol. On `OutOfMemory`, an allocation failed.
#[tactic(auto, using(crate::proofs::Least::least_more))]
fn least_of(alloc: Global, marks: &[Mark]) -> Result<Vec<Option<u32>>, OutOfMemory>
    ensures { IfOk result (λ least. (symbol node : ℕ) → spec.before least.items symbol node ≡ named.is_marked marks.now symbol node) }
{
    let mut least = Vec::new(alloc);
    'marks: for mark in marks {
        lower(&mut least, *mark)?;
    }
    Ok(least)
}

impl MarkerTable {
    /// The markers of a function. `variables` are those of its unit. On `OutOfMemory`, an allocation failed, or there are more symbols
    /// than ids, which no unit has. It takes a step for each node in each list of statements around it, and for each scope in each list.
    #[tactic(auto, using(crate::proofs::Least::tabled))]
    pub fn of(
        alloc: Global,
        variables: &Variables<'_>,
        function: &Numbered,
    ) -> Result<MarkerTable, OutOfMemory>
        ensures { IfOk result (λ table. spec.AreMarkers (named.tables variables.now) (seen variables.now.names) (syntax function.now) table) }
    {
        let symbols = variables
            .names
            .resolver
            .semantic
            .bindings
            .symbols
            .as_slice();
        let nodes = NodeSymbols::of(alloc, symbols)?;
        let lists = lists_of(alloc, function)?;
        let marks = marks_of(alloc, variables, &nodes, lists.as_slice())?;
        let least = least_of(alloc, marks.as_slice())?;
        Ok(MarkerTable { least })
    }

    /// True of a symbol with a marker up to the node. False for a number that is no symbol's.
    #[tactic(auto, using(crate::proofs::Least::answered))]
    pub fn is_marked_before(&self, variables: &Variables<'_>, node: u32, symbol: u32) -> bool
        ensures { (function : Syntax) → spec.AreMarkers (named.tables variables.now) (seen variables.now.names) function self.now → result ≡ model.is_marked_before (named.tables variables.now) (seen variables.now.names) function node symbol }
    {
        match first_declaration(variables, symbol) {
            Some(_) => self.has(node, symbol),
            None => false,
        }
    }

    /// True of a symbol whose least marker is that of a node up to `node`.
    #[tactic(auto, using(crate::proofs::Least::before_is))]
    fn has(&self, node: u32, symbol: u32) -> bool
        ensures { result ≡ spec.before self.now.least.items symbol node }
    {
        is_before(node, least_at(self.least.as_slice(), symbol as usize))
    }
}

/// True of a marker up to the node.
fn is_before(node: u32, marker: Option<u32>) -> bool
    ensures { result ≡ spec.is_before node marker }
{
    match marker {
        Some(marker) => marker <= node,
        None => false,
    }
}

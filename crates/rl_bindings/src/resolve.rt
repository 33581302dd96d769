//! Resolution of names: the symbol that each name stands for where it is declared or used.

ghost use Rattle.std.specs.Prelude.{◌≡◌, ◌&&◌, ◌++◌, ◌∷◌, [], IfOk, OnOk, drop, take, replicate, slice_set, None};
ghost use Rattle.std.specs.List.{list_any};
ghost use Rattle.rl_bindings.specs.Machines as machine;
ghost use Rattle.rl_bindings.specs.NameRules.{is_inside, is_var};
ghost use Rattle.rl_bindings.specs.NameRules as rules;
ghost use Rattle.rl_bindings.specs.Standing.{references};

use crate::event::{Bound, Event};
use crate::rules::is_var;
use crate::symbol_table::SymbolTable;
use rl_base::error::OutOfMemory;
use rl_base::ids::NodeId;
use rl_base::list::List;
use std::alloc::Global;

/// A name that is declared or used, with the symbol that it stands for there.
#[derive(Clone, Copy)]
pub struct Answer {
    /// The declaration or the use.
    pub event: Event,
    /// The index of the symbol. `None` if no scope around binds the name.
    pub symbol: Option<usize>,
}

/// A use of a name: an `id` node.
#[derive(Clone, Copy)]
pub struct Reference {
    /// The `id` node.
    pub node: NodeId,
    /// The number of the name: its index in the unit's names.
    pub name: u32,
    /// The symbol that the name resolves to, by its index. `None` for a name that no scope around binds: a global.
    pub symbol: Option<usize>,
}

/// A `bind` node with the symbol that it declares.
#[derive(Clone, Copy)]
pub struct Declaration {
    /// The `bind` node.
    pub node: NodeId,
    /// The index of the symbol. Never `None`.
    pub symbol: Option<usize>,
}

/// A name with the symbol that it stands for.
#[derive(Clone, Copy)]
pub struct Entry {
    /// The number of the name.
    pub name: usize,
    /// The index of the symbol. `None` if the name stands for none.
    pub symbol: Option<usize>,
}

/// The symbol that a name stands for, by a list of symbols by the names' numbers. `None` past the end of the list.
fn look(env: &[Option<usize>], name: usize) -> Option<usize>
    ensures { result ≡ machine.look env.now name }
{
    match env.get(name) {
        Some(symbol) => *symbol,
        None => None,
    }
}

/// Writes a symbol, or none, at an index. Past the end of the list nothing is written.
fn write(list: &mut [Option<usize>], index: usize, symbol: Option<usize>)
    ensures { list.new ≡ slice_set list.old index symbol }
{
    if index < list.len() {
        list[index] = symbol;
    }
}

/// The symbols of each scope, linked from the last to the first.
#[derive(Drop)]
struct Links {
    /// The last symbol of each scope, by the scope's number. `None` for a scope without symbols.
    last: Vec<Option<usize>>,
    /// For each symbol the one before it in its scope.
    earlier: Vec<Option<usize>>,
}

/// The symbols of each scope, linked. On `OutOfMemory`, an allocation failed.
fn links_of(alloc: Global, symbols: &[Bound]) -> Result<Links, OutOfMemory>
    ensures { IfOk result (λ links. machine.AreLinks symbols.now links.last.items links.earlier.items) }
{
    let mut last = blank_symbols(alloc, count_scopes(symbols))?;
    let mut earlier = Vec::with_capacity(alloc, symbols.len())?;
    'symbols: for (number, symbol) in symbols.iter().enumerate() {
        let scope = symbol.scope.0 as usize;
        earlier.push(look(&last, scope))?;
        write(&mut last, scope, Some(number));
    }
    Ok(Links { last, earlier })
}

/// Begins a scope: writes its entries into the list of symbols by the names' numbers, and appends what they overwrite to `saved`.
/// On `OutOfMemory`, an allocation failed.
fn enter(
    table: &SymbolTable,
    links: &Links,
    scope: usize,
    env: &mut [Option<usize>],
    saved: &mut Vec<Entry>,
) -> Result<(), OutOfMemory>
    requires links { machine.AreLinks table.now links.now.last.items links.now.earlier.items }
    ensures saved { OnOk result (saved.new.items ≡ saved.old.items ++ machine.overwritten (machine.entries_at table.now scope) env.old) }
    ensures env { OnOk result (env.new ≡ machine.write_all (machine.entries_at table.now scope) env.old) }
{
    let symbols = table.as_slice();
    let mut next = look(&links.last, scope);
    'links: while let Some(number) = next {
        let symbol = &symbols[number];
        saved.push(Entry {
            name: symbol.name as usize,
            symbol: look(env, symbol.name as usize),
        })?;
        write(env, symbol.name as usize, table.binding_of(number, symbol));
        next = look(&links.earlier, number);
    }
    Ok(())
}

/// Ends a scope: writes the entries of `saved` from `start` on into the list, the last first, and takes them off.
fn leave(env: &mut [Option<usize>], saved: &mut Vec<Entry>, start: usize)
    ensures env { env.new ≡ machine.undo (drop start saved.old.items) env.old }
    ensures saved { saved.new.items ≡ take start saved.old.items }
{
    'saved: while start < saved.len() {
        if let Some(entry) = saved.pop() {
            write(env, entry.name, entry.symbol);
        }
    }
}

/// True if a symbol is one of a scope with a larger number than `scope`.
fn is_inside(symbols: &[Bound], scope: u32, symbol: Option<usize>) -> bool
    ensures { result ≡ is_inside symbols.now scope symbol }
{
    match symbol {
        Some(number) => match symbols.get(number) {
            Some(bound) => scope < bound.scope.0,
            None => false,
        },
        None => false,
    }
}

/// True of a `var` declaration whose name passes, on its way out, a scope that binds it, if its name stands for `symbol` by the
/// symbols.
fn is_passing(symbols: &[Bound], bound: &Bound, symbol: Option<usize>) -> bool
    ensures { result ≡ (is_var bound.now.kind && is_inside symbols.now bound.now.scope.0 symbol) }
{
    is_var(bound.kind) && is_inside(symbols, bound.scope.0, symbol)
}

/// Result of a run over events.
#[derive(Drop)]
pub struct Resolved {
    /// The uses, in order, each with the symbol that it resolves to.
    pub references: List<Reference>,
    /// True if a `var` declaration passes a scope that binds its name.
    pub passing: bool,
}

/// Number of the uses among events: the room for their references.
fn count_uses(events: &[Event]) -> usize {
    let mut count: usize = 0;
    for event in events {
        if let Event::Use(_, _) = event {
            count = count.saturating_add(1);
        }
    }
    count
}

/// The names that events use and declare, each by the symbol that it stands for, if `env` has the symbols that names stand for
/// around the events. On `OutOfMemory`, an allocation failed.
#[tactic(auto, using(crate::proofs::NameRules::or_regroup))]
fn run(
    alloc: Global,
    table: &SymbolTable,
    links: &Links,
    env: &mut [Option<usize>],
    events: &[Event],
) -> Result<Resolved, OutOfMemory>
    requires links { machine.AreLinks table.now links.now.last.items links.now.earlier.items }
    ensures references { IfOk result (λ r. r.references ≡ references (machine.run (machine.entries_at table.now) env.old [] events.now)) }
    ensures passing { IfOk result (λ r. r.passing ≡ list_any (rules.is_passing table.now) (machine.run (machine.entries_at table.now) env.old [] events.now)) }
{
    let symbols = table.as_slice();
    let mut found = List::with_capacity(alloc, count_uses(events))?;
    let mut passing = false;
    // The entries that those of the open scopes overwrite, and the index at which those of each scope begin.
    let mut saved: Vec<Entry> = Vec::new(alloc);
    let mut starts: Vec<usize> = Vec::new(alloc);
    for event in events {
        match event {
            Event::Scope(_) => {}
            Event::Open(scope) => {
                starts.push(saved.len())?;
                enter(table, links, scope.0 as usize, env, &mut saved)?;
            }
            Event::Close => {
                if let Some(start) = starts.pop() {
                    leave(env, &mut saved, start);
                }
            }
            Event::Bind(bound) => {
                let symbol = look(env, bound.name as usize);
                passing = passing || is_passing(symbols, bound, symbol);
            }
            Event::Use(node, name) => {
                let symbol = look(env, *name as usize);
                found.push(Reference {
                    node: *node,
                    name: *name,
                    symbol,
                })?;
            }
        }
    }
    Ok(Resolved {
        references: found,
        passing,
    })
}

/// Number above the largest name of symbols: the length of a list that has a place for each; 0 without symbols.
fn count_names(symbols: &[Bound]) -> usize
    ensures { result ≡ machine.count_names 0 symbols.now }
{
    let mut most = 0;
    for symbol in symbols {
        let next = symbol.name as usize + 1;
        if most < next {
            most = next;
        }
    }
    most
}

/// Number above the largest scope of symbols: the length of a list that has a place for each; 0 without symbols.
fn count_scopes(symbols: &[Bound]) -> usize
    ensures { result ≡ machine.count_scopes 0 symbols.now }
{
    let mut most = 0;
    for symbol in symbols {
        let next = symbol.scope.0 as usize + 1;
        if most < next {
            most = next;
        }
    }
    most
}

/// `count` names or scopes without a symbol. On `OutOfMemory`, an allocation failed.
fn blank_symbols(alloc: Global, count: usize) -> Result<Vec<Option<usize>>, OutOfMemory>
    ensures { IfOk result (λ v. v.items ≡ replicate count None) }
{
    let mut blank = Vec::with_capacity(alloc, count)?;
    for _index in 0..count {
        blank.push(None)?;
    }
    Ok(blank)
}

/// The names that events use and declare, each by the symbol of the table that it stands for. On `OutOfMemory`, an allocation
/// failed.
pub fn resolve_all(
    alloc: Global,
    table: &SymbolTable,
    events: &[Event],
) -> Result<Resolved, OutOfMemory>
    ensures references { IfOk result (λ r. r.references ≡ references (machine.resolved table.now events.now)) }
    ensures passing { IfOk result (λ r. r.passing ≡ list_any (rules.is_passing table.now) (machine.resolved table.now events.now)) }
{
    let links = links_of(alloc, table.as_slice())?;
    let mut env = blank_symbols(alloc, count_names(table.as_slice()))?;
    run(alloc, table, &links, &mut env, events)
}

//! The world of a function of a result.

ghost use Rattle.std.specs.Prelude.{◌≡◌, ◌++◌, ℕ, filter, map, IfOk};
ghost use Rattle.rl_code.specs.Flags.{flag_at};
ghost use Rattle.rl_hir.specs.Pairs.{identifier_of};
ghost use Rattle.rl_model.specs.Code.{contains, flat};
ghost use Rattle.rl_model.specs.Worlds.{kept_identifiers, open_identifiers, others_in, stands_for};
ghost use Rattle.rl_model.specs.Worlds as worlds;
ghost use Rattle.rl_graph_places.specs.Tables.{function_identifiers};
ghost use Rattle.rl_graph_run.specs.Symbols.{identifier_at, symbol_flag};

use crate::numbers::{flagged, identifiers_of, symbol_bound, symbols_below, symbols_of};
use crate::others::push_others;
use rl_base::error::OutOfMemory;
use rl_base::ids::{FunctionId, IdentifierId, SymbolId};
use rl_code::numbers::flags_of;
use rl_graph_places::tables::{Which, push_function};
use rl_hir::blocks::GraphBlocks;
use rl_hir::function::{HirFunction, Lowered};
use std::alloc::Global;

/// The variables that a function shares with the others of a result.
#[derive(Drop)]
pub struct World {
    /// The identifiers of symbols, by symbol.
    pub numbers: Vec<Option<IdentifierId>>,
    /// True at the symbols that other functions assign.
    pub opens: Vec<bool>,
    /// The symbols whose values other functions see, in order.
    pub keeps: Vec<SymbolId>,
}

/// The identifiers of the functions beside one of them. On `OutOfMemory` an allocation failed.
fn identifiers_among(
    alloc: Global,
    which: Which,
    lowered: &Lowered,
    function: Option<FunctionId>,
) -> Result<Vec<u32>, OutOfMemory>
    ensures { IfOk result (λ found. found.items ≡ flat (function_identifiers which) (others_in lowered.now function)) }
{
    let mut found = Vec::new(alloc);
    push_others(&mut found, which, lowered, function)?;
    Ok(found)
}

/// The identifiers that stand in a function and in another one. On `OutOfMemory` an allocation failed.
fn kept_identifiers(
    alloc: Global,
    lowered: &Lowered,
    function: Option<FunctionId>,
    graph: &HirFunction<GraphBlocks>,
) -> Result<Vec<u32>, OutOfMemory>
    ensures { IfOk result (λ found. found.items ≡ kept_identifiers graph.now (others_in lowered.now function)) }
{
    let mut marked = Vec::new(alloc);
    push_function(&mut marked, Which::Marked, graph)?;
    let shared = identifiers_among(alloc, Which::Shared, lowered, function)?;
    let flags = flags_of(alloc, &shared)?;
    let found = flagged(alloc, marked.as_slice(), flags.as_slice())?;
    Ok(found)
}

/// The symbols that other functions assign, as flags. On `OutOfMemory` an allocation failed.
fn opens_of(
    alloc: Global,
    lowered: &Lowered,
    function: Option<FunctionId>,
    numbers: &[Option<IdentifierId>],
) -> Result<Vec<bool>, OutOfMemory>
    ensures { IfOk result (λ opens. ((n : ℕ) → identifier_at numbers.now n ≡ identifier_of lowered.now.pairs n)
        → (n : ℕ) → symbol_flag opens.items n
        ≡ stands_for lowered.now.pairs (open_identifiers (others_in lowered.now function)) n) }
{
    let assigned = identifiers_among(alloc, Which::Assigned, lowered, function)?;
    let opens = symbols_of(alloc, numbers, &assigned)?;
    Ok(opens)
}

/// The symbols whose values other functions see, in order. On `OutOfMemory` an allocation failed.
fn keeps_of(
    alloc: Global,
    lowered: &Lowered,
    function: Option<FunctionId>,
    graph: &HirFunction<GraphBlocks>,
    numbers: &[Option<IdentifierId>],
) -> Result<Vec<SymbolId>, OutOfMemory>
    ensures { IfOk result (λ keeps. ((n : ℕ) → identifier_at numbers.now n ≡ identifier_of lowered.now.pairs n)
        → map (λ s. s.0) keeps.items ≡ (worlds.world_in lowered.now graph.now (others_in lowered.now function)).keeps) }
{
    let kept = kept_identifiers(alloc, lowered, function, graph)?;
    let flags = symbols_of(alloc, numbers, &kept)?;
    let bound = symbol_bound(lowered.pairs.as_slice());
    let keeps = symbols_below(alloc, bound, flags.as_slice())?;
    Ok(keeps)
}

/// The world of a function of a result, in time that is linear in the result's tables and its largest symbol. On `OutOfMemory` an
/// allocation failed.
pub fn world_in(
    alloc: Global,
    lowered: &Lowered,
    function: Option<FunctionId>,
    graph: &HirFunction<GraphBlocks>,
) -> Result<World, OutOfMemory>
    ensures numbers { IfOk result (λ w. (n : ℕ) → identifier_at w.numbers.items n ≡ identifier_of lowered.now.pairs n) }
    ensures opens { IfOk result (λ w. (n : ℕ) → symbol_flag w.opens.items n
        ≡ (worlds.world_in lowered.now graph.now (others_in lowered.now function)).opens n) }
    ensures keeps { IfOk result (λ w. map (λ s. s.0) w.keeps.items
        ≡ (worlds.world_in lowered.now graph.now (others_in lowered.now function)).keeps) }
{
    let numbers = identifiers_of(alloc, lowered.pairs.as_slice())?;
    let opens = opens_of(alloc, lowered, function, numbers.as_slice())?;
    let keeps = keeps_of(alloc, lowered, function, graph, numbers.as_slice())?;
    Ok(World {
        numbers,
        opens,
        keeps,
    })
}

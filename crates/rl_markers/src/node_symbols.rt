//! The symbols by the nodes of their first declarations.

ghost use Rattle.std.specs.Prelude.{◌≡◌, ◌-◌, ◌++◌, IfOk, OnOk};
ghost use Rattle.rl_markers.specs.NodeSymbols as spec;

use rl_base::error::OutOfMemory;
use rl_base::list::List;
use rl_bindings::event::Bound;
use rl_semantic::buckets::{bucket, buckets};
use std::alloc::Global;

/// Number above all ids.
const ID_COUNT: usize = 4_294_967_296;

/// The symbols by the nodes of their first declarations.
#[derive(Drop)]
pub struct NodeSymbols {
    table: List<List<u32>>,
}

/// The pairs of the node of its first declaration and the number, of each symbol. On `OutOfMemory`, an allocation failed, or there
/// are more symbols than ids, which no unit has.
fn pairs_of(alloc: Global, symbols: &[Bound]) -> Result<Vec<(usize, u32)>, OutOfMemory>
    ensures { IfOk result (λ pairs. pairs.items ≡ spec.pairs_from 0 symbols.now) }
{
    let mut pairs = Vec::with_capacity(alloc, symbols.len())?;
    let mut number: u32 = 0;
    'symbols: for bound in symbols {
        pairs.push((bound.node.0 as usize, number))?;
        match number.checked_add(1) {
            Some(next) => number = next,
            None => return Err(OutOfMemory),
        }
    }
    Ok(pairs)
}

impl NodeSymbols {
    /// The symbols of a unit by the nodes of their first declarations, in time that is linear in the symbols. On `OutOfMemory`, an
    /// allocation failed, or there are more symbols than ids, which no unit has.
    pub fn of(alloc: Global, symbols: &[Bound]) -> Result<NodeSymbols, OutOfMemory>
        ensures { IfOk result (λ table. spec.AreOf table symbols.now) }
    {
        let pairs = pairs_of(alloc, symbols)?;
        let table = buckets(alloc, ID_COUNT, pairs.as_slice())?;
        Ok(NodeSymbols { table })
    }
}

/// Appends numbers. On `OutOfMemory`, an allocation failed.
fn append(out: &mut Vec<u32>, numbers: &[u32]) -> Result<(), OutOfMemory>
    ensures { OnOk result (out.new.items ≡ out.old.items ++ numbers.now) }
{
    'numbers: for number in numbers {
        out.push(*number)?;
    }
    Ok(())
}

impl NodeSymbols {
    /// Appends the symbols of the nodes with ids from `start` to before `end`. On `OutOfMemory`, an allocation failed.
    #[tactic(auto, using(crate::proofs::NodeTables::nodes))]
    fn push_each(&self, out: &mut Vec<u32>, start: u32, end: u32) -> Result<(), OutOfMemory>
        ensures { OnOk result (out.new.items ≡ out.old.items ++ spec.between self.now start (end - start)) }
    {
        'ids: for id in start..end {
            append(out, bucket(&self.table, id as usize))?;
        }
        Ok(())
    }

    /// Appends the symbols whose first declarations are nodes with ids from `start` to before `end`. On `OutOfMemory`, an allocation
    /// failed.
    #[tactic(auto, using(crate::proofs::NodeTables::adds_between))]
    pub fn push_between(&self, out: &mut Vec<u32>, start: u32, end: u32) -> Result<(), OutOfMemory>
        ensures { OnOk result (spec.AddsBetween self.now out.old.items out.new.items start end) }
    {
        self.push_each(out, start, end)?;
        Ok(())
    }
}

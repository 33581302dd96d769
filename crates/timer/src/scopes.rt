//! The semantic tables of a unit and the linter over them, timed against the reading of it.

use anyhow::{Result, bail};
use rl_ast::read::read_tree;
use rl_ast::unit::Unit;
use rl_lint::lint::lint;
use rl_semantic::semantic::Semantic;
use std::time::{Duration, Instant};

/// The shortest of some calls of `read_tree` on a unit's bytes. The longest duration without a call.
fn time_reading(rt: &HostRuntime, bytes: &[u8], calls: u32) -> Result<Duration> {
    let mut least = Duration::MAX;
    for _call in 0..calls {
        let start = Instant::now(rt)?;
        let _unit = read_tree(rt.alloc(), bytes)?;
        least = least.min(start.elapsed(rt)?);
    }
    Ok(least)
}

/// The shortest of some calls of `Semantic::of` on a unit. The longest duration without a call.
fn time_tables(rt: &HostRuntime, unit: &Unit, calls: u32) -> Result<Duration> {
    let mut least = Duration::MAX;
    for _call in 0..calls {
        let start = Instant::now(rt)?;
        let _semantic = Semantic::of(rt.alloc(), unit)?;
        least = least.min(start.elapsed(rt)?);
    }
    Ok(least)
}

/// The shortest of some calls of `lint` on a unit. The longest duration without a call.
fn time_lint(rt: &HostRuntime, unit: &Unit, calls: u32) -> Result<Duration> {
    let semantic = Semantic::of(rt.alloc(), unit)?;
    let mut least = Duration::MAX;
    for _call in 0..calls {
        let start = Instant::now(rt)?;
        let Ok(_found) = lint(rt.alloc(), unit, &semantic) else {
            bail!("an allocation failed");
        };
        least = least.min(start.elapsed(rt)?);
    }
    Ok(least)
}

/// Writes the number of nodes and the nanoseconds of the shortest calls; without a call the numbers of nodes, scopes, symbols and
/// references.
pub fn report(rt: &HostRuntime, bytes: &[u8], calls: u32) -> Result<()> {
    let unit = read_tree(rt.alloc(), bytes)?;
    let nodes = unit.nodes.len();
    if calls > 0 {
        let reading = time_reading(rt, bytes, calls)?.as_nanos();
        let tables = time_tables(rt, &unit, calls)?.as_nanos();
        let linting = time_lint(rt, &unit, calls)?.as_nanos();
        println!(rt; "{nodes} {reading} {tables} {linting}")?;
        return Ok(());
    }
    let bindings = Semantic::of(rt.alloc(), &unit)?.bindings;
    let scopes = bindings.scopes.len();
    let symbols = bindings.symbols.as_slice().len();
    let references = bindings.references.len();
    println!(rt; "{nodes} {scopes} {symbols} {references}")?;
    Ok(())
}

//! Times parts of the front end. The first argument is a part, of which two take the unit that stands on standard input:
//! - `scopes CALLS` writes the number of nodes, and of the shortest call of `read_tree`, of `Semantic::of` and of `lint` the nanoseconds.
//!   With 0 calls it writes the numbers of nodes, scopes, symbols and references.
//! - `names CALLS` names all symbols so many times, each time in a fresh builder of the marked function, and writes the number of
//!   symbols and the nanoseconds of the shortest time. With 0 calls it writes the numbers of symbols and of renamed references.
//! - `order TABLE SHAPE BLOCKS CALLS` makes a graph of about so many blocks in a table, `map` or `dense`, and as many calls of the ordering
//!   and the passes. It writes the number of blocks and of steps, and of the shortest calls the nanoseconds of the ordering, of the three
//!   removals, of the numbering, of the predecessors and of the whole sequence.
//! - `traces TURNS RUNS` runs a loop of so many turns by its graph and by its source. It writes a line for each: the number of events, and of
//!   the shortest run the nanoseconds.
//!
//! Without arguments it writes of the unit for `scopes` and `names` the part and the numbers that it writes for 0 calls; for a small
//! graph of each shape its shape, its blocks, those that the ordering keeps, and the steps that it takes; and the traces of two turns of
//! the loop.
#![tactic(auto)]

mod counted;
mod graph;
mod loop_answers;
mod loop_graph;
mod loop_source;
mod loop_times;
mod names;
mod order;
mod scopes;
mod sequence;
mod shapes;
mod tables;
mod traces;

use crate::order::MadeGraph;
use crate::shapes::Shape;
use crate::tables::Table;
use anyhow::{Context, Result, bail};
use rl_ast::read::LARGEST_INPUT;
use rl_base::io::read_up_to;
use rl_base::streams::StdIn;
use std::env;

/// A part of the front end, and the number of calls or runs to time.
#[derive(Clone, Copy)]
enum Wanted {
    Scopes(u32),
    Names(u32),
    Order(MadeGraph),
    Traces { turns: u32, runs: u32 },
}

/// The number that an argument spells.
fn read_number(word: Option<String>) -> Result<u32> {
    let word = word.context("a number is missing")?;
    word.as_str()
        .parse::<u32>()
        .context("an argument is no number")
}

/// The arguments of the program. `None` if there are none.
fn read_arguments(rt: &HostRuntime) -> Result<Option<Wanted>> {
    let mut words = env::args(rt)?.skip(1);
    let Some(part) = words.next() else {
        return Ok(None);
    };
    if part.as_str() == "order" {
        let name = words.next().context("the table")?;
        let table = Table::from_name(name.as_str()).context("the table")?;
        let name = words.next().context("the shape")?;
        let shape = Shape::from_name(name.as_str()).context("the shape")?;
        let size = read_number(words.next())?;
        let calls = read_number(words.next())?;
        return Ok(Some(Wanted::Order(MadeGraph {
            table,
            shape,
            size,
            calls,
        })));
    }
    if part.as_str() == "traces" {
        let turns = read_number(words.next())?;
        let runs = read_number(words.next())?;
        return Ok(Some(Wanted::Traces { turns, runs }));
    }
    let calls = read_number(words.next())?;
    if part.as_str() == "scopes" {
        return Ok(Some(Wanted::Scopes(calls)));
    }
    if part.as_str() == "names" {
        return Ok(Some(Wanted::Names(calls)));
    }
    bail!("no part has this name")
}

/// The bytes of standard input, up to the length of the longest unit.
fn read_input(rt: &HostRuntime) -> Result<Vec<u8>> {
    let mut source = StdIn::new(rt.stdin());
    match read_up_to(rt.alloc(), &mut source, LARGEST_INPUT) {
        Ok(bytes) => Ok(bytes),
        Err(_) => bail!("standard input was not read"),
    }
}

/// Times the tables of names of the unit on standard input.
fn time_scopes(rt: &HostRuntime, calls: u32) -> Result<()> {
    let bytes = read_input(rt)?;
    scopes::report(rt, &bytes, calls)
}

/// Times the names that a builder gives to the symbols of the unit on standard input.
fn time_names(rt: &HostRuntime, calls: u32) -> Result<()> {
    let bytes = read_input(rt)?;
    names::report(rt, &bytes, calls)
}

/// Writes the counts of each part.
fn print_counts(rt: &HostRuntime) -> Result<()> {
    let bytes = read_input(rt)?;
    print!(rt; "scopes ")?;
    scopes::report(rt, &bytes, 0)?;
    print!(rt; "names ")?;
    names::report(rt, &bytes, 0)?;
    order::print_steps(rt)?;
    traces::print_traces(rt)
}

fn main(rt: HostRuntime) -> Result<()> {
    match read_arguments(&rt)? {
        Some(Wanted::Scopes(calls)) => time_scopes(&rt, calls),
        Some(Wanted::Names(calls)) => time_names(&rt, calls),
        Some(Wanted::Order(graph)) => order::print_times(&rt, &graph),
        Some(Wanted::Traces { turns, runs }) => traces::print_times(&rt, turns, runs),
        None => print_counts(&rt),
    }
}

//! Draws the graph of a unit: reads the unit from standard input, lowers it, and writes its graph in Graphviz's DOT.
#![tactic(auto)]

mod draw;
mod label;
mod run;

use rl_base::streams::{StdIn, StdOut};
use rl_unit::run::arguments;
use run::run_dot;
use std::process::ExitCode;

fn main(rt: HostRuntime) -> ExitCode {
    let words = match arguments(&rt) {
        Ok(words) => words,
        Err(status) => return ExitCode::from(status.code()),
    };
    let mut source = StdIn::new(rt.stdin());
    let mut sink = StdOut::new(rt.stdout());
    let status = run_dot(rt.alloc(), words.as_slice(), &mut source, &mut sink);
    ExitCode::from(status.code())
}

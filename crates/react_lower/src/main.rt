//! Lowers the marked function of a unit to its graph, or runs a function of it by its source and by its graph.
#![tactic(auto)]

mod lint;
mod run;
mod trace;

use rl_base::streams::{StdIn, StdOut};
use rl_unit::run::arguments;
use run::run;
use std::process::ExitCode;

fn main(rt: HostRuntime) -> ExitCode {
    let words = match arguments(&rt) {
        Ok(words) => words,
        Err(status) => return ExitCode::from(status.code()),
    };
    let mut source = StdIn::new(rt.stdin());
    let mut sink = StdOut::new(rt.stdout());
    let status = run(rt.alloc(), words.as_slice(), &mut source, &mut sink);
    ExitCode::from(status.code())
}

//! Runs a function of a unit by its source, and tells its trace, whether it is orderly, and whether the unit is supported.
#![tactic(auto)]

mod run;

use rl_base::streams::{StdIn, StdOut};
use rl_unit::run::arguments;
use run::source_trace;
use std::process::ExitCode;

fn main(rt: HostRuntime) -> ExitCode {
    let words = match arguments(&rt) {
        Ok(words) => words,
        Err(status) => return ExitCode::from(status.code()),
    };
    let mut source = StdIn::new(rt.stdin());
    let mut sink = StdOut::new(rt.stdout());
    let status = source_trace(rt.alloc(), words.as_slice(), &mut source, &mut sink);
    ExitCode::from(status.code())
}

//! Lines of traces.

ghost use Rattle.std.specs.Prelude.{◌≡◌, IfOk};
ghost use Rattle.rl_unit.specs.Lines.{no_function, trace_line};

use rl_base::error::OutOfMemory;
use rl_machine::trace::Trace;
use rl_trace_text::write::write_trace;
use std::alloc::Global;

/// The line of a trace. On `OutOfMemory`, an allocation failed.
pub fn trace_line(alloc: Global, trace: &Trace) -> Result<Vec<u8>, OutOfMemory>
    ensures { IfOk result (λ line. line.items ≡ trace_line trace.now) }
{
    let mut line = Vec::new(alloc);
    write_trace(trace, &mut line)?;
    line.push(b'\n')?;
    Ok(line)
}

/// The line of a number that names no function. On `OutOfMemory`, an allocation failed.
pub fn no_function(alloc: Global) -> Result<Vec<u8>, OutOfMemory>
    ensures { IfOk result (λ line. line.items ≡ no_function) }
{
    let mut line = Vec::new(alloc);
    line.extend_from_slice(b"No such function\n")?;
    Ok(line)
}

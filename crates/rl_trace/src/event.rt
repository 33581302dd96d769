//! The events of tests.

ghost use Rattle.std.specs.Prelude.{◌≡◌, IfOk};
ghost use Rattle.rl_machine.specs.Traces as spec;
ghost use Rattle.rl_trace.specs.Values.{shown};

use crate::value::Val;
use rl_base::error::OutOfMemory;
use rl_base::list::List;
use rl_base::text::Text;
use rl_machine::trace::Event;
use std::alloc::Global;

/// The test of a value's truth. On `OutOfMemory` an allocation failed.
pub fn truthy(alloc: Global, value: Val<'_>) -> Result<Event, OutOfMemory>
    ensures { IfOk result (λ event. event ≡ spec.truthy (shown value.entry)) }
{
    let mut operands = List::with_capacity(alloc, 1)?;
    operands.push(value.copy(alloc)?)?;
    Ok(Event {
        kind: Text::from_str(alloc, "truthy")?,
        texts: List::new(alloc),
        operands,
    })
}

/// The test for null and undefined. On `OutOfMemory` an allocation failed.
pub fn nullish(alloc: Global, value: Val<'_>) -> Result<Event, OutOfMemory>
    ensures { IfOk result (λ event. event ≡ spec.nullish (shown value.entry)) }
{
    let mut operands = List::with_capacity(alloc, 1)?;
    operands.push(value.copy(alloc)?)?;
    Ok(Event {
        kind: Text::from_str(alloc, "nullish")?,
        texts: List::new(alloc),
        operands,
    })
}

/// The comparison of a value with that of a case. On `OutOfMemory` an allocation failed.
pub fn matches(alloc: Global, value: Val<'_>, test: Val<'_>) -> Result<Event, OutOfMemory>
    ensures { IfOk result (λ event. event ≡ spec.matches (shown value.entry) (shown test.entry)) }
{
    let mut operands = List::with_capacity(alloc, 2)?;
    operands.push(value.copy(alloc)?)?;
    operands.push(test.copy(alloc)?)?;
    Ok(Event {
        kind: Text::from_str(alloc, "matches")?,
        texts: List::new(alloc),
        operands,
    })
}

//! Values while a run is under way.

ghost use Rattle.std.specs.Prelude.{◌≡◌, IfOk};
ghost use Rattle.rl_trace.specs.Values.{shown};

use rl_base::error::OutOfMemory;
use rl_base::text::Text;
use rl_machine::trace::Value;
use std::alloc::Global;

/// A value whose text, if it is one, stands elsewhere. A copy takes no memory.
#[derive(Clone, Copy)]
pub enum Val<'b> {
    /// JavaScript's `undefined`.
    Undefined,
    /// JavaScript's `null`.
    Null,
    /// A Boolean.
    Bool(bool),
    /// A whole number, at most 2^53.
    Number(u64),
    /// A string.
    Text(&'b Text),
    /// A value of the outside, known by its number alone.
    Given(u64),
}

impl<'b> Val<'b> {
    /// The value, with its text where it stands.
    pub fn of(value: &'b Value) -> Val<'b>
        ensures { shown result ≡ value.entry.now }
    {
        match value {
            Value::Undefined => Val::Undefined,
            Value::Null => Val::Null,
            Value::Bool(flag) => Val::Bool(*flag),
            Value::Number(number) => Val::Number(*number),
            Value::Text(text) => Val::Text(text),
            Value::Given(number) => Val::Given(*number),
        }
    }

    /// The value with a text of its own. On `OutOfMemory` an allocation failed.
    pub fn copy(self, alloc: Global) -> Result<Value, OutOfMemory>
        ensures { IfOk result (λ v. v ≡ shown self.entry) }
    {
        match self {
            Val::Undefined => Ok(Value::Undefined),
            Val::Null => Ok(Value::Null),
            Val::Bool(flag) => Ok(Value::Bool(flag)),
            Val::Number(number) => Ok(Value::Number(number)),
            Val::Text(text) => Ok(Value::Text(text.copy(alloc)?)),
            Val::Given(number) => Ok(Value::Given(number)),
        }
    }
}

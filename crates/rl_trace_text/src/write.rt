//! The writer of traces.

ghost use Rattle.std.specs.Prelude.{◌≡◌, ◌++◌, OnOk};
ghost use Rattle.rl_hir.specs.Terminals.{return_variant};
ghost use Rattle.rl_text.specs.Notation.{Count, spelling};
ghost use Rattle.rl_trace_text.specs.Trees as spec;

use crate::spelled::{Literal, Spelled, spell_node};
use rl_base::error::OutOfMemory;
use rl_base::ids::SymbolId;
use rl_hir::terminal::ReturnVariant;
use rl_machine::trace::{Assignment, Ending, Event, Trace, Value};

impl Spelled for SymbolId {
    ghost shown = { λ id. Count id.0 };

    fn spell(&self, out: &mut Vec<u8>) -> Result<(), OutOfMemory> {
        u64::from(self.0).spell(out)
    }
}

impl Spelled for Value {
    ghost shown = { spec.value_tree };

    fn spell(&self, out: &mut Vec<u8>) -> Result<(), OutOfMemory> {
        match self {
            Value::Undefined => spell_node("undefined", &(), out),
            Value::Null => spell_node("null", &(), out),
            Value::Bool(flag) => spell_node("bool", &(flag,), out),
            Value::Number(number) => spell_node("number", &(number,), out),
            Value::Text(text) => spell_node("text", &(text,), out),
            Value::Given(number) => spell_node("given", &(number,), out),
        }
    }
}

impl Spelled for Assignment {
    ghost shown = { spec.assignment_tree };

    fn spell(&self, out: &mut Vec<u8>) -> Result<(), OutOfMemory> {
        spell_node("set", &(self.symbol, &self.value), out)
    }
}

impl Spelled for Event {
    ghost shown = { spec.event_tree };

    fn spell(&self, out: &mut Vec<u8>) -> Result<(), OutOfMemory> {
        spell_node("event", &(&self.kind, &self.texts, &self.operands), out)
    }
}

/// The word of a return.
fn variant_word(variant: ReturnVariant) -> &'static str
    ensures { result.now ≡ return_variant variant }
{
    match variant {
        ReturnVariant::Implicit => "implicit",
        ReturnVariant::Explicit => "explicit",
        ReturnVariant::Void => "void",
    }
}

impl Spelled for Ending {
    ghost shown = { spec.ending_tree };

    fn spell(&self, out: &mut Vec<u8>) -> Result<(), OutOfMemory> {
        match self {
            Ending::Returned {
                variant,
                value,
                kept,
            } => {
                let parts = (Literal(variant_word(*variant)), value, kept);
                spell_node("returned", &parts, out)
            }
            Ending::Threw(value) => spell_node("threw", &(value,), out),
            Ending::Waiting => spell_node("waiting", &(), out),
        }
    }
}

impl Spelled for Trace {
    ghost shown = { spec.trace_tree };

    fn spell(&self, out: &mut Vec<u8>) -> Result<(), OutOfMemory> {
        spell_node("trace", &(&self.events, &self.ending), out)
    }
}

/// Appends the text of a trace: the spelling of its tree. No two traces have one text. On `OutOfMemory` an allocation failed, and
/// `out` may hold a part of it.
#[tactic(auto, using(crate::proofs::ReadBack::only_trace))]
pub fn write_trace(trace: &Trace, out: &mut Vec<u8>) -> Result<(), OutOfMemory>
    ensures spelled { OnOk result (out.new.items ≡ out.old.items ++ spelling (spec.trace_tree trace.now)) }
    ensures unique { spec.IsOnlyTrace trace.now }
{
    trace.spell(out)
}

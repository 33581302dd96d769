//! Events of one value or of two.

ghost use Rattle.std.specs.Prelude.{◌≡◌, ◌∷◌, [], IfOk};
ghost use Rattle.rl_base.specs.Operators.{operator_text};
ghost use Rattle.rl_model.specs.Events as spec;
ghost use Rattle.rl_source_stack.specs.Properties.{key_of};
ghost use Rattle.rl_trace.specs.Values.{shown};

use crate::property::Key;
use rl_base::closed_text::ClosedText;
use rl_base::error::OutOfMemory;
use rl_base::list::List;
use rl_base::operator::BinaryOperator;
use rl_base::text::Text;
use rl_machine::trace::{Event, Value};
use rl_trace::value::Val;
use std::alloc::Global;

/// A list of one text. On `OutOfMemory`, an allocation failed.
pub fn one_text(alloc: Global, text: Text) -> Result<List<Text>, OutOfMemory>
    ensures { IfOk result (λ texts. texts ≡ text ∷ []) }
{
    let mut texts = List::with_capacity(alloc, 1)?;
    texts.push(text)?;
    Ok(texts)
}

/// A list of one value. On `OutOfMemory`, an allocation failed.
pub fn one_operand(alloc: Global, value: Val<'_>) -> Result<List<Value>, OutOfMemory>
    ensures { IfOk result (λ vs. vs ≡ shown value.entry ∷ []) }
{
    let mut operands = List::with_capacity(alloc, 1)?;
    operands.push(value.copy(alloc)?)?;
    Ok(operands)
}

/// A list of two values. On `OutOfMemory`, an allocation failed.
pub fn two_operands(
    alloc: Global,
    first: Val<'_>,
    second: Val<'_>,
) -> Result<List<Value>, OutOfMemory>
    ensures { IfOk result (λ vs. vs ≡ shown first.entry ∷ shown second.entry ∷ []) }
{
    let mut operands = List::with_capacity(alloc, 2)?;
    operands.push(first.copy(alloc)?)?;
    operands.push(second.copy(alloc)?)?;
    Ok(operands)
}

/// The event of a kind on one value. On `OutOfMemory`, an allocation failed.
pub fn plain_event(alloc: Global, kind: &str, value: Val<'_>) -> Result<Event, OutOfMemory>
    ensures { IfOk result (λ e. e ≡ spec.event kind.now [] (shown value.entry ∷ [])) }
{
    Ok(Event {
        kind: Text::from_str(alloc, kind)?,
        texts: List::new(alloc),
        operands: one_operand(alloc, value)?,
    })
}

/// A binary operation. On `OutOfMemory`, an allocation failed.
pub fn binary_event(
    alloc: Global,
    operator: BinaryOperator,
    left: Val<'_>,
    right: Val<'_>,
) -> Result<Event, OutOfMemory>
    ensures { IfOk result (λ e. e ≡ spec.binary (operator_text operator) (shown left.entry) (shown right.entry)) }
{
    Ok(Event {
        kind: Text::from_str(alloc, "binary")?,
        texts: one_text(alloc, Text::from_str(alloc, operator.as_str())?)?,
        operands: two_operands(alloc, left, right)?,
    })
}

/// The value of a property. On `OutOfMemory`, an allocation failed.
pub fn load_event(alloc: Global, object: Val<'_>, key: Key<'_>) -> Result<Event, OutOfMemory>
    ensures { IfOk result (λ e. e ≡ spec.load (shown object.entry) (key_of key.entry)) }
{
    let kind = if key.fixed {
        "propertyload"
    } else {
        "computedload"
    };
    Ok(Event {
        kind: Text::from_str(alloc, kind)?,
        texts: List::new(alloc),
        operands: two_operands(alloc, object, key.value)?,
    })
}

/// The deletion of a property. On `OutOfMemory`, an allocation failed.
pub fn delete_event(alloc: Global, object: Val<'_>, key: Key<'_>) -> Result<Event, OutOfMemory>
    ensures { IfOk result (λ e. e ≡ spec.delete (shown object.entry) (key_of key.entry)) }
{
    let kind = if key.fixed {
        "propertydelete"
    } else {
        "computeddelete"
    };
    Ok(Event {
        kind: Text::from_str(alloc, kind)?,
        texts: List::new(alloc),
        operands: two_operands(alloc, object, key.value)?,
    })
}

/// The storage of a value in a property. On `OutOfMemory`, an allocation failed.
pub fn store_event(
    alloc: Global,
    object: Val<'_>,
    key: Key<'_>,
    value: Val<'_>,
) -> Result<Event, OutOfMemory>
    ensures { IfOk result (λ e. e ≡ spec.store_in (shown object.entry) (key_of key.entry) (shown value.entry)) }
{
    let kind = if key.fixed {
        "propertystore"
    } else {
        "computedstore"
    };
    let mut operands = two_operands(alloc, object, key.value)?;
    operands.push(value.copy(alloc)?)?;
    Ok(Event {
        kind: Text::from_str(alloc, kind)?,
        texts: List::new(alloc),
        operands,
    })
}

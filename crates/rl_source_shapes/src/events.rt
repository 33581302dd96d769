//! Events of expressions and statements.

ghost use Rattle.std.specs.Prelude.{◌≡◌, ◌∷◌, [], IfOk, codes};
ghost use Rattle.rl_base.specs.Operators.{unary_text, update_text};
ghost use Rattle.std.specs.Fmt.{decimal};
ghost use Rattle.rl_model.specs.Events as spec;
ghost use Rattle.rl_trace.specs.Values.{shown};

use rl_base::closed_text::ClosedText;
use rl_base::error::OutOfMemory;
use rl_base::ids::NodeId;
use rl_base::list::List;
use rl_base::operator::{UnaryOperator, UpdateOperator};
use rl_base::text::Text;
use rl_machine::trace::Event;
use rl_source_stack::events::{one_operand, one_text, plain_event, two_operands};
use rl_trace::value::Val;
use std::alloc::Global;

/// A unary operation. On `OutOfMemory`, an allocation failed.
pub fn unary_event(
    alloc: Global,
    operator: UnaryOperator,
    value: Val<'_>,
) -> Result<Event, OutOfMemory>
    ensures { IfOk result (λ e. e ≡ spec.unary (unary_text operator) (shown value.entry)) }
{
    Ok(Event {
        kind: Text::from_str(alloc, "unary")?,
        texts: one_text(alloc, Text::from_str(alloc, operator.as_str())?)?,
        operands: one_operand(alloc, value)?,
    })
}

/// `++` or `--` of a variable. On `OutOfMemory`, an allocation failed.
pub fn update_event(
    alloc: Global,
    prefix: bool,
    operator: UpdateOperator,
    value: Val<'_>,
) -> Result<Event, OutOfMemory>
    ensures { IfOk result (λ e. e ≡ spec.update prefix (update_text operator) (shown value.entry)) }
{
    let kind = if prefix {
        "prefixupdate"
    } else {
        "postfixupdate"
    };
    Ok(Event {
        kind: Text::from_str(alloc, kind)?,
        texts: one_text(alloc, Text::from_str(alloc, operator.as_str())?)?,
        operands: one_operand(alloc, value)?,
    })
}

/// A regular expression. On `OutOfMemory`, an allocation failed.
pub fn regexp_event(alloc: Global, pattern: &Text, flags: &Text) -> Result<Event, OutOfMemory>
    ensures { IfOk result (λ e. e ≡ spec.event (codes "regexp") (pattern.now ∷ flags.now ∷ []) []) }
{
    let mut texts = List::with_capacity(alloc, 2)?;
    texts.push(pattern.copy(alloc)?)?;
    texts.push(flags.copy(alloc)?)?;
    Ok(Event {
        kind: Text::from_str(alloc, "regexp")?,
        texts,
        operands: List::new(alloc),
    })
}

/// An event of a kind alone. On `OutOfMemory`, an allocation failed.
pub fn bare_event(alloc: Global, kind: &str) -> Result<Event, OutOfMemory>
    ensures { IfOk result (λ e. e ≡ spec.event kind.now [] []) }
{
    Ok(Event {
        kind: Text::from_str(alloc, kind)?,
        texts: List::new(alloc),
        operands: List::new(alloc),
    })
}

/// An event of a kind with the id of a node. On `OutOfMemory`, an allocation failed.
fn node_event(alloc: Global, kind: &str, node: NodeId) -> Result<Event, OutOfMemory>
    ensures { IfOk result (λ e. e ≡ spec.event kind.now (decimal node.0 ∷ []) []) }
{
    let number = node.0;
    Ok(Event {
        kind: Text::from_str(alloc, kind)?,
        texts: one_text(alloc, Text::new(format!(in alloc; "{number}")?))?,
        operands: List::new(alloc),
    })
}

/// The function that a node makes. On `OutOfMemory`, an allocation failed.
pub fn function_event(alloc: Global, node: NodeId) -> Result<Event, OutOfMemory>
    ensures { IfOk result (λ e. e ≡ spec.function node.0) }
{
    node_event(alloc, "function", node)
}

/// The method that a node makes. On `OutOfMemory`, an allocation failed.
pub fn method_event(alloc: Global, node: NodeId) -> Result<Event, OutOfMemory>
    ensures { IfOk result (λ e. e ≡ spec.method node.0) }
{
    node_event(alloc, "objectmethod", node)
}

/// The value of a name of the outside, by the name alone. On `OutOfMemory`, an allocation failed.
pub fn named_event(alloc: Global, name: &str) -> Result<Event, OutOfMemory>
    ensures { IfOk result (λ e. e ≡ spec.global (name.now ∷ [])) }
{
    Ok(Event {
        kind: Text::from_str(alloc, "global")?,
        texts: one_text(alloc, Text::from_str(alloc, name)?)?,
        operands: List::new(alloc),
    })
}

/// The iterator of a value. On `OutOfMemory`, an allocation failed.
pub fn get_iterator_event(alloc: Global, value: Val<'_>) -> Result<Event, OutOfMemory>
    ensures { IfOk result (λ e. e ≡ spec.get_iterator (shown value.entry)) }
{
    plain_event(alloc, "getiterator", value)
}

/// The next key of a value. On `OutOfMemory`, an allocation failed.
pub fn next_key_event(alloc: Global, value: Val<'_>) -> Result<Event, OutOfMemory>
    ensures { IfOk result (λ e. e ≡ spec.next_key (shown value.entry)) }
{
    plain_event(alloc, "nextpropertyof", value)
}

/// The next item of a value, by its iterator. On `OutOfMemory`, an allocation failed.
pub fn next_event(
    alloc: Global,
    iterator: Val<'_>,
    collection: Val<'_>,
) -> Result<Event, OutOfMemory>
    ensures { IfOk result (λ e. e ≡ spec.next_of (shown iterator.entry) (shown collection.entry)) }
{
    Ok(Event {
        kind: Text::from_str(alloc, "next")?,
        texts: List::new(alloc),
        operands: two_operands(alloc, iterator, collection)?,
    })
}

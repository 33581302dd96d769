//! Properties: their keys, and what is done with them.

ghost use Rattle.std.specs.Prelude.{◌≡◌, IfOk, if◌then◌else◌};
ghost use Rattle.rl_model.specs.Actions.{ask, give, no_meaning};
ghost use Rattle.rl_model.specs.Events as events;
ghost use Rattle.rl_model.specs.Expressions.{write_property};
ghost use Rattle.rl_source_stack.specs.Controls.{from, runs, trace_of};
ghost use Rattle.rl_source_stack.specs.Properties.{key_of, used};
ghost use Rattle.rl_source_stack.specs.States.{pushed, state_of};
ghost use Rattle.rl_trace.specs.Values.{shown};
ghost use Rattle.rl_text.specs.Numeral.{is_numeral, number_of};
ghost use Rattle.rl_machine.specs.declared.trace.Value.TheVariants as value;

use rl_base::error::OutOfMemory;
use rl_base::text::Text;
use rl_grammar::sort::ExpressionTree;
use rl_source_shapes::operators::step_of;
use rl_source_shapes::tests::number_text;
use rl_source_stack::behind::Behind;
use rl_source_stack::control::Control;
use rl_source_stack::events::{delete_event, load_event, store_event};
use rl_source_stack::property::{Key, Property, Use};
use rl_source_stack::run::Run;
use rl_source_stack::stack::Frame;
use rl_text::number::parse_number;
use rl_trace::value::Val;

/// Takes the value of a property. On `OutOfMemory`, an allocation failed.
pub fn load<'b>(
    run: &mut Run<'b>,
    object: Val<'b>,
    key: Key<'b>,
) -> Result<Control<'b>, OutOfMemory>
    ensures { IfOk result (λ c. trace_of c (state_of run.new)
        ≡ from (ask (state_of run.old).scene (events.load (shown object.entry) (key_of key.entry))) (state_of run.old)) }
{
    let event = load_event(run.progress.alloc, object, key)?;
    run.ask_value(event)
}

/// Deletes a property. On `OutOfMemory`, an allocation failed.
fn delete<'b>(run: &mut Run<'b>, object: Val<'b>, key: Key<'b>) -> Result<Control<'b>, OutOfMemory>
    ensures { IfOk result (λ c. trace_of c (state_of run.new)
        ≡ from (ask (state_of run.old).scene (events.delete (shown object.entry) (key_of key.entry))) (state_of run.old)) }
{
    let event = delete_event(run.progress.alloc, object, key)?;
    run.ask_value(event)
}

/// Stores a value in a property, and goes on with it. On `OutOfMemory`, an allocation failed.
pub fn store<'b>(
    run: &mut Run<'b>,
    object: Val<'b>,
    key: Key<'b>,
    value: Val<'b>,
) -> Result<Control<'b>, OutOfMemory>
    ensures { IfOk result (λ c. trace_of c (state_of run.new)
        ≡ from (write_property (state_of run.old).scene (shown object.entry) (key_of key.entry) (shown value.entry)) (state_of run.old)) }
{
    let event = store_event(run.progress.alloc, object, key, value)?;
    run.ask_then(event, Control::Value(value))
}

/// Stores a value in a property, and goes on behind a target. On `OutOfMemory`, an allocation failed.
fn store_target<'b>(
    run: &mut Run<'b>,
    object: Val<'b>,
    key: Key<'b>,
    value: Val<'b>,
) -> Result<Control<'b>, OutOfMemory>
    ensures { IfOk result (λ c. trace_of c (state_of run.new)
        ≡ runs (used (state_of run.old).scene (Use.Store value.entry) (shown object.entry) (key_of key.entry) (state_of run.old).konts)
        (state_of run.old)) }
{
    let event = store_event(run.progress.alloc, object, key, value)?;
    run.ask_then(event, Control::Normal)
}

/// Takes the value of a property, behind the object that lends itself. On `OutOfMemory`, an allocation failed.
fn lend<'b>(run: &mut Run<'b>, object: Val<'b>, key: Key<'b>) -> Result<Control<'b>, OutOfMemory>
    ensures { IfOk result (λ c. trace_of c (state_of run.new)
        ≡ runs (used (state_of run.old).scene Use.Lend (shown object.entry) (key_of key.entry) (state_of run.old).konts)
        (state_of run.old)) }
{
    run.push(Frame::Value(Behind::Lent { object }))?;
    load(run, object, key)
}

/// Does with a property what is to be done, once its object and its key are known. On `OutOfMemory`, an allocation failed.
pub fn use_property<'b>(
    run: &mut Run<'b>,
    purpose: Use<'b>,
    object: Val<'b>,
    key: Key<'b>,
) -> Result<Control<'b>, OutOfMemory>
    ensures { IfOk result (λ c. trace_of c (state_of run.new)
        ≡ runs (used (state_of run.old).scene purpose.entry (shown object.entry) (key_of key.entry) (state_of run.old).konts)
        (state_of run.old)) }
{
    match purpose {
        Use::Load => load(run, object, key),
        Use::Lend => lend(run, object, key),
        Use::Delete => delete(run, object, key),
        Use::Assign { right } => {
            run.push(Frame::Value(Behind::StoreIn { object, key }))?;
            Ok(Control::Evaluate(right))
        }
        Use::Compound { operator, right } => {
            run.push(Frame::Value(Behind::CompoundIn {
                object,
                key,
                operator,
                right,
            }))?;
            load(run, object, key)
        }
        Use::Update { operator, prefix } => {
            let operator = step_of(operator);
            run.push(Frame::Value(Behind::UpdateIn {
                object,
                key,
                operator,
                prefix,
            }))?;
            load(run, object, key)
        }
        Use::Store { value } => store_target(run, object, key, value),
    }
}

/// Goes on with a property whose key is a number in brackets. On `OutOfMemory`, an allocation failed.
fn link_number<'b>(
    run: &mut Run<'b>,
    text: &Text,
    purpose: Use<'b>,
    object: Val<'b>,
) -> Result<Control<'b>, OutOfMemory>
    ensures { IfOk result (λ c. trace_of c (state_of run.new)
        ≡ runs ((if is_numeral text.now then give (events.fixed_key (value.Number (number_of text.now))) else no_meaning)
        (state_of run.old).konts.ways (λ known. used (state_of run.old).scene purpose.entry (shown object.entry) known
        (state_of run.old).konts)) (state_of run.old)) }
{
    match parse_number(text.as_bytes()) {
        Some(number) => {
            let key = Key {
                fixed: true,
                value: Val::Number(number),
            };
            use_property(run, purpose, object, key)
        }
        None => Ok(Control::Waiting),
    }
}

/// Goes on with a property whose key is an expression in brackets. On `OutOfMemory`, an allocation failed.
fn link_computed<'b>(
    run: &mut Run<'b>,
    expression: ExpressionTree<'b>,
    purpose: Use<'b>,
    object: Val<'b>,
) -> Result<Control<'b>, OutOfMemory>
    ensures { IfOk result (λ c. trace_of c (state_of run.new)
        ≡ trace_of (Control.Link (Property.Computed expression.entry) purpose.entry object.entry) (state_of run.old)) }
{
    match number_text(expression) {
        None => {
            run.push(Frame::Value(Behind::Key {
                object,
                then: purpose,
            }))?;
            Ok(Control::Evaluate(expression))
        }
        Some((_, text)) => link_number(run, text, purpose, object),
    }
}

/// Goes on with a property of an object. On `OutOfMemory`, an allocation failed.
pub fn link<'b>(
    run: &mut Run<'b>,
    property: Property<'b>,
    purpose: Use<'b>,
    object: Val<'b>,
) -> Result<Control<'b>, OutOfMemory>
    ensures { IfOk result (λ c. trace_of c (state_of run.new)
        ≡ trace_of (Control.Link property.entry purpose.entry object.entry) (state_of run.old)) }
{
    match property {
        Property::Named(name) => {
            let key = Key {
                fixed: true,
                value: Val::Text(name),
            };
            use_property(run, purpose, object, key)
        }
        Property::Computed(expression) => link_computed(run, expression, purpose, object),
    }
}

/// Goes on with the object of a property; an optional link ends the chain where there is none. On `OutOfMemory`, an allocation
/// failed.
pub fn take_object<'b>(
    run: &mut Run<'b>,
    optional: bool,
    property: Property<'b>,
    purpose: Use<'b>,
    object: Val<'b>,
) -> Result<Control<'b>, OutOfMemory>
    ensures { IfOk result (λ c. trace_of c (state_of run.new)
        ≡ trace_of (Control.Value object.entry) (pushed (Frame.Value (Behind.Object optional property.entry purpose.entry))
        (state_of run.old))) }
{
    if optional {
        let next = Control::Link {
            property,
            then: purpose,
            object,
        };
        run.choose_nullish(object, Control::Short, next)
    } else {
        Ok(Control::Link {
            property,
            then: purpose,
            object,
        })
    }
}

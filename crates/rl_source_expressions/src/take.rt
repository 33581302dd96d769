//! Values of expressions, and the frames that take them.

ghost use Rattle.std.specs.Prelude.{◌≡◌, ◌∷◌, [], IfOk, codes};
ghost use Rattle.rl_base.specs.Operators.{operator_text, unary_text};
ghost use Rattle.rl_model.specs.Actions.{ask};
ghost use Rattle.rl_model.specs.Events as events;
ghost use Rattle.rl_source_stack.specs.Behinds.{updated_in, updated_name};
ghost use Rattle.rl_source_stack.specs.Controls.{from, trace_of};
ghost use Rattle.rl_source_stack.specs.Properties.{key_of};
ghost use Rattle.rl_source_stack.specs.States.{pushed, state_of};
ghost use Rattle.rl_trace.specs.Values.{shown};

use crate::evaluate::evaluate_last;
use crate::properties::{store, take_object, use_property};
use rl_base::error::OutOfMemory;
use rl_base::ids::SymbolId;
use rl_base::operator::{BinaryOperator, LogicalOperator, UnaryOperator};
use rl_source_gather::gather::gather_one;
use rl_source_shapes::events::unary_event;
use rl_source_shapes::names::write_name;
use rl_source_stack::behind::Behind;
use rl_source_stack::control::Control;
use rl_source_stack::events::{binary_event, plain_event, store_event};
use rl_source_stack::gather::{Gather, Parts};
use rl_source_stack::property::Key;
use rl_source_stack::run::Run;
use rl_source_stack::stack::{Frame, Receiving};
use rl_trace::value::Val;

/// Asks a binary operation. On `OutOfMemory`, an allocation failed.
pub fn ask_binary<'b>(
    run: &mut Run<'b>,
    operator: BinaryOperator,
    left: Val<'b>,
    right: Val<'b>,
) -> Result<Control<'b>, OutOfMemory>
    ensures { IfOk result (λ c. trace_of c (state_of run.new)
        ≡ from (ask (state_of run.old).scene (events.binary (operator_text operator) (shown left.entry) (shown right.entry)))
        (state_of run.old)) }
{
    let event = binary_event(run.progress.alloc, operator, left, right)?;
    run.ask_value(event)
}

/// Asks a unary operation. On `OutOfMemory`, an allocation failed.
fn ask_unary<'b>(
    run: &mut Run<'b>,
    operator: UnaryOperator,
    value: Val<'b>,
) -> Result<Control<'b>, OutOfMemory>
    ensures { IfOk result (λ c. trace_of c (state_of run.new)
        ≡ from (ask (state_of run.old).scene (events.unary (unary_text operator) (shown value.entry))) (state_of run.old)) }
{
    let event = unary_event(run.progress.alloc, operator, value)?;
    run.ask_value(event)
}

/// Waits for a value. On `OutOfMemory`, an allocation failed.
fn ask_await<'b>(run: &mut Run<'b>, value: Val<'b>) -> Result<Control<'b>, OutOfMemory>
    ensures { IfOk result (λ c. trace_of c (state_of run.new)
        ≡ from (ask (state_of run.old).scene (events.event (codes "await") [] (shown value.entry ∷ []))) (state_of run.old)) }
{
    let event = plain_event(run.progress.alloc, "await", value)?;
    run.ask_value(event)
}

/// Gives a variable its new value, and goes on with the one that the update has. On `OutOfMemory`, an allocation failed.
fn update_variable<'b>(
    run: &mut Run<'b>,
    symbol: SymbolId,
    prefix: bool,
    old: Val<'b>,
    new: Val<'b>,
) -> Result<Control<'b>, OutOfMemory>
    ensures { IfOk result (λ c. trace_of c (state_of run.new)
        ≡ from (updated_name symbol.0 prefix (shown old.entry) (shown new.entry)) (state_of run.old)) }
{
    run.assign(symbol, new)?;
    if prefix {
        Ok(Control::Value(new))
    } else {
        Ok(Control::Value(old))
    }
}

/// Stores the new value of a property, and goes on with the one that the update has. On `OutOfMemory`, an allocation failed.
fn update_property<'b>(
    run: &mut Run<'b>,
    object: Val<'b>,
    key: Key<'b>,
    prefix: bool,
    old: Val<'b>,
    new: Val<'b>,
) -> Result<Control<'b>, OutOfMemory>
    ensures { IfOk result (λ c. trace_of c (state_of run.new)
        ≡ from (updated_in (state_of run.old).scene (shown object.entry) (key_of key.entry) prefix (shown old.entry) (shown new.entry))
        (state_of run.old)) }
{
    let event = store_event(run.progress.alloc, object, key, new)?;
    if prefix {
        run.ask_then(event, Control::Value(new))
    } else {
        run.ask_then(event, Control::Value(old))
    }
}

/// Goes on with the value of an expression. On `OutOfMemory`, an allocation failed.
pub fn take_value<'b>(
    run: &mut Run<'b>,
    behind: Behind<'b>,
    value: Val<'b>,
) -> Result<Control<'b>, OutOfMemory>
    ensures { IfOk result (λ c. trace_of c (state_of run.new)
        ≡ trace_of (Control.Value value.entry) (pushed (Frame.Value behind.entry) (state_of run.old))) }
{
    match behind {
        Behind::Unary { operator } => ask_unary(run, operator, value),
        Behind::BinaryRight { operator, right } => {
            run.push(Frame::Value(Behind::BinaryLast {
                operator,
                left: value,
            }))?;
            Ok(Control::Evaluate(right))
        }
        Behind::BinaryLast { operator, left } => ask_binary(run, operator, left, value),
        Behind::LogicalRight { operator, right } => match operator {
            LogicalOperator::And => {
                run.choose_truthy(value, Control::Evaluate(right), Control::Value(value))
            }
            LogicalOperator::Or => {
                run.choose_truthy(value, Control::Value(value), Control::Evaluate(right))
            }
            LogicalOperator::Coalesce => {
                run.choose_nullish(value, Control::Evaluate(right), Control::Value(value))
            }
        },
        Behind::Conditional {
            consequent,
            alternate,
        } => run.choose_truthy(
            value,
            Control::Evaluate(consequent),
            Control::Evaluate(alternate),
        ),
        Behind::Sequence { expressions } => evaluate_last(run, expressions),
        Behind::Await => ask_await(run, value),
        Behind::AssignName { name } => write_name(run, name, value),
        Behind::CompoundName {
            name,
            operator,
            right,
        } => {
            run.push(Frame::Value(Behind::CompoundNameLast {
                name,
                operator,
                old: value,
            }))?;
            Ok(Control::Evaluate(right))
        }
        Behind::CompoundNameLast {
            name,
            operator,
            old,
        } => {
            run.push(Frame::Value(Behind::AssignName { name }))?;
            ask_binary(run, operator, old, value)
        }
        Behind::UpdateName {
            symbol,
            prefix,
            old,
        } => update_variable(run, symbol, prefix, old, value),
        Behind::AssignPattern { target } => {
            run.push(Frame::Target(Receiving::Give { value }))?;
            Ok(Control::AssignTo(target, value))
        }
        Behind::Object {
            optional,
            property,
            then,
        } => take_object(run, optional, property, then, value),
        Behind::Key { object, then } => {
            let key = Key {
                fixed: false,
                value,
            };
            use_property(run, then, object, key)
        }
        Behind::Lent { object } => Ok(Control::Pair(object, value)),
        Behind::StoreIn { object, key } => store(run, object, key, value),
        Behind::CompoundIn {
            object,
            key,
            operator,
            right,
        } => {
            run.push(Frame::Value(Behind::CompoundInLast {
                object,
                key,
                operator,
                old: value,
            }))?;
            Ok(Control::Evaluate(right))
        }
        Behind::CompoundInLast {
            object,
            key,
            operator,
            old,
        } => {
            run.push(Frame::Value(Behind::StoreIn { object, key }))?;
            ask_binary(run, operator, old, value)
        }
        Behind::UpdateIn {
            object,
            key,
            operator,
            prefix,
        } => {
            run.push(Frame::Value(Behind::UpdateInLast {
                object,
                key,
                prefix,
                old: value,
            }))?;
            ask_binary(run, operator, value, Val::Number(1))
        }
        Behind::UpdateInLast {
            object,
            key,
            prefix,
            old,
        } => update_property(run, object, key, prefix, old, value),
        Behind::Same {
            value: given,
            default,
        } => run.choose_truthy(value, Control::Evaluate(default), Control::Value(given)),
        Behind::New { arguments } => {
            let what = Gather::New { arguments };
            gather_one(run, what, Parts::Arguments(arguments), value)
        }
        Behind::Tag {
            tag,
            attributes,
            children,
        } => {
            let what = Gather::Attributes {
                tag,
                attributes,
                children,
            };
            gather_one(run, what, Parts::Attributes(attributes), value)
        }
        Behind::AssignTo { target } => Ok(Control::AssignTo(target, value)),
    }
}

//! Names: local variables, and those of the outside.

ghost use Rattle.std.specs.Prelude.{◌≡◌, ◌∷◌, IfOk, [], codes};
ghost use Rattle.rl_hir.specs.Instructions.{binding_texts};
ghost use Rattle.rl_model.specs.Actions.{ask};
ghost use Rattle.rl_model.specs.Events as events;
ghost use Rattle.rl_model.specs.Expressions.{read, write};
ghost use Rattle.rl_source_stack.specs.Controls.{from, trace_of};
ghost use Rattle.rl_source_stack.specs.States.{state_of};
ghost use Rattle.rl_trace.specs.Values.{shown};

use rl_ast::binding::IdentifierReference;
use rl_base::error::OutOfMemory;
use rl_base::list::List;
use rl_base::text::Text;
use rl_hir::instruction::NonLocalBinding;
use rl_machine::trace::Event;
use rl_names::names::Meaning;
use rl_source_stack::control::Control;
use rl_source_stack::events::{one_operand, one_text};
use rl_source_stack::run::Run;
use rl_trace::value::Val;
use std::alloc::Global;

/// The texts that tell a binding from all others. On `OutOfMemory`, an allocation failed.
fn texts_of(alloc: Global, binding: &NonLocalBinding) -> Result<List<Text>, OutOfMemory>
    ensures { IfOk result (λ texts. texts ≡ binding_texts binding.now) }
{
    let mut texts = List::with_capacity(alloc, 4)?;
    match binding {
        NonLocalBinding::Global { name } => texts.push(name.copy(alloc)?)?,
        NonLocalBinding::ModuleLocal { name } => {
            texts.push(name.copy(alloc)?)?;
            texts.push(Text::from_str(alloc, "module")?)?;
        }
        NonLocalBinding::ImportDefault { name, module } => {
            texts.push(name.copy(alloc)?)?;
            texts.push(Text::from_str(alloc, "default")?)?;
            texts.push(module.get().copy(alloc)?)?;
        }
        NonLocalBinding::ImportNamespace { name, module } => {
            texts.push(name.copy(alloc)?)?;
            texts.push(Text::from_str(alloc, "namespace")?)?;
            texts.push(module.get().copy(alloc)?)?;
        }
        NonLocalBinding::ImportSpecifier { name, import } => {
            texts.push(name.copy(alloc)?)?;
            texts.push(Text::from_str(alloc, "named")?)?;
            texts.push(import.get().module.copy(alloc)?)?;
            texts.push(import.get().imported.copy(alloc)?)?;
        }
    }
    Ok(texts)
}

/// The event that reads a name of the outside. On `OutOfMemory`, an allocation failed.
fn global_event(alloc: Global, binding: &NonLocalBinding) -> Result<Event, OutOfMemory>
    ensures { IfOk result (λ e. e ≡ events.global (binding_texts binding.now)) }
{
    Ok(Event {
        kind: Text::from_str(alloc, "global")?,
        texts: texts_of(alloc, binding)?,
        operands: List::new(alloc),
    })
}

/// The event that stores a value in a name of the outside. On `OutOfMemory`, an allocation failed.
pub fn store_global_event(alloc: Global, name: &Text, value: Val<'_>) -> Result<Event, OutOfMemory>
    ensures { IfOk result (λ e. e ≡ events.store_global name.now (shown value.entry)) }
{
    Ok(Event {
        kind: Text::from_str(alloc, "storeglobal")?,
        texts: one_text(alloc, name.copy(alloc)?)?,
        operands: one_operand(alloc, value)?,
    })
}

/// Reads a name. On `OutOfMemory`, an allocation failed.
pub fn read_name<'b>(
    run: &mut Run<'b>,
    name: IdentifierReference<'b>,
) -> Result<Control<'b>, OutOfMemory>
    ensures { IfOk result (λ c. trace_of c (state_of run.new) ≡ from (read (state_of run.old).scene ((state_of run.old).scene.names.meaning name.entry.at.reference.0 name.entry.name.now)) (state_of run.old)) }
{
    match run.names.meaning(run.progress.alloc, &name)? {
        Meaning::Local(symbol) => Ok(Control::Value(run.read(symbol))),
        Meaning::Outer(binding) => {
            let event = global_event(run.progress.alloc, &binding)?;
            run.ask_value(event)
        }
    }
}

/// Stores a value in a name, and goes on with it. On `OutOfMemory`, an allocation failed.
pub fn write_name<'b>(
    run: &mut Run<'b>,
    name: IdentifierReference<'b>,
    value: Val<'b>,
) -> Result<Control<'b>, OutOfMemory>
    ensures { IfOk result (λ c. trace_of c (state_of run.new) ≡ from (write (state_of run.old).scene ((state_of run.old).scene.names.meaning name.entry.at.reference.0 name.entry.name.now) name.entry.name.now (shown value.entry)) (state_of run.old)) }
{
    match run.names.meaning(run.progress.alloc, &name)? {
        Meaning::Local(symbol) => {
            run.assign(symbol, value)?;
            Ok(Control::Value(value))
        }
        Meaning::Outer(_binding) => {
            let event = store_global_event(run.progress.alloc, name.name, value)?;
            run.ask_then(event, Control::Value(value))
        }
    }
}

//! The effects of instructions.

ghost use Rattle.std.specs.Prelude.{◌≡◌, Some};
ghost use Rattle.rl_machine.specs.Acts.{act, declared, event_of, value_of};
ghost use Rattle.rl_graph_steps.specs.Effects.{act_of, silent_act};
ghost use Rattle.rl_graph_steps.specs.declared.act.Act.TheVariants as Act;
ghost use Rattle.rl_graph_steps.specs.declared.act.Into.TheVariants as Into;
ghost use Rattle.rl_graph_steps.specs.declared.act.Landing.TheVariants as Landing;
ghost use Rattle.rl_graph_steps.specs.States.{state_of};
ghost use Rattle.rl_trace.specs.Values.{shown};

use crate::machine::{Machine, Run};
use rl_base::ids::IdentifierId;
use rl_hir::instruction::{InstructionKind, InstructionValue, Pattern, PrimitiveValue};
use rl_trace::value::Val;

/// At most two identifiers.
#[derive(Clone, Copy)]
pub enum Into {
    /// No identifier.
    Nothing,
    /// A single identifier.
    One(IdentifierId),
    /// Two identifiers, in order.
    Two(IdentifierId, IdentifierId),
}

/// Identifiers that take values when an event has its answer.
#[derive(Clone, Copy)]
pub enum Landing<'b> {
    /// These take the answer's value.
    Gives(Into),
    /// The first takes the answer's value, the second the value that is given here.
    Updates(IdentifierId, IdentifierId, Val<'b>),
    /// The identifier takes the value that is given here.
    Keeps(IdentifierId, Val<'b>),
    /// The places of the pattern take the answer's pieces; the identifier takes the value that is given here.
    Takes(&'b Pattern, IdentifierId, Val<'b>),
}

/// The effect of an instruction.
#[derive(Clone, Copy)]
pub enum Act<'b> {
    /// The identifiers take the value, silently.
    Computes(Val<'b>, Into),
    /// Asks the event of the instruction.
    Asks(Landing<'b>),
    /// Asks for the iterator of a `for`-`of` loop, once in each run of the loop.
    Opens,
    /// Asks for the next value of a loop, or for its end.
    Steps,
}

/// The value of a constant.
fn constant<'b>(value: &'b PrimitiveValue) -> Val<'b>
    ensures { shown result ≡ value_of value.entry.now }
{
    match value {
        PrimitiveValue::Undefined => Val::Undefined,
        PrimitiveValue::Null => Val::Null,
        PrimitiveValue::Boolean(flag) => Val::Bool(*flag),
        PrimitiveValue::Number(number) => Val::Number(number.get()),
        PrimitiveValue::String(text) => Val::Text(text),
    }
}

/// The effect of a declaration. The marker of a hoisted one and the parameter of a `catch` have none.
fn declared<'b>(kind: InstructionKind, variable: IdentifierId) -> Act<'b>
    ensures { silent_act result ≡ Some (declared kind variable.0) }
{
    match kind {
        InstructionKind::Const => Act::Computes(Val::Undefined, Into::One(variable)),
        InstructionKind::Let => Act::Computes(Val::Undefined, Into::One(variable)),
        InstructionKind::Reassign => Act::Computes(Val::Undefined, Into::One(variable)),
        InstructionKind::Function => Act::Computes(Val::Undefined, Into::One(variable)),
        InstructionKind::Catch => Act::Computes(Val::Undefined, Into::Nothing),
        InstructionKind::HoistedConst => Act::Computes(Val::Undefined, Into::Nothing),
        InstructionKind::HoistedLet => Act::Computes(Val::Undefined, Into::Nothing),
        InstructionKind::HoistedFunction => Act::Computes(Val::Undefined, Into::Nothing),
    }
}

/// The effect of an instruction whose result is the answer's value.
fn asks<'b>(target: IdentifierId) -> Act<'b>
    ensures { result ≡ Act.Asks (Landing.Gives (Into.One target)) }
{
    Act::Asks(Landing::Gives(Into::One(target)))
}

impl<'b> Machine<'b> {
    /// The effect of an instruction, whose identifier is `target`.
    pub fn act(&self, run: &Run<'b>, target: IdentifierId, value: &'b InstructionValue) -> Act<'b>
        ensures { act_of (event_of value.entry.now (state_of self.now run.now).seen.store) target.0 result
            ≡ act target.0 value.entry.now (state_of self.now run.now).seen.store }
    {
        match value {
            InstructionValue::Primitive(primitive) => Act::Computes(
                constant(primitive),
                Into::One(target),
            ),
            InstructionValue::JsxText(text) => Act::Computes(Val::Text(text), Into::One(target)),
            InstructionValue::LoadLocal(place) => Act::Computes(
                self.read(run, place.identifier),
                Into::One(target),
            ),
            InstructionValue::LoadContext(place) => Act::Computes(
                self.read(run, place.identifier),
                Into::One(target),
            ),
            InstructionValue::TypeCastExpression { value, .. } => Act::Computes(
                self.read(run, value.identifier),
                Into::One(target),
            ),
            InstructionValue::DeclareLocal { kind, place } => declared(*kind, place.identifier),
            InstructionValue::DeclareContext { kind, place } => declared(*kind, place.identifier),
            InstructionValue::StoreLocal {
                kind: _,
                place,
                value,
            } => Act::Computes(
                self.read(run, value.identifier),
                Into::Two(place.identifier, target),
            ),
            InstructionValue::StoreContext {
                kind: _,
                place,
                value,
            } => Act::Computes(
                self.read(run, value.identifier),
                Into::Two(place.identifier, target),
            ),
            InstructionValue::StoreGlobal { name: _, value } => Act::Asks(Landing::Keeps(
                target,
                self.read(run, value.identifier),
            )),
            InstructionValue::PropertyStore {
                object: _,
                property: _,
                value,
            } => Act::Asks(Landing::Keeps(target, self.read(run, value.identifier))),
            InstructionValue::ComputedStore(store) => Act::Asks(Landing::Keeps(
                target,
                self.read(run, store.get().value.identifier),
            )),
            InstructionValue::Destructure(taken) => {
                let taken = taken.get();
                Act::Asks(Landing::Takes(
                    &taken.pattern,
                    target,
                    self.read(run, taken.value.identifier),
                ))
            },
            InstructionValue::PrefixUpdate {
                operator: _,
                place,
                value: _,
            } => Act::Asks(Landing::Gives(Into::Two(place.identifier, target))),
            InstructionValue::PostfixUpdate {
                operator: _,
                place,
                value,
            } => Act::Asks(Landing::Updates(
                place.identifier,
                target,
                self.read(run, value.identifier),
            )),
            InstructionValue::GetIterator(_) => Act::Opens,
            InstructionValue::IteratorNext { .. } => Act::Steps,
            InstructionValue::NextPropertyOf(_) => Act::Steps,
            InstructionValue::LoadGlobal(_) => asks(target),
            InstructionValue::BinaryExpression { .. } => asks(target),
            InstructionValue::UnaryExpression { .. } => asks(target),
            InstructionValue::RegExpLiteral(_) => asks(target),
            InstructionValue::TemplateLiteral(_) => asks(target),
            InstructionValue::TaggedTemplateExpression { .. } => asks(target),
            InstructionValue::ArrayExpression(_) => asks(target),
            InstructionValue::ObjectExpression(_) => asks(target),
            InstructionValue::MetaProperty => asks(target),
            InstructionValue::Debugger => asks(target),
            InstructionValue::FunctionExpression(_) => asks(target),
            InstructionValue::ObjectMethod(_) => asks(target),
            InstructionValue::CallExpression { .. } => asks(target),
            InstructionValue::NewExpression { .. } => asks(target),
            InstructionValue::MethodCall(_) => asks(target),
            InstructionValue::PropertyLoad { .. } => asks(target),
            InstructionValue::PropertyDelete { .. } => asks(target),
            InstructionValue::ComputedLoad { .. } => asks(target),
            InstructionValue::ComputedDelete { .. } => asks(target),
            InstructionValue::JsxExpression(_) => asks(target),
            InstructionValue::JsxFragment(_) => asks(target),
            InstructionValue::Await(_) => asks(target),
        }
    }
}

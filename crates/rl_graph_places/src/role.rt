//! The part that places play in a value.

ghost use Rattle.rl_graph_places.specs.Roles.{Plays};

use rl_hir::instruction::{Destructure, InstructionKind, InstructionValue, Place};

/// The part that places play in a value.
#[derive(Clone, Copy)]
pub enum Role<'b> {
    /// A store, of this kind, to the first place; it reads the second.
    Stores(InstructionKind, Place, Place),
    /// A declaration of this kind.
    Declares(InstructionKind, Place),
    /// A value that is taken apart.
    Destructures(&'b Destructure),
    /// An update of the place.
    Updates(Place),
    /// The places are read alone.
    Reads,
}

/// The part that places play in a value.
pub fn role_of<'b>(value: &'b InstructionValue) -> Role<'b>
    ensures { Plays result value.entry.now }
{
    match value {
        InstructionValue::Primitive { .. } => Role::Reads,
        InstructionValue::JsxText { .. } => Role::Reads,
        InstructionValue::LoadLocal { .. } => Role::Reads,
        InstructionValue::LoadContext { .. } => Role::Reads,
        InstructionValue::TypeCastExpression { .. } => Role::Reads,
        InstructionValue::DeclareLocal { kind, place } => Role::Declares(*kind, *place),
        InstructionValue::DeclareContext { kind, place } => Role::Declares(*kind, *place),
        InstructionValue::StoreLocal { kind, place, value } => Role::Stores(*kind, *place, *value),
        InstructionValue::StoreContext { kind, place, value } => {
            Role::Stores(*kind, *place, *value)
        }
        InstructionValue::LoadGlobal { .. } => Role::Reads,
        InstructionValue::StoreGlobal { .. } => Role::Reads,
        InstructionValue::Destructure(taken) => Role::Destructures(taken.get()),
        InstructionValue::BinaryExpression { .. } => Role::Reads,
        InstructionValue::UnaryExpression { .. } => Role::Reads,
        InstructionValue::PrefixUpdate { place, .. } => Role::Updates(*place),
        InstructionValue::PostfixUpdate { place, .. } => Role::Updates(*place),
        InstructionValue::RegExpLiteral { .. } => Role::Reads,
        InstructionValue::TemplateLiteral { .. } => Role::Reads,
        InstructionValue::TaggedTemplateExpression { .. } => Role::Reads,
        InstructionValue::ArrayExpression { .. } => Role::Reads,
        InstructionValue::ObjectExpression { .. } => Role::Reads,
        InstructionValue::MetaProperty => Role::Reads,
        InstructionValue::Debugger => Role::Reads,
        InstructionValue::FunctionExpression { .. } => Role::Reads,
        InstructionValue::ObjectMethod { .. } => Role::Reads,
        InstructionValue::CallExpression { .. } => Role::Reads,
        InstructionValue::NewExpression { .. } => Role::Reads,
        InstructionValue::MethodCall { .. } => Role::Reads,
        InstructionValue::PropertyLoad { .. } => Role::Reads,
        InstructionValue::PropertyStore { .. } => Role::Reads,
        InstructionValue::PropertyDelete { .. } => Role::Reads,
        InstructionValue::ComputedLoad { .. } => Role::Reads,
        InstructionValue::ComputedStore { .. } => Role::Reads,
        InstructionValue::ComputedDelete { .. } => Role::Reads,
        InstructionValue::JsxExpression { .. } => Role::Reads,
        InstructionValue::JsxFragment { .. } => Role::Reads,
        InstructionValue::Await { .. } => Role::Reads,
        InstructionValue::GetIterator { .. } => Role::Reads,
        InstructionValue::IteratorNext { .. } => Role::Reads,
        InstructionValue::NextPropertyOf { .. } => Role::Reads,
    }
}

//! Properties that are loaded, updated, deleted or called, behind the lowering of their parts.

ghost use Rattle.std.specs.Prelude.{◌≡◌, Some, OnOk, IfOk, IfErr};
ghost use Rattle.rl_syntax.specs.Syntax.{syntax};
ghost use Rattle.rl_builder.specs.Builder.{state_of};
ghost use Rattle.rl_builder.specs.Temporaries.{temporary, with_value};
ghost use Rattle.rl_lowered.specs.Forms.{delete_of, load_of, store_of};
ghost use Rattle.rl_lowered.specs.Lowered.{binary_of, member_result, member_stored};
ghost use Rattle.rl_lowered.specs.Promised.{HasRoom};
ghost use Rattle.rl_lower_expressions.specs.Groups.{key_number};
ghost use Rattle.rl_lower_expressions.specs.Members.{key_of};

use rl_ast::expression::{Expression, expression_view};
use rl_base::boxed::Boxed;
use rl_base::error::OutOfMemory;
use rl_base::number::WholeNumber;
use rl_base::operator::{BinaryOperator, UpdateOperator};
use rl_base::span::Span;
use rl_base::stop::Stop;
use rl_builder::unit_tables::ReadsUnit;
use rl_grammar::sort::ExpressionTree;
use rl_hir::instruction::{
    ComputedStore, InstructionValue, Place, PrimitiveValue, PropertyLiteral,
};
use rl_lower_parts::graph_builder::GraphBuilder;
use rl_lower_parts::temporary::lower_value_to_temporary;
use rl_syntax::numbered::At;
use rl_text::number::parse_number;
use std::alloc::Global;

/// The key of a property (`MemberProperty` of the compiler).
#[derive(Drop)]
pub enum MemberProperty {
    /// A fixed key.
    Literal(PropertyLiteral),
    /// The place of a computed key.
    Computed(Place),
}

/// A property whose object, and key where it is computed, were lowered (`LoweredMemberExpression` of the compiler).
#[derive(Drop)]
pub struct LoweredMember {
    /// The place of the object.
    pub object: Place,
    /// The key.
    pub property: MemberProperty,
}

/// The value of a key in brackets that is a numeral. `None` of any other key.
pub(crate) fn key_number(key: ExpressionTree<'_>) -> Option<u64>
    ensures { result ≡ key_number (syntax key.entry.tree.now) }
{
    match expression_view(key) {
        Expression::Number { at: _, text } => parse_number(text.as_bytes()),
        _ => None,
    }
}

/// A copy of a fixed key.
fn copy_key(alloc: Global, key: &PropertyLiteral) -> Result<PropertyLiteral, OutOfMemory>
    ensures { IfOk result (λ copy. copy ≡ key.now) }
{
    match key {
        PropertyLiteral::String(text) => Ok(PropertyLiteral::String(text.copy(alloc)?)),
        PropertyLiteral::Number(number) => Ok(PropertyLiteral::Number(*number)),
    }
}

/// The value that loads a property whose key is still used behind it.
pub(crate) fn load_again(
    alloc: Global,
    member: &LoweredMember,
) -> Result<InstructionValue, OutOfMemory>
    ensures { IfOk result (λ value. value ≡ load_of member.now.object (key_of member.now.property)) }
{
    let object = member.object;
    match &member.property {
        MemberProperty::Literal(key) => {
            let property = Boxed::new(alloc, copy_key(alloc, key)?)?;
            Ok(InstructionValue::PropertyLoad { object, property })
        }
        MemberProperty::Computed(property) => Ok(InstructionValue::ComputedLoad {
            object,
            property: *property,
        }),
    }
}

/// The value that loads a property.
pub(crate) fn load_value(
    alloc: Global,
    member: LoweredMember,
) -> Result<InstructionValue, OutOfMemory>
    ensures { IfOk result (λ value. value ≡ load_of member.object (key_of member.property)) }
{
    let object = member.object;
    match member.property {
        MemberProperty::Literal(key) => {
            let property = Boxed::new(alloc, key)?;
            Ok(InstructionValue::PropertyLoad { object, property })
        }
        MemberProperty::Computed(property) => {
            Ok(InstructionValue::ComputedLoad { object, property })
        }
    }
}

/// The value that stores `value` in a property.
fn store_value(
    alloc: Global,
    member: LoweredMember,
    value: Place,
) -> Result<InstructionValue, OutOfMemory>
    ensures { IfOk result (λ stored. stored ≡ store_of member.object (key_of member.property) value) }
{
    let object = member.object;
    match member.property {
        MemberProperty::Literal(key) => {
            let property = Boxed::new(alloc, key)?;
            Ok(InstructionValue::PropertyStore {
                object,
                property,
                value,
            })
        }
        MemberProperty::Computed(property) => {
            let store = ComputedStore {
                object,
                property,
                value,
            };
            Ok(InstructionValue::ComputedStore(Boxed::new(alloc, store)?))
        }
    }
}

/// The value that deletes a property.
pub(crate) fn delete_value(
    alloc: Global,
    member: LoweredMember,
) -> Result<InstructionValue, OutOfMemory>
    ensures { IfOk result (λ value. value ≡ delete_of member.object (key_of member.property)) }
{
    let object = member.object;
    match member.property {
        MemberProperty::Literal(key) => {
            let property = Boxed::new(alloc, key)?;
            Ok(InstructionValue::PropertyDelete { object, property })
        }
        MemberProperty::Computed(property) => {
            Ok(InstructionValue::ComputedDelete { object, property })
        }
    }
}

/// The operator that computes the new value of an update.
fn binary_of(operator: UpdateOperator) -> BinaryOperator
    ensures { result ≡ binary_of operator }
{
    match operator {
        UpdateOperator::Increment => BinaryOperator::Addition,
        UpdateOperator::Decrement => BinaryOperator::Subtraction,
    }
}

/// Lowers an update of a property at `there`: the old value is loaded, 1 is made, and the new value is computed and stored.
pub(crate) fn update_member<U: ReadsUnit>(
    alloc: Global,
    builder: &mut GraphBuilder<'_, U>,
    there: At,
    operator: UpdateOperator,
    prefix: bool,
    member: LoweredMember,
) -> Result<Place, Stop>
    requires room { HasRoom (state_of U.tables builder.old) 16 }
    ensures same_reference { builder.new.env.ghost_name ≡ builder.old.env.ghost_name }
    ensures state { OnOk result (state_of U.tables builder.new ≡ member_stored (state_of U.tables builder.old) member.object (key_of member.property) operator there.span) }
    ensures place { IfOk result (λ place. place ≡ member_result (state_of U.tables builder.old) member.object (key_of member.property) operator prefix there.span) }
    ensures memory { IfErr result (λ e. e ≡ Stop.OutOfMemory) }
{
    let span = Some(there.span);
    let load = load_again(alloc, &member)?;
    let old = lower_value_to_temporary(builder, load, span)?;
    let number = WholeNumber::new(1);
    let value = InstructionValue::Primitive(PrimitiveValue::Number(number));
    let one = lower_value_to_temporary(builder, value, None)?;
    let value = InstructionValue::BinaryExpression {
        operator: binary_of(operator),
        left: old,
        right: one,
    };
    let updated = lower_value_to_temporary(builder, value, span)?;
    let store = store_value(alloc, member, updated)?;
    let stored = lower_value_to_temporary(builder, store, span)?;
    if prefix {
        return Ok(stored);
    }
    Ok(old)
}

/// Stores `value` in a property, whose object and key were lowered, by an instruction with the span `at`. Returns the place of the store.
/// On `Stop::OutOfMemory` an allocation failed; no other stop comes.
pub fn store_member<U: ReadsUnit>(
    alloc: Global,
    builder: &mut GraphBuilder<'_, U>,
    at: Span,
    member: LoweredMember,
    value: Place,
) -> Result<Place, Stop>
    requires room { HasRoom (state_of U.tables builder.old) 4 }
    ensures same_reference { builder.new.env.ghost_name ≡ builder.old.env.ghost_name }
    ensures state { OnOk result (state_of U.tables builder.new ≡ with_value (state_of U.tables builder.old) (store_of member.object (key_of member.property) value) (Some at)) }
    ensures place { IfOk result (λ place. place ≡ temporary (state_of U.tables builder.old) (Some at)) }
    ensures memory { IfErr result (λ e. e ≡ Stop.OutOfMemory) }
{
    let store = store_value(alloc, member, value)?;
    lower_value_to_temporary(builder, store, Some(at))
}

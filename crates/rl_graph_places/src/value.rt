//! The identifiers that values name.

ghost use Rattle.std.specs.Prelude.{◌≡◌, ◌∷◌, ◌++◌, [], OnOk};
ghost use Rattle.rl_hir.specs.Pieces.{Gives, argument_pieces, attribute_pieces, gathered, pattern_pieces};
ghost use Rattle.rl_hir.specs.Pieces.{tag_pieces, template_pieces, used, value_pieces};
ghost use Rattle.rl_model.specs.WellFormed.{value_places};
ghost use Rattle.rl_model.specs.Worlds.{identifiers_in};
ghost use Rattle.rl_graph_places.specs.Places.{named};

use crate::places::{
    push_arguments, push_attributes, push_elements, push_none, push_pattern, push_place,
    push_places, push_properties, push_tag, push_template, push_two,
};
use rl_base::error::OutOfMemory;
use rl_hir::instruction::{
    ComputedStore, Destructure, InstructionValue, JsxExpression, MethodCall, Place, PlaceOrSpread,
    TemplateLiteral,
};

/// Appends the identifiers of a value that is taken apart and of the places that take its parts. On `OutOfMemory` an allocation
/// failed.
fn push_destructure(out: &mut Vec<u32>, taken: &Destructure) -> Result<(), OutOfMemory>
    ensures { OnOk result (out.new.items ≡ out.old.items ++ taken.now.value.identifier.0 ∷ named (pattern_pieces taken.now.pattern)) }
{
    push_place(out, taken.value)?;
    push_pattern(out, &taken.pattern)?;
    Ok(())
}

/// Appends the identifiers of a tag and its template. On `OutOfMemory` an allocation failed.
fn push_tagged(
    out: &mut Vec<u32>,
    tag: Place,
    template: &TemplateLiteral,
) -> Result<(), OutOfMemory>
    ensures { OnOk result (out.new.items ≡ out.old.items ++ tag.identifier.0 ∷ named (template_pieces template.now)) }
{
    push_place(out, tag)?;
    push_template(out, template)?;
    Ok(())
}

/// Appends the identifiers of a function and its arguments. On `OutOfMemory` an allocation failed.
fn push_call(
    out: &mut Vec<u32>,
    callee: Place,
    arguments: &[PlaceOrSpread],
) -> Result<(), OutOfMemory>
    ensures { OnOk result (out.new.items ≡ out.old.items ++ callee.identifier.0 ∷ named (gathered argument_pieces arguments.now)) }
{
    push_place(out, callee)?;
    push_arguments(out, arguments)?;
    Ok(())
}

/// Appends the identifiers of the call of a method. On `OutOfMemory` an allocation failed.
fn push_method_call(out: &mut Vec<u32>, call: &MethodCall) -> Result<(), OutOfMemory>
    ensures { OnOk result (out.new.items ≡ out.old.items
        ++ call.now.receiver.identifier.0 ∷ call.now.property.identifier.0 ∷ named (gathered argument_pieces call.now.arguments)) }
{
    let arguments = call.arguments.as_slice();
    push_place(out, call.receiver)?;
    push_call(out, call.property, arguments)?;
    Ok(())
}

/// Appends the identifiers of three places. On `OutOfMemory` an allocation failed.
fn push_computed_store(out: &mut Vec<u32>, store: ComputedStore) -> Result<(), OutOfMemory>
    ensures { OnOk result (out.new.items ≡ out.old.items
        ++ store.object.identifier.0 ∷ store.property.identifier.0 ∷ store.value.identifier.0 ∷ []) }
{
    push_two(out, store.object, store.property)?;
    push_place(out, store.value)?;
    Ok(())
}

/// Appends the identifiers of the parts of an element. On `OutOfMemory` an allocation failed.
#[tactic(auto, using(crate::proofs::Naming::named_append))]
fn push_jsx(out: &mut Vec<u32>, jsx: &JsxExpression) -> Result<(), OutOfMemory>
    ensures { OnOk result (out.new.items ≡ out.old.items
        ++ named (tag_pieces jsx.now.tag ++ (gathered attribute_pieces jsx.now.props ++ gathered value_pieces jsx.now.children))) }
{
    let props = jsx.props.as_slice();
    let children = jsx.children.as_slice();
    push_tag(out, &jsx.tag)?;
    push_attributes(out, props)?;
    push_places(out, children)?;
    Ok(())
}

/// Appends the identifiers of the places that a value names. On `OutOfMemory` an allocation failed.
#[tactic(auto, using(crate::proofs::Naming::named_said))]
pub fn push_value(out: &mut Vec<u32>, value: &InstructionValue) -> Result<(), OutOfMemory>
    ensures { OnOk result (out.new.items ≡ out.old.items ++ identifiers_in (value_places value.now)) }
{
    match value {
        InstructionValue::Primitive { .. } => push_none(out),
        InstructionValue::JsxText { .. } => push_none(out),
        InstructionValue::LoadLocal(place) => push_place(out, *place),
        InstructionValue::LoadContext(place) => push_place(out, *place),
        InstructionValue::TypeCastExpression { value, .. } => push_place(out, *value),
        InstructionValue::DeclareLocal { kind: _, place } => push_place(out, *place),
        InstructionValue::DeclareContext { kind: _, place } => push_place(out, *place),
        InstructionValue::StoreLocal {
            kind: _,
            place,
            value,
        } => push_two(out, *place, *value),
        InstructionValue::StoreContext {
            kind: _,
            place,
            value,
        } => push_two(out, *place, *value),
        InstructionValue::LoadGlobal { .. } => push_none(out),
        InstructionValue::StoreGlobal { name: _, value } => push_place(out, *value),
        InstructionValue::Destructure(taken) => push_destructure(out, taken.get()),
        InstructionValue::BinaryExpression {
            operator: _,
            left,
            right,
        } => push_two(out, *left, *right),
        InstructionValue::UnaryExpression { operator: _, value } => push_place(out, *value),
        InstructionValue::PrefixUpdate {
            operator: _,
            place,
            value,
        } => push_two(out, *value, *place),
        InstructionValue::PostfixUpdate {
            operator: _,
            place,
            value,
        } => push_two(out, *value, *place),
        InstructionValue::RegExpLiteral { .. } => push_none(out),
        InstructionValue::TemplateLiteral(template) => push_template(out, template.get()),
        InstructionValue::TaggedTemplateExpression { tag, template } => push_tagged(
            out,
            *tag,
            template.get(),
        ),
        InstructionValue::ArrayExpression(elements) => push_elements(out, elements.as_slice()),
        InstructionValue::ObjectExpression(properties) => push_properties(
            out,
            properties.as_slice(),
        ),
        InstructionValue::MetaProperty => push_none(out),
        InstructionValue::Debugger => push_none(out),
        InstructionValue::FunctionExpression { .. } => push_none(out),
        InstructionValue::ObjectMethod { .. } => push_none(out),
        InstructionValue::CallExpression { callee, arguments } => push_call(
            out,
            *callee,
            arguments.as_slice(),
        ),
        InstructionValue::NewExpression { callee, arguments } => push_call(
            out,
            *callee,
            arguments.as_slice(),
        ),
        InstructionValue::MethodCall(call) => push_method_call(out, call.get()),
        InstructionValue::PropertyLoad {
            object,
            property: _,
        } => push_place(out, *object),
        InstructionValue::PropertyStore {
            object,
            property: _,
            value,
        } => push_two(out, *object, *value),
        InstructionValue::PropertyDelete {
            object,
            property: _,
        } => push_place(out, *object),
        InstructionValue::ComputedLoad { object, property } => push_two(out, *object, *property),
        InstructionValue::ComputedStore(store) => push_computed_store(out, *store.get()),
        InstructionValue::ComputedDelete { object, property } => push_two(out, *object, *property),
        InstructionValue::JsxExpression(jsx) => push_jsx(out, jsx.get()),
        InstructionValue::JsxFragment(children) => push_places(out, children.as_slice()),
        InstructionValue::Await(value) => push_place(out, *value),
        InstructionValue::GetIterator(value) => push_place(out, *value),
        InstructionValue::IteratorNext {
            iterator,
            collection,
        } => push_two(out, *iterator, *collection),
        InstructionValue::NextPropertyOf(value) => push_place(out, *value),
    }
}

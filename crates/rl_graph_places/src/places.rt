//! The identifiers of places in a row.

ghost use Rattle.std.specs.Prelude.{◌≡◌, ◌∷◌, ◌++◌, [], OnOk};
ghost use Rattle.rl_hir.specs.Pieces as pieces;
ghost use Rattle.rl_hir.specs.Pieces.{gathered, used};
ghost use Rattle.rl_graph_places.specs.Places.{named};

use rl_base::error::OutOfMemory;
use rl_hir::instruction::{
    ArrayElement, JsxAttribute, JsxTag, ObjectPatternProperty, ObjectProperty, Pattern, Place,
    PlaceOrSpread, TemplateLiteral,
};

/// Appends nothing.
pub fn push_none(_out: &mut Vec<u32>) -> Result<(), OutOfMemory>
    ensures { OnOk result (_out.new.items ≡ _out.old.items ++ []) }
{
    Ok(())
}

/// Appends the identifier of a place. On `OutOfMemory` an allocation failed.
pub fn push_place(out: &mut Vec<u32>, place: Place) -> Result<(), OutOfMemory>
    ensures { OnOk result (out.new.items ≡ out.old.items ++ place.identifier.0 ∷ []) }
{
    out.push(place.identifier.0)?;
    Ok(())
}

/// Appends the identifiers of two places. On `OutOfMemory` an allocation failed.
pub fn push_two(out: &mut Vec<u32>, first: Place, second: Place) -> Result<(), OutOfMemory>
    ensures { OnOk result (out.new.items ≡ out.old.items ++ first.identifier.0 ∷ second.identifier.0 ∷ []) }
{
    push_place(out, first)?;
    push_place(out, second)?;
    Ok(())
}

/// Appends the identifier of an argument. On `OutOfMemory` an allocation failed.
fn push_argument(out: &mut Vec<u32>, argument: PlaceOrSpread) -> Result<(), OutOfMemory>
    ensures { OnOk result (out.new.items ≡ out.old.items ++ named (pieces.argument_pieces argument)) }
{
    match argument {
        PlaceOrSpread::Place(place) => push_place(out, place),
        PlaceOrSpread::Spread(place) => push_place(out, place),
    }
}

/// Appends the identifiers of arguments. On `OutOfMemory` an allocation failed.
#[tactic(auto, using(crate::proofs::Naming::named_append))]
pub fn push_arguments(out: &mut Vec<u32>, items: &[PlaceOrSpread]) -> Result<(), OutOfMemory>
    ensures { OnOk result (out.new.items ≡ out.old.items ++ named (gathered pieces.argument_pieces items.now)) }
{
    'items: for item in items {
        push_argument(out, *item)?;
    }
    Ok(())
}

/// Appends the identifier of an element of an array literal or pattern. On `OutOfMemory` an allocation failed.
fn push_element(out: &mut Vec<u32>, element: ArrayElement) -> Result<(), OutOfMemory>
    ensures { OnOk result (out.new.items ≡ out.old.items ++ named (pieces.element_pieces element)) }
{
    match element {
        ArrayElement::Place(place) => push_place(out, place),
        ArrayElement::Spread(place) => push_place(out, place),
        ArrayElement::Hole => push_none(out),
    }
}

/// Appends the identifiers of the elements of an array literal or pattern. On `OutOfMemory` an allocation failed.
#[tactic(auto, using(crate::proofs::Naming::named_append))]
pub fn push_elements(out: &mut Vec<u32>, items: &[ArrayElement]) -> Result<(), OutOfMemory>
    ensures { OnOk result (out.new.items ≡ out.old.items ++ named (gathered pieces.element_pieces items.now)) }
{
    'items: for item in items {
        push_element(out, *item)?;
    }
    Ok(())
}

/// Appends the identifiers of a property of an object literal. On `OutOfMemory` an allocation failed.
fn push_property(out: &mut Vec<u32>, property: &ObjectProperty) -> Result<(), OutOfMemory>
    ensures { OnOk result (out.new.items ≡ out.old.items ++ named (pieces.property_pieces property.now)) }
{
    match property {
        ObjectProperty::Property { key: _, place } => push_place(out, *place),
        ObjectProperty::Computed { key, place } => push_two(out, *key, *place),
        ObjectProperty::Spread(place) => push_place(out, *place),
    }
}

/// Appends the identifiers of the properties of an object literal. On `OutOfMemory` an allocation failed.
#[tactic(auto, using(crate::proofs::Naming::named_append))]
pub fn push_properties(out: &mut Vec<u32>, items: &[ObjectProperty]) -> Result<(), OutOfMemory>
    ensures { OnOk result (out.new.items ≡ out.old.items ++ named (gathered pieces.property_pieces items.now)) }
{
    'items: for item in items {
        push_property(out, item)?;
    }
    Ok(())
}

/// Appends the identifier of a property of an object pattern. On `OutOfMemory` an allocation failed.
fn push_taken(out: &mut Vec<u32>, property: &ObjectPatternProperty) -> Result<(), OutOfMemory>
    ensures { OnOk result (out.new.items ≡ out.old.items ++ named (pieces.taken_pieces property.now)) }
{
    match property {
        ObjectPatternProperty::Property { key: _, place } => push_place(out, *place),
        ObjectPatternProperty::Spread(place) => push_place(out, *place),
    }
}

/// Appends the identifiers of the properties of an object pattern. On `OutOfMemory` an allocation failed.
#[tactic(auto, using(crate::proofs::Naming::named_append))]
fn push_all_taken(out: &mut Vec<u32>, items: &[ObjectPatternProperty]) -> Result<(), OutOfMemory>
    ensures { OnOk result (out.new.items ≡ out.old.items ++ named (gathered pieces.taken_pieces items.now)) }
{
    'items: for item in items {
        push_taken(out, item)?;
    }
    Ok(())
}

/// Appends the identifiers of the places of a pattern. On `OutOfMemory` an allocation failed.
pub fn push_pattern(out: &mut Vec<u32>, pattern: &Pattern) -> Result<(), OutOfMemory>
    ensures { OnOk result (out.new.items ≡ out.old.items ++ named (pieces.pattern_pieces pattern.now)) }
{
    match pattern {
        Pattern::Array(items) => push_elements(out, items.as_slice()),
        Pattern::Object(properties) => push_all_taken(out, properties.as_slice()),
    }
}

/// Appends the identifiers of places. On `OutOfMemory` an allocation failed.
#[tactic(auto, using(crate::proofs::Naming::named_append))]
pub fn push_places(out: &mut Vec<u32>, items: &[Place]) -> Result<(), OutOfMemory>
    ensures { OnOk result (out.new.items ≡ out.old.items ++ named (gathered pieces.value_pieces items.now)) }
{
    'items: for item in items {
        push_place(out, *item)?;
    }
    Ok(())
}

/// Appends the identifiers of the values of a template. On `OutOfMemory` an allocation failed.
pub fn push_template(out: &mut Vec<u32>, template: &TemplateLiteral) -> Result<(), OutOfMemory>
    ensures { OnOk result (out.new.items ≡ out.old.items ++ named (pieces.template_pieces template.now)) }
{
    let values = template.subexpressions.as_slice();
    push_places(out, values)?;
    Ok(())
}

/// Appends the identifier of the tag of an element, if it is a value. On `OutOfMemory` an allocation failed.
pub fn push_tag(out: &mut Vec<u32>, tag: &JsxTag) -> Result<(), OutOfMemory>
    ensures { OnOk result (out.new.items ≡ out.old.items ++ named (pieces.tag_pieces tag.now)) }
{
    match tag {
        JsxTag::Place(place) => push_place(out, *place),
        JsxTag::Builtin(_) => push_none(out),
    }
}

/// Appends the identifier of an attribute. On `OutOfMemory` an allocation failed.
fn push_attribute(out: &mut Vec<u32>, attribute: &JsxAttribute) -> Result<(), OutOfMemory>
    ensures { OnOk result (out.new.items ≡ out.old.items ++ named (pieces.attribute_pieces attribute.now)) }
{
    match attribute {
        JsxAttribute::Attribute { name: _, place } => push_place(out, *place),
        JsxAttribute::SpreadAttribute(place) => push_place(out, *place),
    }
}

/// Appends the identifiers of attributes. On `OutOfMemory` an allocation failed.
#[tactic(auto, using(crate::proofs::Naming::named_append))]
pub fn push_attributes(out: &mut Vec<u32>, items: &[JsxAttribute]) -> Result<(), OutOfMemory>
    ensures { OnOk result (out.new.items ≡ out.old.items ++ named (gathered pieces.attribute_pieces items.now)) }
{
    'items: for item in items {
        push_attribute(out, item)?;
    }
    Ok(())
}

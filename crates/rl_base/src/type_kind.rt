//! Kinds of type annotations.

ghost use Rattle.rl_base.specs.TypeKinds.{type_text, type_kinds};
ghost use Rattle.rl_base.specs.FoundKinds.{type_kinds_found};

use crate::closed_text::ClosedText;

/// The kind of a type annotation, of those that the compiler tells apart: `lowerType` of the original.
#[derive(Clone, Copy, Debug, PartialEq, Eq)]
pub enum TypeKind {
    /// A type of arrays, as `string[]` or `Array<string>`.
    Array,
    /// A type of primitive values, as `number` or `boolean`.
    Primitive,
    /// Any other type.
    Other,
}

/// Every `TypeKind`, in the order of the declaration.
const TYPE_KINDS: [TypeKind; 3] = [TypeKind::Array, TypeKind::Primitive, TypeKind::Other];

impl ClosedText for TypeKind {
    ghost text = { type_text };

    ghost values = { type_kinds };

    ghost complete = { type_kinds_found };

    fn as_str(self) -> &'static str {
        match self {
            TypeKind::Array => "array",
            TypeKind::Primitive => "primitive",
            TypeKind::Other => "other",
        }
    }

    fn every() -> &'static [TypeKind] {
        &TYPE_KINDS
    }
}

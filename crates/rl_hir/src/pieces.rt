//! Pieces: the texts and operands that the parts of a value add to the listing of its event.

ghost use Rattle.std.specs.Prelude.{List, [], ◌∷◌, ◌++◌, OnOk};
ghost use Rattle.rl_text.specs.Number.{numeral};
ghost use Rattle.rl_hir.specs.Pieces as spec;
ghost use Rattle.rl_hir.specs.Written.{AreListed};

use crate::instruction::{
    ArrayElement, JsxAttribute, JsxTag, NonLocalBinding, ObjectPatternProperty, ObjectProperty,
    Pattern, Place, PlaceOrSpread, PropertyLiteral, TemplateLiteral, TemplateQuasi,
};
use rl_base::error::OutOfMemory;
use rl_base::ids::NodeId;
use rl_base::list::List;
use rl_base::text::Text;
use rl_text::written::{Decimal, Dotted, Literal, WrittenParts};

/// A list that the listing of an event has.
#[derive(Clone, Copy)]
pub enum Row {
    /// Its texts.
    Texts,
    /// Its operands.
    Operands,
}

/// A value that adds pieces to the listing of an event.
pub trait Pieces {
    /// The pieces, in order.
    ghost pieces: { Self → List spec.Piece };

    /// Appends the texts, or the operands, of the pieces, each behind a space. On `OutOfMemory` an allocation failed, and `out`
    /// may hold a part of them.
    fn write_row(&self, row: Row, out: &mut Vec<u8>) -> Result<(), OutOfMemory>
        ensures { OnOk result (AreListed out.old.items out.new.items (spec.row_parts row (pieces self.now))) };
}

/// Appends `texts` or `operands`. On `OutOfMemory` an allocation failed, and `out` may hold a part of it.
fn write_either<A: WrittenParts + Drop, B: WrittenParts + Drop>(
    row: Row,
    texts: A,
    operands: B,
    out: &mut Vec<u8>,
) -> Result<(), OutOfMemory>
    ensures { OnOk result (AreListed out.old.items out.new.items (spec.either row (A.parts texts) (B.parts operands))) }
{
    match row {
        Row::Texts => texts.write_parts(out)?,
        Row::Operands => operands.write_parts(out)?,
    }
    Ok(())
}

impl<T: Pieces> Pieces for &T {
    ghost pieces = { λ item. T.pieces item.now };

    fn write_row(&self, row: Row, out: &mut Vec<u8>) -> Result<(), OutOfMemory> {
        (**self).write_row(row, out)
    }
}

impl Pieces for () {
    ghost pieces = { λ _. [] };

    fn write_row(&self, row: Row, out: &mut Vec<u8>) -> Result<(), OutOfMemory> {
        write_either(row, (), (), out)
    }
}

impl<A: Pieces, B: Pieces> Pieces for (A, B) {
    ghost pieces = { λ p. A.pieces p.0 ++ B.pieces p.1 };

    fn write_row(&self, row: Row, out: &mut Vec<u8>) -> Result<(), OutOfMemory> {
        self.0.write_row(row, out)?;
        self.1.write_row(row, out)?;
        Ok(())
    }
}

impl<A: Pieces, B: Pieces, C: Pieces> Pieces for (A, B, C) {
    ghost pieces = { λ p. A.pieces p.0 ++ (B.pieces p.1 ++ C.pieces p.2) };

    fn write_row(&self, row: Row, out: &mut Vec<u8>) -> Result<(), OutOfMemory> {
        self.0.write_row(row, out)?;
        (&self.1, &self.2).write_row(row, out)?;
        Ok(())
    }
}

/// Appends the texts, or the operands, of all items. On `OutOfMemory` an allocation failed, and `out` may hold a part of them.
fn write_rows<T: Pieces>(items: &[T], row: Row, out: &mut Vec<u8>) -> Result<(), OutOfMemory>
    ensures { OnOk result (AreListed out.old.items out.new.items (spec.row_parts row (spec.gathered T.pieces items.now))) }
{
    'items: for item in items {
        item.write_row(row, out)?;
    }
    Ok(())
}

impl<T: Pieces> Pieces for List<T> {
    ghost pieces = { spec.gathered T.pieces };

    fn write_row(&self, row: Row, out: &mut Vec<u8>) -> Result<(), OutOfMemory> {
        write_rows(self.as_slice(), row, out)
    }
}

impl<'a> Pieces for Literal<'a> {
    ghost pieces = { λ literal. spec.Says literal.0.now ∷ [] };

    fn write_row(&self, row: Row, out: &mut Vec<u8>) -> Result<(), OutOfMemory> {
        write_either(row, (self,), (), out)
    }
}

impl Pieces for Text {
    ghost pieces = { λ text. spec.Says text ∷ [] };

    fn write_row(&self, row: Row, out: &mut Vec<u8>) -> Result<(), OutOfMemory> {
        write_either(row, (self,), (), out)
    }
}

impl<'a> Pieces for Dotted<'a> {
    ghost pieces = { λ dotted. spec.Names dotted.0.now ∷ [] };

    fn write_row(&self, row: Row, out: &mut Vec<u8>) -> Result<(), OutOfMemory> {
        write_either(row, (self,), (), out)
    }
}

impl Pieces for NodeId {
    ghost pieces = { λ id. spec.Says (numeral id.0) ∷ [] };

    fn write_row(&self, row: Row, out: &mut Vec<u8>) -> Result<(), OutOfMemory> {
        write_either(row, (Decimal(self.0),), (), out)
    }
}

impl Pieces for Place {
    ghost pieces = { spec.value_pieces };

    fn write_row(&self, row: Row, out: &mut Vec<u8>) -> Result<(), OutOfMemory> {
        write_either(row, (Literal("place"),), (self,), out)
    }
}

/// A value that is spread.
#[derive(Drop)]
struct Spread(Place);

impl Pieces for Spread {
    ghost pieces = { λ spread. spec.Spreads spread.0 ∷ [] };

    fn write_row(&self, row: Row, out: &mut Vec<u8>) -> Result<(), OutOfMemory> {
        write_either(row, (Literal("spread"),), (self.0,), out)
    }
}

/// An operand without a text.
#[derive(Drop)]
pub struct Used(pub Place);

impl Pieces for Used {
    ghost pieces = { λ used. spec.used used.0 ∷ [] };

    fn write_row(&self, row: Row, out: &mut Vec<u8>) -> Result<(), OutOfMemory> {
        write_either(row, (), (self.0,), out)
    }
}

impl Pieces for PropertyLiteral {
    ghost pieces = { λ key. spec.Takes (spec.Key key) ∷ [] };

    fn write_row(&self, row: Row, out: &mut Vec<u8>) -> Result<(), OutOfMemory> {
        write_either(row, (), (self,), out)
    }
}

impl Pieces for NonLocalBinding {
    ghost pieces = { spec.binding_pieces };

    fn write_row(&self, row: Row, out: &mut Vec<u8>) -> Result<(), OutOfMemory> {
        match self {
            NonLocalBinding::Global { name } => name.write_row(row, out),
            NonLocalBinding::ModuleLocal { name } => (name, Literal("module")).write_row(row, out),
            NonLocalBinding::ImportDefault { name, module } => {
                (name, Literal("default"), module.get()).write_row(row, out)
            }
            NonLocalBinding::ImportNamespace { name, module } => {
                (name, Literal("namespace"), module.get()).write_row(row, out)
            }
            NonLocalBinding::ImportSpecifier { name, import } => {
                let import = import.get();
                let export = (&import.module, &import.imported);
                (name, Literal("named"), export).write_row(row, out)
            }
        }
    }
}

impl Pieces for PlaceOrSpread {
    ghost pieces = { spec.argument_pieces };

    fn write_row(&self, row: Row, out: &mut Vec<u8>) -> Result<(), OutOfMemory> {
        match self {
            PlaceOrSpread::Place(place) => place.write_row(row, out),
            PlaceOrSpread::Spread(place) => Spread(*place).write_row(row, out),
        }
    }
}

impl Pieces for ArrayElement {
    ghost pieces = { spec.element_pieces };

    fn write_row(&self, row: Row, out: &mut Vec<u8>) -> Result<(), OutOfMemory> {
        match self {
            ArrayElement::Place(place) => place.write_row(row, out),
            ArrayElement::Spread(place) => Spread(*place).write_row(row, out),
            ArrayElement::Hole => Literal("hole").write_row(row, out),
        }
    }
}

impl Pieces for ObjectProperty {
    ghost pieces = { spec.property_pieces };

    fn write_row(&self, row: Row, out: &mut Vec<u8>) -> Result<(), OutOfMemory> {
        match self {
            ObjectProperty::Property { key, place } => (Dotted(key), place).write_row(row, out),
            ObjectProperty::Computed { key, place } => (key, place).write_row(row, out),
            ObjectProperty::Spread(place) => Spread(*place).write_row(row, out),
        }
    }
}

impl Pieces for ObjectPatternProperty {
    ghost pieces = { spec.taken_pieces };

    fn write_row(&self, row: Row, out: &mut Vec<u8>) -> Result<(), OutOfMemory> {
        match self {
            ObjectPatternProperty::Property { key, place } => {
                (Dotted(key), place).write_row(row, out)
            }
            ObjectPatternProperty::Spread(place) => Spread(*place).write_row(row, out),
        }
    }
}

impl Pieces for Pattern {
    ghost pieces = { spec.pattern_pieces };

    fn write_row(&self, row: Row, out: &mut Vec<u8>) -> Result<(), OutOfMemory> {
        match self {
            Pattern::Array(items) => (Literal("array"), items).write_row(row, out),
            Pattern::Object(properties) => (Literal("object"), properties).write_row(row, out),
        }
    }
}

impl Pieces for TemplateQuasi {
    ghost pieces = { spec.quasi_pieces };

    fn write_row(&self, row: Row, out: &mut Vec<u8>) -> Result<(), OutOfMemory> {
        match &self.cooked {
            Some(text) => (&self.raw, Dotted(text)).write_row(row, out),
            None => (&self.raw, Literal("")).write_row(row, out),
        }
    }
}

impl Pieces for TemplateLiteral {
    ghost pieces = { spec.template_pieces };

    fn write_row(&self, row: Row, out: &mut Vec<u8>) -> Result<(), OutOfMemory> {
        (&self.quasis, &self.subexpressions).write_row(row, out)
    }
}

impl Pieces for JsxTag {
    ghost pieces = { spec.tag_pieces };

    fn write_row(&self, row: Row, out: &mut Vec<u8>) -> Result<(), OutOfMemory> {
        match self {
            JsxTag::Place(place) => place.write_row(row, out),
            JsxTag::Builtin(name) => Dotted(name).write_row(row, out),
        }
    }
}

impl Pieces for JsxAttribute {
    ghost pieces = { spec.attribute_pieces };

    fn write_row(&self, row: Row, out: &mut Vec<u8>) -> Result<(), OutOfMemory> {
        match self {
            JsxAttribute::Attribute { name, place } => (Dotted(name), place).write_row(row, out),
            JsxAttribute::SpreadAttribute(place) => Spread(*place).write_row(row, out),
        }
    }
}

/// The texts, or the operands, of pieces, as parts in a row.
#[derive(Drop)]
pub struct InRow<P>(pub P, pub Row);

impl<P: Pieces> WrittenParts for InRow<P> {
    ghost parts = { λ part. spec.row_parts part.1 (P.pieces part.0) };

    fn write_parts(&self, out: &mut Vec<u8>) -> Result<(), OutOfMemory> {
        self.0.write_row(self.1, out)?;
        Ok(())
    }
}

//! Listings of places and values.

ghost use Rattle.std.specs.Prelude.{◌≡◌, OnOk};
ghost use Rattle.rl_text.specs.Notation.{Node};
ghost use Rattle.rl_hir.specs.Trees as trees;
ghost use Rattle.rl_hir.specs.Values as spec;
ghost use Rattle.rl_hir.specs.Written.{IsListed, IsWordOf, value_word};

use crate::instruction::{
    Destructure, HirType, InstructionKind, InstructionValue as Value, Place, PrimitiveValue,
    PropertyLiteral,
};
use crate::pieces::{InRow, Pieces, Row, Used};
use rl_base::closed_text::ClosedText;
use rl_base::error::OutOfMemory;
use rl_base::operator::UpdateOperator;
use rl_text::written::{Bracketed, Literal, Written, WrittenParts, write_node};

impl Written for Place {
    ghost shown = { trees.place };

    fn write(&self, out: &mut Vec<u8>) -> Result<(), OutOfMemory> {
        write_node("p", &(self.identifier, self.span), out)
    }
}

impl Written for PrimitiveValue {
    ghost shown = { trees.primitive };

    fn write(&self, out: &mut Vec<u8>) -> Result<(), OutOfMemory> {
        match self {
            PrimitiveValue::Undefined => write_node("undefined", &(), out),
            PrimitiveValue::Null => write_node("null", &(), out),
            PrimitiveValue::Boolean(value) => write_node("bool", &(value,), out),
            PrimitiveValue::Number(value) => write_node("number", &(value,), out),
            PrimitiveValue::String(text) => write_node("text", &(text,), out),
        }
    }
}

impl Written for PropertyLiteral {
    ghost shown = { trees.property };

    fn write(&self, out: &mut Vec<u8>) -> Result<(), OutOfMemory> {
        match self {
            PropertyLiteral::String(text) => write_node("text", &(text,), out),
            PropertyLiteral::Number(value) => write_node("number", &(value,), out),
        }
    }
}

impl InstructionKind {
    /// The word of the kind in a listing.
    fn word(self) -> &'static str
        ensures { result.now ≡ trees.instruction_kind self }
    {
        match self {
            InstructionKind::Const => "const",
            InstructionKind::Let => "let",
            InstructionKind::Reassign => "reassign",
            InstructionKind::Catch => "catch",
            InstructionKind::Function => "function",
            InstructionKind::HoistedConst => "hoistedconst",
            InstructionKind::HoistedLet => "hoistedlet",
            InstructionKind::HoistedFunction => "hoistedfunction",
        }
    }
}

impl Written for InstructionKind {
    ghost shown = { trees.kind };

    fn write(&self, out: &mut Vec<u8>) -> Result<(), OutOfMemory> {
        Literal(self.word()).write(out)
    }
}

impl Written for HirType {
    ghost shown = { trees.hir_type };

    fn write(&self, out: &mut Vec<u8>) -> Result<(), OutOfMemory> {
        match self {
            HirType::Var(id) => id.write(out),
            HirType::Primitive => Literal("primitive").write(out),
            HirType::Array => Literal("array").write(out),
        }
    }
}

/// The table of values, handed to the macro `write` behind `given`: of each value its fields, behind `in` the field that is a
/// box, its word, and the function that lists it, with the parts that it takes.
macro_rules! with_values {
    ($write:ident $given:tt) => {
        $write! {
            $given
            Primitive(ref value) "primitive" write_silent((value,));
            JsxText(ref text) "jsxtext" write_silent((text,));
            LoadLocal(place) "loadlocal" write_silent((place,));
            LoadContext(place) "loadcontext" write_silent((place,));
            TypeCastExpression { value, cast, span } "typecast" write_silent((value, cast, span));
            DeclareLocal { kind, place } "declarelocal" write_silent((kind, place));
            DeclareContext { kind, place } "declarecontext" write_silent((kind, place));
            StoreLocal { kind, place, value } "storelocal" write_silent((kind, place, value));
            StoreContext { kind, place, value } "storecontext" write_silent((kind, place, value));
            LoadGlobal(ref binding) "loadglobal" write_event(binding);
            StoreGlobal { ref name, value } "storeglobal" write_event((name, Used(value)));
            Destructure(ref destructure) in destructure "destructure" write_destructure(destructure);
            BinaryExpression { operator, left, right } "binary"
                write_event((Literal(operator.as_str()), Used(left), Used(right)));
            UnaryExpression { operator, value } "unary" write_event((Literal(operator.as_str()), Used(value)));
            PrefixUpdate { operator, place, value } "prefixupdate" write_update(operator, place, value);
            PostfixUpdate { operator, place, value } "postfixupdate" write_update(operator, place, value);
            RegExpLiteral(ref literal) in literal "regexp" write_event((&literal.pattern, &literal.flags));
            TemplateLiteral(ref template) in template "template" write_event(template);
            TaggedTemplateExpression { tag, ref template } in template "tagged" write_event((tag, template));
            ArrayExpression(ref elements) "array" write_event(elements);
            ObjectExpression(ref properties) "object" write_event(properties);
            MetaProperty {} "metaproperty" write_event(());
            Debugger {} "debugger" write_event(());
            FunctionExpression(node) "function" write_event(node);
            ObjectMethod(node) "objectmethod" write_event(node);
            CallExpression { callee, ref arguments } "call" write_event((Used(callee), arguments));
            NewExpression { callee, ref arguments } "new" write_event((Used(callee), arguments));
            MethodCall(ref call) in call "methodcall" write_event((Used(call.receiver), Used(call.property), &call.arguments));
            PropertyLoad { object, ref property } in property "propertyload" write_event((Used(object), property));
            PropertyStore { object, ref property, value } in property "propertystore"
                write_event((Used(object), property, Used(value)));
            PropertyDelete { object, ref property } in property "propertydelete" write_event((Used(object), property));
            ComputedLoad { object, property } "computedload" write_event((Used(object), Used(property)));
            ComputedStore(ref store) in store "computedstore"
                write_event((Used(store.object), Used(store.property), Used(store.value)));
            ComputedDelete { object, property } "computeddelete" write_event((Used(object), Used(property)));
            JsxExpression(ref jsx) in jsx "jsx" write_event((&jsx.tag, &jsx.props, &jsx.children));
            JsxFragment(ref children) "jsxfragment" write_event(children);
            Await(value) "await" write_event(Used(value));
            GetIterator(value) "getiterator" write_event(Used(value));
            IteratorNext { iterator, collection } "iteratornext" write_event((Used(iterator), Used(collection)));
            NextPropertyOf(value) "nextpropertyof" write_event(Used(value));
        }
    };
}

/// The word of a value.
macro_rules! word_of {
    (($value:expr) $($name:ident $fields:tt $(in $boxed:ident)? $word:literal $write:ident($($part:expr),*);)*) => {
        match $value {
            $(Value::$name { .. } => $word,)*
        }
    };
}

impl Value {
    /// The word of the value in a listing.
    fn word(&self) -> &'static str
        ensures { IsWordOf (value_word self.now) result.now }
    {
        with_values!(word_of(self))
    }
}

/// Appends the listing of a value without an event. On `OutOfMemory` an allocation failed, and `out` may hold a part of it.
fn write_silent<P: WrittenParts + Drop>(
    operation: &Value,
    fields: P,
    out: &mut Vec<u8>,
) -> Result<(), OutOfMemory>
    ensures { OnOk result (IsListed out.old.items out.new.items (Node (value_word operation.now) (P.parts fields))) }
{
    write_node(operation.word(), &fields, out)?;
    Ok(())
}

/// Appends the listing of a value with an event. On `OutOfMemory` an allocation failed, and `out` may hold a part of it.
fn write_event<P: Pieces + Drop>(
    operation: &Value,
    pieces: P,
    out: &mut Vec<u8>,
) -> Result<(), OutOfMemory>
    ensures { OnOk result (IsListed out.old.items out.new.items (spec.form_tree (spec.Asks (value_word operation.now) (P.pieces pieces)))) }
{
    let texts = Bracketed(InRow(&pieces, Row::Texts));
    let operands = Bracketed(InRow(&pieces, Row::Operands));
    write_node(operation.word(), &(texts, operands), out)?;
    Ok(())
}

/// Appends the listing of `destructure`. On `OutOfMemory` an allocation failed, and `out` may hold a part of it.
fn write_destructure(
    operation: &Value,
    destructure: &Destructure,
    out: &mut Vec<u8>,
) -> Result<(), OutOfMemory>
    ensures { OnOk result (IsListed out.old.items out.new.items (spec.form_tree (spec.destructure_form (value_word operation.now) destructure.now))) }
{
    let texts = Bracketed(InRow(&destructure.pattern, Row::Texts));
    let value = Bracketed(InRow(Used(destructure.value), Row::Operands));
    let targets = Bracketed(InRow(&destructure.pattern, Row::Operands));
    let parts = (destructure.kind, texts, value, targets);
    write_node(operation.word(), &parts, out)?;
    Ok(())
}

/// Appends the listing of an update. On `OutOfMemory` an allocation failed, and `out` may hold a part of it.
fn write_update(
    operation: &Value,
    operator: UpdateOperator,
    place: Place,
    value: Place,
    out: &mut Vec<u8>,
) -> Result<(), OutOfMemory>
    ensures { OnOk result (IsListed out.old.items out.new.items (spec.form_tree (spec.update_form (value_word operation.now) operator place value))) }
{
    let texts = Bracketed(InRow(Literal(operator.as_str()), Row::Texts));
    let value = Bracketed(InRow(Used(value), Row::Operands));
    let target = Bracketed(InRow(Used(place), Row::Operands));
    write_node(operation.word(), &(texts, value, target), out)?;
    Ok(())
}

/// Appends the listing of a value.
macro_rules! written_of {
    (($value:ident, $out:ident) $($name:ident $fields:tt $(in $boxed:ident)? $word:literal $write:ident($($part:expr),*);)*) => {
        match *$value {
            $(Value::$name $fields => {
                $(let $boxed = $boxed.get();)?
                $write($value, $($part,)* $out)
            })*
        }
    };
}

/// Appends the listing of a value. On `OutOfMemory` an allocation failed, and `out` may hold a part of it.
fn write_value(operation: &Value, out: &mut Vec<u8>) -> Result<(), OutOfMemory>
    ensures { OnOk result (IsListed out.old.items out.new.items (spec.value operation.now)) }
{
    with_values!(written_of(operation, out))
}

impl Written for Value {
    ghost shown = { spec.value };

    fn write(&self, out: &mut Vec<u8>) -> Result<(), OutOfMemory> {
        write_value(self, out)?;
        Ok(())
    }
}

//! The instruction table of the function: each value once.

use crate::parts::{arguments, place, places, span, text};
use rl_base::boxed::Boxed;
use rl_base::error::OutOfMemory;
use rl_base::ids::{EvaluationOrder, NodeId, TypeId};
use rl_base::list::List;
use rl_base::number::WholeNumber;
use rl_base::operator::{BinaryOperator, UnaryOperator, UpdateOperator};
use rl_hir::instruction::{
    ArrayElement, ComputedStore, Destructure, HirType, ImportSpecifier, Instruction,
    InstructionKind, InstructionValue, JsxAttribute, JsxExpression, JsxTag, MethodCall,
    NonLocalBinding, ObjectProperty, Pattern, PrimitiveValue, PropertyLiteral, RegExpLiteral,
    TemplateLiteral, TemplateQuasi,
};
use std::alloc::Global;

/// The listings of the values, in the order of the table.
pub(crate) const VALUES: [&str; 40] = [
    "(primitive (number 15))",
    r#"(jsxtext "ab")"#,
    "(loadlocal (p 1 -))",
    "(loadcontext (p 1 -))",
    "(typecast (p 1 -) 4 (at 2 5))",
    r#"(declarelocal "let" (p 1 -))"#,
    r#"(declarecontext "hoistedconst" (p 1 -))"#,
    r#"(storelocal "const" (p 1 -) (p 2 -))"#,
    r#"(storecontext "reassign" (p 1 -) (p 2 -))"#,
    r#"(loadglobal ["f" "named" "m" "g"] [])"#,
    r#"(storeglobal ["f"] [(p 1 -)])"#,
    r#"(destructure "const" ["array" "place" "hole" "spread"] [(p 3 -)] [(p 1 -) (p 2 -)])"#,
    r#"(binary ["+"] [(p 1 -) (p 2 -)])"#,
    r#"(unary ["!"] [(p 1 -)])"#,
    r#"(prefixupdate ["++"] [(p 2 -)] [(p 1 -)])"#,
    r#"(postfixupdate ["--"] [(p 2 -)] [(p 1 -)])"#,
    r#"(regexp ["a" "g"] [])"#,
    r#"(template ["a" ".b" "c" "" "place"] [(p 1 -)])"#,
    r#"(tagged ["place" "a" ".b" "c" "" "place"] [(p 2 -) (p 1 -)])"#,
    r#"(array ["place" "hole" "spread"] [(p 1 -) (p 2 -)])"#,
    r#"(object [".a" "place" "place" "place" "spread"] [(p 1 -) (p 2 -) (p 3 -) (p 4 -)])"#,
    "(metaproperty [] [])",
    "(debugger [] [])",
    r#"(function ["7"] [])"#,
    r#"(objectmethod ["8"] [])"#,
    r#"(call ["place" "spread"] [(p 1 -) (p 2 -) (p 3 -)])"#,
    r#"(new ["place" "spread"] [(p 1 -) (p 2 -) (p 3 -)])"#,
    r#"(methodcall ["place" "spread"] [(p 1 -) (p 4 -) (p 2 -) (p 3 -)])"#,
    r#"(propertyload [] [(p 1 -) (text "a")])"#,
    "(propertystore [] [(p 1 -) (number 5) (p 2 -)])",
    r#"(propertydelete [] [(p 1 -) (text "a")])"#,
    "(computedload [] [(p 1 -) (p 2 -)])",
    "(computedstore [] [(p 1 -) (p 2 -) (p 3 -)])",
    "(computeddelete [] [(p 1 -) (p 2 -)])",
    r#"(jsx [".div" ".a" "place" "spread" "place"] [(p 1 -) (p 2 -) (p 3 -)])"#,
    r#"(jsxfragment ["place"] [(p 1 -)])"#,
    "(await [] [(p 1 -)])",
    "(getiterator [] [(p 1 -)])",
    "(iteratornext [] [(p 1 -) (p 2 -)])",
    "(nextpropertyof [] [(p 1 -)])",
];

type Table = List<Instruction>;

/// Appends an instruction of order 0 that puts the value into identifier 0.
fn add(table: &mut Table, value: InstructionValue) -> Result<(), OutOfMemory> {
    table.push(Instruction {
        order: EvaluationOrder(0),
        lvalue: place(0),
        value,
        span: None,
    })
}

fn add_literals(alloc: Global, table: &mut Table) -> Result<(), OutOfMemory> {
    let number = PrimitiveValue::Number(WholeNumber::new(15));
    add(table, InstructionValue::Primitive(number))?;
    add(table, InstructionValue::JsxText(text(alloc, "ab")?))
}

fn add_variables(table: &mut Table) -> Result<(), OutOfMemory> {
    let (one, two) = (place(1), place(2));
    add(table, InstructionValue::LoadLocal(one))?;
    add(table, InstructionValue::LoadContext(one))?;
    add(
        table,
        InstructionValue::TypeCastExpression {
            value: one,
            cast: HirType::Var(TypeId(4)),
            span: Some(span()),
        },
    )?;
    add(
        table,
        InstructionValue::DeclareLocal {
            kind: InstructionKind::Let,
            place: one,
        },
    )?;
    add(
        table,
        InstructionValue::DeclareContext {
            kind: InstructionKind::HoistedConst,
            place: one,
        },
    )?;
    add(
        table,
        InstructionValue::StoreLocal {
            kind: InstructionKind::Const,
            place: one,
            value: two,
        },
    )?;
    add(
        table,
        InstructionValue::StoreContext {
            kind: InstructionKind::Reassign,
            place: one,
            value: two,
        },
    )
}

fn add_load_global(alloc: Global, table: &mut Table) -> Result<(), OutOfMemory> {
    let module = text(alloc, "m")?;
    let imported = text(alloc, "g")?;
    let import = Boxed::new(alloc, ImportSpecifier { module, imported })?;
    let name = text(alloc, "f")?;
    add(
        table,
        InstructionValue::LoadGlobal(NonLocalBinding::ImportSpecifier { name, import }),
    )
}

fn add_store_global(alloc: Global, table: &mut Table) -> Result<(), OutOfMemory> {
    let name = text(alloc, "f")?;
    add(
        table,
        InstructionValue::StoreGlobal {
            name,
            value: place(1),
        },
    )
}

/// A place, a hole, and a place that is spread.
fn elements(alloc: Global) -> Result<List<ArrayElement>, OutOfMemory> {
    let mut elements = List::new(alloc);
    elements.push(ArrayElement::Place(place(1)))?;
    elements.push(ArrayElement::Hole)?;
    elements.push(ArrayElement::Spread(place(2)))?;
    Ok(elements)
}

fn add_destructure(alloc: Global, table: &mut Table) -> Result<(), OutOfMemory> {
    let destructure = Destructure {
        kind: InstructionKind::Const,
        pattern: Pattern::Array(elements(alloc)?),
        value: place(3),
    };
    let value = Boxed::new(alloc, destructure)?;
    add(table, InstructionValue::Destructure(value))
}

fn add_operators(table: &mut Table) -> Result<(), OutOfMemory> {
    let (one, two) = (place(1), place(2));
    add(
        table,
        InstructionValue::BinaryExpression {
            operator: BinaryOperator::Addition,
            left: one,
            right: two,
        },
    )?;
    add(
        table,
        InstructionValue::UnaryExpression {
            operator: UnaryOperator::LogicalNot,
            value: one,
        },
    )?;
    add(
        table,
        InstructionValue::PrefixUpdate {
            operator: UpdateOperator::Increment,
            place: one,
            value: two,
        },
    )?;
    add(
        table,
        InstructionValue::PostfixUpdate {
            operator: UpdateOperator::Decrement,
            place: one,
            value: two,
        },
    )
}

fn add_regexp(alloc: Global, table: &mut Table) -> Result<(), OutOfMemory> {
    let pattern = text(alloc, "a")?;
    let flags = text(alloc, "g")?;
    let literal = Boxed::new(alloc, RegExpLiteral { pattern, flags })?;
    add(table, InstructionValue::RegExpLiteral(literal))
}

/// Two texts, of which the second stands for none, and a value.
fn template(alloc: Global) -> Result<Boxed<TemplateLiteral>, OutOfMemory> {
    let mut quasis = List::new(alloc);
    let raw = text(alloc, "a")?;
    let cooked = Some(text(alloc, "b")?);
    quasis.push(TemplateQuasi { raw, cooked })?;
    quasis.push(TemplateQuasi {
        raw: text(alloc, "c")?,
        cooked: None,
    })?;
    let subexpressions = places(alloc, 1)?;
    Boxed::new(
        alloc,
        TemplateLiteral {
            quasis,
            subexpressions,
        },
    )
}

fn add_templates(alloc: Global, table: &mut Table) -> Result<(), OutOfMemory> {
    add(table, InstructionValue::TemplateLiteral(template(alloc)?))?;
    let template = template(alloc)?;
    add(
        table,
        InstructionValue::TaggedTemplateExpression {
            tag: place(2),
            template,
        },
    )
}

fn add_array(alloc: Global, table: &mut Table) -> Result<(), OutOfMemory> {
    add(table, InstructionValue::ArrayExpression(elements(alloc)?))
}

fn add_object(alloc: Global, table: &mut Table) -> Result<(), OutOfMemory> {
    let mut properties = List::new(alloc);
    properties.push(ObjectProperty::Property {
        key: text(alloc, "a")?,
        place: place(1),
    })?;
    properties.push(ObjectProperty::Computed {
        key: place(2),
        place: place(3),
    })?;
    properties.push(ObjectProperty::Spread(place(4)))?;
    add(table, InstructionValue::ObjectExpression(properties))
}

fn add_functions(table: &mut Table) -> Result<(), OutOfMemory> {
    add(table, InstructionValue::MetaProperty)?;
    add(table, InstructionValue::Debugger)?;
    add(table, InstructionValue::FunctionExpression(NodeId(7)))?;
    add(table, InstructionValue::ObjectMethod(NodeId(8)))
}

fn add_calls(alloc: Global, table: &mut Table) -> Result<(), OutOfMemory> {
    let callee = place(1);
    let given = arguments(alloc)?;
    add(
        table,
        InstructionValue::CallExpression {
            callee,
            arguments: given,
        },
    )?;
    let given = arguments(alloc)?;
    add(
        table,
        InstructionValue::NewExpression {
            callee,
            arguments: given,
        },
    )
}

fn add_method_call(alloc: Global, table: &mut Table) -> Result<(), OutOfMemory> {
    let call = MethodCall {
        receiver: place(1),
        property: place(4),
        arguments: arguments(alloc)?,
    };
    let value = Boxed::new(alloc, call)?;
    add(table, InstructionValue::MethodCall(value))
}

/// The key `a`.
fn key(alloc: Global) -> Result<Boxed<PropertyLiteral>, OutOfMemory> {
    let name = text(alloc, "a")?;
    Boxed::new(alloc, PropertyLiteral::String(name))
}

fn add_properties(alloc: Global, table: &mut Table) -> Result<(), OutOfMemory> {
    let (object, value) = (place(1), place(2));
    let property = key(alloc)?;
    add(table, InstructionValue::PropertyLoad { object, property })?;
    let property = Boxed::new(alloc, PropertyLiteral::Number(WholeNumber::new(5)))?;
    add(
        table,
        InstructionValue::PropertyStore {
            object,
            property,
            value,
        },
    )?;
    let property = key(alloc)?;
    add(table, InstructionValue::PropertyDelete { object, property })
}

fn add_computed(alloc: Global, table: &mut Table) -> Result<(), OutOfMemory> {
    let (object, property) = (place(1), place(2));
    add(table, InstructionValue::ComputedLoad { object, property })?;
    let store = ComputedStore {
        object,
        property,
        value: place(3),
    };
    let store = Boxed::new(alloc, store)?;
    add(table, InstructionValue::ComputedStore(store))?;
    add(table, InstructionValue::ComputedDelete { object, property })
}

/// An attribute, and one that is spread.
fn attributes(alloc: Global) -> Result<List<JsxAttribute>, OutOfMemory> {
    let mut attributes = List::new(alloc);
    attributes.push(JsxAttribute::Attribute {
        name: text(alloc, "a")?,
        place: place(1),
    })?;
    attributes.push(JsxAttribute::SpreadAttribute(place(2)))?;
    Ok(attributes)
}

fn add_jsx(alloc: Global, table: &mut Table) -> Result<(), OutOfMemory> {
    let props = attributes(alloc)?;
    let children = places(alloc, 3)?;
    let tag = JsxTag::Builtin(text(alloc, "div")?);
    let jsx = JsxExpression {
        tag,
        props,
        children,
    };
    let value = Boxed::new(alloc, jsx)?;
    add(table, InstructionValue::JsxExpression(value))
}

fn add_fragment(alloc: Global, table: &mut Table) -> Result<(), OutOfMemory> {
    add(table, InstructionValue::JsxFragment(places(alloc, 1)?))
}

fn add_steps(table: &mut Table) -> Result<(), OutOfMemory> {
    let (iterator, collection) = (place(1), place(2));
    add(table, InstructionValue::Await(iterator))?;
    add(table, InstructionValue::GetIterator(iterator))?;
    add(
        table,
        InstructionValue::IteratorNext {
            iterator,
            collection,
        },
    )?;
    add(table, InstructionValue::NextPropertyOf(iterator))
}

/// The instruction table.
pub(crate) fn table(alloc: Global) -> Result<Table, OutOfMemory> {
    let mut table = List::new(alloc);
    add_literals(alloc, &mut table)?;
    add_variables(&mut table)?;
    add_load_global(alloc, &mut table)?;
    add_store_global(alloc, &mut table)?;
    add_destructure(alloc, &mut table)?;
    add_operators(&mut table)?;
    add_regexp(alloc, &mut table)?;
    add_templates(alloc, &mut table)?;
    add_array(alloc, &mut table)?;
    add_object(alloc, &mut table)?;
    add_functions(&mut table)?;
    add_calls(alloc, &mut table)?;
    add_method_call(alloc, &mut table)?;
    add_properties(alloc, &mut table)?;
    add_computed(alloc, &mut table)?;
    add_jsx(alloc, &mut table)?;
    add_fragment(alloc, &mut table)?;
    add_steps(&mut table)?;
    Ok(table)
}

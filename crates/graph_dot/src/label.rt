//! Lines of a block's label: instructions and terminals in a short form.

use rl_base::closed_text::ClosedText;
use rl_base::error::OutOfMemory;
use rl_hir::instruction::{
    ArrayElement, HirType, Instruction, InstructionValue, NonLocalBinding, ObjectProperty, Place,
    PlaceOrSpread, PrimitiveValue, PropertyLiteral, TemplateLiteral,
};
use rl_hir::terminal::{Terminal, TerminalKind, each_terminal_successor};
use rl_text::written::Written;
use std::alloc::Global;
use std::fmt::Write;
use std::str;

/// Appends a line to a label of the shape `record`: there braces, bars, angle brackets, quotes and backslashes have a meaning,
/// spaces in a row are one, and `&` begins an entity.
pub fn push_line(line: &str, out: &mut String) -> Result<(), OutOfMemory> {
    let mut after_space = false;
    for c in line.chars() {
        match c {
            '{' | '}' | '|' | '<' | '>' | '"' | '\\' => {
                out.push('\\')?;
                out.push(c)?;
            }
            '&' => out.push_str("&amp;")?,
            ' ' if after_space => out.push_str("\\ ")?,
            _ => out.push(c)?,
        }
        after_space = c == ' ';
    }
    out.push_str("\\l")?;
    Ok(())
}

/// Appends `ORDER: $LVALUE = VALUE`.
pub fn push_instruction(
    alloc: Global,
    instruction: &Instruction,
    line: &mut String,
) -> Result<(), OutOfMemory> {
    let order = instruction.order.0;
    let lvalue = instruction.lvalue.identifier.0;
    write!(line, "{order}: ${lvalue} = ")?;
    push_value(alloc, &instruction.value, line)
}

/// The word of a terminal in listings.
fn terminal_word(kind: &TerminalKind) -> &'static str {
    match kind {
        TerminalKind::Goto { .. } => "goto",
        TerminalKind::If { .. } => "if",
        TerminalKind::Branch { .. } => "branch",
        TerminalKind::Switch { .. } => "switch",
        TerminalKind::Logical { .. } => "logical",
        TerminalKind::Ternary { .. } => "ternary",
        TerminalKind::Optional { .. } => "optional",
        TerminalKind::Sequence { .. } => "sequence",
        TerminalKind::Label { .. } => "label",
        TerminalKind::Try { .. } => "try",
        TerminalKind::While { .. } => "while",
        TerminalKind::DoWhile { .. } => "dowhile",
        TerminalKind::For { .. } => "for",
        TerminalKind::ForIn { .. } => "forin",
        TerminalKind::ForOf { .. } => "forof",
        TerminalKind::MaybeThrow { .. } => "maybethrow",
        TerminalKind::Return { .. } => "return",
        TerminalKind::Throw { .. } => "throw",
        TerminalKind::Unreachable => "unreachable",
    }
}

/// Appends `ORDER: WORD`, and behind it ` $VALUE` for what is returned or thrown, or ` bbID bbID ..` for the blocks to which the
/// terminal may lead.
pub fn push_terminal(
    alloc: Global,
    terminal: &Terminal,
    line: &mut String,
) -> Result<(), OutOfMemory> {
    let order = terminal.order.0;
    let word = terminal_word(&terminal.kind);
    write!(line, "{order}: {word}")?;
    if let TerminalKind::Return { value, .. } | TerminalKind::Throw { value } = &terminal.kind {
        let value = value.identifier.0;
        write!(line, " ${value}")?;
    }
    for successor in each_terminal_successor(alloc, terminal)?.as_slice() {
        let to = successor.0;
        write!(line, " bb{to}")?;
    }
    Ok(())
}

/// Appends a value as an expression over identifiers, written `$ID`; a value without such a form as it is listed.
fn push_value(
    alloc: Global,
    value: &InstructionValue,
    line: &mut String,
) -> Result<(), OutOfMemory> {
    match value {
        InstructionValue::Primitive(primitive) => push_primitive(primitive, line),
        InstructionValue::LoadLocal(place) => {
            let local = place.identifier.0;
            write!(line, "${local}")?;
            Ok(())
        }
        InstructionValue::LoadGlobal(binding) => push_binding(binding, line),
        InstructionValue::BinaryExpression {
            operator,
            left,
            right,
        } => {
            let operator = operator.as_str();
            let left = left.identifier.0;
            let right = right.identifier.0;
            write!(line, "${left} {operator} ${right}")?;
            Ok(())
        }
        InstructionValue::CallExpression { callee, arguments } => {
            let callee = callee.identifier.0;
            write!(line, "${callee}")?;
            push_arguments(arguments.as_slice(), line)
        }
        other => push_operation(alloc, other, line),
    }
}

/// As `push_value`, for constructions, operators before a value, stores and declarations.
fn push_operation(
    alloc: Global,
    value: &InstructionValue,
    line: &mut String,
) -> Result<(), OutOfMemory> {
    match value {
        InstructionValue::StoreLocal { place, value, .. } => {
            let place = place.identifier.0;
            let value = value.identifier.0;
            write!(line, "${place} := ${value}")?;
            Ok(())
        }
        InstructionValue::DeclareLocal { place, .. } => {
            let place = place.identifier.0;
            write!(line, "declare ${place}")?;
            Ok(())
        }
        InstructionValue::UnaryExpression { operator, value } => {
            let operator = operator.as_str();
            let value = value.identifier.0;
            write!(line, "{operator} ${value}")?;
            Ok(())
        }
        InstructionValue::Await(value) => {
            let value = value.identifier.0;
            write!(line, "await ${value}")?;
            Ok(())
        }
        InstructionValue::NewExpression { callee, arguments } => {
            let callee = callee.identifier.0;
            write!(line, "new ${callee}")?;
            push_arguments(arguments.as_slice(), line)
        }
        other => push_member(alloc, other, line),
    }
}

/// As `push_value`, for what is done with a property, and for an update: `$PLACE := ++$VALUE` or `$PLACE := $VALUE++`.
fn push_member(
    alloc: Global,
    value: &InstructionValue,
    line: &mut String,
) -> Result<(), OutOfMemory> {
    match value {
        InstructionValue::PropertyLoad { object, property } => push_property(
            object,
            property.get(),
            line,
        ),
        InstructionValue::PropertyStore {
            object,
            property,
            value,
        } => {
            push_property(object, property.get(), line)?;
            push_stored(value, line)
        }
        InstructionValue::PropertyDelete { object, property } => {
            line.push_str("delete ")?;
            push_property(object, property.get(), line)
        }
        InstructionValue::ComputedLoad { object, property } => push_item(object, property, line),
        InstructionValue::ComputedStore(store) => {
            let store = store.get();
            push_item(&store.object, &store.property, line)?;
            push_stored(&store.value, line)
        }
        InstructionValue::ComputedDelete { object, property } => {
            line.push_str("delete ")?;
            push_item(object, property, line)
        }
        InstructionValue::MethodCall(call) => {
            let call = call.get();
            let receiver = call.receiver.identifier.0;
            let property = call.property.identifier.0;
            write!(line, "${receiver}.${property}")?;
            push_arguments(call.arguments.as_slice(), line)
        }
        InstructionValue::PrefixUpdate {
            operator,
            place,
            value,
        } => {
            let operator = operator.as_str();
            let place = place.identifier.0;
            let value = value.identifier.0;
            write!(line, "${place} := {operator}${value}")?;
            Ok(())
        }
        InstructionValue::PostfixUpdate {
            operator,
            place,
            value,
        } => {
            let operator = operator.as_str();
            let place = place.identifier.0;
            let value = value.identifier.0;
            write!(line, "${place} := ${value}{operator}")?;
            Ok(())
        }
        other => push_literal(alloc, other, line),
    }
}

/// As `push_value`, for literals that have parts, and for operations without operands.
fn push_literal(
    alloc: Global,
    value: &InstructionValue,
    line: &mut String,
) -> Result<(), OutOfMemory> {
    match value {
        InstructionValue::ArrayExpression(elements) => push_elements(elements.as_slice(), line),
        InstructionValue::ObjectExpression(properties) => push_properties(
            properties.as_slice(),
            line,
        ),
        InstructionValue::TemplateLiteral(template) => push_template(template.get(), line),
        InstructionValue::TaggedTemplateExpression { tag, template } => {
            let tag = tag.identifier.0;
            write!(line, "${tag}")?;
            push_template(template.get(), line)
        }
        InstructionValue::RegExpLiteral(literal) => {
            let literal = literal.get();
            let pattern = literal.pattern.as_str();
            let flags = literal.flags.as_str();
            write!(line, "/{pattern}/{flags}")?;
            Ok(())
        }
        InstructionValue::TypeCastExpression { value, cast, .. } => {
            let value = value.identifier.0;
            write!(line, "${value} as ")?;
            push_type(*cast, line)
        }
        InstructionValue::MetaProperty => {
            line.push_str("import.meta")?;
            Ok(())
        }
        InstructionValue::Debugger => {
            line.push_str("debugger")?;
            Ok(())
        }
        listed => push_listed(alloc, listed, line),
    }
}

/// Appends `$OBJECT."NAME"` or `$OBJECT[NUMBER]`.
fn push_property(
    object: &Place,
    property: &PropertyLiteral,
    line: &mut String,
) -> Result<(), OutOfMemory> {
    let object = object.identifier.0;
    write!(line, "${object}")?;
    match property {
        PropertyLiteral::String(name) => {
            line.push('.')?;
            push_text(name.as_str(), line)
        }
        PropertyLiteral::Number(number) => {
            let number = number.get();
            write!(line, "[{number}]")?;
            Ok(())
        }
    }
}

/// Appends `$OBJECT[$PROPERTY]`.
fn push_item(object: &Place, property: &Place, line: &mut String) -> Result<(), OutOfMemory> {
    let object = object.identifier.0;
    let property = property.identifier.0;
    write!(line, "${object}[${property}]")?;
    Ok(())
}

/// Appends ` := $VALUE`.
fn push_stored(value: &Place, line: &mut String) -> Result<(), OutOfMemory> {
    let value = value.identifier.0;
    write!(line, " := ${value}")?;
    Ok(())
}

/// Appends `[$ID, ...$ID, -]`, with dots before an item that is spread, and a dash for a hole.
fn push_elements(elements: &[ArrayElement], line: &mut String) -> Result<(), OutOfMemory> {
    let mut before = "";
    line.push('[')?;
    for element in elements {
        line.push_str(before)?;
        before = ", ";
        match element {
            ArrayElement::Place(item) => push_place("", item, line)?,
            ArrayElement::Spread(items) => push_place("...", items, line)?,
            ArrayElement::Hole => line.push('-')?,
        }
    }
    line.push(']')?;
    Ok(())
}

/// Appends `{"NAME": $ID, [$ID]: $ID, ...$ID}`.
fn push_properties(properties: &[ObjectProperty], line: &mut String) -> Result<(), OutOfMemory> {
    let mut before = "";
    line.push('{')?;
    for property in properties {
        line.push_str(before)?;
        before = ", ";
        match property {
            ObjectProperty::Property { key, place } => {
                push_text(key.as_str(), line)?;
                push_place(": ", place, line)?;
            }
            ObjectProperty::Computed { key, place } => {
                push_place("[", key, line)?;
                push_place("]: ", place, line)?;
            }
            ObjectProperty::Spread(object) => push_place("...", object, line)?,
        }
    }
    line.push('}')?;
    Ok(())
}

/// Appends the texts of a template as the source writes them, each but the last with `${$ID}` behind it, between backticks.
fn push_template(template: &TemplateLiteral, line: &mut String) -> Result<(), OutOfMemory> {
    let mut values = template.subexpressions.as_slice().iter();
    line.push('`')?;
    for quasi in template.quasis.as_slice() {
        line.push_str(quasi.raw.as_str())?;
        if let Some(value) = values.next() {
            push_place("${", value, line)?;
            line.push('}')?;
        }
    }
    line.push('`')?;
    Ok(())
}

/// Appends a type that is asserted: `primitive`, `array`, or the number of a type variable.
fn push_type(cast: HirType, line: &mut String) -> Result<(), OutOfMemory> {
    match cast {
        HirType::Var(variable) => write!(line, "type {}", variable.0)?,
        HirType::Primitive => line.push_str("primitive")?,
        HirType::Array => line.push_str("array")?,
    }
    Ok(())
}

/// Appends a text and, behind it, `$ID`.
fn push_place(before: &str, place: &Place, line: &mut String) -> Result<(), OutOfMemory> {
    let identifier = place.identifier.0;
    write!(line, "{before}${identifier}")?;
    Ok(())
}

/// Appends the listing of a value.
fn push_listed(
    alloc: Global,
    value: &InstructionValue,
    line: &mut String,
) -> Result<(), OutOfMemory> {
    let mut bytes = Vec::new(alloc);
    value.write(&mut bytes)?;
    if let Ok(text) = str::from_utf8(&bytes) {
        line.push_str(text)?;
    }
    Ok(())
}

fn push_primitive(value: &PrimitiveValue, line: &mut String) -> Result<(), OutOfMemory> {
    match value {
        PrimitiveValue::Undefined => line.push_str("undefined")?,
        PrimitiveValue::Null => line.push_str("null")?,
        PrimitiveValue::Boolean(value) => write!(line, "{value}")?,
        PrimitiveValue::Number(value) => write!(line, "{}", value.get())?,
        PrimitiveValue::String(text) => push_text(text.as_str(), line)?,
    }
    Ok(())
}

/// Appends `($ID, ...$ID)`, with dots before an argument that is spread.
fn push_arguments(arguments: &[PlaceOrSpread], line: &mut String) -> Result<(), OutOfMemory> {
    let mut before = "(";
    for argument in arguments {
        line.push_str(before)?;
        before = ", ";
        if let PlaceOrSpread::Spread(_) = argument {
            line.push_str("...")?;
        }
        let identifier = argument.place().identifier.0;
        write!(line, "${identifier}")?;
    }
    if arguments.is_empty() {
        line.push('(')?;
    }
    line.push(')')?;
    Ok(())
}

/// Appends a name that no local has, behind the form of its declaration.
fn push_binding(binding: &NonLocalBinding, line: &mut String) -> Result<(), OutOfMemory> {
    let (declared, name) = match binding {
        NonLocalBinding::Global { name } => ("global ", name),
        NonLocalBinding::ModuleLocal { name } => ("module ", name),
        NonLocalBinding::ImportDefault { name, .. } => ("import default ", name),
        NonLocalBinding::ImportNamespace { name, .. } => ("import * ", name),
        NonLocalBinding::ImportSpecifier { name, .. } => ("import ", name),
    };
    line.push_str(declared)?;
    push_text(name.as_str(), line)
}

/// Appends a text in quotes. Quotes, backslashes and characters below 32 are written as in listings.
fn push_text(text: &str, line: &mut String) -> Result<(), OutOfMemory> {
    line.push('"')?;
    for c in text.chars() {
        if c < ' ' || c == '"' || c == '\\' {
            let code = u32::from(c);
            write!(line, "\\{code:02x}")?;
        } else {
            line.push(c)?;
        }
    }
    line.push('"')?;
    Ok(())
}

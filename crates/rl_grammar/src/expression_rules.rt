//! The table of the grammar for expressions, targets of assignments and JSX. Written by tools/syntax.py from tools/grammar.txt.

ghost use Rattle.std.specs.Prelude.{◌≡◌};
ghost use Rattle.rl_grammar.specs.Fields.{table_of};
ghost use Rattle.rl_grammar.specs.Rules as spec;

use crate::kind::{Field, Kind};
use rl_syntax::word::Word;

/// The fields of the kind `Expression`, by the word of a node.
pub(crate) fn expression_rule(word: Word) -> Option<&'static [Field]>
    ensures { table_of result ≡ spec.expression_rule word }
{
    match word {
        Word::Id => Some(&[Field::One(Kind::Text)]),
        Word::Null => Some(&[]),
        Word::Bool => Some(&[Field::One(Kind::Flag)]),
        Word::Num => Some(&[Field::One(Kind::Text)]),
        Word::Str => Some(&[Field::One(Kind::Text)]),
        Word::Bigint => Some(&[Field::One(Kind::Text)]),
        Word::Regexp => Some(&[Field::One(Kind::Text), Field::One(Kind::Text)]),
        Word::Template => Some(&[
            Field::Many(Kind::TemplateElement),
            Field::Many(Kind::Expression),
        ]),
        Word::Tagged => Some(&[
            Field::One(Kind::Expression),
            Field::One(Kind::TemplateLiteral),
        ]),
        Word::Array => Some(&[Field::Many(Kind::ArrayElement)]),
        Word::Object => Some(&[Field::Many(Kind::ObjectProperty)]),
        Word::Unary => Some(&[
            Field::One(Kind::UnaryOperator),
            Field::One(Kind::Expression),
        ]),
        Word::Update => Some(&[
            Field::One(Kind::UpdateOperator),
            Field::One(Kind::Flag),
            Field::One(Kind::AssignmentTarget),
        ]),
        Word::Binary => Some(&[
            Field::One(Kind::BinaryOperator),
            Field::One(Kind::Expression),
            Field::One(Kind::Expression),
        ]),
        Word::Privatein => Some(&[Field::One(Kind::Text), Field::One(Kind::Expression)]),
        Word::Logical => Some(&[
            Field::One(Kind::LogicalOperator),
            Field::One(Kind::Expression),
            Field::One(Kind::Expression),
        ]),
        Word::Cond => Some(&[
            Field::One(Kind::Expression),
            Field::One(Kind::Expression),
            Field::One(Kind::Expression),
        ]),
        Word::Assign => Some(&[
            Field::One(Kind::AssignmentOperator),
            Field::One(Kind::AssignmentTarget),
            Field::One(Kind::Expression),
        ]),
        Word::Seq => Some(&[Field::Many(Kind::Expression)]),
        Word::New => Some(&[Field::One(Kind::Expression), Field::Many(Kind::Argument)]),
        Word::Await => Some(&[Field::One(Kind::Expression)]),
        Word::Yield => Some(&[Field::One(Kind::Flag), Field::Maybe(Kind::Expression)]),
        Word::Importmeta => Some(&[]),
        Word::Newtarget => Some(&[]),
        Word::Super => Some(&[]),
        Word::This => Some(&[]),
        Word::Importcall => Some(&[Field::One(Kind::Expression), Field::Maybe(Kind::Expression)]),
        Word::Paren => Some(&[Field::One(Kind::Expression)]),
        Word::As => Some(&[
            Field::One(Kind::Expression),
            Field::One(Kind::TypeAnnotation),
        ]),
        Word::Satisfies => Some(&[
            Field::One(Kind::Expression),
            Field::One(Kind::TypeAnnotation),
        ]),
        Word::Assert => Some(&[
            Field::One(Kind::TypeAnnotation),
            Field::One(Kind::Expression),
        ]),
        Word::Nonnull => Some(&[Field::One(Kind::Expression)]),
        Word::Instantiate => Some(&[
            Field::One(Kind::Expression),
            Field::Many(Kind::IdentifierReference),
        ]),
        Word::Arrow => Some(&[
            Field::One(Kind::Flag),
            Field::One(Kind::Flag),
            Field::One(Kind::FormalParameters),
            Field::One(Kind::ArrowBody),
        ]),
        Word::Funexpr => Some(&[
            Field::One(Kind::Flag),
            Field::One(Kind::Flag),
            Field::One(Kind::Flag),
            Field::Maybe(Kind::BindingIdentifier),
            Field::One(Kind::FormalParameters),
            Field::One(Kind::FunctionBody),
        ]),
        Word::Classexpr => Some(&[
            Field::Maybe(Kind::BindingIdentifier),
            Field::Maybe(Kind::Expression),
            Field::Many(Kind::ClassElement),
        ]),
        Word::Element => Some(&[
            Field::One(Kind::JsxOpeningElement),
            Field::Many(Kind::JsxChild),
            Field::Maybe(Kind::JsxClosingElement),
        ]),
        Word::Fragment => Some(&[Field::Many(Kind::JsxChild)]),
        Word::Member => Some(&[
            Field::One(Kind::Flag),
            Field::One(Kind::Expression),
            Field::One(Kind::Text),
        ]),
        Word::Index => Some(&[
            Field::One(Kind::Flag),
            Field::One(Kind::Expression),
            Field::One(Kind::Expression),
        ]),
        Word::Privatemember => Some(&[
            Field::One(Kind::Flag),
            Field::One(Kind::Expression),
            Field::One(Kind::Text),
        ]),
        Word::Call => Some(&[
            Field::One(Kind::Flag),
            Field::One(Kind::Expression),
            Field::Many(Kind::Argument),
        ]),
        Word::Chain => Some(&[Field::One(Kind::Expression)]),
        _ => None,
    }
}

/// The fields of the kind `TemplateLiteral`, by the word of a node.
pub(crate) fn template_literal_rule(word: Word) -> Option<&'static [Field]>
    ensures { table_of result ≡ spec.template_literal_rule word }
{
    match word {
        Word::Template => Some(&[
            Field::Many(Kind::TemplateElement),
            Field::Many(Kind::Expression),
        ]),
        _ => None,
    }
}

/// The fields of the kind `TemplateElement`, by the word of a node.
pub(crate) fn template_element_rule(word: Word) -> Option<&'static [Field]>
    ensures { table_of result ≡ spec.template_element_rule word }
{
    match word {
        Word::Quasi => Some(&[Field::One(Kind::Text), Field::Maybe(Kind::Text)]),
        _ => None,
    }
}

/// The fields of the kind `ArrayElement`, by the word of a node.
pub(crate) fn array_element_rule(word: Word) -> Option<&'static [Field]>
    ensures { table_of result ≡ spec.array_element_rule word }
{
    match word {
        Word::Spread => Some(&[Field::One(Kind::Expression)]),
        Word::Hole => Some(&[]),
        _ => expression_rule(word),
    }
}

/// The fields of the kind `Argument`, by the word of a node.
pub(crate) fn argument_rule(word: Word) -> Option<&'static [Field]>
    ensures { table_of result ≡ spec.argument_rule word }
{
    match word {
        Word::Spread => Some(&[Field::One(Kind::Expression)]),
        _ => expression_rule(word),
    }
}

/// The fields of the kind `ObjectProperty`, by the word of a node.
pub(crate) fn object_property_rule(word: Word) -> Option<&'static [Field]>
    ensures { table_of result ≡ spec.object_property_rule word }
{
    match word {
        Word::Prop => Some(&[
            Field::One(Kind::Flag),
            Field::One(Kind::PropertyKey),
            Field::One(Kind::Expression),
        ]),
        Word::Method => Some(&[
            Field::One(Kind::Flag),
            Field::One(Kind::PropertyKey),
            Field::One(Kind::FunctionExpression),
        ]),
        Word::Get => Some(&[
            Field::One(Kind::Flag),
            Field::One(Kind::PropertyKey),
            Field::One(Kind::FunctionExpression),
        ]),
        Word::Set => Some(&[
            Field::One(Kind::Flag),
            Field::One(Kind::PropertyKey),
            Field::One(Kind::FunctionExpression),
        ]),
        Word::Spread => Some(&[Field::One(Kind::Expression)]),
        _ => None,
    }
}

/// The fields of the kind `AssignmentTarget`, by the word of a node.
pub(crate) fn assignment_target_rule(word: Word) -> Option<&'static [Field]>
    ensures { table_of result ≡ spec.assignment_target_rule word }
{
    match word {
        Word::Id => Some(&[Field::One(Kind::Text)]),
        Word::Member => Some(&[
            Field::One(Kind::Flag),
            Field::One(Kind::Expression),
            Field::One(Kind::Text),
        ]),
        Word::Index => Some(&[
            Field::One(Kind::Flag),
            Field::One(Kind::Expression),
            Field::One(Kind::Expression),
        ]),
        Word::Privatemember => Some(&[
            Field::One(Kind::Flag),
            Field::One(Kind::Expression),
            Field::One(Kind::Text),
        ]),
        Word::Arraytarget => Some(&[
            Field::Many(Kind::AssignmentTargetElement),
            Field::Maybe(Kind::AssignmentTargetRest),
        ]),
        Word::Objecttarget => Some(&[
            Field::Many(Kind::AssignmentTargetProperty),
            Field::Maybe(Kind::AssignmentTargetRest),
        ]),
        Word::As => Some(&[
            Field::One(Kind::Expression),
            Field::One(Kind::TypeAnnotation),
        ]),
        Word::Satisfies => Some(&[
            Field::One(Kind::Expression),
            Field::One(Kind::TypeAnnotation),
        ]),
        Word::Assert => Some(&[
            Field::One(Kind::TypeAnnotation),
            Field::One(Kind::Expression),
        ]),
        Word::Nonnull => Some(&[Field::One(Kind::Expression)]),
        _ => None,
    }
}

/// The fields of the kind `AssignmentTargetMaybeDefault`, by the word of a node.
pub(crate) fn assignment_target_maybe_default_rule(word: Word) -> Option<&'static [Field]>
    ensures { table_of result ≡ spec.assignment_target_maybe_default_rule word }
{
    match word {
        Word::Default => Some(&[
            Field::One(Kind::AssignmentTarget),
            Field::One(Kind::Expression),
        ]),
        _ => assignment_target_rule(word),
    }
}

/// The fields of the kind `AssignmentTargetElement`, by the word of a node.
pub(crate) fn assignment_target_element_rule(word: Word) -> Option<&'static [Field]>
    ensures { table_of result ≡ spec.assignment_target_element_rule word }
{
    match word {
        Word::Hole => Some(&[]),
        _ => assignment_target_maybe_default_rule(word),
    }
}

/// The fields of the kind `AssignmentTargetProperty`, by the word of a node.
pub(crate) fn assignment_target_property_rule(word: Word) -> Option<&'static [Field]>
    ensures { table_of result ≡ spec.assignment_target_property_rule word }
{
    match word {
        Word::Short => Some(&[
            Field::One(Kind::IdentifierReference),
            Field::Maybe(Kind::Expression),
        ]),
        Word::Keyed => Some(&[
            Field::One(Kind::Flag),
            Field::One(Kind::PropertyKey),
            Field::One(Kind::AssignmentTargetMaybeDefault),
        ]),
        _ => None,
    }
}

/// The fields of the kind `AssignmentTargetRest`, by the word of a node.
pub(crate) fn assignment_target_rest_rule(word: Word) -> Option<&'static [Field]>
    ensures { table_of result ≡ spec.assignment_target_rest_rule word }
{
    match word {
        Word::Rest => Some(&[Field::One(Kind::AssignmentTarget)]),
        _ => None,
    }
}

/// The fields of the kind `JsxElement`, by the word of a node.
pub(crate) fn jsx_element_rule(word: Word) -> Option<&'static [Field]>
    ensures { table_of result ≡ spec.jsx_element_rule word }
{
    match word {
        Word::Element => Some(&[
            Field::One(Kind::JsxOpeningElement),
            Field::Many(Kind::JsxChild),
            Field::Maybe(Kind::JsxClosingElement),
        ]),
        _ => None,
    }
}

/// The fields of the kind `JsxFragment`, by the word of a node.
pub(crate) fn jsx_fragment_rule(word: Word) -> Option<&'static [Field]>
    ensures { table_of result ≡ spec.jsx_fragment_rule word }
{
    match word {
        Word::Fragment => Some(&[Field::Many(Kind::JsxChild)]),
        _ => None,
    }
}

/// The fields of the kind `JsxOpeningElement`, by the word of a node.
pub(crate) fn jsx_opening_element_rule(word: Word) -> Option<&'static [Field]>
    ensures { table_of result ≡ spec.jsx_opening_element_rule word }
{
    match word {
        Word::Opening => Some(&[
            Field::One(Kind::JsxElementName),
            Field::Many(Kind::JsxAttribute),
        ]),
        _ => None,
    }
}

/// The fields of the kind `JsxClosingElement`, by the word of a node.
pub(crate) fn jsx_closing_element_rule(word: Word) -> Option<&'static [Field]>
    ensures { table_of result ≡ spec.jsx_closing_element_rule word }
{
    match word {
        Word::Closing => Some(&[]),
        _ => None,
    }
}

/// The fields of the kind `JsxElementName`, by the word of a node.
pub(crate) fn jsx_element_name_rule(word: Word) -> Option<&'static [Field]>
    ensures { table_of result ≡ spec.jsx_element_name_rule word }
{
    match word {
        Word::Tag => Some(&[Field::One(Kind::Text)]),
        Word::Id => Some(&[Field::One(Kind::Text)]),
        Word::This => Some(&[]),
        Word::Tagmember => Some(&[Field::One(Kind::JsxElementName), Field::One(Kind::Text)]),
        Word::Tagns => Some(&[Field::One(Kind::Text), Field::One(Kind::Text)]),
        _ => None,
    }
}

/// The fields of the kind `JsxAttribute`, by the word of a node.
pub(crate) fn jsx_attribute_rule(word: Word) -> Option<&'static [Field]>
    ensures { table_of result ≡ spec.jsx_attribute_rule word }
{
    match word {
        Word::Attr => Some(&[
            Field::One(Kind::JsxAttributeName),
            Field::Maybe(Kind::JsxAttributeValue),
        ]),
        Word::Attrspread => Some(&[Field::One(Kind::Expression)]),
        _ => None,
    }
}

/// The fields of the kind `JsxAttributeName`, by the word of a node.
pub(crate) fn jsx_attribute_name_rule(word: Word) -> Option<&'static [Field]>
    ensures { table_of result ≡ spec.jsx_attribute_name_rule word }
{
    match word {
        Word::Attrname => Some(&[Field::One(Kind::Text)]),
        Word::Attrns => Some(&[Field::One(Kind::Text), Field::One(Kind::Text)]),
        _ => None,
    }
}

/// The fields of the kind `JsxAttributeValue`, by the word of a node.
pub(crate) fn jsx_attribute_value_rule(word: Word) -> Option<&'static [Field]>
    ensures { table_of result ≡ spec.jsx_attribute_value_rule word }
{
    match word {
        Word::Str => Some(&[Field::One(Kind::Text)]),
        Word::Container => Some(&[Field::Maybe(Kind::Expression)]),
        Word::Element => Some(&[
            Field::One(Kind::JsxOpeningElement),
            Field::Many(Kind::JsxChild),
            Field::Maybe(Kind::JsxClosingElement),
        ]),
        Word::Fragment => Some(&[Field::Many(Kind::JsxChild)]),
        _ => None,
    }
}

/// The fields of the kind `JsxChild`, by the word of a node.
pub(crate) fn jsx_child_rule(word: Word) -> Option<&'static [Field]>
    ensures { table_of result ≡ spec.jsx_child_rule word }
{
    match word {
        Word::Text => Some(&[Field::One(Kind::Text)]),
        Word::Container => Some(&[Field::Maybe(Kind::Expression)]),
        Word::Element => Some(&[
            Field::One(Kind::JsxOpeningElement),
            Field::Many(Kind::JsxChild),
            Field::Maybe(Kind::JsxClosingElement),
        ]),
        Word::Fragment => Some(&[Field::Many(Kind::JsxChild)]),
        Word::Spreadchild => Some(&[Field::One(Kind::Expression)]),
        _ => None,
    }
}

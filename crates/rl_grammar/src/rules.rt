//! The table of the grammar: the fields of nodes by kind and word. Written by tools/syntax.py from tools/grammar.txt.

ghost use Rattle.std.specs.Prelude.{◌≡◌};
ghost use Rattle.rl_grammar.specs.Fields.{table_of};
ghost use Rattle.rl_grammar.specs.Rules as spec;

use crate::expression_rules::{
    argument_rule, array_element_rule, assignment_target_element_rule,
    assignment_target_maybe_default_rule, assignment_target_property_rule,
    assignment_target_rest_rule, assignment_target_rule, expression_rule, jsx_attribute_name_rule,
    jsx_attribute_rule, jsx_attribute_value_rule, jsx_child_rule, jsx_closing_element_rule,
    jsx_element_name_rule, jsx_element_rule, jsx_fragment_rule, jsx_opening_element_rule,
    object_property_rule, template_element_rule, template_literal_rule,
};
use crate::kind::{Field, Kind};
use rl_syntax::word::Word;

/// The fields of the kind `Unit`, by the word of a node.
fn unit_rule(word: Word) -> Option<&'static [Field]>
    ensures { table_of result ≡ spec.unit_rule word }
{
    match word {
        Word::Unit => Some(&[Field::Many(Kind::Entity), Field::One(Kind::Program)]),
        _ => None,
    }
}

/// The fields of the kind `Entity`, by the word of a node.
fn entity_rule(word: Word) -> Option<&'static [Field]>
    ensures { table_of result ≡ spec.entity_rule word }
{
    match word {
        Word::Entity => Some(&[Field::One(Kind::Text), Field::One(Kind::ScalarValue)]),
        _ => None,
    }
}

/// The fields of the kind `Program`, by the word of a node.
fn program_rule(word: Word) -> Option<&'static [Field]>
    ensures { table_of result ≡ spec.program_rule word }
{
    match word {
        Word::Program => Some(&[Field::Many(Kind::Statement)]),
        _ => None,
    }
}

/// The fields of the kind `Statement`, by the word of a node.
fn statement_rule(word: Word) -> Option<&'static [Field]>
    ensures { table_of result ≡ spec.statement_rule word }
{
    match word {
        Word::Empty => Some(&[]),
        Word::Debugger => Some(&[]),
        Word::Expr => Some(&[Field::One(Kind::Expression)]),
        Word::Return => Some(&[Field::Maybe(Kind::Expression)]),
        Word::Throw => Some(&[Field::One(Kind::Expression)]),
        Word::Block => Some(&[Field::Many(Kind::Statement)]),
        Word::If => Some(&[
            Field::One(Kind::Expression),
            Field::One(Kind::Statement),
            Field::Maybe(Kind::Statement),
        ]),
        Word::For => Some(&[
            Field::Maybe(Kind::ForInit),
            Field::Maybe(Kind::Expression),
            Field::Maybe(Kind::Expression),
            Field::One(Kind::Statement),
        ]),
        Word::While => Some(&[Field::One(Kind::Expression), Field::One(Kind::Statement)]),
        Word::Dowhile => Some(&[Field::One(Kind::Statement), Field::One(Kind::Expression)]),
        Word::Forin => Some(&[
            Field::One(Kind::ForHead),
            Field::One(Kind::Expression),
            Field::One(Kind::Statement),
        ]),
        Word::Forof => Some(&[
            Field::One(Kind::Flag),
            Field::One(Kind::ForHead),
            Field::One(Kind::Expression),
            Field::One(Kind::Statement),
        ]),
        Word::Switch => Some(&[Field::One(Kind::Expression), Field::Many(Kind::SwitchCase)]),
        Word::Try => Some(&[
            Field::One(Kind::BlockStatement),
            Field::Maybe(Kind::CatchClause),
            Field::Maybe(Kind::BlockStatement),
        ]),
        Word::Break => Some(&[Field::Maybe(Kind::Text)]),
        Word::Continue => Some(&[Field::Maybe(Kind::Text)]),
        Word::Labeled => Some(&[Field::One(Kind::Text), Field::One(Kind::Statement)]),
        Word::With => Some(&[Field::One(Kind::Expression), Field::One(Kind::Statement)]),
        Word::Var => Some(&[
            Field::One(Kind::VariableKind),
            Field::Many(Kind::VariableDeclarator),
        ]),
        Word::Fundecl => Some(&[
            Field::One(Kind::Flag),
            Field::One(Kind::Flag),
            Field::One(Kind::Flag),
            Field::Maybe(Kind::BindingIdentifier),
            Field::One(Kind::FormalParameters),
            Field::Maybe(Kind::FunctionBody),
        ]),
        Word::Classdecl => Some(&[
            Field::Maybe(Kind::BindingIdentifier),
            Field::Maybe(Kind::Expression),
            Field::Many(Kind::ClassElement),
        ]),
        Word::Typealias => Some(&[
            Field::One(Kind::BindingIdentifier),
            Field::One(Kind::TypeAnnotation),
        ]),
        Word::Interface => Some(&[Field::One(Kind::BindingIdentifier)]),
        Word::Enum => Some(&[Field::One(Kind::BindingIdentifier)]),
        Word::Namespace => Some(&[Field::One(Kind::BindingIdentifier)]),
        Word::Import => Some(&[Field::One(Kind::Text), Field::Many(Kind::ImportSpecifier)]),
        Word::Export => Some(&[Field::One(Kind::Statement)]),
        Word::Exportdefault => Some(&[Field::One(Kind::ExportDefault)]),
        Word::Exportlist => Some(&[Field::Many(Kind::IdentifierReference)]),
        Word::Exportfrom => Some(&[Field::One(Kind::Text)]),
        _ => None,
    }
}

/// The fields of the kind `BlockStatement`, by the word of a node.
fn block_statement_rule(word: Word) -> Option<&'static [Field]>
    ensures { table_of result ≡ spec.block_statement_rule word }
{
    match word {
        Word::Block => Some(&[Field::Many(Kind::Statement)]),
        _ => None,
    }
}

/// The fields of the kind `SwitchCase`, by the word of a node.
fn switch_case_rule(word: Word) -> Option<&'static [Field]>
    ensures { table_of result ≡ spec.switch_case_rule word }
{
    match word {
        Word::Case => Some(&[Field::Maybe(Kind::Expression), Field::Many(Kind::Statement)]),
        _ => None,
    }
}

/// The fields of the kind `CatchClause`, by the word of a node.
fn catch_clause_rule(word: Word) -> Option<&'static [Field]>
    ensures { table_of result ≡ spec.catch_clause_rule word }
{
    match word {
        Word::Catch => Some(&[
            Field::Maybe(Kind::BindingPattern),
            Field::One(Kind::BlockStatement),
        ]),
        _ => None,
    }
}

/// The fields of the kind `VariableDeclaration`, by the word of a node.
fn variable_declaration_rule(word: Word) -> Option<&'static [Field]>
    ensures { table_of result ≡ spec.variable_declaration_rule word }
{
    match word {
        Word::Var => Some(&[
            Field::One(Kind::VariableKind),
            Field::Many(Kind::VariableDeclarator),
        ]),
        _ => None,
    }
}

/// The fields of the kind `VariableDeclarator`, by the word of a node.
fn variable_declarator_rule(word: Word) -> Option<&'static [Field]>
    ensures { table_of result ≡ spec.variable_declarator_rule word }
{
    match word {
        Word::Declarator => Some(&[
            Field::One(Kind::BindingPattern),
            Field::Maybe(Kind::Expression),
        ]),
        _ => None,
    }
}

/// The fields of the kind `ForInit`, by the word of a node.
fn for_init_rule(word: Word) -> Option<&'static [Field]>
    ensures { table_of result ≡ spec.for_init_rule word }
{
    match word {
        Word::Var => Some(&[
            Field::One(Kind::VariableKind),
            Field::Many(Kind::VariableDeclarator),
        ]),
        _ => expression_rule(word),
    }
}

/// The fields of the kind `ForHead`, by the word of a node.
fn for_head_rule(word: Word) -> Option<&'static [Field]>
    ensures { table_of result ≡ spec.for_head_rule word }
{
    match word {
        Word::Var => Some(&[
            Field::One(Kind::VariableKind),
            Field::Many(Kind::VariableDeclarator),
        ]),
        _ => assignment_target_rule(word),
    }
}

/// The fields of the kind `ExportDefault`, by the word of a node.
fn export_default_rule(word: Word) -> Option<&'static [Field]>
    ensures { table_of result ≡ spec.export_default_rule word }
{
    match word {
        _ => match statement_rule(word) {
            Some(fields) => Some(fields),
            None => expression_rule(word)
        },
    }
}

/// The fields of the kind `ClassElement`, by the word of a node.
fn class_element_rule(word: Word) -> Option<&'static [Field]>
    ensures { table_of result ≡ spec.class_element_rule word }
{
    match word {
        Word::Method => Some(&[Field::One(Kind::FunctionExpression)]),
        Word::Field => Some(&[Field::Maybe(Kind::Expression)]),
        Word::Static => Some(&[Field::Many(Kind::Statement)]),
        _ => None,
    }
}

/// The fields of the kind `ImportSpecifier`, by the word of a node.
fn import_specifier_rule(word: Word) -> Option<&'static [Field]>
    ensures { table_of result ≡ spec.import_specifier_rule word }
{
    match word {
        Word::Default => Some(&[Field::One(Kind::BindingIdentifier)]),
        Word::Namespace => Some(&[Field::One(Kind::BindingIdentifier)]),
        Word::Named => Some(&[Field::One(Kind::Text), Field::One(Kind::BindingIdentifier)]),
        _ => None,
    }
}

/// The fields of the kind `Arrow`, by the word of a node.
fn arrow_rule(word: Word) -> Option<&'static [Field]>
    ensures { table_of result ≡ spec.arrow_rule word }
{
    match word {
        Word::Arrow => Some(&[
            Field::One(Kind::Flag),
            Field::One(Kind::Flag),
            Field::One(Kind::FormalParameters),
            Field::One(Kind::ArrowBody),
        ]),
        _ => None,
    }
}

/// The fields of the kind `FunctionDeclaration`, by the word of a node.
fn function_declaration_rule(word: Word) -> Option<&'static [Field]>
    ensures { table_of result ≡ spec.function_declaration_rule word }
{
    match word {
        Word::Fundecl => Some(&[
            Field::One(Kind::Flag),
            Field::One(Kind::Flag),
            Field::One(Kind::Flag),
            Field::Maybe(Kind::BindingIdentifier),
            Field::One(Kind::FormalParameters),
            Field::Maybe(Kind::FunctionBody),
        ]),
        _ => None,
    }
}

/// The fields of the kind `FunctionExpression`, by the word of a node.
fn function_expression_rule(word: Word) -> Option<&'static [Field]>
    ensures { table_of result ≡ spec.function_expression_rule word }
{
    match word {
        Word::Funexpr => Some(&[
            Field::One(Kind::Flag),
            Field::One(Kind::Flag),
            Field::One(Kind::Flag),
            Field::Maybe(Kind::BindingIdentifier),
            Field::One(Kind::FormalParameters),
            Field::One(Kind::FunctionBody),
        ]),
        _ => None,
    }
}

/// The fields of the kind `FormalParameters`, by the word of a node.
fn formal_parameters_rule(word: Word) -> Option<&'static [Field]>
    ensures { table_of result ≡ spec.formal_parameters_rule word }
{
    match word {
        Word::Params => Some(&[
            Field::Many(Kind::FormalParameter),
            Field::Maybe(Kind::BindingRestElement),
        ]),
        _ => None,
    }
}

/// The fields of the kind `FormalParameter`, by the word of a node.
fn formal_parameter_rule(word: Word) -> Option<&'static [Field]>
    ensures { table_of result ≡ spec.formal_parameter_rule word }
{
    match word {
        Word::Param => Some(&[
            Field::One(Kind::BindingPattern),
            Field::Maybe(Kind::Expression),
        ]),
        _ => None,
    }
}

/// The fields of the kind `BindingRestElement`, by the word of a node.
fn binding_rest_element_rule(word: Word) -> Option<&'static [Field]>
    ensures { table_of result ≡ spec.binding_rest_element_rule word }
{
    match word {
        Word::Rest => Some(&[Field::One(Kind::BindingPattern)]),
        _ => None,
    }
}

/// The fields of the kind `FunctionBody`, by the word of a node.
fn function_body_rule(word: Word) -> Option<&'static [Field]>
    ensures { table_of result ≡ spec.function_body_rule word }
{
    match word {
        Word::Body => Some(&[Field::Many(Kind::Text), Field::Many(Kind::Statement)]),
        _ => None,
    }
}

/// The fields of the kind `ArrowBody`, by the word of a node.
fn arrow_body_rule(word: Word) -> Option<&'static [Field]>
    ensures { table_of result ≡ spec.arrow_body_rule word }
{
    match word {
        Word::Body => Some(&[Field::Many(Kind::Text), Field::Many(Kind::Statement)]),
        _ => expression_rule(word),
    }
}

/// The fields of the kind `BindingIdentifier`, by the word of a node.
fn binding_identifier_rule(word: Word) -> Option<&'static [Field]>
    ensures { table_of result ≡ spec.binding_identifier_rule word }
{
    match word {
        Word::Bind => Some(&[Field::One(Kind::Text), Field::Maybe(Kind::TypeAnnotation)]),
        _ => None,
    }
}

/// The fields of the kind `TypeAnnotation`, by the word of a node.
fn type_annotation_rule(word: Word) -> Option<&'static [Field]>
    ensures { table_of result ≡ spec.type_annotation_rule word }
{
    match word {
        Word::Type => Some(&[
            Field::One(Kind::TypeKind),
            Field::Many(Kind::IdentifierReference),
        ]),
        _ => None,
    }
}

/// The fields of the kind `IdentifierReference`, by the word of a node.
fn identifier_reference_rule(word: Word) -> Option<&'static [Field]>
    ensures { table_of result ≡ spec.identifier_reference_rule word }
{
    match word {
        Word::Id => Some(&[Field::One(Kind::Text)]),
        _ => None,
    }
}

/// The fields of the kind `BindingPattern`, by the word of a node.
fn binding_pattern_rule(word: Word) -> Option<&'static [Field]>
    ensures { table_of result ≡ spec.binding_pattern_rule word }
{
    match word {
        Word::Bind => Some(&[Field::One(Kind::Text), Field::Maybe(Kind::TypeAnnotation)]),
        Word::Arraypat => Some(&[
            Field::Many(Kind::BindingPatternElement),
            Field::Maybe(Kind::BindingRestElement),
        ]),
        Word::Objectpat => Some(&[
            Field::Many(Kind::BindingProperty),
            Field::Maybe(Kind::BindingRestElement),
        ]),
        _ => None,
    }
}

/// The fields of the kind `BindingPatternMaybeDefault`, by the word of a node.
fn binding_pattern_maybe_default_rule(word: Word) -> Option<&'static [Field]>
    ensures { table_of result ≡ spec.binding_pattern_maybe_default_rule word }
{
    match word {
        Word::Defaultpat => Some(&[
            Field::One(Kind::BindingPattern),
            Field::One(Kind::Expression),
        ]),
        _ => binding_pattern_rule(word),
    }
}

/// The fields of the kind `BindingPatternElement`, by the word of a node.
fn binding_pattern_element_rule(word: Word) -> Option<&'static [Field]>
    ensures { table_of result ≡ spec.binding_pattern_element_rule word }
{
    match word {
        Word::Hole => Some(&[]),
        _ => binding_pattern_maybe_default_rule(word),
    }
}

/// The fields of the kind `BindingProperty`, by the word of a node.
fn binding_property_rule(word: Word) -> Option<&'static [Field]>
    ensures { table_of result ≡ spec.binding_property_rule word }
{
    match word {
        Word::Keyedpat => Some(&[
            Field::One(Kind::Flag),
            Field::One(Kind::PropertyKey),
            Field::One(Kind::BindingPatternMaybeDefault),
        ]),
        _ => None,
    }
}

/// The fields of the kind `PropertyKey`, by the word of a node.
fn property_key_rule(word: Word) -> Option<&'static [Field]>
    ensures { table_of result ≡ spec.property_key_rule word }
{
    match word {
        Word::Name => Some(&[Field::One(Kind::Text)]),
        Word::Private => Some(&[Field::One(Kind::Text)]),
        _ => expression_rule(word),
    }
}

/// The fields of a node of this word where a part of the kind is asked for. `None` if it is not of the kind.
pub fn rule(kind: Kind, word: Word) -> Option<&'static [Field]>
    ensures { table_of result ≡ spec.rule kind word }
{
    match kind {
        Kind::Unit => unit_rule(word),
        Kind::Entity => entity_rule(word),
        Kind::Program => program_rule(word),
        Kind::Statement => statement_rule(word),
        Kind::BlockStatement => block_statement_rule(word),
        Kind::SwitchCase => switch_case_rule(word),
        Kind::CatchClause => catch_clause_rule(word),
        Kind::VariableDeclaration => variable_declaration_rule(word),
        Kind::VariableDeclarator => variable_declarator_rule(word),
        Kind::ForInit => for_init_rule(word),
        Kind::ForHead => for_head_rule(word),
        Kind::ExportDefault => export_default_rule(word),
        Kind::ClassElement => class_element_rule(word),
        Kind::ImportSpecifier => import_specifier_rule(word),
        Kind::Arrow => arrow_rule(word),
        Kind::FunctionDeclaration => function_declaration_rule(word),
        Kind::FunctionExpression => function_expression_rule(word),
        Kind::FormalParameters => formal_parameters_rule(word),
        Kind::FormalParameter => formal_parameter_rule(word),
        Kind::BindingRestElement => binding_rest_element_rule(word),
        Kind::FunctionBody => function_body_rule(word),
        Kind::ArrowBody => arrow_body_rule(word),
        Kind::BindingIdentifier => binding_identifier_rule(word),
        Kind::TypeAnnotation => type_annotation_rule(word),
        Kind::IdentifierReference => identifier_reference_rule(word),
        Kind::BindingPattern => binding_pattern_rule(word),
        Kind::BindingPatternMaybeDefault => binding_pattern_maybe_default_rule(word),
        Kind::BindingPatternElement => binding_pattern_element_rule(word),
        Kind::BindingProperty => binding_property_rule(word),
        Kind::PropertyKey => property_key_rule(word),
        Kind::Expression => expression_rule(word),
        Kind::TemplateLiteral => template_literal_rule(word),
        Kind::TemplateElement => template_element_rule(word),
        Kind::ArrayElement => array_element_rule(word),
        Kind::Argument => argument_rule(word),
        Kind::ObjectProperty => object_property_rule(word),
        Kind::AssignmentTarget => assignment_target_rule(word),
        Kind::AssignmentTargetMaybeDefault => assignment_target_maybe_default_rule(word),
        Kind::AssignmentTargetElement => assignment_target_element_rule(word),
        Kind::AssignmentTargetProperty => assignment_target_property_rule(word),
        Kind::AssignmentTargetRest => assignment_target_rest_rule(word),
        Kind::JsxElement => jsx_element_rule(word),
        Kind::JsxFragment => jsx_fragment_rule(word),
        Kind::JsxOpeningElement => jsx_opening_element_rule(word),
        Kind::JsxClosingElement => jsx_closing_element_rule(word),
        Kind::JsxElementName => jsx_element_name_rule(word),
        Kind::JsxAttribute => jsx_attribute_rule(word),
        Kind::JsxAttributeName => jsx_attribute_name_rule(word),
        Kind::JsxAttributeValue => jsx_attribute_value_rule(word),
        Kind::JsxChild => jsx_child_rule(word),
        _ => None,
    }
}

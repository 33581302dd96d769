//! The sorts of trees, one for each kind of node or of choice. Written by tools/syntax.py from tools/grammar.txt.

ghost use Rattle.rl_grammar.specs.declared.kind.Kind.TheVariants as kind;

use crate::tree::{Sort, Tree, Trees};

/// The sort of `Kind::Text`.
#[derive(Clone, Copy)]
pub struct TextSort;

impl Sort for TextSort {
    ghost kind = { kind.Text };
}

/// A text.
pub type TextTree<'b> = Tree<'b, TextSort>;

/// Trees of the sort `Text`, as the items of a list.
pub type TextTrees<'b> = Trees<'b, TextSort>;

/// The sort of `Kind::Unit`.
#[derive(Clone, Copy)]
pub struct UnitSort;

impl Sort for UnitSort {
    ghost kind = { kind.Unit };
}

/// A unit: a program with one marked function, and the entities of its JSX texts.
pub type UnitTree<'b> = Tree<'b, UnitSort>;

/// Trees of the sort `Unit`, as the items of a list.
pub type UnitTrees<'b> = Trees<'b, UnitSort>;

/// The sort of `Kind::Entity`.
#[derive(Clone, Copy)]
pub struct EntitySort;

impl Sort for EntitySort {
    ghost kind = { kind.Entity };
}

/// An entity of JSX texts: the name between `&` and `;`, and the character that it stands for.
pub type EntityTree<'b> = Tree<'b, EntitySort>;

/// Trees of the sort `Entity`, as the items of a list.
pub type EntityTrees<'b> = Trees<'b, EntitySort>;

/// The sort of `Kind::Program`.
#[derive(Clone, Copy)]
pub struct ProgramSort;

impl Sort for ProgramSort {
    ghost kind = { kind.Program };
}

/// A program: `Program` (ECMA-262, 16).
pub type ProgramTree<'b> = Tree<'b, ProgramSort>;

/// Trees of the sort `Program`, as the items of a list.
pub type ProgramTrees<'b> = Trees<'b, ProgramSort>;

/// The sort of `Kind::Statement`.
#[derive(Clone, Copy)]
pub struct StatementSort;

impl Sort for StatementSort {
    ghost kind = { kind.Statement };
}

/// A statement or a declaration (ECMA-262, 14).
pub type StatementTree<'b> = Tree<'b, StatementSort>;

/// Trees of the sort `Statement`, as the items of a list.
pub type StatementTrees<'b> = Trees<'b, StatementSort>;

/// The sort of `Kind::BlockStatement`.
#[derive(Clone, Copy)]
pub struct BlockStatementSort;

impl Sort for BlockStatementSort {
    ghost kind = { kind.BlockStatement };
}

/// A block (ECMA-262, 14.2).
pub type BlockStatementTree<'b> = Tree<'b, BlockStatementSort>;

/// Trees of the sort `BlockStatement`, as the items of a list.
pub type BlockStatementTrees<'b> = Trees<'b, BlockStatementSort>;

/// The sort of `Kind::SwitchCase`.
#[derive(Clone, Copy)]
pub struct SwitchCaseSort;

impl Sort for SwitchCaseSort {
    ghost kind = { kind.SwitchCase };
}

/// A clause of a `switch` statement (ECMA-262, 14.12).
pub type SwitchCaseTree<'b> = Tree<'b, SwitchCaseSort>;

/// Trees of the sort `SwitchCase`, as the items of a list.
pub type SwitchCaseTrees<'b> = Trees<'b, SwitchCaseSort>;

/// The sort of `Kind::CatchClause`.
#[derive(Clone, Copy)]
pub struct CatchClauseSort;

impl Sort for CatchClauseSort {
    ghost kind = { kind.CatchClause };
}

/// A `catch` clause (ECMA-262, 14.15).
pub type CatchClauseTree<'b> = Tree<'b, CatchClauseSort>;

/// Trees of the sort `CatchClause`, as the items of a list.
pub type CatchClauseTrees<'b> = Trees<'b, CatchClauseSort>;

/// The sort of `Kind::VariableDeclaration`.
#[derive(Clone, Copy)]
pub struct VariableDeclarationSort;

impl Sort for VariableDeclarationSort {
    ghost kind = { kind.VariableDeclaration };
}

/// A declaration of variables (ECMA-262, 14.3).
pub type VariableDeclarationTree<'b> = Tree<'b, VariableDeclarationSort>;

/// Trees of the sort `VariableDeclaration`, as the items of a list.
pub type VariableDeclarationTrees<'b> = Trees<'b, VariableDeclarationSort>;

/// The sort of `Kind::VariableDeclarator`.
#[derive(Clone, Copy)]
pub struct VariableDeclaratorSort;

impl Sort for VariableDeclaratorSort {
    ghost kind = { kind.VariableDeclarator };
}

/// A declarator of variables (ECMA-262, 14.3).
pub type VariableDeclaratorTree<'b> = Tree<'b, VariableDeclaratorSort>;

/// Trees of the sort `VariableDeclarator`, as the items of a list.
pub type VariableDeclaratorTrees<'b> = Trees<'b, VariableDeclaratorSort>;

/// The sort of `Kind::ForInit`.
#[derive(Clone, Copy)]
pub struct ForInitSort;

impl Sort for ForInitSort {
    ghost kind = { kind.ForInit };
}

/// The first part of a `for` head: `ForStatementInit` (ECMA-262, 14.7.4).
pub type ForInitTree<'b> = Tree<'b, ForInitSort>;

/// Trees of the sort `ForInit`, as the items of a list.
pub type ForInitTrees<'b> = Trees<'b, ForInitSort>;

/// The sort of `Kind::ForHead`.
#[derive(Clone, Copy)]
pub struct ForHeadSort;

impl Sort for ForHeadSort {
    ghost kind = { kind.ForHead };
}

/// The left side of a `for`-`in` or `for`-`of` head: `ForStatementLeft` (ECMA-262, 14.7.5).
pub type ForHeadTree<'b> = Tree<'b, ForHeadSort>;

/// Trees of the sort `ForHead`, as the items of a list.
pub type ForHeadTrees<'b> = Trees<'b, ForHeadSort>;

/// The sort of `Kind::ExportDefault`.
#[derive(Clone, Copy)]
pub struct ExportDefaultSort;

impl Sort for ExportDefaultSort {
    ghost kind = { kind.ExportDefault };
}

/// A default export's value: `ExportDefaultDeclarationKind` (ECMA-262, 16.2.3).
pub type ExportDefaultTree<'b> = Tree<'b, ExportDefaultSort>;

/// Trees of the sort `ExportDefault`, as the items of a list.
pub type ExportDefaultTrees<'b> = Trees<'b, ExportDefaultSort>;

/// The sort of `Kind::ClassElement`.
#[derive(Clone, Copy)]
pub struct ClassElementSort;

impl Sort for ClassElementSort {
    ghost kind = { kind.ClassElement };
}

/// A member of a class (ECMA-262, 15.7); the names and keys of members are not kept.
pub type ClassElementTree<'b> = Tree<'b, ClassElementSort>;

/// Trees of the sort `ClassElement`, as the items of a list.
pub type ClassElementTrees<'b> = Trees<'b, ClassElementSort>;

/// The sort of `Kind::ImportSpecifier`.
#[derive(Clone, Copy)]
pub struct ImportSpecifierSort;

impl Sort for ImportSpecifierSort {
    ghost kind = { kind.ImportSpecifier };
}

/// A binding of an import: `ImportDeclarationSpecifier` (ECMA-262, 16.2.2).
pub type ImportSpecifierTree<'b> = Tree<'b, ImportSpecifierSort>;

/// Trees of the sort `ImportSpecifier`, as the items of a list.
pub type ImportSpecifierTrees<'b> = Trees<'b, ImportSpecifierSort>;

/// The sort of `Kind::Arrow`.
#[derive(Clone, Copy)]
pub struct ArrowSort;

impl Sort for ArrowSort {
    ghost kind = { kind.Arrow };
}

/// An arrow function: `ArrowFunctionExpression` (ECMA-262, 15.3 and 15.9).
pub type ArrowTree<'b> = Tree<'b, ArrowSort>;

/// Trees of the sort `Arrow`, as the items of a list.
pub type ArrowTrees<'b> = Trees<'b, ArrowSort>;

/// The sort of `Kind::FunctionDeclaration`.
#[derive(Clone, Copy)]
pub struct FunctionDeclarationSort;

impl Sort for FunctionDeclarationSort {
    ghost kind = { kind.FunctionDeclaration };
}

/// A function declaration: `Function` (ECMA-262, 15.2, 15.5, 15.6 and 15.8).
pub type FunctionDeclarationTree<'b> = Tree<'b, FunctionDeclarationSort>;

/// Trees of the sort `FunctionDeclaration`, as the items of a list.
pub type FunctionDeclarationTrees<'b> = Trees<'b, FunctionDeclarationSort>;

/// The sort of `Kind::FunctionExpression`.
#[derive(Clone, Copy)]
pub struct FunctionExpressionSort;

impl Sort for FunctionExpressionSort {
    ghost kind = { kind.FunctionExpression };
}

/// A function expression, or a method's function: `Function` (ECMA-262, 15.2, 15.4 to 15.6 and 15.8).
pub type FunctionExpressionTree<'b> = Tree<'b, FunctionExpressionSort>;

/// Trees of the sort `FunctionExpression`, as the items of a list.
pub type FunctionExpressionTrees<'b> = Trees<'b, FunctionExpressionSort>;

/// The sort of `Kind::FormalParameters`.
#[derive(Clone, Copy)]
pub struct FormalParametersSort;

impl Sort for FormalParametersSort {
    ghost kind = { kind.FormalParameters };
}

/// The parameters of a function (ECMA-262, 15.1).
pub type FormalParametersTree<'b> = Tree<'b, FormalParametersSort>;

/// Trees of the sort `FormalParameters`, as the items of a list.
pub type FormalParametersTrees<'b> = Trees<'b, FormalParametersSort>;

/// The sort of `Kind::FormalParameter`.
#[derive(Clone, Copy)]
pub struct FormalParameterSort;

impl Sort for FormalParameterSort {
    ghost kind = { kind.FormalParameter };
}

/// A parameter (ECMA-262, 15.1).
pub type FormalParameterTree<'b> = Tree<'b, FormalParameterSort>;

/// Trees of the sort `FormalParameter`, as the items of a list.
pub type FormalParameterTrees<'b> = Trees<'b, FormalParameterSort>;

/// The sort of `Kind::BindingRestElement`.
#[derive(Clone, Copy)]
pub struct BindingRestElementSort;

impl Sort for BindingRestElementSort {
    ghost kind = { kind.BindingRestElement };
}

/// A rest parameter, or the rest of a pattern (ECMA-262, 14.3.3 and 15.1).
pub type BindingRestElementTree<'b> = Tree<'b, BindingRestElementSort>;

/// Trees of the sort `BindingRestElement`, as the items of a list.
pub type BindingRestElementTrees<'b> = Trees<'b, BindingRestElementSort>;

/// The sort of `Kind::FunctionBody`.
#[derive(Clone, Copy)]
pub struct FunctionBodySort;

impl Sort for FunctionBodySort {
    ghost kind = { kind.FunctionBody };
}

/// A function's body in braces (ECMA-262, 15.2).
pub type FunctionBodyTree<'b> = Tree<'b, FunctionBodySort>;

/// Trees of the sort `FunctionBody`, as the items of a list.
pub type FunctionBodyTrees<'b> = Trees<'b, FunctionBodySort>;

/// The sort of `Kind::ArrowBody`.
#[derive(Clone, Copy)]
pub struct ArrowBodySort;

impl Sort for ArrowBodySort {
    ghost kind = { kind.ArrowBody };
}

/// An arrow function's body (ECMA-262, 15.3).
pub type ArrowBodyTree<'b> = Tree<'b, ArrowBodySort>;

/// Trees of the sort `ArrowBody`, as the items of a list.
pub type ArrowBodyTrees<'b> = Trees<'b, ArrowBodySort>;

/// The sort of `Kind::BindingIdentifier`.
#[derive(Clone, Copy)]
pub struct BindingIdentifierSort;

impl Sort for BindingIdentifierSort {
    ghost kind = { kind.BindingIdentifier };
}

/// A name that is declared (ECMA-262, 13.1).
pub type BindingIdentifierTree<'b> = Tree<'b, BindingIdentifierSort>;

/// Trees of the sort `BindingIdentifier`, as the items of a list.
pub type BindingIdentifierTrees<'b> = Trees<'b, BindingIdentifierSort>;

/// The sort of `Kind::TypeAnnotation`.
#[derive(Clone, Copy)]
pub struct TypeAnnotationSort;

impl Sort for TypeAnnotationSort {
    ghost kind = { kind.TypeAnnotation };
}

/// A type: `TSType`.
pub type TypeAnnotationTree<'b> = Tree<'b, TypeAnnotationSort>;

/// Trees of the sort `TypeAnnotation`, as the items of a list.
pub type TypeAnnotationTrees<'b> = Trees<'b, TypeAnnotationSort>;

/// The sort of `Kind::IdentifierReference`.
#[derive(Clone, Copy)]
pub struct IdentifierReferenceSort;

impl Sort for IdentifierReferenceSort {
    ghost kind = { kind.IdentifierReference };
}

/// A name that is used (ECMA-262, 13.1).
pub type IdentifierReferenceTree<'b> = Tree<'b, IdentifierReferenceSort>;

/// Trees of the sort `IdentifierReference`, as the items of a list.
pub type IdentifierReferenceTrees<'b> = Trees<'b, IdentifierReferenceSort>;

/// The sort of `Kind::BindingPattern`.
#[derive(Clone, Copy)]
pub struct BindingPatternSort;

impl Sort for BindingPatternSort {
    ghost kind = { kind.BindingPattern };
}

/// A binding pattern, the part of a declaration that binds names (ECMA-262, 14.3.3).
pub type BindingPatternTree<'b> = Tree<'b, BindingPatternSort>;

/// Trees of the sort `BindingPattern`, as the items of a list.
pub type BindingPatternTrees<'b> = Trees<'b, BindingPatternSort>;

/// The sort of `Kind::BindingPatternMaybeDefault`.
#[derive(Clone, Copy)]
pub struct BindingPatternMaybeDefaultSort;

impl Sort for BindingPatternMaybeDefaultSort {
    ghost kind = { kind.BindingPatternMaybeDefault };
}

/// A binding pattern, with a default or without (ECMA-262, 14.3.3).
pub type BindingPatternMaybeDefaultTree<'b> = Tree<'b, BindingPatternMaybeDefaultSort>;

/// Trees of the sort `BindingPatternMaybeDefault`, as the items of a list.
pub type BindingPatternMaybeDefaultTrees<'b> = Trees<'b, BindingPatternMaybeDefaultSort>;

/// The sort of `Kind::BindingPatternElement`.
#[derive(Clone, Copy)]
pub struct BindingPatternElementSort;

impl Sort for BindingPatternElementSort {
    ghost kind = { kind.BindingPatternElement };
}

/// An element of an array pattern (ECMA-262, 14.3.3).
pub type BindingPatternElementTree<'b> = Tree<'b, BindingPatternElementSort>;

/// Trees of the sort `BindingPatternElement`, as the items of a list.
pub type BindingPatternElementTrees<'b> = Trees<'b, BindingPatternElementSort>;

/// The sort of `Kind::BindingProperty`.
#[derive(Clone, Copy)]
pub struct BindingPropertySort;

impl Sort for BindingPropertySort {
    ghost kind = { kind.BindingProperty };
}

/// A property of an object pattern (ECMA-262, 14.3.3).
pub type BindingPropertyTree<'b> = Tree<'b, BindingPropertySort>;

/// Trees of the sort `BindingProperty`, as the items of a list.
pub type BindingPropertyTrees<'b> = Trees<'b, BindingPropertySort>;

/// The sort of `Kind::PropertyKey`.
#[derive(Clone, Copy)]
pub struct PropertyKeySort;

impl Sort for PropertyKeySort {
    ghost kind = { kind.PropertyKey };
}

/// A property's key (ECMA-262, 13.2.5).
pub type PropertyKeyTree<'b> = Tree<'b, PropertyKeySort>;

/// Trees of the sort `PropertyKey`, as the items of a list.
pub type PropertyKeyTrees<'b> = Trees<'b, PropertyKeySort>;

/// The sort of `Kind::Expression`.
#[derive(Clone, Copy)]
pub struct ExpressionSort;

impl Sort for ExpressionSort {
    ghost kind = { kind.Expression };
}

/// An expression (ECMA-262, 13).
pub type ExpressionTree<'b> = Tree<'b, ExpressionSort>;

/// Trees of the sort `Expression`, as the items of a list.
pub type ExpressionTrees<'b> = Trees<'b, ExpressionSort>;

/// The sort of `Kind::TemplateLiteral`.
#[derive(Clone, Copy)]
pub struct TemplateLiteralSort;

impl Sort for TemplateLiteralSort {
    ghost kind = { kind.TemplateLiteral };
}

/// A template literal (ECMA-262, 13.2.8).
pub type TemplateLiteralTree<'b> = Tree<'b, TemplateLiteralSort>;

/// Trees of the sort `TemplateLiteral`, as the items of a list.
pub type TemplateLiteralTrees<'b> = Trees<'b, TemplateLiteralSort>;

/// The sort of `Kind::TemplateElement`.
#[derive(Clone, Copy)]
pub struct TemplateElementSort;

impl Sort for TemplateElementSort {
    ghost kind = { kind.TemplateElement };
}

/// A text of a template literal (ECMA-262, 12.9.6).
pub type TemplateElementTree<'b> = Tree<'b, TemplateElementSort>;

/// Trees of the sort `TemplateElement`, as the items of a list.
pub type TemplateElementTrees<'b> = Trees<'b, TemplateElementSort>;

/// The sort of `Kind::ArrayElement`.
#[derive(Clone, Copy)]
pub struct ArrayElementSort;

impl Sort for ArrayElementSort {
    ghost kind = { kind.ArrayElement };
}

/// An element of an array literal: `ArrayExpressionElement` (ECMA-262, 13.2.4).
pub type ArrayElementTree<'b> = Tree<'b, ArrayElementSort>;

/// Trees of the sort `ArrayElement`, as the items of a list.
pub type ArrayElementTrees<'b> = Trees<'b, ArrayElementSort>;

/// The sort of `Kind::Argument`.
#[derive(Clone, Copy)]
pub struct ArgumentSort;

impl Sort for ArgumentSort {
    ghost kind = { kind.Argument };
}

/// An argument (ECMA-262, 13.3.8).
pub type ArgumentTree<'b> = Tree<'b, ArgumentSort>;

/// Trees of the sort `Argument`, as the items of a list.
pub type ArgumentTrees<'b> = Trees<'b, ArgumentSort>;

/// The sort of `Kind::ObjectProperty`.
#[derive(Clone, Copy)]
pub struct ObjectPropertySort;

impl Sort for ObjectPropertySort {
    ghost kind = { kind.ObjectProperty };
}

/// A property of an object literal: `ObjectPropertyKind` (ECMA-262, 13.2.5).
pub type ObjectPropertyTree<'b> = Tree<'b, ObjectPropertySort>;

/// Trees of the sort `ObjectProperty`, as the items of a list.
pub type ObjectPropertyTrees<'b> = Trees<'b, ObjectPropertySort>;

/// The sort of `Kind::AssignmentTarget`.
#[derive(Clone, Copy)]
pub struct AssignmentTargetSort;

impl Sort for AssignmentTargetSort {
    ghost kind = { kind.AssignmentTarget };
}

/// An assignment target (ECMA-262, 13.15).
pub type AssignmentTargetTree<'b> = Tree<'b, AssignmentTargetSort>;

/// Trees of the sort `AssignmentTarget`, as the items of a list.
pub type AssignmentTargetTrees<'b> = Trees<'b, AssignmentTargetSort>;

/// The sort of `Kind::AssignmentTargetMaybeDefault`.
#[derive(Clone, Copy)]
pub struct AssignmentTargetMaybeDefaultSort;

impl Sort for AssignmentTargetMaybeDefaultSort {
    ghost kind = { kind.AssignmentTargetMaybeDefault };
}

/// An assignment target, with a default or without (ECMA-262, 13.15.5).
pub type AssignmentTargetMaybeDefaultTree<'b> = Tree<'b, AssignmentTargetMaybeDefaultSort>;

/// Trees of the sort `AssignmentTargetMaybeDefault`, as the items of a list.
pub type AssignmentTargetMaybeDefaultTrees<'b> = Trees<'b, AssignmentTargetMaybeDefaultSort>;

/// The sort of `Kind::AssignmentTargetElement`.
#[derive(Clone, Copy)]
pub struct AssignmentTargetElementSort;

impl Sort for AssignmentTargetElementSort {
    ghost kind = { kind.AssignmentTargetElement };
}

/// An element of an array of targets (ECMA-262, 13.15.5).
pub type AssignmentTargetElementTree<'b> = Tree<'b, AssignmentTargetElementSort>;

/// Trees of the sort `AssignmentTargetElement`, as the items of a list.
pub type AssignmentTargetElementTrees<'b> = Trees<'b, AssignmentTargetElementSort>;

/// The sort of `Kind::AssignmentTargetProperty`.
#[derive(Clone, Copy)]
pub struct AssignmentTargetPropertySort;

impl Sort for AssignmentTargetPropertySort {
    ghost kind = { kind.AssignmentTargetProperty };
}

/// A property of an object of targets (ECMA-262, 13.15.5).
pub type AssignmentTargetPropertyTree<'b> = Tree<'b, AssignmentTargetPropertySort>;

/// Trees of the sort `AssignmentTargetProperty`, as the items of a list.
pub type AssignmentTargetPropertyTrees<'b> = Trees<'b, AssignmentTargetPropertySort>;

/// The sort of `Kind::AssignmentTargetRest`.
#[derive(Clone, Copy)]
pub struct AssignmentTargetRestSort;

impl Sort for AssignmentTargetRestSort {
    ghost kind = { kind.AssignmentTargetRest };
}

/// The rest of an array or object of targets (ECMA-262, 13.15.5).
pub type AssignmentTargetRestTree<'b> = Tree<'b, AssignmentTargetRestSort>;

/// Trees of the sort `AssignmentTargetRest`, as the items of a list.
pub type AssignmentTargetRestTrees<'b> = Trees<'b, AssignmentTargetRestSort>;

/// The sort of `Kind::JsxElement`.
#[derive(Clone, Copy)]
pub struct JsxElementSort;

impl Sort for JsxElementSort {
    ghost kind = { kind.JsxElement };
}

/// A JSX element: `JSXElement`.
pub type JsxElementTree<'b> = Tree<'b, JsxElementSort>;

/// Trees of the sort `JsxElement`, as the items of a list.
pub type JsxElementTrees<'b> = Trees<'b, JsxElementSort>;

/// The sort of `Kind::JsxFragment`.
#[derive(Clone, Copy)]
pub struct JsxFragmentSort;

impl Sort for JsxFragmentSort {
    ghost kind = { kind.JsxFragment };
}

/// A JSX fragment: `JSXFragment`.
pub type JsxFragmentTree<'b> = Tree<'b, JsxFragmentSort>;

/// Trees of the sort `JsxFragment`, as the items of a list.
pub type JsxFragmentTrees<'b> = Trees<'b, JsxFragmentSort>;

/// The sort of `Kind::JsxOpeningElement`.
#[derive(Clone, Copy)]
pub struct JsxOpeningElementSort;

impl Sort for JsxOpeningElementSort {
    ghost kind = { kind.JsxOpeningElement };
}

/// An opening tag: `JSXOpeningElement`.
pub type JsxOpeningElementTree<'b> = Tree<'b, JsxOpeningElementSort>;

/// Trees of the sort `JsxOpeningElement`, as the items of a list.
pub type JsxOpeningElementTrees<'b> = Trees<'b, JsxOpeningElementSort>;

/// The sort of `Kind::JsxClosingElement`.
#[derive(Clone, Copy)]
pub struct JsxClosingElementSort;

impl Sort for JsxClosingElementSort {
    ghost kind = { kind.JsxClosingElement };
}

/// A closing tag: `JSXClosingElement`.
pub type JsxClosingElementTree<'b> = Tree<'b, JsxClosingElementSort>;

/// Trees of the sort `JsxClosingElement`, as the items of a list.
pub type JsxClosingElementTrees<'b> = Trees<'b, JsxClosingElementSort>;

/// The sort of `Kind::JsxElementName`.
#[derive(Clone, Copy)]
pub struct JsxElementNameSort;

impl Sort for JsxElementNameSort {
    ghost kind = { kind.JsxElementName };
}

/// The name of a JSX element: `JSXElementName`.
pub type JsxElementNameTree<'b> = Tree<'b, JsxElementNameSort>;

/// Trees of the sort `JsxElementName`, as the items of a list.
pub type JsxElementNameTrees<'b> = Trees<'b, JsxElementNameSort>;

/// The sort of `Kind::JsxAttribute`.
#[derive(Clone, Copy)]
pub struct JsxAttributeSort;

impl Sort for JsxAttributeSort {
    ghost kind = { kind.JsxAttribute };
}

/// An attribute of a JSX element: `JSXAttributeItem`.
pub type JsxAttributeTree<'b> = Tree<'b, JsxAttributeSort>;

/// Trees of the sort `JsxAttribute`, as the items of a list.
pub type JsxAttributeTrees<'b> = Trees<'b, JsxAttributeSort>;

/// The sort of `Kind::JsxAttributeName`.
#[derive(Clone, Copy)]
pub struct JsxAttributeNameSort;

impl Sort for JsxAttributeNameSort {
    ghost kind = { kind.JsxAttributeName };
}

/// The name of a JSX attribute: `JSXAttributeName`.
pub type JsxAttributeNameTree<'b> = Tree<'b, JsxAttributeNameSort>;

/// Trees of the sort `JsxAttributeName`, as the items of a list.
pub type JsxAttributeNameTrees<'b> = Trees<'b, JsxAttributeNameSort>;

/// The sort of `Kind::JsxAttributeValue`.
#[derive(Clone, Copy)]
pub struct JsxAttributeValueSort;

impl Sort for JsxAttributeValueSort {
    ghost kind = { kind.JsxAttributeValue };
}

/// The value of a JSX attribute: `JSXAttributeValue`.
pub type JsxAttributeValueTree<'b> = Tree<'b, JsxAttributeValueSort>;

/// Trees of the sort `JsxAttributeValue`, as the items of a list.
pub type JsxAttributeValueTrees<'b> = Trees<'b, JsxAttributeValueSort>;

/// The sort of `Kind::JsxChild`.
#[derive(Clone, Copy)]
pub struct JsxChildSort;

impl Sort for JsxChildSort {
    ghost kind = { kind.JsxChild };
}

/// A child of a JSX element or fragment: `JSXChild`.
pub type JsxChildTree<'b> = Tree<'b, JsxChildSort>;

/// Trees of the sort `JsxChild`, as the items of a list.
pub type JsxChildTrees<'b> = Trees<'b, JsxChildSort>;

//! The kinds of parts, and the fields of nodes. Written by tools/syntax.py from tools/grammar.txt.

/// A kind of part.
#[derive(Clone, Copy, Debug, PartialEq, Eq)]
pub enum Kind {
    /// A text.
    Text,
    /// A flag.
    Flag,
    /// A Unicode scalar value.
    ScalarValue,
    /// The kind of a variable declaration.
    VariableKind,
    /// The kind of a type.
    TypeKind,
    /// A unary operator.
    UnaryOperator,
    /// An update operator.
    UpdateOperator,
    /// A binary operator.
    BinaryOperator,
    /// A logical operator.
    LogicalOperator,
    /// An assignment operator.
    AssignmentOperator,
    /// A unit: a program with one marked function, and the entities of its JSX texts.
    Unit,
    /// An entity of JSX texts: the name between `&` and `;`, and the character that it stands for.
    Entity,
    /// A program: `Program` (ECMA-262, 16).
    Program,
    /// A statement or a declaration (ECMA-262, 14).
    Statement,
    /// A block (ECMA-262, 14.2).
    BlockStatement,
    /// A clause of a `switch` statement (ECMA-262, 14.12).
    SwitchCase,
    /// A `catch` clause (ECMA-262, 14.15).
    CatchClause,
    /// A declaration of variables (ECMA-262, 14.3).
    VariableDeclaration,
    /// A declarator of variables (ECMA-262, 14.3).
    VariableDeclarator,
    /// The first part of a `for` head: `ForStatementInit` (ECMA-262, 14.7.4).
    ForInit,
    /// The left side of a `for`-`in` or `for`-`of` head: `ForStatementLeft` (ECMA-262, 14.7.5).
    ForHead,
    /// A default export's value: `ExportDefaultDeclarationKind` (ECMA-262, 16.2.3).
    ExportDefault,
    /// A member of a class (ECMA-262, 15.7); the names and keys of members are not kept.
    ClassElement,
    /// A binding of an import: `ImportDeclarationSpecifier` (ECMA-262, 16.2.2).
    ImportSpecifier,
    /// An arrow function: `ArrowFunctionExpression` (ECMA-262, 15.3 and 15.9).
    Arrow,
    /// A function declaration: `Function` (ECMA-262, 15.2, 15.5, 15.6 and 15.8).
    FunctionDeclaration,
    /// A function expression, or a method's function: `Function` (ECMA-262, 15.2, 15.4 to 15.6 and 15.8).
    FunctionExpression,
    /// The parameters of a function (ECMA-262, 15.1).
    FormalParameters,
    /// A parameter (ECMA-262, 15.1).
    FormalParameter,
    /// A rest parameter, or the rest of a pattern (ECMA-262, 14.3.3 and 15.1).
    BindingRestElement,
    /// A function's body in braces (ECMA-262, 15.2).
    FunctionBody,
    /// An arrow function's body (ECMA-262, 15.3).
    ArrowBody,
    /// A name that is declared (ECMA-262, 13.1).
    BindingIdentifier,
    /// A type: `TSType`.
    TypeAnnotation,
    /// A name that is used (ECMA-262, 13.1).
    IdentifierReference,
    /// A binding pattern, the part of a declaration that binds names (ECMA-262, 14.3.3).
    BindingPattern,
    /// A binding pattern, with a default or without (ECMA-262, 14.3.3).
    BindingPatternMaybeDefault,
    /// An element of an array pattern (ECMA-262, 14.3.3).
    BindingPatternElement,
    /// A property of an object pattern (ECMA-262, 14.3.3).
    BindingProperty,
    /// A property's key (ECMA-262, 13.2.5).
    PropertyKey,
    /// An expression (ECMA-262, 13).
    Expression,
    /// A template literal (ECMA-262, 13.2.8).
    TemplateLiteral,
    /// A text of a template literal (ECMA-262, 12.9.6).
    TemplateElement,
    /// An element of an array literal: `ArrayExpressionElement` (ECMA-262, 13.2.4).
    ArrayElement,
    /// An argument (ECMA-262, 13.3.8).
    Argument,
    /// A property of an object literal: `ObjectPropertyKind` (ECMA-262, 13.2.5).
    ObjectProperty,
    /// An assignment target (ECMA-262, 13.15).
    AssignmentTarget,
    /// An assignment target, with a default or without (ECMA-262, 13.15.5).
    AssignmentTargetMaybeDefault,
    /// An element of an array of targets (ECMA-262, 13.15.5).
    AssignmentTargetElement,
    /// A property of an object of targets (ECMA-262, 13.15.5).
    AssignmentTargetProperty,
    /// The rest of an array or object of targets (ECMA-262, 13.15.5).
    AssignmentTargetRest,
    /// A JSX element: `JSXElement`.
    JsxElement,
    /// A JSX fragment: `JSXFragment`.
    JsxFragment,
    /// An opening tag: `JSXOpeningElement`.
    JsxOpeningElement,
    /// A closing tag: `JSXClosingElement`.
    JsxClosingElement,
    /// The name of a JSX element: `JSXElementName`.
    JsxElementName,
    /// An attribute of a JSX element: `JSXAttributeItem`.
    JsxAttribute,
    /// The name of a JSX attribute: `JSXAttributeName`.
    JsxAttributeName,
    /// The value of a JSX attribute: `JSXAttributeValue`.
    JsxAttributeValue,
    /// A child of a JSX element or fragment: `JSXChild`.
    JsxChild,
}

/// A field of a node: the parts that may stand at one place.
#[derive(Clone, Copy, Debug, PartialEq, Eq)]
pub enum Field {
    /// A part of the kind.
    One(Kind),
    /// A part of the kind, or `-`.
    Maybe(Kind),
    /// A list of parts of the kind.
    Many(Kind),
}

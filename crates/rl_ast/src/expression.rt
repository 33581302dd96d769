//! Expressions: views of one level. Written by tools/syntax.py from tools/grammar.txt.
//! Types in backquotes are those of oxc_ast.

ghost use Rattle.std.specs.Prelude.{◌≡◌};
ghost use Rattle.rl_syntax.specs.Syntax.{syntax};
ghost use Rattle.rl_ast.specs.ExpressionViews.{seen_expression};

use rl_base::operator::{
    AssignmentOperator, BinaryOperator, LogicalOperator, UnaryOperator, UpdateOperator,
};
use rl_base::text::Text;
use rl_grammar::parts::{closed_of, items_of, one, three, two};
use rl_grammar::sort::{
    ArgumentTrees, ArrayElementTrees, ArrowTree, AssignmentTargetTree, BindingIdentifierTree,
    ClassElementTrees, ExpressionTree, ExpressionTrees, FunctionExpressionTree,
    IdentifierReferenceTree, IdentifierReferenceTrees, JsxElementTree, JsxFragmentTree,
    ObjectPropertyTrees, TemplateLiteralTree, TypeAnnotationTree,
};
use rl_grammar::tree::{Tree, Trees};
use rl_syntax::numbered::At;
use rl_syntax::parts::{flag_of, node_of, text_of};
use rl_syntax::word::Word;

/// An expression (ECMA-262, 13).
#[derive(Clone, Copy)]
pub enum Expression<'b> {
    /// A name: `IdentifierReference` (ECMA-262, 13.2.2).
    Identifier(IdentifierReferenceTree<'b>),
    /// The literal `null`: `NullLiteral` (ECMA-262, 12.9.1). `(null)`
    Null {
        /// Ids and span of the node.
        at: At,
    },
    /// The literal `true` or `false`: `BooleanLiteral` (ECMA-262, 12.9.2). `(bool FLAG)`
    Boolean {
        /// Ids and span of the node.
        at: At,
        /// True of `true`.
        value: bool,
    },
    /// A number, by its source text: `NumericLiteral` (ECMA-262, 12.9.3). `(num TEXT)`
    Number {
        /// Ids and span of the node.
        at: At,
        /// The source text of the literal.
        text: &'b Text,
    },
    /// A string, by its value in UTF-8: `StringLiteral` (ECMA-262, 12.9.4). `(str TEXT)`
    String {
        /// Ids and span of the node.
        at: At,
        /// The value in UTF-8.
        text: &'b Text,
    },
    /// A BigInt, by its source text: `BigIntLiteral` (ECMA-262, 12.9.3). `(bigint TEXT)`
    BigInt {
        /// Ids and span of the node.
        at: At,
        /// The source text of the literal.
        text: &'b Text,
    },
    /// A regular expression: `RegExpLiteral` (ECMA-262, 13.2.7). `(regexp TEXT TEXT)`
    RegExp {
        /// Ids and span of the node.
        at: At,
        /// The pattern, between the slashes.
        pattern: &'b Text,
        /// The flags, behind the pattern.
        flags: &'b Text,
    },
    /// A template literal (ECMA-262, 13.2.8).
    Template(TemplateLiteralTree<'b>),
    /// A tagged template: `TaggedTemplateExpression` (ECMA-262, 13.3.11). `(tagged Expression TemplateLiteral)`
    Tagged {
        /// Ids and span of the node.
        at: At,
        /// The function that takes the template, an expression.
        tag: ExpressionTree<'b>,
        /// The template.
        quasi: TemplateLiteralTree<'b>,
    },
    /// An array literal: `ArrayExpression` (ECMA-262, 13.2.4). `(array [ArrayElement])`
    Array {
        /// Ids and span of the node.
        at: At,
        /// The elements, in order.
        items: ArrayElementTrees<'b>,
    },
    /// An object literal: `ObjectExpression` (ECMA-262, 13.2.5). `(object [ObjectProperty])`
    Object {
        /// Ids and span of the node.
        at: At,
        /// The properties, in order.
        properties: ObjectPropertyTrees<'b>,
    },
    /// A unary operation: `UnaryExpression` (ECMA-262, 13.5). `(unary OPERATOR Expression)`
    Unary {
        /// Ids and span of the node.
        at: At,
        /// The operator.
        operator: UnaryOperator,
        /// The operand, an expression.
        argument: ExpressionTree<'b>,
    },
    /// `++` or `--`: `UpdateExpression` (ECMA-262, 13.4); `prefix` is true of `++a`. `(update OPERATOR FLAG AssignmentTarget)`
    Update {
        /// Ids and span of the node.
        at: At,
        /// The operator.
        operator: UpdateOperator,
        /// True of an operator before its operand, `++a`.
        prefix: bool,
        /// The operand, an assignment target.
        argument: AssignmentTargetTree<'b>,
    },
    /// An operation on two values: `BinaryExpression` (ECMA-262, 13.6 to 13.12). `(binary OPERATOR Expression Expression)`
    Binary {
        /// Ids and span of the node.
        at: At,
        /// The operator.
        operator: BinaryOperator,
        /// The left operand, an expression.
        left: ExpressionTree<'b>,
        /// The right operand, an expression.
        right: ExpressionTree<'b>,
    },
    /// A test for a private name, `#a in b`: `PrivateInExpression` (ECMA-262, 13.10). `(privatein TEXT Expression)`
    PrivateIn {
        /// Ids and span of the node.
        at: At,
        /// The private name.
        name: &'b Text,
        /// The object, an expression.
        right: ExpressionTree<'b>,
    },
    /// `&&`, `||` or `??`: `LogicalExpression` (ECMA-262, 13.13). `(logical OPERATOR Expression Expression)`
    Logical {
        /// Ids and span of the node.
        at: At,
        /// The operator.
        operator: LogicalOperator,
        /// The left operand, an expression.
        left: ExpressionTree<'b>,
        /// The right operand, an expression.
        right: ExpressionTree<'b>,
    },
    /// A conditional expression, `a ? b : c`: `ConditionalExpression` (ECMA-262, 13.14).
    /// `(cond Expression Expression Expression)`
    Conditional {
        /// Ids and span of the node.
        at: At,
        /// The condition, an expression.
        test: ExpressionTree<'b>,
        /// The value if the condition is true, an expression.
        consequent: ExpressionTree<'b>,
        /// The value if the condition is false, an expression.
        alternate: ExpressionTree<'b>,
    },
    /// An assignment: `AssignmentExpression` (ECMA-262, 13.15). `(assign OPERATOR AssignmentTarget Expression)`
    Assignment {
        /// Ids and span of the node.
        at: At,
        /// The operator.
        operator: AssignmentOperator,
        /// The target.
        left: AssignmentTargetTree<'b>,
        /// The value that is assigned, an expression.
        right: ExpressionTree<'b>,
    },
    /// Expressions with commas between them: `SequenceExpression` (ECMA-262, 13.16). `(seq [Expression])`
    Sequence {
        /// Ids and span of the node.
        at: At,
        /// The expressions, in order.
        expressions: ExpressionTrees<'b>,
    },
    /// A construction: `NewExpression` (ECMA-262, 13.3.5). `(new Expression [Argument])`
    New {
        /// Ids and span of the node.
        at: At,
        /// The constructor, an expression.
        callee: ExpressionTree<'b>,
        /// The arguments, in order.
        arguments: ArgumentTrees<'b>,
    },
    /// `await`: `AwaitExpression` (ECMA-262, 15.8). `(await Expression)`
    Await {
        /// Ids and span of the node.
        at: At,
        /// The operand, an expression.
        argument: ExpressionTree<'b>,
    },
    /// `yield`: `YieldExpression` (ECMA-262, 15.5); `delegate` is true of `yield*`. `(yield FLAG Expression?)`
    Yield {
        /// Ids and span of the node.
        at: At,
        /// True of `yield*`.
        delegate: bool,
        /// The value that is yielded, an expression, or none.
        argument: Option<ExpressionTree<'b>>,
    },
    /// `import.meta`: `MetaProperty` (ECMA-262, 13.3.12). `(importmeta)`
    ImportMeta {
        /// Ids and span of the node.
        at: At,
    },
    /// `new.target`: `MetaProperty` (ECMA-262, 13.3.12). `(newtarget)`
    NewTarget {
        /// Ids and span of the node.
        at: At,
    },
    /// `super` (ECMA-262, 13.3.7). `(super)`
    Super {
        /// Ids and span of the node.
        at: At,
    },
    /// `this`: `ThisExpression` (ECMA-262, 13.2.1). `(this)`
    This {
        /// Ids and span of the node.
        at: At,
    },
    /// A dynamic import, `import(a)`: `ImportExpression` (ECMA-262, 13.3.10). `(importcall Expression Expression?)`
    ImportCall {
        /// Ids and span of the node.
        at: At,
        /// The name of the module, an expression.
        source: ExpressionTree<'b>,
        /// The options of the import, an expression, or none.
        options: Option<ExpressionTree<'b>>,
    },
    /// An expression in parentheses: `ParenthesizedExpression` (ECMA-262, 13.2.9). `(paren Expression)`
    Parenthesized {
        /// Ids and span of the node.
        at: At,
        /// The expression in parentheses.
        expression: ExpressionTree<'b>,
    },
    /// `a as T`: `TSAsExpression`. `(as Expression TypeAnnotation)`
    As {
        /// Ids and span of the node.
        at: At,
        /// The expression.
        expression: ExpressionTree<'b>,
        /// The type.
        annotation: TypeAnnotationTree<'b>,
    },
    /// `a satisfies T`: `TSSatisfiesExpression`. `(satisfies Expression TypeAnnotation)`
    Satisfies {
        /// Ids and span of the node.
        at: At,
        /// The expression.
        expression: ExpressionTree<'b>,
        /// The type.
        annotation: TypeAnnotationTree<'b>,
    },
    /// `<T>a`: `TSTypeAssertion`. `(assert TypeAnnotation Expression)`
    Assert {
        /// Ids and span of the node.
        at: At,
        /// The type.
        annotation: TypeAnnotationTree<'b>,
        /// The expression.
        expression: ExpressionTree<'b>,
    },
    /// `a!`: `TSNonNullExpression`. `(nonnull Expression)`
    NonNull {
        /// Ids and span of the node.
        at: At,
        /// The expression.
        expression: ExpressionTree<'b>,
    },
    /// `a<T>` that is not called: `TSInstantiationExpression`. `(instantiate Expression [IdentifierReference])`
    Instantiate {
        /// Ids and span of the node.
        at: At,
        /// The expression.
        expression: ExpressionTree<'b>,
        /// The identifiers that the type arguments mention, in order.
        names: IdentifierReferenceTrees<'b>,
    },
    /// An arrow function (ECMA-262, 15.3).
    Arrow(ArrowTree<'b>),
    /// A function expression (ECMA-262, 15.2).
    Function(FunctionExpressionTree<'b>),
    /// A class expression: `Class` (ECMA-262, 15.7). `(classexpr BindingIdentifier? Expression? [ClassElement])`
    Class {
        /// Ids and span of the node.
        at: At,
        /// The name, or none.
        name: Option<BindingIdentifierTree<'b>>,
        /// The class that is extended, an expression, or none.
        super_class: Option<ExpressionTree<'b>>,
        /// The members, in order.
        members: ClassElementTrees<'b>,
    },
    /// A JSX element.
    Element(JsxElementTree<'b>),
    /// A JSX fragment.
    Fragment(JsxFragmentTree<'b>),
    /// `a.b`: `StaticMemberExpression` (ECMA-262, 13.3.2); `optional` is true of `a?.b`. `(member FLAG Expression TEXT)`
    Member {
        /// Ids and span of the node.
        at: At,
        /// True of an optional link, `?.`.
        optional: bool,
        /// The object, an expression.
        object: ExpressionTree<'b>,
        /// The name of the property.
        property: &'b Text,
    },
    /// `a[b]`: `ComputedMemberExpression` (ECMA-262, 13.3.2); `optional` is true of `a?.[b]`.
    /// `(index FLAG Expression Expression)`
    Index {
        /// Ids and span of the node.
        at: At,
        /// True of an optional link, `?.`.
        optional: bool,
        /// The object, an expression.
        object: ExpressionTree<'b>,
        /// The key of the property, an expression.
        property: ExpressionTree<'b>,
    },
    /// `a.#b`: `PrivateFieldExpression` (ECMA-262, 13.3.2); `optional` is true of `a?.#b`. `(privatemember FLAG Expression TEXT)`
    PrivateMember {
        /// Ids and span of the node.
        at: At,
        /// True of an optional link, `?.`.
        optional: bool,
        /// The object, an expression.
        object: ExpressionTree<'b>,
        /// The private name of the property.
        property: &'b Text,
    },
    /// A call: `CallExpression` (ECMA-262, 13.3.6); `optional` is true of `a?.()`. `(call FLAG Expression [Argument])`
    Call {
        /// Ids and span of the node.
        at: At,
        /// True of an optional link, `?.`.
        optional: bool,
        /// The function that is called, an expression.
        callee: ExpressionTree<'b>,
        /// The arguments, in order.
        arguments: ArgumentTrees<'b>,
    },
    /// An optional chain, around its last link: `ChainExpression` (ECMA-262, 13.3.9). `(chain Expression)`
    Chain {
        /// Ids and span of the node.
        at: At,
        /// The last link of the chain, an expression.
        expression: ExpressionTree<'b>,
    },
}

/// A level of a tree of the sort `Expression`.
#[tactic(auto, using(rl_grammar::proofs::Viewing::viewing))]
pub fn expression_view(tree: ExpressionTree<'_>) -> Expression<'_>
    ensures { seen_expression result ≡ syntax tree.entry.tree.now }
{
    let (at, word, parts) = node_of(tree.tree);
    match word {
        Word::Id => Expression::Identifier(Tree::new(tree.tree)),
        Word::Null => Expression::Null { at },
        Word::Bool => {
            let value = one(parts);
            Expression::Boolean {
                at,
                value: flag_of(value),
            }
        }
        Word::Num => {
            let text = one(parts);
            Expression::Number {
                at,
                text: text_of(text),
            }
        }
        Word::Str => {
            let text = one(parts);
            Expression::String {
                at,
                text: text_of(text),
            }
        }
        Word::Bigint => {
            let text = one(parts);
            Expression::BigInt {
                at,
                text: text_of(text),
            }
        }
        Word::Regexp => {
            let (pattern, flags) = two(parts);
            Expression::RegExp {
                at,
                pattern: text_of(pattern),
                flags: text_of(flags),
            }
        }
        Word::Template => Expression::Template(Tree::new(tree.tree)),
        Word::Tagged => {
            let (tag, quasi) = two(parts);
            Expression::Tagged {
                at,
                tag: Tree::new(tag),
                quasi: Tree::new(quasi),
            }
        }
        Word::Array => {
            let items = one(parts);
            Expression::Array {
                at,
                items: Trees::new(items_of(items)),
            }
        }
        Word::Object => {
            let properties = one(parts);
            Expression::Object {
                at,
                properties: Trees::new(items_of(properties)),
            }
        }
        Word::Unary => {
            let (operator, argument) = two(parts);
            Expression::Unary {
                at,
                operator: closed_of(operator),
                argument: Tree::new(argument),
            }
        }
        Word::Update => {
            let (operator, prefix, argument) = three(parts);
            Expression::Update {
                at,
                operator: closed_of(operator),
                prefix: flag_of(prefix),
                argument: Tree::new(argument),
            }
        }
        Word::Binary => {
            let (operator, left, right) = three(parts);
            Expression::Binary {
                at,
                operator: closed_of(operator),
                left: Tree::new(left),
                right: Tree::new(right),
            }
        }
        Word::Privatein => {
            let (name, right) = two(parts);
            Expression::PrivateIn {
                at,
                name: text_of(name),
                right: Tree::new(right),
            }
        }
        Word::Logical => {
            let (operator, left, right) = three(parts);
            Expression::Logical {
                at,
                operator: closed_of(operator),
                left: Tree::new(left),
                right: Tree::new(right),
            }
        }
        Word::Cond => {
            let (test, consequent, alternate) = three(parts);
            Expression::Conditional {
                at,
                test: Tree::new(test),
                consequent: Tree::new(consequent),
                alternate: Tree::new(alternate),
            }
        }
        Word::Assign => {
            let (operator, left, right) = three(parts);
            Expression::Assignment {
                at,
                operator: closed_of(operator),
                left: Tree::new(left),
                right: Tree::new(right),
            }
        }
        Word::Seq => {
            let expressions = one(parts);
            Expression::Sequence {
                at,
                expressions: Trees::new(items_of(expressions)),
            }
        }
        Word::New => {
            let (callee, arguments) = two(parts);
            Expression::New {
                at,
                callee: Tree::new(callee),
                arguments: Trees::new(items_of(arguments)),
            }
        }
        Word::Await => {
            let argument = one(parts);
            Expression::Await {
                at,
                argument: Tree::new(argument),
            }
        }
        Word::Yield => {
            let (delegate, argument) = two(parts);
            Expression::Yield {
                at,
                delegate: flag_of(delegate),
                argument: Tree::optional(argument),
            }
        }
        Word::Importmeta => Expression::ImportMeta { at },
        Word::Newtarget => Expression::NewTarget { at },
        Word::Super => Expression::Super { at },
        Word::This => Expression::This { at },
        Word::Importcall => {
            let (source, options) = two(parts);
            Expression::ImportCall {
                at,
                source: Tree::new(source),
                options: Tree::optional(options),
            }
        }
        Word::Paren => {
            let expression = one(parts);
            Expression::Parenthesized {
                at,
                expression: Tree::new(expression),
            }
        }
        Word::As => {
            let (expression, annotation) = two(parts);
            Expression::As {
                at,
                expression: Tree::new(expression),
                annotation: Tree::new(annotation),
            }
        }
        Word::Satisfies => {
            let (expression, annotation) = two(parts);
            Expression::Satisfies {
                at,
                expression: Tree::new(expression),
                annotation: Tree::new(annotation),
            }
        }
        Word::Assert => {
            let (annotation, expression) = two(parts);
            Expression::Assert {
                at,
                annotation: Tree::new(annotation),
                expression: Tree::new(expression),
            }
        }
        Word::Nonnull => {
            let expression = one(parts);
            Expression::NonNull {
                at,
                expression: Tree::new(expression),
            }
        }
        Word::Instantiate => {
            let (expression, names) = two(parts);
            Expression::Instantiate {
                at,
                expression: Tree::new(expression),
                names: Trees::new(items_of(names)),
            }
        }
        Word::Arrow => Expression::Arrow(Tree::new(tree.tree)),
        Word::Funexpr => Expression::Function(Tree::new(tree.tree)),
        Word::Classexpr => {
            let (name, super_class, members) = three(parts);
            Expression::Class {
                at,
                name: Tree::optional(name),
                super_class: Tree::optional(super_class),
                members: Trees::new(items_of(members)),
            }
        }
        Word::Element => Expression::Element(Tree::new(tree.tree)),
        Word::Fragment => Expression::Fragment(Tree::new(tree.tree)),
        Word::Member => {
            let (optional, object, property) = three(parts);
            Expression::Member {
                at,
                optional: flag_of(optional),
                object: Tree::new(object),
                property: text_of(property),
            }
        }
        Word::Index => {
            let (optional, object, property) = three(parts);
            Expression::Index {
                at,
                optional: flag_of(optional),
                object: Tree::new(object),
                property: Tree::new(property),
            }
        }
        Word::Privatemember => {
            let (optional, object, property) = three(parts);
            Expression::PrivateMember {
                at,
                optional: flag_of(optional),
                object: Tree::new(object),
                property: text_of(property),
            }
        }
        Word::Call => {
            let (optional, callee, arguments) = three(parts);
            Expression::Call {
                at,
                optional: flag_of(optional),
                callee: Tree::new(callee),
                arguments: Trees::new(items_of(arguments)),
            }
        }
        Word::Chain => {
            let expression = one(parts);
            Expression::Chain {
                at,
                expression: Tree::new(expression),
            }
        }
        _ => unreachable!(),
    }
}

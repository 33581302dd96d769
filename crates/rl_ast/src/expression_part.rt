//! Parts of expressions: views of one level. Written by tools/syntax.py from tools/grammar.txt.
//! Types in backquotes are those of oxc_ast.

ghost use Rattle.std.specs.Prelude.{◌≡◌};
ghost use Rattle.rl_syntax.specs.Syntax.{syntax};
ghost use Rattle.rl_ast.specs.ExpressionPartViews.{seen_argument, seen_array_element, seen_object_property, seen_template_element, seen_template_literal};

use rl_base::text::Text;
use rl_grammar::parts::{items_of, one, optional_text, three, two};
use rl_grammar::sort::{
    ArgumentTree, ArrayElementTree, ExpressionTree, ExpressionTrees, FunctionExpressionTree,
    ObjectPropertyTree, PropertyKeyTree, TemplateElementTree, TemplateElementTrees,
    TemplateLiteralTree,
};
use rl_grammar::tree::{Tree, Trees};
use rl_syntax::numbered::At;
use rl_syntax::parts::{flag_of, node_of, text_of};
use rl_syntax::word::Word;

/// A template literal (ECMA-262, 13.2.8). Texts, with an expression between each two of them.
/// `(template [TemplateElement] [Expression])`
#[derive(Clone, Copy)]
pub struct TemplateLiteral<'b> {
    /// Ids and span of the node.
    pub at: At,
    /// The texts around the expressions, in order.
    pub quasis: TemplateElementTrees<'b>,
    /// The expressions between the texts, in order.
    pub expressions: ExpressionTrees<'b>,
}

/// A level of a tree of the sort `TemplateLiteral`.
#[tactic(auto, using(rl_grammar::proofs::Viewing::viewing))]
pub fn template_literal_view(tree: TemplateLiteralTree<'_>) -> TemplateLiteral<'_>
    ensures { seen_template_literal result ≡ syntax tree.entry.tree.now }
{
    let (at, word, parts) = node_of(tree.tree);
    match word {
        Word::Template => {
            let (quasis, expressions) = two(parts);
            TemplateLiteral {
                at,
                quasis: Trees::new(items_of(quasis)),
                expressions: Trees::new(items_of(expressions)),
            }
        }
        _ => unreachable!(),
    }
}

/// A text of a template literal (ECMA-262, 12.9.6). `raw` is its source, `cooked` its value, absent where an escape is invalid.
/// `(quasi TEXT TEXT?)`
#[derive(Clone, Copy)]
pub struct TemplateElement<'b> {
    /// Ids and span of the node.
    pub at: At,
    /// The source text.
    pub raw: &'b Text,
    /// The value in UTF-8, its escapes decoded, or none.
    pub cooked: Option<&'b Text>,
}

/// A level of a tree of the sort `TemplateElement`.
#[tactic(auto, using(rl_grammar::proofs::Viewing::viewing))]
pub fn template_element_view(tree: TemplateElementTree<'_>) -> TemplateElement<'_>
    ensures { seen_template_element result ≡ syntax tree.entry.tree.now }
{
    let (at, word, parts) = node_of(tree.tree);
    match word {
        Word::Quasi => {
            let (raw, cooked) = two(parts);
            TemplateElement {
                at,
                raw: text_of(raw),
                cooked: optional_text(cooked),
            }
        }
        _ => unreachable!(),
    }
}

/// An element of an array literal: `ArrayExpressionElement` (ECMA-262, 13.2.4).
#[derive(Clone, Copy)]
pub enum ArrayElement<'b> {
    /// An expression.
    Expression(ExpressionTree<'b>),
    /// `...a`: `SpreadElement` (ECMA-262, 13.2.4). `(spread Expression)`
    Spread {
        /// Ids and span of the node.
        at: At,
        /// The value that is spread, an expression.
        argument: ExpressionTree<'b>,
    },
    /// A position without an element: `Elision` (ECMA-262, 13.2.4). `(hole)`
    Hole {
        /// Ids and span of the node.
        at: At,
    },
}

/// A level of a tree of the sort `ArrayElement`.
#[tactic(auto, using(rl_grammar::proofs::Viewing::viewing))]
pub fn array_element_view(tree: ArrayElementTree<'_>) -> ArrayElement<'_>
    ensures { seen_array_element result ≡ syntax tree.entry.tree.now }
{
    let (at, word, parts) = node_of(tree.tree);
    match word {
        Word::Spread => {
            let argument = one(parts);
            ArrayElement::Spread {
                at,
                argument: Tree::new(argument),
            }
        }
        Word::Hole => ArrayElement::Hole { at },
        _ => ArrayElement::Expression(Tree::new(tree.tree)),
    }
}

/// An argument (ECMA-262, 13.3.8).
#[derive(Clone, Copy)]
pub enum Argument<'b> {
    /// An expression.
    Expression(ExpressionTree<'b>),
    /// `...a`: `SpreadElement` (ECMA-262, 13.3.8). `(spread Expression)`
    Spread {
        /// Ids and span of the node.
        at: At,
        /// The value that is spread, an expression.
        argument: ExpressionTree<'b>,
    },
}

/// A level of a tree of the sort `Argument`.
#[tactic(auto, using(rl_grammar::proofs::Viewing::viewing))]
pub fn argument_view(tree: ArgumentTree<'_>) -> Argument<'_>
    ensures { seen_argument result ≡ syntax tree.entry.tree.now }
{
    let (at, word, parts) = node_of(tree.tree);
    match word {
        Word::Spread => {
            let argument = one(parts);
            Argument::Spread {
                at,
                argument: Tree::new(argument),
            }
        }
        _ => Argument::Expression(Tree::new(tree.tree)),
    }
}

/// A property of an object literal: `ObjectPropertyKind` (ECMA-262, 13.2.5).
#[derive(Clone, Copy)]
pub enum ObjectProperty<'b> {
    /// `key: value`; `computed` is true of `[key]: value`. `(prop FLAG PropertyKey Expression)`
    Value {
        /// Ids and span of the node.
        at: At,
        /// True of a computed key, `[key]`.
        computed: bool,
        /// The key.
        key: PropertyKeyTree<'b>,
        /// The value.
        value: ExpressionTree<'b>,
    },
    /// A method, `key() {}` (ECMA-262, 15.4); `computed` is true of `[key]`. `(method FLAG PropertyKey FunctionExpression)`
    Method {
        /// Ids and span of the node.
        at: At,
        /// True of a computed key, `[key]`.
        computed: bool,
        /// The key.
        key: PropertyKeyTree<'b>,
        /// The function.
        function: FunctionExpressionTree<'b>,
    },
    /// A getter, `get key() {}` (ECMA-262, 15.4); `computed` is true of `[key]`. `(get FLAG PropertyKey FunctionExpression)`
    Get {
        /// Ids and span of the node.
        at: At,
        /// True of a computed key, `[key]`.
        computed: bool,
        /// The key.
        key: PropertyKeyTree<'b>,
        /// The function.
        function: FunctionExpressionTree<'b>,
    },
    /// A setter, `set key(a) {}` (ECMA-262, 15.4); `computed` is true of `[key]`. `(set FLAG PropertyKey FunctionExpression)`
    Set {
        /// Ids and span of the node.
        at: At,
        /// True of a computed key, `[key]`.
        computed: bool,
        /// The key.
        key: PropertyKeyTree<'b>,
        /// The function.
        function: FunctionExpressionTree<'b>,
    },
    /// `...a`: `SpreadElement` (ECMA-262, 13.2.5). `(spread Expression)`
    Spread {
        /// Ids and span of the node.
        at: At,
        /// The value that is spread, an expression.
        argument: ExpressionTree<'b>,
    },
}

/// A level of a tree of the sort `ObjectProperty`.
#[tactic(auto, using(rl_grammar::proofs::Viewing::viewing))]
pub fn object_property_view(tree: ObjectPropertyTree<'_>) -> ObjectProperty<'_>
    ensures { seen_object_property result ≡ syntax tree.entry.tree.now }
{
    let (at, word, parts) = node_of(tree.tree);
    match word {
        Word::Prop => {
            let (computed, key, value) = three(parts);
            ObjectProperty::Value {
                at,
                computed: flag_of(computed),
                key: Tree::new(key),
                value: Tree::new(value),
            }
        }
        Word::Method => {
            let (computed, key, function) = three(parts);
            ObjectProperty::Method {
                at,
                computed: flag_of(computed),
                key: Tree::new(key),
                function: Tree::new(function),
            }
        }
        Word::Get => {
            let (computed, key, function) = three(parts);
            ObjectProperty::Get {
                at,
                computed: flag_of(computed),
                key: Tree::new(key),
                function: Tree::new(function),
            }
        }
        Word::Set => {
            let (computed, key, function) = three(parts);
            ObjectProperty::Set {
                at,
                computed: flag_of(computed),
                key: Tree::new(key),
                function: Tree::new(function),
            }
        }
        Word::Spread => {
            let argument = one(parts);
            ObjectProperty::Spread {
                at,
                argument: Tree::new(argument),
            }
        }
        _ => unreachable!(),
    }
}

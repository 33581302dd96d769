//! JSX: views of one level. Written by tools/syntax.py from tools/grammar.txt.
//! Types in backquotes are those of oxc_ast.

ghost use Rattle.std.specs.Prelude.{◌≡◌};
ghost use Rattle.rl_syntax.specs.Syntax.{syntax};
ghost use Rattle.rl_ast.specs.JsxViews.{seen_jsx_attribute, seen_jsx_attribute_name, seen_jsx_attribute_value, seen_jsx_child, seen_jsx_closing_element, seen_jsx_element, seen_jsx_element_name, seen_jsx_fragment, seen_jsx_opening_element};

use rl_base::text::Text;
use rl_grammar::parts::{items_of, one, three, two};
use rl_grammar::sort::{
    ExpressionTree, IdentifierReferenceTree, JsxAttributeNameTree, JsxAttributeTree,
    JsxAttributeTrees, JsxAttributeValueTree, JsxChildTree, JsxChildTrees, JsxClosingElementTree,
    JsxElementNameTree, JsxElementTree, JsxFragmentTree, JsxOpeningElementTree,
};
use rl_grammar::tree::{Tree, Trees};
use rl_syntax::numbered::At;
use rl_syntax::parts::{node_of, text_of};
use rl_syntax::word::Word;

/// A JSX element: `JSXElement`. Opening tag, children, and the closing tag where there is one.
/// `(element JsxOpeningElement [JsxChild] JsxClosingElement?)`
#[derive(Clone, Copy)]
pub struct JsxElement<'b> {
    /// Ids and span of the node.
    pub at: At,
    /// The opening tag.
    pub opening: JsxOpeningElementTree<'b>,
    /// The children, in order.
    pub children: JsxChildTrees<'b>,
    /// The closing tag, or none.
    pub closing: Option<JsxClosingElementTree<'b>>,
}

/// A level of a tree of the sort `JsxElement`.
#[tactic(auto, using(rl_grammar::proofs::Viewing::viewing))]
pub fn jsx_element_view(tree: JsxElementTree<'_>) -> JsxElement<'_>
    ensures { seen_jsx_element result ≡ syntax tree.entry.tree.now }
{
    let (at, word, parts) = node_of(tree.tree);
    match word {
        Word::Element => {
            let (opening, children, closing) = three(parts);
            JsxElement {
                at,
                opening: Tree::new(opening),
                children: Trees::new(items_of(children)),
                closing: Tree::optional(closing),
            }
        }
        _ => unreachable!(),
    }
}

/// A JSX fragment: `JSXFragment`. Children between `<>` and `</>`. `(fragment [JsxChild])`
#[derive(Clone, Copy)]
pub struct JsxFragment<'b> {
    /// Ids and span of the node.
    pub at: At,
    /// The children, in order.
    pub children: JsxChildTrees<'b>,
}

/// A level of a tree of the sort `JsxFragment`.
#[tactic(auto, using(rl_grammar::proofs::Viewing::viewing))]
pub fn jsx_fragment_view(tree: JsxFragmentTree<'_>) -> JsxFragment<'_>
    ensures { seen_jsx_fragment result ≡ syntax tree.entry.tree.now }
{
    let (at, word, parts) = node_of(tree.tree);
    match word {
        Word::Fragment => {
            let children = one(parts);
            JsxFragment {
                at,
                children: Trees::new(items_of(children)),
            }
        }
        _ => unreachable!(),
    }
}

/// An opening tag: `JSXOpeningElement`. The element's name, and its attributes. `(opening JsxElementName [JsxAttribute])`
#[derive(Clone, Copy)]
pub struct JsxOpeningElement<'b> {
    /// Ids and span of the node.
    pub at: At,
    /// The name of the element.
    pub tag: JsxElementNameTree<'b>,
    /// The attributes, in order.
    pub attributes: JsxAttributeTrees<'b>,
}

/// A level of a tree of the sort `JsxOpeningElement`.
#[tactic(auto, using(rl_grammar::proofs::Viewing::viewing))]
pub fn jsx_opening_element_view(tree: JsxOpeningElementTree<'_>) -> JsxOpeningElement<'_>
    ensures { seen_jsx_opening_element result ≡ syntax tree.entry.tree.now }
{
    let (at, word, parts) = node_of(tree.tree);
    match word {
        Word::Opening => {
            let (tag, attributes) = two(parts);
            JsxOpeningElement {
                at,
                tag: Tree::new(tag),
                attributes: Trees::new(items_of(attributes)),
            }
        }
        _ => unreachable!(),
    }
}

/// A closing tag: `JSXClosingElement`. Its name is not kept: it is that of the opening tag. `(closing)`
#[derive(Clone, Copy)]
pub struct JsxClosingElement {
    /// Ids and span of the node.
    pub at: At,
}

/// A level of a tree of the sort `JsxClosingElement`.
#[tactic(auto, using(rl_grammar::proofs::Viewing::viewing))]
pub fn jsx_closing_element_view(tree: JsxClosingElementTree<'_>) -> JsxClosingElement
    ensures { seen_jsx_closing_element result ≡ syntax tree.entry.tree.now }
{
    let (at, word, parts) = node_of(tree.tree);
    match word {
        Word::Closing => JsxClosingElement { at },
        _ => unreachable!(),
    }
}

/// The name of a JSX element: `JSXElementName`.
#[derive(Clone, Copy)]
pub enum JsxElementName<'b> {
    /// The name of a builtin element, as `div`: `JSXIdentifier`. `(tag TEXT)`
    Name {
        /// Ids and span of the node.
        at: At,
        /// The name.
        name: &'b Text,
    },
    /// A component's name, a name that is used: `IdentifierReference`.
    Identifier(IdentifierReferenceTree<'b>),
    /// `this`: `ThisExpression`. `(this)`
    This {
        /// Ids and span of the node.
        at: At,
    },
    /// A property, `<a.b>`: `JSXMemberExpression`. `(tagmember JsxElementName TEXT)`
    Member {
        /// Ids and span of the node.
        at: At,
        /// The object.
        object: JsxElementNameTree<'b>,
        /// The name of the property.
        property: &'b Text,
    },
    /// A name with a namespace, `<a:b>`: `JSXNamespacedName`. `(tagns TEXT TEXT)`
    Namespaced {
        /// Ids and span of the node.
        at: At,
        /// The namespace, before the colon.
        namespace: &'b Text,
        /// The name.
        name: &'b Text,
    },
}

/// A level of a tree of the sort `JsxElementName`.
#[tactic(auto, using(rl_grammar::proofs::Viewing::viewing))]
pub fn jsx_element_name_view(tree: JsxElementNameTree<'_>) -> JsxElementName<'_>
    ensures { seen_jsx_element_name result ≡ syntax tree.entry.tree.now }
{
    let (at, word, parts) = node_of(tree.tree);
    match word {
        Word::Tag => {
            let name = one(parts);
            JsxElementName::Name {
                at,
                name: text_of(name),
            }
        }
        Word::Id => JsxElementName::Identifier(Tree::new(tree.tree)),
        Word::This => JsxElementName::This { at },
        Word::Tagmember => {
            let (object, property) = two(parts);
            JsxElementName::Member {
                at,
                object: Tree::new(object),
                property: text_of(property),
            }
        }
        Word::Tagns => {
            let (namespace, name) = two(parts);
            JsxElementName::Namespaced {
                at,
                namespace: text_of(namespace),
                name: text_of(name),
            }
        }
        _ => unreachable!(),
    }
}

/// An attribute of a JSX element: `JSXAttributeItem`.
#[derive(Clone, Copy)]
pub enum JsxAttribute<'b> {
    /// An attribute by its name, with its value if there is one: `JSXAttribute`. `(attr JsxAttributeName JsxAttributeValue?)`
    Attribute {
        /// Ids and span of the node.
        at: At,
        /// The name.
        name: JsxAttributeNameTree<'b>,
        /// The value, or none.
        value: Option<JsxAttributeValueTree<'b>>,
    },
    /// `{...a}`: `JSXSpreadAttribute`. `(attrspread Expression)`
    Spread {
        /// Ids and span of the node.
        at: At,
        /// The object whose properties are attributes, an expression.
        argument: ExpressionTree<'b>,
    },
}

/// A level of a tree of the sort `JsxAttribute`.
#[tactic(auto, using(rl_grammar::proofs::Viewing::viewing))]
pub fn jsx_attribute_view(tree: JsxAttributeTree<'_>) -> JsxAttribute<'_>
    ensures { seen_jsx_attribute result ≡ syntax tree.entry.tree.now }
{
    let (at, word, parts) = node_of(tree.tree);
    match word {
        Word::Attr => {
            let (name, value) = two(parts);
            JsxAttribute::Attribute {
                at,
                name: Tree::new(name),
                value: Tree::optional(value),
            }
        }
        Word::Attrspread => {
            let argument = one(parts);
            JsxAttribute::Spread {
                at,
                argument: Tree::new(argument),
            }
        }
        _ => unreachable!(),
    }
}

/// The name of a JSX attribute: `JSXAttributeName`.
#[derive(Clone, Copy)]
pub enum JsxAttributeName<'b> {
    /// A name: `JSXIdentifier`. `(attrname TEXT)`
    Name {
        /// Ids and span of the node.
        at: At,
        /// The name.
        name: &'b Text,
    },
    /// A name with a namespace, `a:b={c}`: `JSXNamespacedName`. `(attrns TEXT TEXT)`
    Namespaced {
        /// Ids and span of the node.
        at: At,
        /// The namespace, before the colon.
        namespace: &'b Text,
        /// The name.
        name: &'b Text,
    },
}

/// A level of a tree of the sort `JsxAttributeName`.
#[tactic(auto, using(rl_grammar::proofs::Viewing::viewing))]
pub fn jsx_attribute_name_view(tree: JsxAttributeNameTree<'_>) -> JsxAttributeName<'_>
    ensures { seen_jsx_attribute_name result ≡ syntax tree.entry.tree.now }
{
    let (at, word, parts) = node_of(tree.tree);
    match word {
        Word::Attrname => {
            let name = one(parts);
            JsxAttributeName::Name {
                at,
                name: text_of(name),
            }
        }
        Word::Attrns => {
            let (namespace, name) = two(parts);
            JsxAttributeName::Namespaced {
                at,
                namespace: text_of(namespace),
                name: text_of(name),
            }
        }
        _ => unreachable!(),
    }
}

/// The value of a JSX attribute: `JSXAttributeValue`.
#[derive(Clone, Copy)]
pub enum JsxAttributeValue<'b> {
    /// A text in quotes: `StringLiteral`. `(str TEXT)`
    String {
        /// Ids and span of the node.
        at: At,
        /// The value in UTF-8.
        text: &'b Text,
    },
    /// `{a}`, or `{}` without an expression: `JSXExpressionContainer`. `(container Expression?)`
    Container {
        /// Ids and span of the node.
        at: At,
        /// The expression in braces, or none.
        expression: Option<ExpressionTree<'b>>,
    },
    /// A JSX element.
    Element(JsxElementTree<'b>),
    /// A JSX fragment.
    Fragment(JsxFragmentTree<'b>),
}

/// A level of a tree of the sort `JsxAttributeValue`.
#[tactic(auto, using(rl_grammar::proofs::Viewing::viewing))]
pub fn jsx_attribute_value_view(tree: JsxAttributeValueTree<'_>) -> JsxAttributeValue<'_>
    ensures { seen_jsx_attribute_value result ≡ syntax tree.entry.tree.now }
{
    let (at, word, parts) = node_of(tree.tree);
    match word {
        Word::Str => {
            let text = one(parts);
            JsxAttributeValue::String {
                at,
                text: text_of(text),
            }
        }
        Word::Container => {
            let expression = one(parts);
            JsxAttributeValue::Container {
                at,
                expression: Tree::optional(expression),
            }
        }
        Word::Element => JsxAttributeValue::Element(Tree::new(tree.tree)),
        Word::Fragment => JsxAttributeValue::Fragment(Tree::new(tree.tree)),
        _ => unreachable!(),
    }
}

/// A child of a JSX element or fragment: `JSXChild`.
#[derive(Clone, Copy)]
pub enum JsxChild<'b> {
    /// A text, as it stands in the source: `JSXText`. `(text TEXT)`
    Text {
        /// Ids and span of the node.
        at: At,
        /// The text.
        text: &'b Text,
    },
    /// `{a}`, or `{}` without an expression: `JSXExpressionContainer`. `(container Expression?)`
    Container {
        /// Ids and span of the node.
        at: At,
        /// The expression in braces, or none.
        expression: Option<ExpressionTree<'b>>,
    },
    /// A JSX element.
    Element(JsxElementTree<'b>),
    /// A JSX fragment.
    Fragment(JsxFragmentTree<'b>),
    /// `{...a}`: `JSXSpreadChild`. `(spreadchild Expression)`
    Spread {
        /// Ids and span of the node.
        at: At,
        /// The value that is spread, an expression.
        argument: ExpressionTree<'b>,
    },
}

/// A level of a tree of the sort `JsxChild`.
#[tactic(auto, using(rl_grammar::proofs::Viewing::viewing))]
pub fn jsx_child_view(tree: JsxChildTree<'_>) -> JsxChild<'_>
    ensures { seen_jsx_child result ≡ syntax tree.entry.tree.now }
{
    let (at, word, parts) = node_of(tree.tree);
    match word {
        Word::Text => {
            let text = one(parts);
            JsxChild::Text {
                at,
                text: text_of(text),
            }
        }
        Word::Container => {
            let expression = one(parts);
            JsxChild::Container {
                at,
                expression: Tree::optional(expression),
            }
        }
        Word::Element => JsxChild::Element(Tree::new(tree.tree)),
        Word::Fragment => JsxChild::Fragment(Tree::new(tree.tree)),
        Word::Spreadchild => {
            let argument = one(parts);
            JsxChild::Spread {
                at,
                argument: Tree::new(argument),
            }
        }
        _ => unreachable!(),
    }
}

//! Lists of values: the parts that give them, and the constructs that take them.

use rl_base::ids::NodeId;
use rl_grammar::sort::{
    ArgumentTrees, ArrayElementTrees, ExpressionTree, ExpressionTrees, JsxAttributeTrees,
    JsxChildTrees, JsxElementNameTree, ObjectPropertyTrees, TemplateElementTrees,
};

/// Parts in a row, each of which gives values.
#[derive(Clone, Copy)]
pub enum Parts<'b> {
    /// The arguments of a call.
    Arguments(ArgumentTrees<'b>),
    /// The elements of an array.
    Elements(ArrayElementTrees<'b>),
    /// The properties of an object.
    Properties(ObjectPropertyTrees<'b>),
    /// The expressions of a template.
    Expressions(ExpressionTrees<'b>),
    /// The attributes of an element.
    Attributes(JsxAttributeTrees<'b>),
    /// The children of an element or of a fragment.
    Children(JsxChildTrees<'b>),
}

/// The construct whose parts give values.
#[derive(Clone, Copy)]
pub enum Gather<'b> {
    /// A call.
    Call {
        /// True of a call of an object's method.
        lent: bool,
        /// The arguments.
        arguments: ArgumentTrees<'b>,
    },
    /// A construction.
    New {
        /// The arguments.
        arguments: ArgumentTrees<'b>,
    },
    /// A template.
    Template {
        /// Its texts.
        quasis: TemplateElementTrees<'b>,
        /// Its expressions.
        expressions: ExpressionTrees<'b>,
    },
    /// A tagged template.
    Tagged {
        /// Its texts.
        quasis: TemplateElementTrees<'b>,
        /// Its expressions.
        expressions: ExpressionTrees<'b>,
    },
    /// An array.
    Array {
        /// Its elements.
        items: ArrayElementTrees<'b>,
    },
    /// An object.
    Object {
        /// Its properties.
        properties: ObjectPropertyTrees<'b>,
    },
    /// The attributes of an element, whose children are next.
    Attributes {
        /// The tag.
        tag: JsxElementNameTree<'b>,
        /// The attributes.
        attributes: JsxAttributeTrees<'b>,
        /// The children.
        children: JsxChildTrees<'b>,
    },
    /// The children of an element.
    Children {
        /// The tag.
        tag: JsxElementNameTree<'b>,
        /// The attributes.
        attributes: JsxAttributeTrees<'b>,
        /// The children.
        children: JsxChildTrees<'b>,
    },
    /// The children of a fragment.
    Fragment {
        /// The children.
        children: JsxChildTrees<'b>,
    },
}

/// The rest of a part, behind its first value.
#[derive(Clone, Copy)]
pub enum Pending<'b> {
    /// Nothing.
    Nothing,
    /// The value of a property, behind its key.
    Value(ExpressionTree<'b>),
    /// The method with this node, behind its key.
    Method(NodeId),
}

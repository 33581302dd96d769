//! Assignment targets: views of one level. Written by tools/syntax.py from tools/grammar.txt.
//! Types in backquotes are those of oxc_ast.

ghost use Rattle.std.specs.Prelude.{◌≡◌};
ghost use Rattle.rl_syntax.specs.Syntax.{syntax};
ghost use Rattle.rl_ast.specs.TargetViews.{seen_assignment_target, seen_assignment_target_element, seen_assignment_target_maybe_default, seen_assignment_target_property, seen_assignment_target_rest};

use rl_base::text::Text;
use rl_grammar::parts::{items_of, one, three, two};
use rl_grammar::sort::{
    AssignmentTargetElementTree, AssignmentTargetElementTrees, AssignmentTargetMaybeDefaultTree,
    AssignmentTargetPropertyTree, AssignmentTargetPropertyTrees, AssignmentTargetRestTree,
    AssignmentTargetTree, ExpressionTree, IdentifierReferenceTree, PropertyKeyTree,
    TypeAnnotationTree,
};
use rl_grammar::tree::{Tree, Trees};
use rl_syntax::numbered::At;
use rl_syntax::parts::{flag_of, node_of, text_of};
use rl_syntax::word::Word;

/// An assignment target (ECMA-262, 13.15).
#[derive(Clone, Copy)]
pub enum AssignmentTarget<'b> {
    /// A name: `AssignmentTargetIdentifier`.
    Identifier(IdentifierReferenceTree<'b>),
    /// `a.b`: `StaticMemberExpression` (ECMA-262, 13.3.2); `optional` is true of `a?.b`. `(member FLAG Expression TEXT)`
    Member {
        /// Ids and span of the node.
        at: At,
        /// True of an optional link, `?.`.
        optional: bool,
        /// The object, an expression.
        object: ExpressionTree<'b>,
        /// The name of the property.
        property: &'b Text,
    },
    /// `a[b]`: `ComputedMemberExpression` (ECMA-262, 13.3.2); `optional` is true of `a?.[b]`.
    /// `(index FLAG Expression Expression)`
    Index {
        /// Ids and span of the node.
        at: At,
        /// True of an optional link, `?.`.
        optional: bool,
        /// The object, an expression.
        object: ExpressionTree<'b>,
        /// The key of the property, an expression.
        property: ExpressionTree<'b>,
    },
    /// `a.#b`: `PrivateFieldExpression` (ECMA-262, 13.3.2); `optional` is true of `a?.#b`. `(privatemember FLAG Expression TEXT)`
    PrivateMember {
        /// Ids and span of the node.
        at: At,
        /// True of an optional link, `?.`.
        optional: bool,
        /// The object, an expression.
        object: ExpressionTree<'b>,
        /// The private name of the property.
        property: &'b Text,
    },
    /// An array of targets: `ArrayAssignmentTarget` (ECMA-262, 13.15.5).
    /// `(arraytarget [AssignmentTargetElement] AssignmentTargetRest?)`
    Array {
        /// Ids and span of the node.
        at: At,
        /// The elements before the rest, in order.
        items: AssignmentTargetElementTrees<'b>,
        /// The rest element, or none.
        rest: Option<AssignmentTargetRestTree<'b>>,
    },
    /// An object of targets: `ObjectAssignmentTarget` (ECMA-262, 13.15.5).
    /// `(objecttarget [AssignmentTargetProperty] AssignmentTargetRest?)`
    Object {
        /// Ids and span of the node.
        at: At,
        /// The properties, in order.
        properties: AssignmentTargetPropertyTrees<'b>,
        /// The rest element, or none.
        rest: Option<AssignmentTargetRestTree<'b>>,
    },
    /// `a as T`: `TSAsExpression`. `(as Expression TypeAnnotation)`
    As {
        /// Ids and span of the node.
        at: At,
        /// The expression.
        expression: ExpressionTree<'b>,
        /// The type.
        annotation: TypeAnnotationTree<'b>,
    },
    /// `a satisfies T`: `TSSatisfiesExpression`. `(satisfies Expression TypeAnnotation)`
    Satisfies {
        /// Ids and span of the node.
        at: At,
        /// The expression.
        expression: ExpressionTree<'b>,
        /// The type.
        annotation: TypeAnnotationTree<'b>,
    },
    /// `<T>a`: `TSTypeAssertion`. `(assert TypeAnnotation Expression)`
    Assert {
        /// Ids and span of the node.
        at: At,
        /// The type.
        annotation: TypeAnnotationTree<'b>,
        /// The expression.
        expression: ExpressionTree<'b>,
    },
    /// `a!`: `TSNonNullExpression`. `(nonnull Expression)`
    NonNull {
        /// Ids and span of the node.
        at: At,
        /// The expression.
        expression: ExpressionTree<'b>,
    },
}

/// A level of a tree of the sort `AssignmentTarget`.
#[tactic(auto, using(rl_grammar::proofs::Viewing::viewing))]
pub fn assignment_target_view(tree: AssignmentTargetTree<'_>) -> AssignmentTarget<'_>
    ensures { seen_assignment_target result ≡ syntax tree.entry.tree.now }
{
    let (at, word, parts) = node_of(tree.tree);
    match word {
        Word::Id => AssignmentTarget::Identifier(Tree::new(tree.tree)),
        Word::Member => {
            let (optional, object, property) = three(parts);
            AssignmentTarget::Member {
                at,
                optional: flag_of(optional),
                object: Tree::new(object),
                property: text_of(property),
            }
        }
        Word::Index => {
            let (optional, object, property) = three(parts);
            AssignmentTarget::Index {
                at,
                optional: flag_of(optional),
                object: Tree::new(object),
                property: Tree::new(property),
            }
        }
        Word::Privatemember => {
            let (optional, object, property) = three(parts);
            AssignmentTarget::PrivateMember {
                at,
                optional: flag_of(optional),
                object: Tree::new(object),
                property: text_of(property),
            }
        }
        Word::Arraytarget => {
            let (items, rest) = two(parts);
            AssignmentTarget::Array {
                at,
                items: Trees::new(items_of(items)),
                rest: Tree::optional(rest),
            }
        }
        Word::Objecttarget => {
            let (properties, rest) = two(parts);
            AssignmentTarget::Object {
                at,
                properties: Trees::new(items_of(properties)),
                rest: Tree::optional(rest),
            }
        }
        Word::As => {
            let (expression, annotation) = two(parts);
            AssignmentTarget::As {
                at,
                expression: Tree::new(expression),
                annotation: Tree::new(annotation),
            }
        }
        Word::Satisfies => {
            let (expression, annotation) = two(parts);
            AssignmentTarget::Satisfies {
                at,
                expression: Tree::new(expression),
                annotation: Tree::new(annotation),
            }
        }
        Word::Assert => {
            let (annotation, expression) = two(parts);
            AssignmentTarget::Assert {
                at,
                annotation: Tree::new(annotation),
                expression: Tree::new(expression),
            }
        }
        Word::Nonnull => {
            let expression = one(parts);
            AssignmentTarget::NonNull {
                at,
                expression: Tree::new(expression),
            }
        }
        _ => unreachable!(),
    }
}

/// An assignment target, with a default or without (ECMA-262, 13.15.5).
#[derive(Clone, Copy)]
pub enum AssignmentTargetMaybeDefault<'b> {
    /// A target without a default.
    Target(AssignmentTargetTree<'b>),
    /// A target with a default, `a = b`: `AssignmentTargetWithDefault`. `(default AssignmentTarget Expression)`
    Default {
        /// Ids and span of the node.
        at: At,
        /// The target.
        target: AssignmentTargetTree<'b>,
        /// The default, an expression.
        default: ExpressionTree<'b>,
    },
}

/// A level of a tree of the sort `AssignmentTargetMaybeDefault`.
#[tactic(auto, using(rl_grammar::proofs::Viewing::viewing))]
pub fn assignment_target_maybe_default_view(
    tree: AssignmentTargetMaybeDefaultTree<'_>,
) -> AssignmentTargetMaybeDefault<'_>
    ensures { seen_assignment_target_maybe_default result ≡ syntax tree.entry.tree.now }
{
    let (at, word, parts) = node_of(tree.tree);
    match word {
        Word::Default => {
            let (target, default) = two(parts);
            AssignmentTargetMaybeDefault::Default {
                at,
                target: Tree::new(target),
                default: Tree::new(default),
            }
        }
        _ => AssignmentTargetMaybeDefault::Target(Tree::new(tree.tree)),
    }
}

/// An element of an array of targets (ECMA-262, 13.15.5).
#[derive(Clone, Copy)]
pub enum AssignmentTargetElement<'b> {
    /// A target, with a default or without.
    Target(AssignmentTargetMaybeDefaultTree<'b>),
    /// A position that is assigned to nothing. `(hole)`
    Hole {
        /// Ids and span of the node.
        at: At,
    },
}

/// A level of a tree of the sort `AssignmentTargetElement`.
#[tactic(auto, using(rl_grammar::proofs::Viewing::viewing))]
pub fn assignment_target_element_view(
    tree: AssignmentTargetElementTree<'_>,
) -> AssignmentTargetElement<'_>
    ensures { seen_assignment_target_element result ≡ syntax tree.entry.tree.now }
{
    let (at, word, parts) = node_of(tree.tree);
    match word {
        Word::Hole => AssignmentTargetElement::Hole { at },
        _ => AssignmentTargetElement::Target(Tree::new(tree.tree)),
    }
}

/// A property of an object of targets (ECMA-262, 13.15.5).
#[derive(Clone, Copy)]
pub enum AssignmentTargetProperty<'b> {
    /// `a` or `a = b`: `AssignmentTargetPropertyIdentifier`. `(short IdentifierReference Expression?)`
    Short {
        /// Ids and span of the node.
        at: At,
        /// The name, of the property and of the variable.
        name: IdentifierReferenceTree<'b>,
        /// The default, an expression, or none.
        default: Option<ExpressionTree<'b>>,
    },
    /// `key: target`: `AssignmentTargetPropertyProperty`; `computed` is true of `[key]: target`.
    /// `(keyed FLAG PropertyKey AssignmentTargetMaybeDefault)`
    Keyed {
        /// Ids and span of the node.
        at: At,
        /// True of a computed key, `[key]`.
        computed: bool,
        /// The key.
        key: PropertyKeyTree<'b>,
        /// The target that takes the property's value.
        value: AssignmentTargetMaybeDefaultTree<'b>,
    },
}

/// A level of a tree of the sort `AssignmentTargetProperty`.
#[tactic(auto, using(rl_grammar::proofs::Viewing::viewing))]
pub fn assignment_target_property_view(
    tree: AssignmentTargetPropertyTree<'_>,
) -> AssignmentTargetProperty<'_>
    ensures { seen_assignment_target_property result ≡ syntax tree.entry.tree.now }
{
    let (at, word, parts) = node_of(tree.tree);
    match word {
        Word::Short => {
            let (name, default) = two(parts);
            AssignmentTargetProperty::Short {
                at,
                name: Tree::new(name),
                default: Tree::optional(default),
            }
        }
        Word::Keyed => {
            let (computed, key, value) = three(parts);
            AssignmentTargetProperty::Keyed {
                at,
                computed: flag_of(computed),
                key: Tree::new(key),
                value: Tree::new(value),
            }
        }
        _ => unreachable!(),
    }
}

/// The rest of an array or object of targets (ECMA-262, 13.15.5). `...`, and the target that takes the rest.
/// `(rest AssignmentTarget)`
#[derive(Clone, Copy)]
pub struct AssignmentTargetRest<'b> {
    /// Ids and span of the node.
    pub at: At,
    /// The target.
    pub target: AssignmentTargetTree<'b>,
}

/// A level of a tree of the sort `AssignmentTargetRest`.
#[tactic(auto, using(rl_grammar::proofs::Viewing::viewing))]
pub fn assignment_target_rest_view(tree: AssignmentTargetRestTree<'_>) -> AssignmentTargetRest<'_>
    ensures { seen_assignment_target_rest result ≡ syntax tree.entry.tree.now }
{
    let (at, word, parts) = node_of(tree.tree);
    match word {
        Word::Rest => {
            let target = one(parts);
            AssignmentTargetRest {
                at,
                target: Tree::new(target),
            }
        }
        _ => unreachable!(),
    }
}

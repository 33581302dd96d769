//! Names, types and patterns: views of one level. Written by tools/syntax.py from tools/grammar.txt.
//! Types in backquotes are those of oxc_ast.

ghost use Rattle.std.specs.Prelude.{◌≡◌};
ghost use Rattle.rl_syntax.specs.Syntax.{syntax};
ghost use Rattle.rl_ast.specs.BindingViews.{seen_binding_identifier, seen_binding_pattern, seen_binding_pattern_element, seen_binding_pattern_maybe_default, seen_binding_property, seen_identifier_reference, seen_property_key, seen_type_annotation};

use rl_base::text::Text;
use rl_base::type_kind::TypeKind;
use rl_grammar::parts::{closed_of, items_of, one, three, two};
use rl_grammar::sort::{
    BindingIdentifierTree, BindingPatternElementTree, BindingPatternElementTrees,
    BindingPatternMaybeDefaultTree, BindingPatternTree, BindingPropertyTree, BindingPropertyTrees,
    BindingRestElementTree, ExpressionTree, IdentifierReferenceTree, IdentifierReferenceTrees,
    PropertyKeyTree, TypeAnnotationTree,
};
use rl_grammar::tree::{Tree, Trees};
use rl_syntax::numbered::At;
use rl_syntax::parts::{flag_of, node_of, text_of};
use rl_syntax::word::Word;

/// A name that is declared (ECMA-262, 13.1). Its type stands with it where one is written. `(bind TEXT TypeAnnotation?)`
#[derive(Clone, Copy)]
pub struct BindingIdentifier<'b> {
    /// Ids and span of the node.
    pub at: At,
    /// The name.
    pub name: &'b Text,
    /// The type, or none.
    pub annotation: Option<TypeAnnotationTree<'b>>,
}

/// A level of a tree of the sort `BindingIdentifier`.
#[tactic(auto, using(rl_grammar::proofs::Viewing::viewing))]
pub fn binding_identifier_view(tree: BindingIdentifierTree<'_>) -> BindingIdentifier<'_>
    ensures { seen_binding_identifier result ≡ syntax tree.entry.tree.now }
{
    let (at, word, parts) = node_of(tree.tree);
    match word {
        Word::Bind => {
            let (name, annotation) = two(parts);
            BindingIdentifier {
                at,
                name: text_of(name),
                annotation: Tree::optional(annotation),
            }
        }
        _ => unreachable!(),
    }
}

/// A type: `TSType`. `names` are the identifiers that it mentions. `(type KIND [IdentifierReference])`
#[derive(Clone, Copy)]
pub struct TypeAnnotation<'b> {
    /// Ids and span of the node.
    pub at: At,
    /// The kind of type: `array`, `primitive` or `other`.
    pub kind: TypeKind,
    /// The identifiers that the type mentions, in order.
    pub names: IdentifierReferenceTrees<'b>,
}

/// A level of a tree of the sort `TypeAnnotation`.
#[tactic(auto, using(rl_grammar::proofs::Viewing::viewing))]
pub fn type_annotation_view(tree: TypeAnnotationTree<'_>) -> TypeAnnotation<'_>
    ensures { seen_type_annotation result ≡ syntax tree.entry.tree.now }
{
    let (at, word, parts) = node_of(tree.tree);
    match word {
        Word::Type => {
            let (kind, names) = two(parts);
            TypeAnnotation {
                at,
                kind: closed_of(kind),
                names: Trees::new(items_of(names)),
            }
        }
        _ => unreachable!(),
    }
}

/// A name that is used (ECMA-262, 13.1). The node has a reference id. `(id TEXT)`
#[derive(Clone, Copy)]
pub struct IdentifierReference<'b> {
    /// Ids and span of the node.
    pub at: At,
    /// The name.
    pub name: &'b Text,
}

/// A level of a tree of the sort `IdentifierReference`.
#[tactic(auto, using(rl_grammar::proofs::Viewing::viewing))]
pub fn identifier_reference_view(tree: IdentifierReferenceTree<'_>) -> IdentifierReference<'_>
    ensures { seen_identifier_reference result ≡ syntax tree.entry.tree.now }
{
    let (at, word, parts) = node_of(tree.tree);
    match word {
        Word::Id => {
            let name = one(parts);
            IdentifierReference {
                at,
                name: text_of(name),
            }
        }
        _ => unreachable!(),
    }
}

/// A binding pattern, the part of a declaration that binds names (ECMA-262, 14.3.3).
#[derive(Clone, Copy)]
pub enum BindingPattern<'b> {
    /// A name.
    Identifier(BindingIdentifierTree<'b>),
    /// An array pattern: `ArrayPattern` (ECMA-262, 14.3.3). `(arraypat [BindingPatternElement] BindingRestElement?)`
    Array {
        /// Ids and span of the node.
        at: At,
        /// The elements before the rest, in order.
        items: BindingPatternElementTrees<'b>,
        /// The rest element, or none.
        rest: Option<BindingRestElementTree<'b>>,
    },
    /// An object pattern: `ObjectPattern` (ECMA-262, 14.3.3). `(objectpat [BindingProperty] BindingRestElement?)`
    Object {
        /// Ids and span of the node.
        at: At,
        /// The properties, in order.
        properties: BindingPropertyTrees<'b>,
        /// The rest element, or none.
        rest: Option<BindingRestElementTree<'b>>,
    },
}

/// A level of a tree of the sort `BindingPattern`.
#[tactic(auto, using(rl_grammar::proofs::Viewing::viewing))]
pub fn binding_pattern_view(tree: BindingPatternTree<'_>) -> BindingPattern<'_>
    ensures { seen_binding_pattern result ≡ syntax tree.entry.tree.now }
{
    let (at, word, parts) = node_of(tree.tree);
    match word {
        Word::Bind => BindingPattern::Identifier(Tree::new(tree.tree)),
        Word::Arraypat => {
            let (items, rest) = two(parts);
            BindingPattern::Array {
                at,
                items: Trees::new(items_of(items)),
                rest: Tree::optional(rest),
            }
        }
        Word::Objectpat => {
            let (properties, rest) = two(parts);
            BindingPattern::Object {
                at,
                properties: Trees::new(items_of(properties)),
                rest: Tree::optional(rest),
            }
        }
        _ => unreachable!(),
    }
}

/// A binding pattern, with a default or without (ECMA-262, 14.3.3).
#[derive(Clone, Copy)]
pub enum BindingPatternMaybeDefault<'b> {
    /// A pattern without a default.
    Pattern(BindingPatternTree<'b>),
    /// A pattern with a default, `a = b`: `AssignmentPattern`. `(defaultpat BindingPattern Expression)`
    Default {
        /// Ids and span of the node.
        at: At,
        /// The names that are bound, a binding pattern.
        pattern: BindingPatternTree<'b>,
        /// The default, an expression.
        default: ExpressionTree<'b>,
    },
}

/// A level of a tree of the sort `BindingPatternMaybeDefault`.
#[tactic(auto, using(rl_grammar::proofs::Viewing::viewing))]
pub fn binding_pattern_maybe_default_view(
    tree: BindingPatternMaybeDefaultTree<'_>,
) -> BindingPatternMaybeDefault<'_>
    ensures { seen_binding_pattern_maybe_default result ≡ syntax tree.entry.tree.now }
{
    let (at, word, parts) = node_of(tree.tree);
    match word {
        Word::Defaultpat => {
            let (pattern, default) = two(parts);
            BindingPatternMaybeDefault::Default {
                at,
                pattern: Tree::new(pattern),
                default: Tree::new(default),
            }
        }
        _ => BindingPatternMaybeDefault::Pattern(Tree::new(tree.tree)),
    }
}

/// An element of an array pattern (ECMA-262, 14.3.3).
#[derive(Clone, Copy)]
pub enum BindingPatternElement<'b> {
    /// A pattern, with a default or without.
    Pattern(BindingPatternMaybeDefaultTree<'b>),
    /// A position that binds nothing. `(hole)`
    Hole {
        /// Ids and span of the node.
        at: At,
    },
}

/// A level of a tree of the sort `BindingPatternElement`.
#[tactic(auto, using(rl_grammar::proofs::Viewing::viewing))]
pub fn binding_pattern_element_view(
    tree: BindingPatternElementTree<'_>,
) -> BindingPatternElement<'_>
    ensures { seen_binding_pattern_element result ≡ syntax tree.entry.tree.now }
{
    let (at, word, parts) = node_of(tree.tree);
    match word {
        Word::Hole => BindingPatternElement::Hole { at },
        _ => BindingPatternElement::Pattern(Tree::new(tree.tree)),
    }
}

/// A property of an object pattern (ECMA-262, 14.3.3). `key: pattern`; `computed` is true of `[key]: pattern`.
/// `(keyedpat FLAG PropertyKey BindingPatternMaybeDefault)`
#[derive(Clone, Copy)]
pub struct BindingProperty<'b> {
    /// Ids and span of the node.
    pub at: At,
    /// True of a computed key, `[key]`.
    pub computed: bool,
    /// The key.
    pub key: PropertyKeyTree<'b>,
    /// The pattern that takes the property's value.
    pub value: BindingPatternMaybeDefaultTree<'b>,
}

/// A level of a tree of the sort `BindingProperty`.
#[tactic(auto, using(rl_grammar::proofs::Viewing::viewing))]
pub fn binding_property_view(tree: BindingPropertyTree<'_>) -> BindingProperty<'_>
    ensures { seen_binding_property result ≡ syntax tree.entry.tree.now }
{
    let (at, word, parts) = node_of(tree.tree);
    match word {
        Word::Keyedpat => {
            let (computed, key, value) = three(parts);
            BindingProperty {
                at,
                computed: flag_of(computed),
                key: Tree::new(key),
                value: Tree::new(value),
            }
        }
        _ => unreachable!(),
    }
}

/// A property's key (ECMA-262, 13.2.5).
#[derive(Clone, Copy)]
pub enum PropertyKey<'b> {
    /// A name that stands for itself: `IdentifierName` (ECMA-262, 12.7.1). `(name TEXT)`
    Name {
        /// Ids and span of the node.
        at: At,
        /// The name.
        name: &'b Text,
    },
    /// A private name: `PrivateIdentifier` (ECMA-262, 12.7). `(private TEXT)`
    Private {
        /// Ids and span of the node.
        at: At,
        /// The name.
        name: &'b Text,
    },
    /// An expression: a literal, or a computed key.
    Expression(ExpressionTree<'b>),
}

/// A level of a tree of the sort `PropertyKey`.
#[tactic(auto, using(rl_grammar::proofs::Viewing::viewing))]
pub fn property_key_view(tree: PropertyKeyTree<'_>) -> PropertyKey<'_>
    ensures { seen_property_key result ≡ syntax tree.entry.tree.now }
{
    let (at, word, parts) = node_of(tree.tree);
    match word {
        Word::Name => {
            let name = one(parts);
            PropertyKey::Name {
                at,
                name: text_of(name),
            }
        }
        Word::Private => {
            let name = one(parts);
            PropertyKey::Private {
                at,
                name: text_of(name),
            }
        }
        _ => PropertyKey::Expression(Tree::new(tree.tree)),
    }
}

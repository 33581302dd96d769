//! The row F44: a `!` that stands below a link, over an optional link.

ghost use Rattle.std.specs.Prelude.{◌≡◌, map};
ghost use Rattle.rl_model.specs.Supported as model;
ghost use Rattle.rl_row_names.specs.Spines as spec;
ghost use Rattle.rl_syntax.specs.Syntax.{pieces_of, syntax};

use rl_code::parts::{only, second};
use rl_row_forms::forms::{first_two, flag_in};
use rl_syntax::numbered::Numbered;
use rl_syntax::word::Word;

/// Role of a node on the spine of a chain.
#[derive(Clone, Copy)]
pub enum Spine {
    /// A member access or a call.
    Link,
    /// `a!`.
    NonNull,
    /// Any other node, at which the spine ends.
    Other,
}

/// The role of the nodes of a word.
fn spine_of(word: Word) -> Spine
    ensures { result ≡ spec.spine_of word }
{
    match word {
        Word::Member => Spine::Link,
        Word::Index => Spine::Link,
        Word::Privatemember => Spine::Link,
        Word::Call => Spine::Link,
        Word::Nonnull => Spine::NonNull,
        _ => Spine::Other,
    }
}

/// True of a link or a `!` on the spine of a chain, with an optional link from there on.
#[cycle(optional)]
#[tactic(auto, using(crate::proofs::Spines::optional_form, rl_syntax::proofs::Layers::by_layer))]
fn has_optional(tree: &Numbered) -> bool
    ensures { result ≡ model.has_optional (syntax tree.now) }
{
    match tree {
        Numbered::Node(_, word, parts) => spine_has_optional(spine_of(*word), parts.as_slice()),
        Numbered::List(_) => false,
        Numbered::Text(_) => false,
        Numbered::Number(_) => false,
        Numbered::Flag(_) => false,
        Numbered::Absent => false,
    }
}

/// As `has_optional`, of a node by its role and its parts.
#[cycle(optional)]
#[tactic(auto, using(rl_row_forms::proofs::Shaped::by_item, rl_row_forms::proofs::Smaller::smaller))]
fn spine_has_optional(spine: Spine, parts: &[Numbered]) -> bool
    ensures { result ≡ spec.spine_has_optional spine (pieces_of (map syntax parts.now)) }
{
    match spine {
        Spine::Link => link_has_optional(parts),
        Spine::NonNull => match only(parts) {
            Some(expression) => has_optional(expression),
            None => false,
        },
        Spine::Other => false,
    }
}

/// As `has_optional`, of a link by its parts.
#[cycle(optional)]
#[tactic(auto, using(crate::proofs::Spines::links, rl_row_forms::proofs::Smaller::smaller))]
fn link_has_optional(parts: &[Numbered]) -> bool
    ensures { result ≡ spec.link_has_optional (pieces_of (map syntax parts.now)) }
{
    match first_two(parts) {
        Some((flag, object)) => flagged_has_optional(flag, object),
        None => false,
    }
}

/// As `has_optional`, of a link by its flag, and by its object or callee.
#[cycle(optional)]
#[tactic(auto, using(rl_row_forms::proofs::Shaped::by_item))]
fn flagged_has_optional(flag: &Numbered, object: &Numbered) -> bool
    ensures { result ≡ spec.flagged_has_optional (syntax flag.now) (syntax object.now) }
{
    match flag_in(flag) {
        Some(optional) => optional || has_optional(object),
        None => false,
    }
}

/// True of the spine of a chain on which no `!` that stands below a link has an optional link on its own spine; `below` is true below
/// a link.
#[cycle(breaking)]
#[tactic(auto, using(crate::proofs::Spines::unbroken_form, rl_syntax::proofs::Layers::by_layer))]
fn is_unbroken(below: bool, tree: &Numbered) -> bool
    ensures { result ≡ model.is_unbroken below (syntax tree.now) }
{
    match tree {
        Numbered::Node(_, word, parts) => {
            spine_is_unbroken(below, spine_of(*word), parts.as_slice())
        }
        Numbered::List(_) => true,
        Numbered::Text(_) => true,
        Numbered::Number(_) => true,
        Numbered::Flag(_) => true,
        Numbered::Absent => true,
    }
}

/// As `is_unbroken`, of a node by its role and its parts.
#[cycle(breaking)]
#[tactic(auto, using(rl_row_forms::proofs::Shaped::by_item, rl_row_forms::proofs::Smaller::smaller))]
fn spine_is_unbroken(below: bool, spine: Spine, parts: &[Numbered]) -> bool
    ensures { result ≡ spec.spine_is_unbroken below spine (pieces_of (map syntax parts.now)) }
{
    match spine {
        Spine::Link => match second(parts) {
            Some(object) => is_unbroken(true, object),
            None => true,
        },
        Spine::NonNull => match only(parts) {
            Some(expression) => nonnull_is_clear(below, expression),
            None => true,
        },
        Spine::Other => true,
    }
}

/// As `is_unbroken`, of a `!` by its expression.
#[cycle(breaking)]
fn nonnull_is_clear(below: bool, expression: &Numbered) -> bool
    ensures { result ≡ spec.clear_nonnull below (syntax expression.now) }
{
    !(below && has_optional(expression)) && is_unbroken(below, expression)
}

/// True of a chain to which the row does not apply, by its parts.
#[tactic(auto, using(rl_row_forms::proofs::Shaped::by_item))]
fn chain_is_whole(parts: &[Numbered]) -> bool
    ensures { result ≡ spec.node_is_whole Word.Chain (pieces_of (map syntax parts.now)) }
{
    match only(parts) {
        Some(expression) => is_unbroken(false, expression),
        None => true,
    }
}

/// True of a node to which the row does not apply, by its word.
fn node_is_whole(word: Word, parts: &[Numbered]) -> bool
    ensures { result ≡ spec.node_is_whole word (pieces_of (map syntax parts.now)) }
{
    match word {
        Word::Chain => chain_is_whole(parts),
        _ => true,
    }
}

/// True of a node to which the row F44 does not apply.
#[tactic(auto, using(crate::proofs::Spines::whole_form, rl_syntax::proofs::Layers::by_layer))]
pub fn is_whole_chain(node: &Numbered) -> bool
    ensures { result ≡ model.is_whole_chain (syntax node.now) }
{
    match node {
        Numbered::Node(_, word, parts) => node_is_whole(*word, parts.as_slice()),
        Numbered::List(_) => true,
        Numbered::Text(_) => true,
        Numbered::Number(_) => true,
        Numbered::Flag(_) => true,
        Numbered::Absent => true,
    }
}

//! Rule B6: optional links and the chains around them.

ghost use Rattle.std.specs.Prelude.{◌≡◌, map};
ghost use Rattle.rl_rules.specs.Chains as spec;
ghost use Rattle.rl_syntax.specs.Syntax.{pieces_of, syntax};

use crate::pieces::{first_is_yes, is_yes};
use crate::walk::{Rule, passes};
use rl_syntax::numbered::Numbered;
use rl_syntax::word::Word;

/// The role of a node in a chain (ECMA-262, 13.3.9).
#[derive(Clone, Copy)]
enum Role {
    /// A chain, around its last link.
    Chain,
    /// A member access or a call.
    Link,
    /// `a!`, which stands around a link.
    NonNull,
    /// Any other node.
    Other,
}

/// The role of the nodes of a word.
#[inline(always)]
fn role_of(word: Word) -> Role
    ensures { result ≡ spec.role_of word }
{
    match word {
        Word::Chain => Role::Chain,
        Word::Member => Role::Link,
        Word::Index => Role::Link,
        Word::Privatemember => Role::Link,
        Word::Call => Role::Link,
        Word::Nonnull => Role::NonNull,
        _ => Role::Other,
    }
}

/// True of a link or `nonnull` whose spine has an optional link.
#[cycle(optional)]
#[tactic(auto, using(rl_syntax::proofs::Layers::by_layer))]
fn has_optional(tree: &Numbered) -> bool
    ensures { result ≡ spec.has_optional (syntax tree.now) }
{
    match tree {
        Numbered::Node(_, word, parts) => spine_has_optional(role_of(*word), parts.as_slice()),
        Numbered::List(_) => false,
        Numbered::Text(_) => false,
        Numbered::Number(_) => false,
        Numbered::Flag(_) => false,
        Numbered::Absent => false,
    }
}

/// As `has_optional`, for a node by its role and its parts.
#[cycle(optional)]
fn spine_has_optional(role: Role, parts: &[Numbered]) -> bool
    ensures { result ≡ spec.spine_has_optional role (pieces_of (map syntax parts.now)) }
{
    match role {
        Role::Chain => false,
        Role::Link => match parts {
            [] => false,
            [optional, parts @ ..] => is_yes(optional) || first_has_optional(parts),
        },
        Role::NonNull => match parts {
            [] => false,
            [expression, _parts @ ..] => has_optional(expression),
        },
        Role::Other => false,
    }
}

/// As `has_optional`, for the first of some parts. False if there is none.
#[cycle(optional)]
fn first_has_optional(parts: &[Numbered]) -> bool
    ensures { result ≡ spec.first_has_optional (pieces_of (map syntax parts.now)) }
{
    match parts {
        [] => false,
        [part, _parts @ ..] => has_optional(part),
    }
}

/// Rule B6. The context of a node is true on the spine of a chain.
pub(crate) struct Chains;

impl Rule for Chains {
    type Above = bool;

    ghost test = { spec.link_fits };

    ghost below = { spec.spine_below };

    #[inline(always)]
    fn test(spine: bool, word: Word, parts: &[Numbered]) -> bool {
        match role_of(word) {
            Role::Chain => first_has_optional(parts),
            Role::Link => spine || !first_is_yes(parts),
            Role::NonNull => true,
            Role::Other => true,
        }
    }

    #[inline(always)]
    fn below(spine: bool, word: Word, index: usize) -> bool {
        match role_of(word) {
            Role::Chain => true,
            Role::Link => spine && index == 1,
            Role::NonNull => spine,
            Role::Other => false,
        }
    }
}

/// Rule B6: true of a tree whose optional links all stand on the spine of a chain, and whose chains each have an optional link on
/// their spine. The spine of a chain starts at its expression, and goes on in the object or callee of a member access or call,
/// and in the part of `nonnull`; so it never enters another chain.
pub fn keeps_chains(tree: &Numbered) -> bool
    ensures { result ≡ spec.keeps_chains (syntax tree.now) }
{
    passes::<Chains>(false, tree)
}

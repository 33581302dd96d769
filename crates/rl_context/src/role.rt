//! Roles of nodes: all that the sites of a function know of the grammar.

ghost use Rattle.std.specs.Prelude.{◌≡◌};
ghost use Rattle.rl_context.specs.Even as even;
ghost use Rattle.rl_context.specs.Roles as spec;

use crate::site::{NodeRange, Wrapper};
use rl_base::ids::NodeId;
use rl_base::span::Span;
use rl_syntax::numbered::At;
use rl_syntax::word::Word;

/// Role of a node.
#[derive(Clone, Copy)]
pub enum Role {
    /// Uses a name: `id`.
    Reference,
    /// Declares a name: `bind`.
    Declaration,
    /// Wraps an expression.
    Wrapper(Wrapper),
    /// A class, whose names and members are no sites of the functions around it.
    Class,
    /// Any other role.
    Plain,
}

/// Assignment that a node is a target of.
#[derive(Clone, Copy)]
pub enum Target {
    /// None: the node is no target.
    Nothing,
    /// This `assign` node.
    Assignment(NodeId),
    /// An `update`.
    Update,
}

/// Summary of the nodes above a node, those inside the function.
#[derive(Clone, Copy)]
pub struct Above {
    /// True inside a type, and for a type argument of an `instantiate`.
    pub in_type: bool,
    /// The span of the opening tag whose element the node names.
    pub opening: Option<Span>,
    /// The nodes of the innermost inner function around the node.
    pub function: Option<NodeRange>,
    /// The assignment that the node is a target of.
    pub target: Target,
}

/// The summary for the parts of the function itself, above which nothing counts.
pub(crate) fn top() -> Above
    ensures { result ≡ spec.top }
{
    Above {
        in_type: false,
        opening: None,
        function: None,
        target: Target::Nothing,
    }
}

/// The role of the nodes of a word.
pub(crate) fn role_of(word: Word) -> Role
    ensures { result ≡ spec.role_of word }
{
    match word {
        Word::Id => Role::Reference,
        Word::Bind => Role::Declaration,
        Word::As => Role::Wrapper(Wrapper::As),
        Word::Satisfies => Role::Wrapper(Wrapper::Satisfies),
        Word::Assert => Role::Wrapper(Wrapper::Assert),
        Word::Nonnull => Role::Wrapper(Wrapper::NonNull),
        Word::Classdecl => Role::Class,
        Word::Classexpr => Role::Class,
        _ => Role::Plain,
    }
}

/// True of the words of nodes that make a function: functions, and the methods, getters and setters of objects.
fn makes_function(word: Word) -> bool
    ensures { result ≡ spec.makes_function word }
{
    match word {
        Word::Arrow => true,
        Word::Fundecl => true,
        Word::Funexpr => true,
        Word::Method => true,
        Word::Get => true,
        Word::Set => true,
        _ => false,
    }
}

/// True in the part at an index of a node that is a type, or holds type arguments.
fn type_below(in_type: bool, word: Word, index: usize) -> bool
    ensures { result ≡ spec.type_below in_type word index }
{
    match word {
        Word::Type => true,
        Word::Instantiate => index == 1,
        _ => in_type,
    }
}

/// The span of the opening tag whose element the part at an index of a node names.
fn opening_below(opening: Option<Span>, at: At, word: Word, index: usize) -> Option<Span>
    ensures { result ≡ spec.opening_below opening at word index }
{
    match word {
        Word::Opening => { if index == 0 { Some(at.span) } else { None } }
        Word::Tagmember => opening,
        _ => None,
    }
}

/// The nodes of the innermost inner function around the parts of a node.
fn function_below(function: Option<NodeRange>, at: At, word: Word) -> Option<NodeRange>
    ensures { result ≡ spec.function_below function at word }
{
    if makes_function(word) {
        Some(NodeRange {
            start: at.id,
            end: at.end,
        })
    } else {
        function
    }
}

/// `target` for the part at the index `wanted`, no target for any other.
fn only_at(target: Target, wanted: usize, index: usize) -> Target
    ensures { result ≡ spec.only_at target wanted index }
{
    if index == wanted {
        target
    } else {
        Target::Nothing
    }
}

/// The assignment that the part at an index of a node is a target of.
fn target_below(target: Target, at: At, word: Word, index: usize) -> Target
    ensures { result ≡ spec.target_below target at word index }
{
    match word {
        Word::Assign => only_at(Target::Assignment(at.id), 1, index),
        Word::Update => only_at(Target::Update, 2, index),
        Word::Arraytarget => target,
        Word::Objecttarget => target,
        Word::Rest => target,
        Word::Short => only_at(target, 0, index),
        Word::Default => only_at(target, 0, index),
        Word::Keyed => only_at(target, 2, index),
        _ => Target::Nothing,
    }
}

/// True of the words of nodes whose parts all have the same summary: that of the node, but that none of them names an element or is
/// a target.
#[inline(always)]
pub(crate) fn is_even(word: Word) -> bool
    ensures { result ≡ even.is_even word }
{
    match word {
        Word::Arrow => false,
        Word::Fundecl => false,
        Word::Funexpr => false,
        Word::Method => false,
        Word::Get => false,
        Word::Set => false,
        Word::Type => false,
        Word::Instantiate => false,
        Word::Opening => false,
        Word::Tagmember => false,
        Word::Assign => false,
        Word::Update => false,
        Word::Arraytarget => false,
        Word::Objecttarget => false,
        Word::Rest => false,
        Word::Short => false,
        Word::Default => false,
        Word::Keyed => false,
        _ => true,
    }
}

/// The summary for the parts of such a node.
#[inline(always)]
pub(crate) fn even_below(above: Above) -> Above
    ensures { result ≡ even.even_below above }
{
    Above {
        opening: None,
        target: Target::Nothing,
        ..above
    }
}

/// The summary for the part at an index of a node.
pub(crate) fn below(above: Above, at: At, word: Word, index: usize) -> Above
    ensures { result ≡ spec.below above at word index }
{
    Above {
        in_type: type_below(above.in_type, word, index),
        opening: opening_below(above.opening, at, word, index),
        function: function_below(above.function, at, word),
        target: target_below(above.target, at, word, index),
    }
}

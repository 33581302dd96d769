//! Sites of a function: what stands in it that names a variable, and the targets that cannot be assigned.

ghost use Rattle.std.specs.Prelude.{◌≡◌, is_some};

use rl_base::ids::{NodeId, ReferenceId};
use rl_base::span::Span;

/// Entry of a reference in the index of a function: `IdentEntry` of the original.
#[derive(Clone, Copy, Debug, PartialEq, Eq)]
pub struct IdentEntry {
    /// The span of the `id` node, a half-open byte range in the unit's text.
    pub span: Span,
    /// True inside a type, and for a type argument of an `instantiate`.
    pub in_type_annotation: bool,
    /// For the tag of a JSX element, and for the innermost object of a tag that is a member: the span of the opening tag. `None`
    /// for any other reference.
    pub opening_element_span: Option<Span>,
}

impl IdentEntry {
    /// True of the tag of a JSX element, and of the innermost object of a tag that is a member.
    pub fn is_jsx(&self) -> bool
        ensures { result ≡ is_some self.now.opening_element_span }
    {
        self.opening_element_span.is_some()
    }
}

/// Half-open range of node ids: those of a node and of all nodes inside it.
#[derive(Clone, Copy, Debug, PartialEq, Eq)]
pub struct NodeRange {
    /// The id of the node.
    pub start: NodeId,
    /// The id behind those of its subtree.
    pub end: NodeId,
}

/// Wrapper around an expression that is assigned, which the lowering does not look through.
#[derive(Clone, Copy, Debug, PartialEq, Eq)]
pub enum Wrapper {
    /// `a as T`.
    As,
    /// `a satisfies T`.
    Satisfies,
    /// `<T>a`.
    Assert,
    /// `a!`.
    NonNull,
}

/// Reference of a function: an `id` node.
#[derive(Clone, Copy, Debug)]
pub struct ReferenceSite {
    /// The id of the reference.
    pub reference: ReferenceId,
    /// Its entry in the index.
    pub entry: IdentEntry,
    /// The nodes of the innermost inner function that the reference stands in. `None` outside inner functions.
    pub function: Option<NodeRange>,
    /// True of a target of an `assign` or `update`.
    pub assigned: bool,
}

/// Wrapped target of an `assign`.
#[derive(Clone, Copy, Debug)]
pub struct WrappedSite {
    /// The `assign` node whose target holds it.
    pub assignment: NodeId,
    /// The kind of wrapper.
    pub wrapper: Wrapper,
    /// The span of the wrapper, a half-open byte range in the unit's text.
    pub span: Span,
}

/// Site of a function.
#[derive(Clone, Copy, Debug)]
pub enum Site {
    /// An `id` node.
    Reference(ReferenceSite),
    /// A `bind` node.
    Declaration(NodeId),
    /// A target that is wrapped.
    Wrapped(WrappedSite),
}

//! Nodes that the rules on names look at.

use rl_base::ids::{NodeId, ScopeId};
use rl_syntax::numbered::At;

/// An `id` node outside types.
#[derive(Clone, Copy)]
pub struct UseSite {
    /// Its ids and its span.
    pub at: At,
    /// The innermost function around it. The unit's node outside functions.
    pub function: NodeId,
}

/// A `bind` node of a declaration of `let`, `const`, `using` or a class that stands directly in a list of statements.
#[derive(Clone, Copy)]
pub struct LateSite {
    /// The `bind` node.
    pub bind: NodeId,
    /// The first statement of the list.
    pub first: NodeId,
    /// The statement that declares the name.
    pub statement: NodeId,
    /// The innermost function around the list. The unit's node outside functions.
    pub function: NodeId,
}

/// The `bind` node of the name of a function declaration with a body.
#[derive(Clone, Copy)]
pub struct NamedSite {
    /// Its ids and its span.
    pub bind: At,
    /// The scope that the function makes.
    pub scope: ScopeId,
}

/// A node that the rules on names look at.
#[derive(Clone, Copy)]
pub enum Site {
    /// A use of a name.
    Use(UseSite),
    /// A declaration that is in force from its statement on.
    Late(LateSite),
    /// A function declaration's name.
    Named(NamedSite),
}

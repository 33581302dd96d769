//! Events of names: the scopes that open and close, and the names that are declared and used, in the order of the text.

use rl_base::ids::{NodeId, ScopeId};
use rl_base::span::Span;

/// A way to declare a name: the declaration that a `bind` node stands in.
#[derive(Clone, Copy, Debug, PartialEq, Eq)]
pub enum BindKind {
    /// `var` (ECMA-262, 14.3.2).
    Var,
    /// `let` (ECMA-262, 14.3.1).
    Let,
    /// `const` (ECMA-262, 14.3.1), `using` or `await using`.
    Const,
    /// A parameter of a function (ECMA-262, 15.1).
    Param,
    /// The parameter of a `catch` clause (ECMA-262, 14.15).
    Catch,
    /// A function declaration's name (ECMA-262, 15.2).
    FunctionDeclaration,
    /// A function expression's own name (ECMA-262, 15.2.5).
    FunctionExpression,
    /// A class declaration's name (ECMA-262, 15.7).
    ClassDeclaration,
    /// A class expression's own name (ECMA-262, 15.7).
    ClassExpression,
    /// The default export of a module, imported (ECMA-262, 16.2.2).
    ImportDefault,
    /// All exports of a module as one object, imported (ECMA-262, 16.2.2).
    ImportNamespace,
    /// An export of a module by its name, imported (ECMA-262, 16.2.2).
    ImportNamed,
    /// A type alias.
    TypeAlias,
    /// An interface.
    Interface,
    /// An enum.
    Enum,
    /// A namespace.
    Namespace,
}

/// The list that a node stands in.
#[derive(Clone, Copy, Debug, PartialEq, Eq)]
pub enum Place {
    /// The program's list of statements.
    Program,
    /// The list of statements of a function's body or a class's static block.
    Body,
    /// The list of an import.
    Import,
    /// Any other list, or none.
    Inner,
}

/// The kind of a scope, by the node that makes it: `ScopeKind` of the original.
#[derive(Clone, Copy, Debug, PartialEq, Eq)]
pub enum ScopeKind {
    /// The program.
    Program,
    /// A function: its parameters and its body.
    Function,
    /// A block.
    Block,
    /// A `for`, `for`-`in` or `for`-`of` statement.
    For,
    /// A class, or a static block of one.
    Class,
    /// The clauses of a `switch` statement.
    Switch,
    /// A `catch` clause: its parameter and its block.
    Catch,
}

/// A scope, by the node that makes it.
#[derive(Clone, Copy)]
pub struct ScopeEntry {
    /// The node that makes the scope.
    pub node: NodeId,
    /// The kind of the scope.
    pub kind: ScopeKind,
    /// The scope around it. `None` for the program's scope.
    pub parent: Option<ScopeId>,
}

/// A declaration of a name: a `bind` node.
#[derive(Clone, Copy)]
pub struct Bound {
    /// The `bind` node.
    pub node: NodeId,
    /// Its span, a half-open byte range in the unit's text.
    pub span: Span,
    /// The number of the name: its index in the unit's names.
    pub name: u32,
    /// The scope that the name is bound in.
    pub scope: ScopeId,
    /// The kind of the declaration.
    pub kind: BindKind,
    /// The list that the declaration stands in, for a declaration of a function or a namespace.
    pub place: Place,
}

/// An event of names at a point of the unit's text.
#[derive(Clone, Copy)]
pub enum Event {
    /// A node that makes a scope opens.
    Scope(ScopeEntry),
    /// A scope begins: names resolve in it first, until it ends.
    Open(ScopeId),
    /// The innermost scope ends.
    Close,
    /// A name is declared.
    Bind(Bound),
    /// The `id` node uses the name with this number.
    Use(NodeId, u32),
}

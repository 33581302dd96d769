//! Roles of nodes in the binding of names: all that it knows of the grammar.

ghost use Rattle.std.specs.Prelude.{◌≡◌, ◌∷◌, [], map};
ghost use Rattle.rl_bindings.specs.Names.{said};
ghost use Rattle.rl_bindings.specs.Roles.{below, outside, parent_of, parts_ahead, role_of, scope_kind, scope_of, text_kind, var_kind, namespace_kind};
ghost use Rattle.rl_syntax.specs.Syntax.{pieces_of, syntax};

use crate::event::{BindKind, Place, ScopeKind};
use crate::names::said;
use rl_base::ids::ScopeId;
use rl_syntax::numbered::{At, Numbered};
use rl_syntax::word::Word;

/// A node's role in the binding of names.
#[derive(Clone, Copy)]
pub enum Role {
    /// Makes a scope.
    Maker,
    /// Declares a name: `bind`.
    Binder,
    /// Uses a name: `id`.
    User,
    /// Neither.
    Plain,
}

/// A summary of the nodes above a node.
#[derive(Clone, Copy)]
pub struct Above {
    /// The innermost scope.
    pub scope: ScopeId,
    /// The innermost scope that takes `var`: that of a function, a static block or the program.
    pub function: ScopeId,
    /// The kind of declaration that a `bind` node here is.
    pub kind: BindKind,
    /// The list that the node stands in.
    pub place: Place,
}

/// The role of the nodes of a word.
pub fn role_of(word: Word) -> Role
    ensures { result ≡ role_of word }
{
    match word {
        Word::Program => Role::Maker,
        Word::Arrow => Role::Maker,
        Word::Fundecl => Role::Maker,
        Word::Funexpr => Role::Maker,
        Word::Block => Role::Maker,
        Word::For => Role::Maker,
        Word::Forin => Role::Maker,
        Word::Forof => Role::Maker,
        Word::Switch => Role::Maker,
        Word::Catch => Role::Maker,
        Word::Classdecl => Role::Maker,
        Word::Classexpr => Role::Maker,
        Word::Static => Role::Maker,
        Word::Bind => Role::Binder,
        Word::Id => Role::User,
        _ => Role::Plain,
    }
}

/// Number of parts of a node that stand before the scope that it makes.
pub fn parts_ahead(word: Word) -> usize
    ensures { result ≡ parts_ahead word }
{
    match word {
        Word::Switch => 1,
        Word::Classdecl => 1,
        Word::Fundecl => 4,
        _ => 0,
    }
}

/// The kind of the scope that a node of the word makes.
pub fn scope_kind(word: Word) -> ScopeKind
    ensures { result ≡ scope_kind word }
{
    match word {
        Word::Program => ScopeKind::Program,
        Word::Arrow => ScopeKind::Function,
        Word::Fundecl => ScopeKind::Function,
        Word::Funexpr => ScopeKind::Function,
        Word::For => ScopeKind::For,
        Word::Forin => ScopeKind::For,
        Word::Forof => ScopeKind::For,
        Word::Switch => ScopeKind::Switch,
        Word::Catch => ScopeKind::Catch,
        Word::Classdecl => ScopeKind::Class,
        Word::Classexpr => ScopeKind::Class,
        Word::Static => ScopeKind::Class,
        _ => ScopeKind::Block,
    }
}

/// The scope around the one that a node of the word makes. `None` for the program's.
pub fn parent_of(above: Above, word: Word) -> Option<ScopeId>
    ensures { result ≡ parent_of above word }
{
    match word {
        Word::Program => None,
        _ => Some(above.scope),
    }
}

/// The scope that a `bind` node binds its name in.
pub fn scope_of(above: Above) -> ScopeId
    ensures { result ≡ scope_of above }
{
    match above.kind {
        BindKind::Var => above.function,
        _ => above.scope,
    }
}

/// The kind of declaration that `text` begins: `var`, `let`, or one of constants.
fn text_kind(text: &str) -> BindKind
    ensures { result ≡ text_kind text.now }
{
    if text == "var" {
        BindKind::Var
    } else if text == "let" {
        BindKind::Let
    } else {
        BindKind::Const
    }
}

/// The kind of declaration that a `var` node with these parts is.
fn var_kind(parts: &[Numbered]) -> BindKind
    ensures { result ≡ var_kind (pieces_of (map syntax parts.now)) }
{
    match said(parts) {
        Some(text) => text_kind(text.as_str()),
        None => BindKind::Const,
    }
}

/// The kind of declaration that a `namespace` node is: an import's, or a statement.
fn namespace_kind(place: Place) -> BindKind
    ensures { result ≡ namespace_kind place }
{
    match place {
        Place::Import => BindKind::ImportNamespace,
        _ => BindKind::Namespace,
    }
}

/// The summary for those parts of a node that stand before the scope that it makes.
pub fn outside(above: Above, word: Word) -> Above
    ensures { result ≡ outside above word }
{
    match word {
        Word::Fundecl => Above {
            kind: BindKind::FunctionDeclaration,
            ..above
        },
        Word::Classdecl => Above {
            kind: BindKind::ClassDeclaration,
            ..above
        },
        _ => Above {
            place: Place::Inner,
            ..above
        },
    }
}

/// The summary for the parts of a node, those before its scope aside.
pub fn below(above: Above, at: At, word: Word, parts: &[Numbered]) -> Above
    ensures { result ≡ below above at word (pieces_of (map syntax parts.now)) }
{
    let inner = Above {
        place: Place::Inner,
        ..above
    };
    match word {
        Word::Program => Above {
            scope: at.scope,
            function: at.scope,
            place: Place::Program,
            ..above
        },
        Word::Static => Above {
            scope: at.scope,
            function: at.scope,
            place: Place::Body,
            ..above
        },
        Word::Arrow => Above {
            scope: at.scope,
            function: at.scope,
            ..inner
        },
        Word::Fundecl => Above {
            scope: at.scope,
            function: at.scope,
            ..inner
        },
        Word::Funexpr => Above {
            scope: at.scope,
            function: at.scope,
            kind: BindKind::FunctionExpression,
            ..inner
        },
        Word::Classexpr => Above {
            scope: at.scope,
            kind: BindKind::ClassExpression,
            ..inner
        },
        Word::Catch => Above {
            scope: at.scope,
            kind: BindKind::Catch,
            ..inner
        },
        Word::Classdecl => Above {
            scope: at.scope,
            ..inner
        },
        Word::Block => Above {
            scope: at.scope,
            ..inner
        },
        Word::For => Above {
            scope: at.scope,
            ..inner
        },
        Word::Forin => Above {
            scope: at.scope,
            ..inner
        },
        Word::Forof => Above {
            scope: at.scope,
            ..inner
        },
        Word::Switch => Above {
            scope: at.scope,
            ..inner
        },
        Word::Body => Above {
            place: Place::Body,
            ..above
        },
        Word::Params => Above {
            kind: BindKind::Param,
            ..inner
        },
        Word::Var => Above {
            kind: var_kind(parts),
            ..inner
        },
        Word::Import => Above {
            place: Place::Import,
            ..above
        },
        Word::Default => Above {
            kind: BindKind::ImportDefault,
            ..inner
        },
        Word::Named => Above {
            kind: BindKind::ImportNamed,
            ..inner
        },
        Word::Namespace => Above {
            kind: namespace_kind(above.place),
            ..above
        },
        Word::Typealias => Above {
            kind: BindKind::TypeAlias,
            ..inner
        },
        Word::Interface => Above {
            kind: BindKind::Interface,
            ..inner
        },
        Word::Enum => Above {
            kind: BindKind::Enum,
            ..inner
        },
        _ => inner,
    }
}

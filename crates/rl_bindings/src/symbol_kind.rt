//! Kinds of symbols, by their first declaration.

ghost use Rattle.std.specs.Prelude.{◌≡◌};
ghost use Rattle.rl_bindings.specs.DeclarationNames.{decl_name};
ghost use Rattle.rl_bindings.specs.SymbolKinds as kinds;

use crate::event::BindKind;

/// The kind of a binding, by the symbol's first declaration: `BindingKind` of the original.
#[derive(Clone, Copy, Debug, PartialEq, Eq)]
pub enum BindingKind {
    /// A variable of `var`.
    Var,
    /// A variable of `let`, or a `catch` parameter.
    Let,
    /// A variable of `const`, `using` or `await using`.
    Const,
    /// A parameter.
    Param,
    /// An import.
    Module,
    /// A function declaration.
    Hoisted,
    /// A function expression's own name, a class, a type alias, an enum or a namespace.
    Local,
    /// An interface.
    Unknown,
}

/// The kind of a symbol's first declaration: `DeclKind` of the original.
#[derive(Clone, Copy, Debug, PartialEq, Eq)]
pub enum DeclKind {
    /// A name alone. No declaration of a unit is one.
    BindingIdentifier,
    /// A declarator of variables.
    VariableDeclarator,
    /// A function declaration.
    FunctionDeclaration,
    /// A function expression.
    FunctionExpression,
    /// A class declaration.
    ClassDeclaration,
    /// A class expression.
    ClassExpression,
    /// A parameter.
    FormalParameter,
    /// An import of an export by its name.
    ImportSpecifier,
    /// An import of the default export.
    ImportDefaultSpecifier,
    /// An import of all exports as one object.
    ImportNamespaceSpecifier,
    /// A `catch` clause.
    CatchClause,
    /// A type alias.
    TSTypeAliasDeclaration,
    /// An enum.
    TSEnumDeclaration,
    /// A namespace.
    TSModuleDeclaration,
    /// An interface.
    Unknown,
}

impl BindKind {
    /// The kind of the binding of a symbol whose first declaration is of this kind.
    pub fn binding_kind(self) -> BindingKind
        ensures { result ≡ kinds.binding_kind self }
    {
        match self {
            BindKind::Var => BindingKind::Var,
            BindKind::Let => BindingKind::Let,
            BindKind::Const => BindingKind::Const,
            BindKind::Param => BindingKind::Param,
            BindKind::Catch => BindingKind::Let,
            BindKind::FunctionDeclaration => BindingKind::Hoisted,
            BindKind::FunctionExpression => BindingKind::Local,
            BindKind::ClassDeclaration => BindingKind::Local,
            BindKind::ClassExpression => BindingKind::Local,
            BindKind::ImportDefault => BindingKind::Module,
            BindKind::ImportNamespace => BindingKind::Module,
            BindKind::ImportNamed => BindingKind::Module,
            BindKind::TypeAlias => BindingKind::Local,
            BindKind::Interface => BindingKind::Unknown,
            BindKind::Enum => BindingKind::Local,
            BindKind::Namespace => BindingKind::Local,
        }
    }

    /// The kind of a declaration of this kind, in the words of the original.
    pub fn decl_kind(self) -> DeclKind
        ensures { result ≡ kinds.decl_kind self }
    {
        match self {
            BindKind::Var => DeclKind::VariableDeclarator,
            BindKind::Let => DeclKind::VariableDeclarator,
            BindKind::Const => DeclKind::VariableDeclarator,
            BindKind::Param => DeclKind::FormalParameter,
            BindKind::Catch => DeclKind::CatchClause,
            BindKind::FunctionDeclaration => DeclKind::FunctionDeclaration,
            BindKind::FunctionExpression => DeclKind::FunctionExpression,
            BindKind::ClassDeclaration => DeclKind::ClassDeclaration,
            BindKind::ClassExpression => DeclKind::ClassExpression,
            BindKind::ImportDefault => DeclKind::ImportDefaultSpecifier,
            BindKind::ImportNamespace => DeclKind::ImportNamespaceSpecifier,
            BindKind::ImportNamed => DeclKind::ImportSpecifier,
            BindKind::TypeAlias => DeclKind::TSTypeAliasDeclaration,
            BindKind::Interface => DeclKind::Unknown,
            BindKind::Enum => DeclKind::TSEnumDeclaration,
            BindKind::Namespace => DeclKind::TSModuleDeclaration,
        }
    }
}

impl DeclKind {
    /// The name of the kind, which is the variant's own name: `as_str` of the original.
    pub fn as_str(self) -> &'static str
        ensures { result.now ≡ decl_name self }
    {
        match self {
            DeclKind::BindingIdentifier => "BindingIdentifier",
            DeclKind::VariableDeclarator => "VariableDeclarator",
            DeclKind::FunctionDeclaration => "FunctionDeclaration",
            DeclKind::FunctionExpression => "FunctionExpression",
            DeclKind::ClassDeclaration => "ClassDeclaration",
            DeclKind::ClassExpression => "ClassExpression",
            DeclKind::FormalParameter => "FormalParameter",
            DeclKind::ImportSpecifier => "ImportSpecifier",
            DeclKind::ImportDefaultSpecifier => "ImportDefaultSpecifier",
            DeclKind::ImportNamespaceSpecifier => "ImportNamespaceSpecifier",
            DeclKind::CatchClause => "CatchClause",
            DeclKind::TSTypeAliasDeclaration => "TSTypeAliasDeclaration",
            DeclKind::TSEnumDeclaration => "TSEnumDeclaration",
            DeclKind::TSModuleDeclaration => "TSModuleDeclaration",
            DeclKind::Unknown => "Unknown",
        }
    }
}

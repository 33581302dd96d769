//! Kinds of declarations, and words of nodes, that markers ask for.

ghost use Rattle.std.specs.Prelude.{◌≡◌};
ghost use Rattle.rl_context.specs.Roles as roles;
ghost use Rattle.rl_model.specs.Hoisting as model;
ghost use Rattle.rl_markers.specs.Uses as spec;

use rl_bindings::event::BindKind;
use rl_syntax::word::Word;

/// True of the kinds of variables that get markers.
pub fn is_hoistable(kind: BindKind) -> bool
    ensures { result ≡ model.is_hoistable kind }
{
    match kind {
        BindKind::Var => true,
        BindKind::Let => true,
        BindKind::Const => true,
        BindKind::Catch => true,
        BindKind::FunctionDeclaration => true,
        _ => false,
    }
}

/// True of a function declaration.
pub fn is_hoisted_kind(kind: BindKind) -> bool
    ensures { result ≡ model.is_hoisted_kind kind }
{
    match kind {
        BindKind::FunctionDeclaration => true,
        _ => false,
    }
}

/// True of the words of nodes that make a function: functions, and the methods, getters and setters of objects.
pub fn makes_function(word: Word) -> bool
    ensures { result ≡ roles.makes_function word }
{
    match word {
        Word::Arrow => true,
        Word::Fundecl => true,
        Word::Funexpr => true,
        Word::Method => true,
        Word::Get => true,
        Word::Set => true,
        _ => false,
    }
}

/// True of the words of `var` and `let` statements, and of declarations of classes and functions.
pub fn is_declaration(word: Word) -> bool
    ensures { result ≡ model.is_declaration word }
{
    match word {
        Word::Var => true,
        Word::Classdecl => true,
        Word::Fundecl => true,
        _ => false,
    }
}

/// True of the word of a name that is used.
pub fn is_id(word: Word) -> bool
    ensures { result ≡ spec.is_id word }
{
    match word {
        Word::Id => true,
        _ => false,
    }
}

/// True of the words of classes.
pub fn is_class(word: Word) -> bool
    ensures { result ≡ spec.is_class word }
{
    match word {
        Word::Classdecl => true,
        Word::Classexpr => true,
        _ => false,
    }
}

/// True of the word of an opening tag.
pub fn is_opening(word: Word) -> bool
    ensures { result ≡ spec.is_opening word }
{
    match word {
        Word::Opening => true,
        _ => false,
    }
}

/// True of the word of a function declaration.
pub fn is_fundecl(word: Word) -> bool
    ensures { result ≡ spec.is_fundecl word }
{
    match word {
        Word::Fundecl => true,
        _ => false,
    }
}

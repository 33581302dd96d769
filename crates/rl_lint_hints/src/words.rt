//! The words of functions and labelled statements, and the kinds of declarations that are in force before they stand.

ghost use Rattle.std.specs.Prelude.{◌≡◌};
ghost use Rattle.rl_lint_hints.specs.Hints.{is_declaration_word, is_labeled_word};
ghost use Rattle.rl_resolver.specs.Inside.{is_function_word};

use rl_bindings::event::BindKind;
use rl_syntax::word::Word;

/// True of the words of functions.
pub fn is_function(word: Word) -> bool
    ensures { result ≡ is_function_word word }
{
    match word {
        Word::Arrow => true,
        Word::Fundecl => true,
        Word::Funexpr => true,
        _ => false,
    }
}

/// True of the word of function declarations.
pub fn is_declaration(word: Word) -> bool
    ensures { result ≡ is_declaration_word word }
{
    match word {
        Word::Fundecl => true,
        _ => false,
    }
}

/// True of the word of labelled statements.
pub fn is_labeled(word: Word) -> bool
    ensures { result ≡ is_labeled_word word }
{
    match word {
        Word::Labeled => true,
        _ => false,
    }
}

/// True of the kinds of declarations of `let` and `const` and of classes, beside which no function declaration has their name.
pub(crate) fn is_lexical(kind: BindKind) -> bool {
    match kind {
        BindKind::Let => true,
        BindKind::Const => true,
        BindKind::ClassDeclaration => true,
        _ => false,
    }
}

/// True of the kinds of declarations that are in force before they stand, the names of functions aside.
pub(crate) fn is_hoisted(kind: BindKind) -> bool {
    match kind {
        BindKind::Var => true,
        BindKind::ImportDefault => true,
        BindKind::ImportNamespace => true,
        BindKind::ImportNamed => true,
        BindKind::TypeAlias => true,
        BindKind::Interface => true,
        BindKind::Enum => true,
        BindKind::Namespace => true,
        _ => false,
    }
}

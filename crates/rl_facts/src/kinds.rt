//! Kinds of declarations, and words of nodes, that rows ask for.

ghost use Rattle.std.specs.Prelude.{◌≡◌};
ghost use Rattle.rl_model.specs.Facts as model;
ghost use Rattle.rl_names.specs.Names as names;

use rl_bindings::event::BindKind;
use rl_syntax::word::Word;

/// True of the kinds of parameters and of variables that get markers.
pub fn is_variable_kind(kind: BindKind) -> bool
    ensures { result ≡ model.is_variable_kind kind }
{
    match kind {
        BindKind::Param => true,
        BindKind::Var => true,
        BindKind::Let => true,
        BindKind::Const => true,
        BindKind::Catch => true,
        BindKind::FunctionDeclaration => true,
        _ => false,
    }
}

/// True of the kinds of variables. A type alias, an enum and a namespace are none.
pub fn is_variable(kind: BindKind) -> bool
    ensures { result ≡ names.is_variable kind }
{
    match kind {
        BindKind::TypeAlias => false,
        BindKind::Enum => false,
        BindKind::Namespace => false,
        _ => true,
    }
}

/// True of the words of `for`-`in` and `for`-`of` loops.
pub fn is_for_in_or_of(word: Word) -> bool
    ensures { result ≡ model.is_for_in_or_of word }
{
    match word {
        Word::Forin => true,
        Word::Forof => true,
        _ => false,
    }
}

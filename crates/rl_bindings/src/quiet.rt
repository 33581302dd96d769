//! Nodes that a walk over names and rules passes by: their parts are all that counts.

ghost use Rattle.std.specs.Prelude.{◌≡◌};
ghost use Rattle.rl_bindings.specs.Quiet as spec;

use crate::event::Place;
use crate::role::{Above, Role, role_of};
use rl_rules::declarations::Place as Stands;
use rl_rules::following::Context;
use rl_syntax::word::Word;

/// True of the words whose nodes make no scope, say neither the kind nor the place of a declaration in them, and are no
/// functions, declarations, links or chains, and of no form that a rule asks for.
#[inline(always)]
fn is_quiet_word(word: Word) -> bool
    ensures { result ≡ spec.is_quiet_word word }
{
    match word {
        Word::Program => false,
        Word::Arrow => false,
        Word::Fundecl => false,
        Word::Funexpr => false,
        Word::Block => false,
        Word::For => false,
        Word::Forin => false,
        Word::Forof => false,
        Word::Switch => false,
        Word::Catch => false,
        Word::Classdecl => false,
        Word::Classexpr => false,
        Word::Static => false,
        Word::Body => false,
        Word::Case => false,
        Word::Export => false,
        Word::Exportdefault => false,
        Word::Import => false,
        Word::Params => false,
        Word::Var => false,
        Word::Default => false,
        Word::Named => false,
        Word::Namespace => false,
        Word::Typealias => false,
        Word::Interface => false,
        Word::Enum => false,
        Word::Chain => false,
        Word::Member => false,
        Word::Index => false,
        Word::Privatemember => false,
        Word::Call => false,
        Word::Nonnull => false,
        Word::Template => false,
        Word::Seq => false,
        Word::Keyedpat => false,
        Word::Prop => false,
        Word::Method => false,
        Word::Get => false,
        Word::Set => false,
        Word::Keyed => false,
        Word::Update => false,
        Word::Tagmember => false,
        _ => true,
    }
}

/// True of the places where such a node may stand, whatever its word.
#[inline(always)]
fn is_open(place: Stands) -> bool
    ensures { result ≡ spec.is_open place }
{
    match place {
        Stands::Export => false,
        Stands::DefaultExport => false,
        _ => true,
    }
}

/// True of a node that keeps the rules B1 and B6 to B9 whatever its parts are, by its context and its word. What stands above its
/// parts is `inside`, and their context is that of a tree that nothing stands above.
#[inline(always)]
pub fn is_quiet(context: Context, word: Word) -> bool
    ensures { result ≡ spec.is_quiet context word }
{
    is_quiet_word(word) && is_open(context.1.1.0)
}

/// True of the role of a node that neither makes a scope nor has a name of its own.
#[inline(always)]
fn is_plain(role: Role) -> bool
    ensures { result ≡ spec.is_plain role }
{
    match role {
        Role::Maker => false,
        Role::Binder => false,
        Role::User => false,
        Role::Plain => true,
    }
}

/// True of a quiet node that has no name of its own either.
#[inline(always)]
pub fn is_silent(context: Context, word: Word) -> bool
    ensures { result ≡ spec.is_silent context word }
{
    is_quiet(context, word) && is_plain(role_of(word))
}

/// The summary for the parts of such a node.
#[inline(always)]
pub fn inside(above: Above) -> Above
    ensures { result ≡ spec.inside above }
{
    Above {
        place: Place::Inner,
        ..above
    }
}

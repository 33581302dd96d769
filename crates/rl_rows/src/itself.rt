//! The rows of a node by itself.

ghost use Rattle.std.specs.Prelude.{◌≡◌, map};
ghost use Rattle.rl_row_forms.specs.Labels.{labels_of};
ghost use Rattle.rl_rows.specs.Itself as spec;
ghost use Rattle.rl_syntax.specs.Syntax.{pieces_of, syntax};

use rl_code::parts::{is_function, is_no_code};
use rl_row_forms::above::Above;
use rl_row_forms::labels::Labels;
use rl_row_forms::statements::statement_is_clear;
use rl_row_forms::targets::expression_is_clear;
use rl_row_forms::words::is_known_key;
use rl_row_names::facts::RowFacts;
use rl_row_names::names::{bind_is_clear, id_is_clear, opening_is_clear, update_is_clear};
use rl_row_names::parameters::has_this_among;
use rl_syntax::numbered::{At, Numbered};
use rl_syntax::word::Word;

/// Group of a word, by the rows that may apply to its nodes.
#[derive(Clone, Copy)]
pub enum Kind {
    /// A row applies to every node of the word.
    Refused,
    /// A node of names.
    Name,
    /// A statement, or a part of one.
    Statement,
    /// Any other node.
    Expression,
}

/// The group of a word.
fn kind_of(word: Word) -> Kind
    ensures { result ≡ spec.kind_of word }
{
    match word {
        Word::Importcall => Kind::Refused,
        Word::Privatein => Kind::Refused,
        Word::Yield => Kind::Refused,
        Word::Newtarget => Kind::Refused,
        Word::Classexpr => Kind::Refused,
        Word::Super => Kind::Refused,
        Word::Get => Kind::Refused,
        Word::Set => Kind::Refused,
        Word::With => Kind::Refused,
        Word::Import => Kind::Refused,
        Word::Export => Kind::Refused,
        Word::Exportdefault => Kind::Refused,
        Word::Exportlist => Kind::Refused,
        Word::Exportfrom => Kind::Refused,
        Word::Enum => Kind::Refused,
        Word::Bigint => Kind::Refused,
        Word::Spreadchild => Kind::Refused,
        Word::Id => Kind::Name,
        Word::Opening => Kind::Name,
        Word::Params => Kind::Name,
        Word::Bind => Kind::Name,
        Word::Update => Kind::Name,
        Word::Throw => Kind::Statement,
        Word::For => Kind::Statement,
        Word::Forof => Kind::Statement,
        Word::Try => Kind::Statement,
        Word::Classdecl => Kind::Statement,
        Word::Var => Kind::Statement,
        Word::Catch => Kind::Statement,
        Word::Break => Kind::Statement,
        Word::Continue => Kind::Statement,
        _ => Kind::Expression,
    }
}

/// True if no row applies to a node of names.
fn naming_is_clear<F: RowFacts>(
    facts: &F,
    above: &Above,
    at: At,
    word: Word,
    parts: &[Numbered],
) -> bool
    ensures { result ≡ spec.clear_naming (F.facts facts.now) above.now at word (pieces_of (map syntax parts.now)) }
{
    match word {
        Word::Id => id_is_clear(facts, above, at.reference, parts),
        Word::Opening => opening_is_clear(facts, parts),
        Word::Params => !has_this_among(parts),
        Word::Bind => bind_is_clear(facts, at.id, parts),
        Word::Update => update_is_clear(facts, parts),
        _ => true,
    }
}

/// True if no row applies to a node of the group `kind`.
fn kind_is_clear<F: RowFacts>(
    facts: &F,
    above: &Above,
    labels: &Labels<'_>,
    at: At,
    word: Word,
    parts: &[Numbered],
    kind: Kind,
) -> bool
    ensures { result ≡ spec.clear_kind_of (F.facts facts.now) above.now (labels_of labels.now) at word (pieces_of (map syntax parts.now)) kind }
{
    match kind {
        Kind::Refused => false,
        Kind::Name => naming_is_clear(facts, above, at, word, parts),
        Kind::Statement => statement_is_clear(above, labels, word, parts),
        Kind::Expression => expression_is_clear(above, word, parts),
    }
}

/// True if no row applies to a node by itself.
pub fn itself_is_clear<F: RowFacts>(
    facts: &F,
    above: &Above,
    labels: &Labels<'_>,
    at: At,
    word: Word,
    parts: &[Numbered],
) -> bool
    ensures { result ≡ spec.clear_itself (F.facts facts.now) above.now (labels_of labels.now) at word (pieces_of (map syntax parts.now)) }
{
    kind_is_clear(facts, above, labels, at, word, parts, kind_of(word))
}

/// True if no row applies to a node by its place: to a key, or to an inner function in a dead part.
pub fn place_is_clear<F: RowFacts>(
    facts: &F,
    above: &Above,
    at: At,
    word: Word,
    parts: &[Numbered],
) -> bool
    ensures { result ≡ spec.clear_place (F.facts facts.now) above.now at word (pieces_of (map syntax parts.now)) }
{
    !(above.key && !is_known_key(word))
        && !(is_function(word) && !is_no_code(word, parts) && facts.is_dead(at.id))
}

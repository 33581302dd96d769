//! Nodes by their words.

ghost use Rattle.std.specs.Prelude.{◌≡◌, map};
ghost use Rattle.rl_model.specs.Applied as model;
ghost use Rattle.rl_row_forms.specs.Wordy as spec;
ghost use Rattle.rl_syntax.specs.Syntax.{pieces_of, syntax};

use rl_code::parts::only;
use rl_syntax::numbered::Numbered;
use rl_syntax::word::Word;

/// True of the word of a name, declared or used.
fn names_plainly(word: Word) -> bool
    ensures { result ≡ spec.names_plainly word }
{
    match word {
        Word::Bind => true,
        Word::Id => true,
        _ => false,
    }
}

/// True of a name, declared or used.
#[tactic(auto, using(crate::proofs::Wordy::plain, rl_syntax::proofs::Layers::by_layer))]
pub fn is_plain_name(tree: &Numbered) -> bool
    ensures { result ≡ model.is_plain_name (syntax tree.now) }
{
    match tree {
        Numbered::Node(_, word, _) => names_plainly(*word),
        Numbered::List(_) => false,
        Numbered::Text(_) => false,
        Numbered::Number(_) => false,
        Numbered::Flag(_) => false,
        Numbered::Absent => false,
    }
}

/// True of the word of a declaration of variables.
fn declares_variables(word: Word) -> bool
    ensures { result ≡ spec.declares_variables word }
{
    match word {
        Word::Var => true,
        _ => false,
    }
}

/// True of a declaration of variables.
#[tactic(auto, using(crate::proofs::Wordy::var, rl_syntax::proofs::Layers::by_layer))]
pub fn is_var(tree: &Numbered) -> bool
    ensures { result ≡ model.is_var (syntax tree.now) }
{
    match tree {
        Numbered::Node(_, word, _) => declares_variables(*word),
        Numbered::List(_) => false,
        Numbered::Text(_) => false,
        Numbered::Number(_) => false,
        Numbered::Flag(_) => false,
        Numbered::Absent => false,
    }
}

/// True of the word of `this`.
fn says_this(word: Word) -> bool
    ensures { result ≡ spec.says_this word }
{
    match word {
        Word::This => true,
        _ => false,
    }
}

/// True of `this`.
#[tactic(auto, using(crate::proofs::Wordy::this_forms, rl_syntax::proofs::Layers::by_layer))]
pub fn is_this(tree: &Numbered) -> bool
    ensures { result ≡ model.is_this (syntax tree.now) }
{
    match tree {
        Numbered::Node(_, word, _) => says_this(*word),
        Numbered::List(_) => false,
        Numbered::Text(_) => false,
        Numbered::Number(_) => false,
        Numbered::Flag(_) => false,
        Numbered::Absent => false,
    }
}

/// True of the word of a loop.
fn loops(word: Word) -> bool
    ensures { result ≡ spec.loops word }
{
    match word {
        Word::For => true,
        Word::While => true,
        Word::Dowhile => true,
        Word::Forin => true,
        Word::Forof => true,
        _ => false,
    }
}

/// True of a loop.
#[tactic(auto, using(crate::proofs::Wordy::loop_forms, rl_syntax::proofs::Layers::by_layer))]
pub fn is_loop(tree: &Numbered) -> bool
    ensures { result ≡ model.is_loop (syntax tree.now) }
{
    match tree {
        Numbered::Node(_, word, _) => loops(*word),
        Numbered::List(_) => false,
        Numbered::Text(_) => false,
        Numbered::Number(_) => false,
        Numbered::Flag(_) => false,
        Numbered::Absent => false,
    }
}

/// True of the word of a statement with a label.
pub fn is_labeled(word: Word) -> bool
    ensures { result ≡ spec.is_labeled word }
{
    match word {
        Word::Labeled => true,
        _ => false,
    }
}

/// True of the word of a class.
pub fn is_class(word: Word) -> bool
    ensures { result ≡ model.is_class word }
{
    match word {
        Word::Classdecl => true,
        Word::Classexpr => true,
        _ => false,
    }
}

/// True of the word of a function declaration.
pub fn is_fundecl(word: Word) -> bool
    ensures { result ≡ model.is_fundecl word }
{
    match word {
        Word::Fundecl => true,
        _ => false,
    }
}

/// True of the word of a key that is known without brackets.
pub fn is_known_key(word: Word) -> bool
    ensures { result ≡ model.is_known_key word }
{
    match word {
        Word::Name => true,
        Word::Str => true,
        Word::Num => true,
        _ => false,
    }
}

/// True of a property, in parentheses too.
#[cycle(deleting)]
#[tactic(auto, using(crate::proofs::Wordy::deleted, rl_syntax::proofs::Layers::by_layer))]
pub fn deletes(tree: &Numbered) -> bool
    ensures { result ≡ model.deletes (syntax tree.now) }
{
    match tree {
        Numbered::Node(_, word, parts) => node_deletes(*word, parts.as_slice()),
        Numbered::List(_) => false,
        Numbered::Text(_) => false,
        Numbered::Number(_) => false,
        Numbered::Flag(_) => false,
        Numbered::Absent => false,
    }
}

/// As `deletes`, of a node by its word.
#[cycle(deleting)]
fn node_deletes(word: Word, parts: &[Numbered]) -> bool
    ensures { result ≡ spec.node_deletes word (pieces_of (map syntax parts.now)) }
{
    match word {
        Word::Paren => paren_deletes(parts),
        Word::Member => true,
        Word::Index => true,
        Word::Privatemember => true,
        _ => false,
    }
}

/// As `deletes`, of parentheses by their parts.
#[cycle(deleting)]
#[tactic(auto, using(crate::proofs::Shaped::by_item, crate::proofs::Smaller::smaller))]
fn paren_deletes(parts: &[Numbered]) -> bool
    ensures { result ≡ spec.node_deletes Word.Paren (pieces_of (map syntax parts.now)) }
{
    match only(parts) {
        Some(expression) => deletes(expression),
        None => false,
    }
}

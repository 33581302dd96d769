//! The binding patterns in the code of a function.

ghost use Rattle.std.specs.Prelude.{◌≡◌, ◌∷◌, [], ◌++◌, Bool, map, OnOk};
ghost use Rattle.rl_model.specs.Orderly as orderly;
ghost use Rattle.rl_orderly.specs.Patterns as spec;
ghost use Rattle.rl_syntax.specs.Syntax.{Syntax, pieces_of, syntax};

use rl_base::error::OutOfMemory;
use rl_syntax::numbered::Numbered;
use rl_syntax::parts::split_first;
use rl_syntax::word::Word;

/// Place of a node, for the patterns in it.
#[derive(Clone, Copy)]
pub enum Place {
    /// A `try` statement: its first part is a `try` block.
    Tries,
    /// A declarator or a `catch`: its first part is a pattern.
    Declares,
    /// A function or a class, whose patterns are not of the function around it.
    Closed,
    /// Any other node.
    Open,
}

/// The place of a node, by its word.
fn place_of(word: Word) -> Place
    ensures { result ≡ spec.place_of word }
{
    match word {
        Word::Try => Place::Tries,
        Word::Declarator => Place::Declares,
        Word::Catch => Place::Declares,
        Word::Arrow => Place::Closed,
        Word::Funexpr => Place::Closed,
        Word::Fundecl => Place::Closed,
        Word::Classdecl => Place::Closed,
        Word::Classexpr => Place::Closed,
        _ => Place::Open,
    }
}

/// Appends a pattern. On `OutOfMemory`, an allocation failed.
pub fn push_pattern<'t>(
    out: &mut Vec<(bool, &'t Numbered)>,
    tried: bool,
    pattern: &'t Numbered,
) -> Result<(), OutOfMemory>
    ensures { OnOk result (map {B = Bool × Syntax} (λ p. (p.0, syntax p.1.now)) out.new.items ≡ map {B = Bool × Syntax} (λ p. (p.0, syntax p.1.now)) out.old.items ++ (tried, syntax pattern.now) ∷ []) }
{
    out.push((tried, pattern))?;
    Ok(())
}

/// Appends the patterns of declarators and `catch` clauses in a tree, each with the flag that it stands in a `try` block. On
/// `OutOfMemory`, an allocation failed.
#[cycle(gathering)]
#[tactic(auto, using(crate::proofs::Gathering::by_form, rl_syntax::proofs::Layers::by_layer))]
pub fn push_patterns<'t>(
    out: &mut Vec<(bool, &'t Numbered)>,
    tried: bool,
    tree: &'t Numbered,
) -> Result<(), OutOfMemory>
    ensures { OnOk result (map {B = Bool × Syntax} (λ p. (p.0, syntax p.1.now)) out.new.items ≡ map {B = Bool × Syntax} (λ p. (p.0, syntax p.1.now)) out.old.items ++ orderly.patterns_in tried (syntax tree.now)) }
{
    match tree {
        Numbered::Node(_, word, parts) => {
            push_as(out, tried, place_of(*word), parts.as_slice())?;
            Ok(())
        }
        Numbered::List(parts) => {
            push_among(out, tried, parts.as_slice())?;
            Ok(())
        }
        Numbered::Text(_) => Ok(()),
        Numbered::Number(_) => Ok(()),
        Numbered::Flag(_) => Ok(()),
        Numbered::Absent => Ok(()),
    }
}

/// As `push_patterns`, by the place of a node. On `OutOfMemory`, an allocation failed.
#[cycle(gathering)]
#[tactic(auto, using(crate::proofs::Gathering::by_place))]
fn push_as<'t>(
    out: &mut Vec<(bool, &'t Numbered)>,
    tried: bool,
    place: Place,
    parts: &'t [Numbered],
) -> Result<(), OutOfMemory>
    ensures { OnOk result (map {B = Bool × Syntax} (λ p. (p.0, syntax p.1.now)) out.new.items ≡ map {B = Bool × Syntax} (λ p. (p.0, syntax p.1.now)) out.old.items ++ spec.patterns_as tried (pieces_of (map syntax parts.now)) place) }
{
    match place {
        Place::Tries => match split_first(parts) {
            Some((block, parts)) => {
                push_patterns(out, true, block)?;
                push_among(out, tried, parts)?;
                Ok(())
            }
            None => Ok(()),
        },
        Place::Declares => match split_first(parts) {
            Some((pattern, parts)) => {
                push_pattern(out, tried, pattern)?;
                push_among(out, tried, parts)?;
                Ok(())
            }
            None => Ok(()),
        },
        Place::Closed => Ok(()),
        Place::Open => {
            push_among(out, tried, parts)?;
            Ok(())
        }
    }
}

/// As `push_patterns`, for trees in a row. On `OutOfMemory`, an allocation failed.
#[cycle(gathering)]
fn push_among<'t>(
    out: &mut Vec<(bool, &'t Numbered)>,
    tried: bool,
    trees: &'t [Numbered],
) -> Result<(), OutOfMemory>
    ensures { OnOk result (map {B = Bool × Syntax} (λ p. (p.0, syntax p.1.now)) out.new.items ≡ map {B = Bool × Syntax} (λ p. (p.0, syntax p.1.now)) out.old.items ++ orderly.patterns_among tried (pieces_of (map syntax trees.now))) }
{
    'trees: for tree in trees {
        push_patterns(out, tried, tree)?;
    }
    Ok(())
}

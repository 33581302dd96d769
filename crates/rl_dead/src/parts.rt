//! Parts of statements, by the word of the statement.

ghost use Rattle.std.specs.Prelude.{◌≡◌, map, option_map};
ghost use Rattle.rl_dead.specs.Jumps.{name_of};
ghost use Rattle.rl_dead.specs.Parts as spec;
ghost use Rattle.rl_model.specs.Dead as model;
ghost use Rattle.rl_syntax.specs.Syntax.{pieces_of, syntax};

use crate::jumps::{Label, UNLABELED};
use rl_base::text::Text;
use rl_code::parts::as_text;
use rl_syntax::numbered::Numbered;
use rl_syntax::parts::{as_items, is_absent, split_first};
use rl_syntax::word::Word;

/// The only part, a list. `None` of parts of another form.
#[tactic(auto, using(crate::proofs::Shaping::no_list))]
pub fn only_list(parts: &[Numbered]) -> Option<&[Numbered]>
    ensures { option_map (λ s. pieces_of (map syntax s.now)) result ≡ spec.only_list (pieces_of (map syntax parts.now)) }
{
    let (list, parts) = split_first(parts)?;
    match split_first(parts) {
        Some(_) => None,
        None => match as_items(list) {
            Some(items) => Some(items),
            None => None,
        },
    }
}

/// The second of two parts, a list. `None` of parts of another form.
#[tactic(auto, using(crate::proofs::Shaping::no_list))]
pub fn second_list(parts: &[Numbered]) -> Option<&[Numbered]>
    ensures { option_map (λ s. pieces_of (map syntax s.now)) result ≡ spec.second_list (pieces_of (map syntax parts.now)) }
{
    let (_first, parts) = split_first(parts)?;
    only_list(parts)
}

/// The two parts. `None` of parts of another form.
pub fn both(parts: &[Numbered]) -> Option<(&Numbered, &Numbered)>
    ensures { option_map (λ p. (syntax p.0.now, syntax p.1.now)) result ≡ spec.both (pieces_of (map syntax parts.now)) }
{
    let (first, parts) = split_first(parts)?;
    let (second, parts) = split_first(parts)?;
    match split_first(parts) {
        Some(_) => None,
        None => Some((first, second)),
    }
}

/// The second and the third of three parts. `None` of parts of another form.
pub fn last_two(parts: &[Numbered]) -> Option<(&Numbered, &Numbered)>
    ensures { option_map (λ p. (syntax p.0.now, syntax p.1.now)) result ≡ spec.last_two (pieces_of (map syntax parts.now)) }
{
    let (_first, parts) = split_first(parts)?;
    both(parts)
}

/// True of the flag `n`.
#[tactic(auto, using(rl_syntax::proofs::Layers::by_layer))]
fn is_unset(tree: &Numbered) -> bool
    ensures { result ≡ spec.is_unset (syntax tree.now) }
{
    match tree {
        Numbered::Flag(flag) => !*flag,
        Numbered::Node(_, _, _) => false,
        Numbered::List(_) => false,
        Numbered::Text(_) => false,
        Numbered::Number(_) => false,
        Numbered::Absent => false,
    }
}

/// The body of a `for`-`of` loop that is no `for`-`await` loop, by its parts. `None` of any other.
pub fn body_of_each(parts: &[Numbered]) -> Option<&Numbered>
    ensures { option_map (λ t. syntax t.now) result ≡ spec.body_of_each (pieces_of (map syntax parts.now)) }
{
    let (is_await, parts) = split_first(parts)?;
    if !is_unset(is_await) {
        return None;
    }
    third_of_three(parts)
}

/// The name of a label. `None` of a tree that is neither a text nor absent.
#[tactic(auto, using(rl_syntax::proofs::Layers::by_layer))]
fn label_of(tree: &Numbered) -> Option<Label<'_>>
    ensures { option_map name_of result ≡ spec.label_of (syntax tree.now) }
{
    match tree {
        Numbered::Absent => Some(UNLABELED),
        Numbered::Text(name) => Some(Label { name: Some(name) }),
        Numbered::Node(_, _, _) => None,
        Numbered::List(_) => None,
        Numbered::Number(_) => None,
        Numbered::Flag(_) => None,
    }
}

/// The label of a jump, by its parts. `None` of parts of another form.
pub fn jump_of(parts: &[Numbered]) -> Option<Label<'_>>
    ensures { option_map name_of result ≡ spec.jump_of (pieces_of (map syntax parts.now)) }
{
    let (label, parts) = split_first(parts)?;
    match split_first(parts) {
        Some(_) => None,
        None => label_of(label),
    }
}

/// Label and body of a labelled statement, by its parts. `None` of parts of another form.
#[tactic(auto, using(crate::proofs::Shaping::labels))]
pub fn labeled_of(parts: &[Numbered]) -> Option<(&Text, &Numbered)>
    ensures { option_map (λ p. (p.0.now, syntax p.1.now)) result ≡ spec.labeled_of (pieces_of (map syntax parts.now)) }
{
    match both(parts) {
        Some((label, body)) => match as_text(label) {
            Some(label) => Some((label, body)),
            None => None,
        },
        None => None,
    }
}

/// The parts of a `for` loop.
#[derive(Clone, Copy)]
pub struct ForParts<'t> {
    /// The declaration or the expression ahead.
    pub init: &'t Numbered,
    /// The test.
    pub condition: &'t Numbered,
    /// The expression behind each turn.
    pub update: &'t Numbered,
    /// The body.
    pub body: &'t Numbered,
}

/// The parts of a `for` loop. `None` of parts of another form.
pub fn for_parts(parts: &[Numbered]) -> Option<ForParts<'_>>
    ensures { option_map spec.seen_for result ≡ spec.for_parts (pieces_of (map syntax parts.now)) }
{
    let (init, parts) = split_first(parts)?;
    let (condition, parts) = split_first(parts)?;
    let (update, parts) = split_first(parts)?;
    let (body, parts) = split_first(parts)?;
    match split_first(parts) {
        Some(_) => None,
        None => Some(ForParts {
            init,
            condition,
            update,
            body,
        }),
    }
}

/// True of a declaration of variables, by its parts, unless it is without declarators.
#[tactic(auto, using(crate::proofs::Shaping::declarators))]
pub fn declares(parts: &[Numbered]) -> bool
    ensures { result ≡ model.declares (pieces_of (map syntax parts.now)) }
{
    match second_list(parts) {
        Some(declarators) => match split_first(declarators) {
            Some(_) => true,
            None => false,
        },
        None => true,
    }
}

/// As `init_acts`, by the word and the parts of a node.
fn init_acts_by(word: Word, parts: &[Numbered]) -> bool
    ensures { result ≡ spec.init_acts_by word (pieces_of (map syntax parts.now)) }
{
    match word {
        Word::Var => declares(parts),
        _ => true,
    }
}

/// True of what stands ahead of a `for` loop, as far as it may throw to a `catch` around it.
#[tactic(auto, using(rl_syntax::proofs::Layers::by_layer))]
pub fn init_acts(tree: &Numbered) -> bool
    ensures { result ≡ spec.init_acts (syntax tree.now) }
{
    match tree {
        Numbered::Node(_, word, parts) => init_acts_by(*word, parts.as_slice()),
        Numbered::Absent => false,
        Numbered::List(_) => true,
        Numbered::Text(_) => true,
        Numbered::Number(_) => true,
        Numbered::Flag(_) => true,
    }
}

/// The body of a `catch`. `None` of any other tree.
#[tactic(auto, using(rl_syntax::proofs::Layers::by_layer))]
pub fn catch_body(tree: &Numbered) -> Option<&Numbered>
    ensures { option_map (λ t. syntax t.now) result ≡ spec.catch_body (syntax tree.now) }
{
    match tree {
        Numbered::Node(_, word, parts) => catch_parts(*word, parts.as_slice()),
        Numbered::List(_) => None,
        Numbered::Text(_) => None,
        Numbered::Number(_) => None,
        Numbered::Flag(_) => None,
        Numbered::Absent => None,
    }
}

/// As `catch_body`, by the word and the parts of a node.
fn catch_parts(word: Word, parts: &[Numbered]) -> Option<&Numbered>
    ensures { option_map (λ t. syntax t.now) result ≡ spec.catch_parts word (pieces_of (map syntax parts.now)) }
{
    match word {
        Word::Catch => second_of_two(parts),
        _ => None,
    }
}

/// The statements of a case of a `switch`. `None` of any other tree.
#[tactic(auto, using(rl_syntax::proofs::Layers::by_layer))]
pub fn case_statements(tree: &Numbered) -> Option<&[Numbered]>
    ensures { option_map (λ s. pieces_of (map syntax s.now)) result ≡ spec.case_statements (syntax tree.now) }
{
    match tree {
        Numbered::Node(_, word, parts) => case_parts(*word, parts.as_slice()),
        Numbered::List(_) => None,
        Numbered::Text(_) => None,
        Numbered::Number(_) => None,
        Numbered::Flag(_) => None,
        Numbered::Absent => None,
    }
}

/// As `case_statements`, by the word and the parts of a node.
fn case_parts(word: Word, parts: &[Numbered]) -> Option<&[Numbered]>
    ensures { option_map (λ s. pieces_of (map syntax s.now)) result ≡ spec.case_parts word (pieces_of (map syntax parts.now)) }
{
    match word {
        Word::Case => second_list(parts),
        _ => None,
    }
}

/// True if the first part is absent.
fn is_first_absent(parts: &[Numbered]) -> bool
    ensures { result ≡ spec.is_first_absent (pieces_of (map syntax parts.now)) }
{
    match split_first(parts) {
        Some((first, _parts)) => is_absent(first),
        None => false,
    }
}

/// As `is_default`, by the word and the parts of a node.
fn is_default_by(word: Word, parts: &[Numbered]) -> bool
    ensures { result ≡ spec.is_default_by word (pieces_of (map syntax parts.now)) }
{
    match word {
        Word::Case => is_first_absent(parts),
        _ => false,
    }
}

/// True of a case of a `switch` without a test.
#[tactic(auto, using(rl_syntax::proofs::Layers::by_layer))]
fn is_default(tree: &Numbered) -> bool
    ensures { result ≡ spec.is_default (syntax tree.now) }
{
    match tree {
        Numbered::Node(_, word, parts) => is_default_by(*word, parts.as_slice()),
        Numbered::List(_) => false,
        Numbered::Text(_) => false,
        Numbered::Number(_) => false,
        Numbered::Flag(_) => false,
        Numbered::Absent => false,
    }
}

/// True of the cases of a `switch` with a default among them.
#[tactic(auto, using(crate::proofs::Shaping::defaults))]
pub fn has_default(cases: &[Numbered]) -> bool
    ensures { result ≡ model.has_default (pieces_of (map syntax cases.now)) }
{
    'cases: for case in cases {
        if is_default(case) {
            return true;
        }
    }
    false
}

/// The second of two parts. `None` of parts of another form.
pub fn second_of_two(parts: &[Numbered]) -> Option<&Numbered>
    ensures { option_map (λ t. syntax t.now) result ≡ spec.second_of_two (pieces_of (map syntax parts.now)) }
{
    let (_first, parts) = split_first(parts)?;
    let (second, parts) = split_first(parts)?;
    match split_first(parts) {
        Some(_) => None,
        None => Some(second),
    }
}

/// The third of three parts. `None` of parts of another form.
pub fn third_of_three(parts: &[Numbered]) -> Option<&Numbered>
    ensures { option_map (λ t. syntax t.now) result ≡ spec.third_of_three (pieces_of (map syntax parts.now)) }
{
    let (_first, parts) = split_first(parts)?;
    second_of_two(parts)
}

/// Block, handler, and the handler's body of a `try` statement, by its parts. `None` of parts of another form, and of one without a
/// handler.
pub fn try_parts(parts: &[Numbered]) -> Option<(&Numbered, &Numbered, &Numbered)>
    ensures { option_map (λ p. (syntax p.0.now, (syntax p.1.now, syntax p.2.now))) result ≡ spec.try_parts (pieces_of (map syntax parts.now)) }
{
    let (block, parts) = split_first(parts)?;
    let (handler, parts) = split_first(parts)?;
    let (_finalizer, parts) = split_first(parts)?;
    match split_first(parts) {
        Some(_) => None,
        None => match catch_body(handler) {
            Some(body) => Some((block, handler, body)),
            None => None,
        },
    }
}

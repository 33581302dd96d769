//! Parts of nodes by their number and form.

ghost use Rattle.std.specs.Prelude.{◌≡◌, [], ◌∷◌, true, false, None, map, option_map, MatchOption};
ghost use Rattle.rl_code.specs.Parts as spec;
ghost use Rattle.rl_model.specs.Code as code;
ghost use Rattle.rl_syntax.specs.Shapes.{is_text};
ghost use Rattle.rl_syntax.specs.Syntax.{Said, End, Then, pieces_of, syntax};
ghost use Rattle.rl_syntax.specs.declared.word.Word.TheVariants as words;

use rl_base::text::Text;
use rl_syntax::numbered::Numbered;
use rl_syntax::parts::{as_items, is_absent, split_first};
use rl_syntax::word::Word;

/// True of the parts of a function declaration without a body.
fn has_no_body(parts: &[Numbered]) -> bool
    ensures { result ≡ code.is_no_code words.Fundecl (pieces_of (map syntax parts.now)) }
{
    let Some((_marked, parts)) = split_first(parts) else {
        return false;
    };
    let Some((_is_async, parts)) = split_first(parts) else {
        return false;
    };
    let Some((_generator, parts)) = split_first(parts) else {
        return false;
    };
    let Some((_name, parts)) = split_first(parts) else {
        return false;
    };
    let Some((_params, parts)) = split_first(parts) else {
        return false;
    };
    let Some((body, parts)) = split_first(parts) else {
        return false;
    };
    match split_first(parts) {
        Some(_) => false,
        None => is_absent(body),
    }
}

/// True of what is no code: types, classes, and function declarations without a body.
pub fn is_no_code(word: Word, parts: &[Numbered]) -> bool
    ensures { result ≡ code.is_no_code word (pieces_of (map syntax parts.now)) }
{
    match word {
        Word::Type => true,
        Word::Classdecl => true,
        Word::Classexpr => true,
        Word::Fundecl => has_no_body(parts),
        _ => false,
    }
}

/// True of the word of a function.
pub fn is_function(word: Word) -> bool
    ensures { result ≡ code.is_function word }
{
    match word {
        Word::Arrow => true,
        Word::Funexpr => true,
        Word::Fundecl => true,
        _ => false,
    }
}

/// True of the word of an expression with type arguments.
pub fn is_instantiate(word: Word) -> bool
    ensures { result ≡ code.is_instantiate word }
{
    match word {
        Word::Instantiate => true,
        _ => false,
    }
}

/// The name of a function declaration, by its parts. `None` of any other node.
pub fn declared_name(word: Word, parts: &[Numbered]) -> Option<&Numbered>
    ensures { MatchOption result (spec.name_of word (pieces_of (map syntax parts.now)) ≡ []) (λ name. spec.name_of word (pieces_of (map syntax parts.now)) ≡ syntax name.now ∷ []) }
{
    match word {
        Word::Fundecl => {
            let (_marked, parts) = split_first(parts)?;
            let (_is_async, parts) = split_first(parts)?;
            let (_generator, parts) = split_first(parts)?;
            let (name, _parts) = split_first(parts)?;
            Some(name)
        }
        _ => None,
    }
}

/// The items and the rest of a pattern, a target or a parameter list. `None` where the parts have another form.
#[tactic(auto, using(crate::proofs::Shaping::no_items))]
pub fn items_and_rest(parts: &[Numbered]) -> Option<(&[Numbered], &Numbered)>
    ensures { option_map (λ p. (pieces_of (map syntax p.0.now), syntax p.1.now)) result ≡ spec.items_and_rest (pieces_of (map syntax parts.now)) }
{
    match both(parts) {
        Some((items, rest)) => match as_items(items) {
            Some(items) => Some((items, rest)),
            None => None,
        },
        None => None,
    }
}

/// The value of a text. `None` at any other tree.
#[tactic(auto, using(rl_syntax::proofs::Layers::by_layer))]
pub fn as_text(tree: &Numbered) -> Option<&Text>
    ensures { MatchOption result (is_text (syntax tree.now) ≡ false) (λ text. syntax tree.now ≡ Said text.now) }
{
    match tree {
        Numbered::Text(text) => Some(text),
        Numbered::Node(_, _, _) => None,
        Numbered::List(_) => None,
        Numbered::Number(_) => None,
        Numbered::Flag(_) => None,
        Numbered::Absent => None,
    }
}

/// The only part, a text. `None` where the parts have another form.
#[tactic(auto, using(crate::proofs::Shaping::no_said))]
pub fn said_only(parts: &[Numbered]) -> Option<&Text>
    ensures { option_map (λ t. t.now) result ≡ spec.said_only (pieces_of (map syntax parts.now)) }
{
    match only(parts) {
        Some(part) => match as_text(part) {
            Some(text) => Some(text),
            None => None,
        },
        None => None,
    }
}

/// The two parts. `None` where there are more or fewer.
#[tactic(auto)]
pub fn both(parts: &[Numbered]) -> Option<(&Numbered, &Numbered)>
    ensures { MatchOption result (spec.both (pieces_of (map syntax parts.now)) ≡ None) (λ p. pieces_of (map syntax parts.now) ≡ Then (syntax p.0.now) (Then (syntax p.1.now) End)) }
{
    let (first, parts) = split_first(parts)?;
    let (second, parts) = split_first(parts)?;
    match split_first(parts) {
        Some(_) => None,
        None => Some((first, second)),
    }
}

/// The three parts. `None` where there are more or fewer.
pub fn three(parts: &[Numbered]) -> Option<(&Numbered, &Numbered, &Numbered)>
    ensures { MatchOption result (spec.three (pieces_of (map syntax parts.now)) ≡ None) (λ p. pieces_of (map syntax parts.now) ≡ Then (syntax p.0.now) (Then (syntax p.1.now) (Then (syntax p.2.now) End))) }
{
    let (first, parts) = split_first(parts)?;
    let (second, parts) = split_first(parts)?;
    let (third, parts) = split_first(parts)?;
    match split_first(parts) {
        Some(_) => None,
        None => Some((first, second, third)),
    }
}

/// The only part. `None` where there are more or none.
pub fn only(parts: &[Numbered]) -> Option<&Numbered>
    ensures { MatchOption result (spec.only (pieces_of (map syntax parts.now)) ≡ None) (λ part. pieces_of (map syntax parts.now) ≡ Then (syntax part.now) End) }
{
    let (first, parts) = split_first(parts)?;
    match split_first(parts) {
        Some(_) => None,
        None => Some(first),
    }
}

/// The last of three parts. `None` where there are more or fewer.
pub fn third_of_three(parts: &[Numbered]) -> Option<&Numbered>
    ensures { option_map (λ t. syntax t.now) result ≡ spec.third_of_three (pieces_of (map syntax parts.now)) }
{
    let (_first, parts) = split_first(parts)?;
    let (_second, parts) = split_first(parts)?;
    let (third, parts) = split_first(parts)?;
    match split_first(parts) {
        Some(_) => None,
        None => Some(third),
    }
}

/// The first part. `None` where there is none.
pub fn first(parts: &[Numbered]) -> Option<&Numbered>
    ensures { option_map (λ t. syntax t.now) result ≡ spec.first (pieces_of (map syntax parts.now)) }
{
    let (first, _parts) = split_first(parts)?;
    Some(first)
}

/// The second part. `None` where there is none.
pub fn second(parts: &[Numbered]) -> Option<&Numbered>
    ensures { option_map (λ t. syntax t.now) result ≡ spec.second (pieces_of (map syntax parts.now)) }
{
    let (_first, parts) = split_first(parts)?;
    let (second, _parts) = split_first(parts)?;
    Some(second)
}

/// Parameters and body of an arrow function, by its parts.
fn arrow_parts(parts: &[Numbered]) -> Option<(&Numbered, &Numbered)>
    ensures { option_map (λ p. (syntax p.0.now, syntax p.1.now)) result ≡ spec.function_parts words.Arrow (pieces_of (map syntax parts.now)) }
{
    let (_marked, parts) = split_first(parts)?;
    let (_is_async, parts) = split_first(parts)?;
    let (params, parts) = split_first(parts)?;
    let (body, parts) = split_first(parts)?;
    match split_first(parts) {
        Some(_) => None,
        None => Some((params, body)),
    }
}

/// Parameters and body of a function declaration or a function expression, by its parts.
fn named_parts(parts: &[Numbered]) -> Option<(&Numbered, &Numbered)>
    ensures declaration { option_map (λ p. (syntax p.0.now, syntax p.1.now)) result ≡ spec.function_parts words.Fundecl (pieces_of (map syntax parts.now)) }
    ensures expression { option_map (λ p. (syntax p.0.now, syntax p.1.now)) result ≡ spec.function_parts words.Funexpr (pieces_of (map syntax parts.now)) }
{
    let (_marked, parts) = split_first(parts)?;
    let (_is_async, parts) = split_first(parts)?;
    let (_generator, parts) = split_first(parts)?;
    let (_name, parts) = split_first(parts)?;
    let (params, parts) = split_first(parts)?;
    let (body, parts) = split_first(parts)?;
    match split_first(parts) {
        Some(_) => None,
        None => Some((params, body)),
    }
}

/// Parameters and body of a node of the word `word` that is a function.
fn parts_by_word(word: Word, parts: &[Numbered]) -> Option<(&Numbered, &Numbered)>
    ensures { option_map (λ p. (syntax p.0.now, syntax p.1.now)) result ≡ spec.function_parts word (pieces_of (map syntax parts.now)) }
{
    match word {
        Word::Arrow => arrow_parts(parts),
        Word::Fundecl => named_parts(parts),
        Word::Funexpr => named_parts(parts),
        _ => None,
    }
}

/// Parameters and body of a function. `None` of any other tree.
#[tactic(auto, using(rl_syntax::proofs::Layers::by_layer))]
pub fn function_parts(tree: &Numbered) -> Option<(&Numbered, &Numbered)>
    ensures { option_map (λ p. (syntax p.0.now, syntax p.1.now)) result ≡ spec.parts_of_function (syntax tree.now) }
{
    match tree {
        Numbered::Node(_, word, parts) => parts_by_word(*word, parts.as_slice()),
        Numbered::List(_) => None,
        Numbered::Text(_) => None,
        Numbered::Number(_) => None,
        Numbered::Flag(_) => None,
        Numbered::Absent => None,
    }
}

//! Keys of properties, as events say them.

ghost use Rattle.std.specs.Prelude.{◌≡◌, ◌++◌, IfOk, MatchOption, OnOk, ◌∷◌, [], false, map};
ghost use Rattle.std.specs.Option.{option_map};
ghost use Rattle.rl_model.specs.Shapes as spec;
ghost use Rattle.rl_source_shapes.specs.Keys as keys;
ghost use Rattle.rl_syntax.specs.Syntax.{Flag, Then, pieces_of, syntax};

use rl_base::error::OutOfMemory;
use rl_base::list::List;
use rl_base::text::Text;
use rl_syntax::numbered::Numbered;
use rl_syntax::parts::split_first;
use rl_syntax::word::Word;
use rl_text::number::parse_number;
use std::alloc::Global;

/// Appends a text. On `OutOfMemory`, an allocation failed.
pub fn push_text(alloc: Global, text: &str, texts: &mut List<Text>) -> Result<(), OutOfMemory>
    ensures { OnOk result (texts.new ≡ texts.old ++ text.now ∷ []) }
{
    texts.push(Text::from_str(alloc, text)?)?;
    Ok(())
}

/// A known name as a text, which begins with a point. On `OutOfMemory`, an allocation failed.
pub fn said(alloc: Global, name: &str) -> Result<Text, OutOfMemory>
    ensures { IfOk result (λ text. text ≡ spec.said name.now) }
{
    Ok(Text::new(format!(in alloc; ".{name}")?))
}

/// The text that is the one part of a node.
#[tactic(auto, using(rl_syntax::proofs::Layers::by_layer))]
pub fn only_text(parts: &[Numbered]) -> Option<&Text>
    ensures { option_map (λ text. text.now) result ≡ keys.only_text (pieces_of (map syntax parts.now)) }
{
    let (first, rest) = split_first(parts)?;
    match first {
        Numbered::Text(text) => match split_first(rest) {
            Some(_) => None,
            None => Some(text),
        },
        Numbered::Node(_, _, _) => None,
        Numbered::List(_) => None,
        Numbered::Number(_) => None,
        Numbered::Flag(_) => None,
        Numbered::Absent => None,
    }
}

/// The flag and the key that come first among the parts of a node, and the parts behind them. `None` of other parts.
#[tactic(auto, using(rl_syntax::proofs::Layers::by_layer))]
pub fn flag_and_key(parts: &[Numbered]) -> Option<(bool, &Numbered, &[Numbered])>
    ensures { MatchOption result (keys.is_keyed (pieces_of (map syntax parts.now)) ≡ false) (λ p. pieces_of (map syntax parts.now) ≡ Then (Flag p.0) (Then (syntax p.1.now) (pieces_of (map syntax p.2.now)))) }
{
    let (first, rest) = split_first(parts)?;
    match first {
        Numbered::Flag(computed) => {
            match split_first(rest) {
                Some((key, behind)) => Some((*computed, key, behind)),
                None => None,
            }
        }
        Numbered::Node(_, _, _) => None,
        Numbered::List(_) => None,
        Numbered::Text(_) => None,
        Numbered::Number(_) => None,
        Numbered::Absent => None,
    }
}

/// The text of a key of a literal or of a pattern. None of a key without a meaning.
#[tactic(auto, using(rl_syntax::proofs::Layers::by_layer))]
pub fn key_text(computed: bool, key: &Numbered) -> Option<&Text>
    ensures { option_map (λ text. spec.said text.now) result ≡ spec.key_text computed (syntax key.now) }
{
    match key {
        Numbered::Node(_, word, parts) => {
            let text = only_text(parts.as_slice())?;
            match word {
                Word::Name => { if computed { None } else { Some(text) } }
                Word::Str => Some(text),
                Word::Num => {
                    if computed {
                        return None;
                    }
                    match parse_number(text.as_bytes()) {
                        Some(_) => Some(text),
                        None => None,
                    }
                }
                _ => None,
            }
        }
        Numbered::List(_) => None,
        Numbered::Text(_) => None,
        Numbered::Number(_) => None,
        Numbered::Flag(_) => None,
        Numbered::Absent => None,
    }
}

/// True of a key that is computed when the literal is evaluated.
#[tactic(auto, using(rl_syntax::proofs::Layers::by_layer))]
pub fn is_computed(computed: bool, key: &Numbered) -> bool
    ensures { result ≡ spec.is_computed computed (syntax key.now) }
{
    match key {
        Numbered::Node(_, word, _) => match word {
            Word::Str => false,
            _ => computed,
        },
        Numbered::List(_) => computed,
        Numbered::Text(_) => computed,
        Numbered::Number(_) => computed,
        Numbered::Flag(_) => computed,
        Numbered::Absent => computed,
    }
}

/// Appends the shape of a key, or `unknown` where it has no text, and then its place. On `OutOfMemory`, an allocation failed.
pub fn push_key(
    alloc: Global,
    computed: bool,
    key: &Numbered,
    unknown: &str,
    texts: &mut List<Text>,
) -> Result<(), OutOfMemory>
    ensures { OnOk result (texts.new ≡ texts.old ++ keys.key_shape unknown.now computed (syntax key.now)) }
{
    match key_text(computed, key) {
        Some(text) => texts.push(said(alloc, text.as_str())?)?,
        None => push_text(alloc, unknown, texts)?,
    }
    push_text(alloc, "place", texts)
}

/// Appends the shape of a part whose parts begin with a flag and a key. On `OutOfMemory`, an allocation failed.
pub fn push_keyed(
    alloc: Global,
    parts: &[Numbered],
    unknown: &str,
    texts: &mut List<Text>,
) -> Result<(), OutOfMemory>
    ensures { OnOk result (texts.new ≡ texts.old ++ keys.keyed_shape unknown.now (pieces_of (map syntax parts.now))) }
{
    match flag_and_key(parts) {
        Some((computed, key, _behind)) => push_key(alloc, computed, key, unknown, texts),
        None => push_text(alloc, "place", texts),
    }
}

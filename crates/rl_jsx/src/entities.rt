//! Entities in texts and attributes: `&`, a word and `;`.

ghost use Rattle.std.specs.Prelude.{◌≡◌, ◌≤◌, ◌++◌, IfOk, OnOk, string_bytes};
ghost use Rattle.std.specs.Str.Parse.{without_leading_plus};
ghost use Rattle.rl_atoms.specs.Entities.{entity_value};
ghost use Rattle.rl_jsx.specs.JsxTexts as spec;

use crate::cuts::{behind, cut_at_first, cut_at_last};
use rl_atoms::entity_table::EntityTable;
use rl_base::error::OutOfMemory;
use rl_base::text::Text;
use std::alloc::Global;

/// The character whose number digits of a base write; a `+` may stand before them.
fn parse_scalar(text: &str, base: u32) -> Option<char>
    requires least { 2 ≤ base }
    requires most { base ≤ 36 }
    ensures { result ≡ spec.scalar_of base (without_leading_plus text.now) }
{
    match u32::from_str_radix(text, base) {
        Ok(value) => char::from_u32(value),
        Err(_) => None,
    }
}

/// The character of the number that stands behind `#`: hexadecimal behind `x` or `X`, else decimal.
fn numbered(text: &str) -> Option<char>
    ensures { result ≡ spec.numbered text.now }
{
    if let Some(digits) = behind(text, 'x') {
        return parse_scalar(digits, 16);
    }
    if let Some(digits) = behind(text, 'X') {
        return parse_scalar(digits, 16);
    }
    parse_scalar(text, 10)
}

/// The character of the entity of a name.
fn named(entities: &EntityTable, name: &str) -> Option<char>
    ensures { result ≡ entity_value entities.now name.now }
{
    match entities.get(name) {
        Some(value) => char::from_u32(value),
        None => None,
    }
}

/// The character that a word between `&` and `;` stands for.
fn word_value(entities: &EntityTable, word: &str) -> Option<char>
    ensures { result ≡ spec.word_value (entity_value entities.now) word.now }
{
    match behind(word, '#') {
        Some(number) => numbered(number),
        None => named(entities, word),
    }
}

/// Appends `&`, a word and `;`, decoded. On `OutOfMemory` an allocation failed, and `decoded` may hold a part of them.
fn push_word(entities: &EntityTable, word: &str, decoded: &mut String) -> Result<(), OutOfMemory>
    ensures { OnOk result (string_bytes decoded.new ≡ string_bytes decoded.old ++ spec.decoded_word (entity_value entities.now) word.now) }
{
    match word_value(entities, word) {
        Some(value) => {
            decoded.push(value)?;
            Ok(())
        }
        None => {
            decoded.push('&')?;
            decoded.push_str(word)?;
            decoded.push(';')?;
            Ok(())
        }
    }
}

/// Appends a part and the `;` behind it, decoded. On `OutOfMemory` an allocation failed, and `decoded` may hold a part of them.
fn push_part(entities: &EntityTable, part: &str, decoded: &mut String) -> Result<(), OutOfMemory>
    ensures { OnOk result (string_bytes decoded.new ≡ string_bytes decoded.old ++ spec.decoded_part (entity_value entities.now) part.now) }
{
    match cut_at_last(part, '&') {
        Some((before, word)) => {
            decoded.push_str(before)?;
            push_word(entities, word, decoded)?;
            Ok(())
        }
        None => {
            decoded.push_str(part)?;
            decoded.push(';')?;
            Ok(())
        }
    }
}

/// The text with its entities decoded: from `&` to the next `;`, where a later `&` before it starts anew. Numbers that are no Unicode
/// scalar value and words that name no entity stay as they are, and so does what no `;` ends. On `OutOfMemory` an allocation failed.
pub fn decode_jsx_entities(
    alloc: Global,
    entities: &EntityTable,
    text: &Text,
) -> Result<Text, OutOfMemory>
    ensures { IfOk result (λ decoded. decoded ≡ spec.decode_jsx_entities (entity_value entities.now) text.now) }
{
    let mut decoded = String::new(alloc);
    let mut rest = text.as_str();
    'decoding: while let Some((part, after)) = cut_at_first(rest, ';') {
        push_part(entities, part, &mut decoded)?;
        rest = after;
    }
    decoded.push_str(rest)?;
    Ok(Text::new(decoded))
}

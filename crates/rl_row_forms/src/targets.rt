//! The rows of expressions, patterns and elements.

ghost use Rattle.std.specs.Prelude.{◌≡◌, map};
ghost use Rattle.rl_model.specs.Applied as model;
ghost use Rattle.rl_model.specs.Shapes as shapes;
ghost use Rattle.rl_row_forms.specs.Targets as spec;
ghost use Rattle.rl_syntax.specs.Syntax.{pieces_of, syntax};
ghost use Rattle.rl_text.specs.Numeral as numeral;

use crate::above::{Above, Use};
use crate::forms::{first_said, flag_is_clear, items_in, node_in, said_in, said_pair};
use crate::templates::are_raw;
use crate::words::{deletes, is_plain_name};
use rl_base::text::Text;
use rl_code::parts::{both, first, only, said_only, three};
use rl_syntax::numbered::Numbered;
use rl_syntax::word::Word;
use rl_text::number::parse_number;

/// True of the operator of a logical assignment.
fn is_logical(operator: &Text) -> bool
    ensures { result ≡ shapes.is_logical operator.now }
{
    operator.as_str() == "&&=" || operator.as_str() == "||=" || operator.as_str() == "??="
}

/// True if no row applies to the assignment, by the operator, of a node of the word `word`.
fn assigned_word_is_clear(operator: &Text, word: Word) -> bool
    ensures { result ≡ spec.clear_assigned_word operator.now word }
{
    match word {
        Word::Privatemember => operator.as_str() != "=",
        Word::Arraytarget => operator.as_str() == "=",
        Word::Objecttarget => operator.as_str() == "=",
        _ => true,
    }
}

/// True if no row applies to the assignment of a target, by the operator.
#[tactic(auto, using(crate::proofs::Shaped::by_item))]
fn assigned_is_clear(operator: &Text, target: &Numbered) -> bool
    ensures { result ≡ spec.clear_assigned operator.now (syntax target.now) }
{
    match node_in(target) {
        Some((_, word, _)) => assigned_word_is_clear(operator, word),
        None => true,
    }
}

/// As `assigned_is_clear`, by the parts of the `assign` node.
#[tactic(auto, using(crate::proofs::Assigned::assigned))]
fn assigned_part_is_clear(operator: &Text, parts: &[Numbered]) -> bool
    ensures { result ≡ spec.clear_assigned_in operator.now (pieces_of (map syntax parts.now)) }
{
    match three(parts) {
        Some((_, target, _)) => assigned_is_clear(operator, target),
        None => true,
    }
}

/// True if no row applies to an `assign` node of the operator.
fn operator_is_clear(operator: &Text, parts: &[Numbered]) -> bool
    ensures { result ≡ spec.clear_operator operator.now (pieces_of (map syntax parts.now)) }
{
    !is_logical(operator) && assigned_part_is_clear(operator, parts)
}

/// True if no row applies to an `assign` node.
#[tactic(auto, using(crate::proofs::Shaped::by_item))]
fn assign_is_clear(parts: &[Numbered]) -> bool
    ensures { result ≡ spec.clear_assign (pieces_of (map syntax parts.now)) }
{
    match first_said(parts) {
        Some(operator) => operator_is_clear(operator, parts),
        None => true,
    }
}

/// True if no row applies to the target of a `rest` node.
fn rest_target_is_clear(rest: bool, target: &Numbered) -> bool
    ensures { result ≡ spec.clear_rest_target rest (syntax target.now) }
{
    !(rest && !is_plain_name(target))
}

/// True if no row applies to a `rest` node; `rest` is true of the rest of an object.
#[tactic(auto, using(crate::proofs::Shaped::by_item))]
fn rest_is_clear(rest: bool, parts: &[Numbered]) -> bool
    ensures { result ≡ spec.clear_rest rest (pieces_of (map syntax parts.now)) }
{
    match only(parts) {
        Some(target) => rest_target_is_clear(rest, target),
        None => true,
    }
}

/// True if no row applies to the argument of a unary operator.
fn argument_is_clear(operator: &Text, argument: &Numbered) -> bool
    ensures { result ≡ spec.clear_argument operator.now (syntax argument.now) }
{
    !(operator.as_str() == "delete" && !deletes(argument))
}

/// True if no row applies to a `unary` node.
#[tactic(auto, using(crate::proofs::Shaped::by_item))]
fn unary_is_clear(parts: &[Numbered]) -> bool
    ensures { result ≡ spec.clear_unary (pieces_of (map syntax parts.now)) }
{
    match said_pair(parts) {
        Some((operator, argument)) => argument_is_clear(operator, argument),
        None => true,
    }
}

/// True of a list of quasis that are cooked as they are written, and of any other tree.
#[tactic(auto, using(crate::proofs::Shaped::by_item))]
fn quasis_are_clear(quasis: &Numbered) -> bool
    ensures { result ≡ spec.clear_quasis (syntax quasis.now) }
{
    match items_in(quasis) {
        Some(items) => are_raw(items),
        None => true,
    }
}

/// True if no row applies to the parts of a template.
#[tactic(auto, using(crate::proofs::Shaped::by_item))]
fn template_parts_are_clear(parts: &[Numbered]) -> bool
    ensures { result ≡ spec.clear_template_node Word.Template (pieces_of (map syntax parts.now)) }
{
    match first(parts) {
        Some(quasis) => quasis_are_clear(quasis),
        None => true,
    }
}

/// True if no row applies to a node that stands as the template of a tag.
fn template_node_is_clear(word: Word, parts: &[Numbered]) -> bool
    ensures { result ≡ spec.clear_template_node word (pieces_of (map syntax parts.now)) }
{
    match word {
        Word::Template => template_parts_are_clear(parts),
        _ => true,
    }
}

/// True if no row applies to the template of a tag.
#[tactic(auto, using(crate::proofs::Shaped::by_item))]
fn template_is_clear(template: &Numbered) -> bool
    ensures { result ≡ spec.clear_template (syntax template.now) }
{
    match node_in(template) {
        Some((_, word, parts)) => template_node_is_clear(word, parts),
        None => true,
    }
}

/// True if no row applies to a `tagged` node.
#[tactic(auto, using(crate::proofs::Assigned::tagged))]
fn tagged_is_clear(parts: &[Numbered]) -> bool
    ensures { result ≡ spec.clear_tagged (pieces_of (map syntax parts.now)) }
{
    match both(parts) {
        Some((_, template)) => template_is_clear(template),
        None => true,
    }
}

/// True if no row applies to a `privatemember` node of the use `used`.
fn private_is_clear(used: Use) -> bool
    ensures { result ≡ spec.clear_private used }
{
    match used {
        Use::Equals => true,
        _ => false,
    }
}

/// True if no row applies to a wrapper of the use `used`.
fn wrapped_is_clear(used: Use) -> bool
    ensures { result ≡ spec.clear_wrapped used }
{
    match used {
        Use::Reads => true,
        _ => false,
    }
}

/// True of a text with a colon in it.
fn has_colon(text: &Text) -> bool
    ensures { result ≡ model.has_colon text.now }
{
    text.as_bytes().contains(&58)
}

/// True if no row applies to the name of an attribute.
#[tactic(auto, using(crate::proofs::Shaped::by_item))]
fn attribute_is_clear(parts: &[Numbered]) -> bool
    ensures { result ≡ spec.clear_attribute (pieces_of (map syntax parts.now)) }
{
    match said_only(parts) {
        Some(name) => !has_colon(name),
        None => true,
    }
}

/// True if no row applies to a name behind a namespace.
fn spaced_is_clear(namespace: &Text, name: &Text) -> bool
    ensures { result ≡ spec.clear_spaced namespace.now name.now }
{
    !(has_colon(namespace) || has_colon(name))
}

/// As `spaced_is_clear`, where the name may be no text.
#[tactic(auto, using(crate::proofs::Shaped::by_item))]
fn spaced_name_is_clear(namespace: &Text, name: &Numbered) -> bool
    ensures { result ≡ spec.clear_spaced_name namespace.now (syntax name.now) }
{
    match said_in(name) {
        Some(name) => spaced_is_clear(namespace, name),
        None => true,
    }
}

/// As `spaced_is_clear`, where neither may be a text.
#[tactic(auto, using(crate::proofs::Shaped::by_item))]
fn spaced_pair_is_clear(namespace: &Numbered, name: &Numbered) -> bool
    ensures { result ≡ spec.clear_spaced_pair (syntax namespace.now) (syntax name.now) }
{
    match said_in(namespace) {
        Some(namespace) => spaced_name_is_clear(namespace, name),
        None => true,
    }
}

/// True if no row applies to a tag with a namespace.
#[tactic(auto, using(crate::proofs::Assigned::spaced))]
fn spaced_tag_is_clear(parts: &[Numbered]) -> bool
    ensures { result ≡ spec.clear_spaced_tag (pieces_of (map syntax parts.now)) }
{
    match both(parts) {
        Some((namespace, name)) => spaced_pair_is_clear(namespace, name),
        None => true,
    }
}

/// True of a numeral.
#[tactic(auto, using(crate::proofs::Numerals::numerals))]
fn is_numeral(text: &Text) -> bool
    ensures { result ≡ numeral.is_numeral text.now }
{
    match parse_number(text.as_bytes()) {
        Some(_) => true,
        None => false,
    }
}

/// True if no row applies to a `num` node.
#[tactic(auto, using(crate::proofs::Shaped::by_item))]
fn number_is_clear(parts: &[Numbered]) -> bool
    ensures { result ≡ spec.clear_number (pieces_of (map syntax parts.now)) }
{
    match said_only(parts) {
        Some(text) => is_numeral(text),
        None => true,
    }
}

/// True if no row applies to a node of an expression, a pattern or an element by itself.
pub fn expression_is_clear(above: &Above, word: Word, parts: &[Numbered]) -> bool
    ensures { result ≡ spec.clear_expression above.now word (pieces_of (map syntax parts.now)) }
{
    match word {
        Word::Assign => assign_is_clear(parts),
        Word::Keyedpat => flag_is_clear(parts),
        Word::Keyed => flag_is_clear(parts),
        Word::Rest => rest_is_clear(above.rest, parts),
        Word::Unary => unary_is_clear(parts),
        Word::Tagged => tagged_is_clear(parts),
        Word::Privatemember => private_is_clear(above.used),
        Word::This => above.tag,
        Word::As => wrapped_is_clear(above.used),
        Word::Satisfies => wrapped_is_clear(above.used),
        Word::Assert => wrapped_is_clear(above.used),
        Word::Nonnull => wrapped_is_clear(above.used),
        Word::Attrname => attribute_is_clear(parts),
        Word::Tagns => spaced_tag_is_clear(parts),
        Word::Num => number_is_clear(parts),
        _ => true,
    }
}

//! The test of a tree by the grammar.

ghost use Rattle.std.specs.Prelude.{◌≡◌, Some, map};
ghost use Rattle.rl_grammar.specs.Grammar as spec;
ghost use Rattle.rl_syntax.specs.Syntax.{pieces_of, syntax};

use crate::kind::{Field, Kind};
use crate::rules::rule;
use rl_base::closed_text::is_closed_text;
use rl_base::operator::{
    AssignmentOperator, BinaryOperator, LogicalOperator, UnaryOperator, UpdateOperator,
};
use rl_base::scalar::is_scalar_value;
use rl_base::type_kind::TypeKind;
use rl_base::variable_kind::VariableKind;
use rl_syntax::numbered::Numbered;
use rl_syntax::parts::{as_items, is_absent, is_item};

/// True of a text of the kind.
fn text_fits(kind: Kind, text: &str) -> bool
    ensures { result ≡ spec.text_fits kind text.now }
{
    match kind {
        Kind::Text => true,
        Kind::VariableKind => is_closed_text::<VariableKind>(text),
        Kind::TypeKind => is_closed_text::<TypeKind>(text),
        Kind::UnaryOperator => is_closed_text::<UnaryOperator>(text),
        Kind::UpdateOperator => is_closed_text::<UpdateOperator>(text),
        Kind::BinaryOperator => is_closed_text::<BinaryOperator>(text),
        Kind::LogicalOperator => is_closed_text::<LogicalOperator>(text),
        Kind::AssignmentOperator => is_closed_text::<AssignmentOperator>(text),
        _ => false,
    }
}

/// True of the kind of flags.
fn takes_flags(kind: Kind) -> bool
    ensures { result ≡ spec.takes_flags kind }
{
    match kind {
        Kind::Flag => true,
        _ => false,
    }
}

/// True of a number of the kind.
fn number_fits(kind: Kind, number: u64) -> bool
    ensures { result ≡ spec.number_fits kind number }
{
    match kind {
        Kind::ScalarValue => is_scalar_value(number),
        _ => false,
    }
}

/// True of one part of the kind.
#[cycle(fitting)]
#[tactic(auto, using(rl_syntax::proofs::Layers::by_layer))]
fn fits_one(kind: Kind, tree: &Numbered) -> bool
    ensures { result ≡ spec.fits (Field.One kind) (syntax tree.now) }
{
    match tree {
        Numbered::Node(_, word, parts) => match rule(kind, *word) {
            Some(fields) => each(fields, parts.as_slice()),
            None => false,
        },
        Numbered::Text(text) => text_fits(kind, text.as_str()),
        Numbered::Flag(_) => takes_flags(kind),
        Numbered::Number(number) => number_fits(kind, *number),
        Numbered::List(_) => false,
        Numbered::Absent => false,
    }
}

/// True of a tree that may stand in the field.
#[cycle(fitting)]
#[tactic(auto, using(crate::proofs::Fitting::by_form))]
pub fn fits(field: Field, tree: &Numbered) -> bool
    ensures { result ≡ spec.fits field (syntax tree.now) }
{
    match field {
        Field::One(kind) => fits_one(kind, tree),
        Field::Maybe(kind) => is_absent(tree) || fits_one(kind, tree),
        Field::Many(kind) => match as_items(tree) {
            Some(items) => every(kind, items),
            None => false,
        },
    }
}

/// True of parts that may stand in the fields, one in each.
#[cycle(fitting)]
#[tactic(auto, using(rl_syntax::proofs::Layers::by_layer))]
fn each(fields: &[Field], parts: &[Numbered]) -> bool
    ensures { result ≡ spec.each (Some fields.now) (pieces_of (map syntax parts.now)) }
{
    match fields {
        [] => match parts {
            [] => true,
            [_part, _rest @ ..] => false,
        },
        [field, fields @ ..] => match parts {
            [] => false,
            [part, parts @ ..] => fits(*field, part) && each(fields, parts),
        },
    }
}

/// True of items of the kind.
#[cycle(fitting)]
fn every(kind: Kind, items: &[Numbered]) -> bool
    ensures { result ≡ spec.every kind (pieces_of (map syntax items.now)) }
{
    'items: for item in items {
        if !(is_item(item) && fits_one(kind, item)) {
            return false;
        }
    }
    true
}

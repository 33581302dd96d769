//! Keys and rests of patterns, and the instruction that takes a value apart.

ghost use Rattle.std.specs.Prelude.{◌≡◌, ℕ, List, Some, None, OnOk, IfOk, IfErr, option_map};
ghost use Rattle.rl_base.specs.Diagnostics.{diagnostic_at};
ghost use Rattle.rl_base.specs.declared.row.Row.TheVariants as row;
ghost use Rattle.rl_builder.specs.Builder.{recorded, state_of};
ghost use Rattle.rl_builder.specs.Temporaries.{temporary, with_value};
ghost use Rattle.rl_lowered.specs.Items.{destructured, fraction_met};
ghost use Rattle.rl_lower_parts.specs.Patterns.{LosesKey, MeetsKey};
ghost use Rattle.rl_lowered.specs.Promised.{HasRoom};
ghost use Rattle.rl_promises.specs.Patterns.{fraction_of, key_name};
ghost use Rattle.rl_syntax.specs.Syntax.{syntax};

use crate::graph_builder::GraphBuilder;
use crate::span::span_of;
use crate::temporary::{lower_value_to_temporary, refuse};
use rl_ast::binding::{PropertyKey, property_key_view};
use rl_ast::expression::{Expression, expression_view};
use rl_base::boxed::Boxed;
use rl_base::diagnostic::Diagnostic;
use rl_base::error::OutOfMemory;
use rl_base::row::Row;
use rl_base::span::Span;
use rl_base::stop::Stop;
use rl_base::text::Text;
use rl_builder::unit_tables::ReadsUnit;
use rl_grammar::sort::PropertyKeyTree;
use rl_hir::instruction::{Destructure, InstructionKind, InstructionValue, Pattern, Place};
use rl_text::number::parse_number;
use std::alloc::Global;

/// The text of a key that is a name, a text or a number. `None` of any other.
fn known_key(key: PropertyKeyTree<'_>) -> Option<&Text>
    ensures { option_map (λ t. t.now) result ≡ key_name (syntax key.entry.tree.now) }
{
    match property_key_view(key) {
        PropertyKey::Name { at: _, name } => Some(name),
        PropertyKey::Private { .. } => None,
        PropertyKey::Expression(expression) => match expression_view(expression) {
            Expression::String { at: _, text } => Some(text),
            Expression::Number { at: _, text } => Some(text),
            _ => None,
        },
    }
}

/// The span of a key that is a number which is refused.
fn fraction(key: PropertyKeyTree<'_>) -> Option<Span>
    ensures { result ≡ fraction_of (syntax key.entry.tree.now) }
{
    match property_key_view(key) {
        PropertyKey::Name { .. } => None,
        PropertyKey::Private { .. } => None,
        PropertyKey::Expression(expression) => match expression_view(expression) {
            Expression::Number { at, text } => match parse_number(text.as_bytes()) {
                Some(_) => None,
                None => Some(at.span),
            },
            _ => None,
        },
    }
}

/// Records row F43 of a key that is such a number.
fn note_fraction<U: ReadsUnit>(
    alloc: Global,
    builder: &mut GraphBuilder<'_, U>,
    fraction: Option<Span>,
) -> Result<(), OutOfMemory>
    ensures same_reference { builder.new.env.ghost_name ≡ builder.old.env.ghost_name }
    ensures state { OnOk result (state_of U.tables builder.new ≡ fraction_met (state_of U.tables builder.old) fraction) }
{
    match fraction {
        Some(span) => refuse(alloc, builder, Row::F43, span),
        None => Ok(()),
    }
}

/// A copy of the key of a property of a pattern, whose span is `at`. `None` of a property that is left out, whose key is refused. On
/// `OutOfMemory` an allocation failed.
pub fn meet_key<U: ReadsUnit>(
    alloc: Global,
    builder: &mut GraphBuilder<'_, U>,
    at: Span,
    computed: bool,
    key: PropertyKeyTree<'_>,
) -> Result<Option<Text>, OutOfMemory>
    ensures same_reference { builder.new.env.ghost_name ≡ builder.old.env.ghost_name }
    ensures met { IfOk result (λ text. (name : List ℕ) → text ≡ Some name → MeetsKey computed (syntax key.entry.tree.now) name (state_of U.tables builder.old) (state_of U.tables builder.new)) }
    ensures lost { IfOk result (λ text. text ≡ None → LosesKey at computed (syntax key.entry.tree.now) (state_of U.tables builder.old) (state_of U.tables builder.new)) }
{
    if computed {
        refuse(alloc, builder, Row::F8, at)?;
        return Ok(None);
    }
    match known_key(key) {
        Some(name) => {
            note_fraction(alloc, builder, fraction(key))?;
            let name = name.copy(alloc)?;
            Ok(Some(name))
        }
        None => {
            refuse(alloc, builder, Row::F9, span_of(key.tree))?;
            Ok(None)
        }
    }
}

/// Refuses the rest of an object that is no plain name; `word` is the type of what takes it. On `OutOfMemory` an allocation failed.
pub fn lose_rest<U: ReadsUnit>(
    alloc: Global,
    builder: &mut GraphBuilder<'_, U>,
    word: &str,
    at: Span,
) -> Result<(), OutOfMemory>
    ensures same_reference { builder.new.env.ghost_name ≡ builder.old.env.ghost_name }
    ensures state { OnOk result (state_of U.tables builder.new ≡ recorded (state_of U.tables builder.old) (diagnostic_at row.F10 word.now at)) }
{
    builder.record_diagnostic(Diagnostic::at(alloc, Row::F10, word, at)?)
}

/// Takes `value` apart by the pattern. On `Stop::OutOfMemory` an allocation failed; no other stop comes.
pub fn take_apart<U: ReadsUnit>(
    alloc: Global,
    builder: &mut GraphBuilder<'_, U>,
    at: Span,
    kind: InstructionKind,
    pattern: Pattern,
    value: Place,
) -> Result<Place, Stop>
    requires room { HasRoom (state_of U.tables builder.old) 4 }
    ensures same_reference { builder.new.env.ghost_name ≡ builder.old.env.ghost_name }
    ensures state { OnOk result (state_of U.tables builder.new ≡ with_value (state_of U.tables builder.old) (destructured kind pattern value) (Some at)) }
    ensures place { IfOk result (λ place. place ≡ temporary (state_of U.tables builder.old) (Some at)) }
    ensures memory { IfErr result (λ e. e ≡ Stop.OutOfMemory) }
{
    let destructure = Destructure {
        kind,
        pattern,
        value,
    };
    let destructure = InstructionValue::Destructure(Boxed::new(alloc, destructure)?);
    lower_value_to_temporary(builder, destructure, Some(at))
}

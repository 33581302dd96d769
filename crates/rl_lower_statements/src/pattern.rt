//! Lowering of binding patterns.

ghost use Rattle.std.specs.Prelude.{◌≡◌, OnOk, IfOk, IfErr};
ghost use Rattle.rl_ast.specs.BindingViews.{seen_binding_identifier};
ghost use Rattle.rl_builder.specs.Builder.{state_of};
ghost use Rattle.rl_lower_parts.specs.Patterns.{HasLeftRoom};
ghost use Rattle.rl_lower_statements.specs.Patterns.{AreLowerableLeft, HasPatternRoom, all_left, seen_part};
ghost use Rattle.rl_lowered.specs.Named.{IsNamed};
ghost use Rattle.rl_lowered.specs.Promised.{HasRoom, LowersBound, LowersPattern};
ghost use Rattle.rl_names.specs.Seen.{seen};
ghost use Rattle.rl_promises.specs.Lowerable.{DeclaresFree, IsLowerable};
ghost use Rattle.rl_syntax.specs.Syntax.{span_of, syntax};

use crate::declaration::meet_declared;
use crate::pattern_items::{LeftPattern, PatternPart, bind_elements, bind_properties, part_span};
use rl_ast::binding::{
    BindingIdentifier, BindingPattern, BindingPatternMaybeDefault, binding_identifier_view,
    binding_pattern_maybe_default_view, binding_pattern_view,
};
use rl_base::span::Span;
use rl_base::stop::Stop;
use rl_builder::unit_tables::ReadsUnit;
use rl_grammar::sort::{BindingPatternMaybeDefaultTree, BindingPatternTree};
use rl_hir::instruction::{InstructionKind, InstructionValue, Pattern, Place};
use rl_lower_expressions::target::lower_default;
use rl_lower_parts::graph_builder::GraphBuilder;
use rl_lower_parts::pattern_parts::take_apart;
use rl_lower_parts::temporary::lower_value_to_temporary;
use rl_names::names::FunctionNames;
use std::alloc::Global;

/// Gives `value` to a variable, by an instruction with the span `at`.
fn store_declared<U: ReadsUnit>(
    builder: &mut GraphBuilder<'_, U>,
    names: &FunctionNames<'_>,
    again: bool,
    kind: InstructionKind,
    at: Span,
    bind: &BindingIdentifier<'_>,
    value: Place,
) -> Result<Place, Stop>
    requires names { IsNamed (seen names.now) (state_of U.tables builder.old) }
    requires free { DeclaresFree (seen names.now) ((seen names.now).declared bind.now.at.id.0) }
    requires room { HasRoom (state_of U.tables builder.old) 6 }
    ensures same_reference { builder.new.env.ghost_name ≡ builder.old.env.ghost_name }
    ensures lowered { IfOk result (λ place. LowersPattern (seen names.now) again kind at value (seen_binding_identifier bind.now)
        (state_of U.tables builder.old) (state_of U.tables builder.new) place) }
    ensures memory { IfErr result (λ e. e ≡ Stop.OutOfMemory) }
{
    let identifier = meet_declared(builder, names, again, bind)?;
    let place = Place {
        identifier,
        span: Some(at),
    };
    let store = InstructionValue::StoreLocal { kind, place, value };
    lower_value_to_temporary(builder, store, Some(at))
}

/// Lowers a binding pattern that takes `value` (`lowerAssignment`), by an instruction with the span `at`. The variables are of the kind; in
/// the head of a loop, where `again` is true, their identifiers get the spans of their names there. Returns the place of that instruction.
/// On `Stop::OutOfMemory` an allocation failed; no other stop comes.
#[cycle(patterns)]
pub fn lower_pattern<U: ReadsUnit>(
    alloc: Global,
    builder: &mut GraphBuilder<'_, U>,
    names: &FunctionNames<'_>,
    again: bool,
    kind: InstructionKind,
    at: Span,
    pattern: BindingPatternTree<'_>,
    value: Place,
) -> Result<Place, Stop>
    requires names { IsNamed (seen names.now) (state_of U.tables builder.old) }
    requires may { IsLowerable (seen names.now) (syntax pattern.tree.now) }
    requires room { HasPatternRoom (state_of U.tables builder.old) (syntax pattern.tree.now) }
    ensures same_reference { builder.new.env.ghost_name ≡ builder.old.env.ghost_name }
    ensures lowered { IfOk result (λ place. LowersPattern (seen names.now) again kind at value (syntax pattern.entry.tree.now)
        (state_of U.tables builder.old) (state_of U.tables builder.new) place) }
    ensures memory { IfErr result (λ e. e ≡ Stop.OutOfMemory) }
{
    match binding_pattern_view(pattern) {
        BindingPattern::Identifier(bind) => {
            let bind = binding_identifier_view(bind);
            store_declared(builder, names, again, kind, at, &bind, value)
        }
        BindingPattern::Array { at: _, items, rest } => {
            let bound = bind_elements(alloc, builder, names, again, items, rest)?;
            let pattern = Pattern::Array(bound.items);
            let place = take_apart(alloc, builder, at, kind, pattern, value)?;
            lower_left(alloc, builder, names, again, kind, bound.left.as_slice())?;
            Ok(place)
        }
        BindingPattern::Object {
            at: _,
            properties,
            rest,
        } => {
            let bound = bind_properties(alloc, builder, names, again, properties, rest)?;
            let pattern = Pattern::Object(bound.properties);
            let place = take_apart(alloc, builder, at, kind, pattern, value)?;
            lower_left(alloc, builder, names, again, kind, bound.left.as_slice())?;
            Ok(place)
        }
    }
}

/// As `lower_pattern`, for a pattern that may have a default; its instruction has its own span.
#[cycle(patterns)]
fn lower_maybe_default<U: ReadsUnit>(
    alloc: Global,
    builder: &mut GraphBuilder<'_, U>,
    names: &FunctionNames<'_>,
    again: bool,
    kind: InstructionKind,
    at: Span,
    pattern: BindingPatternMaybeDefaultTree<'_>,
    value: Place,
) -> Result<Place, Stop>
    requires names { IsNamed (seen names.now) (state_of U.tables builder.old) }
    requires may { IsLowerable (seen names.now) (syntax pattern.tree.now) }
    requires room { HasPatternRoom (state_of U.tables builder.old) (syntax pattern.tree.now) }
    ensures same_reference { builder.new.env.ghost_name ≡ builder.old.env.ghost_name }
    ensures lowered { IfOk result (λ place. LowersPattern (seen names.now) again kind at value (syntax pattern.entry.tree.now)
        (state_of U.tables builder.old) (state_of U.tables builder.new) place) }
    ensures memory { IfErr result (λ e. e ≡ Stop.OutOfMemory) }
{
    match binding_pattern_maybe_default_view(pattern) {
        BindingPatternMaybeDefault::Pattern(pattern) => {
            lower_pattern(alloc, builder, names, again, kind, at, pattern, value)
        }
        BindingPatternMaybeDefault::Default {
            at: there,
            pattern,
            default,
        } => {
            let span = there.span;
            let value = lower_default(alloc, builder, names, span, default, value)?;
            lower_pattern(alloc, builder, names, again, kind, span, pattern, value)
        }
    }
}

/// As `lower_pattern`, for a part that was left for later.
#[cycle(patterns)]
fn lower_left_part<U: ReadsUnit>(
    alloc: Global,
    builder: &mut GraphBuilder<'_, U>,
    names: &FunctionNames<'_>,
    again: bool,
    kind: InstructionKind,
    left: LeftPattern<'_>,
) -> Result<Place, Stop>
    requires names { IsNamed (seen names.now) (state_of U.tables builder.old) }
    requires may { IsLowerable (seen names.now) (seen_part left.part) }
    requires room { HasPatternRoom (state_of U.tables builder.old) (seen_part left.part) }
    ensures same_reference { builder.new.env.ghost_name ≡ builder.old.env.ghost_name }
    ensures lowered { IfOk result (λ place. LowersPattern (seen names.now) again kind (span_of (seen_part left.entry.part))
        left.entry.value (seen_part left.entry.part) (state_of U.tables builder.old) (state_of U.tables builder.new) place) }
    ensures memory { IfErr result (λ e. e ≡ Stop.OutOfMemory) }
{
    let span = part_span(left.part);
    let value = left.value;
    match left.part {
        PatternPart::MaybeDefault(pattern) => {
            lower_maybe_default(alloc, builder, names, again, kind, span, pattern, value)
        }
        PatternPart::Pattern(pattern) => {
            lower_pattern(alloc, builder, names, again, kind, span, pattern, value)
        }
    }
}

/// Lowers the parts that were left for later, in order.
#[cycle(patterns)]
fn lower_left<U: ReadsUnit>(
    alloc: Global,
    builder: &mut GraphBuilder<'_, U>,
    names: &FunctionNames<'_>,
    again: bool,
    kind: InstructionKind,
    parts: &[LeftPattern<'_>],
) -> Result<(), Stop>
    requires names { IsNamed (seen names.now) (state_of U.tables builder.old) }
    requires may { AreLowerableLeft (seen names.now) (all_left parts.now) }
    requires room { HasLeftRoom (state_of U.tables builder.old) (all_left parts.now) }
    ensures same_reference { builder.new.env.ghost_name ≡ builder.old.env.ghost_name }
    ensures lowered { OnOk result (LowersBound (seen names.now) again kind (all_left parts.now)
        (state_of U.tables builder.old) (state_of U.tables builder.new)) }
    ensures memory { IfErr result (λ e. e ≡ Stop.OutOfMemory) }
{
    for part in parts {
        lower_left_part(alloc, builder, names, again, kind, *part)?;
    }
    Ok(())
}

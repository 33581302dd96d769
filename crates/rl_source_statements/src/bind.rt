//! Binding patterns that take values.

ghost use Rattle.std.specs.Prelude.{◌≡◌, ◌&&◌, IfOk};
ghost use Rattle.rl_grammar.specs.Fields.{maybe};
ghost use Rattle.rl_model.specs.Expressions.{eval, or_default};
ghost use Rattle.rl_model.specs.Patterns as patterns;
ghost use Rattle.rl_model.specs.Shapes as shapes;
ghost use Rattle.rl_source_stack.specs.Controls.{from, from_normal, trace_of};
ghost use Rattle.rl_source_stack.specs.Frames.{bind_rest};
ghost use Rattle.rl_source_stack.specs.Parts.{among, bindings_among};
ghost use Rattle.rl_source_stack.specs.States.{state_of};
ghost use Rattle.rl_source_statements.specs.Starts.{bound_array, bound_object, taken_object};
ghost use Rattle.rl_trace.specs.Values.{shown};
ghost use Rattle.rl_syntax.specs.Syntax.{syntax};

use crate::declare::declare_symbol;
use rl_ast::binding::{
    BindingPattern, BindingPatternElement, BindingPatternMaybeDefault, binding_identifier_view,
    binding_pattern_element_view, binding_pattern_maybe_default_view, binding_pattern_view,
    binding_property_view,
};
use rl_ast::function::binding_rest_element_view;
use rl_base::error::OutOfMemory;
use rl_base::operator::BinaryOperator;
use rl_grammar::sort::{
    BindingPatternElementTrees, BindingPatternMaybeDefaultTree, BindingPatternTree,
    BindingPropertyTrees, BindingRestElementTree, ExpressionTree,
};
use rl_machine::trace::Value;
use rl_source_shapes::pieces::{array_event, have_keys, is_plain_rest, object_event};
use rl_source_stack::apart::{Apart, Binding, Bindings, first_piece, later_pieces};
use rl_source_stack::behind::{Behind, Following};
use rl_source_stack::control::Control;
use rl_source_stack::events::binary_event;
use rl_source_stack::run::Run;
use rl_source_stack::stack::{Around, Frame};
use rl_trace::value::Val;

/// A value, or its default where it is undefined. On `OutOfMemory`, an allocation failed.
pub fn value_or_default<'b>(
    run: &mut Run<'b>,
    value: Val<'b>,
    default: ExpressionTree<'b>,
) -> Result<Control<'b>, OutOfMemory>
    ensures { IfOk result (λ c. trace_of c (state_of run.new)
        ≡ from (or_default (state_of run.old).scene (shown value.entry) (eval (state_of run.old).scene (syntax default.entry.tree.now)))
        (state_of run.old)) }
{
    run.push(Frame::Value(Behind::Same { value, default }))?;
    let event = binary_event(
        run.progress.alloc,
        BinaryOperator::StrictEquality,
        value,
        Val::Undefined,
    )?;
    run.ask_value(event)
}

/// Gives a value to an array pattern. On `OutOfMemory`, an allocation failed.
fn bind_array<'b>(
    run: &mut Run<'b>,
    everywhere: bool,
    items: BindingPatternElementTrees<'b>,
    rest: Option<BindingRestElementTree<'b>>,
    value: Val<'b>,
) -> Result<Control<'b>, OutOfMemory>
    ensures { IfOk result (λ c. trace_of c (state_of run.new)
        ≡ from_normal (bound_array (state_of run.old).scene everywhere (among items.entry.trees.now)
        (maybe rest.entry (λ t. syntax t.tree.now)) (shown value.entry)) (state_of run.old)) }
{
    run.push(Frame::Pieces(Apart::Bind {
        everywhere,
        items: Bindings::Elements(items),
        rest,
    }))?;
    let event = array_event(run.progress.alloc, items.trees, rest, value)?;
    run.ask_pieces(event)
}

/// True of an object pattern that has a meaning.
fn has_pieces(
    properties: BindingPropertyTrees<'_>,
    rest: Option<BindingRestElementTree<'_>>,
) -> bool
    ensures { result
        ≡ (shapes.have_keys (among properties.entry.trees.now) && shapes.is_plain_rest (maybe rest.entry (λ t. syntax t.tree.now))) }
{
    have_keys(properties.trees) && is_plain_rest(rest)
}

/// Gives a value to an object pattern. On `OutOfMemory`, an allocation failed.
fn bind_object<'b>(
    run: &mut Run<'b>,
    everywhere: bool,
    properties: BindingPropertyTrees<'b>,
    rest: Option<BindingRestElementTree<'b>>,
    value: Val<'b>,
) -> Result<Control<'b>, OutOfMemory>
    ensures { IfOk result (λ c. trace_of c (state_of run.new)
        ≡ from_normal (bound_object (state_of run.old).scene everywhere (among properties.entry.trees.now)
        (maybe rest.entry (λ t. syntax t.tree.now)) (shown value.entry)) (state_of run.old)) }
{
    if has_pieces(properties, rest) {
        return take_object(run, everywhere, properties, rest, value);
    }
    Ok(Control::Waiting)
}

/// As `bind_object`, for a pattern that has a meaning.
fn take_object<'b>(
    run: &mut Run<'b>,
    everywhere: bool,
    properties: BindingPropertyTrees<'b>,
    rest: Option<BindingRestElementTree<'b>>,
    value: Val<'b>,
) -> Result<Control<'b>, OutOfMemory>
    ensures { IfOk result (λ c. trace_of c (state_of run.new)
        ≡ from_normal (taken_object (state_of run.old).scene everywhere (among properties.entry.trees.now)
        (maybe rest.entry (λ t. syntax t.tree.now)) (shown value.entry)) (state_of run.old)) }
{
    run.push(Frame::Pieces(Apart::Bind {
        everywhere,
        items: Bindings::Properties(properties),
        rest,
    }))?;
    let event = object_event(run.progress.alloc, properties.trees, rest, value)?;
    run.ask_pieces(event)
}

/// Gives a value to a pattern. On `OutOfMemory`, an allocation failed.
fn bind_pattern<'b>(
    run: &mut Run<'b>,
    everywhere: bool,
    tree: BindingPatternTree<'b>,
    value: Val<'b>,
) -> Result<Control<'b>, OutOfMemory>
    ensures { IfOk result (λ c. trace_of c (state_of run.new)
        ≡ from_normal (patterns.bind (state_of run.old).scene everywhere (syntax tree.entry.tree.now) (shown value.entry))
        (state_of run.old)) }
{
    match binding_pattern_view(tree) {
        BindingPattern::Identifier(identifier) => {
            let identifier = binding_identifier_view(identifier);
            let symbol = run.names.declared(&identifier);
            declare_symbol(run, symbol, value)
        }
        BindingPattern::Array { at: _, items, rest } => {
            bind_array(run, everywhere, items, rest, value)
        }
        BindingPattern::Object {
            at: _,
            properties,
            rest,
        } => bind_object(run, everywhere, properties, rest, value),
    }
}

/// Gives a value to a pattern that may have a default. On `OutOfMemory`, an allocation failed.
fn bind_maybe_default<'b>(
    run: &mut Run<'b>,
    everywhere: bool,
    tree: BindingPatternMaybeDefaultTree<'b>,
    value: Val<'b>,
) -> Result<Control<'b>, OutOfMemory>
    ensures { IfOk result (λ c. trace_of c (state_of run.new)
        ≡ from_normal (patterns.bind (state_of run.old).scene everywhere (syntax tree.entry.tree.now) (shown value.entry))
        (state_of run.old)) }
{
    match binding_pattern_maybe_default_view(tree) {
        BindingPatternMaybeDefault::Pattern(pattern) => {
            Ok(Control::Bind(everywhere, Binding::Pattern(pattern), value))
        }
        BindingPatternMaybeDefault::Default {
            at: _,
            pattern,
            default,
        } => {
            run.push(Frame::Following(Following::Bind {
                everywhere,
                pattern: Binding::Pattern(pattern),
            }))?;
            value_or_default(run, value, default)
        }
    }
}

/// Gives a value to a pattern or to a part of one. On `OutOfMemory`, an allocation failed.
pub fn bind<'b>(
    run: &mut Run<'b>,
    everywhere: bool,
    binding: Binding<'b>,
    value: Val<'b>,
) -> Result<Control<'b>, OutOfMemory>
    ensures { IfOk result (λ c. trace_of c (state_of run.new)
        ≡ trace_of (Control.Bind everywhere binding.entry value.entry) (state_of run.old)) }
{
    match binding {
        Binding::Pattern(tree) => bind_pattern(run, everywhere, tree, value),
        Binding::MaybeDefault(tree) => bind_maybe_default(run, everywhere, tree, value),
        Binding::Property(tree) => {
            let property = binding_property_view(tree);
            let part = Binding::MaybeDefault(property.value);
            Ok(Control::Bind(everywhere, part, value))
        }
        Binding::Rest(tree) => {
            let rest = binding_rest_element_view(tree);
            let part = Binding::Pattern(rest.pattern);
            Ok(Control::Bind(everywhere, part, value))
        }
    }
}

/// Gives a value to the rest of a pattern, if there is one.
pub fn bind_the_rest<'b>(
    run: &Run<'b>,
    everywhere: bool,
    rest: Option<BindingRestElementTree<'b>>,
    value: Val<'b>,
) -> Control<'b>
    ensures { trace_of result (state_of run.now)
        ≡ from_normal (patterns.bind (state_of run.now).scene everywhere (maybe rest.entry (λ t. syntax t.tree.now)) (shown value.entry))
        (state_of run.now) }
{
    match rest {
        Some(rest) => Control::Bind(everywhere, Binding::Rest(rest), value),
        None => Control::Normal,
    }
}

/// Gives the next piece to the next item of an array pattern. On `OutOfMemory`, an allocation failed.
fn bind_item<'b>(
    run: &mut Run<'b>,
    everywhere: bool,
    items: BindingPatternElementTrees<'b>,
    pieces: &'b [Value],
    rest: Option<BindingRestElementTree<'b>>,
) -> Result<Control<'b>, OutOfMemory>
    ensures { IfOk result (λ c. trace_of c (state_of run.new)
        ≡ from_normal (bind_rest (state_of run.old).scene everywhere (bindings_among (Bindings.Elements items.entry)) pieces.now
        (maybe rest.entry (λ t. syntax t.tree.now))) (state_of run.old)) }
{
    match items.split_first() {
        None => Ok(bind_the_rest(run, everywhere, rest, first_piece(pieces))),
        Some((first, left)) => match binding_pattern_element_view(first) {
            BindingPatternElement::Hole { .. } => {
                run.push(Frame::Statement(Around::Bindings {
                    everywhere,
                    items: Bindings::Elements(left),
                    pieces,
                    rest,
                }))?;
                Ok(Control::Normal)
            }
            BindingPatternElement::Pattern(pattern) => {
                run.push(Frame::Statement(Around::Bindings {
                    everywhere,
                    items: Bindings::Elements(left),
                    pieces: later_pieces(pieces),
                    rest,
                }))?;
                let part = Binding::MaybeDefault(pattern);
                Ok(Control::Bind(everywhere, part, first_piece(pieces)))
            }
        },
    }
}

/// Gives the next piece to the next property of an object pattern. On `OutOfMemory`, an allocation failed.
fn bind_property<'b>(
    run: &mut Run<'b>,
    everywhere: bool,
    properties: BindingPropertyTrees<'b>,
    pieces: &'b [Value],
    rest: Option<BindingRestElementTree<'b>>,
) -> Result<Control<'b>, OutOfMemory>
    ensures { IfOk result (λ c. trace_of c (state_of run.new)
        ≡ from_normal (bind_rest (state_of run.old).scene everywhere (bindings_among (Bindings.Properties properties.entry)) pieces.now
        (maybe rest.entry (λ t. syntax t.tree.now))) (state_of run.old)) }
{
    match properties.split_first() {
        None => Ok(bind_the_rest(run, everywhere, rest, first_piece(pieces))),
        Some((first, left)) => {
            run.push(Frame::Statement(Around::Bindings {
                everywhere,
                items: Bindings::Properties(left),
                pieces: later_pieces(pieces),
                rest,
            }))?;
            let part = Binding::Property(first);
            Ok(Control::Bind(everywhere, part, first_piece(pieces)))
        }
    }
}

/// Gives the pieces that are left to the parts of a pattern that are left. On `OutOfMemory`, an allocation failed.
pub fn bind_parts<'b>(
    run: &mut Run<'b>,
    everywhere: bool,
    items: Bindings<'b>,
    pieces: &'b [Value],
    rest: Option<BindingRestElementTree<'b>>,
) -> Result<Control<'b>, OutOfMemory>
    ensures { IfOk result (λ c. trace_of c (state_of run.new)
        ≡ from_normal (bind_rest (state_of run.old).scene everywhere (bindings_among items.entry) pieces.now
        (maybe rest.entry (λ t. syntax t.tree.now))) (state_of run.old)) }
{
    match items {
        Bindings::Elements(items) => bind_item(run, everywhere, items, pieces, rest),
        Bindings::Properties(properties) => {
            bind_property(run, everywhere, properties, pieces, rest)
        }
    }
}

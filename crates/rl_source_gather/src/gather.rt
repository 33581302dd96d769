//! Parts in a row, each of which gives values, and the constructs that take them.

ghost use Rattle.std.specs.Prelude.{◌≡◌, ◌++◌, ◌∷◌, [], IfOk, OnOk, codes};
ghost use Rattle.rl_model.specs.Actions.{ask};
ghost use Rattle.rl_model.specs.Events as events;
ghost use Rattle.rl_model.specs.Expressions.{eval, property_key};
ghost use Rattle.rl_source_gather.specs.Gathered as spec;
ghost use Rattle.rl_source_gather.specs.Pairs.{pair_then};
ghost use Rattle.rl_source_stack.specs.Controls.{from, trace_of};
ghost use Rattle.rl_source_stack.specs.Parts.{among, gathered, gathering, given_next, parts_among};
ghost use Rattle.rl_source_stack.specs.States.{pushed, state_of};
ghost use Rattle.rl_trace.specs.Values.{shown};
ghost use Rattle.rl_syntax.specs.Syntax.{Then, syntax};

use crate::jsx::{gather_attributes, push_child_shapes, push_element};
use crate::jsx_item::{Item, child_item};
use rl_ast::binding::{PropertyKey, property_key_view};
use rl_ast::expression_part::{
    Argument, ArrayElement, ObjectProperty, argument_view, array_element_view, object_property_view,
};
use rl_ast::function_node::function_expression_view;
use rl_base::error::OutOfMemory;
use rl_base::ids::NodeId;
use rl_base::list::List;
use rl_base::text::Text;
use rl_grammar::sort::{
    ArgumentTrees, ArrayElementTrees, ExpressionTree, ExpressionTrees, JsxChildTrees,
    ObjectPropertyTree, ObjectPropertyTrees, PropertyKeyTree, TemplateElementTrees,
};
use rl_machine::trace::{Event, Value};
use rl_source_shapes::events::method_event;
use rl_source_shapes::keys::{is_computed, key_text, push_text};
use rl_source_shapes::shapes::{push_quasis, push_shapes};
use rl_source_stack::control::Control;
use rl_source_stack::events::{one_operand, two_operands};
use rl_source_stack::gather::{Gather, Parts, Pending};
use rl_source_stack::run::Run;
use rl_source_stack::stack::Frame;
use rl_trace::value::Val;
use std::alloc::Global;

/// Appends the texts of a template, and then the shapes of its expressions. On `OutOfMemory`, an allocation failed.
fn push_template(
    alloc: Global,
    quasis: TemplateElementTrees<'_>,
    expressions: ExpressionTrees<'_>,
    texts: &mut List<Text>,
) -> Result<(), OutOfMemory>
    ensures { OnOk result (texts.new
        ≡ texts.old ++ spec.template_texts (among quasis.entry.trees.now) (among expressions.entry.trees.now)) }
{
    push_quasis(alloc, quasis, texts)?;
    push_shapes(alloc, expressions.trees, texts)
}

/// Appends the texts of a tagged template. On `OutOfMemory`, an allocation failed.
fn push_tagged(
    alloc: Global,
    quasis: TemplateElementTrees<'_>,
    expressions: ExpressionTrees<'_>,
    texts: &mut List<Text>,
) -> Result<(), OutOfMemory>
    ensures { OnOk result (texts.new
        ≡ texts.old ++ codes "place" ∷ spec.template_texts (among quasis.entry.trees.now) (among expressions.entry.trees.now)) }
{
    push_text(alloc, "place", texts)?;
    push_template(alloc, quasis, expressions, texts)
}

/// Appends the texts of a construct. On `OutOfMemory`, an allocation failed.
fn push_texts<'b>(
    run: &Run<'b>,
    what: Gather<'b>,
    texts: &mut List<Text>,
) -> Result<(), OutOfMemory>
    ensures { OnOk result (texts.new ≡ texts.old ++ spec.texts_of (state_of run.now).scene what.entry) }
{
    let alloc = run.progress.alloc;
    match what {
        Gather::Call { lent: _, arguments } => push_shapes(alloc, arguments.trees, texts),
        Gather::New { arguments } => push_shapes(alloc, arguments.trees, texts),
        Gather::Template {
            quasis,
            expressions,
        } => push_template(alloc, quasis, expressions, texts),
        Gather::Tagged {
            quasis,
            expressions,
        } => push_tagged(alloc, quasis, expressions, texts),
        Gather::Array { items } => push_shapes(alloc, items.trees, texts),
        Gather::Object { properties } => push_shapes(alloc, properties.trees, texts),
        Gather::Attributes {
            tag,
            attributes,
            children,
        } => push_element(run, tag, attributes, children, texts),
        Gather::Children {
            tag,
            attributes,
            children,
        } => push_element(run, tag, attributes, children, texts),
        Gather::Fragment { children } => push_child_shapes(run, children, texts),
    }
}

/// The texts of a construct. On `OutOfMemory`, an allocation failed.
fn texts_of<'b>(run: &Run<'b>, what: Gather<'b>) -> Result<List<Text>, OutOfMemory>
    ensures { IfOk result (λ texts. texts ≡ spec.texts_of (state_of run.now).scene what.entry) }
{
    let mut texts = List::new(run.progress.alloc);
    push_texts(run, what, &mut texts)?;
    Ok(texts)
}

/// The kind of the event of a construct.
fn kind_of(what: Gather<'_>) -> &'static str
    ensures { result.now ≡ spec.kind_of what.entry }
{
    match what {
        Gather::Call { lent, arguments: _ } => { if lent { "methodcall" } else { "call" } }
        Gather::New { .. } => "new",
        Gather::Template { .. } => "template",
        Gather::Tagged { .. } => "tagged",
        Gather::Array { .. } => "array",
        Gather::Object { .. } => "object",
        Gather::Attributes { .. } => "jsx",
        Gather::Children { .. } => "jsx",
        Gather::Fragment { .. } => "jsxfragment",
    }
}

/// The event of a construct with its values. On `OutOfMemory`, an allocation failed.
fn gathered_event<'b>(
    run: &Run<'b>,
    what: Gather<'b>,
    given: List<Value>,
) -> Result<Event, OutOfMemory>
    ensures { IfOk result (λ e. e ≡ events.event (spec.kind_of what.entry) (spec.texts_of (state_of run.now).scene what.entry) given) }
{
    Ok(Event {
        kind: Text::from_str(run.progress.alloc, kind_of(what))?,
        texts: texts_of(run, what)?,
        operands: given,
    })
}

/// Asks the event of a construct. On `OutOfMemory`, an allocation failed.
fn ask_gathered<'b>(
    run: &mut Run<'b>,
    what: Gather<'b>,
    given: List<Value>,
) -> Result<Control<'b>, OutOfMemory>
    ensures { IfOk result (λ c. trace_of c (state_of run.new)
        ≡ from (ask (state_of run.old).scene
        (events.event (spec.kind_of what.entry) (spec.texts_of (state_of run.old).scene what.entry) given)) (state_of run.old)) }
{
    let event = gathered_event(run, what, given)?;
    run.ask_value(event)
}

/// Goes on with a construct all of whose values are there. On `OutOfMemory`, an allocation failed.
#[cycle(gathering)]
pub fn finish<'b>(
    run: &mut Run<'b>,
    what: Gather<'b>,
    given: List<Value>,
) -> Result<Control<'b>, OutOfMemory>
    ensures { IfOk result (λ c. trace_of c (state_of run.new)
        ≡ from (gathered (state_of run.old).scene what.entry given) (state_of run.old)) }
{
    match what {
        Gather::Attributes {
            tag,
            attributes,
            children,
        } => {
            let next = Gather::Children {
                tag,
                attributes,
                children,
            };
            gather_children(run, next, children, given)
        }
        Gather::Call { .. } => ask_gathered(run, what, given),
        Gather::New { .. } => ask_gathered(run, what, given),
        Gather::Template { .. } => ask_gathered(run, what, given),
        Gather::Tagged { .. } => ask_gathered(run, what, given),
        Gather::Array { .. } => ask_gathered(run, what, given),
        Gather::Object { .. } => ask_gathered(run, what, given),
        Gather::Children { .. } => ask_gathered(run, what, given),
        Gather::Fragment { .. } => ask_gathered(run, what, given),
    }
}

/// Gathers the children of an element or of a fragment that are left. On `OutOfMemory`, an allocation failed.
#[cycle(gathering)]
pub fn gather_children<'b>(
    run: &mut Run<'b>,
    what: Gather<'b>,
    left: JsxChildTrees<'b>,
    given: List<Value>,
) -> Result<Control<'b>, OutOfMemory>
    ensures { IfOk result (λ c. trace_of c (state_of run.new)
        ≡ from (gathering (state_of run.old).scene what.entry (among left.entry.trees.now) given) (state_of run.old)) }
{
    let mut next = left;
    let mut given = given;
    'children: while let Some((child, behind)) = next.split_first() {
        let left = Parts::Children(behind);
        let item = child_item(run, child)?;
        match item {
            Item::Nothing => next = behind,
            Item::Known(value) => {
                given.push(value)?;
                next = behind;
            }
            Item::Expression(tree) => {
                return give_part(run, what, left, given, Control::Evaluate(tree));
            }
            Item::Element(tree) => {
                return give_part(run, what, left, given, Control::Element(tree));
            }
            Item::Fragment(tree) => {
                return give_part(run, what, left, given, Control::Fragment(tree));
            }
            Item::Meaningless => return Ok(Control::Waiting),
        }
    }
    finish(run, what, given)
}

/// Evaluates a part that gives one value, and goes on with those behind it. On `OutOfMemory`, an allocation failed.
pub fn give_part<'b>(
    run: &mut Run<'b>,
    what: Gather<'b>,
    left: Parts<'b>,
    given: List<Value>,
    part: Control<'b>,
) -> Result<Control<'b>, OutOfMemory>
    ensures { IfOk result (λ c. trace_of c (state_of run.new)
        ≡ trace_of part.entry (pushed (Frame.Given what.entry Pending.Nothing left.entry given) (state_of run.old))) }
{
    run.push(Frame::Given {
        gather: what,
        pending: Pending::Nothing,
        left,
        given,
    })?;
    Ok(part)
}

/// Gathers the arguments of a call that are left. On `OutOfMemory`, an allocation failed.
fn gather_arguments<'b>(
    run: &mut Run<'b>,
    what: Gather<'b>,
    left: ArgumentTrees<'b>,
    given: List<Value>,
) -> Result<Control<'b>, OutOfMemory>
    ensures { IfOk result (λ c. trace_of c (state_of run.new)
        ≡ from (gathering (state_of run.old).scene what.entry (among left.entry.trees.now) given) (state_of run.old)) }
{
    match left.split_first() {
        None => finish(run, what, given),
        Some((part, left)) => {
            let left = Parts::Arguments(left);
            match argument_view(part) {
                Argument::Expression(argument) => {
                    give_part(run, what, left, given, Control::Evaluate(argument))
                }
                Argument::Spread { at: _, argument } => {
                    give_part(run, what, left, given, Control::Evaluate(argument))
                }
            }
        }
    }
}

/// Gathers the expressions of a template that are left. On `OutOfMemory`, an allocation failed.
fn gather_expressions<'b>(
    run: &mut Run<'b>,
    what: Gather<'b>,
    left: ExpressionTrees<'b>,
    given: List<Value>,
) -> Result<Control<'b>, OutOfMemory>
    ensures { IfOk result (λ c. trace_of c (state_of run.new)
        ≡ from (gathering (state_of run.old).scene what.entry (among left.entry.trees.now) given) (state_of run.old)) }
{
    match left.split_first() {
        None => finish(run, what, given),
        Some((part, left)) => {
            let left = Parts::Expressions(left);
            give_part(run, what, left, given, Control::Evaluate(part))
        }
    }
}

/// Gathers the elements of an array that are left. On `OutOfMemory`, an allocation failed.
fn gather_elements<'b>(
    run: &mut Run<'b>,
    what: Gather<'b>,
    left: ArrayElementTrees<'b>,
    given: List<Value>,
) -> Result<Control<'b>, OutOfMemory>
    ensures { IfOk result (λ c. trace_of c (state_of run.new)
        ≡ from (gathering (state_of run.old).scene what.entry (among left.entry.trees.now) given) (state_of run.old)) }
{
    let mut next = left;
    'elements: while let Some((part, behind)) = next.split_first() {
        match array_element_view(part) {
            ArrayElement::Hole { .. } => next = behind,
            ArrayElement::Expression(element) => {
                let left = Parts::Elements(behind);
                return give_part(run, what, left, given, Control::Evaluate(element));
            }
            ArrayElement::Spread { at: _, argument } => {
                let left = Parts::Elements(behind);
                return give_part(run, what, left, given, Control::Evaluate(argument));
            }
        }
    }
    finish(run, what, given)
}

/// Gathers a property whose key is computed. On `OutOfMemory`, an allocation failed.
fn give_key<'b>(
    run: &mut Run<'b>,
    what: Gather<'b>,
    pending: Pending<'b>,
    left: Parts<'b>,
    given: List<Value>,
    key: PropertyKeyTree<'b>,
) -> Result<Control<'b>, OutOfMemory>
    ensures { IfOk result (λ c. trace_of c (state_of run.new)
        ≡ from (eval (state_of run.old).scene (syntax key.entry.tree.now))
        (pushed (Frame.Given what.entry pending.entry left.entry given) (state_of run.old))) }
{
    match property_key_view(key) {
        PropertyKey::Expression(key) => {
            run.push(Frame::Given {
                gather: what,
                pending,
                left,
                given,
            })?;
            Ok(Control::Evaluate(key))
        }
        PropertyKey::Name { .. } => Ok(Control::Waiting),
        PropertyKey::Private { .. } => Ok(Control::Waiting),
    }
}

/// Gathers a method. On `OutOfMemory`, an allocation failed.
fn give_method<'b>(
    run: &mut Run<'b>,
    what: Gather<'b>,
    left: Parts<'b>,
    given: List<Value>,
    node: NodeId,
) -> Result<Control<'b>, OutOfMemory>
    ensures { IfOk result (λ c. trace_of c (state_of run.new)
        ≡ from (ask (state_of run.old).scene (events.method node.0))
        (pushed (Frame.Given what.entry Pending.Nothing left.entry given) (state_of run.old))) }
{
    run.push(Frame::Given {
        gather: what,
        pending: Pending::Nothing,
        left,
        given,
    })?;
    let event = method_event(run.progress.alloc, node)?;
    run.ask_value(event)
}

/// Gathers a property with a value, whose key comes first where it is computed. On `OutOfMemory`, an allocation failed.
fn gather_pair<'b>(
    run: &mut Run<'b>,
    what: Gather<'b>,
    left: Parts<'b>,
    given: List<Value>,
    computed: bool,
    key: PropertyKeyTree<'b>,
    value: ExpressionTree<'b>,
) -> Result<Control<'b>, OutOfMemory>
    ensures { IfOk result (λ c. trace_of c (state_of run.new)
        ≡ from (pair_then (state_of run.old).scene what.entry
        (property_key computed (syntax key.entry.tree.now) (eval (state_of run.old).scene (syntax key.entry.tree.now)))
        (eval (state_of run.old).scene (syntax value.entry.tree.now)) (parts_among left.entry) given) (state_of run.old)) }
{
    if is_computed(computed, key.tree) {
        return give_key(run, what, Pending::Value(value), left, given, key);
    }
    match key_text(computed, key.tree) {
        Some(_) => give_part(run, what, left, given, Control::Evaluate(value)),
        None => Ok(Control::Waiting),
    }
}

/// Gathers a method, whose key comes first where it is computed. On `OutOfMemory`, an allocation failed.
fn gather_method<'b>(
    run: &mut Run<'b>,
    what: Gather<'b>,
    left: Parts<'b>,
    given: List<Value>,
    computed: bool,
    key: PropertyKeyTree<'b>,
    node: NodeId,
) -> Result<Control<'b>, OutOfMemory>
    ensures { IfOk result (λ c. trace_of c (state_of run.new)
        ≡ from (pair_then (state_of run.old).scene what.entry
        (property_key computed (syntax key.entry.tree.now) (eval (state_of run.old).scene (syntax key.entry.tree.now)))
        (ask (state_of run.old).scene (events.method node.0)) (parts_among left.entry) given) (state_of run.old)) }
{
    if is_computed(computed, key.tree) {
        return give_key(run, what, Pending::Method(node), left, given, key);
    }
    match key_text(computed, key.tree) {
        Some(_) => give_method(run, what, left, given, node),
        None => Ok(Control::Waiting),
    }
}

/// Gathers a property of an object, and then those behind it. On `OutOfMemory`, an allocation failed.
fn gather_property<'b>(
    run: &mut Run<'b>,
    what: Gather<'b>,
    part: ObjectPropertyTree<'b>,
    left: Parts<'b>,
    given: List<Value>,
) -> Result<Control<'b>, OutOfMemory>
    ensures { IfOk result (λ c. trace_of c (state_of run.new)
        ≡ from (gathering (state_of run.old).scene what.entry (Then (syntax part.entry.tree.now) (parts_among left.entry)) given)
        (state_of run.old)) }
{
    match object_property_view(part) {
        ObjectProperty::Value {
            at: _,
            computed,
            key,
            value,
        } => gather_pair(run, what, left, given, computed, key, value),
        ObjectProperty::Method {
            at: _at,
            computed,
            key,
            function,
        } => {
            let function = function_expression_view(function);
            gather_method(run, what, left, given, computed, key, function.at.id)
        }
        ObjectProperty::Get { .. } => Ok(Control::Waiting),
        ObjectProperty::Set { .. } => Ok(Control::Waiting),
        ObjectProperty::Spread { at: _, argument } => {
            give_part(run, what, left, given, Control::Evaluate(argument))
        }
    }
}

/// Gathers the properties of an object that are left. On `OutOfMemory`, an allocation failed.
fn gather_properties<'b>(
    run: &mut Run<'b>,
    what: Gather<'b>,
    left: ObjectPropertyTrees<'b>,
    given: List<Value>,
) -> Result<Control<'b>, OutOfMemory>
    ensures { IfOk result (λ c. trace_of c (state_of run.new)
        ≡ from (gathering (state_of run.old).scene what.entry (among left.entry.trees.now) given) (state_of run.old)) }
{
    match left.split_first() {
        None => finish(run, what, given),
        Some((part, left)) => gather_property(run, what, part, Parts::Properties(left), given),
    }
}

/// Gathers the parts that are left, behind the values that are given. On `OutOfMemory`, an allocation failed.
pub fn gather<'b>(
    run: &mut Run<'b>,
    what: Gather<'b>,
    left: Parts<'b>,
    given: List<Value>,
) -> Result<Control<'b>, OutOfMemory>
    ensures { IfOk result (λ c. trace_of c (state_of run.new)
        ≡ from (gathering (state_of run.old).scene what.entry (parts_among left.entry) given) (state_of run.old)) }
{
    match left {
        Parts::Arguments(left) => gather_arguments(run, what, left, given),
        Parts::Elements(left) => gather_elements(run, what, left, given),
        Parts::Properties(left) => gather_properties(run, what, left, given),
        Parts::Expressions(left) => gather_expressions(run, what, left, given),
        Parts::Attributes(left) => gather_attributes(run, what, left, given),
        Parts::Children(left) => gather_children(run, what, left, given),
    }
}

/// Gathers parts behind one value. On `OutOfMemory`, an allocation failed.
pub fn gather_one<'b>(
    run: &mut Run<'b>,
    what: Gather<'b>,
    left: Parts<'b>,
    value: Val<'b>,
) -> Result<Control<'b>, OutOfMemory>
    ensures { IfOk result (λ c. trace_of c (state_of run.new)
        ≡ from (gathering (state_of run.old).scene what.entry (parts_among left.entry) (shown value.entry ∷ [])) (state_of run.old)) }
{
    let given = one_operand(run.progress.alloc, value)?;
    gather(run, what, left, given)
}

/// Gathers parts behind two values. On `OutOfMemory`, an allocation failed.
pub fn gather_two<'b>(
    run: &mut Run<'b>,
    what: Gather<'b>,
    left: Parts<'b>,
    first: Val<'b>,
    second: Val<'b>,
) -> Result<Control<'b>, OutOfMemory>
    ensures { IfOk result (λ c. trace_of c (state_of run.new)
        ≡ from (gathering (state_of run.old).scene what.entry (parts_among left.entry) (shown first.entry ∷ shown second.entry ∷ []))
        (state_of run.old)) }
{
    let given = two_operands(run.progress.alloc, first, second)?;
    gather(run, what, left, given)
}

/// Goes on with the next value of a construct. On `OutOfMemory`, an allocation failed.
pub fn take_given<'b>(
    run: &mut Run<'b>,
    what: Gather<'b>,
    pending: Pending<'b>,
    left: Parts<'b>,
    given: List<Value>,
    value: Val<'b>,
) -> Result<Control<'b>, OutOfMemory>
    ensures { IfOk result (λ c. trace_of c (state_of run.new)
        ≡ from (given_next (state_of run.old).scene what.entry pending.entry (parts_among left.entry) given (shown value.entry))
        (state_of run.old)) }
{
    let mut given = given;
    given.push(value.copy(run.progress.alloc)?)?;
    match pending {
        Pending::Nothing => gather(run, what, left, given),
        Pending::Value(expression) => {
            give_part(run, what, left, given, Control::Evaluate(expression))
        }
        Pending::Method(node) => give_method(run, what, left, given, node),
    }
}

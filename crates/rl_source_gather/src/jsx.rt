//! JSX: elements, their attributes, children and tags.

ghost use Rattle.std.specs.Prelude.{◌≡◌, ◌++◌, ◌∷◌, [], IfOk, OnOk, codes, false, is_some};
ghost use Rattle.std.specs.Option.{option_map};
ghost use Rattle.rl_model.specs.Actions.{ask};
ghost use Rattle.rl_model.specs.Events as events;
ghost use Rattle.rl_model.specs.Expressions.{tag_value};
ghost use Rattle.rl_model.specs.Shapes as shapes;
ghost use Rattle.rl_grammar.specs.Fields.{maybe};
ghost use Rattle.rl_source_gather.specs.Keys as keys;
ghost use Rattle.rl_source_gather.specs.Tags as tags;
ghost use Rattle.rl_source_stack.specs.Controls.{from, trace_of};
ghost use Rattle.rl_source_stack.specs.Parts.{among, gathering};
ghost use Rattle.rl_source_stack.specs.States.{pushed, state_of};
ghost use Rattle.rl_syntax.specs.Syntax.{syntax};

use crate::gather::{finish, gather_children, give_part};
use crate::jsx_item::{Item, attribute_item, child_item, is_nothing};
use rl_ast::binding::identifier_reference_view;
use rl_ast::jsx::{
    JsxAttribute, JsxAttributeName, JsxAttributeValue, JsxElementName, jsx_attribute_name_view,
    jsx_attribute_value_view, jsx_attribute_view, jsx_element_name_view, jsx_element_view,
    jsx_fragment_view, jsx_opening_element_view,
};
use rl_base::error::OutOfMemory;
use rl_base::list::List;
use rl_base::text::Text;
use rl_grammar::sort::{
    JsxAttributeNameTree, JsxAttributeTree, JsxAttributeTrees, JsxAttributeValueTree, JsxChildTree,
    JsxChildTrees, JsxElementNameTree, JsxElementTree, JsxFragmentTree,
};
use rl_machine::trace::{Event, Value};
use rl_source_shapes::events::named_event;
use rl_source_shapes::keys::{push_text, said};
use rl_source_shapes::names::read_name;
use rl_source_stack::behind::Behind;
use rl_source_stack::control::Control;
use rl_source_stack::gather::{Gather, Parts};
use rl_source_stack::property::{Property, Use};
use rl_source_stack::run::Run;
use rl_source_stack::stack::Frame;
use std::alloc::Global;

/// True of a name whose first letter is one of A to Z.
fn is_capital(name: &Text) -> bool
    ensures { result ≡ shapes.is_capital name.now }
{
    match name.as_bytes() {
        [] => false,
        [first, _bytes @ ..] => 65 <= *first && *first <= 90,
    }
}

/// The name of a builtin element. None of another tag, whose value is taken.
fn builtin<'b>(tag: JsxElementNameTree<'b>) -> Option<&'b str>
    ensures { option_map (λ name. shapes.said name.now) result ≡ shapes.builtin (syntax tag.entry.tree.now) }
{
    match jsx_element_name_view(tag) {
        JsxElementName::Name { at: _, name } => {
            if is_capital(name) {
                None
            } else {
                Some(name.as_str())
            }
        }
        JsxElementName::Identifier(identifier) => {
            let identifier = identifier_reference_view(identifier);
            if is_capital(identifier.name) {
                None
            } else {
                Some(identifier.name.as_str())
            }
        }
        JsxElementName::This { .. } => Some("this"),
        JsxElementName::Member { .. } => None,
        JsxElementName::Namespaced { .. } => None,
    }
}

/// True of the tag of a builtin element.
fn is_builtin(tag: JsxElementNameTree<'_>) -> bool
    ensures { result ≡ is_some (shapes.builtin (syntax tag.entry.tree.now)) }
{
    builtin(tag).is_some()
}

/// The text of an attribute's name. On `OutOfMemory`, an allocation failed.
fn attribute_name(alloc: Global, name: JsxAttributeNameTree<'_>) -> Result<Text, OutOfMemory>
    ensures { IfOk result (λ text. text ≡ shapes.attribute_name (syntax name.entry.tree.now)) }
{
    match jsx_attribute_name_view(name) {
        JsxAttributeName::Name { at: _, name } => said(alloc, name.as_str()),
        JsxAttributeName::Namespaced {
            at: _,
            namespace,
            name,
        } => {
            let namespace = namespace.as_str();
            let name = name.as_str();
            Ok(Text::new(format!(in alloc; ".{namespace}:{name}")?))
        }
    }
}

/// True of the value of an attribute that is a container without an expression.
fn is_empty_container(value: Option<JsxAttributeValueTree<'_>>) -> bool
    ensures { result ≡ keys.is_empty_container (maybe value.entry (λ t. syntax t.tree.now)) }
{
    let Some(value) = value else {
        return false;
    };
    match jsx_attribute_value_view(value) {
        JsxAttributeValue::Container {
            at: _,
            expression: None,
        } => true,
        JsxAttributeValue::Container {
            at: _,
            expression: Some(_),
        } => false,
        JsxAttributeValue::String { .. } => false,
        JsxAttributeValue::Element(_) => false,
        JsxAttributeValue::Fragment(_) => false,
    }
}

/// Appends the shape of an attribute. On `OutOfMemory`, an allocation failed.
fn push_attribute_shape(
    alloc: Global,
    attribute: JsxAttributeTree<'_>,
    texts: &mut List<Text>,
) -> Result<(), OutOfMemory>
    ensures { OnOk result (texts.new ≡ texts.old ++ shapes.attribute_shape (syntax attribute.entry.tree.now)) }
{
    match jsx_attribute_view(attribute) {
        JsxAttribute::Attribute { at: _, name, value } => {
            if is_empty_container(value) {
                return Ok(());
            }
            texts.push(attribute_name(alloc, name)?)?;
            push_text(alloc, "place", texts)
        }
        JsxAttribute::Spread { .. } => push_text(alloc, "spread", texts),
    }
}

/// Appends the shapes of attributes. On `OutOfMemory`, an allocation failed.
fn push_attribute_shapes(
    alloc: Global,
    attributes: JsxAttributeTrees<'_>,
    texts: &mut List<Text>,
) -> Result<(), OutOfMemory>
    ensures { OnOk result (texts.new ≡ texts.old ++ shapes.attribute_shapes (among attributes.entry.trees.now)) }
{
    let mut left = attributes;
    'attributes: while let Some((attribute, behind)) = left.split_first() {
        push_attribute_shape(alloc, attribute, texts)?;
        left = behind;
    }
    Ok(())
}

/// Appends the shape of a child. On `OutOfMemory`, an allocation failed.
fn push_child_shape<'b>(
    run: &Run<'b>,
    child: JsxChildTree<'b>,
    texts: &mut List<Text>,
) -> Result<(), OutOfMemory>
    ensures { OnOk result (texts.new ≡ texts.old ++ shapes.child_shape (state_of run.now).scene (syntax child.entry.tree.now)) }
{
    let item = child_item(run, child)?;
    if is_nothing(&item) {
        return Ok(());
    }
    push_text(run.progress.alloc, "place", texts)
}

/// Appends the shapes of children. On `OutOfMemory`, an allocation failed.
pub fn push_child_shapes<'b>(
    run: &Run<'b>,
    children: JsxChildTrees<'b>,
    texts: &mut List<Text>,
) -> Result<(), OutOfMemory>
    ensures { OnOk result (texts.new ≡ texts.old ++ shapes.child_shapes (state_of run.now).scene (among children.entry.trees.now)) }
{
    let mut left = children;
    'children: while let Some((child, behind)) = left.split_first() {
        push_child_shape(run, child, texts)?;
        left = behind;
    }
    Ok(())
}

/// Appends the shape of a tag. On `OutOfMemory`, an allocation failed.
fn push_tag_shape(
    alloc: Global,
    tag: JsxElementNameTree<'_>,
    texts: &mut List<Text>,
) -> Result<(), OutOfMemory>
    ensures { OnOk result (texts.new ≡ texts.old ++ shapes.tag_shape (syntax tag.entry.tree.now)) }
{
    match builtin(tag) {
        Some(name) => {
            texts.push(said(alloc, name)?)?;
            Ok(())
        }
        None => push_text(alloc, "place", texts),
    }
}

/// Appends the texts of an element. On `OutOfMemory`, an allocation failed.
pub fn push_element<'b>(
    run: &Run<'b>,
    tag: JsxElementNameTree<'b>,
    attributes: JsxAttributeTrees<'b>,
    children: JsxChildTrees<'b>,
    texts: &mut List<Text>,
) -> Result<(), OutOfMemory>
    ensures { OnOk result (texts.new ≡ texts.old ++ tags.element_texts (state_of run.now).scene
        (syntax tag.entry.tree.now) (among attributes.entry.trees.now) (among children.entry.trees.now)) }
{
    push_tag_shape(run.progress.alloc, tag, texts)?;
    push_attribute_shapes(run.progress.alloc, attributes, texts)?;
    push_child_shapes(run, children, texts)
}

/// The text of a tag with a namespace. On `OutOfMemory`, an allocation failed.
fn namespaced(alloc: Global, namespace: &Text, name: &Text) -> Result<Value, OutOfMemory>
    ensures { IfOk result (λ v. v ≡ Value.Text (namespace.now ++ codes ":" ++ name.now)) }
{
    let namespace = namespace.as_str();
    let name = name.as_str();
    Ok(Value::Text(Text::new(format!(in alloc; "{namespace}:{name}")?)))
}

/// Asks for a name of the outside. On `OutOfMemory`, an allocation failed.
fn ask_named<'b>(run: &mut Run<'b>, name: &str) -> Result<Control<'b>, OutOfMemory>
    ensures { IfOk result (λ c. trace_of c (state_of run.new)
        ≡ from (ask (state_of run.old).scene (events.global (name.now ∷ []))) (state_of run.old)) }
{
    let event = named_event(run.progress.alloc, name)?;
    run.ask_value(event)
}

/// The event that takes a property of a tag with a namespace. On `OutOfMemory`, an allocation failed.
fn namespaced_event(
    alloc: Global,
    namespace: &Text,
    name: &Text,
    property: &Text,
) -> Result<Event, OutOfMemory>
    ensures { IfOk result (λ e.
        e ≡ events.load (Value.Text (namespace.now ++ codes ":" ++ name.now)) (events.fixed_key (Value.Text property.now))) }
{
    let mut operands = List::with_capacity(alloc, 2)?;
    operands.push(namespaced(alloc, namespace, name)?)?;
    operands.push(Value::Text(property.copy(alloc)?))?;
    Ok(Event {
        kind: Text::from_str(alloc, "propertyload")?,
        texts: List::new(alloc),
        operands,
    })
}

/// Asks for a property of a tag with a namespace. On `OutOfMemory`, an allocation failed.
fn load_namespaced<'b>(
    run: &mut Run<'b>,
    namespace: &Text,
    name: &Text,
    property: &Text,
) -> Result<Control<'b>, OutOfMemory>
    ensures { IfOk result (λ c. trace_of c (state_of run.new)
        ≡ from (ask (state_of run.old).scene
        (events.load (Value.Text (namespace.now ++ codes ":" ++ name.now)) (events.fixed_key (Value.Text property.now))))
        (state_of run.old)) }
{
    let event = namespaced_event(run.progress.alloc, namespace, name, property)?;
    run.ask_value(event)
}

/// Waits for the object of a tag, whose property is next. On `OutOfMemory`, an allocation failed.
fn push_property<'b>(run: &mut Run<'b>, property: &'b Text) -> Result<(), OutOfMemory>
    ensures { OnOk result (
        state_of run.new ≡ pushed (Frame.Value (Behind.Object false (Property.Named property.entry) Use.Load)) (state_of run.old)) }
{
    run.push(Frame::Value(Behind::Object {
        optional: false,
        property: Property::Named(property),
        then: Use::Load,
    }))
}

/// Evaluates a tag that is a property, down to its first name. On `OutOfMemory`, an allocation failed.
fn evaluate_member<'b>(
    run: &mut Run<'b>,
    object: JsxElementNameTree<'b>,
    property: &'b Text,
) -> Result<Control<'b>, OutOfMemory>
    ensures { IfOk result (λ c. trace_of c (state_of run.new)
        ≡ from (tags.member_value (state_of run.old).scene (syntax object.entry.tree.now) property.entry.now) (state_of run.old)) }
{
    match jsx_element_name_view(object) {
        JsxElementName::Namespaced {
            at: _,
            namespace,
            name,
        } => load_namespaced(run, namespace, name, property),
        JsxElementName::Name { at: _, name } => {
            push_property(run, property)?;
            ask_named(run, name.as_str())
        }
        JsxElementName::Identifier(identifier) => {
            push_property(run, property)?;
            read_name(run, identifier_reference_view(identifier))
        }
        JsxElementName::This { .. } => {
            push_property(run, property)?;
            ask_named(run, "this")
        }
        JsxElementName::Member {
            at: _,
            object: inner,
            property: middle,
        } => {
            push_property(run, property)?;
            evaluate_member(run, inner, middle)
        }
    }
}

/// Evaluates a tag, behind which the attributes and the children are next. On `OutOfMemory`, an allocation failed.
fn evaluate_tag<'b>(
    run: &mut Run<'b>,
    tag: JsxElementNameTree<'b>,
    attributes: JsxAttributeTrees<'b>,
    children: JsxChildTrees<'b>,
) -> Result<Control<'b>, OutOfMemory>
    ensures { IfOk result (λ c. trace_of c (state_of run.new)
        ≡ from (tag_value (state_of run.old).scene (syntax tag.entry.tree.now))
        (pushed (Frame.Value (Behind.Tag tag.entry attributes.entry children.entry)) (state_of run.old))) }
{
    let behind = Behind::Tag {
        tag,
        attributes,
        children,
    };
    match jsx_element_name_view(tag) {
        JsxElementName::Namespaced {
            at: _,
            namespace,
            name,
        } => gather_namespaced(run, namespace, name, tag, attributes, children),
        JsxElementName::Name { at: _, name } => {
            run.push(Frame::Value(behind))?;
            ask_named(run, name.as_str())
        }
        JsxElementName::Identifier(identifier) => {
            run.push(Frame::Value(behind))?;
            read_name(run, identifier_reference_view(identifier))
        }
        JsxElementName::This { .. } => {
            run.push(Frame::Value(behind))?;
            ask_named(run, "this")
        }
        JsxElementName::Member {
            at: _,
            object,
            property,
        } => {
            run.push(Frame::Value(behind))?;
            evaluate_member(run, object, property)
        }
    }
}

/// Gathers the attributes of an element behind a tag with a namespace. On `OutOfMemory`, an allocation failed.
fn gather_namespaced<'b>(
    run: &mut Run<'b>,
    namespace: &Text,
    name: &Text,
    tag: JsxElementNameTree<'b>,
    attributes: JsxAttributeTrees<'b>,
    children: JsxChildTrees<'b>,
) -> Result<Control<'b>, OutOfMemory>
    ensures { IfOk result (λ c. trace_of c (state_of run.new)
        ≡ from (gathering (state_of run.old).scene (Gather.Attributes tag.entry attributes.entry children.entry)
        (among attributes.entry.trees.now) (Value.Text (namespace.now ++ codes ":" ++ name.now) ∷ [])) (state_of run.old)) }
{
    let what = Gather::Attributes {
        tag,
        attributes,
        children,
    };
    let mut given = List::new(run.progress.alloc);
    given.push(namespaced(run.progress.alloc, namespace, name)?)?;
    gather_attributes(run, what, attributes, given)
}

/// Evaluates an element, down to its tag. On `OutOfMemory`, an allocation failed.
pub fn evaluate_element<'b>(
    run: &mut Run<'b>,
    tree: JsxElementTree<'b>,
) -> Result<Control<'b>, OutOfMemory>
    ensures { IfOk result (λ c. trace_of c (state_of run.new) ≡ trace_of (Control.Element tree.entry) (state_of run.old)) }
{
    let element = jsx_element_view(tree);
    let opening = jsx_opening_element_view(element.opening);
    let tag = opening.tag;
    let attributes = opening.attributes;
    let children = element.children;
    if !is_builtin(tag) {
        return evaluate_tag(run, tag, attributes, children);
    }
    let what = Gather::Attributes {
        tag,
        attributes,
        children,
    };
    let given = List::new(run.progress.alloc);
    gather_attributes(run, what, attributes, given)
}

/// Evaluates a fragment. On `OutOfMemory`, an allocation failed.
pub fn evaluate_fragment<'b>(
    run: &mut Run<'b>,
    tree: JsxFragmentTree<'b>,
) -> Result<Control<'b>, OutOfMemory>
    ensures { IfOk result (λ c. trace_of c (state_of run.new) ≡ trace_of (Control.Fragment tree.entry) (state_of run.old)) }
{
    let fragment = jsx_fragment_view(tree);
    let children = fragment.children;
    let given = List::new(run.progress.alloc);
    gather_children(run, Gather::Fragment { children }, children, given)
}

/// Gathers the attributes of an element that are left. On `OutOfMemory`, an allocation failed.
pub fn gather_attributes<'b>(
    run: &mut Run<'b>,
    what: Gather<'b>,
    left: JsxAttributeTrees<'b>,
    given: List<Value>,
) -> Result<Control<'b>, OutOfMemory>
    ensures { IfOk result (λ c. trace_of c (state_of run.new)
        ≡ from (gathering (state_of run.old).scene what.entry (among left.entry.trees.now) given) (state_of run.old)) }
{
    let mut next = left;
    let mut given = given;
    'attributes: while let Some((attribute, behind)) = next.split_first() {
        let left = Parts::Attributes(behind);
        let item = attribute_item(run, attribute)?;
        match item {
            Item::Nothing => next = behind,
            Item::Known(value) => {
                given.push(value)?;
                next = behind;
            }
            Item::Expression(tree) => {
                return give_part(run, what, left, given, Control::Evaluate(tree));
            }
            Item::Element(tree) => {
                return give_part(run, what, left, given, Control::Element(tree));
            }
            Item::Fragment(tree) => {
                return give_part(run, what, left, given, Control::Fragment(tree));
            }
            Item::Meaningless => return Ok(Control::Waiting),
        }
    }
    finish(run, what, given)
}

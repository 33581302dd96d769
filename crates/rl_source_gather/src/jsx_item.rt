//! Attributes and children of JSX: the values that they give.

ghost use Rattle.std.specs.Prelude.{◌≡◌, IfOk};
ghost use Rattle.rl_model.specs.Expressions.{eval, values_of};
ghost use Rattle.rl_source_gather.specs.Items as spec;
ghost use Rattle.rl_grammar.specs.Fields.{maybe};
ghost use Rattle.rl_source_gather.specs.Items.{IsChild, IsContained};
ghost use Rattle.rl_source_stack.specs.States.{state_of};
ghost use Rattle.rl_syntax.specs.Syntax.{End, Node, Said, Then, syntax};
ghost use Rattle.rl_syntax.specs.declared.word.Word.TheVariants as word;

use rl_ast::jsx::{
    JsxAttribute, JsxAttributeValue, JsxChild, jsx_attribute_value_view, jsx_attribute_view,
    jsx_child_view,
};
use rl_base::error::OutOfMemory;
use rl_base::text::Text;
use rl_grammar::sort::{
    ExpressionTree, JsxAttributeTree, JsxAttributeValueTree, JsxChildTree, JsxElementTree,
    JsxFragmentTree,
};
use rl_machine::trace::Value;
use rl_source_stack::run::Run;
use rl_syntax::numbered::At;

/// The value that an attribute or a child gives.
#[derive(Drop)]
pub enum Item<'b> {
    /// None: the attribute or the child is dropped.
    Nothing,
    /// A value that is known before the run.
    Known(Value),
    /// The value of an expression.
    Expression(ExpressionTree<'b>),
    /// The value of an element.
    Element(JsxElementTree<'b>),
    /// The value of a fragment.
    Fragment(JsxFragmentTree<'b>),
    /// A part without a meaning.
    Meaningless,
}

/// True of an item that gives no value.
pub fn is_nothing(item: &Item<'_>) -> bool
    ensures { result ≡ spec.is_nothing item.now }
{
    match item {
        Item::Nothing => true,
        Item::Known(_) => false,
        Item::Expression(_) => false,
        Item::Element(_) => false,
        Item::Fragment(_) => false,
        Item::Meaningless => false,
    }
}

/// The item of a container. On an expression it is that, otherwise nothing.
fn container_item<'b>(run: &Run<'b>, at: At, expression: Option<ExpressionTree<'b>>) -> Item<'b>
    ensures { IsContained (state_of run.now).scene at (maybe expression.entry (λ t. syntax t.tree.now)) result }
{
    match expression {
        Some(expression) => Item::Expression(expression),
        None => Item::Nothing,
    }
}

/// The item of a text. On `OutOfMemory`, an allocation failed.
fn text_item<'b>(run: &Run<'b>, at: At, text: &Text) -> Result<Item<'b>, OutOfMemory>
    ensures { IfOk result (IsChild (state_of run.now).scene (Node at word.Text (Then (Said text.now) End))) }
{
    let given = run.texts.child(run.progress.alloc, at.id, text)?;
    match given {
        Some(given) => Ok(Item::Known(Value::Text(given))),
        None => Ok(Item::Nothing),
    }
}

/// The item of an attribute's value. On `OutOfMemory`, an allocation failed.
fn value_item<'b>(run: &Run<'b>, value: JsxAttributeValueTree<'b>) -> Result<Item<'b>, OutOfMemory>
    ensures { IfOk result (λ item. spec.value_values (state_of run.now).scene (syntax value.entry.tree.now)
        ≡ spec.item_values (state_of run.now).scene item) }
{
    match jsx_attribute_value_view(value) {
        JsxAttributeValue::String { at: _, text } => {
            let text = run.texts.attribute(run.progress.alloc, text)?;
            Ok(Item::Known(Value::Text(text)))
        }
        JsxAttributeValue::Container { at, expression } => Ok(container_item(run, at, expression)),
        JsxAttributeValue::Element(element) => Ok(Item::Element(element)),
        JsxAttributeValue::Fragment(fragment) => Ok(Item::Fragment(fragment)),
    }
}

/// The item of an attribute. On `OutOfMemory`, an allocation failed.
pub fn attribute_item<'b>(
    run: &Run<'b>,
    attribute: JsxAttributeTree<'b>,
) -> Result<Item<'b>, OutOfMemory>
    ensures { IfOk result (λ item. values_of (state_of run.now).scene (syntax attribute.entry.tree.now)
        (eval (state_of run.now).scene (syntax attribute.entry.tree.now))
        ≡ spec.item_values (state_of run.now).scene item) }
{
    match jsx_attribute_view(attribute) {
        JsxAttribute::Attribute {
            at: _,
            name: _,
            value,
        } => match value {
            Some(value) => value_item(run, value),
            None => Ok(Item::Known(Value::Bool(true))),
        },
        JsxAttribute::Spread { at: _, argument } => Ok(Item::Expression(argument)),
    }
}

/// The item of a child. On `OutOfMemory`, an allocation failed.
pub fn child_item<'b>(run: &Run<'b>, child: JsxChildTree<'b>) -> Result<Item<'b>, OutOfMemory>
    ensures { IfOk result (IsChild (state_of run.now).scene (syntax child.entry.tree.now)) }
{
    match jsx_child_view(child) {
        JsxChild::Text { at, text } => text_item(run, at, text),
        JsxChild::Container { at, expression } => Ok(container_item(run, at, expression)),
        JsxChild::Element(element) => Ok(Item::Element(element)),
        JsxChild::Fragment(fragment) => Ok(Item::Fragment(fragment)),
        JsxChild::Spread { .. } => Ok(Item::Meaningless),
    }
}

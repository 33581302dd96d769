//! The event of each instruction.

ghost use Rattle.std.specs.Prelude.{◌≡◌, ◌∷◌, ◌++◌, [], IfOk, OnOk};
ghost use Rattle.rl_hir.specs.Pieces.{Gives, Key, Says, Takes, argument_pieces, attribute_pieces};
ghost use Rattle.rl_hir.specs.Pieces.{gathered, pattern_pieces, tag_pieces, template_pieces, used, value_pieces};
ghost use Rattle.rl_hir.specs.Values.{form_of};
ghost use Rattle.rl_machine.specs.Acts.{event_kind, event_of};
ghost use Rattle.rl_graph_events.specs.Buildings.{adds, built, filled, with_operand};
ghost use Rattle.rl_trace.specs.Progress.{seen};

use crate::building::Building;
use rl_base::closed_text::ClosedText;
use rl_base::error::OutOfMemory;
use rl_base::text::Text;
use rl_hir::instruction::{
    ComputedStore, Destructure, InstructionValue, JsxExpression, MethodCall, Place, PlaceOrSpread,
    PropertyLiteral, TemplateLiteral,
};
use rl_machine::trace::Event;
use rl_trace::progress::Progress;

/// The kind of an instruction's event: the word of its listing, but for two.
fn kind(value: &InstructionValue) -> &'static str
    ensures { result.now ≡ event_kind value.now }
{
    match value {
        InstructionValue::Primitive { .. } => "primitive",
        InstructionValue::JsxText { .. } => "jsxtext",
        InstructionValue::LoadLocal { .. } => "loadlocal",
        InstructionValue::LoadContext { .. } => "loadcontext",
        InstructionValue::TypeCastExpression { .. } => "typecast",
        InstructionValue::DeclareLocal { .. } => "declarelocal",
        InstructionValue::DeclareContext { .. } => "declarecontext",
        InstructionValue::StoreLocal { .. } => "storelocal",
        InstructionValue::StoreContext { .. } => "storecontext",
        InstructionValue::LoadGlobal { .. } => "global",
        InstructionValue::StoreGlobal { .. } => "storeglobal",
        InstructionValue::Destructure { .. } => "destructure",
        InstructionValue::BinaryExpression { .. } => "binary",
        InstructionValue::UnaryExpression { .. } => "unary",
        InstructionValue::PrefixUpdate { .. } => "prefixupdate",
        InstructionValue::PostfixUpdate { .. } => "postfixupdate",
        InstructionValue::RegExpLiteral { .. } => "regexp",
        InstructionValue::TemplateLiteral { .. } => "template",
        InstructionValue::TaggedTemplateExpression { .. } => "tagged",
        InstructionValue::ArrayExpression { .. } => "array",
        InstructionValue::ObjectExpression { .. } => "object",
        InstructionValue::MetaProperty { .. } => "metaproperty",
        InstructionValue::Debugger { .. } => "debugger",
        InstructionValue::FunctionExpression { .. } => "function",
        InstructionValue::ObjectMethod { .. } => "objectmethod",
        InstructionValue::CallExpression { .. } => "call",
        InstructionValue::NewExpression { .. } => "new",
        InstructionValue::MethodCall { .. } => "methodcall",
        InstructionValue::PropertyLoad { .. } => "propertyload",
        InstructionValue::PropertyStore { .. } => "propertystore",
        InstructionValue::PropertyDelete { .. } => "propertydelete",
        InstructionValue::ComputedLoad { .. } => "computedload",
        InstructionValue::ComputedStore { .. } => "computedstore",
        InstructionValue::ComputedDelete { .. } => "computeddelete",
        InstructionValue::JsxExpression { .. } => "jsx",
        InstructionValue::JsxFragment { .. } => "jsxfragment",
        InstructionValue::Await { .. } => "await",
        InstructionValue::GetIterator { .. } => "getiterator",
        InstructionValue::IteratorNext { .. } => "next",
        InstructionValue::NextPropertyOf { .. } => "nextpropertyof",
    }
}

impl<'m, 'b> Building<'m, 'b> {
    /// Adds the values of two places. On `OutOfMemory` an allocation failed.
    fn two(&mut self, first: Place, second: Place) -> Result<(), OutOfMemory>
        ensures { OnOk result (built self.new ≡ adds (used first ∷ used second ∷ []) (built self.old)) }
    {
        self.uses(first)?;
        self.uses(second)
    }

    /// Adds an operator and the values of two places. On `OutOfMemory` an allocation failed.
    fn operation(&mut self, operator: &str, first: Place, second: Place) -> Result<(), OutOfMemory>
        ensures { OnOk result (built self.new ≡ adds (Says operator.now ∷ used first ∷ used second ∷ []) (built self.old)) }
    {
        self.says(operator)?;
        self.two(first, second)
    }

    /// Adds a text and the value of a place. On `OutOfMemory` an allocation failed.
    fn text_and_value(&mut self, text: &str, value: Place) -> Result<(), OutOfMemory>
        ensures { OnOk result (built self.new ≡ adds (Says text.now ∷ used value ∷ []) (built self.old)) }
    {
        self.says(text)?;
        self.uses(value)
    }

    /// Adds the parts of an update. On `OutOfMemory` an allocation failed.
    fn update(&mut self, operator: &str, value: Place) -> Result<(), OutOfMemory>
        ensures { OnOk result (built self.new ≡ with_operand value (adds (Says operator.now ∷ []) (built self.old))) }
    {
        self.says(operator)?;
        self.only(value)
    }

    /// Adds the parts of a value that is taken apart. On `OutOfMemory` an allocation failed.
    fn destructure(&mut self, taken: &Destructure) -> Result<(), OutOfMemory>
        ensures { OnOk result (built self.new ≡ with_operand taken.now.value (adds (pattern_pieces taken.now.pattern) (built self.old))) }
    {
        self.pattern(&taken.pattern)?;
        self.only(taken.value)
    }

    /// Adds two texts. On `OutOfMemory` an allocation failed.
    fn two_texts(&mut self, first: &Text, second: &Text) -> Result<(), OutOfMemory>
        ensures { OnOk result (built self.new ≡ adds (Says first.now ∷ Says second.now ∷ []) (built self.old)) }
    {
        self.says(first.as_str())?;
        self.says(second.as_str())
    }

    /// Adds a tag and its template. On `OutOfMemory` an allocation failed.
    fn tagged(&mut self, tag: Place, template: &TemplateLiteral) -> Result<(), OutOfMemory>
        ensures { OnOk result (built self.new ≡ adds (Gives tag ∷ template_pieces template.now) (built self.old)) }
    {
        self.gives(tag)?;
        self.template(template)
    }

    /// Adds a function and its arguments. On `OutOfMemory` an allocation failed.
    fn call(&mut self, callee: Place, arguments: &[PlaceOrSpread]) -> Result<(), OutOfMemory>
        ensures { OnOk result (built self.new ≡ adds (used callee ∷ gathered argument_pieces arguments.now) (built self.old)) }
    {
        self.uses(callee)?;
        self.arguments(arguments)
    }

    /// Adds the parts of the call of a method. On `OutOfMemory` an allocation failed.
    fn method_call(&mut self, call: &MethodCall) -> Result<(), OutOfMemory>
        ensures { OnOk result (built self.new
            ≡ adds (used call.now.receiver ∷ used call.now.property ∷ gathered argument_pieces call.now.arguments) (built self.old)) }
    {
        self.uses(call.receiver)?;
        self.call(call.property, call.arguments.as_slice())
    }

    /// Adds an object and a fixed key. On `OutOfMemory` an allocation failed.
    fn member(&mut self, object: Place, key: &PropertyLiteral) -> Result<(), OutOfMemory>
        ensures { OnOk result (built self.new ≡ adds (used object ∷ Takes (Key key.now) ∷ []) (built self.old)) }
    {
        self.uses(object)?;
        self.key(key)
    }

    /// Adds an object, a fixed key and a value. On `OutOfMemory` an allocation failed.
    fn member_store(
        &mut self,
        object: Place,
        key: &PropertyLiteral,
        value: Place,
    ) -> Result<(), OutOfMemory>
        ensures { OnOk result (built self.new ≡ adds (used object ∷ Takes (Key key.now) ∷ used value ∷ []) (built self.old)) }
    {
        self.member(object, key)?;
        self.uses(value)
    }

    /// Adds the values of three places. On `OutOfMemory` an allocation failed.
    fn computed_store(&mut self, store: ComputedStore) -> Result<(), OutOfMemory>
        ensures { OnOk result (built self.new ≡ adds (used store.object ∷ used store.property ∷ used store.value ∷ []) (built self.old)) }
    {
        self.two(store.object, store.property)?;
        self.uses(store.value)
    }

    /// Adds the parts of an element. On `OutOfMemory` an allocation failed.
    #[tactic(auto, using(crate::proofs::Built::adds_append))]
    fn jsx(&mut self, jsx: &JsxExpression) -> Result<(), OutOfMemory>
        ensures { OnOk result (built self.new
            ≡ adds (tag_pieces jsx.now.tag ++ (gathered attribute_pieces jsx.now.props ++ gathered value_pieces jsx.now.children))
            (built self.old)) }
    {
        self.tag(&jsx.tag)?;
        self.attributes(jsx.props.as_slice())?;
        self.values(jsx.children.as_slice())?;
        Ok(())
    }

    /// Adds the texts and operands of a value. On `OutOfMemory` an allocation failed.
    fn value(&mut self, value: &InstructionValue) -> Result<(), OutOfMemory>
        ensures { OnOk result (built self.new ≡ filled (form_of value.now) (built self.old)) }
    {
        match value {
            InstructionValue::Primitive { .. } => Ok(()),
            InstructionValue::JsxText { .. } => Ok(()),
            InstructionValue::LoadLocal { .. } => Ok(()),
            InstructionValue::LoadContext { .. } => Ok(()),
            InstructionValue::TypeCastExpression { .. } => Ok(()),
            InstructionValue::DeclareLocal { .. } => Ok(()),
            InstructionValue::DeclareContext { .. } => Ok(()),
            InstructionValue::StoreLocal { .. } => Ok(()),
            InstructionValue::StoreContext { .. } => Ok(()),
            InstructionValue::LoadGlobal(binding) => self.binding(binding),
            InstructionValue::StoreGlobal { name, value } => self.text_and_value(
                name.as_str(),
                *value,
            ),
            InstructionValue::Destructure(taken) => self.destructure(taken.get()),
            InstructionValue::BinaryExpression {
                operator,
                left,
                right,
            } => self.operation(operator.as_str(), *left, *right),
            InstructionValue::UnaryExpression { operator, value } => self.text_and_value(
                operator.as_str(),
                *value,
            ),
            InstructionValue::PrefixUpdate {
                operator,
                place: _,
                value,
            } => self.update(operator.as_str(), *value),
            InstructionValue::PostfixUpdate {
                operator,
                place: _,
                value,
            } => self.update(operator.as_str(), *value),
            InstructionValue::RegExpLiteral(literal) => {
                let literal = literal.get();
                self.two_texts(&literal.pattern, &literal.flags)
            },
            InstructionValue::TemplateLiteral(template) => self.template(template.get()),
            InstructionValue::TaggedTemplateExpression { tag, template } => self.tagged(
                *tag,
                template.get(),
            ),
            InstructionValue::ArrayExpression(elements) => self.elements(elements.as_slice()),
            InstructionValue::ObjectExpression(properties) => self.properties(
                properties.as_slice(),
            ),
            InstructionValue::MetaProperty => Ok(()),
            InstructionValue::Debugger => Ok(()),
            InstructionValue::FunctionExpression(node) => self.counts(node.0),
            InstructionValue::ObjectMethod(node) => self.counts(node.0),
            InstructionValue::CallExpression { callee, arguments } => self.call(
                *callee,
                arguments.as_slice(),
            ),
            InstructionValue::NewExpression { callee, arguments } => self.call(
                *callee,
                arguments.as_slice(),
            ),
            InstructionValue::MethodCall(call) => self.method_call(call.get()),
            InstructionValue::PropertyLoad { object, property } => self.member(
                *object,
                property.get(),
            ),
            InstructionValue::PropertyStore {
                object,
                property,
                value,
            } => self.member_store(*object, property.get(), *value),
            InstructionValue::PropertyDelete { object, property } => self.member(
                *object,
                property.get(),
            ),
            InstructionValue::ComputedLoad { object, property } => self.two(*object, *property),
            InstructionValue::ComputedStore(store) => self.computed_store(*store.get()),
            InstructionValue::ComputedDelete { object, property } => self.two(*object, *property),
            InstructionValue::JsxExpression(jsx) => self.jsx(jsx.get()),
            InstructionValue::JsxFragment(children) => self.values(children.as_slice()),
            InstructionValue::Await(value) => self.uses(*value),
            InstructionValue::GetIterator(value) => self.uses(*value),
            InstructionValue::IteratorNext {
                iterator,
                collection,
            } => self.two(*iterator, *collection),
            InstructionValue::NextPropertyOf(value) => self.uses(*value),
        }
    }
}

/// The event of an instruction, in a run that has come so far. On `OutOfMemory` an allocation failed.
pub fn event(progress: &Progress<'_>, value: &InstructionValue) -> Result<Event, OutOfMemory>
    ensures { IfOk result (λ event. event ≡ event_of value.now (seen progress.now).store) }
{
    let mut building = Building::new(progress);
    building.value(value)?;
    let word = Text::from_str(progress.alloc, kind(value))?;
    Ok(Event {
        kind: word,
        texts: building.texts,
        operands: building.operands,
    })
}

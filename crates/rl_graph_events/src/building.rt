//! Events of instructions, built from the texts and operands of their parts.

ghost use Rattle.std.specs.Prelude.{◌≡◌, ◌∷◌, IfOk, OnOk};
ghost use Rattle.rl_hir.specs.Pieces as pieces;
ghost use Rattle.rl_hir.specs.Pieces.{gathered};
ghost use Rattle.rl_text.specs.Number.{numeral};
ghost use Rattle.rl_machine.specs.Acts.{key_value};
ghost use Rattle.rl_graph_events.specs.Buildings.{added, adds, blank, built, with_operand};
ghost use Rattle.rl_trace.specs.Progress.{seen};

use itoa::Buffer;
use rl_base::error::OutOfMemory;
use rl_base::list::List;
use rl_base::text::Text;
use rl_hir::instruction::{
    ArrayElement, JsxAttribute, JsxTag, NonLocalBinding, ObjectPatternProperty, ObjectProperty,
    Pattern, Place, PlaceOrSpread, PropertyLiteral, TemplateLiteral, TemplateQuasi,
};
use rl_machine::trace::Value;
use rl_trace::progress::Progress;
use std::alloc::Global;

/// The texts and operands of an event so far.
#[derive(Drop)]
pub struct Building<'m, 'b> {
    /// The run that asks the event.
    pub progress: &'m Progress<'b>,
    /// The texts.
    pub texts: List<Text>,
    /// The values.
    pub operands: List<Value>,
}

/// A text behind a dot. On `OutOfMemory` an allocation failed.
fn dotted(alloc: Global, name: &Text) -> Result<Text, OutOfMemory>
    ensures { IfOk result (λ text. text ≡ 46 ∷ name.now) }
{
    let mut text = String::from_str(alloc, ".")?;
    text.push_str(name.as_str())?;
    Ok(Text::new(text))
}

/// The decimal digits of a number. On `OutOfMemory` an allocation failed.
#[tactic(auto, using(rl_text::proofs::Digits::numerals))]
fn digits(alloc: Global, number: u32) -> Result<Text, OutOfMemory>
    ensures { IfOk result (λ text. text ≡ numeral number) }
{
    let mut digits = Buffer::new();
    Text::from_str(alloc, digits.format(number))
}

/// The value of a fixed key. On `OutOfMemory` an allocation failed.
fn key_value(alloc: Global, key: &PropertyLiteral) -> Result<Value, OutOfMemory>
    ensures { IfOk result (λ value. value ≡ key_value key.now) }
{
    match key {
        PropertyLiteral::String(text) => Ok(Value::Text(text.copy(alloc)?)),
        PropertyLiteral::Number(number) => Ok(Value::Number(number.get())),
    }
}

impl<'m, 'b> Building<'m, 'b> {
    /// An event without texts and operands so far. Allocates nothing.
    pub fn new(progress: &'m Progress<'b>) -> Building<'m, 'b>
        ensures { built result ≡ blank (seen progress.entry.now).store }
    {
        let alloc = progress.alloc;
        Building {
            progress,
            texts: List::new(alloc),
            operands: List::new(alloc),
        }
    }

    /// Adds a text. On `OutOfMemory` an allocation failed.
    pub fn says(&mut self, text: &str) -> Result<(), OutOfMemory>
        ensures { OnOk result (built self.new ≡ added (pieces.Says text.now) (built self.old)) }
    {
        let text = Text::from_str(self.progress.alloc, text)?;
        self.texts.push(text)?;
        Ok(())
    }

    /// Adds the digits of a number as a text. On `OutOfMemory` an allocation failed.
    pub fn counts(&mut self, number: u32) -> Result<(), OutOfMemory>
        ensures { OnOk result (built self.new ≡ added (pieces.Says (numeral number)) (built self.old)) }
    {
        let text = digits(self.progress.alloc, number)?;
        self.texts.push(text)?;
        Ok(())
    }

    /// Adds a name. On `OutOfMemory` an allocation failed.
    pub fn names(&mut self, name: &Text) -> Result<(), OutOfMemory>
        ensures { OnOk result (built self.new ≡ added (pieces.Names name.now) (built self.old)) }
    {
        let text = dotted(self.progress.alloc, name)?;
        self.texts.push(text)?;
        Ok(())
    }

    /// Adds the value of a place. On `OutOfMemory` an allocation failed.
    pub fn uses(&mut self, place: Place) -> Result<(), OutOfMemory>
        ensures { OnOk result (built self.new ≡ added (pieces.used place) (built self.old)) }
    {
        let value = self
            .progress
            .read(place.identifier.0)
            .copy(self.progress.alloc)?;
        self.operands.push(value)?;
        Ok(())
    }

    /// Adds the value of a place, and the text `place`. On `OutOfMemory` an allocation failed.
    pub fn gives(&mut self, place: Place) -> Result<(), OutOfMemory>
        ensures { OnOk result (built self.new ≡ added (pieces.Gives place) (built self.old)) }
    {
        self.says("place")?;
        self.uses(place)?;
        Ok(())
    }

    /// Adds a value that is spread, and the text `spread`. On `OutOfMemory` an allocation failed.
    pub fn spreads(&mut self, place: Place) -> Result<(), OutOfMemory>
        ensures { OnOk result (built self.new ≡ added (pieces.Spreads place) (built self.old)) }
    {
        self.says("spread")?;
        self.uses(place)?;
        Ok(())
    }

    /// Adds the value of a fixed key. On `OutOfMemory` an allocation failed.
    pub fn key(&mut self, key: &PropertyLiteral) -> Result<(), OutOfMemory>
        ensures { OnOk result (built self.new ≡ added (pieces.Takes (pieces.Key key.now)) (built self.old)) }
    {
        let value = key_value(self.progress.alloc, key)?;
        self.operands.push(value)?;
        Ok(())
    }

    /// Makes the value of a place the only operand. On `OutOfMemory` an allocation failed.
    pub fn only(&mut self, place: Place) -> Result<(), OutOfMemory>
        ensures { OnOk result (built self.new ≡ with_operand place (built self.old)) }
    {
        let value = self
            .progress
            .read(place.identifier.0)
            .copy(self.progress.alloc)?;
        let mut operands = List::with_capacity(self.progress.alloc, 1)?;
        operands.push(value)?;
        self.operands = operands;
        Ok(())
    }

    /// Adds the texts of the binding of a name. On `OutOfMemory` an allocation failed.
    pub fn binding(&mut self, binding: &NonLocalBinding) -> Result<(), OutOfMemory>
        ensures { OnOk result (built self.new ≡ adds (pieces.binding_pieces binding.now) (built self.old)) }
    {
        match binding {
            NonLocalBinding::Global { name } => self.says(name.as_str()),
            NonLocalBinding::ModuleLocal { name } => {
                self.says(name.as_str())?;
                self.says("module")
            }
            NonLocalBinding::ImportDefault { name, module } => {
                self.says(name.as_str())?;
                self.says("default")?;
                self.says(module.get().as_str())
            }
            NonLocalBinding::ImportNamespace { name, module } => {
                self.says(name.as_str())?;
                self.says("namespace")?;
                self.says(module.get().as_str())
            }
            NonLocalBinding::ImportSpecifier { name, import } => {
                let import = import.get();
                self.says(name.as_str())?;
                self.says("named")?;
                self.says(import.module.as_str())?;
                self.says(import.imported.as_str())
            }
        }
    }

    /// Adds an argument. On `OutOfMemory` an allocation failed.
    fn argument(&mut self, argument: PlaceOrSpread) -> Result<(), OutOfMemory>
        ensures { OnOk result (built self.new ≡ adds (pieces.argument_pieces argument) (built self.old)) }
    {
        match argument {
            PlaceOrSpread::Place(place) => self.gives(place),
            PlaceOrSpread::Spread(place) => self.spreads(place),
        }
    }

    /// Adds arguments. On `OutOfMemory` an allocation failed.
    #[tactic(auto, using(crate::proofs::Built::adds_append))]
    pub fn arguments(&mut self, items: &[PlaceOrSpread]) -> Result<(), OutOfMemory>
        ensures { OnOk result (built self.new ≡ adds (gathered pieces.argument_pieces items.now) (built self.old)) }
    {
        'items: for item in items {
            self.argument(*item)?;
        }
        Ok(())
    }

    /// Adds an element of an array literal or pattern. On `OutOfMemory` an allocation failed.
    fn element(&mut self, element: ArrayElement) -> Result<(), OutOfMemory>
        ensures { OnOk result (built self.new ≡ adds (pieces.element_pieces element) (built self.old)) }
    {
        match element {
            ArrayElement::Place(place) => self.gives(place),
            ArrayElement::Spread(place) => self.spreads(place),
            ArrayElement::Hole => self.says("hole"),
        }
    }

    /// Adds the elements of an array literal or pattern. On `OutOfMemory` an allocation failed.
    #[tactic(auto, using(crate::proofs::Built::adds_append))]
    pub fn elements(&mut self, items: &[ArrayElement]) -> Result<(), OutOfMemory>
        ensures { OnOk result (built self.new ≡ adds (gathered pieces.element_pieces items.now) (built self.old)) }
    {
        'items: for item in items {
            self.element(*item)?;
        }
        Ok(())
    }

    /// Adds a property of an object literal. On `OutOfMemory` an allocation failed.
    fn property(&mut self, property: &ObjectProperty) -> Result<(), OutOfMemory>
        ensures { OnOk result (built self.new ≡ adds (pieces.property_pieces property.now) (built self.old)) }
    {
        match property {
            ObjectProperty::Property { key, place } => {
                self.names(key)?;
                self.gives(*place)
            }
            ObjectProperty::Computed { key, place } => {
                self.gives(*key)?;
                self.gives(*place)
            }
            ObjectProperty::Spread(place) => self.spreads(*place),
        }
    }

    /// Adds the properties of an object literal. On `OutOfMemory` an allocation failed.
    #[tactic(auto, using(crate::proofs::Built::adds_append))]
    pub fn properties(&mut self, items: &[ObjectProperty]) -> Result<(), OutOfMemory>
        ensures { OnOk result (built self.new ≡ adds (gathered pieces.property_pieces items.now) (built self.old)) }
    {
        'items: for item in items {
            self.property(item)?;
        }
        Ok(())
    }

    /// Adds a property of an object pattern. On `OutOfMemory` an allocation failed.
    fn taken(&mut self, property: &ObjectPatternProperty) -> Result<(), OutOfMemory>
        ensures { OnOk result (built self.new ≡ adds (pieces.taken_pieces property.now) (built self.old)) }
    {
        match property {
            ObjectPatternProperty::Property { key, place } => {
                self.names(key)?;
                self.gives(*place)
            }
            ObjectPatternProperty::Spread(place) => self.spreads(*place),
        }
    }

    /// Adds the properties of an object pattern. On `OutOfMemory` an allocation failed.
    #[tactic(auto, using(crate::proofs::Built::adds_append))]
    fn all_taken(&mut self, items: &[ObjectPatternProperty]) -> Result<(), OutOfMemory>
        ensures { OnOk result (built self.new ≡ adds (gathered pieces.taken_pieces items.now) (built self.old)) }
    {
        'items: for item in items {
            self.taken(item)?;
        }
        Ok(())
    }

    /// Adds a pattern. On `OutOfMemory` an allocation failed.
    pub fn pattern(&mut self, pattern: &Pattern) -> Result<(), OutOfMemory>
        ensures { OnOk result (built self.new ≡ adds (pieces.pattern_pieces pattern.now) (built self.old)) }
    {
        match pattern {
            Pattern::Array(items) => {
                self.says("array")?;
                self.elements(items.as_slice())
            }
            Pattern::Object(properties) => {
                self.says("object")?;
                self.all_taken(properties.as_slice())
            }
        }
    }

    /// Adds a text of a template. On `OutOfMemory` an allocation failed.
    fn quasi(&mut self, quasi: &TemplateQuasi) -> Result<(), OutOfMemory>
        ensures { OnOk result (built self.new ≡ adds (pieces.quasi_pieces quasi.now) (built self.old)) }
    {
        self.says(quasi.raw.as_str())?;
        match &quasi.cooked {
            Some(text) => self.names(text),
            None => self.says(""),
        }
    }

    /// Adds the texts of a template. On `OutOfMemory` an allocation failed.
    #[tactic(auto, using(crate::proofs::Built::adds_append))]
    fn quasis(&mut self, items: &[TemplateQuasi]) -> Result<(), OutOfMemory>
        ensures { OnOk result (built self.new ≡ adds (gathered pieces.quasi_pieces items.now) (built self.old)) }
    {
        'items: for item in items {
            self.quasi(item)?;
        }
        Ok(())
    }

    /// Adds values in a row. On `OutOfMemory` an allocation failed.
    #[tactic(auto, using(crate::proofs::Built::adds_append))]
    pub fn values(&mut self, items: &[Place]) -> Result<(), OutOfMemory>
        ensures { OnOk result (built self.new ≡ adds (gathered pieces.value_pieces items.now) (built self.old)) }
    {
        'items: for item in items {
            self.gives(*item)?;
        }
        Ok(())
    }

    /// Adds a template. On `OutOfMemory` an allocation failed.
    #[tactic(auto, using(crate::proofs::Built::adds_append))]
    pub fn template(&mut self, template: &TemplateLiteral) -> Result<(), OutOfMemory>
        ensures { OnOk result (built self.new ≡ adds (pieces.template_pieces template.now) (built self.old)) }
    {
        self.quasis(template.quasis.as_slice())?;
        self.values(template.subexpressions.as_slice())?;
        Ok(())
    }

    /// Adds the tag of an element. On `OutOfMemory` an allocation failed.
    pub fn tag(&mut self, tag: &JsxTag) -> Result<(), OutOfMemory>
        ensures { OnOk result (built self.new ≡ adds (pieces.tag_pieces tag.now) (built self.old)) }
    {
        match tag {
            JsxTag::Place(place) => self.gives(*place),
            JsxTag::Builtin(name) => self.names(name),
        }
    }

    /// Adds an attribute. On `OutOfMemory` an allocation failed.
    fn attribute(&mut self, attribute: &JsxAttribute) -> Result<(), OutOfMemory>
        ensures { OnOk result (built self.new ≡ adds (pieces.attribute_pieces attribute.now) (built self.old)) }
    {
        match attribute {
            JsxAttribute::Attribute { name, place } => {
                self.names(name)?;
                self.gives(*place)
            }
            JsxAttribute::SpreadAttribute(place) => self.spreads(*place),
        }
    }

    /// Adds attributes. On `OutOfMemory` an allocation failed.
    #[tactic(auto, using(crate::proofs::Built::adds_append))]
    pub fn attributes(&mut self, items: &[JsxAttribute]) -> Result<(), OutOfMemory>
        ensures { OnOk result (built self.new ≡ adds (gathered pieces.attribute_pieces items.now) (built self.old)) }
    {
        'items: for item in items {
            self.attribute(item)?;
        }
        Ok(())
    }
}

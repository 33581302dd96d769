//! The texts of JSX in a function of a unit.

ghost use Rattle.std.specs.Prelude.{◌≡◌, IfOk};
ghost use Rattle.rl_source_stack.specs.Texts.{attribute_text_by, child_text_by, keeps_spaces};

use rl_atoms::entity_table::EntityTable;
use rl_base::error::OutOfMemory;
use rl_base::ids::NodeId;
use rl_base::text::Text;
use rl_jsx::entities::decode_jsx_entities;
use rl_jsx::trim::trim_jsx_text;
use std::alloc::Global;

/// Entities of a unit, and texts of a function, by which the texts of JSX are read.
#[derive(Clone, Copy)]
pub struct JsxTexts<'b> {
    /// The entities of the unit.
    pub entities: &'b EntityTable,
    /// For each node, true of a text that keeps its spaces: one among the children of an `fbt` or `fbs` element. Nodes past its end are
    /// none.
    pub spaced: &'b [bool],
}

impl<'b> JsxTexts<'b> {
    /// True of a text that keeps its spaces.
    fn is_spaced(&self, node: NodeId) -> bool
        ensures { result ≡ keeps_spaces self.now node.0 }
    {
        match self.spaced.get(node.0 as usize) {
            Some(flag) => *flag,
            None => false,
        }
    }

    /// The text that an attribute gives. On `OutOfMemory`, an allocation failed.
    pub fn attribute(&self, alloc: Global, text: &Text) -> Result<Text, OutOfMemory>
        ensures { IfOk result (λ given. given ≡ attribute_text_by self.now text.now) }
    {
        decode_jsx_entities(alloc, self.entities, text)
    }

    /// The text that a child gives, by its node. `None` where nothing is left of it. On `OutOfMemory`, an allocation failed.
    pub fn child(
        &self,
        alloc: Global,
        node: NodeId,
        text: &Text,
    ) -> Result<Option<Text>, OutOfMemory>
        ensures { IfOk result (λ given. given ≡ child_text_by self.now node.0 text.now) }
    {
        let decoded = self.attribute(alloc, text)?;
        if self.is_spaced(node) {
            return Ok(Some(decoded));
        }
        trim_jsx_text(alloc, &decoded)
    }
}

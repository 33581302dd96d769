//! Shapes of arguments, elements and properties, and the texts of templates.

ghost use Rattle.std.specs.Prelude.{◌≡◌, ◌++◌, OnOk, map};
ghost use Rattle.rl_model.specs.Shapes as spec;
ghost use Rattle.rl_source_stack.specs.Parts.{among};
ghost use Rattle.rl_syntax.specs.Syntax.{pieces_of, syntax};

use crate::keys::{push_keyed, push_text, said};
use rl_ast::expression_part::template_element_view;
use rl_base::error::OutOfMemory;
use rl_base::list::List;
use rl_base::text::Text;
use rl_grammar::sort::TemplateElementTrees;
use rl_syntax::numbered::Numbered;
use rl_syntax::parts::split_first;
use rl_syntax::word::Word;
use std::alloc::Global;

/// Appends the shape of an argument, an element or a property. On `OutOfMemory`, an allocation failed.
#[tactic(auto, using(rl_syntax::proofs::Layers::by_layer))]
fn push_shape(alloc: Global, part: &Numbered, texts: &mut List<Text>) -> Result<(), OutOfMemory>
    ensures { OnOk result (texts.new ≡ texts.old ++ spec.shape_of (syntax part.now)) }
{
    match part {
        Numbered::Node(_, word, parts) => match word {
            Word::Spread => push_text(alloc, "spread", texts),
            Word::Hole => push_text(alloc, "hole", texts),
            Word::Prop => push_keyed(alloc, parts.as_slice(), "place", texts),
            Word::Method => push_keyed(alloc, parts.as_slice(), "place", texts),
            _ => push_text(alloc, "place", texts),
        },
        Numbered::List(_) => push_text(alloc, "place", texts),
        Numbered::Text(_) => push_text(alloc, "place", texts),
        Numbered::Number(_) => push_text(alloc, "place", texts),
        Numbered::Flag(_) => push_text(alloc, "place", texts),
        Numbered::Absent => push_text(alloc, "place", texts),
    }
}

/// Appends the shapes of arguments, elements or properties. On `OutOfMemory`, an allocation failed.
pub fn push_shapes(
    alloc: Global,
    parts: &[Numbered],
    texts: &mut List<Text>,
) -> Result<(), OutOfMemory>
    ensures { OnOk result (texts.new ≡ texts.old ++ spec.shapes (pieces_of (map syntax parts.now))) }
{
    let mut left = parts;
    'parts: while let Some((part, behind)) = split_first(left) {
        push_shape(alloc, part, texts)?;
        left = behind;
    }
    Ok(())
}

/// Appends the texts of a template: each raw, and then cooked. On `OutOfMemory`, an allocation failed.
pub fn push_quasis(
    alloc: Global,
    quasis: TemplateElementTrees<'_>,
    texts: &mut List<Text>,
) -> Result<(), OutOfMemory>
    ensures { OnOk result (texts.new ≡ texts.old ++ spec.quasis (among quasis.entry.trees.now)) }
{
    let mut left = quasis;
    'quasis: while let Some((quasi, behind)) = left.split_first() {
        let quasi = template_element_view(quasi);
        texts.push(quasi.raw.copy(alloc)?)?;
        match quasi.cooked {
            Some(cooked) => texts.push(said(alloc, cooked.as_str())?)?,
            None => push_text(alloc, "", texts)?,
        }
        left = behind;
    }
    Ok(())
}

/// True of a template that is cooked as it is written.
pub fn are_raw(quasis: TemplateElementTrees<'_>) -> bool
    ensures { result ≡ spec.are_raw (among quasis.entry.trees.now) }
{
    let mut left = quasis;
    'quasis: while let Some((quasi, behind)) = left.split_first() {
        let quasi = template_element_view(quasi);
        let cooked = match quasi.cooked {
            Some(cooked) => cooked.as_bytes(),
            None => b"",
        };
        if quasi.raw.as_bytes() != cooked {
            return false;
        }
        left = behind;
    }
    true
}

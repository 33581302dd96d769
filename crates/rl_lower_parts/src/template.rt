//! Texts of templates.

ghost use Rattle.std.specs.Prelude.{◌≡◌, ◌∷◌, map, List, IfOk};
ghost use Rattle.rl_syntax.specs.Syntax.{Said, Then, Pieces, pieces_of, syntax};
ghost use Rattle.rl_hir.specs.declared.instruction.TemplateQuasi.{TemplateQuasi as Quasi};
ghost use Rattle.rl_lowered.specs.Forms.{AreQuasis};
ghost use Rattle.rl_grammar.specs.Fields.{maybe};
ghost use Rattle.rl_model.specs.Shapes.{are_raw};

use rl_ast::expression_part::template_element_view;
use rl_base::error::OutOfMemory;
use rl_base::list::List;
use rl_base::text::Text;
use rl_grammar::sort::{TemplateElementTree, TemplateElementTrees};
use rl_hir::instruction::TemplateQuasi;
use std::alloc::Global;

/// A copy of a text, if there is one.
fn copy_where(alloc: Global, text: Option<&Text>) -> Result<Option<Text>, OutOfMemory>
    ensures { IfOk result (λ copy. maybe copy (λ t. Said t) ≡ maybe text.entry (λ t. Said t.now)) }
{
    match text {
        Some(text) => Ok(Some(text.copy(alloc)?)),
        None => Ok(None),
    }
}

/// A copy of a text of a template.
fn copy_quasi(alloc: Global, quasi: TemplateElementTree<'_>) -> Result<TemplateQuasi, OutOfMemory>
    ensures { IfOk result (λ copy. (more : Pieces) (copies : List Quasi) → AreQuasis more copies → AreQuasis (Then (syntax quasi.entry.tree.now) more) (copy ∷ copies)) }
{
    let quasi = template_element_view(quasi);
    let raw = quasi.raw.copy(alloc)?;
    let cooked = copy_where(alloc, quasi.cooked)?;
    Ok(TemplateQuasi { raw, cooked })
}

/// Copies of the texts of a template, in order.
pub fn copy_quasis(
    alloc: Global,
    quasis: TemplateElementTrees<'_>,
) -> Result<List<TemplateQuasi>, OutOfMemory>
    ensures { IfOk result (λ copies. AreQuasis (pieces_of (map syntax quasis.entry.trees.now)) copies) }
{
    let mut copies = List::new(alloc);
    let mut left = quasis;
    'quasis: while let Some((quasi, rest)) = left.split_first() {
        copies.push(copy_quasi(alloc, quasi)?)?;
        left = rest;
    }
    Ok(copies)
}

/// True of a template that is cooked as it is written.
pub fn are_raw(quasis: TemplateElementTrees<'_>) -> bool
    ensures { result ≡ are_raw (pieces_of (map syntax quasis.entry.trees.now)) }
{
    let mut left = quasis;
    'quasis: while let Some((quasi, rest)) = left.split_first() {
        let quasi = template_element_view(quasi);
        let cooked = match quasi.cooked {
            Some(cooked) => cooked.as_bytes(),
            None => b"",
        };
        if quasi.raw.as_bytes() != cooked {
            return false;
        }
        left = rest;
    }
    true
}

//! The walk over a lowered function that tries its rows.

ghost use Rattle.std.specs.Prelude.{◌≡◌, ◌&&◌, ◌++◌, [], map};
ghost use Rattle.rl_model.specs.Applied as model;
ghost use Rattle.rl_model.specs.Supported.{is_none};
ghost use Rattle.rl_names.specs.Functions.{body_in, params_in};
ghost use Rattle.rl_row_forms.specs.Aboves.{seen};
ghost use Rattle.rl_row_forms.specs.Labels.{labels_of};
ghost use Rattle.rl_rows.specs.Clear as spec;
ghost use Rattle.rl_rows.specs.Plans.{clear_at, clear_from};
ghost use Rattle.rl_syntax.specs.Syntax.{pieces_of, syntax};

use crate::itself::{itself_is_clear, place_is_clear};
use crate::plan::{Plan, next, parts_plan};
use rl_base::text::Text;
use rl_code::parts::{function_parts, is_function, is_no_code};
use rl_row_forms::above::{Above, part, top};
use rl_row_forms::forms::said_pair;
use rl_row_forms::labels::Labels;
use rl_row_forms::words::{is_labeled, is_loop};
use rl_row_names::bodiless::no_code_is_clear;
use rl_row_names::facts::RowFacts;
use rl_syntax::numbered::{At, Numbered};
use rl_syntax::word::Word;

/// True if no row applies in a part of a lowered function, its inner functions among it, by what stands above it.
#[cycle(walking)]
#[tactic(auto, using(crate::proofs::Cleared::by_form, rl_syntax::proofs::Layers::by_layer))]
fn is_clear<'t, F: RowFacts>(
    facts: &F,
    above: &Above,
    labels: &'t Labels<'t>,
    tree: &'t Numbered,
) -> bool
    ensures { result ≡ is_none (model.rows_in (F.facts facts.now) (seen above.now (labels_of labels.now)) (syntax tree.now)) }
{
    match tree {
        Numbered::Node(at, word, parts) => {
            node_is_clear(facts, above, labels, *at, *word, parts.as_slice())
        }
        Numbered::List(items) => are_clear(facts, above, labels, items.as_slice()),
        Numbered::Text(_) => true,
        Numbered::Number(_) => true,
        Numbered::Flag(_) => true,
        Numbered::Absent => true,
    }
}

/// True if no row applies to a node and in its parts.
#[cycle(walking)]
fn node_is_clear<'t, F: RowFacts>(
    facts: &F,
    above: &Above,
    labels: &'t Labels<'t>,
    at: At,
    word: Word,
    parts: &'t [Numbered],
) -> bool
    ensures { result ≡ spec.clear_node (F.facts facts.now) above.now (labels_of labels.now) at word (pieces_of (map syntax parts.now)) }
{
    itself_is_clear(facts, above, labels, at, word, parts)
        && place_is_clear(facts, above, at, word, parts)
        && inside_is_clear(facts, above, labels, word, parts)
}

/// True if no row applies in the parts of a node.
#[cycle(walking)]
fn inside_is_clear<'t, F: RowFacts>(
    facts: &F,
    above: &Above,
    labels: &'t Labels<'t>,
    word: Word,
    parts: &'t [Numbered],
) -> bool
    ensures { result ≡ spec.clear_inside (F.facts facts.now) above.now (labels_of labels.now) word (pieces_of (map syntax parts.now)) }
{
    if is_no_code(word, parts) {
        no_code_is_clear(facts, word, parts)
    } else {
        below_is_clear(facts, above, labels, word, parts)
    }
}

/// True if no row applies in the parts of a node that is code.
#[cycle(walking)]
fn below_is_clear<'t, F: RowFacts>(
    facts: &F,
    above: &Above,
    labels: &'t Labels<'t>,
    word: Word,
    parts: &'t [Numbered],
) -> bool
    ensures { result ≡ spec.clear_below (F.facts facts.now) above.now (labels_of labels.now) word (pieces_of (map syntax parts.now)) }
{
    if is_function(word) {
        return function_is_clear(facts, parts);
    }
    if is_labeled(word) {
        return labeled_is_clear(facts, above, labels, parts);
    }
    parts_are_clear(facts, &parts_plan(*above, word, parts), labels, parts)
}

/// True if no row applies in the parts of a function.
#[cycle(walking)]
#[tactic(auto, using(crate::proofs::Labelled::outside))]
fn function_is_clear<F: RowFacts>(facts: &F, parts: &[Numbered]) -> bool
    ensures { result ≡ spec.clear_function (F.facts facts.now) (pieces_of (map syntax parts.now)) }
{
    are_clear(facts, &top(), &Labels::Nothing, parts)
}

/// True if no row applies in the parts of a statement with a label.
#[cycle(walking)]
#[tactic(auto, using(rl_row_forms::proofs::Shaped::by_item, rl_row_forms::proofs::Smaller::smaller))]
fn labeled_is_clear<'t, F: RowFacts>(
    facts: &F,
    above: &Above,
    labels: &'t Labels<'t>,
    parts: &'t [Numbered],
) -> bool
    ensures { result ≡ spec.clear_labeled (F.facts facts.now) above.now (labels_of labels.now) (pieces_of (map syntax parts.now)) }
{
    match said_pair(parts) {
        Some((label, body)) => inner_is_clear(facts, above, labels, label, body),
        None => are_clear(facts, &part(*above), labels, parts),
    }
}

/// True if no row applies in the statement behind a label.
#[cycle(walking)]
#[tactic(auto, using(crate::proofs::Labelled::inside))]
fn inner_is_clear<'t, F: RowFacts>(
    facts: &F,
    above: &Above,
    labels: &'t Labels<'t>,
    label: &'t Text,
    body: &'t Numbered,
) -> bool
    ensures { result ≡ spec.clear_inner (F.facts facts.now) above.now (labels_of labels.now) label.now (syntax body.now) }
{
    let inner = Labels::Inside(labels, label, is_loop(body));
    is_clear(facts, &part(*above), &inner, body)
}

/// True if no row applies in the parts of a node, each by its summary.
#[cycle(walking)]
fn parts_are_clear<'t, F: RowFacts>(
    facts: &F,
    plan: &Plan,
    labels: &'t Labels<'t>,
    parts: &'t [Numbered],
) -> bool
    ensures { result ≡ clear_from (F.facts facts.now) (labels_of labels.now) plan.now (pieces_of (map syntax parts.now)) }
{
    let mut left = *plan;
    'parts: for part in parts {
        if !part_is_clear(facts, left.first, labels, part) {
            return false;
        }
        left = next(left);
    }
    true
}

/// True if no row applies in a part with the summary. None is looked for without a summary.
#[cycle(walking)]
fn part_is_clear<'t, F: RowFacts>(
    facts: &F,
    above: Option<Above>,
    labels: &'t Labels<'t>,
    part: &'t Numbered,
) -> bool
    ensures { result ≡ clear_at (F.facts facts.now) (labels_of labels.now) above (syntax part.now) }
{
    match above {
        Some(above) => is_clear(facts, &above, labels, part),
        None => true,
    }
}

/// As `is_clear`, for trees in a row.
#[cycle(walking)]
fn are_clear<'t, F: RowFacts>(
    facts: &F,
    above: &Above,
    labels: &'t Labels<'t>,
    trees: &'t [Numbered],
) -> bool
    ensures { result ≡ spec.clear_among (F.facts facts.now) (seen above.now (labels_of labels.now)) (pieces_of (map syntax trees.now)) }
{
    'trees: for tree in trees {
        if !is_clear(facts, above, labels, tree) {
            return false;
        }
    }
    true
}

/// True if no row applies in a tree at the top of a function.
#[tactic(auto, using(crate::proofs::Labelled::outside))]
fn top_is_clear<F: RowFacts>(facts: &F, tree: &Numbered) -> bool
    ensures { result ≡ is_none (model.rows_in (F.facts facts.now) model.top (syntax tree.now)) }
{
    is_clear(facts, &top(), &Labels::Nothing, tree)
}

/// True if no row applies in two trees at the top of a function.
fn both_are_clear<F: RowFacts>(facts: &F, params: &Numbered, body: &Numbered) -> bool
    ensures { result ≡ (is_none (model.rows_in (F.facts facts.now) model.top (syntax params.now)) && is_none (model.rows_in (F.facts facts.now) model.top (syntax body.now))) }
{
    top_is_clear(facts, params) && top_is_clear(facts, body)
}

/// True if no row applies in the parameters and the body of the marked function, its inner functions among them. The rows F26, F29 and
/// F44, and S3 of wrapped targets, are not tried here.
#[tactic(auto, using(crate::proofs::Cleared::function_none))]
pub fn has_no_rows<F: RowFacts>(facts: &F, marked: &Numbered) -> bool
    ensures { result ≡ is_none (model.rows_in (F.facts facts.now) model.top (params_in (syntax marked.now)) ++ model.rows_in (F.facts facts.now) model.top (body_in (syntax marked.now))) }
{
    match function_parts(marked) {
        Some((params, body)) => both_are_clear(facts, params, body),
        None => true,
    }
}

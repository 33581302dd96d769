//! L3: labels that nothing refers to.

ghost use Rattle.std.specs.Prelude.{◌≡◌, ◌++◌, ◌∷◌, [], ℕ, List, None, if◌then◌else◌, map, OnOk};
ghost use Rattle.std.specs.Str.{bytes_eq};
ghost use Rattle.rl_lint.specs.Findings.{finding};
ghost use Rattle.rl_lint.specs.Labels.{has, told_jump, told_labeled, told_node, told_parts, told_tree, Walked};
ghost use Rattle.rl_lint.specs.Rules as spec;
ghost use Rattle.rl_lint.specs.declared.finding.LintRule.TheVariants as rule;
ghost use Rattle.rl_lint_hints.specs.Hints.{any_labeled};
ghost use Rattle.rl_syntax.specs.Syntax.{pieces_of, syntax};

use crate::finding::{Finding, LintRule, push_finding};
use crate::role::first_text;
use rl_ast::unit::Unit;
use rl_base::error::OutOfMemory;
use rl_base::text::Text;
use rl_lint_hints::words::is_function;
use rl_syntax::numbered::{At, Numbered};
use rl_syntax::word::Word;
use std::alloc::Global;
use std::collections::BTreeMap;

/// Labels, each with true if a `break` or `continue` that was seen in the function refers to it.
type SeenLabels = BTreeMap<String, bool>;

/// True of a label that was seen.
fn is_seen(seen: &SeenLabels, label: &Text) -> bool
    ensures { result ≡ has seen.now label.now }
{
    match seen.get(label.as_str()) {
        Some(is) => *is,
        None => false,
    }
}

/// Says of a label that it was seen, or that it was not. On `OutOfMemory`, an allocation failed.
#[tactic(auto, using(crate::proofs::Referring::by_set))]
fn set_seen(alloc: Global, seen: &mut SeenLabels, label: &Text, is: bool) -> Result<(), OutOfMemory>
    ensures { OnOk result ((other : List ℕ) → has seen.new other ≡ (if bytes_eq label.now other then is else has seen.old other)) }
{
    let key = String::from_str(alloc, label.as_str())?;
    seen.insert(key, is)?;
    Ok(())
}

/// True of the words of `break` and `continue`.
fn is_jump(word: Word) -> bool
    ensures { result ≡ spec.is_jump word }
{
    match word {
        Word::Break => true,
        Word::Continue => true,
        _ => false,
    }
}

/// True of the word of labelled statements.
fn is_labeled(word: Word) -> bool
    ensures { result ≡ spec.is_labeled word }
{
    match word {
        Word::Labeled => true,
        _ => false,
    }
}

/// Appends the finding of a labelled statement, if nothing refers to its label. On `OutOfMemory`, an allocation failed.
fn push_unused(
    alloc: Global,
    found: &mut Vec<Finding>,
    at: &At,
    label: &Text,
    is_used: bool,
) -> Result<(), OutOfMemory>
    ensures { OnOk result (found.new.items ≡ found.old.items
        ++ (if is_used then [] else finding rule.L3 at.now.span label.now None ∷ [])) }
{
    if is_used {
        return Ok(());
    }
    push_finding(alloc, found, LintRule::L3, at.span, label.as_str(), None)?;
    Ok(())
}

/// Walks over a tree: appends its findings, and says of the labels that it refers to that they were seen. On `OutOfMemory`, an
/// allocation failed.
#[cycle(walking)]
#[tactic(auto, using(crate::proofs::Referring::by_form, rl_syntax::proofs::Layers::by_layer))]
fn walk_tree(
    alloc: Global,
    found: &mut Vec<Finding>,
    seen: &mut SeenLabels,
    tree: &Numbered,
) -> Result<(), OutOfMemory>
    ensures { OnOk result (Walked found.old.items found.new.items seen.old seen.new
        (spec.unused (syntax tree.now)) (told_tree (syntax tree.now))) }
{
    match tree {
        Numbered::Node(at, word, parts) => {
            walk_node(alloc, found, seen, at, *word, parts.as_slice())?;
            Ok(())
        }
        Numbered::List(items) => {
            walk_among(alloc, found, seen, items.as_slice())?;
            Ok(())
        }
        Numbered::Text(_) => Ok(()),
        Numbered::Number(_) => Ok(()),
        Numbered::Flag(_) => Ok(()),
        Numbered::Absent => Ok(()),
    }
}

/// Walks over a node, as `walk_tree` does. On `OutOfMemory`, an allocation failed.
#[cycle(walking)]
#[tactic(auto, using(crate::proofs::Referring::by_word))]
fn walk_node(
    alloc: Global,
    found: &mut Vec<Finding>,
    seen: &mut SeenLabels,
    at: &At,
    word: Word,
    parts: &[Numbered],
) -> Result<(), OutOfMemory>
    ensures { OnOk result (Walked found.old.items found.new.items seen.old seen.new
        (spec.unused_among (pieces_of (map syntax parts.now)) ++ spec.unused_at at.now word (pieces_of (map syntax parts.now)))
        (told_node word (pieces_of (map syntax parts.now)))) }
{
    if is_function(word) {
        walk_function(alloc, found, parts)?;
        return Ok(());
    }
    match first_text(parts) {
        Some(label) => {
            if is_labeled(word) {
                walk_labeled(alloc, found, seen, at, label, parts)?;
                return Ok(());
            }
            if is_jump(word) {
                walk_jump(alloc, found, seen, label, parts)?;
                return Ok(());
            }
            walk_among(alloc, found, seen, parts)?;
            Ok(())
        }
        None => {
            walk_among(alloc, found, seen, parts)?;
            Ok(())
        }
    }
}

/// Walks over the parts of a function, from which nothing refers to a label outside. On `OutOfMemory`, an allocation failed.
#[cycle(walking)]
fn walk_function(
    alloc: Global,
    found: &mut Vec<Finding>,
    parts: &[Numbered],
) -> Result<(), OutOfMemory>
    ensures { OnOk result (found.new.items ≡ found.old.items ++ spec.unused_among (pieces_of (map syntax parts.now))) }
{
    let mut seen = BTreeMap::new(alloc);
    walk_among(alloc, found, &mut seen, parts)?;
    Ok(())
}

/// Walks over the parts of a labelled statement, and appends a finding where none of them refers to its label. On `OutOfMemory`, an
/// allocation failed.
#[cycle(walking)]
#[tactic(auto, using(crate::proofs::Referring::by_label))]
fn walk_labeled(
    alloc: Global,
    found: &mut Vec<Finding>,
    seen: &mut SeenLabels,
    at: &At,
    label: &Text,
    parts: &[Numbered],
) -> Result<(), OutOfMemory>
    ensures { OnOk result (Walked found.old.items found.new.items seen.old seen.new
        (spec.unused_among (pieces_of (map syntax parts.now)) ++ spec.unused_label at.now label.now (pieces_of (map syntax parts.now)))
        (told_labeled label.now (pieces_of (map syntax parts.now)))) }
{
    let before = is_seen(seen, label);
    set_seen(alloc, seen, label, false)?;
    walk_among(alloc, found, seen, parts)?;
    let is_used = is_seen(seen, label);
    set_seen(alloc, seen, label, before)?;
    push_unused(alloc, found, at, label, is_used)?;
    Ok(())
}

/// Says of the label of a `break` or `continue` that it was seen. On `OutOfMemory`, an allocation failed.
#[cycle(walking)]
#[tactic(auto, using(crate::proofs::Referring::by_jump))]
fn walk_jump(
    alloc: Global,
    found: &mut Vec<Finding>,
    seen: &mut SeenLabels,
    label: &Text,
    parts: &[Numbered],
) -> Result<(), OutOfMemory>
    ensures { OnOk result (Walked found.old.items found.new.items seen.old seen.new
        (spec.unused_among (pieces_of (map syntax parts.now))) (told_jump label.now (pieces_of (map syntax parts.now)))) }
{
    set_seen(alloc, seen, label, true)?;
    walk_among(alloc, found, seen, parts)?;
    Ok(())
}

/// Walks over trees in a row, as `walk_tree` does. On `OutOfMemory`, an allocation failed.
#[cycle(walking)]
#[tactic(auto, using(crate::proofs::Referring::by_parts))]
fn walk_among(
    alloc: Global,
    found: &mut Vec<Finding>,
    seen: &mut SeenLabels,
    trees: &[Numbered],
) -> Result<(), OutOfMemory>
    ensures { OnOk result (Walked found.old.items found.new.items seen.old seen.new
        (spec.unused_among (pieces_of (map syntax trees.now))) (told_parts (pieces_of (map syntax trees.now)))) }
{
    'trees: for tree in trees {
        walk_tree(alloc, found, seen, tree)?;
    }
    Ok(())
}

/// Appends the findings of L3 in a unit. A unit without labelled statements has none, and no walk over its tree is needed. On
/// `OutOfMemory`, an allocation failed.
#[tactic(auto, using(crate::proofs::Unlabeled::by_table))]
pub(crate) fn push_unused_labels(
    alloc: Global,
    found: &mut Vec<Finding>,
    unit: &Unit,
    labeled: bool,
) -> Result<(), OutOfMemory>
    requires { labeled ≡ any_labeled unit.now.nodes }
    ensures { OnOk result (found.new.items ≡ found.old.items ++ spec.unused (syntax unit.now.tree)) }
{
    if !labeled {
        return Ok(());
    }
    let mut seen = BTreeMap::new(alloc);
    walk_tree(alloc, found, &mut seen, &unit.tree)?;
    Ok(())
}

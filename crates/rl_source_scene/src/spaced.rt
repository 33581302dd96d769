//! The texts of JSX in a function that keep their spaces.

ghost use Rattle.std.specs.Prelude.{◌≡◌, ℕ, ◌||◌, ◌++◌, ◌∷◌, [], if◌then◌else◌, map, IfOk, OnOk};
ghost use Rattle.rl_code.specs.Flags.{flag_at};
ghost use Rattle.rl_model.specs.Code.{contains};
ghost use Rattle.rl_model.specs.JsxText.{is_fbt_tag, kept_texts, kept_texts_among, texts_kept_by};
ghost use Rattle.rl_source_stack.specs.Texts.{numbers_of};
ghost use Rattle.rl_source_scene.specs.Elements as spec;
ghost use Rattle.rl_syntax.specs.Syntax.{Node, pieces_of, syntax};

use crate::elements::{element_parts, is_fbt_tag};
use rl_base::error::OutOfMemory;
use rl_base::ids::NodeId;
use rl_code::numbers::flags_of;
use rl_code::parts::{function_parts, is_function};
use rl_syntax::numbered::{At, Numbered};
use rl_syntax::word::Word;
use std::alloc::Global;

/// Appends a node, if a flag is set. On `OutOfMemory`, an allocation failed.
fn push_if(out: &mut Vec<NodeId>, flag: bool, node: NodeId) -> Result<(), OutOfMemory>
    ensures { OnOk result (numbers_of out.new.items ≡ numbers_of out.old.items ++ (if flag then node.0 ∷ [] else [])) }
{
    if flag {
        out.push(node)?;
        return Ok(());
    }
    Ok(())
}

/// True of the word of a text of JSX.
fn is_text(word: Word) -> bool
    ensures { result ≡ spec.is_text word }
{
    match word {
        Word::Text => true,
        _ => false,
    }
}

/// True of children that stand inside an element whose texts keep their spaces, by the tag of their element.
fn is_inside(inside: bool, tag: &Numbered) -> bool
    ensures { result ≡ (inside || is_fbt_tag (syntax tag.now)) }
{
    inside || is_fbt_tag(tag)
}

/// Appends the texts in a part that keep their spaces; `inside` is true among the children of an element whose texts do. On
/// `OutOfMemory`, an allocation failed.
#[cycle(keeping)]
#[tactic(auto, using(crate::proofs::Keeping::by_form, rl_syntax::proofs::Layers::by_layer))]
fn push_kept(out: &mut Vec<NodeId>, inside: bool, tree: &Numbered) -> Result<(), OutOfMemory>
    ensures { OnOk result (numbers_of out.new.items ≡ numbers_of out.old.items ++ kept_texts inside (syntax tree.now)) }
{
    match tree {
        Numbered::Node(at, word, parts) => {
            push_node(out, inside, *at, *word, parts.as_slice())?;
            Ok(())
        }
        Numbered::List(parts) => {
            push_among(out, inside, parts.as_slice())?;
            Ok(())
        }
        Numbered::Text(_) => Ok(()),
        Numbered::Number(_) => Ok(()),
        Numbered::Flag(_) => Ok(()),
        Numbered::Absent => Ok(()),
    }
}

/// As `push_kept`, of a node, by its ids, its word and its parts.
#[cycle(keeping)]
#[tactic(auto, using(crate::proofs::Keeping::of_node, crate::proofs::ElementParts::smaller))]
fn push_node(
    out: &mut Vec<NodeId>,
    inside: bool,
    at: At,
    word: Word,
    parts: &[Numbered],
) -> Result<(), OutOfMemory>
    ensures { OnOk result (numbers_of out.new.items ≡ numbers_of out.old.items ++ kept_texts inside (Node at word (pieces_of (map syntax parts.now)))) }
{
    if is_text(word) {
        push_if(out, inside, at.id)?;
        return Ok(());
    }
    if is_function(word) {
        return Ok(());
    }
    match element_parts(word, parts) {
        Some(element) => {
            let inner = is_inside(inside, element.tag);
            push_kept(out, inside, element.attributes)?;
            push_kept(out, inner, element.children)?;
            Ok(())
        }
        None => {
            push_among(out, inside, parts)?;
            Ok(())
        }
    }
}

/// As `push_kept`, for trees in a row.
#[cycle(keeping)]
fn push_among(out: &mut Vec<NodeId>, inside: bool, trees: &[Numbered]) -> Result<(), OutOfMemory>
    ensures { OnOk result (numbers_of out.new.items ≡ numbers_of out.old.items ++ kept_texts_among inside (pieces_of (map syntax trees.now))) }
{
    'trees: for tree in trees {
        push_kept(out, inside, tree)?;
    }
    Ok(())
}

/// The texts of JSX in a function that keep their spaces, by their nodes: those among the children of an `fbt` or `fbs` element. On
/// `OutOfMemory`, an allocation failed. It takes time that is linear in the nodes of the function.
#[tactic(auto, using(crate::proofs::Keeping::of_function))]
fn spaced_texts(alloc: Global, function: &Numbered) -> Result<Vec<NodeId>, OutOfMemory>
    ensures { IfOk result (λ nodes. numbers_of nodes.items ≡ texts_kept_by (syntax function.now)) }
{
    let mut nodes = Vec::new(alloc);
    match function_parts(function) {
        Some((params, body)) => {
            push_kept(&mut nodes, false, params)?;
            push_kept(&mut nodes, false, body)?;
            Ok(nodes)
        }
        None => Ok(nodes),
    }
}

/// The numbers of nodes, in order. On `OutOfMemory`, an allocation failed.
fn numbers_in(alloc: Global, nodes: &[NodeId]) -> Result<Vec<u32>, OutOfMemory>
    ensures { IfOk result (λ numbers. numbers.items ≡ numbers_of nodes.now) }
{
    let mut numbers = Vec::new(alloc);
    'nodes: for node in nodes {
        numbers.push(node.0)?;
    }
    Ok(numbers)
}

/// Flags by node: those of the texts of JSX in a function that keep their spaces are set. On `OutOfMemory`, an allocation failed. It takes
/// time that is linear in the nodes of the function and in the number of the last one.
pub fn spaced_flags(alloc: Global, function: &Numbered) -> Result<Vec<bool>, OutOfMemory>
    ensures { IfOk result (λ flags. (node : ℕ) → flag_at flags.items node ≡ contains (texts_kept_by (syntax function.now)) node) }
{
    let nodes = spaced_texts(alloc, function)?;
    let numbers = numbers_in(alloc, nodes.as_slice())?;
    flags_of(alloc, &numbers)
}

//! The variables that the code of a function names.

ghost use Rattle.std.specs.Prelude.{◌≡◌, ◌++◌, map, option_map, OnOk, IfOk};
ghost use Rattle.rl_code.specs.Heads as spec;
ghost use Rattle.rl_code.specs.Parts.{name_of};
ghost use Rattle.rl_model.specs.Code as code;
ghost use Rattle.rl_model.specs.Shapes.{is_capital};
ghost use Rattle.rl_names.specs.Seen.{seen};
ghost use Rattle.rl_syntax.specs.Syntax.{Node, pieces_of, syntax};
ghost use Rattle.rl_syntax.specs.declared.word.Word.TheVariants as words;

use crate::code::{at_of, code_of};
use crate::numbers::Numbers;
use crate::parts::{both, declared_name, first, said_only};
use crate::pattern::push_bound;
use crate::variables::Variables;
use rl_base::error::OutOfMemory;
use rl_base::text::Text;
use rl_syntax::numbered::{At, Numbered};
use rl_syntax::word::Word;
use std::alloc::Global;

/// True of a name whose first letter is one of A to Z.
fn is_capital(name: &Text) -> bool
    ensures { result ≡ is_capital name.now }
{
    match name.as_bytes() {
        [] => false,
        [first, _rest @ ..] => 65 <= *first && *first <= 90,
    }
}

/// True of the word of names that are used.
pub fn is_id(word: Word) -> bool
    ensures { result ≡ spec.is_id word }
{
    match word {
        Word::Id => true,
        _ => false,
    }
}

/// True of the parts of a node of the word `word` that is a builtin tag.
#[tactic(auto, using(crate::proofs::Naming::builtin))]
fn is_builtin_name(at: At, word: Word, parts: &[Numbered]) -> bool
    ensures { result ≡ code.is_builtin_tag (Node at word (pieces_of (map syntax parts.now))) }
{
    if is_id(word) {
        match said_only(parts) {
            Some(name) => !is_capital(name),
            None => false,
        }
    } else {
        false
    }
}

/// True of a tag that is a builtin name.
#[tactic(auto, using(rl_syntax::proofs::Layers::by_layer))]
fn is_builtin_tag(tag: &Numbered) -> bool
    ensures { result ≡ code.is_builtin_tag (syntax tag.now) }
{
    match tag {
        Numbered::Node(at, word, parts) => is_builtin_name(*at, *word, parts.as_slice()),
        Numbered::List(_) => false,
        Numbered::Text(_) => false,
        Numbered::Number(_) => false,
        Numbered::Flag(_) => false,
        Numbered::Absent => false,
    }
}

/// The tag of an opening, by its word. `None` of any other node.
fn tag_part(word: Word, parts: &[Numbered]) -> Option<&Numbered>
    ensures { option_map (λ t. syntax t.now) result ≡ spec.tag_part word (pieces_of (map syntax parts.now)) }
{
    match word {
        Word::Opening => first(parts),
        _ => None,
    }
}

/// Appends the id of the builtin tag of a node of the word `word`, if it has one. On `OutOfMemory`, an allocation failed.
#[tactic(auto, using(crate::proofs::Naming::tag))]
fn push_tag_as(out: &mut Vec<u32>, word: Word, parts: &[Numbered]) -> Result<(), OutOfMemory>
    ensures { OnOk result (out.new.items ≡ out.old.items ++ spec.tag_as word (pieces_of (map syntax parts.now))) }
{
    match tag_part(word, parts) {
        Some(tag) => {
            if is_builtin_tag(tag) {
                out.push(at_of(tag).id.0)?;
                Ok(())
            } else {
                Ok(())
            }
        }
        None => Ok(()),
    }
}

/// Appends the id of the builtin tag of a node, if it has one. On `OutOfMemory`, an allocation failed.
#[tactic(auto, using(crate::proofs::Naming::tag_form))]
fn push_tag(out: &mut Vec<u32>, node: &Numbered) -> Result<(), OutOfMemory>
    ensures { OnOk result (out.new.items ≡ out.old.items ++ code.builtin_tag_at (syntax node.now)) }
{
    match node {
        Numbered::Node(_, word, parts) => {
            push_tag_as(out, *word, parts.as_slice())?;
            Ok(())
        }
        Numbered::List(_) => Ok(()),
        Numbered::Text(_) => Ok(()),
        Numbered::Number(_) => Ok(()),
        Numbered::Flag(_) => Ok(()),
        Numbered::Absent => Ok(()),
    }
}

/// The ids of the builtin tags among some nodes. On `OutOfMemory`, an allocation failed.
pub fn builtin_tags(alloc: Global, nodes: &[&Numbered]) -> Result<Vec<u32>, OutOfMemory>
    ensures { IfOk result (λ tags. tags.items ≡ code.flat code.builtin_tag_at (map (λ t. syntax t.now) nodes.now)) }
{
    let mut tags = Vec::new(alloc);
    'nodes: for node in nodes {
        push_tag(&mut tags, node)?;
    }
    Ok(tags)
}

/// The pattern of a node that declares variables, by its word. `None` of any other node.
fn bound_part(word: Word, parts: &[Numbered]) -> Option<&Numbered>
    ensures { option_map (λ t. syntax t.now) result ≡ spec.bound_part word (pieces_of (map syntax parts.now)) }
{
    match word {
        Word::Param => first(parts),
        Word::Params => rest_part(parts),
        Word::Declarator => first(parts),
        Word::Catch => first(parts),
        _ => None,
    }
}

/// The second of two parts. `None` where there are more or fewer.
#[tactic(auto, using(crate::proofs::Naming::no_rest))]
fn rest_part(parts: &[Numbered]) -> Option<&Numbered>
    ensures { option_map (λ t. syntax t.now) result ≡ spec.bound_part words.Params (pieces_of (map syntax parts.now)) }
{
    match both(parts) {
        Some((_params, rest)) => Some(rest),
        None => None,
    }
}

/// Appends the variable that an `id` node names, unless it is one of `tags`. On `OutOfMemory`, an allocation failed.
#[tactic(auto, using(crate::proofs::Naming::used))]
pub fn push_used(
    out: &mut Vec<u32>,
    variables: &Variables<'_>,
    tags: &Numbers,
    at: At,
    parts: &[Numbered],
) -> Result<(), OutOfMemory>
    ensures { OnOk result (out.new.items ≡ out.old.items ++ spec.used_as (seen variables.now.names) tags.now.list.items at (pieces_of (map syntax parts.now))) }
{
    match said_only(parts) {
        Some(name) => {
            if tags.has(at.id.0) {
                return Ok(());
            }
            variables.push_local(out, at.reference, name)?;
            Ok(())
        }
        None => Ok(()),
    }
}

/// Appends the variables that a node of the word `word` names. On `OutOfMemory`, an allocation failed.
#[tactic(auto, using(crate::proofs::Naming::named))]
fn push_named_as(
    out: &mut Vec<u32>,
    variables: &Variables<'_>,
    tags: &Numbers,
    at: At,
    word: Word,
    parts: &[Numbered],
) -> Result<(), OutOfMemory>
    ensures { OnOk result (out.new.items ≡ out.old.items ++ spec.named_as (seen variables.now.names) tags.now.list.items at word (pieces_of (map syntax parts.now))) }
{
    if is_id(word) {
        push_used(out, variables, tags, at, parts)?;
        return Ok(());
    }
    match bound_part(word, parts) {
        Some(pattern) => {
            push_bound(out, variables, pattern)?;
            Ok(())
        }
        None => Ok(()),
    }
}

/// Appends the variables that a node names. On `OutOfMemory`, an allocation failed.
#[tactic(auto, using(crate::proofs::Naming::named_form))]
fn push_named_at(
    out: &mut Vec<u32>,
    variables: &Variables<'_>,
    tags: &Numbers,
    node: &Numbered,
) -> Result<(), OutOfMemory>
    ensures { OnOk result (out.new.items ≡ out.old.items ++ code.named_at (seen variables.now.names) tags.now.list.items (syntax node.now)) }
{
    match node {
        Numbered::Node(at, word, parts) => {
            push_named_as(out, variables, tags, *at, *word, parts.as_slice())?;
            Ok(())
        }
        Numbered::List(_) => Ok(()),
        Numbered::Text(_) => Ok(()),
        Numbered::Number(_) => Ok(()),
        Numbered::Flag(_) => Ok(()),
        Numbered::Absent => Ok(()),
    }
}

/// Appends the variables that some nodes name. On `OutOfMemory`, an allocation failed.
fn push_named_among(
    out: &mut Vec<u32>,
    variables: &Variables<'_>,
    tags: &Numbers,
    nodes: &[&Numbered],
) -> Result<(), OutOfMemory>
    ensures { OnOk result (out.new.items ≡ out.old.items ++ code.flat (code.named_at (seen variables.now.names) tags.now.list.items) (map (λ t. syntax t.now) nodes.now)) }
{
    'nodes: for node in nodes {
        push_named_at(out, variables, tags, node)?;
    }
    Ok(())
}

/// Appends the variables that a function names, each as often as it does; its function declarations name none. On `OutOfMemory`,
/// an allocation failed.
#[tactic(auto, using(crate::proofs::Naming::named_all))]
pub fn push_named_in(
    alloc: Global,
    out: &mut Vec<u32>,
    variables: &Variables<'_>,
    function: &Numbered,
) -> Result<(), OutOfMemory>
    ensures { OnOk result (out.new.items ≡ out.old.items ++ code.named_in (seen variables.now.names) (syntax function.now)) }
{
    let nodes = code_of(alloc, function)?;
    let tags = Numbers::of(alloc, builtin_tags(alloc, nodes.as_slice())?)?;
    push_named_among(out, variables, &tags, nodes.as_slice())?;
    Ok(())
}

/// Appends the symbol that a node of the word `word` declares as a function declaration, if it is one. On `OutOfMemory`, an allocation
/// failed.
fn push_stored(
    out: &mut Vec<u32>,
    variables: &Variables<'_>,
    word: Word,
    parts: &[Numbered],
) -> Result<(), OutOfMemory>
    ensures { OnOk result (out.new.items ≡ out.old.items ++ spec.stored_as (seen variables.now.names).declared (name_of word (pieces_of (map syntax parts.now)))) }
{
    match declared_name(word, parts) {
        Some(name) => {
            variables.push_declared(out, at_of(name))?;
            Ok(())
        }
        None => Ok(()),
    }
}

/// Appends the symbol that a node declares as a function declaration, if it is one. On `OutOfMemory`, an allocation failed.
fn push_function_name(
    out: &mut Vec<u32>,
    variables: &Variables<'_>,
    node: &Numbered,
) -> Result<(), OutOfMemory>
    ensures { OnOk result (out.new.items ≡ out.old.items ++ code.function_names_at (seen variables.now.names).declared (syntax node.now)) }
{
    match node {
        Numbered::Node(_, word, parts) => {
            push_stored(out, variables, *word, parts.as_slice())?;
            Ok(())
        }
        Numbered::List(_) => Ok(()),
        Numbered::Text(_) => Ok(()),
        Numbered::Number(_) => Ok(()),
        Numbered::Flag(_) => Ok(()),
        Numbered::Absent => Ok(()),
    }
}

/// Appends the symbols that some nodes declare as function declarations. On `OutOfMemory`, an allocation failed.
fn push_function_names_among(
    out: &mut Vec<u32>,
    variables: &Variables<'_>,
    nodes: &[&Numbered],
) -> Result<(), OutOfMemory>
    ensures { OnOk result (out.new.items ≡ out.old.items ++ code.flat (code.function_names_at (seen variables.now.names).declared) (map (λ t. syntax t.now) nodes.now)) }
{
    'nodes: for node in nodes {
        push_function_name(out, variables, node)?;
    }
    Ok(())
}

/// Appends the symbols of the function declarations of a function. On `OutOfMemory`, an allocation failed.
pub fn push_function_names(
    alloc: Global,
    out: &mut Vec<u32>,
    variables: &Variables<'_>,
    function: &Numbered,
) -> Result<(), OutOfMemory>
    ensures { OnOk result (out.new.items ≡ out.old.items ++ code.flat (code.function_names_at (seen variables.now.names).declared) (code.code_of (syntax function.now))) }
{
    let nodes = code_of(alloc, function)?;
    push_function_names_among(out, variables, nodes.as_slice())?;
    Ok(())
}

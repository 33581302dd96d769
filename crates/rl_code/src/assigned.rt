//! The local variables that the code of a function assigns.

ghost use Rattle.std.specs.Prelude.{◌≡◌, ◌++◌, map, option_map, OnOk};
ghost use Rattle.rl_code.specs.Roles as spec;
ghost use Rattle.rl_code.specs.Heads as heads;
ghost use Rattle.rl_model.specs.Code as code;
ghost use Rattle.rl_names.specs.Seen.{seen};
ghost use Rattle.rl_syntax.specs.Syntax.{pieces_of, syntax};

use crate::code::code_of;
use crate::parts::{first, items_and_rest, said_only, second, third_of_three};
use crate::role::{Role, part_at, target_role};
use crate::variables::Variables;
use rl_base::error::OutOfMemory;
use rl_syntax::numbered::{At, Numbered};
use rl_syntax::word::Word;
use std::alloc::Global;

/// Appends the local variables that a target assigns. On `OutOfMemory`, an allocation failed.
#[cycle(assigning)]
#[tactic(auto, using(crate::proofs::Assigning::by_form, rl_syntax::proofs::Layers::by_layer))]
fn push_assigned(
    out: &mut Vec<u32>,
    variables: &Variables<'_>,
    target: &Numbered,
) -> Result<(), OutOfMemory>
    ensures { OnOk result (out.new.items ≡ out.old.items ++ code.assigned_by (seen variables.now.names) (syntax target.now)) }
{
    match target {
        Numbered::Node(at, word, parts) => {
            push_as(out, variables, *at, target_role(*word), parts.as_slice())?;
            Ok(())
        }
        Numbered::List(_) => Ok(()),
        Numbered::Text(_) => Ok(()),
        Numbered::Number(_) => Ok(()),
        Numbered::Flag(_) => Ok(()),
        Numbered::Absent => Ok(()),
    }
}

/// Appends the local variables that a node of a target assigns, by its role. On `OutOfMemory`, an allocation failed.
#[cycle(assigning)]
#[tactic(auto, using(crate::proofs::Assigning::by_role, crate::proofs::Smaller::smaller))]
fn push_as(
    out: &mut Vec<u32>,
    variables: &Variables<'_>,
    at: At,
    role: Role,
    parts: &[Numbered],
) -> Result<(), OutOfMemory>
    ensures { OnOk result (out.new.items ≡ out.old.items ++ spec.assigned_as (seen variables.now.names) at (pieces_of (map syntax parts.now)) role) }
{
    match role {
        Role::Name => match said_only(parts) {
            Some(name) => {
                variables.push_local(out, at.reference, name)?;
                Ok(())
            }
            None => Ok(()),
        },
        Role::Items => match items_and_rest(parts) {
            Some((items, rest)) => {
                push_among(out, variables, items)?;
                push_assigned(out, variables, rest)?;
                Ok(())
            }
            None => Ok(()),
        },
        Role::Part(part) => match part_at(part, parts) {
            Some(part) => {
                push_assigned(out, variables, part)?;
                Ok(())
            }
            None => Ok(()),
        },
        Role::Nothing => Ok(()),
    }
}

/// As `push_assigned`, for targets in a row. On `OutOfMemory`, an allocation failed.
#[cycle(assigning)]
fn push_among(
    out: &mut Vec<u32>,
    variables: &Variables<'_>,
    targets: &[Numbered],
) -> Result<(), OutOfMemory>
    ensures { OnOk result (out.new.items ≡ out.old.items ++ code.assigned_among (seen variables.now.names) (pieces_of (map syntax targets.now))) }
{
    'targets: for target in targets {
        push_assigned(out, variables, target)?;
    }
    Ok(())
}

/// The target of a node that assigns, by its word. `None` of any other node.
fn target_of(word: Word, parts: &[Numbered]) -> Option<&Numbered>
    ensures { option_map (λ t. syntax t.now) result ≡ heads.target_of word (pieces_of (map syntax parts.now)) }
{
    match word {
        Word::Assign => second(parts),
        Word::Update => third_of_three(parts),
        Word::Forin => first(parts),
        Word::Forof => second(parts),
        _ => None,
    }
}

/// Appends the local variables that a node of the word `word` assigns. On `OutOfMemory`, an allocation failed.
#[tactic(auto, using(crate::proofs::Assigning::head))]
fn push_head(
    out: &mut Vec<u32>,
    variables: &Variables<'_>,
    word: Word,
    parts: &[Numbered],
) -> Result<(), OutOfMemory>
    ensures { OnOk result (out.new.items ≡ out.old.items ++ heads.assigned_head (seen variables.now.names) word (pieces_of (map syntax parts.now))) }
{
    match target_of(word, parts) {
        Some(target) => {
            push_assigned(out, variables, target)?;
            Ok(())
        }
        None => Ok(()),
    }
}

/// Appends the local variables that a node assigns. On `OutOfMemory`, an allocation failed.
#[tactic(auto, using(crate::proofs::Assigning::at_node))]
fn push_assigned_at(
    out: &mut Vec<u32>,
    variables: &Variables<'_>,
    node: &Numbered,
) -> Result<(), OutOfMemory>
    ensures { OnOk result (out.new.items ≡ out.old.items ++ code.assigned_at (seen variables.now.names) (syntax node.now)) }
{
    match node {
        Numbered::Node(_, word, parts) => {
            push_head(out, variables, *word, parts.as_slice())?;
            Ok(())
        }
        Numbered::List(_) => Ok(()),
        Numbered::Text(_) => Ok(()),
        Numbered::Number(_) => Ok(()),
        Numbered::Flag(_) => Ok(()),
        Numbered::Absent => Ok(()),
    }
}

/// Appends the local variables that some nodes assign. On `OutOfMemory`, an allocation failed.
fn push_assigned_among(
    out: &mut Vec<u32>,
    variables: &Variables<'_>,
    nodes: &[&Numbered],
) -> Result<(), OutOfMemory>
    ensures { OnOk result (out.new.items ≡ out.old.items ++ code.flat (code.assigned_at (seen variables.now.names)) (map (λ t. syntax t.now) nodes.now)) }
{
    'nodes: for node in nodes {
        push_assigned_at(out, variables, node)?;
    }
    Ok(())
}

/// Appends the local variables that a function assigns, each as often as it does. On `OutOfMemory`, an allocation failed.
pub fn push_assigned_in(
    alloc: Global,
    out: &mut Vec<u32>,
    variables: &Variables<'_>,
    function: &Numbered,
) -> Result<(), OutOfMemory>
    ensures { OnOk result (out.new.items ≡ out.old.items ++ code.assigned_in (seen variables.now.names) (syntax function.now)) }
{
    let nodes = code_of(alloc, function)?;
    push_assigned_among(out, variables, nodes.as_slice())?;
    Ok(())
}

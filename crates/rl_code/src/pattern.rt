//! The symbols that binding patterns declare.

ghost use Rattle.std.specs.Prelude.{◌≡◌, ◌++◌, map, OnOk};
ghost use Rattle.rl_code.specs.Roles as spec;
ghost use Rattle.rl_model.specs.Code as code;
ghost use Rattle.rl_names.specs.Seen.{seen};
ghost use Rattle.rl_syntax.specs.Syntax.{pieces_of, syntax};

use crate::parts::items_and_rest;
use crate::role::{Role, part_at, pattern_role};
use crate::variables::Variables;
use rl_base::error::OutOfMemory;
use rl_syntax::numbered::{At, Numbered};

/// Appends the symbols that a binding pattern declares. On `OutOfMemory`, an allocation failed.
#[cycle(binding)]
#[tactic(auto, using(crate::proofs::Binding::by_form, rl_syntax::proofs::Layers::by_layer))]
pub fn push_bound(
    out: &mut Vec<u32>,
    variables: &Variables<'_>,
    pattern: &Numbered,
) -> Result<(), OutOfMemory>
    ensures { OnOk result (out.new.items ≡ out.old.items ++ code.bound_by (seen variables.now.names) (syntax pattern.now)) }
{
    match pattern {
        Numbered::Node(at, word, parts) => {
            push_as(out, variables, *at, pattern_role(*word), parts.as_slice())?;
            Ok(())
        }
        Numbered::List(_) => Ok(()),
        Numbered::Text(_) => Ok(()),
        Numbered::Number(_) => Ok(()),
        Numbered::Flag(_) => Ok(()),
        Numbered::Absent => Ok(()),
    }
}

/// Appends the symbols that a node of a binding pattern declares, by its role. On `OutOfMemory`, an allocation failed.
#[cycle(binding)]
#[tactic(auto, using(crate::proofs::Binding::by_role, crate::proofs::Smaller::smaller))]
fn push_as(
    out: &mut Vec<u32>,
    variables: &Variables<'_>,
    at: At,
    role: Role,
    parts: &[Numbered],
) -> Result<(), OutOfMemory>
    ensures { OnOk result (out.new.items ≡ out.old.items ++ spec.bound_as (seen variables.now.names) at (pieces_of (map syntax parts.now)) role) }
{
    match role {
        Role::Name => {
            variables.push_declared(out, at)?;
            Ok(())
        }
        Role::Items => match items_and_rest(parts) {
            Some((items, rest)) => {
                push_among(out, variables, items)?;
                push_bound(out, variables, rest)?;
                Ok(())
            }
            None => Ok(()),
        },
        Role::Part(part) => match part_at(part, parts) {
            Some(part) => {
                push_bound(out, variables, part)?;
                Ok(())
            }
            None => Ok(()),
        },
        Role::Nothing => Ok(()),
    }
}

/// As `push_bound`, for patterns in a row. On `OutOfMemory`, an allocation failed.
#[cycle(binding)]
fn push_among(
    out: &mut Vec<u32>,
    variables: &Variables<'_>,
    patterns: &[Numbered],
) -> Result<(), OutOfMemory>
    ensures { OnOk result (out.new.items ≡ out.old.items ++ code.bound_among (seen variables.now.names) (pieces_of (map syntax patterns.now))) }
{
    'patterns: for pattern in patterns {
        push_bound(out, variables, pattern)?;
    }
    Ok(())
}

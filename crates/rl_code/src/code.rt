//! The nodes of a function's code.

ghost use Rattle.std.specs.Prelude.{◌≡◌, [], ◌∷◌, ◌++◌, map, IfOk, OnOk};
ghost use Rattle.rl_code.specs.Codes as spec;
ghost use Rattle.rl_model.specs.Code as code;
ghost use Rattle.rl_names.specs.Names.{at_of};
ghost use Rattle.rl_syntax.specs.Syntax.{pieces_of, syntax};

use crate::parts::{declared_name, function_parts, is_function, is_instantiate, is_no_code};
use rl_base::error::OutOfMemory;
use rl_base::ids::{NodeId, ReferenceId, ScopeId};
use rl_base::span::Span;
use rl_syntax::numbered::{At, Numbered};
use rl_syntax::parts::split_first;
use rl_syntax::word::Word;
use std::alloc::Global;

/// Appends a tree. On `OutOfMemory`, an allocation failed.
pub fn push_tree<'t>(out: &mut Vec<&'t Numbered>, tree: &'t Numbered) -> Result<(), OutOfMemory>
    ensures { OnOk result (map (λ t. syntax t.now) out.new.items ≡ map (λ t. syntax t.now) out.old.items ++ syntax tree.now ∷ []) }
{
    out.push(tree)?;
    Ok(())
}

/// Appends the nodes of a part of a function that are its code, in order. On `OutOfMemory`, an allocation failed.
#[cycle(coding)]
#[tactic(auto, using(crate::proofs::Coding::by_form, rl_syntax::proofs::Layers::by_layer))]
pub fn push_code<'t>(out: &mut Vec<&'t Numbered>, tree: &'t Numbered) -> Result<(), OutOfMemory>
    ensures { OnOk result (map (λ t. syntax t.now) out.new.items ≡ map (λ t. syntax t.now) out.old.items ++ code.code (syntax tree.now)) }
{
    match tree {
        Numbered::Node(_, word, parts) => {
            if is_no_code(*word, parts.as_slice()) {
                return Ok(());
            }
            push_tree(out, tree)?;
            push_below(out, *word, parts.as_slice())?;
            Ok(())
        }
        Numbered::List(parts) => {
            push_among(out, parts.as_slice())?;
            Ok(())
        }
        Numbered::Text(_) => Ok(()),
        Numbered::Number(_) => Ok(()),
        Numbered::Flag(_) => Ok(()),
        Numbered::Absent => Ok(()),
    }
}

/// Appends the code below a node. On `OutOfMemory`, an allocation failed.
#[cycle(coding)]
#[tactic(auto, using(crate::proofs::Coding::below))]
fn push_below<'t>(
    out: &mut Vec<&'t Numbered>,
    word: Word,
    parts: &'t [Numbered],
) -> Result<(), OutOfMemory>
    ensures { OnOk result (map (λ t. syntax t.now) out.new.items ≡ map (λ t. syntax t.now) out.old.items ++ spec.code_below word (pieces_of (map syntax parts.now))) }
{
    if is_function(word) {
        return match declared_name(word, parts) {
            Some(name) => {
                push_code(out, name)?;
                Ok(())
            }
            None => Ok(()),
        };
    }
    if is_instantiate(word) {
        return match split_first(parts) {
            Some((first, _names)) => {
                push_code(out, first)?;
                Ok(())
            }
            None => Ok(()),
        };
    }
    push_among(out, parts)?;
    Ok(())
}

/// As `push_code`, for trees in a row. On `OutOfMemory`, an allocation failed.
#[cycle(coding)]
fn push_among<'t>(out: &mut Vec<&'t Numbered>, trees: &'t [Numbered]) -> Result<(), OutOfMemory>
    ensures { OnOk result (map (λ t. syntax t.now) out.new.items ≡ map (λ t. syntax t.now) out.old.items ++ code.code_among (pieces_of (map syntax trees.now))) }
{
    'trees: for tree in trees {
        push_code(out, tree)?;
    }
    Ok(())
}

/// The code of a function, in order. Empty of any other tree. On `OutOfMemory`, an allocation failed.
#[tactic(auto, using(crate::proofs::FunctionCode::code_of))]
pub fn code_of(alloc: Global, function: &Numbered) -> Result<Vec<&Numbered>, OutOfMemory>
    ensures { IfOk result (λ nodes. map (λ t. syntax t.now) nodes.items ≡ code.code_of (syntax function.now)) }
{
    let mut nodes = Vec::new(alloc);
    match function_parts(function) {
        Some((params, body)) => {
            push_code(&mut nodes, params)?;
            push_code(&mut nodes, body)?;
            Ok(nodes)
        }
        None => Ok(nodes),
    }
}

/// The ids of no node.
const NO_NODE: At = At {
    id: NodeId(0),
    end: NodeId(0),
    scope: ScopeId(0),
    reference: ReferenceId(0),
    span: Span { start: 0, end: 0 },
};

/// Ids and span of a node. Those of no node for any other tree.
#[tactic(auto, using(rl_syntax::proofs::Layers::by_layer))]
pub fn at_of(tree: &Numbered) -> At
    ensures { result ≡ at_of (syntax tree.now) }
{
    match tree {
        Numbered::Node(at, _, _) => *at,
        Numbered::List(_) => NO_NODE,
        Numbered::Text(_) => NO_NODE,
        Numbered::Number(_) => NO_NODE,
        Numbered::Flag(_) => NO_NODE,
        Numbered::Absent => NO_NODE,
    }
}

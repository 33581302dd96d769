//! The functions of a unit that are lowered.

ghost use Rattle.std.specs.Prelude.{◌≡◌, [], ◌++◌, map, IfOk, OnOk};
ghost use Rattle.rl_ast.specs.Marked.{first, marked_functions};
ghost use Rattle.rl_code.specs.Codes as spec;
ghost use Rattle.rl_code.specs.Parts as parts;
ghost use Rattle.rl_model.specs.Code as code;
ghost use Rattle.rl_semantic.specs.Items.{of_item};
ghost use Rattle.rl_syntax.specs.Syntax.{pieces_of, syntax};

use crate::code::push_tree;
use crate::parts::{function_parts, is_function, is_instantiate, is_no_code};
use rl_ast::marked::first_marked;
use rl_ast::unit::Unit;
use rl_base::error::OutOfMemory;
use rl_syntax::numbered::Numbered;
use rl_syntax::parts::split_first;
use rl_syntax::word::Word;
use std::alloc::Global;

/// Appends a node, if it is a function. On `OutOfMemory`, an allocation failed.
fn push_function<'t>(
    out: &mut Vec<&'t Numbered>,
    word: Word,
    tree: &'t Numbered,
) -> Result<(), OutOfMemory>
    ensures { OnOk result (map (λ t. syntax t.now) out.new.items ≡ map (λ t. syntax t.now) out.old.items ++ spec.itself word (syntax tree.now)) }
{
    if is_function(word) {
        push_tree(out, tree)?;
        return Ok(());
    }
    Ok(())
}

/// Appends the functions in a part that are lowered, in the order of their nodes. On `OutOfMemory`, an allocation failed.
#[cycle(lowering)]
#[tactic(auto, using(crate::proofs::Lowering::by_form, rl_syntax::proofs::Layers::by_layer))]
fn push_lowered<'t>(out: &mut Vec<&'t Numbered>, tree: &'t Numbered) -> Result<(), OutOfMemory>
    ensures { OnOk result (map (λ t. syntax t.now) out.new.items ≡ map (λ t. syntax t.now) out.old.items ++ code.lowered_in (syntax tree.now)) }
{
    match tree {
        Numbered::Node(_, word, parts) => {
            if is_no_code(*word, parts.as_slice()) {
                return Ok(());
            }
            push_function(out, *word, tree)?;
            push_below(out, *word, parts.as_slice())?;
            Ok(())
        }
        Numbered::List(parts) => {
            push_among(out, parts.as_slice())?;
            Ok(())
        }
        Numbered::Text(_) => Ok(()),
        Numbered::Number(_) => Ok(()),
        Numbered::Flag(_) => Ok(()),
        Numbered::Absent => Ok(()),
    }
}

/// Appends the functions below a node that are lowered. On `OutOfMemory`, an allocation failed.
#[cycle(lowering)]
#[tactic(auto, using(crate::proofs::Lowering::below))]
fn push_below<'t>(
    out: &mut Vec<&'t Numbered>,
    word: Word,
    parts: &'t [Numbered],
) -> Result<(), OutOfMemory>
    ensures { OnOk result (map (λ t. syntax t.now) out.new.items ≡ map (λ t. syntax t.now) out.old.items ++ spec.lowered_below word (pieces_of (map syntax parts.now))) }
{
    if is_instantiate(word) {
        return match split_first(parts) {
            Some((first, _names)) => {
                push_lowered(out, first)?;
                Ok(())
            }
            None => Ok(()),
        };
    }
    push_among(out, parts)?;
    Ok(())
}

/// As `push_lowered`, for trees in a row. On `OutOfMemory`, an allocation failed.
#[cycle(lowering)]
fn push_among<'t>(out: &mut Vec<&'t Numbered>, trees: &'t [Numbered]) -> Result<(), OutOfMemory>
    ensures { OnOk result (map (λ t. syntax t.now) out.new.items ≡ map (λ t. syntax t.now) out.old.items ++ code.lowered_among (pieces_of (map syntax trees.now))) }
{
    'trees: for tree in trees {
        push_lowered(out, tree)?;
    }
    Ok(())
}

/// Appends the inner functions of a function. On `OutOfMemory`, an allocation failed.
#[tactic(auto, using(crate::proofs::Lowering::inner))]
fn push_inner<'t>(out: &mut Vec<&'t Numbered>, function: &'t Numbered) -> Result<(), OutOfMemory>
    ensures { OnOk result (map (λ t. syntax t.now) out.new.items ≡ map (λ t. syntax t.now) out.old.items ++ code.inner_functions (syntax function.now)) }
{
    match function_parts(function) {
        Some((params, body)) => {
            push_lowered(out, params)?;
            push_lowered(out, body)?;
            Ok(())
        }
        None => Ok(()),
    }
}

/// The marked function of a unit and its inner functions, in the order of their nodes. Empty where no function is marked. On
/// `OutOfMemory`, an allocation failed.
pub fn lowered_functions(alloc: Global, unit: &Unit) -> Result<Vec<&Numbered>, OutOfMemory>
    ensures { IfOk result (λ functions. map (λ t. syntax t.now) functions.items ≡ of_item [] code.lowered_functions (first (marked_functions (syntax unit.now.tree)))) }
{
    let mut functions = Vec::new(alloc);
    match first_marked(&unit.tree) {
        Some(marked) => {
            push_tree(&mut functions, marked)?;
            push_inner(&mut functions, marked)?;
            Ok(functions)
        }
        None => Ok(functions),
    }
}

//! The lists of statements of a function and of its inner functions, each with the scope that it is lowered with.

ghost use Rattle.std.specs.Prelude.{◌≡◌, ◌++◌, ◌∷◌, [], map, IfOk, OnOk};
ghost use Rattle.rl_markers.specs.Lists as spec;
ghost use Rattle.rl_model.specs.Hoisting as model;
ghost use Rattle.rl_names.specs.Functions.{body_in};
ghost use Rattle.rl_syntax.specs.Syntax.{Node, pieces_of, syntax};

use crate::parts::{block_list, body_statements, catch_list};
use rl_base::error::OutOfMemory;
use rl_base::ids::ScopeId;
use rl_code::parts::{function_parts, is_no_code};
use rl_syntax::numbered::{At, Numbered};
use rl_syntax::word::Word;
use std::alloc::Global;

/// A list of statements that is lowered with a scope.
#[derive(Clone, Copy)]
pub struct StatementList<'t> {
    /// The scope.
    pub scope: ScopeId,
    /// The statements.
    pub statements: &'t [Numbered],
}

/// Appends a list. On `OutOfMemory`, an allocation failed.
fn push_list<'t>(
    out: &mut Vec<StatementList<'t>>,
    scope: ScopeId,
    statements: &'t [Numbered],
) -> Result<(), OutOfMemory>
    ensures { OnOk result (map spec.seen out.new.items ≡ map spec.seen out.old.items ++ record { scope = scope.0; statements = pieces_of (map syntax statements.now) } ∷ []) }
{
    out.push(StatementList { scope, statements })?;
    Ok(())
}

/// Appends the list of the body of a function with these ids. On `OutOfMemory`, an allocation failed.
#[tactic(auto, using(crate::proofs::Listing::bodies))]
fn push_body<'t>(
    out: &mut Vec<StatementList<'t>>,
    at: At,
    tree: &'t Numbered,
) -> Result<(), OutOfMemory>
    ensures { OnOk result (map spec.seen out.new.items ≡ map spec.seen out.old.items ++ model.body_list at (body_in (syntax tree.now))) }
{
    match function_parts(tree) {
        Some((_params, body)) => match body_statements(body) {
            Some(statements) => {
                push_list(out, at.scope, statements)?;
                Ok(())
            }
            None => Ok(()),
        },
        None => Ok(()),
    }
}

/// Appends the lists of a part of a function, those of its inner functions among them. On `OutOfMemory`, an allocation failed.
#[cycle(listing)]
#[tactic(auto, using(crate::proofs::Listing::by_form, rl_syntax::proofs::Layers::by_layer))]
fn push_lists<'t>(out: &mut Vec<StatementList<'t>>, tree: &'t Numbered) -> Result<(), OutOfMemory>
    ensures { OnOk result (map spec.seen out.new.items ≡ map spec.seen out.old.items ++ model.lists_in (syntax tree.now)) }
{
    match tree {
        Numbered::Node(at, word, parts) => {
            push_node(out, tree, *at, *word, parts.as_slice())?;
            Ok(())
        }
        Numbered::List(parts) => {
            push_among(out, parts.as_slice())?;
            Ok(())
        }
        Numbered::Text(_) => Ok(()),
        Numbered::Number(_) => Ok(()),
        Numbered::Flag(_) => Ok(()),
        Numbered::Absent => Ok(()),
    }
}

/// Appends the lists of a node, the tree `tree`. On `OutOfMemory`, an allocation failed.
#[cycle(listing)]
#[tactic(auto, using(crate::proofs::Listing::by_word, crate::proofs::Listing::smaller))]
fn push_node<'t>(
    out: &mut Vec<StatementList<'t>>,
    tree: &'t Numbered,
    at: At,
    word: Word,
    parts: &'t [Numbered],
) -> Result<(), OutOfMemory>
    requires node { syntax tree.now ≡ Node at word (pieces_of (map syntax parts.now)) }
    ensures { OnOk result (map spec.seen out.new.items ≡ map spec.seen out.old.items ++ model.lists_in (Node at word (pieces_of (map syntax parts.now)))) }
{
    if let Some(statements) = block_list(word, parts) {
        push_list(out, at.scope, statements)?;
        push_among(out, statements)?;
        return Ok(());
    }
    if let Some((param, statements)) = catch_list(word, parts) {
        push_list(out, at.scope, statements)?;
        push_lists(out, param)?;
        push_among(out, statements)?;
        return Ok(());
    }
    if is_no_code(word, parts) {
        return Ok(());
    }
    push_body(out, at, tree)?;
    push_among(out, parts)?;
    Ok(())
}

/// As `push_lists`, for trees in a row. On `OutOfMemory`, an allocation failed.
#[cycle(listing)]
fn push_among<'t>(
    out: &mut Vec<StatementList<'t>>,
    trees: &'t [Numbered],
) -> Result<(), OutOfMemory>
    ensures { OnOk result (map spec.seen out.new.items ≡ map spec.seen out.old.items ++ model.lists_among (pieces_of (map syntax trees.now))) }
{
    'trees: for tree in trees {
        push_lists(out, tree)?;
    }
    Ok(())
}

/// The lists of a function, those of its inner functions among them. On `OutOfMemory`, an allocation failed.
pub fn lists_of(alloc: Global, function: &Numbered) -> Result<Vec<StatementList<'_>>, OutOfMemory>
    ensures { IfOk result (λ lists. map spec.seen lists.items ≡ model.lists_in (syntax function.now)) }
{
    let mut lists = Vec::new(alloc);
    push_lists(&mut lists, function)?;
    Ok(lists)
}

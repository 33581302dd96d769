//! Items and defaults of patterns and parameter lists.

ghost use Rattle.std.specs.Prelude.{◌≡◌, ◌∷◌, [], ◌++◌, map, option_map, IfOk, OnOk};
ghost use Rattle.rl_model.specs.Code as code;
ghost use Rattle.rl_model.specs.Orderly as orderly;
ghost use Rattle.rl_names.specs.Seen.{seen};
ghost use Rattle.rl_orderly.specs.Items as spec;
ghost use Rattle.rl_syntax.specs.Syntax.{pieces_of, syntax};

use rl_base::error::OutOfMemory;
use rl_base::ids::SymbolId;
use rl_code::code::push_tree;
use rl_code::parts::{both, items_and_rest};
use rl_code::role::{Part, part_at};
use rl_code::variables::Variables;
use rl_syntax::numbered::{At, Numbered};
use rl_syntax::parts::is_absent;
use rl_syntax::word::Word;
use std::alloc::Global;

/// Role of a node of a pattern or a parameter list.
#[derive(Clone, Copy)]
pub enum ItemRole {
    /// A name.
    Name,
    /// A list, with a rest.
    Nested,
    /// A part with a default.
    Default,
    /// A parameter, with a default or without.
    Param,
    /// Its items are those of one part.
    Part(Part),
    /// It has no items.
    Nothing,
}

/// The role of a node of a pattern or a parameter list, by its word.
pub fn item_role(word: Word) -> ItemRole
    ensures { result ≡ spec.item_role word }
{
    match word {
        Word::Bind => ItemRole::Name,
        Word::Arraypat => ItemRole::Nested,
        Word::Objectpat => ItemRole::Nested,
        Word::Defaultpat => ItemRole::Default,
        Word::Param => ItemRole::Param,
        Word::Keyedpat => ItemRole::Part(Part::Last),
        Word::Rest => ItemRole::Part(Part::Only),
        _ => ItemRole::Nothing,
    }
}

/// The role of a node that is a whole pattern or a parameter list, by its word.
fn whole_role(word: Word) -> ItemRole
    ensures { result ≡ spec.whole_role word }
{
    match word {
        Word::Params => ItemRole::Nested,
        _ => item_role(word),
    }
}

/// Appends an item. On `OutOfMemory`, an allocation failed.
fn push_item(out: &mut Vec<Option<u32>>, item: Option<u32>) -> Result<(), OutOfMemory>
    ensures { OnOk result (map spec.item_of out.new.items ≡ map spec.item_of out.old.items ++ spec.item_of item ∷ []) }
{
    out.push(item)?;
    Ok(())
}

/// Appends the item that a symbol is, if there is one. On `OutOfMemory`, an allocation failed.
fn push_symbol(out: &mut Vec<Option<u32>>, symbol: Option<SymbolId>) -> Result<(), OutOfMemory>
    ensures { OnOk result (map spec.item_of out.new.items ≡ map spec.item_of out.old.items ++ map (λ s. orderly.Binds s) (code.declared_by symbol)) }
{
    match symbol {
        Some(symbol) => {
            push_item(out, Some(symbol.0))?;
            Ok(())
        }
        None => Ok(()),
    }
}

/// Appends an end that is passed, unless there is no default. On `OutOfMemory`, an allocation failed.
fn push_passed(out: &mut Vec<Option<u32>>, default: &Numbered) -> Result<(), OutOfMemory>
    ensures { OnOk result (map spec.item_of out.new.items ≡ map spec.item_of out.old.items ++ spec.passed_behind (syntax default.now)) }
{
    if is_absent(default) {
        return Ok(());
    }
    push_item(out, None)?;
    Ok(())
}

/// Appends the items of a part of a pattern. On `OutOfMemory`, an allocation failed.
#[cycle(itemising)]
#[tactic(auto, using(crate::proofs::Itemising::by_form, rl_syntax::proofs::Layers::by_layer))]
fn push_part(
    out: &mut Vec<Option<u32>>,
    variables: &Variables<'_>,
    part: &Numbered,
) -> Result<(), OutOfMemory>
    ensures { OnOk result (map spec.item_of out.new.items ≡ map spec.item_of out.old.items ++ orderly.items_of_part (seen variables.now.names) (syntax part.now)) }
{
    match part {
        Numbered::Node(at, word, parts) => {
            push_as(out, variables, *at, item_role(*word), parts.as_slice())?;
            Ok(())
        }
        Numbered::List(_) => Ok(()),
        Numbered::Text(_) => Ok(()),
        Numbered::Number(_) => Ok(()),
        Numbered::Flag(_) => Ok(()),
        Numbered::Absent => Ok(()),
    }
}

/// As `push_part`, by the role of a node. On `OutOfMemory`, an allocation failed.
#[cycle(itemising)]
#[tactic(auto, using(crate::proofs::Itemising::by_role, crate::proofs::Itemising::smaller))]
fn push_as(
    out: &mut Vec<Option<u32>>,
    variables: &Variables<'_>,
    at: At,
    role: ItemRole,
    parts: &[Numbered],
) -> Result<(), OutOfMemory>
    ensures { OnOk result (map spec.item_of out.new.items ≡ map spec.item_of out.old.items ++ spec.items_as (seen variables.now.names) at (pieces_of (map syntax parts.now)) role) }
{
    match role {
        ItemRole::Name => {
            push_symbol(out, variables.declared(at))?;
            Ok(())
        }
        ItemRole::Nested => match items_and_rest(parts) {
            Some((items, rest)) => {
                push_among(out, variables, items)?;
                push_part(out, variables, rest)?;
                push_item(out, None)?;
                Ok(())
            }
            None => Ok(()),
        },
        ItemRole::Default => match both(parts) {
            Some((pattern, _default)) => {
                push_part(out, variables, pattern)?;
                push_item(out, None)?;
                Ok(())
            }
            None => Ok(()),
        },
        ItemRole::Param => match both(parts) {
            Some((pattern, default)) => {
                push_part(out, variables, pattern)?;
                push_passed(out, default)?;
                Ok(())
            }
            None => Ok(()),
        },
        ItemRole::Part(part) => match part_at(part, parts) {
            Some(part) => {
                push_part(out, variables, part)?;
                Ok(())
            }
            None => Ok(()),
        },
        ItemRole::Nothing => Ok(()),
    }
}

/// As `push_part`, for parts in a row. On `OutOfMemory`, an allocation failed.
#[cycle(itemising)]
fn push_among(
    out: &mut Vec<Option<u32>>,
    variables: &Variables<'_>,
    items: &[Numbered],
) -> Result<(), OutOfMemory>
    ensures { OnOk result (map spec.item_of out.new.items ≡ map spec.item_of out.old.items ++ orderly.items_among (seen variables.now.names) (pieces_of (map syntax items.now))) }
{
    'items: for item in items {
        push_part(out, variables, item)?;
    }
    Ok(())
}

/// Items and rest of a whole pattern or a parameter list, by its word. `None` of any other node.
fn list_of(word: Word, parts: &[Numbered]) -> Option<(&[Numbered], &Numbered)>
    ensures { option_map (λ p. (pieces_of (map syntax p.0.now), syntax p.1.now)) result ≡ spec.list_of word (pieces_of (map syntax parts.now)) }
{
    match word {
        Word::Arraypat => items_and_rest(parts),
        Word::Objectpat => items_and_rest(parts),
        Word::Params => items_and_rest(parts),
        _ => None,
    }
}

/// Items and rest of a whole pattern or a parameter list. `None` of any other tree.
#[tactic(auto, using(crate::proofs::Itemising::list_form))]
fn list_in(pattern: &Numbered) -> Option<(&[Numbered], &Numbered)>
    ensures { option_map (λ p. (pieces_of (map syntax p.0.now), syntax p.1.now)) result ≡ spec.list_in (syntax pattern.now) }
{
    match pattern {
        Numbered::Node(_, word, parts) => list_of(*word, parts.as_slice()),
        Numbered::List(_) => None,
        Numbered::Text(_) => None,
        Numbered::Number(_) => None,
        Numbered::Flag(_) => None,
        Numbered::Absent => None,
    }
}

/// Appends the items of some parts and of a rest. On `OutOfMemory`, an allocation failed.
#[tactic(auto, using(crate::proofs::Itemising::listed))]
fn push_list(
    out: &mut Vec<Option<u32>>,
    variables: &Variables<'_>,
    items: &[Numbered],
    rest: &Numbered,
) -> Result<(), OutOfMemory>
    ensures { OnOk result (map spec.item_of out.new.items ≡ map spec.item_of out.old.items ++ (orderly.items_among (seen variables.now.names) (pieces_of (map syntax items.now)) ++ orderly.items_of_part (seen variables.now.names) (syntax rest.now))) }
{
    push_among(out, variables, items)?;
    push_part(out, variables, rest)?;
    Ok(())
}

/// The items of a whole pattern or a parameter list: the symbol of each name, and `None` for each end that is passed. On `OutOfMemory`,
/// an allocation failed.
#[tactic(auto, using(crate::proofs::Itemising::whole))]
pub fn items_of(
    alloc: Global,
    variables: &Variables<'_>,
    pattern: &Numbered,
) -> Result<Vec<Option<u32>>, OutOfMemory>
    ensures { IfOk result (λ items. map spec.item_of items.items ≡ orderly.items_of (seen variables.now.names) (syntax pattern.now)) }
{
    let mut found = Vec::new(alloc);
    match list_in(pattern) {
        Some((items, rest)) => {
            push_list(&mut found, variables, items, rest)?;
            Ok(found)
        }
        None => Ok(found),
    }
}

/// Appends the defaults in a pattern or a parameter list. On `OutOfMemory`, an allocation failed.
#[cycle(defaulting)]
#[tactic(auto, using(crate::proofs::Defaulting::by_form, rl_syntax::proofs::Layers::by_layer))]
pub fn push_defaults<'t>(
    out: &mut Vec<&'t Numbered>,
    pattern: &'t Numbered,
) -> Result<(), OutOfMemory>
    ensures { OnOk result (map (λ t. syntax t.now) out.new.items ≡ map (λ t. syntax t.now) out.old.items ++ orderly.defaults_in (syntax pattern.now)) }
{
    match pattern {
        Numbered::Node(_, word, parts) => {
            push_defaults_as(out, whole_role(*word), parts.as_slice())?;
            Ok(())
        }
        Numbered::List(_) => Ok(()),
        Numbered::Text(_) => Ok(()),
        Numbered::Number(_) => Ok(()),
        Numbered::Flag(_) => Ok(()),
        Numbered::Absent => Ok(()),
    }
}

/// As `push_defaults`, by the role of a node. On `OutOfMemory`, an allocation failed.
#[cycle(defaulting)]
#[tactic(auto, using(crate::proofs::Defaulting::by_role, crate::proofs::Itemising::smaller))]
fn push_defaults_as<'t>(
    out: &mut Vec<&'t Numbered>,
    role: ItemRole,
    parts: &'t [Numbered],
) -> Result<(), OutOfMemory>
    ensures { OnOk result (map (λ t. syntax t.now) out.new.items ≡ map (λ t. syntax t.now) out.old.items ++ spec.defaults_as (pieces_of (map syntax parts.now)) role) }
{
    match role {
        ItemRole::Name => Ok(()),
        ItemRole::Nested => match items_and_rest(parts) {
            Some((items, rest)) => {
                push_defaults_among(out, items)?;
                push_defaults(out, rest)?;
                Ok(())
            }
            None => Ok(()),
        },
        ItemRole::Default => match both(parts) {
            Some((pattern, default)) => {
                push_defaults(out, pattern)?;
                push_tree(out, default)?;
                Ok(())
            }
            None => Ok(()),
        },
        ItemRole::Param => match both(parts) {
            Some((pattern, default)) => {
                push_defaults(out, pattern)?;
                push_tree(out, default)?;
                Ok(())
            }
            None => Ok(()),
        },
        ItemRole::Part(part) => match part_at(part, parts) {
            Some(part) => {
                push_defaults(out, part)?;
                Ok(())
            }
            None => Ok(()),
        },
        ItemRole::Nothing => Ok(()),
    }
}

/// As `push_defaults`, for patterns in a row. On `OutOfMemory`, an allocation failed.
#[cycle(defaulting)]
fn push_defaults_among<'t>(
    out: &mut Vec<&'t Numbered>,
    patterns: &'t [Numbered],
) -> Result<(), OutOfMemory>
    ensures { OnOk result (map (λ t. syntax t.now) out.new.items ≡ map (λ t. syntax t.now) out.old.items ++ orderly.defaults_among (pieces_of (map syntax patterns.now))) }
{
    'patterns: for pattern in patterns {
        push_defaults(out, pattern)?;
    }
    Ok(())
}

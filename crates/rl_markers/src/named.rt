//! The symbols that a statement names so that they get a marker in front of it, and those that it declares.

ghost use Rattle.std.specs.Prelude.{◌≡◌, ◌++◌, ◌&&◌, [], false, map, nat_eq, nat_le, nat_lt, option_map, slice_get, IfOk, OnOk};
ghost use Rattle.std.specs.List.{list_any};
ghost use Rattle.rl_markers.specs.Named as spec;
ghost use Rattle.rl_bindings.specs.declared.event.Bound.{Bound};
ghost use Rattle.rl_markers.specs.Heads as declared;
ghost use Rattle.rl_markers.specs.NodeSymbols.{AreOf};
ghost use Rattle.rl_markers.specs.Uses.{seen as seen_use};
ghost use Rattle.rl_model.specs.Code.{bound_by, contains};
ghost use Rattle.rl_model.specs.Hoisting as model;
ghost use Rattle.rl_names.specs.Seen.{seen};
ghost use Rattle.rl_semantic.specs.Items.{of_item};
ghost use Rattle.rl_syntax.specs.Syntax.{Node, Pieces, pieces_of, syntax};

use crate::kinds::{is_fundecl, is_hoisted_kind};
use crate::node_symbols::NodeSymbols;
use crate::parts::{declarator_pattern, first, fourth, second_list};
use crate::uses::{Use, push_uses};
use rl_base::error::OutOfMemory;
use rl_bindings::event::Bound;
use rl_code::pattern::push_bound;
use rl_code::variables::Variables;
use rl_syntax::numbered::{At, Numbered};
use rl_syntax::word::Word;
use std::alloc::Global;

/// The first declaration of a symbol. `None` for a number that is no symbol's.
pub fn first_declaration(variables: &Variables<'_>, symbol: u32) -> Option<Bound>
    ensures { result ≡ slice_get (spec.tables variables.now).symbols symbol }
{
    variables
        .names
        .resolver
        .semantic
        .bindings
        .symbols
        .as_slice()
        .get(symbol as usize)
        .copied()
}

/// True of a symbol whose first declaration is a function declaration.
fn is_hoisted(variables: &Variables<'_>, symbol: u32) -> bool
    ensures { result ≡ of_item false (λ (b : Bound). model.is_hoisted_kind b.kind) (slice_get (spec.tables variables.now).symbols symbol) }
{
    match first_declaration(variables, symbol) {
        Some(bound) => is_hoisted_kind(bound.kind),
        None => false,
    }
}

/// Appends the symbol that a use names, if it gets a marker by that. On `OutOfMemory`, an allocation failed.
#[tactic(auto, using(crate::proofs::Naming::used))]
fn push_used(out: &mut Vec<u32>, variables: &Variables<'_>, used: Use) -> Result<(), OutOfMemory>
    ensures { OnOk result (spec.AddsSymbols (spec.tables variables.now) out.old.items out.new.items (λ symbol first. spec.names_as (spec.tables variables.now) symbol first (seen_use used))) }
{
    match variables.names.resolver.symbol_of_reference(used.reference) {
        Some(symbol) => {
            if used.inner || is_hoisted(variables, symbol.0) {
                out.push(symbol.0)?;
                return Ok(());
            }
            Ok(())
        }
        None => Ok(()),
    }
}

/// Appends the symbols that uses name, if they get a marker by that. On `OutOfMemory`, an allocation failed.
#[tactic(auto, using(crate::proofs::Naming::uses))]
fn push_all_used(
    out: &mut Vec<u32>,
    variables: &Variables<'_>,
    uses: &[Use],
) -> Result<(), OutOfMemory>
    ensures { OnOk result (spec.AddsSymbols (spec.tables variables.now) out.old.items out.new.items (λ symbol first. list_any (spec.names_as (spec.tables variables.now) symbol first) (map seen_use uses.now))) }
{
    'uses: for used in uses {
        push_used(out, variables, *used)?;
    }
    Ok(())
}

/// Appends a symbol, if its first declaration is a function declaration. On `OutOfMemory`, an allocation failed.
#[tactic(auto, using(crate::proofs::Naming::hoisted))]
fn push_if_hoisted(
    out: &mut Vec<u32>,
    variables: &Variables<'_>,
    symbol: u32,
) -> Result<(), OutOfMemory>
    ensures { OnOk result (spec.AddsSymbols (spec.tables variables.now) out.old.items out.new.items (λ other first. nat_eq other symbol && model.is_hoisted_kind first.kind)) }
{
    if is_hoisted(variables, symbol) {
        out.push(symbol)?;
        return Ok(());
    }
    Ok(())
}

/// Appends those of some symbols whose first declarations are function declarations. On `OutOfMemory`, an allocation failed.
#[tactic(auto, using(crate::proofs::Naming::hoisted_all))]
fn push_hoisted(
    out: &mut Vec<u32>,
    variables: &Variables<'_>,
    symbols: &[u32],
) -> Result<(), OutOfMemory>
    ensures { OnOk result (spec.AddsSymbols (spec.tables variables.now) out.old.items out.new.items (λ symbol first. contains symbols.now symbol && model.is_hoisted_kind first.kind)) }
{
    'symbols: for symbol in symbols {
        push_if_hoisted(out, variables, *symbol)?;
    }
    Ok(())
}

/// Appends the symbols of function declarations at a node or inside it. On `OutOfMemory`, an allocation failed.
#[tactic(auto, using(crate::proofs::Naming::inside))]
fn push_inside(
    alloc: Global,
    out: &mut Vec<u32>,
    variables: &Variables<'_>,
    nodes: &NodeSymbols,
    at: At,
) -> Result<(), OutOfMemory>
    requires { AreOf nodes.now (spec.tables variables.now).symbols }
    ensures { OnOk result (spec.AddsSymbols (spec.tables variables.now) out.old.items out.new.items (λ symbol first. (nat_le at.id.0 first.node.0 && nat_lt first.node.0 at.end.0) && model.is_hoisted_kind first.kind)) }
{
    let mut inside = Vec::new(alloc);
    nodes.push_between(&mut inside, at.id.0, at.end.0)?;
    push_hoisted(out, variables, inside.as_slice())?;
    Ok(())
}

/// The symbols that a statement, a node of the word `word`, names so that they get a marker in front of it. On `OutOfMemory`, an
/// allocation failed.
#[tactic(auto, using(crate::proofs::Naming::early))]
pub fn named_early(
    alloc: Global,
    variables: &Variables<'_>,
    nodes: &NodeSymbols,
    tree: &Numbered,
    at: At,
    word: Word,
) -> Result<Vec<u32>, OutOfMemory>
    requires { AreOf nodes.now (spec.tables variables.now).symbols }
    ensures { IfOk result (λ named. (parts : Pieces) → syntax tree.now ≡ Node at word parts → spec.AddsSymbols (spec.tables variables.now) [] named.items (λ symbol first. model.is_named_early (spec.tables variables.now) symbol first (Node at word parts))) }
{
    let mut uses = Vec::new(alloc);
    push_uses(&mut uses, false, tree)?;
    let mut named = Vec::new(alloc);
    push_all_used(&mut named, variables, uses.as_slice())?;
    if is_fundecl(word) {
        return Ok(named);
    }
    push_inside(alloc, &mut named, variables, nodes, at)?;
    Ok(named)
}

/// Appends the symbols of declarators. On `OutOfMemory`, an allocation failed.
#[tactic(auto, using(crate::proofs::Declaring::declarators))]
fn push_declarators(
    out: &mut Vec<u32>,
    variables: &Variables<'_>,
    declarators: &[Numbered],
) -> Result<(), OutOfMemory>
    ensures { OnOk result (out.new.items ≡ out.old.items ++ model.declared_among (seen variables.now.names) (pieces_of (map syntax declarators.now))) }
{
    'declarators: for declarator in declarators {
        let Some(pattern) = declarator_pattern(declarator) else {
            return Ok(());
        };
        push_bound(out, variables, pattern)?;
    }
    Ok(())
}

/// Appends the symbols of a pattern, if there is one. On `OutOfMemory`, an allocation failed.
fn push_pattern(
    out: &mut Vec<u32>,
    variables: &Variables<'_>,
    pattern: Option<&Numbered>,
) -> Result<(), OutOfMemory>
    ensures { OnOk result (out.new.items ≡ out.old.items ++ of_item [] (bound_by (seen variables.now.names)) (option_map (λ t. syntax t.now) pattern.entry)) }
{
    match pattern {
        Some(pattern) => {
            push_bound(out, variables, pattern)?;
            Ok(())
        }
        None => Ok(()),
    }
}

/// Appends the symbols that a statement declares by itself, by its word and parts. On `OutOfMemory`, an allocation failed.
fn push_declared(
    out: &mut Vec<u32>,
    variables: &Variables<'_>,
    word: Word,
    parts: &[Numbered],
) -> Result<(), OutOfMemory>
    ensures { OnOk result (out.new.items ≡ out.old.items ++ declared.declared_as (seen variables.now.names) word (pieces_of (map syntax parts.now))) }
{
    match word {
        Word::Var => match second_list(parts) {
            Some(declarators) => {
                push_declarators(out, variables, declarators)?;
                Ok(())
            }
            None => Ok(()),
        },
        Word::Classdecl => {
            push_pattern(out, variables, first(parts))?;
            Ok(())
        }
        Word::Fundecl => {
            push_pattern(out, variables, fourth(parts))?;
            Ok(())
        }
        _ => Ok(()),
    }
}

/// The symbols that a statement declares by itself. On `OutOfMemory`, an allocation failed.
#[tactic(auto, using(crate::proofs::Declaring::by_form, rl_syntax::proofs::Layers::by_layer))]
pub fn declared_of(
    alloc: Global,
    variables: &Variables<'_>,
    tree: &Numbered,
) -> Result<Vec<u32>, OutOfMemory>
    ensures { IfOk result (λ found. found.items ≡ model.declared_by_statement (seen variables.now.names) (syntax tree.now)) }
{
    let mut found = Vec::new(alloc);
    match tree {
        Numbered::Node(_, word, parts) => {
            push_declared(&mut found, variables, *word, parts.as_slice())?;
            Ok(found)
        }
        Numbered::List(_) => Ok(found),
        Numbered::Text(_) => Ok(found),
        Numbered::Number(_) => Ok(found),
        Numbered::Flag(_) => Ok(found),
        Numbered::Absent => Ok(found),
    }
}

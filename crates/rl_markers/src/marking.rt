//! The marks of statements: which symbols are marked in front of which.

ghost use Rattle.std.specs.Prelude.{◌≡◌, ◌&&◌, ◌||◌, [], ℕ, Some, map, nat_eq, nat_le, not, slice_get, IfOk, OnOk};
ghost use Rattle.std.specs.List.{list_any};
ghost use Rattle.rl_markers.specs.Lists.{seen as seen_list};
ghost use Rattle.rl_markers.specs.Named as spec;
ghost use Rattle.rl_markers.specs.NodeSymbols.{AreOf};
ghost use Rattle.rl_model.specs.Code.{contains};
ghost use Rattle.rl_model.specs.Hoisting as model;
ghost use Rattle.rl_names.specs.Seen.{seen};
ghost use Rattle.rl_base.specs.declared.ids.SymbolId.{SymbolId};
ghost use Rattle.rl_bindings.specs.declared.event.Bound.{Bound};
ghost use Rattle.rl_syntax.specs.Syntax.{Node, Pieces, pieces_of, syntax};

use crate::kinds::{is_declaration, is_hoistable};
use crate::lists::StatementList;
use crate::named::{declared_of, first_declaration, named_early};
use crate::node_symbols::NodeSymbols;
use rl_base::error::OutOfMemory;
use rl_base::ids::{ScopeId, SymbolId};
use rl_code::numbers::{Numbers, add};
use rl_code::variables::Variables;
use rl_syntax::numbered::{At, Numbered};
use rl_syntax::word::Word;
use std::alloc::Global;
use std::collections::BTreeSet;

/// Marker of a symbol.
#[derive(Clone, Copy)]
pub struct Mark {
    /// The symbol.
    pub symbol: u32,
    /// The statement in front of which it stands, by the id of its node.
    pub node: u32,
}

/// Appends a marker. On `OutOfMemory`, an allocation failed.
#[tactic(auto, using(crate::proofs::Marks::mark_pushed))]
fn push_mark(marks: &mut Vec<Mark>, symbol: u32, node: u32) -> Result<(), OutOfMemory>
    ensures { OnOk result ((other up_to : ℕ) → spec.is_marked marks.new.items other up_to ≡ (spec.is_marked marks.old.items other up_to || (nat_eq other symbol && nat_le node up_to))) }
{
    marks.push(Mark { symbol, node })?;
    Ok(())
}

/// True of a symbol of a list that is neither marked nor declared yet.
fn is_open(opened: &Numbers, closed: &BTreeSet<u32>, symbol: u32) -> bool
    ensures { result ≡ (contains opened.now.list.items symbol && not (spec.has closed.now symbol)) }
{
    opened.has(symbol) && !closed.contains(&symbol)
}

/// Appends markers in front of a node for those of the symbols `named` that are open. On `OutOfMemory`, an allocation failed.
#[tactic(auto, using(crate::proofs::Marks::names))]
fn push_marks(
    marks: &mut Vec<Mark>,
    opened: &Numbers,
    closed: &BTreeSet<u32>,
    named: &[u32],
    node: u32,
) -> Result<(), OutOfMemory>
    ensures { OnOk result ((symbol up_to : ℕ) → spec.is_marked marks.new.items symbol up_to ≡ (spec.is_marked marks.old.items symbol up_to || ((contains opened.now.list.items symbol && not (spec.has closed.now symbol)) && (contains named.now symbol && nat_le node up_to)))) }
{
    'named: for symbol in named {
        if is_open(opened, closed, *symbol) {
            push_mark(marks, *symbol, node)?;
        }
    }
    Ok(())
}

/// Closes symbols. On `OutOfMemory`, an allocation failed.
fn close(closed: &mut BTreeSet<u32>, symbols: &[u32]) -> Result<(), OutOfMemory>
    ensures { OnOk result ((symbol : ℕ) → spec.has closed.new symbol ≡ (spec.has closed.old symbol || contains symbols.now symbol)) }
{
    'symbols: for symbol in symbols {
        add(closed, *symbol)?;
    }
    Ok(())
}

/// Marks what a statement, a node of the word `word`, names early, and closes that and what it declares. On `OutOfMemory`, an allocation
/// failed.
#[tactic(auto, using(crate::proofs::Marks::node_marked))]
fn mark_node(
    alloc: Global,
    variables: &Variables<'_>,
    nodes: &NodeSymbols,
    opened: &Numbers,
    closed: &mut BTreeSet<u32>,
    marks: &mut Vec<Mark>,
    tree: &Numbered,
    at: At,
    word: Word,
) -> Result<(), OutOfMemory>
    requires { AreOf nodes.now (spec.tables variables.now).symbols }
    ensures { OnOk result ((parts : Pieces) → syntax tree.now ≡ Node at word parts → spec.StatementMarked (spec.tables variables.now) (seen variables.now.names) opened.now.list.items closed.old closed.new marks.old.items marks.new.items (Node at word parts)) }
{
    let named = named_early(alloc, variables, nodes, tree, at, word)?;
    let symbols = named.as_slice();
    push_marks(marks, opened, closed, symbols, at.id.0)?;
    close(closed, symbols)?;
    let declared = declared_of(alloc, variables, tree)?;
    close(closed, declared.as_slice())?;
    Ok(())
}

/// As `mark_node`, for any tree. On `OutOfMemory`, an allocation failed.
#[tactic(auto, using(crate::proofs::Marks::tree_marked, rl_syntax::proofs::Layers::by_layer))]
fn mark_statement(
    alloc: Global,
    variables: &Variables<'_>,
    nodes: &NodeSymbols,
    opened: &Numbers,
    closed: &mut BTreeSet<u32>,
    marks: &mut Vec<Mark>,
    tree: &Numbered,
) -> Result<(), OutOfMemory>
    requires { AreOf nodes.now (spec.tables variables.now).symbols }
    ensures { OnOk result (spec.StatementMarked (spec.tables variables.now) (seen variables.now.names) opened.now.list.items closed.old closed.new marks.old.items marks.new.items (syntax tree.now)) }
{
    match tree {
        Numbered::Node(at, word, _) => {
            mark_node(
                alloc, variables, nodes, opened, closed, marks, tree, *at, *word,
            )?;
            Ok(())
        }
        Numbered::List(_) => Ok(()),
        Numbered::Text(_) => Ok(()),
        Numbered::Number(_) => Ok(()),
        Numbered::Flag(_) => Ok(()),
        Numbered::Absent => Ok(()),
    }
}

/// Appends the markers of a list of statements; `opened` are the symbols that may be marked in it. On `OutOfMemory`, an allocation
/// failed.
#[tactic(auto, using(crate::proofs::Marks::statements))]
fn mark_statements(
    alloc: Global,
    variables: &Variables<'_>,
    nodes: &NodeSymbols,
    opened: &Numbers,
    marks: &mut Vec<Mark>,
    statements: &[Numbered],
) -> Result<(), OutOfMemory>
    requires { AreOf nodes.now (spec.tables variables.now).symbols }
    ensures { OnOk result (spec.AddsMarks (spec.tables variables.now) marks.old.items marks.new.items (λ node symbol first. contains opened.now.list.items symbol && spec.marks_in (spec.tables variables.now) (seen variables.now.names) node symbol first (pieces_of (map syntax statements.now)))) }
{
    let mut closed = BTreeSet::new(alloc);
    'statements: for statement in statements {
        mark_statement(
            alloc,
            variables,
            nodes,
            opened,
            &mut closed,
            marks,
            statement,
        )?;
    }
    Ok(())
}

/// Appends the symbols whose first declaration stands in a declaration. On `OutOfMemory`, an allocation failed.
#[tactic(auto, using(crate::proofs::Opening::direct_one, rl_syntax::proofs::Layers::by_layer))]
fn push_direct(out: &mut Vec<u32>, nodes: &NodeSymbols, tree: &Numbered) -> Result<(), OutOfMemory>
    ensures { OnOk result (spec.AddsDirect nodes.now out.old.items out.new.items (syntax tree.now)) }
{
    match tree {
        Numbered::Node(at, word, _) => {
            if is_declaration(*word) {
                nodes.push_between(out, at.id.0, at.end.0)?;
                return Ok(());
            }
            Ok(())
        }
        Numbered::List(_) => Ok(()),
        Numbered::Text(_) => Ok(()),
        Numbered::Number(_) => Ok(()),
        Numbered::Flag(_) => Ok(()),
        Numbered::Absent => Ok(()),
    }
}

/// The symbols whose first declaration stands in a declaration of the list itself. On `OutOfMemory`, an allocation failed.
#[tactic(auto, using(crate::proofs::Opening::directs))]
fn direct_symbols(
    alloc: Global,
    variables: &Variables<'_>,
    nodes: &NodeSymbols,
    statements: &[Numbered],
) -> Result<Numbers, OutOfMemory>
    requires { AreOf nodes.now (spec.tables variables.now).symbols }
    ensures { IfOk result (λ found. spec.AddsSymbols (spec.tables variables.now) [] found.list.items (λ symbol first. model.is_direct first.node.0 (pieces_of (map syntax statements.now)))) }
{
    let mut found = Vec::new(alloc);
    'statements: for statement in statements {
        push_direct(&mut found, nodes, statement)?;
    }
    let numbers = Numbers::of(alloc, found)?;
    Ok(numbers)
}

/// True of a symbol of a scope or of a block right inside it that may be marked in the list with that scope; `direct` are those that
/// the list declares by itself.
#[tactic(auto, using(crate::proofs::Opening::candidates))]
fn is_candidate(
    variables: &Variables<'_>,
    direct: &Numbers,
    scope: ScopeId,
    symbol: SymbolId,
) -> bool
    ensures { (first : Bound) → slice_get (spec.tables variables.now).symbols symbol.0 ≡ Some first → result ≡ spec.is_candidate (spec.tables variables.now) direct.now.list.items scope.0 symbol.0 first }
{
    match first_declaration(variables, symbol.0) {
        Some(bound) => {
            is_hoistable(bound.kind)
                && (variables.names.resolver.symbol_scope(symbol).0 == scope.0
                    || direct.has(symbol.0))
        }
        None => false,
    }
}

/// Appends a symbol, if it is a candidate. On `OutOfMemory`, an allocation failed.
#[tactic(auto, using(crate::proofs::Opening::candidate))]
fn push_candidate(
    out: &mut Vec<u32>,
    variables: &Variables<'_>,
    direct: &Numbers,
    scope: ScopeId,
    symbol: SymbolId,
) -> Result<(), OutOfMemory>
    ensures { OnOk result (spec.AddsSymbols (spec.tables variables.now) out.old.items out.new.items (λ other first. nat_eq symbol.0 other && spec.is_candidate (spec.tables variables.now) direct.now.list.items scope.0 other first)) }
{
    if is_candidate(variables, direct, scope, symbol) {
        out.push(symbol.0)?;
        return Ok(());
    }
    Ok(())
}

/// The candidates among some symbols. On `OutOfMemory`, an allocation failed.
#[tactic(auto, using(crate::proofs::Opening::candidates_all))]
fn candidates_among(
    alloc: Global,
    variables: &Variables<'_>,
    direct: &Numbers,
    scope: ScopeId,
    symbols: &[SymbolId],
) -> Result<Numbers, OutOfMemory>
    ensures { IfOk result (λ found. spec.AddsSymbols (spec.tables variables.now) [] found.list.items (λ other first. list_any (λ (s : SymbolId). nat_eq s.0 other) symbols.now && spec.is_candidate (spec.tables variables.now) direct.now.list.items scope.0 other first)) }
{
    let mut found = Vec::new(alloc);
    'symbols: for symbol in symbols {
        push_candidate(&mut found, variables, direct, scope, *symbol)?;
    }
    let numbers = Numbers::of(alloc, found)?;
    Ok(numbers)
}

/// The symbols that may be marked in a list. On `OutOfMemory`, an allocation failed.
#[tactic(auto, using(crate::proofs::Opening::opened))]
fn opened_in(
    alloc: Global,
    variables: &Variables<'_>,
    nodes: &NodeSymbols,
    list: StatementList<'_>,
) -> Result<Numbers, OutOfMemory>
    requires { AreOf nodes.now (spec.tables variables.now).symbols }
    ensures { IfOk result (λ found. spec.AddsSymbols (spec.tables variables.now) [] found.list.items (λ symbol first. model.is_hoistable first.kind && model.is_of_list (spec.tables variables.now) (seen_list list.entry) symbol first)) }
{
    let direct = direct_symbols(alloc, variables, nodes, list.statements)?;
    let bound = variables
        .names
        .resolver
        .bindings_with_child_blocks(alloc, list.scope)?;
    let opened = candidates_among(alloc, variables, &direct, list.scope, bound.as_slice())?;
    Ok(opened)
}

/// Appends the markers of a list. On `OutOfMemory`, an allocation failed.
#[tactic(auto, using(crate::proofs::Opening::list_marked))]
fn mark_list(
    alloc: Global,
    variables: &Variables<'_>,
    nodes: &NodeSymbols,
    marks: &mut Vec<Mark>,
    list: StatementList<'_>,
) -> Result<(), OutOfMemory>
    requires { AreOf nodes.now (spec.tables variables.now).symbols }
    ensures { OnOk result (spec.AddsMarks (spec.tables variables.now) marks.old.items marks.new.items (λ node symbol first. spec.marks_list (spec.tables variables.now) (seen variables.now.names) node symbol first (seen_list list.entry))) }
{
    let opened = opened_in(alloc, variables, nodes, list)?;
    mark_statements(alloc, variables, nodes, &opened, marks, list.statements)?;
    Ok(())
}

/// The markers of lists of statements. On `OutOfMemory`, an allocation failed.
#[tactic(auto, using(crate::proofs::Opening::lists))]
pub fn marks_of(
    alloc: Global,
    variables: &Variables<'_>,
    nodes: &NodeSymbols,
    lists: &[StatementList<'_>],
) -> Result<Vec<Mark>, OutOfMemory>
    requires { AreOf nodes.now (spec.tables variables.now).symbols }
    ensures { IfOk result (λ marks. spec.AddsMarks (spec.tables variables.now) [] marks.items (λ node symbol first. list_any (spec.marks_list (spec.tables variables.now) (seen variables.now.names) node symbol first) (map seen_list lists.now))) }
{
    let mut marks = Vec::new(alloc);
    'lists: for list in lists {
        mark_list(alloc, variables, nodes, &mut marks, *list)?;
    }
    Ok(marks)
}

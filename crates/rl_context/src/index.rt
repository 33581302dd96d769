//! Index of a function: its references and declarations by number.

ghost use Rattle.std.specs.Prelude.{◌≡◌, ◌<◌, ◌||◌, ℕ, false, if◌then◌else◌, get_or, length, nat_eq, Some, None, IfOk, OnOk};
ghost use Rattle.std.specs.Option.{option_copied};
ghost use Rattle.rl_ast.specs.FunctionNodes.{seen_function_node};
ghost use Rattle.rl_bindings.specs.Symbols.{option_or};
ghost use Rattle.rl_context.specs.Index as spec;
ghost use Rattle.rl_context.specs.Sites.{sites_in};
ghost use Rattle.rl_semantic.specs.Buckets.{first_at};

use crate::site::{IdentEntry, Site};
use crate::walk::sites_of;
use rl_ast::function_node::FunctionNode;
use rl_base::error::OutOfMemory;
use rl_base::ids::{ReferenceId, SymbolId};
use rl_base::list::List;
use rl_base::span::Span;
use rl_resolver::resolver::ScopeResolver;
use std::alloc::Global;
use std::marker::Model;

/// Lengthens a table of entries so that it has a place for a reference, and gives no entry to any. On `OutOfMemory`, an allocation
/// failed.
#[tactic(auto, using(crate::proofs::Places::place_added))]
fn make_place(entries: &mut Vec<Option<IdentEntry>>, reference: usize) -> Result<(), OutOfMemory>
    ensures place { OnOk result (reference < length entries.new.items) }
    ensures same { OnOk result ((n : ℕ) → first_at entries.new.items n ≡ first_at entries.old.items n) }
{
    while entries.len() <= reference {
        entries.push(None)?;
    }
    Ok(())
}

/// Gives an entry to a reference that has none yet. On `OutOfMemory`, an allocation failed.
fn add_entry(
    entries: &mut Vec<Option<IdentEntry>>,
    reference: usize,
    entry: IdentEntry,
) -> Result<(), OutOfMemory>
    ensures { OnOk result ((n : ℕ) → first_at entries.new.items n ≡ option_or (first_at entries.old.items n) (if nat_eq reference n then Some entry else None)) }
{
    make_place(entries, reference)?;
    match entries[reference] {
        Some(_) => {}
        None => entries[reference] = Some(entry),
    }
    Ok(())
}

/// The entries of the references among sites, each at the number of its reference. On `OutOfMemory`, an allocation failed.
fn entries_of(alloc: Global, sites: &[Site]) -> Result<Vec<Option<IdentEntry>>, OutOfMemory>
    ensures { IfOk result (λ entries. spec.AreEntries entries.items sites.now) }
{
    let mut entries = Vec::new(alloc);
    for site in sites {
        if let Site::Reference(found) = site {
            add_entry(&mut entries, found.reference.0 as usize, found.entry)?;
        }
    }
    Ok(entries)
}

/// True of a number that is marked. None past the end is.
fn is_marked(marks: &[bool], number: usize) -> bool
    ensures { result ≡ get_or marks.now number false }
{
    match marks.get(number) {
        Some(marked) => *marked,
        None => false,
    }
}

/// Lengthens a table of marks so that it has a place for a number, and marks none. On `OutOfMemory`, an allocation failed.
fn reach(marks: &mut Vec<bool>, number: u32) -> Result<(), OutOfMemory>
    ensures place { OnOk result (number < length marks.new.items) }
    ensures same { OnOk result ((n : ℕ) → get_or marks.new.items n false ≡ get_or marks.old.items n false) }
{
    let count = number as usize + 1;
    if marks.len() < count {
        marks.resize(count, false)?;
    }
    Ok(())
}

/// Marks a number. On `OutOfMemory`, an allocation failed.
fn mark(marks: &mut Vec<bool>, number: u32) -> Result<(), OutOfMemory>
    ensures { OnOk result ((n : ℕ) → get_or marks.new.items n false ≡ (nat_eq number n || get_or marks.old.items n false)) }
{
    reach(marks, number)?;
    marks[number as usize] = true;
    Ok(())
}

/// The declarations among sites: the ids of their nodes are marked. On `OutOfMemory`, an allocation failed.
fn declarations_of(alloc: Global, sites: &[Site]) -> Result<Vec<bool>, OutOfMemory>
    ensures { IfOk result (λ declarations. spec.AreDeclarations declarations.items sites.now) }
{
    let mut declarations = Vec::new(alloc);
    for site in sites {
        if let Site::Declaration(node) = site {
            mark(&mut declarations, node.0)?;
        }
    }
    Ok(declarations)
}

/// References and declarations of a function, by number: `IdentifierLocIndex` of the original. It holds the `id` and `bind` nodes
/// inside the function's node, the function's own name among them, and outside classes in it. Contracts see the sites of the
/// function, in the order of its nodes.
#[derive(Drop)]
pub struct IdentifierLocIndex {
    list: List<Site>,
    entries: Vec<Option<IdentEntry>>,
    declarations: Vec<bool>,
}

impl Model for IdentifierLocIndex {
    ghost use Rattle.std.specs.Prelude.{List};
    ghost use Rattle.rl_context.specs.Index.{AreEntries, AreDeclarations};
    ghost use Rattle.rl_context.specs.declared.site.Site.{Site};

    ghost Value = { List Site };

    ghost view = { λ index. index.list };

    ghost invariant = { λ index. AreEntries index.entries.items index.list × AreDeclarations index.declarations.items index.list };
}

impl IdentifierLocIndex {
    /// The index of a function: `build_identifier_loc_index` of the original. It takes time that is linear in the nodes of the
    /// function, and the nodes and references before it. On `OutOfMemory`, an allocation failed.
    pub fn of(alloc: Global, func: &FunctionNode<'_>) -> Result<IdentifierLocIndex, OutOfMemory>
        ensures { IfOk result (λ index. index ≡ sites_in (seen_function_node func.now)) }
    {
        let list = sites_of(alloc, func)?;
        let entries = entries_of(alloc, list.as_slice())?;
        let declarations = declarations_of(alloc, list.as_slice())?;
        Ok(IdentifierLocIndex {
            list,
            entries,
            declarations,
        })
    }

    /// The sites of the function, in the order of its nodes.
    pub fn sites(&self) -> &[Site]
        ensures { result.now ≡ self.now }
    {
        self.list.as_slice()
    }

    /// The entry of a reference. `None` of a reference that the index does not hold.
    pub fn reference(&self, reference: ReferenceId) -> Option<&IdentEntry>
        ensures { option_copied result ≡ spec.entry_among reference.0 self.now }
    {
        match self.entries.get(reference.0 as usize) {
            Some(entry) => entry.as_ref(),
            None => None,
        }
    }

    /// The span of the declaration identifier of a symbol, a half-open byte range in the unit's text. `None` if the index does
    /// not hold it, and for a symbol without one.
    pub fn declaration_span(&self, symbol: SymbolId, scope: &ScopeResolver<'_>) -> Option<Span>
        ensures { result ≡ spec.declaration_span self.now scope.now.semantic.now.bindings.symbols symbol.0 }
    {
        match scope.declaration_ident(symbol) {
            Some(declaration) => {
                if is_marked(self.declarations.as_slice(), declaration.node.0 as usize) {
                    Some(declaration.span)
                } else {
                    None
                }
            }
            None => None,
        }
    }
}

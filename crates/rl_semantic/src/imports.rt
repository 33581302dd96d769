//! Bindings that the imports of a unit make.

ghost use Rattle.std.specs.Prelude.{◌≡◌, ◌++◌, map, option_map, IfOk, OnOk};
ghost use Rattle.rl_semantic.specs.Imports as spec;
ghost use Rattle.rl_semantic.specs.ImportNodes as import_nodes;
ghost use Rattle.rl_syntax.specs.Syntax.{pieces_of, syntax};

use rl_ast::unit::Unit;
use rl_base::error::OutOfMemory;
use rl_base::ids::NodeId;
use rl_base::list::List;
use rl_base::text::Text;
use rl_rules::pieces::{behind, first_items};
use rl_syntax::nodes::NodeEntry;
use rl_syntax::numbered::Numbered;
use rl_syntax::word::Word;
use std::alloc::Global;

/// A kind of binding that an import makes (ECMA-262, 16.2.2): `ImportBindingKind` of the original.
#[derive(Clone, Copy, Debug, PartialEq, Eq)]
pub enum ImportBindingKind {
    /// The default export of the module.
    Default,
    /// An export of the module, by its name.
    Named,
    /// All exports of the module as one object.
    Namespace,
}

/// A binding that an import makes: `ImportBindingData` of the original.
#[derive(Debug, Drop)]
pub struct ImportBindingData {
    /// The module's text in the import.
    pub source: Text,
    /// The kind of the binding.
    pub kind: ImportBindingKind,
    /// The name of the export, of a binding of the kind `Named`. `None` of any other.
    pub imported: Option<Text>,
}

/// A binding that an import makes, in the texts of the unit.
#[derive(Clone, Copy)]
pub struct ImportEntry<'u> {
    /// The `bind` node that declares the name.
    pub node: NodeId,
    /// The module's text in the import.
    pub source: &'u Text,
    /// The kind of the binding.
    pub kind: ImportBindingKind,
    /// The name of the export, of a binding of the kind `Named`. `None` of any other.
    pub imported: Option<&'u Text>,
}

/// A copy of a text, if there is one. On `OutOfMemory`, an allocation failed.
fn copy_of(alloc: Global, text: Option<&Text>) -> Result<Option<Text>, OutOfMemory>
    ensures { IfOk result (λ copy. copy ≡ option_map (λ t. t.now) text.entry) }
{
    match text {
        Some(text) => Ok(Some(text.copy(alloc)?)),
        None => Ok(None),
    }
}

impl ImportEntry<'_> {
    /// The data of the entry, in memory of its own. On `OutOfMemory`, an allocation failed.
    pub fn to_data(&self, alloc: Global) -> Result<ImportBindingData, OutOfMemory>
        ensures { IfOk result (λ copy. copy ≡ spec.data_of self.now) }
    {
        Ok(ImportBindingData {
            source: self.source.copy(alloc)?,
            kind: self.kind,
            imported: copy_of(alloc, self.imported)?,
        })
    }
}

/// The first of some parts, if it is a text.
#[tactic(auto, using(rl_syntax::proofs::Layers::by_layer))]
fn first_text(parts: &[Numbered]) -> Option<&Text>
    ensures { option_map (λ t. t.now) result ≡ spec.first_text (pieces_of (map syntax parts.now)) }
{
    match parts {
        [] => None,
        [part, _parts @ ..] => match part {
            Numbered::Text(text) => Some(text),
            Numbered::Node(_, _, _) => None,
            Numbered::List(_) => None,
            Numbered::Number(_) => None,
            Numbered::Flag(_) => None,
            Numbered::Absent => None,
        },
    }
}

/// The id of the first of some parts, if it is a node.
#[tactic(auto, using(rl_syntax::proofs::Layers::by_layer))]
fn first_node(parts: &[Numbered]) -> Option<NodeId>
    ensures { result ≡ spec.first_node (pieces_of (map syntax parts.now)) }
{
    match parts {
        [] => None,
        [part, _parts @ ..] => match part {
            Numbered::Node(at, _, _) => Some(at.id),
            Numbered::Text(_) => None,
            Numbered::List(_) => None,
            Numbered::Number(_) => None,
            Numbered::Flag(_) => None,
            Numbered::Absent => None,
        },
    }
}

/// The kind of binding that an import specifier of the word makes. `None` of the words of no specifiers.
fn kind_of(word: Word) -> Option<ImportBindingKind>
    ensures { result ≡ spec.kind_of word }
{
    match word {
        Word::Default => Some(ImportBindingKind::Default),
        Word::Named => Some(ImportBindingKind::Named),
        Word::Namespace => Some(ImportBindingKind::Namespace),
        _ => None,
    }
}

/// The name of the export that a specifier of the kind names. `None` of any kind but `Named`.
fn imported_of(kind: ImportBindingKind, parts: &[Numbered]) -> Option<&Text>
    ensures { option_map (λ t. t.now) result ≡ spec.imported_of kind (pieces_of (map syntax parts.now)) }
{
    match kind {
        ImportBindingKind::Default => None,
        ImportBindingKind::Named => first_text(parts),
        ImportBindingKind::Namespace => None,
    }
}

/// The parts of a specifier of the kind from its `bind` node on.
fn local_of(kind: ImportBindingKind, parts: &[Numbered]) -> &[Numbered]
    ensures { pieces_of (map syntax result.now) ≡ spec.local_of kind (pieces_of (map syntax parts.now)) }
{
    match kind {
        ImportBindingKind::Default => parts,
        ImportBindingKind::Named => behind(parts),
        ImportBindingKind::Namespace => parts,
    }
}

/// Appends the binding that a specifier of the kind makes. On `OutOfMemory`, an allocation failed.
fn push_binding<'u>(
    found: &mut List<ImportEntry<'u>>,
    source: &'u Text,
    parts: &'u [Numbered],
    kind: ImportBindingKind,
) -> Result<(), OutOfMemory>
    ensures { OnOk result (map spec.seen found.new ≡ map spec.seen found.old ++ spec.binding_of source.now (pieces_of (map syntax parts.now)) kind) }
{
    match first_node(local_of(kind, parts)) {
        Some(node) => {
            found.push(ImportEntry {
                node,
                source,
                kind,
                imported: imported_of(kind, parts),
            })?;
            Ok(())
        }
        None => Ok(()),
    }
}

/// Appends the binding that a specifier makes; nothing for any other part. On `OutOfMemory`, an allocation failed.
#[tactic(auto, using(crate::proofs::Importing::as_specifier, rl_syntax::proofs::Layers::by_layer))]
fn push_specifier<'u>(
    found: &mut List<ImportEntry<'u>>,
    source: &'u Text,
    tree: &'u Numbered,
) -> Result<(), OutOfMemory>
    ensures { OnOk result (map spec.seen found.new ≡ map spec.seen found.old ++ spec.specifier source.now (syntax tree.now)) }
{
    match tree {
        Numbered::Node(_, word, parts) => match kind_of(*word) {
            Some(kind) => {
                push_binding(found, source, parts.as_slice(), kind)?;
                Ok(())
            }
            None => Ok(()),
        },
        Numbered::List(_) => Ok(()),
        Numbered::Text(_) => Ok(()),
        Numbered::Number(_) => Ok(()),
        Numbered::Flag(_) => Ok(()),
        Numbered::Absent => Ok(()),
    }
}

/// Appends the bindings that specifiers in a row make. On `OutOfMemory`, an allocation failed.
fn push_specifiers<'u>(
    found: &mut List<ImportEntry<'u>>,
    source: &'u Text,
    trees: &'u [Numbered],
) -> Result<(), OutOfMemory>
    ensures { OnOk result (map spec.seen found.new ≡ map spec.seen found.old ++ spec.specifiers source.now (pieces_of (map syntax trees.now))) }
{
    'trees: for tree in trees {
        push_specifier(found, source, tree)?;
    }
    Ok(())
}

/// Appends the bindings that a node itself makes, if it is an import. On `OutOfMemory`, an allocation failed.
fn push_import<'u>(
    found: &mut List<ImportEntry<'u>>,
    word: Word,
    parts: &'u [Numbered],
) -> Result<(), OutOfMemory>
    ensures { OnOk result (map spec.seen found.new ≡ map spec.seen found.old ++ spec.import_of word (pieces_of (map syntax parts.now))) }
{
    match word {
        Word::Import => match first_text(parts) {
            Some(source) => {
                push_specifiers(found, source, first_items(behind(parts)))?;
                Ok(())
            }
            None => Ok(()),
        },
        _ => Ok(()),
    }
}

/// Appends the bindings that the imports in a tree make. On `OutOfMemory`, an allocation failed.
#[cycle(collecting)]
#[inline(always)]
#[tactic(auto, using(crate::proofs::Importing::as_tree, rl_syntax::proofs::Layers::by_layer))]
fn push_imports<'u>(
    found: &mut List<ImportEntry<'u>>,
    tree: &'u Numbered,
) -> Result<(), OutOfMemory>
    ensures { OnOk result (map spec.seen found.new ≡ map spec.seen found.old ++ spec.imports_in (syntax tree.now)) }
{
    match tree {
        Numbered::Node(_, word, parts) => {
            push_import(found, *word, parts.as_slice())?;
            push_among(found, parts.as_slice())?;
            Ok(())
        }
        Numbered::List(parts) => {
            push_among(found, parts.as_slice())?;
            Ok(())
        }
        Numbered::Text(_) => Ok(()),
        Numbered::Number(_) => Ok(()),
        Numbered::Flag(_) => Ok(()),
        Numbered::Absent => Ok(()),
    }
}

/// As `push_imports`, for parts in a row. On `OutOfMemory`, an allocation failed.
#[cycle(collecting)]
fn push_among<'u>(
    found: &mut List<ImportEntry<'u>>,
    trees: &'u [Numbered],
) -> Result<(), OutOfMemory>
    ensures { OnOk result (map spec.seen found.new ≡ map spec.seen found.old ++ spec.imports_among (pieces_of (map syntax trees.now))) }
{
    'trees: for tree in trees {
        push_imports(found, tree)?;
    }
    Ok(())
}

/// True of the word of imports.
fn is_import(word: Word) -> bool
    ensures { result ≡ import_nodes.is_import word }
{
    match word {
        Word::Import => true,
        _ => false,
    }
}

/// True if an import is among nodes.
fn has_import(nodes: &[NodeEntry]) -> bool
    ensures { result ≡ import_nodes.has_import nodes.now }
{
    for entry in nodes {
        if is_import(entry.word) {
            return true;
        }
    }
    false
}

/// The bindings that the imports of a unit make, in the order of the nodes. The tree is walked only if an import is among the
/// unit's nodes. On `OutOfMemory`, an allocation failed.
#[tactic(auto, using(crate::proofs::Importing::none_imported))]
pub(crate) fn imports_of(alloc: Global, unit: &Unit) -> Result<List<ImportEntry<'_>>, OutOfMemory>
    ensures { IfOk result (λ found. map spec.seen found ≡ spec.imports_in (syntax unit.now.tree)) }
{
    let mut found = List::new(alloc);
    if !has_import(unit.nodes.as_slice()) {
        return Ok(found);
    }
    push_imports(&mut found, &unit.tree)?;
    Ok(found)
}

//! The table of a unit's nodes.

ghost use Rattle.std.specs.Prelude.{◌≡◌, ◌++◌, map, IfOk, OnOk};
ghost use Rattle.rl_syntax.specs.Nodes.{entries, entries_among, entries_under};
ghost use Rattle.rl_syntax.specs.Syntax.{pieces_of, syntax};

use crate::numbered::{At, Numbered};
use crate::word::Word;
use rl_base::error::OutOfMemory;
use rl_base::ids::NodeId;
use rl_base::list::List;
use std::alloc::Global;

/// A node of a unit. Its index in the table is its id.
#[derive(Clone, Copy, Debug)]
pub struct NodeEntry {
    /// The kind of the node.
    pub word: Word,
    /// The id of the innermost node around it. `None` for the unit itself.
    pub parent: Option<NodeId>,
    /// Its ids and its span.
    pub at: At,
}

/// Appends the nodes of a tree whose outermost nodes have this parent.
#[cycle(listing)]
#[tactic(auto, using(crate::proofs::Listing::by_form, crate::proofs::Layers::by_layer))]
fn push_entries(
    tree: &Numbered,
    parent: Option<NodeId>,
    table: &mut List<NodeEntry>,
) -> Result<(), OutOfMemory>
    ensures { OnOk result (table.new ≡ table.old ++ entries_under parent (syntax tree.now)) }
{
    match tree {
        Numbered::Node(at, word, parts) => {
            table.push(NodeEntry {
                word: *word,
                parent,
                at: *at,
            })?;
            push_all(parts.as_slice(), Some(at.id), table)
        }
        Numbered::List(parts) => push_all(parts.as_slice(), parent, table),
        Numbered::Text(_) => Ok(()),
        Numbered::Number(_) => Ok(()),
        Numbered::Flag(_) => Ok(()),
        Numbered::Absent => Ok(()),
    }
}

/// Appends the nodes of trees in a row.
#[cycle(listing)]
fn push_all(
    trees: &[Numbered],
    parent: Option<NodeId>,
    table: &mut List<NodeEntry>,
) -> Result<(), OutOfMemory>
    ensures { OnOk result (table.new ≡ table.old ++ entries_among parent (pieces_of (map syntax trees.now))) }
{
    'trees: for tree in trees {
        push_entries(tree, parent, table)?;
    }
    Ok(())
}

/// Number of nodes of a tree whose first node has the id 0; 0 for a tree that is no node.
fn node_count(tree: &Numbered) -> usize {
    match tree {
        Numbered::Node(at, _, _) => at.end.0 as usize,
        _ => 0,
    }
}

/// The nodes of a tree, by their ids. On `OutOfMemory`, an allocation failed.
pub fn table_of(alloc: Global, tree: &Numbered) -> Result<List<NodeEntry>, OutOfMemory>
    ensures { IfOk result (λ table. table ≡ entries (syntax tree.now)) }
{
    let mut table = List::with_capacity(alloc, node_count(tree))?;
    push_entries(tree, None, &mut table)?;
    Ok(table)
}

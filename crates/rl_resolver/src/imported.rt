//! The imports of symbols.

ghost use Rattle.std.specs.Prelude.{◌≡◌, map, IfOk};
ghost use Rattle.rl_ast.specs.Marked.{first};
ghost use Rattle.rl_semantic.specs.Buckets.{AreBuckets};
ghost use Rattle.rl_semantic.specs.Buckets as table;
ghost use Rattle.rl_resolver.specs.Imported as spec;

use rl_base::error::OutOfMemory;
use rl_base::ids::NodeId;
use rl_base::list::List;
use rl_semantic::buckets::{bucket, buckets};
use rl_semantic::imports::ImportEntry;
use std::alloc::Global;

/// Entries of imports, each at its `bind` node. On `OutOfMemory`, an allocation failed.
fn importing<'u>(
    alloc: Global,
    imports: &[ImportEntry<'u>],
) -> Result<List<(usize, ImportEntry<'u>)>, OutOfMemory>
    ensures { IfOk result (λ pairs. pairs ≡ map spec.import_pair imports.now) }
{
    let mut pairs = List::new(alloc);
    for entry in imports {
        pairs.push((entry.node.0 as usize, *entry))?;
    }
    Ok(pairs)
}

/// The imports that each of `count` nodes declares. On `OutOfMemory`, an allocation failed.
pub(crate) fn imports_by_node<'u>(
    alloc: Global,
    count: usize,
    imports: &[ImportEntry<'u>],
) -> Result<List<List<ImportEntry<'u>>>, OutOfMemory>
    ensures { IfOk result (λ table. AreBuckets table count (map spec.import_pair imports.now)) }
{
    let pairs = importing(alloc, imports)?;
    let table = buckets(alloc, count, pairs.as_slice())?;
    Ok(table)
}

/// The import that a table has at a node: the first, if there are several.
pub(crate) fn import_at<'u>(
    imports: &List<List<ImportEntry<'u>>>,
    node: NodeId,
) -> Option<ImportEntry<'u>>
    ensures { result ≡ first (table.bucket imports.now node.0) }
{
    match bucket(imports, node.0 as usize) {
        [entry, ..] => Some(*entry),
        [] => None,
    }
}

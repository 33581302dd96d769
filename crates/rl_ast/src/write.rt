//! The writer of units.

ghost use Rattle.std.specs.Prelude.{◌≡◌, IfOk};
ghost use Rattle.rl_text.specs.Notation.{spelling};
ghost use Rattle.rl_syntax.specs.Syntax.{plain, syntax};

use crate::unit::Unit;
use rl_base::error::OutOfMemory;
use rl_syntax::write::write_numbered;
use std::alloc::Global;

/// The bytes that spell a unit: those that it was read from. On `OutOfMemory`, an allocation failed.
pub fn write_tree(alloc: Global, unit: &Unit) -> Result<Vec<u8>, OutOfMemory>
    ensures { IfOk result (λ bytes. bytes.items ≡ spelling (plain (syntax unit.now.tree))) }
{
    let mut out = Vec::new(alloc);
    write_numbered(&unit.tree, &mut out)?;
    Ok(out)
}

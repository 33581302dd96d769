//! The reader of units: limits, the numbered tree, and the grammar, in this order.

ghost use Rattle.std.specs.Prelude.{◌≡◌, ◌↔◌, IfOk, IsErrOf, IsTrue};
ghost use Rattle.rl_syntax.specs.Limits.{IsTooLarge};
ghost use Rattle.rl_syntax.specs.Syntax.{Syntax, syntax};
ghost use Rattle.rl_ast.specs.Units.{Spells};

use crate::unit::Unit;
use rl_base::error::OutOfMemory;
use rl_grammar::fits::fits;
use rl_grammar::kind::{Field, Kind};
use rl_syntax::nodes::table_of;
use rl_syntax::reader::read_numbered;
use rl_text::measure::measure;
use std::alloc::Global;
use thiserror::Error;

/// Number of bytes of the longest unit that is accepted: `most_bytes`.
pub const LARGEST_INPUT: usize = 16_777_216;

/// Number of nodes of the largest unit that is accepted: `most_nodes`.
const MOST_NODES: usize = 65_536;

/// Number of nodes that may be open at once: `most_open`.
const MOST_OPEN: usize = 256;

/// An error of `read_tree`. It leaves nothing behind.
#[derive(Debug, Drop, Clone, Copy, PartialEq, Eq, Error)]
pub enum TreeError {
    /// The bytes exceed a limit: more than 2^24 bytes, 65,536 nodes, or 256 nodes open at once.
    #[error("TooLarge")]
    TooLarge,
    /// The bytes are within the limits and spell no unit of the grammar.
    #[error("Malformed")]
    Malformed,
    /// An allocation failed.
    #[error("OutOfMemory")]
    OutOfMemory,
}

impl From<OutOfMemory> for TreeError {
    ghost use Rattle.rl_ast.specs.declared.read.TreeError.TheVariants.{OutOfMemory};
    ghost use Rattle.std.specs.Prelude.{◌≡◌};

    ghost from_gives = { λ _ e. e ≡ OutOfMemory };

    fn from(_e: OutOfMemory) -> TreeError {
        TreeError::OutOfMemory
    }
}

/// True of bytes that exceed a limit. Bytes that are too many are not looked at.
fn is_too_large(bytes: &[u8]) -> bool
    ensures { IsTrue result ↔ IsTooLarge bytes.now }
{
    if bytes.len() > LARGEST_INPUT {
        return true;
    }
    let size = measure(bytes);
    size.nodes > MOST_NODES || size.deepest > MOST_OPEN
}

/// Reads the unit that the whole of `bytes` spells, with the ids and spans that the text gives to its nodes. No other
/// unit is spelled by them. On `TooLarge`, the bytes exceed a limit, and may spell a unit or none; on `Malformed`, they are
/// within the limits and spell no unit of the grammar; on `OutOfMemory`, an allocation failed.
#[tactic(auto, using(crate::proofs::Reading::reading))]
pub fn read_tree(alloc: Global, bytes: &[u8]) -> Result<Unit, TreeError>
    ensures found { IfOk result (λ u. Spells bytes.now (syntax u.tree)) }
    ensures unique { IfOk result (λ u. (v : Syntax) → Spells bytes.now v → v ≡ syntax u.tree) }
    ensures too_large { IsErrOf result TreeError.TooLarge ↔ IsTooLarge bytes.now }
    ensures malformed { IsErrOf result TreeError.Malformed → (IsTooLarge bytes.now → ⊥) × ((v : Syntax) → Spells bytes.now v → ⊥) }
{
    if is_too_large(bytes) {
        return Err(TreeError::TooLarge);
    }
    let Some(tree) = read_numbered(alloc, 2 * MOST_OPEN + 1, bytes)? else {
        return Err(TreeError::Malformed);
    };
    if !fits(Field::One(Kind::Unit), &tree) {
        return Err(TreeError::Malformed);
    }
    let nodes = table_of(alloc, &tree)?;
    Ok(Unit { tree, nodes })
}

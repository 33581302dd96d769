//! The variables that a function shares with others, as a run has them.

ghost use Rattle.std.specs.Prelude.{◌≡◌, map, IfOk};

use rl_base::error::OutOfMemory;
use rl_base::ids::SymbolId;
use std::alloc::Global;

/// The symbols with these numbers, in order. On `OutOfMemory`, an allocation failed.
pub fn symbols_of(alloc: Global, numbers: &[u32]) -> Result<Vec<SymbolId>, OutOfMemory>
    ensures { IfOk result (λ symbols. map (λ symbol. symbol.0) symbols.items ≡ numbers.now) }
{
    let mut symbols = Vec::new(alloc);
    'numbers: for number in numbers {
        symbols.push(SymbolId(*number))?;
    }
    Ok(symbols)
}

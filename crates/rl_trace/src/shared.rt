//! The variables that a function shares with others.

ghost use Rattle.std.specs.Prelude.{◌≡◌};
ghost use Rattle.rl_trace.specs.Shared.{ident_of, world_of};

use rl_base::ids::{IdentifierId, SymbolId};

/// The numbers of symbols among the variables of a run.
#[derive(Clone, Copy)]
pub enum Numbers<'b> {
    /// Each symbol has its own number: variables are symbols.
    Own,
    /// The identifiers of symbols, by symbol: variables are identifiers.
    Identifiers(&'b [Option<IdentifierId>]),
}

/// The variables that a function shares with others, by symbol.
#[derive(Clone, Copy)]
pub struct Shared<'b> {
    /// The numbers of symbols.
    pub numbers: Numbers<'b>,
    /// True at the symbols that other functions assign. A symbol past its end is none.
    pub open: &'b [bool],
    /// The symbols whose values other functions see when this one has returned, in order.
    pub kept: &'b [SymbolId],
}

impl<'b> Shared<'b> {
    /// The number of a symbol. `None` if it has none.
    pub fn number(&self, symbol: SymbolId) -> Option<u32>
        ensures { result ≡ ident_of self.now.numbers symbol.0 }
    {
        match self.numbers {
            Numbers::Own => Some(symbol.0),
            Numbers::Identifiers(identifiers) => match identifiers.get(symbol.0 as usize) {
                Some(Some(identifier)) => Some(identifier.0),
                Some(None) => None,
                None => None,
            },
        }
    }

    /// True if other functions assign the symbol.
    pub fn is_open(&self, symbol: SymbolId) -> bool
        ensures { result ≡ (world_of self.now).opens symbol.0 }
    {
        match self.open.get(symbol.0 as usize) {
            Some(open) => *open,
            None => false,
        }
    }
}

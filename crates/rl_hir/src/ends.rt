//! Listings of terminals.

ghost use Rattle.std.specs.Prelude.{◌≡◌, OnOk};
ghost use Rattle.rl_hir.specs.Listing as spec;
ghost use Rattle.rl_hir.specs.Terminals.{goto_variant, return_variant, terminal_word};
ghost use Rattle.rl_hir.specs.Written.{IsListed, IsWordOf};

use crate::terminal::{Case, GotoVariant, ReturnVariant, Terminal, TerminalKind};
use crate::terminal_table::with_terminals;
use rl_base::closed_text::ClosedText;
use rl_base::error::OutOfMemory;
use rl_text::written::{Both, Literal, Written, WrittenParts, write_node};

impl GotoVariant {
    /// The word of the variant in a listing.
    fn as_str(self) -> &'static str
        ensures { result.now ≡ goto_variant self }
    {
        match self {
            GotoVariant::Break => "break",
            GotoVariant::Continue => "continue",
            GotoVariant::Try => "try",
        }
    }
}

impl ReturnVariant {
    /// The word of the variant in a listing.
    fn as_str(self) -> &'static str
        ensures { result.now ≡ return_variant self }
    {
        match self {
            ReturnVariant::Implicit => "implicit",
            ReturnVariant::Explicit => "explicit",
            ReturnVariant::Void => "void",
        }
    }
}

impl Written for Case {
    ghost shown = { spec.case };

    fn write(&self, out: &mut Vec<u8>) -> Result<(), OutOfMemory> {
        write_node("case", &(self.test, self.block), out)
    }
}

/// The word of a terminal of a kind.
macro_rules! word_of {
    (($kind:expr) $($name:ident $word:literal ($($tells:ident $field:ident),*))*) => {
        match $kind {
            $(TerminalKind::$name { .. } => $word,)*
        }
    };
}

impl TerminalKind {
    /// The word of the terminal in a listing.
    fn word(&self) -> &'static str
        ensures { IsWordOf (terminal_word self.now) result.now }
    {
        with_terminals!(word_of(self))
    }
}

/// Appends the listing of a terminal with the given fields. On `OutOfMemory` an allocation failed, and `out` may hold a part of it.
fn write_end<P: WrittenParts + Drop>(
    terminal: &Terminal,
    fields: P,
    out: &mut Vec<u8>,
) -> Result<(), OutOfMemory>
    ensures { OnOk result (IsListed out.old.items out.new.items (spec.ended (terminal_word terminal.now.kind) terminal.now (P.parts fields))) }
{
    let parts = Both((terminal.order, terminal.span), fields);
    write_node(terminal.kind.word(), &parts, out)?;
    Ok(())
}

/// The pattern of a field: a copy of it, but for a list.
macro_rules! listed_pattern {
    (chooses $cases:ident) => {
        ref $cases
    };
    ($tells:ident $field:ident) => {
        $field
    };
}

/// The listing of a field.
macro_rules! listed {
    (says $text:ident) => {
        Literal($text.as_str())
    };
    ($tells:ident $field:ident) => {
        $field
    };
}

/// Appends the listing of a terminal.
macro_rules! write_terminal {
    (($out:ident, $terminal:expr) $($name:ident $word:literal ($($tells:ident $field:ident),*))*) => {
        match $terminal.kind {
            $(TerminalKind::$name { $($field: listed_pattern!($tells $field),)* } => {
                write_end($terminal, ($(listed!($tells $field),)*), $out)
            })*
        }
    };
}

/// Appends the listing of a terminal. On `OutOfMemory` an allocation failed, and `out` may hold a part of it.
fn write_any_end(terminal: &Terminal, out: &mut Vec<u8>) -> Result<(), OutOfMemory>
    ensures { OnOk result (IsListed out.old.items out.new.items (spec.terminal terminal.now)) }
{
    with_terminals!(write_terminal(out, terminal))
}

impl Written for Terminal {
    ghost shown = { spec.terminal };

    fn write(&self, out: &mut Vec<u8>) -> Result<(), OutOfMemory> {
        write_any_end(self, out)?;
        Ok(())
    }
}

//! Stops: the nodes at which the lowering of a function ends at once.

ghost use Rattle.std.specs.Prelude.{◌≡◌, IfOk};
ghost use Rattle.rl_names.specs.Seen.{seen};
ghost use Rattle.rl_stops.specs.SeenStops.{seen_stop};

use rl_base::diagnostic::Diagnostic;
use rl_base::error::OutOfMemory;
use rl_base::ids::SymbolId;
use rl_base::row::Row;
use rl_base::span::Span;
use rl_names::names::FunctionNames;
use std::alloc::Global;

/// A node at which the lowering stops.
#[derive(Clone, Copy)]
pub enum FoundStop {
    /// A node of a local variable with a reserved name: row S1.
    ReservedName {
        /// The local variable.
        symbol: SymbolId,
        /// The span of the node.
        span: Span,
    },
    /// A pattern that a `catch` binds: row S4.
    CaughtPattern {
        /// The span of its first name, or of the pattern.
        span: Span,
    },
    /// A `break` that none of the statements around it takes: row S6.
    BreakNowhere {
        /// The span of the node.
        span: Span,
    },
    /// A `continue` that none of the statements around it takes: row S7.
    ContinueNowhere {
        /// The span of the node.
        span: Span,
    },
    /// A `continue` to a label whose innermost statement is no loop: row S7.
    ContinueOfNoLoop {
        /// The span of the node.
        span: Span,
    },
}

impl FoundStop {
    /// The diagnostic of the stop. On `OutOfMemory`, an allocation failed.
    pub fn diagnostic(
        &self,
        alloc: Global,
        names: &FunctionNames<'_>,
    ) -> Result<Diagnostic, OutOfMemory>
        ensures { IfOk result (λ d. d ≡ seen_stop (seen names.now) self.now) }
    {
        match self {
            FoundStop::ReservedName { symbol, span } => {
                Diagnostic::at(alloc, Row::S1, names.name(*symbol), *span)
            }
            FoundStop::CaughtPattern { span } => Diagnostic::at(alloc, Row::S4, "", *span),
            FoundStop::BreakNowhere { span } => Diagnostic::at(alloc, Row::S6, "", *span),
            FoundStop::ContinueNowhere { span } => Diagnostic::at(alloc, Row::S7, "", *span),
            FoundStop::ContinueOfNoLoop { span } => Diagnostic::at(alloc, Row::S7, "label", *span),
        }
    }
}

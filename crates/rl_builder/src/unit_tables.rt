//! The tables of a unit that a builder reads.

ghost use Rattle.std.specs.Prelude.{◌≡◌};
ghost use Rattle.rl_builder.specs.Tables.{tables_of};
ghost use Rattle.rl_builder.specs.Tables.{Tables as Shown};

use rl_context::index::IdentifierLocIndex;
use rl_resolver::resolver::ScopeResolver;

/// The tables of a unit that a builder reads. It is a trait so that the type of a builder names no lifetime but that of its
/// environment, as closures over the builder need it.
pub trait ReadsUnit: Drop {
    /// The contents of the tables.
    ghost tables: { Self → Shown };

    /// The names of the unit by number.
    fn resolver(&self) -> &ScopeResolver<'_>
        ensures { result.now.semantic.now ≡ (tables self.now).semantic };

    /// The index of the marked function.
    fn identifier_spans(&self) -> &IdentifierLocIndex
        ensures { result.now ≡ (tables self.now).sites };

    /// A second value that shows these tables, for the builder of an inner function.
    fn share(&self) -> Self
        ensures { tables result ≡ tables self.now };
}

/// References to the tables of a unit.
#[derive(Drop)]
pub struct UnitTables<'s> {
    /// The names of the unit by number.
    pub resolver: &'s ScopeResolver<'s>,
    /// The index of the marked function.
    pub identifier_spans: &'s IdentifierLocIndex,
}

impl<'s> ReadsUnit for UnitTables<'s> {
    ghost tables = { tables_of };

    fn resolver(&self) -> &ScopeResolver<'_> {
        self.resolver
    }

    fn identifier_spans(&self) -> &IdentifierLocIndex {
        self.identifier_spans
    }

    fn share(&self) -> UnitTables<'s> {
        UnitTables {
            resolver: self.resolver,
            identifier_spans: self.identifier_spans,
        }
    }
}

//! Values with one spelling each.

ghost use Rattle.std.specs.Prelude.{◌≡◌, ◌≤◌, ℕ, List, length, drop, IfOk, OnOk, IfSome, IfNone};
ghost use Rattle.rl_text.specs.Atoms.{ends, StandsAt, NoneStandsAt, HasSpelling, AppendsSpelling, HaveOneSpelling, AreApart, NeverBegin, AreReadBack};

use rl_base::error::OutOfMemory;
use std::alloc::Global;

/// A value with one spelling in the notation, behind which a space, `)`, `]` or the end of the bytes stands.
pub trait Atom: Drop {
    /// The bytes spell the value.
    ghost spells: { Self → List ℕ → Type 0 };

    /// Reads the value whose spelling stands at the byte offset `at`. Returns it and the offset behind its spelling. `None` if
    /// the spelling of no value stands there. On `OutOfMemory`, an allocation failed.
    fn read(alloc: Global, bytes: &[u8], at: usize) -> Result<Option<(Self, usize)>, OutOfMemory>
        requires { at ≤ length bytes.now }
        ensures found { IfOk result (λ r. IfSome r (λ f. StandsAt spells bytes.now at f.0 f.1)) }
        ensures none { IfOk result (λ r. IfNone r (NoneStandsAt spells bytes.now at)) };

    /// Appends the spelling of the value to `out`. On `OutOfMemory`, an allocation failed, and `out` may hold a part of it.
    fn write(&self, out: &mut Vec<u8>) -> Result<(), OutOfMemory>
        requires { HasSpelling spells self.now }
        ensures { OnOk result (AppendsSpelling spells out.old.items out.new.items self.now) };

    /// A value has one spelling at most.
    ghost one_spelling: { HaveOneSpelling spells };

    /// Different values never begin the same bytes, if a space, `)`, `]` or the end stands behind each.
    ghost apart: { AreApart spells };

    /// No spelling begins with `]`, so that the end of a list is seen.
    ghost not_closing: { NeverBegin spells 93 };

    /// No spelling begins with `-`, the sign of what is absent.
    ghost not_absent: { NeverBegin spells 45 };

    /// Each value is read back from its spelling, wherever that stands in front of a space, `)`, `]` or the end.
    ghost reads_back: { AreReadBack spells };
}

/// True if a spelling may end at the byte offset `at`: a space, `)` or `]` stands there, or the bytes end there.
pub fn ends_at(bytes: &[u8], at: usize) -> bool
    requires { at ≤ length bytes.now }
    ensures { result ≡ ends (drop at bytes.now) }
{
    match bytes.get(at) {
        Some(byte) => matches!(*byte, b' ' | b')' | b']'),
        None => true,
    }
}

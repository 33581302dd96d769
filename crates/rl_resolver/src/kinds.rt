//! Kinds of declarations: those that make a type alone, and those with a declaration identifier.

ghost use Rattle.std.specs.Prelude.{◌≡◌};
ghost use Rattle.rl_resolver.specs.Kinds as spec;

use rl_bindings::event::BindKind;

/// True of a declaration that makes a type alone: a type alias or an interface.
pub(crate) fn is_type_only(kind: BindKind) -> bool
    ensures { result ≡ spec.is_type_only kind }
{
    match kind {
        BindKind::TypeAlias => true,
        BindKind::Interface => true,
        _ => false,
    }
}

/// True of a declaration that has a declaration identifier: every one but an interface.
pub(crate) fn has_identifier(kind: BindKind) -> bool
    ensures { result ≡ spec.has_identifier kind }
{
    match kind {
        BindKind::Interface => false,
        _ => true,
    }
}

//! Wrapped targets of a function, which end its lowering.

ghost use Rattle.std.specs.Prelude.{◌≡◌};
ghost use Rattle.rl_context.specs.Wrapped as spec;

use crate::site::{Site, WrappedSite, Wrapper};

/// The first of two wrapped targets, if there is one before `wrapped`.
fn first_of(before: Option<WrappedSite>, wrapped: WrappedSite) -> WrappedSite
    ensures { result ≡ spec.first_of before wrapped }
{
    match before {
        Some(first) => {
            if wrapped.assignment.0 < first.assignment.0 {
                wrapped
            } else {
                first
            }
        }
        None => wrapped,
    }
}

/// The first of the wrapped targets in the first `assign` that has one. `None` if no target is wrapped.
pub(crate) fn first_wrapped(sites: &[Site]) -> Option<WrappedSite>
    ensures { result ≡ spec.first_wrapped sites.now }
{
    let mut first = None;
    for site in sites {
        if let Site::Wrapped(wrapped) = site {
            first = Some(first_of(first, *wrapped));
        }
    }
    first
}

/// The name of a wrapper, in the words of the original.
pub(crate) fn wrapper_name(wrapper: Wrapper) -> &'static str
    ensures { result.now ≡ spec.wrapper_name wrapper }
{
    match wrapper {
        Wrapper::As => "TSAsExpression",
        Wrapper::Satisfies => "TSSatisfiesExpression",
        Wrapper::Assert => "TSTypeAssertion",
        Wrapper::NonNull => "TSNonNullExpression",
    }
}

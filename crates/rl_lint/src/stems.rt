//! Names less what makes them unique.

ghost use Rattle.std.specs.Prelude.{◌≡◌, ◌≤◌, length, drop};
ghost use Rattle.std.specs.Char.{is_digit};
ghost use Rattle.std.specs.List.{list_all};
ghost use Rattle.rl_lint.specs.Stems as spec;

/// True of digits alone.
fn are_digits(bytes: &[u8]) -> bool
    ensures { result ≡ list_all (λ digit. is_digit digit 10) bytes.now }
{
    'bytes: for byte in bytes {
        if !byte.is_ascii_digit() {
            return false;
        }
    }
    true
}

/// True of no bytes.
fn is_none(bytes: &[u8]) -> bool
    ensures { result ≡ spec.is_none bytes.now }
{
    match bytes {
        [] => true,
        [_first, _rest @ ..] => false,
    }
}

/// True of `_` and digits behind it.
#[tactic(auto, unfolding(crate::specs::Stems::is_ending))]
fn is_ending(bytes: &[u8]) -> bool
    ensures { result ≡ spec.is_ending bytes.now }
{
    match bytes {
        [] => false,
        [first, rest @ ..] => *first == 95 && !is_none(rest) && are_digits(rest),
    }
}

/// True of a name that from `index` on is `_` and digits.
#[tactic(auto, using(crate::proofs::Endings::cut))]
fn ends_at(name: &[u8], index: usize) -> bool
    requires { index ≤ length name.now }
    ensures { result ≡ spec.is_ending (drop index name.now) }
{
    is_ending(&name[index..])
}

/// A name less an ending `_` and digits.
#[tactic(auto, using(crate::proofs::Endings::stems))]
pub(crate) fn stem(name: &str) -> &str
    ensures { result.now ≡ spec.stem name.now }
{
    'bytes: for index in 0..name.len() {
        if ends_at(name.as_bytes(), index) {
            return &name[..index];
        }
    }
    name
}

//! Unicode scalar values.

ghost use Rattle.std.specs.Prelude.{◌≡◌};
ghost use Rattle.rl_base.specs.Scalars as spec;

/// True if `value` is a Unicode scalar value: a code point from 0 to 1,114,111 that is no surrogate, 55,296 to 57,343.
pub fn is_scalar_value(value: u64) -> bool
    ensures { result ≡ spec.is_scalar_value value }
{
    value < 55_296 || (value > 57_343 && value <= 1_114_111)
}

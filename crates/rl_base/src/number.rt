//! Numbers of the notation.

ghost use Rattle.std.specs.Prelude.{◌≡◌, ◌^◌, ◌≤◌};

use std::marker::Model;

/// A whole number up to 2^53: those that the notation has, each of which is a value of the Number type (ECMA-262, 6.1.6.1).
/// Contracts see the number.
#[derive(Clone, Copy, Debug, PartialEq, Eq)]
pub struct WholeNumber {
    value: u64,
}

impl Model for WholeNumber {
    ghost use Rattle.std.specs.Prelude.{ℕ, ◌^◌, ◌≤◌};

    ghost Value = { ℕ };

    ghost view = { λ number. number.value };

    ghost invariant = { λ number. number.value ≤ 2 ^ 53 };

    ghost inverse = { λ value. record { value = value } };
}

impl WholeNumber {
    /// The number with a value up to 2^53.
    pub fn new(value: u64) -> WholeNumber
        requires { value ≤ 2 ^ 53 }
        ensures { result ≡ value }
    {
        WholeNumber { value }
    }

    /// The value of the number.
    pub fn get(self) -> u64
        ensures value { result ≡ self }
        ensures bounded { result ≤ 2 ^ 53 }
    {
        self.value
    }
}

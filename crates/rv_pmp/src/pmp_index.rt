//! The numbers of the entries.

ghost use Rattle.std.specs.Prelude.{◌≡◌, ℕ, ◌<◌, ◌≤◌};

use std::marker::Model;

/// The number of an entry, 0 to 15. A lower number has the higher priority (Privileged Architecture, section 3.7.1).
#[derive(Clone, Copy, Debug, PartialEq, Eq)]
pub struct PmpIndex {
    number: u8,
}

impl Model for PmpIndex {
    ghost Value = { ℕ };

    ghost view = { λ index. index.number };

    ghost invariant = { λ index. index.number < 16 };

    ghost inverse = { λ number. record { number = number } };
}

impl PmpIndex {
    /// Returns the entry with a number from 0 to 15.
    pub const fn new(number: u8) -> Self
        requires { number ≤ 15 }
        ensures { result ≡ number }
    {
        PmpIndex { number }
    }

    /// Returns the number of the entry, 0 to 15.
    pub const fn number(self) -> u8
        ensures value { result ≡ self }
        ensures in_range { result < 16 }
    {
        self.number
    }
}

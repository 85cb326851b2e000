//! The number of an integer register (Unprivileged ISA, section 2.1).

ghost use Rattle.std.specs.Prelude.{◌≡◌, ℕ, ◌<◌, ◌≤◌};

use std::marker::Model;

/// The number of an integer register, 0 to 31.
#[derive(Clone, Copy, Debug, PartialEq, Eq)]
pub struct Reg {
    number: u8,
}

impl Model for Reg {
    ghost Value = { ℕ };

    ghost view = { λ register. register.number };

    ghost invariant = { λ register. register.number < 32 };

    ghost inverse = { λ number. record { number = number } };
}

impl Reg {
    /// Returns the register with a number from 0 to 31.
    pub const fn new(number: u8) -> Self
        requires { number ≤ 31 }
        ensures { result ≡ number }
    {
        Reg { number }
    }

    /// Returns the number of the register, 0 to 31.
    pub const fn number(self) -> u8
        ensures value { result ≡ self }
        ensures in_range { result < 32 }
    {
        self.number
    }
}

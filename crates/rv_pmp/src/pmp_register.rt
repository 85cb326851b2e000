//! The numbers of the pmpcfg registers.

ghost use Rattle.std.specs.Prelude.{◌≡◌, ℕ, ◌<◌, ◌≤◌};

use std::marker::Model;

/// The number of a register pmpcfg0 to pmpcfg3. Each has the cfg bytes of four entries (Privileged Architecture, section 3.7.1).
#[derive(Clone, Copy, Debug, PartialEq, Eq)]
pub struct PmpRegister {
    number: u8,
}

impl Model for PmpRegister {
    ghost Value = { ℕ };

    ghost view = { λ register. register.number };

    ghost invariant = { λ register. register.number < 4 };

    ghost inverse = { λ number. record { number = number } };
}

impl PmpRegister {
    /// Returns the register with a number from 0 to 3.
    pub const fn new(number: u8) -> Self
        requires { number ≤ 3 }
        ensures { result ≡ number }
    {
        PmpRegister { number }
    }

    /// Returns the number of the register, 0 to 3.
    pub const fn number(self) -> u8
        ensures value { result ≡ self }
        ensures in_range { result < 4 }
    {
        self.number
    }
}

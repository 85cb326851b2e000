//! The number of a control and status register (Privileged Architecture, section 2.1).

ghost use Rattle.std.specs.Prelude.{◌≡◌, ℕ, ◌^◌, ◌<◌};

use std::marker::Model;

/// The number of a control and status register, 0 to 4095.
#[derive(Clone, Copy, Debug, PartialEq, Eq)]
pub struct CsrNumber {
    number: u16,
}

impl Model for CsrNumber {
    ghost Value = { ℕ };

    ghost view = { λ csr. csr.number };

    ghost invariant = { λ csr. csr.number < 2 ^ 12 };

    ghost inverse = { λ number. record { number = number } };
}

impl CsrNumber {
    /// Returns the register with this number.
    pub const fn new(number: u16) -> Self
        requires { number < 2 ^ 12 }
        ensures { result ≡ number }
    {
        CsrNumber { number }
    }

    /// Returns the number of the register.
    pub const fn number(self) -> u16
        ensures value { result ≡ self }
        ensures in_range { result < 2 ^ 12 }
    {
        self.number
    }
}

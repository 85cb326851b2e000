//! The amount of a shift by an immediate (Unprivileged ISA, section 2.4).

ghost use Rattle.std.specs.Prelude.{◌≡◌, ℕ, ◌<◌};

use std::marker::Model;

/// The amount of a shift by an immediate, 0 to 31 bits.
#[derive(Clone, Copy, Debug, PartialEq, Eq)]
pub struct Shamt {
    amount: u32,
}

impl Model for Shamt {
    ghost Value = { ℕ };

    ghost view = { λ shamt. shamt.amount };

    ghost invariant = { λ shamt. shamt.amount < 32 };

    ghost inverse = { λ amount. record { amount = amount } };
}

impl Shamt {
    /// Returns the shift amount with this value.
    pub const fn new(amount: u32) -> Self
        requires { amount < 32 }
        ensures { result ≡ amount }
    {
        Shamt { amount }
    }

    /// Returns the value of the amount.
    pub const fn amount(self) -> u32
        ensures value { result ≡ self }
        ensures in_range { result < 32 }
    {
        self.amount
    }
}

//! The unsigned immediate of csrrwi, csrrsi and csrrci (Unprivileged ISA, section 9.1).

ghost use Rattle.std.specs.Prelude.{◌≡◌, ℕ, ◌<◌};

use std::marker::Model;

/// The unsigned immediate of csrrwi, csrrsi and csrrci, 0 to 31.
#[derive(Clone, Copy, Debug, PartialEq, Eq)]
pub struct Uimm {
    number: u32,
}

impl Model for Uimm {
    ghost Value = { ℕ };

    ghost view = { λ immediate. immediate.number };

    ghost invariant = { λ immediate. immediate.number < 32 };

    ghost inverse = { λ number. record { number = number } };
}

impl Uimm {
    /// Returns the immediate with this value.
    pub const fn new(number: u32) -> Self
        requires { number < 32 }
        ensures { result ≡ number }
    {
        Uimm { number }
    }

    /// Returns the value of the immediate, which the instruction uses instead of the word in rs1.
    pub const fn number(self) -> u32
        ensures value { result ≡ self }
        ensures in_range { result < 32 }
    {
        self.number
    }
}

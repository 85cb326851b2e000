//! The immediate of formats I and S (Unprivileged ISA, section 2.3).

ghost use Rattle.std.specs.Prelude.{◌≡◌, ℕ, ◌^◌, ◌<◌};
ghost use Rattle.rv_word.specs.BitFields.{sign_extended};

use rv_word::sext;
use std::marker::Model;

/// The 12 bits of a signed immediate: an operand, or an offset in bytes.
#[derive(Clone, Copy, Debug, PartialEq, Eq)]
pub struct Imm12 {
    bits: u32,
}

impl Model for Imm12 {
    ghost Value = { ℕ };

    ghost view = { λ immediate. immediate.bits };

    ghost invariant = { λ immediate. immediate.bits < 2 ^ 12 };

    ghost inverse = { λ bits. record { bits = bits } };
}

impl Imm12 {
    /// Returns the immediate with these 12 bits.
    pub const fn new(bits: u32) -> Self
        requires { bits < 2 ^ 12 }
        ensures { result ≡ bits }
    {
        Imm12 { bits }
    }

    /// Returns the 12 bits.
    pub const fn bits(self) -> u32
        ensures value { result ≡ self }
        ensures in_range { result < 2 ^ 12 }
    {
        self.bits
    }

    /// Returns the immediate, sign-extended to 32 bits.
    pub const fn word(self) -> u32
        ensures { result ≡ sign_extended self 12 }
    {
        sext(self.bits, 12)
    }
}

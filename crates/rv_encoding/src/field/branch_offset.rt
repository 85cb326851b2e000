//! The immediate of format B (Unprivileged ISA, section 2.3).

ghost use Rattle.std.specs.Prelude.{◌≡◌, ℕ, ◌<◌};
ghost use Rattle.rv_word.specs.BitFields.{sign_extended};
ghost use Rattle.rv_encoding.specs.Ranges.{IsBranchOffset};

use rv_word::sext;
use std::marker::Model;

/// The 13 bits of a branch's signed offset in bytes, which is even.
#[derive(Clone, Copy, Debug, PartialEq, Eq)]
pub struct BranchOffset {
    bits: u32,
}

impl Model for BranchOffset {
    ghost Value = { ℕ };

    ghost view = { λ offset. offset.bits };

    ghost invariant = { λ offset. IsBranchOffset offset.bits };

    ghost inverse = { λ bits. record { bits = bits } };
}

impl BranchOffset {
    /// Returns the offset with these 13 bits.
    pub const fn new(bits: u32) -> Self
        requires { IsBranchOffset bits }
        ensures { result ≡ bits }
    {
        BranchOffset { bits }
    }

    /// Returns the 13 bits.
    pub const fn bits(self) -> u32
        ensures value { result ≡ self }
        ensures in_range { IsBranchOffset result }
    {
        self.bits
    }

    /// Returns the offset, sign-extended to 32 bits.
    pub const fn word(self) -> u32
        ensures { result ≡ sign_extended self 13 }
    {
        sext(self.bits, 13)
    }
}

//! The immediate of format J (Unprivileged ISA, section 2.3).

ghost use Rattle.std.specs.Prelude.{◌≡◌, ℕ, ◌<◌};
ghost use Rattle.rv_word.specs.BitFields.{sign_extended};
ghost use Rattle.rv_encoding.specs.Ranges.{IsJumpOffset};

use rv_word::sext;
use std::marker::Model;

/// The 21 bits of the signed offset of jal in bytes, which is even.
#[derive(Clone, Copy, Debug, PartialEq, Eq)]
pub struct JumpOffset {
    bits: u32,
}

impl Model for JumpOffset {
    ghost Value = { ℕ };

    ghost view = { λ offset. offset.bits };

    ghost invariant = { λ offset. IsJumpOffset offset.bits };

    ghost inverse = { λ bits. record { bits = bits } };
}

impl JumpOffset {
    /// Returns the offset with these 21 bits.
    pub const fn new(bits: u32) -> Self
        requires { IsJumpOffset bits }
        ensures { result ≡ bits }
    {
        JumpOffset { bits }
    }

    /// Returns the 21 bits.
    pub const fn bits(self) -> u32
        ensures value { result ≡ self }
        ensures in_range { IsJumpOffset result }
    {
        self.bits
    }

    /// Returns the offset, sign-extended to 32 bits.
    pub const fn word(self) -> u32
        ensures { result ≡ sign_extended self 21 }
    {
        sext(self.bits, 21)
    }
}

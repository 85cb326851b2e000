//! The mode of a fence (Unprivileged ISA, section 2.7).

ghost use Rattle.std.specs.Prelude.{◌≡◌, ℕ, ◌<◌};

use std::marker::Model;

/// The four bits fm of a fence, which select the kind of fence.
#[derive(Clone, Copy, Debug, PartialEq, Eq)]
pub struct FenceMode {
    bits: u8,
}

impl Model for FenceMode {
    ghost Value = { ℕ };

    ghost view = { λ mode. mode.bits };

    ghost invariant = { λ mode. mode.bits < 16 };

    ghost inverse = { λ bits. record { bits = bits } };
}

impl FenceMode {
    /// Returns the mode with these four bits.
    pub const fn new(bits: u8) -> Self
        requires { bits < 16 }
        ensures { result ≡ bits }
    {
        FenceMode { bits }
    }

    /// Returns the four bits.
    pub const fn bits(self) -> u8
        ensures value { result ≡ self }
        ensures in_range { result < 16 }
    {
        self.bits
    }
}

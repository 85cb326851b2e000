//! The accesses that a fence orders (Unprivileged ISA, section 2.7).

ghost use Rattle.std.specs.Prelude.{◌≡◌, ℕ, ◌<◌};

use std::marker::Model;

/// The four bits of one side of a fence: device input (8), device output (4), memory reads (2) and
/// memory writes (1).
#[derive(Clone, Copy, Debug, PartialEq, Eq)]
pub struct FenceSet {
    bits: u8,
}

impl Model for FenceSet {
    ghost Value = { ℕ };

    ghost view = { λ set. set.bits };

    ghost invariant = { λ set. set.bits < 16 };

    ghost inverse = { λ bits. record { bits = bits } };
}

impl FenceSet {
    /// Returns the set with these four bits.
    pub const fn new(bits: u8) -> Self
        requires { bits < 16 }
        ensures { result ≡ bits }
    {
        FenceSet { bits }
    }

    /// Returns the four bits.
    pub const fn bits(self) -> u8
        ensures value { result ≡ self }
        ensures in_range { result < 16 }
    {
        self.bits
    }
}

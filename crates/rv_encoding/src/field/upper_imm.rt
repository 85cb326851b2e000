//! The immediate of format U (Unprivileged ISA, section 2.3).

ghost use Rattle.std.specs.Prelude.{◌≡◌, ℕ, ◌<◌};
ghost use Rattle.rv_encoding.specs.Ranges.{IsUpperImmediate};

use std::marker::Model;

/// The immediate of lui and auipc: a word whose 12 low bits are 0.
#[derive(Clone, Copy, Debug, PartialEq, Eq)]
pub struct UpperImm {
    word: u32,
}

impl Model for UpperImm {
    ghost Value = { ℕ };

    ghost view = { λ immediate. immediate.word };

    ghost invariant = { λ immediate. IsUpperImmediate immediate.word };

    ghost inverse = { λ word. record { word = word } };
}

impl UpperImm {
    /// Returns the immediate with this word.
    pub const fn new(word: u32) -> Self
        requires { IsUpperImmediate word }
        ensures { result ≡ word }
    {
        UpperImm { word }
    }

    /// Returns the immediate as a word.
    pub const fn word(self) -> u32
        ensures value { result ≡ self }
        ensures in_range { IsUpperImmediate result }
    {
        self.word
    }
}

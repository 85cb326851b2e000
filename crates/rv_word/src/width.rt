//! The widths of accesses to memory (Unprivileged ISA, section 2.6).

ghost use Rattle.std.specs.Prelude.{◌≡◌};
ghost use Rattle.rv_word.specs.Widths.{bytes_in};

/// The number of bytes that an access to memory reads or writes.
#[derive(Clone, Copy, Debug, PartialEq, Eq)]
pub enum Width {
    /// One byte.
    Byte,
    /// Two bytes, a halfword.
    Half,
    /// Four bytes, a word.
    Word,
}

impl Width {
    /// Returns the number of bytes: 1, 2 or 4.
    pub const fn bytes(self) -> u8
        ensures { result ≡ bytes_in self }
    {
        match self {
            Width::Byte => 1,
            Width::Half => 2,
            Width::Word => 4,
        }
    }
}

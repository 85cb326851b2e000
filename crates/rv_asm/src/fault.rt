//! The errors of an assembler text.

ghost use Rattle.std.specs.Prelude.{◌≡◌, ℕ};
ghost use Rattle.rv_asm.specs.Faults.{asm_fault_number};

/// The kind of an error in a line of an assembler text.
#[derive(Clone, Copy, Debug, PartialEq, Eq)]
pub enum AsmFaultKind {
    /// Error 1: the line has more than 120 bytes, or a byte that is neither a tab nor from 0x20 to 0x7E. Or its label or its mnemonic is not a name.
    BadText,
    /// Error 2: the mnemonic is not known.
    UnknownName,
    /// Error 3: the mnemonic does not have this number or form of operands, or a register or CSR name is not known.
    BadOperand,
    /// Error 4: a number is out of its range, or an offset is odd.
    OutOfRange,
    /// Error 5: no line has the label.
    UnknownLabel,
    /// Error 6: an earlier line has the same label.
    LabelTwice,
    /// Error 7: with this line there are more than 65536 words.
    TooLong,
    /// Error 8: memory is exhausted.
    NoMemory,
}

impl AsmFaultKind {
    /// Returns the number of the error, 1 to 8.
    pub const fn number(self) -> u8
        ensures { result ≡ asm_fault_number self }
    {
        match self {
            AsmFaultKind::BadText => 1,
            AsmFaultKind::UnknownName => 2,
            AsmFaultKind::BadOperand => 3,
            AsmFaultKind::OutOfRange => 4,
            AsmFaultKind::UnknownLabel => 5,
            AsmFaultKind::LabelTwice => 6,
            AsmFaultKind::TooLong => 7,
            AsmFaultKind::NoMemory => 8,
        }
    }
}

/// An error of an assembler text: the line, counted from 1, and the kind.
#[derive(Clone, Copy, Debug, PartialEq, Eq)]
pub struct AsmFault {
    /// The number of the line, from 1.
    pub line: usize,
    /// The kind of the error.
    pub kind: AsmFaultKind,
}

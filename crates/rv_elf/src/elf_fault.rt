//! The errors of an image that cannot be loaded.
ghost use Rattle.std.specs.Prelude.{◌≡◌};
ghost use Rattle.rv_elf.specs.Faults.{elf_fault_number};

/// Why an image cannot be loaded. The file is no ELF file that can be loaded (System V gABI, chapters 4 and 5). Or a part of it is outside RAM
/// or in the range of a monitor. Only `SegmentOutside` and `BadEntry` occur for a raw image.
#[derive(Clone, Copy, Debug, PartialEq, Eq)]
pub enum ElfFault {
    /// The file has fewer than 52 bytes.
    Truncated = 1,
    /// The first four bytes are not 7F 45 4C 46.
    NotElf = 2,
    /// The class, the data encoding or the version of the identification is not 1.
    WrongClass = 3,
    /// The file is not executable: e_type is not 2.
    WrongType = 4,
    /// The file is not for RISC-V: e_machine is not 243.
    WrongMachine = 5,
    /// There are more than 64 program headers, or they do not have 32 bytes each, or they end after the end of the file.
    BadHeader = 6,
    /// The file part of a segment is not empty and ends after the end of the file. The segment need not occupy memory.
    SegmentTruncated = 7,
    /// The file part of a segment is larger than its memory part, which may be empty.
    SegmentSizes = 8,
    /// A segment that is not empty is not inside RAM, or meets the range of the monitor if there is one.
    SegmentOutside = 9,
    /// Two segments share a byte.
    SegmentOverlap = 10,
    /// The entry is not a multiple of 4, or one of its four bytes is outside RAM. Or one of them is in the range of the monitor, if there is
    /// one.
    BadEntry = 11,
}

impl ElfFault {
    /// Returns the number of the error, which its line shows.
    pub fn number(self) -> u8
        ensures { result ≡ elf_fault_number self }
    {
        self as u8
    }
}

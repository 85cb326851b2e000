//! A segment of an image.

ghost use Rattle.std.specs.Prelude.{◌≡◌, ◌+◌, ◌≤◌, length, false};
ghost use Rattle.rv_elf.specs.Segments.{segment_at as segment_at_of, is_truncated as is_truncated_of, is_oversized as is_oversized_of};
ghost use Rattle.rv_elf.specs.Segments.{is_outside as is_outside_of, share_a_byte};

use crate::fields::word_at;
use crate::place::has_place;

/// A part of an image that is loaded: the bytes from the file, followed by zeros (System V gABI, chapter 5, PT_LOAD).
#[derive(Clone, Copy, Debug, Default, PartialEq, Eq)]
pub struct Segment {
    /// The offset of its first byte in the file.
    pub offset: u32,
    /// The address of its first byte in memory.
    pub address: u32,
    /// The number of its bytes in the file.
    pub file_size: u32,
    /// The number of its bytes in memory: those of the file, then zeros.
    pub memory_size: u32,
}

impl Segment {
    /// Reads the segment of the program header at an offset of a file (gABI, chapter 5, program header).
    pub(crate) fn at(file: &[u8], place: usize) -> Segment
        requires { place + 32 ≤ length file.now }
        ensures { result ≡ segment_at_of file.now place }
    {
        Segment {
            offset: word_at(file, place + 4),
            address: word_at(file, place + 12),
            file_size: word_at(file, place + 16),
            memory_size: word_at(file, place + 20),
        }
    }

    /// Returns whether its part of a file of `len` bytes ends after the end of the file.
    pub(crate) fn is_truncated(&self, len: usize) -> bool
        ensures { result ≡ is_truncated_of len self.now }
    {
        self.file_size != 0 && self.offset as usize + self.file_size as usize > len
    }

    /// Returns whether it has more bytes in the file than in memory.
    pub(crate) fn is_oversized(&self) -> bool
        ensures { result ≡ is_oversized_of self.now }
    {
        self.file_size > self.memory_size
    }

    /// Returns whether one of its bytes is outside a RAM of this size, or in the range of a monitor.
    pub(crate) fn is_outside(&self, ram_size: u32, monitored: bool) -> bool
        ensures { result ≡ is_outside_of ram_size monitored self.now }
    {
        !has_place(ram_size, monitored, self.address, self.memory_size)
    }

    /// Returns the address after its last byte.
    fn end(&self) -> u64
        ensures { result ≡ self.now.address + self.now.memory_size }
    {
        u64::from(self.address) + u64::from(self.memory_size)
    }

    /// Returns whether two segments have a byte in common.
    #[tactic(auto, using(crate::proofs::SharedBytes::shared, crate::proofs::SharedBytes::unshared))]
    pub(crate) fn shares_a_byte(&self, other: &Segment) -> bool
        ensures { result ≡ share_a_byte self.now other.now }
    {
        let start = u64::from(self.address.max(other.address));
        start < self.end().min(other.end())
    }
}

//! Blocks of addresses.

ghost use Rattle.std.specs.Prelude.{◌≡◌};
ghost use Rattle.rv_memory.specs.Blocks.{has as has_byte, meets as meets_block, monitor_block, no_block};

/// A range of addresses, given by its first address and its size in bytes. Their sum may be above the last address.
#[derive(Clone, Copy, Debug, PartialEq, Eq)]
pub struct Block {
    /// The address of the first byte.
    pub base: u32,
    /// The number of bytes, which may be 0.
    pub size: u32,
}

/// Returns the empty block.
pub const fn no_block() -> Block
    ensures { result ≡ no_block }
{
    Block { base: 0, size: 0 }
}

/// Returns the range that the monitor reserves for itself: 80000000 to 8000FFFF.
pub const fn monitor_block() -> Block
    ensures { result ≡ monitor_block }
{
    Block {
        base: 0x8000_0000,
        size: 0x1_0000,
    }
}

impl Block {
    /// Returns whether a byte address is in the block.
    pub const fn has(self, byte: u32) -> bool
        ensures { result ≡ has_byte self byte }
    {
        self.base <= byte && (byte as u64) < self.base as u64 + self.size as u64
    }

    /// Returns whether the blocks share a byte.
    pub const fn meets(self, other: Self) -> bool
        ensures { result ≡ meets_block self other }
    {
        self.size > 0
            && other.size > 0
            && (self.base as u64) < other.base as u64 + other.size as u64
            && (other.base as u64) < self.base as u64 + self.size as u64
    }
}

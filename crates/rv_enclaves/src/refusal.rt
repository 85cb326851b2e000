//! The refusals of calls.

ghost use Rattle.std.specs.Prelude.{◌≡◌};
ghost use Rattle.rv_enclaves.specs.Calls.{status_of};

/// Why a call is refused, in the order of the checks.
#[derive(Clone, Copy)]
pub enum Refusal {
    /// a7 or a6 names no call, or the call belongs to the other world.
    NotSupported,
    /// The region is not a valid block. A valid block is inside RAM, its size is a power of two from 4096 up, and its base is a multiple of the
    /// size.
    BadRegion,
    /// A window is requested, and it is not a valid block.
    BadWindow,
    /// The region or the window overlaps a block that it must not overlap.
    Overlap,
    /// The entry point is not a multiple of 4, or not in the region.
    BadEntry,
    /// All thirteen slots are live.
    NoSlot,
    /// The slot is above 12 or not live.
    NoEnclave,
    /// The enclave is not in a state that the call accepts.
    BadState,
    /// The caller may not store one of the 32 bytes.
    BadAddress,
}

impl Refusal {
    /// Returns the status in a0: -1 for the first refusal, -2 for the next, down to -9, as 32-bit words.
    pub const fn status(self) -> u32
        ensures { result ≡ status_of self }
    {
        match self {
            Refusal::NotSupported => 0xFFFF_FFFF,
            Refusal::BadRegion => 0xFFFF_FFFE,
            Refusal::BadWindow => 0xFFFF_FFFD,
            Refusal::Overlap => 0xFFFF_FFFC,
            Refusal::BadEntry => 0xFFFF_FFFB,
            Refusal::NoSlot => 0xFFFF_FFFA,
            Refusal::NoEnclave => 0xFFFF_FFF9,
            Refusal::BadState => 0xFFFF_FFF8,
            Refusal::BadAddress => 0xFFFF_FFF7,
        }
    }
}

//! The memory that one step accesses.

use rv_word::Width;

/// Consecutive bytes of memory (Unprivileged ISA, section 1.4).
#[derive(Clone, Copy, Debug, PartialEq, Eq)]
pub struct Span {
    /// The address of the first byte.
    pub addr: u32,
    /// The number of bytes.
    pub len: Width,
}

/// The bytes that the instruction of one step fetched, loaded and stored (Unprivileged ISA, section 1.4). A refused access does not count. The
/// default is no access.
#[derive(Clone, Copy, Debug, Default, PartialEq, Eq)]
pub struct Touched {
    /// The bytes of the instruction.
    pub fetched: Option<Span>,
    /// The bytes that it loaded.
    pub loaded: Option<Span>,
    /// The bytes that it stored.
    pub stored: Option<Span>,
}

//! The access that an instruction requests.

use rv_word::Width;

/// The access that an instruction requests, at most one.
#[derive(Clone, Copy)]
pub enum Request {
    /// The instruction accesses no memory.
    Nothing,
    /// Loads the number at an address.
    Load {
        address: u32,
        width: Width,
    },
    /// Stores the lowest bytes of a value at an address.
    Store {
        address: u32,
        width: Width,
        value: u32,
    },
}

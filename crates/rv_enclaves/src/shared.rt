//! The state that the harts share.

use crate::context::Contexts;
use crate::table::Table;
use rv_memory::Ram;

/// The state that the harts share: the memory, and the monitor's state of the enclaves.
#[derive(Drop, Debug)]
pub struct Shared {
    /// The memory, with every region in it.
    pub memory: Ram,
    /// The live enclaves, by slot.
    pub table: Table,
    /// The saved context of each slot's enclave while it does not run.
    pub contexts: Contexts,
}

//! The errors of making a RAM.

ghost use Rattle.std.specs.Prelude.{◌≡◌};
ghost use Rattle.rv_memory.specs.Faults.{ram_fault_number};

use crate::refused_ram::RefusedRam;

/// Why a RAM was not made.
#[derive(Clone, Copy, Debug, PartialEq, Eq)]
pub enum RamFault {
    /// The size is not a multiple of 65536 from 65536 to 16777216 bytes.
    BadSize,
    /// Memory is exhausted.
    NoMemory(RefusedRam),
}

impl RamFault {
    /// Returns the number of the error.
    pub fn number(self) -> u8
        ensures { result ≡ ram_fault_number self }
    {
        match self {
            RamFault::BadSize => 1,
            RamFault::NoMemory(_) => 2,
        }
    }
}

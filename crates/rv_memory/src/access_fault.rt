//! Access faults.

ghost use Rattle.std.specs.Prelude.{◌≡◌};
ghost use Rattle.rv_memory.specs.Faults.{access_fault_number};

use rv_pmp::Verdict;

/// Why a fetch, a load or a store is refused. Nothing changes then. (Unprivileged ISA, section 1.4; Privileged Architecture, section 3.7.1.)
#[derive(Clone, Copy, Debug, PartialEq, Eq)]
pub enum AccessFault {
    /// Fault 1: a byte of the access is outside RAM.
    Outside,
    /// Fault 2: all bytes of the access are in RAM, and the PMP entries do not permit it.
    Refused(Verdict),
}

impl AccessFault {
    /// Returns the number of the fault.
    pub fn number(&self) -> u8
        ensures { result ≡ access_fault_number self.now }
    {
        match *self {
            AccessFault::Outside => 1,
            AccessFault::Refused(_) => 2,
        }
    }
}

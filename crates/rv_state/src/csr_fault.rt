//! Errors of an access to a control and status register.

ghost use Rattle.std.specs.Prelude.{◌≡◌};
ghost use Rattle.rv_state.specs.CsrFaults.{csr_fault_number};

/// Why an access to a control and status register is refused (Privileged Architecture, section 2.1), in the order in which the conditions are
/// checked.
#[derive(Clone, Copy, Debug, PartialEq, Eq)]
pub enum CsrFault {
    /// No register of the machine has this number.
    Missing = 1,
    /// The mode is below the lowest mode that the number allows.
    Privilege = 2,
    /// The access is a write, and the number marks the register as read-only.
    ReadOnly = 3,
    /// The register is satp, the mode is S, and TVM is set (section 3.1.6.5).
    Trapped = 4,
}

impl CsrFault {
    /// Returns the number of the error.
    pub const fn number(self) -> u8
        ensures { result ≡ csr_fault_number self }
    {
        self as u8
    }
}

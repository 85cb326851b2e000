//! The causes of traps.

ghost use Rattle.std.specs.Prelude.{◌≡◌, ◌<◌};
ghost use Rattle.rv_state.specs.Causes.{exception_number, interrupt_number, cause_code};

/// An exception: why an instruction traps (Privileged Architecture, section 3.1.15, table 3.6).
#[derive(Clone, Copy, Debug, PartialEq, Eq)]
pub enum Exception {
    /// The target of a jump or a taken branch is not a multiple of 4.
    InstructionAddressMisaligned = 0,
    /// The fetch was refused.
    InstructionAccessFault = 1,
    /// The word is no instruction, or one that is not allowed in the current mode and state.
    IllegalInstruction = 2,
    /// ebreak.
    Breakpoint = 3,
    /// The load was refused.
    LoadAccessFault = 5,
    /// The store was refused.
    StoreAccessFault = 7,
    /// ecall in mode U.
    EnvironmentCallFromU = 8,
    /// ecall in mode S.
    EnvironmentCallFromS = 9,
    /// ecall in mode M.
    EnvironmentCallFromM = 11,
}

impl Exception {
    /// Returns the code of the exception in mcause.
    pub const fn number(self) -> u32
        ensures value { result ≡ exception_number self }
        ensures in_range { result < 16 }
    {
        self as u32
    }
}

/// An interrupt that the hart takes (Privileged Architecture, sections 3.1.9 and 3.1.15). The number of an interrupt is also the position of its
/// bit in mip and mie.
#[derive(Clone, Copy, Debug, PartialEq, Eq)]
pub enum Interrupt {
    /// SSI.
    SupervisorSoftware = 1,
    /// MSI.
    MachineSoftware = 3,
    /// STI.
    SupervisorTimer = 5,
    /// MTI, the timer line.
    MachineTimer = 7,
    /// SEI.
    SupervisorExternal = 9,
    /// MEI.
    MachineExternal = 11,
}

impl Interrupt {
    /// Returns the number of the interrupt.
    pub const fn number(self) -> u32
        ensures value { result ≡ interrupt_number self }
        ensures in_range { result < 16 }
    {
        self as u32
    }
}

/// The bit of mcause that marks an interrupt.
const INTERRUPT: u32 = 0x8000_0000;

/// The cause of a trap (Privileged Architecture, section 3.1.15).
#[derive(Clone, Copy, Debug, PartialEq, Eq)]
pub enum Cause {
    /// An interrupt was taken before the instruction.
    Interrupt(Interrupt),
    /// The instruction raised an exception.
    Exception(Exception),
}

impl Cause {
    /// Returns the code of the cause in mcause.
    pub const fn code(self) -> u32
        ensures { result ≡ cause_code self }
    {
        match self {
            Cause::Interrupt(interrupt) => INTERRUPT + interrupt.number(),
            Cause::Exception(exception) => exception.number(),
        }
    }
}

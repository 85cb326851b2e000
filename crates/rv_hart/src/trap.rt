//! Traps, and the outcome of a step.

ghost use Rattle.std.specs.Prelude.{◌≡◌};
ghost use Rattle.rv_hart.specs.Exceptions.{exception as exception_of, interrupted as interrupted_by, environment_call as environment_call_of};

use rv_memory::Touched;
use rv_pmp::Mode;
use rv_state::{Cause, Exception, Interrupt};

/// A trap: its cause and its value (RISC-V Privileged Architecture 20211203, sections 3.1.15 and 3.1.16).
#[derive(Clone, Copy, Debug, PartialEq, Eq)]
pub struct Trap {
    /// The value of mcause after the trap.
    pub cause: Cause,
    /// The value of mtval after the trap: the address or the instruction word that the trap is about, or 0.
    pub tval: u32,
}

/// The outcome of one step.
#[derive(Clone, Copy, Debug, PartialEq, Eq)]
pub struct StepOutcome {
    /// The trap in which the step ended, if any.
    pub trap: Option<Trap>,
    /// The bytes of memory that the step fetched, loaded and stored.
    pub touched: Touched,
}

/// Returns the trap of an exception with its value.
#[inline(always)]
pub(crate) const fn exception(cause: Exception, tval: u32) -> Trap
    ensures { result ≡ exception_of cause tval }
{
    Trap {
        cause: Cause::Exception(cause),
        tval,
    }
}

/// Returns the trap of an ecall in this mode.
#[inline(always)]
pub(crate) const fn environment_call(mode: Mode) -> Trap
    ensures { result ≡ environment_call_of mode }
{
    let cause = match mode {
        Mode::U => Exception::EnvironmentCallFromU,
        Mode::S => Exception::EnvironmentCallFromS,
        Mode::M => Exception::EnvironmentCallFromM,
    };
    exception(cause, 0)
}

/// Returns the trap of an interrupt.
#[inline(always)]
pub(crate) const fn interrupted(interrupt: Interrupt) -> Trap
    ensures { result ≡ interrupted_by interrupt }
{
    Trap {
        cause: Cause::Interrupt(interrupt),
        tval: 0,
    }
}

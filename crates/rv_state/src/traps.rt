//! Computes the targets of traps, and the order of interrupts.

ghost use Rattle.std.specs.Prelude.{◌≡◌, ◌%◌};
ghost use Rattle.rv_state.specs.Interrupts.{first_interrupt};
ghost use Rattle.rv_state.specs.Traps.{trap_target};

use crate::bits::{aligned_to_4, is_set};
use crate::cause::{Cause, Interrupt};

/// The order in which pending interrupts are taken (Privileged Architecture, section 3.1.9).
const INTERRUPT_ORDER: [Interrupt; 6] = [
    Interrupt::MachineExternal,
    Interrupt::MachineSoftware,
    Interrupt::MachineTimer,
    Interrupt::SupervisorExternal,
    Interrupt::SupervisorSoftware,
    Interrupt::SupervisorTimer,
];

/// Returns the pc after a trap, for a value of mtvec. In the mode Vectored each interrupt has its own address.
pub(crate) const fn trap_target(mtvec: u32, cause: Cause) -> u32
    ensures target { result ≡ trap_target mtvec cause }
    ensures aligned { result % 4 ≡ 0 }
{
    let base = aligned_to_4(mtvec);
    match cause {
        Cause::Interrupt(interrupt) if mtvec % 4 == 1 => base.wrapping_add(4 * interrupt.number()),
        _ => base,
    }
}

/// Returns the first interrupt, in the order in which they are taken, whose bit is set in both words.
pub(crate) fn first_interrupt(mip: u32, mie: u32) -> Option<Interrupt>
    ensures { result ≡ first_interrupt mip mie }
{
    INTERRUPT_ORDER.iter().copied().find(|interrupt| {
        let number = interrupt.number();
        is_set(mip, number) && is_set(mie, number)
    })
}

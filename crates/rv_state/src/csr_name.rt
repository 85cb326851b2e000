//! Finds the register of a number.

ghost use Rattle.std.specs.Prelude.{◌≡◌, ◌≤◌, ◌<◌};
ghost use Rattle.rv_state.specs.CsrTable.{csr_numbered, is_read_only, least_mode};

use rv_pmp::{PmpIndex, PmpRegister};

/// A control and status register with state or a value, or one of those that are always zero (Privileged Architecture, section 2.2).
#[derive(Clone, Copy)]
pub(crate) enum CsrName {
    /// A view of mstatus.
    Sstatus,
    /// The address of traps to mode S. A hart itself takes no trap to mode S. The monitor redirects exceptions to this address.
    Stvec,
    Sscratch,
    /// The address at which sret continues.
    Sepc,
    Scause,
    Stval,
    /// Reads 0: there is no translation.
    Satp,
    Mstatus,
    /// RV32IM with modes S and U.
    Misa,
    /// The enabled interrupts.
    Mie,
    /// The address of traps.
    Mtvec,
    Mscratch,
    /// The address at which mret continues.
    Mepc,
    Mcause,
    Mtval,
    /// The pending interrupts.
    Mip,
    /// The cfg bytes of four PMP entries.
    Pmpcfg(PmpRegister),
    /// The address of a PMP entry.
    Pmpaddr(PmpIndex),
    /// The lower half of the count of steps.
    Mcycle,
    /// The lower half of the count of retired instructions.
    Minstret,
    /// The upper half of the count of steps.
    Mcycleh,
    /// The upper half of the count of retired instructions.
    Minstreth,
    /// The counters that are inhibited.
    Mcountinhibit,
    /// Reads 0, and ignores writes that are allowed.
    Zero,
}

impl CsrName {
    /// Returns the register of this number, if there is one.
    #[tactic(auto, unfolding(crate::specs::CsrTable::csr_numbered, crate::specs::CsrTable::csr_listing))]
    pub(crate) const fn of_number(number: u16) -> Option<Self>
        ensures { result ≡ csr_numbered number }
    {
        match number {
            0x100..=0x1FF => CsrName::of_supervisor(number),
            0x300..=0x3FF => CsrName::of_machine(number),
            0xB00..=0xBFF => CsrName::of_counter(number),
            0xF11..=0xF15 => Some(CsrName::Zero),
            _ => None,
        }
    }

    /// Returns the register of this number in table 2.3, if there is one.
    #[tactic(auto, unfolding(crate::specs::CsrTable::csr_numbered, crate::specs::CsrTable::csr_listing))]
    const fn of_supervisor(number: u16) -> Option<Self>
        requires from { 0x100 ≤ number }
        requires to { number < 0x200 }
        ensures { result ≡ csr_numbered number }
    {
        match number {
            0x100 => Some(CsrName::Sstatus),
            0x105 => Some(CsrName::Stvec),
            0x140 => Some(CsrName::Sscratch),
            0x141 => Some(CsrName::Sepc),
            0x142 => Some(CsrName::Scause),
            0x143 => Some(CsrName::Stval),
            0x180 => Some(CsrName::Satp),
            0x104 | 0x106 | 0x10A | 0x144 => Some(CsrName::Zero),
            _ => None,
        }
    }

    /// Returns the register of a number from 0x300 to 0x3FF, if there is one: a register of table 2.5, or of the counter setup in table 2.6.
    #[tactic(auto, unfolding(crate::specs::CsrTable::csr_numbered, crate::specs::CsrTable::csr_listing))]
    const fn of_machine(number: u16) -> Option<Self>
        requires from { 0x300 ≤ number }
        requires to { number < 0x400 }
        ensures { result ≡ csr_numbered number }
    {
        match number {
            0x300 => Some(CsrName::Mstatus),
            0x301 => Some(CsrName::Misa),
            0x304 => Some(CsrName::Mie),
            0x305 => Some(CsrName::Mtvec),
            0x340 => Some(CsrName::Mscratch),
            0x341 => Some(CsrName::Mepc),
            0x342 => Some(CsrName::Mcause),
            0x343 => Some(CsrName::Mtval),
            0x344 => Some(CsrName::Mip),
            0x3A0..=0x3A3 => Some(CsrName::Pmpcfg(PmpRegister::new((number - 0x3A0) as u8))),
            0x3B0..=0x3BF => Some(CsrName::Pmpaddr(PmpIndex::new((number - 0x3B0) as u8))),
            0x320 => Some(CsrName::Mcountinhibit),
            0x302 | 0x303 => Some(CsrName::Zero),
            0x306 | 0x30A | 0x310 | 0x31A => Some(CsrName::Zero),
            0x323..=0x33F => Some(CsrName::Zero),
            _ => None,
        }
    }

    /// Returns the counter of this number in table 2.6, if there is one.
    #[tactic(auto, unfolding(crate::specs::CsrTable::csr_numbered, crate::specs::CsrTable::csr_listing))]
    const fn of_counter(number: u16) -> Option<Self>
        requires from { 0xB00 ≤ number }
        requires to { number < 0xC00 }
        ensures { result ≡ csr_numbered number }
    {
        match number {
            0xB00 => Some(CsrName::Mcycle),
            0xB02 => Some(CsrName::Minstret),
            0xB80 => Some(CsrName::Mcycleh),
            0xB82 => Some(CsrName::Minstreth),
            0xB03..=0xB1F | 0xB83..=0xB9F => Some(CsrName::Zero),
            _ => None,
        }
    }
}

/// Returns the number of the lowest mode that may access a register: bits 9:8 of its number.
pub(crate) const fn least_mode(number: u16) -> u32
    ensures { result ≡ least_mode number }
{
    (number >> 8) as u32 % 4
}

/// Returns whether a register is read-only: bits 11:10 of its number are 11.
pub(crate) const fn is_read_only(number: u16) -> bool
    ensures { result ≡ is_read_only number }
{
    (number >> 10) % 4 == 3
}

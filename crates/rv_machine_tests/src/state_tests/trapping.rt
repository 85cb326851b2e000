//! Tests of traps, returns, interrupts and counters, with values computed by hand from the manual.

use super::followed::{Line, follow, run};
use crate::csr_numbers::{
    MCAUSE, MCOUNTINHIBIT, MCYCLE, MCYCLEH, MEPC, MIE, MINSTRET, MIP, MSTATUS, MTVAL, MTVEC,
    SCAUSE, SEPC, SSCRATCH, SSTATUS, STVAL, STVEC,
};
use rv_pmp::Mode;
use rv_state::{Cause, Csrs, Exception, Interrupt, SContext};
use std::test::Fail;

/// The timer interrupt.
const TIMER: Cause = Cause::Interrupt(Interrupt::MachineTimer);

/// The exception of an ebreak.
const BREAKPOINT: Cause = Cause::Exception(Exception::Breakpoint);

/// The access fault of a fetch.
const FETCH: Cause = Cause::Exception(Exception::InstructionAccessFault);

/// Writes of CSRs, two traps, and the CSRs after each of them.
const TRAPS: [Line; 12] = [
    Line::Put(MTVEC, 0x401), // base 400, mode Vectored
    Line::Put(MIE, 0x80), // MTIE
    Line::Put(MSTATUS, 0x8), // MIE
    Line::Trap {
        mode: Mode::M,
        pc: 0x8000_000C,
        cause: TIMER,
        tval: 0,
        target: 0x41C,
    },
    Line::Reads(MEPC, 0x8000_000C),
    Line::Reads(MCAUSE, 0x8000_0007), // machine timer interrupt
    Line::Reads(MSTATUS, 0x1880), // MPP = M, MPIE
    Line::Trap {
        mode: Mode::M,
        pc: 0x41C,
        cause: BREAKPOINT,
        tval: 0x41C,
        target: 0x400,
    },
    Line::Reads(MEPC, 0x41C),
    Line::Reads(MCAUSE, 3), // breakpoint
    Line::Reads(MTVAL, 0x41C),
    Line::Reads(MSTATUS, 0x1800), // MPP = M
];

/// A timer interrupt in mode M with mtvec 401 (mode Vectored), followed by an exception.
#[test]
fn takes_a_timer_interrupt() -> Result<(), Fail> {
    follow(Csrs::default(), &TRAPS)
}

/// Returns the lines for the interrupt that is taken in a mode, with the values of mstatus, mie and mip, and the timer line.
fn taken(values: [u32; 3], timer: bool, mode: Mode, interrupt: Option<Interrupt>) -> [Line; 5] {
    let [mstatus, mie, mip] = values;
    [
        Line::Put(MSTATUS, mstatus),
        Line::Put(MIP, mip),
        Line::Mie(mie),
        Line::Timer(timer),
        Line::Pending(mode, interrupt),
    ]
}

/// The state of a raised timer line.
const RAISED: bool = true;

/// The state of a lowered timer line.
const LOWERED: bool = false;

/// For each row, the values of mstatus, mie and mip, the timer line, the mode, and the interrupt that is taken.
const TAKEN: [([u32; 3], bool, Mode, Option<Interrupt>); 7] = [
    (
        [0, 0xAAA, 0x222],
        RAISED,
        Mode::S,
        Some(Interrupt::MachineTimer),
    ),
    (
        [0, 0xAAA, 0x222],
        LOWERED,
        Mode::S,
        Some(Interrupt::SupervisorExternal),
    ),
    (
        [0, 0xAAA, 0x022],
        LOWERED,
        Mode::U,
        Some(Interrupt::SupervisorSoftware),
    ),
    (
        [0, 0xAAA, 0x020],
        LOWERED,
        Mode::U,
        Some(Interrupt::SupervisorTimer),
    ),
    ([0, 0x002, 0x020], RAISED, Mode::U, None),
    ([0, 0x080, 0], RAISED, Mode::M, None),
    (
        [8, 0x080, 0],
        RAISED,
        Mode::M,
        Some(Interrupt::MachineTimer),
    ),
];

/// The order of the interrupts that can be pending here is 7, 9, 1, 5. In mode M an interrupt is taken only if MIE is set.
#[test]
fn takes_interrupts_in_order() -> Result<(), Fail> {
    for (values, timer, mode, interrupt) in TAKEN {
        run(&taken(values, timer, mode, interrupt))?;
    }
    Ok(())
}

/// The lines of the test `traps_from_mode_u_to_mode_m`.
const FROM_USER: [Line; 4] = [
    Line::Sret(Mode::U, 0),
    Line::Trap {
        mode: Mode::U,
        pc: 0,
        cause: FETCH,
        tval: 0,
        target: 0,
    },
    Line::Reads(MSTATUS, 0x20), // SPIE
    Line::Reads(MCAUSE, 1), // instruction access fault
];

/// sret at reset returns to mode U. A trap from there is taken in mode M.
#[test]
fn traps_from_mode_u_to_mode_m() -> Result<(), Fail> {
    run(&FROM_USER)
}

/// The lines of the test `returns_to_the_mode_before`.
const RETURNS: [Line; 12] = [
    Line::Put(MSTATUS, 0x0002_0188), // MPRV, SPP, MPIE, MIE
    Line::Put(SEPC, 0x8000_0020),
    Line::Mepc(0x8000_0013),
    Line::Mpp(Mode::S),
    Line::Mret(Mode::S, 0x8000_0010),
    Line::Reads(MSTATUS, 0x188), // SPP, MPIE, MIE
    Line::Put(MSTATUS, 0x0002_0188),
    Line::Sret(Mode::S, 0x8000_0020),
    Line::Mstatus(0xA8), // MPIE, SPIE, MIE
    Line::Put(MSTATUS, 0x0002_1800), // MPRV, MPP = M
    Line::Mret(Mode::M, 0x8000_0010),
    Line::Reads(MSTATUS, 0x0002_0080), // MPRV, MPIE
];

/// MPRV (bit 17) stays set only if mret returns to mode M. sret clears it.
#[test]
fn returns_to_the_mode_before() -> Result<(), Fail> {
    run(&RETURNS)
}

/// The lines of the test `counts_steps`.
const COUNTS: [Line; 16] = [
    Line::Put(MCYCLE, 0xFFFF_FFFF),
    Line::Put(MCYCLEH, 0xFFFF_FFFF),
    Line::Tick {
        retired: true,
        held: 0,
        written: Some(MCYCLEH),
    },
    Line::Reads(MCYCLE, 0xFFFF_FFFF),
    Line::Reads(MINSTRET, 1),
    Line::Tick {
        retired: false,
        held: 0,
        written: None,
    },
    Line::Reads(MCYCLE, 0),
    Line::Reads(MCYCLEH, 0),
    Line::Reads(MINSTRET, 1),
    Line::Tick {
        retired: true,
        held: 0,
        written: None,
    },
    Line::Reads(MCYCLE, 1),
    Line::Reads(MINSTRET, 2),
    Line::Put(MCOUNTINHIBIT, 0x1), // CY
    Line::TickHeld,
    Line::Reads(MCYCLE, 1),
    Line::Reads(MINSTRET, 3),
];

/// A held counter does not change. A write to one half replaces the increment of the whole counter.
#[test]
fn counts_steps() -> Result<(), Fail> {
    run(&COUNTS)
}

/// All ones in each register of mode S.
const ONES: SContext = SContext {
    stvec: u32::MAX,
    sscratch: u32::MAX,
    sepc: u32::MAX,
    scause: u32::MAX,
    stval: u32::MAX,
    sie: true,
    spie: true,
    spp: true,
    mxr: true,
};

/// Returns the lines for the registers of mode S, with their values at the start.
fn contexts(first: SContext) -> [Line; 18] {
    [
        Line::Put(MSTATUS, 0x0000_0088), // MPIE, MIE
        Line::Put(MEPC, 0x8000_0013),
        Line::Context(first),
        Line::SetContext(ONES),
        Line::Reads(STVEC, 0xFFFF_FFFD),
        Line::Reads(SSCRATCH, u32::MAX),
        Line::Reads(SEPC, 0xFFFF_FFFC),
        Line::Reads(SCAUSE, u32::MAX),
        Line::Reads(STVAL, u32::MAX),
        Line::Reads(SSTATUS, 0x0008_0122), // MXR, SPP, SPIE, SIE
        Line::Reads(MSTATUS, 0x0008_01AA), // MXR, SPP, MPIE, SPIE, MIE, SIE
        Line::StvecIs(0xFFFF_FFFD),
        Line::MepcIs(0x8000_0010),
        Line::SetContext(first),
        Line::Context(first),
        Line::Reads(STVEC, 0),
        Line::Reads(SEPC, 0),
        Line::Reads(MSTATUS, 0x88), // MPIE, MIE
    ]
}

/// All registers of mode S are set to all ones at once. Each keeps the same bits as a write to it, and mstatus keeps its other fields. After
/// they are set back, they read as at the start.
#[test]
fn sets_the_registers_of_mode_s() -> Result<(), Fail> {
    run(&contexts(Csrs::new().s_context()))
}

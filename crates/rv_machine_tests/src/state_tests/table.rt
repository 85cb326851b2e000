//! Tests of every register number in every mode.

use super::followed::{Line, run};
use crate::csr_numbers::{MCYCLE, MCYCLEH, MINSTRETH, MSTATUS, SATP, SSTATUS};
use rv_pmp::Mode;
use rv_state::{CsrFault, Csrs, Regs};
use rv_word::Reg;
use std::test::Fail;

/// The registers in ascending order of their numbers, from the table in docs/ISA.md. Each row has the first and the last number of similar
/// registers, their value at reset, and their value in mode M after all ones were written.
const REGISTERS: [(u16, u16, u32, u32); 35] = [
    (0x100, 0x100, 0, 0x0008_0122), // sstatus
    (0x104, 0x104, 0, 0), // sie
    (0x105, 0x105, 0, 0xFFFF_FFFD), // stvec
    (0x106, 0x106, 0, 0), // scounteren
    (0x10A, 0x10A, 0, 0), // senvcfg
    (0x140, 0x140, 0, 0xFFFF_FFFF), // sscratch
    (0x141, 0x141, 0, 0xFFFF_FFFC), // sepc
    (0x142, 0x143, 0, 0xFFFF_FFFF), // scause, stval
    (0x144, 0x144, 0, 0), // sip
    (0x180, 0x180, 0, 0), // satp
    (0x300, 0x300, 0, 0x007A_19AA), // mstatus
    (0x301, 0x301, 0x4014_1100, 0x4014_1100), // misa
    (0x302, 0x303, 0, 0), // medeleg, mideleg
    (0x304, 0x304, 0, 0x0000_0AAA), // mie
    (0x305, 0x305, 0, 0xFFFF_FFFD), // mtvec
    (0x306, 0x306, 0, 0), // mcounteren
    (0x30A, 0x30A, 0, 0), // menvcfg
    (0x310, 0x310, 0, 0), // mstatush
    (0x31A, 0x31A, 0, 0), // menvcfgh
    (0x320, 0x320, 0, 0x0000_0005), // mcountinhibit
    (0x323, 0x33F, 0, 0), // mhpmevent3 to mhpmevent31
    (0x340, 0x340, 0, 0xFFFF_FFFF), // mscratch
    (0x341, 0x341, 0, 0xFFFF_FFFC), // mepc
    (0x342, 0x343, 0, 0xFFFF_FFFF), // mcause, mtval
    (0x344, 0x344, 0, 0x0000_0222), // mip
    (0x3A0, 0x3A3, 0, 0x9F9F_9F9F), // pmpcfg0 to pmpcfg3
    (0x3B0, 0x3BF, 0, 0xFFFF_FFFF), // pmpaddr0 to pmpaddr15
    (0xB00, 0xB00, 0, 0xFFFF_FFFF), // mcycle
    (0xB02, 0xB02, 0, 0xFFFF_FFFF), // minstret
    (0xB03, 0xB1F, 0, 0), // mhpmcounter3 to mhpmcounter31
    (0xB80, 0xB80, 0, 0xFFFF_FFFF), // mcycleh
    (0xB82, 0xB82, 0, 0xFFFF_FFFF), // minstreth
    (0xB83, 0xB9F, 0, 0), // mhpmcounter3h to mhpmcounter31h
    (0xF11, 0xF13, 0, 0), // mvendorid, marchid, mimpid
    (0xF14, 0xF15, 0, 0), // mhartid, mconfigptr
];

/// Returns the value of a register at reset and after all ones, if there is a register with this number.
fn expected(number: u16) -> Option<(u32, u32)> {
    for (first, last, at_reset, after_ones) in REGISTERS {
        if first <= number && number <= last {
            return Some((at_reset, after_ones));
        }
    }
    None
}

/// Returns whether a mode may access a register: numbers 1xx require mode S, and all other numbers of registers mode M.
fn is_allowed(number: u16, mode: Mode) -> bool {
    match mode {
        Mode::U => false,
        Mode::S => number < 0x200,
        Mode::M => true,
    }
}

/// Returns the expected result of a read of a register in a mode, at reset.
fn wanted_read(number: u16, mode: Mode) -> Result<u32, CsrFault> {
    match expected(number) {
        None => Err(CsrFault::Missing),
        Some(_) if !is_allowed(number, mode) => Err(CsrFault::Privilege),
        Some((at_reset, _)) => Ok(at_reset),
    }
}

/// The result of a write of all ones in a mode at reset, and of a read in mode M after it.
type Written = (Result<(), CsrFault>, Result<u32, CsrFault>);

/// Returns the expected result of a write of all ones in a mode at reset.
fn wanted_write(number: u16, mode: Mode) -> Written {
    match expected(number) {
        None => (Err(CsrFault::Missing), Err(CsrFault::Missing)),
        Some((at_reset, _)) if !is_allowed(number, mode) => {
            (Err(CsrFault::Privilege), Ok(at_reset))
        }
        Some((at_reset, _)) if number >= 0xC00 => (Err(CsrFault::ReadOnly), Ok(at_reset)),
        Some((_, after_ones)) => (Ok(()), Ok(after_ones)),
    }
}

// these functions have no contracts: a run of the tests shows what they do, and the proofs of the tests stay small

fn read(csrs: &Csrs, number: u16, mode: Mode) -> Result<u32, CsrFault> {
    csrs.read(number, mode)
}

fn write(csrs: &mut Csrs, number: u16, word: u32, mode: Mode) -> Result<(), CsrFault> {
    csrs.write(number, word, mode)
}

/// Writes all ones to a register in a mode at reset, and returns the result.
fn written(number: u16, mode: Mode) -> Written {
    let mut csrs = Csrs::new();
    let done = write(&mut csrs, number, 0xFFFF_FFFF, mode);
    (done, read(&csrs, number, Mode::M))
}

#[test]
fn every_number_reads_in_every_mode_as_listed() -> Result<(), Fail> {
    let csrs = Csrs::new();
    for number in 0u16..4096 {
        for mode in [Mode::U, Mode::S, Mode::M] {
            let shown = read(&csrs, number, mode);
            if shown != wanted_read(number, mode) {
                return Err(Fail::new(format_args!("{number:03x} in {mode:?}: {shown:?}")));
            }
        }
    }
    Ok(())
}

#[test]
fn there_are_143_registers(rt: HostRuntime) {
    let mut found = 0u32;
    for number in 0u16..4096 {
        if expected(number).is_some() {
            found = found.wrapping_add(1);
        }
    }
    assert_eq!(rt; found, 143);
}

#[test]
fn every_number_is_written_in_every_mode_as_listed() -> Result<(), Fail> {
    for number in 0u16..4096 {
        for mode in [Mode::U, Mode::S, Mode::M] {
            let shown = written(number, mode);
            if shown != wanted_write(number, mode) {
                return Err(Fail::new(format_args!("{number:03x} in {mode:?}: {shown:?}")));
            }
        }
    }
    Ok(())
}

/// The bit TVM of mstatus, with which accesses to satp trap in mode S.
const TVM: u32 = 0x0010_0000;

/// The lines of the test `keeps_fields_and_halves`.
const FIELDS: [Line; 10] = [
    Line::Put(MSTATUS, 0x1000),
    Line::Reads(MSTATUS, 0),
    Line::Put(MSTATUS, 0x0800),
    Line::Put(SSTATUS, 0xFFFF_FFFF),
    Line::Put(MCYCLEH, 0x1234_5678),
    Line::Put(MCYCLE, 0x9ABC_DEF0),
    Line::Reads(MSTATUS, 0x0008_0922),
    Line::Reads(MCYCLEH, 0x1234_5678),
    Line::Reads(MCYCLE, 0x9ABC_DEF0),
    Line::Reads(MINSTRETH, 0),
];

/// MPP (bits 12:11) cannot have the value 2, which is no mode. Each half of a counter is stored separately.
#[test]
fn keeps_fields_and_halves() -> Result<(), Fail> {
    run(&FIELDS)
}

/// The result of a read of satp in a mode, and the error of a write.
type Answered = (Result<u32, CsrFault>, Option<CsrFault>);

/// Reads and writes satp in a mode.
fn satp(csrs: &mut Csrs, mode: Mode) -> Answered {
    let shown = read(csrs, SATP, mode);
    (shown, write(csrs, SATP, 1, mode).err())
}

/// Accesses satp in mode U, in mode S and in mode M, with TVM (bit 20) set.
fn satp_under_tvm() -> [Answered; 3] {
    let mut csrs = Csrs::new();
    let _ = write(&mut csrs, MSTATUS, TVM, Mode::M);
    let of_user = satp(&mut csrs, Mode::U);
    let of_supervisor = satp(&mut csrs, Mode::S);
    [of_user, of_supervisor, satp(&mut csrs, Mode::M)]
}

/// satp is refused to mode S while TVM is set. All other errors are checked first.
#[test]
fn refuses_satp_under_tvm(rt: HostRuntime) {
    let denied = CsrFault::Privilege;
    let trapped = CsrFault::Trapped;
    let wanted = [
        (Err(denied), Some(denied)),
        (Err(trapped), Some(trapped)),
        (Ok(0), None),
    ];
    assert_eq!(rt; satp_under_tvm(), wanted);
}

#[test]
fn numbers_of_faults(rt: HostRuntime) {
    for (fault, number) in [
        (CsrFault::Missing, 1),
        (CsrFault::Privilege, 2),
        (CsrFault::ReadOnly, 3),
        (CsrFault::Trapped, 4),
    ] {
        assert_eq!(rt; fault.number(), number);
    }
}

#[test]
fn registers_keep_words_but_x0(rt: HostRuntime) {
    let mut regs = Regs::default();
    regs.set(Reg::new(0), 7);
    regs.set(Reg::new(31), 0xFFFF_FFFF);
    for (number, word) in [(0, 0), (30, 0), (31, 0xFFFF_FFFF)] {
        assert_eq!(rt; regs.get(Reg::new(number)), word);
    }
}

//! Tests of steps of small programs, with their outcomes. The command-line cases of the bench cover the corner values of every row.

mod followed;

use crate::csr_numbers::{MCAUSE, MCYCLE, MEPC, MIE, MINSTRET, MSTATUS, PMPADDR0, PMPCFG0};
use followed::{Line, run};
use rv_hart::{Hart, StepOutcome, Trap};
use rv_memory::{RAM_BASE, Ram, Span, Touched};
use rv_pmp::Mode;
use rv_state::{Cause, Exception, Interrupt};
use rv_word::{Reg, Width};
use std::test::Fail;

/// The value of pmpcfg0 for an entry 0 that permits fetches and no other access: NAPOT and X.
const FETCH_EVERYWHERE: u32 = 0x1c;

/// The bit of the timer interrupt of mode M in mie.
const MTIE: u32 = 0x80;

/// The bit in mstatus that enables interrupts in mode M.
const MSTATUS_MIE: u32 = 8;

/// The bit in mstatus with which mode M loads and stores with the permissions of the mode in MPP.
const MPRV: u32 = 0x2_0000;

/// The word of mret.
const MRET: u32 = 0x3020_0073;

/// The word of wfi.
const WFI: u32 = 0x1050_0073;

/// The word of csrrs x1, mscratch, x0.
const READ_MSCRATCH: u32 = 0x3400_20f3;

/// The word of ecall.
const ECALL: u32 = 0x0000_0073;

/// The word of ebreak.
const EBREAK: u32 = 0x0010_0073;

/// A word that encodes no instruction.
const NO_INSTRUCTION: u32 = 0;

/// Returns the outcome of a step without a trap, with its accesses.
const fn touching(fetch_address: u32, loaded: Option<Span>, stored: Option<Span>) -> StepOutcome {
    StepOutcome {
        trap: None,
        touched: Touched {
            fetched: word_at(fetch_address),
            loaded,
            stored,
        },
    }
}

/// Returns the span of a word.
const fn word_at(addr: u32) -> Option<Span> {
    Some(Span {
        addr,
        len: Width::Word,
    })
}

/// Returns the span of one byte.
const fn byte_at(addr: u32) -> Option<Span> {
    Some(Span {
        addr,
        len: Width::Byte,
    })
}

/// Returns the trap of an exception.
const fn exception(exception: Exception, tval: u32) -> Option<Trap> {
    Some(Trap {
        cause: Cause::Exception(exception),
        tval,
    })
}

/// Returns the lines of the test `shows_what_it_touches`.
fn touching_lines() -> [Line; 7] {
    [
        Line::Set(2, RAM_BASE),
        Line::Outcome(touching(RAM_BASE, None, None)),
        Line::Outcome(touching(RAM_BASE + 4, None, byte_at(RAM_BASE + 259))),
        Line::Outcome(touching(RAM_BASE + 8, byte_at(RAM_BASE + 258), None)),
        Line::Pc(RAM_BASE + 12),
        Line::Byte(RAM_BASE + 259, 0xff),
        Line::X(3, 0),
    ]
}

/// addi x1, x0, -1; sb x1, 259(x2); lb x3, 258(x2)
#[test]
fn shows_what_it_touches(rt: HostRuntime) -> Result<(), Fail> {
    let words = [0xfff0_0093, 0x1011_01a3, 0x1021_0183];
    run(rt, &words, &touching_lines())
}

/// The state of a hart without its memory after a step.
#[derive(Clone, Copy, Debug, PartialEq, Eq)]
struct Seen {
    trap: Option<Trap>,
    x1: u32,
    pc: u32,
    mode: Mode,
    mepc: u32,
}

/// Executes a step of a hart over a borrowed memory.
fn step_over(hart: &mut Hart, ram: &mut Ram) -> Seen {
    let trap = hart.step(ram).trap;
    Seen {
        trap,
        x1: hart.regs().get(Reg::new(1)),
        pc: hart.pc(),
        mode: hart.mode(),
        mepc: hart.csrs().mepc(),
    }
}

/// Lets a hart fetch everywhere in every mode, and sets its pc to the third word in mode U. Returns whether this succeeded.
fn open(hart: &mut Hart) -> bool {
    let address = hart.csrs_mut().write(PMPADDR0, u32::MAX, Mode::M);
    let configuration = hart.csrs_mut().write(PMPCFG0, FETCH_EVERYWHERE, Mode::M);
    hart.set_pc(RAM_BASE + 8, Mode::U);
    address.is_ok() && configuration.is_ok()
}

/// Executes lui x1, 0x12345 in mode U, sets x1, and then executes the word 0.
fn steps_of_a_hart(rt: HostRuntime) -> Result<(bool, [Seen; 2]), Fail> {
    let mut ram = Ram::new(rt.alloc(), 65_536).ok().ok_or("a RAM")?;
    ram.write_part(RAM_BASE + 8, &[0xb7, 0x50, 0x34, 0x12]);
    let mut hart = Hart::new(RAM_BASE, Mode::M);
    let is_open = open(&mut hart);
    let first = step_over(&mut hart, &mut ram);
    hart.regs_mut().set(Reg::new(1), 7);
    let second = step_over(&mut hart, &mut ram);
    Ok((is_open, [first, second]))
}

/// A hart steps over a borrowed memory: lui x1, 0x12345, in mode U with a PMP entry that permits fetches. Then the word 0 traps.
#[test]
fn steps_over_a_memory(rt: HostRuntime) -> Result<(), Fail> {
    let first = Seen {
        trap: None,
        x1: 0x1234_5000,
        pc: RAM_BASE + 12,
        mode: Mode::U,
        mepc: 0,
    };
    let second = Seen {
        trap: exception(Exception::IllegalInstruction, 0),
        x1: 7,
        pc: 0,
        mode: Mode::M,
        mepc: RAM_BASE + 12,
    };
    assert_eq!(rt; steps_of_a_hart(rt)?, (true, [first, second]));
    Ok(())
}

/// Returns the lines of the test `reports_a_refused_load`.
fn refused_load() -> [Line; 4] {
    [
        Line::Set(1, RAM_BASE + 65_532),
        Line::Outcome(StepOutcome {
            trap: exception(Exception::LoadAccessFault, RAM_BASE + 65_534),
            touched: Touched {
                fetched: word_at(RAM_BASE),
                loaded: None,
                stored: None,
            },
        }),
        Line::Pc(0),
        Line::Trap(exception(Exception::InstructionAccessFault, 0)),
    ]
}

/// lw x3, 2(x1): the trap is reported and taken. The refused access is not among the reported accesses.
#[test]
fn reports_a_refused_load(rt: HostRuntime) -> Result<(), Fail> {
    run(rt, &[0x0020_a183], &refused_load())
}

/// Returns the lines for a first instruction that traps with a cause and a value of mtval.
fn trapping(cause: Exception, tval: u32) -> [Line; 4] {
    [
        Line::Trap(exception(cause, tval)),
        Line::Pc(0),
        Line::Csr(MEPC, RAM_BASE),
        Line::Csr(MCAUSE, Cause::Exception(cause).code()),
    ]
}

/// ecall, ebreak and a word that encodes no instruction have a cause each.
#[test]
fn traps_by_their_causes(rt: HostRuntime) -> Result<(), Fail> {
    for (word, cause, tval) in [
        (ECALL, Exception::EnvironmentCallFromM, 0),
        (EBREAK, Exception::Breakpoint, RAM_BASE),
        (NO_INSTRUCTION, Exception::IllegalInstruction, 0),
    ] {
        run(rt, &[word], &trapping(cause, tval))?;
    }
    Ok(())
}

/// Returns the lines for mret to mode U and a second instruction that traps there.
fn returning(cause: Exception, tval: u32) -> [Line; 8] {
    [
        Line::Mepc(RAM_BASE + 4),
        // entry 0 permits fetches everywhere in every mode
        Line::Write(PMPADDR0, u32::MAX),
        Line::Write(PMPCFG0, FETCH_EVERYWHERE),
        Line::Trap(None),
        Line::Mode(Mode::U),
        Line::Pc(RAM_BASE + 4),
        Line::Trap(exception(cause, tval)),
        Line::Mode(Mode::M),
    ]
}

/// mret to mode U, in which mret, wfi and a read of mscratch are illegal, and ecall has its own cause
#[test]
fn keeps_modes_apart(rt: HostRuntime) -> Result<(), Fail> {
    for (word, cause, tval) in [
        (MRET, Exception::IllegalInstruction, MRET),
        (WFI, Exception::IllegalInstruction, WFI),
        (READ_MSCRATCH, Exception::IllegalInstruction, READ_MSCRATCH),
        (ECALL, Exception::EnvironmentCallFromU, 0),
    ] {
        run(rt, &[MRET, word], &returning(cause, tval))?;
    }
    Ok(())
}

/// The lines of the test `changes_a_register_by_another`.
const EXCHANGE: [Line; 6] = [
    Line::Set(2, 0x1234),
    Line::Trap(None),
    Line::Trap(None),
    Line::X(1, 0),
    Line::X(3, 0x1234),
    Line::Csr(MINSTRET, 2),
];

/// csrrw x1, mscratch, x2; csrrs x3, mscratch, x0. The second instruction only reads.
#[test]
fn changes_a_register_by_another(rt: HostRuntime) -> Result<(), Fail> {
    run(rt, &[0x3401_10f3, 0x3400_21f3], &EXCHANGE)
}

/// Returns the lines of the test `takes_an_interrupt_first`.
fn interrupted() -> [Line; 7] {
    [
        Line::Enter(Mode::U),
        Line::Mie(MTIE),
        Line::RaiseTimer,
        Line::Outcome(StepOutcome {
            trap: Some(Trap {
                cause: Cause::Interrupt(Interrupt::MachineTimer),
                tval: 0,
            }),
            touched: Touched {
                fetched: None,
                loaded: None,
                stored: None,
            },
        }),
        Line::Mode(Mode::M),
        Line::Csr(MCYCLE, 1),
        Line::Csr(MINSTRET, 0),
    ]
}

/// The timer interrupt is taken before the instruction, in mode U even if MIE is 0.
#[test]
fn takes_an_interrupt_first(rt: HostRuntime) -> Result<(), Fail> {
    run(rt, &[0x0000_0013], &interrupted())
}

/// Returns the lines for a jump to 5 after `base`, with the expected pc and the expected value of x1.
fn jumping(base: u32, pc: u32, link: u32) -> [Line; 4] {
    [
        Line::Set(1, base),
        Line::Step,
        Line::Pc(pc),
        Line::X(1, link),
    ]
}

/// jalr x1, 5(x1) reads x1 before it writes it, and writes it only if the target is a multiple of 4.
#[test]
fn jumps_through_the_register_it_writes(rt: HostRuntime) -> Result<(), Fail> {
    for (base, pc, link) in [
        (0x8000_0100, 0x8000_0104, RAM_BASE + 4),
        (0x8000_0101, 0, 0x8000_0101),
    ] {
        run(rt, &[0x0050_80e7], &jumping(base, pc, link))?;
    }
    Ok(())
}

/// The lines of the test `lends_its_memory`.
const PATCHED: [Line; 3] = [
    Line::Patch([0x93, 0x00, 0xf0, 0xff]),
    Line::Trap(None),
    Line::X(1, 0xffff_ffff),
];

/// The memory can be changed between two steps.
#[test]
fn lends_its_memory(rt: HostRuntime) -> Result<(), Fail> {
    run(rt, &[0], &PATCHED)
}

/// Returns the lines for a load that is refused in a mode, with a value of mstatus.
fn judged(mode: Mode, mstatus: u32) -> [Line; 6] {
    [
        Line::Set(1, RAM_BASE),
        Line::Write(PMPADDR0, u32::MAX),
        Line::Write(PMPCFG0, FETCH_EVERYWHERE),
        Line::Write(MSTATUS, mstatus),
        Line::Enter(mode),
        Line::Trap(exception(Exception::LoadAccessFault, RAM_BASE)),
    ]
}

/// lw x3, 0(x1) in mode U: the PMP entry for fetches does not permit it. With MPRV it is checked in mode U in mode M too.
#[test]
fn judges_by_the_entries(rt: HostRuntime) -> Result<(), Fail> {
    for (mode, mstatus) in [(Mode::U, 0), (Mode::M, MPRV)] {
        run(rt, &[0x0000_a183], &judged(mode, mstatus))?;
    }
    Ok(())
}

/// The end of the address space.
const END: u64 = 0x1_0000_0000;

/// The lines of the test `goes_on_fast`.
const COUNTED: [Line; 18] = [
    Line::Set(2, RAM_BASE),
    Line::Step,
    Line::Step,
    Line::Step,
    Line::Step,
    Line::Fast {
        count: 40,
        below: END,
        done: 39,
    },
    Line::Step,
    Line::X(1, 11),
    Line::X(3, 11),
    Line::Byte(RAM_BASE + 256, 11),
    Line::Csr(MCYCLE, 44),
    Line::Csr(MINSTRET, 44),
    Line::Pc(RAM_BASE),
    Line::Fast {
        count: 40,
        below: RAM_BASE as u64 + 12,
        done: 3,
    },
    Line::Pc(RAM_BASE + 12),
    Line::X(3, 12),
    Line::Csr(MINSTRET, 47),
    Line::Fast {
        count: 0,
        below: END,
        done: 0,
    },
];

/// addi x1, x1, 1; sw x1, 256(x2); lw x3, 256(x2); bne x1, x0, -12. Accesses that earlier steps have made are executed on the fast path, within
/// the limits. The fast path leaves the last step, since no two of these are one superinstruction.
#[test]
fn goes_on_fast(rt: HostRuntime) -> Result<(), Fail> {
    run(
        rt,
        &[0x0010_8093, 0x1011_2023, 0x1001_2183, 0xfe00_9ae3],
        &COUNTED,
    )
}

/// The lines of the test `leaves_to_the_step_what_may_trap`.
const STOPPED: [Line; 14] = [
    Line::Step,
    Line::Set(1, 6),
    // an instruction that writes a control and status register, or that traps, is left to `step`
    Line::Fast {
        count: 9,
        below: END,
        done: 1,
    },
    Line::X(1, 7),
    Line::Pc(RAM_BASE + 8),
    Line::Trap(None),
    Line::Fast {
        count: 9,
        below: END,
        done: 0,
    },
    Line::Csr(MINSTRET, 3),
    Line::Enter(Mode::M),
    // a single step is left to `step`
    Line::Fast {
        count: 1,
        below: END,
        done: 0,
    },
    // an interrupt is left to `step`
    Line::Write(MSTATUS, MSTATUS_MIE),
    Line::Mie(MTIE),
    Line::RaiseTimer,
    Line::Fast {
        count: 9,
        below: END,
        done: 0,
    },
];

/// addi x1, x0, 0; addi x1, x1, 1; csrrw x0, mscratch, x1; ebreak
#[test]
fn leaves_to_the_step_what_may_trap(rt: HostRuntime) -> Result<(), Fail> {
    run(
        rt,
        &[0x0000_0093, 0x0010_8093, 0x3400_9073, 0x0010_0073],
        &STOPPED,
    )
}

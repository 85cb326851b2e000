//! Tests of the complete texts of replies.

use crate::benches::{Line, expect, expect_lines, machine_with};
use rv_debug::Bench;
use rv_fast_path::Machine;
use rv_pmp::Mode;
use std::alloc::Global;
use std::process::Abort;

/// Writes control and status registers of a machine in mode M. The replies show whether the writes succeeded.
fn put(machine: &mut Machine, words: &[(u16, u32)]) {
    for (number, word) in words {
        let _ = machine.csrs_mut().write(*number, *word, Mode::M);
    }
}

/// Gives lines to a bench with a nop, in a mode and with these control and status registers.
fn expect_of(rt: &impl Abort, alloc: Global, mode: Mode, words: &[(u16, u32)], lines: &[Line]) {
    let mut machine = machine_with(rt, alloc, &[0x0000_0013], mode);
    put(&mut machine, words);
    let mut bench = Bench::bare(machine);
    expect(rt, &mut bench, lines);
}

/// The lines of the test `prints_modes`.
const IN_U: &[Line] = &[(
    b"step 1",
    b"ran 1 pc=80000004 mode=U world=bare why=done trap=-\n",
    0,
)];

/// The lines of the test `prints_modes`.
const IN_S: &[Line] = &[(
    b"step 1",
    b"ran 1 pc=80000004 mode=S world=bare why=done trap=-\n",
    0,
)];

/// Entry 0 permits every access everywhere in each mode.
#[test]
fn prints_modes(rt: HostRuntime) {
    let words = [(0x3b0, 0xffff_ffff), (0x3a0, 0x1f)];
    expect_of(&rt, rt.alloc(), Mode::U, &words, IN_U);
    expect_of(&rt, rt.alloc(), Mode::S, &words, IN_S);
}

/// The lines of the test `prints_all_registers`.
const PRINTS_ALL_REGISTERS: &[Line] = &[
    (b"setreg 0 1", b"ok\n", 0),
    (b"setreg 7 abcd", b"ok\n", 0),
    (b"setreg 31 ffffffff", b"ok\n", 0),
    (
        b"regs",
        b"x0=00000000\nx1=00000000\nx2=00000000\nx3=00000000\n\
          x4=00000000\nx5=00000000\nx6=00000000\nx7=0000abcd\n\
          x8=00000000\nx9=00000000\nx10=00000000\nx11=00000000\n\
          x12=00000000\nx13=00000000\nx14=00000000\nx15=00000000\n\
          x16=00000000\nx17=00000000\nx18=00000000\nx19=00000000\n\
          x20=00000000\nx21=00000000\nx22=00000000\nx23=00000000\n\
          x24=00000000\nx25=00000000\nx26=00000000\nx27=00000000\n\
          x28=00000000\nx29=00000000\nx30=00000000\nx31=ffffffff\n\
          pc=80000000\n",
        0,
    ),
    (b"dis 80000004", b"80000004: 00000000 .word 0x00000000\n", 0),
];

#[test]
fn prints_all_registers(rt: HostRuntime) {
    expect_lines(&rt, rt.alloc(), &[0xfff0_0093], PRINTS_ALL_REGISTERS);
}

/// The lines of the test `prints_entries`.
const PRINTS_ENTRIES: &[Line] = &[(
    b"pmp",
    b"pmp 0 cfg=17 addr=20000040\n\
      pmp 1 cfg=00 addr=ffffffff\n\
      pmp 2 cfg=00 addr=00000000\n\
      pmp 3 cfg=00 addr=00000000\n\
      pmp 4 cfg=00 addr=00000000\n\
      pmp 5 cfg=00 addr=00000000\n\
      pmp 6 cfg=00 addr=00000000\n\
      pmp 7 cfg=00 addr=00000000\n\
      pmp 8 cfg=00 addr=00000000\n\
      pmp 9 cfg=00 addr=00000000\n\
      pmp 10 cfg=00 addr=00000000\n\
      pmp 11 cfg=00 addr=00000000\n\
      pmp 12 cfg=00 addr=00000000\n\
      pmp 13 cfg=00 addr=00000000\n\
      pmp 14 cfg=00 addr=00000000\n\
      pmp 15 cfg=9f addr=00000001\n",
    0,
)];

#[test]
fn prints_entries(rt: HostRuntime) {
    let words = [
        (0x3b0, 0x2000_0040),
        (0x3b1, 0xffff_ffff),
        (0x3bf, 1),
        (0x3a0, 0x17),
        (0x3a3, 0x9f00_0000),
    ];
    expect_of(&rt, rt.alloc(), Mode::M, &words, PRINTS_ENTRIES);
}

/// The lines of the test `prints_verdicts`.
const PRINTS_VERDICTS: &[Line] = &[
    (b"access U r 80000ffc 4", b"allowed entry 0\n", 0),
    (b"access M r 80002000 4", b"allowed free\n", 0),
    (b"access U w 80000000 4", b"denied entry 0\n", 0),
    (b"access M x 80001004 4", b"denied entry 15\n", 0),
    (b"access U r 80000ffd 2", b"allowed entry 0\n", 0),
    (b"access M r 80001006 4", b"denied partial 15\n", 0),
    (b"access U r 80002000 4", b"denied free\n", 0),
    (b"access M r 8000ffff 2", b"denied outside\n", 0),
];

/// Entry 0 is NAPOT and readable, for the 4096 bytes from 80000000 on. Entry 15 is NAPOT and locked, for the 8 bytes from 80001000 on.
#[test]
fn prints_verdicts(rt: HostRuntime) {
    let words = [
        (0x3b0, 0x2000_01ff),
        (0x3bf, 0x2000_0400),
        (0x3a0, 0x19),
        (0x3a3, 0x9800_0000),
    ];
    expect_of(&rt, rt.alloc(), Mode::M, &words, PRINTS_VERDICTS);
}

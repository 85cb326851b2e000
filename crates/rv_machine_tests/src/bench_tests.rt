//! Tests of lines and commands of a bench, with small programs.

use crate::benches::{Line, NO_SLOT, expect, expect_lines, expect_text, with_words};
use rv_debug::{Bench, Command, StepCount};
use rv_text::Reply;
use rv_word::Reg;
use std::process::Abort;

/// Gives a command to a bench, and expects this reply.
fn expect_reply(rt: &impl Abort, bench: &mut Bench, command: &Command, wanted: &[u8]) {
    let mut reply = Reply::new();
    bench.command(command, &mut reply);
    expect_text(rt, &reply, wanted);
}

/// Gives a command to a bench, and expects a reply with this number of bytes.
fn expect_len(rt: &impl Abort, bench: &mut Bench, command: &Command, len: usize) {
    let mut reply = Reply::new();
    bench.command(command, &mut reply);
    assert!(rt; reply.len() == len);
}

/// The lines of the test `ends_at_watches_and_breaks`.
const ENDS_AT_WATCHES_AND_BREAKS: &[Line] = &[
    (b"setreg 2 80000100", b"ok\n", NO_SLOT),
    (b"break 80000000", b"ok\n", NO_SLOT),
    (b"watch 80000103", b"ok\n", NO_SLOT),
    (b"watch 80000102", b"ok\n", NO_SLOT),
    (
        b"run 9",
        b"ran 1 pc=80000004 mode=M world=bare why=watch:80000102 trap=-\n",
        NO_SLOT,
    ),
    (
        b"run 1",
        b"ran 1 pc=80000000 mode=M world=bare why=done trap=-\n",
        NO_SLOT,
    ),
    (
        b"step 4",
        b"ran 4 pc=80000000 mode=M world=bare why=done trap=-\n",
        NO_SLOT,
    ),
    (b"unwatch 80000102", b"ok\n", NO_SLOT),
    (
        b"run 1",
        b"ran 1 pc=80000004 mode=M world=bare why=watch:80000103 trap=-\n",
        NO_SLOT,
    ),
    (b"unwatch 80000103", b"ok\n", NO_SLOT),
    (b"unwatch 80000103", b"ok\n", NO_SLOT),
    (
        b"run 9",
        b"ran 1 pc=80000000 mode=M world=bare why=break trap=-\n",
        NO_SLOT,
    ),
    (
        b"run 9",
        b"ran 2 pc=80000000 mode=M world=bare why=break trap=-\n",
        NO_SLOT,
    ),
    (b"clear 80000000", b"ok\n", NO_SLOT),
    (
        b"run 9",
        b"ran 9 pc=80000004 mode=M world=bare why=done trap=-\n",
        NO_SLOT,
    ),
];

/// The program is sw x1, 0(x2); jal x0, -4.
#[test]
fn ends_at_watches_and_breaks(rt: HostRuntime) {
    expect_lines(
        &rt,
        rt.alloc(),
        &[0x0011_2023, 0xffdf_f06f],
        ENDS_AT_WATCHES_AND_BREAKS,
    );
}

/// The lines of the test `watches_what_is_accessed`.
const WATCHES_WHAT_IS_ACCESSED: &[Line] = &[
    (b"setreg 2 80000100", b"ok\n", NO_SLOT),
    (b"watch 80000000", b"ok\n", NO_SLOT),
    (b"watch 800000ff", b"ok\n", NO_SLOT),
    (b"watch 80000104", b"ok\n", NO_SLOT),
    (b"watch 80000106", b"ok\n", NO_SLOT),
    (b"watch 80000107", b"ok\n", NO_SLOT),
    (
        b"run 9",
        b"ran 2 pc=80000008 mode=M world=bare why=watch:80000104 trap=-\n",
        NO_SLOT,
    ),
    (
        b"run 9",
        b"ran 1 pc=8000000c mode=M world=bare why=watch:80000106 trap=-\n",
        NO_SLOT,
    ),
    (
        b"run 1",
        b"ran 1 pc=00000000 mode=M world=bare why=done trap=00000002:00000000\n",
        NO_SLOT,
    ),
];

/// A watchpoint stops nothing if its byte is only fetched, or is next to those that are loaded. The program is lw x1, 0(x2); lh x1, 4(x2); lb
/// x1, 6(x2).
#[test]
fn watches_what_is_accessed(rt: HostRuntime) {
    expect_lines(
        &rt,
        rt.alloc(),
        &[0x0001_2083, 0x0041_1083, 0x0061_0083],
        WATCHES_WHAT_IS_ACCESSED,
    );
}

/// The lines of the test `holds_32_breaks_and_32_watches`.
const HOLDS_32_BREAKS_AND_32_WATCHES: &[Line] = &[
    (b"break 20", b"error full\n", NO_SLOT),
    (b"watch ffffffff", b"error full\n", NO_SLOT),
    (b"break 1f", b"ok\n", NO_SLOT),
    (b"watch 0", b"ok\n", NO_SLOT),
    (b"clear 20", b"ok\n", NO_SLOT),
    (b"break 20", b"error full\n", NO_SLOT),
    (b"clear 10", b"ok\n", NO_SLOT),
    (b"break 20", b"ok\n", NO_SLOT),
    (b"unwatch 1f", b"ok\n", NO_SLOT),
    (b"watch ffffffff", b"ok\n", NO_SLOT),
];

#[test]
fn holds_32_breaks_and_32_watches(rt: HostRuntime) {
    let mut bench = with_words(&rt, rt.alloc(), &[0x0000_0013]);
    for number in 0..32 {
        let address = (number * 7) % 32;
        expect_reply(&rt, &mut bench, &Command::Break(address), b"ok\n");
        expect_reply(&rt, &mut bench, &Command::Watch(address), b"ok\n");
    }
    expect(&rt, &mut bench, HOLDS_32_BREAKS_AND_32_WATCHES);
}

/// The lines of the test `shows_and_changes_the_machine`.
const SHOWS_AND_CHANGES_THE_MACHINE: &[Line] = &[
    (b"", b"", NO_SLOT),
    (b"# run 1", b"", NO_SLOT),
    (b"enclaves", b"", NO_SLOT),
    (
        b"step 1",
        b"ran 1 pc=80000004 mode=M world=bare why=done trap=-\n",
        NO_SLOT,
    ),
    (b"reg 1", b"x1=ffffffff\n", NO_SLOT),
    (b"setreg 0 1", b"ok\n", NO_SLOT),
    (b"reg 0", b"x0=00000000\n", NO_SLOT),
    (b"csr 301", b"csr 301=40141100\n", NO_SLOT),
    (b"csr 7a0", b"error csr\n", NO_SLOT),
    (b"poke 8000ffff a5", b"ok\n", NO_SLOT),
    (b"poke 80010000 a5", b"error outside\n", NO_SLOT),
    (b"mem 8000fffe 2", b"8000fffe: 00 a5\n", NO_SLOT),
    (b"mem 8000ffff 2", b"error outside\n", NO_SLOT),
    (
        b"dis 80000000",
        b"80000000: fff00093 addi x1, x0, -1\n",
        NO_SLOT,
    ),
    (b"access M r 80000000 4", b"allowed free\n", NO_SLOT),
    (b"timer on", b"ok\n", NO_SLOT),
];

/// The program is addi x1, x0, -1.
#[test]
fn shows_and_changes_the_machine(rt: HostRuntime) {
    let mut bench = with_words(&rt, rt.alloc(), &[0xfff0_0093]);
    expect(&rt, &mut bench, SHOWS_AND_CHANGES_THE_MACHINE);
    let regs_len = 418;
    expect_len(&rt, &mut bench, &Command::Regs, regs_len);
    let pmp_len = 438;
    expect_len(&rt, &mut bench, &Command::Pmp, pmp_len);
}

/// The lines of the test `has_hart_0_alone`.
const HAS_HART_0_ALONE: &[Line] = &[
    (b"hart 0", b"ok\n", NO_SLOT),
    (b"hart 1", b"error hart\n", NO_SLOT),
    (b"csr f14", b"csr f14=00000000\n", NO_SLOT),
    (b"break 80000004", b"ok\n", NO_SLOT),
    (b"watch 80000104", b"ok\n", NO_SLOT),
    (b"setreg 2 80000100", b"ok\n", NO_SLOT),
    (
        b"sched 00",
        b"hart 0 2 pc=80000008 mode=M world=bare trap=-\n",
        NO_SLOT,
    ),
    (b"sched 01", b"error hart\n", NO_SLOT),
    (
        b"sched 0",
        b"hart 0 1 pc=00000000 mode=M world=bare trap=00000002:00000000\n",
        NO_SLOT,
    ),
    (
        b"sched 0000",
        b"hart 0 4 pc=00000000 mode=M world=bare trap=00000001:00000000\n",
        NO_SLOT,
    ),
];

/// A hart that does not exist is refused, and nothing is done. A schedule stops at no watchpoint and no breakpoint. The program is
/// lw x1, 4(x2); addi x1, x0, -1.
#[test]
fn has_hart_0_alone(rt: HostRuntime) {
    let words = &[0x0041_2083, 0xfff0_0093];
    expect_lines(&rt, rt.alloc(), words, HAS_HART_0_ALONE);
}

/// The lines of the test `reports_the_errors_of_lines`.
const REPORTS_THE_ERRORS_OF_LINES: &[Line] = &[
    (b"fly", b"error command\n", NO_SLOT),
    (b"break", b"error operand\n", NO_SLOT),
    (&[b'#'; 121], b"error line\n", NO_SLOT),
    (b"run 1\r", b"error line\n", NO_SLOT),
    (b"regs 1", b"error operand\n", NO_SLOT),
];

#[test]
fn reports_the_errors_of_lines(rt: HostRuntime) {
    expect_lines(&rt, rt.alloc(), &[0xfff0_0093], REPORTS_THE_ERRORS_OF_LINES);
}

/// The program is jal x0, 0.
#[test]
fn runs_commands(rt: HostRuntime) {
    let mut bench = with_words(&rt, rt.alloc(), &[0x0000_006f]);
    let largest_count = StepCount::new(1_000_000).expect(&rt, "a million steps");
    let ran = b"ran 1000000 pc=80000000 mode=M world=bare why=done trap=-\n";
    expect_reply(&rt, &mut bench, &Command::Run(largest_count), ran);
    let reg = Reg::new(31);
    expect_reply(&rt, &mut bench, &Command::SetReg(reg, 7), b"ok\n");
    expect_reply(&rt, &mut bench, &Command::Reg(reg), b"x31=00000007\n");
}

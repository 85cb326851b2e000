//! Tests of the parser: the command of a line, or its first error.

use rv_encoding::CsrNumber;
use rv_pmp::{Access, Mode};
use rv_script::{ByteCount, Command, CommandFault, Schedule, StepCount, parse};
use rv_word::{Reg, Width};
use std::process::Abort;

/// Expects that a line is parsed as this command. The assertion is in a function of its own, because it would lengthen the proof of each test.
fn expect_command(rt: &impl Abort, line: &[u8], want: Command) {
    assert_eq!(rt; parse(line), Ok(want));
}

/// Expects the first error of a line.
fn expect_fault(rt: &impl Abort, line: &[u8], want: CommandFault) {
    assert_eq!(rt; parse(line), Err(want));
}

/// Expects that the operands of each line are invalid for its command.
fn expect_bad_operands(rt: &impl Abort, lines: &[&[u8]]) {
    for line in lines {
        expect_fault(rt, line, CommandFault::BadOperand);
    }
}

#[test]
fn reads_commands_of_addresses(rt: HostRuntime) {
    expect_command(&rt, b"break 8000000e", Command::Break(0x8000_000e));
    expect_command(&rt, b"clear 0", Command::Clear(0));
    expect_command(&rt, b"watch 0xF", Command::Watch(15));
    expect_command(&rt, b"unwatch ffffffff", Command::Unwatch(u32::MAX));
    expect_command(&rt, b"poke 80000000 aB", Command::Poke(0x8000_0000, 0xab));
    expect_command(&rt, b"dis 0x8000000E", Command::Dis(0x8000_000e));
}

#[test]
fn reads_commands_of_names(rt: HostRuntime) {
    expect_command(&rt, b"enclaves", Command::Enclaves);
    expect_command(&rt, b"regs", Command::Regs);
    expect_command(&rt, b"pmp", Command::Pmp);
    expect_command(&rt, b"timer on", Command::Timer(true));
    expect_command(&rt, b"timer off", Command::Timer(false));
    expect_command(&rt, b" \t", Command::Blank);
    expect_command(&rt, b"# x", Command::Blank);
}

#[test]
fn reads_commands_of_ranged_operands(rt: HostRuntime) {
    let one = StepCount::new(1).expect(&rt, "one step");
    let four = ByteCount::new(4).expect(&rt, "four bytes");
    expect_command(&rt, b"step 1", Command::Step(one));
    expect_command(&rt, b"run 1", Command::Run(one));
    expect_command(&rt, b"mem 8000000e 4", Command::Mem(0x8000_000e, four));
    expect_command(&rt, b"reg 1", Command::Reg(Reg::new(1)));
    expect_command(&rt, b"setreg 5 0x1F", Command::SetReg(Reg::new(5), 0x1f));
    expect_command(&rt, b"csr 341", Command::Csr(CsrNumber::new(0x341)));
}

/// 64 digits, the maximal number of a schedule.
const MOST: &[u8] = b"0110100110010110100101100110100110010110011010010110100110010110";

/// Expects that a line is parsed as the command with this schedule.
fn expect_schedule(rt: &impl Abort, line: &[u8], digits: &[u8]) {
    let schedule = Schedule::new(digits).expect(rt, "a schedule");
    expect_command(rt, line, Command::Sched(schedule));
}

#[test]
fn reads_harts_and_schedules(rt: HostRuntime) {
    expect_command(&rt, b"hart 0", Command::Hart(0));
    expect_command(&rt, b"hart\t1", Command::Hart(1));
    expect_schedule(&rt, b"sched 0", b"0");
    expect_schedule(&rt, b"sched 1", b"1");
    expect_schedule(&rt, b"sched 011 ", b"011");
    expect_schedule(
        &rt,
        b"sched 0110100110010110100101100110100110010110011010010110100110010110",
        MOST,
    );
}

/// The inputs of the test `refuses_operands_of_hart_and_sched`.
const BAD_OPERANDS_OF_HARTS: &[&[u8]] = &[
    b"hart",
    b"hart 2",
    b"hart 00",
    b"hart 01",
    b"hart 10",
    b"hart x",
    b"hart 0 1",
    b"sched",
    b"sched 2",
    b"sched 012",
    b"sched 0x1",
    b"sched 0 1",
    b"sched 01101001100101101001011001101001100101100110100101101001100101100",
];

#[test]
fn refuses_operands_of_hart_and_sched(rt: HostRuntime) {
    expect_bad_operands(&rt, BAD_OPERANDS_OF_HARTS);
    expect_fault(&rt, b"Hart 0", CommandFault::UnknownCommand);
    expect_fault(&rt, b"SCHED 0", CommandFault::UnknownCommand);
    assert!(rt; Schedule::new(b"").is_none());
}

/// The inputs of the test `reads_accesses`.
const ACCESSES: &[(&[u8], Mode, Access, Width)] = &[
    (b"access M r 8000000e 4", Mode::M, Access::Read, Width::Word),
    (
        b"access S w 8000000e 2",
        Mode::S,
        Access::Write,
        Width::Half,
    ),
    (
        b"access U x 0x8000000E 1",
        Mode::U,
        Access::Fetch,
        Width::Byte,
    ),
    (b"access U r 8000000e 2", Mode::U, Access::Read, Width::Half),
    (
        b" access\tM x 8000000e 4 ",
        Mode::M,
        Access::Fetch,
        Width::Word,
    ),
];

#[test]
fn reads_accesses(rt: HostRuntime) {
    for (line, mode, access, width) in ACCESSES {
        let want = Command::Access {
            mode: *mode,
            access: *access,
            address: 0x8000_000e,
            width: *width,
        };
        expect_command(&rt, line, want);
    }
}

/// The inputs of the test `refuses_operands_of_pmp_and_access`.
const BAD_OPERANDS: &[&[u8]] = &[
    b"pmp 0",
    b"access",
    b"access M r 80000000",
    b"access M r 80000000 4 4",
    b"access m r 80000000 4",
    b"access H r 80000000 4",
    b"access M R 80000000 4",
    b"access M rw 80000000 4",
    b"access r M 80000000 4",
    b"access M r 0X80000000 4",
    b"access M r 180000000 4",
    b"access M r 80000000 04",
    b"access M r 80000000 3",
    b"access M r 80000000 8",
];

#[test]
fn refuses_operands_of_pmp_and_access(rt: HostRuntime) {
    expect_bad_operands(&rt, BAD_OPERANDS);
    expect_fault(&rt, b"PMP", CommandFault::UnknownCommand);
    expect_fault(&rt, b"Access M r 0 4", CommandFault::UnknownCommand);
}

/// The inputs of the test `finds_the_first_fault`.
const BAD_OPERANDS_OF_OTHERS: &[&[u8]] = &[
    b"step 0",
    b"reg 32",
    b"regs 1",
    b"run 0",
    b"break",
    b"clear all",
    b"watch 80000000 4",
    b"unwatch 0X1",
    b"poke 80000000 100",
    b"poke 80000000 0x1",
    b"enclaves 1",
    b"setreg 32 0",
    b"setreg 1 100000000",
    b"csr 0x300",
    b"dis",
    b"dis 80000000 4",
    b"timer maybe",
];

#[test]
fn finds_the_first_fault(rt: HostRuntime) {
    expect_bad_operands(&rt, BAD_OPERANDS_OF_OTHERS);
    expect_fault(&rt, b"fly", CommandFault::UnknownCommand);
    expect_command(&rt, &[b'#'; 120], Command::Blank);
    expect_fault(&rt, &[b'#'; 121], CommandFault::BadLine);
    assert!(rt; CommandFault::BadLine.number() == 1);
}

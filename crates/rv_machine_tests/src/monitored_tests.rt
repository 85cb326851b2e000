//! Tests of lines of a monitored bench, which create, enter, exit and destroy enclaves.

use crate::benches::{Line, NO_SLOT, SLOT_0, SLOT_1, expect, poke_words};
use rv_debug::Bench;
use rv_fast_path::BoxedCache;
use rv_memory::Ram;
use rv_monitor::{Harts, MonitoredMachine};
use std::alloc::Global;
use std::process::Abort;

/// The first address of the host.
const FIRST: u32 = 0x8001_0000;

/// The word of ecall.
const ECALL: u32 = 0x73;

/// The word of lw x5, 0(x6).
const LOAD_X5_FROM_X6: u32 = 0x0003_2283;

/// Returns a bench over a monitored machine. The hosts of its harts start with the words of a program.
fn bench_of(rt: &impl Abort, alloc: Global, words: &[u32], harts: Harts) -> Bench {
    let mut ram = Ram::new(alloc, 1_048_576).expect(rt, "a RAM");
    poke_words(&mut ram, FIRST, words);
    let mut machine = MonitoredMachine::new(ram, FIRST, harts);
    machine.set_decode_cache(BoxedCache::allocate(alloc));
    Bench::monitored(machine)
}

/// Gives lines to a monitored bench whose host starts with four ecalls. The first ecall creates an enclave.
fn expect_created(rt: &impl Abort, alloc: Global, lines: &[Line]) {
    let mut bench = bench_of(rt, alloc, &[ECALL; 4], Harts::One);
    expect(rt, &mut bench, &[(b"enclaves", b"", NO_SLOT)]);
    expect(rt, &mut bench, CREATE);
    expect(rt, &mut bench, lines);
}

/// Gives lines to a bench of two harts, whose hosts start with two ecalls and lw x5, 0(x6). The first ecall of hart 0 creates an enclave.
fn expect_two_harts(rt: &impl Abort, alloc: Global, lines: &[Line]) {
    let mut bench = bench_of(rt, alloc, &[ECALL, ECALL, LOAD_X5_FROM_X6], Harts::Two);
    expect(rt, &mut bench, CREATE);
    expect(rt, &mut bench, lines);
}

/// The registers of a call to create an enclave of 4096 bytes at 80020000, without a window, and the call.
const CREATE: &[Line] = &[
    (b"setreg 17 0a454e43", b"ok\n", NO_SLOT),
    (b"setreg 16 1", b"ok\n", NO_SLOT),
    (b"setreg 10 80020000", b"ok\n", NO_SLOT),
    (b"setreg 11 1000", b"ok\n", NO_SLOT),
    (b"setreg 14 80020000", b"ok\n", NO_SLOT),
    (
        b"step 1",
        b"ran 1 pc=80010004 mode=S world=host why=done trap=00000009:00000000\n",
        NO_SLOT,
    ),
];

/// The lines of the test `shows_the_world_and_the_enclaves`.
const SHOWS_THE_WORLD_AND_THE_ENCLAVES: &[Line] = &[
    (
        b"enclaves",
        b"enclave 0 Fresh 80020000 00001000 00000000 00000000 80020000 \
        b72e8d278cd05a0f5288f8ada3f430f62d4995d24f5198d6495796bbbcb97390\n",
        NO_SLOT,
    ),
    (b"poke 80020000 13", b"ok\n", NO_SLOT),
    (b"setreg 16 3", b"ok\n", NO_SLOT),
    (b"setreg 10 0", b"ok\n", NO_SLOT),
    (
        b"step 1",
        b"ran 1 pc=80020000 mode=S world=e0 why=done trap=00000009:00000000\n",
        SLOT_0,
    ),
    (
        b"enclaves",
        b"enclave 0 Running 80020000 00001000 00000000 00000000 80020000 \
        b72e8d278cd05a0f5288f8ada3f430f62d4995d24f5198d6495796bbbcb97390\n",
        NO_SLOT,
    ),
    (b"timer on", b"ok\n", NO_SLOT),
    (
        b"run 1",
        b"ran 1 pc=80010008 mode=S world=host why=done trap=80000007:00000000\n",
        NO_SLOT,
    ),
    (
        b"enclaves",
        b"enclave 0 Stopped 80020000 00001000 00000000 00000000 80020000 \
        b72e8d278cd05a0f5288f8ada3f430f62d4995d24f5198d6495796bbbcb97390\n",
        NO_SLOT,
    ),
];

#[test]
fn shows_the_world_and_the_enclaves(rt: HostRuntime) {
    expect_created(&rt, rt.alloc(), SHOWS_THE_WORLD_AND_THE_ENCLAVES);
}

/// The lines of the test `reports_the_slots_entered_in_one_command`.
const REPORTS_THE_SLOTS_ENTERED_IN_ONE_COMMAND: &[Line] = &[
    (b"setreg 10 80022000", b"ok\n", NO_SLOT),
    (b"setreg 11 2000", b"ok\n", NO_SLOT),
    (b"setreg 12 80030000", b"ok\n", NO_SLOT),
    (b"setreg 13 1000", b"ok\n", NO_SLOT),
    (b"setreg 14 80022004", b"ok\n", NO_SLOT),
    (
        b"run 1",
        b"ran 1 pc=80010008 mode=S world=host why=done trap=00000009:00000000\n",
        NO_SLOT,
    ),
    (b"reg 11", b"x11=00000001\n", NO_SLOT),
    (b"setreg 16 3", b"ok\n", NO_SLOT),
    (b"setreg 10 1", b"ok\n", NO_SLOT),
    (b"timer on", b"ok\n", NO_SLOT),
    (
        b"step 2",
        b"ran 2 pc=8001000c mode=S world=host why=done trap=80000007:00000000\n",
        SLOT_1,
    ),
    (
        b"enclaves",
        b"enclave 0 Fresh 80020000 00001000 00000000 00000000 80020000 \
        b72e8d278cd05a0f5288f8ada3f430f62d4995d24f5198d6495796bbbcb97390\n\
        enclave 1 Stopped 80022000 00002000 80030000 00001000 80022004 \
        f69b488af4a36026f2d1787b44bd6208aceb32eaa89601d7d51bab4fc61e54ab\n",
        NO_SLOT,
    ),
    (b"setreg 10 0", b"ok\n", NO_SLOT),
    (
        b"run 1",
        b"ran 1 pc=80020000 mode=S world=e0 why=done trap=00000009:00000000\n",
        SLOT_0,
    ),
];

/// One command enters and leaves an enclave: the timer stops the enclave before the first instruction.
#[test]
fn reports_the_slots_entered_in_one_command(rt: HostRuntime) {
    expect_created(&rt, rt.alloc(), REPORTS_THE_SLOTS_ENTERED_IN_ONE_COMMAND);
}

/// The lines of the test `watches_no_writes_of_the_monitor`.
const WATCHES_NO_WRITES_OF_THE_MONITOR: &[Line] = &[
    (b"poke 80020000 5a", b"ok\n", NO_SLOT),
    (b"watch 80020000", b"ok\n", NO_SLOT),
    (b"watch 80040000", b"ok\n", NO_SLOT),
    (b"setreg 16 5", b"ok\n", NO_SLOT),
    (b"setreg 10 0", b"ok\n", NO_SLOT),
    (b"setreg 11 80040000", b"ok\n", NO_SLOT),
    (
        b"run 1",
        b"ran 1 pc=80010008 mode=S world=host why=done trap=00000009:00000000\n",
        NO_SLOT,
    ),
    (b"mem 80040000 4", b"80040000: b7 2e 8d 27\n", NO_SLOT),
    (b"setreg 16 2", b"ok\n", NO_SLOT),
    (b"setreg 10 0", b"ok\n", NO_SLOT),
    (b"mem 80020000 1", b"80020000: 5a\n", NO_SLOT),
    (
        b"run 1",
        b"ran 1 pc=8001000c mode=S world=host why=done trap=00000009:00000000\n",
        NO_SLOT,
    ),
    (b"mem 80020000 1", b"80020000: 00\n", NO_SLOT),
    (b"enclaves", b"", NO_SLOT),
];

/// A watchpoint on bytes that destroy zeroes and measure writes does not trigger, since these are no loads or stores of an instruction.
#[test]
fn watches_no_writes_of_the_monitor(rt: HostRuntime) {
    expect_created(&rt, rt.alloc(), WATCHES_NO_WRITES_OF_THE_MONITOR);
}

/// The lines of the test `shows_what_is_accessible`.
const SHOWS_WHAT_IS_ACCESSIBLE: &[Line] = &[
    (b"access S r 8001fffc 4", b"allowed entry 15\n", NO_SLOT),
    (b"access S r 8001fffe 4", b"denied partial 1\n", NO_SLOT),
    (b"access U w 80020000 1", b"denied entry 1\n", NO_SLOT),
    (b"access S x 8000fffc 4", b"denied entry 0\n", NO_SLOT),
    (b"access S r 80021000 4", b"allowed entry 15\n", NO_SLOT),
    (b"poke 80020000 z", b"error operand\n", NO_SLOT),
];

/// `access` in mode S is permitted exactly in the memory that the world may access.
#[test]
fn shows_what_is_accessible(rt: HostRuntime) {
    expect_created(&rt, rt.alloc(), SHOWS_WHAT_IS_ACCESSIBLE);
}

/// The lines of the test `has_one_hart`.
const HAS_ONE_HART: &[Line] = &[
    (b"hart 1", b"error hart\n", NO_SLOT),
    (b"sched 010", b"error hart\n", NO_SLOT),
    (b"hart 0", b"ok\n", NO_SLOT),
    (b"csr f14", b"csr f14=00000000\n", NO_SLOT),
    (
        b"sched 00",
        b"hart 0 2 pc=8001000c mode=S world=host trap=00000009:00000000\n",
        NO_SLOT,
    ),
];

/// Example 40, with one hart: a hart that does not exist is refused, and nothing is done.
#[test]
fn has_one_hart(rt: HostRuntime) {
    expect_created(&rt, rt.alloc(), HAS_ONE_HART);
}

/// The lines of the test `has_two_harts`.
const HAS_TWO_HARTS: &[Line] = &[
    (b"poke 80020000 13", b"ok\n", NO_SLOT),
    (b"setreg 16 3", b"ok\n", NO_SLOT),
    (b"setreg 10 0", b"ok\n", NO_SLOT),
    (
        b"step 1",
        b"ran 1 pc=80020000 mode=S world=e0 why=done trap=00000009:00000000\n",
        SLOT_0,
    ),
    (b"csr f14", b"csr f14=00000000\n", NO_SLOT),
    (b"hart 1", b"ok\n", NO_SLOT),
    (b"csr f14", b"csr f14=00000001\n", NO_SLOT),
    (b"reg 10", b"x10=00000001\n", NO_SLOT),
    (b"setreg 17 0a454e43", b"ok\n", NO_SLOT),
    (b"setreg 16 2", b"ok\n", NO_SLOT),
    (b"setreg 10 0", b"ok\n", NO_SLOT),
    (
        b"step 1",
        b"ran 1 pc=80010004 mode=S world=host why=done trap=00000009:00000000\n",
        NO_SLOT,
    ),
    (b"reg 10", b"x10=fffffff8\n", NO_SLOT),
    (b"setreg 10 0", b"ok\n", NO_SLOT),
    (b"setreg 6 80020000", b"ok\n", NO_SLOT),
    (
        b"sched 011",
        b"hart 0 1 pc=80020004 mode=S world=e0 trap=-\n\
        hart 1 2 pc=00000000 mode=S world=host trap=00000005:80020000\n",
        NO_SLOT,
    ),
    (b"csr 3a0", b"csr 3a0=00001818\n", NO_SLOT),
    (b"csr 3a3", b"csr 3a3=1f000000\n", NO_SLOT),
    (b"hart 0", b"ok\n", NO_SLOT),
    (b"csr 3a0", b"csr 3a0=00001f18\n", NO_SLOT),
    (b"csr 3a3", b"csr 3a3=00000000\n", NO_SLOT),
];

/// Example 40: two harts with one memory and one table, each with its own PMP entries.
#[test]
fn has_two_harts(rt: HostRuntime) {
    expect_two_harts(&rt, rt.alloc(), HAS_TWO_HARTS);
}

/// The registers of a call of hart 0 to run the enclave, and of a call of hart 1 to destroy it.
const BOTH_CALL: &[Line] = &[
    (b"setreg 16 3", b"ok\n", NO_SLOT),
    (b"setreg 10 0", b"ok\n", NO_SLOT),
    (b"hart 1", b"ok\n", NO_SLOT),
    (b"setreg 17 0a454e43", b"ok\n", NO_SLOT),
    (b"setreg 16 2", b"ok\n", NO_SLOT),
    (b"setreg 10 0", b"ok\n", NO_SLOT),
    (b"hart 0", b"ok\n", NO_SLOT),
];

/// The lines of the test `steps_harts_in_their_order`.
const DESTROY_FIRST: &[Line] = &[
    (
        b"sched 10",
        b"hart 0 1 pc=80010008 mode=S world=host trap=00000009:00000000\n\
        hart 1 1 pc=80010004 mode=S world=host trap=00000009:00000000\n",
        NO_SLOT,
    ),
    (b"reg 10", b"x10=fffffff9\n", NO_SLOT),
    (b"hart 1", b"ok\n", NO_SLOT),
    (b"reg 10", b"x10=00000000\n", NO_SLOT),
];

/// The lines of the test `steps_harts_in_their_order`.
const RUN_FIRST: &[Line] = &[
    (
        b"sched 01",
        b"hart 0 1 pc=80020000 mode=S world=e0 trap=00000009:00000000\n\
        hart 1 1 pc=80010004 mode=S world=host trap=00000009:00000000\n",
        SLOT_0,
    ),
    (b"hart 1", b"ok\n", NO_SLOT),
    (b"reg 10", b"x10=fffffff8\n", NO_SLOT),
];

/// Gives lines to a bench of two harts. Hart 0 will run the enclave, and hart 1 will destroy it.
fn expect_both_call(rt: &impl Abort, alloc: Global, lines: &[Line]) {
    let mut bench = bench_of(rt, alloc, &[ECALL; 2], Harts::Two);
    expect(rt, &mut bench, CREATE);
    expect(rt, &mut bench, BOTH_CALL);
    expect(rt, &mut bench, lines);
}

/// Example 40: the steps are made in the order of their digits.
#[test]
fn steps_harts_in_their_order(rt: HostRuntime) {
    expect_both_call(&rt, rt.alloc(), DESTROY_FIRST);
    expect_both_call(&rt, rt.alloc(), RUN_FIRST);
}

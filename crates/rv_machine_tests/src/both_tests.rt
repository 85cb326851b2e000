//! Tests of commands that two benches execute, and of the second bench that is made for them. The tables are constants, and each test is a call
//! or two, because tables and benches would lengthen the proof of a test.

use crate::benches::{expect_text, poke_words, with_words};
use rv_debug::{Bench, Both, BothLine, BothWhy, Command, both_command, both_line, parse, run_both};
use rv_fast_path::BoxedCache;
use rv_memory::Ram;
use rv_monitor::{Harts, MonitoredMachine, Slot};
use rv_text::Reply;
use std::alloc::Global;
use std::process::Abort;

/// The first address of the host.
const FIRST: u32 = 0x8001_0000;

/// The word of ecall.
const ECALL: u32 = 0x73;

/// The word of addi x1, x0, -1.
const ADDI_X1_X0_MINUS_1: u32 = 0xfff0_0093;

/// The slot of the enclave whose secret differs.
const SLOT: u32 = 0;

/// One scramble, which succeeds.
const SCRAMBLED_ONCE: (u8, bool) = (1, true);

/// Two scrambles, which succeed.
const SCRAMBLED_TWICE: (u8, bool) = (2, true);

/// One scramble, which is refused.
const REFUSED_ONCE: (u8, bool) = (1, false);

/// No lines for the benches.
const NO_LINES: &[&[u8]] = &[];

/// No lines after the commands.
const NONE_AFTER: &[After] = &[];

/// The way to make a bench.
#[derive(Clone, Copy)]
enum Made {
    /// Without the monitor, with addi x1, x0, -1.
    Bare,
    /// Under the monitor, with no enclave.
    Free,
    /// Under the monitor, with an enclave in slot 0.
    Live,
    /// Under the monitor, with an enclave in slot 0 whose secret is complemented.
    Other,
    /// With two harts, and an enclave in slot 0.
    Two,
}

/// Two benches that differ only in the enclave's secret.
const PAIR: (Made, Made) = (Made::Live, Made::Other);

/// A create of an enclave of 4096 bytes at 80020000, without a window. The host continues at 80010004.
const CREATE: &[&[u8]] = &[
    b"setreg 17 0a454e43",
    b"setreg 16 1",
    b"setreg 10 80020000",
    b"setreg 11 1000",
    b"setreg 14 80020000",
    b"step 1",
];

/// The registers of a call to run the enclave of slot 0.
const RUN: &[&[u8]] = &[b"setreg 17 0a454e43", b"setreg 16 3", b"setreg 10 0"];

/// A command for two benches, the reason why the command ends, and the replies of the first bench and of the second.
type Row = (&'static [u8], BothWhy, &'static [u8], &'static [u8]);

/// A line that each bench executes alone, and the replies of the first bench and of the second.
type After = (&'static [u8], &'static [u8], &'static [u8]);

/// Gives lines to a bench, and ignores its replies.
fn give(bench: &mut Bench, lines: &[&[u8]]) {
    let mut reply = Reply::new();
    for line in lines {
        let _ = bench.execute_line(line, &mut reply);
    }
}

/// Returns a bench of 196608 bytes under the monitor, whose host starts with four ecalls.
fn bench_of_calls(rt: &impl Abort, alloc: Global, harts: Harts) -> Bench {
    let mut ram = Ram::new(alloc, 196_608).expect(rt, "a RAM");
    poke_words(&mut ram, FIRST, &[ECALL; 4]);
    let mut machine = MonitoredMachine::new(ram, FIRST, harts);
    machine.set_decode_cache(BoxedCache::allocate(alloc));
    Bench::monitored(machine)
}

/// Returns a bench with an enclave in slot 0.
fn bench_with_enclave(rt: &impl Abort, alloc: Global, harts: Harts) -> Bench {
    let mut bench = bench_of_calls(rt, alloc, harts);
    give(&mut bench, CREATE);
    bench
}

/// Returns the slot with a number.
fn slot(rt: &impl Abort, number: u32) -> Slot {
    Slot::new(number).expect(rt, "a slot")
}

/// Makes a bench, and gives it lines.
fn bench_of(rt: &impl Abort, alloc: Global, made: Made, lines: &[&[u8]]) -> Bench {
    let mut bench = match made {
        Made::Bare => with_words(rt, alloc, &[ADDI_X1_X0_MINUS_1]),
        Made::Free => bench_of_calls(rt, alloc, Harts::One),
        Made::Live | Made::Other => bench_with_enclave(rt, alloc, Harts::One),
        Made::Two => bench_with_enclave(rt, alloc, Harts::Two),
    };
    if let Made::Other = made {
        assert!(rt; bench.scramble(slot(rt, 0)));
    }
    give(&mut bench, lines);
    bench
}

/// Gives a line to a bench, and expects this reply.
fn expect_reply(rt: &impl Abort, bench: &mut Bench, line: &[u8], wanted: &[u8]) {
    let mut reply = Reply::new();
    let _ = bench.execute_line(line, &mut reply);
    expect_text(rt, &reply, wanted);
}

/// Gives lines to each of two benches by itself, and expects their replies.
fn expect_after(rt: &impl Abort, a: &mut Bench, b: &mut Bench, after: &[After]) {
    for (line, first, second) in after {
        expect_reply(rt, a, line, first);
        expect_reply(rt, b, line, second);
    }
}

/// Gives a command to two benches, and expects its outcome.
fn expect_row(rt: &impl Abort, a: &mut Bench, b: &mut Bench, number: u32, row: &Row) {
    let (line, why, wanted_first, wanted_second) = *row;
    // the old content of the buffers is replaced
    let mut first = Reply::new();
    let mut second = Reply::new();
    first.push(b'?');
    second.push(b'?');
    let command = parse(line).expect(rt, "a command");
    let slot = slot(rt, number);
    let found = both_command(a, b, slot, &command, &mut first, &mut second);
    assert!(rt; found == why, "{number}");
    expect_text(rt, &first, wanted_first);
    expect_text(rt, &second, wanted_second);
}

/// Gives lines to each of two benches, then commands to both, one by one, and then lines to each again.
fn expect_both(
    rt: &impl Abort,
    alloc: Global,
    made: (Made, Made),
    lines: &[&[u8]],
    number: u32,
    rows: &[Row],
    after: &[After],
) {
    let mut a = bench_of(rt, alloc, made.0, lines);
    let mut b = bench_of(rt, alloc, made.1, lines);
    for row in rows {
        expect_row(rt, &mut a, &mut b, number, row);
    }
    expect_after(rt, &mut a, &mut b, after);
}

/// Returns the commands of at most four lines.
fn commands_of(rt: &impl Abort, lines: &[&[u8]]) -> [Command; 4] {
    let mut commands = [Command::Blank; 4];
    for (command, line) in commands.iter_mut().zip(lines) {
        *command = parse(line).expect(rt, "a command");
    }
    commands
}

/// Gives a list of commands to a pair of benches, and then lines to each.
fn expect_list(rt: &impl Abort, alloc: Global, lines: &[&[u8]], wanted: Both, after: &[After]) {
    let mut a = bench_of(rt, alloc, PAIR.0, NO_LINES);
    let mut b = bench_of(rt, alloc, PAIR.1, NO_LINES);
    let commands = commands_of(rt, lines);
    let list = commands.get(..lines.len()).expect(rt, "at most four");
    let slot = slot(rt, 0);
    assert!(rt; run_both(&mut a, &mut b, slot, list) == wanted);
    expect_after(rt, &mut a, &mut b, after);
}

/// Gives lines to a bench, scrambles it several times, expects the same result each time, and gives it lines again.
fn expect_scrambled(
    rt: &impl Abort,
    alloc: Global,
    (made, lines): (Made, &[&[u8]]),
    number: u32,
    (times, wanted): (u8, bool),
    after: &[After],
) {
    let mut bench = bench_of(rt, alloc, made, lines);
    for _ in 0..times {
        assert!(rt; bench.scramble(slot(rt, number)) == wanted, "{number}");
    }
    for (line, reply, _) in after {
        expect_reply(rt, &mut bench, line, reply);
    }
}

/// The line of `enclaves` for a new enclave with the region 80020000 of 4096 bytes.
const FRESH: &[u8] = b"enclave 0 Fresh 80020000 00001000 00000000 00000000 80020000 \
    b72e8d278cd05a0f5288f8ada3f430f62d4995d24f5198d6495796bbbcb97390\n";

/// The rows of the test `alike_benches_reply_alike`.
const ALIKE: &[Row] = &[
    (b"enclaves", BothWhy::All, FRESH, FRESH),
    (
        b"reg 10",
        BothWhy::All,
        b"x10=00000000\n",
        b"x10=00000000\n",
    ),
    (
        b"reg 14",
        BothWhy::All,
        b"x14=80020000\n",
        b"x14=80020000\n",
    ),
    (
        b"access S r 80020000 4",
        BothWhy::All,
        b"denied entry 1\n",
        b"denied entry 1\n",
    ),
];

/// The benches are equal except for the region and the saved registers, and so are the replies that show other state.
#[test]
fn alike_benches_reply_alike(rt: HostRuntime) {
    expect_both(&rt, rt.alloc(), PAIR, NO_LINES, SLOT, ALIKE, NONE_AFTER);
}

/// The rows of the test `a_command_next_to_the_region_is_blind`.
const NEXT_TO_THE_REGION: &[Row] = &[
    (b"poke 8001ffff 5a", BothWhy::All, b"ok\n", b"ok\n"),
    (
        b"mem 8001fffe 2",
        BothWhy::All,
        b"8001fffe: 00 5a\n",
        b"8001fffe: 00 5a\n",
    ),
    (
        b"dis 8001fffc",
        BothWhy::All,
        b"8001fffc: 5a000000 .word 0x5a000000\n",
        b"8001fffc: 5a000000 .word 0x5a000000\n",
    ),
    (b"poke 80021000 a5", BothWhy::All, b"ok\n", b"ok\n"),
    (
        b"mem 80021000 2",
        BothWhy::All,
        b"80021000: a5 00\n",
        b"80021000: a5 00\n",
    ),
    (
        b"dis 80021000",
        BothWhy::All,
        b"80021000: 000000a5 .word 0x000000a5\n",
        b"80021000: 000000a5 .word 0x000000a5\n",
    ),
];

/// A command whose bytes end directly before the region, or start directly after it, is executed.
#[test]
fn a_command_next_to_the_region_is_blind(rt: HostRuntime) {
    expect_both(
        &rt,
        rt.alloc(),
        PAIR,
        NO_LINES,
        SLOT,
        NEXT_TO_THE_REGION,
        NONE_AFTER,
    );
}

/// The rows of the test `what_names_a_byte_of_the_region_is_not_blind`.
const INSIDE: &[Row] = &[
    (b"mem 80020000 1", BothWhy::NotBlind, b"", b""),
    (b"mem 8001ffff 2", BothWhy::NotBlind, b"", b""),
    (b"mem 80020fff 64", BothWhy::NotBlind, b"", b""),
    (b"dis 8001fffd", BothWhy::NotBlind, b"", b""),
    (b"dis 80020fff", BothWhy::NotBlind, b"", b""),
    (b"poke 80020000 11", BothWhy::NotBlind, b"", b""),
    (b"poke 80020fff 11", BothWhy::NotBlind, b"", b""),
];

/// The first and the last byte of the region, which differ in the two benches.
const SECRETS: &[After] = &[
    (b"mem 80020000 1", b"80020000: 00\n", b"80020000: ff\n"),
    (b"mem 80020fff 1", b"80020fff: 00\n", b"80020fff: ff\n"),
];

/// A command with one byte of the region, at either end, is not executed. Both replies are empty.
#[test]
fn what_names_a_byte_of_the_region_is_not_blind(rt: HostRuntime) {
    expect_both(&rt, rt.alloc(), PAIR, NO_LINES, SLOT, INSIDE, SECRETS);
}

/// The rows of the test `a_free_slot_hides_nothing`.
const SHOWN: &[Row] = &[(
    b"mem 80020000 1",
    BothWhy::All,
    b"80020000: 00\n",
    b"80020000: ff\n",
)];

/// A slot without a live enclave has no region. Both benches show the bytes in which they differ.
#[test]
fn a_free_slot_hides_nothing(rt: HostRuntime) {
    for number in [1, 12] {
        expect_both(&rt, rt.alloc(), PAIR, NO_LINES, number, SHOWN, NONE_AFTER);
    }
}

/// The rows of the test `a_command_must_be_blind_in_both_benches`.
const IN_ONE: &[Row] = &[
    (b"mem 80020000 1", BothWhy::NotBlind, b"", b""),
    (b"poke 80020000 11", BothWhy::NotBlind, b"", b""),
];

/// The first byte of the region, which is 0 in both benches.
const ZEROS: &[After] = &[(b"mem 80020000 1", b"80020000: 00\n", b"80020000: 00\n")];

/// If the byte is in the region of only one bench, neither executes the command.
#[test]
fn a_command_must_be_blind_in_both_benches(rt: HostRuntime) {
    for made in [(Made::Live, Made::Free), (Made::Free, Made::Live)] {
        expect_both(&rt, rt.alloc(), made, NO_LINES, SLOT, IN_ONE, ZEROS);
    }
}

/// The rows of the test `faults_and_blanks_are_replies`.
const FAULTS: &[Row] = &[
    (b"csr 7a0", BothWhy::All, b"error csr\n", b"error csr\n"),
    (
        b"mem 8002ffff 2",
        BothWhy::All,
        b"error outside\n",
        b"error outside\n",
    ),
    (b"# mem 80020000 1", BothWhy::All, b"", b""),
    (b"", BothWhy::All, b"", b""),
];

/// A command that is refused for another reason, or that has no reply, counts as executed.
#[test]
fn faults_and_blanks_are_replies(rt: HostRuntime) {
    expect_both(&rt, rt.alloc(), PAIR, NO_LINES, SLOT, FAULTS, NONE_AFTER);
}

/// The reply to a step of a bench without the monitor.
const BARE_RAN: &[u8] = b"ran 1 pc=80000004 mode=M world=bare why=done trap=-\n";

/// The rows of the test `bare_benches_do_all`.
const ALL_BARE: &[Row] = &[
    (b"step 1", BothWhy::All, BARE_RAN, BARE_RAN),
    (b"reg 1", BothWhy::All, b"x1=ffffffff\n", b"x1=ffffffff\n"),
    (
        b"mem 80000000 4",
        BothWhy::All,
        b"80000000: 93 00 f0 ff\n",
        b"80000000: 93 00 f0 ff\n",
    ),
];

/// A bench without the monitor has no enclave.
#[test]
fn bare_benches_do_all(rt: HostRuntime) {
    let made = (Made::Bare, Made::Bare);
    expect_both(&rt, rt.alloc(), made, NO_LINES, SLOT, ALL_BARE, NONE_AFTER);
}

/// The reply to a step that enters the enclave.
const ENTERED: &[u8] = b"ran 1 pc=80020000 mode=S world=e0 why=done trap=00000009:00000000\n";

/// The rows of the test `an_entry_is_reported`.
const ENTERS: &[Row] = &[(b"step 1", BothWhy::Entered, ENTERED, ENTERED)];

/// The step of the call ends in the enclave, at its entry, in both benches.
#[test]
fn an_entry_is_reported(rt: HostRuntime) {
    expect_both(&rt, rt.alloc(), PAIR, RUN, SLOT, ENTERS, NONE_AFTER);
}

/// The reply to two steps: the first enters the enclave, and the timer stops it in the second.
const LEFT: &[u8] = b"ran 2 pc=80010008 mode=S world=host why=done trap=80000007:00000000\n";

/// The rows of the test `an_entry_within_a_command_is_reported`.
const ENTERS_AND_LEAVES: &[Row] = &[
    (b"timer on", BothWhy::All, b"ok\n", b"ok\n"),
    (b"step 2", BothWhy::Entered, LEFT, LEFT),
];

/// The timer stops the enclave before its first instruction, so the host runs both before and after the command.
#[test]
fn an_entry_within_a_command_is_reported(rt: HostRuntime) {
    expect_both(
        &rt,
        rt.alloc(),
        PAIR,
        RUN,
        SLOT,
        ENTERS_AND_LEAVES,
        NONE_AFTER,
    );
}

/// The registers of a call of hart 0 to run the enclave, and the selection of hart 1.
const RUN_ON_HART_0: &[&[u8]] = &[
    b"setreg 17 0a454e43",
    b"setreg 16 3",
    b"setreg 10 0",
    b"hart 1",
];

/// The reply to a step of each hart: the step of hart 0 enters the enclave.
const ENTERED_ON_HART_0: &[u8] = b"hart 0 1 pc=80020000 mode=S world=e0 trap=00000009:00000000\n\
    hart 1 1 pc=80010004 mode=S world=host trap=00000009:00000000\n";

/// The rows of the test `an_entry_on_the_other_hart_is_reported`.
const ENTERS_ON_HART_0: &[Row] = &[(
    b"sched 01",
    BothWhy::Entered,
    ENTERED_ON_HART_0,
    ENTERED_ON_HART_0,
)];

/// The rows of the test `an_entry_on_the_other_hart_is_reported`.
const ON_HART_1: &[After] = &[(b"csr f14", b"csr f14=00000001\n", b"csr f14=00000001\n")];

/// A step of the hart that is not selected enters the slot, and the next step does not.
#[test]
fn an_entry_on_the_other_hart_is_reported(rt: HostRuntime) {
    let made = (Made::Two, Made::Two);
    expect_both(
        &rt,
        rt.alloc(),
        made,
        RUN_ON_HART_0,
        SLOT,
        ENTERS_ON_HART_0,
        ON_HART_1,
    );
}

/// The rows of the test `an_entry_of_another_slot_is_none`.
const ENTERS_ANOTHER: &[Row] = &[(b"step 1", BothWhy::All, ENTERED, ENTERED)];

/// Only the given slot counts.
#[test]
fn an_entry_of_another_slot_is_none(rt: HostRuntime) {
    let made = (Made::Live, Made::Live);
    for number in [1, 12] {
        expect_both(
            &rt,
            rt.alloc(),
            made,
            RUN,
            number,
            ENTERS_ANOTHER,
            NONE_AFTER,
        );
    }
}

/// The reply to a step with a call that is refused.
const REFUSED: &[u8] = b"ran 1 pc=80010004 mode=S world=host why=done trap=00000009:00000000\n";

/// The rows of the test `an_entry_in_either_bench_counts`.
const FIRST_ENTERS: &[Row] = &[(b"step 1", BothWhy::Entered, ENTERED, REFUSED)];

/// The rows of the test `an_entry_in_either_bench_counts`.
const SECOND_ENTERS: &[Row] = &[(b"step 1", BothWhy::Entered, REFUSED, ENTERED)];

/// An entry in one bench is enough. The other bench has no enclave to run; it refuses the call and continues after it.
#[test]
fn an_entry_in_either_bench_counts(rt: HostRuntime) {
    let made = (Made::Live, Made::Free);
    expect_both(&rt, rt.alloc(), made, RUN, SLOT, FIRST_ENTERS, NONE_AFTER);
    let made = (Made::Free, Made::Live);
    expect_both(&rt, rt.alloc(), made, RUN, SLOT, SECOND_ENTERS, NONE_AFTER);
}

/// The inputs of the test `a_list_passes_by`.
const PASSING: &[&[u8]] = &[b"setreg 5 7", b"", b"csr 7a0", b"poke 80021000 a5"];

/// The rows of the test `a_list_passes_by`.
const PASSED: &[After] = &[
    (b"reg 5", b"x5=00000007\n", b"x5=00000007\n"),
    (b"mem 80021000 1", b"80021000: a5\n", b"80021000: a5\n"),
    (b"mem 80020000 1", b"80020000: 00\n", b"80020000: ff\n"),
];

/// Each command that was executed is counted, including one without a reply and one that is refused. Its effects are visible.
#[test]
fn a_list_passes_by(rt: HostRuntime) {
    let why = BothWhy::All;
    expect_list(&rt, rt.alloc(), NO_LINES, Both { ran: 0, why }, SECRETS);
    expect_list(&rt, rt.alloc(), PASSING, Both { ran: 4, why }, PASSED);
}

/// The inputs of the test `a_list_stops_before_one_that_is_not_blind`.
const SEEING: &[&[u8]] = &[b"setreg 5 7", b"poke 80020000 11", b"setreg 5 8"];

/// The rows of the test `a_list_stops_before_one_that_is_not_blind`.
const STOPPED: &[After] = &[
    (b"reg 5", b"x5=00000007\n", b"x5=00000007\n"),
    (b"mem 80020000 1", b"80020000: 00\n", b"80020000: ff\n"),
];

/// The next command is neither executed nor counted, nor are those after it.
#[test]
fn a_list_stops_before_one_that_is_not_blind(rt: HostRuntime) {
    let why = BothWhy::NotBlind;
    expect_list(&rt, rt.alloc(), SEEING, Both { ran: 1, why }, STOPPED);
}

/// The inputs of the test `a_list_stops_at_the_entry`.
const ENTERING: &[&[u8]] = &[b"setreg 16 3", b"setreg 10 0", b"step 1", b"setreg 10 8"];

/// The rows of the test `a_list_stops_at_the_entry`.
const IN_THE_ENCLAVE: &[After] = &[
    (b"reg 10", b"x10=80020000\n", b"x10=7ffdffff\n"),
    (b"reg 5", b"x5=00000000\n", b"x5=ffffffff\n"),
];

/// The command that enters is executed and counted, and no command after it is. The enclave then has its region's base in a0, or the complement
/// of it.
#[test]
fn a_list_stops_at_the_entry(rt: HostRuntime) {
    let why = BothWhy::Entered;
    expect_list(
        &rt,
        rt.alloc(),
        ENTERING,
        Both { ran: 3, why },
        IN_THE_ENCLAVE,
    );
}

/// The inputs of the test `a_list_may_end_the_enclave`.
const ENDING: &[&[u8]] = &[b"setreg 16 2", b"setreg 10 0", b"step 1", b"mem 80020000 4"];

/// The rows of the test `a_list_may_end_the_enclave`.
const ENDED: &[After] = &[
    (b"enclaves", b"", b""),
    (
        b"mem 80020ffc 4",
        b"80020ffc: 00 00 00 00\n",
        b"80020ffc: 00 00 00 00\n",
    ),
];

/// A destroy zeroes the region, which then belongs to no enclave. A command with its bytes is blind, and the benches are equal.
#[test]
fn a_list_may_end_the_enclave(rt: HostRuntime) {
    let why = BothWhy::All;
    expect_list(&rt, rt.alloc(), ENDING, Both { ran: 4, why }, ENDED);
}

/// The inputs of the test `scramble_complements_the_region`.
const POKES: &[&[u8]] = &[b"poke 80020000 5a", b"poke 80021000 5a"];

/// The rows of the test `scramble_complements_the_region`.
const ONCE: &[After] = &[
    (b"mem 8001ffff 3", b"8001ffff: 00 a5 ff\n", b""),
    (b"mem 80020fff 2", b"80020fff: ff 5a\n", b""),
];

/// The rows of the test `scramble_complements_the_region`.
const TWICE: &[After] = &[
    (b"mem 8001ffff 3", b"8001ffff: 00 5a 00\n", b""),
    (b"mem 80020fff 2", b"80020fff: 00 5a\n", b""),
];

/// Each byte of the region is complemented, and no other. Scrambling twice restores the bench.
#[test]
fn scramble_complements_the_region(rt: HostRuntime) {
    expect_scrambled(
        &rt,
        rt.alloc(),
        (Made::Live, POKES),
        SLOT,
        SCRAMBLED_ONCE,
        ONCE,
    );
    expect_scrambled(
        &rt,
        rt.alloc(),
        (Made::Live, POKES),
        SLOT,
        SCRAMBLED_TWICE,
        TWICE,
    );
}

/// The inputs of the test `scramble_complements_what_is_kept`.
const STOP: &[&[u8]] = &[
    b"setreg 16 3",
    b"setreg 10 0",
    b"timer on",
    b"step 2",
    b"setreg 5 7",
];

/// The rows of the test `scramble_complements_what_is_kept`.
const KEPT: &[After] = &[
    (b"reg 5", b"x5=00000007\n", b""),
    (
        b"enclaves",
        b"enclave 0 Stopped 80020000 00001000 00000000 00000000 80020000 \
        b72e8d278cd05a0f5288f8ada3f430f62d4995d24f5198d6495796bbbcb97390\n",
        b"",
    ),
    (b"setreg 16 4", b"ok\n", b""),
    (b"setreg 10 0", b"ok\n", b""),
    (b"step 1", ENTERED, b""),
    (b"reg 0", b"x0=00000000\n", b""),
    (b"reg 5", b"x5=ffffffff\n", b""),
    (b"reg 11", b"x11=ffffefff\n", b""),
];

/// The registers of a stopped enclave are complemented. pc, the mode, the host's registers and the record are not.
#[test]
fn scramble_complements_what_is_kept(rt: HostRuntime) {
    expect_scrambled(
        &rt,
        rt.alloc(),
        (Made::Live, STOP),
        SLOT,
        SCRAMBLED_ONCE,
        KEPT,
    );
}

/// The rows of the test `scramble_refuses_a_slot_that_is_not_live`.
const BARE_CODE: &[After] = &[(b"mem 80000000 4", b"80000000: 93 00 f0 ff\n", b"")];

/// A bench without the monitor, and a free slot: nothing changes.
#[test]
fn scramble_refuses_a_slot_that_is_not_live(rt: HostRuntime) {
    expect_scrambled(
        &rt,
        rt.alloc(),
        (Made::Bare, NO_LINES),
        SLOT,
        REFUSED_ONCE,
        BARE_CODE,
    );
    expect_scrambled(
        &rt,
        rt.alloc(),
        (Made::Free, NO_LINES),
        SLOT,
        REFUSED_ONCE,
        ZEROS,
    );
    for number in [1, 12] {
        expect_scrambled(
            &rt,
            rt.alloc(),
            (Made::Live, NO_LINES),
            number,
            REFUSED_ONCE,
            ZEROS,
        );
    }
}

/// The inputs of the test `scramble_refuses_the_slot_that_runs`.
const ENTER: &[&[u8]] = &[b"setreg 16 3", b"setreg 10 0", b"step 1"];

/// The rows of the test `scramble_refuses_the_slot_that_runs`.
const RUNNING: &[After] = &[
    (b"mem 80020000 1", b"80020000: 00\n", b""),
    (b"reg 10", b"x10=80020000\n", b""),
];

/// An enclave that runs is not scrambled.
#[test]
fn scramble_refuses_the_slot_that_runs(rt: HostRuntime) {
    expect_scrambled(
        &rt,
        rt.alloc(),
        (Made::Live, ENTER),
        SLOT,
        REFUSED_ONCE,
        RUNNING,
    );
}

/// The inputs of the test `scramble_refuses_the_slot_that_runs_on_the_other_hart`.
const ENTER_ON_HART_0: &[&[u8]] = &[b"setreg 16 3", b"setreg 10 0", b"step 1", b"hart 1"];

/// The rows of the test `scramble_refuses_the_slot_that_runs_on_the_other_hart`.
const RUNNING_ON_HART_0: &[After] = &[
    (b"mem 80020000 1", b"80020000: 00\n", b""),
    (b"hart 0", b"ok\n", b""),
    (b"reg 10", b"x10=80020000\n", b""),
];

/// An enclave that runs on the other hart is not scrambled.
#[test]
fn scramble_refuses_the_slot_that_runs_on_the_other_hart(rt: HostRuntime) {
    let made = (Made::Two, ENTER_ON_HART_0);
    expect_scrambled(&rt, rt.alloc(), made, SLOT, REFUSED_ONCE, RUNNING_ON_HART_0);
}

/// A line, its outcome, and the expected replies of both benches.
type LineRow = (&'static [u8], BothLine, &'static [u8], &'static [u8]);

/// The outcome of a line with a command that both benches executed.
const DONE: BothLine = BothLine::Given {
    why: BothWhy::All,
    is_blank: false,
};

/// The outcome of a line without a command.
const BLANK: BothLine = BothLine::Given {
    why: BothWhy::All,
    is_blank: true,
};

/// The outcome of a line with a command that accesses the region, which no bench executed.
const SKIPPED: BothLine = BothLine::Given {
    why: BothWhy::NotBlind,
    is_blank: false,
};

/// The lines of the test `a_line_is_given_to_both`.
const LINES: &[LineRow] = &[
    (b"fly", BothLine::Faulty, b"error command\n", b""),
    (b"reg 99", BothLine::Faulty, b"error operand\n", b""),
    (b"", BLANK, b"", b""),
    (b"# regs", BLANK, b"", b""),
    (b"setreg 5 7", DONE, b"ok\n", b"ok\n"),
    (b"csr 7a0", DONE, b"error csr\n", b"error csr\n"),
    (b"mem 80020000 1", SKIPPED, b"", b""),
    (b"reg 5", DONE, b"x5=00000007\n", b"x5=00000007\n"),
];

/// Gives a line to two benches, and expects its outcome.
fn expect_line(rt: &impl Abort, a: &mut Bench, b: &mut Bench, row: &LineRow) {
    let (line, what, wanted_first, wanted_second) = *row;
    // the old content of the buffers is replaced
    let mut first = Reply::new();
    let mut second = Reply::new();
    first.push(b'?');
    second.push(b'?');
    let found = both_line(a, b, slot(rt, 0), line, &mut first, &mut second);
    assert!(rt; found == what);
    expect_text(rt, &first, wanted_first);
    expect_text(rt, &second, wanted_second);
}

/// An error is reported once. A line without a command counts as no command, and a command that is not blind is skipped.
#[test]
fn a_line_is_given_to_both(rt: HostRuntime) {
    let mut a = bench_of(&rt, rt.alloc(), PAIR.0, NO_LINES);
    let mut b = bench_of(&rt, rt.alloc(), PAIR.1, NO_LINES);
    for row in LINES {
        expect_line(&rt, &mut a, &mut b, row);
    }
    expect_after(&rt, &mut a, &mut b, SECRETS);
}

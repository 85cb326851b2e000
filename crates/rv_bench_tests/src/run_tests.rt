//! Tests of whole runs over memory, and over devices that move few bytes in each call and fail at each call in turn.
use crate::expecting::{expect_bytes, expect_number, expect_outcome};
use crate::faulty::{FaultySink, FaultySource, NEVER, SinkFault};
use rv_bench::{BenchFault, Lines, MemorySink, MemorySource, run_bench, run_stream};
use rv_command_line::{Harts, ImageKind, Setup};
use rv_elf::ElfFault;
use rv_memory::{Ram, RamFault};
use std::alloc::Global;
use std::process::Abort;

/// An image and a script.
const INPUT: &[u8] = b"9300f0ff\n--\nstep 1\nreg 1\n";

/// The reply to the first line of the script.
const STEPPED: &[u8] = b"ran 1 pc=80000004 mode=M world=bare why=done trap=-\n";

/// The replies to the script.
const OUTPUT: &[u8] = b"ran 1 pc=80000004 mode=M world=bare why=done trap=-\nx1=ffffffff\n";

/// Returns the replies to the lines that are complete in the first bytes of the input.
fn replies_within(read: usize) -> &'static [u8] {
    match read {
        0..19 => b"",
        19..25 => STEPPED,
        _ => OUTPUT,
    }
}

/// Runs a script over an image, and expects success and these replies.
fn expect_replies(
    rt: &impl Abort,
    alloc: Global,
    setup: &Setup,
    image: &[u8],
    script: &[u8],
    wanted: &[u8],
) {
    let mut buffer = [0u8; 1024];
    let mut lines = Lines::new(MemorySource::new(script));
    let mut sink = MemorySink::new(&mut buffer);
    let outcome = run_bench(alloc, image, setup, &mut lines, &mut sink);
    expect_outcome(rt, outcome, Ok(()), 0);
    expect_bytes(rt, sink.bytes(), wanted, 0);
}

/// Runs an image and a script, and expects the outcome and the output.
fn expect_stream(
    rt: &impl Abort,
    alloc: Global,
    setup: &Setup,
    input: &[u8],
    wanted_outcome: Result<(), BenchFault>,
    wanted_output: &[u8],
) {
    let mut buffer = [0u8; 256];
    let mut lines = Lines::new(MemorySource::new(input));
    let mut sink = MemorySink::new(&mut buffer);
    let outcome = run_stream(alloc, setup, &mut lines, &mut sink);
    expect_outcome(rt, outcome, wanted_outcome, 0);
    expect_bytes(rt, sink.bytes(), wanted_output, 0);
    if wanted_outcome.is_ok() {
        assert!(rt; lines.is_at_end());
    }
}

#[test]
fn replies_to_a_stream(rt: HostRuntime) {
    expect_stream(&rt, rt.alloc(), &Setup::default(), INPUT, Ok(()), OUTPUT);
}

#[test]
fn replies_to_a_script(rt: HostRuntime) {
    let image = b"\x93\x00\xf0\xff";
    let script = b"step 1\nreg 1";
    expect_replies(&rt, rt.alloc(), &Setup::default(), image, script, OUTPUT);
}

/// The image is the host above the monitor. It starts in mode S at 80010000, and its load from the monitor's range traps to mode S.
#[test]
fn replies_under_the_monitor(rt: HostRuntime) {
    let setup = Setup {
        monitored: true,
        ..Setup::default()
    };
    let input = b"83220300\n--\nsetreg 6 8000fffc\nstep 1\ncsr 141\nenclaves";
    let written = b"ok\nran 1 pc=00000000 mode=S world=host why=done trap=00000005:8000fffc\n\
          csr 141=80010000\n";
    expect_stream(&rt, rt.alloc(), &setup, input, Ok(()), written);
}

#[test]
fn replies_to_csr_and_timer(rt: HostRuntime) {
    let script = b"csr 344\ntimer on\ncsr 344\ntimer off\ncsr 344\ncsr 301\ncsr 7a0";
    let wanted = b"csr 344=00000000\nok\ncsr 344=00000080\nok\ncsr 344=00000000\n\
          csr 301=40141100\nerror csr\n";
    expect_replies(&rt, rt.alloc(), &Setup::default(), b"", script, wanted);
}

#[test]
fn replies_to_pmp_and_access(rt: HostRuntime) {
    // writes x1 to pmpaddr0 and x2 to pmpcfg0: four bytes from 80000100 on, for each kind of access
    let image = b"\x73\x90\x00\x3b\x73\x10\x01\x3a";
    let script = b"setreg 1 20000040\nsetreg 2 17\nstep 2\n\
        access M r 800000fe 4\naccess M r 80000100 4\naccess U x 80000102 2\n\
        access U w 800000fc 4\naccess M w 800000fc 4\naccess U r fffffffe 4\npmp";
    let wanted = b"ok\n\
          ok\n\
          ran 2 pc=80000008 mode=M world=bare why=done trap=-\n\
          denied partial 0\n\
          allowed entry 0\n\
          allowed entry 0\n\
          denied free\n\
          allowed free\n\
          denied outside\n\
          pmp 0 cfg=17 addr=20000040\n\
          pmp 1 cfg=00 addr=00000000\n\
          pmp 2 cfg=00 addr=00000000\n\
          pmp 3 cfg=00 addr=00000000\n\
          pmp 4 cfg=00 addr=00000000\n\
          pmp 5 cfg=00 addr=00000000\n\
          pmp 6 cfg=00 addr=00000000\n\
          pmp 7 cfg=00 addr=00000000\n\
          pmp 8 cfg=00 addr=00000000\n\
          pmp 9 cfg=00 addr=00000000\n\
          pmp 10 cfg=00 addr=00000000\n\
          pmp 11 cfg=00 addr=00000000\n\
          pmp 12 cfg=00 addr=00000000\n\
          pmp 13 cfg=00 addr=00000000\n\
          pmp 14 cfg=00 addr=00000000\n\
          pmp 15 cfg=00 addr=00000000\n";
    expect_replies(&rt, rt.alloc(), &Setup::default(), image, script, wanted);
}

/// The host makes two calls and loads from the address in x6.
const HOST: &[u8] = b"\x73\x00\x00\x00\x73\x00\x00\x00\x83\x22\x03\x00";

/// Returns the setup of a monitor over `harts` harts.
const fn over(harts: Harts) -> Setup {
    Setup {
        kind: ImageKind::Raw,
        ram: 196_608,
        monitored: true,
        harts,
    }
}

/// Hart 1 starts with its number in x10. It can neither destroy nor read an enclave that runs on hart 0. Each hart has the PMP entries of its
/// own world.
#[test]
fn keeps_an_enclave_from_the_other_hart(rt: HostRuntime) {
    let script = b"setreg 17 0a454e43\nsetreg 16 1\nsetreg 10 80020000\nsetreg 11 1000\n\
        setreg 14 80020000\nstep 1\npoke 80020000 13\nsetreg 16 3\nsetreg 10 0\nstep 1\n\
        csr f14\nhart 1\ncsr f14\nreg 10\nsetreg 17 0a454e43\nsetreg 16 2\nsetreg 10 0\n\
        step 1\nreg 10\nsetreg 10 0\nsetreg 6 80020000\nsched 011\ncsr 3a0\ncsr 3a3\n\
        hart 0\ncsr 3a0\ncsr 3a3\n";
    let wanted = b"ok\nok\nok\nok\nok\n\
        ran 1 pc=80010004 mode=S world=host why=done trap=00000009:00000000\n\
        ok\nok\nok\n\
        ran 1 pc=80020000 mode=S world=e0 why=done trap=00000009:00000000\n\
        csr f14=00000000\nok\ncsr f14=00000001\nx10=00000001\nok\nok\nok\n\
        ran 1 pc=80010004 mode=S world=host why=done trap=00000009:00000000\n\
        x10=fffffff8\nok\nok\n\
        hart 0 1 pc=80020004 mode=S world=e0 trap=-\n\
        hart 1 2 pc=00000000 mode=S world=host trap=00000005:80020000\n\
        csr 3a0=00001818\ncsr 3a3=1f000000\nok\ncsr 3a0=00001f18\ncsr 3a3=00000000\n";
    expect_replies(&rt, rt.alloc(), &over(Harts::Two), HOST, script, wanted);
}

/// Hart 0 creates an enclave and would enter it, and hart 1 would destroy it. The first of them succeeds.
#[test]
fn steps_harts_in_order(rt: HostRuntime) {
    let first_hart_1 = b"setreg 17 0a454e43\nsetreg 16 1\nsetreg 10 80020000\nsetreg 11 1000\n\
        setreg 14 80020000\nstep 1\nsetreg 16 3\nsetreg 10 0\nhart 1\nsetreg 17 0a454e43\n\
        setreg 16 2\nsetreg 10 0\nsched 10\nreg 10\nhart 0\nreg 10\n";
    let destroyed = b"ok\nok\nok\nok\nok\n\
        ran 1 pc=80010004 mode=S world=host why=done trap=00000009:00000000\n\
        ok\nok\nok\nok\nok\nok\n\
        hart 0 1 pc=80010008 mode=S world=host trap=00000009:00000000\n\
        hart 1 1 pc=80010004 mode=S world=host trap=00000009:00000000\n\
        x10=00000000\nok\nx10=fffffff9\n";
    expect_replies(
        &rt,
        rt.alloc(),
        &over(Harts::Two),
        HOST,
        first_hart_1,
        destroyed,
    );
    let first_hart_0 = b"setreg 17 0a454e43\nsetreg 16 1\nsetreg 10 80020000\nsetreg 11 1000\n\
        setreg 14 80020000\nstep 1\nsetreg 16 3\nsetreg 10 0\nhart 1\nsetreg 17 0a454e43\n\
        setreg 16 2\nsetreg 10 0\nsched 01\nreg 10\n";
    let entered = b"ok\nok\nok\nok\nok\n\
        ran 1 pc=80010004 mode=S world=host why=done trap=00000009:00000000\n\
        ok\nok\nok\nok\nok\nok\n\
        hart 0 1 pc=80020000 mode=S world=e0 trap=00000009:00000000\n\
        hart 1 1 pc=80010004 mode=S world=host trap=00000009:00000000\n\
        x10=fffffff8\n";
    expect_replies(
        &rt,
        rt.alloc(),
        &over(Harts::Two),
        HOST,
        first_hart_0,
        entered,
    );
}

/// There is a hart 1 only under a monitor over two harts. A bench without the monitor has one hart, whatever the setup has.
#[test]
fn has_no_hart_more(rt: HostRuntime) {
    let script = b"hart 1\nsched 01\nreg 10\nhart 0\ncsr f14\n";
    let wanted = b"error hart\nerror hart\nx10=00000000\nok\ncsr f14=00000000\n";
    let bare = Setup {
        monitored: false,
        ..over(Harts::Two)
    };
    expect_replies(&rt, rt.alloc(), &over(Harts::One), HOST, script, wanted);
    expect_replies(&rt, rt.alloc(), &bare, HOST, script, wanted);
}

#[test]
fn flushes_once(rt: HostRuntime) {
    let mut buffer = [0u8; 128];
    let mut lines = Lines::new(FaultySource::new(INPUT, 1, NEVER));
    let mut sink = FaultySink::new(&mut buffer, 1, NEVER, SinkFault::Fail);
    let outcome = run_stream(rt.alloc(), &Setup::default(), &mut lines, &mut sink);
    expect_outcome(&rt, outcome, Ok(()), 0);
    expect_bytes(&rt, sink.bytes(), OUTPUT, 0);
    expect_number(&rt, sink.calls(), OUTPUT.len() as u64 + 1, 0);
}

/// Runs a script whose source returns one byte in each call, and fails at a given call. The output has the replies to the complete lines.
fn fail_to_read(rt: &impl Abort, alloc: Global, faulty_call: usize) {
    let mut buffer = [0u8; 128];
    let mut lines = Lines::new(FaultySource::new(INPUT, 1, faulty_call as u64));
    let mut sink = MemorySink::new(&mut buffer);
    let outcome = run_stream(alloc, &Setup::default(), &mut lines, &mut sink);
    let written = replies_within(faulty_call.saturating_sub(1));
    expect_outcome(rt, outcome, Err(BenchFault::Read), faulty_call as u64);
    expect_bytes(rt, sink.bytes(), written, faulty_call as u64);
}

#[test]
fn stops_at_a_failed_read(rt: HostRuntime) {
    for faulty_call in 1..=INPUT.len() + 1 {
        fail_to_read(&rt, rt.alloc(), faulty_call);
    }
}

/// Runs a script whose sink takes one byte in each call, and fails or takes nothing at a given call. The bytes that it took before that are
/// written.
fn fail_to_write(rt: &impl Abort, alloc: Global, faulty_call: usize, sink_fault: SinkFault) {
    let mut buffer = [0u8; 128];
    let mut lines = Lines::new(MemorySource::new(INPUT));
    let mut sink = FaultySink::new(&mut buffer, 1, faulty_call as u64, sink_fault);
    let outcome = run_stream(alloc, &Setup::default(), &mut lines, &mut sink);
    let written = &OUTPUT[..faulty_call.saturating_sub(1).min(OUTPUT.len())];
    expect_outcome(rt, outcome, Err(BenchFault::Write), faulty_call as u64);
    expect_bytes(rt, sink.bytes(), written, faulty_call as u64);
}

#[test]
fn stops_at_a_failed_write(rt: HostRuntime) {
    for faulty_call in 1..=OUTPUT.len() {
        fail_to_write(&rt, rt.alloc(), faulty_call, SinkFault::Fail);
        fail_to_write(&rt, rt.alloc(), faulty_call, SinkFault::TakeNothing);
    }
}

#[test]
fn stops_at_a_failed_flush(rt: HostRuntime) {
    let mut buffer = [0u8; 128];
    let mut lines = Lines::new(MemorySource::new(INPUT));
    let mut sink = FaultySink::new(&mut buffer, 1000, 3, SinkFault::Fail);
    let outcome = run_stream(rt.alloc(), &Setup::default(), &mut lines, &mut sink);
    expect_outcome(&rt, outcome, Err(BenchFault::Write), 0);
    expect_bytes(&rt, sink.bytes(), OUTPUT, 0);
}

#[test]
fn stops_at_a_full_sink(rt: HostRuntime) {
    let mut buffer = [0u8; 60];
    let mut lines = Lines::new(MemorySource::new(INPUT));
    let mut sink = MemorySink::new(&mut buffer);
    let outcome = run_stream(rt.alloc(), &Setup::default(), &mut lines, &mut sink);
    expect_outcome(&rt, outcome, Err(BenchFault::Write), 0);
    expect_bytes(&rt, sink.bytes(), &OUTPUT[..60], 0);
}

/// Expects the error of an input over a RAM of this size, before anything is written.
fn expect_refusal(rt: &impl Abort, alloc: Global, input: &[u8], ram: u32, wanted: BenchFault) {
    let setup = Setup {
        ram,
        ..Setup::default()
    };
    expect_stream(rt, alloc, &setup, input, Err(wanted), b"");
}

#[test]
fn refuses_in_order(rt: HostRuntime) {
    let bad_size = BenchFault::Ram(RamFault::BadSize);
    let truncated = BenchFault::Image(ElfFault::Truncated);
    let cases: [(&[u8], u32, BenchFault); 6] = [
        (b"abc\n--\nreg 0\n", 1000, BenchFault::Hex),
        (b"7f454c46\n--\nreg 0\n", 1000, bad_size),
        (b"7f454c46\n--\nreg 0\n", 65536, truncated),
        (b"00\n--\nreg 0\n", 1000, bad_size),
        (b"0\n--\nreg 0\n", 65536, BenchFault::Hex),
        (b"00 00\n", 65536, BenchFault::Hex),
    ];
    for (input, ram, wanted) in cases {
        expect_refusal(&rt, rt.alloc(), input, ram, wanted);
    }
}

/// Loads an image into a RAM of 65536 bytes and shows its last byte. Expects the outcome and the output.
fn expect_last_byte(
    rt: &impl Abort,
    alloc: Global,
    image: &[u8],
    wanted_outcome: Result<(), BenchFault>,
    wanted_output: &[u8],
) {
    let setup = Setup {
        ram: 65536,
        ..Setup::default()
    };
    let mut buffer = [0u8; 128];
    let mut lines = Lines::new(MemorySource::new(b"mem 8000ffff 1\n"));
    let mut sink = MemorySink::new(&mut buffer);
    let outcome = run_bench(alloc, image, &setup, &mut lines, &mut sink);
    expect_outcome(rt, outcome, wanted_outcome, image.len() as u64);
    expect_bytes(rt, sink.bytes(), wanted_output, image.len() as u64);
}

#[test]
fn refuses_an_image_past_the_ram(rt: HostRuntime) {
    let image = [0x11u8; 65537];
    expect_last_byte(&rt, rt.alloc(), &image[..65536], Ok(()), b"8000ffff: 11\n");
    let fault = BenchFault::Image(ElfFault::SegmentOutside);
    expect_last_byte(&rt, rt.alloc(), &image, Err(fault), b"");
}

/// Returns whether a RAM can be made in this size, and has it.
fn is_made(alloc: Global, size: u32) -> Result<bool, RamFault> {
    let ram = Ram::new(alloc, size)?;
    Ok(ram.size() == size)
}

#[test]
fn makes_memories_of_lawful_sizes(rt: HostRuntime) {
    for size in [65536u32, 131_072, 16_777_216] {
        assert!(rt; is_made(rt.alloc(), size) == Ok(true), "{size}");
    }
    for size in [0u32, 1, 65535, 65537, 16_777_217, 16_842_752, u32::MAX] {
        assert!(rt;
            is_made(rt.alloc(), size) == Err(RamFault::BadSize),
            "{size}"
        );
    }
}

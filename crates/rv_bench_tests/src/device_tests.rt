//! Tests of whole runs, also under the monitor and with two benches. The devices move a limited number of bytes in each call, and fail at each
//! call in turn.
use crate::expecting::{expect_beginning, expect_bytes, expect_number, expect_outcome};
use crate::faulty::{FaultySink, FaultySource, NEVER, SinkFault};
use rv_bench::{BenchFault, Lines, MemorySink, MemorySource, run_job, run_twin};
use rv_command_line::{Harts, ImageKind, Job, Setup};
use std::alloc::Global;
use std::process::Abort;

/// A job with an input and the output. The field `replies` has for each line of the input the number of lines of the reply.
struct Example {
    job: Job,
    input: &'static [u8],
    output: &'static [u8],
    replies: &'static [usize],
}

/// A bench without the monitor.
const BARE: Example = Example {
    job: Job::Run(Setup {
        kind: ImageKind::Auto,
        ram: 65536,
        monitored: false,
        harts: Harts::One,
    }),
    input: b"9300f0ff\n--\nstep 1\nreg 1\n",
    output: b"ran 1 pc=80000004 mode=M world=bare why=done trap=-\nx1=ffffffff\n",
    replies: &[0, 0, 1, 1],
};

/// A create, and an access across the border of its region.
const MONITORED: Example = Example {
    job: Job::Run(Setup {
        kind: ImageKind::Auto,
        ram: 196_608,
        monitored: true,
        harts: Harts::One,
    }),
    input: b"7300000083220300\n--\nsetreg 17 0a454e43\nsetreg 16 1\nsetreg 10 80020000\n\
        setreg 11 1000\nsetreg 14 80020000\nstep 1\naccess S r 8001fffe 4\nsetreg 6 8001fffe\n\
        step 1\ncsr 141\ncsr 142\ncsr 143\n",
    output: b"ok\nok\nok\nok\nok\n\
        ran 1 pc=80010004 mode=S world=host why=done trap=00000009:00000000\n\
        denied partial 1\nok\n\
        ran 1 pc=00000000 mode=S world=host why=done trap=00000005:8001fffe\n\
        csr 141=80010004\ncsr 142=00000005\ncsr 143=8001fffe\n",
    replies: &[0, 0, 1, 1, 1, 1, 1, 1, 1, 1, 1, 1, 1, 1],
};

/// Two benches, and a destroy of the enclave in which they differ. The line that ends the run belongs to no line of the input.
const TWIN: Example = Example {
    job: Job::Twin(
        Setup {
            kind: ImageKind::Auto,
            ram: 196_608,
            monitored: true,
            harts: Harts::One,
        },
        0,
    ),
    input: b"7300000073000000\n--\nsetreg 17 0a454e43\nsetreg 16 1\nsetreg 10 80020000\n\
        setreg 11 1000\nsetreg 14 80020000\nstep 1\n--\nmem 80020000 1\nsetreg 16 2\nsetreg 10 0\n\
        step 1\nmem 80020000 4\n",
    output: b"ok\nok\nok\nok\nok\n\
        ran 1 pc=80010004 mode=S world=host why=done trap=00000009:00000000\n\
        error blind\na: ok\nb: ok\na: ok\nb: ok\n\
        a: ran 1 pc=80010008 mode=S world=host why=done trap=00000009:00000000\n\
        b: ran 1 pc=80010008 mode=S world=host why=done trap=00000009:00000000\n\
        a: 80020000: 00 00 00 00\nb: 80020000: 00 00 00 00\ntwin end 4\n",
    replies: &[0, 0, 1, 1, 1, 1, 1, 1, 0, 1, 2, 2, 2, 2],
};

/// Two benches of two harts. One hart creates an enclave, the other destroys it. An earlier call of the first hart fails.
const TWIN_OF_TWO_HARTS: Example = Example {
    job: Job::Twin(
        Setup {
            kind: ImageKind::Auto,
            ram: 196_608,
            monitored: true,
            harts: Harts::Two,
        },
        0,
    ),
    input: b"7300000073000000\n--\nsetreg 17 0a454e43\nsetreg 16 1\nsetreg 10 80020000\n\
        setreg 11 1000\nsetreg 14 80020000\nstep 1\n--\nhart 1\nsetreg 17 0a454e43\n\
        setreg 16 2\nsetreg 10 0\nsched 01\n",
    output: b"ok\nok\nok\nok\nok\n\
        ran 1 pc=80010004 mode=S world=host why=done trap=00000009:00000000\n\
        a: ok\nb: ok\na: ok\nb: ok\na: ok\nb: ok\na: ok\nb: ok\n\
        a: hart 0 1 pc=80010008 mode=S world=host trap=00000009:00000000\n\
        a: hart 1 1 pc=80010004 mode=S world=host trap=00000009:00000000\n\
        b: hart 0 1 pc=80010008 mode=S world=host trap=00000009:00000000\n\
        b: hart 1 1 pc=80010004 mode=S world=host trap=00000009:00000000\ntwin end 5\n",
    replies: &[0, 0, 1, 1, 1, 1, 1, 1, 0, 2, 2, 2, 2, 4],
};

/// The setup of two benches of one hart.
const OF_ONE_HART: Setup = Setup {
    kind: ImageKind::Auto,
    ram: 196_608,
    monitored: true,
    harts: Harts::One,
};

/// The input for two benches, with a run that enters the enclave in which they differ. This line is the last that is read.
const ENTERED: &[u8] =
    b"7300000073000000\n--\nsetreg 17 0a454e43\nsetreg 16 1\nsetreg 10 80020000\n\
    setreg 11 1000\nsetreg 14 80020000\nstep 1\n--\nsetreg 16 3\nrun 1\nfly\n";

/// The output for this input.
const ENTERED_OUTPUT: &[u8] = b"ok\nok\nok\nok\nok\n\
    ran 1 pc=80010004 mode=S world=host why=done trap=00000009:00000000\n\
    a: ok\nb: ok\ntwin entered 2\n";

/// The numbers of bytes that a device moves in one call, at most.
const BYTES_PER_CALL: [usize; 3] = [1, 7, 100];

/// The size of the buffer for the output of an example, in bytes.
const OUTPUT_SIZE: usize = 600;

/// Returns the number of line feeds in the first bytes of a text.
fn lines_within(text: &[u8], len: usize) -> usize {
    let mut count = 0usize;
    for byte in &text[..len.min(text.len())] {
        if *byte == b'\n' {
            count = count.saturating_add(1);
        }
    }
    count
}

/// Returns the first `count` lines of a text.
fn first_lines(text: &[u8], count: usize) -> &[u8] {
    let mut left = count;
    let mut len = 0usize;
    for byte in text {
        if left == 0 {
            break;
        }
        len = len.saturating_add(1);
        if *byte == b'\n' {
            left = left.saturating_sub(1);
        }
    }
    &text[..len.min(text.len())]
}

/// Returns the output for the lines that are complete in the first bytes of the input.
fn replies_to(example: &Example, read: usize) -> &'static [u8] {
    let lines = lines_within(example.input, read);
    let mut count = 0usize;
    for replies in &example.replies[..lines.min(example.replies.len())] {
        count = count.saturating_add(*replies);
    }
    first_lines(example.output, count)
}

/// Runs an example with devices that never fail, and returns the numbers of calls of the source and of the sink.
fn calls_of(
    rt: &impl Abort,
    alloc: Global,
    example: &Example,
    bytes_per_call: usize,
) -> (u64, u64) {
    let mut buffer = [0u8; OUTPUT_SIZE];
    let mut sink = FaultySink::new(&mut buffer, bytes_per_call, NEVER, SinkFault::Fail);
    let source = FaultySource::new(example.input, bytes_per_call.max(1), NEVER);
    let (source, outcome) = run_job(alloc, &example.job, source, &mut sink);
    expect_outcome(rt, outcome, Ok(()), bytes_per_call as u64);
    expect_bytes(rt, sink.bytes(), example.output, bytes_per_call as u64);
    assert!(rt; source.rest().is_empty());
    (source.calls(), sink.calls())
}

/// Runs an example with a source that fails at each of its calls in turn. The output has the replies to the complete lines, and nothing else.
fn fail_to_read(
    rt: &impl Abort,
    alloc: Global,
    example: &Example,
    bytes_per_call: usize,
    calls: u64,
) {
    for faulty_call in 1..=calls {
        let mut buffer = [0u8; OUTPUT_SIZE];
        let mut sink = MemorySink::new(&mut buffer);
        let source = FaultySource::new(example.input, bytes_per_call.max(1), faulty_call);
        let (source, outcome) = run_job(alloc, &example.job, source, &mut sink);
        expect_outcome(rt, outcome, Err(BenchFault::Read), faulty_call);
        expect_number(rt, source.calls(), faulty_call, bytes_per_call as u64);
        let read = example.input.len().saturating_sub(source.rest().len());
        expect_bytes(rt, sink.bytes(), replies_to(example, read), faulty_call);
    }
}

/// Runs an example with a sink that fails, or takes nothing, at each of its calls in turn. A prefix of the output is written.
fn fail_to_write(
    rt: &impl Abort,
    alloc: Global,
    example: &Example,
    bytes_per_call: usize,
    calls: u64,
    sink_fault: SinkFault,
) {
    for faulty_call in 1..=calls {
        // the last call is `flush`, which takes no byte
        if faulty_call == calls && sink_fault == SinkFault::TakeNothing {
            continue;
        }
        let mut buffer = [0u8; OUTPUT_SIZE];
        let mut sink = FaultySink::new(&mut buffer, bytes_per_call, faulty_call, sink_fault);
        let source = MemorySource::new(example.input);
        let (_, outcome) = run_job(alloc, &example.job, source, &mut sink);
        expect_outcome(rt, outcome, Err(BenchFault::Write), faulty_call);
        expect_number(rt, sink.calls(), faulty_call, bytes_per_call as u64);
        expect_beginning(rt, sink.bytes(), example.output, faulty_call);
        if bytes_per_call == 1 {
            let len = sink.bytes().len() as u64;
            expect_number(rt, len.saturating_add(1), faulty_call, 1);
        }
    }
}

/// Runs an example without faults, with a fault at each read, and with each fault at each write.
fn fails_at_each_call(rt: &impl Abort, alloc: Global, example: &Example) {
    for bytes_per_call in BYTES_PER_CALL {
        let (reads, writes) = calls_of(rt, alloc, example, bytes_per_call);
        if bytes_per_call == 1 {
            let input_len = example.input.len() as u64;
            let output_len = example.output.len() as u64;
            expect_number(rt, reads, input_len.saturating_add(1), 1);
            expect_number(rt, writes, output_len.saturating_add(1), 1);
        }
        fail_to_read(rt, alloc, example, bytes_per_call, reads);
        fail_to_write(rt, alloc, example, bytes_per_call, writes, SinkFault::Fail);
        fail_to_write(
            rt,
            alloc,
            example,
            bytes_per_call,
            writes,
            SinkFault::TakeNothing,
        );
    }
}

#[test]
fn a_bench_alone(rt: HostRuntime) {
    fails_at_each_call(&rt, rt.alloc(), &BARE);
}

#[test]
fn a_monitored_bench(rt: HostRuntime) {
    fails_at_each_call(&rt, rt.alloc(), &MONITORED);
}

#[test]
fn two_benches(rt: HostRuntime) {
    fails_at_each_call(&rt, rt.alloc(), &TWIN);
}

#[test]
fn two_benches_of_two_harts(rt: HostRuntime) {
    fails_at_each_call(&rt, rt.alloc(), &TWIN_OF_TWO_HARTS);
}

#[test]
fn nothing_is_read_after_the_entering(rt: HostRuntime) {
    let mut buffer = [0u8; OUTPUT_SIZE];
    let mut sink = MemorySink::new(&mut buffer);
    // the call after those for the lines through the entering one would fail
    let read = ENTERED.len().saturating_sub(b"fly\n".len());
    let source = FaultySource::new(ENTERED, 1, (read as u64).saturating_add(1));
    let mut lines = Lines::new(source);
    let outcome = run_twin(rt.alloc(), &OF_ONE_HART, 0, &mut lines, &mut sink);
    expect_outcome(&rt, outcome, Ok(()), 1);
    expect_bytes(&rt, sink.bytes(), ENTERED_OUTPUT, 1);
    expect_bytes(&rt, lines.source().rest(), b"fly\n", 1);
}

//! Tests of jobs over memory, and over devices that move few bytes in each call and fail at each call in turn.
use crate::expecting::{expect_beginning, expect_bytes, expect_number, expect_outcome};
use crate::faulty::{FaultySink, FaultySource, FeedSource, NEVER, SinkFault};
use rv_asm::{AsmFault, AsmFaultKind};
use rv_bench::{
    ASM_TEXT_MAX, BenchFault, Lines, MemorySink, MemorySource, run_asm, run_dis, run_job,
};
use rv_command_line::{Job, Setup};
use rv_memory::RamFault;
use std::alloc::Global;
use std::process::Abort;

/// A program with a label.
const PROGRAM: &[u8] = b"loop: addi x1, x1, -1\n bne x1, x0, loop\n";

/// The image of the program, a word in each line.
const IMAGE: &[u8] = b"9380f0ff\ne39e00fe\n";

/// An image and a script.
const INPUT: &[u8] = b"9300f0ff\n--\nstep 1\nreg 1\n";

/// The replies to the script.
const OUTPUT: &[u8] = b"ran 1 pc=80000004 mode=M world=bare why=done trap=-\nx1=ffffffff\n";

/// The number of words of the long image. Their lines are written in several parts.
const LONG_WORDS: usize = 200;

/// Returns the text of an image of 200 words.
fn long_image() -> [u8; 9 * LONG_WORDS] {
    let line = b"93800000\n";
    let mut text = [0u8; 9 * LONG_WORDS];
    for place in 0..9 * LONG_WORDS {
        text[place] = line[place % 9];
    }
    text
}

/// Executes a job over memory, and expects its outcome, its output, and the rest of the text.
fn expect_job(
    rt: &impl Abort,
    alloc: Global,
    job: &Job,
    text: &[u8],
    wanted_outcome: Result<(), BenchFault>,
    wanted_output: &[u8],
    left: &[u8],
) {
    let mut buffer = [0u8; 128];
    let mut sink = MemorySink::new(&mut buffer);
    let (source, outcome) = run_job(alloc, job, MemorySource::new(text), &mut sink);
    expect_outcome(rt, outcome, wanted_outcome, 0);
    expect_bytes(rt, sink.bytes(), wanted_output, 0);
    expect_bytes(rt, source.rest(), left, 0);
}

/// Assembles a text, and expects its error or none.
fn expect_assembly(
    rt: &impl Abort,
    alloc: Global,
    text: &[u8],
    wanted_outcome: Result<(), BenchFault>,
    wanted_output: &[u8],
) {
    let mut buffer = [0u8; 64];
    let mut source = MemorySource::new(text);
    let mut sink = MemorySink::new(&mut buffer);
    expect_outcome(
        rt,
        run_asm(alloc, &mut source, &mut sink),
        wanted_outcome,
        0,
    );
    expect_bytes(rt, sink.bytes(), wanted_output, 0);
    if wanted_outcome.is_ok() {
        assert!(rt; source.rest().is_empty());
    }
}

/// Disassembles an image, and expects its error or none.
fn expect_disassembly(
    rt: &impl Abort,
    alloc: Global,
    text: &[u8],
    wanted_outcome: Result<(), BenchFault>,
    wanted_output: &[u8],
) {
    let mut buffer = [0u8; 64];
    let mut lines = Lines::new(MemorySource::new(text));
    let mut sink = MemorySink::new(&mut buffer);
    expect_outcome(rt, run_dis(alloc, &mut lines, &mut sink), wanted_outcome, 0);
    expect_bytes(rt, sink.bytes(), wanted_output, 0);
}

#[test]
fn assembles_a_text(rt: HostRuntime) {
    expect_assembly(&rt, rt.alloc(), PROGRAM, Ok(()), IMAGE);
}

#[test]
fn reports_the_error_of_a_text(rt: HostRuntime) {
    let fault = AsmFault {
        line: 2,
        kind: AsmFaultKind::UnknownName,
    };
    let text = b"addi x1, x1, -1\nfoo x1\n";
    expect_assembly(&rt, rt.alloc(), text, Err(BenchFault::Asm(fault)), b"");
}

#[test]
fn disassembles_an_image(rt: HostRuntime) {
    let written = b"0ff0000f fence iorw, iorw\n";
    expect_disassembly(&rt, rt.alloc(), b"0f00f00f\n", Ok(()), written);
}

#[test]
fn disassembles_whole_words(rt: HostRuntime) {
    let cases: [&[u8]; 4] = [
        b"0f\n",
        b"0f00f0\n--\n",
        b"0f00f00f\n93",
        b"0f00f00f\n9300\nf0\n",
    ];
    for text in cases {
        expect_disassembly(&rt, rt.alloc(), text, Err(BenchFault::Hex), b"");
    }
}

#[test]
fn does_a_run(rt: HostRuntime) {
    let job = Job::Run(Setup::default());
    expect_job(&rt, rt.alloc(), &job, INPUT, Ok(()), OUTPUT, b"");
}

#[test]
fn does_an_assembly(rt: HostRuntime) {
    expect_job(&rt, rt.alloc(), &Job::Asm, PROGRAM, Ok(()), IMAGE, b"");
}

#[test]
fn does_a_disassembly(rt: HostRuntime) {
    let text = b"0f00f00f\n--\nstep 1\n";
    let written = b"0ff0000f fence iorw, iorw\n";
    expect_job(
        &rt,
        rt.alloc(),
        &Job::Dis,
        text,
        Ok(()),
        written,
        b"step 1\n",
    );
}

#[test]
fn refuses_a_setup(rt: HostRuntime) {
    let mut buffer = [0u8; 64];
    let mut sink = MemorySink::new(&mut buffer);
    let job = Job::Run(Setup {
        ram: 1,
        ..Setup::default()
    });
    let (_, outcome) = run_job(rt.alloc(), &job, MemorySource::new(INPUT), &mut sink);
    expect_outcome(&rt, outcome, Err(BenchFault::Ram(RamFault::BadSize)), 0);
    expect_bytes(&rt, sink.bytes(), b"", 0);
}

/// Runs a job whose source fails at a call. Nothing is written, and each call before that returned one byte.
fn fail_to_read(rt: &impl Abort, alloc: Global, job: &Job, text: &[u8], faulty_call: u64) {
    let mut buffer = [0u8; 128];
    let mut sink = FaultySink::new(&mut buffer, 100, NEVER, SinkFault::Fail);
    let source = FaultySource::new(text, 1, faulty_call);
    let (source, outcome) = run_job(alloc, job, source, &mut sink);
    expect_outcome(rt, outcome, Err(BenchFault::Read), faulty_call);
    expect_number(rt, sink.calls(), 0, faulty_call);
    expect_number(rt, source.calls(), faulty_call, faulty_call);
    let left = source.rest().len() as u64;
    expect_number(
        rt,
        left.saturating_add(faulty_call),
        (text.len() as u64).saturating_add(1),
        faulty_call,
    );
}

#[test]
fn writes_nothing_after_a_failed_read(rt: HostRuntime) {
    for (job, text) in [(Job::Asm, PROGRAM), (Job::Dis, IMAGE)] {
        for faulty_call in 1..=text.len() as u64 + 1 {
            fail_to_read(&rt, rt.alloc(), &job, text, faulty_call);
        }
    }
}

/// Runs a job whose sink fails, or takes nothing, at a call. A prefix of the output is written.
fn fail_to_write(
    rt: &impl Abort,
    alloc: Global,
    job: &Job,
    text: &[u8],
    whole: &[u8],
    faulty_call: u64,
    sink_fault: SinkFault,
) {
    let mut buffer = [0u8; 60 * LONG_WORDS];
    let mut sink = FaultySink::new(&mut buffer, 100, faulty_call, sink_fault);
    let (_, outcome) = run_job(alloc, job, MemorySource::new(text), &mut sink);
    expect_outcome(rt, outcome, Err(BenchFault::Write), faulty_call);
    expect_number(rt, sink.calls(), faulty_call, faulty_call);
    expect_beginning(rt, sink.bytes(), whole, faulty_call);
}

/// Runs a job whose sink fails, or takes nothing, at each of its calls in turn.
fn fail_at_each_call(rt: &impl Abort, alloc: Global, job: &Job, text: &[u8]) {
    let mut whole = [0u8; 60 * LONG_WORDS];
    let mut sink = FaultySink::new(&mut whole, 100, NEVER, SinkFault::Fail);
    let (_, outcome) = run_job(alloc, job, MemorySource::new(text), &mut sink);
    expect_outcome(rt, outcome, Ok(()), 0);
    let calls = sink.calls();
    for faulty_call in 1..=calls {
        fail_to_write(
            rt,
            alloc,
            job,
            text,
            sink.bytes(),
            faulty_call,
            SinkFault::Fail,
        );
        // the last call is `flush`, which takes no byte
        if faulty_call < calls {
            fail_to_write(
                rt,
                alloc,
                job,
                text,
                sink.bytes(),
                faulty_call,
                SinkFault::TakeNothing,
            );
        }
    }
}

#[test]
fn writes_a_beginning_before_a_failed_write(rt: HostRuntime) {
    fail_at_each_call(&rt, rt.alloc(), &Job::Asm, PROGRAM);
    fail_at_each_call(&rt, rt.alloc(), &Job::Dis, IMAGE);
    fail_at_each_call(&rt, rt.alloc(), &Job::Dis, &long_image());
}

/// Returns the number of line feeds in a text. Each follows the line of the only word.
fn count_lines(rt: &impl Abort, text: &[u8]) -> u64 {
    let mut count = 0u64;
    for line in text.split_inclusive(|byte| *byte == b'\n') {
        assert!(rt; line.starts_with(b"00008093 "));
        count = count.saturating_add(1);
    }
    count
}

#[test]
fn gathers_the_lines(rt: HostRuntime) {
    let image = long_image();
    let mut buffer = [0u8; 60 * LONG_WORDS];
    let mut sink = FaultySink::new(&mut buffer, 60 * LONG_WORDS, NEVER, SinkFault::Fail);
    let (_, outcome) = run_job(rt.alloc(), &Job::Dis, MemorySource::new(&image), &mut sink);
    expect_outcome(&rt, outcome, Ok(()), 0);
    assert!(rt; sink.calls() < 12);
    expect_number(&rt, count_lines(&rt, sink.bytes()), LONG_WORDS as u64, 0);
}

/// Runs a job without input, whose sink fails at a call, or never. Expects its outcome and the number of calls of the sink.
fn expect_calls(
    rt: &impl Abort,
    alloc: Global,
    job: &Job,
    faulty_call: u64,
    wanted_outcome: Result<(), BenchFault>,
) {
    let mut buffer = [0u8; 8];
    let mut sink = FaultySink::new(&mut buffer, 8, faulty_call, SinkFault::Fail);
    let (_, outcome) = run_job(alloc, job, MemorySource::new(b""), &mut sink);
    expect_outcome(rt, outcome, wanted_outcome, faulty_call);
    expect_number(rt, sink.calls(), 1, faulty_call);
}

#[test]
fn flushes_once(rt: HostRuntime) {
    for job in [Job::Asm, Job::Dis, Job::Run(Setup::default())] {
        expect_calls(&rt, rt.alloc(), &job, 0, Ok(()));
        expect_calls(&rt, rt.alloc(), &job, 1, Err(BenchFault::Write));
    }
}

#[test]
fn takes_a_text_up_to_its_limit(rt: HostRuntime) {
    // one line that is too long
    let fault = AsmFault {
        line: 1,
        kind: AsmFaultKind::BadText,
    };
    for (len, wanted) in [
        (ASM_TEXT_MAX, Err(BenchFault::Asm(fault))),
        (ASM_TEXT_MAX + 1, Err(BenchFault::TooLong)),
        (2 * ASM_TEXT_MAX, Err(BenchFault::TooLong)),
    ] {
        let mut buffer = [0u8; 8];
        let mut sink = MemorySink::new(&mut buffer);
        let mut source = FeedSource::new(len);
        expect_outcome(
            &rt,
            run_asm(rt.alloc(), &mut source, &mut sink),
            wanted,
            len as u64,
        );
        expect_bytes(&rt, sink.bytes(), b"", len as u64);
        assert!(rt; source.given() <= ASM_TEXT_MAX + 4096);
    }
}

//! Tests of jobs with the program's own devices, over readers and writers of std: slices, cursors, vectors, and some that move one byte in each
//! call.
use crate::byte_by_byte::{ByteReader, ByteWriter};
use crate::expecting::{expect_bytes, expect_number, expect_outcome};
use crate::faulty::NEVER;
use crate::recording::{RecordingReader, RecordingWriter};
use crate::sources::source_over;
use rv_bench::{
    BenchFault, Source, WordsFault, WriterSink, run_in_memory, run_job, run_over_streams,
};
use rv_command_line::{Harts, ImageKind, Job, Setup};
use std::alloc::Global;
use std::io::{Cursor, Read, Write};
use std::process::Abort;

/// The field `is_flush_refused` of a writer whose flush succeeds.
const FLUSHES: bool = false;

/// The field `is_flush_refused` of a writer whose flush fails.
const REFUSES_FLUSH: bool = true;

/// A host that creates an enclave.
const MONITORED: Setup = Setup {
    kind: ImageKind::Auto,
    ram: 196_608,
    monitored: true,
    harts: Harts::One,
};

/// A job, the input, and the output.
struct Example {
    job: Job,
    input: &'static [u8],
    output: &'static [u8],
}

/// A run without the monitor.
const RUN: Example = Example {
    job: Job::Run(Setup {
        kind: ImageKind::Auto,
        ram: 65536,
        monitored: false,
        harts: Harts::One,
    }),
    input: b"9300f0ff\n--\nstep 1\nreg 1\n",
    output: b"ran 1 pc=80000004 mode=M world=bare why=done trap=-\nx1=ffffffff\n",
};

/// Two benches without an enclave.
const TWIN: Example = Example {
    job: Job::Twin(MONITORED, 0),
    input: b"73000000\n--\nreg 1\n--\nreg 1\n",
    output: b"x1=00000000\ntwin no slot\n",
};

/// The assembly of a loop.
const ASM: Example = Example {
    job: Job::Asm,
    input: b"loop: addi x1, x1, -1\n bne x1, x0, loop\n",
    output: b"9380f0ff\ne39e00fe\n",
};

/// The disassembly of a fence.
const DIS: Example = Example {
    job: Job::Dis,
    input: b"0f00f00f\n--\nstep 1\n",
    output: b"0ff0000f fence iorw, iorw\n",
};

/// Executes a job from a reader to a writer, and returns the writer.
fn written<R: Read + Drop, W: Write>(
    rt: &impl Abort,
    alloc: Global,
    job: &Job,
    reader: R,
    writer: W,
) -> W {
    let mut sink = WriterSink::new(writer);
    let (_, outcome) = run_job(alloc, job, source_over(reader), &mut sink);
    expect_outcome(rt, outcome, Ok(()), 0);
    sink.into_writer()
}

/// Executes a job over each kind of reader and of writer.
fn expect_everywhere(rt: &impl Abort, alloc: Global, example: &Example) {
    let Example { job, input, output } = example;
    let slice = written(rt, alloc, job, *input, Vec::new(alloc));
    expect_bytes(rt, slice.as_slice(), output, 0);
    let cursor = written(
        rt,
        alloc,
        job,
        Cursor::new(*input),
        Cursor::new(Vec::new(alloc)),
    );
    expect_bytes(rt, cursor.into_inner().as_slice(), output, 1);
    let bytes = written(
        rt,
        alloc,
        job,
        ByteReader::new(input),
        ByteWriter::new(Vec::new(alloc)),
    );
    expect_bytes(rt, bytes.bytes(), output, 2);
    match run_in_memory(alloc, job, input) {
        Ok(text) => expect_bytes(rt, text.as_slice(), output, 3),
        Err(fault) => expect_outcome(rt, Err(fault), Ok(()), 3),
    }
}

#[test]
fn runs_over_readers_and_writers(rt: HostRuntime) {
    expect_everywhere(&rt, rt.alloc(), &RUN);
}

#[test]
fn runs_two_over_readers_and_writers(rt: HostRuntime) {
    expect_everywhere(&rt, rt.alloc(), &TWIN);
}

#[test]
fn assembles_over_readers_and_writers(rt: HostRuntime) {
    expect_everywhere(&rt, rt.alloc(), &ASM);
}

#[test]
fn disassembles_over_readers_and_writers(rt: HostRuntime) {
    expect_everywhere(&rt, rt.alloc(), &DIS);
}

/// Executes a job over a reader that fails at a call, and a writer. Expects this outcome and this number of flushes, and returns the writer.
fn recorded(
    rt: &impl Abort,
    alloc: Global,
    example: &Example,
    faulty_call: u64,
    want: (Result<(), BenchFault>, u64),
) -> RecordingWriter {
    let mut sink = WriterSink::new(RecordingWriter::new(Vec::new(alloc), FLUSHES));
    let reader = RecordingReader::new(example.input, faulty_call);
    let source = source_over(reader);
    let (_, outcome) = run_job(alloc, &example.job, source, &mut sink);
    expect_outcome(rt, outcome, want.0, faulty_call);
    let writer = sink.into_writer();
    expect_number(rt, writer.flushes(), want.1, faulty_call);
    writer
}

/// Expects the output with one flush after it, and no output if the first call of the reader fails.
fn expect_recorded(rt: &impl Abort, alloc: Global, example: &Example) {
    let writer = recorded(rt, alloc, example, NEVER, (Ok(()), 1));
    expect_bytes(rt, writer.bytes(), example.output, 0);
    let first_call = 1;
    let failed = recorded(rt, alloc, example, first_call, (Err(BenchFault::Read), 0));
    expect_bytes(rt, failed.bytes(), b"", 1);
}

#[test]
fn flush_reaches_the_writer_once(rt: HostRuntime) {
    expect_recorded(&rt, rt.alloc(), &RUN);
    expect_recorded(&rt, rt.alloc(), &TWIN);
    expect_recorded(&rt, rt.alloc(), &ASM);
    expect_recorded(&rt, rt.alloc(), &DIS);
}

/// Expects the output and a failed write if the flush of the writer fails.
fn expect_refused_flush(rt: &impl Abort, alloc: Global, example: &Example) {
    let mut sink = WriterSink::new(RecordingWriter::new(Vec::new(alloc), REFUSES_FLUSH));
    let source = source_over(example.input);
    let (_, outcome) = run_job(alloc, &example.job, source, &mut sink);
    expect_outcome(rt, outcome, Err(BenchFault::Write), 0);
    expect_bytes(rt, sink.into_writer().bytes(), example.output, 0);
}

#[test]
fn failure_of_a_flush_is_reported(rt: HostRuntime) {
    expect_refused_flush(&rt, rt.alloc(), &RUN);
}

/// Runs the program over a reader and a writer. Expects these bytes with one flush, this status, and this number of calls of the reader.
fn expect_over_streams(
    rt: &impl Abort,
    alloc: Global,
    arguments: &Result<Vec<String>, WordsFault>,
    input: &[u8],
    want: (&[u8], u8, u64),
) {
    let reader = RecordingReader::new(input, NEVER);
    let writer = RecordingWriter::new(Vec::new(alloc), FLUSHES);
    let (source, sink, status) = run_over_streams(alloc, arguments, reader, writer);
    let writer = sink.into_writer();
    expect_bytes(rt, writer.bytes(), want.0, 0);
    expect_number(rt, writer.flushes(), 1, 0);
    expect_number(rt, u64::from(status), u64::from(want.1), 0);
    expect_number(rt, source.into_reader().calls(), want.2, 0);
}

/// Expects that the program calls its streams only for the input and the output, and reads nothing if it refuses its arguments.
fn expect_program(rt: &impl Abort, alloc: Global, example: &Example) {
    let name = String::from_str(alloc, "rvbench").expect(rt, "memory");
    let mut words = Vec::new(alloc);
    words.push(name).expect(rt, "memory");
    expect_over_streams(rt, alloc, &Ok(words), example.input, (example.output, 0, 2));
    let line = b"rvbench: command line\n".as_slice();
    let refused = Err(WordsFault::Refused);
    expect_over_streams(rt, alloc, &refused, example.input, (line, 2, 0));
}

#[test]
fn program_makes_no_other_calls_of_its_streams(rt: HostRuntime) {
    expect_program(&rt, rt.alloc(), &RUN);
}

#[test]
fn reader_that_ended_is_not_called_again(rt: HostRuntime) {
    let mut source = source_over(RecordingReader::new(b"ab", NEVER));
    let mut buffer = [0u8; 8];
    for wanted_count in [2usize, 0, 0, 0] {
        assert!(rt;
            source.read_some(&mut buffer) == Ok(wanted_count),
            "{wanted_count}"
        );
    }
    let reader = source.into_source().into_reader();
    expect_number(&rt, reader.calls(), 2, 0);
}

#[test]
fn reports_the_error_of_an_input(rt: HostRuntime) {
    for (job, input, wanted) in [
        (Job::Run(MONITORED), b"0\n--\n".as_slice(), BenchFault::Hex),
        (Job::Dis, b"000000\n".as_slice(), BenchFault::Hex),
    ] {
        let outcome = match run_in_memory(rt.alloc(), &job, input) {
            Ok(_) => Ok(()),
            Err(fault) => Err(fault),
        };
        expect_outcome(&rt, outcome, Err(wanted), 0);
    }
}

/// A create, and then a key that is poked into the enclave, with a line between its bytes. The later commands do not access the enclave, destroy
/// it, and create and enter another enclave in its slot.
const WITH_A_KEY: &[u8] = b"73000000730000007300000073000000\n--\n\
    setreg 17 0a454e43\nsetreg 16 1\nsetreg 10 80020000\nsetreg 11 1000\nsetreg 14 80020000\nstep 1\n\
    poke 80020000 41\n# between\nreg 10\npoke 80020ffc 42\n\
    enclaves\nsetreg 16 2\nsetreg 10 0\nstep 1\nmem 80020000 4\n\
    setreg 16 1\nsetreg 10 80020000\nsetreg 11 1000\nsetreg 14 80020000\nstep 1\nsetreg 16 3\nsetreg 10 0\nstep 1\nregs\n";

/// The same script with another key at another place.
const WITH_ANOTHER: &[u8] = b"73000000730000007300000073000000\n--\n\
    setreg 17 0a454e43\nsetreg 16 1\nsetreg 10 80020000\nsetreg 11 1000\nsetreg 14 80020000\nstep 1\n\
    poke 80020abc 5a\n# between\nreg 10\npoke 80020000 0\n\
    enclaves\nsetreg 16 2\nsetreg 10 0\nstep 1\nmem 80020000 4\n\
    setreg 16 1\nsetreg 10 80020000\nsetreg 11 1000\nsetreg 14 80020000\nstep 1\nsetreg 16 3\nsetreg 10 0\nstep 1\nregs\n";

#[test]
fn noninterference_a_key(rt: HostRuntime) {
    let job = Job::Run(MONITORED);
    let first = run_in_memory(rt.alloc(), &job, WITH_A_KEY).expect(&rt, "an output");
    let second = run_in_memory(rt.alloc(), &job, WITH_ANOTHER).expect(&rt, "an output");
    // the last lines are those of the enclave that was entered
    assert!(&rt; first.as_slice().ends_with(b"pc=80020000\n"));
    expect_bytes(&rt, first.as_slice(), second.as_slice(), 0);
}

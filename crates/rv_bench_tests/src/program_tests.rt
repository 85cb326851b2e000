//! Tests of the program with its arguments: the job, the lines of errors, the exit statuses, and the flush.
use crate::expecting::{expect_bytes, expect_number};
use crate::faulty::{FaultySink, FaultySource, NEVER, SinkFault};
use rv_bench::{MemorySink, MemorySource, WordsFault, perform, refuse, run_program};
use std::alloc::Global;
use std::process::Abort;

/// The exit status after success or help.
const SUCCESS: u8 = 0;

/// The exit status after an error of the input, a failed device or exhausted memory.
const FAILURE: u8 = 1;

/// The exit status if the command line is refused.
const BAD_COMMAND_LINE: u8 = 2;

/// An image and a script.
const INPUT: &[u8] = b"9300f0ff\n--\nstep 1\nreg 1\n";

/// The replies to the script.
const OUTPUT: &[u8] = b"ran 1 pc=80000004 mode=M world=bare why=done trap=-\nx1=ffffffff\n";

/// Executes the job of arguments over memory, and expects its output and exit status.
fn expect_performed(
    rt: &impl Abort,
    alloc: Global,
    words: &[&str],
    input: &[u8],
    wanted_output: &[u8],
    wanted_status: u8,
) {
    let mut buffer = [0u8; 128];
    let mut sink = MemorySink::new(&mut buffer);
    let (_, found) = perform(alloc, words, MemorySource::new(input), &mut sink);
    expect_bytes(rt, sink.bytes(), wanted_output, 0);
    expect_number(rt, u64::from(found), u64::from(wanted_status), 0);
    let (text, found) = run_program(alloc, words, input).expect(rt, "memory");
    expect_bytes(rt, text.as_slice(), wanted_output, 1);
    expect_number(rt, u64::from(found), u64::from(wanted_status), 1);
}

#[test]
fn does_the_job_of_its_words(rt: HostRuntime) {
    expect_performed(&rt, rt.alloc(), &["rvbench"], INPUT, OUTPUT, SUCCESS);
    expect_performed(&rt, rt.alloc(), &["rvbench", "run"], INPUT, OUTPUT, SUCCESS);
    expect_performed(
        &rt,
        rt.alloc(),
        &["rvbench", "asm"],
        b"nop\n",
        b"13000000\n",
        SUCCESS,
    );
    let words = ["rvbench", "dis"];
    expect_performed(
        &rt,
        rt.alloc(),
        &words,
        b"13000000\n",
        b"00000013 addi x0, x0, 0\n",
        SUCCESS,
    );
}

#[test]
fn refuses_other_words(rt: HostRuntime) {
    let line = b"rvbench: command line\n";
    expect_performed(
        &rt,
        rt.alloc(),
        &["rvbench", "walk"],
        INPUT,
        line,
        BAD_COMMAND_LINE,
    );
    expect_performed(
        &rt,
        rt.alloc(),
        &["rvbench", "run", "--ram", "many"],
        INPUT,
        line,
        BAD_COMMAND_LINE,
    );
}

#[test]
fn reports_the_errors_of_inputs(rt: HostRuntime) {
    let asm = ["rvbench", "asm"];
    expect_performed(
        &rt,
        rt.alloc(),
        &asm,
        b"nop\nfoo\n",
        b"rvbench: line 2 fault 2\n",
        FAILURE,
    );
    expect_performed(
        &rt,
        rt.alloc(),
        &["rvbench"],
        b"0\n--\n",
        b"rvbench: hex\n",
        FAILURE,
    );
    let words = ["rvbench", "run", "--kind", "elf"];
    expect_performed(
        &rt,
        rt.alloc(),
        &words,
        b"7f45\n--\n",
        b"rvbench: image 1\n",
        FAILURE,
    );
    let words = ["rvbench", "run", "--ram", "1"];
    expect_performed(&rt, rt.alloc(), &words, INPUT, b"rvbench: ram 1\n", FAILURE);
}

#[test]
fn gives_help(rt: HostRuntime) {
    let mut buffer = [0u8; 8192];
    let mut sink = MemorySink::new(&mut buffer);
    let (source, status) = perform(
        rt.alloc(),
        &["rvbench", "--help"],
        MemorySource::new(INPUT),
        &mut sink,
    );
    expect_number(&rt, u64::from(status), u64::from(SUCCESS), 0);
    expect_bytes(&rt, source.rest(), INPUT, 0);
    assert!(&rt; sink.bytes().len() > 500);
}

#[test]
fn reads_nothing_for_refused_arguments(rt: HostRuntime) {
    let mut buffer = [0u8; 64];
    let mut sink = MemorySink::new(&mut buffer);
    let words = ["rvbench", "walk"];
    let (source, status) = perform(rt.alloc(), &words, MemorySource::new(INPUT), &mut sink);
    expect_number(&rt, u64::from(status), u64::from(BAD_COMMAND_LINE), 0);
    expect_bytes(&rt, source.rest(), INPUT, 0);
}

#[test]
fn reads_the_input_of_a_job_to_its_end(rt: HostRuntime) {
    let mut buffer = [0u8; 128];
    let mut sink = MemorySink::new(&mut buffer);
    let (source, _) = perform(
        rt.alloc(),
        &["rvbench"],
        MemorySource::new(INPUT),
        &mut sink,
    );
    expect_bytes(&rt, source.rest(), b"", 0);
}

/// Expects the line and the exit status for an error of the arguments.
fn expect_refused(rt: &impl Abort, fault: &WordsFault, wanted_output: &[u8], wanted_status: u8) {
    let mut buffer = [0u8; 64];
    let mut sink = FaultySink::new(&mut buffer, 64, NEVER, SinkFault::Fail);
    expect_number(
        rt,
        u64::from(refuse(fault, &mut sink)),
        u64::from(wanted_status),
        0,
    );
    expect_bytes(rt, sink.bytes(), wanted_output, 0);
    expect_number(rt, sink.calls(), 2, 0);
}

#[test]
fn reports_why_arguments_are_refused(rt: HostRuntime) {
    expect_refused(
        &rt,
        &WordsFault::Refused,
        b"rvbench: command line\n",
        BAD_COMMAND_LINE,
    );
    expect_refused(&rt, &WordsFault::NoMemory, b"rvbench: memory\n", FAILURE);
    let help = String::from_str(rt.alloc(), "help\n").expect(&rt, "a text");
    expect_refused(&rt, &WordsFault::Help(help), b"help\n", SUCCESS);
}

#[test]
fn reports_a_failed_read(rt: HostRuntime) {
    let mut buffer = [0u8; 128];
    let mut sink = FaultySink::new(&mut buffer, 128, NEVER, SinkFault::Fail);
    // the source returns one byte in each call; call 21 is in the second line of the script
    let source = FaultySource::new(INPUT, 1, 21);
    let (_, status) = perform(rt.alloc(), &["rvbench"], source, &mut sink);
    expect_number(&rt, u64::from(status), u64::from(FAILURE), 0);
    let written = b"ran 1 pc=80000004 mode=M world=bare why=done trap=-\nrvbench: read\n";
    expect_bytes(&rt, sink.bytes(), written, 0);
}

/// Expects the output and the exit status if the sink fails at a call, and that it is not called after that.
fn expect_failed_write(
    rt: &impl Abort,
    alloc: Global,
    input: &[u8],
    faulty_call: u64,
    wanted_output: &[u8],
    wanted_status: u8,
) {
    let mut buffer = [0u8; 128];
    let mut sink = FaultySink::new(&mut buffer, 128, faulty_call, SinkFault::Fail);
    let (_, found) = perform(alloc, &["rvbench"], MemorySource::new(input), &mut sink);
    expect_bytes(rt, sink.bytes(), wanted_output, faulty_call);
    expect_number(rt, u64::from(found), u64::from(wanted_status), faulty_call);
    expect_number(rt, sink.calls(), faulty_call, faulty_call);
}

#[test]
fn reports_a_failed_write_by_its_status(rt: HostRuntime) {
    // the first reply, the second, and the flush after them
    expect_failed_write(&rt, rt.alloc(), INPUT, 1, b"", FAILURE);
    expect_failed_write(&rt, rt.alloc(), INPUT, 2, &OUTPUT[..52], FAILURE);
    expect_failed_write(&rt, rt.alloc(), INPUT, 3, OUTPUT, FAILURE);
    // the line of an error, and the flush after it
    expect_failed_write(&rt, rt.alloc(), b"0\n", 1, b"", FAILURE);
    expect_failed_write(&rt, rt.alloc(), b"0\n", 2, b"rvbench: hex\n", FAILURE);
}

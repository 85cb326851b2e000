//! The program, from its arguments to its exit status.

ghost use Rattle.std.specs.Prelude.{◌≡◌, ◌≤◌, ◌++◌, IfOk, OnOk, OnErr, codes, decimal, length, map, string_bytes};
ghost use Rattle.clap.specs.Walk.{texts};
ghost use Rattle.rv_asm.specs.Faults.{asm_fault_number};
ghost use Rattle.rv_bench.specs.FaultText.{fault_text};
ghost use Rattle.rv_bench.specs.Performing.{DoesAndReports, Performs, PerformsGiven, Refuses, WritesAll, WritesOnlyPrefix};
ghost use Rattle.rv_bench.specs.ProgramOutput.{given_by, Means, MeansGiven, RunsProgram};

use crate::job::run_job;
use rv_asm::AsmFault;
use rv_command_line::{Job, WordsFault, read_words};
use rv_streams::{BenchFault, DeviceFault, Sink, Source, write_all};
use rv_text::{Reply, push_count, push_text};
use std::alloc::{AllocError, Global};

/// The status of a job that succeeded, and of help.
const DONE: u8 = 0;

/// The status of a job that failed.
const FAILED: u8 = 1;

/// The status of a command line that is refused.
const REFUSED: u8 = 2;

/// Returns the line of an error that has a number.
fn numbered(text: &str, number: u8) -> Reply
    requires { length text.now ≤ 120 }
    ensures { result.items ≡ text.now ++ (decimal number ++ codes "\n") }
{
    let mut line = Reply::new();
    push_text(&mut line, text);
    push_count(&mut line, u64::from(number));
    push_text(&mut line, "\n");
    line
}

/// Returns a line with this text.
fn line_of(text: &str) -> Reply
    requires { length text.now ≤ 120 }
    ensures { result.items ≡ text.now }
{
    let mut line = Reply::new();
    push_text(&mut line, text);
    line
}

/// Returns the line of an error in an assembler text.
fn asm_line(fault: AsmFault) -> Reply
    ensures { result.items ≡ codes "rvbench: line " ++ (decimal fault.line ++ (codes " fault " ++ (decimal (asm_fault_number fault.kind) ++ codes "\n"))) }
{
    let mut line = Reply::new();
    push_text(&mut line, "rvbench: line ");
    push_count(&mut line, fault.line as u64);
    push_text(&mut line, " fault ");
    push_count(&mut line, u64::from(fault.kind.number()));
    push_text(&mut line, "\n");
    line
}

/// Returns the line of an error. It is empty for an error of the output.
#[tactic(auto, unfolding(crate::specs::FaultText::fault_text))]
fn fault_line(fault: BenchFault) -> Reply
    ensures { result.items ≡ fault_text fault }
{
    match fault {
        BenchFault::Image(fault) => numbered("rvbench: image ", fault.number()),
        BenchFault::Ram(fault) => numbered("rvbench: ram ", fault.number()),
        BenchFault::Read => line_of("rvbench: read\n"),
        BenchFault::Write => Reply::new(),
        BenchFault::Hex => line_of("rvbench: hex\n"),
        BenchFault::TooLong => line_of("rvbench: too long\n"),
        BenchFault::NoMemory => line_of("rvbench: memory\n"),
        BenchFault::Asm(fault) => asm_line(fault),
    }
}

/// Writes a text, and flushes the sink.
///
/// # Errors
///
/// `DeviceFault`, if the sink failed in this call, or took no byte of a part that was not empty. A prefix of the text is then written.
fn report<W: Sink>(sink: &mut W, text: &[u8]) -> Result<(), DeviceFault>
    ensures all { OnOk result (WritesAll W.Sink sink.old sink.new text.now) }
    ensures prefix { OnErr result (WritesOnlyPrefix W.Sink sink.old sink.new text.now) }
{
    write_all(sink, text)?;
    sink.flush()
}

/// Writes why arguments name no job, and returns the status. If the line for a refusal cannot be written, the status is the same. If help cannot
/// be written, it is 1.
pub fn refuse<W: Sink>(fault: &WordsFault, sink: &mut W) -> u8
    ensures { Refuses W.Sink sink.old sink.new fault.now result }
{
    match fault {
        WordsFault::Refused => {
            let _ = report(sink, b"rvbench: command line\n");
            REFUSED
        }
        WordsFault::NoMemory => {
            let _ = report(sink, b"rvbench: memory\n");
            FAILED
        }
        WordsFault::Help(text) => match report(sink, text.as_bytes()) {
            Ok(()) => DONE,
            Err(_) => FAILED,
        },
    }
}

/// Performs a job, and writes the line of its error. Returns the source as the job left it, and the status. If the line cannot be written,
/// the status is the same.
fn done<S: Source, W: Sink>(alloc: Global, job: &Job, source: S, sink: &mut W) -> (S, u8)
    ensures { DoesAndReports S.Source W.Sink source result.0 sink.old sink.new job.now result.1 }
{
    let (left, outcome) = run_job(alloc, job, source, sink);
    match outcome {
        Ok(()) => (left, DONE),
        Err(BenchFault::Write) => (left, FAILED),
        Err(fault) => {
            let _ = report(sink, fault_line(fault).as_slice());
            (left, FAILED)
        }
    }
}

/// Performs the job that the arguments request, as `perform` does.
fn performed<'a, S: Source, W: Sink>(
    alloc: Global,
    words: &'a [&'a str],
    source: S,
    sink: &mut W,
) -> (S, u8)
    ensures { Performs S.Source W.Sink source result.0 sink.old sink.new (texts words.entry.now) result.1 }
{
    match read_words(alloc, words) {
        Ok(job) => done(alloc, &job, source, sink),
        Err(fault) => {
            let status = refuse(&fault, sink);
            (source, status)
        }
    }
}

/// Performs the job that the arguments request, from a source to a sink. The first argument is the name of the program. Returns the source
/// and the status. The source is as the job left it. If the arguments are refused or request help, nothing was read from it. The status is:
/// - 0 if the job succeeded, or the requested help was written, and the sink was flushed afterwards;
/// - 1 after an error. Its line follows the output of the job. An error of the output itself has no line;
/// - 2 if the arguments are refused. A line reports this too.
///
/// `effects` has every effect on the source and the sink. `output` says what is written: the output of the program (`program_output`), unless a
/// device fails or memory is refused.
pub fn perform<'a, S: Source, W: Sink>(
    alloc: Global,
    words: &'a [&'a str],
    source: S,
    sink: &mut W,
) -> (S, u8)
    ensures effects { Performs S.Source W.Sink source result.0 sink.old sink.new (texts words.entry.now) result.1 }
    ensures output { RunsProgram S.Source W.Sink source result.0 sink.old sink.new (Means (texts words.entry.now)) result.1 }
{
    performed(alloc, words, source, sink)
}

/// Returns the texts of strings.
fn texts_of<'a>(alloc: Global, words: &'a [String]) -> Result<Vec<&'a str>, AllocError>
    ensures { IfOk result (λ found. texts found.items ≡ map string_bytes words.entry.now) }
{
    let mut found = Vec::new(alloc);
    for word in words {
        found.push(word.as_str())?;
    }
    Ok(found)
}

/// Performs the job that the arguments of a process request, as `perform` does and with its clauses. If they could not be read, a line reports
/// the reason, and nothing is read from the source.
pub fn perform_arguments<S: Source, W: Sink>(
    alloc: Global,
    arguments: &Result<Vec<String>, WordsFault>,
    source: S,
    sink: &mut W,
) -> (S, u8)
    ensures effects { PerformsGiven S.Source W.Sink source result.0 sink.old sink.new (given_by arguments.now) result.1 }
    ensures output { RunsProgram S.Source W.Sink source result.0 sink.old sink.new (MeansGiven (given_by arguments.now)) result.1 }
{
    match arguments {
        Ok(words) => match texts_of(alloc, words.as_slice()) {
            Ok(texts) => perform(alloc, texts.as_slice(), source, sink),
            Err(AllocError) => {
                let status = refuse(&WordsFault::NoMemory, sink);
                (source, status)
            }
        },
        Err(fault) => {
            let status = refuse(fault, sink);
            (source, status)
        }
    }
}

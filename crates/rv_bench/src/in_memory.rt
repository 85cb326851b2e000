//! A job, and the program, from bytes in memory to bytes in memory.

ghost use Rattle.std.specs.Prelude.{◌≡◌, IfOk, IfErr, Ok};
ghost use Rattle.clap.specs.Walk.{texts};
ghost use Rattle.rv_bench.specs.InMemory.{FailsInMemory, RunsInMemory};
ghost use Rattle.rv_bench.specs.ProgramOutput.{job_output};

use crate::job::run_job;
use crate::program::perform;
use rv_command_line::Job;
use rv_streams::{BenchFault, MemorySource, VecSink};
use std::alloc::{AllocError, Global};

/// Returns the output of a job for an input. It calls `run_job` over a slice and a vector. [`laws`](crate::laws) has the isolation theorems about this
/// output.
///
/// # Errors
///
/// Those of `run_job`, except `Read` and `Write`: no device fails but the vector if memory is refused, and this is reported as `NoMemory`.
pub fn run_in_memory(alloc: Global, job: &Job, input: &[u8]) -> Result<Vec<u8>, BenchFault>
    ensures ok { IfOk result (λ written. job_output job.now input.now ≡ Ok written.items) }
    ensures fault { IfErr result (FailsInMemory job.now input.now) }
{
    let mut sink = VecSink::new(alloc);
    let (_, outcome) = run_job(alloc, job, MemorySource::new(input), &mut sink);
    match outcome {
        Ok(()) => Ok(sink.into_bytes()),
        Err(BenchFault::Write) => Err(BenchFault::NoMemory),
        Err(fault) => Err(fault),
    }
}

/// Runs the program for these arguments and this input. Returns what it writes, and its exit status. The first argument is the name of the
/// program.
///
/// # Errors
///
/// `AllocError`, if memory for the output was refused.
pub fn run_program<'a>(
    alloc: Global,
    words: &'a [&'a str],
    input: &[u8],
) -> Result<(Vec<u8>, u8), AllocError>
    ensures { IfOk result (λ written. RunsInMemory (texts words.entry.now) input.now written.0.items written.1) }
{
    let mut sink = VecSink::new(alloc);
    let (_, status) = perform(alloc, words, MemorySource::new(input), &mut sink);
    if sink.has_failed() {
        return Err(AllocError);
    }
    Ok((sink.into_bytes(), status))
}

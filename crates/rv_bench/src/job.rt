//! The jobs of the program.

ghost use Rattle.rv_bench.specs.Jobs.{DoesJob};
ghost use Rattle.rv_bench.specs.ProgramOutput.{MeetsOutput};

use crate::run::run_stream;
use crate::twin::run_twin;
use rv_command_line::Job;
use rv_streams::{BenchFault, Lines, Sink, Source, run_asm, run_dis};
use std::alloc::Global;

/// Calls the function of a job, as `run_job` does.
fn dispatch<S: Source, W: Sink>(
    alloc: Global,
    job: &Job,
    source: S,
    sink: &mut W,
) -> (S, Result<(), BenchFault>)
    ensures { DoesJob S.Source W.Sink source result.0 sink.old sink.new job.now result.1 }
{
    match job {
        Job::Run(setup) => {
            let mut lines = Lines::new(source);
            let outcome = run_stream(alloc, setup, &mut lines, sink);
            (lines.into_source(), outcome)
        }
        Job::Twin(setup, slot) => {
            let mut lines = Lines::new(source);
            let outcome = run_twin(alloc, setup, *slot, &mut lines, sink);
            (lines.into_source(), outcome)
        }
        Job::Asm => {
            let mut source = source;
            let outcome = run_asm(alloc, &mut source, sink);
            (source, outcome)
        }
        Job::Dis => {
            let mut lines = Lines::new(source);
            let outcome = run_dis(alloc, &mut lines, sink);
            (lines.into_source(), outcome)
        }
    }
}

/// Performs a job from a source to a sink, and returns the source with the outcome of the call. The unfinished line that was read, if any, is
/// discarded. `outcome` has all effects of each result. `output` says what is written, by the output of the job for the input.
///
/// # Errors
///
/// - those of `run_stream` if the job is `Run`;
/// - those of `run_twin` if it is `Twin`;
/// - those of `run_asm` if it is `Asm`;
/// - those of `run_dis` if it is `Dis`.
pub fn run_job<S: Source, W: Sink>(
    alloc: Global,
    job: &Job,
    source: S,
    sink: &mut W,
) -> (S, Result<(), BenchFault>)
    ensures outcome { DoesJob S.Source W.Sink source result.0 sink.old sink.new job.now result.1 }
    ensures output { MeetsOutput S.Source W.Sink source result.0 sink.old sink.new job.now result.1 }
{
    dispatch(alloc, job, source, sink)
}

//! Reads the job from the arguments.

ghost use Rattle.std.specs.Prelude.{◌≡◌, if◌then◌else◌, IfErr, IfOk, OnOk, Ok, Err, List, [], codes, option_and_then, true};
ghost use Rattle.clap.specs.Kinds.{HasKind, Kinds};
ghost use Rattle.clap.specs.Walk.{texts};
ghost use Rattle.clap.specs.Words.{first_of, found_of, one_of, rows_of, subcommand_rows_of};
ghost use Rattle.rv_command_line.specs.Faults.{IsFaultOf};
ghost use Rattle.rv_command_line.specs.Job.{are_options_read, harts_in_text, has_its_monitor, is_valid_job, job_of, kind_of, named_job};
ghost use Rattle.rv_command_line.specs.Job.{number_in_text, run_of, setup_of, truth_in_text, twin_of};
ghost use Rattle.rv_command_line.specs.Refusals.{refusals_of};

use crate::command_line::rvbench_command;
use crate::image_kind::ImageKind;
use crate::job::Job;
use crate::setup::Setup;
use crate::words_fault::WordsFault;
use clap::error::ErrorKind;
use clap::{ArgMatches, Error};
use rv_memory::Harts;
use std::alloc::Global;

/// Returns the image format in the options, if it is given.
fn matched_kind(matches: &ArgMatches<'_>) -> Option<ImageKind>
    ensures { result ≡ option_and_then kind_of (first_of (codes "kind") (rows_of (found_of matches.now))) }
{
    ImageKind::named(matches.get_str("kind")?)
}

/// Returns the number that an option has, if it is given.
fn matched_number(matches: &ArgMatches<'_>, id: &str) -> Option<u32>
    ensures { result ≡ option_and_then (number_in_text 32) (one_of id.now (rows_of (found_of matches.now))) }
{
    matches.get_one(id)
}

/// Returns the number of 8 bits that an option has, if it is given.
fn matched_byte(matches: &ArgMatches<'_>, id: &str) -> Option<u8>
    ensures { result ≡ option_and_then (number_in_text 8) (one_of id.now (rows_of (found_of matches.now))) }
{
    matches.get_one(id)
}

/// Returns the number of harts in the options, if it is given.
fn matched_harts(matches: &ArgMatches<'_>) -> Option<Harts>
    ensures { result ≡ option_and_then harts_in_text (one_of (codes "harts") (rows_of (found_of matches.now))) }
{
    Harts::counted(matched_byte(matches, "harts")?)
}

/// Returns whether a flag is set, if the command line has it.
fn matched_flag(matches: &ArgMatches<'_>, id: &str) -> Option<bool>
    ensures { result ≡ option_and_then truth_in_text (one_of id.now (rows_of (found_of matches.now))) }
{
    matches.get_one(id)
}

/// Returns the setup from the options `--kind`, `--ram` and `--harts`, with or without the monitor.
fn matched_setup(matches: &ArgMatches<'_>, monitored: bool) -> Setup
    ensures { result ≡ setup_of monitored (rows_of (found_of matches.now)) }
{
    let default = Setup::default();
    Setup {
        kind: matched_kind(matches).unwrap_or(default.kind),
        ram: matched_number(matches, "ram").unwrap_or(default.ram),
        monitored,
        harts: matched_harts(matches).unwrap_or(default.harts),
    }
}

/// Returns the job of `run` with its options.
fn matched_run(matches: &ArgMatches<'_>) -> Job
    ensures { result ≡ run_of (rows_of (found_of matches.now)) }
{
    let monitored = matched_flag(matches, "monitor").unwrap_or(Setup::default().monitored);
    Job::Run(matched_setup(matches, monitored))
}

/// Returns the job of `twin` with its options. Its benches always have the monitor.
fn matched_twin(matches: &ArgMatches<'_>) -> Job
    ensures { result ≡ twin_of (rows_of (found_of matches.now)) }
{
    Job::Twin(
        matched_setup(matches, true),
        matched_byte(matches, "slot").unwrap_or(0),
    )
}

/// Returns the job of the subcommand in the arguments.
fn matched_job(matches: &ArgMatches<'_>) -> Job
    ensures { result ≡ named_job (subcommand_rows_of matches.now) }
{
    match matches.subcommand() {
        Some(("asm", _)) => Job::Asm,
        Some(("dis", _)) => Job::Dis,
        Some(("twin", options)) => matched_twin(options),
        Some((_, options)) => matched_run(options),
        None => Job::Run(Setup::default()),
    }
}

/// Returns the job, or `Refused` if it has two harts without the monitor.
fn with_its_monitor(job: Job) -> Result<Job, WordsFault>
    ensures { result ≡ if has_its_monitor job then Ok job else Err WordsFault.Refused }
{
    if job.has_its_monitor() {
        Ok(job)
    } else {
        Err(WordsFault::Refused)
    }
}

/// Converts an error of `clap`.
fn fault(alloc: Global, error: &Error) -> WordsFault
    ensures { (faults : Kinds) → HasKind faults error.now → IsFaultOf faults result }
{
    match error.kind() {
        ErrorKind::OutOfMemory => WordsFault::NoMemory,
        ErrorKind::DisplayHelp => match format!(in alloc; "{error}") {
            Ok(text) => WordsFault::Help(text),
            Err(_) => WordsFault::NoMemory,
        },
        _ => WordsFault::Refused,
    }
}

/// Reads the job from the arguments of a command line. The first argument is the program's name. A default is used only for an option that is
/// not given. A job with two benches has the monitor, and one of the thirteen slots.
///
/// # Errors
///
/// One of these, and only if its condition holds:
/// - `Help` with its text: the arguments ask for help.
/// - `Refused`: the command line does not accept the arguments, or they have two harts without the monitor.
/// - `NoMemory`: memory is exhausted, which may happen with any arguments.
pub fn read_words<'a>(alloc: Global, words: &'a [&'a str]) -> Result<Job, WordsFault>
    ensures taken { OnOk result (refusals_of (texts words.entry.now) ≡ []) }
    ensures job { IfOk result (λ job. job ≡ job_of (texts words.entry.now)) }
    ensures read { OnOk result (are_options_read (texts words.entry.now) ≡ true) }
    ensures valid { IfOk result (λ job. is_valid_job job ≡ true) }
    ensures monitor { IfOk result (λ job. has_its_monitor job ≡ true) }
    ensures fault { IfErr result (IsFaultOf (refusals_of (texts words.entry.now))) }
{
    let Ok(command) = rvbench_command(alloc) else {
        return Err(WordsFault::NoMemory);
    };
    match command.try_get_matches_from(words) {
        Ok(matches) => with_its_monitor(matched_job(&matches)),
        Err(error) => Err(fault(alloc, &error)),
    }
}

//! Runs the program over the standard streams: passes the arguments and the streams to `run_over_streams`, and exits with its status.
#![tactic(auto)]

use rv_bench::{WordsFault, run_over_streams};
use std::env;
use std::process::ExitCode;

fn main(rt: HostRuntime) -> ExitCode {
    let arguments = match env::args(&rt) {
        Ok(words) => words
            .collect::<Vec<String>>(rt.alloc())
            .map_err(|_| WordsFault::NoMemory),
        Err(error) => Err(WordsFault::of_unreadable(&error)),
    };
    let (_, _, status) = run_over_streams(rt.alloc(), &arguments, rt.stdin(), rt.stdout());
    ExitCode::from(status)
}

//! The debugger commands of the bench: the effect of each, and the text of its reply. The crate `rv_script` parses lines to commands.
//!
//! The specs are named after what they define. `Execute` defines the effect of each command and its reply, and `ReplyText` and `EnclaveText` the
//! texts. `Steps` defines runs of steps. `Targets` defines the parts of a target that commands use, and `BenchState` the state that commands
//! show and change.
//!
//! ```text
//! let mut bench = Bench::bare(machine);
//! let mut reply = Reply::new();
//! bench.execute_line(b"step 1", &mut reply);
//! // ran 1 pc=80000004 mode=M world=bare why=done trap=-
//! ```
#![tactic(auto)]

mod addresses;
mod backoff;
mod bench;
mod both;
mod enclaves;
mod execute;
mod free_limits;
pub mod laws;
mod reply;
mod scheduled;
mod selected_hart;
mod steps;
mod target;

pub use bench::Bench;
pub use both::{Both, BothLine, BothWhy, both_command, both_line, run_both};
pub use rv_script::{ByteCount, Command, CommandFault, Schedule, StepCount, Within, parse};
pub use selected_hart::SelectedHart;
pub use target::Target;

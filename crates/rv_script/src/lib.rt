//! The language of scripts: the commands of the bench, and the parser of a line. Another crate executes the commands.
//!
//! In the specs, `Command` is the table of the commands and their operands. `Numbers` and `Within` define the numbers in operands, and
//! `Schedules` the hart of each step.
//!
//! ```text
//! parse(b"step 1")    // Ok(Command::Step(count)), where count.get() is 1
//! parse(b"step 0")    // Err(CommandFault::BadOperand)
//! ```
#![tactic(auto)]

mod command;
mod keyword;
mod numbers;
mod schedule;
mod within;

pub use command::{ByteCount, Command, CommandFault, StepCount, parse};
pub use schedule::{Schedule, hart};
pub use within::Within;

//! The command line of the bench, read with the crate `clap`:
//! - `rvbench` and `rvbench run` run the bench.
//! - `rvbench run --ram 65536` runs it with a RAM of this size in bytes.
//! - `rvbench run --kind elf` runs it with an ELF file as its image.
//! - `rvbench run --monitor` runs the image as the host above the monitor.
//! - `rvbench run --monitor --harts 2` runs it with two harts under the monitor.
//! - `rvbench twin` runs two monitored benches that differ in one enclave.
//! - `rvbench twin --slot 3` runs two that differ in the enclave in slot 3.
//! - `rvbench twin --harts 2` runs two with two harts each.
//! - `rvbench asm` assembles, and `rvbench dis` disassembles.
//!
//! In the specs, `CommandLine` defines the command line, `Job` the job of its arguments, and `Refusals` the errors of arguments that give no
//! job.
//!
//! ```text
//! read_words(alloc, &["rvbench", "run", "--ram", "65536"])?; // Job::Run(Setup { ram: 65536, ..Setup::default() })
//! read_words(alloc, &["rvbench", "twin", "--slot", "3"])?; // Job::Twin(Setup { monitored: true, ..Setup::default() }, 3)
//! read_words(alloc, &["rvbench", "dis"])?; // Job::Dis
//! read_words(alloc, &["rvbench", "run", "--harts", "2"]); // Err(WordsFault::Refused): two harts need the monitor
//! read_words(alloc, &["rvbench", "fly"]); // Err(WordsFault::Refused)
//! ```
#![tactic(auto)]

mod command_line;
mod image_kind;
mod job;
mod reading;
mod setup;
mod subcommands;
mod words_fault;

pub use image_kind::ImageKind;
pub use job::Job;
pub use reading::read_words;
pub use rv_memory::Harts;
pub use setup::Setup;
pub use words_fault::WordsFault;

//! The bench from bytes to bytes. An image and a script are read from a [`Source`], and the replies are written to a [`Sink`]. In the same way a
//! text is assembled, and an image disassembled.
//!
//! The crate `rv_debug` executes the lines of a script. The crate `rv_streams` has lines, images and the jobs that need no bench. The specs have
//! an equation for each result of a call, about what was read, held and written: `Run` (of `run_bench`), `Stream`, `Twin` and `Jobs`. `Output`,
//! `Replies` and `Pair` define the texts that are written.
//!
//! ```text
//! let mut lines = Lines::new(MemorySource::new(b"9300f0ff\n--\nstep 1\nreg 1\n"));
//! let mut sink = MemorySink::new(&mut buffer);
//! run_stream(alloc, &Setup::default(), &mut lines, &mut sink)?;
//! // ran 1 pc=80000004 mode=M world=bare why=done trap=-
//! // x1=ffffffff
//! ```
#![tactic(auto)]

mod equal;
mod in_memory;
mod job;
pub mod laws;
mod pair;
mod program;
mod responder;
mod run;
mod standard;
mod start;
mod twin;

pub use in_memory::{run_in_memory, run_program};
pub use job::run_job;
pub use program::{perform, perform_arguments, refuse};
pub use run::{run_bench, run_stream};
pub use rv_command_line::{Harts, ImageKind, Job, Setup, WordsFault, read_words};
pub use rv_elf::ElfFault;
pub use rv_streams::{
    ASM_TEXT_MAX, BenchFault, BufferedSource, DeviceFault, IMAGE_MAX, Line, Lines, MemorySink,
    MemorySource, ReaderSource, Sink, Source, VecSink, WriterSink, read_image, run_asm, run_dis,
};
pub use standard::run_over_streams;
pub use twin::run_twin;

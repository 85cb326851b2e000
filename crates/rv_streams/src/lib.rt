//! The streams of the program: a [`Source`] and a [`Sink`] of bytes, the lines of a source, and the image in them. Two commands that need no
//! bench are here too: assembling a text, and disassembling an image.
//!
//! The specs define each result of a call, with the bytes that were read, kept and written: `ReadImage`, `Assemble` and `Disassemble`, based on
//! `Unread` and `Script`. `AssemblyText` and `DisassemblyText` define the texts that are written.
//!
//! ```text
//! let mut source = MemorySource::new(b"addi x1, x0, -1\n");
//! let mut sink = MemorySink::new(&mut buffer);
//! run_asm(alloc, &mut source, &mut sink)?;
//! // 9300f0ff
//! ```
#![tactic(auto)]

mod asm;
mod buffered;
mod device;
mod dis;
mod fault;
mod gathered;
mod held;
mod image;
mod line;
mod lines;
mod log;
mod memory;
mod room;
mod separator;
mod stdio;
mod transfer;
mod whole;

pub use asm::run_asm;
pub use buffered::BufferedSource;
pub use device::{DeviceFault, Sink, Source};
pub use dis::run_dis;
pub use fault::BenchFault;
pub use gathered::write_last;
pub use held::BufferedSink;
pub use image::{IMAGE_MAX, read_image};
pub use line::Line;
pub use lines::Lines;
pub use log::CallLog;
pub use memory::{MemorySink, MemorySource, VecSink};
pub use separator::ScriptEnd;
pub use stdio::{ReaderSource, WriterSink};
pub use transfer::{write_all, write_reply};
pub use whole::ASM_TEXT_MAX;

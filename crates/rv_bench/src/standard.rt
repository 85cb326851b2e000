//! The program over a reader and a writer of std, such as the standard streams.

ghost use Rattle.std.specs.Prelude.{ℕ, List};
ghost use Rattle.rv_bench.specs.ProgramOutput.{given_by};
ghost use Rattle.rv_bench.specs.Standard.{RunsOverStreams};

use crate::program::perform_arguments;
use rv_command_line::WordsFault;
use rv_streams::{BufferedSink, BufferedSource, ReaderSource, WriterSink};
use std::alloc::Global;
use std::io::{Read, Write};

/// Runs the program from a reader to a writer. Returns the reader and the writer with the logs of their calls, and the exit status. The status
/// and the output are those of `perform_arguments`.
///
/// The contract holds for every list of bytes `input`. If the reader gave this input, the bytes that were passed to the writer are the output
/// of the program for it, unless a device failed or memory was refused.
pub fn run_over_streams<R: Read, W: Write>(
    alloc: Global,
    arguments: &Result<Vec<String>, WordsFault>,
    reader: R,
    writer: W,
) -> (ReaderSource<R>, WriterSink<W>, u8)
    ghost input: { List ℕ }
    ensures { RunsOverStreams (given_by arguments.now) input result.0.log result.1.log result.2 }
{
    let passing = WriterSink::new(writer);
    let mut sink = BufferedSink::new(passing);
    let source = BufferedSource::new(ReaderSource::new(reader));
    let (source, status) = perform_arguments(alloc, arguments, source, &mut sink);
    (source.into_source(), sink.into_sink(), status)
}

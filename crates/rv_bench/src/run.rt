//! The run of a script, from the lines that are read to the replies that are written.

ghost use Rattle.std.specs.Prelude.{◌≡◌, false};
ghost use Rattle.rv_bench.specs.Responses.{RespondsToScript};
ghost use Rattle.rv_bench.specs.Run.{RunsBench, RunsLines};
ghost use Rattle.rv_bench.specs.Stream.{RunsStream};
ghost use Rattle.rv_streams.specs.Unread.{EndsWithSource};

use crate::responder::Responder;
use crate::start::start;
use rv_command_line::Setup;
use rv_debug::Bench;
use rv_streams::{BenchFault, Lines, ScriptEnd, Sink, Source, read_image, write_reply};
use std::alloc::Global;
use std::convert::AsSlice;

/// Responds to the lines of a script, and writes each response. Before it waits for a line, it passes on what the sink holds. It ends at the end
/// of the script, or after the line at which the responder is over, which is the last line that is read. It allocates no memory.
pub(crate) fn run_lines<T: Responder, S: Source, W: Sink>(
    responding: &mut T,
    lines: &mut Lines<S>,
    sink: &mut W,
    end: ScriptEnd,
) -> Result<(), BenchFault>
    requires { (T.responding responding.old).is_over (T.state responding.old) ≡ false }
    ensures outcome { RespondsToScript W.Sink (T.responding responding.old) end (T.state responding.old) (T.state responding.new)
        lines.old lines.new sink.old sink.new result }
    ensures end { EndsWithSource lines.old lines.new }
{
    let mut told = T::Told::default();
    while let Some(line) = lines.next_line_before(end).map_err(|_| BenchFault::Read)? {
        responding.respond_to_line(line.as_slice(), &mut told);
        let is_last = !lines.has_line_ahead();
        write_reply(sink, told.as_slice(), is_last).map_err(|_| BenchFault::Write)?;
        if responding.is_over() {
            return Ok(());
        }
    }
    Ok(())
}

/// Writes the reply of a bench to each line until the source reports its end, and then flushes the sink.
fn run_script<S: Source, W: Sink>(
    bench: &mut Bench,
    lines: &mut Lines<S>,
    sink: &mut W,
) -> Result<(), BenchFault>
    ensures outcome { RunsLines W.Sink ScriptEnd.Input bench.old lines.old lines.new sink.old sink.new result }
    ensures end { EndsWithSource lines.old lines.new }
{
    run_lines(bench, lines, sink, ScriptEnd::Input)?;
    sink.flush().map_err(|_| BenchFault::Write)
}

/// Loads an image into the RAM of a new machine, and writes the reply to each line until the source reports its end. A monitored bench has as
/// many harts as the setup specifies; any other bench has one. Once the RAM exists, no memory is allocated.
///
/// [`laws`](crate::laws) has the isolation theorems about the replies.
///
/// # Errors
///
/// In this order; with the first three, nothing is read or written:
/// - `Ram(BadSize)`, if and only if the RAM's size is not a multiple of 65536, from 65536 to 16777216;
/// - `Ram(NoMemory)`, if memory for the RAM was refused;
/// - `Image`, if the image does not load, with the error of the lowest number that it has;
/// - `Read`, if the source failed in this call. The complete lines have their replies, and the line that was begun stays in `lines`;
/// - `Write`, if the sink failed in this call, or took no byte of a part that was not empty. A prefix of the replies is written.
pub fn run_bench<S: Source, W: Sink>(
    alloc: Global,
    image: &[u8],
    setup: &Setup,
    lines: &mut Lines<S>,
    sink: &mut W,
) -> Result<(), BenchFault>
    ensures outcome { RunsBench W.Sink image.now setup.now lines.old lines.new sink.old sink.new result }
    ensures end { EndsWithSource lines.old lines.new }
{
    let mut bench = start(alloc, image, setup)?;
    run_script(&mut bench, lines, sink)
}

/// Reads an image, and then runs the lines after it as `run_bench` does. [`laws`](crate::laws) has the isolation theorems about the output.
///
/// # Errors
///
/// The first of these that occurs. Nothing is written, except with the last two:
/// - while the image is read, in the order of its lines: `Read`, `Hex`, `TooLong` and `NoMemory`, as `read_image` returns them;
/// - `Ram`, then `Image`, as `run_bench` returns them;
/// - `Read`, if the source failed in this call. The complete lines have their replies, and the line that was begun stays in `lines`;
/// - `Write`, if the sink failed in this call, or took no byte of a part that was not empty. A prefix of the replies is written.
pub fn run_stream<S: Source, W: Sink>(
    alloc: Global,
    setup: &Setup,
    lines: &mut Lines<S>,
    sink: &mut W,
) -> Result<(), BenchFault>
    ensures outcome { RunsStream W.Sink setup.now lines.old lines.new sink.old sink.new result }
    ensures end { EndsWithSource lines.old lines.new }
{
    let image = read_image(alloc, lines)?;
    run_bench(alloc, image.as_slice(), setup, lines, sink)
}

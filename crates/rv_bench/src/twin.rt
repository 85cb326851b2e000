//! The twin run: two benches execute the same script, and differ in what is private to an enclave.

ghost use Rattle.std.specs.Prelude.{◌≡◌, Ok, Err, Some, None, MatchOption, MatchResult, IfSome, [], false};
ghost use Rattle.rv_bench.specs.Pair.{make_pair as make_pair_of, no_slot_text};
ghost use Rattle.rv_bench.specs.Loaded.{Starts, started};
ghost use Rattle.rv_bench.specs.Replies.{one_bench};
ghost use Rattle.rv_bench.specs.Responses.{RespondsToScript};
ghost use Rattle.rv_bench.specs.Twin.{RunsSecond, RunsTwin, monitored_setup};
ghost use Rattle.rv_streams.specs.Unread.{held, EndsWithSource};

use crate::equal::EqualBenches;
use crate::pair::{Pair, PairOnSlot};
use crate::run::run_lines;
use crate::start::start;
use rv_command_line::Setup;
use rv_monitor::Slot;
use rv_streams::{BenchFault, Lines, ScriptEnd, Sink, Source, read_image, write_last};
use rv_text::{Reply, push_text};
use std::alloc::Global;

/// Returns two monitored benches at reset, with the image in the RAM of each.
///
/// # Errors
///
/// `Ram` or `Image`, as `start` returns them.
fn start_two(alloc: Global, image: &[u8], setup: &Setup) -> Result<EqualBenches, BenchFault>
    ensures { MatchResult result
        (λ benches. started image.now (monitored_setup setup.now) ≡ Ok benches.first)
        (λ fault. Starts image.now (monitored_setup setup.now) (Err fault)) }
{
    let setup = Setup {
        kind: setup.kind,
        ram: setup.ram,
        monitored: true,
        harts: setup.harts,
    };
    let first = start(alloc, image, &setup)?;
    let second = start(alloc, image, &setup)?;
    Ok(EqualBenches { first, second })
}

/// Returns the text that no slot could be scrambled.
fn no_slot() -> Reply
    ensures { result.items ≡ no_slot_text }
{
    let mut text = Reply::new();
    push_text(&mut text, "twin no slot\n");
    text
}

/// Scrambles the slot in the second bench, if possible.
fn scrambled(benches: EqualBenches, slot: Slot) -> Option<Pair>
    ensures pair { result ≡ make_pair_of slot benches.first }
    ensures going { IfSome result (λ pair. pair.entered ≡ false) }
{
    let EqualBenches { first, second } = benches;
    let mut second = second;
    if !second.scramble(slot) {
        return None;
    }
    Some(Pair {
        first,
        second,
        ran: 0,
        entered: false,
    })
}

/// Scrambles the slot with a number in the second bench, if possible. There is no slot with a number above 12.
#[tactic(auto, using(crate::proofs::Twins::not_numbered))]
fn make_pair(benches: EqualBenches, number: u8) -> Option<PairOnSlot>
    ensures pair { MatchOption result
        (make_pair_of number benches.first ≡ None)
        (λ found. (found.slot ≡ number) × (make_pair_of number benches.first ≡ Some found.pair)) }
    ensures going { IfSome result (λ found. found.pair.entered ≡ false) }
{
    benches.first.invariant();
    let slot = Slot::new(u32::from(number))?;
    let pair = scrambled(benches, slot)?;
    Some(PairOnSlot { pair, slot })
}

/// Runs the first script on both benches, and writes the replies of the first. Passes on what the sink holds, before the second script is read.
fn run_first<S: Source, W: Sink>(
    benches: &mut EqualBenches,
    lines: &mut Lines<S>,
    sink: &mut W,
) -> Result<(), BenchFault>
    ensures outcome { RespondsToScript W.Sink one_bench ScriptEnd.Separator benches.old.first benches.new.first lines.old lines.new sink.old sink.new result }
    ensures end { EndsWithSource lines.old lines.new }
{
    run_lines(benches, lines, sink, ScriptEnd::Separator)?;
    sink.pass_on().map_err(|_| BenchFault::Write)
}

/// Scrambles the slot with a number in the second bench, and runs the second script. If it cannot be scrambled, writes `twin no slot`.
fn run_second<S: Source, W: Sink>(
    benches: EqualBenches,
    number: u8,
    lines: &mut Lines<S>,
    sink: &mut W,
) -> Result<(), BenchFault>
    requires { held lines.old ≡ [] }
    ensures outcome { RunsSecond W.Sink number (make_pair_of number benches.first) lines.old lines.new sink.old sink.new result }
    ensures end { EndsWithSource lines.old lines.new }
{
    let Some(mut found) = make_pair(benches, number) else {
        return write_last(&no_slot(), sink).map_err(|_| BenchFault::Write);
    };
    run_lines(&mut found, lines, sink, ScriptEnd::Input)?;
    write_last(&found.pair.last(), sink).map_err(|_| BenchFault::Write)
}

/// Performs a twin run:
/// - Reads an image, and starts two equal benches, which are monitored whatever the setup specifies.
/// - Executes the lines up to the next `--` on both, and writes the replies of the first.
/// - Scrambles the slot in the second bench. If the slot has no live enclave, or that runs on a hart, writes `twin no slot` and ends.
/// - Executes each further line on both benches, as `both_line` does. Writes the lines of the first bench's reply after `a: `, and then those of
///   the second's after `b: `. A command that is not blind is skipped, with the reply `error blind`. A line with an error has one reply.
/// - Ends with `twin entered N` after a command that enters the slot, and that line is the last that is read. Otherwise ends with `twin end N`
///   at the end of the input. N is the number of executed commands; it stays at 2^64 - 1.
///
/// `outcome` specifies the run completely. [`laws::twin_benches`](crate::laws::twin_benches) has the isolation theorems about the two benches.
///
/// # Errors
///
/// The first of these that occurs. Nothing is written, except with the last two:
/// - while the image is read, in the order of its lines: `Read`, `Hex`, `TooLong` and `NoMemory`, as `read_image` returns them;
/// - `Ram`, then `Image`, as `run_bench` returns them;
/// - `Read`, if the source failed in this call. The text for the complete lines is written, and the line that was begun stays in `lines`;
/// - `Write`, if the sink failed in this call, or took no byte of a part that was not empty. A prefix of the text is written.
pub fn run_twin<S: Source, W: Sink>(
    alloc: Global,
    setup: &Setup,
    slot: u8,
    lines: &mut Lines<S>,
    sink: &mut W,
) -> Result<(), BenchFault>
    ensures outcome { RunsTwin W.Sink setup.now slot lines.old lines.new sink.old sink.new result }
    ensures end { EndsWithSource lines.old lines.new }
{
    let image = read_image(alloc, lines)?;
    let mut benches = start_two(alloc, image.as_slice(), setup)?;
    run_first(&mut benches, lines, sink)?;
    run_second(benches, slot, lines, sink)
}

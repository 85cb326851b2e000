//! Reads one line, part by part.
ghost use Rattle.std.specs.Prelude.{◌≡◌, ◌+◌, ◌<◌, ◌≤◌, false, [], ◌++◌, take, length, IsTrue, is_err};
ghost use Rattle.rv_streams.specs.Device.{counted_if};
ghost use Rattle.rv_text.specs.GoodLines.{significant_bytes, kept_bytes};
ghost use Rattle.rv_text.specs.Lines.{has_feed};
ghost use Rattle.rv_streams.specs.LineText.{ReadsLineText, left_from, stops_at_end};
ghost use Rattle.rv_text.specs.Lines.{without_return};

use crate::device::{DeviceFault, Source};
use arrayvec::ArrayVec;
use rv_text::MAX_LINE;
use std::mem;

/// The number of significant bytes of a line, which are shown. A line that shows as many is too long.
pub(crate) const SIGNIFICANT_BYTES: usize = MAX_LINE + 1;

/// The number of bytes that are kept of an unfinished line: the significant bytes, and a carriage return. Any line with this prefix is too long.
pub(crate) const KEPT_BYTES: usize = SIGNIFICANT_BYTES + 1;

/// The maximal number of bytes of a line that are read at once.
const PART_LEN: usize = 128;

/// The byte that ends a line.
const LINE_FEED: u8 = b'\n';

/// The byte that a line may have before its line feed.
const CARRIAGE_RETURN: u8 = b'\r';

/// A line, or a prefix of it.
pub type Line = ArrayVec<u8, KEPT_BYTES>;

/// The end of a line's text.
#[derive(Clone, Copy)]
pub(crate) enum Stop {
    LineFeed,
    End,
}

/// Appends a text to a line, as far as there is room.
#[inline(always)]
fn keep(line: &mut Line, text: &[u8])
    requires { length line.old.items ≤ kept_bytes }
    ensures { line.new.items ≡ take kept_bytes (line.old.items ++ text.now) }
{
    let count = text.len().min(line.remaining_capacity());
    if line.try_extend_from_slice(&text[..count]).is_err() {
        unreachable!();
    }
}

/// Reads bytes after those that `line` holds, up to a line feed or the end of the source. Keeps the first `KEPT_BYTES` bytes of the line.
///
/// # Errors
///
/// `DeviceFault`, if the source failed. The line then holds a prefix of what was read.
#[inline(always)]
pub(crate) fn read_text<S: Source>(source: &mut S, line: &mut Line) -> Result<Stop, DeviceFault>
    requires short { length line.old.items ≤ kept_bytes }
    requires unfinished { has_feed line.old.items ≡ false }
    ensures bytes { S.follows_input source.new → ReadsLineText (line.old.items ++ S.remaining source.old) (left_from result (S.remaining source.new)) line.new.items }
    ensures end { S.follows_input source.new → result ≡ Ok Stop.End → S.remaining source.new ≡ [] }
    ensures same { S.input source.new ≡ S.input source.old }
    ensures before { S.follows_input source.new → S.follows_input source.old }
    ensures ends { S.ends source.new ≡ counted_if (stops_at_end result) (S.ends source.old) }
    ensures failures { S.failures source.new ≡ counted_if (is_err result) (S.failures source.old) }
    ensures short { length line.new.items ≤ kept_bytes }
    ensures unfinished { has_feed line.new.items ≡ false }
    ensures falls { S.calls_left source.new + length line.new.items ≤ S.calls_left source.old + length line.old.items }
    ensures feed_falls { result ≡ Ok Stop.LineFeed → S.calls_left source.new + length line.new.items < S.calls_left source.old + length line.old.items }
{
    let mut part = [0; PART_LEN];
    loop {
        let count = source.read_in_line(&mut part)?;
        let Some((last, text)) = part[..count].split_last() else {
            return Ok(Stop::End);
        };
        if *last == LINE_FEED {
            keep(line, text);
            return Ok(Stop::LineFeed);
        }
        keep(line, &part[..count]);
    }
}

/// Takes the first `count` bytes out of a line, and empties the line.
#[inline(always)]
pub(crate) fn take_prefix(line: &mut Line, count: usize) -> Line
    ensures taken { result.items ≡ take count line.old.items }
    ensures rest { line.new.items ≡ [] }
{
    line.truncate(count);
    mem::replace(line, ArrayVec::new())
}

/// Returns the number of bytes that are shown of a text before a line feed.
pub(crate) fn shown_len(text: &[u8]) -> usize
    requires { length text.now ≤ kept_bytes }
    ensures { take result text.now ≡ take significant_bytes (without_return text.now) }
{
    match text.split_last() {
        Some((last, prefix)) if *last == CARRIAGE_RETURN => prefix.len(),
        _ => text.len().min(SIGNIFICANT_BYTES),
    }
}

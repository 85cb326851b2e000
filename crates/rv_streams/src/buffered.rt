//! A source that reads ahead from another, so that it can give one line after the other.
ghost use Rattle.std.specs.Prelude.{◌≡◌, ◌<◌, ◌≤◌, ◌-◌, false, min, take, length};
ghost use Rattle.rv_text.specs.Lines.{has_feed as has_feed_of};

use crate::device::{DeviceFault, Source};
use rv_text::{position_in_short, position_of};

/// The number of bytes that are read ahead at once.
const READ_LEN: usize = 4096;

/// The number of bytes in which a line feed is searched first, since many lines are short.
const HEAD_LEN: usize = 16;

/// Copies as many bytes as there are and as the buffer has room for, and returns how many.
#[inline(always)]
fn give(bytes: &[u8], buffer: &mut [u8]) -> usize
    ensures count { result ≡ min (length bytes.now) (length buffer.old) }
    ensures copied { take result buffer.new ≡ take result bytes.now }
    ensures len { length buffer.new ≡ length buffer.old }
{
    let count = bytes.len().min(buffer.len());
    buffer[..count].copy_from_slice(&bytes[..count]);
    count
}

/// Returns the bytes through the first line feed, or all if there is none, but at most the first `most` bytes.
#[inline(always)]
fn through_feed(bytes: &[u8], most: usize) -> &[u8]
    ensures prefix { result.now ≡ take (length result.now) bytes.now }
    ensures line { has_feed_of (take (length result.now - 1) result.now) ≡ false }
    ensures most { length result.now ≤ most }
    ensures some { 0 < most → 0 < length bytes.now → 0 < length result.now }
{
    let prefix = &bytes[..bytes.len().min(most)];
    let head = &prefix[..prefix.len().min(HEAD_LEN)];
    let end = position_in_short(head, b'\n');
    if end < head.len() {
        return &head[..end + 1];
    }
    let end = position_of(prefix, b'\n');
    if end == prefix.len() {
        return prefix;
    }
    &prefix[..end + 1]
}

/// Returns whether the bytes have a line feed.
#[inline(always)]
fn has_feed(bytes: &[u8]) -> bool
    ensures { result ≡ has_feed_of bytes.now }
{
    let head = &bytes[..bytes.len().min(HEAD_LEN)];
    if position_in_short(head, b'\n') < head.len() {
        return true;
    }
    position_of(bytes, b'\n') < bytes.len()
}

/// A source that reads ahead from another source. It has the ends and the failures of that source, and no others.
#[derive(Drop, Debug)]
pub struct BufferedSource<S: Source> {
    source: S,
    buffer: [u8; READ_LEN],
    start: usize,
    end: usize,
    ghost ordered: { start ≤ end },
    ghost in_buffer: { end ≤ 4096 },
}

impl<S: Source> BufferedSource<S> {
    ghost use Rattle.std.specs.Prelude.{◌≡◌, ◌≤◌, ◌==◌, ◌&&◌, [], OnOk, is_err, is_ok};
    ghost use Rattle.rv_streams.specs.Device.{counted_if};
    ghost use Rattle.rv_streams.specs.Buffered.{rest_of, calls_left_of};

    /// Returns a source that has read nothing ahead yet.
    pub fn new(source: S) -> BufferedSource<S>
        ensures source { result.source ≡ source }
        ensures bytes { rest_of S.Source result ≡ S.remaining source }
    {
        BufferedSource {
            source,
            buffer: [0; READ_LEN],
            start: 0,
            end: 0,
        }
    }

    /// Returns the other source. Bytes that were read ahead are dropped.
    pub fn into_source(self) -> S
        ensures { result ≡ self.source }
    {
        let BufferedSource {
            source,
            buffer: _,
            start: _,
            end: _,
        } = self;
        source
    }

    /// Reads ahead. It adds no byte only at the end.
    ///
    /// # Errors
    ///
    /// `DeviceFault`, if the other source failed. No byte is lost then.
    #[cold]
    #[inline(never)]
    fn fill(&mut self) -> Result<(), DeviceFault>
        requires nothing { self.old.start ≡ self.old.end }
        ensures bytes { S.follows_input self.new.source → rest_of S.Source self.new ≡ rest_of S.Source self.old }
        ensures end { S.follows_input self.new.source → OnOk result (self.new.start ≡ self.new.end → rest_of S.Source self.new ≡ []) }
        ensures same { S.input self.new.source ≡ S.input self.old.source }
        ensures before { S.follows_input self.new.source → S.follows_input self.old.source }
        ensures ends { S.ends self.new.source ≡ counted_if (is_ok result && (self.new.start == self.new.end)) (S.ends self.old.source) }
        ensures failures { S.failures self.new.source ≡ counted_if (is_err result) (S.failures self.old.source) }
        ensures falls { calls_left_of S.Source self.new ≤ calls_left_of S.Source self.old }
    {
        let count = self.source.read_some(&mut self.buffer)?;
        self.start = 0;
        self.end = count;
        Ok(())
    }

    /// Reads ahead if all bytes that were read ahead have been returned. Then no byte is ahead only at the end.
    ///
    /// # Errors
    ///
    /// `DeviceFault`, if the other source failed. No byte is lost then.
    #[inline(always)]
    fn read_ahead(&mut self) -> Result<(), DeviceFault>
        ensures bytes { S.follows_input self.new.source → rest_of S.Source self.new ≡ rest_of S.Source self.old }
        ensures end { S.follows_input self.new.source → OnOk result (self.new.start ≡ self.new.end → rest_of S.Source self.new ≡ []) }
        ensures same { S.input self.new.source ≡ S.input self.old.source }
        ensures before { S.follows_input self.new.source → S.follows_input self.old.source }
        ensures ends { S.ends self.new.source ≡ counted_if (is_ok result && (self.new.start == self.new.end)) (S.ends self.old.source) }
        ensures failures { S.failures self.new.source ≡ counted_if (is_err result) (S.failures self.old.source) }
        ensures falls { calls_left_of S.Source self.new ≤ calls_left_of S.Source self.old }
    {
        if self.start < self.end {
            return Ok(());
        }
        self.fill()
    }
}

impl<S: Source> Source for BufferedSource<S> {
    ghost use Rattle.rv_streams.specs.Buffered.{rest_of, calls_left_of};

    ghost input = { λ it. S.input it.source };

    ghost follows_input = { λ it. S.follows_input it.source };

    ghost remaining = { rest_of S.Source };

    ghost ends = { λ it. S.ends it.source };

    ghost failures = { λ it. S.failures it.source };

    ghost calls_left = { calls_left_of S.Source };

    /// See `Source::read_some`.
    fn read_some(&mut self, buffer: &mut [u8]) -> Result<usize, DeviceFault> {
        if buffer.is_empty() {
            return Ok(0);
        }
        self.read_ahead()?;
        let count = give(&self.buffer[self.start..self.end], buffer);
        self.start += count;
        Ok(count)
    }

    /// See `Source::read_in_line`.
    #[inline(always)]
    fn read_in_line(&mut self, buffer: &mut [u8]) -> Result<usize, DeviceFault> {
        self.read_ahead()?;
        let text = through_feed(&self.buffer[self.start..self.end], buffer.len());
        let count = give(text, buffer);
        self.start += count;
        Ok(count)
    }

    /// See `Source::has_line_ahead`.
    #[inline(always)]
    fn has_line_ahead(&self) -> bool {
        has_feed(&self.buffer[self.start..self.end])
    }
}

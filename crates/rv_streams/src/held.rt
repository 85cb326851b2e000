//! A sink that holds bytes, so that another sink takes many of them in one call.
ghost use Rattle.std.specs.Prelude.{◌≡◌, ◌+◌, ◌-◌, ◌≤◌, ◌++◌, ◌==◌, ◌&&◌, min, take, drop, length, is_err, OnOk};
ghost use Rattle.rv_streams.specs.Device.{counted_if};

use crate::device::{DeviceFault, Sink};

/// The number of bytes that are held at most.
const HELD_LEN: usize = 8192;

/// Passes on the bytes from an index on. Returns the index of the first byte that was not passed on.
///
/// # Errors
///
/// `DeviceFault`, if the sink failed or took no byte.
fn pass<W: Sink>(sink: &mut W, bytes: &[u8], start: usize) -> (usize, Result<(), DeviceFault>)
    requires { start ≤ length bytes.now }
    ensures bound { result.0 ≤ length bytes.now }
    ensures all { OnOk result.1 (result.0 ≡ length bytes.now) }
    ensures bytes { W.taken sink.new ++ drop result.0 bytes.now ≡ W.taken sink.old ++ drop start bytes.now }
    ensures flushed { (W.is_flushed sink.new && (result.0 == length bytes.now)) ≡ (W.is_flushed sink.old && (start == length bytes.now)) }
    ensures flushes { W.flushes sink.new ≡ W.flushes sink.old }
    ensures failures { W.failures sink.new + W.refusals sink.new ≡ counted_if (is_err result.1) (W.failures sink.old + W.refusals sink.old) }
{
    let mut at = start;
    while at < bytes.len() {
        match sink.write_some(&bytes[at..]) {
            Ok(0) | Err(_) => return (at, Err(DeviceFault)),
            Ok(count) => at += count,
        }
    }
    (at, Ok(()))
}

/// Copies bytes of the part behind the first `end` bytes of the buffer, as many as there are and as it has room for. Returns how many.
fn hold(buffer: &mut [u8], end: usize, part: &[u8]) -> usize
    requires { end ≤ length buffer.old }
    ensures count { result ≡ min (length part.now) (length buffer.old - end) }
    ensures held { take (end + result) buffer.new ≡ take end buffer.old ++ take result part.now }
    ensures len { length buffer.new ≡ length buffer.old }
{
    let count = part.len().min(buffer.len() - end);
    buffer[end..end + count].copy_from_slice(&part[..count]);
    count
}

/// A sink that holds bytes for another sink until it has no room for more, or until a call passes them on. A call of the other sink that takes no
/// byte counts as a failure.
#[derive(Drop, Debug)]
pub struct BufferedSink<W: Sink> {
    sink: W,
    buffer: [u8; HELD_LEN],
    start: usize,
    end: usize,
    ghost ordered: { start ≤ end },
    ghost in_buffer: { end ≤ 8192 },
}

impl<W: Sink> BufferedSink<W> {
    ghost use Rattle.std.specs.Prelude.{◌≡◌, ◌+◌, ◌≤◌, [], min, is_err, OnOk};
    ghost use Rattle.rv_streams.specs.Device.{counted_if};
    ghost use Rattle.rv_streams.specs.Held.{held_of, taken_of, is_flushed_of, failures_of};

    /// Returns a sink that holds no byte yet.
    pub fn new(sink: W) -> BufferedSink<W>
        ensures sink { result.sink ≡ sink }
        ensures held { held_of W.Sink result ≡ [] }
    {
        BufferedSink {
            sink,
            buffer: [0; HELD_LEN],
            start: 0,
            end: 0,
        }
    }

    /// Returns the other sink. Bytes that are still held are dropped.
    pub fn into_sink(self) -> W
        ensures { result ≡ self.sink }
    {
        let BufferedSink {
            sink,
            buffer: _,
            start: _,
            end: _,
        } = self;
        sink
    }

    /// Passes on all bytes that are held. Then the whole buffer is free.
    ///
    /// # Errors
    ///
    /// `DeviceFault`, if the other sink failed or took no byte. It holds the bytes that were not passed on.
    fn empty(&mut self) -> Result<(), DeviceFault>
        ensures bytes { taken_of W.Sink self.new ≡ taken_of W.Sink self.old }
        ensures empty { OnOk result ((self.new.start ≡ 0) × (self.new.end ≡ 0)) }
        ensures flushes { W.flushes self.new.sink ≡ W.flushes self.old.sink }
        ensures flushed { is_flushed_of W.Sink self.new ≡ is_flushed_of W.Sink self.old }
        ensures failures { failures_of W.Sink self.new ≡ counted_if (is_err result) (failures_of W.Sink self.old) }
    {
        let (start, outcome) = pass(&mut self.sink, &self.buffer[..self.end], self.start);
        self.start = start;
        outcome?;
        self.start = 0;
        self.end = 0;
        Ok(())
    }

    /// Passes on all bytes that are held if there is no room for as many more. Then there is room for a byte.
    ///
    /// # Errors
    ///
    /// As for `empty`.
    fn make_room(&mut self, len: usize) -> Result<(), DeviceFault>
        ensures bytes { taken_of W.Sink self.new ≡ taken_of W.Sink self.old }
        ensures room { OnOk result (min len 1 + self.new.end ≤ 8192) }
        ensures flushes { W.flushes self.new.sink ≡ W.flushes self.old.sink }
        ensures flushed { is_flushed_of W.Sink self.new ≡ is_flushed_of W.Sink self.old }
        ensures failures { failures_of W.Sink self.new ≡ counted_if (is_err result) (failures_of W.Sink self.old) }
    {
        if HELD_LEN - self.end < len {
            return self.empty();
        }
        Ok(())
    }
}

impl<W: Sink> Sink for BufferedSink<W> {
    ghost use Rattle.rv_streams.specs.Held.{taken_of, is_flushed_of, failures_of};

    ghost taken = { taken_of W.Sink };

    ghost is_flushed = { is_flushed_of W.Sink };

    ghost flushes = { λ it. W.flushes it.sink };

    ghost refusals = { λ it. 0 };

    ghost failures = { failures_of W.Sink };

    /// See `Sink::write_some`.
    fn write_some(&mut self, part: &[u8]) -> Result<usize, DeviceFault> {
        self.make_room(part.len())?;
        let count = hold(&mut self.buffer, self.end, part);
        self.end += count;
        Ok(count)
    }

    /// See `Sink::pass_on`.
    fn pass_on(&mut self) -> Result<(), DeviceFault> {
        self.empty()
    }

    /// See `Sink::flush`.
    fn flush(&mut self) -> Result<(), DeviceFault> {
        self.empty()?;
        self.sink.flush()
    }
}

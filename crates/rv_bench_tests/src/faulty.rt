//! A source and a sink over memory for tests. They move few bytes in each call, and fail at one of their calls.
ghost use Rattle.std.specs.Prelude.{◌≡◌, ◌<◌, [], ⊤, length};
ghost use Rattle.rv_streams.specs.MemoryStreams.{rest_in_memory, bytes_taken};

use rv_bench::{DeviceFault, MemorySink, MemorySource, Sink, Source};
use rv_streams::CallLog;

/// The number of the faulty call of a device without a fault. Calls are counted from 1.
pub(crate) const NEVER: u64 = 0;

/// The behaviour of a sink at its faulty call.
#[derive(Clone, Copy, Debug, PartialEq, Eq)]
pub(crate) enum SinkFault {
    /// The call returns an error.
    Fail,
    /// The call takes none of the bytes.
    TakeNothing,
}

/// A source over memory that returns at most `largest_read` bytes in each call. The call with the number `faulty_call` fails.
#[derive(Drop)]
pub(crate) struct FaultySource<'a> {
    source: MemorySource<'a>,
    largest_read: usize,
    faulty_call: u64,
    calls: u64,
    log: CallLog,
    ghost some: { 0 < largest_read },
}

impl<'a> FaultySource<'a> {
    /// Returns a source without any calls yet.
    pub(crate) fn new(bytes: &'a [u8], largest_read: usize, faulty_call: u64) -> FaultySource<'a>
        requires { 0 < largest_read }
    {
        FaultySource {
            source: MemorySource::new(bytes),
            largest_read,
            faulty_call,
            calls: 0,
            log: CallLog::new(),
        }
    }

    /// Returns the number of calls.
    pub(crate) fn calls(&self) -> u64 {
        self.calls
    }

    /// Returns the bytes that are not yet read.
    pub(crate) fn rest(&self) -> &[u8] {
        self.source.rest()
    }
}

impl<'a> Source for FaultySource<'a> {
    ghost input = { λ _. [] };

    ghost follows_input = { λ _. ⊤ };

    ghost remaining = { λ faulty. rest_in_memory faulty.source };

    ghost ends = { λ faulty. faulty.source.log.empty_calls };

    ghost failures = { λ faulty. faulty.log.failures };

    ghost calls_left = { λ faulty. length (rest_in_memory faulty.source) };

    fn read_some(&mut self, buffer: &mut [u8]) -> Result<usize, DeviceFault> {
        self.calls = self.calls.saturating_add(1);
        if self.calls == self.faulty_call {
            self.log.failed();
            return Err(DeviceFault);
        }
        let room = buffer.len().min(self.largest_read);
        self.source.read_some(&mut buffer[..room])
    }
}

/// A sink over memory that takes at most `largest_write` bytes in each call. The call with the number `faulty_call` fails or takes nothing.
#[derive(Drop)]
pub(crate) struct FaultySink<'a> {
    sink: MemorySink<'a>,
    largest_write: usize,
    faulty_call: u64,
    sink_fault: SinkFault,
    calls: u64,
    log: CallLog,
}

impl<'a> FaultySink<'a> {
    /// Returns a sink without any calls yet.
    pub(crate) fn new(
        buffer: &'a mut [u8],
        largest_write: usize,
        faulty_call: u64,
        sink_fault: SinkFault,
    ) -> FaultySink<'a> {
        FaultySink {
            sink: MemorySink::new(buffer),
            largest_write,
            faulty_call,
            sink_fault,
            calls: 0,
            log: CallLog::new(),
        }
    }

    /// Returns the number of calls, including those of `flush`.
    pub(crate) fn calls(&self) -> u64 {
        self.calls
    }

    /// Returns the bytes that were taken.
    pub(crate) fn bytes(&self) -> &[u8] {
        self.sink.bytes()
    }
}

impl<'a> Sink for FaultySink<'a> {
    ghost taken = { λ faulty. bytes_taken faulty.sink };

    ghost is_flushed = { λ faulty. faulty.sink.log.is_flushed };

    ghost flushes = { λ faulty. faulty.sink.log.flushes };

    ghost refusals = { λ faulty. faulty.log.empty_calls };

    ghost failures = { λ faulty. faulty.log.failures };

    fn write_some(&mut self, part: &[u8]) -> Result<usize, DeviceFault> {
        self.calls = self.calls.saturating_add(1);
        let is_faulty_call = self.calls == self.faulty_call;
        if is_faulty_call && self.sink_fault == SinkFault::Fail {
            self.log.failed();
            return Err(DeviceFault);
        }
        let limit = if is_faulty_call {
            0
        } else {
            self.largest_write
        };
        let count = self.sink.write_some(&part[..part.len().min(limit)])?;
        if count == 0 && !part.is_empty() {
            self.log.moved_none();
        }
        Ok(count)
    }

    fn flush(&mut self) -> Result<(), DeviceFault> {
        self.calls = self.calls.saturating_add(1);
        if self.calls == self.faulty_call && self.sink_fault == SinkFault::Fail {
            self.log.failed();
            return Err(DeviceFault);
        }
        self.sink.flush()
    }
}

/// A source of a given number of `#` bytes, which are not stored in memory.
#[derive(Drop)]
pub(crate) struct FeedSource {
    left: usize,
    given: usize,
    log: CallLog,
}

impl FeedSource {
    /// Returns a source without any calls yet.
    pub(crate) fn new(left: usize) -> FeedSource {
        FeedSource {
            left,
            given: 0,
            log: CallLog::new(),
        }
    }

    /// Returns the number of bytes that were returned.
    pub(crate) fn given(&self) -> usize {
        self.given
    }
}

impl Source for FeedSource {
    ghost input = { λ _. [] };

    ghost follows_input = { λ _. ⊥ };

    ghost remaining = { λ _. [] };

    ghost ends = { λ source. source.log.empty_calls };

    ghost failures = { λ _. 0 };

    ghost calls_left = { λ source. source.left };

    fn read_some(&mut self, buffer: &mut [u8]) -> Result<usize, DeviceFault> {
        let count = self.left.min(buffer.len());
        buffer[..count].fill(b'#');
        self.left -= count;
        self.given = self.given.saturating_add(count);
        if count == 0 && !buffer.is_empty() {
            self.log.moved_none();
        }
        Ok(count)
    }
}

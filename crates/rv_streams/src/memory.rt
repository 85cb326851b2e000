//! Devices over memory. The source and the sink over borrowed memory allocate none, and never fail. The sink over a vector fails only if memory is
//! refused.
ghost use Rattle.std.specs.Prelude.{◌≡◌, ◌==◌, ◌&&◌, ◌||◌, ◌++◌, ◌+◌, ◌≤◌, ◌<◌, [], ⊤, true, nat_lt, min, length, take, is_err, is_ok, OnErr, vec_capacity};
ghost use Rattle.rv_streams.specs.Device.{moved_count, moves_none, counted_if};
ghost use Rattle.rv_streams.specs.CallLog.{no_call};
ghost use Rattle.rv_streams.specs.MemoryStreams.{rest_in_memory, bytes_taken, room_of};

use crate::device::{DeviceFault, Sink, Source};
use crate::log::CallLog;
use std::alloc::Global;

/// A source that returns the bytes of a slice.
#[derive(Drop, Debug)]
pub struct MemorySource<'a> {
    rest: &'a [u8],
    log: CallLog,
}

impl<'a> MemorySource<'a> {
    /// Returns a source of these bytes.
    pub fn new(bytes: &'a [u8]) -> MemorySource<'a>
        ensures bytes { rest_in_memory result ≡ bytes.entry.now }
        ensures ends { result.log.empty_calls ≡ 0 }
    {
        MemorySource {
            rest: bytes,
            log: CallLog::new(),
        }
    }

    /// Returns the bytes that are not yet read.
    pub fn rest(&self) -> &[u8]
        ensures { result.now ≡ rest_in_memory self.now }
    {
        self.rest
    }
}

impl<'a> Source for MemorySource<'a> {
    ghost input = { λ _. [] };

    ghost follows_input = { λ _. ⊤ };

    ghost remaining = { rest_in_memory };

    ghost ends = { λ source. source.log.empty_calls };

    ghost failures = { λ _. 0 };

    ghost calls_left = { λ source. length (rest_in_memory source) };

    /// See `Source::read_some`.
    fn read_some(&mut self, buffer: &mut [u8]) -> Result<usize, DeviceFault> {
        let count = self.rest.len().min(buffer.len());
        let (given, rest) = self.rest.split_at(count);
        buffer[..count].copy_from_slice(given);
        self.rest = rest;
        if count == 0 && !buffer.is_empty() {
            self.log.moved_none();
        }
        Ok(count)
    }
}

/// A sink that fills a buffer from the start, and takes no byte when the buffer is full.
#[derive(Drop, Debug)]
pub struct MemorySink<'a> {
    buffer: &'a mut [u8],
    taken_len: usize,
    log: CallLog,
}

impl<'a> MemorySink<'a> {
    /// Returns a sink that fills this buffer.
    pub fn new(buffer: &'a mut [u8]) -> MemorySink<'a>
        ensures bytes { bytes_taken result ≡ [] }
        ensures room { room_of result ≡ length buffer.old }
        ensures log { result.log ≡ no_call [] }
    {
        MemorySink {
            buffer,
            taken_len: 0,
            log: CallLog::new(),
        }
    }

    /// Returns the bytes that were taken.
    pub fn bytes(&self) -> &[u8]
        ensures { result.now ≡ bytes_taken self.now }
    {
        let count = self.taken_len.min(self.buffer.len());
        &self.buffer[..count]
    }

    /// Takes as many bytes of the part as fit, and returns how many. Taking no byte of a non-empty part counts as a refusal.
    pub(crate) fn fill(&mut self, part: &[u8]) -> usize
        ensures count { result ≡ min (length part.now) (room_of self.old) }
        ensures bytes { bytes_taken self.new ≡ bytes_taken self.old ++ take result part.now }
        ensures room { room_of self.new + result ≡ room_of self.old }
        ensures flushed { self.new.log.is_flushed ≡ (self.old.log.is_flushed && (result == 0)) }
        ensures flushes { self.new.log.flushes ≡ self.old.log.flushes }
        ensures refusals { self.new.log.empty_calls ≡ counted_if ((result == 0) && nat_lt 0 (length part.now)) self.old.log.empty_calls }
    {
        let room = self.buffer.len().saturating_sub(self.taken_len);
        let count = part.len().min(room);
        if count == 0 {
            if !part.is_empty() {
                self.log.moved_none();
            }
            return 0;
        }
        self.buffer[self.taken_len..self.taken_len + count].copy_from_slice(&part[..count]);
        self.taken_len += count;
        self.log.moved(&part[..count]);
        count
    }
}

impl<'a> Sink for MemorySink<'a> {
    ghost taken = { bytes_taken };

    ghost is_flushed = { λ sink. sink.log.is_flushed };

    ghost flushes = { λ sink. sink.log.flushes };

    ghost refusals = { λ sink. sink.log.empty_calls };

    ghost failures = { λ _. 0 };

    /// See `Sink::write_some`.
    fn write_some(&mut self, part: &[u8]) -> Result<usize, DeviceFault>
        ensures count { result ≡ Ok (min (length part.now) (room_of self.old)) }
        ensures bound { moved_count result ≤ length part.now }
        ensures bytes { bytes_taken self.new ≡ bytes_taken self.old ++ take (moved_count result) part.now }
        ensures flushed { self.new.log.is_flushed ≡ (self.old.log.is_flushed && (moved_count result == 0)) }
        ensures flushes { self.new.log.flushes ≡ self.old.log.flushes }
        ensures refusals { self.new.log.empty_calls ≡ counted_if (moves_none result (length part.now)) self.old.log.empty_calls }
        ensures failures { 0 ≡ counted_if (is_err result) 0 }
    {
        Ok(self.fill(part))
    }

    /// See `Sink::flush`.
    fn flush(&mut self) -> Result<(), DeviceFault> {
        self.log.flushed();
        Ok(())
    }
}

/// A sink that appends to a vector. A write fails only if memory is refused, and requests it only if the vector has no room for the part. A flush
/// never fails.
#[derive(Drop, Debug)]
pub struct VecSink {
    bytes: Vec<u8>,
    log: CallLog,
    has_failed: bool,
    ghost failed: { has_failed ≡ nat_lt 0 log.failures },
    ghost takes_all: { log.empty_calls ≡ 0 },
}

impl VecSink {
    /// Returns a sink over a new vector.
    pub fn new(alloc: Global) -> VecSink
        ensures bytes { result.bytes.items ≡ [] }
        ensures log { result.log ≡ no_call [] }
    {
        VecSink {
            bytes: Vec::new(alloc),
            log: CallLog::new(),
            has_failed: false,
        }
    }

    /// Returns whether a call failed, because memory was refused.
    pub fn has_failed(&self) -> bool
        ensures { result ≡ nat_lt 0 self.now.log.failures }
    {
        self.has_failed
    }

    /// Returns the bytes that were taken.
    pub fn into_bytes(self) -> Vec<u8>
        ensures { result ≡ self.bytes }
    {
        let VecSink {
            bytes,
            log: _,
            has_failed: _,
        } = self;
        bytes
    }
}

impl Sink for VecSink {
    ghost taken = { λ sink. sink.bytes.items };

    ghost is_flushed = { λ sink. sink.log.is_flushed };

    ghost flushes = { λ sink. sink.log.flushes };

    ghost refusals = { λ sink. sink.log.empty_calls };

    ghost failures = { λ sink. sink.log.failures };

    /// See `Sink::write_some`.
    fn write_some(&mut self, part: &[u8]) -> Result<usize, DeviceFault>
        ensures bound { moved_count result ≤ length part.now }
        ensures bytes { self.new.bytes.items ≡ self.old.bytes.items ++ take (moved_count result) part.now }
        ensures flushed { self.new.log.is_flushed ≡ (self.old.log.is_flushed && (moved_count result == 0)) }
        ensures flushes { self.new.log.flushes ≡ self.old.log.flushes }
        ensures refusals { self.new.log.empty_calls ≡ counted_if (moves_none result (length part.now)) self.old.log.empty_calls }
        ensures failures { self.new.log.failures ≡ counted_if (is_err result) self.old.log.failures }
        // Memory is requested only if the vector has no room for the part.
        ensures full { OnErr result (vec_capacity self.old.bytes < length self.old.bytes.items + length part.now) }
    {
        match self.bytes.extend_from_slice(part) {
            Ok(()) => {
                self.log.moved(part);
                Ok(part.len())
            }
            Err(_) => {
                self.log.failed();
                self.has_failed = true;
                Err(DeviceFault)
            }
        }
    }

    /// See `Sink::flush`.
    fn flush(&mut self) -> Result<(), DeviceFault>
        ensures works { is_ok result ≡ true }
        ensures bytes { self.new.bytes.items ≡ self.old.bytes.items }
        ensures flushed { self.new.log.is_flushed ≡ (self.old.log.is_flushed || is_ok result) }
        ensures flushes { self.new.log.flushes ≡ counted_if (is_ok result) self.old.log.flushes }
        ensures refusals { self.new.log.empty_calls ≡ self.old.log.empty_calls }
        ensures failures { self.new.log.failures ≡ counted_if (is_err result) self.old.log.failures }
    {
        self.log.flushed();
        Ok(())
    }
}

//! A source over any reader of std, and a sink over any writer, such as the standard streams.
//!
//! std does not specify the bytes of the standard streams, nor when a call of them fails. Each device here therefore logs what its reader or
//! writer did. The proofs trust that the log is true: `read_some`, `write_some` and `flush` are short so that a reader can check this.
ghost use Rattle.std.specs.Prelude.{◌≡◌, ◌==◌, ◌&&◌, ◌||◌, ◌++◌, ◌+◌, ◌≤◌, [], true, nat_lt, min, take, length, unwrap_or, IsTrue, is_err, is_ok};
ghost use Rattle.std.specs.Io.KnownBytes.{Keeps, ReadConsumes, WriteAppends};
ghost use Rattle.rv_streams.specs.Device.{moved_count, moves_none, counted_if};

use crate::device::{DeviceFault, Sink, Source};
use crate::log::CallLog;
use std::io::{Read, Write};

/// A source over a reader. After 2 ^ 64 - 1 calls that gave a byte, every call with room for a byte fails. Once the reader has returned its end,
/// it is not called again.
#[derive(Drop, Debug)]
pub struct ReaderSource<R: Read> {
    reader: R,
    log: CallLog,
    has_ended: bool,
    calls_left: u64,
    ghost ended: { has_ended ≡ nat_lt 0 log.empty_calls },
    ghost at_end: { has_ended ≡ true → unwrap_or (R.remaining reader) [] ≡ [] },
}

impl<R: Read> ReaderSource<R> {
    ghost use Rattle.std.specs.Prelude.{◌≡◌, ◌-◌, ◌^◌, ℕ, List};
    ghost use Rattle.rv_streams.specs.CallLog.{no_call};

    /// Returns a source over this reader, from which nothing is read yet. The input that is assumed is any list of bytes.
    pub fn new(reader: R) -> ReaderSource<R>
        ghost input: { List ℕ }
        ensures reader { result.reader ≡ reader }
        ensures log { result.log ≡ no_call input }
        ensures calls { result.calls_left ≡ 2 ^ 64 - 1 }
    {
        ReaderSource {
            reader,
            log: CallLog::with_input(),
            has_ended: false,
            calls_left: u64::MAX,
        }
    }

    /// Returns the reader.
    pub fn into_reader(self) -> R
        ensures { result ≡ self.reader }
    {
        let ReaderSource {
            reader,
            log: _,
            has_ended: _,
            calls_left: _,
        } = self;
        reader
    }
}

impl<R: Read> Source for ReaderSource<R> {
    ghost use Rattle.rv_streams.specs.CallLog.{FollowsInput, still_to_come};

    ghost input = { λ source. source.log.input };

    ghost follows_input = { λ source. FollowsInput source.log };

    ghost remaining = { λ source. still_to_come source.log };

    ghost ends = { λ source. source.log.empty_calls };

    ghost failures = { λ source. source.log.failures };

    ghost calls_left = { λ source. source.calls_left };

    /// See `Source::read_some`.
    fn read_some(&mut self, buffer: &mut [u8]) -> Result<usize, DeviceFault>
        ensures room { moved_count result ≤ length buffer.new }
        ensures bytes { FollowsInput self.new.log → still_to_come self.old.log ≡ take (moved_count result) buffer.new ++ still_to_come self.new.log }
        ensures end { FollowsInput self.new.log → IsTrue (moves_none result (length buffer.new)) → still_to_come self.new.log ≡ [] }
        ensures same { self.new.log.input ≡ self.old.log.input }
        ensures before { FollowsInput self.new.log → FollowsInput self.old.log }
        ensures ends { self.new.log.empty_calls ≡ counted_if (moves_none result (length buffer.new)) self.old.log.empty_calls }
        ensures failures { self.new.log.failures ≡ counted_if (is_err result) self.old.log.failures }
        ensures falls { self.new.calls_left + min (moved_count result) 1 ≤ self.old.calls_left }
        // The bytes are the next ones of the reader, if std specifies them.
        ensures known { ReadConsumes (R.remaining self.old.reader) (R.remaining self.new.reader) result buffer.new }
    {
        if buffer.is_empty() {
            return Ok(0);
        }
        if self.has_ended {
            self.log.moved_none();
            return Ok(0);
        }
        if self.calls_left == 0 {
            self.log.failed();
            return Err(DeviceFault);
        }
        match self.reader.read(buffer) {
            Ok(0) => {
                self.log.moved_none();
                self.has_ended = true;
                Ok(0)
            }
            Ok(count) => {
                self.log.moved(&buffer[..count]);
                self.calls_left -= 1;
                Ok(count)
            }
            Err(_) => {
                self.log.failed();
                Err(DeviceFault)
            }
        }
    }
}

/// A sink that passes each part to a writer at once, so that a reply is visible as soon as it is made. The sink holds no bytes.
#[derive(Drop, Debug)]
pub struct WriterSink<W: Write> {
    writer: W,
    log: CallLog,
}

impl<W: Write> WriterSink<W> {
    ghost use Rattle.std.specs.Prelude.{◌≡◌, []};
    ghost use Rattle.rv_streams.specs.CallLog.{no_call};

    /// Returns a sink over this writer, to which nothing is passed yet.
    pub fn new(writer: W) -> WriterSink<W>
        ensures writer { result.writer ≡ writer }
        ensures log { result.log ≡ no_call [] }
    {
        WriterSink {
            writer,
            log: CallLog::new(),
        }
    }

    /// Returns the writer, to which all bytes that were taken have been passed.
    pub fn into_writer(self) -> W
        ensures { result ≡ self.writer }
    {
        let WriterSink { writer, log: _ } = self;
        writer
    }
}

impl<W: Write> Sink for WriterSink<W> {
    ghost taken = { λ sink. sink.log.bytes };

    ghost is_flushed = { λ sink. sink.log.is_flushed };

    ghost flushes = { λ sink. sink.log.flushes };

    ghost refusals = { λ sink. sink.log.empty_calls };

    ghost failures = { λ sink. sink.log.failures };

    /// See `Sink::write_some`.
    fn write_some(&mut self, part: &[u8]) -> Result<usize, DeviceFault>
        ensures bound { moved_count result ≤ length part.now }
        ensures bytes { self.new.log.bytes ≡ self.old.log.bytes ++ take (moved_count result) part.now }
        ensures flushed { self.new.log.is_flushed ≡ (self.old.log.is_flushed && (moved_count result == 0)) }
        ensures flushes { self.new.log.flushes ≡ self.old.log.flushes }
        ensures refusals { self.new.log.empty_calls ≡ counted_if (moves_none result (length part.now)) self.old.log.empty_calls }
        ensures failures { self.new.log.failures ≡ counted_if (is_err result) self.old.log.failures }
        // The bytes are appended to those of the writer, if std specifies them.
        ensures known { WriteAppends (W.contents self.old.writer) (W.contents self.new.writer) result part.now }
    {
        match self.writer.write(part) {
            Ok(0) if !part.is_empty() => {
                self.log.moved_none();
                Ok(0)
            }
            Ok(count) => {
                self.log.moved(&part[..count]);
                Ok(count)
            }
            Err(_) => {
                self.log.failed();
                Err(DeviceFault)
            }
        }
    }

    /// See `Sink::flush`.
    fn flush(&mut self) -> Result<(), DeviceFault>
        ensures bytes { self.new.log.bytes ≡ self.old.log.bytes }
        ensures flushed { self.new.log.is_flushed ≡ (self.old.log.is_flushed || is_ok result) }
        ensures flushes { self.new.log.flushes ≡ counted_if (is_ok result) self.old.log.flushes }
        ensures refusals { self.new.log.empty_calls ≡ self.old.log.empty_calls }
        ensures failures { self.new.log.failures ≡ counted_if (is_err result) self.old.log.failures }
        // The bytes of the writer stay, if std specifies them.
        ensures known { Keeps (W.contents self.old.writer) (W.contents self.new.writer) }
    {
        match self.writer.flush() {
            Ok(()) => {
                self.log.flushed();
                Ok(())
            }
            Err(_) => {
                self.log.failed();
                Err(DeviceFault)
            }
        }
    }
}

//! A reader and a writer of std that count their calls. A call of the reader, or the flush of the writer, can fail. The bytes are not specified,
//! like those of the standard streams.
use std::io::{self, ErrorKind, Read, Write};

/// A reader of given bytes. The call with the number `faulty_call` fails. Calls are counted from 1.
#[derive(Drop)]
pub(crate) struct RecordingReader<'a> {
    rest: &'a [u8],
    calls: u64,
    faulty_call: u64,
}

impl<'a> RecordingReader<'a> {
    pub(crate) fn new(bytes: &'a [u8], faulty_call: u64) -> RecordingReader<'a> {
        RecordingReader {
            rest: bytes,
            calls: 0,
            faulty_call,
        }
    }

    /// Returns the number of calls.
    pub(crate) fn calls(&self) -> u64 {
        self.calls
    }
}

impl<'a> Read for RecordingReader<'a> {
    fn read(&mut self, buffer: &mut [u8]) -> io::Result<usize> {
        self.calls = self.calls.saturating_add(1);
        if self.calls == self.faulty_call {
            return Err(io::Error::from(ErrorKind::Other));
        }
        let count = self.rest.len().min(buffer.len());
        let (given, rest) = self.rest.split_at(count);
        buffer[..count].copy_from_slice(given);
        self.rest = rest;
        Ok(count)
    }
}

/// A writer that appends bytes to a vector. Each flush fails if `is_flush_refused` is set.
#[derive(Drop)]
pub(crate) struct RecordingWriter {
    bytes: Vec<u8>,
    flushes: u64,
    is_flush_refused: bool,
}

impl RecordingWriter {
    pub(crate) fn new(bytes: Vec<u8>, is_flush_refused: bool) -> RecordingWriter {
        RecordingWriter {
            bytes,
            flushes: 0,
            is_flush_refused,
        }
    }

    pub(crate) fn bytes(&self) -> &[u8] {
        self.bytes.as_slice()
    }

    /// Returns the number of calls of `flush`.
    pub(crate) fn flushes(&self) -> u64 {
        self.flushes
    }
}

impl Write for RecordingWriter {
    fn write(&mut self, part: &[u8]) -> io::Result<usize> {
        self.bytes.extend_from_slice(part)?;
        Ok(part.len())
    }

    fn flush(&mut self) -> io::Result<()> {
        self.flushes = self.flushes.saturating_add(1);
        if self.is_flush_refused {
            return Err(io::Error::from(ErrorKind::Other));
        }
        Ok(())
    }
}

//! A reader and a writer of std that move one byte in each call, and whose bytes are specified.
ghost use Rattle.std.specs.Prelude.{Some};

use std::io::{self, Read, Write};

/// A reader that returns these bytes.
#[derive(Drop)]
pub(crate) struct ByteReader<'a> {
    rest: &'a [u8],
}

impl<'a> ByteReader<'a> {
    pub(crate) fn new(bytes: &'a [u8]) -> ByteReader<'a> {
        ByteReader { rest: bytes }
    }
}

impl<'a> Read for ByteReader<'a> {
    ghost remaining = { λ reader. Some reader.rest.now };

    fn read(&mut self, buffer: &mut [u8]) -> io::Result<usize> {
        let count = self.rest.len().min(buffer.len()).min(1);
        let (given, rest) = self.rest.split_at(count);
        buffer[..count].copy_from_slice(given);
        self.rest = rest;
        Ok(count)
    }
}

/// A writer that appends its bytes to a vector.
#[derive(Drop)]
pub(crate) struct ByteWriter {
    bytes: Vec<u8>,
}

impl ByteWriter {
    pub(crate) fn new(bytes: Vec<u8>) -> ByteWriter {
        ByteWriter { bytes }
    }

    pub(crate) fn bytes(&self) -> &[u8] {
        self.bytes.as_slice()
    }
}

impl Write for ByteWriter {
    ghost contents = { λ writer. Some writer.bytes.items };

    fn write(&mut self, part: &[u8]) -> io::Result<usize> {
        let count = part.len().min(1);
        self.bytes.extend_from_slice(&part[..count])?;
        Ok(count)
    }

    fn flush(&mut self) -> io::Result<()> {
        Ok(())
    }
}

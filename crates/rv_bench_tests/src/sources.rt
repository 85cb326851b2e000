//! The program's source over a reader of std.
use rv_bench::{BufferedSource, ReaderSource};
use std::io::Read;

/// Returns a buffered source over a reader. The input that is assumed is empty: the tests compare bytes, and use no theorem about the input.
pub fn source_over<R: Read>(reader: R) -> BufferedSource<ReaderSource<R>> {
    BufferedSource::new(ReaderSource::new(reader))
}

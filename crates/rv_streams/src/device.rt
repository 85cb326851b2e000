//! The contracts of a source of bytes and a sink for bytes.
ghost use Rattle.std.specs.Prelude.{◌≡◌, ℕ, Bool, false, List, [], ◌++◌, ◌+◌, ◌-◌, ◌<◌, ◌≤◌, ◌==◌, ◌&&◌, ◌||◌, min, take, length, IsTrue, is_err, is_ok};
ghost use Rattle.rv_streams.specs.Device.{moved_count, moves_none, counted_if};
ghost use Rattle.rv_text.specs.Lines.{has_feed};

/// A call of a device failed. No byte was given or taken in that call.
#[derive(Clone, Copy, Debug, PartialEq, Eq)]
pub struct DeviceFault;

/// A device that gives bytes.
pub trait Source {
    // The input that is assumed. No call changes it.
    ghost input: { Self → List ℕ };

    // The bytes given so far are the beginning of the assumed input, and all of it once the source returned its end.
    ghost follows_input: { Self → Type 0 };

    // The bytes of the assumed input that are still to come.
    ghost remaining: { Self → List ℕ };

    // The number of calls that had room for a byte and succeeded without one.
    ghost ends: { Self → ℕ };

    // The number of calls that failed.
    ghost failures: { Self → ℕ };

    // An upper bound on the number of calls that can still give a byte.
    ghost calls_left: { Self → ℕ };

    /// Reads some bytes to the start of the buffer, and returns how many. It returns 0 only at the end, or if the buffer has no room.
    ///
    /// # Errors
    ///
    /// `DeviceFault`, if the device failed. No byte is lost then, and a later call continues.
    fn read_some(&mut self, buffer: &mut [u8]) -> Result<usize, DeviceFault>
        ensures room { moved_count result ≤ length buffer.new }
        ensures bytes { follows_input self.new → remaining self.old ≡ take (moved_count result) buffer.new ++ remaining self.new }
        ensures end { follows_input self.new → IsTrue (moves_none result (length buffer.new)) → remaining self.new ≡ [] }
        ensures same { input self.new ≡ input self.old }
        ensures before { follows_input self.new → follows_input self.old }
        ensures ends { ends self.new ≡ counted_if (moves_none result (length buffer.new)) (ends self.old) }
        ensures failures { failures self.new ≡ counted_if (is_err result) (failures self.old) }
        ensures falls { calls_left self.new + min (moved_count result) 1 ≤ calls_left self.old };

    /// Reads some bytes of one line to the start of the buffer, and returns how many. Only the last of them may be a line feed. It returns 0 only
    /// at the end.
    ///
    /// # Errors
    ///
    /// As for `read_some`.
    fn read_in_line(&mut self, buffer: &mut [u8]) -> Result<usize, DeviceFault>
        requires space { 0 < length buffer.old }
        ensures room { moved_count result ≤ length buffer.new }
        ensures line { has_feed (take (moved_count result - 1) buffer.new) ≡ false }
        ensures bytes { follows_input self.new → remaining self.old ≡ take (moved_count result) buffer.new ++ remaining self.new }
        ensures end { follows_input self.new → IsTrue (moves_none result 1) → remaining self.new ≡ [] }
        ensures same { input self.new ≡ input self.old }
        ensures before { follows_input self.new → follows_input self.old }
        ensures ends { ends self.new ≡ counted_if (moves_none result 1) (ends self.old) }
        ensures failures { failures self.new ≡ counted_if (is_err result) (failures self.old) }
        ensures falls { calls_left self.new + moved_count result ≤ calls_left self.old }
    {
        self.read_some(&mut buffer[..1])
    }

    /// Returns whether a whole line was read ahead, so that the next line is given without waiting. The output does not depend on the result, but
    /// the time at which a sink passes it on does.
    fn has_line_ahead(&self) -> bool {
        false
    }
}

/// A device that takes bytes.
pub trait Sink {
    // The bytes taken so far.
    ghost taken: { Self → List ℕ };

    // Whether no byte was taken since the last successful flush, or none at all.
    ghost is_flushed: { Self → Bool };

    // The number of flushes that succeeded.
    ghost flushes: { Self → ℕ };

    // The number of calls with a non-empty part that succeeded and took no byte.
    ghost refusals: { Self → ℕ };

    // The number of calls that failed.
    ghost failures: { Self → ℕ };

    /// Takes some bytes from the start of the part, and returns how many.
    ///
    /// # Errors
    ///
    /// `DeviceFault`, if the device failed. No byte of the part is taken then.
    fn write_some(&mut self, part: &[u8]) -> Result<usize, DeviceFault>
        ensures bound { moved_count result ≤ length part.now }
        ensures bytes { taken self.new ≡ taken self.old ++ take (moved_count result) part.now }
        ensures flushed { is_flushed self.new ≡ (is_flushed self.old && (moved_count result == 0)) }
        ensures flushes { flushes self.new ≡ flushes self.old }
        ensures refusals { refusals self.new ≡ counted_if (moves_none result (length part.now)) (refusals self.old) }
        ensures failures { failures self.new ≡ counted_if (is_err result) (failures self.old) };

    /// Passes on all bytes that the sink has taken and still holds, without a flush. A sink that holds none does nothing.
    ///
    /// # Errors
    ///
    /// `DeviceFault`, if the device failed. The sink still holds the bytes that were not passed on.
    fn pass_on(&mut self) -> Result<(), DeviceFault>
        ensures bytes { taken self.new ≡ taken self.old }
        ensures flushed { is_flushed self.new ≡ is_flushed self.old }
        ensures flushes { flushes self.new ≡ flushes self.old }
        ensures refusals { refusals self.new ≡ refusals self.old }
        ensures failures { failures self.new ≡ counted_if (is_err result) (failures self.old) }
    {
        Ok(())
    }

    /// Passes on all bytes that the sink has taken and still holds, and flushes the device.
    ///
    /// # Errors
    ///
    /// `DeviceFault`, if the device failed. The sink still holds the bytes that were not passed on.
    fn flush(&mut self) -> Result<(), DeviceFault>
        ensures bytes { taken self.new ≡ taken self.old }
        ensures flushed { is_flushed self.new ≡ (is_flushed self.old || is_ok result) }
        ensures flushes { flushes self.new ≡ counted_if (is_ok result) (flushes self.old) }
        ensures refusals { refusals self.new ≡ refusals self.old }
        ensures failures { failures self.new ≡ counted_if (is_err result) (failures self.old) };
}

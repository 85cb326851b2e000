//! Gathers lines for a sink, so that it is not called for each of them.

ghost use Rattle.std.specs.Prelude.{◌≡◌, ◌+◌, ◌≤◌, ◌++◌, ◌⊎◌, true, OnOk, OnErr};
ghost use Rattle.arrayvec.specs.ArrayVec.{array_vec_len};
ghost use Rattle.rv_streams.specs.Device.{HasRisen};
ghost use Rattle.rv_streams.specs.Transfer.{WritesUpTo, WritesPrefix};

use crate::device::{DeviceFault, Sink};
use crate::transfer::write_all;
use rv_text::Reply;

/// Writes the gathered bytes and empties the buffer, if it has no room for `room` more bytes.
///
/// # Errors
///
/// `DeviceFault`, only if the sink failed in this call or took no byte of a non-empty part. A prefix of the gathered bytes is then written.
pub(crate) fn make_room<W: Sink>(
    gathered: &mut Reply,
    room: usize,
    sink: &mut W,
) -> Result<(), DeviceFault>
    requires { room ≤ 2048 }
    ensures room { OnOk result (array_vec_len gathered.new + room ≤ 2048) }
    ensures written { OnOk result (WritesUpTo (W.taken sink.old) (W.taken sink.new) gathered.old.items gathered.new.items) }
    ensures prefix { WritesPrefix (W.taken sink.old) (W.taken sink.new) gathered.old.items }
    ensures ok { OnOk result ((W.failures sink.new ≡ W.failures sink.old) × (W.refusals sink.new ≡ W.refusals sink.old)) }
    ensures flushes { W.flushes sink.new ≡ W.flushes sink.old }
    ensures err { OnErr result (HasRisen (W.failures sink.old) (W.failures sink.new) ⊎ HasRisen (W.refusals sink.old) (W.refusals sink.new)) }
{
    if gathered.remaining_capacity() < room {
        write_all(sink, gathered.as_slice())?;
        gathered.clear();
    }
    Ok(())
}

/// Writes the gathered bytes, which are the last of a text, and flushes the sink.
///
/// # Errors
///
/// `DeviceFault`, only if the sink failed in this call or took no byte of a non-empty part. A prefix of the gathered bytes is then written.
pub fn write_last<W: Sink>(gathered: &Reply, sink: &mut W) -> Result<(), DeviceFault>
    ensures written { OnOk result (W.taken sink.new ≡ W.taken sink.old ++ gathered.now.items) }
    ensures prefix { WritesPrefix (W.taken sink.old) (W.taken sink.new) gathered.now.items }
    ensures flushed { OnOk result ((W.is_flushed sink.new ≡ true) × (W.flushes sink.new ≡ W.flushes sink.old + 1)) }
    ensures ok { OnOk result ((W.failures sink.new ≡ W.failures sink.old) × (W.refusals sink.new ≡ W.refusals sink.old)) }
    ensures err { OnErr result (HasRisen (W.failures sink.old) (W.failures sink.new) ⊎ HasRisen (W.refusals sink.old) (W.refusals sink.new)) }
{
    write_all(sink, gathered.as_slice())?;
    sink.flush()
}

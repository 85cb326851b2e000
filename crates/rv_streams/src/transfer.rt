//! Writes a whole text to a sink.
ghost use Rattle.std.specs.Prelude.{◌≡◌, ◌++◌, ◌⊎◌, OnOk, OnErr};
ghost use Rattle.rv_streams.specs.Device.{HasRisen};
ghost use Rattle.rv_streams.specs.Transfer.{WritesPrefix};

use crate::device::{DeviceFault, Sink};

/// Writes the whole text, part by part. For an empty text the sink is not called.
///
/// # Errors
///
/// `DeviceFault`, only if the sink failed in this call or took no byte of a non-empty part. A prefix of the text is then written.
pub fn write_all<W: Sink>(sink: &mut W, text: &[u8]) -> Result<(), DeviceFault>
    ensures written { OnOk result (W.taken sink.new ≡ W.taken sink.old ++ text.now) }
    ensures prefix { WritesPrefix (W.taken sink.old) (W.taken sink.new) text.now }
    ensures ok { OnOk result ((W.failures sink.new ≡ W.failures sink.old) × (W.refusals sink.new ≡ W.refusals sink.old)) }
    ensures flushes { W.flushes sink.new ≡ W.flushes sink.old }
    ensures err { OnErr result (HasRisen (W.failures sink.old) (W.failures sink.new) ⊎ HasRisen (W.refusals sink.old) (W.refusals sink.new)) }
{
    let mut rest = text;
    while !rest.is_empty() {
        let count = sink.write_some(rest)?;
        if count == 0 {
            return Err(DeviceFault);
        }
        rest = &rest[count..];
    }
    Ok(())
}

/// Writes the whole text. If it is the last one before the program waits for input, passes on what the sink holds.
///
/// # Errors
///
/// As for `write_all`. If the bytes could not be passed on, the whole text is written.
pub fn write_reply<W: Sink>(sink: &mut W, text: &[u8], is_last: bool) -> Result<(), DeviceFault>
    ensures written { OnOk result (W.taken sink.new ≡ W.taken sink.old ++ text.now) }
    ensures prefix { WritesPrefix (W.taken sink.old) (W.taken sink.new) text.now }
    ensures ok { OnOk result ((W.failures sink.new ≡ W.failures sink.old) × (W.refusals sink.new ≡ W.refusals sink.old)) }
    ensures flushes { W.flushes sink.new ≡ W.flushes sink.old }
    ensures err { OnErr result (HasRisen (W.failures sink.old) (W.failures sink.new) ⊎ HasRisen (W.refusals sink.old) (W.refusals sink.new)) }
{
    write_all(sink, text)?;
    if is_last { sink.pass_on() } else { Ok(()) }
}

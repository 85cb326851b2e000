//! Reads all bytes of a source into memory.

ghost use Rattle.std.specs.Prelude.{◌≤◌, length};
ghost use Rattle.rv_streams.specs.Assemble.{AddsPart, ReadsText};

use crate::device::Source;
use crate::fault::BenchFault;
use crate::room::add_behind;
use std::alloc::Global;

/// The maximal number of bytes of an assembler text.
pub const ASM_TEXT_MAX: usize = 4_194_304;

/// The number of bytes that are read in one call.
const PART_LEN: usize = 4096;

/// Appends a part to the text. An `Err` changes nothing.
///
/// # Errors
///
/// - `TooLong`, if the text would have more than `ASM_TEXT_MAX` bytes.
/// - `NoMemory`, if memory is exhausted.
fn add_part(text: &mut Vec<u8>, part: &[u8]) -> Result<(), BenchFault>
    requires text { length text.old.items ≤ 4194304 }
    requires part { length part.now ≤ 4096 }
    ensures { AddsPart part.now text.old.items text.new.items result }
{
    if text.len() + part.len() > ASM_TEXT_MAX {
        return Err(BenchFault::TooLong);
    }
    add_behind(text, part)
}

/// Reads all bytes of a source, to its end.
///
/// # Errors
///
/// The first that occurs:
/// - `Read`, if the source failed in this call.
/// - `TooLong`, if there are more than `ASM_TEXT_MAX` bytes.
/// - `NoMemory`, if memory for the bytes is exhausted, after at least one byte was read.
pub(crate) fn read_whole<S: Source>(alloc: Global, source: &mut S) -> Result<Vec<u8>, BenchFault>
    ensures { ReadsText S.Source source.old source.new result }
{
    let mut text = Vec::new(alloc);
    let mut part = [0; PART_LEN];
    loop {
        let count = source.read_some(&mut part).map_err(|_| BenchFault::Read)?;
        if count == 0 {
            return Ok(text);
        }
        add_part(&mut text, &part[..count])?;
    }
}

//! Disassembles the words of an image.

ghost use Rattle.std.specs.Prelude.{◌≡◌, ◌+◌, ◌≤◌, ◌++◌, ◌⊎◌, true, map, OnOk, OnErr};
ghost use Rattle.arrayvec.specs.ArrayVec.{array_vec_len};
ghost use Rattle.rv_word.specs.ByteOrder.{word_of_bytes};
ghost use Rattle.rv_streams.specs.Device.{HasRisen};
ghost use Rattle.rv_streams.specs.Disassemble.{RunsDis};
ghost use Rattle.rv_streams.specs.DisassemblyText.{dis_line, disassembly_text};
ghost use Rattle.rv_streams.specs.Transfer.{WritesPrefix};
ghost use Rattle.rv_streams.specs.Unread.{EndsWithSource};

use crate::device::{DeviceFault, Sink, Source};
use crate::fault::BenchFault;
use crate::gathered::{make_room, write_last};
use crate::image::read_image;
use crate::lines::Lines;
use arrayvec::ArrayString;
use rv_asm::disassemble;
use rv_text::{Reply, push_hex, push_text};
use rv_word::le_word;
use std::alloc::Global;

/// The maximal number of bytes in the line of a word.
const LINE_MAX: usize = 58;

/// Appends a word and its disassembly to a text that has room for them.
#[tactic(auto, unfolding(crate::specs::DisassemblyText::dis_line))]
fn push_disassembly(out: &mut Reply, word: u32)
    requires room { array_vec_len out.old + 58 ≤ 2048 }
    ensures items { out.new.items ≡ out.old.items ++ dis_line word }
    ensures len { array_vec_len out.new ≤ array_vec_len out.old + 58 }
{
    let mut spelling = ArrayString::new();
    disassemble(word, &mut spelling);
    push_hex(out, word, 8);
    push_text(out, " ");
    push_text(out, spelling.as_str());
    push_text(out, "\n");
}

/// Writes a line for each word, which is given by its bytes, and flushes the sink.
///
/// # Errors
///
/// `DeviceFault`, only if the sink failed in this call or took no byte of a non-empty part. A prefix of the lines is then written.
fn write_disassembly<W: Sink>(words: &[[u8; 4]], sink: &mut W) -> Result<(), DeviceFault>
    ensures written { OnOk result (W.taken sink.new ≡ W.taken sink.old ++ disassembly_text (map word_of_bytes words.now)) }
    ensures prefix { WritesPrefix (W.taken sink.old) (W.taken sink.new) (disassembly_text (map word_of_bytes words.now)) }
    ensures flushed { OnOk result ((W.is_flushed sink.new ≡ true) × (W.flushes sink.new ≡ W.flushes sink.old + 1)) }
    ensures ok { OnOk result ((W.failures sink.new ≡ W.failures sink.old) × (W.refusals sink.new ≡ W.refusals sink.old)) }
    ensures err { OnErr result (HasRisen (W.failures sink.old) (W.failures sink.new) ⊎ HasRisen (W.refusals sink.old) (W.refusals sink.new)) }
{
    let mut gathered = Reply::new();
    for bytes in words {
        make_room(&mut gathered, LINE_MAX, sink)?;
        push_disassembly(&mut gathered, le_word(bytes));
    }
    write_last(&gathered, sink)
}

/// Reads an image as `read_image` does, and writes a line for each of its words: the word in eight hexadecimal digits, a space, and its
/// disassembly. Nothing after the line `--` is read.
///
/// # Errors
///
/// The first of these that occurs; only with `Write` may some of the lines be written:
/// - While the image is read, in the order of its lines: `Read`, `Hex`, `TooLong` and `NoMemory`, as for `read_image`.
/// - `Hex`, if the number of the image's bytes is not a multiple of 4.
/// - `Write`, if the sink failed in this call or took no byte of a non-empty part. A prefix of the lines is then written.
pub fn run_dis<S: Source, W: Sink>(
    alloc: Global,
    lines: &mut Lines<S>,
    sink: &mut W,
) -> Result<(), BenchFault>
    ensures outcome { RunsDis W.Sink lines.old lines.new sink.old sink.new result }
    ensures end { EndsWithSource lines.old lines.new }
{
    let image = read_image(alloc, lines)?;
    let (words, rest) = image.as_slice().as_chunks::<4>();
    if !rest.is_empty() {
        return Err(BenchFault::Hex);
    }
    write_disassembly(words, sink).map_err(|_| BenchFault::Write)
}

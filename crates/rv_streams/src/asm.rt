//! Assembles a text to the bytes of its words.

ghost use Rattle.std.specs.Prelude.{◌≡◌, ◌+◌, ◌≤◌, ◌++◌, ◌⊎◌, true, OnOk, OnErr};
ghost use Rattle.arrayvec.specs.ArrayVec.{array_vec_len};
ghost use Rattle.rv_streams.specs.Assemble.{RunsAsm};
ghost use Rattle.rv_streams.specs.AssemblyText.{word_line, asm_text};
ghost use Rattle.rv_streams.specs.Device.{HasRisen};
ghost use Rattle.rv_streams.specs.Transfer.{WritesPrefix};

use crate::device::{DeviceFault, Sink, Source};
use crate::fault::BenchFault;
use crate::gathered::{make_room, write_last};
use crate::whole::read_whole;
use rv_asm::assemble;
use rv_text::{Reply, push_hex, push_text};
use rv_word::le_bytes;
use std::alloc::Global;

/// The number of bytes in the line of a word.
const LINE_LEN: usize = 9;

/// Appends the bytes of a word, little-endian, to a text that has room for them.
#[tactic(auto, unfolding(crate::specs::AssemblyText::word_line))]
fn push_word(out: &mut Reply, word: u32)
    requires room { array_vec_len out.old + 9 ≤ 2048 }
    ensures items { out.new.items ≡ out.old.items ++ word_line word }
    ensures len { array_vec_len out.new ≡ array_vec_len out.old + 9 }
{
    let [first, second, third, fourth] = le_bytes(word);
    push_hex(out, u32::from(first), 2);
    push_hex(out, u32::from(second), 2);
    push_hex(out, u32::from(third), 2);
    push_hex(out, u32::from(fourth), 2);
    push_text(out, "\n");
}

/// Writes a line for each word, and flushes the sink.
///
/// # Errors
///
/// `DeviceFault`, only if the sink failed in this call or took no byte of a non-empty part. A prefix of the lines is then written.
fn write_words<W: Sink>(words: &[u32], sink: &mut W) -> Result<(), DeviceFault>
    ensures written { OnOk result (W.taken sink.new ≡ W.taken sink.old ++ asm_text words.now) }
    ensures prefix { WritesPrefix (W.taken sink.old) (W.taken sink.new) (asm_text words.now) }
    ensures flushed { OnOk result ((W.is_flushed sink.new ≡ true) × (W.flushes sink.new ≡ W.flushes sink.old + 1)) }
    ensures ok { OnOk result ((W.failures sink.new ≡ W.failures sink.old) × (W.refusals sink.new ≡ W.refusals sink.old)) }
    ensures err { OnErr result (HasRisen (W.failures sink.old) (W.failures sink.new) ⊎ HasRisen (W.refusals sink.old) (W.refusals sink.new)) }
{
    let mut gathered = Reply::new();
    for word in words {
        make_room(&mut gathered, LINE_LEN, sink)?;
        push_word(&mut gathered, *word);
    }
    write_last(&gathered, sink)
}

/// Reads an assembler text to the end of the source, and writes a line for each of its words. A line has the four bytes of the word,
/// little-endian, in two hexadecimal digits each.
///
/// # Errors
///
/// The first of these that occurs; only with `Write` may some of the lines be written:
/// - While the text is read: `Read`, if the source failed in this call; `TooLong`, if the text has more than `ASM_TEXT_MAX` bytes; `NoMemory`,
///   if memory for the text is exhausted.
/// - `Asm` with the first error of the text, or with `NoMemory` if memory for the words is exhausted at a line. No line before it then has an
///   error by itself.
/// - `Write`, if the sink failed in this call or took no byte of a non-empty part. A prefix of the lines is then written.
pub fn run_asm<S: Source, W: Sink>(
    alloc: Global,
    source: &mut S,
    sink: &mut W,
) -> Result<(), BenchFault>
    ensures { RunsAsm S.Source W.Sink source.old source.new sink.old sink.new result }
{
    let text = read_whole(alloc, source)?;
    match assemble(alloc, text.as_slice()) {
        Ok(words) => write_words(words.as_slice(), sink).map_err(|_| BenchFault::Write),
        Err(fault) => Err(BenchFault::Asm(fault)),
    }
}

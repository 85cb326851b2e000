//! Reads the image in a text of hexadecimal lines.
ghost use Rattle.std.specs.Prelude.{◌≤◌, vec_len, length};
ghost use Rattle.rv_text.specs.GoodLines.{max_line};
ghost use Rattle.rv_streams.specs.Image.{AddsBytes};
ghost use Rattle.rv_streams.specs.ReadImage.{ReadsImage};
ghost use Rattle.rv_streams.specs.Unread.{EndsWithSource};

use crate::device::Source;
use crate::fault::BenchFault;
use crate::lines::Lines;
use crate::room::add_behind;
use crate::separator::{is_dashes, only_word};
use rv_text::MAX_LINE;
use std::alloc::Global;

/// The maximal number of bytes of an image.
pub const IMAGE_MAX: usize = 33554432;

/// Appends the bytes of hexadecimal digits. An `Err` changes nothing.
///
/// # Errors
///
/// - `Hex`, if the word is not an even number of hexadecimal digits.
/// - `TooLong`, if the image would have more than `IMAGE_MAX` bytes.
/// - `NoMemory`, if memory is exhausted.
fn add_bytes(image: &mut Vec<u8>, word: &[u8]) -> Result<(), BenchFault>
    requires image { vec_len image.old ≤ 33554432 }
    requires word { length word.now ≤ max_line }
    ensures outcome { AddsBytes word.now image.old.items image.new.items result }
    ensures len { vec_len image.new ≤ 33554432 }
{
    let mut bytes = [0u8; MAX_LINE / 2];
    let count = word.len() / 2;
    if hex::decode_to_slice(word, &mut bytes[..count]).is_err() {
        return Err(BenchFault::Hex);
    }
    if image.len() + count > IMAGE_MAX {
        return Err(BenchFault::TooLong);
    }
    add_behind(image, &bytes[..count])
}

/// Reads the image: the lines before the first line whose only word is `--`, or all lines. The line `--` is read too.
///
/// # Errors
///
/// The first that occurs. Within a line they are checked in this order:
/// - `Read`, if the source failed in this call. The image so far is dropped, and the prefix of the unfinished line is kept.
/// - `Hex`, at a line that is too long or has a byte that no line may have. Also at a line that is not one word of an even number of hexadecimal
///   digits, with optional spaces and tabs around it. A line without a word is no error.
/// - `TooLong`, if the image would have more than `IMAGE_MAX` bytes.
/// - `NoMemory`, if memory is exhausted.
pub fn read_image<S: Source>(alloc: Global, lines: &mut Lines<S>) -> Result<Vec<u8>, BenchFault>
    ensures outcome { ReadsImage lines.old lines.new result }
    ensures end { EndsWithSource lines.old lines.new }
{
    let mut image = Vec::new(alloc);
    while let Some(line) = lines.next_line().map_err(|_| BenchFault::Read)? {
        let Some(word) = only_word(line.as_slice()) else {
            return Err(BenchFault::Hex);
        };
        if is_dashes(word) {
            return Ok(image);
        }
        add_bytes(&mut image, word)?;
    }
    Ok(image)
}

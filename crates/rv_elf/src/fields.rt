//! Reads the fields of an ELF file.

ghost use Rattle.std.specs.Prelude.{◌≡◌, ◌+◌, ◌≤◌, length, take};
ghost use Rattle.std.specs.Str.{bytes_eq};
ghost use Rattle.rv_elf.specs.Fields.{half_at as half_at_of, word_at as word_at_of, magic};

use rv_word::le_word;

/// The first bytes of an ELF file.
const MAGIC: [u8; 4] = [0x7f, b'E', b'L', b'F'];

/// Returns whether an image begins as an ELF file does, with the bytes 7F 45 4C 46.
pub fn is_elf(image: &[u8]) -> bool
    ensures { result ≡ bytes_eq (take 4 image.now) magic }
{
    image.starts_with(&MAGIC)
}

/// Returns the little-endian number of 2 bytes at an offset.
pub(crate) fn half_at(file: &[u8], place: usize) -> u16
    requires { place + 2 ≤ length file.now }
    ensures { result ≡ half_at_of file.now place }
{
    u16::from_le_bytes([file[place], file[place + 1]])
}

/// Returns the little-endian number of 4 bytes at an offset.
pub(crate) fn word_at(file: &[u8], place: usize) -> u32
    requires { place + 4 ≤ length file.now }
    ensures { result ≡ word_at_of file.now place }
{
    let mut bytes = [0; 4];
    bytes.copy_from_slice(&file[place..place + 4]);
    le_word(&bytes)
}

//! Finds a byte in a text.

ghost use Rattle.std.specs.Prelude.{◌≡◌, ◌==◌, ◌≤◌, length};
ghost use Rattle.std.specs.List.{position_or_len};

use memchr::memchr;

/// Returns the position of the first such byte, or the length of the text if there is none.
pub fn position_of(text: &[u8], wanted: u8) -> usize
    ensures value { result ≡ position_or_len (λ b. b == wanted) text.now }
    ensures within { result ≤ length text.now }
{
    memchr(wanted, text).unwrap_or(text.len())
}

/// Returns the same for a short text, by a loop: a call of `memchr` costs more than the search of some 16 bytes.
#[inline(always)]
pub fn position_in_short(text: &[u8], wanted: u8) -> usize
    ensures value { result ≡ position_or_len (λ b. b == wanted) text.now }
    ensures within { result ≤ length text.now }
{
    text.iter()
        .position(|byte| *byte == wanted)
        .unwrap_or(text.len())
}

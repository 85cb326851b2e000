//! The four bytes of a word in memory, little-endian (Unprivileged ISA, section 2.6).

ghost use Rattle.std.specs.Prelude.{◌≡◌, ℕ, ◌<◌, slice_index};
ghost use Rattle.std.specs.Int.{w32, to_le_bytes, from_le_bytes};
ghost use Rattle.rv_word.specs.ByteOrder.{word_of_bytes, byte_of};

/// Returns the word with these four bytes, little-endian.
pub const fn le_word(bytes: &[u8; 4]) -> u32
    ensures value { result ≡ word_of_bytes bytes.now }
    ensures as_bytes { (k : ℕ) → k < 4 → slice_index bytes.now k ≡ byte_of result k }
    ensures by_std { result ≡ from_le_bytes w32 bytes.now }
{
    u32::from_le_bytes(*bytes)
}

/// Returns the four bytes of a word, little-endian.
pub const fn le_bytes(word: u32) -> [u8; 4]
    ensures each { (k : ℕ) → k < 4 → slice_index result k ≡ byte_of word k }
    ensures round_trip { word_of_bytes result ≡ word }
    ensures by_std { result ≡ to_le_bytes w32 word }
{
    word.to_le_bytes()
}

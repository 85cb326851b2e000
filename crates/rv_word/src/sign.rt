//! The signed values of words (Unprivileged ISA, section 2.1).

ghost use Rattle.std.specs.Prelude.{◌≡◌};
ghost use Rattle.rv_word.specs.Word.{signed as signed_of};

/// Returns the signed value of a word, in two's complement.
pub const fn signed(word: u32) -> i64
    ensures { result ≡ signed_of word }
{
    word.cast_signed() as i64
}

//! Fields of bits of a word, and their signs (Unprivileged ISA, section 2.3).

ghost use Rattle.std.specs.Prelude.{◌≡◌, ◌+◌, ◌-◌, ◌^◌, ◌<◌, ◌≤◌};
ghost use Rattle.rv_word.specs.Word.{signed};
ghost use Rattle.rv_word.specs.BitFields.{bits as bits_of, sign_extended, signed_field};

/// Returns bits `hi` down to `lo` of a word, as a number. Bit 0 is the lowest.
pub const fn bits(word: u32, hi: u8, lo: u8) -> u32
    requires ordered { lo ≤ hi }
    requires within { hi ≤ 31 }
    ensures value { result ≡ bits_of word hi lo }
    ensures narrow { result < 2 ^ (hi + 1 - lo) }
{
    (word >> lo) & (u32::MAX >> (31 - (hi - lo)))
}

/// Sign-extends the low `width` bits of `value` to 32 bits. The width is from 1 to 32.
pub const fn sext(value: u32, width: u8) -> u32
    requires positive { 1 ≤ width }
    requires within { width ≤ 32 }
    ensures value { result ≡ sign_extended value width }
    ensures same_sign { signed result ≡ signed_field value width }
{
    let unused = 32 - width;
    ((value << unused).cast_signed() >> unused).cast_unsigned()
}

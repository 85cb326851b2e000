//! Single bits and fields of a word.

ghost use Rattle.std.specs.Prelude.{◌≡◌, ◌%◌, ◌^◌, ◌<◌, ◌≤◌};
ghost use Rattle.rv_word.specs.BitFields.{flag, is_set};
ghost use Rattle.rv_state.specs.Bits.{aligned_to_4};

/// Returns whether bit `k` of the word is 1.
#[inline(always)]
pub const fn is_set(word: u32, k: u32) -> bool
    requires { k < 32 }
    ensures { result ≡ is_set word k }
{
    (word >> k) % 2 == 1
}

/// Returns the word with only bit `k` set, or 0.
#[inline(always)]
pub const fn flag(k: u32, set: bool) -> u32
    requires { k < 32 }
    ensures value { result ≡ flag k set }
    ensures bound { result ≤ 2 ^ k }
{
    if set { 1 << k } else { 0 }
}

/// Returns the address with its bits 1:0 cleared.
#[inline(always)]
pub const fn aligned_to_4(address: u32) -> u32
    ensures value { result ≡ aligned_to_4 address }
    ensures multiple { result % 4 ≡ 0 }
{
    address / 4 * 4
}

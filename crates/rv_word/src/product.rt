//! Computes the high words of products (Unprivileged ISA, section 7.1).

ghost use Rattle.std.specs.Prelude.{◌≡◌, ℕ, ◌*◌, ◌/◌, ◌^◌, ◌<◌, pos, ◌*ℤ◌};
ghost use Rattle.rv_word.specs.Word.{signed as signed_of};
ghost use Rattle.rv_word.specs.Products.{high_word as high_word_of, IsSignedHighWord};

use crate::sign::signed;

/// Returns the high word of a product of 64 bits.
const fn high_word(product: i64) -> u32
    ensures value { result ≡ high_word_of product }
    ensures equation { IsSignedHighWord product result }
    ensures unique { (word : ℕ) → word < 2 ^ 32 → IsSignedHighWord product word → word ≡ result }
{
    (product.cast_unsigned() >> 32) as u32
}

/// Returns the high word of the product of two signed words.
pub const fn mulh(left: u32, right: u32) -> u32
    ensures value { result ≡ high_word_of (signed_of left *ℤ signed_of right) }
    ensures equation { IsSignedHighWord (signed_of left *ℤ signed_of right) result }
    ensures unique { (word : ℕ) → word < 2 ^ 32 → IsSignedHighWord (signed_of left *ℤ signed_of right) word →
        word ≡ result }
{
    high_word(signed(left) * signed(right))
}

/// Returns the high word of the product of a signed and an unsigned word.
pub const fn mulhsu(left: u32, right: u32) -> u32
    ensures value { result ≡ high_word_of (signed_of left *ℤ pos right) }
    ensures equation { IsSignedHighWord (signed_of left *ℤ pos right) result }
    ensures unique { (word : ℕ) → word < 2 ^ 32 → IsSignedHighWord (signed_of left *ℤ pos right) word →
        word ≡ result }
{
    high_word(signed(left) * right as i64)
}

/// Returns the high word of the product of two unsigned words.
pub const fn mulhu(left: u32, right: u32) -> u32
    ensures value { result ≡ high_word_of (pos left *ℤ pos right) }
    ensures equation { result ≡ left * right / 2 ^ 32 }
{
    ((left as u64 * right as u64) >> 32) as u32
}

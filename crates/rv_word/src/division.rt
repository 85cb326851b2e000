//! Computes quotients and remainders (Unprivileged ISA, section 7.2). Division by zero, and the only signed division whose quotient fits in no
//! word, have the results of that section's table.

ghost use Rattle.std.specs.Prelude.{◌≡◌, ◌≢◌, ℕ};
ghost use Rattle.rv_word.specs.Word.{signed};
ghost use Rattle.rv_word.specs.Division.{quotient, remainder, IsQuotient, IsRemainder, unsigned_quotient, unsigned_remainder};
ghost use Rattle.rv_word.specs.Division.{IsUnsignedQuotient, IsUnsignedRemainder};

/// Returns the signed quotient, rounded towards zero, modulo 2^32. Division by zero gives all ones.
pub const fn div(dividend: u32, divisor: u32) -> u32
    ensures value { result ≡ quotient dividend divisor }
    ensures equation { divisor ≢ 0 → IsQuotient (signed dividend) (signed divisor) result }
    ensures unique { (word : ℕ) → IsQuotient (signed dividend) (signed divisor) word → word ≡ result }
{
    if divisor == 0 {
        u32::MAX
    } else {
        dividend
            .cast_signed()
            .wrapping_div(divisor.cast_signed())
            .cast_unsigned()
    }
}

/// Returns the unsigned quotient, rounded down. Division by zero gives all ones.
pub const fn divu(dividend: u32, divisor: u32) -> u32
    ensures value { result ≡ unsigned_quotient dividend divisor }
    ensures equation { divisor ≢ 0 → IsUnsignedQuotient dividend divisor result }
    ensures unique { (word : ℕ) → IsUnsignedQuotient dividend divisor word → word ≡ result }
{
    if divisor == 0 {
        u32::MAX
    } else {
        dividend / divisor
    }
}

/// Returns the remainder of the signed division, with the sign of the dividend. Division by zero gives the dividend.
pub const fn rem(dividend: u32, divisor: u32) -> u32
    ensures value { result ≡ remainder dividend divisor }
    ensures equation { divisor ≢ 0 → IsRemainder (signed dividend) (signed divisor) result }
    ensures unique { (word : ℕ) → IsRemainder (signed dividend) (signed divisor) word → word ≡ result }
{
    if divisor == 0 {
        dividend
    } else {
        dividend
            .cast_signed()
            .wrapping_rem(divisor.cast_signed())
            .cast_unsigned()
    }
}

/// Returns the remainder of the unsigned division. Division by zero gives the dividend.
pub const fn remu(dividend: u32, divisor: u32) -> u32
    ensures value { result ≡ unsigned_remainder dividend divisor }
    ensures equation { divisor ≢ 0 → IsUnsignedRemainder dividend divisor result }
    ensures unique { (word : ℕ) → IsUnsignedRemainder dividend divisor word → word ≡ result }
{
    if divisor == 0 {
        dividend
    } else {
        dividend % divisor
    }
}

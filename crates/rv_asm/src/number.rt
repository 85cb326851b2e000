//! Reads numbers from a text.

ghost use Rattle.std.specs.Prelude.{◌≡◌, ℕ};
ghost use Rattle.rv_asm.specs.Numbers.{plus, minus, decimal_digits as decimal_digits_of, written_number as written_number_of};

use rv_text::digits;

/// A number with its sign.
#[derive(Clone, Copy)]
pub(crate) struct Number {
    /// Whether there is a `-` before it.
    pub(crate) is_negative: bool,
    /// Its absolute value. A value above the largest `u64` counts as the largest `u64`.
    pub(crate) magnitude: u64,
}

impl Number {
    /// Returns a number that is not negative.
    pub(crate) const fn plus(magnitude: u64) -> Self
        ensures { result ≡ plus magnitude }
    {
        Number {
            is_negative: false,
            magnitude,
        }
    }

    /// Returns a number with the sign `-`.
    pub(crate) const fn minus(magnitude: u64) -> Self
        ensures { result ≡ minus magnitude }
    {
        Number {
            is_negative: true,
            magnitude,
        }
    }
}

/// Returns the value of a text of one or more decimal digits. A value above the largest `u64` counts as the largest `u64`.
#[tactic(auto, unfolding(crate::specs::Numbers::decimal_digits))]
fn decimal_digits(text: &[u8]) -> Option<u64>
    ensures { result ≡ decimal_digits_of text.now }
{
    if text.is_empty() {
        return None;
    }
    let mut value: u64 = 0;
    for byte in text {
        let digit = char::from(*byte).to_digit(10)?;
        value = value.saturating_mul(10).saturating_add(u64::from(digit));
    }
    Some(value)
}

/// Reads a number: `0x` and one to eight hexadecimal digits of either case, or decimal digits with an optional `-` before them.
#[tactic(auto, unfolding(crate::specs::Numbers::written_number))]
pub(crate) fn written_number(text: &[u8]) -> Option<Number>
    ensures { result ≡ written_number_of text.now }
{
    if let Some(hexadecimal) = text.strip_prefix(b"0x") {
        return Some(Number::plus(u64::from(digits(hexadecimal, 16, 8)?)));
    }
    if let Some(decimal) = text.strip_prefix(b"-") {
        return Some(Number::minus(decimal_digits(decimal)?));
    }
    Some(Number::plus(decimal_digits(text)?))
}

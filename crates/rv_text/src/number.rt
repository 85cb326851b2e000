//! Reads numbers from digits.

ghost use Rattle.std.specs.Prelude.{◌≡◌, ℕ, ◌^◌, ◌≤◌, ◌<◌, IfSome};
ghost use Rattle.rv_text.specs.Numbers.{number_of_digits};

/// Returns the number that a text of 1 to `most` digits in the base has, or `None` for any other text.
#[tactic(auto, unfolding(crate::specs::Numbers::number_of_digits))]
pub fn digits(text: &[u8], base: u32, most: usize) -> Option<u32>
    requires low { 2 ≤ base }
    requires high { base ≤ 36 }
    requires fits { base ^ most ≤ 2 ^ 32 }
    ensures value { result ≡ number_of_digits base most text.now }
    ensures below { IfSome result (λ value. value < base ^ most) }
{
    if text.is_empty() || text.len() > most {
        return None;
    }
    let mut value = 0;
    for byte in text {
        let digit = char::from(*byte).to_digit(base)?;
        value = value * base + digit;
    }
    Some(value)
}

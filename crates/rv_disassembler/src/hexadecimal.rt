//! Hexadecimal numbers without leading zeros.

ghost use Rattle.std.specs.Prelude.{◌≡◌, ℕ, ◌^◌, ◌<◌, ◌≤◌, false};
ghost use Rattle.std.specs.Fmt.{digits};
ghost use Rattle.rv_text.specs.Digits.{hex_digits};

/// Returns the number of hexadecimal digits of a number of at most 20 bits without leading zeros.
#[tactic(auto, using(crate::proofs::HexTexts::hex_texts))]
pub(crate) fn digit_count(value: u32) -> usize
    requires { value < 2 ^ 20 }
    ensures few { result ≤ 5 }
    ensures digits { hex_digits result value ≡ digits 16 false value }
{
    match value {
        0..0x10 => 1,
        0x10..0x100 => 2,
        0x100..0x1000 => 3,
        0x1000..0x1_0000 => 4,
        _ => 5,
    }
}

//! Writes numbers in hexadecimal.

ghost use Rattle.std.specs.Prelude.{◌≡◌, ℕ, ◌^◌, ◌<◌, ◌≤◌, false};
ghost use Rattle.arrayvec.specs.ArrayString.{array_string_len};
ghost use Rattle.rv_text.specs.Digits.{hex_digits};

use arrayvec::ArrayString;

/// Returns the `places` last hexadecimal digits of a number, in lower case.
#[inline(always)]
pub fn hex(value: u32, places: usize) -> ArrayString<8>
    requires { places ≤ 8 }
    ensures digits { result.bytes ≡ hex_digits places value }
    ensures len { array_string_len result ≡ places }
{
    let mut text = ArrayString::new();
    for written in 0..places {
        let digit = (value >> (4 * (places - (written + 1)))) & 15;
        text.push(char::from_digit(digit, 16).unwrap());
    }
    text
}

//! Reads numbers from the operands of a command.

ghost use Rattle.std.specs.Prelude.{◌≡◌};
ghost use Rattle.rv_script.specs.Numbers.{hexadecimal_of, csr_number_of, byte_of_text, decimal_of};

use rv_encoding::CsrNumber;
use rv_text::digits;

/// Reads a hexadecimal number: one to eight digits of either case, with an optional `0x` before them.
#[tactic(auto, unfolding(crate::specs::Numbers::hexadecimal_of))]
pub(crate) fn hexadecimal(text: &[u8]) -> Option<u32>
    ensures { result ≡ hexadecimal_of text.now }
{
    digits(text.strip_prefix(b"0x").unwrap_or(text), 16, 8)
}

/// Reads the number of a control and status register: one to three hexadecimal digits of either case, without `0x`.
#[tactic(auto, unfolding(crate::specs::Numbers::csr_number_of))]
pub(crate) fn csr_number(text: &[u8]) -> Option<CsrNumber>
    ensures { result ≡ csr_number_of text.now }
{
    let number = digits(text, 16, 3)?;
    Some(CsrNumber::new(number as u16))
}

/// Reads a byte: one or two hexadecimal digits of either case, without `0x`.
#[tactic(auto, unfolding(crate::specs::Numbers::byte_of_text))]
pub(crate) fn byte(text: &[u8]) -> Option<u8>
    ensures { result ≡ byte_of_text text.now }
{
    let number = digits(text, 16, 2)?;
    Some(number as u8)
}

/// Reads a decimal number: one to seven digits.
#[tactic(auto, unfolding(crate::specs::Numbers::decimal_of))]
pub(crate) fn decimal(text: &[u8]) -> Option<u32>
    ensures { result ≡ decimal_of text.now }
{
    digits(text, 10, 7)
}

//! Appends the operands of instructions to a line (Unprivileged ISA, chapters 24 and 25).

ghost use Rattle.std.specs.Prelude.{◌≡◌, ℕ, ◌+◌, ◌^◌, ◌<◌, ◌≤◌, ◌++◌, length, decimal};
ghost use Rattle.arrayvec.specs.ArrayString.{array_string_len};
ghost use Rattle.rv_disassembler.specs.Spelling.{register_operand_text, hex_text, csr_operand_text, signed_text, address_text, letter_text, accesses_text};

use crate::hexadecimal::digit_count;
use arrayvec::ArrayString;
use itoa::Buffer;
use rv_encoding::{CsrNumber, FenceSet, Imm12};
use rv_text::hex;
use rv_word::Reg;

/// A line of the disassembler.
pub(super) type Line = ArrayString<48>;

/// Appends a number in decimal.
pub(super) fn push_decimal(out: &mut Line, number: u32)
    requires room { array_string_len out.old + 10 ≤ 48 }
    ensures bytes { out.new.bytes ≡ out.old.bytes ++ decimal number }
    ensures len { array_string_len out.new ≤ array_string_len out.old + 10 }
{
    out.push_str(Buffer::new().format(number));
}

/// Appends a register, by its number.
pub(super) fn push_register(out: &mut Line, register: Reg)
    requires room { array_string_len out.old + 4 ≤ 48 }
    ensures bytes { out.new.bytes ≡ out.old.bytes ++ register_operand_text register }
    ensures len { array_string_len out.new ≤ array_string_len out.old + 4 }
{
    out.push_str("x");
    out.push_str(Buffer::new().format(register.number()));
}

/// Appends a number of at most 20 bits in hexadecimal, without leading zeros.
pub(super) fn push_hex(out: &mut Line, number: u32)
    requires small { number < 2 ^ 20 }
    requires room { array_string_len out.old + 7 ≤ 48 }
    ensures bytes { out.new.bytes ≡ out.old.bytes ++ hex_text number }
    ensures len { array_string_len out.new ≤ array_string_len out.old + 7 }
{
    out.push_str("0x");
    out.push_str(hex(number, digit_count(number)).as_str());
}

/// Appends a control and status register, by its number in three digits.
pub(super) fn push_csr(out: &mut Line, csr: CsrNumber)
    requires room { array_string_len out.old + 5 ≤ 48 }
    ensures bytes { out.new.bytes ≡ out.old.bytes ++ csr_operand_text csr }
    ensures len { array_string_len out.new ≤ array_string_len out.old + 5 }
{
    out.push_str("0x");
    out.push_str(hex(u32::from(csr.number()), 3).as_str());
}

/// Appends the signed number of a field of `width` bits in two's complement.
pub(super) fn push_signed(out: &mut Line, field: u32, width: u32)
    requires width { (0 < width) × (width ≤ 21) }
    requires field { field < 2 ^ width }
    requires room { array_string_len out.old + 11 ≤ 48 }
    ensures bytes { out.new.bytes ≡ out.old.bytes ++ signed_text width field }
    ensures len { array_string_len out.new ≤ array_string_len out.old + 11 }
{
    if field < 1 << (width - 1) {
        push_decimal(out, field);
    } else {
        out.push_str("-");
        push_decimal(out, (1 << width) - field);
    }
}

/// Appends an offset and its base register.
pub(super) fn push_address(out: &mut Line, offset: Imm12, base: Reg)
    requires room { array_string_len out.old + 17 ≤ 48 }
    ensures bytes { out.new.bytes ≡ out.old.bytes ++ address_text offset base }
    ensures len { array_string_len out.new ≤ array_string_len out.old + 17 }
{
    push_signed(out, offset.bits(), 12);
    out.push_str("(");
    push_register(out, base);
    out.push_str(")");
}

/// Appends a letter if the set has the bit.
fn push_letter(out: &mut Line, set: u8, bit: u8, letter: &str)
    requires bit { 0 < bit }
    requires letter { length letter.now ≤ 1 }
    requires room { array_string_len out.old + 1 ≤ 48 }
    ensures bytes { out.new.bytes ≡ out.old.bytes ++ letter_text set bit letter.now }
    ensures len { array_string_len out.new ≤ array_string_len out.old + 1 }
{
    if set / bit % 2 == 1 {
        out.push_str(letter);
    }
}

/// Appends the accesses on one side of a fence, by their letters (section 2.7).
pub(super) fn push_accesses(out: &mut Line, accesses: FenceSet)
    requires room { array_string_len out.old + 4 ≤ 48 }
    ensures bytes { out.new.bytes ≡ out.old.bytes ++ accesses_text accesses }
    ensures len { array_string_len out.new ≤ array_string_len out.old + 4 }
{
    let set = accesses.bits();
    if set == 0 {
        return out.push_str("0");
    }
    push_letter(out, set, 8, "i");
    push_letter(out, set, 4, "o");
    push_letter(out, set, 2, "r");
    push_letter(out, set, 1, "w");
}

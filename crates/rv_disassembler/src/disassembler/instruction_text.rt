//! Writes lines with each form of operands. The line replaces the old text, except in functions whose name begins with `push`.

ghost use Rattle.std.specs.Prelude.{◌≡◌, ℕ, ◌+◌, ◌/◌, ◌^◌, ◌<◌, ◌≤◌, [], ◌∷◌, ◌++◌, length, codes, decimal};
ghost use Rattle.arrayvec.specs.ArrayString.{array_string_len};
ghost use Rattle.rv_disassembler.specs.Spelling.{register_operand_text, hex_text, csr_operand_text, signed_text, address_text, accesses_text, line_text};

use super::operand::{
    Line, push_accesses, push_address, push_csr, push_decimal, push_hex, push_register, push_signed,
};
use rv_encoding::{CsrNumber, FenceSet, Imm12, UpperImm};
use rv_word::Reg;

/// Writes a mnemonic that has operands.
fn put_mnemonic(out: &mut Line, name: &str)
    requires { length name.now ≤ 10 }
    ensures bytes { out.new.bytes ≡ name.now ++ codes " " }
    ensures len { array_string_len out.new ≤ 11 }
{
    out.clear();
    out.push_str(name);
    out.push_str(" ");
}

/// Appends the separator of two operands.
fn push_comma(out: &mut Line)
    requires room { array_string_len out.old + 2 ≤ 48 }
    ensures bytes { out.new.bytes ≡ out.old.bytes ++ codes ", " }
    ensures len { array_string_len out.new ≤ array_string_len out.old + 2 }
{
    out.push_str(", ");
}

/// Writes a mnemonic and its first register.
fn put_name_and_register(out: &mut Line, name: &str, register: Reg)
    requires { length name.now ≤ 10 }
    ensures bytes { out.new.bytes ≡ name.now ++ codes " " ++ register_operand_text register }
    ensures len { array_string_len out.new ≤ 15 }
{
    put_mnemonic(out, name);
    push_register(out, register);
}

/// Appends a register that is not the first operand.
fn push_next_register(out: &mut Line, register: Reg)
    requires room { array_string_len out.old + 6 ≤ 48 }
    ensures bytes { out.new.bytes ≡ out.old.bytes ++ codes ", " ++ register_operand_text register }
    ensures len { array_string_len out.new ≤ array_string_len out.old + 6 }
{
    push_comma(out);
    push_register(out, register);
}

/// Writes `name`.
#[tactic(auto, unfolding(crate::specs::Spelling::line_text))]
pub(super) fn put_name(out: &mut Line, name: &str)
    requires { length name.now ≤ 10 }
    ensures { out.new.bytes ≡ line_text name.now [] }
{
    out.clear();
    out.push_str(name);
}

/// Writes `name rd, 0xhhhhh`, with bits 31 to 12 of the immediate.
#[tactic(auto, unfolding(crate::specs::Spelling::line_text))]
pub(super) fn put_upper(out: &mut Line, name: &str, rd: Reg, imm: UpperImm)
    requires { length name.now ≤ 10 }
    ensures { out.new.bytes ≡ line_text name.now (register_operand_text rd ∷ hex_text (imm / 2 ^ 12) ∷ []) }
{
    put_name_and_register(out, name, rd);
    push_comma(out);
    push_hex(out, imm.word() >> 12);
}

/// Writes `name rd, offset`.
#[tactic(auto, unfolding(crate::specs::Spelling::line_text))]
pub(super) fn put_jump(out: &mut Line, name: &str, rd: Reg, offset: u32)
    requires name { length name.now ≤ 10 }
    requires offset { offset < 2 ^ 21 }
    ensures { out.new.bytes ≡ line_text name.now (register_operand_text rd ∷ signed_text 21 offset ∷ []) }
{
    put_name_and_register(out, name, rd);
    push_comma(out);
    push_signed(out, offset, 21);
}

/// Writes `name register, offset(base)`.
#[tactic(auto, unfolding(crate::specs::Spelling::line_text))]
pub(super) fn put_address(out: &mut Line, name: &str, register: Reg, offset: Imm12, base: Reg)
    requires { length name.now ≤ 10 }
    ensures { out.new.bytes ≡ line_text name.now (register_operand_text register ∷ address_text offset base ∷ []) }
{
    put_name_and_register(out, name, register);
    push_comma(out);
    push_address(out, offset, base);
}

/// Writes `name a, b, number`, with the signed number of a field of `width` bits in two's complement.
#[tactic(auto, unfolding(crate::specs::Spelling::line_text))]
pub(super) fn put_signed(out: &mut Line, name: &str, a: Reg, b: Reg, field: u32, width: u32)
    requires name { length name.now ≤ 10 }
    requires width { (0 < width) × (width ≤ 21) }
    requires field { field < 2 ^ width }
    ensures { out.new.bytes ≡ line_text name.now (register_operand_text a ∷ register_operand_text b ∷ signed_text width field ∷ []) }
{
    put_name_and_register(out, name, a);
    push_next_register(out, b);
    push_comma(out);
    push_signed(out, field, width);
}

/// Writes `name rd, rs1, shamt`.
#[tactic(auto, unfolding(crate::specs::Spelling::line_text))]
pub(super) fn put_shift(out: &mut Line, name: &str, rd: Reg, rs1: Reg, shamt: u32)
    requires { length name.now ≤ 10 }
    ensures { out.new.bytes ≡ line_text name.now (register_operand_text rd ∷ register_operand_text rs1 ∷ decimal shamt ∷ []) }
{
    put_name_and_register(out, name, rd);
    push_next_register(out, rs1);
    push_comma(out);
    push_decimal(out, shamt);
}

/// Writes `name a, b`.
#[tactic(auto, unfolding(crate::specs::Spelling::line_text))]
pub(super) fn put_two_registers(out: &mut Line, name: &str, a: Reg, b: Reg)
    requires { length name.now ≤ 10 }
    ensures { out.new.bytes ≡ line_text name.now (register_operand_text a ∷ register_operand_text b ∷ []) }
{
    put_name_and_register(out, name, a);
    push_next_register(out, b);
}

/// Writes `name a, b, c`.
#[tactic(auto, unfolding(crate::specs::Spelling::line_text))]
pub(super) fn put_three_registers(out: &mut Line, name: &str, a: Reg, b: Reg, c: Reg)
    requires { length name.now ≤ 10 }
    ensures { out.new.bytes ≡ line_text name.now (register_operand_text a ∷ register_operand_text b ∷ register_operand_text c ∷ []) }
{
    put_name_and_register(out, name, a);
    push_next_register(out, b);
    push_next_register(out, c);
}

/// Writes `name pred, succ`.
#[tactic(auto, unfolding(crate::specs::Spelling::line_text))]
pub(super) fn put_fence(out: &mut Line, name: &str, pred: FenceSet, succ: FenceSet)
    requires { length name.now ≤ 10 }
    ensures { out.new.bytes ≡ line_text name.now (accesses_text pred ∷ accesses_text succ ∷ []) }
{
    put_mnemonic(out, name);
    push_accesses(out, pred);
    push_comma(out);
    push_accesses(out, succ);
}

/// Writes `name rd, 0xccc, rs1`.
#[tactic(auto, unfolding(crate::specs::Spelling::line_text))]
pub(super) fn put_csr(out: &mut Line, name: &str, rd: Reg, csr: CsrNumber, rs1: Reg)
    requires { length name.now ≤ 10 }
    ensures { out.new.bytes ≡ line_text name.now (register_operand_text rd ∷ csr_operand_text csr ∷ register_operand_text rs1 ∷ []) }
{
    put_name_and_register(out, name, rd);
    push_comma(out);
    push_csr(out, csr);
    push_next_register(out, rs1);
}

/// Writes `name rd, 0xccc, uimm`.
#[tactic(auto, unfolding(crate::specs::Spelling::line_text))]
pub(super) fn put_csr_imm(out: &mut Line, name: &str, rd: Reg, csr: CsrNumber, uimm: u32)
    requires { length name.now ≤ 10 }
    ensures { out.new.bytes ≡ line_text name.now (register_operand_text rd ∷ csr_operand_text csr ∷ decimal uimm ∷ []) }
{
    put_name_and_register(out, name, rd);
    push_comma(out);
    push_csr(out, csr);
    push_comma(out);
    push_decimal(out, uimm);
}

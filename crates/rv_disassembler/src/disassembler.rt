//! Disassembles words.

mod instruction_text;
mod mnemonic;
mod operand;

ghost use Rattle.std.specs.Prelude.{◌≡◌, IfSome};
ghost use Rattle.rv_encoding.specs.Decoding.{decoded};
ghost use Rattle.rv_encoding.specs.Rows.{Encodes};
ghost use Rattle.rv_disassembler.specs.Spelling.{is_told_by_operands, instr_text, word_text, spelling};

use arrayvec::ArrayString;
use instruction_text::{
    put_address, put_csr, put_csr_imm, put_fence, put_jump, put_name, put_shift, put_signed,
    put_three_registers, put_two_registers, put_upper,
};
use mnemonic::mnemonic;
use operand::Line;
use rv_encoding::{Instr, decode};
use rv_text::hex;

/// Sets `out` to the disassembly of a word: its instruction in assembly language (Unprivileged ISA, chapters 24 and 25), or `.word` and its
/// number if it is no instruction.
///
/// A fence is also shown as a number if its mode or its register fields are not 0, since its operands do not have them.
///
/// ```text
/// disassemble(0xfff0_8093, &mut out); // addi x1, x1, -1
/// disassemble(0x8330_000f, &mut out); // .word 0x8330000f
/// ```
#[tactic(auto, unfolding(crate::specs::Spelling::spelling))]
pub fn disassemble(word: u32, out: &mut ArrayString<48>)
    ensures text { out.new.bytes ≡ spelling word }
    // The word encodes the instruction that is shown.
    ensures shown { IfSome (decoded word) (Encodes word) }
{
    match decode(word) {
        Some(instr) if is_told(&instr) => put_instr(out, &instr),
        _ => put_word(out, word),
    }
}

/// Returns whether the operands determine every field. The operands of a fence do not have its mode and register fields, which must be 0.
fn is_told(instr: &Instr) -> bool
    ensures { result ≡ is_told_by_operands instr.now }
{
    match *instr {
        Instr::Fence { fm, rd, rs1, .. } => {
            fm.bits() == 0 && rd.number() == 0 && rs1.number() == 0
        }
        _ => true,
    }
}

/// Writes the number of a word.
#[tactic(auto, unfolding(crate::specs::Spelling::word_text, crate::specs::Spelling::line_text))]
fn put_word(out: &mut Line, word: u32)
    ensures { out.new.bytes ≡ word_text word }
{
    out.clear();
    out.push_str(".word 0x");
    out.push_str(hex(word, 8).as_str());
}

/// Writes the mnemonic and the operands of an instruction.
#[tactic(auto, unfolding(crate::specs::Spelling::instr_text))]
fn put_instr(out: &mut Line, instr: &Instr)
    ensures { out.new.bytes ≡ instr_text instr.now }
{
    let name = mnemonic(instr);
    match *instr {
        Instr::Lui { rd, imm } | Instr::Auipc { rd, imm } => put_upper(out, name, rd, imm),
        Instr::Jal { rd, offset } => put_jump(out, name, rd, offset.bits()),
        Instr::Branch {
            rs1,
            rs2,
            offset,
            ..
        } => put_signed(out, name, rs1, rs2, offset.bits(), 13),
        Instr::Jalr { rd, rs1, offset } => put_address(out, name, rd, offset, rs1),
        Instr::Load {
            rd,
            rs1,
            offset,
            ..
        } => put_address(out, name, rd, offset, rs1),
        Instr::Store {
            rs1,
            rs2,
            offset,
            ..
        } => put_address(out, name, rs2, offset, rs1),
        Instr::OpImm { rd, rs1, imm, .. } => put_signed(out, name, rd, rs1, imm.bits(), 12),
        Instr::ShiftImm { rd, rs1, shamt, .. } => put_shift(out, name, rd, rs1, shamt.amount()),
        Instr::Op { rd, rs1, rs2, .. } => put_three_registers(out, name, rd, rs1, rs2),
        Instr::Fence { pred, succ, .. } => put_fence(out, name, pred, succ),
        Instr::Csr { rd, rs1, csr, .. } => put_csr(out, name, rd, csr, rs1),
        Instr::CsrImm { rd, uimm, csr, .. } => put_csr_imm(out, name, rd, csr, uimm.number()),
        Instr::SfenceVma { rs1, rs2 } => put_two_registers(out, name, rs1, rs2),
        // ecall, ebreak, sret, mret and wfi
        _ => put_name(out, name),
    }
}

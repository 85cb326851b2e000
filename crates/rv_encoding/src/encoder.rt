//! Encodes instructions.

mod codes;
mod places;

ghost use Rattle.std.specs.Prelude.{◌≡◌, ◌+◌, ◌*◌, ◌%◌, ◌^◌, ◌<◌, Some};
ghost use Rattle.rv_word.specs.Logic.{and_by_bits};
ghost use Rattle.rv_encoding.specs.Rows.{IsInstr, Encodes, row_of_instr, word_of, fields_at};
ghost use Rattle.rv_encoding.specs.Listing.{IsListed};
ghost use Rattle.rv_encoding.specs.Decoding.{decoded};
ghost use Rattle.rv_encoding.specs.declared.instr.Instr.{Instr};

use crate::instr::Instr;
use codes::{
    branch_code, csr_code, csr_imm_code, load_code, op_functs, op_imm_code, shift_functs,
    store_code,
};
use places::{
    at_b, at_csr, at_fm, at_i, at_j, at_pred, at_rd, at_rs1, at_rs2, at_s, at_shamt, at_succ, at_u,
    at_uimm,
};

/// Encodes an instruction to its word.
#[tactic(auto, using(crate::proofs::MaskLemmas::masked_word_of, crate::proofs::ListingLemmas::is_listed), unfolding(crate::specs::Rows::word_of))]
pub const fn encode(instr: &Instr) -> u32
    ensures value { result ≡ word_of instr.now }
    ensures in_range { IsInstr instr.now }
    // The word encodes no other instruction.
    ensures only { (other : Instr) → Encodes result other → other ≡ instr.now }
    ensures round_trip { decoded result ≡ Some instr.now }
    // The instruction's row is in the listing, and the word equals the row's match under the row's mask.
    ensures listed { IsListed instr.now }
    ensures masked { and_by_bits result (row_of_instr instr.now).mask ≡ (row_of_instr instr.now).match }
{
    match_of(instr) + fields_of(instr)
}

/// Returns the bits that the words of an instruction's row share: opcode, funct3 and funct7.
const fn match_of(instr: &Instr) -> u32
    ensures { result ≡ (row_of_instr instr.now).match }
{
    match *instr {
        Instr::Lui { .. } => 0b0110111,
        Instr::Auipc { .. } => 0b0010111,
        Instr::Jal { .. } => 0b1101111,
        Instr::Jalr { .. } => 0b1100111,
        Instr::Branch { kind, .. } => 0b1100011 + (branch_code(kind) << 12),
        Instr::Load { kind, .. } => 0b0000011 + (load_code(kind) << 12),
        Instr::Store { kind, .. } => 0b0100011 + (store_code(kind) << 12),
        Instr::OpImm { kind, .. } => 0b0010011 + (op_imm_code(kind) << 12),
        Instr::ShiftImm { kind, .. } => {
            let functs = shift_functs(kind);
            0b0010011 + (functs.funct3 << 12) + (functs.funct7 << 25)
        }
        Instr::Op { kind, .. } => {
            let functs = op_functs(kind);
            0b0110011 + (functs.funct3 << 12) + (functs.funct7 << 25)
        }
        Instr::Fence { .. } => 0b0001111,
        Instr::Csr { kind, .. } => 0b1110011 + (csr_code(kind) << 12),
        Instr::CsrImm { kind, .. } => 0b1110011 + (csr_imm_code(kind) << 12),
        Instr::Ecall => 0x0000_0073,
        Instr::Ebreak => 0x0010_0073,
        Instr::Sret => 0x1020_0073,
        Instr::Mret => 0x3020_0073,
        Instr::Wfi => 0x1050_0073,
        Instr::SfenceVma { .. } => 0x1200_0073,
    }
}

/// Returns the fields of an instruction, each at its positions.
const fn fields_of(instr: &Instr) -> u32
    ensures value { result ≡ fields_at (row_of_instr instr.now).fields }
    ensures in_range { IsInstr instr.now }
{
    match *instr {
        Instr::Lui { rd, imm } | Instr::Auipc { rd, imm } => at_rd(rd) + at_u(imm),
        Instr::Jal { rd, offset } => at_rd(rd) + at_j(offset),
        Instr::Branch {
            rs1,
            rs2,
            offset,
            ..
        } => at_rs1(rs1) + at_rs2(rs2) + at_b(offset),
        Instr::Jalr { rd, rs1, offset } => at_rd(rd) + at_rs1(rs1) + at_i(offset),
        Instr::Load {
            rd,
            rs1,
            offset,
            ..
        } => at_rd(rd) + at_rs1(rs1) + at_i(offset),
        Instr::Store {
            rs1,
            rs2,
            offset,
            ..
        } => at_rs1(rs1) + at_rs2(rs2) + at_s(offset),
        Instr::OpImm { rd, rs1, imm, .. } => at_rd(rd) + at_rs1(rs1) + at_i(imm),
        Instr::ShiftImm { rd, rs1, shamt, .. } => at_rd(rd) + at_rs1(rs1) + at_shamt(shamt),
        Instr::Op { rd, rs1, rs2, .. } => at_rd(rd) + at_rs1(rs1) + at_rs2(rs2),
        Instr::Fence {
            fm,
            pred,
            succ,
            rd,
            rs1,
        } => { at_fm(fm) + at_pred(pred) + at_succ(succ) + at_rd(rd) + at_rs1(rs1) }
        _ => system_fields_of(instr),
    }
}

/// Returns the fields of an instruction with the opcode 1110011, each at its positions.
const fn system_fields_of(instr: &Instr) -> u32
    requires { (row_of_instr instr.now).match % 2 ^ 7 ≡ 0b1110011 }
    ensures value { result ≡ fields_at (row_of_instr instr.now).fields }
    ensures in_range { IsInstr instr.now }
{
    match *instr {
        Instr::Csr { rd, rs1, csr, .. } => at_rd(rd) + at_rs1(rs1) + at_csr(csr),
        Instr::CsrImm { rd, uimm, csr, .. } => at_rd(rd) + at_uimm(uimm) + at_csr(csr),
        Instr::SfenceVma { rs1, rs2 } => at_rs1(rs1) + at_rs2(rs2),
        _ => 0,
    }
}

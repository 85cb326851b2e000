//! Decodes words. All functions are inlined, so that a step of a hart stores no instruction in memory. With a call instead, a step takes half as
//! long again.

mod kinds;
mod word_fields;

ghost use Rattle.std.specs.Prelude.{◌≡◌, ◌≢◌, ◌*◌, ◌^◌, IfSome, IfNone, All, map};
ghost use Rattle.rv_word.specs.BitFields.{bits as bits_of};
ghost use Rattle.rv_word.specs.Logic.{and_by_bits};
ghost use Rattle.rv_encoding.specs.Codes.{csr_kind as csr_kind_of, csr_imm_kind as csr_imm_kind_of};
ghost use Rattle.rv_encoding.specs.Rows.{Encodes};
ghost use Rattle.rv_encoding.specs.Listing.{listing, listed_of};
ghost use Rattle.rv_encoding.specs.Decoding.{samples, decoded};
ghost use Rattle.rv_encoding.specs.declared.instr.Instr.{Instr};

use crate::instr::Instr;
use kinds::{
    branch_kind, csr_imm_kind, csr_kind, load_kind, op_imm_kind, op_kind, shift_kind, store_kind,
};
use rv_word::bits;
use word_fields::{
    b_offset, csr, fm, i_immediate, j_offset, pred, rd, rs1, rs2, s_immediate, shamt, succ,
    u_immediate, uimm,
};

/// Decodes a word to the instruction that it encodes. Returns `None` if and only if the word encodes no instruction of the listing.
#[inline(always)]
#[tactic(auto, using(crate::proofs::DecodingLemmas::decoded_is, crate::proofs::DecodingLemmas::none_listed, crate::proofs::ListingLemmas::listing_of_samples))]
pub fn decode(word: u32) -> Option<Instr>
    ensures value { result ≡ decoded word }
    // The word encodes the returned instruction.
    ensures found { IfSome result (Encodes word) }
    // Any instruction that the word encodes is returned, so the word encodes at most one.
    ensures only { (instr : Instr) → Encodes word instr → result ≡ Some instr }
    // If nothing is returned, the word equals no row's match under the row's mask.
    ensures none { IfNone result (All (λ row. and_by_bits word row.mask ≢ row.match) listing) }
    // The listing has exactly the rows of the instructions.
    ensures table { listing ≡ map listed_of samples }
{
    read(word)
}

/// Decodes a word by its opcode.
#[inline(always)]
#[tactic(auto, using(crate::proofs::ReadingLemmas::only_read), unfolding(crate::specs::Rows::word_of))]
fn read(word: u32) -> Option<Instr>
    ensures found { IfSome result (Encodes word) }
    ensures only { (instr : Instr) → Encodes word instr → result ≡ Some instr }
{
    match bits(word, 6, 0) {
        0b0110111 => Some(Instr::Lui {
            rd: rd(word),
            imm: u_immediate(word),
        }),
        0b0010111 => Some(Instr::Auipc {
            rd: rd(word),
            imm: u_immediate(word),
        }),
        0b1101111 => Some(Instr::Jal {
            rd: rd(word),
            offset: j_offset(word),
        }),
        0b1100111 => jalr(word),
        0b1100011 => branch(word),
        0b0000011 => load(word),
        0b0100011 => store(word),
        0b0010011 => op_imm(word),
        0b0110011 => op(word),
        0b0001111 => fence(word),
        0b1110011 => system(word),
        _ => None,
    }
}

/// Decodes a word with the opcode 1100111.
#[inline(always)]
#[tactic(auto, using(crate::proofs::ReadingLemmas::only_jalr), unfolding(crate::specs::Rows::word_of))]
fn jalr(word: u32) -> Option<Instr>
    requires { bits_of word 6 0 ≡ 0b1100111 }
    ensures found { IfSome result (Encodes word) }
    ensures only { (instr : Instr) → Encodes word instr → result ≡ Some instr }
{
    if bits(word, 14, 12) != 0 {
        return None;
    }
    Some(Instr::Jalr {
        rd: rd(word),
        rs1: rs1(word),
        offset: i_immediate(word),
    })
}

/// Decodes a word with the opcode 1100011.
#[inline(always)]
#[tactic(auto, unfolding(crate::specs::Rows::word_of))]
fn branch(word: u32) -> Option<Instr>
    requires { bits_of word 6 0 ≡ 0b1100011 }
    ensures found { IfSome result (Encodes word) }
    ensures only { (instr : Instr) → Encodes word instr → result ≡ Some instr }
{
    let kind = branch_kind(bits(word, 14, 12))?;
    Some(Instr::Branch {
        kind,
        rs1: rs1(word),
        rs2: rs2(word),
        offset: b_offset(word),
    })
}

/// Decodes a word with the opcode 0000011.
#[inline(always)]
#[tactic(auto, unfolding(crate::specs::Rows::word_of))]
fn load(word: u32) -> Option<Instr>
    requires { bits_of word 6 0 ≡ 0b0000011 }
    ensures found { IfSome result (Encodes word) }
    ensures only { (instr : Instr) → Encodes word instr → result ≡ Some instr }
{
    let kind = load_kind(bits(word, 14, 12))?;
    Some(Instr::Load {
        kind,
        rd: rd(word),
        rs1: rs1(word),
        offset: i_immediate(word),
    })
}

/// Decodes a word with the opcode 0100011.
#[inline(always)]
#[tactic(auto, unfolding(crate::specs::Rows::word_of))]
fn store(word: u32) -> Option<Instr>
    requires { bits_of word 6 0 ≡ 0b0100011 }
    ensures found { IfSome result (Encodes word) }
    ensures only { (instr : Instr) → Encodes word instr → result ≡ Some instr }
{
    let kind = store_kind(bits(word, 14, 12))?;
    Some(Instr::Store {
        kind,
        rs1: rs1(word),
        rs2: rs2(word),
        offset: s_immediate(word),
    })
}

/// Decodes a word with the opcode 0010011: a shift, which funct7 selects, or another operation.
#[inline(always)]
#[tactic(auto, using(crate::proofs::ReadingLemmas::only_op_imm), unfolding(crate::specs::Rows::word_of))]
fn op_imm(word: u32) -> Option<Instr>
    requires { bits_of word 6 0 ≡ 0b0010011 }
    ensures found { IfSome result (Encodes word) }
    ensures only { (instr : Instr) → Encodes word instr → result ≡ Some instr }
{
    let funct3 = bits(word, 14, 12);
    if let Some(kind) = shift_kind(funct3, bits(word, 31, 25)) {
        return Some(Instr::ShiftImm {
            kind,
            rd: rd(word),
            rs1: rs1(word),
            shamt: shamt(word),
        });
    }
    let kind = op_imm_kind(funct3)?;
    Some(Instr::OpImm {
        kind,
        rd: rd(word),
        rs1: rs1(word),
        imm: i_immediate(word),
    })
}

/// Decodes a word with the opcode 0110011.
#[inline(always)]
#[tactic(auto, unfolding(crate::specs::Rows::word_of))]
fn op(word: u32) -> Option<Instr>
    requires { bits_of word 6 0 ≡ 0b0110011 }
    ensures found { IfSome result (Encodes word) }
    ensures only { (instr : Instr) → Encodes word instr → result ≡ Some instr }
{
    let kind = op_kind(bits(word, 14, 12), bits(word, 31, 25))?;
    Some(Instr::Op {
        kind,
        rd: rd(word),
        rs1: rs1(word),
        rs2: rs2(word),
    })
}

/// Decodes a word with the opcode 0001111.
#[inline(always)]
#[tactic(auto, using(crate::proofs::ReadingLemmas::only_fence), unfolding(crate::specs::Rows::word_of))]
fn fence(word: u32) -> Option<Instr>
    requires { bits_of word 6 0 ≡ 0b0001111 }
    ensures found { IfSome result (Encodes word) }
    ensures only { (instr : Instr) → Encodes word instr → result ≡ Some instr }
{
    if bits(word, 14, 12) != 0 {
        return None;
    }
    Some(Instr::Fence {
        fm: fm(word),
        pred: pred(word),
        succ: succ(word),
        rd: rd(word),
        rs1: rs1(word),
    })
}

/// Decodes a word with the opcode 1110011.
#[inline(always)]
#[tactic(auto, using(crate::proofs::ReadingLemmas::only_system), unfolding(crate::specs::Rows::word_of))]
fn system(word: u32) -> Option<Instr>
    requires { bits_of word 6 0 ≡ 0b1110011 }
    ensures found { IfSome result (Encodes word) }
    ensures only { (instr : Instr) → Encodes word instr → result ≡ Some instr }
{
    let funct3 = bits(word, 14, 12);
    if let Some(kind) = csr_kind(funct3) {
        return Some(Instr::Csr {
            kind,
            rd: rd(word),
            rs1: rs1(word),
            csr: csr(word),
        });
    }
    if let Some(kind) = csr_imm_kind(funct3) {
        return Some(Instr::CsrImm {
            kind,
            rd: rd(word),
            uimm: uimm(word),
            csr: csr(word),
        });
    }
    whole(word)
}

/// Decodes a word that is a row by itself, or sfence.vma.
#[inline(always)]
#[tactic(auto, using(crate::proofs::ReadingLemmas::only_whole), unfolding(crate::specs::Rows::word_of))]
fn whole(word: u32) -> Option<Instr>
    requires opcode { bits_of word 6 0 ≡ 0b1110011 }
    requires no_register { csr_kind_of (bits_of word 14 12) ≡ None }
    requires no_immediate { csr_imm_kind_of (bits_of word 14 12) ≡ None }
    ensures found { IfSome result (Encodes word) }
    ensures only { (instr : Instr) → Encodes word instr → result ≡ Some instr }
{
    match word {
        0x0000_0073 => Some(Instr::Ecall),
        0x0010_0073 => Some(Instr::Ebreak),
        0x1020_0073 => Some(Instr::Sret),
        0x3020_0073 => Some(Instr::Mret),
        0x1050_0073 => Some(Instr::Wfi),
        _ if bits(word, 31, 25) == 0b0001001 && bits(word, 14, 7) == 0 => {
            Some(Instr::SfenceVma {
                rs1: rs1(word),
                rs2: rs2(word),
            })
        }
        _ => None,
    }
}

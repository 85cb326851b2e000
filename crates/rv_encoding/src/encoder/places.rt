//! Places fields at their positions in a word (Unprivileged ISA, sections 2.2 and 2.3).

ghost use Rattle.std.specs.Prelude.{◌≡◌, ◌/◌, ◌^◌, ◌<◌};
ghost use Rattle.rv_encoding.specs.Places.{rd_at, rs1_at, rs2_at, i_immediate_at, s_immediate_at, b_immediate_at, j_immediate_at, u_immediate_at};
ghost use Rattle.rv_encoding.specs.Places.{shamt_at, fm_at, pred_at, succ_at, csr_at, uimm_at, placed};
ghost use Rattle.rv_encoding.specs.Ranges.{IsUpperImmediate, IsBranchOffset, IsJumpOffset};

use crate::field::{
    BranchOffset, CsrNumber, FenceMode, FenceSet, Imm12, JumpOffset, Shamt, Uimm, UpperImm,
};
use rv_word::{Reg, bits};

/// Returns the word with rd in bits 11:7.
pub(super) const fn at_rd(rd: Reg) -> u32
    ensures value { result ≡ placed rd_at rd }
    ensures in_range { rd < 32 }
{
    (rd.number() as u32) << 7
}

/// Returns the word with rs1 in bits 19:15.
pub(super) const fn at_rs1(rs1: Reg) -> u32
    ensures value { result ≡ placed rs1_at rs1 }
    ensures in_range { rs1 < 32 }
{
    (rs1.number() as u32) << 15
}

/// Returns the word with rs2 in bits 24:20.
pub(super) const fn at_rs2(rs2: Reg) -> u32
    ensures value { result ≡ placed rs2_at rs2 }
    ensures in_range { rs2 < 32 }
{
    (rs2.number() as u32) << 20
}

/// Returns the word with the immediate of format I in bits 31:20.
pub(super) const fn at_i(imm: Imm12) -> u32
    ensures value { result ≡ placed i_immediate_at imm }
    ensures in_range { imm < 2 ^ 12 }
{
    imm.bits() << 20
}

/// Returns the word with the immediate of format S in bits 31:25 and 11:7.
pub(super) const fn at_s(imm: Imm12) -> u32
    ensures value { result ≡ placed s_immediate_at imm }
    ensures in_range { imm < 2 ^ 12 }
{
    let imm = imm.bits();
    (bits(imm, 11, 5) << 25) + (bits(imm, 4, 0) << 7)
}

/// Returns the word with the offset of format B in bits 31, 7, 30:25 and 11:8.
pub(super) const fn at_b(offset: BranchOffset) -> u32
    ensures value { result ≡ placed b_immediate_at offset }
    ensures in_range { IsBranchOffset offset }
{
    let offset = offset.bits();
    (bits(offset, 12, 12) << 31)
        + (bits(offset, 11, 11) << 7)
        + (bits(offset, 10, 5) << 25)
        + (bits(offset, 4, 1) << 8)
}

/// Returns the word with the offset of format J in bits 31, 19:12, 20 and 30:21.
pub(super) const fn at_j(offset: JumpOffset) -> u32
    ensures value { result ≡ placed j_immediate_at offset }
    ensures in_range { IsJumpOffset offset }
{
    let offset = offset.bits();
    (bits(offset, 20, 20) << 31)
        + (bits(offset, 19, 12) << 12)
        + (bits(offset, 11, 11) << 20)
        + (bits(offset, 10, 1) << 21)
}

/// Returns the word with the immediate of format U in bits 31:12.
pub(super) const fn at_u(imm: UpperImm) -> u32
    ensures value { result ≡ placed u_immediate_at imm }
    ensures in_range { IsUpperImmediate imm }
{
    imm.word()
}

/// Returns the word with the amount of a shift in bits 24:20.
pub(super) const fn at_shamt(shamt: Shamt) -> u32
    ensures value { result ≡ placed shamt_at shamt }
    ensures in_range { shamt < 32 }
{
    shamt.amount() << 20
}

/// Returns the word with the mode of a fence in bits 31:28.
pub(super) const fn at_fm(fm: FenceMode) -> u32
    ensures value { result ≡ placed fm_at fm }
    ensures in_range { fm < 16 }
{
    (fm.bits() as u32) << 28
}

/// Returns the word with the predecessor set of a fence in bits 27:24.
pub(super) const fn at_pred(pred: FenceSet) -> u32
    ensures value { result ≡ placed pred_at pred }
    ensures in_range { pred < 16 }
{
    (pred.bits() as u32) << 24
}

/// Returns the word with the successor set of a fence in bits 23:20.
pub(super) const fn at_succ(succ: FenceSet) -> u32
    ensures value { result ≡ placed succ_at succ }
    ensures in_range { succ < 16 }
{
    (succ.bits() as u32) << 20
}

/// Returns the word with the number of a control and status register in bits 31:20.
pub(super) const fn at_csr(csr: CsrNumber) -> u32
    ensures value { result ≡ placed csr_at csr }
    ensures in_range { csr < 2 ^ 12 }
{
    (csr.number() as u32) << 20
}

/// Returns the word with the immediate of csrrwi, csrrsi and csrrci in bits 19:15.
pub(super) const fn at_uimm(uimm: Uimm) -> u32
    ensures value { result ≡ placed uimm_at uimm }
    ensures in_range { uimm < 32 }
{
    uimm.number() << 15
}

//! Reads the fields of a word (Unprivileged ISA, sections 2.2 and 2.3).

ghost use Rattle.std.specs.Prelude.{◌≡◌, ◌*◌, ◌^◌};
ghost use Rattle.rv_encoding.specs.Places.{rd_at, rs1_at, rs2_at, i_immediate_at, s_immediate_at, b_immediate_at, j_immediate_at, u_immediate_at};
ghost use Rattle.rv_encoding.specs.Places.{shamt_at, fm_at, pred_at, succ_at, csr_at, uimm_at, taken};

use crate::field::{
    BranchOffset, CsrNumber, FenceMode, FenceSet, Imm12, JumpOffset, Shamt, Uimm, UpperImm,
};
use rv_word::{Reg, bits};

/// Returns rd, from bits 11:7.
pub(super) const fn rd(word: u32) -> Reg
    ensures { result ≡ taken rd_at word }
{
    Reg::new(bits(word, 11, 7) as u8)
}

/// Returns rs1, from bits 19:15.
pub(super) const fn rs1(word: u32) -> Reg
    ensures { result ≡ taken rs1_at word }
{
    Reg::new(bits(word, 19, 15) as u8)
}

/// Returns rs2, from bits 24:20.
pub(super) const fn rs2(word: u32) -> Reg
    ensures { result ≡ taken rs2_at word }
{
    Reg::new(bits(word, 24, 20) as u8)
}

/// Returns the immediate of format I, from bits 31:20.
pub(super) const fn i_immediate(word: u32) -> Imm12
    ensures { result ≡ taken i_immediate_at word }
{
    Imm12::new(bits(word, 31, 20))
}

/// Returns the immediate of format S, from bits 31:25 and 11:7.
pub(super) const fn s_immediate(word: u32) -> Imm12
    ensures { result ≡ taken s_immediate_at word }
{
    Imm12::new((bits(word, 31, 25) << 5) + bits(word, 11, 7))
}

/// Returns the offset of format B, from bits 31, 7, 30:25 and 11:8, and a 0.
pub(super) const fn b_offset(word: u32) -> BranchOffset
    ensures { result ≡ taken b_immediate_at word }
{
    BranchOffset::new(
        (bits(word, 31, 31) << 12)
            + (bits(word, 7, 7) << 11)
            + (bits(word, 30, 25) << 5)
            + (bits(word, 11, 8) << 1),
    )
}

/// Returns the offset of format J, from bits 31, 19:12, 20 and 30:21, and a 0.
pub(super) const fn j_offset(word: u32) -> JumpOffset
    ensures { result ≡ taken j_immediate_at word }
{
    JumpOffset::new(
        (bits(word, 31, 31) << 20)
            + (bits(word, 19, 12) << 12)
            + (bits(word, 20, 20) << 11)
            + (bits(word, 30, 21) << 1),
    )
}

/// Returns the immediate of format U, from bits 31:12, and twelve 0s.
pub(super) const fn u_immediate(word: u32) -> UpperImm
    ensures { result ≡ taken u_immediate_at word }
{
    UpperImm::new(bits(word, 31, 12) << 12)
}

/// Returns the amount of a shift, from bits 24:20.
pub(super) const fn shamt(word: u32) -> Shamt
    ensures { result ≡ taken shamt_at word }
{
    Shamt::new(bits(word, 24, 20))
}

/// Returns the mode of a fence, from bits 31:28.
pub(super) const fn fm(word: u32) -> FenceMode
    ensures { result ≡ taken fm_at word }
{
    FenceMode::new(bits(word, 31, 28) as u8)
}

/// Returns the predecessor set of a fence, from bits 27:24.
pub(super) const fn pred(word: u32) -> FenceSet
    ensures { result ≡ taken pred_at word }
{
    FenceSet::new(bits(word, 27, 24) as u8)
}

/// Returns the successor set of a fence, from bits 23:20.
pub(super) const fn succ(word: u32) -> FenceSet
    ensures { result ≡ taken succ_at word }
{
    FenceSet::new(bits(word, 23, 20) as u8)
}

/// Returns the number of a control and status register, from bits 31:20.
pub(super) const fn csr(word: u32) -> CsrNumber
    ensures { result ≡ taken csr_at word }
{
    CsrNumber::new(bits(word, 31, 20) as u16)
}

/// Returns the immediate of csrrwi, csrrsi and csrrci, from bits 19:15.
pub(super) const fn uimm(word: u32) -> Uimm
    ensures { result ≡ taken uimm_at word }
{
    Uimm::new(bits(word, 19, 15))
}

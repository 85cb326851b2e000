//! Tests with words that another assembler made (llvm-mc of LLVM 14, riscv32 with the M extension). There are one or more words of each format,
//! with extreme immediates. One fence was encoded by hand. Other words are no instruction.

use rv_encoding::{
    BranchKind, BranchOffset, CsrKind, CsrNumber, FenceMode, FenceSet, Imm12, Instr, JumpOffset,
    LoadKind, OpImmKind, OpKind, Shamt, ShiftKind, StoreKind, Uimm, UpperImm, decode, encode,
};
use rv_word::Reg;
use std::process::Abort;

/// Expects that the word encodes the instruction, in both directions.
fn agrees(rt: &impl Abort, word: u32, instr: Instr) {
    assert_eq!(rt; encode(&instr), word);
    assert_eq!(rt; decode(word), Some(instr));
}

/// lui x5, 0x12345; auipc x31, 0xfffff; jal x1, -1048576; jal x0, 2046; jalr x1, 5(x1).
#[test]
fn upper_immediates_and_jumps(rt: HostRuntime) {
    let (x0, x1, x5, x31) = (Reg::new(0), Reg::new(1), Reg::new(5), Reg::new(31));
    let imm = UpperImm::new(0x1234_5000);
    agrees(&rt, 0x1234_52b7, Instr::Lui { rd: x5, imm });
    let imm = UpperImm::new(0xffff_f000);
    agrees(&rt, 0xffff_ff97, Instr::Auipc { rd: x31, imm });
    let offset = JumpOffset::new(0x10_0000);
    assert_eq!(rt; offset.word(), 0xfff0_0000);
    agrees(&rt, 0x8000_00ef, Instr::Jal { rd: x1, offset });
    let offset = JumpOffset::new(2046);
    agrees(&rt, 0x7fe0_006f, Instr::Jal { rd: x0, offset });
    let offset = Imm12::new(5);
    agrees(
        &rt,
        0x0050_80e7,
        Instr::Jalr {
            rd: x1,
            rs1: x1,
            offset,
        },
    );
}

/// beq x1, x2, 4094; bne x1, x0, -4; bgeu x31, x17, -4096.
#[test]
fn branches(rt: HostRuntime) {
    for (word, kind, rs1, rs2, bits, target) in [
        (0x7e20_8fe3, BranchKind::Beq, 1, 2, 4094, 4094),
        (0xfe00_9ee3, BranchKind::Bne, 1, 0, 0x1ffc, 0xffff_fffc),
        (0x811f_f063, BranchKind::Bgeu, 31, 17, 0x1000, 0xffff_f000),
    ] {
        let (rs1, rs2) = (Reg::new(rs1), Reg::new(rs2));
        let offset = BranchOffset::new(bits);
        assert_eq!(rt; offset.word(), target);
        agrees(
            &rt,
            word,
            Instr::Branch {
                kind,
                rs1,
                rs2,
                offset,
            },
        );
    }
}

/// lb x1, -1(x2); lhu x10, 2047(x11).
#[test]
fn loads(rt: HostRuntime) {
    for (word, kind, rd, rs1, bits, extended) in [
        (0xfff1_0083, LoadKind::Lb, 1, 2, 0xfff, 0xffff_ffff),
        (0x7ff5_d503, LoadKind::Lhu, 10, 11, 2047, 2047),
    ] {
        let (rd, rs1) = (Reg::new(rd), Reg::new(rs1));
        let offset = Imm12::new(bits);
        assert_eq!(rt; offset.word(), extended);
        agrees(
            &rt,
            word,
            Instr::Load {
                kind,
                rd,
                rs1,
                offset,
            },
        );
    }
}

/// sb x3, -2048(x4); sh x9, 1365(x8); sw x1, 0(x2).
#[test]
fn stores(rt: HostRuntime) {
    for (word, kind, rs2, bits, rs1) in [
        (0x8032_0023, StoreKind::Sb, 3, 0x800, 4),
        (0x5494_1aa3, StoreKind::Sh, 9, 1365, 8),
        (0x0011_2023, StoreKind::Sw, 1, 0, 2),
    ] {
        let (rs1, rs2) = (Reg::new(rs1), Reg::new(rs2));
        let offset = Imm12::new(bits);
        agrees(
            &rt,
            word,
            Instr::Store {
                kind,
                rs1,
                rs2,
                offset,
            },
        );
    }
}

/// addi x1, x1, -1; sltiu x6, x7, 291; slli x2, x1, 31; srai x2, x1, 1.
#[test]
fn immediates(rt: HostRuntime) {
    for (word, kind, rd, rs1, bits) in [
        (0xfff0_8093, OpImmKind::Addi, 1, 1, 0xfff),
        (0x1233_b313, OpImmKind::Sltiu, 6, 7, 291),
    ] {
        let (rd, rs1) = (Reg::new(rd), Reg::new(rs1));
        let imm = Imm12::new(bits);
        agrees(&rt, word, Instr::OpImm { kind, rd, rs1, imm });
    }
    let (rd, rs1) = (Reg::new(2), Reg::new(1));
    for (word, kind, amount) in [
        (0x01f0_9113, ShiftKind::Slli, 31),
        (0x4010_d113, ShiftKind::Srai, 1),
    ] {
        let shamt = Shamt::new(amount);
        agrees(
            &rt,
            word,
            Instr::ShiftImm {
                kind,
                rd,
                rs1,
                shamt,
            },
        );
    }
}

/// sub x3, x4, x5; sra x20, x21, x22; mulhsu x3, x1, x2; remu x3, x1, x2.
#[test]
fn registers(rt: HostRuntime) {
    for (word, kind, rd, rs1, rs2) in [
        (0x4052_01b3, OpKind::Sub, 3, 4, 5),
        (0x416a_da33, OpKind::Sra, 20, 21, 22),
        (0x0220_a1b3, OpKind::Mulhsu, 3, 1, 2),
        (0x0220_f1b3, OpKind::Remu, 3, 1, 2),
    ] {
        let (rd, rs1, rs2) = (Reg::new(rd), Reg::new(rs1), Reg::new(rs2));
        agrees(&rt, word, Instr::Op { kind, rd, rs1, rs2 });
    }
}

/// csrrw x0, mhartid, x0; csrrci x7, mepc, 21; sfence.vma x3, x4; mret.
#[test]
fn system(rt: HostRuntime) {
    let (x0, x3, x4, x7) = (Reg::new(0), Reg::new(3), Reg::new(4), Reg::new(7));
    let (kind, csr) = (CsrKind::Write, CsrNumber::new(0xf14));
    agrees(
        &rt,
        0xf140_1073,
        Instr::Csr {
            kind,
            rd: x0,
            rs1: x0,
            csr,
        },
    );
    let (kind, csr, uimm) = (CsrKind::Clear, CsrNumber::new(0x341), Uimm::new(21));
    agrees(
        &rt,
        0x341a_f3f3,
        Instr::CsrImm {
            kind,
            rd: x7,
            uimm,
            csr,
        },
    );
    agrees(&rt, 0x1241_8073, Instr::SfenceVma { rs1: x3, rs2: x4 });
    agrees(&rt, 0x3020_0073, Instr::Mret);
}

/// fence r, w; and a fence with mode 8 and registers, encoded by hand from the manual: every field is kept.
#[test]
fn fences(rt: HostRuntime) {
    for (word, mode, before, after, rd, rs1) in [
        (0x0210_000f, 0, 2, 1, 0, 0),
        (0x8331_008f, 8, 3, 3, 1, 2),
    ] {
        let fm = FenceMode::new(mode);
        let (pred, succ) = (FenceSet::new(before), FenceSet::new(after));
        let (rd, rs1) = (Reg::new(rd), Reg::new(rs1));
        agrees(
            &rt,
            word,
            Instr::Fence {
                fm,
                pred,
                succ,
                rd,
                rs1,
            },
        );
    }
}

/// Zeros, ones, slli with bit 25 set, fence.i, mret with fields, an unknown load, and sfence.vma with rd.
#[test]
fn no_other_words(rt: HostRuntime) {
    for word in [
        0,
        0xffff_ffff,
        0x0200_9093,
        0x0000_100f,
        0x3020_80f3,
        0x0000_3003,
        0x1200_00f3,
    ] {
        assert_eq!(rt; decode(word), None, "at {word}");
    }
}

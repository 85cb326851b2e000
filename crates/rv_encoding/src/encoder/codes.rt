//! Returns the codes of the kinds (Unprivileged ISA, chapter 24).

ghost use Rattle.std.specs.Prelude.{◌≡◌, ◌+◌, ◌*◌, ◌^◌, ◌<◌};
ghost use Rattle.rv_encoding.specs.Codes.{branch_funct3, load_funct3, store_funct3, op_imm_funct3, csr_funct3, csr_imm_funct3};
ghost use Rattle.rv_encoding.specs.Codes as spec;

use crate::kind::{BranchKind, CsrKind, LoadKind, OpImmKind, OpKind, ShiftKind, StoreKind};

/// Returns the funct3 of a branch.
pub(super) const fn branch_code(kind: BranchKind) -> u32
    ensures value { result ≡ branch_funct3 kind }
    ensures in_range { result < 8 }
{
    match kind {
        BranchKind::Beq => 0b000,
        BranchKind::Bne => 0b001,
        BranchKind::Blt => 0b100,
        BranchKind::Bge => 0b101,
        BranchKind::Bltu => 0b110,
        BranchKind::Bgeu => 0b111,
    }
}

/// Returns the funct3 of a load.
pub(super) const fn load_code(kind: LoadKind) -> u32
    ensures value { result ≡ load_funct3 kind }
    ensures in_range { result < 8 }
{
    match kind {
        LoadKind::Lb => 0b000,
        LoadKind::Lh => 0b001,
        LoadKind::Lw => 0b010,
        LoadKind::Lbu => 0b100,
        LoadKind::Lhu => 0b101,
    }
}

/// Returns the funct3 of a store.
pub(super) const fn store_code(kind: StoreKind) -> u32
    ensures value { result ≡ store_funct3 kind }
    ensures in_range { result < 8 }
{
    match kind {
        StoreKind::Sb => 0b000,
        StoreKind::Sh => 0b001,
        StoreKind::Sw => 0b010,
    }
}

/// Returns the funct3 of an operation on an immediate.
pub(super) const fn op_imm_code(kind: OpImmKind) -> u32
    ensures value { result ≡ op_imm_funct3 kind }
    ensures in_range { result < 8 }
{
    match kind {
        OpImmKind::Addi => 0b000,
        OpImmKind::Slti => 0b010,
        OpImmKind::Sltiu => 0b011,
        OpImmKind::Xori => 0b100,
        OpImmKind::Ori => 0b110,
        OpImmKind::Andi => 0b111,
    }
}

/// Returns the funct3 of a CSR instruction with a register.
pub(super) const fn csr_code(kind: CsrKind) -> u32
    ensures value { result ≡ csr_funct3 kind }
    ensures in_range { result < 8 }
{
    match kind {
        CsrKind::Write => 0b001,
        CsrKind::Set => 0b010,
        CsrKind::Clear => 0b011,
    }
}

/// Returns the funct3 of a CSR instruction with an immediate.
pub(super) const fn csr_imm_code(kind: CsrKind) -> u32
    ensures value { result ≡ csr_imm_funct3 kind }
    ensures in_range { result < 8 }
{
    match kind {
        CsrKind::Write => 0b101,
        CsrKind::Set => 0b110,
        CsrKind::Clear => 0b111,
    }
}

/// The two codes of an instruction of format R: funct7 in bits 31:25, funct3 in bits 14:12.
#[derive(Clone, Copy)]
pub(super) struct Functs {
    pub funct7: u32,
    pub funct3: u32,
}

/// Returns both codes as one value.
const fn funct(funct7: u32, funct3: u32) -> Functs
    ensures { result ≡ record { funct7 = funct7; funct3 = funct3 } }
{
    Functs { funct7, funct3 }
}

/// Returns the funct7 and the funct3 of a shift by an immediate.
pub(super) const fn shift_functs(kind: ShiftKind) -> Functs
    ensures funct7 { result.funct7 ≡ (spec.shift_functs kind).funct7 }
    ensures funct3 { result.funct3 ≡ (spec.shift_functs kind).funct3 }
    ensures funct3_in_range { result.funct3 < 8 }
    ensures funct7_in_range { result.funct7 < 128 }
{
    match kind {
        ShiftKind::Slli => funct(0b0000000, 0b001),
        ShiftKind::Srli => funct(0b0000000, 0b101),
        ShiftKind::Srai => funct(0b0100000, 0b101),
    }
}

/// Returns the funct7 and the funct3 of an operation on registers.
pub(super) const fn op_functs(kind: OpKind) -> Functs
    ensures funct7 { result.funct7 ≡ (spec.op_functs kind).funct7 }
    ensures funct3 { result.funct3 ≡ (spec.op_functs kind).funct3 }
    ensures funct3_in_range { result.funct3 < 8 }
    ensures funct7_in_range { result.funct7 < 128 }
{
    match kind {
        OpKind::Add => funct(0b0000000, 0b000),
        OpKind::Sub => funct(0b0100000, 0b000),
        OpKind::Sll => funct(0b0000000, 0b001),
        OpKind::Slt => funct(0b0000000, 0b010),
        OpKind::Sltu => funct(0b0000000, 0b011),
        OpKind::Xor => funct(0b0000000, 0b100),
        OpKind::Srl => funct(0b0000000, 0b101),
        OpKind::Sra => funct(0b0100000, 0b101),
        OpKind::Or => funct(0b0000000, 0b110),
        OpKind::And => funct(0b0000000, 0b111),
        OpKind::Mul => funct(0b0000001, 0b000),
        OpKind::Mulh => funct(0b0000001, 0b001),
        OpKind::Mulhsu => funct(0b0000001, 0b010),
        OpKind::Mulhu => funct(0b0000001, 0b011),
        OpKind::Div => funct(0b0000001, 0b100),
        OpKind::Divu => funct(0b0000001, 0b101),
        OpKind::Rem => funct(0b0000001, 0b110),
        OpKind::Remu => funct(0b0000001, 0b111),
    }
}

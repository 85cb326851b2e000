//! Finds the kind of each code (Unprivileged ISA, chapter 24).

ghost use Rattle.std.specs.Prelude.{◌≡◌, IfSome};
ghost use Rattle.rv_encoding.specs.Codes.{branch_funct3, load_funct3, store_funct3, op_imm_funct3, shift_functs, op_functs, csr_funct3};
ghost use Rattle.rv_encoding.specs.Codes.{csr_imm_funct3, branch_kind as branch_kind_of, load_kind as load_kind_of, store_kind as store_kind_of};
ghost use Rattle.rv_encoding.specs.Codes.{op_imm_kind as op_imm_kind_of, csr_kind as csr_kind_of, csr_imm_kind as csr_imm_kind_of};
ghost use Rattle.rv_encoding.specs.Codes.{shift_kind as shift_kind_of, op_kind as op_kind_of};

use crate::kind::{BranchKind, CsrKind, LoadKind, OpImmKind, OpKind, ShiftKind, StoreKind};

/// Returns the branch with this funct3, if there is one.
#[inline(always)]
pub(super) const fn branch_kind(funct3: u32) -> Option<BranchKind>
    ensures exact { result ≡ branch_kind_of funct3 }
    ensures found { IfSome result (λ kind. branch_funct3 kind ≡ funct3) }
{
    match funct3 {
        0b000 => Some(BranchKind::Beq),
        0b001 => Some(BranchKind::Bne),
        0b100 => Some(BranchKind::Blt),
        0b101 => Some(BranchKind::Bge),
        0b110 => Some(BranchKind::Bltu),
        0b111 => Some(BranchKind::Bgeu),
        _ => None,
    }
}

/// Returns the load with this funct3, if there is one.
#[inline(always)]
pub(super) const fn load_kind(funct3: u32) -> Option<LoadKind>
    ensures exact { result ≡ load_kind_of funct3 }
    ensures found { IfSome result (λ kind. load_funct3 kind ≡ funct3) }
{
    match funct3 {
        0b000 => Some(LoadKind::Lb),
        0b001 => Some(LoadKind::Lh),
        0b010 => Some(LoadKind::Lw),
        0b100 => Some(LoadKind::Lbu),
        0b101 => Some(LoadKind::Lhu),
        _ => None,
    }
}

/// Returns the store with this funct3, if there is one.
#[inline(always)]
pub(super) const fn store_kind(funct3: u32) -> Option<StoreKind>
    ensures exact { result ≡ store_kind_of funct3 }
    ensures found { IfSome result (λ kind. store_funct3 kind ≡ funct3) }
{
    match funct3 {
        0b000 => Some(StoreKind::Sb),
        0b001 => Some(StoreKind::Sh),
        0b010 => Some(StoreKind::Sw),
        _ => None,
    }
}

/// Returns the operation on an immediate with this funct3, if there is one.
#[inline(always)]
pub(super) const fn op_imm_kind(funct3: u32) -> Option<OpImmKind>
    ensures exact { result ≡ op_imm_kind_of funct3 }
    ensures found { IfSome result (λ kind. op_imm_funct3 kind ≡ funct3) }
{
    match funct3 {
        0b000 => Some(OpImmKind::Addi),
        0b010 => Some(OpImmKind::Slti),
        0b011 => Some(OpImmKind::Sltiu),
        0b100 => Some(OpImmKind::Xori),
        0b110 => Some(OpImmKind::Ori),
        0b111 => Some(OpImmKind::Andi),
        _ => None,
    }
}

/// Returns the CSR instruction with a register and this funct3, if there is one.
#[inline(always)]
pub(super) const fn csr_kind(funct3: u32) -> Option<CsrKind>
    ensures exact { result ≡ csr_kind_of funct3 }
    ensures found { IfSome result (λ kind. csr_funct3 kind ≡ funct3) }
{
    match funct3 {
        0b001 => Some(CsrKind::Write),
        0b010 => Some(CsrKind::Set),
        0b011 => Some(CsrKind::Clear),
        _ => None,
    }
}

/// Returns the CSR instruction with an immediate and this funct3, if there is one.
#[inline(always)]
pub(super) const fn csr_imm_kind(funct3: u32) -> Option<CsrKind>
    ensures exact { result ≡ csr_imm_kind_of funct3 }
    ensures found { IfSome result (λ kind. csr_imm_funct3 kind ≡ funct3) }
{
    match funct3 {
        0b101 => Some(CsrKind::Write),
        0b110 => Some(CsrKind::Set),
        0b111 => Some(CsrKind::Clear),
        _ => None,
    }
}

/// Returns the shift by an immediate with this funct3 and funct7, if there is one.
#[inline(always)]
pub(super) const fn shift_kind(funct3: u32, funct7: u32) -> Option<ShiftKind>
    ensures exact { result ≡ shift_kind_of funct3 funct7 }
    ensures found_funct3 { IfSome result (λ kind. (shift_functs kind).funct3 ≡ funct3) }
    ensures found_funct7 { IfSome result (λ kind. (shift_functs kind).funct7 ≡ funct7) }
{
    match (funct3, funct7) {
        (0b001, 0b0000000) => Some(ShiftKind::Slli),
        (0b101, 0b0000000) => Some(ShiftKind::Srli),
        (0b101, 0b0100000) => Some(ShiftKind::Srai),
        _ => None,
    }
}

/// Returns the operation on registers with this funct3 and funct7, if there is one.
#[inline(always)]
pub(super) const fn op_kind(funct3: u32, funct7: u32) -> Option<OpKind>
    ensures exact { result ≡ op_kind_of funct3 funct7 }
    ensures found_funct3 { IfSome result (λ kind. (op_functs kind).funct3 ≡ funct3) }
    ensures found_funct7 { IfSome result (λ kind. (op_functs kind).funct7 ≡ funct7) }
{
    match (funct3, funct7) {
        (0b000, 0b0000000) => Some(OpKind::Add),
        (0b000, 0b0100000) => Some(OpKind::Sub),
        (0b001, 0b0000000) => Some(OpKind::Sll),
        (0b010, 0b0000000) => Some(OpKind::Slt),
        (0b011, 0b0000000) => Some(OpKind::Sltu),
        (0b100, 0b0000000) => Some(OpKind::Xor),
        (0b101, 0b0000000) => Some(OpKind::Srl),
        (0b101, 0b0100000) => Some(OpKind::Sra),
        (0b110, 0b0000000) => Some(OpKind::Or),
        (0b111, 0b0000000) => Some(OpKind::And),
        (0b000, 0b0000001) => Some(OpKind::Mul),
        (0b001, 0b0000001) => Some(OpKind::Mulh),
        (0b010, 0b0000001) => Some(OpKind::Mulhsu),
        (0b011, 0b0000001) => Some(OpKind::Mulhu),
        (0b100, 0b0000001) => Some(OpKind::Div),
        (0b101, 0b0000001) => Some(OpKind::Divu),
        (0b110, 0b0000001) => Some(OpKind::Rem),
        (0b111, 0b0000001) => Some(OpKind::Remu),
        _ => None,
    }
}

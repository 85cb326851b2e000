//! Computes the results of instructions (Unprivileged ISA, sections 2.4 to 2.6, 7.1 and 7.2).

ghost use Rattle.std.specs.Prelude.{◌≡◌, ◌<◌};
ghost use Rattle.rv_hart.specs.Arithmetic.{op_value, op_imm_value, shift_value, is_taken as is_taken_of, load_width as load_width_of};
ghost use Rattle.rv_hart.specs.Arithmetic.{load_value as load_value_of, store_width as store_width_of, is_less};
ghost use Rattle.rv_word.specs.Logic.{digit};

use rv_encoding::{BranchKind, LoadKind, OpImmKind, OpKind, ShiftKind, StoreKind};
use rv_word::{
    Width, and, div, divu, mulh, mulhsu, mulhu, or, rem, remu, sext, signed, sll, sra, srl, xor,
};

/// Returns whether the left word is less than the right, both as signed numbers.
#[inline(always)]
const fn less(left: u32, right: u32) -> bool
    ensures { result ≡ is_less left right }
{
    signed(left) < signed(right)
}

/// Computes an operation on two registers.
#[inline(always)]
pub fn op(kind: OpKind, left: u32, right: u32) -> u32
    ensures { result ≡ op_value kind left right }
{
    match kind {
        OpKind::Add => left.wrapping_add(right),
        OpKind::Sub => left.wrapping_sub(right),
        OpKind::Sll => sll(left, right % 32),
        OpKind::Slt => u32::from(less(left, right)),
        OpKind::Sltu => u32::from(left < right),
        OpKind::Xor => xor(left, right),
        OpKind::Srl => srl(left, right % 32),
        OpKind::Sra => sra(left, right % 32),
        OpKind::Or => or(left, right),
        OpKind::And => and(left, right),
        OpKind::Mul => left.wrapping_mul(right),
        OpKind::Mulh => mulh(left, right),
        OpKind::Mulhsu => mulhsu(left, right),
        OpKind::Mulhu => mulhu(left, right),
        OpKind::Div => div(left, right),
        OpKind::Divu => divu(left, right),
        OpKind::Rem => rem(left, right),
        OpKind::Remu => remu(left, right),
    }
}

/// Computes an operation on a register and an immediate that is sign-extended to 32 bits.
#[inline(always)]
pub fn op_imm(kind: OpImmKind, left: u32, imm: u32) -> u32
    ensures { result ≡ op_imm_value kind left imm }
{
    match kind {
        OpImmKind::Addi => left.wrapping_add(imm),
        OpImmKind::Slti => u32::from(less(left, imm)),
        OpImmKind::Sltiu => u32::from(left < imm),
        OpImmKind::Xori => xor(left, imm),
        OpImmKind::Ori => or(left, imm),
        OpImmKind::Andi => and(left, imm),
    }
}

/// Computes a shift of a register by 0 to 31 bits.
#[inline(always)]
pub fn shift(kind: ShiftKind, left: u32, amount: u32) -> u32
    requires { amount < 32 }
    ensures { result ≡ shift_value kind left amount }
{
    match kind {
        ShiftKind::Slli => sll(left, amount),
        ShiftKind::Srli => srl(left, amount),
        ShiftKind::Srai => sra(left, amount),
    }
}

/// Returns whether a branch on two registers is taken.
#[inline(always)]
pub fn is_taken(kind: BranchKind, left: u32, right: u32) -> bool
    ensures { result ≡ is_taken_of kind left right }
{
    match kind {
        BranchKind::Beq => left == right,
        BranchKind::Bne => left != right,
        BranchKind::Blt => less(left, right),
        BranchKind::Bge => !less(left, right),
        BranchKind::Bltu => left < right,
        BranchKind::Bgeu => left >= right,
    }
}

/// Returns the width of a load.
#[inline(always)]
pub fn load_width(kind: LoadKind) -> Width
    ensures { result ≡ load_width_of kind }
{
    match kind {
        LoadKind::Lb | LoadKind::Lbu => Width::Byte,
        LoadKind::Lh | LoadKind::Lhu => Width::Half,
        LoadKind::Lw => Width::Word,
    }
}

/// Computes the result of a load from the number that it reads: extends the sign if the load is signed.
#[inline(always)]
pub fn load_value(kind: LoadKind, number: u32) -> u32
    ensures { result ≡ load_value_of kind number }
{
    match kind {
        LoadKind::Lb => sext(number, 8),
        LoadKind::Lh => sext(number, 16),
        LoadKind::Lw | LoadKind::Lbu | LoadKind::Lhu => number,
    }
}

/// Returns the width of a store.
#[inline(always)]
pub fn store_width(kind: StoreKind) -> Width
    ensures { result ≡ store_width_of kind }
{
    match kind {
        StoreKind::Sb => Width::Byte,
        StoreKind::Sh => Width::Half,
        StoreKind::Sw => Width::Word,
    }
}

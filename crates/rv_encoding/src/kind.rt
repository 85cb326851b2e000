//! The kinds of each group of instructions that have the same fields.

/// The condition under which a branch is taken (Unprivileged ISA, section 2.5).
#[derive(Clone, Copy, Debug, PartialEq, Eq)]
pub enum BranchKind {
    /// rs1 and rs2 are equal.
    Beq,
    /// rs1 and rs2 are not equal.
    Bne,
    /// rs1 is less than rs2, both signed.
    Blt,
    /// rs1 is not less than rs2, both signed.
    Bge,
    /// rs1 is less than rs2, both unsigned.
    Bltu,
    /// rs1 is not less than rs2, both unsigned.
    Bgeu,
}

/// The number of bytes that a load reads, and their extension (Unprivileged ISA, section 2.6).
#[derive(Clone, Copy, Debug, PartialEq, Eq)]
pub enum LoadKind {
    /// One byte, sign-extended.
    Lb,
    /// Two bytes, sign-extended.
    Lh,
    /// Four bytes.
    Lw,
    /// One byte, zero-extended.
    Lbu,
    /// Two bytes, zero-extended.
    Lhu,
}

/// The number of bytes that a store writes (Unprivileged ISA, section 2.6).
#[derive(Clone, Copy, Debug, PartialEq, Eq)]
pub enum StoreKind {
    /// One byte.
    Sb,
    /// Two bytes.
    Sh,
    /// Four bytes.
    Sw,
}

/// An operation on a register and an immediate (Unprivileged ISA, section 2.4).
#[derive(Clone, Copy, Debug, PartialEq, Eq)]
pub enum OpImmKind {
    /// The sum.
    Addi,
    /// 1 if the register is less than the immediate, both signed, otherwise 0.
    Slti,
    /// 1 if the register is less than the immediate, both unsigned, otherwise 0.
    Sltiu,
    /// Exclusive or.
    Xori,
    /// Or.
    Ori,
    /// And.
    Andi,
}

/// A shift of a register by an immediate (Unprivileged ISA, section 2.4).
#[derive(Clone, Copy, Debug, PartialEq, Eq)]
pub enum ShiftKind {
    /// Left.
    Slli,
    /// Right, with zeros shifted in.
    Srli,
    /// Right, with the sign bit shifted in.
    Srai,
}

/// An operation on two registers (Unprivileged ISA, sections 2.4, 7.1 and 7.2).
#[derive(Clone, Copy, Debug, PartialEq, Eq)]
pub enum OpKind {
    /// The sum.
    Add,
    /// The difference.
    Sub,
    /// A shift left.
    Sll,
    /// 1 if rs1 is less than rs2, both signed, otherwise 0.
    Slt,
    /// 1 if rs1 is less than rs2, both unsigned, otherwise 0.
    Sltu,
    /// Exclusive or.
    Xor,
    /// A shift right, with zeros shifted in.
    Srl,
    /// A shift right, with the sign bit shifted in.
    Sra,
    /// Or.
    Or,
    /// And.
    And,
    /// The low word of the product.
    Mul,
    /// The high word of the product, both signed.
    Mulh,
    /// The high word of the product, rs1 signed and rs2 unsigned.
    Mulhsu,
    /// The high word of the product, both unsigned.
    Mulhu,
    /// The quotient, both signed.
    Div,
    /// The quotient, both unsigned.
    Divu,
    /// The remainder, both signed.
    Rem,
    /// The remainder, both unsigned.
    Remu,
}

/// The change of a control and status register (Unprivileged ISA, section 9.1).
#[derive(Clone, Copy, Debug, PartialEq, Eq)]
pub enum CsrKind {
    /// The register is written.
    Write,
    /// The bits of the operand are set in the register.
    Set,
    /// The bits of the operand are cleared in the register.
    Clear,
}

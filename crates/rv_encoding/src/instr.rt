//! The type of instructions.

use crate::field::{
    BranchOffset, CsrNumber, FenceMode, FenceSet, Imm12, JumpOffset, Shamt, Uimm, UpperImm,
};
use crate::kind::{BranchKind, CsrKind, LoadKind, OpImmKind, OpKind, ShiftKind, StoreKind};
use rv_word::Reg;

/// An instruction of RV32IM with Zicsr, or a privileged instruction: a row of the manuals' listings with its fields. The type of each field
/// ensures its range. Rows with the same fields are one variant, which has a kind.
#[derive(Clone, Copy, Debug, PartialEq, Eq)]
pub enum Instr {
    /// Loads an upper immediate (Unprivileged ISA, section 2.4).
    Lui {
        rd: Reg,
        imm: UpperImm,
    },
    /// Adds an upper immediate to the pc (section 2.4).
    Auipc {
        rd: Reg,
        imm: UpperImm,
    },
    /// A jump and link (section 2.5).
    Jal {
        rd: Reg,
        offset: JumpOffset,
    },
    /// A jump and link through a register (section 2.5).
    Jalr {
        rd: Reg,
        rs1: Reg,
        offset: Imm12,
    },
    /// A branch (section 2.5).
    Branch {
        kind: BranchKind,
        rs1: Reg,
        rs2: Reg,
        offset: BranchOffset,
    },
    /// A load (section 2.6).
    Load {
        kind: LoadKind,
        rd: Reg,
        rs1: Reg,
        offset: Imm12,
    },
    /// A store of rs2 (section 2.6).
    Store {
        kind: StoreKind,
        rs1: Reg,
        rs2: Reg,
        offset: Imm12,
    },
    /// An operation on a register and an immediate (section 2.4).
    OpImm {
        kind: OpImmKind,
        rd: Reg,
        rs1: Reg,
        imm: Imm12,
    },
    /// A shift by an immediate (section 2.4).
    ShiftImm {
        kind: ShiftKind,
        rd: Reg,
        rs1: Reg,
        shamt: Shamt,
    },
    /// An operation on two registers (sections 2.4, 7.1 and 7.2).
    Op {
        kind: OpKind,
        rd: Reg,
        rs1: Reg,
        rs2: Reg,
    },
    /// A fence (section 2.7).
    Fence {
        fm: FenceMode,
        pred: FenceSet,
        succ: FenceSet,
        rd: Reg,
        rs1: Reg,
    },
    /// A CSR instruction with a register (section 9.1).
    Csr {
        kind: CsrKind,
        rd: Reg,
        rs1: Reg,
        csr: CsrNumber,
    },
    /// A CSR instruction with an immediate (section 9.1).
    CsrImm {
        kind: CsrKind,
        rd: Reg,
        uimm: Uimm,
        csr: CsrNumber,
    },
    /// A call to the execution environment (section 2.8).
    Ecall,
    /// A call to the debugger (section 2.8).
    Ebreak,
    /// A return from a trap in supervisor mode (Privileged Architecture, section 3.3.2).
    Sret,
    /// A return from a trap in machine mode (Privileged Architecture, section 3.3.2).
    Mret,
    /// A wait for an interrupt (Privileged Architecture, section 3.3.3).
    Wfi,
    /// A fence for page tables: orders reads of page tables after writes (Privileged Architecture, section 4.2.1).
    SfenceVma {
        rs1: Reg,
        rs2: Reg,
    },
}

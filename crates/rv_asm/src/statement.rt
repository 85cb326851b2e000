//! The statements of an assembler text.

use crate::name::Name;
use rv_encoding::{BranchKind, Instr};
use rv_word::Reg;

/// A statement of an assembler text. Its operands are read and in their ranges.
#[derive(Drop)]
pub(crate) enum Statement {
    /// An instruction with all its fields.
    Instruction(Instr),
    /// A jal to a label.
    JumpTo {
        rd: Reg,
        label: Name,
    },
    /// A branch to a label.
    BranchTo {
        kind: BranchKind,
        rs1: Reg,
        rs2: Reg,
        label: Name,
    },
    /// The one or two instructions that load a number.
    Li {
        rd: Reg,
        value: u32,
    },
    /// A word given as a number.
    Word(u32),
}

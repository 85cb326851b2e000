//! The instructions of RV32IM with Zicsr and the privileged instructions: their type, their encoding and their decoding. (RISC-V Unprivileged
//! ISA 20191213, chapter 24, and the instruction set listings of Privileged Architecture 20211203.)
//!
//! ```text
//! let instr = decode(0xfff0_8093)?; // addi x1, x1, -1
//! let word = encode(&instr); // 0xfff0_8093
//! ```
#![tactic(auto)]

mod decoder;
mod encoder;
mod field;
mod instr;
mod kind;

pub use decoder::decode;
pub use encoder::encode;
pub use field::{
    BranchOffset, CsrNumber, FenceMode, FenceSet, Imm12, JumpOffset, Shamt, Uimm, UpperImm,
};
pub use instr::Instr;
pub use kind::{BranchKind, CsrKind, LoadKind, OpImmKind, OpKind, ShiftKind, StoreKind};

//! The fields of instructions other than register numbers. The type of each field ensures its range (Unprivileged ISA, sections 2.2, 2.3, 2.4,
//! 2.7 and 9.1).

mod branch_offset;
mod csr_number;
mod fence_mode;
mod fence_set;
mod imm12;
mod jump_offset;
mod shamt;
mod uimm;
mod upper_imm;

pub use branch_offset::BranchOffset;
pub use csr_number::CsrNumber;
pub use fence_mode::FenceMode;
pub use fence_set::FenceSet;
pub use imm12::Imm12;
pub use jump_offset::JumpOffset;
pub use shamt::Shamt;
pub use uimm::Uimm;
pub use upper_imm::UpperImm;

//! The state of a hart other than its pc and mode: the integer registers, and the control and status registers with their table, traps, returns,
//! interrupts and counters. (RISC-V Unprivileged ISA 20191213, section 2.1; Privileged Architecture 20211203, chapters 2 to 4.)
//!
//! ```text
//! let mut csrs = Csrs::new();
//! csrs.write(0x305, 0x400, Mode::M)?; // mtvec
//! let cause = Cause::Exception(Exception::EnvironmentCallFromU);
//! let pc = csrs.enter_trap(Mode::U, 0x8000_0010, cause, 0); // 0x400
//! let (mode, pc) = csrs.do_mret(); // mode U, 0x8000_0010
//! ```
#![tactic(auto)]

mod bits;
mod cause;
mod counters;
mod csr_fault;
mod csr_name;
mod csrs;
mod kept_bits;
mod mstatus;
mod raised;
mod regs;
mod s_context;
mod traps;

pub use cause::{Cause, Exception, Interrupt};
pub use csr_fault::CsrFault;
pub use csrs::Csrs;
pub use mstatus::Mstatus;
pub use regs::Regs;
pub use s_context::SContext;

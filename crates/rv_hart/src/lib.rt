//! One hart of RV32IM with Zicsr in modes M, S and U, and its step over a memory. (RISC-V Unprivileged ISA 20191213, chapters 1, 2, 7 and 9;
//! Privileged Architecture 20211203, chapters 3 and 4.)
//!
//! `Step` in the specs defines one step, and `Instructions` the meaning of each row of the instruction table. Each property of every step is a
//! clause of `Hart::step` and a lemma of `StepLaws` or `Confined` in the proofs. `step_cases` in `StepCases` is the case analysis for further
//! properties.
//!
//! The functions of [`arithmetic`] compute the results of instructions. The fast path (`rv_fast_path`) also calls them.
//!
//! ```text
//! let mut hart = Hart::new(0x8000_0000, Mode::M);
//! let outcome = hart.step(&mut ram);
//! let result = hart.regs().get(Reg::new(1));
//! ```
#![tactic(auto)]

pub mod arithmetic;
mod csr_instructions;
mod hart;
mod request;
mod returns;
mod trap;

pub use hart::Hart;
pub use request::Request;
pub use trap::{StepOutcome, Trap};

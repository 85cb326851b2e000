//! The assembler and the disassembler of the bench: text to words, and words to text (RISC-V Unprivileged ISA 20191213, chapters 24 and 25, in
//! this project's own grammar). The disassembly of any word assembles to that word alone.
//!
//! ```text
//! let words = assemble(alloc, b"loop: addi x1, x1, -1\nbne x1, x0, loop\n")?; // [0xfff0_8093, 0xfe00_9ee3]
//! let mut text = ArrayString::new();
//! disassemble(0xfe00_9ee3, &mut text); // bne x1, x0, -4
//! ```
#![tactic(auto)]

mod assembler;
mod code;
mod csr_name;
mod cuts;
mod disassembler;
mod fault;
mod first_pass;
mod format;
mod line;
mod mnemonic;
mod name;
mod number;
mod operand;
mod operand_range;
mod reading;
mod register_name;
mod second_pass;
mod statement;
mod tables;

pub use assembler::assemble;
pub use disassembler::disassemble;
pub use fault::{AsmFault, AsmFaultKind};

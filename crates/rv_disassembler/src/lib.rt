//! The disassembler of the bench: the text of each word (RISC-V Unprivileged ISA 20191213, chapters 24 and 25, in this project's own grammar).
//! In the specs, `Spelling` defines the text. The contracts of the assembler, `rv_asm`, state that the text assembles to the word.
//!
//! ```text
//! let mut text = ArrayString::new();
//! disassemble(0xfe00_9ee3, &mut text); // bne x1, x0, -4
//! ```
#![tactic(auto)]

mod disassembler;
mod hexadecimal;

pub use disassembler::disassemble;

//! Words of 32 bits, as the RISC-V Unprivileged ISA 20191213 uses them (chapters 2 and 7). The crate has register numbers, bit fields, the bytes
//! of a word, shifts, bitwise logic, high words of products, divisions, and the widths of accesses.
//!
//! A word is a `u32`, and its signed value is that of two's complement. No function returns an error: the `requires` clauses of a function state
//! the conditions on its arguments.
//!
//! ```text
//! let immediate = bits(0xfff0_8093, 31, 20); // 0xfff
//! let word = sext(immediate, 12); // 0xffff_ffff, the word of -1
//! ```
#![tactic(auto)]

mod bit_field;
mod byte_order;
mod division;
mod logic;
mod product;
mod reg;
mod shift;
mod sign;
mod width;

pub use bit_field::{bits, sext};
pub use byte_order::{le_bytes, le_word};
pub use division::{div, divu, rem, remu};
pub use logic::{and, and_not, or, xor};
pub use product::{mulh, mulhsu, mulhu};
pub use reg::Reg;
pub use shift::{sll, sra, srl};
pub use sign::signed;
pub use width::Width;

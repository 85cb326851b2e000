//! The machine outside its harts. It has the memory (bytes from address 80000000 on), the accesses of a hart, and the bytes that one step accesses.
//! It also has blocks of addresses, the block that a monitor reserves for itself, and the number of harts that share the memory. (RISC-V Unprivileged
//! ISA 20191213, sections 1.1, 1.4 and 2.6.)
//!
//! The specs define memory by two functions on a list of bytes, `read` and `write` in `Memory`.
//!
//! ```text
//! let mut ram = Ram::new(alloc, 65_536)?;
//! ram.store(0x8000_0000, Width::Half, 0xabcd_1234)?;
//! ram.load(0x8000_0000, Width::Word)?; // 0x0000_1234
//! ```
#![tactic(auto)]

mod access_fault;
mod block;
mod harts;
pub mod laws;
mod ram;
mod ram_fault;
mod refused_ram;
mod touched;

pub use access_fault::AccessFault;
pub use block::{Block, monitor_block, no_block};
pub use harts::Harts;
pub use ram::{RAM_BASE, Ram, number_in, put_in};
pub use ram_fault::RamFault;
pub use refused_ram::RefusedRam;
pub use touched::{Span, Touched};

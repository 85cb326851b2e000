//! Images: the segments to load, and the entry address (System V gABI, chapter 4, ELF header, and chapter 5, program header and program loading;
//! RISC-V ELF psABI).
//!
//! An image is a 32-bit ELF file for RISC-V, or the raw bytes of the memory. `plan` and `plan_raw` find the segments, or the error with the
//! smallest number. `load` copies the segments into a RAM. None of these functions allocates memory. With a monitor, an image must not use the
//! monitor's range, 80000000 to 8000FFFF.
//!
//! ```text
//! let plan = plan(file, 1_048_576, false)?;
//! load(&plan, file, &mut ram);
//! plan.entry(); // 0x8000_0000
//! ```
#![tactic(auto)]

mod elf_fault;
mod fields;
mod header;
mod load_plan;
mod loading;
mod place;
mod planning;
mod segment;

pub use elf_fault::ElfFault;
pub use fields::is_elf;
pub use load_plan::Plan;
pub use loading::load;
pub use planning::{plan, plan_raw};
pub use segment::Segment;

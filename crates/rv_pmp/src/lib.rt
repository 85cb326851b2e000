//! Physical memory protection: the privilege modes, the kinds of access, the sixteen entries of a hart, and their verdict on an access. See
//! RISC-V Privileged Architecture 20211203, sections 1.2 and 3.7.
//!
//! ```text
//! let mut pmp = Pmp::new();
//! pmp.write_addr(PmpIndex::new(0), 0x2000_01ff); // NAPOT: the 4096 bytes from 80000000 on
//! pmp.write_cfg(PmpIndex::new(0), 0x19); // for reading
//! pmp.judge(Mode::U, Access::Read, 0x8000_0ffc, Width::Word); // Verdict::Allowed(PmpIndex::new(0))
//! pmp.judge(Mode::U, Access::Read, 0x8000_0ffd, Width::Word); // Verdict::DeniedPartial(PmpIndex::new(0))
//! ```
#![tactic(auto)]

mod access;
mod address_matching;
mod cache;
mod caches;
mod cfg_byte;
mod entry_ranges;
mod matched_range;
mod mode;
mod open_range;
mod pmp;
mod pmp_index;
mod pmp_register;
mod previous_entries;
mod segments;
mod verdict;

pub use access::Access;
pub use mode::Mode;
pub use pmp::Pmp;
pub use pmp_index::PmpIndex;
pub use pmp_register::PmpRegister;
pub use verdict::Verdict;

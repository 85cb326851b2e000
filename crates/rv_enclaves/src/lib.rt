//! The enclave state of a security monitor in the style of Keystone (EuroSys 2020). The crate has the table of thirteen slots, and the saved
//! contexts of the enclaves that do not run. It has the sixteen PMP entries for a table and a world, and the calls that create, destroy and
//! measure an enclave. Nothing here depends on a hart: the monitored machine is in the crate `rv_monitor`.
//!
//! The definitions in `specs/` specify the crate completely. docs/MONITOR.md describes the monitor for authors of hosts and enclaves.
#![tactic(auto)]

mod call;
mod context;
mod create;
mod create_args;
mod destroy;
pub mod laws;
mod layout;
mod measure;
mod refusal;
mod scramble;
mod shared;
mod slot;
mod slot_info;
mod table;
mod valid_block;
mod world;

pub use call::{Call, call_requested};
pub use context::{
    Context, Contexts, exited_context, save_running, saved_context, set_context, set_return_values,
};
pub use create_args::CreateArgs;
pub use layout::write_layout;
pub use refusal::Refusal;
pub use rv_memory::Block;
pub use shared::Shared;
pub use slot::{SLOT_COUNT, Slot};
pub use slot_info::{EnclaveState, SlotInfo};
pub use table::Table;
pub use world::World;

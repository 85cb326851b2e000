//! A security monitor in the style of Keystone (EuroSys 2020) for one or more harts. The host, in mode S, creates, enters and destroys enclaves by
//! calls. The sixteen PMP entries of each hart isolate the enclaves from the host and from one another.
//!
//! [`MonitoredMachine`] is the machine with its monitor. Its step is the step of a hart, followed after each trap by the trap handler. The
//! handler performs a call, stops an enclave on a timer interrupt, or redirects the trap to mode S. The crate `rv_enclaves` has the state of the
//! enclaves, and the calls that create, destroy and measure one. The definitions in `specs/` of both crates specify the monitor completely.
//! docs/MONITOR.md describes it for authors of hosts and enclaves.
#![tactic(auto)]

mod context;
mod enclave_exit;
mod handler;
mod hart_state;
pub mod laws;
mod layout;
mod monitored_machine;
mod next;
mod outcome;

pub use hart_state::HARTS;
pub use monitored_machine::MonitoredMachine;
pub use outcome::Outcome;
pub use rv_enclaves::{EnclaveState, Slot, SlotInfo, Table, World};
pub use rv_memory::{Block, Harts};

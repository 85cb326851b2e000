//! The exit of an enclave.

use rv_enclaves::{Context, EnclaveState};

/// The exit of an enclave: its new state, its saved context, and the values that the host receives.
#[derive(Clone, Copy)]
pub(crate) struct EnclaveExit {
    /// The state of the enclave after the exit.
    pub(crate) state: EnclaveState,
    /// The saved context of the enclave.
    pub(crate) kept: Context,
    /// The reason for the exit, which the host receives in a0.
    pub(crate) reason: u32,
    /// The value that the host receives in a1.
    pub(crate) value: u32,
}

//! The state of one hart.

use rv_enclaves::{Context, World};
use rv_hart::Hart;

/// The largest number of harts of a machine. No definition depends on its value.
pub const HARTS: usize = 2;

/// The state of one hart: its registers, the world that runs on it, and the saved context of the host.
#[derive(Drop)]
pub(crate) struct HartState {
    pub(crate) hart: Hart,
    /// The saved context of the host while an enclave runs, otherwise `None`.
    pub(crate) host_context: Option<Context>,
    pub(crate) world: World,
}

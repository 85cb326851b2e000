//! The kinds of access to memory.

/// A kind of access to memory. The PMP has a separate permission for each kind (Privileged Architecture, section 3.7.1).
#[derive(Clone, Copy, Debug, PartialEq, Eq)]
pub enum Access {
    /// An instruction fetch: permission X.
    Fetch,
    /// A load: permission R.
    Read,
    /// A store: permission W.
    Write,
}

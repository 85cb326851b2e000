//! The verdict of the entries on an access.

ghost use Rattle.std.specs.Prelude.{◌≡◌};
ghost use Rattle.rv_pmp.specs.Verdicts as spec;

use crate::pmp_index::PmpIndex;

/// The verdict of the entries on an access (Privileged Architecture, section 3.7.1, Priority and Matching Logic). A verdict with an entry names
/// the matching entry, the first that covers a byte of the access.
#[derive(Clone, Copy, Debug, PartialEq, Eq)]
pub enum Verdict {
    /// The entry covers every byte and grants the access.
    Allowed(PmpIndex),
    /// No entry covers a byte, and the mode is M.
    AllowedFree,
    /// The entry covers every byte and does not grant the access.
    Denied(PmpIndex),
    /// The entry covers some bytes but not all.
    DeniedPartial(PmpIndex),
    /// No entry covers a byte, and the mode is S or U.
    DeniedFree,
}

impl Verdict {
    /// Returns whether the access is permitted.
    pub fn permits(&self) -> bool
        ensures { result ≡ spec.permits self.now }
    {
        match *self {
            Verdict::Allowed(_) | Verdict::AllowedFree => true,
            Verdict::Denied(_) | Verdict::DeniedPartial(_) | Verdict::DeniedFree => false,
        }
    }
}

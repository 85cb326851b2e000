//! The privilege modes.

ghost use Rattle.std.specs.Prelude.{◌≡◌, ◌<◌};
ghost use Rattle.rv_pmp.specs.Mode.{mode_number};

/// A privilege mode (Privileged Architecture, section 1.2).
#[derive(Clone, Copy, Debug, PartialEq, Eq)]
pub enum Mode {
    /// User mode, the least privileged.
    U = 0,
    /// Supervisor mode.
    S = 1,
    /// Machine mode, the most privileged.
    M = 3,
}

impl Mode {
    /// Returns the number of the mode. It orders the modes, and fields of registers contain it. 2 is not the number of a mode.
    pub const fn number(self) -> u32
        ensures value { result ≡ mode_number self }
        ensures in_range { result < 4 }
    {
        self as u32
    }
}

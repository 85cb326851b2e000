//! The setup of a bench.

ghost use Rattle.std.specs.Prelude.{◌≡◌, false};

use crate::image_kind::ImageKind;
use rv_memory::Harts;

/// The setup of a bench.
#[derive(Clone, Copy, Debug, PartialEq, Eq)]
pub struct Setup {
    /// The format of the image.
    pub kind: ImageKind,
    /// The size of the RAM in bytes.
    pub ram: u32,
    /// Whether there is a monitor. If so, the image is the host above it and starts in mode S. Otherwise it runs alone, and starts in mode M.
    pub monitored: bool,
    /// The number of harts under the monitor. Without the monitor the bench has one hart, whatever this value is.
    pub harts: Harts,
}

impl Setup {
    ghost use Rattle.std.specs.Prelude.{◌≡◌};
    ghost use Rattle.rv_command_line.specs.Job.{has_valid_harts};

    /// Returns whether the bench has the monitor if it has two harts.
    pub(crate) fn has_valid_harts(&self) -> bool
        ensures { result ≡ has_valid_harts self.now }
    {
        self.monitored || self.harts == Harts::One
    }
}

impl Default for Setup {
    /// Returns the setup with the kind `Auto`, a RAM of 1048576 bytes, no monitor, and one hart.
    fn default() -> Self
        ensures kind { result.kind ≡ ImageKind.Auto }
        ensures ram { result.ram ≡ 1048576 }
        ensures monitored { result.monitored ≡ false }
        ensures harts { result.harts ≡ Harts.One }
    {
        Setup {
            kind: ImageKind::default(),
            ram: 1_048_576,
            monitored: false,
            harts: Harts::default(),
        }
    }
}

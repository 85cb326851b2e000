//! The format of an image.

ghost use Rattle.std.specs.Prelude.{◌≡◌};
ghost use Rattle.rv_command_line.specs.Job.{kind_of};

/// The format of an image.
#[derive(Clone, Copy, Debug, PartialEq, Eq)]
pub enum ImageKind {
    /// An ELF file if the first four bytes are 7F 45 4C 46, otherwise a raw image.
    Auto,
    /// The bytes of the RAM, from the image's first address on.
    Raw,
    /// An ELF file.
    Elf,
}

/// The names of the formats in the command line.
pub(crate) const KIND_NAMES: &[&str] = &["auto", "raw", "elf"];

impl ImageKind {
    /// Returns the format with this name in the command line, or `None` if there is none.
    pub(crate) fn named(name: &str) -> Option<ImageKind>
        ensures { result ≡ kind_of name.now }
    {
        match name {
            "auto" => Some(ImageKind::Auto),
            "raw" => Some(ImageKind::Raw),
            "elf" => Some(ImageKind::Elf),
            _ => None,
        }
    }
}

impl Default for ImageKind {
    /// Returns `Auto`.
    fn default() -> Self
        ensures { result ≡ ImageKind.Auto }
    {
        ImageKind::Auto
    }
}

//! The number of harts in a machine.

ghost use Rattle.std.specs.Prelude.{◌≡◌};
ghost use Rattle.rv_memory.specs.Harts.{counted_harts, number_of_harts};

/// The number of harts in a machine.
#[derive(Clone, Copy, Debug, PartialEq, Eq)]
pub enum Harts {
    /// Only hart 0.
    One,
    /// Hart 0 and hart 1, with one memory, under one monitor.
    Two,
}

impl Harts {
    /// Returns the value for `count` harts, or `None` if a machine cannot have as many.
    pub const fn counted(count: u8) -> Option<Harts>
        ensures { result ≡ counted_harts count }
    {
        match count {
            1 => Some(Harts::One),
            2 => Some(Harts::Two),
            _ => None,
        }
    }

    /// Returns the number of harts.
    pub const fn count(self) -> u8
        ensures { result ≡ number_of_harts self }
    {
        match self {
            Harts::One => 1,
            Harts::Two => 2,
        }
    }
}

impl Default for Harts {
    /// Returns `One`.
    fn default() -> Self
        ensures { result ≡ Harts.One }
    {
        Harts::One
    }
}

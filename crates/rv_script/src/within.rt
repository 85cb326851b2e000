//! Numbers in a range that is part of their type.

ghost use Rattle.std.specs.Prelude.{◌≡◌, ◌≤◌, ℕ};
ghost use Rattle.rv_script.specs.Within.{within};

use std::marker::Model;

/// A number from `LOW` to `HIGH`.
#[derive(Clone, Copy, Debug, PartialEq, Eq)]
pub struct Within<const LOW: u32, const HIGH: u32> {
    value: u32,
}

impl<const LOW: u32, const HIGH: u32> Model for Within<LOW, HIGH> {
    ghost Value = { ℕ };

    ghost view = { λ number. number.value };

    ghost invariant = { λ number. (LOW ≤ number.value) × (number.value ≤ HIGH) };

    ghost inverse = { λ n. record { value = n } };
}

impl<const LOW: u32, const HIGH: u32> Within<LOW, HIGH> {
    /// Returns the number, if it is in the range.
    pub fn new(value: u32) -> Option<Self>
        ensures { result ≡ within LOW HIGH value }
    {
        if LOW <= value && value <= HIGH {
            Some(Within { value })
        } else {
            None
        }
    }

    /// Returns the number.
    pub fn get(self) -> u32
        ensures value { result ≡ self.entry }
        ensures low { LOW ≤ result }
        ensures high { result ≤ HIGH }
    {
        self.value
    }
}

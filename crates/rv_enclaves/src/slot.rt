//! The numbers of the slots of the enclave table.

ghost use Rattle.std.specs.Prelude.{◌≡◌, ℕ, ◌<◌};
ghost use Rattle.rv_enclaves.specs.SlotNumbers.{slot_count, slot_numbered};

use std::marker::Model;

/// The number of slots.
pub const SLOT_COUNT: usize = 13;

/// The number of a slot, 0 to 12.
#[derive(Clone, Copy, Debug, PartialEq, Eq)]
pub struct Slot {
    number: u8,
}

impl Model for Slot {
    ghost Value = { ℕ };

    ghost view = { λ slot. slot.number };

    ghost invariant = { λ slot. slot.number < 13 };

    ghost inverse = { λ number. record { number = number } };
}

impl Slot {
    /// All slots, in ascending order.
    pub const ALL: [Slot; SLOT_COUNT] = [
        Slot { number: 0 },
        Slot { number: 1 },
        Slot { number: 2 },
        Slot { number: 3 },
        Slot { number: 4 },
        Slot { number: 5 },
        Slot { number: 6 },
        Slot { number: 7 },
        Slot { number: 8 },
        Slot { number: 9 },
        Slot { number: 10 },
        Slot { number: 11 },
        Slot { number: 12 },
    ];

    /// Returns the slot with a number, or `None` if the number is above 12.
    pub const fn new(number: u32) -> Option<Self>
        ensures { result ≡ slot_numbered number }
    {
        if number < 13 {
            Some(Slot {
                number: number as u8,
            })
        } else {
            None
        }
    }

    /// Returns the number of the slot, 0 to 12.
    pub const fn number(self) -> u8
        ensures value { result ≡ self }
        ensures in_range { result < slot_count }
    {
        self.number
    }
}

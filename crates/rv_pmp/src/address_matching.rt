//! The address matching of an entry.

ghost use Rattle.std.specs.Prelude.{◌≡◌};

/// The field A of a cfg byte (Privileged Architecture, section 3.7.1, Address Matching).
#[derive(Clone, Copy)]
pub(crate) enum AddressMatching {
    /// OFF: no address.
    Off,
    /// TOR, top of range: the addresses from the pmpaddr of the entry before up to, and without, the entry's own.
    Tor,
    /// NA4: four bytes.
    Na4,
    /// NAPOT: a naturally aligned range whose size is a power of two, 8 bytes or more.
    Napot,
}

impl AddressMatching {
    ghost use Rattle.rv_pmp.specs.Cfg.{matching_of};

    /// Returns the field A, bits 4 and 3 of a cfg byte.
    pub(crate) fn of(cfg: u8) -> AddressMatching
        ensures { result ≡ matching_of cfg }
    {
        match cfg / 8 % 4 {
            0 => AddressMatching::Off,
            1 => AddressMatching::Tor,
            2 => AddressMatching::Na4,
            _ => AddressMatching::Napot,
        }
    }
}

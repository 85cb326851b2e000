//! The world that runs on a hart.

ghost use Rattle.std.specs.Prelude.{◌≡◌, MatchOption};
ghost use Rattle.rv_enclaves.specs.Table.{is_world_of};
ghost use Rattle.rv_enclaves.specs.Layout.{mie_of};
ghost use Rattle.rv_state.specs.CsrTable.{enabled_of};

use crate::slot::Slot;

/// The world that runs on a hart.
#[derive(Clone, Copy, Debug, PartialEq, Eq)]
pub enum World {
    /// The host.
    Host,
    /// The enclave of a slot.
    Enclave(Slot),
}

impl World {
    /// Returns the slot of the enclave, or `None` for the host.
    pub const fn slot(&self) -> Option<Slot>
        ensures { MatchOption result (self.now ≡ World.Host) (λ slot. self.now ≡ World.Enclave slot) }
    {
        match *self {
            World::Host => None,
            World::Enclave(slot) => Some(slot),
        }
    }

    /// Returns whether the world is the enclave of a slot.
    pub(crate) fn is_enclave(&self, slot: Slot) -> bool
        ensures { result ≡ is_world_of slot self.now }
    {
        match *self {
            World::Host => false,
            World::Enclave(own) => own == slot,
        }
    }

    /// Returns the value of mie while the world runs. MTIE, the enable bit of the timer interrupt, is set for an enclave only.
    #[tactic(auto, using(crate::proofs::InvariantLemmas::mie_stored))]
    pub const fn mie(&self) -> u32
        ensures value { result ≡ mie_of self.now }
        ensures stored { enabled_of (mie_of self.now) ≡ mie_of self.now }
    {
        match *self {
            World::Host => 0,
            World::Enclave(_) => 0x80,
        }
    }
}

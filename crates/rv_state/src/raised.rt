//! The pending interrupts.

ghost use Rattle.std.specs.Prelude.{◌≡◌};
ghost use Rattle.rv_state.specs.Cache.Kept.{RaisedState};

use crate::bits::{flag, is_set};
use crate::kept_bits::software_pending_of;
use std::marker::Model;

/// The pending interrupts: the word that mip reads (Privileged Architecture, section 3.1.9). Bit 7 is the timer line. It is one word, so that
/// each step reads only one.
#[derive(Drop, Debug)]
pub(crate) struct Raised {
    word: u32,
}

impl Model for Raised {
    ghost use Rattle.std.specs.Prelude.{◌≡◌};
    ghost use Rattle.rv_state.specs.Cache.Kept.{RaisedState, mip_of, raised_in};

    ghost Value = { RaisedState };

    ghost view = { λ raised. raised_in raised.word };

    ghost invariant = { λ raised. mip_of (raised_in raised.word) ≡ raised.word };
}

impl Raised {
    ghost use Rattle.std.specs.Prelude.{◌≡◌, false};
    ghost use Rattle.rv_state.specs.Interrupts.{software_pending_of};
    ghost use Rattle.rv_state.specs.Cache.Kept.{mip_of};

    /// Returns the state in which no interrupt is pending.
    #[tactic(auto, unfolding(crate::specs::Bits::kept_bits))]
    pub(crate) fn new() -> Self
        ensures { result ≡ record { software = 0; timer = false } }
    {
        Raised { word: 0 }
    }

    /// Returns the word that mip reads.
    #[inline(always)]
    pub(crate) const fn word(&self) -> u32
        ensures { result ≡ mip_of self.now }
    {
        self.word
    }

    /// Sets the bits that software writes to those of a word.
    #[tactic(auto, using(crate::proofs::RaisedLemmas::software_part, crate::proofs::RaisedLemmas::timer_part, crate::proofs::RaisedLemmas::only_raised))]
    pub(crate) fn set_software(&mut self, word: u32)
        ensures value { self.new ≡ record self.old { software = software_pending_of word } }
        ensures kept { software_pending_of (software_pending_of word) ≡ software_pending_of word }
    {
        self.word = software_pending_of(word) + flag(7, is_set(self.word, 7));
    }

    /// Sets or clears the timer line.
    #[tactic(auto, using(crate::proofs::RaisedLemmas::software_part, crate::proofs::RaisedLemmas::timer_part, crate::proofs::RaisedLemmas::only_raised))]
    pub(crate) fn set_timer(&mut self, raised: bool)
        ensures { self.new ≡ record self.old { timer = raised } }
    {
        self.word = software_pending_of(self.word) + flag(7, raised);
    }
}

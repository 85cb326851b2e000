//! The table of enclaves.

ghost use Rattle.std.specs.Prelude.{◌≡◌, Some, None, MatchOption, MatchResult, length};
ghost use Rattle.std.specs.List.{list_any};
ghost use Rattle.rv_enclaves.specs.Create.{overlaps as overlaps_of, collides};
ghost use Rattle.rv_enclaves.specs.Refusals.{first_refusal, state_refusals};
ghost use Rattle.rv_enclaves.specs.SlotNumbers.{slot_count};
ghost use Rattle.rv_enclaves.specs.Table.{slot_at as slot_at_of, free_slot as free_slot_of, running_slot, with_slot, with_state};

use crate::call::Call;
use crate::create_args::CreateArgs;
use crate::refusal::Refusal;
use crate::slot::{SLOT_COUNT, Slot};
use crate::slot_info::{EnclaveState, SlotInfo};
use crate::world::World;
use rv_memory::monitor_block;
use std::marker::Model;

/// The table of enclaves: thirteen slots, 0 to 12, each free or with the record of a live enclave.
#[derive(Drop, Debug)]
pub struct Table {
    slots: [Option<SlotInfo>; SLOT_COUNT],
}

impl Model for Table {
    ghost use Rattle.rv_enclaves.specs.Table.{Slots};

    ghost Value = { Slots };

    ghost view = { λ table. table.slots };
}

impl Table {
    ghost use Rattle.rv_enclaves.specs.Table.{no_slots};

    /// Returns a table without enclaves.
    pub const fn new() -> Self
        ensures { result ≡ no_slots }
    {
        Table {
            slots: [None; SLOT_COUNT],
        }
    }

    /// Returns the record in a slot, or `None` if the slot is free.
    pub fn get(&self, slot: Slot) -> Option<&SlotInfo>
        ensures { MatchOption result (slot_at_of self.now slot ≡ None) (λ info. slot_at_of self.now slot ≡ Some info.now) }
    {
        self.slots[usize::from(slot.number())].as_ref()
    }

    /// Returns the record in a slot, if its enclave is live.
    pub(crate) fn slot_at(&self, slot: Slot) -> Option<SlotInfo>
        ensures { result ≡ slot_at_of self.now slot }
    {
        self.slots[usize::from(slot.number())]
    }

    /// Returns the slot with a number and its record, if its enclave is live. There is no slot with a number above 12.
    pub(crate) fn named(&self, number: u32) -> Option<(Slot, SlotInfo)>
        ensures { MatchOption result
            (slot_at_of self.now number ≡ None)
            (λ found. (found.0 ≡ number) × (slot_at_of self.now number ≡ Some found.1)) }
    {
        named_in(&self.slots, number)
    }

    /// Returns the slot with a number and its record, for a call that accepts the state of its enclave.
    ///
    /// # Errors
    ///
    /// - `NoEnclave`, if the slot is free or the number is above 12;
    /// - `BadState`, if the call does not accept the state of the enclave.
    #[tactic(auto, unfolding(crate::specs::Refusals::state_refusals))]
    pub fn check_state(&self, call: Call, number: u32) -> Result<(Slot, SlotInfo), Refusal>
        ensures { MatchResult result
            (λ found. (first_refusal (state_refusals self.now call number) ≡ None) × (found.0 ≡ number) × (slot_at_of self.now number ≡ Some found.1))
            (λ refusal. first_refusal (state_refusals self.now call number) ≡ Some refusal) }
    {
        match self.named(number) {
            None => Err(Refusal::NoEnclave),
            Some((slot, info)) if call.takes(info.state) => Ok((slot, info)),
            Some(_) => Err(Refusal::BadState),
        }
    }

    /// Sets the record of a slot.
    pub(crate) fn set_slot(&mut self, slot: Slot, info: Option<SlotInfo>)
        ensures { self.new ≡ with_slot self.old slot info }
    {
        self.slots[usize::from(slot.number())] = info;
    }

    /// Sets the state of the enclave that is the given world. If the world is the host, nothing changes.
    #[tactic(auto, using(crate::proofs::Slots::state_past))]
    pub fn set_running_state(&mut self, world: &World, state: EnclaveState)
        ensures { self.new ≡ with_state self.old (running_slot world.now) state }
    {
        counts(&self.slots);
        if let Some(slot) = world.slot() {
            self.set_state(slot, state);
        }
    }

    /// Sets the state of the enclave of a slot, if it is live.
    pub fn set_state(&mut self, slot: Slot, state: EnclaveState)
        ensures { self.new ≡ with_state self.old slot state }
    {
        if let Some(info) = self.slot_at(slot) {
            self.set_slot(slot, Some(SlotInfo { state, ..info }));
        }
    }

    /// Returns the lowest free slot.
    #[tactic(auto, unfolding(crate::specs::Table::free_slot))]
    pub(crate) fn free_slot(&self) -> Option<Slot>
        ensures { result ≡ free_slot_of self.now }
    {
        Slot::ALL
            .iter()
            .copied()
            .find(|slot| self.slot_at(*slot).is_none())
    }

    /// Returns whether the new enclave would overlap the monitor's range or a live enclave in bytes that it may not share.
    #[tactic(auto, unfolding(crate::specs::Create::overlaps))]
    pub(crate) fn overlaps(&self, new: &CreateArgs) -> bool
        ensures { result ≡ overlaps_of self.now new.now }
    {
        monitor_block().meets(new.region)
            || monitor_block().meets(new.window)
            || new.region.meets(new.window)
            || self.collides(new)
    }

    /// Returns whether the new enclave would overlap a live enclave in bytes that the two may not share.
    fn collides(&self, new: &CreateArgs) -> bool
        ensures { result ≡ list_any (collides new.now) self.now }
    {
        self.slots.iter().any(|slot| new.collides(slot))
    }
}

/// Establishes that there are thirteen slots. Has no effect.
const fn counts(slots: &[Option<SlotInfo>; SLOT_COUNT])
    ensures { length slots.now ≡ slot_count }
{}

/// Returns the slot with a number and its record, if its enclave is live. There is no slot with a number above 12.
#[tactic(auto, using(crate::proofs::Slots::none_past))]
fn named_in(slots: &[Option<SlotInfo>; SLOT_COUNT], number: u32) -> Option<(Slot, SlotInfo)>
    ensures { MatchOption result
        (slot_at_of slots.now number ≡ None)
        (λ found. (found.0 ≡ number) × (slot_at_of slots.now number ≡ Some found.1)) }
{
    let slot = Slot::new(number)?;
    let info = slots[usize::from(slot.number())]?;
    Some((slot, info))
}

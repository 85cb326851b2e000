//! The call `create`.

ghost use Rattle.std.specs.Prelude.{◌≡◌, true, None, Some, IfOk, MatchResult};
ghost use Rattle.rv_memory.specs.Memory.{is_inside, bytes_of};
ghost use Rattle.rv_enclaves.specs.Create.{created, create_refusals, new_slot, measurement_of, bytes_of_block, recorded, with_enclave};
ghost use Rattle.rv_enclaves.specs.Refusals.{first_refusal};

use crate::context::{first_context, set_context};
use crate::create_args::CreateArgs;
use crate::refusal::Refusal;
use crate::shared::Shared;
use crate::slot::Slot;
use crate::slot_info::{EnclaveState, SlotInfo};
use crate::valid_block::is_valid_block;
use rv_memory::{Block, Ram};
use rv_word::le_bytes;
use sha2::{Digest, Sha256};

impl Shared {
    /// Records a new enclave, as Fresh, in the lowest free slot, and returns the slot. The first refusal that applies is one of
    /// `BadRegion`, `BadWindow`, `Overlap`, `BadEntry` and `NoSlot`; nothing changes then. No byte of memory changes.
    #[tactic(auto, unfolding(crate::specs::Create::created))]
    pub fn create(&mut self, new: &CreateArgs) -> Result<u32, Refusal>
        ensures { MatchResult result
            (λ slot. (first_refusal (create_refusals self.old new.now) ≡ None) × (slot ≡ new_slot self.old.table) × (self.new ≡ created self.old new.now))
            (λ refusal. (first_refusal (create_refusals self.old new.now) ≡ Some refusal) × (self.new ≡ self.old)) }
    {
        let slot = check_create(self, new)?;
        let info = record(&self.memory, new);
        put_enclave(self, slot, &info);
        Ok(u32::from(slot.number()))
    }
}

/// Returns the slot of a new enclave, or the first refusal that applies.
#[tactic(auto, unfolding(crate::specs::Create::create_refusals))]
fn check_create(shared: &Shared, new: &CreateArgs) -> Result<Slot, Refusal>
    ensures asked { MatchResult result
        (λ slot. (first_refusal (create_refusals shared.now new.now) ≡ None) × (slot ≡ new_slot shared.now.table))
        (λ refusal. first_refusal (create_refusals shared.now new.now) ≡ Some refusal) }
    ensures inside { IfOk result (λ _. is_inside shared.now.memory new.now.region.base new.now.region.size ≡ true) }
{
    if !is_valid_block(new.region, &shared.memory) {
        return Err(Refusal::BadRegion);
    }
    if !new.has_valid_window(&shared.memory) {
        return Err(Refusal::BadWindow);
    }
    if shared.table.overlaps(new) {
        return Err(Refusal::Overlap);
    }
    if !new.has_entry() {
        return Err(Refusal::BadEntry);
    }
    shared.table.free_slot().ok_or(Refusal::NoSlot)
}

/// Returns the record of a new enclave.
fn record(memory: &Ram, new: &CreateArgs) -> SlotInfo
    requires { is_inside memory.now new.now.region.base new.now.region.size ≡ true }
    ensures { result ≡ recorded memory.now new.now }
{
    SlotInfo {
        region: new.region,
        window: new.window,
        entry: new.entry,
        measurement: measurement(memory, new),
        state: EnclaveState::Fresh,
    }
}

/// Writes a record and its first context to a slot.
fn put_enclave(shared: &mut Shared, slot: Slot, info: &SlotInfo)
    ensures { shared.new ≡ with_enclave shared.old slot info.now }
{
    shared.table.set_slot(slot, Some(*info));
    set_context(&mut shared.contexts, slot, Some(first_context(info)));
}

/// Returns the measurement of a new enclave.
#[tactic(auto, unfolding(crate::specs::Create::measurement_of))]
fn measurement(memory: &Ram, new: &CreateArgs) -> [u8; 32]
    requires { is_inside memory.now new.now.region.base new.now.region.size ≡ true }
    ensures { result ≡ measurement_of memory.now new.now }
{
    let mut hasher = Sha256::new();
    hasher.update(&word_bytes(new.region.base));
    hasher.update(&word_bytes(new.region.size));
    hasher.update(&word_bytes(new.window.base));
    hasher.update(&word_bytes(new.window.size));
    hasher.update(&word_bytes(new.entry));
    hasher.update(block_bytes(memory, new.region));
    hasher.finalize()
}

/// Returns the bytes of a word, the lowest first.
fn word_bytes(word: u32) -> [u8; 4]
    ensures { result ≡ bytes_of 4 word }
{
    le_bytes(word)
}

/// Returns the bytes of a block.
fn block_bytes(memory: &Ram, block: Block) -> &[u8]
    requires { is_inside memory.now block.base block.size ≡ true }
    ensures { result.now ≡ bytes_of_block memory.now block }
{
    memory.part(block.base, block.size)
}

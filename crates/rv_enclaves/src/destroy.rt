//! The call `destroy`.

ghost use Rattle.std.specs.Prelude.{◌≡◌, None, Some, MatchResult};
ghost use Rattle.rv_enclaves.specs.Destroy.{destroyed, without, zeroed};
ghost use Rattle.rv_enclaves.specs.Refusals.{first_refusal, state_refusals};

use crate::call::Call;
use crate::context::set_context;
use crate::refusal::Refusal;
use crate::shared::Shared;
use crate::slot::Slot;
use rv_memory::{Block, Ram};

impl Shared {
    /// Destroys the enclave of the slot with a number. Zeroes its region, and removes its record and its saved context.
    ///
    /// # Errors
    ///
    /// Nothing changes then:
    /// - `NoEnclave`, if the number is above 12 or the slot is free;
    /// - `BadState`, if the enclave runs.
    #[tactic(auto, unfolding(crate::specs::Destroy::destroyed))]
    pub fn destroy(&mut self, named: u32) -> Result<u32, Refusal>
        ensures { MatchResult result
            (λ value. (first_refusal (state_refusals self.old.table Call.Destroy named) ≡ None) × (value ≡ 0) × (self.new ≡ destroyed self.old named))
            (λ refusal. (first_refusal (state_refusals self.old.table Call.Destroy named) ≡ Some refusal) × (self.new ≡ self.old)) }
    {
        let (slot, info) = self.table.check_state(Call::Destroy, named)?;
        forget(self, slot, info.region);
        Ok(0)
    }
}

/// Zeroes a region, and removes the record and the saved context of its slot.
fn forget(shared: &mut Shared, slot: Slot, region: Block)
    ensures { shared.new ≡ without shared.old slot region }
{
    zero(&mut shared.memory, region);
    shared.table.set_slot(slot, None);
    set_context(&mut shared.contexts, slot, None);
}

/// Sets the bytes of a block to 0.
#[tactic(auto, unfolding(crate::specs::ValidBlocks::is_valid_block, rv_memory::specs::Memory::write))]
fn zero(memory: &mut Ram, block: Block)
    ensures { memory.new ≡ zeroed memory.old block }
{
    if memory.contains(block.base, block.size) {
        memory.zero(block.base, block.size);
    }
}

//! Scrambling: the complement of what is private to an enclave.

ghost use Rattle.std.specs.Prelude.{◌≡◌, if◌then◌else◌};
ghost use Rattle.std.specs.Option.{option_map};
ghost use Rattle.rv_enclaves.specs.Scramble.{can_scramble, complemented_registers, complemented_context, complemented_block, scrambled_shared};

use crate::context::{Context, context_at, set_context};
use crate::shared::Shared;
use crate::slot::Slot;
use crate::slot_info::EnclaveState;
use rv_memory::{Block, Ram};
use rv_state::Regs;
use rv_word::Reg;

impl Shared {
    /// Complements the region of a slot and its saved registers. Returns `false`, and changes nothing, if and only if the slot's enclave is not
    /// live or runs.
    #[tactic(auto, unfolding(crate::specs::Scramble::scrambled_shared))]
    pub fn scramble(&mut self, slot: Slot) -> bool
        ensures asked { result ≡ can_scramble self.old.table slot }
        ensures meaning { self.new ≡ (if result then scrambled_shared self.old slot else self.old) }
    {
        match self.table.slot_at(slot) {
            Some(info) if info.state != EnclaveState::Running => {
                complement(&mut self.memory, info.region);
                let context = context_at(&self.contexts, slot);
                set_context(&mut self.contexts, slot, complement_saved(context));
                true
            }
            _ => false,
        }
    }
}

/// Complements the bytes of a block.
#[tactic(auto, unfolding(rv_memory::specs::Memory::read))]
fn complement(memory: &mut Ram, block: Block)
    ensures { memory.new ≡ complemented_block memory.old block }
{
    if memory.contains(block.base, block.size) {
        memory.complement(block.base, block.size);
    }
}

/// Returns a saved context with its registers complemented, or `None` if there is none.
fn complement_saved(context: Option<Context>) -> Option<Context>
    ensures { result ≡ option_map complemented_context context }
{
    let mut context = context?;
    complement_registers(&mut context.regs);
    Some(context)
}

/// Complements x1 to x31.
fn complement_registers(regs: &mut Regs)
    ensures { regs.new ≡ complemented_registers regs.old }
{
    for number in 1..32 {
        let reg = Reg::new(number);
        let word = regs.get(reg);
        regs.set(reg, !word);
    }
}

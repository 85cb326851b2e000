//! Saved contexts: the state of a world while it does not run.

ghost use Rattle.std.specs.Prelude.{◌≡◌, Some};
ghost use Rattle.rv_enclaves.specs.Table.{running_slot};
ghost use Rattle.rv_enclaves.specs.Contexts.{first_context as first_context_of, exited_context as exited_context_of, no_supervisor as no_supervisor_of, with_context, context_at as context_at_of, saved_context as saved_context_of, with_return_values};

use crate::slot::{SLOT_COUNT, Slot};
use crate::slot_info::SlotInfo;
use crate::world::World;
use rv_pmp::Mode;
use rv_state::{Regs, SContext};
use rv_word::Reg;

/// The saved context of a world while it does not run.
#[derive(Clone, Copy, Debug)]
pub struct Context {
    /// The registers x0 to x31.
    pub regs: Regs,
    /// The address of its next instruction.
    pub pc: u32,
    /// The mode in which it continues, S or U.
    pub mode: Mode,
    /// The S-mode registers.
    pub supervisor: SContext,
}

/// The saved context of each slot's enclave while it does not run.
pub type Contexts = [Option<Context>; SLOT_COUNT];

/// Returns S-mode registers that are all 0.
const fn no_supervisor() -> SContext
    ensures { result ≡ no_supervisor_of }
{
    SContext {
        stvec: 0,
        sscratch: 0,
        sepc: 0,
        scause: 0,
        stval: 0,
        sie: false,
        spie: false,
        spp: false,
        mxr: false,
    }
}

/// Writes two words to a0 and a1.
pub fn set_return_values(regs: &mut Regs, a0: u32, a1: u32)
    ensures { regs.new ≡ with_return_values regs.old a0 a1 }
{
    regs.set(Reg::new(10), a0);
    regs.set(Reg::new(11), a1);
}

/// Returns the context of the first entry. a0 to a3 have the base and size of the enclave's region and window.
#[tactic(auto, unfolding(crate::specs::Contexts::first_context))]
pub(crate) fn first_context(info: &SlotInfo) -> Context
    ensures { result ≡ first_context_of info.now }
{
    let mut regs = Regs::new();
    set_return_values(&mut regs, info.region.base, info.region.size);
    regs.set(Reg::new(12), info.window.base);
    regs.set(Reg::new(13), info.window.size);
    Context {
        regs,
        pc: info.entry,
        mode: Mode::S,
        supervisor: no_supervisor(),
    }
}

/// Returns the empty context after exit: every register and pc are 0, and the mode is U.
pub fn exited_context() -> Context
    ensures { result ≡ exited_context_of }
{
    Context {
        regs: Regs::new(),
        pc: 0,
        mode: Mode::U,
        supervisor: no_supervisor(),
    }
}

/// Returns the saved context of a slot.
pub(crate) fn context_at(contexts: &Contexts, slot: Slot) -> Option<Context>
    ensures { result ≡ context_at_of contexts.now slot }
{
    contexts[usize::from(slot.number())]
}

/// Returns the saved context of a slot, or the empty one of `exited_context` if there is none.
pub fn saved_context(contexts: &Contexts, slot: Slot) -> Context
    ensures { result ≡ saved_context_of contexts.now slot }
{
    context_at(contexts, slot).unwrap_or(exited_context())
}

/// Saves the context of the enclave that is the given world. If the world is the host, nothing changes.
#[tactic(auto, using(crate::proofs::Slots::context_past))]
pub fn save_running(contexts: &mut Contexts, world: &World, context: Context)
    ensures { contexts.new ≡ with_context contexts.old (running_slot world.now) (Some context) }
{
    if let Some(slot) = world.slot() {
        set_context(contexts, slot, Some(context));
    }
}

/// Sets the saved context of a slot.
pub fn set_context(contexts: &mut Contexts, slot: Slot, context: Option<Context>)
    ensures { contexts.new ≡ with_context contexts.old slot context }
{
    contexts[usize::from(slot.number())] = context;
}

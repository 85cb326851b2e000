//! The target of commands.

ghost use Rattle.std.specs.Prelude.{◌≡◌, ◌<◌, Some, None};
ghost use Rattle.std.specs.Bool.{OnTrue, OnFalse};
ghost use Rattle.rv_word.specs.Cases.{option_case};
ghost use Rattle.rv_memory.specs.Blocks.{no_block};
ghost use Rattle.rv_debug.specs.Steps.{no_steps, run};
ghost use Rattle.rv_debug.specs.BothBenches.{TargetsEquivExcept, can_scramble_in, region_in, scrambled_in};
ghost use Rattle.rv_debug.specs.Targets.{selected_of, hart_of, harts_of, memory_of, pc_of, target_stepped, with_selected, register_set, timer_set, poked, IsBare, HostContextsAreLegalIn, TargetInvariant};

use crate::addresses::Addresses;
use crate::selected_hart::SelectedHart;
use crate::steps::{Ran, run_steps};
use rv_fast_path::Machine;
use rv_memory::Ram;
use rv_monitor::{Block, Slot};
use rv_pmp::Mode;
use rv_state::{Csrs, Regs};
use rv_word::Reg;

/// The machine that a bench steps, shows and changes.
#[derive(Drop, Debug)]
pub enum Target {
    /// A bare machine.
    Bare(Machine),
    /// A monitored machine with a selected hart, which commands work on.
    Monitored(SelectedHart),
}

impl Target {
    /// Establishes the invariant of a monitored machine, and that the host's saved context of each hart is as a hart stores it. Has no effect.
    pub(crate) fn invariant(&self)
        ensures monitor { TargetInvariant self.now }
        ensures legal { HostContextsAreLegalIn self.now }
    {
        if let Target::Monitored(selected) = self {
            selected.machine.invariant();
        }
    }

    /// Returns the integer registers of the selected hart.
    pub(crate) fn regs(&self) -> &Regs
        ensures { result.now ≡ (hart_of self.now).regs }
    {
        match self {
            Target::Bare(machine) => machine.regs(),
            Target::Monitored(selected) => selected.machine.regs(selected.hart),
        }
    }

    /// Returns the CSRs of the selected hart.
    pub(crate) fn csrs(&self) -> &Csrs
        ensures { result.now ≡ (hart_of self.now).csrs }
    {
        match self {
            Target::Bare(machine) => machine.csrs(),
            Target::Monitored(selected) => selected.machine.csrs(selected.hart),
        }
    }

    /// Returns the memory.
    pub(crate) fn ram(&self) -> &Ram
        ensures { result.now ≡ memory_of self.now }
    {
        match self {
            Target::Bare(machine) => machine.ram(),
            Target::Monitored(selected) => selected.machine.ram(),
        }
    }

    /// Returns the region of a slot, if its enclave is live.
    pub(crate) fn region(&self, slot: Slot) -> Option<Block>
        ensures { option_case result no_block (λ block. block) ≡ region_in slot self.now }
    {
        match self {
            Target::Bare(_) => None,
            Target::Monitored(selected) => selected
                .machine
                .table()
                .get(slot)
                .map(|info| info.region),
        }
    }

    /// Returns the number of harts: 1 or 2.
    pub(crate) fn harts(&self) -> u8
        ensures count { result ≡ harts_of self.now }
        ensures some { 0 < result }
    {
        match self {
            Target::Bare(_) => 1,
            Target::Monitored(selected) => selected.machine.harts(),
        }
    }

    /// Returns the number of the selected hart. The target has a hart with this number.
    pub(crate) fn selected(&self) -> u8
        ensures selected { result ≡ selected_of self.now }
        ensures has { result < harts_of self.now }
        ensures step_scheduled { with_selected result self.now ≡ self.now }
    {
        match self {
            Target::Bare(_) => 0,
            Target::Monitored(selected) => selected.hart,
        }
    }

    /// Selects a hart.
    pub(crate) fn select(&mut self, hart: u8)
        requires { hart < harts_of self.old }
        ensures step_scheduled { self.new ≡ with_selected hart self.old }
        ensures harts { harts_of self.new ≡ harts_of self.old }
    {
        match self {
            Target::Bare(_) => {}
            Target::Monitored(selected) => selected.hart = hart,
        }
    }

    /// Returns the address of the next instruction of a hart.
    pub(crate) fn pc_at(&self, hart: u8) -> u32
        requires { hart < harts_of self.now }
        ensures { result ≡ pc_of (with_selected hart self.now) }
    {
        match self {
            Target::Bare(machine) => machine.pc(),
            Target::Monitored(selected) => selected.machine.pc(hart),
        }
    }

    /// Returns the mode of a hart.
    pub(crate) fn mode_at(&self, hart: u8) -> Mode
        requires { hart < harts_of self.now }
        ensures { result ≡ (hart_of (with_selected hart self.now)).mode }
    {
        match self {
            Target::Bare(machine) => machine.mode(),
            Target::Monitored(selected) => selected.machine.mode(hart),
        }
    }

    /// Writes a word to a register of the selected hart.
    pub(crate) fn set_reg(&mut self, reg: Reg, value: u32)
        ensures { self.new ≡ register_set self.old reg value }
    {
        match self {
            Target::Bare(machine) => machine.regs_mut().set(reg, value),
            Target::Monitored(selected) => selected.machine.set_reg(selected.hart, reg, value),
        }
    }

    /// Raises or lowers the timer line of the selected hart.
    pub(crate) fn set_timer(&mut self, raised: bool)
        ensures { self.new ≡ timer_set self.old raised }
    {
        match self {
            Target::Bare(machine) => machine.csrs_mut().set_timer(raised),
            Target::Monitored(selected) => selected.machine.set_timer(selected.hart, raised),
        }
    }

    /// Writes a byte to memory, and returns whether its address is in RAM. If it is not, nothing changes.
    pub(crate) fn poke(&mut self, address: u32, byte: u8) -> bool
        ensures done { OnTrue result (poked self.old address byte ≡ Some self.new) }
        ensures outside { OnFalse result (poked self.old address byte ≡ None) }
        ensures kept { OnFalse result (self.new ≡ self.old) }
    {
        match self {
            Target::Bare(machine) => machine.ram_mut().poke(address, byte),
            Target::Monitored(selected) => selected.machine.poke(address, byte),
        }
    }

    /// Complements each byte of the region of a slot and x1 to x31 of its saved context. Returns whether the slot's enclave is live and does not
    /// run; if not, nothing changes.
    pub(crate) fn scramble(&mut self, slot: Slot) -> bool
        ensures asked { result ≡ can_scramble_in slot self.old }
        ensures meaning { OnTrue result (self.new ≡ scrambled_in slot self.old) }
        ensures same { OnFalse result (self.new ≡ self.old) }
        ensures equivalent { OnTrue result (TargetsEquivExcept slot self.old self.new) }
    {
        match self {
            Target::Bare(_) => false,
            Target::Monitored(selected) => selected.machine.scramble(slot),
        }
    }

    /// Executes steps until one accesses a watched byte, all are executed, or the next instruction is at a breakpoint.
    #[inline(always)]
    pub(crate) fn run(&mut self, count: u32, breaks: &Addresses, watches: &Addresses) -> Ran
        ensures run { run target_stepped pc_of breaks.now watches.now count (no_steps self.old) ≡ record { state = self.new; ran = result } }
        ensures bare { IsBare self.old → result.entered ≡ 0 }
    {
        match self {
            Target::Bare(machine) => run_bare(machine, count, breaks, watches),
            Target::Monitored(selected) => run_monitored(selected, count, breaks, watches),
        }
    }
}

/// Executes the steps of a bare machine, which enter no enclave.
fn run_bare(machine: &mut Machine, count: u32, breaks: &Addresses, watches: &Addresses) -> Ran
    ensures run { run target_stepped pc_of breaks.now watches.now count (no_steps (Target.Bare machine.old)) ≡ record { state = Target.Bare machine.new; ran = result } }
    ensures none { result.entered ≡ 0 }
{
    run_steps(machine, count, breaks, watches)
}

/// Executes the steps of the selected hart of a monitored machine.
fn run_monitored(
    selected: &mut SelectedHart,
    count: u32,
    breaks: &Addresses,
    watches: &Addresses,
) -> Ran
    ensures { run target_stepped pc_of breaks.now watches.now count (no_steps (Target.Monitored selected.old)) ≡ record { state = Target.Monitored selected.new; ran = result } }
{
    run_steps(selected, count, breaks, watches)
}

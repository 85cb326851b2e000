//! The machine: a hart, its memory and its decode cache.

ghost use Rattle.std.specs.Prelude.{◌≡◌, ◌%◌, ◌≤◌};

use crate::decode_cache::BoxedCache;
use crate::fast::run_fast;
use crate::limits::Limits;
use rv_hart::{Hart, StepOutcome};
use rv_memory::Ram;
use rv_pmp::Mode;
use rv_state::{Csrs, Regs};
use std::marker::Model;

/// A hart, its memory, and possibly a decode cache, which affects no step.
#[derive(Drop, Debug)]
pub struct Machine {
    hart: Hart,
    ram: Ram,
    decode_cache: BoxedCache,
}

impl Model for Machine {
    ghost use Rattle.rv_hart.specs.Machine.{Machine};

    ghost Value = { Machine };

    ghost view = { λ machine. record { hart = machine.hart; memory = machine.ram } };
}

impl Machine {
    ghost use Rattle.std.specs.Prelude.{◌≡◌, ◌%◌, ◌≤◌};
    ghost use Rattle.std.specs.Borrow.{sem};
    ghost use Rattle.rv_fast_path.specs.FastSteps.{FastSteps};
    ghost use Rattle.rv_state.specs.Counters.{counted};
    ghost use Rattle.rv_hart.specs.Hart.{at_reset};
    ghost use Rattle.rv_fast_path.specs.Lending.{MachineLendsRegs, MachineLendsCsrs, MachineLendsRam};
    ghost use Rattle.rv_hart.specs.Step.{step};
    ghost use Rattle.rv_hart.specs.StepLaws.{ObeysHartLaws};

    /// Returns a machine with this memory, whose hart is at reset with pc at the entry address, in this mode. It has no decode cache.
    pub fn new(ram: Ram, entry: u32, mode: Mode) -> Self
        requires { entry % 4 ≡ 0 }
        ensures { result ≡ record { hart = at_reset entry mode; memory = ram } }
    {
        Machine {
            hart: Hart::new(entry, mode),
            ram,
            decode_cache: BoxedCache::none(),
        }
    }

    /// Gives the machine a decode cache for fast steps.
    pub fn set_decode_cache(&mut self, cache: BoxedCache)
        ensures { self.new ≡ self.old }
    {
        self.decode_cache = cache;
    }

    /// Executes one step: takes an interrupt, executes the instruction at pc, or takes its trap (Unprivileged ISA, chapters 2, 7 and 9;
    /// Privileged Architecture, sections 3.1.6 to 3.1.16, 3.3 and 4.2.1). It never fails, and allocates no memory.
    ///
    /// The clause `meaning` defines the step completely, and `laws` lists properties of every step, as for [`Hart::step`].
    #[inline(always)]
    pub fn step(&mut self) -> StepOutcome
        ensures meaning { step self.old ≡ record { state = self.new; outcome = result } }
        ensures laws { ObeysHartLaws self.old (record { state = self.new; outcome = result }) }
    {
        self.step_at::<Self>()
    }

    /// Executes one step, as [`Machine::step`] does. Each `Site` has its own copy of the code, as for [`Hart::step_at`].
    #[inline(always)]
    pub fn step_at<Site>(&mut self) -> StepOutcome
        ensures meaning { step self.old ≡ record { state = self.new; outcome = result } }
        ensures laws { ObeysHartLaws self.old (record { state = self.new; outcome = result }) }
    {
        self.hart.step_at::<Site>(&mut self.ram)
    }

    /// Executes at most `count` steps, as [`run_fast`] does, and returns how many were executed. No step traps or accesses a byte outside
    /// the limits.
    #[inline(always)]
    pub fn run_fast(&mut self, limits: &Limits, count: u32) -> u32
        ensures count { result ≤ count }
        ensures steps { FastSteps limits.now result self.old self.new }
        ensures counters { self.new.hart.csrs ≡ counted result self.old.hart.csrs }
        ensures mode { self.new.hart.mode ≡ self.old.hart.mode }
    {
        run_fast(
            &mut self.hart,
            &mut self.ram,
            &mut self.decode_cache,
            limits,
            count,
        )
    }

    /// Returns the address of the next instruction, a multiple of 4.
    pub fn pc(&self) -> u32
        ensures value { result ≡ self.now.hart.pc }
        ensures aligned { result % 4 ≡ 0 }
    {
        self.hart.pc()
    }

    /// Returns the mode.
    pub fn mode(&self) -> Mode
        ensures { result ≡ self.now.hart.mode }
    {
        self.hart.mode()
    }

    /// Sets the address of the next instruction, and the mode.
    pub fn set_pc(&mut self, pc: u32, mode: Mode)
        requires { pc % 4 ≡ 0 }
        ensures { self.new ≡ record self.old { hart = record self.old.hart { pc = pc; mode = mode } } }
    {
        self.hart.set_pc(pc, mode);
    }

    /// Returns the integer registers.
    pub fn regs(&self) -> &Regs
        ensures { result.now ≡ self.now.hart.regs }
    {
        self.hart.regs()
    }

    /// Returns the integer registers, for writing.
    pub fn regs_mut(&mut self) -> &mut Regs
        ensures* writes_back { sem 𝓛 (MachineLendsRegs self.entry result) }
        ensures value { result.now ≡ self.old.hart.regs }
    {
        self.hart.regs_mut()
    }

    /// Returns the control and status registers.
    pub fn csrs(&self) -> &Csrs
        ensures { result.now ≡ self.now.hart.csrs }
    {
        self.hart.csrs()
    }

    /// Returns the control and status registers, for writing.
    pub fn csrs_mut(&mut self) -> &mut Csrs
        ensures* writes_back { sem 𝓛 (MachineLendsCsrs self.entry result) }
        ensures value { result.now ≡ self.old.hart.csrs }
    {
        self.hart.csrs_mut()
    }

    /// Returns the memory.
    pub fn ram(&self) -> &Ram
        ensures { result.now ≡ self.now.memory }
    {
        &self.ram
    }

    /// Returns the memory, for writing.
    pub fn ram_mut(&mut self) -> &mut Ram
        ensures* writes_back { sem 𝓛 (MachineLendsRam self.entry result) }
        ensures value { result.now ≡ self.old.memory }
    {
        &mut self.ram
    }
}

//! The bench: a machine and the debugger's state.

use crate::addresses::Addresses;
use crate::enclaves::push_enclaves;
use crate::execute::{
    execute_access, execute_csr, execute_dis, execute_hart, execute_mem, execute_poke,
    execute_removal, execute_run, execute_sched, execute_setreg, execute_timer,
};
use crate::reply::{push_fault, push_pmp, push_register, push_registers, push_set};
use crate::selected_hart::SelectedHart;
use crate::target::Target;
use rv_fast_path::Machine;
use rv_monitor::{MonitoredMachine, Slot};
use rv_script::{Command, parse};
use rv_text::Reply;
use std::fmt;
use std::marker::Model;

/// A target under a debugger, with its breakpoints and watchpoints.
#[derive(Drop)]
pub struct Bench {
    target: Target,
    breaks: Addresses,
    watches: Addresses,
}

impl Model for Bench {
    ghost use Rattle.rv_debug.specs.BenchState.{BenchState};

    ghost Value = { BenchState };

    ghost view = { λ bench. record { target = bench.target; breaks = bench.breaks; watches = bench.watches } };
}

impl Bench {
    ghost use Rattle.std.specs.Prelude.{◌≡◌, ℕ, true, false, List, [], take};
    ghost use Rattle.arrayvec.specs.ArrayVec.{array_vec_len};
    ghost use Rattle.rv_text.specs.GoodLines.{significant_bytes};
    ghost use Rattle.rv_debug.specs.Execute.{execute, execute_line, only_shows};
    ghost use Rattle.rv_debug.specs.BenchState.{bare, monitored};
    ghost use Rattle.rv_debug.specs.Isolation.{ReportsAccess, ChangesMemory, PreservesUndisturbed, PreservesHarts};
    ghost use Rattle.rv_debug.specs.Targets.{IsBare, HostContextsAreLegalIn, TargetInvariant};
    ghost use Rattle.rv_debug.specs.BothBenches.{BenchesEquivExcept, RunsOnNoHart, can_scramble, is_blind, scrambled};

    /// Returns a bench with the given machine, and no breakpoint or watchpoint.
    pub fn bare(machine: Machine) -> Self
        ensures { result ≡ bare machine }
    {
        Bench::over(Target::Bare(machine))
    }

    /// Returns a bench with the given monitored machine, hart 0 selected, and no breakpoint or watchpoint.
    pub fn monitored(machine: MonitoredMachine) -> Self
        ensures { result ≡ monitored machine }
    {
        Bench::over(Target::Monitored(SelectedHart { machine, hart: 0 }))
    }

    /// Returns a bench with the given target, and no breakpoint or watchpoint.
    fn over(target: Target) -> Self
        ensures { result ≡ record { target = target; breaks = []; watches = [] } }
    {
        Bench {
            target,
            breaks: Addresses::new(),
            watches: Addresses::new(),
        }
    }

    /// Establishes the invariant of a bench. Has no effect. It states nothing about a bare bench. For a monitored bench:
    /// - `monitor`: the table of enclaves is valid. For each hart, the PMP entries and mie are those of the table and its world. Its mode is S
    ///   or U, and MIE, MPRV, TVM, TW and TSR are 0.
    /// - `legal`: the host's saved context of each hart is as a hart stores it. `laws::host_is_restored` needs this.
    pub fn invariant(&self)
        ensures monitor { TargetInvariant self.now.target }
        ensures legal { HostContextsAreLegalIn self.now.target }
    {
        self.target.invariant();
    }

    /// Returns whether a command is blind to the enclave of a slot: it is not a mem, dis or poke with a byte in its region.
    #[tactic(auto, unfolding(crate::specs::BothBenches::is_blind))]
    pub(crate) fn is_blind(&self, slot: Slot, command: &Command) -> bool
        ensures { result ≡ is_blind slot self.now command.now }
    {
        match (command.named(), self.target.region(slot)) {
            (Some(named), Some(region)) => !named.meets(region),
            _ => true,
        }
    }

    /// Executes one command, and replaces the contents of the buffer by its reply. A refused command changes nothing of the bench.
    ///
    /// Returns a number with bit k set if the enclave of slot k was entered. It is 0 if the bench is bare.
    ///
    /// `execute` specifies the command completely. The other clauses follow from it and the invariant:
    /// - `accessible`: for S and U and bytes in RAM, `access` replies that an access is permitted if and only if it is accessible to the world
    ///   of the selected hart.
    /// - `changes`: a byte of memory changes only if it is poked, or if a step changes it. A step changes bytes accessible to its world, the
    ///   region that a destroy clears, or the bytes that a measure writes.
    /// - `integrity`: take a live enclave that is not the world of a hart that steps. If the command neither enters nor ends it, and pokes no
    ///   byte of its region, its record, region and saved context stay unchanged. The enclave may run on the other hart.
    /// - `beside`: take a hart that the command does not step, and whose registers and timer line it does not set. It keeps its world,
    ///   registers, pc and mode, and everything else except the PMP entries and mie.
    pub fn command(&mut self, command: &Command, out: &mut Reply) -> u16
        ensures execute { execute self.old command.now ≡ record { state = self.new; reply = out.new.items; entered = result } }
        ensures bare { IsBare self.old.target → result ≡ 0 }
        ensures accessible { ReportsAccess self.old.target command.now }
        ensures changes { ChangesMemory self.old command.now self.new }
        ensures integrity { PreservesUndisturbed self.old command.now self.new }
        ensures beside { PreservesHarts self.old command.now self.new }
    {
        self.invariant();
        self.target.selected();
        self.execute(command, out)
    }

    /// Executes one command, and replies.
    #[tactic(auto, unfolding(crate::specs::Execute::execute))]
    fn execute(&mut self, command: &Command, out: &mut Reply) -> u16
        ensures execute { execute self.old command.now ≡ record { state = self.new; reply = out.new.items; entered = result } }
        ensures bare { IsBare self.old.target → result ≡ 0 }
    {
        out.clear();
        match *command {
            Command::Blank => {}
            Command::Step(count) => {
                let none = Addresses::new();
                return execute_run(&mut self.target, count, &none, &none, out);
            }
            Command::Run(count) => {
                return execute_run(&mut self.target, count, &self.breaks, &self.watches, out);
            }
            Command::Break(address) => push_set(out, self.breaks.insert(address)),
            Command::Clear(address) => execute_removal(&mut self.breaks, address, out),
            Command::Watch(address) => push_set(out, self.watches.insert(address)),
            Command::Unwatch(address) => execute_removal(&mut self.watches, address, out),
            Command::SetReg(reg, value) => execute_setreg(&mut self.target, reg, value, out),
            Command::Poke(address, byte) => execute_poke(&mut self.target, address, byte, out),
            Command::Timer(raised) => execute_timer(&mut self.target, raised, out),
            Command::Hart(hart) => execute_hart(&mut self.target, hart, out),
            Command::Sched(schedule) => return execute_sched(&mut self.target, &schedule, out),
            _ => self.show(command, out),
        }
        0
    }

    /// Replies to a command that only shows something. Nothing changes.
    #[tactic(auto, unfolding(crate::specs::Execute::execute))]
    fn show(&self, command: &Command, out: &mut Reply)
        requires kind { only_shows command.now ≡ true }
        requires empty { array_vec_len out.old ≡ 0 }
        ensures { execute self.now command.now ≡ record { state = self.now; reply = out.new.items; entered = 0 } }
    {
        match *command {
            Command::Reg(reg) => push_register(out, reg, self.target.regs().get(reg)),
            Command::Regs => push_registers(
                out,
                self.target.regs(),
                self.target.pc_at(self.target.selected()),
            ),
            Command::Csr(csr) => execute_csr(&self.target, csr, out),
            Command::Mem(address, count) => execute_mem(&self.target, address, count, out),
            Command::Dis(address) => execute_dis(&self.target, address, out),
            Command::Pmp => push_pmp(out, self.target.csrs().pmp()),
            Command::Enclaves => push_enclaves(out, &self.target),
            Command::Access {
                mode,
                access,
                address,
                width,
            } => execute_access(&self.target, mode, access, address, width, out),
            _ => {}
        }
    }

    /// Complements the private state of the enclave of a slot. Each byte b of its region becomes 255 - b. Each of x1 to x31 in its saved
    /// context, w, becomes FFFFFFFF - w, even if the enclave has exited. Returns `false`, and changes nothing, if and only if the slot is free,
    /// its enclave runs, or the bench is bare.
    ///
    /// `asked`, `meaning` and `same` specify the call completely. `equivalent` states that the bench is equivalent to the one before except for
    /// the slot's enclave. `not_running` states that this enclave runs on no hart.
    pub fn scramble(&mut self, slot: Slot) -> bool
        ensures asked { result ≡ can_scramble slot self.old }
        ensures meaning { result ≡ true → self.new ≡ scrambled slot self.old }
        ensures same { result ≡ false → self.new ≡ self.old }
        ensures equivalent { result ≡ true → BenchesEquivExcept slot self.old self.new }
        ensures not_running { result ≡ true → RunsOnNoHart slot self.old.target }
    {
        self.invariant();
        self.target.scramble(slot)
    }

    /// Executes the command of a line, given without its line ending, or replies with its first error and changes nothing. Replaces the contents
    /// of the buffer by the reply. Returns what `command` returns, and 0 for an error. Every line that begins with the same 121 bytes has the
    /// same effect and reply.
    #[tactic(auto, using(crate::proofs::Execution::execute_line_prefix), unfolding(crate::specs::Execute::execute_line))]
    pub fn execute_line(&mut self, line: &[u8], out: &mut Reply) -> u16
        ensures execute { execute_line self.old line.now ≡ record { state = self.new; reply = out.new.items; entered = result } }
        ensures prefix { (other : List ℕ) → take significant_bytes other ≡ take significant_bytes line.now
            → execute_line self.old other ≡ execute_line self.old line.now }
        ensures bare { IsBare self.old.target → result ≡ 0 }
    {
        match parse(line) {
            Ok(command) => self.command(&command, out),
            Err(fault) => {
                out.clear();
                push_fault(out, fault);
                0
            }
        }
    }
}

impl fmt::Debug for Bench {
    /// Writes only the name. The replies to commands show the state.
    fn fmt<W: fmt::Write>(&self, f: &mut fmt::Formatter<W>) -> fmt::Result {
        f.debug_struct("Bench").finish_non_exhaustive()
    }
}

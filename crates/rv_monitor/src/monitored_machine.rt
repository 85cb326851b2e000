//! The monitored machine.

ghost use Rattle.std.specs.Prelude.{◌≡◌, ◌<◌, ◌≤◌, ◌%◌, length, map, slice_set, take};
ghost use Rattle.rv_state.specs.SContexts.{KeepsOwn};
ghost use Rattle.rv_monitor.specs.Debugger.{reg_set};
ghost use Rattle.rv_monitor.specs.FastSteps.{FastSteps};
ghost use Rattle.rv_monitor.specs.MonitoredMachine.{AreOthersUnlocked, HostContextIsLegal, FullInvariant, HartInvariant, machine_of_parts, hart_state_in, hart_states_at_start, reprogrammed, timer_line_set};
ghost use Rattle.rv_monitor.specs.Step.{monitored_step, step_of};

use crate::handler::{handle, is_redirected, return_to};
use crate::hart_state::{HARTS, HartState};
use crate::layout::program_pmp;
use crate::outcome::Outcome;
use rv_enclaves::{SLOT_COUNT, Shared, Slot, Table, World};
use rv_fast_path::{BoxedCache, Limits, run_fast};
use rv_hart::Hart;
use rv_memory::{Harts, Ram};
use rv_pmp::Mode;
use rv_state::{Csrs, Regs};
use rv_word::Reg;
use std::array::from_fn;
use std::fmt;
use std::marker::Model;

/// Establishes that the S-mode CSRs of a hart have values that a hart can store, and that a context saved from these CSRs has such values. Has no
/// effect.
#[inline(always)]
const fn keeps_own(csrs: &Csrs)
    ensures { KeepsOwn csrs.now }
{
    let _ = csrs.s_context();
}

/// Executes one step of the hart of a `HartState` over the shared state.
#[inline(always)]
#[tactic(auto, unfolding(crate::specs::Step::monitored_step))]
fn step_hart<Site>(hart_state: &mut HartState, shared: &mut Shared) -> Outcome
    requires reprogrammed { HartInvariant shared.old.table hart_state.old }
    requires stored { HostContextIsLegal hart_state.old }
    ensures meaning { monitored_step (record { hart_state = hart_state.old; shared = shared.old })
        ≡ record { state = record { hart_state = hart_state.new; shared = shared.new }; outcome = result } }
    ensures legal { HostContextIsLegal hart_state.new }
{
    let step = hart_state.hart.step_at::<Site>(&mut shared.memory);
    match step.trap {
        None => Outcome {
            step,
            entered: None,
        },
        Some(trap) => {
            keeps_own(hart_state.hart.csrs());
            let next = handle(hart_state, shared, trap);
            return_to(&mut hart_state.hart, next.pc, next.mode);
            Outcome {
                step,
                entered: next.entered,
            }
        }
    }
}

/// Programs the PMP entries and mie of every hart except `hart`, for a table and the world of each hart. `hart` itself is already programmed.
///
/// The loop is a function of its own, so that a step of a machine with one hart only tests the number of harts.
#[inline(never)]
fn program_each_other(by_hart: &mut [HartState; HARTS], harts: u8, hart: u8, table: &Table)
    requires few { harts ≤ HARTS }
    requires own { reprogrammed table.now (hart_state_in by_hart.old hart) ≡ hart_state_in by_hart.old hart }
    requires unlocked { AreOthersUnlocked by_hart.old harts hart }
    ensures { take harts by_hart.new ≡ map (reprogrammed table.now) (take harts by_hart.old) }
{
    for other in 0..harts {
        if other != hart {
            let hart_state = &mut by_hart[other as usize];
            program_pmp(&mut hart_state.hart, table, &hart_state.world);
        }
    }
}

/// Programs the PMP entries and mie of every hart except `hart`, if the machine has other harts.
#[inline(always)]
fn program_other_pmp(by_hart: &mut [HartState; HARTS], harts: u8, hart: u8, table: &Table)
    requires has { hart < harts }
    requires few { harts ≤ HARTS }
    requires own { reprogrammed table.now (hart_state_in by_hart.old hart) ≡ hart_state_in by_hart.old hart }
    requires unlocked { AreOthersUnlocked by_hart.old harts hart }
    ensures { take harts by_hart.new ≡ map (reprogrammed table.now) (take harts by_hart.old) }
{
    if harts > 1 {
        program_each_other(by_hart, harts, hart, table);
    }
}

/// Establishes that the array has at least `harts` hart states. Has no effect.
#[inline(always)]
#[tactic(auto, using(crate::proofs::Held::take_length))]
const fn counts(by_hart: &[HartState; HARTS], harts: u8)
    requires { harts ≤ HARTS }
    ensures { length (take harts by_hart.now) ≡ harts }
{
    let _ = &by_hart[0];
}

/// Executes one step of a hart over the shared state. If the step traps, programs the PMP entries and mie of the other harts again. A redirected
/// trap changes neither the table nor the world of a hart, so the other harts need no reprogramming after it.
#[inline(always)]
fn step_in<Site>(
    by_hart: &mut [HartState; HARTS],
    harts: u8,
    shared: &mut Shared,
    hart: u8,
) -> Outcome
    requires has { hart < harts }
    requires few { harts ≤ HARTS }
    requires kept { FullInvariant (machine_of_parts by_hart.old harts shared.old) }
    ensures meaning { step_of hart (machine_of_parts by_hart.old harts shared.old) ≡ record { state = machine_of_parts by_hart.new harts shared.new; outcome = result } }
    ensures kept { FullInvariant (machine_of_parts by_hart.new harts shared.new) }
{
    let hart_state = &mut by_hart[hart as usize];
    let outcome = step_hart::<Site>(hart_state, shared);
    match outcome.step.trap {
        None => outcome,
        Some(trap) => {
            if is_redirected(trap.cause) {
                return outcome;
            }
            program_other_pmp(by_hart, harts, hart, &shared.table);
            outcome
        }
    }
}

/// Executes at most `count` steps of a hart over the shared state, and returns the number of steps. Each step ends without a trap and accesses
/// nothing outside the limits, so the trap handler does not run.
fn run_fast_in(
    by_hart: &mut [HartState; HARTS],
    harts: u8,
    shared: &mut Shared,
    cache: &mut BoxedCache,
    hart: u8,
    limits: &Limits,
    count: u32,
) -> u32
    requires has { hart < harts }
    requires few { harts ≤ HARTS }
    requires kept { FullInvariant (machine_of_parts by_hart.old harts shared.old) }
    ensures count { result ≤ count }
    ensures steps { FastSteps hart limits.now result (machine_of_parts by_hart.old harts shared.old) (machine_of_parts by_hart.new harts shared.new) }
    ensures kept { FullInvariant (machine_of_parts by_hart.new harts shared.new) }
{
    let hart_state = &mut by_hart[hart as usize];
    run_fast(
        &mut hart_state.hart,
        &mut shared.memory,
        cache,
        limits,
        count,
    )
}

/// Raises or lowers the timer line of a hart.
fn set_timer_in(by_hart: &mut [HartState; HARTS], hart: u8, raised: bool)
    requires { hart < HARTS }
    ensures { by_hart.new ≡ slice_set by_hart.old hart (timer_line_set raised (hart_state_in by_hart.old hart)) }
{
    let hart_state = &mut by_hart[hart as usize];
    hart_state.hart.csrs_mut().set_timer(raised);
}

/// Writes a register of a hart.
fn set_reg_in(by_hart: &mut [HartState; HARTS], hart: u8, reg: Reg, value: u32)
    requires { hart < HARTS }
    ensures { by_hart.new ≡ slice_set by_hart.old hart (reg_set reg value (hart_state_in by_hart.old hart)) }
{
    let hart_state = &mut by_hart[hart as usize];
    hart_state.hart.regs_mut().set(reg, value);
}

impl HartState {
    ghost use Rattle.rv_monitor.specs.MonitoredMachine.{hart_state_at_start, numbered_hart_state_at_start};

    /// Returns the state of a hart at reset: mode S, the PMP entries of the host, and pc at `entry`.
    fn new(entry: u32) -> Self
        requires { entry % 4 ≡ 0 }
        ensures { result ≡ hart_state_at_start entry }
    {
        let mut hart_state = HartState {
            hart: Hart::new(entry, Mode::S),
            host_context: None,
            world: World::Host,
        };
        program_pmp(&mut hart_state.hart, &Table::new(), &World::Host);
        hart_state
    }

    /// Returns the state of the hart with number `hart` at reset, which starts with this number in x10.
    fn numbered(entry: u32, hart: u32) -> Self
        requires { entry % 4 ≡ 0 }
        ensures { result ≡ numbered_hart_state_at_start entry hart }
    {
        let mut hart_state = HartState::new(entry);
        hart_state.hart.regs_mut().set(Reg::new(10), hart);
        hart_state
    }
}

/// Returns the states of all harts at reset.
fn all_at_start(entry: u32) -> [HartState; HARTS]
    requires { entry % 4 ≡ 0 }
    ensures { result ≡ hart_states_at_start HARTS entry }
{
    from_fn(|hart| HartState::numbered(entry, hart as u32))
}

/// The monitored machine: its harts, each with its world, the memory, and the monitor's state of the enclaves.
///
/// In every state `FullInvariant` holds. The table is valid, and a slot runs if and only if it is the world of one hart. For each hart, the PMP
/// entries and mie are those of the table and its world. Its mode is S or U, and MIE, MPRV, TVM, TW and TSR are 0. The host's saved context is as
/// a hart stores it.
#[derive(Drop)]
pub struct MonitoredMachine {
    /// The states of the harts, by hart number. Elements from index `harts` on are never read.
    by_hart: [HartState; HARTS],
    /// The number of harts.
    harts: u8,
    /// The state that the harts share: the memory, the table of slots, and the saved contexts of the enclaves.
    shared: Shared,
    /// The cache of decoded instructions that the fast path uses. The model of the machine does not include this cache.
    decode_cache: BoxedCache,
}

impl Model for MonitoredMachine {
    ghost use Rattle.std.specs.Prelude.{◌<◌, ◌≤◌};
    ghost use Rattle.rv_monitor.specs.declared.hart_state.TheConstants.{HARTS};
    ghost use Rattle.rv_monitor.specs.MonitoredMachine.{FullInvariant, MonitoredMachine, machine_of_parts};

    ghost Value = { MonitoredMachine };

    ghost view = { λ m. machine_of_parts m.by_hart m.harts m.shared };

    ghost invariant = { λ m. FullInvariant (machine_of_parts m.by_hart m.harts m.shared) × (0 < m.harts) × (m.harts ≤ HARTS) };
}

impl MonitoredMachine {
    ghost use Rattle.std.specs.Prelude.{◌≡◌, ◌<◌, ◌≤◌, ◌%◌, if◌then◌else◌, Some, None, [], ◌∷◌, false, true};
    ghost use Rattle.rv_memory.specs.Harts.{number_of_harts};
    ghost use Rattle.rv_memory.specs.Memory.{write};
    ghost use Rattle.rv_enclaves.specs.Scramble.{can_scramble};
    ghost use Rattle.rv_monitor.specs.EquivExcept.{EquivExcept};
    ghost use Rattle.rv_monitor.specs.Debugger.{with_memory, with_reg, with_timer};
    ghost use Rattle.rv_monitor.specs.FastSteps.{FastSteps};
    ghost use Rattle.rv_monitor.specs.Reset.{machine_at_reset};
    ghost use Rattle.rv_monitor.specs.Scrambled.{scrambled};
    ghost use Rattle.rv_monitor.specs.MonitoredMachine.{FullInvariant, at_start, count_of, hart_state_of};
    ghost use Rattle.rv_monitor.specs.Step.{step_of};
    ghost use Rattle.rv_monitor.specs.StepLaws.{ObeysStepLaws};

    /// Returns the machine at reset with the given memory. On each hart the host runs in mode S with pc at `entry`, and there is no enclave.
    /// Each hart starts with its number in x10. `entry` must be a multiple of 4. The machine has no decode cache. `reset` writes out each value.
    #[tactic(auto, unfolding(crate::specs::MonitoredMachine::at_start))]
    pub fn new(ram: Ram, entry: u32, harts: Harts) -> Self
        requires { entry % 4 ≡ 0 }
        ensures start { result ≡ at_start ram entry (number_of_harts harts) }
        ensures reset { result ≡ machine_at_reset ram entry (number_of_harts harts) }
        ensures invariant { FullInvariant result }
    {
        // gives the prover the invariant of the RAM
        let _ = ram.size();
        MonitoredMachine {
            by_hart: all_at_start(entry),
            harts: harts.count(),
            shared: Shared {
                memory: ram,
                table: Table::new(),
                contexts: [None; SLOT_COUNT],
            },
            decode_cache: BoxedCache::none(),
        }
    }

    /// Gives the machine a decode cache for fast steps.
    pub fn set_decode_cache(&mut self, cache: BoxedCache)
        ensures { self.new ≡ self.old }
    {
        self.decode_cache = cache;
    }

    /// Returns the number of harts.
    pub fn harts(&self) -> u8
        ensures count { result ≡ count_of self.now }
        ensures some { 0 < result }
        ensures few { result ≤ HARTS }
    {
        counts(&self.by_hart, self.harts);
        self.harts
    }

    /// Executes one step of a hart: takes the timer interrupt, executes the instruction at pc, or takes its trap. After a trap the trap handler
    /// runs:
    /// - An ecall from S is a call. It returns its status in a0 and its result in a1.
    /// - A timer interrupt stops the enclave.
    /// - Every other exception is redirected to the world's own mode S.
    ///
    /// After the handler, the PMP entries and mie of each hart are those of the table and its world. The step never fails.
    ///
    /// `meaning` specifies the step completely. `invariant` holds in every state, and every step obeys `laws`:
    /// - `touches`: the instruction, if there is one, is fetched at pc. All bytes that it fetches, loads or stores are accessible to its world.
    /// - `changes`: a byte of memory changes only if the instruction stored it, a destroy cleared it, or a measure wrote it. A stored byte is
    ///   accessible to the world, and a byte that a measure wrote to the caller. A cleared byte is in the region of the destroyed enclave.
    /// - `integrity`: the step changes neither record, region nor saved context of a live enclave that is not the world of its hart, unless the
    ///   step enters or destroys the enclave. If the enclave runs on another hart, that hart keeps everything except the PMP entries and mie.
    /// - `keeps_others_running`: an enclave that runs on another hart is not entered, and stays live.
    /// - `noninterference`: take an enclave that is not the world of this hart, wherever it runs. Neither the outcome nor the new state depends
    ///   on its region, its saved context or its hart. If the step enters the enclave, the exception is the hart on which it then runs.
    /// - `switches`: one of three cases applies. The world continues. Or the host enters an enclave, and its context is saved as it was, to
    ///   continue after its ecall. Or an enclave exits, and the host is restored except for a0 and a1.
    /// - `reads`: a step that traps depends, in memory, only on the region that create measures. The only saved context that it depends on is
    ///   the one that is entered.
    /// - `enters`: if the step enters an enclave, the hart has exactly the saved context of the enclave, and the context of the host is saved.
    ///   Everything else is as before, except the state in the record, the PMP entries and mie, and what every trap and return change.
    /// - `records`: region, window, entry and measurement of a live enclave do not change.
    /// - `exits`: an enclave exits only by its own stop or exit, or by the timer interrupt. Every other exception of an enclave is redirected
    ///   to its own mode S, and changes nothing else.
    /// - `enclave_step`: a step of an enclave depends only on its record, its region and window, its registers and its timer line.
    /// - `timer`: if the timer line of an enclave's hart is set, the step exits to the host, and a destroy of the enclave is not refused then.
    /// - `guest_view`: the step reads no counter, and none of mepc, mcause, mtval, MPIE and MPP.
    /// - `as_created`: a new enclave is Fresh, with its first context and the measurement of its record and region. It stays in this
    ///   state until a step enters or destroys it.
    /// - `answers`: each ecall from S has the effect and the status that its numbers name, with the key in a7 and the call in a6. The statuses and
    ///   their order, the states that each call accepts, the record of a new enclave and its measurement are written out there.
    /// - `succeeds`: a call with good arguments succeeds. A create needs a free slot and returns the lowest one. A destroy needs an enclave that does
    ///   not run, a run a Fresh one, and a resume a Stopped one.
    /// - `interrupts`: a timer interrupt stops the enclave where it is, hands over 2 and 0, and clears the line.
    /// - `plain`: a step without a trap is the step of the hart without the monitor.
    /// - `host`: the host takes no interrupt, even if its timer line is set. An exception of the host that is no call goes to its own mode S.
    pub fn step(&mut self, hart: u8) -> Outcome
        requires { hart < count_of self.old }
        ensures meaning { step_of hart self.old ≡ record { state = self.new; outcome = result } }
        ensures harts { count_of self.new ≡ count_of self.old }
        ensures invariant { FullInvariant self.new }
        ensures laws { ObeysStepLaws hart self.old (record { state = self.new; outcome = result }) }
    {
        self.step_at::<Self>(hart)
    }

    /// Executes one step of a hart, as [`MonitoredMachine::step`] does. Each `Site` has its own copy of the code, as for
    /// [`rv_hart::Hart::step_at`].
    #[inline(always)]
    pub fn step_at<Site>(&mut self, hart: u8) -> Outcome
        requires { hart < count_of self.old }
        ensures meaning { step_of hart self.old ≡ record { state = self.new; outcome = result } }
        ensures harts { count_of self.new ≡ count_of self.old }
        ensures invariant { FullInvariant self.new }
        ensures laws { ObeysStepLaws hart self.old (record { state = self.new; outcome = result }) }
    {
        step_in::<Site>(&mut self.by_hart, self.harts, &mut self.shared, hart)
    }

    /// Executes at most `count` steps of a hart, and returns the number of executed steps. Each step ends in no trap and accesses nothing outside
    /// the limits. The call may stop before any step; `step` executes the rest.
    pub fn run_fast(&mut self, hart: u8, limits: &Limits, count: u32) -> u32
        requires { hart < count_of self.old }
        ensures count { result ≤ count }
        ensures steps { FastSteps hart limits.now result self.old self.new }
        ensures harts { count_of self.new ≡ count_of self.old }
        ensures invariant { FullInvariant self.new }
    {
        run_fast_in(
            &mut self.by_hart,
            self.harts,
            &mut self.shared,
            &mut self.decode_cache,
            hart,
            limits,
            count,
        )
    }

    /// Establishes the invariant. Has no effect.
    pub fn invariant(&self)
        ensures invariant { FullInvariant self.now }
        ensures first { 0 < count_of self.now }
    {
        // this call brings the invariant of every monitored machine into scope
        counts(&self.by_hart, self.harts);
    }

    /// Returns the enclave table, by slot.
    pub fn table(&self) -> &Table
        ensures { result.now ≡ self.now.shared.table }
    {
        &self.shared.table
    }

    /// Returns the memory, with every region in it.
    pub fn ram(&self) -> &Ram
        ensures { result.now ≡ self.now.shared.memory }
    {
        &self.shared.memory
    }

    /// Returns the state of a hart.
    #[inline(always)]
    #[tactic(auto, using(crate::proofs::Held::represented_hart_state, crate::proofs::Held::is_used_element))]
    fn hart_state(&self, hart: u8) -> &HartState
        requires { hart < count_of self.now }
        ensures { result.now ≡ hart_state_of hart self.now }
    {
        &self.by_hart[hart as usize]
    }

    /// Returns the world that runs on a hart.
    pub fn world(&self, hart: u8) -> World
        requires { hart < count_of self.now }
        ensures { result ≡ (hart_state_of hart self.now).world }
    {
        self.hart_state(hart).world
    }

    /// Returns the integer registers of the world that runs on a hart.
    pub fn regs(&self, hart: u8) -> &Regs
        requires { hart < count_of self.now }
        ensures { result.now ≡ (hart_state_of hart self.now).hart.regs }
    {
        self.hart_state(hart).hart.regs()
    }

    /// Returns the CSRs of a hart, including the PMP entries.
    pub fn csrs(&self, hart: u8) -> &Csrs
        requires { hart < count_of self.now }
        ensures { result.now ≡ (hart_state_of hart self.now).hart.csrs }
    {
        self.hart_state(hart).hart.csrs()
    }

    /// Returns the address of the next instruction of a hart, a multiple of 4.
    #[inline(always)]
    pub fn pc(&self, hart: u8) -> u32
        requires { hart < count_of self.now }
        ensures { result ≡ (hart_state_of hart self.now).hart.pc }
    {
        self.hart_state(hart).hart.pc()
    }

    /// Returns the mode of a hart, S or U.
    pub fn mode(&self, hart: u8) -> Mode
        requires { hart < count_of self.now }
        ensures { result ≡ (hart_state_of hart self.now).hart.mode }
    {
        self.hart_state(hart).hart.mode()
    }

    /// Raises or lowers the timer line of a hart. A raised line stops the enclave that runs there before its next instruction.
    pub fn set_timer(&mut self, hart: u8, raised: bool)
        requires { hart < count_of self.old }
        ensures meaning { self.new ≡ with_timer hart self.old raised }
        ensures invariant { FullInvariant self.new }
    {
        set_timer_in(&mut self.by_hart, hart, raised);
    }

    /// Writes a register of the world that runs on a hart, for a debugger. A write to x0 has no effect.
    pub fn set_reg(&mut self, hart: u8, reg: Reg, value: u32)
        requires { hart < count_of self.old }
        ensures meaning { self.new ≡ with_reg hart self.old reg value }
        ensures invariant { FullInvariant self.new }
    {
        set_reg_in(&mut self.by_hart, hart, reg, value);
    }

    /// Writes a byte for a debugger, whichever world owns the memory. Returns `false`, and changes nothing, if and only if the address is not in
    /// RAM.
    pub fn poke(&mut self, addr: u32, byte: u8) -> bool
        ensures done { (if result then Some self.new.shared.memory else None) ≡ write self.old.shared.memory addr (byte ∷ []) }
        ensures rest { self.new ≡ with_memory self.old self.new.shared.memory }
        ensures same { result ≡ false → self.new ≡ self.old }
        ensures invariant { FullInvariant self.new }
    {
        self.shared.memory.poke(addr, byte)
    }

    /// Complements the private state of the enclave of a slot that runs on no hart. Each byte b of its region becomes 255 - b. Each of x1 to x31
    /// in its saved context, w, becomes FFFFFFFF - w. Returns `false`, and changes nothing, if and only if the slot's enclave is not live or is
    /// running. An enclave that has exited still has a context.
    ///
    /// `asked` and `meaning` specify the call completely. `equivalent` states that nothing outside the private state of the slot's enclave
    /// changes.
    pub fn scramble(&mut self, slot: Slot) -> bool
        ensures asked { result ≡ can_scramble self.old.shared.table slot }
        ensures meaning { result ≡ true → self.new ≡ scrambled self.old slot }
        ensures same { result ≡ false → self.new ≡ self.old }
        ensures equivalent { EquivExcept slot self.old self.new }
        ensures invariant { FullInvariant self.new }
    {
        self.shared.scramble(slot)
    }
}

impl fmt::Debug for MonitoredMachine {
    /// Writes only the name, since a memory is too long to print. The accessors return the contents.
    fn fmt<W: fmt::Write>(&self, f: &mut fmt::Formatter<W>) -> fmt::Result {
        f.debug_struct("MonitoredMachine").finish_non_exhaustive()
    }
}

//! Schedules: steps of two harts in a given order, and a summary of them.

ghost use Rattle.std.specs.Prelude.{◌≡◌, ◌<◌, ◌≤◌, ◌+◌, ◌^◌, length, map, true};
ghost use Rattle.rv_debug.specs.ScheduledSteps.{schedule_start, scheduled_steps, with_hart_step, with_own_step};
ghost use Rattle.rv_debug.specs.Targets.{harts_of, target_stepped, with_selected, IsBare};
ghost use Rattle.rv_script.specs.Schedules.{harts_in, has_all, hart_of_digit};

use crate::selected_hart::SelectedHart;
use crate::steps::with_slot;
use crate::target::Target;
use rv_fast_path::Machine;
use rv_hart::Trap;
use rv_monitor::{Outcome, Slot};
use rv_script::{Schedule, hart};

/// A target whose harts execute steps in turn.
trait Harts {
    ghost use Rattle.rv_debug.specs.Prelude.{Target};

    // The target.
    ghost as_target: { Self → Target };

    /// Executes one step of a hart, and selects the hart.
    fn step_hart(&mut self, hart: u8) -> Outcome
        requires { hart < harts_of (as_target self.old) }
        ensures { target_stepped (with_selected hart (as_target self.old))
            ≡ record { state = as_target self.new; outcome = result.step; entered = result.entered } };
}

impl Harts for Machine {
    ghost use Rattle.rv_debug.specs.Prelude.{Bare};

    ghost as_target = { Bare };

    #[inline(always)]
    fn step_hart(&mut self, _hart: u8) -> Outcome {
        Outcome {
            step: self.step_at::<Scheduled>(),
            entered: None,
        }
    }
}

impl Harts for SelectedHart {
    ghost use Rattle.rv_debug.specs.Prelude.{Monitored};

    ghost as_target = { Monitored };

    #[inline(always)]
    fn step_hart(&mut self, hart: u8) -> Outcome {
        self.hart = hart;
        self.machine.step_at::<Self>(hart)
    }
}

/// A summary of the steps of one hart.
#[derive(Clone, Copy)]
pub(crate) struct HartRan {
    /// The number of steps.
    pub(crate) steps: u32,
    /// The last trap, an interrupt included.
    pub(crate) trap: Option<Trap>,
}

impl HartRan {
    /// Adds a step, which may have trapped.
    #[inline(always)]
    fn add(&mut self, trap: Option<Trap>)
        requires { self.old.steps < 2 ^ 31 }
        ensures { self.new ≡ with_own_step trap self.old }
    {
        self.steps += 1;
        self.trap = trap.or(self.trap);
    }
}

/// A summary of the steps of two harts.
#[derive(Clone, Copy)]
pub(crate) struct Scheduled {
    /// The steps of hart 0.
    pub(crate) first: HartRan,
    /// The steps of hart 1.
    pub(crate) second: HartRan,
    /// The slots of the enclaves that were entered: bit k is set for slot k.
    pub(crate) entered: u16,
}

/// The summary before the first step.
const NOTHING_SCHEDULED: Scheduled = Scheduled {
    first: HartRan {
        steps: 0,
        trap: None,
    },
    second: HartRan {
        steps: 0,
        trap: None,
    },
    entered: 0,
};

impl Scheduled {
    /// Adds a step of a hart.
    #[inline(always)]
    fn add(&mut self, hart: u8, trap: Option<Trap>, entered: Option<Slot>)
        requires hart { hart < 2 }
        requires first { self.old.first.steps < 2 ^ 31 }
        requires second { self.old.second.steps < 2 ^ 31 }
        ensures step { self.new ≡ with_hart_step hart trap entered self.old }
        ensures first_one { self.new.first.steps ≤ self.old.first.steps + 1 }
        ensures second_one { self.new.second.steps ≤ self.old.second.steps + 1 }
    {
        if hart == 0 {
            self.first.add(trap);
        } else {
            self.second.add(trap);
        }
        self.entered = with_slot(self.entered, entered);
    }
}

/// Executes one step of the hart of each digit, in their order. This loop is apart from that of single steps, so that a step is inlined in it.
#[inline(never)]
fn run_digits<T: Harts>(target: &mut T, digits: &[u8]) -> Scheduled
    requires has { has_all (harts_of (T.as_target target.old)) (map hart_of_digit digits.now) ≡ true }
    requires few { length digits.now ≤ 64 }
    ensures { scheduled_steps (map hart_of_digit digits.now) (schedule_start (T.as_target target.old))
        ≡ record { state = T.as_target target.new; did = result } }
{
    let mut did = NOTHING_SCHEDULED;
    for digit in digits {
        let hart = hart(*digit);
        let outcome = target.step_hart(hart);
        did.add(hart, outcome.step.trap, outcome.entered);
    }
    did
}

/// Executes one step of each hart of a schedule, in its order. Breakpoints and watchpoints have no effect. Then the hart of the last step is
/// selected.
pub(crate) fn run_schedule(target: &mut Target, schedule: &Schedule) -> Scheduled
    requires { has_all (harts_of target.old) (harts_in schedule.now) ≡ true }
    ensures scheduled_steps { scheduled_steps (harts_in schedule.now) (schedule_start target.old) ≡ record { state = target.new; did = result } }
    ensures harts { harts_of target.new ≡ harts_of target.old }
    ensures bare { IsBare target.old → result.entered ≡ 0 }
{
    let digits = schedule.digits();
    match target {
        Target::Bare(machine) => run_digits(machine, digits),
        Target::Monitored(selected) => run_digits(selected, digits),
    }
}

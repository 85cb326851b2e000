//! Executes the returns from traps, and the instructions that a mode may be forbidden. (Privileged Architecture, sections 3.1.6.5, 3.3.2, 3.3.3
//! and 4.2.1.)

ghost use Rattle.std.specs.Prelude.{◌≡◌};
ghost use Rattle.rv_hart.specs.Instructions.{unless_refused as unless_refused_of};

use crate::hart::Hart;
use crate::trap::{StepOutcome, exception};
use rv_memory::Touched;
use rv_pmp::Mode;
use rv_state::Exception;

/// Returns whether a mode may execute an instruction: always in mode M, in mode S unless a bit of mstatus forbids it, never in mode U.
#[inline(always)]
const fn unless_refused(mode: Mode, refused: bool) -> bool
    ensures { result ≡ unless_refused_of mode refused }
{
    match mode {
        Mode::M => true,
        Mode::S => !refused,
        Mode::U => false,
    }
}

impl Hart {
    ghost use Rattle.std.specs.Prelude.{◌≡◌, None, true};
    ghost use Rattle.rv_hart.specs.Hart.{advanced, step_counted};
    ghost use Rattle.rv_hart.specs.Instructions.{where_allowed, unless_refused as unless_refused_of, returned_from_machine, returned_from_supervisor};
    ghost use Rattle.rv_hart.specs.Machine.{ended_in};
    ghost use Rattle.rv_state.specs.Interrupts.{is_machine};
    ghost use Rattle.rv_hart.specs.Step.{retired_or_trapped};

    /// Executes wfi.
    #[inline(always)]
    #[tactic(auto, unfolding(crate::specs::Step::retired_or_trapped))]
    pub(crate) fn wait(&mut self, word: u32, touched: Touched) -> StepOutcome
        ensures { retired_or_trapped self.old touched None
            (where_allowed (unless_refused_of self.old.mode self.old.csrs.mstatus.tw) word (advanced self.old)) ≡ ended_in self.new result }
    {
        if !unless_refused(self.mode, self.csrs.mstatus().tw) {
            return self.trap(exception(Exception::IllegalInstruction, word), touched);
        }
        self.advance_pc(touched)
    }

    /// Executes sfence.vma.
    #[inline(always)]
    #[tactic(auto, unfolding(crate::specs::Step::retired_or_trapped))]
    pub(crate) fn order_translations(&mut self, word: u32, touched: Touched) -> StepOutcome
        ensures { retired_or_trapped self.old touched None
            (where_allowed (unless_refused_of self.old.mode self.old.csrs.mstatus.tvm) word (advanced self.old)) ≡ ended_in self.new result }
    {
        if !unless_refused(self.mode, self.csrs.mstatus().tvm) {
            return self.trap(exception(Exception::IllegalInstruction, word), touched);
        }
        self.advance_pc(touched)
    }

    /// Executes mret.
    #[inline(always)]
    #[tactic(auto, unfolding(crate::specs::Step::retired_or_trapped))]
    pub(crate) fn return_from_machine(&mut self, word: u32, touched: Touched) -> StepOutcome
        ensures { retired_or_trapped self.old touched None (where_allowed (is_machine self.old.mode) word (returned_from_machine self.old))
            ≡ ended_in self.new result }
    {
        if self.mode != Mode::M {
            return self.trap(exception(Exception::IllegalInstruction, word), touched);
        }
        let (mode, pc) = self.csrs.do_mret();
        self.mode = mode;
        self.pc = pc;
        self.retire(touched)
    }

    /// Executes sret.
    #[inline(always)]
    #[tactic(auto, unfolding(crate::specs::Step::retired_or_trapped))]
    pub(crate) fn return_from_supervisor(&mut self, word: u32, touched: Touched) -> StepOutcome
        ensures { retired_or_trapped self.old touched None
            (where_allowed (unless_refused_of self.old.mode self.old.csrs.mstatus.tsr) word (returned_from_supervisor self.old)) ≡ ended_in self.new result }
    {
        if !unless_refused(self.mode, self.csrs.mstatus().tsr) {
            return self.trap(exception(Exception::IllegalInstruction, word), touched);
        }
        let (mode, pc) = self.csrs.do_sret();
        self.mode = mode;
        self.pc = pc;
        self.retire(touched)
    }
}

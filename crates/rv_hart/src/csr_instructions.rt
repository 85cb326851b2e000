//! Executes the instructions that read and change a control and status register (Unprivileged ISA, section 9.1).

ghost use Rattle.std.specs.Prelude.{◌≡◌, ◌^◌, ◌<◌, Ok, Err, Some, None, MatchResult, OnErr, if◌then◌else◌};
ghost use Rattle.rv_state.specs.Counters.{wrote};
ghost use Rattle.rv_hart.specs.CsrInstructions.{is_read as is_read_of, is_written as is_written_of, changed_word as changed_of};

use crate::hart::Hart;
use crate::trap::{StepOutcome, exception};
use rv_encoding::{CsrKind, CsrNumber, Uimm};
use rv_memory::Touched;
use rv_state::{CsrFault, Exception};
use rv_word::{Reg, and_not, or};

/// Returns whether the register is read. csrrw and csrrwi do not read it if rd is x0.
fn is_read(kind: CsrKind, rd: Reg) -> bool
    ensures { result ≡ is_read_of kind rd }
{
    match kind {
        CsrKind::Write => rd.number() != 0,
        CsrKind::Set | CsrKind::Clear => true,
    }
}

/// Returns whether the register is written. Instructions that set or clear bits do not write it if the source is 0. The source is the number of
/// rs1, or the immediate.
#[inline(always)]
fn is_written(kind: CsrKind, source: u32) -> bool
    ensures { result ≡ is_written_of kind source }
{
    match kind {
        CsrKind::Write => true,
        CsrKind::Set | CsrKind::Clear => source != 0,
    }
}

/// Returns the number of the CSR that an instruction writes, if it may be a counter or half of one. A step that writes any other register counts
/// as one that writes none.
#[inline(always)]
fn written_counter(kind: CsrKind, source: u32, csr: u16) -> Option<u16>
    ensures cycles { wrote result 0xb00 0xb80 ≡ wrote (if is_written_of kind source then Some csr else None) 0xb00 0xb80 }
    ensures retired { wrote result 0xb02 0xb82 ≡ wrote (if is_written_of kind source then Some csr else None) 0xb02 0xb82 }
{
    (is_written(kind, source) && csr / 256 == 0xb).then_some(csr)
}

/// Returns the word to write, from the old word and the operand.
fn changed(kind: CsrKind, old: u32, operand: u32) -> u32
    ensures { result ≡ changed_of kind old operand }
{
    match kind {
        CsrKind::Write => operand,
        CsrKind::Set => or(old, operand),
        CsrKind::Clear => and_not(old, operand),
    }
}

impl Hart {
    ghost use Rattle.std.specs.Prelude.{◌≡◌, Ok, Err, Some, None, MatchResult, OnErr, if◌then◌else◌, true};
    ghost use Rattle.rv_hart.specs.CsrInstructions.{csr_changed, is_written as is_written_of};
    ghost use Rattle.rv_hart.specs.Hart.{with_result, step_counted};
    ghost use Rattle.rv_hart.specs.Instructions.{unless_illegal};
    ghost use Rattle.rv_state.specs.Registers.{register};
    ghost use Rattle.rv_hart.specs.Machine.{ended_in};
    ghost use Rattle.rv_hart.specs.Step.{retired_or_trapped};

    /// Changes a control and status register by the word of an integer register.
    #[inline(always)]
    pub(crate) fn csr(
        &mut self,
        kind: CsrKind,
        rd: Reg,
        rs1: Reg,
        csr: CsrNumber,
        word: u32,
        touched: Touched,
    ) -> StepOutcome
        ensures { retired_or_trapped self.old touched (if is_written_of kind rs1 then Some csr else None)
            (unless_illegal word (csr_changed self.old kind rd rs1 (register self.old.regs rs1) csr)) ≡ ended_in self.new result }
    {
        let operand = self.regs.get(rs1);
        self.change(
            kind,
            rd,
            u32::from(rs1.number()),
            operand,
            csr,
            word,
            touched,
        )
    }

    /// Changes a control and status register by an immediate.
    #[inline(always)]
    pub(crate) fn csr_imm(
        &mut self,
        kind: CsrKind,
        rd: Reg,
        uimm: Uimm,
        csr: CsrNumber,
        word: u32,
        touched: Touched,
    ) -> StepOutcome
        ensures { retired_or_trapped self.old touched (if is_written_of kind uimm then Some csr else None)
            (unless_illegal word (csr_changed self.old kind rd uimm uimm csr)) ≡ ended_in self.new result }
    {
        let number = uimm.number();
        self.change(kind, rd, number, number, csr, word, touched)
    }

    /// Changes a control and status register. If an access is refused, the step ends in the trap of an illegal instruction. The source is the
    /// number of rs1, or the immediate.
    #[inline(always)]
    #[tactic(auto, unfolding(crate::specs::Step::retired_or_trapped))]
    fn change(
        &mut self,
        kind: CsrKind,
        rd: Reg,
        source: u32,
        operand: u32,
        csr: CsrNumber,
        word: u32,
        touched: Touched,
    ) -> StepOutcome
        ensures { retired_or_trapped self.old touched (if is_written_of kind source then Some csr else None)
            (unless_illegal word (csr_changed self.old kind rd source operand csr)) ≡ ended_in self.new result }
    {
        let inhibit = self.csrs.inhibit();
        if self
            .change_csr(kind, rd, source, operand, csr.number())
            .is_err()
        {
            return self.trap(exception(Exception::IllegalInstruction, word), touched);
        }
        let written = written_counter(kind, source, csr.number());
        self.csrs.tick_counters(true, inhibit, written);
        StepOutcome {
            trap: None,
            touched,
        }
    }

    /// Puts the old word of a control and status register into rd, and writes the changed word to the register. A refused access changes
    /// nothing.
    #[cold]
    #[inline(never)]
    #[tactic(auto, unfolding(crate::specs::CsrInstructions::csr_changed))]
    fn change_csr(
        &mut self,
        kind: CsrKind,
        rd: Reg,
        source: u32,
        operand: u32,
        csr: u16,
    ) -> Result<(), CsrFault>
        ensures done { let gives = csr_changed self.old kind rd source operand csr in
            MatchResult result (λ _. gives ≡ Ok self.new) (λ fault. gives ≡ Err fault) }
        ensures refused { OnErr result (self.new ≡ self.old) }
    {
        let old = if is_read(kind, rd) {
            self.csrs.read(csr, self.mode)?
        } else {
            0
        };
        if is_written(kind, source) {
            self.csrs
                .write(csr, changed(kind, old, operand), self.mode)?;
        }
        self.regs.set(rd, old);
        self.pc = self.pc.wrapping_add(4);
        Ok(())
    }
}

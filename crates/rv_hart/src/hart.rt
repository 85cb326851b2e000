//! One hart, and its step.

ghost use Rattle.std.specs.Prelude.{◌≡◌, ◌%◌, Ok, Err};
ghost use Rattle.rv_hart.specs.HartRecord.{Hart as HartValue};

use crate::arithmetic::{is_taken, load_value, load_width, op, op_imm, shift, store_width};
use crate::request::Request;
use crate::trap::{StepOutcome, Trap, environment_call, exception, interrupted};
use rv_encoding::{BranchKind, Instr, OpImmKind, OpKind, Shamt, ShiftKind, decode};
use rv_memory::{Ram, Span, Touched};
use rv_pmp::Mode;
use rv_state::{Cause, Csrs, Exception, Regs};
use rv_word::{Reg, Width};
use std::marker::Model;

/// A hart: its integer registers, its control and status registers, its mode, and the address of its next instruction, which is a multiple of 4.
/// The memory is separate (Unprivileged ISA, section 2.1; Privileged Architecture, section 1.2 and chapter 2).
#[derive(Drop, Debug)]
pub struct Hart {
    pub(crate) regs: Regs,
    pub(crate) csrs: Csrs,
    pub(crate) pc: u32,
    pub(crate) mode: Mode,
}

impl Model for Hart {
    ghost use Rattle.std.specs.Prelude.{◌≡◌, ◌%◌};
    ghost use Rattle.rv_hart.specs.HartRecord.{Hart as HartValue};

    ghost Value = { HartValue };

    ghost view = { λ hart. record { regs = hart.regs; csrs = hart.csrs; pc = hart.pc; mode = hart.mode } };

    ghost invariant = { λ hart. hart.pc % 4 ≡ 0 };
}

impl Hart {
    ghost use Rattle.std.specs.Prelude.{◌≡◌, ◌%◌, Some, None, Ok, Err, true, false};
    ghost use Rattle.std.specs.Borrow.{sem};
    ghost use Rattle.rv_hart.specs.HartRecord.{Hart as HartValue};
    ghost use Rattle.rv_hart.specs.Hart.{at_reset, advanced, with_result, jumped, branched, trapped, step_counted};
    ghost use Rattle.rv_hart.specs.Arithmetic.{sum_of, op_value, op_imm_value, shift_value, is_taken as is_taken_of};
    ghost use Rattle.rv_hart.specs.Instructions.{request, executed, made_even};
    ghost use Rattle.rv_hart.specs.Lending.{HartLendsRegs, HartLendsCsrs};
    ghost use Rattle.rv_state.specs.Registers.{register};
    ghost use Rattle.rv_hart.specs.Machine.{machine_of, ended_in, over, stepped};
    ghost use Rattle.rv_hart.specs.StepLaws.{ObeysHartLaws};
    ghost use Rattle.rv_hart.specs.Step.{step, from_decode, from_access, retired_or_trapped, from_execute, trap_end, retired_end, fetch_of, data_mode};

    /// Returns a hart at reset, with pc at the entry address, in this mode.
    pub fn new(entry: u32, mode: Mode) -> Self
        requires { entry % 4 ≡ 0 }
        ensures { result ≡ at_reset entry mode }
    {
        Hart {
            regs: Regs::new(),
            csrs: Csrs::new(),
            pc: entry,
            mode,
        }
    }

    /// Returns the address of the next instruction, a multiple of 4.
    pub fn pc(&self) -> u32
        ensures value { result ≡ self.now.pc }
        ensures aligned { result % 4 ≡ 0 }
    {
        self.pc
    }

    /// Returns the mode.
    pub fn mode(&self) -> Mode
        ensures { result ≡ self.now.mode }
    {
        self.mode
    }

    /// Sets the address of the next instruction, and the mode.
    pub fn set_pc(&mut self, pc: u32, mode: Mode)
        requires { pc % 4 ≡ 0 }
        ensures { self.new ≡ record self.old { pc = pc; mode = mode } }
    {
        self.pc = pc;
        self.mode = mode;
    }

    /// States the invariant of a hart: x0 is 0, and pc is a multiple of 4. It executes nothing.
    #[inline(always)]
    fn invariant(&self)
        ensures x0 { register self.now.regs 0 ≡ 0 }
        ensures aligned { self.now.pc % 4 ≡ 0 }
    {
        // gives the prover the invariants of the hart and of its registers
        let _ = &self.pc;
        let _ = self.regs.get(Reg::new(0));
    }

    /// Returns the integer registers.
    pub fn regs(&self) -> &Regs
        ensures { result.now ≡ self.now.regs }
    {
        &self.regs
    }

    /// Returns the integer registers, for writing.
    pub fn regs_mut(&mut self) -> &mut Regs
        ensures* writes_back { sem 𝓛 (HartLendsRegs self.entry result) }
        ensures value { result.now ≡ self.old.regs }
    {
        &mut self.regs
    }

    /// Returns the control and status registers.
    pub fn csrs(&self) -> &Csrs
        ensures { result.now ≡ self.now.csrs }
    {
        &self.csrs
    }

    /// Returns the control and status registers, for writing.
    pub fn csrs_mut(&mut self) -> &mut Csrs
        ensures* writes_back { sem 𝓛 (HartLendsCsrs self.entry result) }
        ensures value { result.now ≡ self.old.csrs }
    {
        &mut self.csrs
    }

    /// Executes one step over a memory: takes an interrupt, executes the instruction at pc, or takes its trap (Unprivileged ISA, chapters 2, 7
    /// and 9; Privileged Architecture, sections 3.1.6 to 3.1.16, 3.3 and 4.2.1). It never fails, and allocates no memory.
    ///
    /// The clause `meaning` defines the step completely. The clause `laws` lists properties of every step:
    /// - `x0` and `aligned`: x0 is 0, and pc is a multiple of 4.
    /// - `trap_keeps`: a trap changes only the state that every trap changes.
    /// - `mprv`: MPRV stays 0 below mode M.
    /// - `machine_parts`: from below mode M, with MPRV 0, only a trap leads to mode M. Any other step leaves the registers of mode M, the PMP
    ///   entries and the timer line unchanged.
    /// - `memory`: the memory keeps its size, and changes only in the bytes that the outcome reports as stored.
    /// - `permitted`: the PMP entries permit every byte that the outcome reports as fetched, loaded or stored, in the mode of that
    ///   access. (Privileged Architecture, sections 3.1.6.3 and 3.7.1.)
    /// - `confined`: the step depends only on the bytes of memory that the outcome reports as fetched and loaded.
    /// - `interrupt`: a trap by an interrupt is that of the pending interrupt. (Privileged Architecture, section 3.1.9.)
    /// - `below_m`: below mode M, with MPRV 0, the step reads no register of mode M and no counter. It depends on the PMP entries only by what
    ///   they permit. (Privileged Architecture, section 2.1.)
    #[inline(always)]
    pub fn step(&mut self, ram: &mut Ram) -> StepOutcome
        ensures meaning { step (machine_of self.old ram.old) ≡ stepped self.new ram.new result }
        ensures laws { ObeysHartLaws (machine_of self.old ram.old) (stepped self.new ram.new result) }
    {
        self.step_at::<Self>(ram)
    }

    /// Executes one step, as [`Hart::step`] does. Each `Site` has its own copy of the code, since the compiler inlines code of this size only if
    /// it has one caller. A loop of steps names a type of its own.
    #[inline(always)]
    pub fn step_at<Site>(&mut self, ram: &mut Ram) -> StepOutcome
        ensures meaning { step (machine_of self.old ram.old) ≡ stepped self.new ram.new result }
        ensures laws { ObeysHartLaws (machine_of self.old ram.old) (stepped self.new ram.new result) }
    {
        let outcome = self.step_once::<Site>(ram);
        self.invariant();
        outcome
    }

    /// Takes an interrupt, executes the instruction at pc, or takes its trap.
    #[inline(always)]
    #[tactic(auto, unfolding(crate::specs::Step::step, crate::specs::Step::from_fetch))]
    fn step_once<Site>(&mut self, ram: &mut Ram) -> StepOutcome
        ensures { step (machine_of self.old ram.old) ≡ stepped self.new ram.new result }
    {
        if let Some(interrupt) = self.csrs.pending_interrupt(self.mode) {
            return self.trap(interrupted(interrupt), Touched::default());
        }
        match ram.fetch(self.csrs.pmp_mut(), self.mode, self.pc) {
            Ok(word) => self.decode::<Site>(word, ram),
            Err(_) => {
                let trap = exception(Exception::InstructionAccessFault, self.pc);
                self.trap(trap, Touched::default())
            }
        }
    }

    /// Decodes the fetched word, and executes the instruction that it encodes.
    #[inline(always)]
    #[tactic(auto, unfolding(crate::specs::Step::from_decode))]
    fn decode<Site>(&mut self, word: u32, ram: &mut Ram) -> StepOutcome
        ensures { from_decode self.old ram.old word ≡ over ram.new (ended_in self.new result) }
    {
        let fetched = Touched {
            fetched: Some(Span {
                addr: self.pc,
                len: Width::Word,
            }),
            ..Touched::default()
        };
        match decode(word) {
            Some(instr) => self.access::<Site>(&instr, word, fetched, ram),
            None => self.trap(exception(Exception::IllegalInstruction, word), fetched),
        }
    }

    /// Makes the access of an instruction, and then executes the instruction.
    #[inline(always)]
    #[tactic(auto, unfolding(crate::specs::Step::from_access))]
    fn access<Site>(
        &mut self,
        instr: &Instr,
        word: u32,
        fetched: Touched,
        ram: &mut Ram,
    ) -> StepOutcome
        requires { fetched ≡ fetch_of self.old }
        ensures { from_access self.old ram.old word instr.now (request instr.now self.old) ≡ over ram.new (ended_in self.new result) }
    {
        let mode = self.data_mode();
        let (loaded, touched) = match self.request(instr) {
            Request::Nothing => (0, fetched),
            Request::Load { address, width } => {
                let Ok(number) = ram.load(self.csrs.pmp_mut(), mode, address, width) else {
                    return self.trap(exception(Exception::LoadAccessFault, address), fetched);
                };
                let loaded = Some(Span {
                    addr: address,
                    len: width,
                });
                (number, Touched { loaded, ..fetched })
            }
            Request::Store {
                address,
                width,
                value,
            } => {
                if ram
                    .store(self.csrs.pmp_mut(), mode, address, width, value)
                    .is_err()
                {
                    return self.trap(exception(Exception::StoreAccessFault, address), fetched);
                }
                let stored = Some(Span {
                    addr: address,
                    len: width,
                });
                (0, Touched { stored, ..fetched })
            }
        };
        self.execute(instr, word, loaded, touched)
    }

    /// Returns the mode in which loads and stores are checked: MPP if MPRV is set, otherwise the mode of the hart (Privileged Architecture,
    /// section 3.1.6.3).
    #[inline(always)]
    pub fn data_mode(&self) -> Mode
        ensures { result ≡ data_mode self.now }
    {
        let status = self.csrs.mstatus();
        if status.mprv { status.mpp } else { self.mode }
    }

    /// Returns the access that an instruction requests, at most one.
    #[inline(always)]
    #[tactic(auto, unfolding(crate::specs::Instructions::request))]
    fn request(&self, instr: &Instr) -> Request
        ensures { result ≡ request instr.now self.now }
    {
        match *instr {
            Instr::Load {
                kind,
                rs1,
                offset,
                ..
            } => Request::Load {
                address: self.regs.get(rs1).wrapping_add(offset.word()),
                width: load_width(kind),
            },
            Instr::Store {
                kind,
                rs1,
                rs2,
                offset,
            } => Request::Store {
                address: self.regs.get(rs1).wrapping_add(offset.word()),
                width: store_width(kind),
                value: self.regs.get(rs2),
            },
            _ => Request::Nothing,
        }
    }

    /// Executes the instruction that the word encodes, after its access was made.
    #[inline(always)]
    #[tactic(auto, unfolding(crate::specs::Instructions::executed, crate::specs::CsrInstructions::written_csr, crate::specs::Step::retired_or_trapped))]
    fn execute(&mut self, instr: &Instr, word: u32, loaded: u32, touched: Touched) -> StepOutcome
        ensures { from_execute self.old touched word instr.now loaded ≡ ended_in self.new result }
    {
        match *instr {
            Instr::Lui { rd, imm } => self.write_rd(rd, imm.word(), touched),
            Instr::Auipc { rd, imm } => self.write_pc_sum(rd, imm.word(), touched),
            Instr::Jal { rd, offset } => self.jump_by(rd, offset.word(), touched),
            Instr::Jalr { rd, rs1, offset } => self.jump_to(rd, rs1, offset.word(), touched),
            Instr::Branch {
                kind,
                rs1,
                rs2,
                offset,
            } => self.branch(kind, rs1, rs2, offset.word(), touched),
            Instr::Load { kind, rd, .. } => self.write_rd(rd, load_value(kind, loaded), touched),
            Instr::OpImm { kind, rd, rs1, imm } => {
                self.write_op_imm(kind, rd, rs1, imm.word(), touched)
            }
            Instr::ShiftImm {
                kind,
                rd,
                rs1,
                shamt,
            } => self.write_shift(kind, rd, rs1, shamt, touched),
            Instr::Op { kind, rd, rs1, rs2 } => self.write_op(kind, rd, rs1, rs2, touched),
            Instr::Store { .. } | Instr::Fence { .. } => self.advance_pc(touched),
            Instr::Csr { kind, rd, rs1, csr } => self.csr(kind, rd, rs1, csr, word, touched),
            Instr::CsrImm {
                kind,
                rd,
                uimm,
                csr,
            } => self.csr_imm(kind, rd, uimm, csr, word, touched),
            Instr::Ecall => self.trap(environment_call(self.mode), touched),
            Instr::Ebreak => self.trap(exception(Exception::Breakpoint, self.pc), touched),
            Instr::Sret => self.return_from_supervisor(word, touched),
            Instr::Mret => self.return_from_machine(word, touched),
            Instr::Wfi => self.wait(word, touched),
            Instr::SfenceVma { .. } => self.order_translations(word, touched),
        }
    }

    /// Ends the step in a trap.
    #[inline(always)]
    pub(crate) fn trap(&mut self, trap: Trap, touched: Touched) -> StepOutcome
        ensures { trap_end self.old touched trap ≡ ended_in self.new result }
    {
        self.enter_trap(trap.cause, trap.tval);
        StepOutcome {
            trap: Some(trap),
            touched,
        }
    }

    /// Enters a trap, and counts the step.
    #[cold]
    #[inline(never)]
    fn enter_trap(&mut self, cause: Cause, tval: u32)
        ensures { self.new ≡ step_counted (trapped self.old (record { cause = cause; tval = tval })) false self.old.csrs.mcountinhibit None }
    {
        let inhibit = self.csrs.inhibit();
        self.pc = self.csrs.enter_trap(self.mode, self.pc, cause, tval);
        self.mode = Mode::M;
        self.csrs.tick_counters(false, inhibit, None);
    }

    /// Ends the step of an instruction that retires and wrote no control and status register.
    #[inline(always)]
    pub(crate) fn retire(&mut self, touched: Touched) -> StepOutcome
        ensures { ended_in (step_counted self.old true self.old.csrs.mcountinhibit None) (record { trap = None; touched = touched })
            ≡ ended_in self.new result }
    {
        let inhibit = self.csrs.inhibit();
        self.csrs.tick_counters(true, inhibit, None);
        StepOutcome {
            trap: None,
            touched,
        }
    }

    /// Continues at the next instruction.
    #[inline(always)]
    pub(crate) fn advance_pc(&mut self, touched: Touched) -> StepOutcome
        ensures { retired_end self.old touched None (advanced self.old) ≡ ended_in self.new result }
    {
        self.pc = self.pc.wrapping_add(4);
        self.retire(touched)
    }

    /// Writes the result of an instruction to rd, and continues at the next instruction.
    #[inline(always)]
    fn write_rd(&mut self, rd: Reg, value: u32, touched: Touched) -> StepOutcome
        ensures { retired_end self.old touched None (with_result self.old rd value) ≡ ended_in self.new result }
    {
        self.regs.set(rd, value);
        self.advance_pc(touched)
    }

    /// Writes the sum of pc and an immediate to rd.
    #[inline(always)]
    fn write_pc_sum(&mut self, rd: Reg, imm: u32, touched: Touched) -> StepOutcome
        ensures { retired_end self.old touched None (with_result self.old rd (sum_of self.old.pc imm)) ≡ ended_in self.new result }
    {
        let value = self.pc.wrapping_add(imm);
        self.write_rd(rd, value, touched)
    }

    /// Writes the result of an operation on a register and an immediate to rd.
    #[inline(always)]
    fn write_op_imm(
        &mut self,
        kind: OpImmKind,
        rd: Reg,
        rs1: Reg,
        imm: u32,
        touched: Touched,
    ) -> StepOutcome
        ensures { retired_end self.old touched None (with_result self.old rd (op_imm_value kind (register self.old.regs rs1) imm)) ≡ ended_in self.new result }
    {
        let value = op_imm(kind, self.regs.get(rs1), imm);
        self.write_rd(rd, value, touched)
    }

    /// Writes a register, shifted by an immediate, to rd.
    #[inline(always)]
    fn write_shift(
        &mut self,
        kind: ShiftKind,
        rd: Reg,
        rs1: Reg,
        shamt: Shamt,
        touched: Touched,
    ) -> StepOutcome
        ensures { retired_end self.old touched None (with_result self.old rd (shift_value kind (register self.old.regs rs1) shamt)) ≡ ended_in self.new result }
    {
        let value = shift(kind, self.regs.get(rs1), shamt.amount());
        self.write_rd(rd, value, touched)
    }

    /// Writes the result of an operation on two registers to rd.
    #[inline(always)]
    fn write_op(
        &mut self,
        kind: OpKind,
        rd: Reg,
        rs1: Reg,
        rs2: Reg,
        touched: Touched,
    ) -> StepOutcome
        ensures { retired_end self.old touched None
            (with_result self.old rd (op_value kind (register self.old.regs rs1) (register self.old.regs rs2))) ≡ ended_in self.new result }
    {
        let value = op(kind, self.regs.get(rs1), self.regs.get(rs2));
        self.write_rd(rd, value, touched)
    }

    /// Jumps by an offset from pc.
    #[inline(always)]
    #[tactic(auto, unfolding(crate::specs::Step::retired_or_trapped))]
    fn jump_by(&mut self, rd: Reg, offset: u32, touched: Touched) -> StepOutcome
        ensures { retired_or_trapped self.old touched None (jumped self.old rd (sum_of self.old.pc offset)) ≡ ended_in self.new result }
    {
        let target = self.pc.wrapping_add(offset);
        self.jump(rd, target, touched)
    }

    /// Jumps to an offset from a register, with bit 0 of the target cleared. The register is read before rd is written.
    #[inline(always)]
    #[tactic(auto, unfolding(crate::specs::Step::retired_or_trapped))]
    fn jump_to(&mut self, rd: Reg, rs1: Reg, offset: u32, touched: Touched) -> StepOutcome
        ensures { retired_or_trapped self.old touched None (jumped self.old rd (made_even (sum_of (register self.old.regs rs1) offset)))
            ≡ ended_in self.new result }
    {
        let target = self.regs.get(rs1).wrapping_add(offset);
        self.jump(rd, target / 2 * 2, touched)
    }

    /// Jumps, and writes the address of the next instruction to rd.
    #[inline(always)]
    #[tactic(auto, unfolding(crate::specs::Step::retired_or_trapped))]
    fn jump(&mut self, rd: Reg, target: u32, touched: Touched) -> StepOutcome
        ensures { retired_or_trapped self.old touched None (jumped self.old rd target) ≡ ended_in self.new result }
    {
        let next = self.pc.wrapping_add(4);
        if target % 4 != 0 {
            return self.trap(
                exception(Exception::InstructionAddressMisaligned, target),
                touched,
            );
        }
        self.regs.set(rd, next);
        self.pc = target;
        self.retire(touched)
    }

    /// Branches by an offset from pc if the condition on two registers holds, and otherwise continues at the next instruction.
    #[inline(always)]
    #[tactic(auto, unfolding(crate::specs::Step::retired_or_trapped))]
    fn branch(
        &mut self,
        kind: BranchKind,
        rs1: Reg,
        rs2: Reg,
        offset: u32,
        touched: Touched,
    ) -> StepOutcome
        ensures { retired_or_trapped self.old touched None
            (branched self.old (is_taken_of kind (register self.old.regs rs1) (register self.old.regs rs2)) (sum_of self.old.pc offset))
            ≡ ended_in self.new result }
    {
        if !is_taken(kind, self.regs.get(rs1), self.regs.get(rs2)) {
            return self.advance_pc(touched);
        }
        let target = self.pc.wrapping_add(offset);
        if target % 4 != 0 {
            return self.trap(
                exception(Exception::InstructionAddressMisaligned, target),
                touched,
            );
        }
        self.pc = target;
        self.retire(touched)
    }
}

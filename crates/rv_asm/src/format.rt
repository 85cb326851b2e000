//! The operand formats of statements. Each function returns `BadOperand` if the number or the form of the operands is wrong, and then
//! `OutOfRange` if a number is out of its range.

ghost use Rattle.std.specs.Prelude.{◌≡◌, ◌∷◌, [], Ok, Err, map};
ghost use Rattle.rv_word.specs.Cases.{result_case};
ghost use Rattle.rv_asm.specs.Operands.{register_at, number_operand};
ghost use Rattle.rv_asm.specs.OperandRanges.{immediate_of as immediate_of_number, word_of_number};
ghost use Rattle.rv_asm.specs.Statements.{upper_operands as upper_operands_of, address_operands as address_operands_of, jump_statement as jump_of};
ghost use Rattle.rv_asm.specs.Statements.{jal_statement as jal_of, branch as branch_of, branch_statement as branch_statement_of};
ghost use Rattle.rv_asm.specs.Statements.{immediate_statement as immediate_of, shift_statement as shift_of, register_statement as register_of};
ghost use Rattle.rv_asm.specs.Statements.{fence_statement as fence_of, csr_statement as csr_of, csr_immediate_statement as csr_immediate_of};
ghost use Rattle.rv_asm.specs.Statements.{sfence_statement as sfence_of, plain_statement as plain_of, word_statement as word_of};
ghost use Rattle.rv_asm.specs.Statements.{li_statement as li_of};

use crate::fault::AsmFaultKind;
use crate::operand::{Target, address, csr, fence_set, jump_target, number, register};
use crate::statement::Statement;
use rv_encoding::{
    BranchKind, CsrKind, FenceMode, Imm12, Instr, OpImmKind, OpKind, ShiftKind, UpperImm,
};
use rv_word::Reg;

/// Reads two registers from operands.
fn registers(first: &[u8], second: &[u8]) -> Result<(Reg, Reg), AsmFaultKind>
    ensures { result ≡ result_case (register_at first.now) (λ first. result_case (register_at second.now) (λ second. Ok (first, second)) Err) Err }
{
    let first = register(first)?;
    let second = register(second)?;
    Ok((first, second))
}

/// Reads an immediate from an operand.
fn immediate(n: &[u8]) -> Result<Imm12, AsmFaultKind>
    ensures { result ≡ result_case (number_operand n.now) immediate_of_number Err }
{
    number(n)?.immediate()
}

/// Reads a word from an operand.
fn word(n: &[u8]) -> Result<u32, AsmFaultKind>
    ensures { result ≡ result_case (number_operand n.now) word_of_number Err }
{
    number(n)?.word()
}

/// Reads the operands `rd, n` of lui and auipc.
pub(crate) fn upper_operands(operands: &[&[u8]]) -> Result<(Reg, UpperImm), AsmFaultKind>
    ensures { result ≡ upper_operands_of (map (λ operand. operand.now) operands.now) }
{
    match operands {
        [rd, n] => upper_operands_in(rd, n),
        _ => Err(AsmFaultKind::BadOperand),
    }
}

/// Reads the register and the number of lui and auipc, each from its operand.
fn upper_operands_in(rd: &[u8], n: &[u8]) -> Result<(Reg, UpperImm), AsmFaultKind>
    ensures { result ≡ upper_operands_of (rd.now ∷ n.now ∷ []) }
{
    let rd = register(rd)?;
    let imm = number(n)?.upper_immediate()?;
    Ok((rd, imm))
}

/// Reads the operands `r, n(rs1)` of jalr, loads and stores, and returns r, rs1 and n.
pub(crate) fn address_operands(operands: &[&[u8]]) -> Result<(Reg, Reg, Imm12), AsmFaultKind>
    ensures { result ≡ address_operands_of (map (λ operand. operand.now) operands.now) }
{
    match operands {
        [r, place] => address_operands_in(r, place),
        _ => Err(AsmFaultKind::BadOperand),
    }
}

/// Reads the registers and the offset of `r, n(rs1)`, each from its operand.
fn address_operands_in(r: &[u8], place: &[u8]) -> Result<(Reg, Reg, Imm12), AsmFaultKind>
    ensures { result ≡ address_operands_of (r.now ∷ place.now ∷ []) }
{
    let r = register(r)?;
    let (offset, base) = address(place)?;
    Ok((r, base, offset.immediate()?))
}

/// Returns the jal to a target.
fn jump(rd: Reg, target: Target) -> Result<Statement, AsmFaultKind>
    ensures { result ≡ jump_of rd target }
{
    match target {
        Target::Label(label) => Ok(Statement::JumpTo { rd, label }),
        Target::Offset(number) => {
            let offset = number.jump_offset()?;
            Ok(Statement::Instruction(Instr::Jal { rd, offset }))
        }
    }
}

/// Reads the operands of `jal rd, t`.
pub(crate) fn jal_statement(operands: &[&[u8]]) -> Result<Statement, AsmFaultKind>
    ensures { result ≡ jal_of (map (λ operand. operand.now) operands.now) }
{
    match operands {
        [rd, t] => jal(rd, t),
        _ => Err(AsmFaultKind::BadOperand),
    }
}

/// Reads the operands of a jal, each from its text.
fn jal(rd: &[u8], t: &[u8]) -> Result<Statement, AsmFaultKind>
    ensures { result ≡ jal_of (rd.now ∷ t.now ∷ []) }
{
    let rd = register(rd)?;
    jump(rd, jump_target(t)?)
}

/// Returns the branch to a target.
fn branch(kind: BranchKind, rs1: Reg, rs2: Reg, target: Target) -> Result<Statement, AsmFaultKind>
    ensures { result ≡ branch_of kind rs1 rs2 target }
{
    match target {
        Target::Label(label) => Ok(Statement::BranchTo {
            kind,
            rs1,
            rs2,
            label,
        }),
        Target::Offset(number) => {
            let offset = number.branch_offset()?;
            Ok(Statement::Instruction(Instr::Branch {
                kind,
                rs1,
                rs2,
                offset,
            }))
        }
    }
}

/// Reads the operands of `beq rs1, rs2, t` and the other branches.
pub(crate) fn branch_statement(
    kind: BranchKind,
    operands: &[&[u8]],
) -> Result<Statement, AsmFaultKind>
    ensures { result ≡ branch_statement_of kind (map (λ operand. operand.now) operands.now) }
{
    match operands {
        [rs1, rs2, t] => branch_in(kind, rs1, rs2, t),
        _ => Err(AsmFaultKind::BadOperand),
    }
}

/// Reads the operands of a branch, each from its text.
fn branch_in(kind: BranchKind, rs1: &[u8], rs2: &[u8], t: &[u8]) -> Result<Statement, AsmFaultKind>
    ensures { result ≡ branch_statement_of kind (rs1.now ∷ rs2.now ∷ t.now ∷ []) }
{
    let (rs1, rs2) = registers(rs1, rs2)?;
    branch(kind, rs1, rs2, jump_target(t)?)
}

/// Reads the operands of `addi rd, rs1, n` and the other operations on an immediate.
pub(crate) fn immediate_statement(
    kind: OpImmKind,
    operands: &[&[u8]],
) -> Result<Statement, AsmFaultKind>
    ensures { result ≡ immediate_of kind (map (λ operand. operand.now) operands.now) }
{
    match operands {
        [rd, rs1, n] => immediate_operation(kind, rd, rs1, n),
        _ => Err(AsmFaultKind::BadOperand),
    }
}

/// Reads the operands of an operation on an immediate, each from its text.
fn immediate_operation(
    kind: OpImmKind,
    rd: &[u8],
    rs1: &[u8],
    n: &[u8],
) -> Result<Statement, AsmFaultKind>
    ensures { result ≡ immediate_of kind (rd.now ∷ rs1.now ∷ n.now ∷ []) }
{
    let (rd, rs1) = registers(rd, rs1)?;
    let imm = immediate(n)?;
    Ok(Statement::Instruction(Instr::OpImm { kind, rd, rs1, imm }))
}

/// Reads the operands of `slli rd, rs1, n` and the other shifts by an immediate.
pub(crate) fn shift_statement(
    kind: ShiftKind,
    operands: &[&[u8]],
) -> Result<Statement, AsmFaultKind>
    ensures { result ≡ shift_of kind (map (λ operand. operand.now) operands.now) }
{
    match operands {
        [rd, rs1, n] => shift(kind, rd, rs1, n),
        _ => Err(AsmFaultKind::BadOperand),
    }
}

/// Reads the operands of a shift by an immediate, each from its text.
fn shift(kind: ShiftKind, rd: &[u8], rs1: &[u8], n: &[u8]) -> Result<Statement, AsmFaultKind>
    ensures { result ≡ shift_of kind (rd.now ∷ rs1.now ∷ n.now ∷ []) }
{
    let (rd, rs1) = registers(rd, rs1)?;
    let shamt = number(n)?.shift_amount()?;
    Ok(Statement::Instruction(Instr::ShiftImm {
        kind,
        rd,
        rs1,
        shamt,
    }))
}

/// Reads the operands of `add rd, rs1, rs2` and the other operations on two registers.
pub(crate) fn register_statement(
    kind: OpKind,
    operands: &[&[u8]],
) -> Result<Statement, AsmFaultKind>
    ensures { result ≡ register_of kind (map (λ operand. operand.now) operands.now) }
{
    match operands {
        [rd, rs1, rs2] => operation(kind, rd, rs1, rs2),
        _ => Err(AsmFaultKind::BadOperand),
    }
}

/// Reads the operands of an operation on two registers, each from its text.
fn operation(kind: OpKind, rd: &[u8], rs1: &[u8], rs2: &[u8]) -> Result<Statement, AsmFaultKind>
    ensures { result ≡ register_of kind (rd.now ∷ rs1.now ∷ rs2.now ∷ []) }
{
    let (rd, rs1) = registers(rd, rs1)?;
    let rs2 = register(rs2)?;
    Ok(Statement::Instruction(Instr::Op { kind, rd, rs1, rs2 }))
}

/// Reads the operands of `fence p, s`.
pub(crate) fn fence_statement(operands: &[&[u8]]) -> Result<Statement, AsmFaultKind>
    ensures { result ≡ fence_of (map (λ operand. operand.now) operands.now) }
{
    match operands {
        [p, s] => fence(p, s),
        _ => Err(AsmFaultKind::BadOperand),
    }
}

/// Reads the operands of a fence, each from its text.
fn fence(p: &[u8], s: &[u8]) -> Result<Statement, AsmFaultKind>
    ensures { result ≡ fence_of (p.now ∷ s.now ∷ []) }
{
    let pred = fence_set(p)?;
    let succ = fence_set(s)?;
    let fm = FenceMode::new(0);
    let (rd, rs1) = (Reg::new(0), Reg::new(0));
    Ok(Statement::Instruction(Instr::Fence {
        fm,
        pred,
        succ,
        rd,
        rs1,
    }))
}

/// Reads the operands of `csrrw rd, c, rs1`, csrrs and csrrc.
pub(crate) fn csr_statement(kind: CsrKind, operands: &[&[u8]]) -> Result<Statement, AsmFaultKind>
    ensures { result ≡ csr_of kind (map (λ operand. operand.now) operands.now) }
{
    match operands {
        [rd, c, rs1] => csr_by_register(kind, rd, c, rs1),
        _ => Err(AsmFaultKind::BadOperand),
    }
}

/// Reads the operands of csrrw, csrrs or csrrc, each from its text.
fn csr_by_register(
    kind: CsrKind,
    rd: &[u8],
    c: &[u8],
    rs1: &[u8],
) -> Result<Statement, AsmFaultKind>
    ensures { result ≡ csr_of kind (rd.now ∷ c.now ∷ rs1.now ∷ []) }
{
    let rd = register(rd)?;
    let number = csr(c)?;
    let rs1 = register(rs1)?;
    let csr = number.csr_number()?;
    Ok(Statement::Instruction(Instr::Csr { kind, rd, rs1, csr }))
}

/// Reads the operands of `csrrwi rd, c, n`, csrrsi and csrrci.
pub(crate) fn csr_immediate_statement(
    kind: CsrKind,
    operands: &[&[u8]],
) -> Result<Statement, AsmFaultKind>
    ensures { result ≡ csr_immediate_of kind (map (λ operand. operand.now) operands.now) }
{
    match operands {
        [rd, c, n] => csr_by_immediate(kind, rd, c, n),
        _ => Err(AsmFaultKind::BadOperand),
    }
}

/// Reads the operands of csrrwi, csrrsi or csrrci, each from its text.
fn csr_by_immediate(kind: CsrKind, rd: &[u8], c: &[u8], n: &[u8]) -> Result<Statement, AsmFaultKind>
    ensures { result ≡ csr_immediate_of kind (rd.now ∷ c.now ∷ n.now ∷ []) }
{
    let rd = register(rd)?;
    let csr = csr(c)?;
    let immediate = number(n)?;
    let csr = csr.csr_number()?;
    let uimm = immediate.csr_immediate()?;
    Ok(Statement::Instruction(Instr::CsrImm {
        kind,
        rd,
        uimm,
        csr,
    }))
}

/// Reads the operands of `sfence.vma rs1, rs2`.
pub(crate) fn sfence_statement(operands: &[&[u8]]) -> Result<Statement, AsmFaultKind>
    ensures { result ≡ sfence_of (map (λ operand. operand.now) operands.now) }
{
    match operands {
        [rs1, rs2] => sfence(rs1, rs2),
        _ => Err(AsmFaultKind::BadOperand),
    }
}

/// Reads the operands of sfence.vma, each from its text.
fn sfence(rs1: &[u8], rs2: &[u8]) -> Result<Statement, AsmFaultKind>
    ensures { result ≡ sfence_of (rs1.now ∷ rs2.now ∷ []) }
{
    let (rs1, rs2) = registers(rs1, rs2)?;
    Ok(Statement::Instruction(Instr::SfenceVma { rs1, rs2 }))
}

/// Returns an instruction whose mnemonic has no operands.
pub(crate) fn plain_statement(
    instruction: Instr,
    operands: &[&[u8]],
) -> Result<Statement, AsmFaultKind>
    ensures { result ≡ plain_of instruction (map (λ operand. operand.now) operands.now) }
{
    if operands.is_empty() {
        Ok(Statement::Instruction(instruction))
    } else {
        Err(AsmFaultKind::BadOperand)
    }
}

/// Reads the operand of `.word n`.
pub(crate) fn word_statement(operands: &[&[u8]]) -> Result<Statement, AsmFaultKind>
    ensures { result ≡ word_of (map (λ operand. operand.now) operands.now) }
{
    match operands {
        [n] => written_word(n),
        _ => Err(AsmFaultKind::BadOperand),
    }
}

/// Reads the word of `.word` from its text.
fn written_word(n: &[u8]) -> Result<Statement, AsmFaultKind>
    ensures { result ≡ word_of (n.now ∷ []) }
{
    let word = word(n)?;
    Ok(Statement::Word(word))
}

/// Reads the operands of `li rd, n`.
pub(crate) fn li_statement(operands: &[&[u8]]) -> Result<Statement, AsmFaultKind>
    ensures { result ≡ li_of (map (λ operand. operand.now) operands.now) }
{
    match operands {
        [rd, n] => li(rd, n),
        _ => Err(AsmFaultKind::BadOperand),
    }
}

/// Reads the operands of li, each from its text.
fn li(rd: &[u8], n: &[u8]) -> Result<Statement, AsmFaultKind>
    ensures { result ≡ li_of (rd.now ∷ n.now ∷ []) }
{
    let rd = register(rd)?;
    let value = word(n)?;
    Ok(Statement::Li { rd, value })
}

//! Reads a statement from its text.

ghost use Rattle.std.specs.Prelude.{◌≡◌, map};
ghost use Rattle.rv_asm.specs.Statements.{statement_of as statement_of_operands, mnemonic_at, statement_at};

use crate::cuts::{blank_position, first_operands, is_name};
use crate::fault::AsmFaultKind;
use crate::format::{
    address_operands, branch_statement, csr_immediate_statement, csr_statement, fence_statement,
    immediate_statement, jal_statement, li_statement, plain_statement, register_statement,
    sfence_statement, shift_statement, upper_operands, word_statement,
};
use crate::mnemonic::Mnemonic;
use crate::statement::Statement;
use rv_encoding::{Imm12, Instr, LoadKind, OpImmKind, StoreKind};
use rv_word::Reg;

/// Reads the operands of `lui rd, n`.
fn lui_statement(operands: &[&[u8]]) -> Result<Statement, AsmFaultKind>
    ensures { result ≡ statement_of_operands Mnemonic.Lui (map (λ operand. operand.now) operands.now) }
{
    let (rd, imm) = upper_operands(operands)?;
    Ok(Statement::Instruction(Instr::Lui { rd, imm }))
}

/// Reads the operands of `auipc rd, n`.
fn auipc_statement(operands: &[&[u8]]) -> Result<Statement, AsmFaultKind>
    ensures { result ≡ statement_of_operands Mnemonic.Auipc (map (λ operand. operand.now) operands.now) }
{
    let (rd, imm) = upper_operands(operands)?;
    Ok(Statement::Instruction(Instr::Auipc { rd, imm }))
}

/// Reads the operands of `jalr rd, n(rs1)`.
fn jalr_statement(operands: &[&[u8]]) -> Result<Statement, AsmFaultKind>
    ensures { result ≡ statement_of_operands Mnemonic.Jalr (map (λ operand. operand.now) operands.now) }
{
    let (rd, rs1, offset) = address_operands(operands)?;
    Ok(Statement::Instruction(Instr::Jalr { rd, rs1, offset }))
}

/// Reads the operands of `lw rd, n(rs1)` and the other loads.
fn load_statement(kind: LoadKind, operands: &[&[u8]]) -> Result<Statement, AsmFaultKind>
    ensures { result ≡ statement_of_operands (Mnemonic.Load kind) (map (λ operand. operand.now) operands.now) }
{
    let (rd, rs1, offset) = address_operands(operands)?;
    Ok(Statement::Instruction(Instr::Load {
        kind,
        rd,
        rs1,
        offset,
    }))
}

/// Reads the operands of `sw rs2, n(rs1)` and the other stores.
fn store_statement(kind: StoreKind, operands: &[&[u8]]) -> Result<Statement, AsmFaultKind>
    ensures { result ≡ statement_of_operands (Mnemonic.Store kind) (map (λ operand. operand.now) operands.now) }
{
    let (rs2, rs1, offset) = address_operands(operands)?;
    Ok(Statement::Instruction(Instr::Store {
        kind,
        rs1,
        rs2,
        offset,
    }))
}

/// Returns the statement `nop`, which is `addi x0, x0, 0`.
fn nop_statement(operands: &[&[u8]]) -> Result<Statement, AsmFaultKind>
    ensures { result ≡ statement_of_operands Mnemonic.Nop (map (λ operand. operand.now) operands.now) }
{
    let nop = Instr::OpImm {
        kind: OpImmKind::Addi,
        rd: Reg::new(0),
        rs1: Reg::new(0),
        imm: Imm12::new(0),
    };
    plain_statement(nop, operands)
}

/// Returns the statement `ret`, which is `jalr x0, 0(x1)`.
fn ret_statement(operands: &[&[u8]]) -> Result<Statement, AsmFaultKind>
    ensures { result ≡ statement_of_operands Mnemonic.Ret (map (λ operand. operand.now) operands.now) }
{
    let ret = Instr::Jalr {
        rd: Reg::new(0),
        rs1: Reg::new(1),
        offset: Imm12::new(0),
    };
    plain_statement(ret, operands)
}

/// Returns the statement of a mnemonic and its operands.
///
/// # Errors
///
/// - `BadOperand`, if the number or the form of the operands is wrong.
/// - `OutOfRange`, if a number is out of its range, or an offset is odd.
fn statement_of(mnemonic: Mnemonic, operands: &[&[u8]]) -> Result<Statement, AsmFaultKind>
    ensures { result ≡ statement_of_operands mnemonic (map (λ operand. operand.now) operands.now) }
{
    match mnemonic {
        Mnemonic::Lui => lui_statement(operands),
        Mnemonic::Auipc => auipc_statement(operands),
        Mnemonic::Jal => jal_statement(operands),
        Mnemonic::Jalr => jalr_statement(operands),
        Mnemonic::Branch(kind) => branch_statement(kind, operands),
        Mnemonic::Load(kind) => load_statement(kind, operands),
        Mnemonic::Store(kind) => store_statement(kind, operands),
        Mnemonic::OpImm(kind) => immediate_statement(kind, operands),
        Mnemonic::ShiftImm(kind) => shift_statement(kind, operands),
        Mnemonic::Op(kind) => register_statement(kind, operands),
        Mnemonic::Fence => fence_statement(operands),
        Mnemonic::Csr(kind) => csr_statement(kind, operands),
        Mnemonic::CsrImm(kind) => csr_immediate_statement(kind, operands),
        Mnemonic::Ecall => plain_statement(Instr::Ecall, operands),
        Mnemonic::Ebreak => plain_statement(Instr::Ebreak, operands),
        Mnemonic::Sret => plain_statement(Instr::Sret, operands),
        Mnemonic::Mret => plain_statement(Instr::Mret, operands),
        Mnemonic::Wfi => plain_statement(Instr::Wfi, operands),
        Mnemonic::SfenceVma => sfence_statement(operands),
        Mnemonic::Word => word_statement(operands),
        Mnemonic::Nop => nop_statement(operands),
        Mnemonic::Ret => ret_statement(operands),
        Mnemonic::Li => li_statement(operands),
    }
}

/// Returns the mnemonic of the first word of a statement.
///
/// # Errors
///
/// - `BadText`, if the word is no name.
/// - `UnknownName`, if the name is no mnemonic.
fn mnemonic_of(word: &[u8]) -> Result<Mnemonic, AsmFaultKind>
    ensures { result ≡ mnemonic_at word.now }
{
    if !is_name(word) {
        return Err(AsmFaultKind::BadText);
    }
    Mnemonic::named(word).ok_or(AsmFaultKind::UnknownName)
}

/// Reads a statement from a text without leading blanks.
///
/// # Errors
///
/// The error of its mnemonic, or that of its operands.
#[tactic(auto, unfolding(crate::specs::Statements::statement_at))]
pub(crate) fn read_statement(text: &[u8]) -> Result<Statement, AsmFaultKind>
    ensures { result ≡ statement_at text.now }
{
    let (word, rest) = text.split_at(blank_position(text));
    let mnemonic = mnemonic_of(word)?;
    statement_of(mnemonic, first_operands(rest).as_slice())
}

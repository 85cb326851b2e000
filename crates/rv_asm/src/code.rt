//! Assembles statements to words.

ghost use Rattle.std.specs.Prelude.{◌≡◌, ◌≤◌, ◌%◌, ◌^◌, ◌∷◌, [], IfOk, MatchResult, Ok, Err, length, map};
ghost use Rattle.rv_word.specs.Cases.{option_case};
ghost use Rattle.rv_encoding.specs.Rows.{word_of};
ghost use Rattle.rv_asm.specs.LabelMap.{places_of};
ghost use Rattle.rv_asm.specs.OperandRanges.{branch_offset_of};
ghost use Rattle.rv_asm.specs.Program.{is_short as is_short_of, without_low_part as without_low_part_of, li_code, statement_size as size_of};
ghost use Rattle.rv_asm.specs.Program.{distance as distance_of, statement_words as words_of};

use crate::fault::AsmFaultKind;
use crate::name::Name;
use crate::number::Number;
use crate::statement::Statement;
use arrayvec::ArrayVec;
use rv_encoding::{BranchOffset, Imm12, Instr, OpImmKind, UpperImm, encode};
use rv_word::{Reg, sext};
use std::collections::BTreeMap;

/// The addresses of labels, in words from the start of the text.
pub(crate) type Labels = BTreeMap<ArrayVec<u8, 32>, u32>;

/// The one or two words of a statement.
pub(crate) type Words = ArrayVec<u32, 2>;

/// Returns whether one addi loads the word: its signed value is from -2048 to 2047.
fn is_short(value: u32) -> bool
    ensures { result ≡ is_short_of value }
{
    value < 2048 || value >= 0xffff_f800
}

/// Returns the operand of the lui that loads the word: the word minus its sign-extended low twelve bits.
fn without_low_part(value: u32) -> UpperImm
    ensures { result ≡ without_low_part_of value }
{
    UpperImm::new(value.wrapping_sub(sext(value, 12)))
}

/// Returns a list of one word.
fn one(word: u32) -> Words
    ensures { result.items ≡ word ∷ [] }
{
    let mut words = Words::new();
    words.push(word);
    words
}

/// Returns the addi of the low twelve bits of a word.
fn low_part(rd: Reg, rs1: Reg, value: u32) -> u32
    ensures { result ≡ word_of (Instr.OpImm OpImmKind.Addi rd rs1 (value % 2 ^ 12)) }
{
    encode(&Instr::OpImm {
        kind: OpImmKind::Addi,
        rd,
        rs1,
        imm: Imm12::new(value % 4096),
    })
}

/// Returns the words of the instructions that load a word into a register.
#[tactic(auto, unfolding(crate::specs::Program::li_code))]
fn load_words(rd: Reg, value: u32) -> Words
    ensures words { result.items ≡ map word_of (li_code rd value) }
    ensures len { length result.items ≡ length (li_code rd value) }
{
    if is_short(value) {
        return one(low_part(rd, Reg::new(0), value));
    }
    let imm = without_low_part(value);
    let mut words = one(encode(&Instr::Lui { rd, imm }));
    if value % 4096 != 0 {
        words.push(low_part(rd, rd, value));
    }
    words
}

/// Returns the number of words of a statement.
#[tactic(auto, unfolding(crate::specs::Program::statement_size, crate::specs::Program::li_code))]
pub(crate) fn statement_size(statement: &Statement) -> u32
    ensures value { result ≡ size_of statement.now }
    ensures small { result ≤ 2 }
{
    match statement {
        Statement::Li { value, .. } if !is_short(*value) && *value % 4096 != 0 => 2,
        _ => 1,
    }
}

/// Returns the distance from one address to another, in bytes. Addresses count words.
fn distance(here: u32, there: u32) -> Number
    ensures { result ≡ distance_of here there }
{
    if there < here {
        Number::minus(4 * u64::from(here - there))
    } else {
        Number::plus(4 * u64::from(there - here))
    }
}

/// Returns the distance to a label, in bytes.
///
/// # Errors
///
/// `UnknownLabel`, if no line has the label.
fn distance_to(labels: &Labels, here: u32, label: &Name) -> Result<Number, AsmFaultKind>
    ensures { result ≡ option_case (places_of labels.now label.now) (Err AsmFaultKind.UnknownLabel) (λ there. Ok (distance_of here there)) }
{
    match labels.get(label.bytes()) {
        Some(there) => Ok(distance(here, *there)),
        None => Err(AsmFaultKind::UnknownLabel),
    }
}

/// Returns the word of a jal to a label.
///
/// # Errors
///
/// - `UnknownLabel`, if no line has the label.
/// - `OutOfRange`, if the label is too far away.
#[tactic(auto, unfolding(crate::specs::Program::statement_words))]
fn jump_words(labels: &Labels, place: u32, rd: Reg, label: &Name) -> Result<Words, AsmFaultKind>
    ensures value { MatchResult result (λ words. words_of (places_of labels.now) place (Statement.JumpTo rd label.now) ≡ Ok words.items)
        (λ kind. words_of (places_of labels.now) place (Statement.JumpTo rd label.now) ≡ Err kind) }
    ensures len { IfOk result (λ words. length words.items ≡ 1) }
{
    let offset = distance_to(labels, place, label)?.jump_offset()?;
    Ok(one(encode(&Instr::Jal { rd, offset })))
}

/// Returns the offset of a branch to a label.
///
/// # Errors
///
/// - `UnknownLabel`, if no line has the label.
/// - `OutOfRange`, if the label is too far away.
fn branch_offset_to(labels: &Labels, place: u32, label: &Name) -> Result<BranchOffset, AsmFaultKind>
    ensures { result ≡ option_case (places_of labels.now label.now) (Err AsmFaultKind.UnknownLabel) (λ there. branch_offset_of (distance_of place there)) }
{
    distance_to(labels, place, label)?.branch_offset()
}

/// Returns the words of a statement at an address.
///
/// # Errors
///
/// - `UnknownLabel`, if no line has the label that the statement uses.
/// - `OutOfRange`, if the label is too far away.
#[tactic(auto, unfolding(crate::specs::Program::statement_words, crate::specs::Program::statement_size, crate::specs::Program::li_code))]
pub(crate) fn statement_words(
    labels: &Labels,
    place: u32,
    statement: &Statement,
) -> Result<Words, AsmFaultKind>
    ensures value { MatchResult result (λ words. words_of (places_of labels.now) place statement.now ≡ Ok words.items)
        (λ kind. words_of (places_of labels.now) place statement.now ≡ Err kind) }
    ensures len { IfOk result (λ words. length words.items ≡ size_of statement.now) }
{
    match statement {
        Statement::Instruction(instruction) => Ok(one(encode(instruction))),
        Statement::JumpTo { rd, label } => jump_words(labels, place, *rd, label),
        Statement::BranchTo {
            kind,
            rs1,
            rs2,
            label,
        } => {
            let (kind, rs1, rs2) = (*kind, *rs1, *rs2);
            let offset = branch_offset_to(labels, place, label)?;
            Ok(one(encode(&Instr::Branch {
                kind,
                rs1,
                rs2,
                offset,
            })))
        }
        Statement::Li { rd, value } => Ok(load_words(*rd, *value)),
        Statement::Word(word) => Ok(one(*word)),
    }
}

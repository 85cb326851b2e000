//! Reads the operands of statements.

ghost use Rattle.std.specs.Prelude.{◌≡◌};
ghost use Rattle.rv_asm.specs.Operands.{register_at, number_operand, csr_operand, base_of, offset_and_base, address_operand, target_at, fence_set_at};

use crate::csr_name::csr_named;
use crate::fault::AsmFaultKind;
use crate::name::Name;
use crate::number::{Number, written_number};
use crate::register_name::register_named;
use crate::tables::looked_up;
use rv_encoding::FenceSet;
use rv_text::position_of;
use rv_word::Reg;

/// The target of a jump or a branch.
#[derive(Drop)]
pub(crate) enum Target {
    /// The statement after the label.
    Label(Name),
    /// An offset in bytes.
    Offset(Number),
}

/// The sets of accesses, from none to all: device input, device output, memory reads, memory writes.
const FENCE_SETS: [(&str, u8); 16] = [
    ("0", 0),
    ("w", 1),
    ("r", 2),
    ("rw", 3),
    ("o", 4),
    ("ow", 5),
    ("or", 6),
    ("orw", 7),
    ("i", 8),
    ("iw", 9),
    ("ir", 10),
    ("irw", 11),
    ("io", 12),
    ("iow", 13),
    ("ior", 14),
    ("iorw", 15),
];

/// Reads a register.
///
/// # Errors
///
/// `BadOperand`, if the operand is not the name of a register.
pub(crate) fn register(text: &[u8]) -> Result<Reg, AsmFaultKind>
    ensures { result ≡ register_at text.now }
{
    register_named(text).ok_or(AsmFaultKind::BadOperand)
}

/// Reads a number.
///
/// # Errors
///
/// `BadOperand`, if the operand is not a number.
pub(crate) fn number(text: &[u8]) -> Result<Number, AsmFaultKind>
    ensures { result ≡ number_operand text.now }
{
    written_number(text).ok_or(AsmFaultKind::BadOperand)
}

/// Reads a control and status register, by its name or its number, and returns its number.
///
/// # Errors
///
/// `BadOperand`, if the operand is neither a known name nor a number.
pub(crate) fn csr(text: &[u8]) -> Result<Number, AsmFaultKind>
    ensures { result ≡ csr_operand text.now }
{
    match csr_named(text) {
        Some(csr) => Ok(Number::plus(u64::from(csr.number()))),
        None => number(text),
    }
}

/// Reads the register between `(` and `)`.
#[tactic(auto, unfolding(crate::specs::Operands::base_of))]
fn base(text: &[u8]) -> Option<Reg>
    ensures { result ≡ base_of text.now }
{
    let inner = text.strip_prefix(b"(")?;
    let name = inner.strip_suffix(b")")?;
    register_named(name)
}

/// Reads the offset and the base register of `n(rs1)`.
#[tactic(auto, unfolding(crate::specs::Operands::offset_and_base))]
fn offset_and_base(text: &[u8]) -> Option<(Number, Reg)>
    ensures { result ≡ offset_and_base text.now }
{
    let (offset, rest) = text.split_at(position_of(text, b'('));
    let offset = written_number(offset)?;
    let base = base(rest)?;
    Some((offset, base))
}

/// Reads an operand `n(rs1)` without blanks, and returns the offset and the base register.
///
/// # Errors
///
/// `BadOperand`, if the operand has another form.
pub(crate) fn address(text: &[u8]) -> Result<(Number, Reg), AsmFaultKind>
    ensures { result ≡ address_operand text.now }
{
    offset_and_base(text).ok_or(AsmFaultKind::BadOperand)
}

/// Reads the target of a jump or a branch.
///
/// # Errors
///
/// `BadOperand`, if the operand is neither a name nor a number.
#[tactic(auto, unfolding(crate::specs::Operands::target_at))]
pub(crate) fn jump_target(text: &[u8]) -> Result<Target, AsmFaultKind>
    ensures { result ≡ target_at text.now }
{
    if let Some(name) = Name::new(text) {
        return Ok(Target::Label(name));
    }
    Ok(Target::Offset(number(text)?))
}

/// Reads a set of accesses of fence.
///
/// # Errors
///
/// `BadOperand`, if the operand is neither `0` nor letters of `iorw` in this order.
#[tactic(auto, unfolding(crate::specs::FenceSets::fence_sets))]
pub(crate) fn fence_set(text: &[u8]) -> Result<FenceSet, AsmFaultKind>
    ensures { result ≡ fence_set_at text.now }
{
    let number = looked_up(&FENCE_SETS, text).ok_or(AsmFaultKind::BadOperand)?;
    Ok(FenceSet::new(number))
}

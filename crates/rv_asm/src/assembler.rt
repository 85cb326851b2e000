//! Assembles a text.

ghost use Rattle.std.specs.Prelude.{◌≡◌, ◌≤◌, ℕ, List, None, IfOk, IfErr, Ok, length};
ghost use Rattle.rv_asm.specs.Denotes.{Denotes};
ghost use Rattle.rv_text.specs.Lines.{lines_of};
ghost use Rattle.rv_asm.specs.OutOfMemory.{FailsFor};
ghost use Rattle.rv_asm.specs.Program.{assembled, fault_in, readings};

use crate::fault::{AsmFault, AsmFaultKind};
use crate::first_pass::FirstPass;
use crate::second_pass::words_of;
use std::alloc::Global;

/// Assembles a text, and returns its words.
///
/// # Errors
///
/// The first of these that applies:
/// - The first error of a line by itself: `BadText`, `UnknownName`, `BadOperand` or `OutOfRange`; or `TooLong`, if there are more than 65536
///   words with this line.
/// - `LabelTwice`, at the first line whose label an earlier line has.
/// - `UnknownLabel` or `OutOfRange`, at the first line that uses a label which no line has, or which is too far away.
///
/// If memory is exhausted at a line, the error is `NoMemory` at that line, which then has no error with precedence.
#[tactic(auto, using(crate::proofs::PassResults::own_fails, crate::proofs::PassResults::twice_decides))]
pub fn assemble(alloc: Global, text: &[u8]) -> Result<Vec<u32>, AsmFault>
    ensures ok { IfOk result (λ words. assembled text.now ≡ Ok words.items) }
    ensures few { IfOk result (λ words. length words.items ≤ 65536) }
    // If memory is exhausted at a line, the line has no error that has precedence.
    ensures fault { IfErr result (FailsFor text.now) }
    // The line of the error is a line of the text.
    ensures line { IfErr result (λ fault. (1 ≤ fault.line) × (fault.line ≤ length (lines_of text.now))) }
    // The text denotes the returned words.
    ensures denotes { IfOk result (λ words. Denotes text.now words.items) }
    // The text denotes no other words: if it has no error, the words that it denotes are the returned words.
    ensures only { (words : List ℕ) → Denotes text.now words → fault_in (readings text.now) ≡ None → assembled text.now ≡ Ok words }
{
    let pass = FirstPass::over(alloc, text)?;
    if let Some(line) = pass.repeated {
        return Err(AsmFault {
            line,
            kind: AsmFaultKind::LabelTwice,
        });
    }
    words_of(alloc, text, &pass.labels)
}

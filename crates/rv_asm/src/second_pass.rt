//! The second pass of the assembler. It assembles the words of each line, with the labels of the first pass.

ghost use Rattle.std.specs.Prelude.{◌≡◌, ◌⊎◌, ◌≤◌, ◌<◌, ◌+◌, ◌-◌, ◌++◌, [], None, Some, Ok, Err, IfOk, IfErr, IsOk, OnOk, List, ℕ, length, take};
ghost use Rattle.rv_asm.specs.LabelMap.{places_of};
ghost use Rattle.rv_asm.specs.LineReading.{line_read};
ghost use Rattle.rv_asm.specs.Program.{readings, own_fault, name_fault, first_line_fault, line_words, line_size, words_in, words_from};
ghost use Rattle.rv_asm.specs.Program.{statement_words as statement_words_of, statement_size};

use crate::code::{Labels, statement_words};
use crate::fault::{AsmFault, AsmFaultKind};
use crate::line::read_line;
use crate::statement::Statement;
use rv_text::split_line;
use std::alloc::Global;

/// Appends the words of a statement.
///
/// # Errors
///
/// - `UnknownLabel`, if no line has the label that the statement uses.
/// - `OutOfRange`, if the label is too far away.
/// - `NoMemory`, if memory is exhausted.
#[tactic(auto, using(crate::proofs::WordCounts::has_words))]
fn add_statement(
    words: &mut Vec<u32>,
    labels: &Labels,
    statement: &Statement,
) -> Result<(), AsmFaultKind>
    requires { length words.old.items ≤ 65536 }
    ensures ok { OnOk result
        ((added : List ℕ) × (statement_words_of (places_of labels.now) (length words.old.items) statement.now ≡ Ok added)
        × (words.new.items ≡ words.old.items ++ added)) }
    ensures len { OnOk result (length words.new.items ≡ length words.old.items + statement_size statement.now) }
    ensures fault { IfErr result
        (λ kind. (statement_words_of (places_of labels.now) (length words.old.items) statement.now ≡ Err kind)
        ⊎ ((kind ≡ AsmFaultKind.NoMemory) × IsOk (statement_words_of (places_of labels.now) (length words.old.items) statement.now)
        × (0 < statement_size statement.now))) }
{
    let added = statement_words(labels, words.len() as u32, statement)?;
    match words.extend_from_slice(added.as_slice()) {
        Ok(()) => Ok(()),
        Err(_) => Err(AsmFaultKind::NoMemory),
    }
}

/// Appends the words of a line.
///
/// # Errors
///
/// - The first error of the line by itself.
/// - `UnknownLabel`, if no line has the label that the line uses.
/// - `OutOfRange`, if the label is too far away.
/// - `NoMemory`, if memory is exhausted.
fn add_words(words: &mut Vec<u32>, labels: &Labels, text: &[u8]) -> Result<(), AsmFaultKind>
    requires { length words.old.items ≤ 65536 }
    ensures ok { OnOk result
        ((added : List ℕ) × (line_words (places_of labels.now) (length words.old.items) (line_read text.now) ≡ Ok added)
        × (words.new.items ≡ words.old.items ++ added)) }
    ensures len { OnOk result (length words.new.items ≡ length words.old.items + line_size (line_read text.now)) }
    ensures fault { IfErr result
        (λ kind. (line_words (places_of labels.now) (length words.old.items) (line_read text.now) ≡ Err kind)
        ⊎ ((kind ≡ AsmFaultKind.NoMemory) × IsOk (line_words (places_of labels.now) (length words.old.items) (line_read text.now))
        × (0 < line_size (line_read text.now)))) }
{
    match read_line(text)?.statement {
        Some(statement) => add_statement(words, labels, &statement),
        None => Ok(()),
    }
}

/// Returns the words of all lines of a text. No line may have an error by itself.
///
/// # Errors
///
/// - `UnknownLabel` or `OutOfRange`, at the first line that uses a label which no line has, or which is too far away.
/// - `NoMemory`, at the line at which memory is exhausted.
pub(crate) fn words_of(alloc: Global, text: &[u8], labels: &Labels) -> Result<Vec<u32>, AsmFault>
    requires { first_line_fault own_fault [] (readings text.now) ≡ None }
    ensures ok { IfOk result
        (λ words. (words.items ≡ words_from (places_of labels.now) [] (readings text.now))
        × (first_line_fault (name_fault (places_of labels.now)) [] (readings text.now) ≡ None)) }
    ensures few { IfOk result (λ words. length words.items ≤ 65536) }
    ensures fault { IfErr result
        (λ fault. (first_line_fault (name_fault (places_of labels.now)) [] (readings text.now) ≡ Some fault)
        ⊎ ((fault.kind ≡ AsmFaultKind.NoMemory) × (first_line_fault (name_fault (places_of labels.now)) [] (take fault.line (readings text.now)) ≡ None)
        × (words_in (take (fault.line - 1) (readings text.now)) < words_in (take fault.line (readings text.now))))) }
    ensures line { IfErr result (λ fault. (1 ≤ fault.line) × (fault.line ≤ length (readings text.now))) }
{
    let mut words = Vec::new(alloc);
    let mut lines = 0;
    let mut rest = text;
    while let Some((line, after)) = split_line(rest) {
        lines += 1;
        if let Err(kind) = add_words(&mut words, labels, line) {
            return Err(AsmFault { line: lines, kind });
        }
        rest = after;
    }
    Ok(words)
}

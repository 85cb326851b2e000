//! The first pass of the assembler. It reads each line, and finds the errors of each line by itself and the addresses of the labels.

ghost use Rattle.std.specs.Prelude.{◌≡◌, ◌⊎◌, ◌≤◌, ◌<◌, ◌+◌, ◌^◌, ◌-◌, ◌∷◌, [], ◌++◌, IfOk, IfErr, OnOk, OnErr, Some, None, length, List, true, false, is_some};
ghost use Rattle.rv_word.specs.Cases.{option_case};
ghost use Rattle.rv_asm.specs.LabelMap.{places_of};
ghost use Rattle.rv_asm.specs.OutOfMemory.{FailsAt, OutOfMemoryForLabel};
ghost use Rattle.rv_asm.specs.Passes.{HasRead, AddsLabel};
ghost use Rattle.rv_asm.specs.LineReading.{line_read};
ghost use Rattle.rv_asm.specs.Program.{Reading, readings, own_fault, first_line_fault, statement_size as statement_size_of};

use crate::code::{Labels, statement_size};
use crate::fault::{AsmFault, AsmFaultKind};
use crate::line::{Line, read_line};
use crate::name::Name;
use crate::statement::Statement;
use rv_text::split_line;
use std::alloc::{AllocError, Global};

/// The maximal number of words of a text.
const MAX_WORDS: u32 = 65536;

/// The state of the first pass after some lines.
#[derive(Drop)]
pub(crate) struct FirstPass {
    /// The labels of these lines, with their addresses.
    pub(crate) labels: Labels,
    /// The number of the first line that repeats a label.
    pub(crate) repeated: Option<usize>,
    /// The number of lines.
    pub(crate) lines: usize,
    /// The number of words that they assemble to.
    pub(crate) words: u32,
}

/// Returns the number of words of a line's statement, 0 if it has none.
fn optional_size(statement: &Option<Statement>) -> u32
    ensures value { result ≡ option_case statement.now 0 statement_size_of }
    ensures small { result ≤ 2 }
{
    match statement {
        Some(statement) => statement_size(statement),
        None => 0,
    }
}

impl FirstPass {
    /// Returns the state before the first line.
    fn new(alloc: Global) -> FirstPass
        ensures { HasRead result [] }
    {
        FirstPass {
            labels: Labels::new(alloc),
            repeated: None,
            lines: 0,
            words: 0,
        }
    }

    /// Adds the label of the next line, unless it repeats one.
    ///
    /// # Errors
    ///
    /// `AllocError`, if memory is exhausted.
    fn add_name(&mut self, name: Name) -> Result<(), AllocError>
        requires { self.old.lines < 2 ^ 64 - 1 }
        ensures ok { OnOk result (AddsLabel self.old self.new (Some name)) }
        ensures err { OnErr result (is_some (places_of self.old.labels name) ≡ false) }
    {
        if self.labels.contains_key(name.bytes()) {
            if self.repeated.is_none() {
                self.repeated = Some(self.lines + 1);
            }
            return Ok(());
        }
        match self.labels.insert(name.into_bytes(), self.words) {
            Ok(_) => Ok(()),
            Err(_) => Err(AllocError),
        }
    }

    /// Adds the label of the next line, if it has one.
    ///
    /// # Errors
    ///
    /// `AllocError`, if memory is exhausted.
    fn add_label(&mut self, label: Option<Name>) -> Result<(), AllocError>
        requires { self.old.lines < 2 ^ 64 - 1 }
        ensures ok { OnOk result (AddsLabel self.old self.new label) }
        ensures err { OnErr result (option_case label false (λ name. is_some (places_of self.old.labels name)) ≡ false) }
        ensures labelled { OnErr result (is_some label ≡ true) }
    {
        match label {
            Some(name) => self.add_name(name),
            None => Ok(()),
        }
    }

    /// Adds the next line.
    ///
    /// # Errors
    ///
    /// - The first error of the line by itself.
    /// - `TooLong`, if there are more than 65536 words with this line.
    /// - `NoMemory`, if memory is exhausted.
    fn add_line(&mut self, text: &[u8]) -> Result<(), AsmFault>
        requires count { self.old.lines < 2 ^ 64 - 1 }
        requires few { self.old.words ≤ MAX_WORDS }
        ensures ok { OnOk result
            ((before : List Reading) → HasRead self.old before
            → HasRead self.new (before ++ line_read text.now ∷ []) × (own_fault before (line_read text.now) ≡ None)) }
        ensures line { IfErr result (λ fault. fault.line ≡ self.old.lines + 1) }
        ensures fault { IfErr result
            (λ fault. (before : List Reading) → HasRead self.old before → FailsAt before (line_read text.now) fault.kind) }
    {
        let number = self.lines + 1;
        let Line { label, statement } = match read_line(text) {
            Ok(line) => line,
            Err(kind) => return Err(AsmFault { line: number, kind }),
        };
        let words = self.words + optional_size(&statement);
        if words > MAX_WORDS {
            return Err(AsmFault {
                line: number,
                kind: AsmFaultKind::TooLong,
            });
        }
        if self.add_label(label).is_err() {
            return Err(AsmFault {
                line: number,
                kind: AsmFaultKind::NoMemory,
            });
        }
        self.words = words;
        self.lines = number;
        Ok(())
    }

    /// Reads all lines of a text.
    ///
    /// # Errors
    ///
    /// - The first error of a line by itself, or `TooLong` at the first line with which there are more than 65536 words.
    /// - `NoMemory`, at the line at which memory is exhausted.
    pub(crate) fn over(alloc: Global, text: &[u8]) -> Result<FirstPass, AsmFault>
        ensures ok { IfOk result (λ pass. HasRead pass (readings text.now) × (first_line_fault own_fault [] (readings text.now) ≡ None)) }
        ensures fault { IfErr result (λ fault. (first_line_fault own_fault [] (readings text.now) ≡ Some fault) ⊎ OutOfMemoryForLabel (readings text.now) fault) }
        ensures line { IfErr result (λ fault. (1 ≤ fault.line) × (fault.line ≤ length (readings text.now))) }
    {
        let mut pass = FirstPass::new(alloc);
        let mut rest = text;
        while let Some((line, after)) = split_line(rest) {
            pass.add_line(line)?;
            rest = after;
        }
        Ok(pass)
    }
}

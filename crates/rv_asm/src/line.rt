//! Reads a line of an assembler text.

ghost use Rattle.std.specs.Prelude.{◌≡◌, option_map};
ghost use Rattle.rv_asm.specs.LineReading.{label_at, optional_statement_at, line_read};

use crate::cuts::{before_comment, split_label};
use crate::fault::AsmFaultKind;
use crate::name::Name;
use crate::reading::read_statement;
use crate::statement::Statement;
use rv_text::is_good_line;

/// The content of a line.
#[derive(Drop)]
pub(crate) struct Line {
    /// The name before `:`.
    pub(crate) label: Option<Name>,
    /// The statement after the label.
    pub(crate) statement: Option<Statement>,
}

/// Returns the label of a line, if there is one, or `BadText` if it is not a name.
fn optional_label(text: Option<&[u8]>) -> Result<Option<Name>, AsmFaultKind>
    ensures { result ≡ label_at (option_map (λ name. name.now) text.entry) }
{
    match text {
        None => Ok(None),
        Some(text) => match Name::new(text) {
            Some(name) => Ok(Some(name)),
            None => Err(AsmFaultKind::BadText),
        },
    }
}

/// Reads the statement of a line, if there is one.
fn optional_statement(text: &[u8]) -> Result<Option<Statement>, AsmFaultKind>
    ensures { result ≡ optional_statement_at text.now }
{
    if text.is_empty() {
        return Ok(None);
    }
    let statement = read_statement(text)?;
    Ok(Some(statement))
}

/// Reads the content of a line.
///
/// # Errors
///
/// The first error of the line by itself: `BadText`, `UnknownName`, `BadOperand` or `OutOfRange`.
#[tactic(auto, unfolding(crate::specs::LineReading::line_read))]
pub(crate) fn read_line(text: &[u8]) -> Result<Line, AsmFaultKind>
    ensures { result ≡ line_read text.now }
{
    if !is_good_line(text) {
        return Err(AsmFaultKind::BadText);
    }
    let (label, statement) = split_label(before_comment(text));
    let label = optional_label(label)?;
    let statement = optional_statement(statement)?;
    Ok(Line { label, statement })
}

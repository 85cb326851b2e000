//! Splits a line of an assembler text into pieces.

ghost use Rattle.std.specs.Prelude.{◌≡◌, ◌==◌, ◌≤◌, length, map, take, option_map};
ghost use Rattle.std.specs.List.{position_or_len, list_all};
ghost use Rattle.rv_text.specs.GoodLines.{is_blank as is_blank_of};
ghost use Rattle.rv_asm.specs.Cuts.{after_blanks as after_blanks_of, before_blanks as before_blanks_of, trimmed as trimmed_of, comma_fields};
ghost use Rattle.rv_asm.specs.Cuts.{operands_in, before_comment as before_comment_of, label_text, statement_text, is_letter as is_letter_of};
ghost use Rattle.rv_asm.specs.Cuts.{is_name_byte as is_name_byte_of, is_name as is_name_of};

use arrayvec::ArrayVec;
use rv_text::{is_blank, position_of};

/// The number of operands that are read from a statement: one more than any statement has.
pub(crate) const MOST_OPERANDS: usize = 4;

/// Returns the text without leading blanks.
fn after_blanks(text: &[u8]) -> &[u8]
    ensures { result.now ≡ after_blanks_of text.now }
{
    let mut rest = text;
    while let [first, others @ ..] = rest
        && is_blank(*first)
    {
        rest = others;
    }
    rest
}

/// Returns the text without trailing blanks.
fn before_blanks(text: &[u8]) -> &[u8]
    ensures { result.now ≡ before_blanks_of text.now }
{
    let mut rest = text;
    while let [others @ .., last] = rest
        && is_blank(*last)
    {
        rest = others;
    }
    rest
}

/// Returns the text without leading and trailing blanks.
#[tactic(auto, unfolding(crate::specs::Cuts::trimmed))]
fn trimmed(text: &[u8]) -> &[u8]
    ensures { result.now ≡ trimmed_of text.now }
{
    before_blanks(after_blanks(text))
}

/// Returns the position of the first blank, or the length of the text if there is none.
pub(crate) fn blank_position(text: &[u8]) -> usize
    ensures value { result ≡ position_or_len is_blank_of text.now }
    ensures within { result ≤ length text.now }
{
    text.iter()
        .position(|byte| is_blank(*byte))
        .unwrap_or(text.len())
}

/// Returns the first `MOST_OPERANDS` fields between commas, or all if there are fewer, without leading and trailing blanks.
fn first_fields(text: &[u8]) -> ArrayVec<&[u8], MOST_OPERANDS>
    ensures { map (λ field. field.now) result.items ≡ take MOST_OPERANDS (comma_fields text.now) }
{
    let mut fields = ArrayVec::new();
    for field in text.split(|byte| *byte == b',').map(|field| trimmed(field)) {
        if fields.is_full() {
            break;
        }
        fields.push(field);
    }
    fields
}

/// Returns the operands in the text after a mnemonic, at most `MOST_OPERANDS`. A text of blanks alone has none.
pub(crate) fn first_operands(text: &[u8]) -> ArrayVec<&[u8], MOST_OPERANDS>
    ensures { map (λ operand. operand.now) result.items ≡ take MOST_OPERANDS (operands_in text.now) }
{
    if trimmed(text).is_empty() {
        return ArrayVec::new();
    }
    first_fields(text)
}

/// Returns the line without its comment, which begins with `#`.
pub(crate) fn before_comment(line: &[u8]) -> &[u8]
    ensures { result.now ≡ before_comment_of line.now }
{
    &line[..position_of(line, b'#')]
}

/// Splits a line without comment into a label, if it has one, and the text of a statement, which is empty if there is none. Neither has leading
/// blanks.
#[tactic(auto, unfolding(crate::specs::Cuts::label_text, crate::specs::Cuts::statement_text))]
pub(crate) fn split_label(text: &[u8]) -> (Option<&[u8]>, &[u8])
    ensures label { option_map (λ label. label.now) result.0 ≡ label_text text.now }
    ensures statement { result.1.now ≡ statement_text text.now }
{
    let colon = position_of(text, b':');
    if colon < text.len() {
        (
            Some(after_blanks(&text[..colon])),
            after_blanks(&text[colon + 1..]),
        )
    } else {
        (None, after_blanks(text))
    }
}

/// Returns whether a name can begin with the byte.
fn is_letter(byte: u8) -> bool
    ensures { result ≡ is_letter_of byte }
{
    matches!(byte, b'a'..=b'z' | b'A'..=b'Z' | b'_' | b'.')
}

/// Returns whether a name can have the byte.
#[tactic(auto, unfolding(crate::specs::Cuts::is_name_byte))]
fn is_name_byte(byte: u8) -> bool
    ensures { result ≡ is_name_byte_of byte }
{
    is_letter(byte) || byte.is_ascii_digit()
}

/// Returns whether a name can have each of these bytes.
fn are_name_bytes(text: &[u8]) -> bool
    ensures { result ≡ list_all is_name_byte_of text.now }
{
    text.iter().all(|byte| is_name_byte(*byte))
}

/// Returns whether the text is a name: 1 to 32 letters, digits, `_` and `.`, and the first is no digit.
#[tactic(auto, unfolding(crate::specs::Cuts::is_name))]
pub(crate) fn is_name(text: &[u8]) -> bool
    ensures { result ≡ is_name_of text.now }
{
    match text {
        [first, others @ ..] => is_letter(*first) && are_name_bytes(others) && others.len() < 32,
        [] => false,
    }
}

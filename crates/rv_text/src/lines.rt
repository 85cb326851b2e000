//! Splits a text into lines.

ghost use Rattle.std.specs.Prelude.{◌≡◌, ◌∷◌, [], ◌<◌, length, MatchOption, IfSome};
ghost use Rattle.rv_text.specs.Lines.{lines_of, without_return as without_return_of};

use crate::position::position_of;

/// Returns the text before a line feed, without a carriage return at its end.
fn without_return(line: &[u8]) -> &[u8]
    ensures { result.now ≡ without_return_of line.now }
{
    match line.split_last() {
        Some((last, prefix)) if *last == b'\r' => prefix,
        _ => line,
    }
}

/// Returns the first line of a text and the text after it, or `None` if there is no line.
pub fn split_line(text: &[u8]) -> Option<(&[u8], &[u8])>
    ensures lines { MatchOption result (lines_of text.now ≡ []) (λ cut. lines_of text.now ≡ cut.0.now ∷ lines_of cut.1.now) }
    ensures shorter { IfSome result (λ cut. length cut.1.now < length text.now) }
{
    if text.is_empty() {
        return None;
    }
    let end = position_of(text, b'\n');
    if end == text.len() {
        return Some((text, &[]));
    }
    Some((without_return(&text[..end]), &text[end + 1..]))
}

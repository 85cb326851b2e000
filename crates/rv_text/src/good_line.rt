//! Checks the bytes and the length of lines.

ghost use Rattle.std.specs.Prelude.{◌≡◌};
ghost use Rattle.std.specs.List.{list_all};
ghost use Rattle.rv_text.specs.GoodLines.{is_blank as is_blank_of, is_text as is_text_of, is_good_line as is_good_line_of};

/// The maximal number of bytes of a line, without its ending.
pub const MAX_LINE: usize = 120;

/// Returns whether a byte separates words: a space or a tab.
pub fn is_blank(byte: u8) -> bool
    ensures { result ≡ is_blank_of byte }
{
    matches!(byte, b' ' | b'\t')
}

/// Returns whether a line may have this byte: a tab, or a printable ASCII character or space.
#[tactic(auto, unfolding(crate::specs::GoodLines::is_text))]
fn is_text(byte: u8) -> bool
    ensures { result ≡ is_text_of byte }
{
    matches!(byte, b'\t' | b' '..=b'~')
}

/// Returns whether a line may have each of these bytes. It tests all of them, since a loop without an early exit is compiled to vector
/// instructions.
fn are_text(bytes: &[u8]) -> bool
    ensures { result ≡ list_all is_text_of bytes.now }
{
    let mut are = true;
    for byte in bytes {
        are &= is_text(*byte);
    }
    are
}

/// Returns whether a line is well-formed: it has at most 120 bytes, and only bytes that a line may have.
pub fn is_good_line(line: &[u8]) -> bool
    ensures { result ≡ is_good_line_of line.now }
{
    line.len() <= MAX_LINE && are_text(line)
}

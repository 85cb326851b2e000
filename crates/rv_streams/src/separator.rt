//! The line `--`, which separates an image from a script, and one script from another.
ghost use Rattle.std.specs.Prelude.{◌≡◌, codes, option_map};
ghost use Rattle.std.specs.Str.{bytes_eq};
ghost use Rattle.rv_streams.specs.Separator.{line_word, is_separator};

use rv_text::{first_words, is_good_line};

/// The end of a script, or of an image.
#[derive(Clone, Copy)]
pub enum ScriptEnd {
    /// At the end of the input. `--` is an ordinary line.
    Input,
    /// At the first line whose only word is `--`, which is read too, or at the end of the input.
    Separator,
}

impl ScriptEnd {
    ghost use Rattle.std.specs.Prelude.{◌≡◌};
    ghost use Rattle.rv_streams.specs.Script.{ends_script};

    /// Returns whether this line ends the script.
    pub(crate) fn is_at(self, line: &[u8]) -> bool
        ensures { result ≡ ends_script self line.now }
    {
        match self {
            ScriptEnd::Input => false,
            ScriptEnd::Separator => is_separator(line),
        }
    }
}

/// Returns the only word of a line, which is empty if the line has none. Returns `None` if the line is malformed or has more words.
#[tactic(auto, unfolding(crate::specs::Separator::line_word))]
pub(crate) fn only_word(line: &[u8]) -> Option<&[u8]>
    ensures { option_map (λ word. word.now) result ≡ line_word line.now }
{
    if !is_good_line(line) {
        return None;
    }
    match first_words(line).as_slice() {
        [] => Some(&[]),
        [word] => Some(*word),
        _ => None,
    }
}

/// Returns whether a word is `--`.
pub(crate) fn is_dashes(word: &[u8]) -> bool
    ensures { result ≡ bytes_eq word.now (codes "--") }
{
    word == b"--".as_slice()
}

/// Returns whether the only word of a line is `--`.
fn is_separator(line: &[u8]) -> bool
    ensures { result ≡ is_separator line.now }
{
    match only_word(line) {
        Some(word) => is_dashes(word),
        None => false,
    }
}

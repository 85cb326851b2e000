//! Splits a line into words.

ghost use Rattle.std.specs.Prelude.{◌≡◌, ◌<◌, ◌≤◌, ◌++◌, [], ◌∷◌, filter, length, map, take, MatchOption};
ghost use Rattle.std.specs.List.{position_or_len};
ghost use Rattle.rv_text.specs.GoodLines.{is_blank as is_blank_of};
ghost use Rattle.rv_text.specs.Words.{is_filled, words_of};

use crate::good_line::is_blank;
use arrayvec::ArrayVec;
use memchr::memchr2;

/// The number of words that are read from a line: more than any command has.
pub const MOST_WORDS: usize = 6;

/// The number of bytes from which on a text is searched by `memchr2`. A call costs more than the search of a shorter text.
const LONG: usize = 16;

/// Returns the position of the first blank, or the length of the text if there is none.
#[inline(always)]
fn blank_position(text: &[u8]) -> usize
    ensures value { result ≡ position_or_len is_blank_of text.now }
    ensures within { result ≤ length text.now }
{
    if text.len() < LONG {
        return text
            .iter()
            .position(|byte| is_blank(*byte))
            .unwrap_or(text.len());
    }
    memchr2(b' ', b'\t', text).unwrap_or(text.len())
}

/// Returns the text before the first blank, and the text after it. The text before it may be empty.
#[inline(always)]
fn split_blank(text: &[u8]) -> (&[u8], &[u8])
    requires some { 0 < length text.now }
    ensures words { words_of text.now ≡ filter is_filled (result.0.now ∷ []) ++ words_of result.1.now }
    ensures shorter { length result.1.now < length text.now }
{
    let end = blank_position(text);
    if end == text.len() {
        return (text, &[]);
    }
    (&text[..end], &text[end + 1..])
}

/// Returns the first word of a text and the text after it, or `None` if there is no word.
#[inline(always)]
fn next_word(text: &[u8]) -> Option<(&[u8], &[u8])>
    ensures { MatchOption result (words_of text.now ≡ []) (λ cut. words_of text.now ≡ cut.0.now ∷ words_of cut.1.now) }
{
    let mut rest = text;
    while !rest.is_empty() {
        let (word, after) = split_blank(rest);
        if !word.is_empty() {
            return Some((word, after));
        }
        rest = after;
    }
    None
}

/// Returns the first words of a line, at most `MOST_WORDS`.
#[inline(always)]
pub fn first_words(line: &[u8]) -> ArrayVec<&[u8], MOST_WORDS>
    ensures { map (λ word. word.now) result.items ≡ take MOST_WORDS (words_of line.now) }
{
    let mut words = ArrayVec::new();
    let mut rest = line;
    while !words.is_full() {
        let Some((word, after)) = next_word(rest) else {
            break;
        };
        words.push(word);
        rest = after;
    }
    words
}

//! The lines of a source.
ghost use Rattle.std.specs.Prelude.{◌≡◌, ◌<◌, ◌≤◌, true, false, [], length, IsTrue};
ghost use Rattle.rv_text.specs.GoodLines.{kept_bytes};
ghost use Rattle.rv_text.specs.Lines.{has_feed};

use crate::device::{DeviceFault, Source};
use crate::line::{KEPT_BYTES, Line, SIGNIFICANT_BYTES, Stop, read_text, shown_len, take_prefix};
use crate::separator::ScriptEnd;
use arrayvec::ArrayVec;

/// Reads the lines of a source, which it owns.
///
/// A line ends before a line feed. A carriage return directly before the line feed is dropped. The bytes after the last line feed are a line
/// unless there are none.
#[derive(Drop, Debug)]
pub struct Lines<S: Source> {
    source: S,
    line: ArrayVec<u8, KEPT_BYTES>,
    is_at_end: bool,
    ghost short: { length line.items ≤ kept_bytes },
    ghost unfinished: { has_feed line.items ≡ false },
    ghost told: { is_at_end ≡ true → 0 < S.ends source },
    ghost empty: { is_at_end ≡ true → line.items ≡ [] },
    ghost none_left: { is_at_end ≡ true → S.follows_input source → S.remaining source ≡ [] },
}

impl<S: Source> Lines<S> {
    ghost use Rattle.std.specs.Prelude.{◌≡◌, ◌<◌, true, false, [], IsTrue, IfOk, IfSome, IfNone};
    ghost use Rattle.rv_streams.specs.Script.{ends_script, FindsEnd};
    ghost use Rattle.rv_streams.specs.Unread.{held, unread, ReadsLine};

    /// Returns the lines of this source.
    pub fn new(source: S) -> Lines<S>
        ensures source { result.source ≡ source }
        ensures held { held result ≡ [] }
        ensures start { result.is_at_end ≡ false }
    {
        Lines {
            source,
            line: ArrayVec::new(),
            is_at_end: false,
        }
    }

    /// Returns the source, in its current state.
    pub fn source(&self) -> &S
        ensures { result.now ≡ self.now.source }
    {
        &self.source
    }

    /// Returns the source. The prefix of an unfinished line is dropped.
    pub fn into_source(self) -> S
        ensures { result ≡ self.source }
    {
        let Lines {
            source,
            line: _,
            is_at_end: _,
        } = self;
        source
    }

    /// Returns whether the source has returned its end, so that no line is left.
    pub fn is_at_end(&self) -> bool
        ensures end { result ≡ self.now.is_at_end }
        ensures told { IsTrue result → 0 < S.ends self.now.source }
        ensures nothing { IsTrue result → S.follows_input self.now.source → unread self.now ≡ [] }
    {
        self.is_at_end
    }

    /// Returns whether the source has read a whole line ahead, so that the next line is returned without waiting.
    #[inline(always)]
    pub fn has_line_ahead(&self) -> bool {
        self.source.has_line_ahead()
    }

    /// Returns the next line, or `None` if the source has returned its end and no line is left. A line of more than 120 bytes is cut to its
    /// first 121.
    ///
    /// # Errors
    ///
    /// `DeviceFault`, if the source failed in this call. The first 122 bytes of the unfinished line are kept, and a later call continues there.
    #[inline(always)]
    pub fn next_line(&mut self) -> Result<Option<Line>, DeviceFault>
        ensures read { ReadsLine self.old self.new result (λ line. line.items) }
        ensures none { IfOk result (λ found. IfNone found (self.new.is_at_end ≡ true)) }
        ensures nothing { S.follows_input self.new.source → IfOk result (λ found. IfNone found ((unread self.old ≡ []) × (unread self.new ≡ []))) }
    {
        if self.is_at_end {
            return Ok(None);
        }
        match read_text(&mut self.source, &mut self.line)? {
            Stop::LineFeed => {
                let count = shown_len(self.line.as_slice());
                Ok(Some(take_prefix(&mut self.line, count)))
            }
            Stop::End => {
                self.is_at_end = true;
                if self.line.is_empty() {
                    return Ok(None);
                }
                Ok(Some(take_prefix(&mut self.line, SIGNIFICANT_BYTES)))
            }
        }
    }

    /// Returns the next line of a script, or `None` at its end. A script ends when the source has returned its end and no line is left, or at a
    /// line that ends it, which is read.
    ///
    /// # Errors
    ///
    /// As for `next_line`.
    #[inline(always)]
    pub fn next_line_before(&mut self, end: ScriptEnd) -> Result<Option<Line>, DeviceFault>
        ensures read { ReadsLine self.old self.new result (λ line. line.items) }
        ensures inside { IfOk result (λ found. IfSome found (λ line. ends_script end line.items ≡ false)) }
        ensures none { IfOk result (λ found. IfNone found (FindsEnd end self.old self.new)) }
    {
        let Some(line) = self.next_line()? else {
            return Ok(None);
        };
        if end.is_at(line.as_slice()) {
            Ok(None)
        } else {
            Ok(Some(line))
        }
    }
}

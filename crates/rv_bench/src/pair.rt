//! A pair: two benches that differ in what is private to the enclave of a slot.

ghost use Rattle.std.specs.Prelude.{◌≡◌, ◌+◌, ◌*◌, ◌≤◌, ◌++◌, ℕ, List, false, [], true, take, length};
ghost use Rattle.arrayvec.specs.ArrayVec.{array_vec_len};
ghost use Rattle.rv_text.specs.GoodLines.{significant_bytes};
ghost use Rattle.rv_bench.specs.Pair.{pair_line, end_text, entered_text, last_text, marked, pair_replied, both_benches};

use crate::responder::Responder;
use arrayvec::ArrayVec;
use rv_debug::{Bench, BothLine, BothWhy, both_line};
use rv_monitor::Slot;
use rv_text::{Reply, push_count, push_text};

/// The maximum number of bytes that are written for one line. Each byte of two replies may begin a line, which has a mark of three bytes.
const TOLD_MAX: usize = 16384;

/// The text that is written for one line.
pub(crate) type Told = ArrayVec<u8, TOLD_MAX>;

/// Two benches, the number of commands that both have executed, and whether the slot was entered. After that they execute no commands.
#[derive(Drop)]
pub(crate) struct Pair {
    pub(crate) first: Bench,
    pub(crate) second: Bench,
    pub(crate) ran: u64,
    pub(crate) entered: bool,
}

/// Appends a text to a buffer that has room for it.
fn push_all(out: &mut Told, text: &[u8])
    requires room { array_vec_len out.old + length text.now ≤ 16384 }
    ensures items { out.new.items ≡ out.old.items ++ text.now }
    ensures len { array_vec_len out.new ≡ array_vec_len out.old + length text.now }
{
    if out.try_extend_from_slice(text).is_err() {
        unreachable!();
    }
}

/// Appends a text with a mark of three bytes before each of its lines.
fn push_marked(out: &mut Told, mark: &[u8; 3], text: &[u8])
    requires room { array_vec_len out.old + 4 * length text.now ≤ 16384 }
    ensures items { out.new.items ≡ out.old.items ++ marked mark.now true text.now }
    ensures len { array_vec_len out.new ≤ array_vec_len out.old + 4 * length text.now }
{
    let mut begins = true;
    for byte in text {
        if begins {
            push_all(out, mark);
        }
        push_all(out, &[*byte]);
        begins = *byte == b'\n';
    }
}

/// Appends that the slot was entered, after this number of commands.
#[tactic(auto, unfolding(crate::specs::Pair::entered_text))]
fn push_entered(out: &mut Told, ran: u64)
    requires { array_vec_len out.old + 34 ≤ 16384 }
    ensures { out.new.items ≡ out.old.items ++ entered_text ran }
{
    let mut text = Reply::new();
    push_text(&mut text, "twin entered ");
    push_count(&mut text, ran);
    push_text(&mut text, "\n");
    push_all(out, text.as_slice());
}

/// Returns the last line of a run in which the slot was not entered, with this number of commands.
#[tactic(auto, unfolding(crate::specs::Pair::end_text))]
fn end_of(ran: u64) -> Reply
    ensures { result.items ≡ end_text ran }
{
    let mut text = Reply::new();
    push_text(&mut text, "twin end ");
    push_count(&mut text, ran);
    push_text(&mut text, "\n");
    text
}

impl Pair {
    /// Executes a line on both benches, and replaces the contents of the buffer by the text for it. Every line that begins with the same 121
    /// bytes has the same effect and text.
    #[tactic(auto, unfolding(crate::specs::Pair::pair_line))]
    fn respond_to_line(&mut self, slot: Slot, line: &[u8], out: &mut Told)
        requires { self.old.entered ≡ false }
        ensures respond { pair_line slot self.old line.now ≡ record { state = self.new; reply = out.new.items } }
        ensures prefix { (other : List ℕ) → take significant_bytes other ≡ take significant_bytes line.now
            → pair_line slot self.old other ≡ pair_line slot self.old line.now }
    {
        out.clear();
        let mut first = Reply::new();
        let mut second = Reply::new();
        let line = both_line(
            &mut self.first,
            &mut self.second,
            slot,
            line,
            &mut first,
            &mut second,
        );
        self.report(line, &first, &second, out);
    }

    /// Writes the replies of both benches to a line, and counts its command.
    fn report(&mut self, line: BothLine, first: &Reply, second: &Reply, out: &mut Told)
        requires empty { out.old.items ≡ [] }
        requires going { self.old.entered ≡ false }
        ensures { pair_replied self.old
            (record { first = self.old.first; second = self.old.second; first_reply = first.now.items; second_reply = second.now.items; line = line })
            ≡ record { state = self.new; reply = out.new.items } }
    {
        let BothLine::Given { why, is_blank } = line else {
            return push_all(out, first.as_slice());
        };
        match why {
            BothWhy::All => {
                if !is_blank {
                    self.ran = self.ran.saturating_add(1);
                }
                push_marked(out, b"a: ", first.as_slice());
                push_marked(out, b"b: ", second.as_slice());
            }
            BothWhy::Entered => {
                self.ran = self.ran.saturating_add(1);
                self.entered = true;
                push_entered(out, self.ran);
            }
            BothWhy::NotBlind => push_all(out, b"error blind\n"),
        }
    }

    /// Returns the text that follows the last line.
    pub(crate) fn last(&self) -> Reply
        ensures { result.items ≡ last_text self.now }
    {
        if self.entered {
            Reply::new()
        } else {
            end_of(self.ran)
        }
    }
}

/// A pair, and the slot of the enclave in which its benches differ.
#[derive(Drop)]
pub(crate) struct PairOnSlot {
    pub(crate) pair: Pair,
    pub(crate) slot: Slot,
}

impl Responder for PairOnSlot {
    type Told = Told;

    type State = Pair;

    ghost state = { λ benches. benches.pair };

    ghost responding = { λ benches. both_benches benches.slot };

    /// See `Responder::respond_to_line`.
    fn respond_to_line(&mut self, line: &[u8], out: &mut Told) {
        self.pair.respond_to_line(self.slot, line, out);
    }

    /// See `Responder::is_over`.
    fn is_over(&self) -> bool {
        self.pair.entered
    }
}

//! One list of commands or of lines for two benches. It shows whether they can be distinguished without entering an enclave.

ghost use Rattle.std.specs.Prelude.{◌≡◌, ◌<◌, ◌^◌, ℕ, List, take};
ghost use Rattle.rv_text.specs.GoodLines.{significant_bytes};
ghost use Rattle.rv_debug.specs.Noninterference.{CommandsAvoidHart, DoneAlike, StayAlike};
ghost use Rattle.rv_debug.specs.Isolation.{after_commands};
ghost use Rattle.rv_debug.specs.BothBenches.{BenchesEquivExcept, RunsOnNoHart, both_execute, both_execute_line, both_run, is_entered as is_entered_in};

use crate::bench::Bench;
use crate::reply::push_fault;
use rv_monitor::Slot;
use rv_script::{Command, parse};
use rv_text::Reply;

/// Why commands for two benches ended.
#[derive(Clone, Copy, Debug, PartialEq, Eq)]
pub enum BothWhy {
    /// All commands were executed.
    All,
    /// The last command that was executed entered the slot, in one bench or in both.
    Entered,
    /// The next command is a mem, dis or poke with a byte in the region of the slot, in one bench or in both. It was not executed.
    NotBlind,
}

/// The result of a line for two benches.
#[derive(Clone, Copy, Debug, PartialEq, Eq)]
pub enum BothLine {
    /// The line has an error, and nothing was executed.
    Faulty,
    /// The line has a command, for both benches.
    Given {
        /// Whether the commands end here, and why.
        why: BothWhy,
        /// Whether the line is blank, so that nothing was executed.
        is_blank: bool,
    },
}

/// How many commands two benches executed, and why they ended.
#[derive(Clone, Copy, Debug, PartialEq, Eq)]
pub struct Both {
    /// The number of commands that were executed.
    pub ran: usize,
    /// Why the commands ended.
    pub why: BothWhy,
}

/// Returns whether a slot is in a set of slots, given as bits.
fn is_entered(slots: u16, slot: Slot) -> bool
    ensures { result ≡ is_entered_in slot slots }
{
    slots >> slot.number() & 1 == 1
}

/// Executes one command on two benches, and replaces the contents of the buffers by their replies. A command that is not blind is a mem, dis or
/// poke with a byte of the slot's region in one bench or in both. Neither bench executes it, and both replies are empty. A free slot has no
/// region. Returns `Entered` if and only if the command entered the slot in one bench or in both; both have then executed it.
///
/// `meaning` specifies the call completely. `alike` is noninterference. Its premises are that the benches were equivalent except for the slot's
/// enclave, and that the command neither steps nor shows a hart on which the enclave runs. The command is then blind in both benches or in
/// neither, and enters the slot in both or in neither. If it does not enter the slot, the replies are equal and the benches are equivalent
/// again, and equal once the enclave has ended.
pub fn both_command(
    a: &mut Bench,
    b: &mut Bench,
    slot: Slot,
    command: &Command,
    out_a: &mut Reply,
    out_b: &mut Reply,
) -> BothWhy
    ensures meaning { both_execute slot a.old b.old command.now
        ≡ record { first = a.new; second = b.new; first_reply = out_a.new.items; second_reply = out_b.new.items; why = result } }
    ensures alike { StayAlike slot a.old b.old command.now
        (record { first = a.new; second = b.new; first_reply = out_a.new.items; second_reply = out_b.new.items; why = result }) }
{
    a.invariant();
    b.invariant();
    give_both(a, b, slot, command, out_a, out_b)
}

/// Executes the command on both benches, or on neither.
#[tactic(auto, unfolding(crate::specs::BothBenches::both_execute))]
fn give_both(
    a: &mut Bench,
    b: &mut Bench,
    slot: Slot,
    command: &Command,
    out_a: &mut Reply,
    out_b: &mut Reply,
) -> BothWhy
    ensures { both_execute slot a.old b.old command.now
        ≡ record { first = a.new; second = b.new; first_reply = out_a.new.items; second_reply = out_b.new.items; why = result } }
{
    if !(a.is_blind(slot, command) && b.is_blind(slot, command)) {
        out_a.clear();
        out_b.clear();
        return BothWhy::NotBlind;
    }
    let first = a.command(command, out_a);
    let second = b.command(command, out_b);
    if is_entered(first, slot) || is_entered(second, slot) {
        BothWhy::Entered
    } else {
        BothWhy::All
    }
}

/// Executes a line, given without its line ending, on two benches as `both_command` executes its command. If the line has an error, the reply
/// with the first error is in the first buffer, the second buffer is empty, and neither bench changes. Every line that begins with the same 121
/// bytes has the same effect and replies.
pub fn both_line(
    a: &mut Bench,
    b: &mut Bench,
    slot: Slot,
    line: &[u8],
    out_a: &mut Reply,
    out_b: &mut Reply,
) -> BothLine
    ensures meaning { both_execute_line slot a.old b.old line.now
        ≡ record { first = a.new; second = b.new; first_reply = out_a.new.items; second_reply = out_b.new.items; line = result } }
    ensures prefix { (other : List ℕ) → take significant_bytes other ≡ take significant_bytes line.now
        → both_execute_line slot a.old b.old other ≡ both_execute_line slot a.old b.old line.now }
{
    match parse(line) {
        Ok(command) => BothLine::Given {
            why: both_command(a, b, slot, &command, out_a, out_b),
            is_blank: command == Command::Blank,
        },
        Err(fault) => {
            out_a.clear();
            out_b.clear();
            push_fault(out_a, fault);
            BothLine::Faulty
        }
    }
}

/// Executes a list of commands on two benches. It stops before a command that is not blind, which is not counted. It stops after a command that
/// enters the slot, which is counted. It allocates no memory.
///
/// `meaning` specifies the call completely. `first` and `second` state that each bench ends as if it alone had executed these commands. With
/// `laws::integrity` they give integrity of each. `alike` is noninterference. Its premises are that the benches were equivalent except for the
/// slot's enclave, and that no executed command steps or shows a hart on which the enclave runs. All replies are then equal, and the benches are
/// equivalent at the end, and equal once the enclave has ended. If the last command entered the slot, this holds before that command. If the
/// enclave runs on no hart at first, every command satisfies the premise.
pub fn run_both(a: &mut Bench, b: &mut Bench, slot: Slot, commands: &[Command]) -> Both
    ensures meaning { both_run slot a.old b.old commands.now ≡ record { first = a.new; second = b.new; ran = result.ran; why = result.why } }
    ensures first { a.new ≡ after_commands a.old (take result.ran commands.now) }
    ensures second { b.new ≡ after_commands b.old (take result.ran commands.now) }
    ensures alike { BenchesEquivExcept slot a.old b.old → CommandsAvoidHart slot a.old (take result.ran commands.now) → DoneAlike slot a.old b.old commands.now result.ran result.why }
    ensures not_running { RunsOnNoHart slot a.old.target → CommandsAvoidHart slot a.old commands.now }
{
    a.invariant();
    b.invariant();
    run_commands(a, b, slot, commands)
}

/// Executes the commands one after another.
fn run_commands(a: &mut Bench, b: &mut Bench, slot: Slot, commands: &[Command]) -> Both
    ensures { both_run slot a.old b.old commands.now ≡ record { first = a.new; second = b.new; ran = result.ran; why = result.why } }
{
    let mut out_a = Reply::new();
    let mut out_b = Reply::new();
    for (ran, command) in commands.iter().enumerate() {
        match both_command(a, b, slot, command, &mut out_a, &mut out_b) {
            BothWhy::All => {}
            BothWhy::Entered => {
                return Both {
                    ran: ran + 1,
                    why: BothWhy::Entered,
                };
            }
            BothWhy::NotBlind => {
                return Both {
                    ran,
                    why: BothWhy::NotBlind,
                };
            }
        }
    }
    Both {
        ran: commands.len(),
        why: BothWhy::All,
    }
}

//! Executes the lines of a test on control and status registers.

use rv_pmp::Mode;
use rv_state::{Cause, Csrs, Interrupt, SContext};
use std::test::Fail;

/// A line of a test: an operation, or an expected state.
#[derive(Clone, Copy)]
pub enum Line {
    /// Writes a register in mode M. A later read shows whether the write succeeded.
    Put(u16, u32),
    /// Expects the value that a register reads in mode M.
    Reads(u16, u32),
    /// Sets mie.
    Mie(u32),
    /// Raises or lowers the timer line.
    Timer(bool),
    /// Sets mepc.
    Mepc(u32),
    /// Sets MPP in mstatus.
    Mpp(Mode),
    /// Takes a trap from a mode, with pc, the cause and mtval, and expects the address at which the hart continues.
    Trap {
        mode: Mode,
        pc: u32,
        cause: Cause,
        tval: u32,
        target: u32,
    },
    /// Executes mret, and expects the mode and the address at which the hart continues.
    Mret(Mode, u32),
    /// Executes sret, and expects the mode and the address at which the hart continues.
    Sret(Mode, u32),
    /// Expects the interrupt that is taken in a mode.
    Pending(Mode, Option<Interrupt>),
    /// Counts a step: whether the instruction retired, the counters that are held, and the register that the instruction wrote.
    Tick {
        retired: bool,
        held: u32,
        written: Option<u16>,
    },
    /// Counts a step that retired and wrote no register. mcountinhibit gives the counters that are held.
    TickHeld,
    /// Sets the registers of mode S.
    SetContext(SContext),
    /// Expects the values of the registers of mode S.
    Context(SContext),
    /// Expects the value that the accessor of mstatus returns.
    Mstatus(u32),
    /// Expects the value that the accessor of stvec returns.
    StvecIs(u32),
    /// Expects the value that the accessor of mepc returns.
    MepcIs(u32),
}

/// Executes lines on registers. Fails at the first line that does not hold, and returns its index.
///
/// The helper functions have no contracts, so that the proof of a test stays small. The run of a test shows what they do.
pub fn follow(mut csrs: Csrs, lines: &[Line]) -> Result<(), Fail> {
    for (index, line) in lines.iter().enumerate() {
        if !holds(&mut csrs, *line) {
            return Err(Fail::new(format_args!("line {index}")));
        }
    }
    Ok(())
}

/// Executes lines on registers at reset.
pub fn run(lines: &[Line]) -> Result<(), Fail> {
    follow(Csrs::new(), lines)
}

/// Executes a line, and returns whether its expectation holds.
fn holds(csrs: &mut Csrs, line: Line) -> bool {
    match line {
        Line::Put(number, word) => put(csrs, number, word),
        Line::Mie(word) => csrs.set_mie(word),
        Line::Timer(raised) => csrs.set_timer(raised),
        Line::Mepc(word) => csrs.set_mepc(word),
        Line::Mpp(mode) => csrs.set_mpp(mode),
        Line::Tick {
            retired,
            held,
            written,
        } => csrs.tick_counters(retired, held, written),
        Line::TickHeld => tick_held(csrs),
        Line::SetContext(context) => csrs.set_s_context(context),
        other => return shows(csrs, other),
    }
    true
}

/// Returns whether a line with an expected result holds.
fn shows(csrs: &mut Csrs, line: Line) -> bool {
    match line {
        Line::Trap {
            mode,
            pc,
            cause,
            tval,
            target,
        } => csrs.enter_trap(mode, pc, cause, tval) == target,
        Line::Mret(mode, pc) => csrs.do_mret() == (mode, pc),
        Line::Sret(mode, pc) => csrs.do_sret() == (mode, pc),
        Line::Reads(number, word) => read(csrs, number) == Some(word),
        Line::Pending(mode, interrupt) => csrs.pending_interrupt(mode) == interrupt,
        Line::Context(context) => csrs.s_context() == context,
        Line::Mstatus(word) => csrs.mstatus().word() == word,
        Line::StvecIs(word) => csrs.stvec() == word,
        Line::MepcIs(word) => csrs.mepc() == word,
        _ => false,
    }
}

fn put(csrs: &mut Csrs, number: u16, word: u32) {
    let _ = csrs.write(number, word, Mode::M);
}

fn read(csrs: &Csrs, number: u16) -> Option<u32> {
    csrs.read(number, Mode::M).ok()
}

fn tick_held(csrs: &mut Csrs) {
    let held = csrs.inhibit();
    csrs.tick_counters(true, held, None);
}

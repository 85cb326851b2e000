//! Executes the lines of a test on a machine.

use rv_fast_path::{BoxedCache, Interval, Limits, Machine};
use rv_hart::{StepOutcome, Trap};
use rv_memory::{RAM_BASE, Ram};
use rv_pmp::Mode;
use rv_word::{Reg, le_bytes};
use std::test::Fail;

/// A line of a test: an operation, or an expected state.
#[derive(Clone, Copy)]
pub enum Line {
    /// Sets a register by its number, 0 to 31.
    Set(u8, u32),
    /// Writes a control and status register in mode M. The write must succeed.
    Write(u16, u32),
    /// Sets mepc.
    Mepc(u32),
    /// Sets mie.
    Mie(u32),
    /// Raises the timer line.
    RaiseTimer,
    /// Sets pc to the first word, and the mode.
    Enter(Mode),
    /// Writes the bytes of the first word.
    Patch([u8; 4]),
    /// Executes a step, with any outcome.
    Step,
    /// Executes at most `count` steps on the fast path, with fetches below an address. Expects that `done` steps were executed.
    Fast { count: u32, below: u64, done: u32 },
    /// Executes a step, and expects its trap.
    Trap(Option<Trap>),
    /// Executes a step, and expects its outcome.
    Outcome(StepOutcome),
    /// Expects pc.
    Pc(u32),
    /// Expects the mode.
    Mode(Mode),
    /// Expects the word in a register.
    X(u8, u32),
    /// Expects the value of a control and status register, read in mode M.
    Csr(u16, u32),
    /// Expects the byte of memory at an address.
    Byte(u32, u8),
}

/// Executes lines on a new machine in mode M with the words of a program. Fails at the first line that does not hold, and returns its index.
///
/// The helper functions have no contracts, so that the proof of a test stays small. The run of a test shows what they do.
pub fn run(rt: HostRuntime, words: &[u32], lines: &[Line]) -> Result<(), Fail> {
    let mut machine = machine_with(rt, words)?;
    for (index, line) in lines.iter().enumerate() {
        if !holds(&mut machine, *line) {
            return Err(Fail::new(format_args!("line {index} over {words:?}")));
        }
    }
    Ok(())
}

/// Returns a machine with the words of a program.
fn machine_with(rt: HostRuntime, words: &[u32]) -> Result<Machine, Fail> {
    let mut ram = Ram::new(rt.alloc(), 65_536).ok().ok_or("a RAM")?;
    let mut address = RAM_BASE;
    for word in words {
        for byte in le_bytes(*word) {
            ram.poke(address, byte);
            address = address.wrapping_add(1);
        }
    }
    let mut machine = Machine::new(ram, RAM_BASE, Mode::M);
    machine.set_decode_cache(BoxedCache::allocate(rt.alloc()));
    Ok(machine)
}

/// Executes a line, and returns whether its expectation holds.
fn holds(machine: &mut Machine, line: Line) -> bool {
    match line {
        Line::Set(register, word) => set(machine, register, word),
        Line::Write(number, word) => return write(machine, number, word),
        Line::Mepc(word) => set_mepc(machine, word),
        Line::Mie(word) => set_mie(machine, word),
        Line::RaiseTimer => set_timer(machine, true),
        Line::Enter(mode) => machine.set_pc(RAM_BASE, mode),
        Line::Patch(bytes) => return patch(machine, bytes),
        Line::Step => {
            step(machine);
        }
        Line::Fast { count, below, done } => return run_fast(machine, count, below) == done,
        Line::Trap(trap) => return step(machine).trap == trap,
        Line::Outcome(outcome) => return step(machine) == outcome,
        Line::Pc(address) => return machine.pc() == address,
        Line::Mode(mode) => return machine.mode() == mode,
        Line::X(register, word) => return x(machine, register) == word,
        Line::Csr(number, word) => return csr(machine, number) == Some(word),
        Line::Byte(address, byte) => return machine.ram().peek(address) == Some(byte),
    }
    true
}

fn step(machine: &mut Machine) -> StepOutcome {
    machine.step()
}

fn run_fast(machine: &mut Machine, count: u32, below: u64) -> u32 {
    let all_addresses = Interval {
        from: 0,
        to: 0x1_0000_0000,
    };
    let fetch = Interval { from: 0, to: below };
    let limits = Limits {
        fetch,
        read: all_addresses,
        write: all_addresses,
    };
    machine.run_fast(&limits, count)
}

fn set(machine: &mut Machine, register: u8, word: u32) {
    machine.regs_mut().set(Reg::new(register % 32), word);
}

fn write(machine: &mut Machine, number: u16, word: u32) -> bool {
    machine.csrs_mut().write(number, word, Mode::M).is_ok()
}

fn set_mepc(machine: &mut Machine, word: u32) {
    machine.csrs_mut().set_mepc(word);
}

fn set_mie(machine: &mut Machine, word: u32) {
    machine.csrs_mut().set_mie(word);
}

fn set_timer(machine: &mut Machine, raised: bool) {
    machine.csrs_mut().set_timer(raised);
}

fn patch(machine: &mut Machine, bytes: [u8; 4]) -> bool {
    let ram = machine.ram_mut();
    let is_inside = ram.contains(RAM_BASE, 4);
    if is_inside {
        ram.write_part(RAM_BASE, &bytes);
    }
    is_inside
}

fn x(machine: &Machine, register: u8) -> u32 {
    machine.regs().get(Reg::new(register % 32))
}

fn csr(machine: &Machine, number: u16) -> Option<u32> {
    machine.csrs().read(number, Mode::M).ok()
}

//! Executes the lines of a test on a memory and PMP entries.

use super::END;
use rv_memory::{AccessFault, RAM_BASE, Ram};
use rv_pmp::{Access, Mode, Pmp, PmpIndex, Verdict};
use rv_word::Width;
use std::test::Fail;

/// A line of a test: a call, and its expected result.
#[derive(Clone, Copy)]
pub enum Line {
    /// A load of a mode from an address, and its expected result.
    Load(Mode, u32, Width, Result<u32, AccessFault>),
    /// A fetch of a mode from an address, and its expected result.
    Fetch(Mode, u32, Result<u32, AccessFault>),
    /// A store of a mode to an address, with the value, and its expected result.
    Store(Mode, u32, Width, u32, Result<(), AccessFault>),
    /// A store at the last address with room for it, and loads and stores at addresses outside.
    Edges(Width, u32),
    /// Sets the pmpaddr value and the configuration byte of PMP entry 0.
    Entry(u32, u8),
    /// Expects the verdict of the PMP entries on an access.
    Judge(Mode, Access, u32, Width, Verdict),
    /// Expects the first six bytes of the memory.
    First([u8; 6]),
    /// Expects the last five bytes of the memory.
    Last([u8; 5]),
    /// Writes the first five bytes.
    WriteFirst([u8; 5]),
    /// Writes the last four bytes.
    WriteLast([u8; 4]),
    /// Zeroes bytes, by their first address and their number.
    Zero(u32, u32),
    /// Complements bytes, by their first address and their number.
    Complement(u32, u32),
    /// Expects whether bytes are inside the memory, by their first address and their number.
    Contains(u32, u32, bool),
    /// Writes a byte to an address, and expects whether the address is inside the memory.
    Poke(u32, u8, bool),
    /// Expects the byte at an address, or none outside the memory.
    Peek(u32, Option<u8>),
}

/// Executes lines on a new memory of 65536 bytes and PMP entries at reset. Fails at the first line that does not hold, and returns its index.
///
/// The helper functions have no contracts, so that the proof of a test stays small. The run of a test shows what they do.
pub fn run(rt: HostRuntime, lines: &[Line]) -> Result<(), Fail> {
    let mut ram = Ram::new(rt.alloc(), 65_536).ok().ok_or("a RAM")?;
    let mut pmp = Pmp::new();
    for (index, line) in lines.iter().enumerate() {
        if !accesses(&mut ram, &mut pmp, *line) {
            return Err(Fail::new(format_args!("line {index}")));
        }
    }
    Ok(())
}

/// Returns whether a line about accesses and PMP entries holds. Other lines are passed to `bytes`.
fn accesses(ram: &mut Ram, pmp: &mut Pmp, line: Line) -> bool {
    match line {
        Line::Load(mode, address, width, wanted) => {
            load(ram, pmp, mode, address, width) == wanted
        }
        Line::Fetch(mode, address, wanted) => fetch(ram, pmp, mode, address) == wanted,
        Line::Store(mode, address, width, value, wanted) => {
            store(ram, pmp, mode, address, width, value) == wanted
        }
        Line::Edges(width, last) => edges(ram, pmp, width, last),
        Line::Entry(address, configuration) => {
            set_entry(pmp, address, configuration);
            true
        }
        Line::Judge(mode, access, address, width, wanted) => {
            pmp.judge(mode, access, address, width) == wanted
        }
        other => bytes(ram, other),
    }
}

/// Returns whether a line about bytes holds.
fn bytes(ram: &mut Ram, line: Line) -> bool {
    match line {
        Line::First(wanted) => shows(ram, RAM_BASE, 6, &wanted),
        Line::Last(wanted) => shows(ram, END - 5, 5, &wanted),
        Line::WriteFirst(bytes) => write(ram, RAM_BASE, &bytes),
        Line::WriteLast(bytes) => write(ram, END - 4, &bytes),
        Line::Zero(base, size) => zero(ram, base, size),
        Line::Complement(base, size) => complement(ram, base, size),
        Line::Contains(base, size, wanted) => ram.contains(base, size) == wanted,
        Line::Poke(address, byte, wanted) => ram.poke(address, byte) == wanted,
        Line::Peek(address, wanted) => ram.peek(address) == wanted,
        _ => false,
    }
}

fn load(
    ram: &Ram,
    pmp: &mut Pmp,
    mode: Mode,
    address: u32,
    width: Width,
) -> Result<u32, AccessFault> {
    ram.load(pmp, mode, address, width)
}

fn fetch(ram: &Ram, pmp: &mut Pmp, mode: Mode, address: u32) -> Result<u32, AccessFault> {
    ram.fetch(pmp, mode, address)
}

fn store(
    ram: &mut Ram,
    pmp: &mut Pmp,
    mode: Mode,
    address: u32,
    width: Width,
    value: u32,
) -> Result<(), AccessFault> {
    ram.store(pmp, mode, address, width, value)
}

/// Stores at the last address with room, and returns whether accesses at addresses outside are refused.
fn edges(ram: &mut Ram, pmp: &mut Pmp, width: Width, last: u32) -> bool {
    if store(ram, pmp, Mode::M, last, width, u32::MAX) != Ok(()) {
        return false;
    }
    for address in [last.wrapping_add(1), RAM_BASE - 1, u32::MAX, 0] {
        let loaded = load(ram, pmp, Mode::M, address, width);
        let stored = store(ram, pmp, Mode::M, address, width, 0);
        if loaded != Err(AccessFault::Outside) || stored != Err(AccessFault::Outside) {
            return false;
        }
    }
    true
}

/// Sets PMP entry 0.
fn set_entry(pmp: &mut Pmp, address: u32, configuration: u8) {
    let first = PmpIndex::new(0);
    pmp.write_addr(first, address);
    pmp.write_cfg(first, configuration);
}

/// Returns whether the bytes from an address on are these.
fn shows(ram: &Ram, base: u32, size: u32, wanted: &[u8]) -> bool {
    ram.contains(base, size) && ram.part(base, size) == wanted
}

/// Writes bytes, and returns whether there is room for them.
fn write(ram: &mut Ram, base: u32, bytes: &[u8]) -> bool {
    let Ok(size) = u32::try_from(bytes.len()) else {
        return false;
    };
    let is_inside = ram.contains(base, size);
    if is_inside {
        ram.write_part(base, bytes);
    }
    is_inside
}

/// Zeroes bytes, and returns whether they are inside the memory.
fn zero(ram: &mut Ram, base: u32, size: u32) -> bool {
    let is_inside = ram.contains(base, size);
    if is_inside {
        ram.zero(base, size);
    }
    is_inside
}

/// Complements bytes, and returns whether they are inside the memory.
fn complement(ram: &mut Ram, base: u32, size: u32) -> bool {
    let is_inside = ram.contains(base, size);
    if is_inside {
        ram.complement(base, size);
    }
    is_inside
}

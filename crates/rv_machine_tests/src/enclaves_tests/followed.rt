//! Executes the lines of a test on a memory and a table of enclaves.

use rv_enclaves::{CreateArgs, EnclaveState, Shared, Slot, Table, World, write_layout};
use rv_memory::Ram;
use rv_pmp::{Pmp, PmpIndex};
use rv_state::Regs;
use rv_word::Reg;
use std::test::Fail;

/// A line of a test: a call, and its expected result. The result of a refused call is its status.
#[derive(Clone, Copy)]
pub enum Line {
    /// Creates an enclave with a0 to a4: the base and size of the region, those of the window, and the entry.
    Create([u32; 5], Result<u32, u32>),
    /// Destroys the enclave in the slot with a number.
    Destroy(u32, Result<u32, u32>),
    /// Measures the enclave in the slot with a number, for a world and to an address, with the PMP entries of the table and that world.
    Measure(World, u32, u32, Result<u32, u32>),
    /// Scrambles the enclave in the slot with a number, and expects whether this succeeds.
    Scramble(u32, bool),
    /// Sets the state of the enclave in the slot with a number.
    SetState(u32, EnclaveState),
    /// Expects the state in a slot, if its enclave is live.
    State(u32, Option<EnclaveState>),
    /// Expects a register of the saved context of a slot, if there is one.
    SavedRegister(u32, u8, Option<u32>),
    /// Writes a byte of memory.
    Poke(u32, u8),
    /// Expects a byte of memory, or none outside RAM.
    Byte(u32, Option<u8>),
    /// Expects the configuration byte and the pmpaddr value of a PMP entry, for the table and a world.
    Entry(World, u8, u8, u32),
}

/// Executes lines on a new memory of 262144 bytes and a table without enclaves. Fails at the first line that does not hold, and returns its
/// index.
///
/// The helper functions have no contracts, so that the proof of a test stays small. The run of a test shows what they do.
pub fn run(rt: HostRuntime, lines: &[Line]) -> Result<(), Fail> {
    let mut shared = Shared {
        memory: Ram::new(rt.alloc(), 262_144).ok().ok_or("a RAM")?,
        table: Table::new(),
        contexts: [None; 13],
    };
    for (index, line) in lines.iter().enumerate() {
        if !holds(&mut shared, *line) {
            return Err(Fail::new(format_args!("line {index}")));
        }
    }
    Ok(())
}

/// Returns whether a line holds.
fn holds(shared: &mut Shared, line: Line) -> bool {
    match line {
        Line::Create(arguments, wanted) => create(shared, &arguments) == wanted,
        Line::Destroy(named, wanted) => destroy(shared, named) == wanted,
        Line::Measure(world, named, address, wanted) => {
            measure(shared, &world, named, address) == wanted
        }
        Line::Poke(address, byte) => poke(shared, address, byte),
        Line::Byte(address, wanted) => peek(shared, address) == wanted,
        Line::Entry(world, index, cfg, addr) => entry(shared, &world, index) == (cfg, addr),
        _ => holds_of_slot(shared, line),
    }
}

/// Returns whether a line about a slot holds.
fn holds_of_slot(shared: &mut Shared, line: Line) -> bool {
    match line {
        Line::Scramble(number, wanted) => scramble(shared, number) == Some(wanted),
        Line::SetState(number, state) => set_state(shared, number, state),
        Line::State(number, wanted) => state(shared, number) == wanted,
        Line::SavedRegister(number, reg, wanted) => saved_register(shared, number, reg) == wanted,
        _ => false,
    }
}

fn create(shared: &mut Shared, arguments: &[u32; 5]) -> Result<u32, u32> {
    let mut regs = Regs::new();
    regs.set(Reg::new(10), arguments[0]);
    regs.set(Reg::new(11), arguments[1]);
    regs.set(Reg::new(12), arguments[2]);
    regs.set(Reg::new(13), arguments[3]);
    regs.set(Reg::new(14), arguments[4]);
    shared
        .create(&CreateArgs::new(&regs))
        .map_err(|refusal| refusal.status())
}

fn destroy(shared: &mut Shared, named: u32) -> Result<u32, u32> {
    shared.destroy(named).map_err(|refusal| refusal.status())
}

fn measure(shared: &mut Shared, world: &World, named: u32, address: u32) -> Result<u32, u32> {
    let mut pmp = Pmp::new();
    write_layout(&mut pmp, &shared.table, world);
    shared
        .measure(&pmp, world, named, address)
        .map_err(|refusal| refusal.status())
}

fn scramble(shared: &mut Shared, number: u32) -> Option<bool> {
    Some(shared.scramble(Slot::new(number)?))
}

fn set_state(shared: &mut Shared, number: u32, state: EnclaveState) -> bool {
    let Some(slot) = Slot::new(number) else {
        return false;
    };
    shared.table.set_state(slot, state);
    true
}

fn state(shared: &Shared, number: u32) -> Option<EnclaveState> {
    shared.table.get(Slot::new(number)?).map(|info| info.state)
}

fn saved_register(shared: &Shared, number: u32, reg: u8) -> Option<u32> {
    let slot = Slot::new(number)?;
    let context = shared.contexts[usize::from(slot.number())]?;
    (reg < 32).then(|| context.regs.get(Reg::new(reg)))
}

fn poke(shared: &mut Shared, address: u32, byte: u8) -> bool {
    shared.memory.poke(address, byte)
}

fn peek(shared: &Shared, address: u32) -> Option<u8> {
    shared.memory.peek(address)
}

fn entry(shared: &Shared, world: &World, index: u8) -> (u8, u32) {
    let mut pmp = Pmp::new();
    write_layout(&mut pmp, &shared.table, world);
    if index < 16 {
        let index = PmpIndex::new(index);
        (pmp.cfg(index), pmp.addr(index))
    } else {
        (0, 0)
    }
}

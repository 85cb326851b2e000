//! The PMP entries of a table and a world.

ghost use Rattle.std.specs.Prelude.{◌≡◌, Some, MatchOption};
ghost use Rattle.rv_enclaves.specs.Layout.{Entry as EntryOf, napot as napot_of, entry_at as entry_at_of, region_entry as region_entry_of, window_entry_of, unused as unused_of, layout, mie_of};
ghost use Rattle.rv_enclaves.specs.Unlocked.{IsUnlocked};

use crate::slot::Slot;
use crate::slot_info::SlotInfo;
use crate::table::Table;
use crate::world::World;
use rv_memory::{Block, monitor_block};
use rv_pmp::Pmp;

/// The cfg byte of a NAPOT entry without permissions.
const NOTHING: u8 = 0x18;

/// The cfg byte of a NAPOT entry with R and W.
const READ_WRITE: u8 = 0x1B;

/// The cfg byte of a NAPOT entry with R, W and X.
const ALL: u8 = 0x1F;

/// One PMP entry: its cfg byte and its pmpaddr value.
#[derive(Clone, Copy)]
struct Entry {
    cfg: u8,
    addr: u32,
}

/// Returns the NAPOT entry that covers a valid block, with this cfg byte.
fn napot(cfg: u8, block: Block) -> Entry
    ensures cfg { result.cfg ≡ (napot_of cfg block).cfg }
    ensures addr { result.addr ≡ (napot_of cfg block).addr }
{
    Entry {
        cfg,
        addr: block.base / 4 + (block.size / 8).saturating_sub(1),
    }
}

/// Returns the entry for the region of a slot whose enclave is live.
#[inline(always)]
fn region_entry(world: &World, slot: Slot, info: &SlotInfo) -> Entry
    ensures cfg { result.cfg ≡ (region_entry_of world.now slot (Some info.now)).cfg }
    ensures addr { result.addr ≡ (region_entry_of world.now slot (Some info.now)).addr }
{
    let cfg = if world.is_enclave(slot) { ALL } else { NOTHING };
    napot(cfg, info.region)
}

/// Returns the entry for the window of the enclave that runs, if it has one.
fn window_entry(info: &SlotInfo) -> Option<Entry>
    ensures { MatchOption result (window_entry_of (Some info.now) ≡ unused_of)
        (λ entry. (entry.cfg ≡ (window_entry_of (Some info.now)).cfg) × (entry.addr ≡ (window_entry_of (Some info.now)).addr)) }
{
    if info.window.size == 0 {
        None
    } else {
        Some(napot(READ_WRITE, info.window))
    }
}

/// Returns entry `i` of the layout, if it is used.
#[inline(always)]
#[tactic(auto, unfolding(crate::specs::Layout::entry_at))]
fn used_entry_at(table: &Table, world: &World, i: u8) -> Option<Entry>
    ensures { MatchOption result (entry_at_of table.now world.now i ≡ unused_of)
        (λ entry. (entry.cfg ≡ (entry_at_of table.now world.now i).cfg) × (entry.addr ≡ (entry_at_of table.now world.now i).addr)) }
{
    if i == 0 {
        return Some(napot(NOTHING, monitor_block()));
    }
    if let Some(slot) = Slot::new(u32::from(i - 1)) {
        let info = table.get(slot)?;
        return Some(region_entry(world, slot, info));
    }
    match *world {
        World::Host if i != 14 => Some(Entry {
            cfg: ALL,
            addr: 0xFFFF_FFFF,
        }),
        World::Enclave(slot) if i == 14 => window_entry(table.get(slot)?),
        _ => None,
    }
}

/// Sets all sixteen PMP entries to those of a table and a world (RISC-V Privileged Architecture 20211203, section 3.7.1):
/// - the monitor's range;
/// - the region of each slot;
/// - the window of the enclave, while one runs;
/// - all other addresses, while the host runs.
pub fn write_layout(pmp: &mut Pmp, table: &Table, world: &World)
    requires { IsUnlocked pmp.old }
    ensures { pmp.new ≡ layout table.now world.now }
{
    let mut cfgs = [0; 16];
    let mut addrs = [0; 16];
    for i in 0..16 {
        if let Some(entry) = used_entry_at(table, world, i as u8) {
            cfgs[i] = entry.cfg;
            addrs[i] = entry.addr;
        }
    }
    pmp.set_entries(&cfgs, &addrs);
}

//! The call `measure`.

ghost use Rattle.std.specs.Prelude.{◌≡◌, ◌-◌, ◌≤◌, ◌+◌, ◌<◌, ◌^◌, length, None, Some, MatchResult};
ghost use Rattle.std.specs.List.{list_all, range_with_len};
ghost use Rattle.rv_enclaves.specs.Refusals.{first_refusal};
ghost use Rattle.rv_enclaves.specs.Table.{slot_at};
ghost use Rattle.rv_enclaves.specs.Measure.{measured, measure_refusals, measured_slot, may_store as may_store_of, may_store_all as may_store_all_of, with_bytes_at};

use crate::refusal::Refusal;
use crate::shared::Shared;
use crate::slot_info::SlotInfo;
use crate::table::Table;
use crate::world::World;
use rv_memory::{RAM_BASE, Ram};
use rv_pmp::{Access, Mode, Pmp};
use rv_word::Width;

/// Returns the record of the enclave to measure, if it is live: the one in the slot that the host names, or the caller.
fn measured_info(table: &Table, world: &World, named: u32) -> Option<SlotInfo>
    ensures { result ≡ slot_at table.now (measured_slot world.now named) }
{
    match *world {
        World::Host => table.named(named).map(|(_, info)| info),
        World::Enclave(slot) => table.slot_at(slot),
    }
}

impl Shared {
    /// Writes the measurement of an enclave, 32 bytes, to memory at an address.
    ///
    /// # Errors
    ///
    /// Nothing changes then:
    /// - `NoEnclave`, if there is no live enclave to measure;
    /// - `BadAddress`, if the current PMP entries do not permit mode S to store one of the bytes.
    #[tactic(auto, unfolding(crate::specs::Measure::measured))]
    pub fn measure(
        &mut self,
        pmp: &Pmp,
        world: &World,
        named: u32,
        address: u32,
    ) -> Result<u32, Refusal>
        ensures { MatchResult result
            (λ value. (first_refusal (measure_refusals self.old pmp.now (measured_slot world.now named) address) ≡ None) × (value ≡ 0)
            × (self.new ≡ measured self.old (measured_slot world.now named) address))
            (λ refusal. (first_refusal (measure_refusals self.old pmp.now (measured_slot world.now named) address) ≡ Some refusal) × (self.new ≡ self.old)) }
    {
        let info = check_measure(self, pmp, world, named, address)?;
        put_bytes(&mut self.memory, address, &info.measurement);
        Ok(0)
    }
}

/// Returns the record of the enclave to measure, or the first refusal that applies.
#[tactic(auto, unfolding(crate::specs::Measure::measure_refusals))]
fn check_measure(
    shared: &Shared,
    pmp: &Pmp,
    world: &World,
    named: u32,
    address: u32,
) -> Result<SlotInfo, Refusal>
    ensures { MatchResult result
        (λ info. (first_refusal (measure_refusals shared.now pmp.now (measured_slot world.now named) address) ≡ None)
        × (slot_at shared.now.table (measured_slot world.now named) ≡ Some info))
        (λ refusal. first_refusal (measure_refusals shared.now pmp.now (measured_slot world.now named) address) ≡ Some refusal) }
{
    match measured_info(&shared.table, world, named) {
        None => Err(Refusal::NoEnclave),
        Some(info) if may_store_all(&shared.memory, pmp, address) => Ok(info),
        Some(_) => Err(Refusal::BadAddress),
    }
}

/// Writes 32 bytes at an address, if they are inside the memory.
#[tactic(auto, unfolding(rv_memory::specs::Memory::write))]
fn put_bytes(memory: &mut Ram, address: u32, bytes: &[u8; 32])
    ensures { memory.new ≡ with_bytes_at memory.old address bytes.now }
{
    if memory.contains(address, 32) {
        memory.write_part(address, bytes);
    }
}

/// Returns whether mode S may store each of 32 bytes.
#[tactic(auto, using(crate::proofs::Scans::all_of_32), unfolding(crate::specs::Measure::may_store_all))]
fn may_store_all(memory: &Ram, pmp: &Pmp, address: u32) -> bool
    ensures { result ≡ may_store_all_of memory.now pmp.now address }
{
    let first = u64::from(address);
    may_store_between(memory, pmp, first, first + 32)
}

/// Returns whether mode S may store each byte from the first address up to, and without, the second.
fn may_store_between(memory: &Ram, pmp: &Pmp, first: u64, end: u64) -> bool
    ensures { result ≡ list_all (may_store_of memory.now pmp.now) (range_with_len first (end - first)) }
{
    (first..end).all(|address| may_store(memory, pmp, address))
}

/// Returns whether mode S may store a byte.
fn may_store(memory: &Ram, pmp: &Pmp, address: u64) -> bool
    ensures { result ≡ may_store_of memory.now pmp.now address }
{
    let end = u64::from(RAM_BASE) + u64::from(memory.size());
    if address >= end {
        return false;
    }
    let address = address as u32;
    memory.contains(address, 1)
        && pmp
            .judge(Mode::S, Access::Write, address, Width::Byte)
            .permits()
}

//! Tests of the calls on the state that the harts share: calls that succeed, and each refusal in its order.

mod followed;

use followed::{Line, run};
use rv_enclaves::{Call, EnclaveState, Slot, World, call_requested};
use std::test::Fail;

/// The value of a7 in a call.
const KEY: u32 = 0x0a45_4e43;

/// The status of a create whose region is not a valid block.
const BAD_REGION: u32 = 0xffff_fffe;

/// The status of a create whose window is not a valid block.
const BAD_WINDOW: u32 = 0xffff_fffd;

/// The status of a create whose region or window overlaps a block that it must not overlap.
const OVERLAP: u32 = 0xffff_fffc;

/// The status of a create whose entry point is not a multiple of 4, or not in the region.
const BAD_ENTRY: u32 = 0xffff_fffb;

/// The status of a create if every slot has an enclave.
const NO_SLOT: u32 = 0xffff_fffa;

/// The status of a call for a slot without an enclave.
const NO_ENCLAVE: u32 = 0xffff_fff9;

/// The status of a call that the state of the enclave does not permit.
const BAD_STATE: u32 = 0xffff_fff8;

/// The status of a measure if the caller may not store one of the 32 bytes.
const BAD_ADDRESS: u32 = 0xffff_fff7;

/// The number of the call create.
const CREATE: u32 = 1;

/// The number of the call destroy.
const DESTROY: u32 = 2;

/// The number of the call run.
const RUN: u32 = 3;

/// The number of the call resume.
const RESUME: u32 = 4;

/// The number of the call measure.
const MEASURE: u32 = 5;

/// The number of the call stop.
const STOP: u32 = 6;

/// The number of the call exit.
const EXIT: u32 = 7;

/// The number of register x0.
const X0: u8 = 0;

/// The number of register a0.
const A0: u8 = 10;

/// The number of register a1.
const A1: u8 = 11;

/// The number of register a2.
const A2: u8 = 12;

/// The number of register a3.
const A3: u8 = 13;

/// The number of register a4.
const A4: u8 = 14;

/// The base of the region of the enclave in slot 0.
const REGION: u32 = 0x8002_0000;

/// The base of the window of the enclave in slot 0.
const WINDOW: u32 = 0x8003_0000;

/// The size of a region or a window in bytes.
const SIZE: u32 = 0x1000;

/// The address after the last byte of RAM.
const RAM_END: u32 = 0x8004_0000;

/// The configuration of a PMP entry that is off.
const OFF: u8 = 0;

/// The configuration of a PMP entry that matches a naturally aligned power-of-two range, and permits no access.
const NAPOT: u8 = 0x18;

/// The configuration of such an entry that permits loads and stores.
const NAPOT_RW: u8 = 0x1b;

/// The configuration of such an entry that permits every access.
const NAPOT_RWX: u8 = 0x1f;

/// The pmpaddr value of the monitor's range: 65536 bytes from 80000000.
const MONITOR_NAPOT: u32 = 0x2000_1fff;

/// The pmpaddr value of the region: 4096 bytes from 80020000.
const REGION_NAPOT: u32 = 0x2000_81ff;

/// The pmpaddr value of the window: 4096 bytes from 80030000.
const WINDOW_NAPOT: u32 = 0x2000_c1ff;

/// The pmpaddr value of the whole address space.
const ALL_NAPOT: u32 = 0xffff_ffff;

/// The result of a scramble that succeeds.
const DONE: bool = true;

/// The result of a scramble that is refused.
const REFUSED_SCRAMBLE: bool = false;

/// a0 to a4 for the region 80020000 of 4096 bytes, the window 80030000 of 4096 bytes, and the entry 80020010.
const WITH_WINDOW: [u32; 5] = [REGION, SIZE, WINDOW, SIZE, REGION + 0x10];

/// a0 to a4 for the same region without a window, with its first word as the entry.
const WITHOUT_WINDOW: [u32; 5] = [REGION, SIZE, WINDOW, 0, REGION];

/// Numbers, and the slots with these numbers.
const NUMBERS: [(u32, Option<u8>); 6] = [
    (0, Some(0)),
    (12, Some(12)),
    (13, None),
    (255, None),
    (256, None),
    (0xffff_ffff, None),
];

/// The slots have the numbers from 0 to 12. No slot has a number above 12.
#[test]
fn slots_have_numbers() -> Result<(), Fail> {
    for (number, slot) in NUMBERS {
        if Slot::new(number).map(|slot| slot.number()) != slot {
            return Err("another slot".into());
        }
    }
    Ok(())
}

/// Returns the number of the call that a world requests.
fn requested(world: &World, a7: u32, a6: u32) -> Option<u32> {
    call_requested(world, a7, a6).map(|call| match call {
        Call::Create => CREATE,
        Call::Destroy => DESTROY,
        Call::Run => RUN,
        Call::Resume => RESUME,
        Call::Measure => MEASURE,
        Call::Stop => STOP,
        Call::Exit => EXIT,
    })
}

/// The values of a7 and a6, and the numbers of the calls that they request from the host and from an enclave.
const REQUESTS: [(u32, u32, Option<u32>, Option<u32>); 10] = [
    (KEY, CREATE - 1, None, None),
    (KEY, CREATE, Some(CREATE), None),
    (KEY, DESTROY, Some(DESTROY), None),
    (KEY, RUN, Some(RUN), None),
    (KEY, RESUME, Some(RESUME), None),
    (KEY, MEASURE, Some(MEASURE), Some(MEASURE)),
    (KEY, STOP, None, Some(STOP)),
    (KEY, EXIT, None, Some(EXIT)),
    (KEY, EXIT + 1, None, None),
    (KEY + 1, CREATE, None, None),
];

#[test]
fn each_world_has_its_calls() -> Result<(), Fail> {
    let slot = Slot::new(0).ok_or("a slot")?;
    for (a7, a6, host, enclave) in REQUESTS {
        if requested(&World::Host, a7, a6) != host
            || requested(&World::Enclave(slot), a7, a6) != enclave
        {
            return Err("another call".into());
        }
    }
    Ok(())
}

/// The lines of the test `creates_in_the_lowest_free_slot`.
const CREATED: [Line; 12] = [
    Line::Create(WITH_WINDOW, Ok(0)),
    Line::State(0, Some(EnclaveState::Fresh)),
    Line::SavedRegister(0, A0, Some(REGION)),
    Line::SavedRegister(0, A1, Some(SIZE)),
    Line::SavedRegister(0, A2, Some(WINDOW)),
    Line::SavedRegister(0, A3, Some(SIZE)),
    Line::SavedRegister(0, A4, Some(0)),
    Line::State(1, None),
    Line::SavedRegister(1, A0, None),
    Line::Create([REGION + 0x1000, SIZE, 7, 0, REGION + 0x1000], Ok(1)),
    Line::SavedRegister(1, A2, Some(0)),
    Line::State(1, Some(EnclaveState::Fresh)),
];

#[test]
fn creates_in_the_lowest_free_slot(rt: HostRuntime) -> Result<(), Fail> {
    run(rt, &CREATED)
}

/// Each call is refused for the first reason that applies, and changes nothing.
const REFUSED: [Line; 9] = [
    Line::Create(WITH_WINDOW, Ok(0)),
    Line::Create(
        [REGION + 0x800, SIZE, WINDOW + 0x800, SIZE, 1],
        Err(BAD_REGION),
    ),
    Line::Create([REGION, SIZE, WINDOW + 0x800, SIZE, 1], Err(BAD_WINDOW)),
    Line::Create([REGION, SIZE, 0, 0, 1], Err(OVERLAP)),
    Line::Create([WINDOW, SIZE, 0, 0, WINDOW], Err(OVERLAP)),
    Line::Create([0x8000_f000, SIZE, 0, 0, 0x8000_f000], Err(OVERLAP)),
    Line::Create(
        [REGION + 0x2000, SIZE, 0, 0, REGION + 0x2002],
        Err(BAD_ENTRY),
    ),
    Line::Create(
        [REGION + 0x2000, SIZE, 0, 0, REGION + 0x3000],
        Err(BAD_ENTRY),
    ),
    Line::State(1, None),
];

#[test]
fn refuses_to_create(rt: HostRuntime) -> Result<(), Fail> {
    run(rt, &REFUSED)
}

/// Returns the arguments of a create for a region of 4096 bytes at an address, without a window.
fn page(base: u32) -> [u32; 5] {
    [base, SIZE, 0, 0, base]
}

/// There are only thirteen slots.
#[test]
fn has_thirteen_slots(rt: HostRuntime) -> Result<(), Fail> {
    let lines = [
        Line::Create(page(REGION), Ok(0)),
        Line::Create(page(REGION + 0x1000), Ok(1)),
        Line::Create(page(REGION + 0x2000), Ok(2)),
        Line::Create(page(REGION + 0x3000), Ok(3)),
        Line::Create(page(REGION + 0x4000), Ok(4)),
        Line::Create(page(REGION + 0x5000), Ok(5)),
        Line::Create(page(REGION + 0x6000), Ok(6)),
        Line::Create(page(REGION + 0x7000), Ok(7)),
        Line::Create(page(REGION + 0x8000), Ok(8)),
        Line::Create(page(REGION + 0x9000), Ok(9)),
        Line::Create(page(REGION + 0xa000), Ok(10)),
        Line::Create(page(REGION + 0xb000), Ok(11)),
        Line::Create(page(REGION + 0xc000), Ok(12)),
        Line::Create(page(REGION + 0xd000), Err(NO_SLOT)),
    ];
    run(rt, &lines)
}

/// The lines of the test `destroy_zeroes`.
const DESTROYED: [Line; 12] = [
    Line::Poke(REGION, 0x11),
    Line::Poke(REGION + SIZE - 1, 0x22),
    Line::Poke(REGION + SIZE, 0x33),
    Line::Create(WITHOUT_WINDOW, Ok(0)),
    Line::SetState(0, EnclaveState::Running),
    Line::Destroy(0, Err(BAD_STATE)),
    Line::SetState(0, EnclaveState::Exited),
    Line::Destroy(0, Ok(0)),
    Line::Byte(REGION, Some(0)),
    Line::Byte(REGION + SIZE - 1, Some(0)),
    Line::Byte(REGION + SIZE, Some(0x33)),
    Line::SavedRegister(0, A0, None),
];

#[test]
fn destroy_zeroes(rt: HostRuntime) -> Result<(), Fail> {
    run(rt, &DESTROYED)
}

/// The lines of the test `refuses_a_slot_without_an_enclave`.
const NO_ENCLAVES: [Line; 3] = [
    Line::Destroy(0, Err(NO_ENCLAVE)),
    Line::Destroy(13, Err(NO_ENCLAVE)),
    Line::Measure(World::Host, 13, 0x8001_0000, Err(NO_ENCLAVE)),
];

#[test]
fn refuses_a_slot_without_an_enclave(rt: HostRuntime) -> Result<(), Fail> {
    run(rt, &NO_ENCLAVES)
}

/// The measurement is stored only where mode S of the world may store: not in the region while the host runs.
const MEASURED: [Line; 8] = [
    Line::Create(WITHOUT_WINDOW, Ok(0)),
    Line::Measure(World::Host, 0, REGION, Err(BAD_ADDRESS)),
    Line::Measure(World::Host, 0, REGION - 31, Err(BAD_ADDRESS)),
    Line::Measure(World::Host, 0, RAM_END - 16, Err(BAD_ADDRESS)),
    Line::Poke(REGION - 33, 0x5a),
    Line::Measure(World::Host, 0, REGION - 32, Ok(0)),
    Line::Byte(REGION - 33, Some(0x5a)),
    Line::Byte(REGION, Some(0)),
];

#[test]
fn measures_where_the_world_may_store(rt: HostRuntime) -> Result<(), Fail> {
    run(rt, &MEASURED)
}

/// The lines of the test `scrambling_changes_private_state`.
const SCRAMBLED: [Line; 11] = [
    Line::Scramble(0, REFUSED_SCRAMBLE),
    Line::Poke(REGION, 0x0f),
    Line::Poke(REGION - 1, 0x0f),
    Line::Create(WITHOUT_WINDOW, Ok(0)),
    Line::Scramble(0, DONE),
    Line::Byte(REGION, Some(0xf0)),
    Line::Byte(REGION - 1, Some(0x0f)),
    Line::SavedRegister(0, X0, Some(0)),
    Line::SavedRegister(0, A1, Some(0xffff_efff)),
    Line::SetState(0, EnclaveState::Running),
    Line::Scramble(0, REFUSED_SCRAMBLE),
];

#[test]
fn scrambling_changes_private_state(rt: HostRuntime) -> Result<(), Fail> {
    run(rt, &SCRAMBLED)
}

/// The PMP entries for a table with one enclave, while the host runs.
const ENTRIES: [Line; 7] = [
    Line::Entry(World::Host, 1, OFF, 0),
    Line::Create(WITH_WINDOW, Ok(0)),
    Line::Entry(World::Host, 0, NAPOT, MONITOR_NAPOT),
    Line::Entry(World::Host, 1, NAPOT, REGION_NAPOT),
    Line::Entry(World::Host, 2, OFF, 0),
    Line::Entry(World::Host, 14, OFF, 0),
    Line::Entry(World::Host, 15, NAPOT_RWX, ALL_NAPOT),
];

#[test]
fn the_host_has_its_entries(rt: HostRuntime) -> Result<(), Fail> {
    run(rt, &ENTRIES)
}

/// The PMP entries while the enclave runs.
#[test]
fn an_enclave_has_its_entries(rt: HostRuntime) -> Result<(), Fail> {
    let world = World::Enclave(Slot::new(0).ok_or("a slot")?);
    let lines = [
        Line::Create(WITH_WINDOW, Ok(0)),
        Line::Entry(world, 0, NAPOT, MONITOR_NAPOT),
        Line::Entry(world, 1, NAPOT_RWX, REGION_NAPOT),
        Line::Entry(world, 14, NAPOT_RW, WINDOW_NAPOT),
        Line::Entry(world, 15, OFF, 0),
    ];
    run(rt, &lines)
}

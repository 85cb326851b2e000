//! Tests of the monitor with worked examples.

mod machine;
mod names;

use crate::csr_numbers::{MIP, PMPCFG0, PMPCFG3, SCAUSE, SEPC, STVAL};
use machine::{Line, Shown, run, run_two};
use names::{
    A0, A1, A2, A3, A6, A7, ALL_NAPOT, BAD_ADDRESS, BAD_ENTRY, BAD_REGION, BAD_STATE, BAD_WINDOW,
    CREATE, DESTROY, ECALL, ECALL_BYTE, ENCLAVE_0, EXIT, FREE, HOST, HOST_START,
    ILLEGAL_INSTRUCTION, INCREMENT_T0, INTERRUPTED, KEY, LOAD_ACCESS_FAULT, LOAD_T0_FROM_T1,
    MEASURE, MONITOR_NAPOT, MTIP, NAPOT, NAPOT_RW, NAPOT_RWX, NO, NO_ENCLAVE, NO_KEY, NO_REGION,
    NO_SLOT, NOP_BYTE, NOT_ENTERED, NOT_LIVE, OVERLAP, RA, REGION, REGION_CLOSED, REGION_NAPOT,
    REGION_OPEN, REST_CLOSED, REST_OPEN, RESUME, RUN, SIZE, STOP, STOPPED, SUCCESS, SUPERVISOR, T0,
    T1, T6, WINDOW, WINDOW_NAPOT, X0, YES,
};
use rv_monitor::{Block, EnclaveState, SlotInfo};
use std::test::Fail;

/// The arguments of create for a region and a window of 4096 bytes each: base and size of both, and the entry.
const WITH_WINDOW: [u32; 5] = [REGION, SIZE, WINDOW, SIZE, REGION];

/// The arguments of create for a region without a window, whose first word is the entry.
const WITHOUT_WINDOW: [u32; 5] = [REGION, SIZE, 0, 0, REGION];

/// The arguments of another call for the enclave in slot 0.
const SLOT_0: [u32; 5] = [0; 5];

/// The lines of the test `an_enclave_runs`.
const ENCLAVE: [Line; 57] = [
    // create
    Line::PrepareCall(CREATE, WITH_WINDOW),
    Line::Step,
    Line::Expect(Shown::Entered, NOT_ENTERED),
    Line::Expect(Shown::X(A0), Some(SUCCESS)),
    Line::Expect(Shown::X(A1), Some(0)),
    Line::Expect(Shown::Pc, Some(HOST_START + 4)),
    Line::Expect(Shown::PmpCfg(0), Some(NAPOT)),
    Line::Expect(Shown::PmpCfg(1), Some(NAPOT)),
    Line::Expect(Shown::PmpAddr(0), Some(MONITOR_NAPOT)),
    Line::Expect(Shown::PmpAddr(1), Some(REGION_NAPOT)),
    Line::Expect(Shown::PmpCfg(15), Some(NAPOT_RWX)),
    Line::Expect(Shown::PmpAddr(15), Some(ALL_NAPOT)),
    // run
    Line::Poke(REGION, ECALL_BYTE),
    Line::Poke(REGION + 4, ECALL_BYTE),
    Line::SetRegister(A6, RUN),
    Line::SetRegister(A0, 0),
    Line::Step,
    Line::Expect(Shown::Entered, ENCLAVE_0),
    Line::Expect(Shown::World, ENCLAVE_0),
    Line::Expect(Shown::Pc, Some(REGION)),
    Line::Expect(Shown::PmpCfg(1), Some(NAPOT_RWX)),
    Line::Expect(Shown::PmpAddr(14), Some(WINDOW_NAPOT)),
    Line::Expect(Shown::PmpCfg(14), Some(NAPOT_RW)),
    Line::Expect(Shown::PmpAddr(15), Some(0)),
    Line::Expect(Shown::X(A0), Some(REGION)),
    Line::Expect(Shown::X(A1), Some(SIZE)),
    Line::Expect(Shown::X(A2), Some(WINDOW)),
    Line::Expect(Shown::X(A3), Some(SIZE)),
    // stop
    Line::SetRegister(A7, KEY),
    Line::SetRegister(A6, STOP),
    Line::SetRegister(A0, 5),
    Line::SetRegister(T0, 0x77),
    Line::Step,
    Line::Expect(Shown::World, HOST),
    Line::Expect(Shown::Pc, Some(HOST_START + 8)),
    Line::Expect(Shown::X(A0), Some(STOPPED)),
    Line::Expect(Shown::X(A1), Some(5)),
    Line::Expect(Shown::X(T0), Some(0)),
    // resume
    Line::SetRegister(A6, RESUME),
    Line::SetRegister(A0, 0),
    Line::Step,
    Line::Expect(Shown::Entered, ENCLAVE_0),
    Line::Expect(Shown::Pc, Some(REGION + 4)),
    Line::Expect(Shown::X(A0), Some(SUCCESS)),
    Line::Expect(Shown::X(A1), Some(0)),
    Line::Expect(Shown::X(T0), Some(0x77)),
    // exit, and a resume after the exit
    Line::SetRegister(A6, EXIT),
    Line::SetRegister(A0, 9),
    Line::Step,
    Line::Expect(Shown::Pc, Some(HOST_START + 12)),
    Line::Expect(Shown::X(A0), Some(SUCCESS)),
    Line::Expect(Shown::X(A1), Some(9)),
    Line::SetRegister(A0, 0),
    Line::Step,
    Line::Expect(Shown::Pc, Some(HOST_START + 16)),
    Line::Expect(Shown::X(A0), Some(BAD_STATE)),
    Line::Expect(Shown::Mode, SUPERVISOR),
];

/// Create, run, stop, resume, exit.
#[test]
fn an_enclave_runs(rt: HostRuntime) -> Result<(), Fail> {
    run(rt, &[ECALL; 4], &ENCLAVE)
}

/// The lines of the test `the_timer_stops_an_enclave`.
const TIMER: [Line; 21] = [
    Line::PrepareCall(CREATE, WITHOUT_WINDOW),
    Line::Step,
    Line::Poke(REGION, NOP_BYTE),
    Line::PrepareCall(RUN, SLOT_0),
    Line::Step,
    Line::Step,
    Line::Expect(Shown::Pc, Some(REGION + 4)),
    Line::RaiseTimer,
    Line::Step,
    Line::Expect(Shown::Trapped, YES),
    Line::Expect(Shown::Entered, NOT_ENTERED),
    Line::Expect(Shown::World, HOST),
    Line::Expect(Shown::Pc, Some(HOST_START + 8)),
    Line::Expect(Shown::X(A0), Some(INTERRUPTED)),
    Line::Expect(Shown::X(A1), Some(0)),
    Line::Expect(Shown::Csr(MIP), Some(0)),
    Line::SetRegister(A6, RESUME),
    Line::SetRegister(A0, 0),
    Line::Step,
    Line::Expect(Shown::Pc, Some(REGION + 4)),
    Line::Expect(Shown::X(A0), Some(REGION)),
];

/// Example 14: the timer stops an enclave, which resumes at the same instruction.
#[test]
fn the_timer_stops_an_enclave(rt: HostRuntime) -> Result<(), Fail> {
    run(rt, &[ECALL; 3], &TIMER)
}

/// The lines of the test `the_host_cannot_load_from_a_region`.
const LOAD_ACROSS: [Line; 8] = [
    Line::PrepareCall(CREATE, WITHOUT_WINDOW),
    Line::Step,
    Line::SetRegister(T1, REGION - 2),
    Line::Step,
    Line::Expect(Shown::Pc, Some(0)),
    Line::Expect(Shown::Csr(SEPC), Some(HOST_START + 4)),
    Line::Expect(Shown::Csr(SCAUSE), Some(LOAD_ACCESS_FAULT)),
    Line::Expect(Shown::Csr(STVAL), Some(REGION - 2)),
];

/// Example 9: a load across the start of a region traps to mode S of the host.
#[test]
fn the_host_cannot_load_from_a_region(rt: HostRuntime) -> Result<(), Fail> {
    run(rt, &[ECALL, LOAD_T0_FROM_T1], &LOAD_ACROSS)
}

/// The lines of the test `measure_checks_each_byte`.
const MEASURED: [Line; 22] = [
    Line::PrepareCall(CREATE, WITHOUT_WINDOW),
    Line::Step,
    // the last byte of the destination is in the region
    Line::PrepareCall(MEASURE, [0, REGION - 0x1f, 0, 0, 0]),
    Line::Step,
    Line::Expect(Shown::X(A0), Some(BAD_ADDRESS)),
    Line::Expect(Shown::X(A1), Some(0)),
    Line::Expect(Shown::Byte(REGION - 0x1f), Some(0)),
    // the destination starts in the monitor's range
    Line::PrepareCall(MEASURE, [0, HOST_START - 16, 0, 0, 0]),
    Line::Step,
    Line::Expect(Shown::X(A0), Some(BAD_ADDRESS)),
    Line::Expect(Shown::X(A1), Some(0)),
    Line::Expect(Shown::Byte(REGION - 0x1f), Some(0)),
    // the last byte of the destination is after RAM
    Line::PrepareCall(MEASURE, [0, 0x800f_ffe1, 0, 0, 0]),
    Line::Step,
    Line::Expect(Shown::X(A0), Some(BAD_ADDRESS)),
    Line::Expect(Shown::X(A1), Some(0)),
    Line::Expect(Shown::Byte(REGION - 0x1f), Some(0)),
    // the destination ends directly before the region
    Line::PrepareCall(MEASURE, [0, REGION - 0x20, 0, 0, 0]),
    Line::Step,
    Line::Expect(Shown::X(A0), Some(SUCCESS)),
    Line::Expect(Shown::X(A1), Some(0)),
    Line::ExpectOther(Shown::Byte(REGION - 0x1f), Some(0)),
];

/// Example 33: measure checks each byte of its destination.
#[test]
fn measure_checks_each_byte(rt: HostRuntime) -> Result<(), Fail> {
    run(rt, &[ECALL; 5], &MEASURED)
}

/// The arguments of a create while the enclave of `WITHOUT_WINDOW` is live, and the status.
const REFUSALS: [([u32; 5], u32); 11] = [
    // the region is outside RAM, is empty, has no power of two as its size, or starts at no multiple of its size
    ([0xffff_f000, SIZE, 0, 0, FREE], BAD_REGION),
    ([FREE, 0, 0, 0, 1], BAD_REGION),
    ([FREE, 0x3000, 0, 0, FREE], BAD_REGION),
    ([REGION - SIZE, 2 * SIZE, 0, 0, FREE], BAD_REGION),
    // the window has fewer than 4096 bytes
    ([FREE, SIZE, 0x8004_0000, 0x800, FREE], BAD_WINDOW),
    // the region overlaps the monitor's range, or a live region; the window overlaps the region
    ([0x8000_0000, 0x10_0000, 0, 0, FREE], OVERLAP),
    ([REGION, 2 * SIZE, 0, 0, FREE], OVERLAP),
    ([FREE, SIZE, FREE, SIZE, FREE], OVERLAP),
    // the entry is after the region, or is no multiple of 4
    ([FREE, SIZE, 0, 0, FREE + SIZE], BAD_ENTRY),
    ([FREE, SIZE, 0, 0, FREE + 2], BAD_ENTRY),
    // the base of an empty window is ignored
    ([FREE, SIZE, 0xffff_ffff, 0, FREE], SUCCESS),
];

/// Returns the lines of a create while the enclave of `WITHOUT_WINDOW` is live. They expect its status in a0, and its slot, 1, or 0 in a1.
fn second_create(arguments: [u32; 5], status: u32) -> [Line; 6] {
    [
        Line::PrepareCall(CREATE, WITHOUT_WINDOW),
        Line::Step,
        Line::PrepareCall(CREATE, arguments),
        Line::Step,
        Line::Expect(Shown::X(A0), Some(status)),
        Line::Expect(Shown::X(A1), Some(u32::from(status == SUCCESS))),
    ]
}

/// Example 13, and parts of example 37.
#[test]
fn refusals_of_create(rt: HostRuntime) -> Result<(), Fail> {
    for (arguments, status) in REFUSALS {
        run(rt, &[ECALL; 2], &second_create(arguments, status))?;
    }
    Ok(())
}

/// The lines of the test `slots_are_taken_and_freed`.
const SLOTS: [Line; 25] = [
    Line::Create(REGION, SUCCESS, 0),
    Line::Create(REGION + 0x1000, SUCCESS, 1),
    Line::Create(REGION + 0x2000, SUCCESS, 2),
    Line::Create(REGION + 0x3000, SUCCESS, 3),
    Line::Create(REGION + 0x4000, SUCCESS, 4),
    Line::Create(REGION + 0x5000, SUCCESS, 5),
    Line::Create(REGION + 0x6000, SUCCESS, 6),
    Line::Create(REGION + 0x7000, SUCCESS, 7),
    Line::Create(REGION + 0x8000, SUCCESS, 8),
    Line::Create(REGION + 0x9000, SUCCESS, 9),
    Line::Create(REGION + 0xa000, SUCCESS, 10),
    Line::Create(REGION + 0xb000, SUCCESS, 11),
    Line::Create(REGION + 0xc000, SUCCESS, 12),
    Line::Create(0x8008_0000, NO_SLOT, 0),
    // destroy the enclave in slot 5; the argument in a1 is ignored
    Line::PrepareCall(DESTROY, [5, 7, 0, 0, 0]),
    Line::Step,
    Line::Expect(Shown::X(A0), Some(SUCCESS)),
    Line::Expect(Shown::X(A1), Some(0)),
    Line::Expect(Shown::Region(5), NOT_LIVE),
    Line::Expect(Shown::Region(13), NOT_LIVE),
    // destroy the enclave again
    Line::PrepareCall(DESTROY, [5, 7, 0, 0, 0]),
    Line::Step,
    Line::Expect(Shown::X(A0), Some(NO_ENCLAVE)),
    Line::Expect(Shown::X(A1), Some(0)),
    Line::Create(0x8008_0000, SUCCESS, 5),
];

/// There are only thirteen slots. create takes the free slot with the lowest number.
#[test]
fn slots_are_taken_and_freed(rt: HostRuntime) -> Result<(), Fail> {
    run(rt, &[ECALL; 20], &SLOTS)
}

/// The lines of the test `destroy_zeroes`.
const DESTROYED: [Line; 14] = [
    Line::PrepareCall(CREATE, WITHOUT_WINDOW),
    Line::Step,
    Line::Poke(REGION, 0x55),
    Line::Poke(REGION + 0xfff, 0x66),
    Line::Poke(REGION + SIZE, 0x77),
    Line::PrepareCall(DESTROY, SLOT_0),
    Line::Step,
    Line::Expect(Shown::Byte(REGION), Some(0)),
    Line::Expect(Shown::Byte(REGION + 0xfff), Some(0)),
    Line::Expect(Shown::Byte(REGION + SIZE), Some(0x77)),
    Line::SetRegister(T1, REGION + 0xffe),
    Line::Step,
    Line::Expect(Shown::Trapped, NO),
    Line::Expect(Shown::X(T0), Some(0x0077_0000)),
];

/// Example 17: destroy zeroes the region. The host may not load its bytes before, and may load them after.
#[test]
fn destroy_zeroes(rt: HostRuntime) -> Result<(), Fail> {
    run(rt, &[ECALL, ECALL, LOAD_T0_FROM_T1], &DESTROYED)
}

/// SHA-256 of the words 80020000, 1000, 0, 0, 80020004, the byte 73 and 4095 zeros, computed with Python's hashlib.
const DIGEST: [u8; 32] = [
    0x3e, 0x25, 0x41, 0xec, 0x33, 0xc2, 0x57, 0x08, 0x55, 0x5d, 0x87, 0x42, 0x34, 0x63, 0x0f, 0xdf,
    0xe7, 0xf8, 0x5f, 0xdf, 0x1a, 0x9f, 0x67, 0xd8, 0x29, 0x30, 0xcd, 0x81, 0x80, 0x91, 0x3d, 0xd2,
];

/// The record of the enclave with this measurement. A window of size 0 has base 0.
const INFO: SlotInfo = SlotInfo {
    region: Block {
        base: REGION,
        size: SIZE,
    },
    window: Block { base: 0, size: 0 },
    entry: REGION + 4,
    measurement: DIGEST,
    state: EnclaveState::Fresh,
};

/// The lines of the test `a_measurement_is_taken_at_create`.
const MEASURED_AT_CREATE: [Line; 10] = [
    Line::Poke(REGION, ECALL_BYTE),
    Line::PrepareCall(CREATE, [REGION, SIZE, 7, 0, REGION + 4]),
    Line::Step,
    Line::ExpectRecord(INFO),
    Line::Poke(REGION, 0),
    Line::PrepareCall(MEASURE, [0, REGION - 0x20, 0, 0, 0]),
    Line::Step,
    Line::Expect(Shown::X(A0), Some(SUCCESS)),
    Line::Expect(Shown::X(A1), Some(0)),
    Line::ExpectBytes(REGION - 0x20, DIGEST),
];

/// The measurement is the SHA-256 of the five words and the region at create, and does not change.
#[test]
fn a_measurement_is_taken_at_create(rt: HostRuntime) -> Result<(), Fail> {
    run(rt, &[ECALL; 2], &MEASURED_AT_CREATE)
}

/// The lines of the test `requests_that_are_no_calls_are_refused`.
const NO_CALLS: [Line; 17] = [
    Line::ExpectNotSupported(NO_KEY, CREATE),
    Line::ExpectNotSupported(KEY - 1, CREATE),
    Line::ExpectNotSupported(KEY, CREATE - 1),
    Line::ExpectNotSupported(KEY, STOP),
    Line::ExpectNotSupported(KEY, EXIT),
    Line::ExpectNotSupported(KEY, EXIT + 1),
    Line::PrepareCall(CREATE, WITHOUT_WINDOW),
    Line::Step,
    Line::PrepareCall(RUN, SLOT_0),
    Line::Step,
    Line::Step,
    Line::Expect(Shown::Trapped, YES),
    Line::Expect(Shown::World, ENCLAVE_0),
    Line::Expect(Shown::Pc, Some(0)),
    Line::Expect(Shown::Mode, SUPERVISOR),
    Line::Expect(Shown::Csr(SEPC), Some(REGION)),
    Line::Expect(Shown::Csr(SCAUSE), Some(ILLEGAL_INSTRUCTION)),
];

/// A request that is no call, or a call of the other world, is refused before any other check.
#[test]
fn requests_that_are_no_calls_are_refused(rt: HostRuntime) -> Result<(), Fail> {
    run(rt, &[ECALL; 20], &NO_CALLS)
}

/// The lines of the test `an_exception_stays_in_its_world`.
const ILLEGAL: [Line; 11] = [
    Line::PrepareCall(CREATE, WITHOUT_WINDOW),
    Line::Step,
    Line::PrepareCall(RUN, SLOT_0),
    Line::Step,
    Line::Step,
    Line::Expect(Shown::Trapped, YES),
    Line::Expect(Shown::World, ENCLAVE_0),
    Line::Expect(Shown::Pc, Some(0)),
    Line::Expect(Shown::Mode, SUPERVISOR),
    Line::Expect(Shown::Csr(SEPC), Some(REGION)),
    Line::Expect(Shown::Csr(SCAUSE), Some(ILLEGAL_INSTRUCTION)),
];

/// An illegal word of an enclave traps to mode S of the enclave.
#[test]
fn an_exception_stays_in_its_world(rt: HostRuntime) -> Result<(), Fail> {
    run(rt, &[ECALL; 2], &ILLEGAL)
}

/// The lines of the test `scrambling_changes_private_state`.
const SCRAMBLED: [Line; 37] = [
    // no live enclave to scramble; then an enclave that never ran, in which only the region changes
    Line::RefuseScramble(0),
    Line::RefuseScramble(12),
    Line::RefuseScramble(13),
    Line::RefuseScramble(255),
    Line::PrepareCall(CREATE, WITHOUT_WINDOW),
    Line::Step,
    Line::Poke(REGION, ECALL_BYTE),
    Line::Poke(REGION + 0xfff, 0x0f),
    Line::Poke(REGION + SIZE, 0x55),
    Line::RefuseScramble(1),
    Line::Expect(Shown::Ends, Some(0x0073_0f55)),
    Line::Scramble(0),
    Line::Expect(Shown::Ends, Some(0x008c_f055)),
    // run: the registers of the first entry are complemented, except x0, pc and the mode; an enclave that runs is not scrambled
    Line::Poke(REGION, ECALL_BYTE),
    Line::Poke(REGION + 1, 0),
    Line::Poke(REGION + 2, 0),
    Line::Poke(REGION + 3, 0),
    Line::SetRegister(A6, RUN),
    Line::SetRegister(A0, 0),
    Line::Step,
    Line::Expect(Shown::Entered, ENCLAVE_0),
    Line::Expect(Shown::X(X0), Some(0)),
    Line::Expect(Shown::X(RA), Some(0xffff_ffff)),
    Line::Expect(Shown::X(T6), Some(0xffff_ffff)),
    Line::Expect(Shown::X(A0), Some(0x7ffd_ffff)),
    Line::Expect(Shown::X(A1), Some(0xffff_efff)),
    Line::Expect(Shown::Pc, Some(REGION)),
    Line::Expect(Shown::Mode, SUPERVISOR),
    Line::RefuseScramble(0),
    // exit: the saved context is all 0
    Line::SetRegister(A7, KEY),
    Line::SetRegister(A6, EXIT),
    Line::Step,
    Line::Expect(Shown::Exited(0), YES),
    Line::Scramble(0),
    Line::Expect(Shown::Ends, Some(0x008c_0f55)),
    Line::Scramble(0),
    Line::Expect(Shown::Ends, Some(0x0073_f055)),
];

/// Scrambling changes the private state of an enclave that does not run.
#[test]
fn scrambling_changes_private_state(rt: HostRuntime) -> Result<(), Fail> {
    run(rt, &[ECALL; 4], &SCRAMBLED)
}

/// The lines of the test `two_harts`.
const TWO_HARTS: [Line; 51] = [
    Line::Expect(Shown::Harts, Some(2)),
    // both harts start at the same address, with the number of the hart in a0
    Line::Expect(Shown::X(A0), Some(0)),
    Line::SelectHart(1),
    Line::Expect(Shown::X(A0), Some(1)),
    Line::Expect(Shown::X(A1), Some(0)),
    Line::Expect(Shown::Pc, Some(HOST_START)),
    Line::Expect(Shown::Mode, SUPERVISOR),
    Line::Expect(Shown::World, HOST),
    Line::Expect(Shown::Csr(PMPCFG3), Some(REST_OPEN)),
    // create and run on hart 0; the PMP entries of hart 1 are those of the host
    Line::SelectHart(0),
    Line::PrepareCall(CREATE, WITHOUT_WINDOW),
    Line::Step,
    Line::Expect(Shown::Pc, Some(HOST_START + 4)),
    Line::SelectHart(1),
    Line::Expect(Shown::Csr(PMPCFG0), Some(REGION_CLOSED)),
    Line::Expect(Shown::PmpAddr(1), Some(REGION_NAPOT)),
    Line::SelectHart(0),
    Line::Poke(REGION, NOP_BYTE),
    Line::SetRegister(A6, RUN),
    Line::SetRegister(A0, 0),
    Line::Step,
    Line::Expect(Shown::Entered, ENCLAVE_0),
    Line::Expect(Shown::World, ENCLAVE_0),
    Line::Expect(Shown::Pc, Some(REGION)),
    // hart 1 cannot destroy an enclave that runs
    Line::SelectHart(1),
    Line::Expect(Shown::World, HOST),
    Line::PrepareCall(DESTROY, SLOT_0),
    Line::Step,
    Line::Expect(Shown::Pc, Some(HOST_START + 4)),
    Line::Expect(Shown::X(A0), Some(BAD_STATE)),
    Line::RefuseScramble(0),
    // a step of hart 0, and two of hart 1; the second loads from the region
    Line::SetRegister(A0, 0),
    Line::SetRegister(T1, REGION),
    Line::SelectHart(0),
    Line::Step,
    Line::Expect(Shown::Trapped, NO),
    Line::SelectHart(1),
    Line::Step,
    Line::Expect(Shown::X(A0), Some(BAD_STATE)),
    Line::Step,
    Line::Expect(Shown::Trapped, YES),
    Line::Expect(Shown::Pc, Some(0)),
    Line::Expect(Shown::Csr(SCAUSE), Some(LOAD_ACCESS_FAULT)),
    Line::Expect(Shown::Csr(STVAL), Some(REGION)),
    Line::Expect(Shown::Csr(PMPCFG0), Some(REGION_CLOSED)),
    Line::Expect(Shown::Csr(PMPCFG3), Some(REST_OPEN)),
    Line::SelectHart(0),
    Line::Expect(Shown::World, ENCLAVE_0),
    Line::Expect(Shown::Pc, Some(REGION + 4)),
    Line::Expect(Shown::Csr(PMPCFG0), Some(REGION_OPEN)),
    Line::Expect(Shown::Csr(PMPCFG3), Some(REST_CLOSED)),
];

/// Example 40: two harts with one memory and one table, each with its own PMP entries.
#[test]
fn two_harts(rt: HostRuntime) -> Result<(), Fail> {
    run_two(rt, &[ECALL, ECALL, LOAD_T0_FROM_T1], &TWO_HARTS)
}

/// The lines of the test `the_call_of_the_first_hart_succeeds`.
const DESTROY_FIRST: [Line; 14] = [
    Line::PrepareCall(CREATE, WITHOUT_WINDOW),
    Line::Step,
    Line::PrepareCall(RUN, SLOT_0),
    Line::SelectHart(1),
    Line::PrepareCall(DESTROY, SLOT_0),
    Line::Step,
    Line::Expect(Shown::Pc, Some(HOST_START + 4)),
    Line::Expect(Shown::X(A0), Some(SUCCESS)),
    Line::SelectHart(0),
    Line::Expect(Shown::Csr(PMPCFG0), Some(NO_REGION)),
    Line::Step,
    Line::Expect(Shown::World, HOST),
    Line::Expect(Shown::Pc, Some(HOST_START + 8)),
    Line::Expect(Shown::X(A0), Some(NO_ENCLAVE)),
];

/// The lines of the test `the_call_of_the_first_hart_succeeds`.
const RUN_FIRST: [Line; 15] = [
    Line::PrepareCall(CREATE, WITHOUT_WINDOW),
    Line::Step,
    Line::PrepareCall(RUN, SLOT_0),
    Line::SelectHart(1),
    Line::PrepareCall(DESTROY, SLOT_0),
    Line::SelectHart(0),
    Line::Step,
    Line::Expect(Shown::World, ENCLAVE_0),
    Line::Expect(Shown::Pc, Some(REGION)),
    Line::SelectHart(1),
    Line::Step,
    Line::Expect(Shown::World, HOST),
    Line::Expect(Shown::Pc, Some(HOST_START + 4)),
    Line::Expect(Shown::X(A0), Some(BAD_STATE)),
    Line::Expect(Shown::Region(0), Some(REGION)),
];

/// Example 40: hart 0 runs an enclave and hart 1 destroys it. The second call is refused.
#[test]
fn the_call_of_the_first_hart_succeeds(rt: HostRuntime) -> Result<(), Fail> {
    run_two(rt, &[ECALL; 2], &DESTROY_FIRST)?;
    run_two(rt, &[ECALL; 2], &RUN_FIRST)
}

/// The lines of the test `an_enclave_resumes_on_the_other_hart`.
const RESUMED_ON_HART_1: [Line; 35] = [
    Line::PrepareCall(CREATE, WITHOUT_WINDOW),
    Line::Step,
    Line::PrepareCall(RUN, SLOT_0),
    Line::Step,
    // hart 1 can neither run nor resume an enclave that runs on hart 0, but can measure it
    Line::SelectHart(1),
    Line::PrepareCall(RUN, SLOT_0),
    Line::Step,
    Line::Expect(Shown::X(A0), Some(BAD_STATE)),
    Line::PrepareCall(RESUME, SLOT_0),
    Line::Step,
    Line::Expect(Shown::X(A0), Some(BAD_STATE)),
    Line::PrepareCall(MEASURE, [0, REGION - 0x20, 0, 0, 0]),
    Line::Step,
    Line::Expect(Shown::X(A0), Some(SUCCESS)),
    // the timer line of hart 1 stops nothing on hart 0; that of hart 0 does
    Line::RaiseTimer,
    Line::SelectHart(0),
    Line::Expect(Shown::Csr(MIP), Some(0)),
    Line::Expect(Shown::World, ENCLAVE_0),
    Line::RaiseTimer,
    Line::Step,
    Line::Expect(Shown::World, HOST),
    Line::Expect(Shown::X(A0), Some(INTERRUPTED)),
    Line::Expect(Shown::Csr(PMPCFG0), Some(REGION_CLOSED)),
    Line::SelectHart(1),
    Line::Expect(Shown::Csr(MIP), Some(MTIP)),
    Line::LowerTimer,
    Line::PrepareCall(RESUME, SLOT_0),
    Line::Step,
    Line::Expect(Shown::Entered, ENCLAVE_0),
    Line::Expect(Shown::World, ENCLAVE_0),
    Line::Expect(Shown::X(A0), Some(REGION)),
    Line::Expect(Shown::Csr(PMPCFG0), Some(REGION_OPEN)),
    Line::SelectHart(0),
    Line::Expect(Shown::World, HOST),
    Line::Expect(Shown::Csr(PMPCFG0), Some(REGION_CLOSED)),
];

/// An enclave runs on one hart at a time, and may resume on the other hart.
#[test]
fn an_enclave_resumes_on_the_other_hart(rt: HostRuntime) -> Result<(), Fail> {
    run_two(rt, &[ECALL; 5], &RESUMED_ON_HART_1)
}

/// The lines of the test `a_step_leaves_the_other_hart_unchanged`.
const UNCHANGED: [Line; 17] = [
    Line::SetRegister(T0, 7),
    Line::SelectHart(1),
    Line::SetRegister(T0, 9),
    Line::SelectHart(0),
    Line::Step,
    Line::Expect(Shown::Pc, Some(HOST_START + 4)),
    Line::Expect(Shown::X(T0), Some(8)),
    Line::SelectHart(1),
    Line::Expect(Shown::Pc, Some(HOST_START)),
    Line::Expect(Shown::X(T0), Some(9)),
    Line::Step,
    Line::Step,
    Line::Expect(Shown::Pc, Some(HOST_START + 8)),
    Line::Expect(Shown::X(T0), Some(11)),
    Line::SelectHart(0),
    Line::Expect(Shown::Pc, Some(HOST_START + 4)),
    Line::Expect(Shown::X(T0), Some(8)),
];

/// Each hart has its own registers and pc. The program increments t0.
#[test]
fn a_step_leaves_the_other_hart_unchanged(rt: HostRuntime) -> Result<(), Fail> {
    run_two(rt, &[INCREMENT_T0; 2], &UNCHANGED)
}

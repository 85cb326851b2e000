//! Tests of the calls of a memory: calls that succeed, and addresses at its ends.

mod followed;

use followed::{Line, run};
use rv_memory::{AccessFault, RAM_BASE, Ram, RamFault};
use rv_pmp::{Access, Mode, PmpIndex, Verdict};
use rv_word::Width;
use std::test::Fail;

/// The address after the last byte of the smallest memory.
const END: u32 = RAM_BASE + 65_536;

/// Every byte of the access is inside the memory.
const INSIDE: bool = true;

/// A byte of the access is outside the memory.
const NOT_INSIDE: bool = false;

/// Returns the size of a new memory.
fn size_of_new(rt: HostRuntime, size: u32) -> Result<u32, RamFault> {
    match Ram::new(rt.alloc(), size) {
        Ok(ram) => Ok(ram.size()),
        Err(fault) => Err(fault),
    }
}

#[test]
fn makes_valid_sizes_alone(rt: HostRuntime) {
    for size in [65_536, 131_072, 1_048_576, 16_777_216] {
        assert_eq!(rt; size_of_new(rt, size), Ok(size));
    }
    for size in [0, 1, 65_535, 65_537, 98_304, 16_842_752, 0xffff_0000] {
        assert_eq!(rt; size_of_new(rt, size), Err(RamFault::BadSize), "{size}");
    }
}

#[test]
fn numbers_of_faults(rt: HostRuntime) {
    let of_memory = RamFault::BadSize.number();
    let refused = AccessFault::Refused(Verdict::DeniedFree);
    let of_access = [AccessFault::Outside.number(), refused.number()];
    assert_eq!(rt; (of_memory, of_access), (1, [1, 2]));
}

/// The lines of the test `loads_what_was_stored`.
const STORED: [Line; 8] = [
    Line::Store(Mode::M, RAM_BASE + 1, Width::Word, 0x8765_4321, Ok(())),
    Line::Store(Mode::M, RAM_BASE + 2, Width::Half, 0xabcd_1234, Ok(())),
    Line::Store(Mode::M, RAM_BASE + 4, Width::Byte, 0xffff_ffee, Ok(())),
    Line::First([0x00, 0x21, 0x34, 0x12, 0xee, 0x00]),
    Line::Load(Mode::M, RAM_BASE + 1, Width::Word, Ok(0xee12_3421)),
    Line::Load(Mode::M, RAM_BASE + 3, Width::Half, Ok(0xee12)),
    Line::Load(Mode::M, RAM_BASE + 4, Width::Byte, Ok(0xee)),
    Line::Fetch(Mode::M, RAM_BASE, Ok(0x1234_2100)),
];

#[test]
fn loads_what_was_stored(rt: HostRuntime) -> Result<(), Fail> {
    run(rt, &STORED)
}

/// The lines of the test `refuses_what_is_outside`.
const REFUSED_OUTSIDE: [Line; 5] = [
    Line::Edges(Width::Byte, END - 1),
    Line::Edges(Width::Half, END - 2),
    Line::Edges(Width::Word, END - 4),
    Line::Last([0x00, 0xff, 0xff, 0xff, 0xff]),
    Line::Fetch(Mode::M, END - 2, Err(AccessFault::Outside)),
];

#[test]
fn refuses_what_is_outside(rt: HostRuntime) -> Result<(), Fail> {
    run(rt, &REFUSED_OUTSIDE)
}

/// The lines of the test `changes_named_bytes_alone`.
const CHANGED: [Line; 10] = [
    Line::WriteFirst([1, 2, 3, 4, 5]),
    Line::Zero(RAM_BASE + 1, 2),
    Line::Poke(RAM_BASE + 3, 9, INSIDE),
    Line::First([1, 0, 0, 9, 5, 0]),
    Line::Peek(RAM_BASE + 3, Some(9)),
    Line::Contains(END - 1, 1, INSIDE),
    Line::Contains(END - 1, 2, NOT_INSIDE),
    Line::Poke(END, 1, NOT_INSIDE),
    Line::Peek(END, None),
    Line::Peek(RAM_BASE - 1, None),
];

#[test]
fn changes_named_bytes_alone(rt: HostRuntime) -> Result<(), Fail> {
    run(rt, &CHANGED)
}

/// The address of the last word of the first 4096 bytes.
const IN_ENTRY: u32 = RAM_BASE + 0xffc;

/// The pmpaddr value of a NAPOT range: the first 4096 bytes of the memory.
const FIRST_4096_BYTES: u32 = 0x2000_01ff;

/// The configuration of a NAPOT entry that permits loads and no other access.
const NAPOT_R: u8 = 0x19;

/// Returns the error of an access that a PMP verdict refuses.
const fn refused(verdict: Verdict) -> AccessFault {
    AccessFault::Refused(verdict)
}

/// Returns the lines for accesses that the PMP entries decide, with the index of the first entry.
fn lines_of_entry(first: PmpIndex) -> [Line; 8] {
    [
        Line::Entry(FIRST_4096_BYTES, NAPOT_R),
        Line::Load(Mode::U, IN_ENTRY, Width::Word, Ok(0)),
        Line::Store(
            Mode::U,
            IN_ENTRY,
            Width::Word,
            1,
            Err(refused(Verdict::Denied(first))),
        ),
        Line::Fetch(Mode::U, IN_ENTRY, Err(refused(Verdict::Denied(first)))),
        Line::Load(
            Mode::M,
            IN_ENTRY + 2,
            Width::Word,
            Err(refused(Verdict::DeniedPartial(first))),
        ),
        Line::Load(
            Mode::U,
            IN_ENTRY + 4,
            Width::Byte,
            Err(refused(Verdict::DeniedFree)),
        ),
        Line::Load(Mode::U, END, Width::Byte, Err(AccessFault::Outside)),
        Line::Judge(
            Mode::M,
            Access::Write,
            IN_ENTRY,
            Width::Byte,
            Verdict::Allowed(first),
        ),
    ]
}

/// A PMP entry that permits reads and no writes, and no other entry for mode U.
#[test]
fn checks_the_entries_after_the_bounds(rt: HostRuntime) -> Result<(), Fail> {
    run(rt, &lines_of_entry(PmpIndex::new(0)))
}

/// The lines of the test `complements_a_part`.
const COMPLEMENTED: [Line; 8] = [
    Line::WriteLast([0x11, 0x22, 0x80, 0xff]),
    Line::Complement(END - 3, 2),
    Line::Last([0x00, 0x11, 0xdd, 0x7f, 0xff]),
    Line::Complement(END - 3, 0),
    Line::Last([0x00, 0x11, 0xdd, 0x7f, 0xff]),
    Line::Complement(RAM_BASE, 65_536),
    Line::Last([0xff, 0xee, 0x22, 0x80, 0x00]),
    Line::Peek(RAM_BASE, Some(0xff)),
];

#[test]
fn complements_a_part(rt: HostRuntime) -> Result<(), Fail> {
    run(rt, &COMPLEMENTED)
}

//! Tests of plans with a monitor: no image may use its range, 80000000 to 8000FFFF. Each case is also planned without a monitor.

use super::files::{
    BAD_ENTRY, OUTSIDE, OVERLAP, SIZES, TRUNCATED, VALID, WITH_MONITOR, WITHOUT_MONITOR,
    expect_error, expect_plan, expect_raw_fault, expect_raw_plan, file_of, segment,
};
use super::two_errors::FILE;
use rv_elf::{ElfFault, load, plan, plan_raw};
use rv_memory::{RAM_BASE, Ram};
use std::process::Abort;

/// The address after the monitor's range.
const FIRST: u32 = 0x8001_0000;

/// The bytes of RAM in these tests.
const RAM_SIZE: u32 = 0x2_0000;

/// The address after the last byte of RAM.
const END: u32 = RAM_BASE + RAM_SIZE;

/// Expects the errors of a file without a monitor and with one.
fn expect_faults(
    rt: &impl Abort,
    file: &[u8],
    (bare, monitored): (Option<ElfFault>, Option<ElfFault>),
    case: u64,
) {
    let found_bare = plan(file, RAM_SIZE, WITHOUT_MONITOR).err();
    expect_error(rt, found_bare, bare, case);
    let found_monitored = plan(file, RAM_SIZE, WITH_MONITOR).err();
    expect_error(rt, found_monitored, monitored, case);
}

#[test]
fn refuses_a_file_for_the_bare_bench(rt: HostRuntime) {
    expect_faults(&rt, &FILE, (VALID, OUTSIDE), 0);
}

/// For each row, the address of a segment, its size in memory, and the errors without a monitor and with one.
const PLACES: &[(u32, u32, Option<ElfFault>, Option<ElfFault>)] = &[
    (RAM_BASE, 1, VALID, OUTSIDE),
    (RAM_BASE, 0x1_0000, VALID, OUTSIDE),
    (RAM_BASE, 0x1_0001, VALID, OUTSIDE),
    (RAM_BASE, RAM_SIZE, VALID, OUTSIDE),
    (RAM_BASE + 0x8000, 4, VALID, OUTSIDE),
    (FIRST - 4, 4, VALID, OUTSIDE),
    (FIRST - 1, 1, VALID, OUTSIDE),
    (FIRST - 1, 2, VALID, OUTSIDE),
    (FIRST - 1, 0x1_0001, VALID, OUTSIDE),
    (FIRST, 1, VALID, VALID),
    (FIRST, 0x1_0000, VALID, VALID),
    (FIRST, 0x1_0001, OUTSIDE, OUTSIDE),
    (FIRST + 1, 1, VALID, VALID),
    (END - 1, 1, VALID, VALID),
    (END, 1, OUTSIDE, OUTSIDE),
    (RAM_BASE - 1, 1, OUTSIDE, OUTSIDE),
    (RAM_BASE - 1, 2, OUTSIDE, OUTSIDE),
    (RAM_BASE - 4, RAM_SIZE, OUTSIDE, OUTSIDE),
    (0x7fff_0000, 0x1_0000, OUTSIDE, OUTSIDE),
    (0, 1, OUTSIDE, OUTSIDE),
    (u32::MAX, 1, OUTSIDE, OUTSIDE),
    (u32::MAX, RAM_BASE + 5, OUTSIDE, OUTSIDE),
    (RAM_BASE, 0, VALID, VALID),
    (FIRST - 1, 0, VALID, VALID),
    (0, 0, VALID, VALID),
];

/// Segments at both ends of the monitor's range and of RAM, segments across these ends, and segments without memory.
#[test]
fn checks_the_addresses_of_segments(rt: HostRuntime) {
    for &(address, memory_size, bare, monitored) in PLACES {
        let file = file_of(&rt, FIRST, &[segment(0, address, 0, memory_size)], b"");
        expect_faults(&rt, file.as_slice(), (bare, monitored), u64::from(address));
    }
}

/// Segments after the first are checked too.
#[test]
fn checks_each_segment(rt: HostRuntime) {
    let first = segment(0, FIRST, 0, 8);
    let overlapping = segment(0, FIRST - 8, 0, 9);
    let next = segment(0, FIRST + 8, 0, 8);
    for (headers, monitored) in [
        ([first, next], VALID),
        ([next, first], VALID),
        ([next, overlapping], OUTSIDE),
        ([overlapping, next], OUTSIDE),
    ] {
        let file = file_of(&rt, FIRST, &headers, b"");
        expect_faults(&rt, file.as_slice(), (VALID, monitored), 0);
    }
}

/// Expects the plan of a file without segments, with a monitor.
fn expect_entry(rt: &impl Abort, file: &[u8], entry: u32) {
    let found = plan(file, RAM_SIZE, WITH_MONITOR).expect(rt, "no fault");
    expect_plan(rt, &found, entry, &[]);
}

/// For each row, the entry of a file without segments, and the errors without a monitor and with one.
const ENTRIES: &[(u32, Option<ElfFault>, Option<ElfFault>)] = &[
    (RAM_BASE - 4, BAD_ENTRY, BAD_ENTRY),
    (RAM_BASE, VALID, BAD_ENTRY),
    (RAM_BASE + 4, VALID, BAD_ENTRY),
    (FIRST - 4, VALID, BAD_ENTRY),
    (FIRST - 2, BAD_ENTRY, BAD_ENTRY),
    (FIRST - 1, BAD_ENTRY, BAD_ENTRY),
    (FIRST, VALID, VALID),
    (FIRST + 1, BAD_ENTRY, BAD_ENTRY),
    (FIRST + 2, BAD_ENTRY, BAD_ENTRY),
    (FIRST + 4, VALID, VALID),
    (END - 4, VALID, VALID),
    (END, BAD_ENTRY, BAD_ENTRY),
    (0, BAD_ENTRY, BAD_ENTRY),
];

#[test]
fn checks_the_entry(rt: HostRuntime) {
    for &(entry, bare, monitored) in ENTRIES {
        let file = file_of(&rt, entry, &[], b"");
        expect_faults(&rt, file.as_slice(), (bare, monitored), u64::from(entry));
        if monitored == VALID {
            expect_entry(&rt, file.as_slice(), entry);
        }
    }
}

/// Files with two errors. A segment in the monitor's range is reported before a shared byte and an invalid entry, and after segments that are
/// truncated or have invalid sizes.
#[test]
fn reports_the_error_with_the_smallest_number(rt: HostRuntime) {
    let in_range = segment(0, RAM_BASE, 0, 8);
    for (entry, other, bare, monitored) in [
        (FIRST, segment(0, RAM_BASE + 4, 0, 8), OVERLAP, OUTSIDE),
        (FIRST, segment(0, FIRST, 5, 4), SIZES, SIZES),
        (FIRST, segment(1 << 20, FIRST, 5, 8), TRUNCATED, TRUNCATED),
        (FIRST, segment(0, END, 0, 8), OUTSIDE, OUTSIDE),
        (FIRST + 2, segment(0, FIRST, 0, 8), BAD_ENTRY, OUTSIDE),
        (RAM_BASE, segment(0, FIRST, 0, 8), VALID, OUTSIDE),
    ] {
        let file = file_of(&rt, entry, &[in_range, other], b"");
        expect_faults(&rt, file.as_slice(), (bare, monitored), u64::from(entry));
    }
    let overlapping = [segment(0, FIRST, 0, 8), segment(0, FIRST + 4, 0, 8)];
    let file = file_of(&rt, RAM_BASE, &overlapping, b"");
    expect_faults(&rt, file.as_slice(), (OVERLAP, OVERLAP), 0);
}

/// For each row, the size of an image and of RAM, in bytes.
const RAW: &[(u32, u32)] = &[
    (0, 0x1_0004),
    (4, 0x1_0004),
    (0, 0x2_0000),
    (1, 0x2_0000),
    (0x1_0000, 0x2_0000),
    (0xff_0000, 0x100_0000),
];

/// A raw image is loaded after the range, and its first byte is the entry.
#[test]
fn plans_raw_images(rt: HostRuntime) {
    for &sizes in RAW {
        expect_raw_plan(&rt, sizes, WITH_MONITOR, FIRST);
    }
}

/// For each row, the size of an image and of RAM in bytes, and the error.
const RAW_FAULTS: &[(usize, u32, ElfFault)] = &[
    (0, 0x1_0000, ElfFault::BadEntry),
    (1, 0x1_0000, ElfFault::SegmentOutside),
    (4, 0x1_0000, ElfFault::SegmentOutside),
    (0x1_0000, 0x1_0000, ElfFault::SegmentOutside),
    (0x1_0001, 0x2_0000, ElfFault::SegmentOutside),
    (0x2_0000, 0x2_0000, ElfFault::SegmentOutside),
    (0x2_0001, 0x2_0000, ElfFault::SegmentOutside),
    (0, 0x1_0003, ElfFault::BadEntry),
    (3, 0x1_0003, ElfFault::BadEntry),
    (4, 0x1_0003, ElfFault::SegmentOutside),
    (0, 0, ElfFault::BadEntry),
    (1, 0, ElfFault::SegmentOutside),
    ((1usize << 32) + 4, 0x2_0000, ElfFault::SegmentOutside),
];

#[test]
fn refuses_raw_images(rt: HostRuntime) {
    for &(len, ram_size, fault) in RAW_FAULTS {
        expect_raw_fault(&rt, (len, ram_size), WITH_MONITOR, fault);
    }
}

/// Loads an ELF file with a monitor.
fn load_file(file: &[u8], ram: &mut Ram) -> Result<(), ElfFault> {
    let segments = plan(file, ram.size(), WITH_MONITOR)?;
    load(&segments, file, ram);
    Ok(())
}

/// Loads a raw image with a monitor.
fn load_raw(image: &[u8], ram: &mut Ram) -> Result<(), ElfFault> {
    let plan = plan_raw(image.len(), ram.size(), WITH_MONITOR)?;
    load(&plan, image, ram);
    Ok(())
}

/// Returns whether each byte of the monitor's range is `in_range`, and the next bytes are `after_range`.
fn holds(ram: &Ram, in_range: u8, after_range: &[u8]) -> bool {
    for address in RAM_BASE..FIRST {
        if ram.peek(address) != Some(in_range) {
            return false;
        }
    }
    let mut address = FIRST;
    for byte in after_range {
        if ram.peek(address) != Some(*byte) {
            return false;
        }
        address = address.wrapping_add(1);
    }
    true
}

/// Loading changes neither the monitor's range nor the bytes after the image.
#[test]
fn loads_after_the_range(rt: HostRuntime) {
    let mut ram = Ram::new(rt.alloc(), RAM_SIZE).expect(&rt, "a RAM");
    for address in RAM_BASE..END {
        ram.poke(address, b'Z');
    }
    let file = file_of(&rt, FIRST, &[segment(84, FIRST, 4, 6)], b"abcd");
    assert!(rt; load_file(file.as_slice(), &mut ram).is_ok());
    assert!(rt; holds(&ram, b'Z', b"abcd\0\0ZZ"));
    assert!(rt; load_raw(b"xy", &mut ram).is_ok());
    assert!(rt; holds(&ram, b'Z', b"xycd\0\0ZZ"));
}

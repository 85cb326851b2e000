//! Tests of plans without a monitor, and of each error: alone, at its boundaries, and together with others.

use super::fields::{
    E_EHSIZE, E_ENTRY, E_FLAGS, E_MACHINE, E_PHENTSIZE, E_PHNUM, E_PHOFF, E_SHENTSIZE, E_SHNUM,
    E_SHOFF, E_SHSTRNDX, E_TYPE, E_VERSION, EI_CLASS, EI_DATA, EI_LAST, EI_OSABI, EI_VERSION,
    MAGIC, SEGMENT_0_ADDRESS, SEGMENT_0_ALIGN, SEGMENT_0_FILE_SIZE, SEGMENT_0_FLAGS,
    SEGMENT_0_MEMORY_SIZE, SEGMENT_0_OFFSET, SEGMENT_0_TYPE, SEGMENT_0_VADDR, SEGMENT_1_ADDRESS,
    SEGMENT_2_ADDRESS, SEGMENT_2_FILE_SIZE, SEGMENT_2_MEMORY_SIZE, SEGMENT_2_OFFSET,
};
use super::files::{
    BAD_ENTRY, OUTSIDE, OVERLAP, Patch, SIZES, TRUNCATED, VALID, WITHOUT_MONITOR, expect_error,
    expect_number, expect_plan, expect_raw_fault, expect_raw_plan, file_of, patched, segment,
};
use super::two_errors::{FILE, TWO_ERRORS};
use rv_elf::{ElfFault, Segment, is_elf, plan};
use rv_memory::RAM_BASE;
use std::process::Abort;

/// The bytes of RAM in these tests.
const RAM_SIZE: u32 = 65_536;

/// The address after the last byte of RAM.
const END: u32 = RAM_BASE + RAM_SIZE;

/// Expects the error of a file, or none.
fn expect_fault(rt: &impl Abort, file: &[u8], wanted: Option<ElfFault>, case: u64) {
    let found = plan(file, RAM_SIZE, WITHOUT_MONITOR).err();
    expect_error(rt, found, wanted, case);
}

/// The errors, with their numbers.
const FAULTS: &[(u64, ElfFault)] = &[
    (1, ElfFault::Truncated),
    (2, ElfFault::NotElf),
    (3, ElfFault::WrongClass),
    (4, ElfFault::WrongType),
    (5, ElfFault::WrongMachine),
    (6, ElfFault::BadHeader),
    (7, ElfFault::SegmentTruncated),
    (8, ElfFault::SegmentSizes),
    (9, ElfFault::SegmentOutside),
    (10, ElfFault::SegmentOverlap),
    (11, ElfFault::BadEntry),
];

#[test]
fn faults_are_numbered(rt: HostRuntime) {
    for &(number, fault) in FAULTS {
        expect_number(&rt, u64::from(fault.number()), number, number);
    }
}

#[test]
fn magic_is_four_bytes(rt: HostRuntime) {
    assert!(rt; is_elf(&FILE));
    assert!(rt; is_elf(b"\x7fELF"));
    for other in [
        b"".as_slice(),
        b"\x7fEL",
        b"\x7eELF",
        b"\x7feLF",
        b"\x7fElF",
        b"\x7fELf",
        b"\0\x7fELF",
    ] {
        assert!(rt; !is_elf(other));
    }
}

/// Returns a segment of four bytes of the file, followed by four zeros.
fn four_bytes_and_zeros(offset: u32, address: u32) -> Segment {
    Segment {
        offset,
        address,
        file_size: 4,
        memory_size: 8,
    }
}

#[test]
fn plans_its_segments(rt: HostRuntime) {
    let found = plan(&FILE, RAM_SIZE, WITHOUT_MONITOR).expect(&rt, "no fault");
    let segments = [
        four_bytes_and_zeros(0x94, 0x8000_0000),
        four_bytes_and_zeros(0x98, 0x8000_0010),
        four_bytes_and_zeros(0x9c, 0x8000_0020),
    ];
    expect_plan(&rt, &found, RAM_BASE, &segments);
}

/// For each row, the only error of a file, and the fields in which the file differs from `FILE`. The new values are next to valid ones, or their
/// sums wrap to valid ones.
const ONE_ERROR: [(ElfFault, &[Patch]); 46] = [
    // the magic number
    (ElfFault::NotElf, &[(MAGIC, &[0x7e])]),
    (ElfFault::NotElf, &[(MAGIC + 1, &[0x44])]),
    (ElfFault::NotElf, &[(MAGIC + 2, &[0x4d])]),
    (ElfFault::NotElf, &[(MAGIC + 3, &[0x47])]),
    // e_ident: class, data encoding and version
    (ElfFault::WrongClass, &[(EI_CLASS, &[2])]),
    (ElfFault::WrongClass, &[(EI_CLASS, &[0])]),
    (ElfFault::WrongClass, &[(EI_DATA, &[2])]),
    (ElfFault::WrongClass, &[(EI_VERSION, &[0])]),
    (ElfFault::WrongClass, &[(EI_VERSION, &[2])]),
    // e_type
    (ElfFault::WrongType, &[(E_TYPE, &[1])]),
    (ElfFault::WrongType, &[(E_TYPE, &[3])]),
    (ElfFault::WrongType, &[(E_TYPE + 1, &[1])]),
    (ElfFault::WrongType, &[(E_TYPE, &[0, 2])]),
    // e_machine
    (ElfFault::WrongMachine, &[(E_MACHINE, &[62])]),
    (ElfFault::WrongMachine, &[(E_MACHINE, &[0xf2])]),
    (ElfFault::WrongMachine, &[(E_MACHINE + 1, &[1])]),
    // the number and the size of the program headers, and the offset of their table
    (ElfFault::BadHeader, &[(E_PHNUM, &[4])]),
    (ElfFault::BadHeader, &[(E_PHNUM, &[65])]),
    (ElfFault::BadHeader, &[(E_PHNUM + 1, &[1])]),
    (ElfFault::BadHeader, &[(E_PHENTSIZE, &[0x1f])]),
    (ElfFault::BadHeader, &[(E_PHENTSIZE, &[0x21])]),
    (ElfFault::BadHeader, &[(E_PHENTSIZE + 1, &[1])]),
    (ElfFault::BadHeader, &[(E_PHOFF, &[0x41])]),
    (ElfFault::BadHeader, &[(E_PHOFF, &[0xe0, 0xff, 0xff, 0xff])]),
    // a segment that ends after the end of the file
    (ElfFault::SegmentTruncated, &[(SEGMENT_0_OFFSET, &[0x9d])]),
    (
        ElfFault::SegmentTruncated,
        &[(SEGMENT_0_OFFSET, &[0xfc, 0xff, 0xff, 0xff])],
    ),
    (ElfFault::SegmentTruncated, &[(SEGMENT_2_OFFSET, &[0x9d])]),
    (ElfFault::SegmentTruncated, &[(SEGMENT_2_FILE_SIZE, &[5])]),
    // a segment that is larger in the file than in memory
    (ElfFault::SegmentSizes, &[(SEGMENT_0_MEMORY_SIZE, &[3])]),
    (ElfFault::SegmentSizes, &[(SEGMENT_2_MEMORY_SIZE, &[3])]),
    (ElfFault::SegmentSizes, &[(SEGMENT_2_MEMORY_SIZE, &[0])]),
    // a segment that is not inside RAM
    (
        ElfFault::SegmentOutside,
        &[(SEGMENT_0_ADDRESS, &[0xff, 0xff, 0xff, 0x7f])],
    ),
    (ElfFault::SegmentOutside, &[(SEGMENT_0_ADDRESS + 3, &[0])]),
    (
        ElfFault::SegmentOutside,
        &[(SEGMENT_2_ADDRESS, &[0xf9, 0xff])],
    ),
    (ElfFault::SegmentOutside, &[(SEGMENT_2_ADDRESS + 2, &[1])]),
    (
        ElfFault::SegmentOutside,
        &[(SEGMENT_2_ADDRESS, &[0xfc, 0xff, 0xff, 0xff])],
    ),
    (
        ElfFault::SegmentOutside,
        &[(SEGMENT_2_MEMORY_SIZE + 2, &[1])],
    ),
    // two segments that share a byte
    (ElfFault::SegmentOverlap, &[(SEGMENT_1_ADDRESS, &[7])]),
    (ElfFault::SegmentOverlap, &[(SEGMENT_1_ADDRESS, &[0x19])]),
    (ElfFault::SegmentOverlap, &[(SEGMENT_2_ADDRESS, &[7])]),
    (ElfFault::SegmentOverlap, &[(SEGMENT_2_ADDRESS, &[0x17])]),
    (ElfFault::SegmentOverlap, &[(SEGMENT_2_ADDRESS, &[0x10])]),
    // the entry
    (ElfFault::BadEntry, &[(E_ENTRY, &[1])]),
    (ElfFault::BadEntry, &[(E_ENTRY, &[2])]),
    (ElfFault::BadEntry, &[(E_ENTRY + 2, &[1])]),
    (ElfFault::BadEntry, &[(E_ENTRY, &[0xfc, 0xff, 0xff, 0xff])]),
];

/// Expects for each row the error of the file with these fields changed.
fn expect_each_error(rt: &impl Abort, rows: &[(ElfFault, &[Patch])]) {
    let mut case = 0u64;
    for (fault, patches) in rows {
        let file = patched(rt, &FILE, FILE.len(), patches);
        expect_fault(rt, file.as_slice(), Some(*fault), case);
        case = case.saturating_add(1);
    }
}

#[test]
fn reports_each_error_alone(rt: HostRuntime) {
    expect_fault(&rt, &FILE, VALID, 0);
    expect_each_error(&rt, &ONE_ERROR);
}

/// Changed fields of files that stay valid. The new values are next to an error, or the field is not checked.
const VALID_CHANGES: [&[Patch]; 15] = [
    // the rest of e_ident
    &[(EI_OSABI, &[0xff]), (EI_LAST, &[0xff])],
    // e_version
    &[(E_VERSION, &[0, 0xff])],
    // fields of the header that are not checked
    &[
        (E_SHOFF, &[0xff]),
        (E_FLAGS, &[0xff]),
        (E_EHSIZE, &[0]),
        (E_SHENTSIZE, &[0xff]),
        (E_SHNUM, &[0xff]),
        (E_SHSTRNDX, &[0xff]),
    ],
    // fields of a program header that are not checked
    &[
        (SEGMENT_0_VADDR, &[0xff]),
        (SEGMENT_0_VADDR + 2, &[0xff]),
        (SEGMENT_0_FLAGS, &[0]),
        (SEGMENT_0_ALIGN, &[3]),
    ],
    // no program headers
    &[(E_PHNUM, &[0])],
    // no program headers: neither the offset nor the size of their table is checked
    &[
        (E_PHNUM, &[0]),
        (E_PHOFF, &[0xff]),
        (E_PHOFF + 3, &[0xff]),
        (E_PHENTSIZE, &[0]),
    ],
    // two of the three segments
    &[(E_PHNUM, &[2])],
    // a segment that is not loaded: neither its offset nor its address is checked
    &[
        (SEGMENT_0_TYPE, &[2]),
        (SEGMENT_0_OFFSET + 3, &[0xff]),
        (SEGMENT_0_ADDRESS + 3, &[0]),
    ],
    // a segment that ends at the end of the file
    &[(SEGMENT_0_OFFSET, &[0x9c])],
    // an empty segment: its offset is not checked
    &[(SEGMENT_0_OFFSET + 3, &[0xff]), (SEGMENT_0_FILE_SIZE, &[0])],
    // equal sizes in the file and in memory
    &[(SEGMENT_0_MEMORY_SIZE, &[4])],
    // a segment without memory: its address is not checked
    &[
        (SEGMENT_0_ADDRESS + 3, &[0]),
        (SEGMENT_0_FILE_SIZE, &[0]),
        (SEGMENT_0_MEMORY_SIZE, &[0]),
    ],
    // a segment that ends at the end of RAM
    &[(SEGMENT_2_ADDRESS, &[0xf8, 0xff])],
    // a segment directly before another one
    &[(SEGMENT_0_ADDRESS, &[0x18]), (SEGMENT_0_MEMORY_SIZE, &[8])],
    // an entry at the last word of RAM
    &[(E_ENTRY, &[0xfc, 0xff])],
];

/// Expects for each row that the file with these fields changed is valid.
fn expect_each_valid(rt: &impl Abort, rows: &[&[Patch]]) {
    let mut case = 0u64;
    for patches in rows {
        let file = patched(rt, &FILE, FILE.len(), patches);
        expect_fault(rt, file.as_slice(), VALID, case);
        case = case.saturating_add(1);
    }
}

#[test]
fn accepts_valid_changes(rt: HostRuntime) {
    expect_each_valid(&rt, &VALID_CHANGES);
}

/// The ELF header has 52 bytes, the table of program headers ends at 148, and the bytes of the segments end at 152, 156 and 160.
#[test]
fn reports_where_a_file_is_cut(rt: HostRuntime) {
    for len in 0..FILE.len() {
        let fault = match len {
            0..52 => ElfFault::Truncated,
            52..148 => ElfFault::BadHeader,
            _ => ElfFault::SegmentTruncated,
        };
        expect_fault(&rt, &FILE[..len], Some(fault), len as u64);
    }
}

/// Expects for each row the error with the smaller number.
fn expect_smaller_error(rt: &impl Abort, rows: &[(ElfFault, ElfFault, usize, &[Patch])]) {
    for (smaller, greater, len, patches) in rows {
        let file = patched(rt, &FILE, *len, patches);
        let case = u64::from(greater.number());
        expect_fault(rt, file.as_slice(), Some(*smaller), case);
    }
}

/// A file with two errors is refused with the error that has the smaller number.
#[test]
fn reports_the_smaller_of_two_errors(rt: HostRuntime) {
    expect_smaller_error(&rt, &TWO_ERRORS);
}

#[test]
fn accepts_at_most_64_program_headers(rt: HostRuntime) {
    let too_many = Some(ElfFault::BadHeader);
    let headers = [segment(0, 0, 0, 0); 65];
    for (count, wanted) in [
        (0, VALID),
        (1, VALID),
        (63, VALID),
        (64, VALID),
        (65, too_many),
    ] {
        let file = file_of(&rt, RAM_BASE, &headers[..count], b"");
        expect_fault(&rt, file.as_slice(), wanted, count as u64);
    }
}

/// Expects the error of a file of 88 bytes with one segment.
fn expect_part(
    rt: &impl Abort,
    offset: u32,
    (file_size, memory_size): (u32, u32),
    wanted: Option<ElfFault>,
) {
    let header = segment(offset, RAM_BASE, file_size, memory_size);
    let file = file_of(rt, RAM_BASE, &[header], b"data");
    expect_fault(rt, file.as_slice(), wanted, u64::from(offset));
}

/// For each row, the offset and the size of a segment in a file of 88 bytes, and the error if the segment has the same size in memory.
const PARTS: &[(u32, u32, Option<ElfFault>)] = &[
    (0, 88, VALID),
    (0, 89, TRUNCATED),
    (87, 1, VALID),
    (88, 1, TRUNCATED),
    (88, 0, VALID),
    (u32::MAX, 0, VALID),
    (u32::MAX, 1, TRUNCATED),
    (u32::MAX, 2, TRUNCATED),
    (u32::MAX - 3, 8, TRUNCATED),
    (4, u32::MAX, TRUNCATED),
    (1 << 31, 1 << 31, TRUNCATED),
];

/// Parts at both ends of the file and past them. The file has 88 bytes.
#[test]
fn checks_the_parts_of_the_file(rt: HostRuntime) {
    for &(offset, file_size, wanted) in PARTS {
        expect_part(&rt, offset, (file_size, file_size), wanted);
        let wanted_without_memory = if wanted == VALID && file_size > 0 {
            SIZES
        } else {
            wanted
        };
        expect_part(&rt, offset, (file_size, 0), wanted_without_memory);
    }
}

/// For each row, the address of a segment, its size in memory, and the error.
const PLACES: &[(u32, u32, Option<ElfFault>)] = &[
    (RAM_BASE, RAM_SIZE, VALID),
    (RAM_BASE, RAM_SIZE + 1, OUTSIDE),
    (RAM_BASE, u32::MAX, OUTSIDE),
    (RAM_BASE - 1, 1, OUTSIDE),
    (RAM_BASE - 1, RAM_SIZE, OUTSIDE),
    (END - 1, 1, VALID),
    (END - 1, 2, OUTSIDE),
    (END, 1, OUTSIDE),
    (END, 0, VALID),
    (0, 0, VALID),
    (0, 4, OUTSIDE),
    (u32::MAX, 0, VALID),
    (u32::MAX, 1, OUTSIDE),
    (u32::MAX - 3, 8, OUTSIDE),
    (u32::MAX, RAM_BASE + 5, OUTSIDE),
];

/// Segments at both ends of RAM and past them.
#[test]
fn checks_the_addresses_in_ram(rt: HostRuntime) {
    for &(address, memory_size, wanted) in PLACES {
        let file = file_of(&rt, RAM_BASE, &[segment(0, address, 0, memory_size)], b"");
        expect_fault(&rt, file.as_slice(), wanted, u64::from(address));
    }
}

/// For each row, the offset of a segment from the start of RAM and its size in memory, the same of another segment, and the error.
const PAIRS: &[(u16, u32, u16, u32, Option<ElfFault>)] = &[
    (0x100u16, 0x10, 0x110u16, 8, VALID),
    (0x100, 0x11, 0x110, 8, OVERLAP),
    (0x100, 1, 0x100, 1, OVERLAP),
    (0x100, 1, 0x101, 1, VALID),
    (0x100, 8, 0x100, 8, OVERLAP),
    (0x100, 4, 0x100, 8, OVERLAP),
    (0x100, 8, 0x104, 4, OVERLAP),
    (0x100, 0x20, 0x110, 1, OVERLAP),
    (0x100, 0xff00, 0xffff, 1, OVERLAP),
    (0x100, 0xfeff, 0xffff, 1, VALID),
];

/// Two segments in both orders, with one between them that occupies no memory, and one elsewhere.
#[test]
fn checks_for_shared_bytes(rt: HostRuntime) {
    for &(first, size, other, other_size, wanted) in PAIRS {
        let one = segment(0, RAM_BASE + u32::from(first), 0, size);
        let two = segment(0, RAM_BASE + u32::from(other), 0, other_size);
        let empty = segment(0, RAM_BASE + u32::from(first), 0, 0);
        let elsewhere = segment(0, RAM_BASE, 0, 0x100);
        for headers in [[one, empty, elsewhere, two], [two, elsewhere, empty, one]] {
            let file = file_of(&rt, RAM_BASE, &headers, b"");
            expect_fault(&rt, file.as_slice(), wanted, u64::from(other));
        }
    }
}

/// Expects the plan of a file without segments.
fn expect_entry(rt: &impl Abort, file: &[u8], entry: u32) {
    let found = plan(file, RAM_SIZE, WITHOUT_MONITOR).expect(rt, "no fault");
    expect_plan(rt, &found, entry, &[]);
}

/// For each row, the entry of a file without segments, and the error.
const ENTRIES: &[(u32, Option<ElfFault>)] = &[
    (RAM_BASE, VALID),
    (RAM_BASE + 0x1234, VALID),
    (END - 4, VALID),
    (END - 3, BAD_ENTRY),
    (END - 2, BAD_ENTRY),
    (END - 1, BAD_ENTRY),
    (END, BAD_ENTRY),
    (RAM_BASE - 4, BAD_ENTRY),
    (RAM_BASE + 1, BAD_ENTRY),
    (RAM_BASE + 2, BAD_ENTRY),
    (RAM_BASE + 3, BAD_ENTRY),
    (0, BAD_ENTRY),
    (u32::MAX - 3, BAD_ENTRY),
];

/// The entry need not be in a segment.
#[test]
fn checks_the_entry(rt: HostRuntime) {
    for &(entry, wanted) in ENTRIES {
        let file = file_of(&rt, entry, &[], b"");
        expect_fault(&rt, file.as_slice(), wanted, u64::from(entry));
        if wanted == VALID {
            expect_entry(&rt, file.as_slice(), entry);
        }
    }
}

/// For each row, the size of an image and of RAM, in bytes.
const RAW: &[(u32, u32)] = &[
    (0, 4),
    (4, 4),
    (3, 65_536),
    (65_536, 65_536),
    (u32::MAX, u32::MAX),
];

/// A raw image is one segment at the first address, or none if it is empty.
#[test]
fn plans_raw_images(rt: HostRuntime) {
    for &sizes in RAW {
        expect_raw_plan(&rt, sizes, WITHOUT_MONITOR, RAM_BASE);
    }
}

/// For each row, the size of an image and of RAM in bytes, and the error.
const RAW_FAULTS: &[(usize, u32, ElfFault)] = &[
    (0, 3, ElfFault::BadEntry),
    (0, 0, ElfFault::BadEntry),
    (3, 3, ElfFault::BadEntry),
    (1, 0, ElfFault::SegmentOutside),
    (4, 3, ElfFault::SegmentOutside),
    (65_537, 65_536, ElfFault::SegmentOutside),
    (1usize << 32, u32::MAX, ElfFault::SegmentOutside),
    ((1usize << 32) + 4, 65_536, ElfFault::SegmentOutside),
];

#[test]
fn refuses_raw_images(rt: HostRuntime) {
    for &(len, ram_size, fault) in RAW_FAULTS {
        expect_raw_fault(&rt, (len, ram_size), WITHOUT_MONITOR, fault);
    }
}

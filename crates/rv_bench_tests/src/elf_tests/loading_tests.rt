//! Tests of RAM after an image was loaded or refused: the bytes of its segments, the zeros after them, and all other bytes unchanged.

use super::files::{ProgramHeader, WITHOUT_MONITOR, expect_number, file_of, segment};
use rv_elf::{ElfFault, load, plan, plan_raw};
use rv_memory::{RAM_BASE, Ram};
use std::alloc::Global;
use std::process::Abort;

/// A file with one segment of 8 bytes at 80000000. The file has the first 4 of them.
const WORKED: [u8; 88] = [
    0x7f, 0x45, 0x4c, 0x46, 1, 1, 1, 0, 0, 0, 0, 0, 0, 0, 0, 0, 2, 0, 0xf3, 0, 1, 0, 0, 0, 0, 0, 0,
    0x80, 0x34, 0, 0, 0, 0, 0, 0, 0, 0, 0, 0, 0, 0x34, 0, 0x20, 0, 1, 0, 0x28, 0, 0, 0, 0, 0, 1, 0,
    0, 0, 0x54, 0, 0, 0, 0, 0, 0, 0x80, 0, 0, 0, 0x80, 4, 0, 0, 0, 8, 0, 0, 0, 5, 0, 0, 0, 4, 0, 0,
    0, 0x93, 0, 0xf0, 0xff,
];

/// The bytes of RAM in these tests.
const RAM_SIZE: u32 = 65_536;

/// Returns the byte at an address before an image is loaded. It is not 0, and differs from its neighbours.
fn byte_before(address: u32) -> u8 {
    (address % 251) as u8 + 1
}

/// Returns a RAM as it is before an image is loaded, with other bytes at some addresses.
fn ram_with(rt: &impl Abort, alloc: Global, parts: &[(u32, &[u8])]) -> Ram {
    let mut ram = Ram::new(alloc, RAM_SIZE).expect(rt, "a RAM");
    for address in RAM_BASE..RAM_BASE + RAM_SIZE {
        ram.poke(address, byte_before(address));
    }
    for (start, bytes) in parts {
        put(&mut ram, *start, bytes);
    }
    ram
}

/// Writes bytes from an address on, as far as they are inside RAM.
fn put(ram: &mut Ram, start: u32, bytes: &[u8]) {
    let mut address = start;
    for byte in bytes {
        ram.poke(address, *byte);
        address = address.wrapping_add(1);
    }
}

/// Returns whether two RAMs have the same bytes.
fn are_equal(one: &Ram, other: &Ram) -> bool {
    one.part(RAM_BASE, one.size()) == other.part(RAM_BASE, other.size())
}

/// Loads an ELF file, and returns its entry.
fn load_file(file: &[u8], ram: &mut Ram) -> Result<u32, ElfFault> {
    let segments = plan(file, ram.size(), WITHOUT_MONITOR)?;
    load(&segments, file, ram);
    Ok(segments.entry())
}

/// Loads an ELF file into a RAM, and expects its entry and the bytes that change.
fn expect_loaded(rt: &impl Abort, alloc: Global, file: &[u8], entry: u32, parts: &[(u32, &[u8])]) {
    let mut ram = ram_with(rt, alloc, &[]);
    let found = load_file(file, &mut ram).expect(rt, "no fault");
    expect_number(rt, u64::from(found), u64::from(entry), 0);
    assert!(rt; are_equal(&ram, &ram_with(rt, alloc, parts)));
}

#[test]
fn loads_the_worked_file(rt: HostRuntime) {
    let parts: [(u32, &[u8]); 1] = [(RAM_BASE, &[0x93, 0x00, 0xf0, 0xff, 0, 0, 0, 0])];
    expect_loaded(&rt, rt.alloc(), &WORKED, 0x8000_0000, &parts);
}

/// Segments in descending order and at odd addresses, adjacent and separate. Some end with zeros, have only zeros, have no bytes at an address
/// outside RAM, share bytes of the file, or have bytes of the header.
#[test]
fn loads_several_segments(rt: HostRuntime) {
    let headers = [
        segment(0, RAM_BASE + 0xfffd, 3, 3),
        segment(308, RAM_BASE + 0x103, 5, 9),
        segment(311, RAM_BASE + 0x101, 1, 2),
        segment(u32::MAX, RAM_BASE + 0x80, 0, 6),
        segment(308, 0, 0, 0),
        [2, 308, RAM_BASE + 0x40, RAM_BASE + 0x40, 8, 8, 5, 4],
        segment(312, RAM_BASE + 1, 4, 4),
        segment(4, RAM_BASE, 1, 1),
    ];
    let file = file_of(&rt, RAM_BASE + 4, &headers, b"abcdefgh");
    let parts: [(u32, &[u8]); 4] = [
        (RAM_BASE, b"\x01efgh"),
        (RAM_BASE + 0x80, b"\0\0\0\0\0\0"),
        (RAM_BASE + 0x101, b"d\0abcde\0\0\0\0"),
        (RAM_BASE + 0xfffd, b"\x7fEL"),
    ];
    expect_loaded(&rt, rt.alloc(), file.as_slice(), RAM_BASE + 4, &parts);
}

/// Returns the headers of 64 segments in an order with steps of `step`. Each occupies 5 of 8 bytes of RAM, and has three of the 192 bytes after
/// the table.
fn headers_of_64(step: u32) -> [ProgramHeader; 64] {
    let mut headers = [[0; 8]; 64];
    for (header, index) in headers.iter_mut().zip(0..64u32) {
        let number = index.wrapping_mul(step) % 64;
        *header = segment(2100 + 3 * number, RAM_BASE + 8 * number, 3, 5);
    }
    headers
}

/// Returns the RAM after the segments of `headers_of_64` are loaded. The 192 bytes after the table are the numbers from 0 on.
fn ram_of_64(rt: &impl Abort, alloc: Global) -> Ram {
    let mut ram = ram_with(rt, alloc, &[]);
    for number in 0..64u32 {
        let first = 3 * (number as u8);
        put(
            &mut ram,
            RAM_BASE + 8 * number,
            &[first, first + 1, first + 2, 0, 0],
        );
    }
    ram
}

#[test]
fn loads_64_segments(rt: HostRuntime) {
    let mut data = [0; 192];
    for (byte, value) in data.iter_mut().zip(0u8..) {
        *byte = value;
    }
    let wanted = ram_of_64(&rt, rt.alloc());
    for step in [1, 63, 37] {
        let file = file_of(&rt, RAM_BASE, &headers_of_64(step), &data);
        let mut ram = ram_with(&rt, rt.alloc(), &[]);
        assert!(rt;
            load_file(file.as_slice(), &mut ram) == Ok(RAM_BASE),
            "{step}"
        );
        assert!(rt; are_equal(&ram, &wanted), "{step}");
    }
}

#[test]
fn loads_both_ends_of_ram(rt: HostRuntime) {
    let last = RAM_BASE + RAM_SIZE - 1;
    let headers = [segment(116, RAM_BASE, 1, 1), segment(117, last, 1, 1)];
    let file = file_of(&rt, RAM_BASE, &headers, b"ab");
    let parts: [(u32, &[u8]); 2] = [(RAM_BASE, b"a"), (last, b"b")];
    expect_loaded(&rt, rt.alloc(), file.as_slice(), RAM_BASE, &parts);
}

/// One segment of zeros fills all of RAM.
#[test]
fn loads_all_of_ram(rt: HostRuntime) {
    let file = file_of(
        &rt,
        RAM_BASE,
        &[segment(84, RAM_BASE, 2, RAM_SIZE)],
        b"abcd",
    );
    let mut ram = ram_with(&rt, rt.alloc(), &[]);
    assert!(rt; load_file(file.as_slice(), &mut ram) == Ok(RAM_BASE));
    let mut wanted = Ram::new(rt.alloc(), RAM_SIZE).expect(&rt, "a RAM");
    put(&mut wanted, RAM_BASE, b"ab");
    assert!(rt; are_equal(&ram, &wanted));
}

/// Expects that a file is refused with this error, and that RAM is unchanged.
fn expect_refused(rt: &impl Abort, alloc: Global, file: &[u8], fault: ElfFault) {
    let mut ram = ram_with(rt, alloc, &[]);
    assert!(rt; load_file(file, &mut ram) == Err(fault), "{fault:?}");
    assert!(rt; are_equal(&ram, &ram_with(rt, alloc, &[])));
}

/// Two segments that share a byte, and one after the end of RAM. The segments before them in the table are not loaded either.
#[test]
fn refused_files_leave_ram(rt: HostRuntime) {
    let first = segment(116, RAM_BASE, 4, 8);
    for (second, fault) in [
        (segment(116, RAM_BASE + 7, 4, 4), ElfFault::SegmentOverlap),
        (
            segment(116, RAM_BASE + RAM_SIZE - 3, 4, 4),
            ElfFault::SegmentOutside,
        ),
        (segment(116, RAM_BASE + 8, 4, 3), ElfFault::SegmentSizes),
        (segment(116, RAM_BASE + 8, 5, 8), ElfFault::SegmentTruncated),
    ] {
        let file = file_of(&rt, RAM_BASE, &[first, second], b"data");
        expect_refused(&rt, rt.alloc(), file.as_slice(), fault);
    }
}

/// Loads a raw image into a RAM, and expects its bytes and all others unchanged.
fn expect_raw(rt: &impl Abort, alloc: Global, image: &[u8]) {
    let mut ram = ram_with(rt, alloc, &[]);
    let plan = plan_raw(image.len(), ram.size(), WITHOUT_MONITOR).expect(rt, "no fault");
    load(&plan, image, &mut ram);
    assert!(rt; are_equal(&ram, &ram_with(rt, alloc, &[(RAM_BASE, image)])));
}

#[test]
fn loads_raw_images(rt: HostRuntime) {
    expect_raw(&rt, rt.alloc(), b"");
    expect_raw(&rt, rt.alloc(), b"\xff");
    expect_raw(&rt, rt.alloc(), b"\x01\x02\x03\x04\x05");
}

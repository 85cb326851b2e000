//! Makes ELF files for the tests, and checks plans. The assertions are in functions of their own, one for each type, because they would lengthen
//! the proof of each test.

use arrayvec::ArrayVec;
use rv_elf::{ElfFault, Plan, Segment, plan_raw};
use std::process::Abort;

/// The maximal number of bytes of a file that is made here.
const MAX_FILE: usize = 4096;

/// A file that is made here.
pub(crate) type File = ArrayVec<u8, MAX_FILE>;

/// A program header: p_type, p_offset, p_vaddr, p_paddr, p_filesz, p_memsz, p_flags and p_align.
pub(crate) type ProgramHeader = [u32; 8];

/// A field, by its offset in a file, and new values of its first bytes.
pub(crate) type Patch = (usize, &'static [u8]);

/// The argument `monitored` of `plan` if there is no monitor.
pub(crate) const WITHOUT_MONITOR: bool = false;

/// The argument `monitored` of `plan` if there is a monitor.
pub(crate) const WITH_MONITOR: bool = true;

/// The outcome of a valid file: no error.
pub(crate) const VALID: Option<ElfFault> = None;

/// The outcome of a file in which a segment ends after the end of the file.
pub(crate) const TRUNCATED: Option<ElfFault> = Some(ElfFault::SegmentTruncated);

/// The outcome of a file in which a segment is larger than its memory.
pub(crate) const SIZES: Option<ElfFault> = Some(ElfFault::SegmentSizes);

/// The outcome of a file in which a segment is outside the memory that it may use.
pub(crate) const OUTSIDE: Option<ElfFault> = Some(ElfFault::SegmentOutside);

/// The outcome of a file in which two segments share a byte of memory.
pub(crate) const OVERLAP: Option<ElfFault> = Some(ElfFault::SegmentOverlap);

/// The outcome of a file whose entry is invalid.
pub(crate) const BAD_ENTRY: Option<ElfFault> = Some(ElfFault::BadEntry);

/// The field p_type of a segment that is loaded: PT_LOAD.
const LOADED: u32 = 1;

/// The field p_vaddr of each segment, which is not checked.
const VIRTUAL_ADDRESS: u32 = 0x1234_5678;

/// The field p_flags of each segment: readable and executable.
const FLAGS: u32 = 5;

/// The field p_align of each segment.
const ALIGN: u32 = 4;

/// The field e_phoff of each file, which is also the size of the ELF header.
const TABLE_OFFSET: u32 = 52;

/// The fields e_ehsize, 52, in the low half, and e_phentsize, 32, in the high half.
const HEADER_SIZES: u32 = 0x0020_0034;

/// The field e_shentsize, 40, in the high half.
const SECTION_HEADER_SIZE: u32 = 0x0028_0000;

/// The ELF header of an executable file for RISC-V, up to e_entry.
const FILE_HEADER: [u8; 24] = [
    0x7f, 0x45, 0x4c, 0x46, 1, 1, 1, 0, 0, 0, 0, 0, 0, 0, 0, 0, 2, 0, 0xf3, 0, 1, 0, 0, 0,
];

/// Returns the program header of a segment whose load address differs from its p_vaddr.
pub(crate) fn segment(
    offset: u32,
    address: u32,
    file_size: u32,
    memory_size: u32,
) -> ProgramHeader {
    [
        LOADED,
        offset,
        VIRTUAL_ADDRESS,
        address,
        file_size,
        memory_size,
        FLAGS,
        ALIGN,
    ]
}

/// Appends bytes to a file.
fn append(rt: &impl Abort, file: &mut File, bytes: &[u8]) {
    assert!(rt;
        file.try_extend_from_slice(bytes).is_ok(),
        "the file has room"
    );
}

/// Appends words to a file.
fn append_words(rt: &impl Abort, file: &mut File, words: &[u32]) {
    for word in words {
        append(rt, file, &word.to_le_bytes());
    }
}

/// Returns a file with an ELF header, a table of program headers after it, and then data.
pub(crate) fn file_of(rt: &impl Abort, entry: u32, headers: &[ProgramHeader], data: &[u8]) -> File {
    let mut file = ArrayVec::new();
    let count = u32::try_from(headers.len()).expect(rt, "few headers");
    append(rt, &mut file, &FILE_HEADER);
    let no_sections = 0;
    let flags = 0;
    append_words(
        rt,
        &mut file,
        &[entry, TABLE_OFFSET, no_sections, flags, HEADER_SIZES],
    );
    append_words(rt, &mut file, &[count | SECTION_HEADER_SIZE, no_sections]);
    for header in headers {
        append_words(rt, &mut file, header);
    }
    append(rt, &mut file, data);
    file
}

/// Writes bytes to a file from an offset on.
fn overwrite(rt: &impl Abort, file: &mut File, offset: usize, bytes: &[u8]) {
    let mut at = offset;
    for byte in bytes {
        *file.get_mut(at).expect(rt, "an offset in the file") = *byte;
        at = at.saturating_add(1);
    }
}

/// Returns the first `len` bytes of a file, with some fields changed.
pub(crate) fn patched(rt: &impl Abort, file: &[u8], len: usize, patches: &[Patch]) -> File {
    let mut made = ArrayVec::new();
    append(rt, &mut made, file.get(..len).expect(rt, "a longer file"));
    for (offset, bytes) in patches {
        overwrite(rt, &mut made, *offset, bytes);
    }
    made
}

/// Expects a number. The number of the case is in the message of a failure.
pub(crate) fn expect_number(rt: &impl Abort, found: u64, wanted: u64, case: u64) {
    assert_eq!(rt; found, wanted, "case {case}");
}

/// Expects an error, or none.
pub(crate) fn expect_error(
    rt: &impl Abort,
    found: Option<ElfFault>,
    wanted: Option<ElfFault>,
    case: u64,
) {
    assert_eq!(rt; found, wanted, "case {case}");
}

/// Expects a plan with this entry and these segments.
pub(crate) fn expect_plan(rt: &impl Abort, plan: &Plan, entry: u32, segments: &[Segment]) {
    expect_number(rt, u64::from(plan.entry()), u64::from(entry), 0);
    assert_eq!(rt; plan.segments(), segments);
}

/// Expects the plan of a raw image of `size` bytes: one segment at an address, which is also the entry, or no segment if the image is empty.
pub(crate) fn expect_raw_plan(
    rt: &impl Abort,
    (size, ram_size): (u32, u32),
    monitored: bool,
    address: u32,
) {
    let found = plan_raw(size as usize, ram_size, monitored).expect(rt, "no fault");
    let whole_image = [Segment {
        offset: 0,
        address,
        file_size: size,
        memory_size: size,
    }];
    let segment_count = if size == 0 { 0 } else { 1 };
    expect_plan(rt, &found, address, &whole_image[..segment_count]);
}

/// Expects an error of a raw image of `len` bytes.
pub(crate) fn expect_raw_fault(
    rt: &impl Abort,
    (len, ram_size): (usize, u32),
    monitored: bool,
    fault: ElfFault,
) {
    let found = plan_raw(len, ram_size, monitored).err();
    assert!(rt; found == Some(fault), "{len} bytes in a RAM of {ram_size}");
}

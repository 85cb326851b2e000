//! Tests of images of each format, and of images that cannot be loaded.
use crate::expecting::{expect_bytes, expect_outcome};
use rv_bench::{BenchFault, Lines, MemorySink, MemorySource, run_bench};
use rv_command_line::{ImageKind, Setup};
use rv_elf::ElfFault;
use std::alloc::Global;
use std::process::Abort;

/// An ELF file with one segment: addi x1, x0, -1 at address 80000000, followed by four zeros.
const FILE: [u8; 88] =
    *b"\x7fELF\x01\x01\x01\0\0\0\0\0\0\0\0\0\x02\0\xf3\0\x01\0\0\0\0\0\0\x80\x34\0\0\0\
    \0\0\0\0\0\0\0\0\x34\0\x20\0\x01\0\x28\0\0\0\0\0\
    \x01\0\0\0\x54\0\0\0\0\0\0\x80\0\0\0\x80\x04\0\0\0\x08\0\0\0\x05\0\0\0\x04\0\0\0\
    \x93\0\xf0\xff";

/// The script after each image.
const SCRIPT: &[u8] = b"step 1\nmem 80000000 8\n";

/// The replies if the file is loaded.
const LOADED: &[u8] =
    b"ran 1 pc=80000004 mode=M world=bare why=done trap=-\n80000000: 93 00 f0 ff 00 00 00 00\n";

/// The replies if the bytes of the file are the memory. Its first word is no instruction.
const AS_RAW: &[u8] =
    b"ran 1 pc=00000000 mode=M world=bare why=done trap=00000002:464c457f\n80000000: 7f 45 4c 46 01 01 01 00\n";

/// The format that an image is read as, the range of the file's bytes that it has, its error, and the replies.
const IMAGES: &[(ImageKind, usize, usize, Option<ElfFault>, &[u8])] = &[
    (ImageKind::Auto, 0, 88, None, LOADED),
    (ImageKind::Elf, 0, 88, None, LOADED),
    (ImageKind::Raw, 0, 88, None, AS_RAW),
    (ImageKind::Auto, 84, 88, None, LOADED),
    (ImageKind::Raw, 84, 88, None, LOADED),
    (ImageKind::Elf, 84, 88, Some(ElfFault::Truncated), b""),
    (ImageKind::Auto, 0, 4, Some(ElfFault::Truncated), b""),
    (ImageKind::Auto, 0, 52, Some(ElfFault::BadHeader), b""),
    (
        ImageKind::Auto,
        0,
        87,
        Some(ElfFault::SegmentTruncated),
        b"",
    ),
];

/// Runs the script with an image in a format, and expects its error and the replies.
fn expect_image(
    rt: &impl Abort,
    alloc: Global,
    kind: ImageKind,
    image: &[u8],
    fault: Option<ElfFault>,
    written: &[u8],
) {
    let setup = Setup {
        kind,
        ..Setup::default()
    };
    let mut buffer = [0u8; 128];
    let mut lines = Lines::new(MemorySource::new(SCRIPT));
    let mut sink = MemorySink::new(&mut buffer);
    let outcome = run_bench(alloc, image, &setup, &mut lines, &mut sink);
    let want = match fault {
        None => Ok(()),
        Some(fault) => Err(BenchFault::Image(fault)),
    };
    expect_outcome(rt, outcome, want, image.len() as u64);
    expect_bytes(rt, sink.bytes(), written, image.len() as u64);
}

#[test]
fn reads_images_by_their_kind(rt: HostRuntime) {
    let file: &[u8] = &FILE;
    for (kind, from, to, fault, written) in IMAGES {
        let image = file.get(*from..*to).expect(&rt, "a part of the file");
        expect_image(&rt, rt.alloc(), *kind, image, *fault, written);
    }
}

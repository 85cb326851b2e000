//! Tests of lines, texts and images over devices that move few bytes in each call and fail.
use crate::expecting::{
    expect_beginning, expect_bytes, expect_line, expect_no_line, expect_number,
};
use crate::faulty::{FaultySink, FaultySource, NEVER, SinkFault};
use crate::sources::source_over;
use rv_asm::{AsmFault, AsmFaultKind};
use rv_bench::{
    BenchFault, DeviceFault, Lines, MemorySink, MemorySource, Sink, Source, WriterSink, read_image,
    run_asm,
};
use rv_elf::ElfFault;
use rv_memory::RamFault;
use std::alloc::Global;
use std::collections::VecDeque;
use std::process::Abort;

/// A text whose lines end in several ways.
const TEXT: &[u8] = b"00ff\r\n\n\r\nstep 1\rx\n--\nlast\r";

/// A program with a label.
const PROGRAM: &[u8] = b"loop: addi x1, x1, -1\n bne x1, x0, loop\n";

/// The image of the program, a word in each line.
const IMAGE: &[u8] = b"9380f0ff\ne39e00fe\n";

/// The lines of the text.
const LINES: &[&[u8]] = &[b"00ff", b"", b"", b"step 1\rx", b"--", b"last\r"];

/// Expects the lines of the text, which is read in parts of at most `largest_read` bytes.
fn expect_lines(rt: &impl Abort, largest_read: usize) {
    let mut lines = Lines::new(FaultySource::new(TEXT, largest_read.max(1), NEVER));
    for wanted in LINES {
        expect_line(rt, &mut lines, wanted, largest_read as u64);
    }
    expect_no_line(rt, &mut lines);
    assert!(rt; lines.is_at_end());
}

#[test]
fn reads_lines_in_parts(rt: HostRuntime) {
    for largest_read in [1usize, 2, 3, 1000] {
        expect_lines(&rt, largest_read);
    }
}

/// Expects a line of these bytes at the first call, or at the second if the first fails. Returns whether the first failed.
fn expect_line_in_two(
    rt: &impl Abort,
    lines: &mut Lines<FaultySource<'_>>,
    wanted: &[u8],
    case: u64,
) -> bool {
    let found = lines.next_line();
    if found == Err(DeviceFault) {
        expect_line(rt, lines, wanted, case);
        return true;
    }
    let line = found.expect(rt, "a line").expect(rt, "a line");
    expect_bytes(rt, line.as_slice(), wanted, case);
    false
}

/// Expects the lines of the text if the source fails once, at a given call: no byte is lost.
fn expect_lines_past(rt: &impl Abort, faulty_call: u64) {
    let mut lines = Lines::new(FaultySource::new(TEXT, 1, faulty_call));
    let mut failures = 0u64;
    for wanted in LINES {
        if expect_line_in_two(rt, &mut lines, wanted, faulty_call) {
            failures = failures.saturating_add(1);
        }
    }
    expect_number(rt, failures, 1, faulty_call);
    expect_no_line(rt, &mut lines);
    expect_number(
        rt,
        lines.source().calls(),
        TEXT.len() as u64 + 2,
        faulty_call,
    );
    assert!(rt; lines.into_source().rest().is_empty());
}

#[test]
fn goes_on_after_a_failed_read(rt: HostRuntime) {
    for faulty_call in 1..=TEXT.len() as u64 + 1 {
        expect_lines_past(&rt, faulty_call);
    }
}

/// Expects the number of bytes that are shown of a line of `len` bytes with an ending after it.
fn expect_shown(rt: &impl Abort, len: usize, ending: &[u8], shown: usize) {
    let mut text = [b'a'; 502];
    let end = len.saturating_add(ending.len());
    text.get_mut(len..end)
        .expect(rt, "room")
        .copy_from_slice(ending);
    let mut lines = Lines::new(MemorySource::new(text.get(..end).expect(rt, "room")));
    expect_line(rt, &mut lines, &[b'a'; 121][..shown.min(121)], len as u64);
    expect_no_line(rt, &mut lines);
}

#[test]
fn shows_the_prefix_of_a_long_line(rt: HostRuntime) {
    for (len, shown) in [
        (119usize, 119usize),
        (120, 120),
        (121, 121),
        (122, 121),
        (500, 121),
    ] {
        expect_shown(&rt, len, b"\n", shown);
        expect_shown(&rt, len, b"\r\n", shown);
        expect_shown(&rt, len, b"", shown);
    }
}

/// Writes to a sink that takes two bytes in each call, and fails or takes nothing at a given call. The bytes that it took before that are
/// written.
fn fail_to_write(rt: &impl Abort, alloc: Global, faulty_call: u64, sink_fault: SinkFault) {
    let mut buffer = [0u8; 32];
    let mut sink = FaultySink::new(&mut buffer, 2, faulty_call, sink_fault);
    let mut source = MemorySource::new(PROGRAM);
    assert!(rt; run_asm(alloc, &mut source, &mut sink) == Err(BenchFault::Write));
    expect_beginning(rt, sink.bytes(), IMAGE, faulty_call);
    let taken = faulty_call.saturating_sub(1).saturating_mul(2);
    expect_number(rt, sink.bytes().len() as u64, taken, faulty_call);
}

#[test]
fn writes_words_in_parts(rt: HostRuntime) {
    let mut buffer = [0u8; 32];
    let mut sink = FaultySink::new(&mut buffer, 2, NEVER, SinkFault::Fail);
    let mut source = MemorySource::new(PROGRAM);
    assert!(rt; run_asm(rt.alloc(), &mut source, &mut sink).is_ok());
    expect_bytes(&rt, sink.bytes(), IMAGE, 0);
    expect_number(&rt, sink.calls(), 10, 0);
    for faulty_call in 1..=9u64 {
        fail_to_write(&rt, rt.alloc(), faulty_call, SinkFault::Fail);
        fail_to_write(&rt, rt.alloc(), faulty_call, SinkFault::TakeNothing);
    }
}

#[test]
fn a_full_sink_takes_nothing(rt: HostRuntime) {
    let mut buffer = [0u8; 5];
    let mut sink = MemorySink::new(&mut buffer);
    for (part, taken) in [(b"abc".as_slice(), 3), (b"def", 2), (b"f", 0)] {
        assert!(rt; sink.write_some(part) == Ok(taken));
    }
    let mut source = MemorySource::new(PROGRAM);
    assert!(rt; run_asm(rt.alloc(), &mut source, &mut sink) == Err(BenchFault::Write));
    expect_bytes(&rt, sink.bytes(), b"abcde", 0);
}

/// A text of an image, the bytes of the image or none if the text has an error, and the rest of the text.
const TEXTS: &[(&[u8], Option<&[u8]>, &[u8])] = &[
    (b"", Some(b""), b""),
    (
        b"9300f0ff\n--\nstep 1\n",
        Some(b"\x93\x00\xf0\xff"),
        b"step 1\n",
    ),
    (
        b"9300\r\n\nF0fF\r\n--\r\n--\n",
        Some(b"\x93\x00\xf0\xff"),
        b"--\n",
    ),
    (b" \t00\t \n\t--  \nx", Some(b"\x00"), b"x"),
    (b"00\n--", Some(b"\x00"), b""),
    (b"00", Some(b"\x00"), b""),
    (b"abc", None, b""),
    (b"zz\n--\n", None, b"--\n"),
    (b"00 00\n", None, b""),
    (b"00\n-- x\n", None, b""),
    (b"--x\n", None, b""),
    (b"# 00\n", None, b""),
    (b"-\n", None, b""),
    (b"00\r", None, b""),
    (b"00\x0b\n", None, b""),
    (b"00\xa0\n", None, b""),
];

/// Reads an image from a text. Expects the bytes of the image, or none if the text has an error, and the rest of the text.
fn expect_image(rt: &impl Abort, alloc: Global, text: &[u8], wanted: Option<&[u8]>, rest: &[u8]) {
    let mut lines = Lines::new(MemorySource::new(text));
    match (read_image(alloc, &mut lines), wanted) {
        (Ok(image), Some(bytes)) => expect_bytes(rt, image.as_slice(), bytes, 0),
        (Err(fault), None) => assert!(rt; fault == BenchFault::Hex),
        _ => panic!(rt; "another result"),
    }
    expect_bytes(rt, lines.source().rest(), rest, 0);
}

#[test]
fn reads_an_image(rt: HostRuntime) {
    for (text, wanted, rest) in TEXTS {
        expect_image(&rt, rt.alloc(), text, *wanted, rest);
    }
}

/// Returns whether a line of `--` and spaces, `len` bytes in total, ends an image.
fn ends_image(rt: &impl Abort, alloc: Global, len: usize) -> bool {
    let mut text = [b' '; 122];
    text[0] = b'-';
    text[1] = b'-';
    text[len.min(121)] = b'\n';
    let text = text.get(..len.saturating_add(1)).expect(rt, "room");
    let mut lines = Lines::new(MemorySource::new(text));
    match read_image(alloc, &mut lines) {
        Ok(_) => true,
        Err(fault) => {
            assert!(rt; fault == BenchFault::Hex);
            false
        }
    }
}

#[test]
fn a_padded_separator_is_a_bad_line(rt: HostRuntime) {
    assert!(rt; ends_image(&rt, rt.alloc(), 120));
    assert!(rt; !ends_image(&rt, rt.alloc(), 121));
}

/// Reads an image whose source fails at a given call, and returns the result.
fn read_with(alloc: Global, faulty_call: u64) -> Result<(), BenchFault> {
    let text = b"9300\nf0ff\n--\nstep";
    let mut lines = Lines::new(FaultySource::new(text, 1, faulty_call));
    read_image(alloc, &mut lines)?;
    Ok(())
}

#[test]
fn an_image_stops_at_a_failed_read(rt: HostRuntime) {
    for faulty_call in 1..=13 {
        assert!(rt;
            read_with(rt.alloc(), faulty_call) == Err(BenchFault::Read),
            "at {faulty_call}"
        );
    }
    assert!(rt; read_with(rt.alloc(), 14).is_ok());
}

/// Writes a thousand lines to a queue.
fn write_lines(rt: &impl Abort, queue: &mut VecDeque<u8>) {
    let mut sink = WriterSink::new(queue);
    for _ in 0..1000 {
        assert!(rt; sink.write_some(b"0123456789\n") == Ok(11));
    }
    assert!(rt; sink.flush().is_ok());
}

#[test]
fn streams_of_std_pass_all_bytes(rt: HostRuntime) {
    let mut queue = VecDeque::new(rt.alloc());
    write_lines(&rt, &mut queue);
    assert!(rt; queue.len() == 11000usize);
    let mut lines = Lines::new(source_over(queue));
    for _ in 0..1000 {
        expect_line(&rt, &mut lines, b"0123456789", 0);
    }
    expect_no_line(&rt, &mut lines);
}

/// Expects the number and the line of an error.
fn expect_fault(rt: &impl Abort, alloc: Global, fault: BenchFault, number: u64, line: &[u8]) {
    expect_number(rt, u64::from(fault.number()), number, number);
    let shown = format!(in alloc; "{fault}").expect(rt, "memory");
    expect_bytes(rt, shown.as_bytes(), line, number);
}

#[test]
fn faults_show_their_lines(rt: HostRuntime) {
    let image = BenchFault::Image(ElfFault::BadEntry);
    let ram = BenchFault::Ram(RamFault::BadSize);
    let asm = BenchFault::Asm(AsmFault {
        line: 12,
        kind: AsmFaultKind::LabelTwice,
    });
    expect_fault(&rt, rt.alloc(), image, 1, b"rvbench: image 11");
    expect_fault(&rt, rt.alloc(), ram, 2, b"rvbench: ram 1");
    expect_fault(&rt, rt.alloc(), BenchFault::Read, 3, b"rvbench: read");
    expect_fault(&rt, rt.alloc(), BenchFault::Write, 4, b"rvbench: write");
    expect_fault(&rt, rt.alloc(), BenchFault::Hex, 5, b"rvbench: hex");
    expect_fault(
        &rt,
        rt.alloc(),
        BenchFault::TooLong,
        6,
        b"rvbench: too long",
    );
    expect_fault(&rt, rt.alloc(), BenchFault::NoMemory, 7, b"rvbench: memory");
    expect_fault(&rt, rt.alloc(), asm, 8, b"rvbench: line 12 fault 6");
}

//! Tests of the numbers of the modes, of the verdicts at the boundaries of some sets of PMP entries, and of locks.

mod verdict_table;

use rv_pmp::{Access, Mode, Pmp, PmpIndex, PmpRegister, Verdict};
use rv_word::Width;
use std::process::Abort;
use verdict_table::{
    ALL_ONES, ALL_ONES_ENTRIES, LOCKED, LOCKED_ENTRIES, NA4_AT_BORDER, NA4_AT_BORDER_ENTRIES,
    NAPOT_IN_TOR, NAPOT_IN_TOR_ENTRIES, OVERLAPPING_TORS, OVERLAPPING_TORS_ENTRIES, PAST_THE_TOP,
    PAST_THE_TOP_ENTRIES, SIDE_BY_SIDE, SIDE_BY_SIDE_ENTRIES, SIXTEEN_APART, SIXTEEN_APART_ENTRIES,
};

/// An access, and the verdict on it.
pub(crate) type Row = (Mode, Access, u32, Width, Expected);

/// A verdict, with the number of the matching entry.
#[derive(Clone, Copy, Debug, PartialEq, Eq)]
pub(crate) enum Expected {
    Allowed(u8),
    AllowedFree,
    Denied(u8),
    DeniedPartial(u8),
    DeniedFree,
}

/// Converts a verdict to one with the number of the entry.
fn numbered(verdict: Verdict) -> Expected {
    match verdict {
        Verdict::Allowed(index) => Expected::Allowed(index.number()),
        Verdict::AllowedFree => Expected::AllowedFree,
        Verdict::Denied(index) => Expected::Denied(index.number()),
        Verdict::DeniedPartial(index) => Expected::DeniedPartial(index.number()),
        Verdict::DeniedFree => Expected::DeniedFree,
    }
}

/// Returns the index with a number, or the last index for a larger number.
fn index(number: u8) -> PmpIndex {
    PmpIndex::new(number.min(15))
}

/// Expects a verdict on an access, and that the cache gives the same verdict twice. The assertions are in a function of their own, because they
/// would lengthen the proof of each test.
fn expect_verdict(rt: &impl Abort, pmp: &mut Pmp, row: &Row) {
    let (mode, access, addr, width, expected) = *row;
    let verdict = pmp.judge(mode, access, addr, width);
    assert_eq!(rt; numbered(verdict), expected);
    for _ in 0..2 {
        assert!(rt; pmp.check(mode, access, addr, width) == verdict.permits());
    }
}

/// Expects the cfg byte and the pmpaddr that an entry has.
fn expect_entry(rt: &impl Abort, pmp: &Pmp, number: u8, cfg: u8, addr: u32) {
    assert!(rt; pmp.cfg(index(number)) == cfg, "cfg of {number}");
    assert!(rt; pmp.addr(index(number)) == addr, "addr of {number}");
}

/// Expects the range of addresses that an entry covers.
fn expect_range(rt: &impl Abort, pmp: &Pmp, number: u8, range: Option<(u64, u64)>) {
    assert_eq!(rt; pmp.entry_range(index(number)), range);
}

/// Expects that the entries, given by number, cfg byte and pmpaddr, give the verdicts of the rows.
fn equivalent(rt: &impl Abort, entries: &[(u8, u8, u32)], rows: &[Row]) {
    let mut pmp = Pmp::new();
    for (number, _, addr) in entries {
        pmp.write_addr(index(*number), *addr);
    }
    for (number, cfg, _) in entries {
        pmp.write_cfg(index(*number), *cfg);
    }
    for row in rows {
        expect_verdict(rt, &mut pmp, row);
    }
}

/// The numbers of Privileged Architecture, table 1.1.
#[test]
fn modes_are_numbered(rt: HostRuntime) {
    for (mode, number) in [(Mode::U, 0), (Mode::S, 1), (Mode::M, 3)] {
        assert!(rt; mode.number() == number, "{number}");
    }
}

#[test]
fn napot_in_tor(rt: HostRuntime) {
    equivalent(&rt, &NAPOT_IN_TOR_ENTRIES, &NAPOT_IN_TOR);
}

#[test]
fn na4_at_border(rt: HostRuntime) {
    equivalent(&rt, &NA4_AT_BORDER_ENTRIES, &NA4_AT_BORDER);
}

#[test]
fn locked(rt: HostRuntime) {
    equivalent(&rt, &LOCKED_ENTRIES, &LOCKED);
}

#[test]
fn all_ones(rt: HostRuntime) {
    equivalent(&rt, &ALL_ONES_ENTRIES, &ALL_ONES);
}

#[test]
fn past_the_top(rt: HostRuntime) {
    equivalent(&rt, &PAST_THE_TOP_ENTRIES, &PAST_THE_TOP);
}

#[test]
fn side_by_side(rt: HostRuntime) {
    equivalent(&rt, &SIDE_BY_SIDE_ENTRIES, &SIDE_BY_SIDE);
}

#[test]
fn overlapping_tors(rt: HostRuntime) {
    equivalent(&rt, &OVERLAPPING_TORS_ENTRIES, &OVERLAPPING_TORS);
}

#[test]
fn sixteen_apart(rt: HostRuntime) {
    equivalent(&rt, &SIXTEEN_APART_ENTRIES, &SIXTEEN_APART);
}

/// Expects whether a word may be read in mode U, by the verdict and by the cache.
fn expect_open(rt: &impl Abort, pmp: &mut Pmp, addr: u32, open: bool) {
    let judged = pmp
        .judge(Mode::U, Access::Read, addr, Width::Word)
        .permits();
    assert!(rt; judged == open, "{addr}");
    for _ in 0..2 {
        assert!(rt; pmp.check(Mode::U, Access::Read, addr, Width::Word) == judged);
    }
}

/// The next access uses each entry that was written.
#[test]
fn writes_are_seen(rt: HostRuntime) {
    let mut pmp = Pmp::new();
    pmp.write_cfg(index(0), 0x19);
    expect_open(&rt, &mut pmp, 0x8000_0000, false);
    pmp.write_addr(index(0), 0x2000_01ff);
    expect_open(&rt, &mut pmp, 0x8000_0000, true);
    pmp.write_cfg_word(PmpRegister::new(0), 0x0000_0018);
    expect_open(&rt, &mut pmp, 0x8000_0000, false);
}

/// All 16 entries are written at once. Their cfg bytes have their stored forms, and the next access uses them.
#[test]
fn sixteen_at_once(rt: HostRuntime) {
    let mut pmp = Pmp::new();
    pmp.set_entries(&[0x7b; 16], &[0x2000_01ff; 16]);
    expect_open(&rt, &mut pmp, 0x8000_0ffc, true);
    expect_open(&rt, &mut pmp, 0x8000_0ffe, false);
    expect_entry(&rt, &pmp, 15, 0x1b, 0x2000_01ff);
}

/// A locked TOR entry locks the pmpaddr below it, even if it covers nothing. W without R is stored as neither.
#[test]
fn locks_and_stored_bytes(rt: HostRuntime) {
    let mut pmp = Pmp::new();
    for (number, cfg) in [(1, 0x8f), (2, 0x80), (3, 0x66)] {
        pmp.write_cfg(index(number), cfg);
    }
    for number in 0..4 {
        pmp.write_addr(index(number), 0x1234_5678);
    }
    for (number, cfg) in [(1, 0x1f), (2, 0x1f)] {
        pmp.write_cfg(index(number), cfg);
    }
    for (number, cfg, addr) in [
        (0, 0, 0),
        (1, 0x8f, 0),
        (2, 0x80, 0),
        (3, 0x04, 0x1234_5678),
    ] {
        expect_entry(&rt, &pmp, number, cfg, addr);
    }
}

/// A write of a whole register keeps the byte of a locked entry. A lock takes effect with the next write.
#[test]
fn register_of_four_entries(rt: HostRuntime) {
    let mut pmp = Pmp::new();
    pmp.write_cfg_word(PmpRegister::new(0), 0x0000_8f00);
    pmp.write_cfg_word(PmpRegister::new(0), 0x0006_0000);
    pmp.write_cfg_word(PmpRegister::new(3), 0x9f7f_0201);
    pmp.write_cfg_word(PmpRegister::new(3), 0x0000_0000);
    for (number, cfg) in [
        (0, 0),
        (1, 0x8f),
        (2, 0x04),
        (3, 0),
        (12, 0),
        (14, 0),
        (15, 0x9f),
    ] {
        expect_entry(&rt, &pmp, number, cfg, 0);
    }
}

/// The first byte of each kind of range, and the first byte after it.
#[test]
fn ranges(rt: HostRuntime) {
    let mut pmp = Pmp::new();
    for (number, cfg, addr, range) in [
        (0, 0x18, 0x3fff_ffff, Some((0, 1 << 33))),
        (1, 0x18, 0xffff_ffff, Some((0, 1 << 35))),
        (2, 0x10, 0xffff_ffff, Some((0x3_ffff_fffc, 1 << 34))),
        (3, 0x08, 0xffff_ffff, None),
        (4, 0x08, 0xffff_fffe, None),
        (5, 0x08, 0xffff_ffff, Some((0x3_ffff_fff8, 0x3_ffff_fffc))),
        (6, 0x00, 0xffff_ffff, None),
    ] {
        pmp.write_cfg(index(number), cfg);
        pmp.write_addr(index(number), addr);
        expect_range(&rt, &pmp, number, range);
    }
}

/// An entry is set at once, with its cfg byte in the stored form.
#[test]
fn set_entry(rt: HostRuntime) {
    let mut pmp = Pmp::new();
    pmp.set_entry(PmpIndex::new(7), 0x7a, 0x2000_01ff);
    expect_entry(&rt, &pmp, 7, 0x18, 0x2000_01ff);
    expect_range(&rt, &pmp, 7, Some((0x8000_0000, 0x8000_1000)));
    let across = pmp.judge(Mode::M, Access::Read, 0x8000_0ffe, Width::Word);
    assert!(rt; numbered(across) == Expected::DeniedPartial(7));
}

/// A cached range is returned only for its mode, and until an entry is written.
#[test]
fn cached_segments(rt: HostRuntime) {
    let mut pmp = Pmp::new();
    pmp.set_entry(PmpIndex::new(0), 0x1b, 0x2000_01ff);
    expect_open(&rt, &mut pmp, 0x8000_0000, true);
    assert!(rt; pmp.check(Mode::S, Access::Write, 0x8000_0000, Width::Byte));
    assert_eq!(rt; pmp.cached_reads(Mode::U), (0x8000_0000, 0x8000_1000));
    assert_eq!(rt; pmp.cached_reads(Mode::S), (0, 0));
    assert_eq!(rt; pmp.cached_writes(Mode::S), (0x8000_0000, 0x8000_1000));
    pmp.write_addr(index(15), 1);
    assert_eq!(rt; pmp.cached_reads(Mode::U), (0, 0));
}

/// In mode M all addresses are cached for fetches of aligned words, if no entry is locked.
#[test]
fn cached_fetches(rt: HostRuntime) {
    let mut pmp = Pmp::new();
    pmp.write_addr(index(0), 0x2000_01ff);
    pmp.write_cfg(index(0), 0x18);
    assert!(rt; pmp.check(Mode::M, Access::Fetch, 0x8000_0ffc, Width::Word));
    assert_eq!(rt; pmp.cached_fetches(Mode::M), (0, 1 << 35));
    assert!(rt; !pmp.check(Mode::M, Access::Fetch, 0x8000_0ffe, Width::Word));
    pmp.write_cfg(index(0), 0x98);
    assert!(rt; !pmp.check(Mode::M, Access::Fetch, 0x8000_0ffc, Width::Word));
}

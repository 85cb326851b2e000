//! Expectations of the tests. The assertions are in functions of their own, one for each type, because they would lengthen the proof of each
//! test.
use rv_bench::{BenchFault, Lines, Source};
use std::process::Abort;

/// Expects exactly these bytes.
pub(crate) fn expect_bytes(rt: &impl Abort, found: &[u8], wanted: &[u8], case: u64) {
    assert_eq!(rt; found, wanted, "case {case}");
}

/// Expects a prefix of these bytes.
pub(crate) fn expect_beginning(rt: &impl Abort, found: &[u8], wanted: &[u8], case: u64) {
    assert!(rt; wanted.starts_with(found), "case {case}");
}

/// Expects this outcome.
pub(crate) fn expect_outcome(
    rt: &impl Abort,
    found: Result<(), BenchFault>,
    wanted: Result<(), BenchFault>,
    case: u64,
) {
    assert_eq!(rt; found, wanted, "case {case}");
}

/// Expects this number.
pub(crate) fn expect_number(rt: &impl Abort, found: u64, wanted: u64, case: u64) {
    assert_eq!(rt; found, wanted, "case {case}");
}

/// Expects that the next line has these bytes.
pub(crate) fn expect_line<S: Source>(
    rt: &impl Abort,
    lines: &mut Lines<S>,
    wanted: &[u8],
    case: u64,
) {
    let line = lines.next_line().expect(rt, "a line").expect(rt, "a line");
    expect_bytes(rt, line.as_slice(), wanted, case);
}

/// Expects the end of the lines.
pub(crate) fn expect_no_line<S: Source>(rt: &impl Abort, lines: &mut Lines<S>) {
    assert!(rt; lines.next_line() == Ok(None));
}

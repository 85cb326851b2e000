//! Tests with corner cases of the manual's tables, and with words of worked examples.

use rv_word::{
    Width, and, and_not, bits, div, divu, le_bytes, le_word, mulh, mulhsu, mulhu, or, rem, remu,
    sext, signed, sll, sra, srl, xor,
};
use std::process::Abort;

/// Expects a computed word. The assertion is in a function of its own, because it would lengthen the proof of each test.
fn expect(rt: &impl Abort, found: u32, want: u32) {
    assert_eq!(rt; found, want);
}

/// Division by zero, the quotient that fits in no word (Unprivileged ISA, table 7.1), and all signs.
#[test]
fn divides(rt: HostRuntime) {
    for (dividend, divisor, quotient, remainder) in [
        (7, 0, 0xffff_ffff, 7),
        (0x8000_0000, 0xffff_ffff, 0x8000_0000, 0),
        (0xffff_fff9, 2, 0xffff_fffd, 0xffff_ffff),
        (7, 0xffff_fffe, 0xffff_fffd, 1),
    ] {
        expect(&rt, div(dividend, divisor), quotient);
        expect(&rt, rem(dividend, divisor), remainder);
    }
    expect(&rt, divu(7, 0), 0xffff_ffff);
    expect(&rt, remu(7, 0), 7);
    expect(&rt, divu(0x8000_0000, 0xffff_ffff), 0);
    expect(&rt, remu(0x8000_0000, 0xffff_ffff), 0x8000_0000);
}

#[test]
fn multiplies(rt: HostRuntime) {
    expect(&rt, mulh(0xffff_ffff, 0xffff_ffff), 0);
    expect(&rt, mulhsu(0xffff_ffff, 0xffff_ffff), 0xffff_ffff);
    expect(&rt, mulhu(0xffff_ffff, 0xffff_ffff), 0xffff_fffe);
    expect(&rt, mulh(0x8000_0000, 0x8000_0000), 0x4000_0000);
}

#[test]
fn takes_words_apart(rt: HostRuntime) {
    assert_eq!(rt; le_bytes(0xfff0_8093), [0x93, 0x80, 0xf0, 0xff]);
    expect(&rt, le_word(&[0x93, 0x80, 0xf0, 0xff]), 0xfff0_8093);
    expect(&rt, bits(0xfff0_8093, 31, 20), 0xfff);
    expect(&rt, sext(0xfff, 12), 0xffff_ffff);
    expect(&rt, sext(0x7ff, 12), 0x7ff);
}

#[test]
fn goes_bit_by_bit(rt: HostRuntime) {
    expect(&rt, and(0b1100, 0b1010), 0b1000);
    expect(&rt, or(0b1100, 0b1010), 0b1110);
    expect(&rt, xor(0b1100, 0b1010), 0b0110);
    expect(&rt, and_not(0b1100, 0b1010), 0b0100);
}

#[test]
fn shifts(rt: HostRuntime) {
    expect(&rt, sll(0x8000_0001, 1), 2);
    expect(&rt, srl(0x8000_0001, 31), 1);
    expect(&rt, sra(0x8000_0001, 31), 0xffff_ffff);
    expect(&rt, sra(0x7fff_ffff, 30), 1);
    assert_eq!(rt; signed(0xffff_fffe), -2);
    assert_eq!(rt; Width::Half.bytes(), 2);
}

//! Tests of digits and of well-formed lines.

use rv_text::{MAX_LINE, digits, hex, is_blank, is_good_line};

#[test]
fn reads_digits_and_lines(rt: HostRuntime) {
    assert_eq!(rt; digits(b"ffffffff", 16, 8), Some(u32::MAX));
    assert_eq!(rt; digits(b"100000000", 16, 8), None);
    assert!(rt; is_blank(b'\t'));
    assert!(rt; is_good_line(&[b'#'; MAX_LINE]));
    assert!(rt; !is_good_line(b"\x7f"));
}

#[test]
fn hexadecimal_digits(rt: HostRuntime) {
    assert_eq!(rt; hex(0x80ab_cdef, 8).as_str(), "80abcdef");
    assert_eq!(rt; hex(0xf0_1234, 3).as_str(), "234");
    assert_eq!(rt; hex(7, 2).as_str(), "07");
}

//! Replies: texts of at most 2048 bytes, and functions that append to them.

ghost use Rattle.std.specs.Prelude.{◌≡◌, ℕ, ◌+◌, ◌≤◌, ◌++◌, length, decimal};
ghost use Rattle.arrayvec.specs.ArrayVec.{array_vec_len};
ghost use Rattle.rv_text.specs.Digits.{hex_digits};

use crate::hexadecimal::hex;
use arrayvec::ArrayVec;
use itoa::Buffer;

/// The bytes of the reply to one command.
pub type Reply = ArrayVec<u8, 2048>;

/// Appends a text to a reply that has room for it.
#[inline(always)]
pub fn push_text(out: &mut Reply, text: &str)
    requires room { array_vec_len out.old + length text.now ≤ 2048 }
    ensures items { out.new.items ≡ out.old.items ++ text.now }
    ensures len { array_vec_len out.new ≡ array_vec_len out.old + length text.now }
{
    if out.try_extend_from_slice(text.as_bytes()).is_err() {
        unreachable!();
    }
}

/// Appends the `places` last hexadecimal digits of a number, in lower case.
#[inline(always)]
pub fn push_hex(out: &mut Reply, value: u32, places: usize)
    requires places { places ≤ 8 }
    requires room { array_vec_len out.old + places ≤ 2048 }
    ensures items { out.new.items ≡ out.old.items ++ hex_digits places value }
    ensures len { array_vec_len out.new ≡ array_vec_len out.old + places }
{
    push_text(out, hex(value, places).as_str());
}

/// Appends a number in decimal, which has at most 10 digits.
#[inline(always)]
pub fn push_decimal(out: &mut Reply, value: u32)
    requires room { array_vec_len out.old + 10 ≤ 2048 }
    ensures items { out.new.items ≡ out.old.items ++ decimal value }
    ensures len { array_vec_len out.new ≤ array_vec_len out.old + 10 }
{
    let mut buffer = Buffer::new();
    push_text(out, buffer.format(value));
}

/// Appends a count in decimal, which has at most 20 digits.
pub fn push_count(out: &mut Reply, value: u64)
    requires room { array_vec_len out.old + 20 ≤ 2048 }
    ensures items { out.new.items ≡ out.old.items ++ decimal value }
    ensures len { array_vec_len out.new ≤ array_vec_len out.old + 20 }
{
    let mut digits = Buffer::new();
    push_text(out, digits.format(value));
}

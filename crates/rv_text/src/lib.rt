//! Texts of bytes: the lines of a text, the words of a line, numbers in digits, and replies. Scripts, images, assembler texts and the replies of
//! the bench use them.
//!
//! In the specs, `Lines` defines the lines of a text, `GoodLines` the well-formed lines, and `Words` the words of a line. `Numbers` defines the
//! number of digits, and `Digits` the digits of a number.
//!
//! ```text
//! for word in &first_words(b"mem 80000000 4") { .. }   // mem, 80000000, 4
//! let address = digits(b"80000000", 16, 8);            // Some(0x8000_0000)
//! let mut reply = Reply::new();
//! push_hex(&mut reply, 0x2a, 8);                       // 0000002a
//! ```
#![tactic(auto)]

mod good_line;
mod hexadecimal;
mod lines;
mod number;
mod position;
mod reply;
mod words;

pub use good_line::{MAX_LINE, is_blank, is_good_line};
pub use hexadecimal::hex;
pub use lines::split_line;
pub use number::digits;
pub use position::{position_in_short, position_of};
pub use reply::{Reply, push_count, push_decimal, push_hex, push_text};
pub use words::{MOST_WORDS, first_words};

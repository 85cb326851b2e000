//! Shifts words (Unprivileged ISA, section 2.4).

ghost use Rattle.std.specs.Prelude.{◌≡◌, ◌<◌};
ghost use Rattle.rv_word.specs.Shifts.{shifted_left, shifted_right, shifted_right_signed};

/// Shifts a word left by 0 to 31 bits. Zeros are shifted in.
pub const fn sll(word: u32, amount: u32) -> u32
    requires { amount < 32 }
    ensures { result ≡ shifted_left word amount }
{
    word << amount
}

/// Shifts a word right by 0 to 31 bits. Zeros are shifted in.
pub const fn srl(word: u32, amount: u32) -> u32
    requires { amount < 32 }
    ensures { result ≡ shifted_right word amount }
{
    word >> amount
}

/// Shifts a word right by 0 to 31 bits. Copies of its sign bit are shifted in.
pub const fn sra(word: u32, amount: u32) -> u32
    requires { amount < 32 }
    ensures { result ≡ shifted_right_signed word amount }
{
    (word.cast_signed() >> amount).cast_unsigned()
}

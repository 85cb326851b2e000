//! Bitwise logic on words (Unprivileged ISA, section 2.4).

ghost use Rattle.std.specs.Prelude.{◌≡◌};
ghost use Rattle.rv_word.specs.Logic.{and_by_bits, or_by_bits, xor_by_bits, and_not_by_bits};

/// Returns the bits that are set in both words.
#[tactic(auto, using(crate::proofs::LogicLemmas::bit_and_is))]
pub const fn and(left: u32, right: u32) -> u32
    ensures { result ≡ and_by_bits left right }
{
    left & right
}

/// Returns the bits that are set in at least one of the words.
#[tactic(auto, using(crate::proofs::LogicLemmas::bit_or_is))]
pub const fn or(left: u32, right: u32) -> u32
    ensures { result ≡ or_by_bits left right }
{
    left | right
}

/// Returns the bits that are set in exactly one of the words.
#[tactic(auto, using(crate::proofs::LogicLemmas::bit_xor_is))]
pub const fn xor(left: u32, right: u32) -> u32
    ensures { result ≡ xor_by_bits left right }
{
    left ^ right
}

/// Returns the bits that are set in the left word and clear in the right one.
#[tactic(auto, using(crate::proofs::LogicLemmas::bit_and_not_is))]
pub const fn and_not(left: u32, right: u32) -> u32
    ensures { result ≡ and_not_by_bits left right }
{
    left & !right
}

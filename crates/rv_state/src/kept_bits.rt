//! Computes the bits that registers keep of a written word.

ghost use Rattle.std.specs.Prelude.{◌≡◌, ◌≤◌};
ghost use Rattle.rv_state.specs.CsrTable as table;
ghost use Rattle.rv_state.specs.Interrupts as interrupts;

use crate::bits::aligned_to_4;
use rv_word::and;

/// Returns a trap vector: the base, and the mode 0 or 1 (Privileged Architecture, section 3.1.7).
pub(crate) const fn vector_of(word: u32) -> u32
    ensures value { result ≡ table.vector_of word }
    ensures kept { table.vector_of result ≡ result }
{
    aligned_to_4(word) + word % 2
}

/// Returns the bits of the six interrupts that mie can enable (sections 3.1.9 and 4.1.3).
#[tactic(auto, using(crate::proofs::MaskLemmas::enabled_is, crate::proofs::MaskLemmas::enabled_again))]
pub(crate) const fn enabled_of(word: u32) -> u32
    ensures value { result ≡ table.enabled_of word }
    ensures kept { table.enabled_of result ≡ result }
{
    and(word, 0xAAA)
}

/// Returns the bits of mip that software writes: SSIP, STIP and SEIP (section 3.1.9).
#[tactic(auto, using(crate::proofs::MaskLemmas::software_is, crate::proofs::MaskLemmas::software_again, crate::proofs::MaskLemmas::software_at_most))]
pub(crate) const fn software_pending_of(word: u32) -> u32
    ensures value { result ≡ interrupts.software_pending_of word }
    ensures kept { interrupts.software_pending_of result ≡ result }
    ensures bound { result ≤ 0x222 }
{
    and(word, 0x222)
}

/// Returns the bits of the counters that mcountinhibit can hold: mcycle and minstret (section 3.1.12).
#[tactic(auto, using(crate::proofs::MaskLemmas::inhibited_is, crate::proofs::MaskLemmas::inhibited_again))]
pub(crate) const fn inhibited_of(word: u32) -> u32
    ensures value { result ≡ table.inhibited_of word }
    ensures kept { table.inhibited_of result ≡ result }
{
    and(word, 0x5)
}

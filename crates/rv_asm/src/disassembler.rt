//! Disassembles a word to a text that assembles to it.

ghost use Rattle.std.specs.Prelude.{◌≡◌, [], ◌∷◌, Ok};
ghost use Rattle.rv_disassembler.specs.Spelling.{spelling};
ghost use Rattle.rv_asm.specs.Program.{assembled};

use arrayvec::ArrayString;

/// Sets `out` to the text of a word, as `rv_disassembler::disassemble` does (Unprivileged ISA, chapters 24 and 25). The text assembles to this
/// word alone.
///
/// ```text
/// disassemble(0xfff0_8093, &mut out); // addi x1, x1, -1
/// disassemble(0x8330_000f, &mut out); // .word 0x8330000f
/// ```
#[tactic(auto, using(crate::proofs::RoundTrip::assembled_spelling))]
pub fn disassemble(word: u32, out: &mut ArrayString<48>)
    ensures text { out.new.bytes ≡ spelling word }
    ensures round_trip { assembled out.new.bytes ≡ Ok (word ∷ []) }
{
    rv_disassembler::disassemble(word, out);
}

//! Reads the headers of an ELF file (gABI, chapter 4, ELF header, and chapter 5, program header).

ghost use Rattle.std.specs.Prelude.{◌≡◌, ◌+◌, ◌*◌, ◌≤◌, ◌⊎◌, length, MatchResult, OnOk, None, Some, true, false};
ghost use Rattle.rv_elf.specs.Fields.{e_entry, e_phnum, e_phoff};
ghost use Rattle.rv_elf.specs.Faults.{first_fault, header_faults, has_bad_table as has_bad_table_of};
ghost use Rattle.rv_elf.specs.Segments.{segments_of};

use crate::elf_fault::ElfFault;
use crate::fields::{half_at, is_elf, word_at};
use crate::segment::Segment;
use arrayvec::ArrayVec;

/// The maximal number of program headers of a file.
pub(crate) const MAX_HEADERS: usize = 64;

/// The size of the ELF header, in bytes.
const FILE_HEADER_LEN: usize = 52;

/// The size of a program header, in bytes.
const PROGRAM_HEADER_LEN: usize = 32;

/// The offset of the file's type.
const E_TYPE: usize = 16;

/// The offset of the machine that the file is for.
const E_MACHINE: usize = 18;

/// The offset of the address of the first instruction.
const E_ENTRY: usize = 24;

/// The offset of the field that has the offset of the program headers.
const E_PHOFF: usize = 28;

/// The offset of the size of a program header.
const E_PHENTSIZE: usize = 42;

/// The offset of the number of program headers.
const E_PHNUM: usize = 44;

/// The type of an executable file.
const ET_EXEC: u16 = 2;

/// The machine RISC-V.
const EM_RISCV: u16 = 243;

/// The type of a program header whose segment is loaded.
const PT_LOAD: u32 = 1;

/// Returns the address of the first instruction.
pub(crate) fn entry_of(file: &[u8]) -> u32
    requires { FILE_HEADER_LEN ≤ length file.now }
    ensures { result ≡ e_entry file.now }
{
    word_at(file, E_ENTRY)
}

/// Returns whether there are more than 64 program headers. Also returns true if there are some, and they do not have 32 bytes each or end after
/// the end of the file.
fn has_bad_table(file: &[u8]) -> bool
    requires { FILE_HEADER_LEN ≤ length file.now }
    ensures { result ≡ has_bad_table_of file.now }
{
    let count = half_at(file, E_PHNUM) as usize;
    let end = word_at(file, E_PHOFF) as usize + PROGRAM_HEADER_LEN * count;
    let is_sized = half_at(file, E_PHENTSIZE) as usize == PROGRAM_HEADER_LEN;
    count > MAX_HEADERS || count != 0 && (!is_sized || end > file.len())
}

/// Checks the ELF header.
///
/// # Errors
///
/// The error with the smallest number that applies, from `Truncated` to `BadHeader`.
#[tactic(auto, unfolding(crate::specs::Faults::header_faults))]
pub(crate) fn check_header(file: &[u8]) -> Result<(), ElfFault>
    ensures value { MatchResult result (λ _. first_fault (header_faults file.now) ≡ None) (λ fault. first_fault (header_faults file.now) ≡ Some fault) }
    ensures whole { OnOk result (FILE_HEADER_LEN ≤ length file.now) }
    ensures few { OnOk result (e_phnum file.now ≤ MAX_HEADERS) }
    ensures table { OnOk result ((e_phnum file.now ≡ 0) ⊎ (e_phoff file.now + 32 * e_phnum file.now ≤ length file.now)) }
{
    if file.len() < FILE_HEADER_LEN {
        return Err(ElfFault::Truncated);
    }
    if !is_elf(file) {
        return Err(ElfFault::NotElf);
    }
    if file[4..7] != [1, 1, 1] {
        return Err(ElfFault::WrongClass);
    }
    if half_at(file, E_TYPE) != ET_EXEC {
        return Err(ElfFault::WrongType);
    }
    if half_at(file, E_MACHINE) != EM_RISCV {
        return Err(ElfFault::WrongMachine);
    }
    if has_bad_table(file) {
        return Err(ElfFault::BadHeader);
    }
    Ok(())
}

/// Returns the segments to load, in the order of their headers.
#[tactic(auto, using(crate::proofs::SegmentLemmas::load_more), unfolding(crate::specs::Segments::segments_of, crate::proofs::SegmentLemmas::first_segments))]
pub(crate) fn read_segments(file: &[u8]) -> ArrayVec<Segment, MAX_HEADERS>
    requires whole { FILE_HEADER_LEN ≤ length file.now }
    requires few { e_phnum file.now ≤ MAX_HEADERS }
    requires table { (e_phnum file.now ≡ 0) ⊎ (e_phoff file.now + 32 * e_phnum file.now ≤ length file.now) }
    ensures { result.items ≡ segments_of file.now }
{
    let mut segments = ArrayVec::new();
    let table = word_at(file, E_PHOFF) as usize;
    for index in 0..half_at(file, E_PHNUM) as usize {
        let place = table + PROGRAM_HEADER_LEN * index;
        if word_at(file, place) == PT_LOAD {
            segments.push(Segment::at(file, place));
        }
    }
    segments
}

//! Offsets of fields in an ELF file with three segments. The ELF header has 52 bytes. Three program headers of 32 bytes each follow it.

/// The four bytes 7F 45 4C 46 at the start of e_ident.
pub(crate) const MAGIC: usize = 0;

/// The class in e_ident: 1 for 32 bits.
pub(crate) const EI_CLASS: usize = 4;

/// The data encoding in e_ident: 1 for little-endian.
pub(crate) const EI_DATA: usize = 5;

/// The version of the identification in e_ident.
pub(crate) const EI_VERSION: usize = 6;

/// The operating system in e_ident, which is not checked.
pub(crate) const EI_OSABI: usize = 7;

/// The field p_offset of a program header that starts at byte 6 of the file, inside the ELF header.
pub(crate) const INNER_OFFSET: usize = 10;

/// The last byte of e_ident, which is padding.
pub(crate) const EI_LAST: usize = 15;

/// The type of the file: 2 for an executable file.
pub(crate) const E_TYPE: usize = 16;

/// The machine: 243 for RISC-V.
pub(crate) const E_MACHINE: usize = 18;

/// The version of the file, which is not checked.
pub(crate) const E_VERSION: usize = 20;

/// The address of the first instruction.
pub(crate) const E_ENTRY: usize = 24;

/// The offset of the table of program headers.
pub(crate) const E_PHOFF: usize = 28;

/// The offset of the table of section headers, which is not checked.
pub(crate) const E_SHOFF: usize = 32;

/// The flags of the file, which are not checked.
pub(crate) const E_FLAGS: usize = 36;

/// The size of the ELF header, which is not checked.
pub(crate) const E_EHSIZE: usize = 40;

/// The size of a program header: 32.
pub(crate) const E_PHENTSIZE: usize = 42;

/// The number of program headers.
pub(crate) const E_PHNUM: usize = 44;

/// The size of a section header, which is not checked.
pub(crate) const E_SHENTSIZE: usize = 46;

/// The number of section headers, which is not checked.
pub(crate) const E_SHNUM: usize = 48;

/// The index of the section with the names of sections, which is not checked.
pub(crate) const E_SHSTRNDX: usize = 50;

/// The field p_type of the first program header: 1 for a segment that is loaded.
pub(crate) const SEGMENT_0_TYPE: usize = 52;

/// The field p_offset of the first program header.
pub(crate) const SEGMENT_0_OFFSET: usize = 56;

/// The field p_vaddr of the first program header, which is not checked.
pub(crate) const SEGMENT_0_VADDR: usize = 60;

/// The field p_paddr of the first program header.
pub(crate) const SEGMENT_0_ADDRESS: usize = 64;

/// The field p_filesz of the first program header.
pub(crate) const SEGMENT_0_FILE_SIZE: usize = 68;

/// The field p_memsz of the first program header.
pub(crate) const SEGMENT_0_MEMORY_SIZE: usize = 72;

/// The field p_flags of the first program header, which is not checked.
pub(crate) const SEGMENT_0_FLAGS: usize = 76;

/// The field p_align of the first program header, which is not checked.
pub(crate) const SEGMENT_0_ALIGN: usize = 80;

/// The field p_paddr of the second program header.
pub(crate) const SEGMENT_1_ADDRESS: usize = 96;

/// The field p_offset of the third program header.
pub(crate) const SEGMENT_2_OFFSET: usize = 120;

/// The field p_paddr of the third program header.
pub(crate) const SEGMENT_2_ADDRESS: usize = 128;

/// The field p_filesz of the third program header.
pub(crate) const SEGMENT_2_FILE_SIZE: usize = 132;

/// The field p_memsz of the third program header.
pub(crate) const SEGMENT_2_MEMORY_SIZE: usize = 136;

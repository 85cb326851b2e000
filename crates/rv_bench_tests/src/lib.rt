//! The tests of `rv_word`, `rv_encoding`, `rv_text`, `rv_script`, `rv_disassembler`, `rv_asm`, `rv_elf`, `rv_command_line`, `rv_streams` and
//! `rv_bench`, through their public functions. They are in a crate of their own, so that no library is proved a second time for them.
#![tactic(auto)]

#[cfg(test)]
mod assembler_tests;
#[cfg(test)]
mod byte_by_byte;
#[cfg(test)]
mod command_line_tests;
#[cfg(test)]
mod device_tests;
#[cfg(test)]
mod disassembler_tests;
#[cfg(test)]
mod elf_tests;
#[cfg(test)]
mod encoding_tests;
#[cfg(test)]
mod expecting;
#[cfg(test)]
mod faulty;
#[cfg(test)]
mod held_tests;
#[cfg(test)]
mod image_tests;
#[cfg(test)]
mod job_tests;
#[cfg(test)]
mod program_tests;
#[cfg(test)]
mod recording;
#[cfg(test)]
mod run_tests;
#[cfg(test)]
mod script_tests;
pub mod sources;
#[cfg(test)]
mod standard_tests;
#[cfg(test)]
mod stream_tests;
#[cfg(test)]
mod text_tests;
#[cfg(test)]
mod word_tests;

//! Makes benches with small programs, and checks their replies. The tables of the tests are constants, and the benches are made here, because
//! both would lengthen the proof of a test.

use rv_debug::Bench;
use rv_fast_path::{BoxedCache, Machine};
use rv_memory::{RAM_BASE, Ram};
use rv_pmp::Mode;
use rv_text::Reply;
use rv_word::le_bytes;
use std::alloc::Global;
use std::process::Abort;

/// Writes words to memory, one after another from an address on.
pub(crate) fn poke_words(ram: &mut Ram, address: u32, words: &[u32]) {
    let mut address = address;
    for word in words {
        for byte in le_bytes(*word) {
            ram.poke(address, byte);
            address = address.wrapping_add(1);
        }
    }
}

/// Returns a machine with the words of a program, in a mode.
pub(crate) fn machine_with(rt: &impl Abort, alloc: Global, words: &[u32], mode: Mode) -> Machine {
    let mut ram = Ram::new(alloc, 65_536).expect(rt, "a RAM");
    poke_words(&mut ram, RAM_BASE, words);
    let mut machine = Machine::new(ram, RAM_BASE, mode);
    machine.set_decode_cache(BoxedCache::allocate(alloc));
    machine
}

/// Returns a bench with the words of a program, in mode M.
pub(crate) fn with_words(rt: &impl Abort, alloc: Global, words: &[u32]) -> Bench {
    Bench::bare(machine_with(rt, alloc, words, Mode::M))
}

/// Expects the text of a reply. The assertion is in a function of its own, because it would lengthen the proof of each test.
pub(crate) fn expect_text(rt: &impl Abort, reply: &Reply, wanted: &[u8]) {
    assert_eq!(rt; reply.as_slice(), wanted);
}

/// The slots of a line that enters no enclave.
pub(crate) const NO_SLOT: u16 = 0;

/// The slots of a line that enters the enclave in slot 0: bit 0.
pub(crate) const SLOT_0: u16 = 1;

/// The slots of a line that enters the enclave in slot 1: bit 1.
pub(crate) const SLOT_1: u16 = 2;

/// A line, the expected reply, and the slots that the line is expected to enter: bit k for slot k.
pub(crate) type Line = (&'static [u8], &'static [u8], u16);

/// Gives lines to a bench, and expects for each line the reply and the slots that the line enters.
pub(crate) fn expect(rt: &impl Abort, bench: &mut Bench, lines: &[Line]) {
    let mut reply = Reply::new();
    for (line, wanted, slots) in lines {
        let entered = bench.execute_line(line, &mut reply);
        expect_text(rt, &reply, wanted);
        assert!(rt; entered == *slots);
    }
}

/// Gives lines to a bench with the words of a program, in mode M.
pub(crate) fn expect_lines(rt: &impl Abort, alloc: Global, words: &[u32], lines: &[Line]) {
    let mut bench = with_words(rt, alloc, words);
    expect(rt, &mut bench, lines);
}

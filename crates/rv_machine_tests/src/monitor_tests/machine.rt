//! Executes the lines of a test on a monitored machine.

ghost use Rattle.std.specs.Prelude.{◌<◌};
ghost use Rattle.rv_monitor.specs.MonitoredMachine.{count_of};

use super::names::{
    A0, A1, A2, A3, A4, A6, A7, CREATE, HOST_START, KEY, NOT_SUPPORTED, REGION, SIZE,
};
use rv_memory::Ram;
use rv_monitor::{EnclaveState, Harts, MonitoredMachine, Slot, SlotInfo, World};
use rv_pmp::{Mode, PmpIndex};
use rv_word::{Reg, le_bytes};
use std::test::Fail;

/// The parts of a machine that a line can show. With two harts, they are those of the hart that the lines select.
#[derive(Clone, Copy)]
pub enum Shown {
    /// The slot of the enclave that runs, or none if the host runs.
    World,
    /// The address of the next instruction.
    Pc,
    /// The privilege mode: 0 for U, 1 for S, 3 for M.
    Mode,
    /// A register by its number, 0 to 31.
    X(u8),
    /// A control and status register, as mode M reads it.
    Csr(u16),
    /// The configuration byte of a PMP entry, 0 to 15.
    PmpCfg(u8),
    /// The pmpaddr register of a PMP entry, 0 to 15.
    PmpAddr(u8),
    /// The byte of memory at an address.
    Byte(u32),
    /// Four bytes in one word, the first in the highest byte: the byte before the region at 80020000, its first byte, its last byte, and the byte
    /// after the region.
    Ends,
    /// The base of the region of a slot's enclave, if it is live.
    Region(u8),
    /// 1 if the enclave of a slot has exited, otherwise 0, if it is live.
    Exited(u8),
    /// The number of harts.
    Harts,
    /// The slot that the last step entered.
    Entered,
    /// 1 if the last step trapped, otherwise 0.
    Trapped,
}

/// A line of a test: an operation, or an expected state.
#[derive(Clone, Copy)]
pub enum Line {
    /// Selects the hart for the lines after it. Before the first such line, hart 0 is selected.
    SelectHart(u8),
    /// Sets a register by its number.
    SetRegister(u8, u32),
    /// Sets the registers of a call: a7 to the key, a6 to the number of the call, and a0 to a4 to the arguments.
    PrepareCall(u32, [u32; 5]),
    /// Executes one step of the selected hart.
    Step,
    /// Sets the byte of memory at an address.
    Poke(u32, u8),
    /// Raises the timer line of the selected hart.
    RaiseTimer,
    /// Lowers the timer line of the selected hart.
    LowerTimer,
    /// Scrambles a slot, and expects success.
    Scramble(u8),
    /// Scrambles a slot, and expects a refusal.
    RefuseScramble(u8),
    /// Expects this value of a part of the machine.
    Expect(Shown, Option<u32>),
    /// Expects another value than this one.
    ExpectOther(Shown, Option<u32>),
    /// Calls create for a region of 4096 bytes without a window, whose first word is the entry. The fields are its base, and the expected status
    /// and slot.
    Create(u32, u32, u32),
    /// Makes a request with the arguments 1 to 5, and expects the status `NOT_SUPPORTED`. The fields are the key and the number of the call.
    ExpectNotSupported(u32, u32),
    /// Expects the record of the enclave in slot 0, which is live.
    ExpectRecord(SlotInfo),
    /// Expects the bytes of memory from an address on.
    ExpectBytes(u32, [u8; 32]),
}

/// Executes lines on a new machine with the words of a program. Fails at the first line that finds an unexpected state. The message has the index
/// of the line and the state.
pub fn run(rt: HostRuntime, words: &[u32], lines: &[Line]) -> Result<(), Fail> {
    let mut machine = Machine::new(rt, words, Harts::One)?;
    machine.follow(lines)
}

/// Executes lines on a new machine with two harts, as `run` does.
pub fn run_two(rt: HostRuntime, words: &[u32], lines: &[Line]) -> Result<(), Fail> {
    let mut machine = Machine::new(rt, words, Harts::Two)?;
    machine.follow(lines)
}

/// Returns the number of a slot.
fn number(slot: Slot) -> u32 {
    u32::from(slot.number())
}

/// A monitored machine, the selected hart, and the outcome of the last step. The contracts of the methods state only that the machine has the
/// selected hart, so that the proof of a test stays small. The run of a test shows what the methods do.
#[derive(Drop)]
struct Machine {
    monitored: MonitoredMachine,
    selected: u8,
    entered: Option<Slot>,
    trapped: bool,
}

impl Machine {
    /// Returns a machine with the words of a program at 80010000, where the host starts.
    fn new(rt: HostRuntime, words: &[u32], harts: Harts) -> Result<Self, Fail> {
        let mut ram = Ram::new(rt.alloc(), 1_048_576).ok().ok_or("a RAM")?;
        let mut address = HOST_START;
        for word in words {
            for byte in le_bytes(*word) {
                ram.poke(address, byte);
                address = address.wrapping_add(1);
            }
        }
        Ok(Machine {
            monitored: MonitoredMachine::new(ram, HOST_START, harts),
            selected: 0,
            entered: None,
            trapped: false,
        })
    }

    /// Executes the lines of a test. Fails at the first line with an unexpected state.
    fn follow(&mut self, lines: &[Line]) -> Result<(), Fail> {
        for (index, line) in lines.iter().enumerate() {
            if let Some(found) = self.unexpected_state(*line) {
                return Err(Fail::new(format_args!("at line {index}: {found:?}")));
            }
        }
        Ok(())
    }

    /// Executes a line. Returns the state that was found, if it is not the expected one.
    fn unexpected_state(&mut self, line: Line) -> Option<Option<u32>> {
        match line {
            Line::SelectHart(hart) => self.selected = hart,
            Line::SetRegister(register, value) => self.set(register, value),
            Line::PrepareCall(function, arguments) => self.prepare_call(function, arguments),
            Line::Step => self.step(),
            Line::Poke(address, byte) => self.poke(address, byte),
            Line::RaiseTimer => self.set_timer(true),
            Line::LowerTimer => self.set_timer(false),
            Line::Scramble(slot) => {
                let is_done = self.scramble(slot);
                return (!is_done).then_some(Some(0));
            }
            Line::RefuseScramble(slot) => {
                let is_done = self.scramble(slot);
                return is_done.then_some(Some(1));
            }
            Line::Expect(part, wanted) => {
                let found = self.show(part);
                return (found != wanted).then_some(found);
            }
            Line::ExpectOther(part, unwanted) => {
                let found = self.show(part);
                return (found == unwanted).then_some(found);
            }
            Line::Create(base, status, slot) => return self.create(base, status, slot),
            Line::ExpectNotSupported(key, function) => return self.not_supported(key, function),
            Line::ExpectRecord(info) => {
                return (self.record(0) != Some(info)).then_some(None);
            }
            Line::ExpectBytes(address, bytes) => return self.unexpected_byte(address, bytes),
        }
        None
    }

    /// Executes `Line::Create`.
    fn create(&mut self, base: u32, status: u32, slot: u32) -> Option<Option<u32>> {
        self.prepare_call(CREATE, [base, SIZE, 0, 0, base]);
        self.step();
        self.unexpected_register(A0, status)
            .or(self.unexpected_register(A1, slot))
    }

    /// Executes `Line::ExpectNotSupported`.
    fn not_supported(&mut self, key: u32, function: u32) -> Option<Option<u32>> {
        self.prepare_call(function, [1, 2, 3, 4, 5]);
        self.set(A7, key);
        self.step();
        self.unexpected_register(A0, NOT_SUPPORTED)
            .or(self.unexpected_register(A1, 0))
            .or(self.unexpected_register(A2, 3))
    }

    /// Returns the first byte of memory from an address on that is not the expected one.
    fn unexpected_byte(&self, address: u32, bytes: [u8; 32]) -> Option<Option<u32>> {
        let mut at = address;
        for byte in bytes {
            let found = self.peek(at);
            if found != Some(byte) {
                return Some(found.map(u32::from));
            }
            at = at.wrapping_add(1);
        }
        None
    }

    /// Returns the word in a register, if it is not the expected one.
    fn unexpected_register(&self, register: u8, wanted: u32) -> Option<Option<u32>> {
        let found = self.x(register);
        (found != wanted).then_some(Some(found))
    }

    /// Returns the selected hart, or hart 0 if there is no such hart.
    fn hart(&self) -> u8
        ensures { result < count_of self.now.monitored }
    {
        if self.selected < self.monitored.harts() {
            self.selected
        } else {
            0
        }
    }

    fn step(&mut self) {
        let hart = self.hart();
        let outcome = self.monitored.step(hart);
        self.entered = outcome.entered;
        self.trapped = outcome.step.trap.is_some();
    }

    fn set(&mut self, register: u8, value: u32) {
        let hart = self.hart();
        self.monitored.set_reg(hart, Reg::new(register % 32), value);
    }

    fn prepare_call(&mut self, function: u32, arguments: [u32; 5]) {
        let [a0, a1, a2, a3, a4] = arguments;
        self.set(A7, KEY);
        self.set(A6, function);
        self.set(A0, a0);
        self.set(A1, a1);
        self.set(A2, a2);
        self.set(A3, a3);
        self.set(A4, a4);
    }

    fn poke(&mut self, address: u32, byte: u8) {
        self.monitored.poke(address, byte);
    }

    fn set_timer(&mut self, raised: bool) {
        let hart = self.hart();
        self.monitored.set_timer(hart, raised);
    }

    fn scramble(&mut self, slot: u8) -> bool {
        match Slot::new(u32::from(slot)) {
            Some(slot) => self.monitored.scramble(slot),
            None => false,
        }
    }

    /// Returns the value of a part of the machine, if there is one.
    fn show(&self, part: Shown) -> Option<u32> {
        match part {
            Shown::World => self.slot().map(number),
            Shown::Pc => Some(self.monitored.pc(self.hart())),
            Shown::Mode => Some(self.mode()),
            Shown::X(register) => Some(self.x(register)),
            Shown::Csr(number) => self.csr(number),
            Shown::PmpCfg(entry) => Some(self.pmp_cfg(entry)),
            Shown::PmpAddr(entry) => Some(self.pmp_addr(entry)),
            Shown::Byte(address) => self.peek(address).map(u32::from),
            Shown::Ends => self.ends(),
            Shown::Region(slot) => self.record(slot).map(|info| info.region.base),
            Shown::Exited(slot) => self.exited(slot),
            Shown::Harts => Some(u32::from(self.monitored.harts())),
            Shown::Entered => self.entered.map(number),
            Shown::Trapped => Some(u32::from(self.trapped)),
        }
    }

    fn slot(&self) -> Option<Slot> {
        match self.monitored.world(self.hart()) {
            World::Host => None,
            World::Enclave(slot) => Some(slot),
        }
    }

    fn mode(&self) -> u32 {
        match self.monitored.mode(self.hart()) {
            Mode::U => 0,
            Mode::S => 1,
            Mode::M => 3,
        }
    }

    fn x(&self, register: u8) -> u32 {
        self.monitored
            .regs(self.hart())
            .get(Reg::new(register % 32))
    }

    fn csr(&self, number: u16) -> Option<u32> {
        self.monitored.csrs(self.hart()).read(number, Mode::M).ok()
    }

    fn pmp_cfg(&self, entry: u8) -> u32 {
        let index = PmpIndex::new(entry % 16);
        u32::from(self.monitored.csrs(self.hart()).pmp().cfg(index))
    }

    fn pmp_addr(&self, entry: u8) -> u32 {
        self.monitored
            .csrs(self.hart())
            .pmp()
            .addr(PmpIndex::new(entry % 16))
    }

    fn peek(&self, address: u32) -> Option<u8> {
        self.monitored.ram().peek(address)
    }

    fn ends(&self) -> Option<u32> {
        let mut word = 0u32;
        for address in [REGION - 1, REGION, REGION + SIZE - 1, REGION + SIZE] {
            let byte = self.peek(address)?;
            word = word.wrapping_mul(256).wrapping_add(u32::from(byte));
        }
        Some(word)
    }

    fn exited(&self, slot: u8) -> Option<u32> {
        let info = self.record(slot)?;
        Some(u32::from(info.state == EnclaveState::Exited))
    }

    /// Returns the record of the enclave in a slot, if it is live.
    fn record(&self, slot: u8) -> Option<SlotInfo> {
        let slot = Slot::new(u32::from(slot))?;
        self.monitored.table().get(slot).copied()
    }
}

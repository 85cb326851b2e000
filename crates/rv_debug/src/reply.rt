//! The text of the replies to commands.

ghost use Rattle.std.specs.Prelude.{◌≡◌, ℕ, ◌+◌, ◌*◌, ◌<◌, ◌≤◌, ◌++◌, length, codes, decimal, if◌then◌else◌};
ghost use Rattle.arrayvec.specs.ArrayVec.{array_vec_len};
ghost use Rattle.rv_debug.specs.Execute.{hart_summary_text};
ghost use Rattle.rv_debug.specs.ReplyText.{mode_text, stop_text, ran_text, hart_text, no_hart_text, trap_text, register_text, registers_text, pc_text, ok_text, csr_text, memory_text, dis_text, entry_text, pmp_text, verdict_text, denied_outside_text, full_text, command_fault_text, no_csr_text, outside_text};
ghost use Rattle.rv_debug.specs.Targets.{hart_of, harts_of, pc_of, with_selected, world_name, world_text};

use crate::scheduled::HartRan;
use crate::steps::{Ran, Stop};
use crate::target::Target;
use arrayvec::ArrayString;
use rv_disassembler::disassemble;
use rv_encoding::CsrNumber;
use rv_hart::Trap;
use rv_monitor::World;
use rv_pmp::{Mode, Pmp, PmpIndex, Verdict};
use rv_script::CommandFault;
use rv_state::Regs;
use rv_text::{Reply, push_decimal, push_hex, push_text};
use rv_word::Reg;

/// Writes the trap of a run: its cause and value, or `-` if there was none.
#[tactic(auto, unfolding(crate::specs::ReplyText::trap_text))]
fn push_trap(out: &mut Reply, trap: Option<Trap>)
    requires room { array_vec_len out.old + 17 ≤ 2048 }
    ensures items { out.new.items ≡ out.old.items ++ trap_text trap }
    ensures len { array_vec_len out.new ≤ array_vec_len out.old + 17 }
{
    match trap {
        None => push_text(out, "-"),
        Some(Trap { cause, tval }) => {
            push_hex(out, cause.code(), 8);
            push_text(out, ":");
            push_hex(out, tval, 8);
        }
    }
}

/// Writes the letter of a mode.
fn push_mode(out: &mut Reply, mode: Mode)
    requires room { array_vec_len out.old + 1 ≤ 2048 }
    ensures items { out.new.items ≡ out.old.items ++ mode_text mode }
    ensures len { array_vec_len out.new ≤ array_vec_len out.old + 1 }
{
    match mode {
        Mode::U => push_text(out, "U"),
        Mode::S => push_text(out, "S"),
        Mode::M => push_text(out, "M"),
    }
}

/// Writes the reason for which a run ended.
#[tactic(auto, unfolding(crate::specs::ReplyText::stop_text))]
fn push_stop(out: &mut Reply, stop: Stop)
    requires room { array_vec_len out.old + 14 ≤ 2048 }
    ensures items { out.new.items ≡ out.old.items ++ stop_text stop }
    ensures len { array_vec_len out.new ≤ array_vec_len out.old + 14 }
{
    match stop {
        Stop::Done => push_text(out, "done"),
        Stop::Break => push_text(out, "break"),
        Stop::Watch(address) => {
            push_text(out, "watch:");
            push_hex(out, address, 8);
        }
    }
}

/// Writes the name of a world of a monitored machine.
fn push_world_name(out: &mut Reply, world: World)
    requires room { array_vec_len out.old + 11 ≤ 2048 }
    ensures items { out.new.items ≡ out.old.items ++ world_name world }
    ensures len { array_vec_len out.new ≤ array_vec_len out.old + 11 }
{
    match world {
        World::Host => push_text(out, "host"),
        World::Enclave(slot) => {
            push_text(out, "e");
            push_decimal(out, u32::from(slot.number()));
        }
    }
}

/// Writes the name of the world of a hart that a target has.
fn push_world_at(out: &mut Reply, target: &Target, hart: u8)
    requires has { hart < harts_of target.now }
    requires room { array_vec_len out.old + 11 ≤ 2048 }
    ensures items { out.new.items ≡ out.old.items ++ world_text (with_selected hart target.now) }
    ensures len { array_vec_len out.new ≤ array_vec_len out.old + 11 }
{
    match target {
        Target::Bare(_) => push_text(out, "bare"),
        Target::Monitored(selected) => push_world_name(out, selected.machine.world(hart)),
    }
}

/// Writes a summary of the steps of a hart of the target, and the pc, the mode and the world of the hart.
#[tactic(auto, unfolding(crate::specs::ReplyText::hart_text))]
pub(crate) fn push_hart(out: &mut Reply, target: &Target, hart: u8, ran: HartRan)
    requires has { hart < harts_of target.now }
    requires room { array_vec_len out.old + 87 ≤ 2048 }
    ensures items { out.new.items ≡ out.old.items ++ hart_summary_text target.now hart ran }
    ensures len { array_vec_len out.new ≤ array_vec_len out.old + 87 }
{
    push_text(out, "hart ");
    push_decimal(out, u32::from(hart));
    push_text(out, " ");
    push_decimal(out, ran.steps);
    push_text(out, " pc=");
    push_hex(out, target.pc_at(hart), 8);
    push_text(out, " mode=");
    push_mode(out, target.mode_at(hart));
    push_text(out, " world=");
    push_world_at(out, target, hart);
    push_text(out, " trap=");
    push_trap(out, ran.trap);
    push_text(out, "\n");
}

/// Writes a summary of a run: the number of steps; the pc, the mode and the world of the target after them; why they ended; and the last trap.
#[tactic(auto, unfolding(crate::specs::ReplyText::ran_text))]
pub(crate) fn push_ran(out: &mut Reply, target: &Target, ran: Ran)
    requires room { array_vec_len out.old + 97 ≤ 2048 }
    ensures items { out.new.items ≡ out.old.items ++ ran_text (pc_of target.now) (hart_of target.now).mode (world_text target.now) ran }
    ensures len { array_vec_len out.new ≤ array_vec_len out.old + 97 }
{
    let hart = target.selected();
    push_text(out, "ran ");
    push_decimal(out, ran.steps);
    push_text(out, " pc=");
    push_hex(out, target.pc_at(hart), 8);
    push_text(out, " mode=");
    push_mode(out, target.mode_at(hart));
    push_text(out, " world=");
    push_world_at(out, target, hart);
    push_text(out, " why=");
    push_stop(out, ran.stop);
    push_text(out, " trap=");
    push_trap(out, ran.trap);
    push_text(out, "\n");
}

/// Writes the value of a register.
#[tactic(auto, unfolding(crate::specs::ReplyText::register_text))]
pub(crate) fn push_register(out: &mut Reply, register: Reg, value: u32)
    requires room { array_vec_len out.old + 21 ≤ 2048 }
    ensures items { out.new.items ≡ out.old.items ++ register_text register value }
    ensures len { array_vec_len out.new ≤ array_vec_len out.old + 21 }
{
    push_text(out, "x");
    push_decimal(out, u32::from(register.number()));
    push_text(out, "=");
    push_hex(out, value, 8);
    push_text(out, "\n");
}

/// Writes the address of the next instruction.
#[tactic(auto, unfolding(crate::specs::ReplyText::pc_text))]
fn push_pc(out: &mut Reply, pc: u32)
    requires room { array_vec_len out.old + 12 ≤ 2048 }
    ensures items { out.new.items ≡ out.old.items ++ pc_text pc }
    ensures len { array_vec_len out.new ≡ array_vec_len out.old + 12 }
{
    push_text(out, "pc=");
    push_hex(out, pc, 8);
    push_text(out, "\n");
}

/// Writes the value of each register, from x0 on, and then pc.
#[tactic(auto, unfolding(crate::specs::ReplyText::registers_text))]
pub(crate) fn push_registers(out: &mut Reply, regs: &Regs, pc: u32)
    requires room { array_vec_len out.old + 418 ≤ 2048 }
    ensures items { out.new.items ≡ out.old.items ++ registers_text regs.now pc }
    ensures len { array_vec_len out.new ≤ array_vec_len out.old + 418 }
{
    for number in 0..32 {
        let register = Reg::new(number);
        push_register(out, register, regs.get(register));
    }
    push_pc(out, pc);
}

/// Writes that a command was executed.
#[tactic(auto, unfolding(crate::specs::ReplyText::ok_text))]
pub(crate) fn push_ok(out: &mut Reply)
    requires room { array_vec_len out.old + 3 ≤ 2048 }
    ensures items { out.new.items ≡ out.old.items ++ ok_text }
    ensures len { array_vec_len out.new ≡ array_vec_len out.old + 3 }
{
    push_text(out, "ok\n");
}

/// Writes that an address was inserted into a set, or that the set is full.
#[tactic(auto, unfolding(crate::specs::ReplyText::full_text, crate::specs::ReplyText::ok_text))]
pub(crate) fn push_set(out: &mut Reply, set: bool)
    requires room { array_vec_len out.old + 11 ≤ 2048 }
    ensures items { out.new.items ≡ out.old.items ++ (if set then ok_text else full_text) }
    ensures len { array_vec_len out.new ≤ array_vec_len out.old + 11 }
{
    if set {
        push_text(out, "ok\n");
    } else {
        push_text(out, "error full\n");
    }
}

/// Writes the value of a CSR.
#[tactic(auto, unfolding(crate::specs::ReplyText::csr_text))]
pub(crate) fn push_csr(out: &mut Reply, csr: CsrNumber, word: u32)
    requires room { array_vec_len out.old + 17 ≤ 2048 }
    ensures items { out.new.items ≡ out.old.items ++ csr_text csr word }
    ensures len { array_vec_len out.new ≡ array_vec_len out.old + 17 }
{
    push_text(out, "csr ");
    push_hex(out, u32::from(csr.number()), 3);
    push_text(out, "=");
    push_hex(out, word, 8);
    push_text(out, "\n");
}

/// Writes bytes of memory, from the byte at the address on.
#[tactic(auto, unfolding(crate::specs::ReplyText::memory_text))]
pub(crate) fn push_memory(out: &mut Reply, address: u32, bytes: &[u8])
    requires room { array_vec_len out.old + (10 + 3 * length bytes.now) ≤ 2048 }
    ensures items { out.new.items ≡ out.old.items ++ memory_text address bytes.now }
    ensures len { array_vec_len out.new ≡ array_vec_len out.old + (10 + 3 * length bytes.now) }
{
    push_hex(out, address, 8);
    push_text(out, ":");
    for byte in bytes {
        push_text(out, " ");
        push_hex(out, u32::from(*byte), 2);
    }
    push_text(out, "\n");
}

/// Writes a word and its disassembly.
#[tactic(auto, unfolding(crate::specs::ReplyText::dis_text))]
pub(crate) fn push_dis(out: &mut Reply, address: u32, word: u32)
    requires room { array_vec_len out.old + 68 ≤ 2048 }
    ensures items { out.new.items ≡ out.old.items ++ dis_text address word }
    ensures len { array_vec_len out.new ≤ array_vec_len out.old + 68 }
{
    let mut text = ArrayString::new();
    disassemble(word, &mut text);
    push_hex(out, address, 8);
    push_text(out, ": ");
    push_hex(out, word, 8);
    push_text(out, " ");
    push_text(out, text.as_str());
    push_text(out, "\n");
}

/// Writes a PMP entry: its number, cfg byte and pmpaddr value.
#[tactic(auto, unfolding(crate::specs::ReplyText::entry_text))]
fn push_entry(out: &mut Reply, index: PmpIndex, cfg: u8, addr: u32)
    requires room { array_vec_len out.old + 36 ≤ 2048 }
    ensures items { out.new.items ≡ out.old.items ++ entry_text index cfg addr }
    ensures len { array_vec_len out.new ≤ array_vec_len out.old + 36 }
{
    push_text(out, "pmp ");
    push_decimal(out, u32::from(index.number()));
    push_text(out, " cfg=");
    push_hex(out, u32::from(cfg), 2);
    push_text(out, " addr=");
    push_hex(out, addr, 8);
    push_text(out, "\n");
}

/// Writes the PMP entries, from entry 0 on.
#[tactic(auto, unfolding(crate::specs::ReplyText::pmp_text))]
pub(crate) fn push_pmp(out: &mut Reply, pmp: &Pmp)
    requires room { array_vec_len out.old + 576 ≤ 2048 }
    ensures items { out.new.items ≡ out.old.items ++ pmp_text pmp.now }
    ensures len { array_vec_len out.new ≤ array_vec_len out.old + 576 }
{
    for number in 0..16 {
        let index = PmpIndex::new(number);
        push_entry(out, index, pmp.cfg(index), pmp.addr(index));
    }
}

/// Writes the words of a verdict and the number of the PMP entry that decides the access.
fn push_decider(out: &mut Reply, words: &str, index: PmpIndex)
    requires room { array_vec_len out.old + (length words.now + 11) ≤ 2048 }
    ensures items { out.new.items ≡ out.old.items ++ (words.now ++ decimal index ++ codes "\n") }
    ensures len { array_vec_len out.new ≤ array_vec_len out.old + (length words.now + 11) }
{
    push_text(out, words);
    push_decimal(out, u32::from(index.number()));
    push_text(out, "\n");
}

/// Writes the verdict on an access.
#[tactic(auto, unfolding(crate::specs::ReplyText::verdict_text))]
pub(crate) fn push_verdict(out: &mut Reply, verdict: Verdict)
    requires room { array_vec_len out.old + 26 ≤ 2048 }
    ensures items { out.new.items ≡ out.old.items ++ verdict_text verdict }
    ensures len { array_vec_len out.new ≤ array_vec_len out.old + 26 }
{
    match verdict {
        Verdict::Allowed(index) => push_decider(out, "allowed entry ", index),
        Verdict::AllowedFree => push_text(out, "allowed free\n"),
        Verdict::Denied(index) => push_decider(out, "denied entry ", index),
        Verdict::DeniedPartial(index) => push_decider(out, "denied partial ", index),
        Verdict::DeniedFree => push_text(out, "denied free\n"),
    }
}

/// Writes that a byte of an access is outside RAM.
#[tactic(auto, unfolding(crate::specs::ReplyText::denied_outside_text))]
pub(crate) fn push_denied_outside(out: &mut Reply)
    requires room { array_vec_len out.old + 15 ≤ 2048 }
    ensures items { out.new.items ≡ out.old.items ++ denied_outside_text }
    ensures len { array_vec_len out.new ≡ array_vec_len out.old + 15 }
{
    push_text(out, "denied outside\n");
}

/// Writes the reply to a line with an error.
pub(crate) fn push_fault(out: &mut Reply, fault: CommandFault)
    requires room { array_vec_len out.old + 14 ≤ 2048 }
    ensures items { out.new.items ≡ out.old.items ++ command_fault_text fault }
    ensures len { array_vec_len out.new ≤ array_vec_len out.old + 14 }
{
    match fault {
        CommandFault::BadLine => push_text(out, "error line\n"),
        CommandFault::UnknownCommand => push_text(out, "error command\n"),
        CommandFault::BadOperand => push_text(out, "error operand\n"),
    }
}

/// Writes that no CSR has the number of the command.
#[tactic(auto, unfolding(crate::specs::ReplyText::no_csr_text))]
pub(crate) fn push_no_csr(out: &mut Reply)
    requires room { array_vec_len out.old + 10 ≤ 2048 }
    ensures items { out.new.items ≡ out.old.items ++ no_csr_text }
    ensures len { array_vec_len out.new ≡ array_vec_len out.old + 10 }
{
    push_text(out, "error csr\n");
}

/// Writes that no hart has the number of the command.
#[tactic(auto, unfolding(crate::specs::ReplyText::no_hart_text))]
pub(crate) fn push_no_hart(out: &mut Reply)
    requires room { array_vec_len out.old + 11 ≤ 2048 }
    ensures items { out.new.items ≡ out.old.items ++ no_hart_text }
    ensures len { array_vec_len out.new ≡ array_vec_len out.old + 11 }
{
    push_text(out, "error hart\n");
}

/// Writes that a byte that the command accesses is outside RAM.
#[tactic(auto, unfolding(crate::specs::ReplyText::outside_text))]
pub(crate) fn push_outside(out: &mut Reply)
    requires room { array_vec_len out.old + 14 ≤ 2048 }
    ensures items { out.new.items ≡ out.old.items ++ outside_text }
    ensures len { array_vec_len out.new ≤ array_vec_len out.old + 14 }
{
    push_text(out, "error outside\n");
}

//! Execution of the commands that show or change the target, and their replies.

ghost use Rattle.std.specs.Prelude.{◌≡◌};
ghost use Rattle.arrayvec.specs.ArrayVec.{array_vec_len};
ghost use Rattle.rv_debug.specs.Execute.{ran_reply, csr_reply, memory_reply, poke_reply, dis_reply, access_reply, hart_reply, harts_summary_text, sched_reply};
ghost use Rattle.rv_debug.specs.Effects.{OneByte, done, entered_by, hart_effect, run_effect, sched_effect, steps_of};
ghost use Rattle.rv_script.specs.Schedules.{harts_in};
ghost use Rattle.rv_debug.specs.Addresses.{without_address};
ghost use Rattle.rv_debug.specs.ReplyText.{ok_text};
ghost use Rattle.rv_debug.specs.Targets.{hart_of, memory_of, register_set, timer_set, IsBare};

use crate::addresses::Addresses;
use crate::reply::{
    push_csr, push_denied_outside, push_dis, push_hart, push_memory, push_no_csr, push_no_hart,
    push_ok, push_outside, push_ran, push_verdict,
};
use crate::scheduled::{Scheduled, run_schedule};
use crate::target::Target;
use rv_encoding::CsrNumber;
use rv_pmp::{Access, Mode};
use rv_script::{ByteCount, Schedule, StepCount};
use rv_text::Reply;
use rv_word::{Reg, Width, le_word};

/// Executes at most `count` steps, which a watchpoint or a breakpoint may end, and replies with a summary. Returns the slots of the enclaves
/// that they entered.
#[tactic(auto, using(crate::proofs::RunSchedules::run_done, crate::proofs::RunSchedules::run_entered))]
pub(crate) fn execute_run(
    target: &mut Target,
    count: StepCount,
    breaks: &Addresses,
    watches: &Addresses,
    reply: &mut Reply,
) -> u16
    requires { array_vec_len reply.old ≡ 0 }
    ensures target { done target.old (run_effect target.old breaks.now watches.now count) ≡ target.new }
    ensures entered { entered_by target.old (run_effect target.old breaks.now watches.now count) ≡ result }
    ensures reply { ran_reply (steps_of target.old breaks.now watches.now count) ≡ reply.new.items }
    ensures bare { IsBare target.old → result ≡ 0 }
{
    let ran = target.run(count.get(), breaks, watches);
    push_ran(reply, target, ran);
    ran.entered
}

/// Removes an address from a set, if the set has it.
pub(crate) fn execute_removal(addresses: &mut Addresses, address: u32, reply: &mut Reply)
    requires { array_vec_len reply.old ≡ 0 }
    ensures set { addresses.new ≡ without_address address addresses.old }
    ensures reply { reply.new.items ≡ ok_text }
{
    addresses.remove(address);
    push_ok(reply);
}

/// Writes a word to a register.
pub(crate) fn execute_setreg(target: &mut Target, reg: Reg, value: u32, reply: &mut Reply)
    requires { array_vec_len reply.old ≡ 0 }
    ensures target { target.new ≡ register_set target.old reg value }
    ensures reply { reply.new.items ≡ ok_text }
{
    target.set_reg(reg, value);
    push_ok(reply);
}

/// Raises or lowers the timer line.
pub(crate) fn execute_timer(target: &mut Target, raised: bool, reply: &mut Reply)
    requires { array_vec_len reply.old ≡ 0 }
    ensures target { target.new ≡ timer_set target.old raised }
    ensures reply { reply.new.items ≡ ok_text }
{
    target.set_timer(raised);
    push_ok(reply);
}

/// Writes a byte to memory, if its address is in RAM.
pub(crate) fn execute_poke(target: &mut Target, address: u32, byte: u8, reply: &mut Reply)
    requires { array_vec_len reply.old ≡ 0 }
    ensures target { done target.old (OneByte address byte) ≡ target.new }
    ensures reply { poke_reply target.old address byte ≡ reply.new.items }
{
    if target.poke(address, byte) {
        push_ok(reply);
    } else {
        push_outside(reply);
    }
}

/// The number of mhartid, the CSR with the number of the hart.
const MHARTID: u16 = 0xf14;

/// Shows a CSR. For mhartid it shows the number of the selected hart. It shows any other CSR as mode M reads it, if there is one with the
/// number.
pub(crate) fn execute_csr(target: &Target, csr: CsrNumber, reply: &mut Reply)
    requires { array_vec_len reply.old ≡ 0 }
    ensures { reply.new.items ≡ csr_reply target.now csr }
{
    if csr.number() == MHARTID {
        return push_csr(reply, csr, u32::from(target.selected()));
    }
    match target.csrs().read(csr.number(), Mode::M) {
        Ok(word) => push_csr(reply, csr, word),
        Err(_) => push_no_csr(reply),
    }
}

/// Selects a hart, if there is one with the number.
#[tactic(auto, unfolding(crate::specs::ScheduledSteps::scheduled_steps))]
pub(crate) fn execute_hart(target: &mut Target, hart: u8, reply: &mut Reply)
    requires { array_vec_len reply.old ≡ 0 }
    ensures target { done target.old (hart_effect target.old hart) ≡ target.new }
    ensures reply { hart_reply target.old hart ≡ reply.new.items }
    ensures entered { entered_by target.old (hart_effect target.old hart) ≡ 0 }
{
    if hart < target.harts() {
        target.select(hart);
        push_ok(reply);
    } else {
        push_no_hart(reply);
    }
}

/// Writes a summary of the steps of each hart.
fn push_harts(reply: &mut Reply, target: &Target, did: &Scheduled)
    requires { array_vec_len reply.old ≡ 0 }
    ensures { reply.new.items ≡ harts_summary_text (record { state = target.now; did = did.now }) }
{
    let harts = target.harts();
    push_hart(reply, target, 0, did.first);
    if harts > 1 {
        push_hart(reply, target, 1, did.second);
    }
}

/// Executes one step of the named hart for each digit of a schedule, and replies with a summary for each hart. If the schedule names a hart that
/// does not exist, replies with an error and executes nothing. The selected hart does not change. Returns the slots of the enclaves that the
/// steps entered.
pub(crate) fn execute_sched(target: &mut Target, schedule: &Schedule, reply: &mut Reply) -> u16
    requires { array_vec_len reply.old ≡ 0 }
    ensures target { done target.old (sched_effect target.old (harts_in schedule.now)) ≡ target.new }
    ensures reply { sched_reply target.old (harts_in schedule.now) ≡ reply.new.items }
    ensures entered { entered_by target.old (sched_effect target.old (harts_in schedule.now)) ≡ result }
    ensures bare { IsBare target.old → result ≡ 0 }
{
    if !schedule.names_only(target.harts()) {
        push_no_hart(reply);
        return 0;
    }
    let selected = target.selected();
    let did = run_schedule(target, schedule);
    push_harts(reply, target, &did);
    target.select(selected);
    did.entered
}

/// Shows `count` bytes of memory, if all of them are in RAM.
pub(crate) fn execute_mem(target: &Target, address: u32, count: ByteCount, reply: &mut Reply)
    requires { array_vec_len reply.old ≡ 0 }
    ensures { reply.new.items ≡ memory_reply (memory_of target.now) address count }
{
    let ram = target.ram();
    if !ram.contains(address, count.get()) {
        return push_outside(reply);
    }
    push_memory(reply, address, ram.part(address, count.get()));
}

/// Shows the word at an address and its disassembly, if all of its bytes are in RAM.
pub(crate) fn execute_dis(target: &Target, address: u32, reply: &mut Reply)
    requires { array_vec_len reply.old ≡ 0 }
    ensures { reply.new.items ≡ dis_reply (memory_of target.now) address }
{
    let ram = target.ram();
    if !ram.contains(address, 4) {
        return push_outside(reply);
    }
    let mut bytes = [0; 4];
    bytes.copy_from_slice(ram.part(address, 4));
    push_dis(reply, address, le_word(&bytes));
}

/// Replies that an access is outside if one of its bytes is outside RAM. Otherwise replies with the verdict of the PMP entries on it in the
/// given mode.
#[tactic(auto, unfolding(rv_memory::specs::Memory::read))]
pub(crate) fn execute_access(
    target: &Target,
    mode: Mode,
    access: Access,
    address: u32,
    width: Width,
    reply: &mut Reply,
)
    requires { array_vec_len reply.old ≡ 0 }
    ensures { reply.new.items ≡ access_reply (memory_of target.now) (hart_of target.now).csrs.pmp mode access address width }
{
    let ram = target.ram();
    if !ram.contains(address, u32::from(width.bytes())) {
        return push_denied_outside(reply);
    }
    let verdict = target.csrs().pmp().judge(mode, access, address, width);
    push_verdict(reply, verdict);
}

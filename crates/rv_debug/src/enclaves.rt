//! The lines that show the live enclaves.

ghost use Rattle.std.specs.Prelude.{◌≡◌, ◌+◌, ◌*◌, ◌≤◌, ◌++◌, length, codes};
ghost use Rattle.std.specs.List.{flat_map};
ghost use Rattle.arrayvec.specs.ArrayVec.{array_vec_len};
ghost use Rattle.rv_text.specs.Digits.{hex2, hex8};
ghost use Rattle.rv_debug.specs.EnclaveText.{state_text, block_text, enclave_text, slot_text, table_text};
ghost use Rattle.rv_enclaves.specs.Table.{slot_at};
ghost use Rattle.rv_debug.specs.Targets.{enclaves_text};

use crate::target::Target;
use rv_monitor::{Block, EnclaveState, Slot, SlotInfo, Table};
use rv_text::{Reply, push_decimal, push_hex, push_text};

/// Writes the state of an enclave.
fn push_state(out: &mut Reply, state: EnclaveState)
    requires room { array_vec_len out.old + 7 ≤ 2048 }
    ensures items { out.new.items ≡ out.old.items ++ state_text state }
    ensures len { array_vec_len out.new ≤ array_vec_len out.old + 7 }
{
    match state {
        EnclaveState::Fresh => push_text(out, "Fresh"),
        EnclaveState::Running => push_text(out, "Running"),
        EnclaveState::Stopped => push_text(out, "Stopped"),
        EnclaveState::Exited => push_text(out, "Exited"),
    }
}

/// Writes a space and the eight digits of a number.
fn push_number(out: &mut Reply, number: u32)
    requires room { array_vec_len out.old + 9 ≤ 2048 }
    ensures items { out.new.items ≡ out.old.items ++ (codes " " ++ hex8 number) }
    ensures len { array_vec_len out.new ≡ array_vec_len out.old + 9 }
{
    push_text(out, " ");
    push_hex(out, number, 8);
}

/// Writes the first address and the size of a block.
fn push_block(out: &mut Reply, block: Block)
    requires room { array_vec_len out.old + 18 ≤ 2048 }
    ensures items { out.new.items ≡ out.old.items ++ block_text block }
    ensures len { array_vec_len out.new ≡ array_vec_len out.old + 18 }
{
    push_number(out, block.base);
    push_number(out, block.size);
}

/// Writes two digits for each byte.
fn push_digest(out: &mut Reply, bytes: &[u8])
    requires room { array_vec_len out.old + 2 * length bytes.now ≤ 2048 }
    ensures items { out.new.items ≡ out.old.items ++ flat_map hex2 bytes.now }
    ensures len { array_vec_len out.new ≡ array_vec_len out.old + 2 * length bytes.now }
{
    for byte in bytes {
        push_hex(out, u32::from(*byte), 2);
    }
}

/// Writes the record of a live enclave.
#[tactic(auto, unfolding(crate::specs::EnclaveText::enclave_text))]
fn push_enclave(out: &mut Reply, slot: Slot, info: &SlotInfo)
    requires room { array_vec_len out.old + 137 ≤ 2048 }
    ensures items { out.new.items ≡ out.old.items ++ enclave_text slot info.now }
    ensures len { array_vec_len out.new ≤ array_vec_len out.old + 137 }
{
    push_text(out, "enclave ");
    push_decimal(out, u32::from(slot.number()));
    push_text(out, " ");
    push_state(out, info.state);
    push_block(out, info.region);
    push_block(out, info.window);
    push_number(out, info.entry);
    push_text(out, " ");
    push_digest(out, &info.measurement);
    push_text(out, "\n");
}

/// Writes the record of a slot's enclave, if it is live.
fn push_slot(out: &mut Reply, table: &Table, slot: Slot)
    requires room { array_vec_len out.old + 137 ≤ 2048 }
    ensures items { out.new.items ≡ out.old.items ++ slot_text slot (slot_at table.now slot) }
    ensures len { array_vec_len out.new ≤ array_vec_len out.old + 137 }
{
    if let Some(info) = table.get(slot) {
        push_enclave(out, slot, info);
    }
}

/// Writes the records of the live enclaves of these slots.
fn push_slots(out: &mut Reply, table: &Table, slots: &[Slot])
    requires room { array_vec_len out.old + 137 * length slots.now ≤ 2048 }
    ensures items { out.new.items ≡ out.old.items ++ flat_map (λ slot. slot_text slot (slot_at table.now slot)) slots.now }
    ensures len { array_vec_len out.new ≤ array_vec_len out.old + 137 * length slots.now }
{
    for slot in slots {
        push_slot(out, table, *slot);
    }
}

/// Writes the records of the live enclaves, sorted by slot.
#[tactic(auto, unfolding(crate::specs::EnclaveText::table_text))]
fn push_table(out: &mut Reply, table: &Table)
    requires room { array_vec_len out.old + 1781 ≤ 2048 }
    ensures items { out.new.items ≡ out.old.items ++ table_text table.now }
    ensures len { array_vec_len out.new ≤ array_vec_len out.old + 1781 }
{
    push_slots(out, table, &Slot::ALL);
}

/// Writes the records of a target's live enclaves. A bare machine has none.
pub(crate) fn push_enclaves(out: &mut Reply, target: &Target)
    requires room { array_vec_len out.old + 1781 ≤ 2048 }
    ensures items { out.new.items ≡ out.old.items ++ enclaves_text target.now }
    ensures len { array_vec_len out.new ≤ array_vec_len out.old + 1781 }
{
    match target {
        Target::Bare(_) => {}
        Target::Monitored(selected) => push_table(out, selected.machine.table()),
    }
}

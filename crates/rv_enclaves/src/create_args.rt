//! The arguments of the call `create`.

ghost use Rattle.std.specs.Prelude.{◌≡◌};
ghost use Rattle.rv_enclaves.specs.Table.{is_window};
ghost use Rattle.rv_enclaves.specs.Create.{create_args_of, is_entry, collides as collides_with};

use crate::slot_info::SlotInfo;
use crate::valid_block::is_valid_block;
use rv_memory::{Block, Ram, no_block};
use rv_state::Regs;
use rv_word::Reg;

/// The arguments of the call `create`.
#[derive(Clone, Copy)]
pub struct CreateArgs {
    /// The region: its base a0, and its size a1 in bytes.
    pub region: Block,
    /// The window: its base a2, and its size a3 in bytes. It is the empty block if a3 is 0.
    pub window: Block,
    /// The entry point: a4.
    pub entry: u32,
}

impl CreateArgs {
    /// Returns the arguments that a0 to a4 have.
    pub fn new(regs: &Regs) -> Self
        ensures { result ≡ create_args_of regs.now }
    {
        let window_size = regs.get(Reg::new(13));
        CreateArgs {
            region: Block {
                base: regs.get(Reg::new(10)),
                size: regs.get(Reg::new(11)),
            },
            window: if window_size == 0 {
                no_block()
            } else {
                Block {
                    base: regs.get(Reg::new(12)),
                    size: window_size,
                }
            },
            entry: regs.get(Reg::new(14)),
        }
    }

    /// Returns whether the window is a valid block, or absent.
    #[tactic(auto, unfolding(crate::specs::Table::is_window))]
    pub(crate) fn has_valid_window(&self, memory: &Ram) -> bool
        ensures { result ≡ is_window memory.now self.now.window }
    {
        self.window.base == 0 && self.window.size == 0 || is_valid_block(self.window, memory)
    }

    /// Returns whether the entry point is aligned and in the region.
    #[tactic(auto, unfolding(crate::specs::Create::is_entry))]
    pub(crate) const fn has_entry(&self) -> bool
        ensures { result ≡ is_entry self.now }
    {
        self.entry % 4 == 0 && self.region.has(self.entry)
    }

    /// Returns whether the new enclave would overlap that of a slot in bytes that the two may not share. Two windows may overlap.
    pub(crate) fn collides(&self, slot: &Option<SlotInfo>) -> bool
        ensures { result ≡ collides_with self.now slot.now }
    {
        match slot {
            None => false,
            Some(info) => {
                self.region.meets(info.region)
                    || self.region.meets(info.window)
                    || self.window.meets(info.region)
            }
        }
    }
}

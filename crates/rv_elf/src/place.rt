//! Checks the addresses that an image may use.

ghost use Rattle.std.specs.Prelude.{◌≡◌};
ghost use Rattle.rv_elf.specs.Places.{first_address as first_address_of, has_place as has_place_of, lies_inside as lies_inside_of};
ghost use Rattle.rv_elf.specs.Places.{meets_reserved as meets_reserved_of};

use rv_memory::{Block, RAM_BASE, monitor_block};

/// Returns the first address that an image may use: 80000000, the start of RAM, or 80010000 if a monitor is below it.
pub(crate) fn first_address(monitored: bool) -> u32
    ensures { result ≡ first_address_of monitored }
{
    let monitor = monitor_block();
    if monitored {
        monitor.base + monitor.size
    } else {
        RAM_BASE
    }
}

/// Returns whether `count` bytes from an address on are inside a RAM of this size.
fn lies_inside(ram_size: u32, address: u32, count: u32) -> bool
    ensures { result ≡ lies_inside_of ram_size address count }
{
    address >= RAM_BASE
        && u64::from(address) + u64::from(count) <= u64::from(RAM_BASE) + u64::from(ram_size)
}

/// Returns whether one of `count` bytes from an address on is in the range of a monitor, if there is one.
#[tactic(auto, unfolding(crate::specs::Places::meets_reserved))]
fn meets_reserved(monitored: bool, address: u32, count: u32) -> bool
    ensures { result ≡ meets_reserved_of monitored address count }
{
    let bytes = Block {
        base: address,
        size: count,
    };
    monitored && monitor_block().meets(bytes)
}

/// Returns whether an image may use `count` bytes from an address on: they are inside a RAM of this size, and none is in the range of a monitor.
pub(crate) fn has_place(ram_size: u32, monitored: bool, address: u32, count: u32) -> bool
    ensures { result ≡ has_place_of ram_size monitored address count }
{
    lies_inside(ram_size, address, count) && !meets_reserved(monitored, address, count)
}

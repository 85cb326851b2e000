//! Valid blocks of memory.

ghost use Rattle.rv_memory.specs.Memory.{is_inside};
ghost use Rattle.std.specs.Prelude.{true, ◌≡◌, ◌==◌, ◌^◌, ◌-◌, ◌≤◌, ◌<◌};
ghost use Rattle.std.specs.List.{list_any, range_with_len};
ghost use Rattle.rv_enclaves.specs.ValidBlocks.{is_block_size as is_size, is_valid_block as is_valid_block_of};

use rv_memory::{Block, Ram};

/// Returns whether a size is a power of two from 4096 up.
fn is_block_size(size: u32) -> bool
    ensures { result ≡ is_size size }
{
    is_power_between(size, 12, 32)
}

/// Returns whether a number is 2^k for a k from `first` up to, and without, `last`.
fn is_power_between(number: u32, first: u32, last: u32) -> bool
    requires { last ≤ 32 }
    ensures { result ≡ list_any (λ k. number == 2 ^ k) (range_with_len first (last - first)) }
{
    (first..last).any(|k| is_power(number, k))
}

/// Returns whether a number is 2^k.
const fn is_power(number: u32, k: u32) -> bool
    requires { k < 32 }
    ensures { result ≡ (number == 2 ^ k) }
{
    number == 1 << k
}

/// Returns whether a block is valid. Its size is a power of two from 4096 up, its base is a multiple of the size, and all its bytes are in RAM.
#[tactic(auto, unfolding(crate::specs::ValidBlocks::is_valid_block))]
pub(crate) fn is_valid_block(block: Block, memory: &Ram) -> bool
    ensures value { result ≡ is_valid_block_of memory.now block }
    ensures inside { result ≡ true → is_inside memory.now block.base block.size ≡ true }
{
    block.size != 0
        && is_block_size(block.size)
        && block.base % block.size == 0
        && memory.contains(block.base, block.size)
}

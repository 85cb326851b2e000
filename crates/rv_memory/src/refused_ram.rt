//! The allocation of a RAM, and the error if it is refused.

ghost use Rattle.std.specs.Prelude.{◌≡◌, replicate, IfOk, IfErr};

use std::alloc::{AllocError, Global};

/// A refused allocation of a RAM. Only `zeros` makes one, when its allocation fails. No other function can report that memory is exhausted for a
/// RAM without having received one.
#[derive(Clone, Copy, Debug, PartialEq, Eq)]
pub struct RefusedRam {
    bytes: u32,
}

impl RefusedRam {
    /// Returns the size that was refused, in bytes.
    pub fn bytes(self) -> u32
        ensures { result ≡ self.bytes }
    {
        self.bytes
    }
}

/// Returns this many bytes, all 0.
///
/// # Errors
///
/// `RefusedRam` with this number, if the allocation fails.
pub(crate) fn zeros(alloc: Global, bytes: u32) -> Result<Vec<u8>, RefusedRam>
    ensures made { IfOk result (λ zeros. zeros.items ≡ replicate bytes 0) }
    ensures refused { IfErr result (λ refused. refused.bytes ≡ bytes) }
{
    match vec![in alloc; 0; bytes as usize] {
        Ok(zeros) => Ok(zeros),
        Err(AllocError) => Err(RefusedRam { bytes }),
    }
}
